//! Laws of the answers. Each function does nothing; its contract is the law.

ghost use Rattle.std.specs.Prelude.{◌≡◌, ℕ, Bool, List, Result};
ghost use Rattle.doc_model.specs.declared.status.Status.{Status};
ghost use Rattle.json_model.specs.declared.asked.Lookup.{Lookup};
ghost use Rattle.json_model.specs.declared.asked.Edit.{Edit};
ghost use Rattle.json_model.specs.Order.{Looks, Edits, EditedText};
ghost use Rattle.subdoc_step.specs.Answers.{looked_up, edited};

/// A look-up answers what the definition says, and nothing else.
pub fn look_ups_have_one_answer()
    ensures answered { (lookup : Lookup) (text path : List ℕ)
        → Looks lookup text path (looked_up lookup text path) }
    ensures only { (lookup : Lookup) (text path : List ℕ) (answer : Result (List ℕ) Status)
        → Looks lookup text path answer → answer ≡ looked_up lookup text path }
{}

/// An edit answers what the definition says, and nothing else.
pub fn edits_have_one_answer()
    ensures answered { (edit : Edit) (several : Bool) (text path value : List ℕ)
        → Edits edit several text path value (edited edit several text path value) }
    ensures only { (edit : Edit) (several : Bool) (text path value : List ℕ)
        (answer : Result EditedText Status)
        → Edits edit several text path value answer → answer ≡ edited edit several text path value }
{}
