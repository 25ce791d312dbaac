//! What the answers mean for those who ask. Each function does nothing; its contract is the law.

ghost use Rattle.std.specs.Prelude.{◌≡◌, ℕ, ◌+◌, ◌≤◌, Bool, List, length, Result, Ok};
ghost use Rattle.doc_model.specs.declared.status.Status.{Status};
ghost use Rattle.json_model.specs.declared.asked.Part.{Part};
ghost use Rattle.json_model.specs.declared.asked.Lookup.{Lookup};
ghost use Rattle.json_model.specs.declared.asked.Lookup.TheVariants as lookups;
ghost use Rattle.json_model.specs.declared.asked.Edit.{Edit};
ghost use Rattle.json_model.specs.declared.asked.Edit.TheVariants as edits;
ghost use Rattle.json_model.specs.declared.TheConstants.{MOST_DEEP, TEXT_LIMIT};
ghost use Rattle.json_model.specs.Spelled.{text, Document, IsText};
ghost use Rattle.json_model.specs.Paths.{ReadsPath};
ghost use Rattle.json_model.specs.Order.{Edits, EditedText};
ghost use Rattle.subdoc_step.specs.Answers.{looked_up, edited};
ghost use Rattle.subdoc_step.specs.Apart.{AreNames, Apart};

/// An edit leaves a JSON text at most 32 deep.
pub fn edits_leave_json()
    ensures { (edit : Edit) (several : Bool) (bytes path value : List ℕ) (e : EditedText)
        → Edits edit several bytes path value (Ok e) → (d : Document) × IsText MOST_DEEP d e.text }
{}

/// What a look-up finds has no more bytes than the text and a number's digits, and what an edit
/// leaves has at most 20 MiB.
pub fn looks_are_within()
    ensures found { (lookup : Lookup) (bytes path found : List ℕ)
        → looked_up lookup bytes path ≡ Ok found → length found ≤ length bytes + 20 }
    ensures left { (edit : Edit) (several : Bool) (bytes path value : List ℕ) (e : EditedText)
        → edited edit several bytes path value ≡ Ok e → length e.text ≤ TEXT_LIMIT }
{}

/// What is upserted at a path is what is found there then, without the blanks at both ends of the
/// value.
pub fn upserted_is_found()
    ensures { (several : Bool) (bytes path value : List ℕ) (e : EditedText)
        → edited edits.DictUpsert several bytes path value ≡ Ok e
        → (d : Document) × IsText MOST_DEEP d value
        × (looked_up lookups.Get e.text path ≡ Ok (text d.tree)) }
{}

/// An edit at one path leaves what each path of names finds that parts from it: neither is a
/// beginning of the other.
pub fn other_members_stay()
    ensures { (edit : Edit) (several : Bool) (bytes path value : List ℕ) (e : EditedText)
        (lookup : Lookup) (other : List ℕ) (parts others : List Part)
        → edited edit several bytes path value ≡ Ok e
        → ReadsPath path (Ok parts) → ReadsPath other (Ok others)
        → AreNames others → Apart parts others
        → looked_up lookup e.text other ≡ looked_up lookup bytes other }
{}
