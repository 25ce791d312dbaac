//! What the answers mean for those who ask. Each function does nothing; its contract is the law.

ghost use Rattle.std.specs.Prelude.{◌≡◌, ◌≢◌, ℕ, ◌<◌, ◌≤◌, Bool, List, [], ◌∷◌, length, Ok, Err};
ghost use Rattle.doc_model.specs.declared.status.TheConstants.Status as status;
ghost use Rattle.json_model.specs.declared.asked.Part.{Part};
ghost use Rattle.json_model.specs.declared.asked.Part.TheVariants.{Member};
ghost use Rattle.json_model.specs.declared.asked.Lookup.{Lookup};
ghost use Rattle.json_model.specs.declared.asked.Lookup.TheVariants as lookups;
ghost use Rattle.json_model.specs.declared.asked.Edit.{Edit};
ghost use Rattle.json_model.specs.declared.asked.Edit.TheVariants as edits;
ghost use Rattle.json_model.specs.declared.TheConstants.{MOST_DEEP};
ghost use Rattle.json_model.specs.Spelled.{text, Document, IsText};
ghost use Rattle.json_model.specs.Paths.{ReadsPath};
ghost use Rattle.xattr_body.specs.declared.TheConstants.{NAME_LIMIT, SECTION_LIMIT};
ghost use Rattle.xattr_body.specs.Section.{Pair, HasNoZero, ArePairs, section_of, HaveSection};
ghost use Rattle.xattr_body.specs.Edits.{value_of};
ghost use Rattle.xattr_step.specs.Object.{object_text};
ghost use Rattle.xattr_step.specs.Answers.{read_attribute, looked_up_in, EditedPairs, edited_in};

/// Attributes that may stand together are one JSON object, at most 32 deep.
pub fn attributes_are_an_object()
    ensures { (pairs : List Pair) → ArePairs pairs
        → (d : Document) × IsText MOST_DEEP d (object_text pairs) }
{}

/// An edit of attributes that have a section leaves attributes that have one.
pub fn edits_leave_sections()
    ensures { (edit : Edit) (several : Bool) (pairs : List Pair) (path value : List ℕ) (made : EditedPairs)
        → HaveSection pairs → edited_in edit several pairs path value ≡ Ok made
        → HaveSection made.pairs }
{}

/// An edit leaves each attribute but the one that its path leads into.
pub fn edits_keep_the_others()
    ensures { (edit : Edit) (several : Bool) (pairs : List Pair) (path value : List ℕ) (made : EditedPairs)
        (name other : List ℕ)
        → edited_in edit several pairs path value ≡ Ok made → read_attribute path ≡ Ok name
        → other ≢ name → value_of other made.pairs ≡ value_of other pairs }
{}

/// Where there are no attributes, a look-up finds none.
pub fn nothing_is_found_in_none()
    ensures { (lookup : Lookup) (path found : List ℕ) → looked_up_in lookup [] path ≡ Ok found → ⊥ }
{}

/// What is upserted at a path is what is found there then, without the blanks at both ends of the
/// value.
pub fn upserted_attribute_is_found()
    ensures { (several : Bool) (pairs : List Pair) (path value : List ℕ) (made : EditedPairs)
        → HaveSection pairs → edited_in edits.DictUpsert several pairs path value ≡ Ok made
        → (d : Document) × IsText MOST_DEEP d value
        × (looked_up_in lookups.Get made.pairs path ≡ Ok (text d.tree)) }
{}

/// The section of the attributes that an edit leaves has no more bytes than the limit.
pub fn sections_are_within()
    ensures { (edit : Edit) (several : Bool) (pairs : List Pair) (path value : List ℕ) (made : EditedPairs)
        → edited_in edit several pairs path value ≡ Ok made
        → length (section_of made.pairs) ≤ SECTION_LIMIT }
{}

/// No path leads into an attribute that is worked out: a name that begins with `$` is refused.
pub fn worked_out_names_are_refused()
    ensures { (path name : List ℕ) (rest : List Part) → ReadsPath path (Ok (Member (0x24 ∷ name) ∷ rest))
        → length name < NAME_LIMIT → HasNoZero name
        → read_attribute path ≡ Err status.XATTR_UNKNOWN_VATTR }
{}
