//! Laws of the definitions. Each function does nothing; its contract is the law.

ghost use Rattle.std.specs.Prelude.{◌≡◌, ℕ, ◌+◌, ◌≤◌, List, [], ◌∷◌, ◌++◌, length, Some, codes};
ghost use Rattle.json_model.specs.declared.asked.Part.{Part};
ghost use Rattle.json_model.specs.declared.asked.Lookup.TheVariants as lookups;
ghost use Rattle.json_model.specs.declared.asked.Edit.TheVariants as edits;
ghost use Rattle.json_model.specs.Spelled.{Tree, text, depth, Fits};
ghost use Rattle.json_model.specs.Plain.{value};
ghost use Rattle.json_model.specs.Follow.{Outcome, reached, missing, Follows};
ghost use Rattle.json_model.specs.Moves.{Change, put, push, insert, remove};
ghost use Rattle.json_model.specs.Moves.{changed, at_trail, ChangeFits};
ghost use Rattle.json_model.specs.PlainMoves.{plain_changed, plain_at_trail};
ghost use Rattle.json_model.specs.Splices.{Reaches, Around};
ghost use Rattle.json_model.specs.Edit.{lookup_of, edit_of, key_text};
ghost use Rattle.json_model.specs.Worked.{two_elements, one_element, no_elements, third};
ghost use Rattle.json_model.specs.Worked.{two_members, no_members, member_c, nested_member};

use crate::{MOST_DEEP, PARTS_LIMIT, PATH_LIMIT, TEXT_LIMIT};

/// The limits have these numbers.
pub fn limits()
    ensures deep { MOST_DEEP ≡ 32 }
    ensures path_bytes { PATH_LIMIT ≡ 1024 }
    ensures path_parts { PARTS_LIMIT ≡ 32 }
    ensures text_bytes { TEXT_LIMIT ≡ 20971520 }
{}

/// Each look-up and each edit has the opcode that Couchbase's part of the memcached binary protocol
/// gives it.
pub fn opcodes()
    ensures get { lookup_of 197 ≡ Some lookups.Get }
    ensures exists { lookup_of 198 ≡ Some lookups.Exists }
    ensures dict_add { edit_of 199 ≡ Some edits.DictAdd }
    ensures dict_upsert { edit_of 200 ≡ Some edits.DictUpsert }
    ensures delete { edit_of 201 ≡ Some edits.Delete }
    ensures replace { edit_of 202 ≡ Some edits.Replace }
    ensures array_push_last { edit_of 203 ≡ Some edits.ArrayPushLast }
    ensures array_push_first { edit_of 204 ≡ Some edits.ArrayPushFirst }
    ensures array_insert { edit_of 205 ≡ Some edits.ArrayInsert }
    ensures array_add_unique { edit_of 206 ≡ Some edits.ArrayAddUnique }
    ensures counter { edit_of 207 ≡ Some edits.Counter }
    ensures get_count { lookup_of 210 ≡ Some lookups.GetCount }
{}

/// Following a path has one outcome at most.
pub fn one_outcome()
    ensures { (parts : List Part) (t : Tree) (first second : Outcome)
        → Follows parts t first → Follows parts t second → first ≡ second }
{}

/// The value to which a path leads, and the one in which it finds nothing of the name or the number
/// that it asks for, stand at the end of the trail that is told.
pub fn paths_lead_by_trails()
    ensures found { (parts : List Part) (t : Tree) (trail : List ℕ) (u : Tree)
        → Follows parts t (reached trail u) → Reaches trail t u }
    ensures absent { (parts : List Part) (t : Tree) (trail : List ℕ) (u : Tree) (rest : List Part)
        → Follows parts t (missing trail u rest) → Reaches trail t u }
{}

/// Changes of elements, blanks and all: each text was worked out by hand.
pub fn worked_elements()
    ensures before { text two_elements ≡ codes "[ 1 , 2 ]" }
    ensures pushed { text (changed (push third) two_elements) ≡ codes "[ 1 , 2,3 ]" }
    ensures first { text (changed (insert 0 third) two_elements) ≡ codes "[ 3,1 , 2 ]" }
    ensures between { text (changed (insert 1 third) two_elements) ≡ codes "[ 1 , 3,2 ]" }
    ensures at_length { text (changed (insert 2 third) two_elements) ≡ codes "[ 1 , 2,3 ]" }
    ensures into_none { text (changed (insert 0 third) no_elements) ≡ codes "[3 ]" }
    ensures first_gone { text (changed (remove 0) two_elements) ≡ codes "[ 2 ]" }
    ensures last_gone { text (changed (remove 1) two_elements) ≡ codes "[ 1 ]" }
    ensures only_gone { text (changed (remove 0) one_element) ≡ codes "[  ]" }
    ensures replaced { text (at_trail (1 ∷ []) (changed (put one_element)) two_elements)
        ≡ codes "[ 1 , [ 1 ] ]" }
{}

/// Changes of members, blanks and all: each text was worked out by hand.
pub fn worked_members()
    ensures before { text two_members ≡ codes "{ \"a\" : 1 , \"b\" : 2 }" }
    ensures pushed { text (changed (push member_c) two_members)
        ≡ codes "{ \"a\" : 1 , \"b\" : 2,\"c\":3 }" }
    ensures into_none { text (changed (push member_c) no_members) ≡ codes "{\"c\":3 }" }
    ensures first_gone { text (changed (remove 0) two_members) ≡ codes "{ \"b\" : 2 }" }
    ensures last_gone { text (changed (remove 1) two_members) ≡ codes "{ \"a\" : 1 }" }
    ensures under_names { text (changed (push nested_member) no_members)
        ≡ codes "{\"x\":{\"y\":[ 1 ]} }" }
    ensures key { key_text (0x61 ∷ 0x22 ∷ 0x5c ∷ 0x1f ∷ 0x0a ∷ 0xc3 ∷ 0xa9 ∷ [])
        ≡ codes "\"a\\\"\\\\\\u001f\\u000a" ++ (0xc3 ∷ 0xa9 ∷ 0x22 ∷ []) }
{}

/// What a change makes of a tree is, without the blanks, the plain change of the plain tree: of a
/// list of members or elements.
pub fn edits_are_plain()
    ensures { (trail : List ℕ) (change : Change) (t : Tree)
        → value (at_trail trail (changed change) t)
        ≡ plain_at_trail trail (plain_changed change) (value t) }
{}

/// A change of JSON leaves JSON, where what it brings is JSON that may stand there.
pub fn edits_keep_json()
    ensures { (trail : List ℕ) (change : Change) (root : Tree) → Fits root
        → ((t : Tree) → Reaches trail root t → ChangeFits change t)
        → Fits (at_trail trail (changed change) root) }
{}

/// A change of the value at the end of a trail leaves the bytes before and behind that value.
pub fn edits_are_splices()
    ensures { (trail : List ℕ) (root t : Tree) → Reaches trail root t
        → Around (λ f. text (at_trail trail f root)) t }
{}

/// A tree that isn't too deep stays so exactly where the changed value isn't too deep below its
/// trail.
pub fn depth_counts_below_the_trail()
    ensures within { (trail : List ℕ) (root t : Tree) (f : Tree → Tree) (most : ℕ)
        → Reaches trail root t → depth root ≤ most → length trail + depth (f t) ≤ most
        → depth (at_trail trail f root) ≤ most }
    ensures beyond { (trail : List ℕ) (root t : Tree) (f : Tree → Tree) (most : ℕ)
        → Reaches trail root t → depth root ≤ most → depth (at_trail trail f root) ≤ most
        → length trail + depth (f t) ≤ most }
{}
