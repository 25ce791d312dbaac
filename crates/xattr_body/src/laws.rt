//! Laws of sections and of attributes. Each function does nothing; its contract is the law.

ghost use Rattle.std.specs.Prelude.{◌≡◌, ◌≢◌, ℕ, ◌+◌, ◌≤◌, ◌<◌, ◌^◌, List, [], ◌∷◌, ◌++◌};
ghost use Rattle.std.specs.Prelude.{filter, not, length, Some, None};
ghost use Rattle.xattr_body.specs.Section.{Pair, same_name, names, IsPair, ArePairs};
ghost use Rattle.xattr_body.specs.Section.{pairs_bytes, section_of, HaveSection, IsSection};
ghost use Rattle.xattr_body.specs.Faults.{Breaks};
ghost use Rattle.xattr_body.specs.Edits.{value_of, with_pair, without};
ghost use Rattle.xattr_body.specs.Pairs.{pairs_in};

use crate::{NAME_LIMIT, SECTION_LIMIT, VALUE_DEEP};

/// The limits have these numbers.
pub fn limits()
    ensures name { NAME_LIMIT ≡ 16 }
    ensures deep { VALUE_DEEP ≡ 31 }
    ensures section { SECTION_LIMIT ≡ 1048576 }
{}

/// What is written is read back: attributes that have a section have one, bytes are the section of
/// one list at most, and the pairs of a section are these.
pub fn section_is_read_back()
    ensures written { (pairs : List Pair) → HaveSection pairs
        → IsSection pairs (section_of pairs) }
    ensures read { (pairs : List Pair) → HaveSection pairs
        → pairs_in (section_of pairs) ≡ pairs }
    ensures one_section { (pairs : List Pair) (first second : List ℕ)
        → IsSection pairs first → IsSection pairs second → first ≡ second }
    ensures one_list { (first second : List Pair) (bytes : List ℕ)
        → IsSection first bytes → IsSection second bytes → first ≡ second }
    ensures its_pairs { (pairs : List Pair) (bytes : List ℕ) → IsSection pairs bytes
        → pairs_in bytes ≡ pairs }
{}

/// Bytes break off at one place at most, and then they are no section.
pub fn one_broken_place()
    ensures place { (bytes : List ℕ) (first second : ℕ)
        → Breaks bytes first → Breaks bytes second → first ≡ second }
    ensures none { (bytes : List ℕ) (place : ℕ) (pairs : List Pair)
        → Breaks bytes place → IsSection pairs bytes → ⊥ }
{}

/// A section whose bytes can be counted in four bytes, and four more, fits.
pub fn size_fits()
    ensures { (pairs : List Pair) → length (section_of pairs) < 2 ^ 32
        → length (pairs_bytes pairs) < 2 ^ 32 }
{}

/// After a put the name has the text that was put, other names have what they had, and each stands
/// where it stood; a new one is the last. Attributes that may stand together stay so.
pub fn put_changes_one()
    ensures its { (name value : List ℕ) (pairs : List Pair)
        → value_of name (with_pair name value pairs) ≡ Some value }
    ensures others { (name value other : List ℕ) (pairs : List Pair) → other ≢ name
        → value_of other (with_pair name value pairs) ≡ value_of other pairs }
    ensures in_place { (name value old : List ℕ) (pairs : List Pair)
        → value_of name pairs ≡ Some old → names (with_pair name value pairs) ≡ names pairs }
    ensures last { (name value : List ℕ) (pairs : List Pair) → value_of name pairs ≡ None
        → with_pair name value pairs ≡ pairs ++ (name, value) ∷ [] }
    ensures together { (name value : List ℕ) (pairs : List Pair) → ArePairs pairs
        → IsPair (name, value) → ArePairs (with_pair name value pairs) }
{}

/// A removal takes the pair of that name alone; the others stay in their order.
pub fn remove_takes_one()
    ensures alone { (name : List ℕ) (pairs : List Pair) → ArePairs pairs
        → without name pairs ≡ filter (λ pair. not (same_name pair.0 name)) pairs }
    ensures its { (name : List ℕ) (pairs : List Pair) → ArePairs pairs
        → value_of name (without name pairs) ≡ None }
    ensures others { (name other : List ℕ) (pairs : List Pair) → other ≢ name
        → value_of other (without name pairs) ≡ value_of other pairs }
    ensures whole { (name : List ℕ) (pairs : List Pair) → HaveSection pairs
        → HaveSection (without name pairs) }
{}
