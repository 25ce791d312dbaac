//! Laws of manifests. Each function does nothing; its contract is the law.

ghost use Rattle.std.specs.Prelude.{◌≡◌, ◌++◌, ℕ, List, [], false, Ok, Some, IsTrue};
ghost use Rattle.manifest_rules.specs.Catalog.{Catalog, numbers_fit};
ghost use Rattle.manifest_rules.specs.Form.{catalog_in};
ghost use Rattle.manifest_rules.specs.Rules.{manifest_step, first_catalog};
ghost use Rattle.manifest_rules.specs.State.{is_kept, state_of, IsAt, Breaks};
ghost use Rattle.manifest_rules.specs.Text.{text_of};
ghost use Rattle.manifest_rules.specs.Laws.{left_by, without_dropped, NeverBack, StaysDropped, DropsLost, scopes_there, collections_there};

use crate::types::{COUNT_LIMIT, DROPPED_LIMIT, NAME_LIMIT};
use doc_model::MANIFEST_LIMIT;

/// The text of a kept manifest is read back as the manifest, but for the ids that were dropped.
pub fn text_is_read_back()
    ensures { (m : Catalog) → IsTrue (is_kept m) → catalog_in (text_of m) ≡ Some (without_dropped m) }
{}

/// The limits: names of 251 characters, 1,200 scopes and 1,200 collections, 65,536 dropped ids of each kind, and texts
/// of 1,048,576 bytes.
pub fn manifest_numbers()
    ensures names { NAME_LIMIT ≡ 251 }
    ensures counts { COUNT_LIMIT ≡ 1200 }
    ensures dropped { DROPPED_LIMIT ≡ 65536 }
    ensures texts { MANIFEST_LIMIT ≡ 1048576 }
{}

/// A scope or a collection that was there and is gone later is never there again, whatever manifests are applied; nor is
/// one whose id is among the dropped ones.
pub fn no_id_comes_back()
    ensures scopes { NeverBack scopes_there }
    ensures collections { NeverBack collections_there }
    ensures dropped_scopes { StaysDropped scopes_there (λ m. m.dropped_scopes) }
    ensures dropped_collections { StaysDropped collections_there (λ m. m.dropped_collections) }
{}

/// The dropped ids after a manifest was applied: those from before, and those that were there and aren't any more.
pub fn dropped_ids_are_the_lost()
    ensures scopes { DropsLost scopes_there (λ m. m.dropped_scopes) }
    ensures collections { DropsLost collections_there (λ m. m.dropped_collections) }
{}

/// A manifest with the uid and the scopes of the one that is there changes nothing.
pub fn equal_changes_nothing()
    ensures { (m : Catalog) (new : Catalog) → new.uid ≡ m.uid → new.scopes ≡ m.scopes
        → manifest_step m new ≡ Ok (record { after = m; dropped = []; changed = false }) }
{}

/// A kept manifest stays kept, whatever manifest is applied over it.
pub fn kept_stays_kept()
    ensures first { IsTrue (is_kept first_catalog) }
    ensures step { (m : Catalog) (new : Catalog) → IsTrue (is_kept m) → IsTrue (numbers_fit new.uid new.scopes)
        → IsTrue (is_kept (left_by m (manifest_step m new))) }
{}

/// Bytes begin with the state of one kept manifest at most.
pub fn state_is_read_back()
    ensures { (m : Catalog) (n : Catalog) (rest : List ℕ) (more : List ℕ) → IsTrue (is_kept m) → IsTrue (is_kept n)
        → state_of m ++ rest ≡ state_of n ++ more → m ≡ n }
{}

/// Bytes break the layout of a state at one place, and then they begin with no state.
pub fn one_broken_place()
    ensures place { (bytes : List ℕ) (first second : ℕ) → Breaks bytes first → Breaks bytes second → first ≡ second }
    ensures none { (bytes : List ℕ) (place : ℕ) (m : Catalog) (size : ℕ) → Breaks bytes place → IsAt bytes m size → ⊥ }
{}
