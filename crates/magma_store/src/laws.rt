//! Laws of what a device holds. Each function does nothing; its contract is the law.

ghost use Rattle.std.specs.Prelude.{◌≡◌, ◌↔◌, ℕ, List};
ghost use Rattle.std.specs.FinMap as map;
ghost use Rattle.doc_model.specs.Keys.{key_cmp};
ghost use Rattle.manifest_rules.specs.Catalog.{Catalog};
ghost use Rattle.vb_log.specs.declared.entry.Pending.{Pending};
ghost use Rattle.vb_log.specs.Content.{Content};
ghost use Rattle.vb_log.specs.Held.{StandAtKeys};
ghost use Rattle.vb_log.specs.Wholes.{AreParts};
ghost use Rattle.magma_disk.specs.Device.{Device};
ghost use Rattle.magma_disk.specs.Calls.{MayLeave};
ghost use Rattle.magma_store.specs.Forms.{IsDamaged};
ghost use Rattle.magma_store.specs.Held.{Held, IsStore, IsUnused, IsOnDisk};
ghost use Rattle.magma_store.specs.Store.{LeadTo};
ghost use Rattle.magma_store.specs.Whole.{content_of};
ghost use Rattle.magma_store.specs.declared.spot.Spot.{Spot};

/// A device is that of one store in one layout, or without a store, or damaged, and no two of these.
pub fn a_device_is_one_thing()
    ensures one_store { (first second : Held) (m n : ℕ) (bytes : List ℕ) → IsStore first m bytes → IsStore second n bytes
        → (first ≡ second) × (m ≡ n) }
    ensures used { (held : Held) (m : ℕ) (bytes : List ℕ) → IsStore held m bytes → IsUnused bytes → ⊥ }
    ensures whole { (held : Held) (m place found expected : ℕ) (bytes : List ℕ) → IsStore held m bytes
        → IsDamaged bytes place found expected → ⊥ }
    ensures unused { (place found expected : ℕ) (bytes : List ℕ) → IsUnused bytes → IsDamaged bytes place found expected → ⊥ }
{}

/// Each crash leaves the store that is on disk.
pub fn what_is_on_disk_survives()
    ensures { (held : Held) (layout : ℕ) (states : List Device) (image : List ℕ) → IsOnDisk held layout states
        → MayLeave states image → IsStore held layout image }
{}

/// A content has the parts of a store, its items, its greatest CAS and its length, exactly where it is the content of these. And
/// each item of a store whose spots lead to them stands at its own key.
pub fn a_content_has_a_stores_parts()
    ensures parts { (held : Held) (manifest : Catalog) (prepares : List Pending) (c : Content) → StandAtKeys held.items
        → AreParts (map.values held.items) prepares manifest held.meta.cas held.meta.length c ↔ (c ≡ content_of held manifest prepares) }
    ensures stand { (spots : map.FinMap key_cmp Spot) (held : Held) (layout : ℕ) (states : List Device)
        → LeadTo spots held.items layout states → StandAtKeys held.items }
{}
