//! What a store tells of its items without reading the disk.

ghost use Rattle.std.specs.Prelude.{◌≡◌, ◌≤◌, is_some, IsTrue};
ghost use Rattle.std.specs.FinMap as map;
ghost use Rattle.doc_model.specs.Keys.{is_in};
ghost use Rattle.manifest_rules.specs.State.{are_rising};
ghost use Rattle.vb_log.specs.Held.{items_size};
ghost use Rattle.vb_log.specs.Sizes.{item_size};
ghost use Rattle.magma_store.specs.Held.{Held};
ghost use Rattle.magma_store.specs.Spots.{size_at, spots_size};
ghost use Rattle.magma_store.specs.Store.{IsOpen};

use crate::store::Store;
use doc_model::DocKey;
use magma_disk::Disk;

impl<D: Disk> Store<D> {
    /// Whether a key has an item, a document or the mark of a deletion. It reads no disk and takes no memory.
    pub fn has(&self, key: &DocKey) -> bool
        ensures item { (held : Held) → IsOpen D.states held self.now → result ≡ is_some (map.get held.items key.now) }
        ensures spot { result ≡ is_some (map.get self.now.spots key.now) }
    {
        self.spots.get(key).is_some()
    }

    /// What the item of a key counts, 0 where it has none. It reads no disk and takes no memory.
    pub fn weight_at(&self, key: &DocKey) -> u64
        ensures item { (held : Held) → IsOpen D.states held self.now → result ≡ item_size (map.get held.items key.now) }
        ensures spot { result ≡ size_at (map.get self.now.spots key.now) }
        ensures part { result ≤ spots_size self.now.spots }
    {
        self.spots.size_at(key)
    }

    /// What all items count together. It reads no disk and takes no memory, and costs the same however many there are.
    pub fn weight(&self) -> u64
        ensures items { (held : Held) → IsOpen D.states held self.now → result ≡ items_size held.items }
        ensures spots { result ≡ spots_size self.now.spots }
    {
        self.spots.size()
    }

    /// What the items of some collections count together, whose ids rise. It reads no disk and takes no memory. It costs a step
    /// for each item of these collections, and for each of them one for every key that found its slot in the map taken.
    pub fn weight_in(&self, collections: &[u32]) -> u64
        requires { IsTrue (are_rising collections.now) }
        ensures items { (held : Held) → IsOpen D.states held self.now
            → result ≡ items_size (map.retain_keys held.items (is_in collections.now)) }
        ensures spots { result ≡ spots_size (map.retain_keys self.now.spots (is_in collections.now)) }
        ensures part { result ≤ spots_size self.now.spots }
    {
        self.spots.size_in(collections)
    }
}
