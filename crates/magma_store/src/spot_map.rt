//! Where the items of keys stand, and what they count together.

ghost use Rattle.std.specs.Prelude.{◌≡◌, ◌+◌, ◌<◌, ◌≤◌, ◌^◌, ◌++◌, not, is_some, map as list_map, if◌then◌else◌, IsTrue, OnOk, OnErr};
ghost use Rattle.std.specs.FinMap as map;
ghost use Rattle.std.specs.Option.{option_copied};
ghost use Rattle.doc_model.specs.Keys.{key_cmp, is_in};
ghost use Rattle.doc_model.specs.Values.{AreValues};
ghost use Rattle.manifest_rules.specs.State.{are_rising};
ghost use Rattle.magma_store.specs.Spots.{size_at, spots_size};

use crate::spot::Spot;
use doc_model::{DocKey, KeyMap, Values, Weigh};
use kv_edge::NoMemory;
use std::alloc::Global;
use std::marker::Model;

/// The spot of each key that has one, and what the items there count together. Contracts see the map.
#[derive(Drop)]
pub(crate) struct SpotMap {
    by_key: KeyMap<Spot>,
    total: u64,
}

impl Model for SpotMap {
    ghost use Rattle.std.specs.Prelude.{◌≡◌};
    ghost use Rattle.std.specs.FinMap as map;
    ghost use Rattle.doc_model.specs.Keys.{key_cmp, coded_key};
    ghost use Rattle.magma_store.specs.contracts.spot.Spot as spot_rows;
    ghost use Rattle.magma_store.specs.declared.spot.Spot.{Spot};
    ghost use Rattle.magma_store.specs.Spots.{spots_size};

    ghost Value = { map.FinMap key_cmp Spot };

    ghost coded = { map.code coded_key spot_rows.the_row.coded };

    ghost view = { λ s. s.by_key };

    ghost invariant = { λ s. s.total ≡ spots_size s.by_key };
}

/// A spot counts what its item does.
struct ByItem;

impl Weigh<Spot> for ByItem {
    ghost use Rattle.magma_store.specs.Spots.{spot_weight};

    ghost weight = { spot_weight };

    fn weigh(&self, spot: &Spot) -> u64 {
        u64::from(spot.weight)
    }
}

impl SpotMap {
    /// No spots. It takes no memory.
    pub(crate) fn new(alloc: Global) -> SpotMap
        ensures { result ≡ map.empty }
    {
        SpotMap {
            by_key: KeyMap::new(alloc),
            total: 0,
        }
    }

    /// The spot of a key.
    pub(crate) fn get(&self, key: &DocKey) -> Option<&Spot>
        ensures { option_copied result ≡ map.get self.now key.now }
    {
        self.by_key.get(key)
    }

    /// All spots, that of each key once, in an order that is left open.
    pub(crate) fn values(&self) -> Values<'_, Spot>
        ensures { AreValues self.now (list_map (λ e. e.1) result.slots ++ result.others) }
    {
        self.by_key.values()
    }

    /// What all items count together.
    pub(crate) fn size(&self) -> u64
        ensures { result ≡ spots_size self.now }
    {
        self.total
    }

    /// What a key's item counts, 0 where it has none.
    pub(crate) fn size_at(&self, key: &DocKey) -> u64
        ensures value { result ≡ size_at (map.get self.now key.now) }
        ensures part { result ≤ spots_size self.now }
    {
        let _total = self.total;
        match self.by_key.get(key) {
            Some(spot) => u64::from(spot.weight),
            None => 0,
        }
    }

    /// What the items of some collections count together, whose ids rise.
    pub(crate) fn size_in(&self, collections: &[u32]) -> u64
        requires { IsTrue (are_rising collections.now) }
        ensures value { result ≡ spots_size (map.retain_keys self.now (is_in collections.now)) }
        ensures part { result ≤ spots_size self.now }
    {
        let _total = self.total;
        let mut total = 0;
        for collection in collections {
            total += self.by_key.weight_in(&ByItem, *collection);
        }
        total
    }

    /// Sets the spot of a key. At `Err` all is as before; it also comes where the sum would pass 64 bits.
    pub(crate) fn insert(&mut self, alloc: Global, key: &DocKey, spot: Spot) -> Result<(), NoMemory>
        ensures ok { OnOk result (self.new ≡ map.insert self.old key.now spot) }
        ensures err { OnErr result (self.new ≡ self.old) }
    {
        let total = match self.total.checked_add(u64::from(spot.weight)) {
            Some(total) => total,
            None => return Err(NoMemory),
        };
        let before = self.by_key.insert(alloc, key, spot)?;
        self.total = total - weight_of(before);
        Ok(())
    }

    /// Sets the spot of a key that has one. It takes no memory.
    pub(crate) fn replace(&mut self, key: &DocKey, spot: Spot)
        requires { spots_size self.old + spot.weight < 2 ^ 64 }
        ensures { self.new ≡ (if is_some (map.get self.old key.now) then map.insert self.old key.now spot else self.old) }
    {
        if let Some(before) = self.by_key.replace(key, spot) {
            self.total = self.total + u64::from(spot.weight) - u64::from(before.weight);
        }
    }

    /// Takes the spot of a key away.
    pub(crate) fn remove(&mut self, key: &DocKey)
        ensures { self.new ≡ map.remove self.old key.now }
    {
        if let Some(before) = self.by_key.remove(key) {
            self.total -= u64::from(before.weight);
        }
    }

    /// Takes the spots of some collections away, whose ids rise. It takes no memory.
    pub(crate) fn remove_collections(&mut self, collections: &[u32])
        requires { IsTrue (are_rising collections.now) }
        ensures { self.new ≡ map.retain_keys self.old (λ key. not (is_in collections.now key)) }
    {
        let size = self.size_in(collections);
        self.by_key.remove_collections(collections);
        self.total -= size;
    }
}

/// What the item of a spot counts, 0 where there is none.
fn weight_of(spot: Option<Spot>) -> u64
    ensures { result ≡ size_at spot }
{
    match spot {
        Some(spot) => u64::from(spot.weight),
        None => 0,
    }
}
