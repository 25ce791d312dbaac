//! What each key has.

ghost use Rattle.std.specs.Prelude.{◌≡◌, ◌≤◌, ◌<◌, ◌+◌, ◌^◌, ◌++◌, not, true, is_some, map as list_map, IsTrue, IfOk, OnOk, OnErr};
ghost use Rattle.std.specs.Option.{option_copied};
ghost use Rattle.std.specs.FinMap as map;
ghost use Rattle.doc_model.specs.Keys.{is_in};
ghost use Rattle.doc_model.specs.Values.{AreValues};
ghost use Rattle.manifest_rules.specs.State.{are_rising};
ghost use Rattle.manifest_rules.specs.Ids.{SameIds};
ghost use Rattle.vb_log.specs.Sizes.{item_size};
ghost use Rattle.vb_log.specs.Held.{item_weight, items_size, StandAtKeys};
ghost use Rattle.vb_log.specs.Wholes.{by_keys, listed_size};

use crate::sizes::{BySize, size_of};
use doc_model::{DocKey, Item, KeyMap, Values};
use kv_edge::{Copied, NoMemory, Seq};
use std::alloc::Global;
use std::marker::Model;

/// Items, each at its own key, and what they count together. Contracts see the map of them.
#[derive(Drop)]
pub(crate) struct Items {
    by_key: KeyMap<Item>,
    size: u64,
}

impl Model for Items {
    ghost use Rattle.std.specs.Prelude.{◌≡◌};
    ghost use Rattle.std.specs.FinMap as map;
    ghost use Rattle.doc_model.specs.Keys.{key_cmp, coded_key};
    ghost use Rattle.doc_model.specs.declared.document.Item.{Item};
    ghost use Rattle.doc_model.specs.contracts.document.Item as item_rows;
    ghost use Rattle.vb_log.specs.Held.{StandAtKeys, items_size};

    ghost Value = { map.FinMap key_cmp Item };

    ghost coded = { map.code coded_key item_rows.the_row.coded };

    ghost view = { λ items. items.by_key };

    ghost invariant = { λ items. (items.size ≡ items_size items.by_key) × StandAtKeys items.by_key };
}

impl Items {
    /// No items. It takes no memory.
    pub(crate) fn new(alloc: Global) -> Items
        ensures { result ≡ map.empty }
    {
        Items {
            by_key: KeyMap::new(alloc),
            size: 0,
        }
    }

    /// Items, of which no two may have one key if none is to be lost.
    pub(crate) fn from_vec(alloc: Global, items: Vec<Item>) -> Result<Items, NoMemory>
        requires { listed_size items.items < 2 ^ 64 }
        ensures { IfOk result (λ made. made ≡ map.from_entries (by_keys items.items)) }
    {
        let mut left = items;
        let mut made = Items::new(alloc);
        while let Some(item) = left.pop() {
            let key = item.key.copy(alloc)?;
            made.put(alloc, &key, item)?;
        }
        Ok(made)
    }

    /// What they count together.
    pub(crate) fn size(&self) -> u64
        ensures { result ≡ items_size self.now }
    {
        self.size
    }

    /// The item of a key.
    pub(crate) fn get(&self, key: &DocKey) -> Option<&Item>
        ensures { option_copied result ≡ map.get self.now key.now }
    {
        self.by_key.get(key)
    }

    /// What the item of a key counts, where there is one.
    pub(crate) fn size_at(&self, key: &DocKey) -> u64
        ensures value { result ≡ item_size (map.get self.now key.now) }
        ensures part { result ≤ items_size self.now }
    {
        let _size = self.size;
        match self.by_key.get(key) {
            Some(item) => size_of(&item.key, &item.what),
            None => 0,
        }
    }

    /// All items, each once, in an order that is left open.
    pub(crate) fn values(&self) -> Values<'_, Item>
        ensures values { AreValues self.now (list_map (λ e. e.1) result.slots ++ result.others) }
        ensures stand { StandAtKeys self.now }
        ensures fits { items_size self.now < 2 ^ 64 }
    {
        let _size = self.size;
        self.by_key.values()
    }

    /// Sets the item of a key, and answers the one before. At `Err` all is as before, and the new item is dropped.
    pub(crate) fn put(
        &mut self,
        alloc: Global,
        key: &DocKey,
        item: Item,
    ) -> Result<Option<Item>, NoMemory>
        requires own { item.key ≡ key.now }
        requires room { items_size self.old + item_weight item < 2 ^ 64 }
        ensures before { IfOk result (λ had. had ≡ map.get self.old key.now) }
        ensures ok { OnOk result (self.new ≡ map.insert self.old key.now item) }
        ensures err { OnErr result (self.new ≡ self.old) }
        ensures stand { StandAtKeys self.old }
    {
        let added = size_of(&item.key, &item.what);
        let had = self.by_key.insert(alloc, key, item)?;
        self.size = self.size + added - weight(&had);
        Ok(had)
    }

    /// Sets the item of a key that has one. It takes no memory.
    pub(crate) fn replace(&mut self, key: &DocKey, item: Item)
        requires own { item.key ≡ key.now }
        requires has { is_some (map.get self.old key.now) ≡ true }
        requires room { items_size (map.insert self.old key.now item) < 2 ^ 64 }
        ensures { self.new ≡ map.insert self.old key.now item }
    {
        let added = size_of(&item.key, &item.what);
        let had = self.by_key.replace(key, item);
        self.size = self.size - weight(&had) + added;
    }

    /// Takes away the item of a key, and answers it.
    pub(crate) fn remove(&mut self, key: &DocKey) -> Option<Item>
        ensures before { result ≡ map.get self.old key.now }
        ensures removed { self.new ≡ map.remove self.old key.now }
    {
        let had = self.by_key.remove(key);
        self.size -= weight(&had);
        had
    }

    /// What the items of some collections count together, whose ids rise.
    pub(crate) fn size_in(&self, collections: &[u32]) -> u64
        requires { IsTrue (are_rising collections.now) }
        ensures { result ≡ items_size (map.retain_keys self.now (is_in collections.now)) }
    {
        let _size = self.size;
        let mut total = 0;
        for collection in collections {
            total += self.by_key.weight_in(&BySize, *collection);
        }
        total
    }

    /// Takes away the items of some collections, whose ids rise.
    pub(crate) fn remove_collections(&mut self, collections: &[u32])
        requires { IsTrue (are_rising collections.now) }
        ensures { self.new ≡ map.retain_keys self.old (λ key. not (is_in collections.now key)) }
    {
        let dropped = self.size_in(collections);
        self.by_key.remove_collections(collections);
        self.size -= dropped;
    }
}

/// What an item counts, where there is one.
fn weight(item: &Option<Item>) -> u64
    requires { item_size item.now < 2 ^ 64 }
    ensures { result ≡ item_size item.now }
{
    match item {
        Some(item) => size_of(&item.key, &item.what),
        None => 0,
    }
}

/// The ids in rising order, each once.
pub fn rising(ids: Seq<u32>) -> Vec<u32>
    ensures rising { IsTrue (are_rising result.items) }
    ensures same { SameIds result.items ids }
{
    let mut rising = ids.into_vec();
    rising.sort_unstable();
    rising.dedup();
    rising
}
