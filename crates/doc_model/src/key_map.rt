ghost use Rattle.std.specs.Prelude.{◌≡◌, ◌++◌, ◌<◌, ◌^◌, ◌&&◌, not, is_some, map as list_map, if◌then◌else◌, IfOk, OnOk, OnErr};
ghost use Rattle.std.specs.Map.{lookup};
ghost use Rattle.std.specs.BTreeMap.{is_at, IsOrdered};
ghost use Rattle.doc_model.specs.declared.key.DocKey.{DocKey};
ghost use Rattle.std.specs.List.Sorted.{IsNonDecreasing};
ghost use Rattle.std.specs.Option.{option_copied};
ghost use Rattle.std.specs.FinMap as map;
ghost use Rattle.doc_model.specs.Keys.{key_cmp, is_in};
ghost use Rattle.doc_model.specs.Values.{AreValues, weight_of, of_collection};

use crate::dropping::{remove_others, remove_slots};
use crate::key::DocKey;
use crate::slot::{Slot, slot_of};
use crate::values::Values;
use crate::weighing::{Weigh, others_weight, slots_weight};
use kv_edge::{Copied, NoMemory};
use std::alloc::Global;
use std::collections::BTreeMap;
use std::marker::Model;
use std::mem;

/// A map from keys to values, that contracts see as a finite map.
///
/// A key is looked up by its slot, its collection and a hash of its bytes, so that a walk down the tree compares numbers
/// that stand side by side and follows a pointer to a key's bytes once. Where two keys have one slot, the later one stands
/// among the others, in a tree by the keys themselves: so a look-up costs the logarithm of the number of keys whatever
/// the keys are.
#[derive(Drop)]
pub struct KeyMap<V> {
    /// What stands in each slot that is taken.
    slots: BTreeMap<Slot, (DocKey, V)>,
    /// What keys have that found their slot taken by another.
    others: BTreeMap<DocKey, V>,
}

impl<V> Model for KeyMap<V> {
    ghost use Rattle.std.specs.Prelude.{◌++◌};
    ghost use Rattle.std.specs.FinMap as map;
    ghost use Rattle.std.specs.Map.{values_of};
    ghost use Rattle.doc_model.specs.Keys.{key_cmp, coded_key};
    ghost use Rattle.doc_model.specs.Slots.{AreTrees};

    ghost Value = { map.FinMap key_cmp V };

    ghost coded = { map.code coded_key V.code };

    ghost view = { λ m. map.from_entries (values_of m.slots.entries ++ m.others.entries) };

    ghost invariant = { λ m. AreTrees m.slots.entries m.others.entries };
}

impl<V> KeyMap<V> {
    /// An empty map. It takes no memory.
    pub fn new(alloc: Global) -> KeyMap<V>
        ensures { result ≡ map.empty }
    {
        KeyMap {
            slots: BTreeMap::new(alloc),
            others: BTreeMap::new(alloc),
        }
    }

    /// What the key has.
    pub fn get(&self, key: &DocKey) -> Option<&V>
        ensures { option_copied result ≡ map.get self.now key.now }
    {
        if let Some(entry) = self.slots.get(&slot_of(key)) {
            if entry.0 == *key {
                return Some(&entry.1);
            }
        }
        self.others.get(key)
    }

    /// Sets what the key has, and answers what it had. The key is copied unless it stands in its slot. At `Err` the map is
    /// as before, and the new value is dropped.
    pub fn insert(&mut self, alloc: Global, key: &DocKey, value: V) -> Result<Option<V>, NoMemory>
    where
        V: Drop,
        ensures before { IfOk result (λ before. before ≡ map.get self.old key.now) }
        ensures ok { OnOk result (self.new ≡ map.insert self.old key.now value) }
        ensures err { OnErr result (self.new ≡ self.old) }
    {
        let slot = slot_of(key);
        if let Some(entry) = self.slots.get_mut(&slot) {
            if entry.0 == *key {
                return Ok(Some(mem::replace(&mut entry.1, value)));
            }
            return Ok(self.others.insert(key.copy(alloc)?, value)?);
        }
        let copied = key.copy(alloc)?;
        self.slots.insert(slot, (copied, value))?;
        Ok(self.others.remove(key))
    }

    /// Sets what the key has, where it has anything, and answers what it had. It takes no memory. Where the key has nothing,
    /// the map is as before, and the new value is dropped.
    pub fn replace(&mut self, key: &DocKey, value: V) -> Option<V>
    where
        V: Drop,
        ensures before { result ≡ map.get self.old key.now }
        ensures replaced { self.new ≡ (if is_some (map.get self.old key.now) then map.insert self.old key.now value else self.old) }
    {
        if let Some(entry) = self.slots.get_mut(&slot_of(key)) {
            if entry.0 == *key {
                return Some(mem::replace(&mut entry.1, value));
            }
        }
        replace_other(&mut self.others, key, value)
    }

    /// Takes away what the key has, and answers it.
    pub fn remove(&mut self, key: &DocKey) -> Option<V>
    where
        V: Drop,
        ensures before { result ≡ map.get self.old key.now }
        ensures removed { self.new ≡ map.remove self.old key.now }
    {
        let elsewhere = self.others.remove(key);
        let slot = slot_of(key);
        if let Some(entry) = self.slots.get(&slot) {
            if entry.0 == *key {
                return match self.slots.remove(&slot) {
                    Some((_key, had)) => Some(had),
                    None => None,
                };
            }
        }
        elsewhere
    }

    /// Takes away what the keys of these collections have, whose ids stand from the least to the greatest. It takes no
    /// memory. It costs a look-up for each key that stands in its slot, and a step for each key, of whatever collection,
    /// that found its slot taken.
    pub fn remove_collections(&mut self, collections: &[u32])
    where
        V: Drop,
        requires { IsNonDecreasing collections.now }
        ensures { self.new ≡ map.retain_keys self.old (λ key. not (is_in collections.now key)) }
    {
        remove_slots(&mut self.slots, collections);
        remove_others(&mut self.others, collections);
    }

    /// The values, that of each key once, in an order that is left open.
    pub fn values(&self) -> Values<'_, V>
        ensures { AreValues self.now (list_map (λ e. e.1) result.slots ++ result.others) }
    {
        Values {
            slots: self.slots.values(),
            others: self.others.values(),
        }
    }

    /// What the values of a collection's keys count together. It costs a step for each key of the collection, and one for
    /// each key, of whatever collection, that found its slot taken.
    pub fn weight_in<W: Weigh<V>>(&self, scale: &W, collection: u32) -> u64
        requires { weight_of W.weight self.now < 2 ^ 64 }
        ensures { result ≡ weight_of W.weight (of_collection collection self.now) }
    {
        slots_weight(&self.slots, scale, collection)
            + others_weight(&self.others, scale, collection)
    }
}

/// Sets what a key has that found its slot taken, where it has anything, and answers what it had.
fn replace_other<V: Drop>(others: &mut BTreeMap<DocKey, V>, key: &DocKey, value: V) -> Option<V>
    ensures before { result ≡ lookup (is_at (key_cmp key.now)) others.old.entries }
    ensures replaced { (other : DocKey) → lookup (is_at (key_cmp other)) others.new.entries ≡ (if is_some result && is_at (key_cmp key.now) other then Some value else lookup (is_at (key_cmp other)) others.old.entries) }
    ensures ordered { IsOrdered key_cmp others.new }
{
    match others.get_mut(key) {
        Some(there) => Some(mem::replace(there, value)),
        None => None,
    }
}
