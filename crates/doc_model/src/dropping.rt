//! What is taken away from the trees of a map together with a collection.

ghost use Rattle.std.specs.Prelude.{◌≡◌, not, filter, nat_eq, MatchOption};
ghost use Rattle.std.specs.List.Sorted.{IsNonDecreasing};
ghost use Rattle.doc_model.specs.Keys.{is_in, is_among_ids};
ghost use Rattle.doc_model.specs.Slots.{HasNone, HasFirst};

use crate::key::DocKey;
use crate::slot::Slot;
use std::collections::BTreeMap;

/// Takes away what stands in the slots of these collections.
pub(crate) fn remove_slots<V: Drop>(slots: &mut BTreeMap<Slot, (DocKey, V)>, collections: &[u32])
    ensures { slots.new.entries ≡ filter (λ e. not (is_among_ids collections.now e.0.collection)) slots.old.entries }
{
    for collection in collections {
        remove_slots_of(slots, *collection);
    }
}

/// Takes away what stands in the slots of a collection, which stand next to each other.
fn remove_slots_of<V: Drop>(slots: &mut BTreeMap<Slot, (DocKey, V)>, collection: u32)
    ensures { slots.new.entries ≡ filter (λ e. not (nat_eq e.0.collection collection)) slots.old.entries }
{
    while let Some(slot) = first_slot(slots, collection) {
        slots.remove(&slot);
    }
}

/// The first slot of a collection that is taken.
fn first_slot<V>(slots: &BTreeMap<Slot, (DocKey, V)>, collection: u32) -> Option<Slot>
    ensures { MatchOption result (HasNone collection slots.now.entries) (HasFirst collection slots.now.entries) }
{
    let first = Slot {
        collection,
        hash: 0,
    };
    match slots.range(first..).next() {
        Some((slot, _)) => {
            if slot.collection == collection {
                Some(*slot)
            } else {
                None
            }
        }
        None => None,
    }
}

/// Takes away what keys of these collections have that found their slot taken.
pub(crate) fn remove_others<V: Drop>(others: &mut BTreeMap<DocKey, V>, collections: &[u32])
    requires { IsNonDecreasing collections.now }
    ensures { others.new.entries ≡ filter (λ e. not (is_in collections.now e.0)) others.old.entries }
{
    others.retain(|key, _value| !is_sought(collections, key));
}

/// Whether a key is in one of these collections, whose ids stand from the least to the greatest.
fn is_sought(collections: &[u32], key: &DocKey) -> bool
    ensures { IsNonDecreasing collections.now → result ≡ is_in collections.now key.now }
{
    collections.binary_search(&key.collection).is_ok()
}
