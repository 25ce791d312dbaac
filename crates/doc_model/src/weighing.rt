//! What the values of a collection count together.

ghost use Rattle.std.specs.Prelude.{◌≡◌, ◌<◌, ◌^◌, ℕ, filter, nat_eq, sum, map as list_map};
ghost use Rattle.std.specs.Map.{values_of};

use crate::key::DocKey;
use crate::slot::Slot;
use std::collections::BTreeMap;

/// How much values count.
pub trait Weigh<V> {
    /// What a value counts.
    ghost weight: { V → ℕ };

    /// What a value counts, which has to fit 64 bits.
    fn weigh(&self, value: &V) -> u64
        requires { weight value.now < 2 ^ 64 }
        ensures { result ≡ weight value.now };
}

/// What the values in the slots of a collection count, which stand next to each other.
pub(crate) fn slots_weight<V, W: Weigh<V>>(
    slots: &BTreeMap<Slot, (DocKey, V)>,
    scale: &W,
    collection: u32,
) -> u64
    requires { sum (list_map (λ e. W.weight e.1.1) slots.now.entries) < 2 ^ 64 }
    ensures { result ≡ sum (list_map (λ e. W.weight e.1.1) (filter (λ e. nat_eq e.0.collection collection) slots.now.entries)) }
{
    let first = Slot {
        collection,
        hash: 0,
    };
    let mut total = 0;
    for (slot, entry) in slots.range(first..) {
        if slot.collection != collection {
            return total;
        }
        total += scale.weigh(&entry.1);
    }
    total
}

/// What the values of a collection's keys count that found their slot taken.
pub(crate) fn others_weight<V, W: Weigh<V>>(
    others: &BTreeMap<DocKey, V>,
    scale: &W,
    collection: u32,
) -> u64
    requires { sum (list_map (λ e. W.weight e.1) others.now.entries) < 2 ^ 64 }
    ensures { result ≡ sum (list_map (λ e. W.weight e.1) (filter (λ e. nat_eq e.0.collection collection) others.now.entries)) }
{
    let mut total = 0;
    for (key, value) in others {
        if key.collection == collection {
            total += scale.weigh(value);
        }
    }
    total
}
