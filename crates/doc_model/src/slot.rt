ghost use Rattle.std.specs.Prelude.{◌≡◌};
ghost use Rattle.doc_model.specs.Slots as slots;

use crate::key::DocKey;
use std::hash::{FoldHasher, Hasher};

/// Where a key is looked up: its collection, and a hash of its bytes.
#[derive(Clone, Copy, Debug, PartialEq, Eq, PartialOrd, Ord)]
pub(crate) struct Slot {
    pub(crate) collection: u32,
    pub(crate) hash: u32,
}

/// The slot of a key. The hash's seed is fixed.
#[tactic(auto, unfolding(crate::specs::Slots::slot_of))]
pub(crate) fn slot_of(key: &DocKey) -> Slot
    ensures { result ≡ slots.slot_of key.now }
{
    let mut hasher = FoldHasher::default();
    hasher.write(key.key.as_slice());
    let hash = (hasher.finish() >> 32) as u32;
    Slot {
        collection: key.collection,
        hash,
    }
}
