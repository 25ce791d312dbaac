//! What items and waiting changes count.

ghost use Rattle.std.specs.Prelude.{◌≡◌, ◌<◌, ◌^◌};
ghost use Rattle.doc_model.specs.declared.document.What.TheVariants as whats;
ghost use Rattle.vb_log.specs.Sizes.{size_of};
ghost use Rattle.vb_log.specs.Held.{item_weight, waiting_size};
ghost use Rattle.vb_log.specs.Wholes.{listed_size};

use crate::entry::Pending;
use crate::limits::ITEM_OVERHEAD;
use doc_model::{Doc, DocKey, Item, Weigh, What};

/// What a key and what it has, or is to get, count.
pub(crate) fn size_of(key: &DocKey, what: &What) -> u64
    requires { size_of key.now what.now < 2 ^ 64 }
    ensures { result ≡ size_of key.now what.now }
{
    match what {
        What::Put(doc) => put_size(key, doc),
        What::Remove(_) => remove_size(key),
    }
}

/// What a key and its document count.
pub(crate) fn put_size(key: &DocKey, doc: &Doc) -> u64
    requires { size_of key.now (whats.Put doc.now) < 2 ^ 64 }
    ensures { result ≡ size_of key.now (whats.Put doc.now) }
{
    let bytes = doc.xattrs.len() as u64 + doc.value.len() as u64;
    ITEM_OVERHEAD + key.key.len() as u64 + bytes
}

/// What a key and the mark of its deletion count.
pub(crate) fn remove_size(key: &DocKey) -> u64
    requires { size_of key.now (whats.Remove 0) < 2 ^ 64 }
    ensures { result ≡ size_of key.now (whats.Remove 0) }
{
    ITEM_OVERHEAD + key.key.len() as u64
}

/// What items count together.
pub(crate) fn listed_size(items: &[Item]) -> u64
    requires { listed_size items.now < 2 ^ 64 }
    ensures { result ≡ listed_size items.now }
{
    let mut total = 0;
    for item in items {
        total += size_of(&item.key, &item.what);
    }
    total
}

/// What changes that wait count together.
pub(crate) fn waiting_size(changes: &[Pending]) -> u64
    requires { waiting_size changes.now < 2 ^ 64 }
    ensures { result ≡ waiting_size changes.now }
{
    let mut total = 0;
    for change in changes {
        total += size_of(&change.key, &change.what);
    }
    total
}

/// Items count by their keys and what these have.
pub(crate) struct BySize;

impl Weigh<Item> for BySize {
    ghost weight = { item_weight };

    fn weigh(&self, item: &Item) -> u64 {
        size_of(&item.key, &item.what)
    }
}
