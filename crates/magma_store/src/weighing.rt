//! What an item counts, and its CAS.

ghost use Rattle.std.specs.Prelude.{◌≡◌};
ghost use Rattle.vb_log.specs.Content.{cas_of};
ghost use Rattle.vb_log.specs.Held.{item_weight};
ghost use Rattle.vb_log.specs.Stored.{IsStorable};

use doc_model::{Item, What};
use vb_log::ITEM_OVERHEAD;

/// What an item counts: its overhead, and the bytes of its key, its attributes and its value.
pub(crate) fn weight_of(item: &Item) -> u32
    requires { IsStorable item.now }
    ensures { result ≡ item_weight item.now }
{
    let key = item.key.key.len() as u32;
    let bytes = match &item.what {
        What::Put(doc) => doc.xattrs.len() as u32 + doc.value.len() as u32,
        What::Remove(_) => 0,
    };
    ITEM_OVERHEAD as u32 + key + bytes
}

/// The CAS of a document, or of a deletion.
pub(crate) fn cas_of(what: &What) -> u64
    ensures { result ≡ cas_of what.now }
{
    match what {
        What::Put(doc) => doc.cas,
        What::Remove(cas) => *cas,
    }
}
