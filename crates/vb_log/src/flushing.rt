//! What putting a content on disk asks of it.

ghost use Rattle.std.specs.Prelude.{◌≡◌, ◌≤◌, ◌<◌, ◌^◌, map as list_map, IsTrue, IfOk};
ghost use Rattle.std.specs.FinMap as map;
ghost use Rattle.std.specs.List.{AllByRecursion};
ghost use Rattle.doc_model.specs.declared.document.Item.{Item};
ghost use Rattle.vb_log.specs.Content.{has_collection};
ghost use Rattle.vb_log.specs.Flushing.{AreByPosition};
ghost use Rattle.vb_log.specs.Held.{item_weight, StandAtKeys};
ghost use Rattle.vb_log.specs.Keys.{IsAllowedKey};
ghost use Rattle.vb_log.specs.Sizes.{entry_length, key_length, doc_length, what_length};
ghost use Rattle.vb_log.specs.Spelling.{IsAllowed, IsAllowedDoc, IsAllowedWhat};
ghost use Rattle.vb_log.specs.Stored.{IsStorable};

use crate::content::Content;
use crate::entry::Entry;
use crate::items::Items;
use crate::ordering::listed;
use crate::sizes::size_of;
use doc_model::{Doc, DocKey, Item, What};
use kv_edge::{Copied, NoMemory};
use leb_collections::write_id;
use std::alloc::Global;

/// A content without its items: what is left in memory of one whose items are on disk.
pub fn emptied(alloc: Global, content: &Content) -> Result<Content, NoMemory>
    ensures { IfOk result (λ left. left ≡ record content.now { items = map.empty }) }
{
    Ok(Content {
        items: Items::new(alloc),
        prepares: content.prepares.copy(alloc)?,
        manifest: content.manifest.copy(alloc)?,
        greatest_cas: content.greatest_cas,
        length: content.length,
    })
}

/// The items, in rising order of the positions at which they were made. It costs a sort.
pub fn by_position(alloc: Global, content: &Content) -> Result<Vec<&Item>, NoMemory>
    ensures items { IfOk result (λ items. AreByPosition content.now.items (list_map (λ i. i.now) items.items)) }
    ensures stand { StandAtKeys content.now.items }
    ensures present { IfOk result (λ items. AllByRecursion (λ (i : Item). IsTrue (has_collection content.now.manifest i.key.collection)) (list_map (λ i. i.now) items.items)) }
{
    let mut items = listed(alloc, content.items.values())?;
    items.sort_unstable_by_key(|item| item.seqno);
    Ok(items)
}

/// What an item counts in a content.
pub fn weight(item: &Item) -> u64
    requires { IsStorable item.now }
    ensures { result ≡ item_weight item.now }
{
    size_of(&item.key, &item.what)
}

/// How many bytes the spelling of an entry has.
pub fn spelt_length(entry: &Entry) -> u64
    requires { IsAllowed entry.now }
    ensures value { result ≡ entry_length entry.now }
    ensures fits { result < 2 ^ 32 }
{
    match entry {
        Entry::Mutation { key, doc } => 1 + key_length(key) + doc_length(doc),
        Entry::Deletion { key, .. } => 1 + key_length(key) + 8,
        Entry::Prepare { key, what, .. } => 2 + key_length(key) + what_length(what),
        Entry::Commit { .. } | Entry::Abort { .. } => 9,
        Entry::Manifest { text } => 5 + text.len() as u64,
    }
}

/// How many bytes the spelling of a key has.
fn key_length(key: &DocKey) -> u64
    requires { IsAllowedKey key.now }
    ensures value { result ≡ key_length key.now }
    ensures fits { result ≤ 256 }
{
    let mut id = [0; 5];
    let size = write_id(key.collection, &mut id);
    1 + size as u64 + key.key.len() as u64
}

/// How many bytes the spelling of a document has.
fn doc_length(doc: &Doc) -> u64
    requires { IsAllowedDoc doc.now }
    ensures value { result ≡ doc_length doc.now }
    ensures fits { result < 2 ^ 31 }
{
    25 + doc.xattrs.len() as u64 + doc.value.len() as u64
}

/// How many bytes the spelling of a change has.
fn what_length(what: &What) -> u64
    requires { IsAllowedWhat what.now }
    ensures value { result ≡ what_length what.now }
    ensures fits { result ≤ 2 ^ 31 }
{
    match what {
        What::Put(doc) => 1 + doc_length(doc),
        What::Remove(_) => 9,
    }
}
