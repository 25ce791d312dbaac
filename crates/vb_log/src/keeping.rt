//! Whether parts of a content keep their limits.

ghost use Rattle.std.specs.Prelude.{◌≡◌, ◌↔◌, IsTrue, IfOk};
ghost use Rattle.std.specs.List.{AllByRecursion};
ghost use Rattle.vb_log.specs.Contents.{IsAllowedItem, IsNumbered};
ghost use Rattle.vb_log.specs.Keys.{IsAllowedKey};
ghost use Rattle.vb_log.specs.Prepares.{AreWaiting, IsWaiting};
ghost use Rattle.vb_log.specs.Spelling.{IsAllowedDoc, IsAllowedWhat, IsUnnumbered};
ghost use Rattle.vb_log.specs.Wholes.{KeepLimits};

use crate::adding::cas_of;
use crate::bounds::Bounds;
use crate::documents::is_section;
use crate::entry::Pending;
use crate::keys::name_limit;
use crate::limits::{GREATEST_CAS, GREATEST_LEVEL, GREATEST_POSITION, SECTION_LIMIT};
use doc_model::{Doc, DocKey, Item, VALUE_LIMIT, What};
use kv_edge::NoMemory;
use manifest_rules::{Manifest, has, is_kept};
use std::alloc::Global;

/// How many items and how many changes that wait a content has at most.
const COUNT_LIMIT: usize = u32::MAX as usize;

/// Whether each part keeps its limits.
pub(crate) fn keep_limits(
    alloc: Global,
    items: &[Item],
    pending: &[Pending],
    manifest: &Manifest,
    bounds: Bounds,
) -> Result<bool, NoMemory>
    ensures { IfOk result (λ b. IsTrue b ↔ KeepLimits items.now pending.now manifest.now bounds) }
{
    if bounds.last > GREATEST_POSITION || bounds.cas > GREATEST_CAS {
        return Ok(false);
    }
    if items.len() > COUNT_LIMIT || pending.len() > COUNT_LIMIT {
        return Ok(false);
    }
    Ok(
        is_kept(alloc, manifest)?
            && items_keep(alloc, items, manifest, bounds)?
            && changes_keep(alloc, pending, bounds)?,
    )
}

/// Whether each item keeps its limits.
fn items_keep(
    alloc: Global,
    items: &[Item],
    manifest: &Manifest,
    bounds: Bounds,
) -> Result<bool, NoMemory>
    ensures { IfOk result (λ b. IsTrue b ↔ AllByRecursion (IsAllowedItem manifest.now bounds) items.now) }
{
    for item in items {
        if !item_keeps(alloc, item, manifest, bounds)? {
            return Ok(false);
        }
    }
    Ok(true)
}

/// Whether an item keeps its limits.
fn item_keeps(
    alloc: Global,
    item: &Item,
    manifest: &Manifest,
    bounds: Bounds,
) -> Result<bool, NoMemory>
    ensures { IfOk result (λ b. IsTrue b ↔ IsAllowedItem manifest.now bounds item.now) }
{
    if item.seqno < 1 || item.seqno > bounds.last || cas_of(&item.what) > bounds.cas {
        return Ok(false);
    }
    if !has(manifest, item.key.collection) || !is_numbered(&item.what, item.seqno) {
        return Ok(false);
    }
    Ok(is_allowed_key(&item.key) && is_allowed_what(alloc, &item.what)?)
}

/// Whether each change that waits keeps its limits, and their positions rise.
fn changes_keep(alloc: Global, pending: &[Pending], bounds: Bounds) -> Result<bool, NoMemory>
    ensures { IfOk result (λ b. IsTrue b ↔ AreWaiting bounds 0 pending.now) }
{
    let mut before = 0;
    for change in pending {
        if !change_keeps(alloc, change, bounds, before)? {
            return Ok(false);
        }
        before = change.position;
    }
    Ok(true)
}

/// Whether a change that waits keeps its limits, and was prepared behind a position.
fn change_keeps(
    alloc: Global,
    change: &Pending,
    bounds: Bounds,
    before: u64,
) -> Result<bool, NoMemory>
    ensures { IfOk result (λ b. IsTrue b ↔ IsWaiting bounds before change.now) }
{
    if change.position <= before || change.position > bounds.last {
        return Ok(false);
    }
    if change.level < 1 || change.level > GREATEST_LEVEL || cas_of(&change.what) > bounds.cas {
        return Ok(false);
    }
    if !is_unnumbered(&change.what) {
        return Ok(false);
    }
    Ok(is_allowed_key(&change.key) && is_allowed_what(alloc, &change.what)?)
}

/// Whether a document in a change has this sequence number.
fn is_numbered(what: &What, seqno: u64) -> bool
    ensures { IsTrue result ↔ IsNumbered seqno what.now }
{
    match what {
        What::Put(doc) => doc.seqno == seqno,
        What::Remove(_) => true,
    }
}

/// Whether a document in a change has no sequence number.
fn is_unnumbered(what: &What) -> bool
    ensures { IsTrue result ↔ IsUnnumbered what.now }
{
    match what {
        What::Put(doc) => doc.seqno == 0,
        What::Remove(_) => true,
    }
}

/// Whether a document may have a key.
fn is_allowed_key(key: &DocKey) -> bool
    ensures { IsTrue result ↔ IsAllowedKey key.now }
{
    let size = key.key.len();
    1 <= size && size <= name_limit(key.collection)
}

/// Whether the parts of a change keep their limits.
fn is_allowed_what(alloc: Global, what: &What) -> Result<bool, NoMemory>
    ensures { IfOk result (λ b. IsTrue b ↔ IsAllowedWhat what.now) }
{
    match what {
        What::Put(doc) => is_allowed_doc(alloc, doc),
        What::Remove(cas) => Ok(*cas <= GREATEST_CAS),
    }
}

/// Whether the parts of a document keep their limits.
fn is_allowed_doc(alloc: Global, doc: &Doc) -> Result<bool, NoMemory>
    ensures { IfOk result (λ b. IsTrue b ↔ IsAllowedDoc doc.now) }
{
    // Contracts know the bounds of these once they are read.
    let _flags = doc.flags;
    let _expiry = doc.expiry;
    if doc.cas > GREATEST_CAS || doc.xattrs.len() > SECTION_LIMIT || doc.value.len() > VALUE_LIMIT {
        return Ok(false);
    }
    is_section(alloc, doc.xattrs.as_slice())
}
