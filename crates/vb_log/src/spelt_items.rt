ghost use Rattle.std.specs.Prelude.{◌≡◌, ◌≤◌, ◌<◌, ◌^◌, ◌++◌, ℕ, length, map as list_map, All, IsTrue, IfOk, IfErr, OnOk};
ghost use Rattle.doc_model.specs.declared.key.DocKey.{DocKey};
ghost use Rattle.vb_log.specs.Content.{numbered};
ghost use Rattle.vb_log.specs.Contents.{item_layout, items_layout, passing_key_layout, last_key};
ghost use Rattle.vb_log.specs.Contents.{is_later, may_follow, ItemAt, ItemsAt};
ghost use Rattle.vb_log.specs.Contents.{CanBeSpelt, item_bytes, items_bytes};
ghost use Rattle.vb_log.specs.Layout.{Layout};
ghost use Rattle.vb_log.specs.Prepares.{AreBounds};
ghost use Rattle.vb_log.specs.Faults.{IsBroken};
ghost use Rattle.vb_log.specs.Reading.{KeyAt};

use crate::bounds::Bounds;
use crate::documents::{add_what, what_at};
use crate::fields::{FieldFault, u32_within, u64_within};
use crate::keys::{add_key, key_at};
use doc_model::{Doc, DocKey, Item, What};
use kv_edge::{NoMemory, Seq};
use manifest_rules::{Manifest, has};
use std::alloc::Global;

/// Appends items behind their count.
pub(crate) fn add_items(out: &mut Vec<u8>, items: &[&Item]) -> Result<(), NoMemory>
    requires few { length items.now < 2 ^ 32 }
    requires allowed { All (λ i. CanBeSpelt i.now) items.now }
    ensures { OnOk result (out.new.items ≡ out.old.items ++ items_bytes (list_map (λ i. i.now) items.now)) }
{
    out.extend_from_slice(&(items.len() as u32).to_be_bytes())?;
    for item in items {
        add_item(out, item)?;
    }
    Ok(())
}

/// Appends an item.
pub(crate) fn add_item(out: &mut Vec<u8>, item: &Item) -> Result<(), NoMemory>
    requires { CanBeSpelt item.now }
    ensures { OnOk result (out.new.items ≡ out.old.items ++ item_bytes item.now) }
{
    add_key(out, &item.key)?;
    out.extend_from_slice(&item.seqno.to_be_bytes())?;
    add_what(out, &item.what)?;
    Ok(())
}

/// Reads the items at the front, behind their count, and the bytes behind them. They are within
/// bounds, in rising order of their keys, and of collections that the manifest has.
pub(crate) fn items_at<'b>(
    alloc: Global,
    bytes: &'b [u8],
    manifest: &Manifest,
    bounds: Bounds,
) -> Result<(Seq<Item>, &'b [u8]), FieldFault>
    requires { AreBounds bounds }
    ensures found { IfOk result (λ x. ItemsAt manifest.now bounds bytes.now x.0 x.1.now) }
    ensures broken { (next : Layout) → IfErr result (IsBroken (items_layout manifest.now bounds next) bytes.now) }
{
    let (count, rest) = u32_within(bytes, u32::MAX)?;
    let mut items = Seq::new(alloc);
    let mut left = rest;
    for _ in 0..count {
        let (item, behind) = item_at(alloc, left, manifest, bounds, items.as_slice())?;
        items.push(item)?;
        left = behind;
    }
    Ok((items, left))
}

/// Reads the item at the front, which comes behind others, and the bytes behind it.
fn item_at<'b>(
    alloc: Global,
    bytes: &'b [u8],
    manifest: &Manifest,
    bounds: Bounds,
    before: &[Item],
) -> Result<(Item, &'b [u8]), FieldFault>
    requires { AreBounds bounds }
    ensures found { IfOk result (λ x. ItemAt manifest.now bounds (last_key before.now) bytes.now x.0 x.1.now) }
    ensures broken { (next : DocKey → Layout)
        → IfErr result (IsBroken (item_layout manifest.now bounds (last_key before.now) next) bytes.now) }
{
    let (key, behind_key) = next_key_at(alloc, bytes, manifest, before)?;
    let (seqno, behind_seqno) = u64_within(behind_key, 1, bounds.last)?;
    let (what, rest) = what_at(alloc, behind_seqno, bounds.cas)?;
    let what = numbered(what, seqno);
    Ok((Item { key, seqno, what }, rest))
}

/// A change, with a sequence number.
pub(crate) fn numbered(what: What, seqno: u64) -> What
    ensures { result ≡ numbered seqno what }
{
    match what {
        What::Put(doc) => What::Put(Doc { seqno, ..doc }),
        What::Remove(cas) => What::Remove(cas),
    }
}

/// Reads the key at the front, which comes behind those of other items, and the bytes behind it.
fn next_key_at<'b>(
    alloc: Global,
    bytes: &'b [u8],
    manifest: &Manifest,
    before: &[Item],
) -> Result<(DocKey, &'b [u8]), FieldFault>
    ensures found { IfOk result (λ x. KeyAt bytes.now x.0 x.1.now
        × IsTrue (may_follow manifest.now (last_key before.now) x.0)) }
    ensures broken { (next : DocKey → Layout) → IfErr result
        (IsBroken (passing_key_layout (may_follow manifest.now (last_key before.now)) next) bytes.now) }
{
    let (key, rest) = key_at(alloc, bytes)?;
    if may_follow(manifest, before, &key) {
        Ok((key, rest))
    } else {
        Err(FieldFault::Broken(bytes.len() - 1))
    }
}

/// Whether a key may be the next: it comes behind those of other items, and its collection is there.
fn may_follow(manifest: &Manifest, before: &[Item], key: &DocKey) -> bool
    ensures { result ≡ may_follow manifest.now (last_key before.now) key.now }
{
    is_later(before, key) && has(manifest, key.collection)
}

/// Whether a key comes behind that of the last of some items.
fn is_later(before: &[Item], key: &DocKey) -> bool
    ensures { result ≡ is_later (last_key before.now) key.now }
{
    match before.last() {
        Some(item) => item.key < *key,
        None => true,
    }
}
