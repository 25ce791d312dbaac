//! How an item is read from the disk.

ghost use Rattle.std.specs.Prelude.{◌≡◌, ◌+◌, ◌*◌, ◌≤◌, ◌^◌, ℕ, List, [], ◌∷◌, ◌++◌, nat_lt, filter, Some, IfOk, IfErr, IfSome, OnOk, IsErrOf};
ghost use Rattle.std.specs.FinMap as map;
ghost use Rattle.std.specs.List.{AllByRecursion};
ghost use Rattle.doc_model.specs.Keys.{key_cmp};
ghost use Rattle.doc_model.specs.Values.{AreValues};
ghost use Rattle.magma_store.specs.declared.spot.Spot.{Spot};
ghost use Rattle.doc_model.specs.declared.document.Item.{Item};
ghost use Rattle.vb_log.specs.Stored.{IsStorable};
ghost use Rattle.magma_store.specs.Counting.{CountsStore};
ghost use Rattle.magma_store.specs.Gotten.{Stands, AllStand, AreSpotsBehind};
ghost use Rattle.magma_store.specs.Store.{IsUnread, LeadTo, AreSince};

use crate::fault::StoreFault;
use crate::journal::read_bytes;
use crate::spot::Spot;
use crate::spot_map::SpotMap;
use doc_model::{DocKey, Item};
use kv_edge::NoMemory;
use magma_disk::Disk;
use std::alloc::Global;
use vb_log::{ContentFault, read_item};

/// Beyond this no item stands.
const LAST: u64 = 1 << 62;

/// The item whose bytes stand at a spot, or nothing where none does.
fn item_at<D: Disk>(alloc: Global, disk: &mut D, spot: Spot) -> Result<Option<Item>, StoreFault>
    ensures found { (item : Item) → Stands spot item (D.states disk.old) → IfOk result (λ found. found ≡ Some item) }
    ensures item { IfOk result (λ found. IfSome found IsStorable) }
    ensures unread { IfErr result IsUnread }
    ensures states { D.states disk.new ≡ D.states disk.old }
    ensures counts { CountsStore (IsErrOf result StoreFault.DiskFault) (D.counts disk.old) (D.counts disk.new) }
    ensures few { (item : Item) → Stands spot item (D.states disk.old) → (D.counts disk.new).reads ≤ (D.counts disk.old).reads + (8 * 21 + 23) }
{
    if spot.at > LAST {
        return Ok(None);
    }
    let bytes = read_bytes(alloc, disk, spot.at, spot.length as u64)?;
    match read_item(alloc, &bytes) {
        Ok((item, _)) => Ok(Some(item)),
        Err(ContentFault::Bad(_)) => Ok(None),
        Err(ContentFault::NoMemory) => Err(StoreFault::NoMemory),
    }
}

/// The item of a key whose bytes stand at a spot, or nothing where none of that key does.
pub(crate) fn item_of<D: Disk>(
    alloc: Global,
    disk: &mut D,
    key: &DocKey,
    spot: Spot,
) -> Result<Option<Item>, StoreFault>
    ensures found { (item : Item) → Stands spot item (D.states disk.old) → item.key ≡ key.now → IfOk result (λ found. found ≡ Some item) }
    ensures item { IfOk result (λ found. IfSome found (λ i. (i.key ≡ key.now) × IsStorable i)) }
    ensures unread { IfErr result IsUnread }
    ensures states { D.states disk.new ≡ D.states disk.old }
    ensures counts { CountsStore (IsErrOf result StoreFault.DiskFault) (D.counts disk.old) (D.counts disk.new) }
    ensures few { (item : Item) → Stands spot item (D.states disk.old) → (D.counts disk.new).reads ≤ (D.counts disk.old).reads + (8 * 21 + 23) }
{
    let found = item_at(alloc, disk, spot)?;
    Ok(of_key(found, key))
}

/// An item, where it is that of a key.
fn of_key(found: Option<Item>, key: &DocKey) -> Option<Item>
    ensures same { (item : Item) → found ≡ Some item → item.key ≡ key.now → result ≡ Some item }
    ensures own { IfSome found IsStorable → IfSome result (λ i. (i.key ≡ key.now) × IsStorable i) }
{
    match found {
        Some(item) => { if item.key == *key { Some(item) } else { None } }
        None => None,
    }
}

/// The items behind a sequence number, in rising order of theirs.
pub(crate) fn items_behind<D: Disk>(
    alloc: Global,
    disk: &mut D,
    spots: &SpotMap,
    seqno: u64,
) -> Result<Vec<Item>, StoreFault>
    ensures found { (items : map.FinMap key_cmp Item) (end : ℕ) → LeadTo spots.now items end (D.states disk.old) → end ≤ 2 ^ 62
        → IfOk result (λ found. AreSince seqno items found.items) }
    ensures storable { IfOk result (λ found. AllByRecursion IsStorable found.items) }
    ensures unread { IfErr result IsUnread }
    ensures states { D.states disk.new ≡ D.states disk.old }
    ensures counts { CountsStore (IsErrOf result StoreFault.DiskFault) (D.counts disk.old) (D.counts disk.new) }
{
    let found = spots_behind(alloc, spots, seqno)?;
    let mut items = items_at(alloc, disk, &found)?;
    items.sort_unstable_by_key(|item| item.seqno);
    Ok(items)
}

/// The spots behind a sequence number.
fn spots_behind(alloc: Global, spots: &SpotMap, seqno: u64) -> Result<Vec<Spot>, NoMemory>
    ensures { IfOk result (λ found. AreSpotsBehind seqno spots.now found.items) }
{
    let all = all_spots(alloc, spots)?;
    those_behind(alloc, &all, seqno)
}

/// All spots, that of each key once, in an order that is left open.
fn all_spots(alloc: Global, spots: &SpotMap) -> Result<Vec<Spot>, NoMemory>
    ensures { IfOk result (λ all. AreValues spots.now all.items) }
{
    let mut all = Vec::new(alloc);
    for spot in spots.values() {
        all.push(*spot)?;
    }
    Ok(all)
}

/// Those of some spots that are behind a sequence number.
fn those_behind(alloc: Global, all: &[Spot], seqno: u64) -> Result<Vec<Spot>, NoMemory>
    ensures { IfOk result (λ found. found.items ≡ filter (λ (s : Spot). nat_lt seqno s.seqno) all.now) }
{
    let mut found = Vec::new(alloc);
    for spot in all {
        if spot.seqno > seqno {
            found.push(*spot)?;
        }
    }
    Ok(found)
}

/// The items whose bytes stand at these spots, of each at which one does.
fn items_at<D: Disk>(alloc: Global, disk: &mut D, spots: &[Spot]) -> Result<Vec<Item>, StoreFault>
    ensures found { (items : List Item) → AllStand spots.now items (D.states disk.old) → IfOk result (λ found. found.items ≡ items) }
    ensures storable { IfOk result (λ found. AllByRecursion IsStorable found.items) }
    ensures unread { IfErr result IsUnread }
    ensures states { D.states disk.new ≡ D.states disk.old }
    ensures counts { CountsStore (IsErrOf result StoreFault.DiskFault) (D.counts disk.old) (D.counts disk.new) }
{
    let mut items = Vec::new(alloc);
    for spot in spots {
        add_item(alloc, disk, *spot, &mut items)?;
    }
    Ok(items)
}

/// Adds the item whose bytes stand at a spot, where one does.
fn add_item<D: Disk>(
    alloc: Global,
    disk: &mut D,
    spot: Spot,
    items: &mut Vec<Item>,
) -> Result<(), StoreFault>
    ensures added { (item : Item) → Stands spot item (D.states disk.old) → OnOk result (items.new.items ≡ items.old.items ++ item ∷ []) }
    ensures storable { OnOk result (AllByRecursion IsStorable items.old.items → AllByRecursion IsStorable items.new.items) }
    ensures unread { IfErr result IsUnread }
    ensures states { D.states disk.new ≡ D.states disk.old }
    ensures counts { CountsStore (IsErrOf result StoreFault.DiskFault) (D.counts disk.old) (D.counts disk.new) }
{
    match item_at(alloc, disk, spot)? {
        Some(item) => {
            items.push(item)?;
            Ok(())
        }
        None => Ok(()),
    }
}
