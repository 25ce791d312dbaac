//! The bytes of a store's records. Each is given as all that stands behind its gate: how many bytes it holds, these,
//! and the closed gate of the next record.

ghost use Rattle.std.specs.Prelude.{◌≡◌, ◌+◌, ◌-◌, ◌≤◌, ◌<◌, ◌^◌, ◌++◌, length, drop, map as list_map, IfOk, OnOk};
ghost use Rattle.std.specs.Int.{w64, to_be_bytes};
ghost use Rattle.std.specs.List.{flat_map, AllByRecursion};
ghost use Rattle.durability_core.specs.Chains.{IsChain, IsName};
ghost use Rattle.vb_log.specs.Contents.{item_bytes, items_bytes};
ghost use Rattle.vb_log.specs.Spelling.{sized};
ghost use Rattle.vb_log.specs.Stored.{IsStorable};
ghost use Rattle.magma_store.specs.Changes.{Sets, Writes, IsChange, name_bytes, numbers_bytes};
ghost use Rattle.magma_store.specs.Changes.{made_bytes, change_bytes};
ghost use Rattle.magma_store.specs.Fronts.{spot_of};
ghost use Rattle.magma_store.specs.Journal.{piece_bytes};
ghost use Rattle.magma_store.specs.Reading.{items_behind};
ghost use Rattle.magma_store.specs.Spots.{placed};

use crate::journal::SHUT;
use crate::kinds::{ANEW, MAGIC, NUMBERS, OVER};
use crate::meta::Numbers;
use crate::spot::{Placed, Spot};
use crate::weighing::{cas_of, weight_of};
use doc_model::Item;
use durability_core::Chain;
use kv_edge::{Bytes, Copied, NoMemory, Seq};
use std::alloc::Global;
use vb_log::item_into;

/// The piece of the record with which a store is made.
pub(crate) fn made_piece(alloc: Global, chain: &Chain, place: u8) -> Result<Vec<u8>, NoMemory>
    requires { IsChain chain.now }
    ensures { IfOk result (λ piece. piece.items ≡ piece_bytes (made_bytes chain.now place)) }
{
    let mut piece = begun(alloc)?;
    piece.extend_from_slice(&MAGIC.to_be_bytes())?;
    piece.push(chain.names.len() as u8)?;
    add_names(&mut piece, chain.names.as_slice())?;
    piece.push(place)?;
    finished(piece)
}

/// The piece of a record that sets numbers.
pub(crate) fn sets_piece(alloc: Global, numbers: Numbers) -> Result<Vec<u8>, NoMemory>
    ensures { IfOk result (λ piece. piece.items ≡ piece_bytes (change_bytes (Sets numbers))) }
{
    let mut piece = begun(alloc)?;
    piece.push(NUMBERS)?;
    add_numbers(&mut piece, numbers)?;
    finished(piece)
}

/// The piece of a record that writes items, and where they stand where what it holds begins at an offset.
pub(crate) fn write_piece(
    alloc: Global,
    is_anew: bool,
    numbers: Numbers,
    tail: &[u8],
    items: &[&Item],
    at: u64,
) -> Result<(Vec<u8>, Seq<Placed>), NoMemory>
    requires allowed { IsChange (Writes is_anew numbers tail.now (list_map (λ i. i.now) items.now)) }
    requires room { at < 2 ^ 62 }
    ensures bytes { IfOk result (λ x.
        x.0.items ≡ piece_bytes (change_bytes (Writes is_anew numbers tail.now (list_map (λ i. i.now) items.now)))) }
    ensures places { IfOk result (λ x. x.1 ≡ placed (at + items_behind tail.now) (list_map (λ i. i.now) items.now)) }
{
    let mut piece = begun(alloc)?;
    piece.push(if is_anew { ANEW } else { OVER })?;
    add_numbers(&mut piece, numbers)?;
    add_sized(&mut piece, tail)?;
    let places = add_items(alloc, &mut piece, items, at)?;
    let whole = finished(piece)?;
    Ok((whole, places))
}

/// A piece with room for the size of what is to be spelled behind it.
fn begun(alloc: Global) -> Result<Vec<u8>, NoMemory>
    ensures { IfOk result (λ piece. piece.items ≡ to_be_bytes w64 0) }
{
    let piece = Vec::from_slice(alloc, &0u64.to_be_bytes())?;
    Ok(piece)
}

/// The whole of a piece that has all that its record holds: the size is set, and the closed gate stands behind.
fn finished(mut piece: Vec<u8>) -> Result<Vec<u8>, NoMemory>
    requires { 8 ≤ length piece.items }
    ensures { IfOk result (λ whole. whole.items ≡ piece_bytes (drop 8 piece.items)) }
{
    let size = (piece.len() - 8) as u64;
    piece.push(SHUT)?;
    set_front(piece.as_mut_slice(), &size.to_be_bytes());
    Ok(piece)
}

/// Writes other bytes over the front.
fn set_front(bytes: &mut [u8], front: &[u8])
    requires { length front.now ≤ length bytes.old }
    ensures { bytes.new ≡ front.now ++ drop (length front.now) bytes.old }
{
    let (place, _) = bytes.split_at_mut(front.len());
    place.copy_from_slice(front);
}

/// Appends names behind their lengths.
fn add_names(out: &mut Vec<u8>, names: &[Option<Bytes>]) -> Result<(), NoMemory>
    requires { AllByRecursion IsName names.now }
    ensures { OnOk result (out.new.items ≡ out.old.items ++ flat_map name_bytes names.now) }
{
    for name in names {
        add_name(out, name)?;
    }
    Ok(())
}

/// Appends a name behind its length, or the length 0 for none.
fn add_name(out: &mut Vec<u8>, name: &Option<Bytes>) -> Result<(), NoMemory>
    requires { IsName name.now }
    ensures { OnOk result (out.new.items ≡ out.old.items ++ name_bytes name.now) }
{
    match name {
        Some(name) => {
            out.push(name.len() as u8)?;
            out.extend_from_slice(name.as_slice())?;
            Ok(())
        }
        None => {
            out.push(0)?;
            Ok(())
        }
    }
}

/// Appends numbers.
fn add_numbers(out: &mut Vec<u8>, numbers: Numbers) -> Result<(), NoMemory>
    ensures { OnOk result (out.new.items ≡ out.old.items ++ numbers_bytes numbers) }
{
    out.extend_from_slice(&numbers.promise.to_be_bytes())?;
    out.extend_from_slice(&numbers.accepted.to_be_bytes())?;
    out.extend_from_slice(&numbers.incarnation.to_be_bytes())?;
    out.extend_from_slice(&numbers.length.to_be_bytes())?;
    out.extend_from_slice(&numbers.cas.to_be_bytes())?;
    Ok(())
}

/// Appends bytes behind their length.
fn add_sized(out: &mut Vec<u8>, bytes: &[u8]) -> Result<(), NoMemory>
    requires { length bytes.now < 2 ^ 32 }
    ensures { OnOk result (out.new.items ≡ out.old.items ++ sized bytes.now) }
{
    out.extend_from_slice(&(bytes.len() as u32).to_be_bytes())?;
    out.extend_from_slice(bytes)?;
    Ok(())
}

/// Appends items behind their count to a piece, and tells where they stand where what the piece's record holds begins
/// at an offset.
fn add_items(
    alloc: Global,
    piece: &mut Vec<u8>,
    items: &[&Item],
    at: u64,
) -> Result<Seq<Placed>, NoMemory>
    requires few { length items.now < 2 ^ 32 }
    requires allowed { AllByRecursion IsStorable (list_map (λ i. i.now) items.now) }
    requires begun { 8 ≤ length piece.old.items }
    requires near { at < 2 ^ 62 }
    ensures bytes { IfOk result (λ _.
        piece.new.items ≡ piece.old.items ++ items_bytes (list_map (λ i. i.now) items.now)) }
    ensures places { IfOk result (λ places.
        places ≡ placed (at + (length piece.old.items - 4)) (list_map (λ i. i.now) items.now)) }
{
    let mut places = Seq::new(alloc);
    piece.extend_from_slice(&(items.len() as u32).to_be_bytes())?;
    for item in items {
        let place = add_item(alloc, piece, item, at)?;
        places.push(place)?;
    }
    Ok(places)
}

/// Appends an item to a piece, and tells where it stands.
fn add_item(alloc: Global, piece: &mut Vec<u8>, item: &Item, at: u64) -> Result<Placed, NoMemory>
    requires allowed { IsStorable item.now }
    requires begun { 8 ≤ length piece.old.items }
    requires near { at < 2 ^ 62 }
    ensures bytes { IfOk result (λ _. piece.new.items ≡ piece.old.items ++ item_bytes item.now) }
    ensures place { IfOk result (λ place. place ≡ spot_of (at + (length piece.old.items - 8)) item.now) }
{
    let before = piece.len();
    item_into(item, piece)?;
    let length = (piece.len() - before) as u32;
    let key = item.key.copy(alloc)?;
    let at = at + (before - 8) as u64;
    let seqno = item.seqno;
    let weight = weight_of(item);
    let cas = cas_of(&item.what);
    let spot = Spot {
        seqno,
        at,
        length,
        weight,
        cas,
    };
    Ok(Placed { key, spot })
}
