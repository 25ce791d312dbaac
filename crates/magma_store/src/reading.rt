//! What the records of a store say.

ghost use Rattle.std.specs.Prelude.{◌≡◌, ℕ, suc, ◌+◌, ◌≤◌, ◌<◌, ◌^◌, length, IfOk, IfErr};
ghost use Rattle.magma_store.specs.Forms.{Form, all_items, names_form, numbers_form, batch_form};
ghost use Rattle.magma_store.specs.Forms.{made_form, change_form, IsBroken};
ghost use Rattle.magma_store.specs.Fronts.{terms_form, counts_form, TermsAt, CountsAt, NumbersAt};
ghost use Rattle.magma_store.specs.Fronts.{name_form, chain_form, NameAt, NamesAt, ChainAt};
ghost use Rattle.magma_store.specs.Fronts.{PlacedAt, PlacesAt, BatchAt};
ghost use Rattle.magma_store.specs.Reading.{IsMaking, IsTold};

use crate::fields::{
    FormFault, accepted_at, behind_exactly, byte_between, ended, refused, run_of, u32_at, u64_at,
};
use crate::kinds::{ANEW, MAGIC, NUMBERS, OVER};
use crate::meta::Numbers;
use crate::spot::{Placed, Spot};
use crate::weighing::{cas_of, weight_of};
use doc_model::Item;
use durability_core::Chain;
use kv_edge::{Bytes, Seq};
use std::alloc::Global;
use vb_log::{ContentFault, read_item};

/// What a record behind the first says.
#[derive(Drop)]
pub(crate) enum Told<'b> {
    /// It sets numbers.
    Sets(Numbers),
    /// It sets numbers and a tail, and writes items, which stand at these places.
    Writes {
        is_anew: bool,
        numbers: Numbers,
        tail: &'b [u8],
        places: Seq<Placed>,
    },
}

/// Reads the record with which a store is made: the chain, and the store's place.
pub(crate) fn made_of(alloc: Global, held: &[u8]) -> Result<(Chain, u8), FormFault>
    ensures found { IfOk result (λ x. IsMaking held.now x.0 x.1) }
    ensures broken { IfErr result (IsBroken made_form held.now) }
{
    let (chain, behind) = chain_at(alloc, held)?;
    let last = (chain.names.len() - 1) as u8;
    let (place, rest) = byte_between(behind, 0, last)?;
    ended(rest)?;
    Ok((chain, place))
}

/// The chain behind the bytes with which a store's first record begins, and the bytes behind it.
fn chain_at(alloc: Global, bytes: &[u8]) -> Result<(Chain, &[u8]), FormFault>
    ensures found { IfOk result (λ x. ChainAt bytes.now x.0 x.1.now) }
    ensures broken { (next : ℕ → Form) → IfErr result (IsBroken (chain_form next) bytes.now) }
{
    let behind_magic = behind_exactly(bytes, MAGIC)?;
    let (count, behind_count) = byte_between(behind_magic, 1, 4)?;
    let (names, rest) = names_at(alloc, behind_count, count)?;
    Ok((Chain { names }, rest))
}

/// So many names at the front, of which the first is one, and the bytes behind them.
fn names_at<'b>(
    alloc: Global,
    bytes: &'b [u8],
    count: u8,
) -> Result<(Seq<Option<Bytes>>, &'b [u8]), FormFault>
    requires { 1 ≤ count }
    ensures found { IfOk result (λ x. NamesAt count bytes.now x.0 x.1.now) }
    ensures broken { (next : Form) → IfErr result (IsBroken (names_form 1 count next) bytes.now) }
{
    let mut names = Seq::new(alloc);
    let (first, behind) = name_at(alloc, bytes, 1)?;
    names.push(first)?;
    let mut left = behind;
    for _ in 1..count {
        let (name, rest) = name_at(alloc, left, 0)?;
        names.push(name)?;
        left = rest;
    }
    Ok((names, left))
}

/// The name at the front, of at least so many bytes or of none, and the bytes behind it.
fn name_at(alloc: Global, bytes: &[u8], least: u8) -> Result<(Option<Bytes>, &[u8]), FormFault>
    ensures found { IfOk result (λ x. NameAt least bytes.now x.0 x.1.now) }
    ensures broken { (next : Form) → IfErr result (IsBroken (name_form least next) bytes.now) }
{
    let (size, behind) = byte_between(bytes, least, 255)?;
    let (piece, rest) = run_of(behind, size as usize)?;
    if piece.is_empty() {
        Ok((None, rest))
    } else {
        let name = Bytes::from_slice(alloc, piece)?;
        Ok((Some(name), rest))
    }
}

/// Reads any other record, which stands on the device from an offset on.
pub(crate) fn change_of(alloc: Global, held: &[u8], at: u64) -> Result<Told<'_>, FormFault>
    requires { at + length held.now < 2 ^ 63 }
    ensures found { IfOk result (IsTold at held.now) }
    ensures broken { IfErr result (IsBroken change_form held.now) }
{
    let (kind, behind) = byte_between(held, OVER, NUMBERS)?;
    let (numbers, rest) = numbers_at(behind)?;
    if kind == NUMBERS {
        ended(rest)?;
        Ok(Told::Sets(numbers))
    } else {
        let (tail, places) = batch_of(alloc, rest, at + 41)?;
        Ok(Told::Writes {
            is_anew: kind == ANEW,
            numbers,
            tail,
            places,
        })
    }
}

/// The numbers at the front, and the bytes behind them.
fn numbers_at(bytes: &[u8]) -> Result<(Numbers, &[u8]), FormFault>
    ensures found { IfOk result (λ x. NumbersAt bytes.now x.0 x.1.now) }
    ensures broken { (next : Form) → IfErr result (IsBroken (numbers_form next) bytes.now) }
{
    let (promise, accepted, behind) = terms_at(bytes)?;
    let (incarnation, length, cas, rest) = counts_at(behind)?;
    Ok((
        Numbers {
            promise,
            accepted,
            incarnation,
            length,
            cas,
        },
        rest,
    ))
}

/// The promise and the accepted term at the front, and the bytes behind them.
fn terms_at(bytes: &[u8]) -> Result<(u64, u64, &[u8]), FormFault>
    ensures found { IfOk result (λ x. TermsAt bytes.now x.0 x.1 x.2.now) }
    ensures broken { (next : Form) → IfErr result (IsBroken (terms_form next) bytes.now) }
{
    let (promise, behind) = u64_at(bytes)?;
    let (accepted, rest) = accepted_at(behind, promise)?;
    Ok((promise, accepted, rest))
}

/// The incarnation, the length and the CAS at the front, and the bytes behind them.
fn counts_at(bytes: &[u8]) -> Result<(u64, u64, u64, &[u8]), FormFault>
    ensures found { IfOk result (λ x. CountsAt bytes.now x.0 x.1 x.2 x.3.now) }
    ensures broken { (next : Form) → IfErr result (IsBroken (counts_form next) bytes.now) }
{
    let (incarnation, behind_incarnation) = u64_at(bytes)?;
    let (length, behind_length) = u64_at(behind_incarnation)?;
    let (cas, rest) = u64_at(behind_length)?;
    Ok((incarnation, length, cas, rest))
}

/// The tail and the places of the items that the bytes are, of which the first stands at an offset.
fn batch_of(alloc: Global, bytes: &[u8], at: u64) -> Result<(&[u8], Seq<Placed>), FormFault>
    requires { at + length bytes.now < 2 ^ 63 }
    ensures found { IfOk result (λ x. BatchAt at bytes.now x.0.now x.1) }
    ensures broken { IfErr result (IsBroken batch_form bytes.now) }
{
    let (size, behind_size) = u32_at(bytes)?;
    let (tail, behind_tail) = run_of(behind_size, size as usize)?;
    let (count, rest) = u32_at(behind_tail)?;
    let places = places_of(alloc, rest, at + 8 + u64::from(size), count)?;
    Ok((tail, places))
}

/// The places of so many items, which the bytes are, of which the first stands at an offset. Of each item only its key
/// and its size are kept, once it was read, so a count alone costs no memory.
fn places_of(alloc: Global, bytes: &[u8], at: u64, count: u32) -> Result<Seq<Placed>, FormFault>
    requires { at + length bytes.now < 2 ^ 63 }
    ensures found { IfOk result (PlacesAt at count bytes.now) }
    ensures broken { IfErr result (IsBroken (all_items 0 count) bytes.now) }
{
    let mut places = Seq::new(alloc);
    let mut left = bytes;
    for done in 0..count {
        let offset = (bytes.len() - left.len()) as u64;
        let (place, behind) = place_at(alloc, left, at + offset, done, count)?;
        places.push(place)?;
        left = behind;
    }
    ended(left)?;
    Ok(places)
}

/// The place of the item at the front, which stands at an offset, and the bytes behind it. Of a count of items so many
/// were read before it.
fn place_at(
    alloc: Global,
    bytes: &[u8],
    at: u64,
    done: u32,
    count: u32,
) -> Result<(Placed, &[u8]), FormFault>
    ensures found { IfOk result (λ x. PlacedAt at bytes.now x.0 x.1.now) }
    ensures broken { (more : ℕ) → count ≡ done + suc more
        → IfErr result (IsBroken (all_items done (suc more)) bytes.now) }
{
    match read_item(alloc, bytes) {
        Ok((item, size)) => {
            let (_, behind) = bytes.split_at(size);
            let weight = weight_of(&item);
            let cas = cas_of(&item.what);
            let Item {
                key,
                seqno,
                what: _,
            } = item;
            let length = size as u32;
            let spot = Spot {
                seqno,
                at,
                length,
                weight,
                cas,
            };
            Ok((Placed { key, spot }, behind))
        }
        Err(ContentFault::Bad(_)) => Err(refused(bytes, u64::from(done), u64::from(count))),
        Err(ContentFault::NoMemory) => Err(FormFault::NoMemory),
    }
}
