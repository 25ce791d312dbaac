//! How the records of a device are read.

ghost use Rattle.std.specs.Prelude.{◌≡◌, ◌≤◌, ◌<◌, ◌+◌, ◌^◌, ◌++◌, ◌∷◌, [], ℕ, List, length, None, Some, IfOk, IfErr, OnOk, IsErrOf};
ghost use Rattle.magma_store.specs.Changes.{AreNumbers};
ghost use Rattle.magma_store.specs.Counting.{CountsStore, IsReadFault};
ghost use Rattle.magma_store.specs.Forms.{IsBroken, made_form, change_form, next_form};
ghost use Rattle.magma_store.specs.Held.{AreDropped, first_held, numbers_of, with_numbers};
ghost use Rattle.magma_store.specs.Journal.{IsFile, IsNext};
ghost use Rattle.magma_store.specs.Loading.{IsLoaded, IsLoadedBy, IsUnloaded};
ghost use Rattle.magma_store.specs.Spots.{AllLead, with_spots};
ghost use Rattle.magma_store.specs.Taking.{IsBegun, spots_left, TakesChange, IsSound, BreaksWithin, IsReadTo, NextIs};

use crate::fault::StoreFault;
use crate::fields::FormFault;
use crate::index::{dropped_in, insert_all};
use crate::journal::next_record;
use crate::meta::{Meta, Numbers};
use crate::reading::{Told, change_of, made_of};
use crate::spot::Placed;
use crate::spot_map::SpotMap;
use durability_core::Chain;
use kv_edge::{Bytes, NoMemory};
use magma_disk::Disk;
use std::alloc::Global;

/// How many bytes the records of a device fill at most that is opened.
pub(crate) const FILLED_LIMIT: u64 = 1 << 61;

/// How many bytes a record has beside what it holds: its gate and its size.
pub(crate) const HEAD: u64 = 9;

/// What was read of a device.
#[derive(Drop)]
pub(crate) struct Loaded {
    /// What stands beside the items, where a store was made.
    pub(crate) meta: Option<Meta>,
    pub(crate) spots: SpotMap,
    /// How many bytes the records fill.
    pub(crate) filled: u64,
}

/// Reads all records of a device. `NoMemory` also where they fill more than 2^61 bytes.
pub(crate) fn load<D: Disk>(alloc: Global, disk: &mut D) -> Result<Loaded, StoreFault>
    ensures loaded { (file : List ℕ) → IsFile file (D.states disk.old) → IfOk result (IsLoaded file) }
    ensures unloaded { (file : List ℕ) → IsFile file (D.states disk.old) → IfErr result (IsUnloaded file) }
    ensures fault { IfErr result IsReadFault }
    ensures small { IfOk result (λ loaded. loaded.filled ≤ 2 ^ 61) }
    ensures sound { IfOk result IsSound }
    ensures states { D.states disk.new ≡ D.states disk.old }
    ensures counts { CountsStore (IsErrOf result StoreFault.DiskFault) (D.counts disk.old) (D.counts disk.new) }
{
    let mut loaded = Loaded {
        meta: None,
        spots: SpotMap::new(alloc),
        filled: 0,
    };
    for _ in 0..u64::MAX {
        match next_record(alloc, disk, loaded.filled)? {
            None => return Ok(loaded),
            Some(held) => take_next(alloc, &mut loaded, held.as_slice())?,
        }
    }
    Err(StoreFault::NoMemory)
}

/// Takes what the next record of a file says.
fn take_next(alloc: Global, loaded: &mut Loaded, held: &[u8]) -> Result<(), StoreFault>
    requires small { loaded.old.filled ≤ 2 ^ 61 }
    requires sound { IsSound loaded.old }
    ensures taken { OnOk result ((file : List ℕ) → NextIs file loaded.old held.now → IsReadTo file loaded.new) }
    ensures small { OnOk result (loaded.new.filled ≤ 2 ^ 61) }
    ensures sound { OnOk result (IsSound loaded.new) }
    ensures broken { (file : List ℕ) → NextIs file loaded.old held.now → IfErr result (IsUnloaded file) }
    ensures fault { IfErr result (λ why. IsReadFault why × (why ≡ StoreFault.DiskFault → ⊥)) }
{
    let size = held.len() as u64;
    let room = FILLED_LIMIT - loaded.filled;
    if room < HEAD || room - HEAD < size {
        return Err(StoreFault::NoMemory);
    }
    let end = loaded.filled + HEAD + size;
    match take_record(alloc, loaded, held) {
        Ok(()) => Ok(()),
        Err(
            FormFault::Broken {
                left,
                found,
                expected,
            },
        ) => Err(StoreFault::Damaged {
            place: end - left,
            found,
            expected,
        }),
        Err(FormFault::NoMemory) => Err(StoreFault::NoMemory),
    }
}

/// Takes what one more record says.
fn take_record(alloc: Global, loaded: &mut Loaded, held: &[u8]) -> Result<(), FormFault>
    requires { loaded.old.filled + 9 + length held.now < 2 ^ 63 }
    ensures taken { OnOk result ((records : List (List ℕ)) → IsLoadedBy records loaded.old → IsLoadedBy (records ++ held.now ∷ []) loaded.new) }
    ensures filled { OnOk result (loaded.new.filled ≡ loaded.old.filled + 9 + length held.now) }
    ensures sound { IsSound loaded.old → OnOk result (IsSound loaded.new) }
    ensures broken { (records : List (List ℕ)) → IsLoadedBy records loaded.old → IfErr result (IsBroken (next_form records) held.now) }
    ensures within { IfErr result (BreaksWithin (length held.now)) }
{
    let at = loaded.filled + HEAD;
    let meta = match loaded.meta.take() {
        None => begun(alloc, held)?,
        Some(meta) => changed(alloc, &mut loaded.spots, meta, held, at)?,
    };
    loaded.meta = Some(meta);
    loaded.filled = at + held.len() as u64;
    Ok(())
}

/// What stands beside the items of a store that a record makes.
fn begun(alloc: Global, held: &[u8]) -> Result<Meta, FormFault>
    ensures begun { IfOk result (IsBegun held.now) }
    ensures broken { IfErr result (IsBroken made_form held.now) }
{
    let (chain, place) = made_of(alloc, held)?;
    Ok(first_meta(alloc, chain, place))
}

/// What stands beside the items of a store that was just made.
pub(crate) fn first_meta(alloc: Global, chain: Chain, place: u8) -> Meta
    ensures { result ≡ (first_held chain place).meta }
{
    Meta {
        chain,
        place,
        promise: 0,
        accepted: 0,
        incarnation: 1,
        length: 0,
        cas: 0,
        tail: Bytes::new(alloc),
    }
}

/// Takes what a record behind the first says, that stands from an offset on, and answers what then stands beside the items.
fn changed(
    alloc: Global,
    spots: &mut SpotMap,
    meta: Meta,
    held: &[u8],
    at: u64,
) -> Result<Meta, FormFault>
    requires { at + length held.now < 2 ^ 63 }
    ensures taken { IfOk result (TakesChange at held.now spots.old meta spots.new) }
    ensures broken { IfErr result (IsBroken change_form held.now) }
{
    let mut meta = meta;
    match change_of(alloc, held, at)? {
        Told::Sets(numbers) => set_numbers(&mut meta, numbers),
        Told::Writes {
            is_anew,
            numbers,
            tail,
            places,
        } => {
            take_places(alloc, spots, is_anew, tail, places.as_slice())?;
            set_numbers(&mut meta, numbers);
            meta.tail = Bytes::from_slice(alloc, tail)?;
        }
    }
    Ok(meta)
}

/// Sets the numbers.
fn set_numbers(meta: &mut Meta, numbers: Numbers)
    ensures { meta.new ≡ with_numbers numbers meta.old.tail meta.old }
{
    meta.promise = numbers.promise;
    meta.accepted = numbers.accepted;
    meta.incarnation = numbers.incarnation;
    meta.length = numbers.length;
    meta.cas = numbers.cas;
}

/// Puts places over the spots that are left when those of the collections are gone that a tail names as dropped; or in
/// their place.
fn take_places(
    alloc: Global,
    spots: &mut SpotMap,
    is_anew: bool,
    tail: &[u8],
    places: &[Placed],
) -> Result<(), NoMemory>
    ensures { OnOk result ((dropped : List ℕ) × AreDropped tail.now dropped × (spots.new ≡ with_spots (spots_left is_anew dropped spots.old) places.now)) }
{
    let dropped = dropped_in(alloc, tail)?;
    if is_anew {
        *spots = SpotMap::new(alloc);
    } else {
        spots.remove_collections(&dropped);
    }
    insert_all(alloc, spots, places)
}
