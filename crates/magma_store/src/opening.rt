//! How a store is made on a device without one, and opened on a device with one.

ghost use Rattle.std.specs.Prelude.{◌≡◌, ◌⊎◌, ◌↔◌, ◌+◌, ◌≤◌, ◌<◌, ◌^◌, ◌++◌, ◌∷◌, [], ℕ, List, length, Err, IfOk, IfErr, OnOk, IsErrOf, IsTrue};
ghost use Rattle.durability_core.specs.Chains.{IsChain};
ghost use Rattle.magma_disk.specs.Calls.{SeesAnImage};
ghost use Rattle.magma_disk.specs.Moments.{Throughout};
ghost use Rattle.magma_store.specs.Changes.{AreNumbers, AreWords};
ghost use Rattle.magma_store.specs.Counting.{CountsStore};
ghost use Rattle.magma_store.specs.Held.{IsUnused, numbers_of};
ghost use Rattle.magma_store.specs.Journal.{IsJournal, IsAtRest, IsFile, journal_bytes, piece_bytes};
ghost use Rattle.magma_store.specs.Opening.{IsFound, ComesOf, Finishes, IsOthers, MayOpen};
ghost use Rattle.magma_store.specs.Spots.{AllLead};
ghost use Rattle.magma_store.specs.Store.{IsOwn, LeavesOpening, LeavesDisk};

use crate::fault::{StoreFault, done};
use crate::journal::{append, close};
use crate::kinds::SPENT;
use crate::loading::{Loaded, first_meta, load};
use crate::meta::{Meta, Numbers};
use crate::spelling::{made_piece, sets_piece};
use crate::spot_map::SpotMap;
use durability_core::Chain;
use kv_edge::{Bytes, Copied, NoMemory};
use magma_disk::{Disk, DiskDone};
use std::alloc::Global;

/// What is kept in memory of a store.
#[derive(Drop)]
pub(crate) struct Opened {
    pub(crate) meta: Meta,
    pub(crate) spots: SpotMap,
    /// How many bytes the records fill.
    pub(crate) filled: u64,
}

/// Opens the store on a disk, as `Store::open_store` does.
pub(crate) fn open_on<D: Disk>(
    alloc: Global,
    disk: &mut D,
    chain: &Chain,
    place: u8,
) -> Result<Opened, StoreFault>
    requires chain { IsChain chain.now }
    requires place { place < length chain.now.names }
    ensures comes { ComesOf (D.states disk.old) chain.now place (D.states disk.new) result }
    ensures own { IfOk result (λ opened. IsOwn chain.now place opened.meta) }
    ensures sound { IfOk result (λ opened. (opened.filled ≤ 2 ^ 62) × AllLead opened.spots) }
    ensures seen { (result ≡ Err StoreFault.DiskFault) ⊎ SeesAnImage (D.states disk.old) }
    ensures any_moment { Throughout (LeavesOpening (D.states disk.old) chain.now place) (D.states disk.old) (D.states disk.new) }
    ensures left { IfErr result (λ why. LeavesDisk why (D.states disk.old) (D.states disk.new)) }
    ensures counts { CountsStore (IsErrOf result StoreFault.DiskFault) (D.counts disk.old) (D.counts disk.new) }
{
    match disk.sync() {
        DiskDone::Failed => Err(StoreFault::DiskFault),
        DiskDone::Done => open_synced(alloc, disk, chain, place),
    }
}

/// Opens the store on a disk that was synced, or makes it.
fn open_synced<D: Disk>(
    alloc: Global,
    disk: &mut D,
    chain: &Chain,
    place: u8,
) -> Result<Opened, StoreFault>
    requires chain { IsChain chain.now }
    requires place { place < length chain.now.names }
    ensures finishes { (file : List ℕ) → IsFile file (D.states disk.old) → Finishes file chain.now place (D.states disk.old) (D.states disk.new) result }
    ensures back { IfErr result (λ why. (why ≡ StoreFault.DiskFault) ⊎ (D.states disk.new ≡ D.states disk.old)) }
    ensures silent { D.states disk.old ≡ [] → D.states disk.new ≡ [] }
    ensures own { IfOk result (λ opened. IsOwn chain.now place opened.meta) }
    ensures sound { IfOk result (λ opened. (opened.filled ≤ 2 ^ 62) × AllLead opened.spots) }
    ensures counts { CountsStore (IsErrOf result StoreFault.DiskFault) (D.counts disk.old) (D.counts disk.new) }
{
    let Loaded {
        meta,
        spots,
        filled,
    } = load(alloc, disk)?;
    match meta {
        None => make(alloc, disk, chain, place),
        Some(meta) => {
            let found = Opened {
                meta,
                spots,
                filled,
            };
            raise(alloc, disk, chain, place, found)
        }
    }
}

/// Makes a store on a device without one.
fn make<D: Disk>(
    alloc: Global,
    disk: &mut D,
    chain: &Chain,
    place: u8,
) -> Result<Opened, StoreFault>
    requires chain { IsChain chain.now }
    requires place { place < length chain.now.names }
    ensures finishes { (file : List ℕ) → IsFile file (D.states disk.old) → IsUnused file → Finishes file chain.now place (D.states disk.old) (D.states disk.new) result }
    ensures back { IfErr result (λ why. (why ≡ StoreFault.DiskFault) ⊎ (D.states disk.new ≡ D.states disk.old)) }
    ensures silent { D.states disk.old ≡ [] → D.states disk.new ≡ [] }
    ensures own { IfOk result (λ opened. IsOwn chain.now place opened.meta) }
    ensures sound { IfOk result (λ opened. (opened.filled ≤ 2 ^ 62) × AllLead opened.spots) }
    ensures counts { CountsStore (IsErrOf result StoreFault.DiskFault) (D.counts disk.old) (D.counts disk.new) }
{
    let piece = made_piece(alloc, chain, place)?;
    let opened = Opened {
        meta: first_meta(alloc, chain.copy(alloc)?, place),
        spots: SpotMap::new(alloc),
        filled: piece.len() as u64,
    };
    match add(disk, 0, piece.as_slice()) {
        DiskDone::Done => Ok(opened),
        DiskDone::Failed => Err(StoreFault::DiskFault),
    }
}

/// Opens a store once more, where it is the one that is asked for, and isn't spent.
fn raise<D: Disk>(
    alloc: Global,
    disk: &mut D,
    chain: &Chain,
    place: u8,
    found: Opened,
) -> Result<Opened, StoreFault>
    requires filled { found.filled ≤ 2 ^ 61 }
    requires lead { AllLead found.spots }
    requires numbers { AreNumbers (numbers_of found.meta) }
    ensures finishes { (file : List ℕ) → IsFile file (D.states disk.old) → IsFound file found → Finishes file chain.now place (D.states disk.old) (D.states disk.new) result }
    ensures back { IfErr result (λ why. (why ≡ StoreFault.DiskFault) ⊎ (D.states disk.new ≡ D.states disk.old)) }
    ensures silent { D.states disk.old ≡ [] → D.states disk.new ≡ [] }
    ensures own { IfOk result (λ opened. IsOwn chain.now place opened.meta) }
    ensures sound { IfOk result (λ opened. (opened.filled ≤ 2 ^ 62) × AllLead opened.spots) }
    ensures counts { CountsStore (IsErrOf result StoreFault.DiskFault) (D.counts disk.old) (D.counts disk.new) }
{
    may_open(&found.meta, chain, place)?;
    let Opened {
        mut meta,
        spots,
        filled,
    } = found;
    meta.incarnation += 1;
    let piece = sets_piece(alloc, numbers_of(&meta))?;
    let opened = Opened {
        meta,
        spots,
        filled: filled + piece.len() as u64,
    };
    match add(disk, filled, piece.as_slice()) {
        DiskDone::Done => Ok(opened),
        DiskDone::Failed => Err(StoreFault::DiskFault),
    }
}

/// Adds a record behind those of a device, which end at `end`; the piece is what stands behind its gate. First a closed gate
/// is written there, where none is.
fn add<D: Disk>(disk: &mut D, end: u64, piece: &[u8]) -> DiskDone
    requires end { end ≤ 2 ^ 61 }
    requires room { length piece.now ≤ 2 ^ 61 }
    ensures any_moment { (file : List ℕ) (records : List (List ℕ)) (held : List ℕ) → IsFile file (D.states disk.old) → IsJournal records file
        → end ≡ length (journal_bytes records) → length held < 2 ^ 64 → piece.now ≡ piece_bytes held
        → Throughout (λ image. IsJournal records image ⊎ IsJournal (records ++ held ∷ []) image) (D.states disk.old) (D.states disk.new) }
    ensures added { (file : List ℕ) (records : List (List ℕ)) (held : List ℕ) → IsFile file (D.states disk.old) → IsJournal records file
        → end ≡ length (journal_bytes records) → length held < 2 ^ 64 → piece.now ≡ piece_bytes held
        → result ≡ DiskDone.Done → IsAtRest (records ++ held ∷ []) (D.states disk.new) }
    ensures silent { D.states disk.old ≡ [] → D.states disk.new ≡ [] }
    ensures counts { CountsStore (result ≡ DiskDone.Failed) (D.counts disk.old) (D.counts disk.new) }
{
    match close(disk, end) {
        DiskDone::Done => append(disk, end, piece),
        DiskDone::Failed => DiskDone::Failed,
    }
}

/// Whether a store may be opened once more: it is that of a place of a chain, and neither its promise nor its incarnation is
/// too great.
fn may_open(meta: &Meta, chain: &Chain, place: u8) -> Result<(), StoreFault>
    ensures may { OnOk result (MayOpen meta.now chain.now place) }
    ensures others { IfErr result (IsOthers meta.now chain.now place) }
{
    if meta.place != place || !same_chain(&meta.chain, chain) {
        return Err(StoreFault::OtherChain);
    }
    if meta.promise >= SPENT {
        return Err(StoreFault::Spent {
            found: meta.promise,
        });
    }
    if meta.incarnation >= SPENT {
        return Err(StoreFault::Spent {
            found: meta.incarnation,
        });
    }
    Ok(())
}

/// Whether two chains are one.
fn same_chain(one: &Chain, other: &Chain) -> bool
    ensures { IsTrue result ↔ (one.now ≡ other.now) }
{
    *one == *other
}

/// The numbers of what stands beside the items.
pub(crate) fn numbers_of(meta: &Meta) -> Numbers
    ensures is { result ≡ numbers_of meta.now }
    ensures words { AreWords result }
{
    // what a clause says of a number behind a reference needs it read
    let _promise = meta.promise;
    let _accepted = meta.accepted;
    let _incarnation = meta.incarnation;
    let _length = meta.length;
    let _cas = meta.cas;
    Numbers {
        promise: meta.promise,
        accepted: meta.accepted,
        incarnation: meta.incarnation,
        length: meta.length,
        cas: meta.cas,
    }
}
