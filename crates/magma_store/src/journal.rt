//! Records on a device: how one is added, and how they are read.

ghost use Rattle.std.specs.Prelude.{◌≡◌, ◌⊎◌, ℕ, ◌+◌, ◌/◌, ◌^◌, ◌<◌, ◌≤◌, ◌++◌, ◌∷◌, [], List, length, take, drop, option_map, Err, IfOk, OnOk, IfErr, IsErrOf, IfSome, MatchResult};
ghost use Rattle.magma_disk.specs.Device.{Device};
ghost use Rattle.magma_disk.specs.Counting.{CountsCall, CountsRead};
ghost use Rattle.magma_disk.specs.Moments.{Throughout};
ghost use Rattle.magma_store.specs.Journal.{IsJournal, IsAtRest, IsFile, IsNext, journal_bytes, piece_bytes};
ghost use Rattle.magma_store.specs.Forms.{IsUnsized};
ghost use Rattle.magma_store.specs.Gates.{begins_shut, IsSized, IsCut};
ghost use Rattle.magma_store.specs.Counting.{CountsStore, IsReadFault};

use crate::fault::StoreFault;
use kv_edge::u64_at;
use magma_disk::{Disk, DiskDone, DiskRead, READ_LIMIT, write_synced};
use std::alloc::Global;

/// The gate of a record that counts.
pub(crate) const OPEN: u8 = 0xa5;

/// The gate behind the last record.
pub(crate) const SHUT: u8 = 0;

/// How many bytes one read asks for at most.
const PIECE: u64 = 1_048_576;

/// No memory holds a record of more bytes.
const LONGEST: u64 = 1 << 63;

/// Adds a record behind the closed gate at `end`; the piece is what stands behind its gate. The gate is opened by a write of
/// its own, when all behind it is on the disk, so a crash at any moment leaves the records from before, with the new one or
/// without.
pub(crate) fn append<D: Disk>(disk: &mut D, end: u64, piece: &[u8]) -> DiskDone
    requires room { end + length piece.now < 2 ^ 63 }
    ensures any_moment { (records : List (List ℕ)) (held : List ℕ) → IsAtRest records (D.states disk.old)
        → end ≡ length (journal_bytes records) → length held < 2 ^ 64 → piece.now ≡ piece_bytes held
        → Throughout (λ image. IsJournal records image ⊎ IsJournal (records ++ held ∷ []) image)
        (D.states disk.old) (D.states disk.new) }
    ensures added { (records : List (List ℕ)) (held : List ℕ) → IsAtRest records (D.states disk.old)
        → end ≡ length (journal_bytes records) → length held < 2 ^ 64 → piece.now ≡ piece_bytes held
        → result ≡ DiskDone.Done → IsAtRest (records ++ held ∷ []) (D.states disk.new) }
    ensures silent { D.states disk.old ≡ [] → D.states disk.new ≡ [] }
    ensures counts { CountsCall (result ≡ DiskDone.Failed) (D.counts disk.old) (D.counts disk.new) }
{
    match write_synced(disk, end + 1, piece) {
        DiskDone::Failed => DiskDone::Failed,
        DiskDone::Done => write_synced(disk, end, &[OPEN]),
    }
}

/// What the record at an offset holds, or nothing where none begins there. `Damaged` where its size breaks the layout.
pub(crate) fn next_record<D: Disk>(
    alloc: Global,
    disk: &mut D,
    at: u64,
) -> Result<Option<Vec<u8>>, StoreFault>
    requires { at < 2 ^ 62 }
    ensures next { (file : List ℕ) → IsFile file (D.states disk.old) → IfOk result (λ next. IsNext (option_map (λ v. v.items) next) (drop at file)) }
    ensures damaged { (file : List ℕ) (place found expected : ℕ) → IsFile file (D.states disk.old)
        → result ≡ Err (StoreFault.Damaged place found expected)
        → (left : ℕ) × IsUnsized (drop at file) left found expected × (place + left ≡ length file) }
    ensures fault { IfErr result IsReadFault }
    ensures states { D.states disk.new ≡ D.states disk.old }
    ensures counts { CountsStore (IsErrOf result StoreFault.DiskFault) (D.counts disk.old) (D.counts disk.new) }
{
    let size = match next_size(alloc, disk, at)? {
        None => return Ok(None),
        Some(size) => size,
    };
    let most = size.min(LONGEST);
    let held = read_bytes(alloc, disk, at + 9, most)?;
    let found = held.len() as u64;
    if found < most {
        return Err(StoreFault::Damaged {
            place: at + 1,
            found: size,
            expected: found,
        });
    }
    if most < size {
        return Err(StoreFault::NoMemory);
    }
    Ok(Some(held))
}

/// How many bytes the record at an offset says to hold, or nothing where none begins there. `Damaged` where fewer bytes
/// are there than a size has.
fn next_size<D: Disk>(alloc: Global, disk: &mut D, at: u64) -> Result<Option<u64>, StoreFault>
    requires { at < 2 ^ 62 }
    ensures size { (file : List ℕ) → IsFile file (D.states disk.old)
        → IfOk result (λ size. IsSized size (drop at file)) }
    ensures damaged { (file : List ℕ) (place found expected : ℕ) → IsFile file (D.states disk.old)
        → result ≡ Err (StoreFault.Damaged place found expected)
        → (left : ℕ) × IsUnsized (drop at file) left found expected × (place + left ≡ length file) }
    ensures fault { IfErr result IsReadFault }
    ensures states { D.states disk.new ≡ D.states disk.old }
    ensures counts { CountsStore (IsErrOf result StoreFault.DiskFault) (D.counts disk.old) (D.counts disk.new) }
{
    let head = read_bytes(alloc, disk, at, 9)?;
    match size_in(&head) {
        Ok(size) => Ok(size),
        Err(found) => Err(StoreFault::Damaged {
            place: at + 1,
            found: found as u64,
            expected: 8,
        }),
    }
}

/// How many bytes a record says to hold whose gate stands at the front, or nothing where none begins there. `Err` tells
/// how many bytes stand behind an open gate, where they are too few for a size.
fn size_in(head: &[u8]) -> Result<Option<u64>, usize>
    ensures { MatchResult result (λ size. IsSized size head.now) (IsCut head.now) }
{
    match head {
        [] => Ok(None),
        [gate, rest @ ..] => {
            if *gate == OPEN {
                return size_behind(rest);
            }
            Ok(None)
        }
    }
}

/// The same of the bytes behind an open gate.
fn size_behind(rest: &[u8]) -> Result<Option<u64>, usize>
    ensures { MatchResult result (λ size. IsSized size (OPEN ∷ rest.now)) (IsCut (OPEN ∷ rest.now)) }
{
    if rest.is_empty() {
        return Ok(None);
    }
    match u64_at(rest) {
        Some((size, _)) => Ok(Some(size)),
        None => Err(rest.len()),
    }
}

/// So many bytes at an offset, or all up to the device's end.
pub(crate) fn read_bytes<D: Disk>(
    alloc: Global,
    disk: &mut D,
    at: u64,
    count: u64,
) -> Result<Vec<u8>, StoreFault>
    requires { at + count < 2 ^ 64 }
    ensures bytes { (d : Device) (past : List Device) → D.states disk.old ≡ d ∷ past → IfOk result (λ bytes. bytes.items ≡ take count (drop at d.bytes)) }
    ensures short { IfOk result (λ bytes. length bytes.items ≤ count) }
    ensures fault { IfErr result (λ fault. (fault ≡ StoreFault.DiskFault) ⊎ (fault ≡ StoreFault.NoMemory)) }
    ensures states { D.states disk.new ≡ D.states disk.old }
    ensures counts { CountsStore (IsErrOf result StoreFault.DiskFault) (D.counts disk.old) (D.counts disk.new) }
    ensures few { (D.counts disk.new).reads ≤ (D.counts disk.old).reads + (count / 1048576 + 1) }
{
    if count <= PIECE {
        return read_piece(alloc, disk, at, count as usize);
    }
    let mut bytes = Vec::new(alloc);
    for turn in 0..count.div_ceil(PIECE) {
        let have = turn * PIECE;
        let ask = (count - have).min(PIECE) as usize;
        let piece = read_piece(alloc, disk, at + have, ask)?;
        bytes.extend_from_slice(&piece)?;
        if piece.len() < ask {
            return Ok(bytes);
        }
    }
    Ok(bytes)
}

/// At most so many bytes at an offset, by one read.
fn read_piece<D: Disk>(
    alloc: Global,
    disk: &mut D,
    at: u64,
    ask: usize,
) -> Result<Vec<u8>, StoreFault>
    requires { ask ≤ READ_LIMIT }
    ensures bytes { (d : Device) (past : List Device) → D.states disk.old ≡ d ∷ past
        → IfOk result (λ piece. piece.items ≡ take ask (drop at d.bytes)) }
    ensures short { IfOk result (λ piece. length piece.items ≤ ask) }
    ensures fault { IfErr result (λ fault. (fault ≡ StoreFault.DiskFault) ⊎ (fault ≡ StoreFault.NoMemory)) }
    ensures states { D.states disk.new ≡ D.states disk.old }
    ensures counts { CountsStore (IsErrOf result StoreFault.DiskFault) (D.counts disk.old) (D.counts disk.new) }
    ensures one { (D.counts disk.new).reads ≤ (D.counts disk.old).reads + 1 }
{
    let mut piece = Vec::new(alloc);
    piece.resize(ask, 0)?;
    match disk.read(at, &mut piece) {
        DiskRead::Failed => Err(StoreFault::DiskFault),
        DiskRead::Got(count) => {
            piece.truncate(count);
            Ok(piece)
        }
    }
}

/// Brings a journal to rest whose records end at an offset: where no closed gate stands there, one is written. A crash at
/// any moment leaves the same records. `DiskFault` comes only where the count of faults rose.
pub(crate) fn close<D: Disk>(disk: &mut D, end: u64) -> DiskDone
    requires { end < 2 ^ 62 }
    ensures any_moment { (file : List ℕ) (records : List (List ℕ)) → IsFile file (D.states disk.old) → IsJournal records file
        → end ≡ length (journal_bytes records)
        → Throughout (IsJournal records) (D.states disk.old) (D.states disk.new) }
    ensures closed { (file : List ℕ) (records : List (List ℕ)) → IsFile file (D.states disk.old) → IsJournal records file
        → end ≡ length (journal_bytes records) → result ≡ DiskDone.Done → IsAtRest records (D.states disk.new) }
    ensures silent { D.states disk.old ≡ [] → D.states disk.new ≡ [] }
    ensures counts { CountsStore (result ≡ DiskDone.Failed) (D.counts disk.old) (D.counts disk.new) }
{
    match is_shut_at(disk, end) {
        None => DiskDone::Failed,
        Some(shut) => {
            if shut {
                return DiskDone::Done;
            }
            write_synced(disk, end, &[SHUT])
        }
    }
}

/// Whether a closed gate stands at an offset, or nothing where the disk failed.
fn is_shut_at<D: Disk>(disk: &mut D, at: u64) -> Option<bool>
    ensures shut { (file : List ℕ) → IsFile file (D.states disk.old)
        → IfSome result (λ shut. shut ≡ begins_shut (drop at file)) }
    ensures states { D.states disk.new ≡ D.states disk.old }
    ensures counts { CountsRead (result ≡ None) (D.counts disk.old) (D.counts disk.new) }
{
    let mut gate = [OPEN];
    match disk.read(at, &mut gate) {
        DiskRead::Failed => None,
        DiskRead::Got(count) => {
            if count == 0 {
                return Some(false);
            }
            Some(gate[0] != OPEN)
        }
    }
}
