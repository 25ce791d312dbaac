ghost use Rattle.std.specs.Prelude.{◌≡◌, ◌≢◌, ℕ, ◌+◌, ◌-◌, ◌^◌, ◌≤◌, ◌⊎◌, [], ◌∷◌, min, max};
ghost use Rattle.std.specs.Prelude.{length, take, drop, vec_len, IsTrue, Some, OnOk};
ghost use Rattle.kv_edge.specs.Edge.{Rose};
ghost use Rattle.magma_disk.specs.Device.{settled};
ghost use Rattle.magma_disk.specs.Contents.{states_of, HasRoom};
ghost use Rattle.magma_disk.specs.Calls.{Reads, Writes, Cuts, Syncs, Crashes, SeesAnImage};
ghost use Rattle.magma_disk.specs.Plan.{no_plan, is_due, counted_down, planned, FailsAsPlanned};
ghost use Rattle.magma_disk.specs.Counting.{CountsRead, CountsCall, CountsPlan};

use crate::contents::{Contents, push_within};
use crate::disk::{Disk, DiskDone, DiskRead, READ_LIMIT};
use std::alloc::{AllocError, Global};
use std::marker::Model;
use std::snapshot::Snapshot;

/// A disk in memory. It tells its states, its plan and its counts. Its calls fail as planned, and
/// besides where a write or a cut finds no memory.
///
/// Each torn call takes the next of the disk's tears, or 0 where none is left: a write or a cut
/// that fails as planned, and a crash where not all is on the device. Such a write of n bytes
/// writes the first `tear % (n + 1)` of them; such a cut adds to the lesser of the two lengths
/// `tear % (d + 1)`, where they differ by d; and such a crash xors each byte that was written since
/// the last sync with the byte of the tear, the lowest first, of its offset's rest by 8, and where
/// the tear is odd leaves nothing past the least length since then.
#[derive(Drop)]
pub struct MemDisk {
    contents: Contents,
    // the earlier states, which clauses alone read, with room for one more where not all is settled
    past: Vec<Snapshot<Contents>>,
    // the numbers of the planned calls, counted from 1, or 0
    once: u64,
    lasting: u64,
    tears: Vec<u64>,
    // how many calls were torn
    torn: usize,
    faults: u64,
    reads: u64,
    plans: u64,
    // how many calls found no memory
    refused: u64,
}

impl Model for MemDisk {
    ghost use Rattle.magma_disk.specs.Memory.{Memory};

    ghost Value = { Memory };

    ghost use Rattle.magma_disk.specs.Contents.{states_of, HasRoom};

    ghost view = { λ m. record {
      states = states_of m.contents m.past;
      plan = record { once = m.once; lasting = m.lasting };
      counts = record { faults = m.faults; reads = m.reads; plans = m.plans };
      refused = m.refused;
    } };

    ghost invariant = { λ m. HasRoom m.contents m.past };
}

impl MemDisk {
    /// An empty device, with the tears that its torn calls take in turn.
    pub fn new(alloc: Global, tears: Vec<u64>) -> MemDisk
        ensures states { result.states ≡ settled [] ∷ [] }
        ensures plan { result.plan ≡ no_plan }
        ensures counts { result.counts ≡ record { faults = 0; reads = 0; plans = 0 } }
        ensures refused { result.refused ≡ 0 }
    {
        MemDisk {
            contents: Contents {
                bytes: Vec::new(alloc),
                touched: Vec::new(alloc),
                shortest: 0,
                longest: 0,
            },
            past: Vec::new(alloc),
            once: 0,
            lasting: 0,
            tears,
            torn: 0,
            faults: 0,
            reads: 0,
            plans: 0,
            refused: 0,
        }
    }

    /// How many writes and cuts failed since no memory was found for them.
    pub fn refused(&self) -> u64
        ensures { result ≡ self.now.refused }
    {
        self.refused
    }
}

impl Disk for MemDisk {
    ghost states = { λ disk. disk.states };

    ghost plan = { λ disk. Some disk.plan };

    ghost counts = { λ disk. disk.counts };

    /// Fails exactly where that is planned.
    fn read(&mut self, at: u64, buf: &mut [u8]) -> DiskRead
        requires { length buf.old ≤ READ_LIMIT }
        ensures within { (n : ℕ) → result ≡ DiskRead.Got n → n ≤ length buf.new }
        ensures bytes { Reads at result buf.new self.old.states }
        ensures seen { SeesAnImage self.old.states }
        ensures states { self.new.states ≡ self.old.states }
        ensures planned { FailsAsPlanned (Some self.old.plan) (result ≡ DiskRead.Failed) }
        ensures plan { Some self.new.plan ≡ Some (counted_down self.old.plan) }
        ensures counts { CountsRead (result ≡ DiskRead.Failed) self.old.counts self.new.counts }
        ensures alone { result ≢ DiskRead.Failed
            → self.new.counts.faults ≡ self.old.counts.faults }
        ensures fails { result ≡ DiskRead.Failed → IsTrue (is_due self.old.plan) }
        ensures refused { self.new.refused ≡ self.old.refused }
    {
        self.reads = self.reads.saturating_add(1);
        if count_down(&mut self.once, &mut self.lasting) {
            self.faults = self.faults.saturating_add(1);
            return DiskRead::Failed;
        }
        DiskRead::Got(copy_from(&self.contents.bytes, at as usize, buf))
    }

    /// Fails where that is planned, and writes a part of the piece then; and where no memory is
    /// found, and changes nothing then.
    fn write_at(&mut self, at: u64, piece: &[u8]) -> DiskDone
        ensures bytes { Writes at piece.now result self.old.states self.new.states }
        ensures planned { FailsAsPlanned (Some self.old.plan) (result ≡ DiskDone.Failed) }
        ensures plan { Some self.new.plan ≡ Some (counted_down self.old.plan) }
        ensures counts { CountsCall (result ≡ DiskDone.Failed) self.old.counts self.new.counts }
        ensures alone { result ≢ DiskDone.Failed
            → self.new.counts.faults ≡ self.old.counts.faults }
        ensures fails { result ≡ DiskDone.Failed
            → IsTrue (is_due self.old.plan) ⊎ Rose self.old.refused self.new.refused }
        ensures refused { IsTrue (is_due self.old.plan) ⊎ (result ≡ DiskDone.Done)
            → self.new.refused ≡ self.old.refused }
    {
        if count_down(&mut self.once, &mut self.lasting) {
            let tear = next_tear(&self.tears, &mut self.torn);
            let count = part_of(tear, piece.len());
            let _ = write_noted(
                &mut self.contents,
                &mut self.past,
                at as usize,
                piece,
                count,
            );
            self.faults = self.faults.saturating_add(1);
            return DiskDone::Failed;
        }
        let count = piece.len();
        match write_noted(
            &mut self.contents,
            &mut self.past,
            at as usize,
            piece,
            count,
        ) {
            Ok(()) => DiskDone::Done,
            Err(_) => {
                self.refused = self.refused.saturating_add(1);
                self.faults = self.faults.saturating_add(1);
                DiskDone::Failed
            }
        }
    }

    /// Fails where that is planned, and leaves a length between then; and where no memory is found,
    /// and changes nothing then.
    fn cut(&mut self, length: u64) -> DiskDone
        ensures bytes { Cuts length result self.old.states self.new.states }
        ensures planned { FailsAsPlanned (Some self.old.plan) (result ≡ DiskDone.Failed) }
        ensures plan { Some self.new.plan ≡ Some (counted_down self.old.plan) }
        ensures counts { CountsCall (result ≡ DiskDone.Failed) self.old.counts self.new.counts }
        ensures alone { result ≢ DiskDone.Failed
            → self.new.counts.faults ≡ self.old.counts.faults }
        ensures fails { result ≡ DiskDone.Failed
            → IsTrue (is_due self.old.plan) ⊎ Rose self.old.refused self.new.refused }
        ensures refused { IsTrue (is_due self.old.plan) ⊎ (result ≡ DiskDone.Done)
            → self.new.refused ≡ self.old.refused }
    {
        let length = length as usize;
        if count_down(&mut self.once, &mut self.lasting) {
            let tear = next_tear(&self.tears, &mut self.torn);
            let part = length_between(self.contents.bytes.len(), length, tear);
            let _ = cut_noted(&mut self.contents, &mut self.past, length, part);
            self.faults = self.faults.saturating_add(1);
            return DiskDone::Failed;
        }
        match cut_noted(&mut self.contents, &mut self.past, length, length) {
            Ok(()) => DiskDone::Done,
            Err(_) => {
                self.refused = self.refused.saturating_add(1);
                self.faults = self.faults.saturating_add(1);
                DiskDone::Failed
            }
        }
    }

    /// Fails exactly where that is planned.
    fn sync(&mut self) -> DiskDone
        ensures bytes { Syncs result self.old.states self.new.states }
        ensures seen { SeesAnImage self.old.states }
        ensures planned { FailsAsPlanned (Some self.old.plan) (result ≡ DiskDone.Failed) }
        ensures plan { Some self.new.plan ≡ Some (counted_down self.old.plan) }
        ensures counts { CountsCall (result ≡ DiskDone.Failed) self.old.counts self.new.counts }
        ensures alone { result ≢ DiskDone.Failed
            → self.new.counts.faults ≡ self.old.counts.faults }
        ensures fails { result ≡ DiskDone.Failed → IsTrue (is_due self.old.plan) }
        ensures refused { self.new.refused ≡ self.old.refused }
    {
        if count_down(&mut self.once, &mut self.lasting) {
            self.faults = self.faults.saturating_add(1);
            return DiskDone::Failed;
        }
        if !self.contents.is_settled() {
            push_within(&mut self.past, Snapshot::of(&self.contents));
            self.contents.settle();
        }
        DiskDone::Done
    }

    /// Takes a tear where not all is on the device.
    fn crash(&mut self)
        ensures bytes { Crashes self.old.states self.new.states }
        ensures plan { Some self.new.plan ≡ Some no_plan }
        ensures counts { self.new.counts ≡ self.old.counts }
        ensures refused { self.new.refused ≡ self.old.refused }
    {
        self.once = 0;
        self.lasting = 0;
        if self.contents.is_settled() {
            return;
        }
        push_within(&mut self.past, Snapshot::of(&self.contents));
        let tear = next_tear(&self.tears, &mut self.torn);
        self.contents.tear(tear);
    }

    /// Counts as one plan more.
    fn plan_fault(&mut self, after: u64, lasting: bool)
        ensures states { self.new.states ≡ self.old.states }
        ensures plan { Some self.new.plan ≡ Some (planned after lasting self.old.plan) }
        ensures counts { CountsPlan self.old.counts self.new.counts }
        ensures one_plan { self.new.counts.plans ≡ min (self.old.counts.plans + 1) (2 ^ 64 - 1) }
        ensures refused { self.new.refused ≡ self.old.refused }
    {
        self.plans = self.plans.saturating_add(1);
        if after == 0 {
            return;
        }
        if !lasting {
            self.once = after;
        } else if self.lasting == 0 {
            self.lasting = after;
        } else {
            self.lasting = self.lasting.min(after);
        }
    }
}

/// Writes the first `count` bytes of a piece, and notes the state from before.
fn write_noted(
    contents: &mut Contents,
    past: &mut Vec<Snapshot<Contents>>,
    at: usize,
    piece: &[u8],
    count: usize,
) -> Result<(), AllocError>
    requires room { HasRoom contents.old past.old }
    requires front { count ≤ length piece.now }
    ensures room { HasRoom contents.new past.new }
    ensures failed { Writes at piece.now DiskDone.Failed
        (states_of contents.old past.old) (states_of contents.new past.new) }
    ensures done { count ≡ length piece.now → OnOk result (Writes at piece.now DiskDone.Done
        (states_of contents.old past.old) (states_of contents.new past.new)) }
{
    past.reserve(2)?;
    let was = Snapshot::of(contents);
    contents.write(at, piece, count)?;
    push_within(past, was);
    Ok(())
}

/// Changes the length to `part` on the way to `length`, and notes the state from before.
fn cut_noted(
    contents: &mut Contents,
    past: &mut Vec<Snapshot<Contents>>,
    length: usize,
    part: usize,
) -> Result<(), AllocError>
    requires room { HasRoom contents.old past.old }
    requires least { min (vec_len contents.old.bytes) length ≤ part }
    requires most { part ≤ max (vec_len contents.old.bytes) length }
    ensures room { HasRoom contents.new past.new }
    ensures failed { Cuts length DiskDone.Failed
        (states_of contents.old past.old) (states_of contents.new past.new) }
    ensures done { part ≡ length → OnOk result (Cuts length DiskDone.Done
        (states_of contents.old past.old) (states_of contents.new past.new)) }
{
    past.reserve(2)?;
    let was = Snapshot::of(contents);
    contents.resize(length, part)?;
    push_within(past, was);
    Ok(())
}

/// The next tear, or 0 where none is left.
fn next_tear(tears: &[u64], torn: &mut usize) -> u64 {
    let tear = tears.get(*torn).copied().unwrap_or(0);
    *torn = torn.saturating_add(1);
    tear
}

/// How much of something a torn call does.
fn part_of(tear: u64, whole: usize) -> usize
    ensures { result ≤ whole }
{
    tear as usize % whole.saturating_add(1)
}

/// The length that a torn cut leaves.
fn length_between(old: usize, new: usize, tear: u64) -> usize
    ensures least { min old new ≤ result }
    ensures most { result ≤ max old new }
{
    old.min(new) + part_of(tear, old.abs_diff(new))
}

/// Counts the planned faults down by a call, and tells whether it is to fail.
fn count_down(once: &mut u64, lasting: &mut u64) -> bool
    ensures due { result ≡ is_due (record { once = once.old; lasting = lasting.old }) }
    ensures plan { record { once = once.new; lasting = lasting.new }
        ≡ counted_down (record { once = once.old; lasting = lasting.old }) }
{
    let due = *once == 1 || *lasting == 1;
    *once = once.saturating_sub(1);
    if *lasting > 1 {
        *lasting -= 1;
    }
    due
}

/// Copies the bytes at an offset to the front of the buffer, and tells how many there were.
fn copy_from(bytes: &[u8], at: usize, buf: &mut [u8]) -> usize
    ensures count { result ≡ min (length buf.new) (length bytes.now - at) }
    ensures bytes { take result buf.new ≡ take result (drop at bytes.now) }
{
    if at >= bytes.len() {
        return 0;
    }
    let (_, rest) = bytes.split_at(at);
    let count = rest.len().min(buf.len());
    let (piece, _) = rest.split_at(count);
    let (front, _) = buf.split_at_mut(count);
    front.copy_from_slice(piece);
    count
}
