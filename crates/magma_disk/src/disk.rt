ghost use Rattle.std.specs.Prelude.{◌≡◌, ℕ, ◌≤◌, List, Option, Bool, length, option_map};
ghost use Rattle.magma_disk.specs.Device.{Device};
ghost use Rattle.magma_disk.specs.Calls.{Reads, Writes, Cuts, Syncs, Crashes, SeesAnImage};
ghost use Rattle.magma_disk.specs.Plan.{Plan, no_plan, counted_down, planned, FailsAsPlanned};
ghost use Rattle.magma_disk.specs.Counting.{Counts, CountsRead, CountsCall, CountsPlan};

/// The most bytes that one read may ask for.
pub const READ_LIMIT: usize = 1_048_576;

/// What a read gave.
#[derive(Clone, Copy, Debug, PartialEq, Eq)]
pub enum DiskRead {
    /// This many bytes stand at the front of the buffer.
    Got(usize),
    /// The device failed. What the buffer has is unknown.
    Failed,
}

/// Whether a call was done.
#[derive(Clone, Copy, Debug, PartialEq, Eq)]
pub enum DiskDone {
    /// It was done whole.
    Done,
    /// The device failed. A write or a cut may have been done in part; a sync changed nothing.
    Failed,
}

/// A device that a store keeps its bytes on. Offsets and lengths are in bytes.
///
/// What is said of bytes, crashes and planned faults holds where a disk tells its states and its
/// plan; what is said of counts holds for each. No call changes whether a disk tells them.
pub trait Disk {
    /// The states that the device has had, the newest first; none where the disk doesn't tell them.
    ghost states: { Self → List Device };

    /// The faults that are planned, where the disk tells them.
    ghost plan: { Self → Option Plan };

    /// How many calls failed, how many were reads, and how many faults were planned. None of these
    /// falls, and each stands still at 2^64 - 1.
    ghost counts: { Self → Counts };

    /// Gives the bytes at an offset, at most 1,048,576. They are fewer than the buffer has room for
    /// only at the device's end, and none behind it. What is read is what a crash now may leave.
    ///
    /// `Failed` where the device failed: the count of faults rose, and no byte changed.
    fn read(&mut self, at: u64, buf: &mut [u8]) -> DiskRead
        requires { length buf.old ≤ READ_LIMIT }
        ensures within { (n : ℕ) → result ≡ DiskRead.Got n → n ≤ length buf.new }
        ensures bytes { Reads at result buf.new (states self.old) }
        ensures seen { SeesAnImage (states self.old) }
        ensures states { states self.new ≡ states self.old }
        ensures planned { FailsAsPlanned (plan self.old) (result ≡ DiskRead.Failed) }
        ensures plan { plan self.new ≡ option_map counted_down (plan self.old) }
        ensures counts { CountsRead (result ≡ DiskRead.Failed)
            (counts self.old) (counts self.new) };

    /// Writes a piece at an offset: over what is there, and past the end, where zeros fill a gap. A
    /// piece without bytes changes nothing. Until a sync a crash may leave anything in the range
    /// and past the old end.
    ///
    /// `Failed` where the device failed: the count of faults rose, and the piece may have been
    /// written in part, with anything in its range and past the old end.
    fn write_at(&mut self, at: u64, piece: &[u8]) -> DiskDone
        ensures bytes { Writes at piece.now result (states self.old) (states self.new) }
        ensures planned { FailsAsPlanned (plan self.old) (result ≡ DiskDone.Failed) }
        ensures plan { plan self.new ≡ option_map counted_down (plan self.old) }
        ensures counts { CountsCall (result ≡ DiskDone.Failed)
            (counts self.old) (counts self.new) };

    /// Gives the device a length: what is behind it goes, or zeros are added. Until a sync a crash
    /// may leave anything past the lesser of the two lengths.
    ///
    /// `Failed` where the device failed: the count of faults rose, and the length is one between,
    /// with anything past the lesser of the two.
    fn cut(&mut self, length: u64) -> DiskDone
        ensures bytes { Cuts length result (states self.old) (states self.new) }
        ensures planned { FailsAsPlanned (plan self.old) (result ≡ DiskDone.Failed) }
        ensures plan { plan self.new ≡ option_map counted_down (plan self.old) }
        ensures counts { CountsCall (result ≡ DiskDone.Failed)
            (counts self.old) (counts self.new) };

    /// Brings all that was written to the device: a crash then leaves what a read gives.
    ///
    /// `Failed` where the device failed: the count of faults rose, and neither a byte nor what a
    /// crash may leave changed.
    fn sync(&mut self) -> DiskDone
        ensures bytes { Syncs result (states self.old) (states self.new) }
        ensures seen { SeesAnImage (states self.old) }
        ensures planned { FailsAsPlanned (plan self.old) (result ≡ DiskDone.Failed) }
        ensures plan { plan self.new ≡ option_map counted_down (plan self.old) }
        ensures counts { CountsCall (result ≡ DiskDone.Failed)
            (counts self.old) (counts self.new) };

    /// The machine stops and starts again: of what a crash may leave, one is there, and a further
    /// crash leaves that. No planned fault is left.
    fn crash(&mut self)
        ensures bytes { Crashes (states self.old) (states self.new) }
        ensures plan { plan self.new ≡ option_map (λ _. no_plan) (plan self.old) }
        ensures counts { counts self.new ≡ counts self.old };

    /// Plans a fault: of the reads, writes, cuts and syncs from now on, the one with the number
    /// `after`, counted from 1, fails, and where `lasting` each later one until a crash. A plan
    /// that isn't lasting takes the place of an older such one; of two lasting plans the one that
    /// begins earlier stands; an `after` of 0 plans nothing.
    fn plan_fault(&mut self, after: u64, lasting: bool)
        ensures states { states self.new ≡ states self.old }
        ensures plan { plan self.new ≡ option_map (planned after lasting) (plan self.old) }
        ensures counts { CountsPlan (counts self.old) (counts self.new) };
}
