ghost use Rattle.std.specs.Prelude.{◌≡◌, ℕ, List, length};
ghost use Rattle.magma_disk.specs.Device.{Torn, overlaid};
ghost use Rattle.magma_disk.specs.Moments.{Throughout, IsSettled};
ghost use Rattle.magma_disk.specs.Calls.{MayLeave, IsSeen, bytes_of};
ghost use Rattle.magma_disk.specs.Counting.{CountsCall};

use crate::disk::{Disk, DiskDone};

/// Writes a piece at an offset, and syncs. Where all was on the device, a crash at any moment of
/// the call leaves a file of which the piece's range and all past the old end may be anything;
/// after `Done` it leaves the file with the piece.
///
/// `Failed` where the write or the sync failed; the count of faults rose.
pub fn write_synced<D: Disk>(disk: &mut D, at: u64, piece: &[u8]) -> DiskDone
    ensures any_moment { (file : List ℕ) → IsSettled file (D.states disk.old)
        → Throughout (Torn at (length piece.now) file) (D.states disk.old) (D.states disk.new) }
    ensures done { (file : List ℕ) → IsSettled file (D.states disk.old) → result ≡ DiskDone.Done
        → IsSettled (overlaid file at piece.now) (D.states disk.new) }
    ensures counts { CountsCall (result ≡ DiskDone.Failed) (D.counts disk.old) (D.counts disk.new) }
{
    match disk.write_at(at, piece) {
        DiskDone::Failed => DiskDone::Failed,
        DiskDone::Done => disk.sync(),
    }
}

/// Brings to the device all that was written before. A crash at any moment of the call leaves what
/// one may have left as it began, and after `Done` what a read gives.
///
/// `Failed` where the sync failed; the count of faults rose.
pub fn settle<D: Disk>(disk: &mut D) -> DiskDone
    ensures any_moment { Throughout (MayLeave (D.states disk.old))
        (D.states disk.old) (D.states disk.new) }
    ensures done { result ≡ DiskDone.Done → (file : List ℕ) → file ≡ bytes_of (D.states disk.old)
        → IsSeen file (D.states disk.old) × IsSettled file (D.states disk.new) }
    ensures counts { CountsCall (result ≡ DiskDone.Failed) (D.counts disk.old) (D.counts disk.new) }
{
    disk.sync()
}
