//! Laws of a device. Each function does nothing; its contract is the law.

ghost use Rattle.std.specs.Prelude.{◌≡◌, ℕ, ◌+◌, ◌<◌, ◌≤◌, List, [], ◌∷◌, ◌++◌, length, take, drop};
ghost use Rattle.magma_disk.specs.declared.disk.DiskDone.{DiskDone};
ghost use Rattle.magma_disk.specs.Device.{Device, IsImage, StaysAt, settled, overlaid, Torn};
ghost use Rattle.magma_disk.specs.Calls.{bytes_of, MayLeave, Writes, Syncs, Crashes, SeesAnImage};
ghost use Rattle.magma_disk.specs.Steps.{Step, Runs, AllSpare};

use crate::disk::READ_LIMIT;

/// One read asks for 1,048,576 bytes at most.
pub fn read_limit()
    ensures { READ_LIMIT ≡ 1048576 }
{}

/// After a sync that answered `Done` a crash leaves what a read gave, and nothing else; and it is
/// what a read gives after the crash.
pub fn synced_is_left()
    ensures left { (d : Device) (past now : List Device) (image : List ℕ)
        → Syncs DiskDone.Done (d ∷ past) now → MayLeave now image → image ≡ d.bytes }
    ensures read { (d : Device) (past now after : List Device)
        → Syncs DiskDone.Done (d ∷ past) now → Crashes now after → bytes_of after ≡ d.bytes }
{}

/// A byte of what a read gave at a sync that answered `Done` is read as it was, and every crash
/// leaves it, after whatever calls, failed ones too, and whatever crashes, as long as no write had
/// it in its range and no cut had it behind its length.
pub fn synced_bytes_survive()
    ensures read { (file : List ℕ) (i : ℕ) (steps : List Step) (past now : List Device)
        → i < length file → AllSpare i steps → Runs steps (settled file ∷ past) now
        → StaysAt i file (bytes_of now) }
    ensures left { (file : List ℕ) (i : ℕ) (steps : List Step) (past now : List Device)
        → (image : List ℕ) → i < length file → AllSpare i steps
        → Runs steps (settled file ∷ past) now → MayLeave now image → StaysAt i file image }
{}

/// After a crash a further one leaves what a read gives, and nothing else.
pub fn one_image_is_left()
    ensures { (before now : List Device) (image : List ℕ)
        → Crashes before now → MayLeave now image → image ≡ bytes_of now }
{}

/// A write without bytes changes neither what a read gives nor what a crash may leave.
pub fn writing_nothing_changes_nothing()
    ensures read { (at : ℕ) (answer : DiskDone) (d : Device) (past now : List Device)
        → Writes at [] answer (d ∷ past) now → bytes_of now ≡ d.bytes }
    ensures left { (at : ℕ) (answer : DiskDone) (d : Device) (past now : List Device)
        → (image : List ℕ) → SeesAnImage (d ∷ past) → Writes at [] answer (d ∷ past) now
        → MayLeave now image → IsImage d image }
{}

/// A write within the bytes or at their end is the bytes in front of it, the piece, and the bytes
/// behind it; and whatever comes of one that is torn, the bytes in front and behind stay.
pub fn writes_keep_what_is_beside()
    ensures whole { (file piece : List ℕ) (at : ℕ) → at ≤ length file
        → overlaid file at piece ≡ take at file ++ piece ++ drop (at + length piece) file }
    ensures front { (file left : List ℕ) (at count : ℕ) → at ≤ length file
        → Torn at count file left → take at left ≡ take at file }
    ensures back { (file left : List ℕ) (at count : ℕ) → at + count ≤ length file
        → Torn at count file left → drop (at + count) left ≡ drop (at + count) file }
{}
