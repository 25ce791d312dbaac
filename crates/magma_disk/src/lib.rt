//! One device as a store sees it: what a read gives, and what a crash at any moment may leave.
//!
//! # The model of a device
//!
//! A device is a row of bytes. What is written stands in reads at once, and reaches the device
//! itself by a `sync`. A state of a device is what a read gives; the ranges that were written since
//! the last sync that was done; and the least and the greatest length that it had since then. It
//! says what a crash may leave, its images (`specs/Device.antt`, `IsImage`):
//!
//! - A byte that was there all the time since that sync, and that no write since had in its range,
//!   is there and as it was.
//! - All else may hold any byte, or be missing at the end: written ranges, and all past the least
//!   length, written or not.
//! - An image is no longer than the device was at its longest, or would have been by a failed call.
//!
//! What a call does to that:
//!
//! - `write_at`, done: a read gives the bytes with the piece over them, and zeros in a gap before
//!   it; a crash may leave what it might before, with anything in the range and past the old end.
//! - `write_at`, failed: it did nothing, or a read too gives anything in the range and past the old
//!   end, with a length between the old one and that of a whole write.
//! - `cut`, done: a read gives the front of this length, or the bytes with zeros behind them; a
//!   crash may leave what it might before, with anything past the lesser of the two lengths.
//! - `cut`, failed: it did nothing, or a read too gives anything past the lesser length, with a
//!   length between the two.
//! - `sync`, done: a crash leaves what a read gives, and nothing else.
//! - `sync`, failed, and `read`: nothing.
//! - `crash`: a read gives one of the images, and a further crash leaves that, and nothing else.
//!
//! Each call says what it does to the list of all states that the device had, the newest first
//! (`specs/Calls.antt`). So a contract can speak of a crash at each moment of a call that makes
//! many calls on the device: each state that was added leaves no images but such and such
//! (`specs/Moments.antt`, `Throughout`). A disk that doesn't tell its states, as a file, has the
//! empty list, of which nothing is said.
//!
//! # An example
//!
//! A device has the bytes `61 62 63 64`, all synced; `xx` is any byte.
//!
//! | Call | A read gives | A crash now leaves one of |
//! |---|---|---|
//! | | `61 62 63 64` | `61 62 63 64` |
//! | `write_at(3, 78 79)`: `Done` | `61 62 63 78 79` | `61 62 63`, and up to two `xx` |
//! | `sync()`: `Failed` | `61 62 63 78 79` | the same |
//! | `sync()`: `Done` | `61 62 63 78 79` | `61 62 63 78 79` |
//! | `cut(2)`: `Done` | `61 62` | `61 62`, and up to three `xx` |
//! | `write_at(0, 7a 7b 7c)`: `Failed` | say `7a 62` | up to five `xx` |
//! | `crash()` | say `7a 62 63` | `7a 62 63` |
//!
//! # Faults
//!
//! A call that answers `Failed` raises a count of faults, so a caller's fault has a cause. A disk
//! may tell which of its coming calls are planned to fail, so that tests can stop a store at each
//! of its calls on the device.
#![tactic(auto)]

mod contents;
mod disk;
mod file;
mod laws;
mod memory;
mod synced;
#[cfg(test)]
mod tests;

pub use disk::{Disk, DiskDone, DiskRead, READ_LIMIT};
pub use file::FileDisk;
pub use laws::{
    one_image_is_left, read_limit, synced_bytes_survive, synced_is_left,
    writes_keep_what_is_beside, writing_nothing_changes_nothing,
};
pub use memory::MemDisk;
pub use synced::{settle, write_synced};
