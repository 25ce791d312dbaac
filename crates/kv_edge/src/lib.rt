//! The edge of the project: what comes from outside and what goes there, as traits that say which bytes were
//! taken and written, and the small types that every crate above uses.
//!
//! A source, a sink and a clock are traits with ghost members. `left` and `written` are lists of bytes where the
//! object tells them, as the objects in memory do, and nothing where it doesn't, as a file. `faults` is a count
//! of failed calls that never falls; it stands still at 2^64 - 1.
#![tactic(auto)]

mod bytes;
mod clock;
mod memory;
mod reading;
mod seq;
mod standard;
#[cfg(test)]
mod tests;
mod traits;
mod transfer;

pub use bytes::Bytes;
pub use clock::{MemClock, StdClock};
pub use memory::{MemSink, MemSource};
pub use reading::{slice_at, u8_at, u16_at, u32_at, u64_at};
pub use seq::Seq;
pub use standard::{StdSink, StdSource};
pub use traits::{Clock, Copied, NoMemory, Put, Sink, Source, Taken};
pub use transfer::{ReadAll, WriteAll, read_all, write_all};
