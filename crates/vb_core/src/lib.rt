//! A vbucket: documents by their keys, changed by requests one after the other, and kept on a disk.
//!
//! What a vbucket is, is its copy: its place in a chain, its role and term, its log, and what its disk may hold. A `Vb` keeps
//! neither the log nor the documents that are on disk: it keeps what was changed since the last flush, with the manifest and
//! what the log comes to beside its items, and how much the items on disk count that still show (`specs/Means.antt`,
//! `Stands`); where these stand, the store knows. Each call makes of the copy what a copy's event makes of it (`specs/Coming.antt`, `Comes`).
//!
//! | Call | Event |
//! |---|---|
//! | `Vb::open_vb` | the copy begins on what the device holds, and is active at the term of the next round at once |
//! | `Vb::request` | a request: its checks in their order, the document's or the manifest's step, an entry |
//! | `Vb::flush` | the log is put on disk |
//! | `Vb::copy_state`, `Vb::manifest` | none: they tell the copy's numbers and its manifest |
//! | `Vb::plan_fault`, `Vb::finish` | none: the disk's next faults are planned, or the disk is handed back |
//!
//! # Requests
//!
//! A request on a document is answered in this order: one with a durability level isn't served yet; a copy that isn't active
//! or another vbucket isn't ours; one in a collection that isn't there is refused; and then come the comparison of the CAS and
//! the operation itself, where a document that was put on disk is read from it. A change draws a CAS that is greater than
//! every one before and at least the greatest moment seen, in milliseconds, times 2^20, and takes the next position of the log.
//! It is refused where the log is too long, the CAS too great or the content too large. Where 16,384 entries or 64 MiB aren't
//! on disk, it begins with a flush. Whether the expiry of a document has passed goes by the request's own moment.
//!
//! A manifest that takes the place of another takes the next position too, and the documents of the collections that it drops
//! are gone with it, in memory at once and on disk with the next flush. All memory that a request needs is taken before anything
//! changes: at `ENOMEM` the vbucket is as before.
//!
//! # Faults
//!
//! | What fails | What is told | What stands after it |
//! |---|---|---|
//! | reading a document | `ETMPFAIL` | all as it was |
//! | a write or a sync | `DiskFault`, or `ETMPFAIL` to the request that flushed first | the copy is dead, and its disk holds the old or the new |
//! | no room on the disk | `Full`, or `EBUSY` to that request | all as it was |
//! | memory | `NoMemory`, or `ENOMEM` to a request | all as it was; behind an opening the store may be opened once more |
#![tactic(auto)]

mod answering;
mod changing;
mod finding;
mod making;
mod opening;
mod putting;
mod vbucket;

pub use copy_model::{Outcome, Polled, Ticket, VbFault};
pub use vbucket::Vb;

#[cfg(test)]
mod asking;
#[cfg(test)]
mod disk_tests;
#[cfg(test)]
mod tests;
