//! What of a copy of a vbucket is in memory: all but what its disk holds.
//!
//! A `Memory` has a copy's numbers, what its log comes to, the tickets of clients that wait, the
//! messages that it has yet to say and, while it is active, what it knows of the others and of its
//! durable writes. It reads no clock, no disk and no network: who keeps it tells it of each event, and
//! how many entries of the accepted term's log are on disk. Each call makes of the copy what the small
//! step of `copy_model` of the same name makes of it (`specs/Remembers.antt`).
//!
//! | Call | What becomes of the copy |
//! |---|---|
//! | `Memory::new` | it begins: it isn't active, and no one waits |
//! | `publish` | an active copy adds an entry, and tells the others |
//! | `append` | another adds an entry, and tells the owner of its term how far it is |
//! | `settle`, `count` | an active copy commits the first changes that wait, up to one that isn't ready |
//! | `plan_flush`, `flushed` | its log is on disk: what is ready then is committed, or the owner is told |
//! | `acknowledge`, `tell_all`, `ask`, `give` | a message is to be said |
//! | `leave`, `promise`, `make_whole`, `take` | its numbers move, or it takes another's log |
//! | `speak` | the oldest message is handed out |
//! | `poll`, `forget` | a client learns what has become of its write, or waits no more |
//!
//! # What it costs
//!
//! A commit costs a few look-ups and a message to each other place, and no walk over what waits. A
//! ticket is looked up among the open ones. A copy that leaves the active state leaves all clients
//! that wait at once: a ticket of a term at which the copy isn't active reads as left.
//!
//! # Memory
//!
//! A call that is refused memory changes nothing. What follows a write to the disk can't be refused:
//! `plan_flush` takes all memory beforehand, and `flushed` takes none.
#![tactic(auto)]

mod adding;
mod beginning;
mod memory;
mod moving;
mod polling;
mod settling;
mod speaking;
#[cfg(test)]
mod tests;
mod tickets;

pub use memory::Memory;
pub use settling::FlushPlan;
