//! What a copy of a vbucket does at each event, as definitions that every layer above goes by.
//!
//! A copy is a record of what it has: its place in a chain, its role, promise and term, its log, the
//! tickets that wait, what it has yet to say, and what its disk may hold. An event makes another
//! copy of it, and tells its caller something; `specs/Events.antt` says what, event by event.
//!
//! | Event | What it does | Where |
//! |---|---|---|
//! | a request | checks in their order, the document's or the manifest's step, an entry | `Requests` |
//! | a poll | answers a ticket unless its prepare waits | `Requests` |
//! | a ticket is forgotten | it isn't open any more | `Requests` |
//! | a message | an entry, all of a log, or how far another copy is | `Hearing` |
//! | a message or a change is asked for | hands out the oldest | `Events` |
//! | a tick | gives up what waited too long, and commits what is ready | `Events` |
//! | a flush | puts the log on disk | `Disk` |
//! | a cleaning | moves what is live, or frees a segment | `Events` |
//! | a fence | promises a term | `Events` |
//! | a promotion | makes the copy active at a term | `Events` |
//! | a state | makes the copy pending, or dead | `Events` |
//! | an opening | begins a copy on what a disk holds | `Openings` |
//!
//! # What is left open
//!
//! An event is a function of the copy and of its luck: whether a document can be read, whether the
//! disk fails, whether memory is wanting, and which layout a write leaves on disk. A write that
//! stopped leaves the old pair or the new one, and the copy dead. Which layouts a write may leave is
//! the store's own to say (`LayoutKind`); the steps that a copy may take are those of a luck whose
//! layout is one of these (`specs/Laying.antt`, `May`).
//!
//! # Whole logs, and what they come to
//!
//! The record is one over any representation of a log. Laws speak of copies with whole logs; a node
//! keeps what its log comes to. Both take the same steps: an event on a copy with its whole log comes
//! to the same as on the copy with what the log comes to (`steps_fold`).
//!
//! # A worked run
//!
//! A copy at place 0 of a chain of two named places, promoted at the term 4 on an empty log:
//!
//! | Event | Its log | What it says | What its caller is told |
//! |---|---|---|---|
//! | promotion at 4 | | to place 1: Ack, 0 in memory, 0 on disk | Ok |
//! | Set of `a` at level 1 | Prepare of `a` | to place 1: the Prepare, at 1 | Parked |
//! | Get of `a` | the same | | no such key |
//! | Ack of place 1: 1 in memory | Prepare, Commit of 1 | to place 1: the Commit, at 2 | Ok |
//! | a poll of the ticket | the same | | Success, at 2 |
//! | Get of `a` | the same | | the document |
#![tactic(auto)]

mod disk_laws;
mod laws;
mod limits;
mod log_laws;
mod outcome;

pub use disk_laws::{
    dead_copies_stay, events_that_write_do, living_copies_have_one_pair,
    stopped_writes_leave_the_copy_dead, unwritten_disks_stay, what_is_told_is_on_disk,
    written_disks_have_their_layout,
};
pub use laws::{copies_begin_as_replicas, copies_may_the_same, steps_fold};
pub use limits::{
    CAS_LIMIT, LAST_MOMENT, REQUEST_LIMIT, SPENT, UNFLUSHED_BYTES, UNFLUSHED_ENTRIES, copy_numbers,
};
pub use log_laws::{
    accepted_terms_rise, logs_only_grow, only_a_rightful_promotion_makes_active, promises_rise,
    success_has_its_commit, success_means_it_stands,
};
pub use outcome::{Outcome, Polled, Ticket, VbFault};
