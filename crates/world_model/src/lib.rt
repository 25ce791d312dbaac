//! The copies of a vbucket together, as definitions that the laws of failover go by.
//!
//! A world has the copies at the places of a chain, each up or down, all messages that were ever
//! sent, and all answers that were given to fences (`specs/Worlds.antt`, `World`). It goes on by
//! steps (`Step`):
//!
//! | Step | What it does |
//! |---|---|
//! | an event of a copy that is up | the copy becomes another, as `copy_model` has it; what it says and answers is added |
//! | a crash | the copy is down; its disk has its pair, or the other where a write was stopped |
//! | an opening | a copy that is down is up again on a pair that its disk may hold, or its disk fails |
//!
//! No message is ever lost from the world, so a copy may hear one late, again, or never: what a
//! network does to messages is which of them are heard and when.
//!
//! # Terms
//!
//! Along a run of a world each term has a base, the log that its owner had on disk when it was first
//! seen to have accepted it, and a lead, the log that the owner had when it was last active at it
//! (`specs/Terms.antt`, `term_of`). A durable write that was prepared in a term stands in another
//! when the other's base has it with all before it, and the other's lead has no Abort of it
//! (`Stands`).
//! # Reports
//!
//! A script tells events in lines (`kv_script`). What each line does to the world and to the
//! connections of its copies, and what it tells, is one relation (`specs/Scripts.antt`, `LineDoes`),
//! and so is the report of a whole script (`Reports`): it leaves open what a disk, a crash and a want of
//! memory leave open, and nothing else. Behind each event the clients that wait are polled, and then the
//! copy's connections go on, the first first, as long as one can (`specs/Connections.antt`,
//! `GoesOn`). Facts are data; `specs/Facts.antt` has their text.
//!
//! That a write which was answered Success stands in each later term is a statement here
//! (`specs/Laws.antt`, `DurablePrefix`); it isn't proved yet.
#![tactic(auto)]

mod laws;
mod reports;

pub use laws::{
    bases_stay, copies_begin_new, leads_are_of_actives, nothing_is_unsaid, worlds_fold,
};
pub use reports::{facts_have_lines, reports_are_of_runs};
