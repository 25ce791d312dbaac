//! Laws of whatever happens to one copy of a vbucket, in the words of those who use documents.
//!
//! A copy takes deeds one after the other: a request without a level comes at a moment and is
//! answered, or the log is put on disk, or isn't (`specs/Histories.antt`, `Takes` and `TakesAll`).
//! Each deed is a step of the copy as `copy_model` has it, by any luck: memory may be wanting, a
//! document may be unreadable, the disk may fail or be full, and the layout of the store is any. So
//! whatever code is proved to take these steps has these laws.
//!
//! | Module | What its laws say |
//! |---|---|
//! | `histories` | what a Get tells after whatever came, and how the numbers of a log rise |
//! | `documents` | how long a document lasts, and what a Set, a Replace and a Delete leave of it |
//! | `collections` | where documents stand, and what becomes of them under another manifest |
//! | `guards` | which document a CAS is of, and what a request with one may change |
//!
//! They speak of a log in which no prepared change waits, and such a log stays so
//! (`nothing_begins_to_wait`). A reply is of a request that was served where the copy was active
//! and the request's vbucket its own, memory sufficed, and the disk neither failed nor was full
//! (`IsServed`).
#![tactic(auto)]

mod collections;
mod documents;
mod guards;
mod histories;

pub use collections::{
    documents_stand_in_collections, dropped_collections_are_empty,
    dropped_collections_never_return, kept_collections_stay,
};
pub use documents::{
    documents_live_as_long_as_asked, expired_documents_are_kept, replacing_makes_no_document,
    storing_keeps_attributes,
};
pub use guards::{
    no_cas_is_above_the_greatest, replies_tell_the_cas, the_cas_of_a_document_passes,
    the_cas_of_before_is_refused,
};
pub use histories::{
    documents_outlive_copies, flushes_change_no_document, get_misses_what_is_deleted,
    get_tells_what_was_set, nothing_begins_to_wait, numbers_rise, other_documents_stay,
};
