//! What a request does to the document of its key, as definitions that every layer above cites, and the types of its
//! outcome.
//!
//! A document is there where its key has one whose expiry is 0 or still to come. With a CAS other than 0 a request is
//! refused with KeyEnoent where none is there, and with KeyEexists where it has another CAS. Then:
//!
//! | Operation | Refusal | Effect |
//! |---|---|---|
//! | Get, GetK | none there: KeyEnoent | none |
//! | Set | | value, flags and expiry of the request; attributes of a document that is there are kept |
//! | Add | one there: KeyEexists | as Set |
//! | Replace | none there: KeyEnoent | as Set |
//! | Delete | none there: KeyEnoent | deleted with its attributes |
//! | Append, Prepend | none there: NotStored; the result past the limit: E2big | flags, expiry and attributes are kept |
//! | Increment, Decrement | none there and the expiry ffffffff: KeyEnoent; no number: DeltaBadval | none there: the initial value with flags 0 and the expiry; else the number counted up, past 2^64 - 1 on from 0, or down, to 0 and no further, written without leading zeros; flags, expiry and attributes are kept |
//! | Touch, get and touch | none there: KeyEnoent | the expiry alone |
//! | a look at a part | none there: KeyEnoent; what `subdoc_step` refuses, or `xattr_step` | none |
//! | a look at several parts | none there: KeyEnoent; results of more bytes than a value may have: E2big | none |
//! | an edit of a part | none there: KeyEnoent, unless the request makes one; one there: KeyEexists, where the request says so; what `subdoc_step` refuses, or `xattr_step` | the edited value or attributes; all else is kept, and the expiry unless the request gives one |
//! | edits of several parts | the same, but for what an edit refuses | as of an edit, all of them or none |
//!
//! # Parts
//!
//! A spec names a part of the document's value, or with the flag 04 of its extended attributes. A document that edits
//! make begins as `[]`, where the path of the first of them on the value is empty or begins with an index, else as
//! `{}`, with flags 0 and without attributes.
//!
//! A look at several parts has a result for each, whatever becomes of the others: the status in two bytes, the length of
//! what was found in four, and what was found. Where one isn't Success the reply has the status MultiPathFailure and the
//! CAS 0.
//!
//! Edits of several parts are made one after the other, each on what those before it left. Where each is made the reply has
//! a result for each that comes to a number: its place in one byte, from 0 on, Success in two, the length of the number's
//! text in four, and that text. Where one is refused nothing is changed: the reply has the status MultiPathFailure, the CAS 0,
//! and as its value the place of the first that is refused in one byte and its status in two.
//!
//! Whether a value is JSON text is computed at each change.
//!
//! A number is a text of 1 to 20 decimal digits below 2^64. Each effect carries the CAS that is drawn for it.
//!
//! An expiry of a request is 0 for none; up to 2,592,000 (30 days) it counts seconds from now, and above that it is
//! seconds since 1970. Where the collection has a greatest lifetime, an expiry is cut to it.
#![tactic(auto)]

mod laws;
mod part_laws;

use doc_model::Doc;
use kv_request::Reply;
pub use laws::{
    adding_keeps_what_is_there, cas_guards_changes, changes_carry_the_draw, count_up_and_down,
    expired_is_absent, joining_keeps_the_rest, refusals_change_nothing, small_stays_small,
    step_numbers, touching_keeps_the_value,
};
pub use part_laws::{
    editing_keeps_the_rest, edits_make_no_documents_unasked, first_failing_edit_is_named,
    looking_changes_nothing, one_edit_is_as_alone, one_look_is_as_alone,
    storing_keeps_the_attributes,
};

/// The greatest expiry of a request that counts seconds from now: 30 days.
pub const RELATIVE_LIMIT: u32 = 2_592_000;

/// The last expiry that there is, in seconds since 1970.
pub const LAST_EXPIRY: u32 = 0xffff_ffff;

/// The expiry of a counter's request that asks for no new document.
pub const NO_INITIAL: u32 = 0xffff_ffff;

/// How many digits a counter has at most.
pub const DIGITS_LIMIT: usize = 20;

/// What a request does to the document of its key.
#[derive(Debug, Drop)]
pub enum Effect {
    /// It stays as it is.
    Nothing,
    /// This document takes its place. Its sequence number is still 0.
    Put(Doc),
    /// It is deleted.
    Remove,
}

/// What a request does, and what it answers.
#[derive(Debug, Drop)]
pub struct Change {
    pub effect: Effect,
    pub reply: Reply,
}
