//! How a copy of a vbucket takes part in replication, by numbers alone: who may lead at which term,
//! what a fence answers, which promotions are refused, and what a copy is to do with a message.
//!
//! # Terms
//!
//! A term is 4 times its round, counted from 1, and the place of its owner; it is below 2^48. Only
//! the copy at that place may be promoted at it. No place owns a number that is no term.
//!
//! | Number | Term | Owner |
//! |---|---|---|
//! | 0 to 3 | none | none |
//! | 4 | round 1 | place 0 |
//! | 9 | round 2 | place 1 |
//! | 2^48 | none | none |
//!
//! # Fences and promotions
//!
//! A fence at a term below the copy's promise is refused as Old; else its answer tells place, term,
//! accepted term, length, incarnation and whether the copy is whole. A promotion at a term by
//! answers is refused for the first of these reasons that holds:
//!
//! | Fault | where |
//! |---|---|
//! | Owner | the copy's place doesn't own the term |
//! | Old | the term is at most the accepted one, or below the promise |
//! | Few | fewer than a majority of the named places answered at the term |
//! | Foreign | an answer has another term, a place without a name or a place that answered already; or the copy's own answer isn't there as it would be now; or its promise isn't the term |
//! | NotLongest | an answer has a higher accepted term, or the same and a greater length |
//! | NotWhole | the promotion is strict, and an answer is of a copy that isn't whole |
//!
//! # Messages
//!
//! | Message | an active copy | a replica or a pending copy |
//! |---|---|---|
//! | Entry | ignores it | appends it, acknowledges it where it has it, or asks to rejoin |
//! | Ack | counts it | asks to rejoin, unless it is whole and has as much of that term |
//! | Rejoin | gives all that it has | ignores it |
//! | Adopt | ignores it | takes all of it, or is whole where it has as much; one for another opening is ignored |
//!
//! An active copy hears messages of its own term, another those of the owner of a term that is at
//! least its promise, a dead one none; and all hear places that the chain names alone
//! (`specs/Hearing.antt`).
//!
//! # What a copy is afterwards
//!
//! | Call | changes |
//! |---|---|
//! | `fence` | promises a term above the promise, and makes the copy a replica then |
//! | `promote` | makes the copy active at the term, and whole, where there is no fault |
//! | `taken` | takes term and length of an Adopt, is whole, and promises the term where it was lower |
//! | `leave` | puts the copy in another role than the active one |
//!
//! `hear` changes nothing. These calls move numbers alone (`specs/Moving.antt`): who keeps the copy
//! puts promise and log on disk before it tells anyone, and takes the copy's log along.
#![tactic(auto)]

mod copy;
mod fences;
mod heads;
mod laws;
mod messages;
mod moving;
mod promoting;
#[cfg(test)]
mod tests;

pub use copy::{CopyCore, Role};
pub use fences::{FenceAnswer, PromoteFault};
pub use laws::{
    dead_copies_hear_nothing, fences_are_promised, only_more_is_taken, promises_never_fall,
    promotion_meets_each_majority, promotion_needs_a_majority, rightful_promotions_are_made,
    terms_have_one_owner,
};
pub use messages::{ACK, ADOPT, ENTRY, Heard, MessageHead, REJOIN};
