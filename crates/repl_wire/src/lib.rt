//! The messages that the copies of a vbucket send one another, and their bytes.
//!
//! # The messages
//!
//! | Kind | Message | Who sends it | What it says |
//! |---|---|---|---|
//! | 1 | Entry | an active copy | the entry at a position of the term's log |
//! | 2 | Ack | any other | how long its log of the term is, in memory and on disk |
//! | 3 | Rejoin | any other | which log it has, and at which opening it asks for all of the term's |
//! | 4 | Adopt | an active copy | all that the term's log comes to, for the copy at that opening |
//!
//! # The bytes of a message
//!
//! A message is a head of 12 bytes and a body. Numbers have the highest byte first.
//!
//! | Offset | Field of the head | Bytes | Bounds |
//! |---|---|---|---|
//! | 0 | mark | 1 | 70 |
//! | 1 | kind | 1 | 1 to 4 |
//! | 2 | place of the sender | 1 | 0 to 3 |
//! | 3 | place of the addressee | 1 | 0 to 3, and not the sender's |
//! | 4 | vbucket | 2 | |
//! | 6 | unused | 2 | 0 |
//! | 8 | size of the body | 4 | 16 to 536,870,912; of an Ack 24, of a Rejoin 32 |
//!
//! | Kind | At 12 | At 20 | At 28 | At 36 |
//! |---|---|---|---|---|
//! | Entry | term | position | entry | |
//! | Ack | term | length in memory | length on disk | |
//! | Rejoin | term | accepted term | length | incarnation |
//! | Adopt | term | incarnation | content | |
//!
//! These numbers have 8 bytes each.
//!
//! | Number | Bounds |
//! |---|---|
//! | term | 4 to 2^48 - 1 |
//! | accepted term | as a term, or 0 where the copy has accepted none |
//! | position | 1 to 2^42 - 1 |
//! | length | 0 to 2^42 - 1 |
//! | incarnation | any: how often the copy was opened |
//!
//! Entries and contents have the bytes that `vb_log` gives them, and end where the body ends. Each
//! message that keeps these bounds has a body within the greatest size (`bodies_keep_their_limit`).
//!
//! Worked example, an Ack of place 1 to place 0 on vbucket 0: at the term 4 its log has two
//! entries, none of them on disk.
//!
//! ```text
//! 70 02                                     an Ack
//! 01 00                                     from place 1 to place 0
//! 0000 0000                                 vbucket 0, unused
//! 00000018                                  24 bytes follow
//! 0000000000000004                          term 4
//! 0000000000000002                          2 entries in memory
//! 0000000000000000                          none on disk
//! ```
//!
//! # Where bytes are wrong
//!
//! `Bad` has the offset of the first field that passes its bounds or hasn't its form. A field of the
//! head is told of as soon as its bytes are there, a field of the body once the body is whole. Which
//! field of an entry or a content it is, `vb_log` tells; where all fields of a content are as they
//! have to be and the content isn't whole, it is the content itself. No bytes that follow make a
//! message of bytes that are wrong (`wrong_bytes_stay_wrong`).
//!
//! | Bytes | What is told |
//! |---|---|
//! | `70` | `More(11)`: the rest of the head is missing |
//! | `70 09` | `Bad(1)`: no message has this kind |
//! | `70 02 01 01` | `Bad(3)`: it is for its sender |
//! | `70 02 01 00 0000 0001` | `Bad(6)`: the unused bytes aren't 0 |
//! | `70 02 01 00 0000 0000 00000017` | `Bad(8)`: an Ack has 24 bytes |
//! | `70 01 00 01 0000 0000 20000001` | `Bad(8)`: 2^29 + 1 bytes are too many |
//! | `70 01 00 01 0000 0000 20000000` | `More(536870912)`: the body is missing |
#![tactic(auto)]

mod bodies;
mod decoding;
mod encoding;
mod heads;
mod laws;
mod limits;
mod message;
mod numbers;

pub use decoding::{WireStep, decode_link};
pub use encoding::encode_link;
pub use laws::{
    bodies_keep_their_limit, missing_bytes_are_missing, one_message, one_wrong_place,
    wrong_bytes_stay_wrong,
};
pub use limits::{BODY_LIMIT, GREATEST_PLACE, HEAD_LENGTH, TERM_BOUND, wire_numbers};
pub use message::{Message, Sent, head};

#[cfg(test)]
mod tests;
