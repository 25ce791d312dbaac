//! The log of a vbucket: its entries, and what a log comes to.
//!
//! # Entries
//!
//! A log is a list of entries. An entry's position is its number, counted from 1.
//!
//! | Entry | What it does |
//! |---|---|
//! | Mutation | a key gets a document |
//! | Deletion | a key's document is deleted; a mark with its CAS stays |
//! | Prepare | says a change that waits; no key gets anything |
//! | Commit | the change that was prepared at a position is made |
//! | Abort | the change that was prepared at a position is given up |
//! | Manifest | another manifest takes the place of the one that is there |
//!
//! An entry may be added behind a log under these conditions: a Mutation, a Deletion and a Prepare
//! where the key's collection is there and no change of the key waits, a Commit and an Abort where
//! they name a change that waits, and a Manifest where its text is a manifest that applies over the
//! one that is there.
//!
//! # What a log comes to
//!
//! A log's content is all that a reader needs of it (`specs/Content.antt`, `content_of`):
//!
//! - What each key has: a document or the mark of a deletion, and its sequence number, which is the
//!   position of the entry that made it so. A change that was prepared has its Commit's position and
//!   its Prepare's CAS. The keys of a dropped collection have nothing.
//! - The changes that wait, in order of their Prepares.
//! - The manifest, with the ids that were ever dropped.
//! - The greatest CAS of all entries, and how many entries there are.
//!
//! A content with one entry more is worked out from the entry alone, so that no log needs to be
//! kept (`folds_follow_their_entries`). `commit_first` adds the Commits of the first changes that
//! wait, as many as are asked for: all of them, or none where memory is refused. What of a content lies behind a position and what the log
//! came to up to there are together the whole content (`parts_join_back`).
//!
//! # Whole contents
//!
//! A content is whole, and has bytes, where its parts keep their limits, no two changes that wait
//! name one key, no two of all its items and changes that wait were made by one entry, and it isn't
//! too large (`specs/Contents.antt`, `IsWhole`); with an entry that can be added it is whole again
//! (`contents_stay_whole`).
//!
//! - `content_into` appends the bytes of a whole content, and `read_content` reads it back; bytes of
//!   which each field is as it has to be, but whose content isn't whole, are no content's.
//! - `item_into` and `read_item` do the same with an item by itself, for a store that keeps items
//!   apart; `read_item` leaves what follows to who reads on.
//! - `of_parts` makes a whole content of its items, in whatever order these stand, and its other
//!   parts. It refuses them where no content that has them is whole.
//! - `difference_from` copies what of a content lies behind a position. `join` joins it to a content
//!   that ends there: new items stand over old ones, those of dropped collections go, and all else
//!   is the part's. Where memory is refused, the content stays as it was.
//!
//! # A worked log
//!
//! Keys are in collection 0. `d` and `e` are documents with the CAS 2 and 3.
//!
//! | Position | Entry | `a` has | `b` has | Waits | Greatest CAS |
//! |---|---|---|---|---|---|
//! | 1 | Deletion of `b`, CAS 1 | | mark, CAS 1, made at 1 | | 1 |
//! | 2 | Prepare of `d` for `a`, level 1 | | the same | `d` for `a`, from 2 | 2 |
//! | 3 | Mutation, `e` for `b` | | `e`, made at 3 | the same | 3 |
//! | 4 | Commit of 2 | `d`, made at 4 | the same | | 3 |
//! | 5 | Deletion of `a`, CAS 4 | mark, CAS 4, made at 5 | the same | | 4 |
//!
//! The length is 5. Behind position 3 lie the item of `a` and the greatest CAS 4; joined to the
//! content of the first three entries they are the content of the whole.
//!
//! # The bytes of an entry
//!
//! An entry's first byte says which it is; its parts follow, and nothing behind them. Numbers have
//! the highest byte first.
//!
//! | First byte | Entry | Parts |
//! |---|---|---|
//! | 01 | Mutation | key, document |
//! | 02 | Deletion | key, CAS |
//! | 03 | Prepare | level, key, change |
//! | 04 | Commit | position |
//! | 05 | Abort | position |
//! | 06 | Manifest | length, text |
//!
//! | Part | Fields, with their bytes | Bounds |
//! |---|---|---|
//! | key | length 1, id and name | the length is at most 251 and counts both |
//! | | | the id is in shortest LEB128 |
//! | | | the name has 1 to 250 bytes in collection 0, 1 to 246 elsewhere |
//! | CAS | 8 | below 2^63 |
//! | document | CAS 8, flags 4, expiry 4 | the CAS as above |
//! | | JSON 1 | 01 where the value is JSON text, else 00 |
//! | | length 4, attributes | at most 1,048,576 bytes: none, or a section of `xattr_body` |
//! | | length 4, value | at most 20,971,520 bytes |
//! | change | 01 and a document, or 02 and a CAS | |
//! | level | 1 | 1 to 3 |
//! | position | 8 | 1 to 2^42 - 1 |
//! | text | length 4, text | at most 1,048,576 bytes, in the form of a manifest |
//!
//! A document has no sequence number here: it gets its own by the entry that shows it, and the one
//! in an entry is 0.
//!
//! Worked example, a Prepare at level 1 of the value `x` with the CAS 4 for the key `b`:
//!
//! ```text
//! 03                                        a Prepare
//! 01                                        level 1
//! 02 00 62                                  2 bytes: collection 0, `b`
//! 01                                        a document
//! 0000000000000004 00000000 00000000 00     CAS 4, no flags, no expiry, no JSON
//! 00000000                                  no attributes
//! 00000001 78                               one byte: `x`
//! ```
//!
//! # The bytes of changes that wait
//!
//! A count of four bytes, and so many changes that wait, one after another. What follows is left to
//! who reads on: `read_pending` tells how many bytes they have.
//!
//! | Field | Bytes | Bounds |
//! |---|---|---|
//! | position of its Prepare | 8 | 1 to 2^42 - 1, and above the one before |
//! | level | 1 | 1 to 3 |
//! | key, change | as in an entry | as in an entry |
//!
//! Worked example, the key `b`, to be deleted with the CAS 9 by the Prepare at position 5, level 2:
//!
//! ```text
//! 00000001                                  one change
//! 0000000000000005                          prepared at 5
//! 02                                        level 2
//! 02 00 62                                  2 bytes: collection 0, `b`
//! 02 0000000000000009                       a deletion, CAS 9
//! ```
//!
//! # The bytes of a content
//!
//! All bytes are the content's, and nothing follows.
//!
//! | Offset | Field | Bytes | Bounds |
//! |---|---|---|---|
//! | 0 | length | 8 | at most 2^42 - 1 |
//! | 8 | greatest CAS | 8 | below 2^63 |
//! | 16 | state of the manifest | as in `manifest_rules` | as there |
//! | behind it | count of items | 4 | |
//! | | items, one after another | | in rising order of their keys |
//! | behind them | changes that wait | as above | as above, and within the length and the greatest CAS |
//!
//! | Field of an item | Bytes | Bounds |
//! |---|---|---|
//! | key | as in an entry | its collection is in the manifest, and it is above the one before |
//! | sequence number | 8 | 1 to the length |
//! | change | as in an entry | as in an entry, and no CAS above the greatest |
//!
//! A document has the sequence number of its item. Keys rise by collection, and then byte by byte. An
//! item by itself has these fields too, but the bounds of any content: a collection of any id, a sequence
//! number of 1 to 2^42 - 1, and a CAS below 2^63.
//!
//! Worked example, a content of five entries, of which the third deleted `a` with the CAS 9 and the fifth
//! prepares the deletion of `b`:
//!
//! ```text
//! 0000000000000005                          length 5
//! 0000000000000009                          greatest CAS 9
//! 00000062 {"uid":"0", .. }                 the first manifest, 98 bytes
//! 00000000 00000000                         no scope and no collection was ever dropped
//! 00000001                                  one item
//! 02 00 61                                  2 bytes: collection 0, `a`
//! 0000000000000003                          made at 3
//! 02 0000000000000009                       a deletion, CAS 9
//! 00000001                                  one change that waits
//! 0000000000000005 02 02 00 62              from 5, level 2, `b`
//! 02 0000000000000008                       a deletion, CAS 8
//! ```
//!
//! # Where bytes break the layout
//!
//! `Bad` has the offset of the first field that isn't there, passes its bounds or hasn't its form;
//! or that of the first byte behind the last field. A length that passes its bound breaks the
//! layout at the length; bytes that are fewer than the length says, or that don't spell what they
//! should, where they begin: a key's id and name are one field, and so is a section of attributes. Where
//! each field of a content is as it has to be, and the content isn't whole, the place is 0.
//!
//! | Bytes | What is told |
//! |---|---|
//! | `07` | `Bad(0)`: no entry begins so |
//! | `02 fc` | `Bad(1)`: a key of 252 bytes |
//! | `02 02 80 61` | `Bad(2)`: an id of two bytes, and no name |
//! | `02 02 00 61 8000000000000000` | `Bad(4)`: a CAS of 2^63 |
//! | `04 0000000000000001 00` | `Bad(9)`: a byte behind the position |
//!
//! A count that is followed by less breaks the layout where the first missing field should begin, and
//! costs no more memory than what is there; a position that isn't above the one before breaks it
//! itself.
//!
//! | Bytes of changes that wait | What is told |
//! |---|---|
//! | `000000` | `Bad(0)`: no count |
//! | `ffffffff` | `Bad(4)`: no position |
//! | `00000001 0000040000000000` | `Bad(4)`: a position of 2^42 |
#![tactic(auto)]

mod adding;
mod bounds;
mod content;
mod documents;
mod entry;
mod fields;
mod flushing;
mod items;
mod joining;
mod judging;
mod keeping;
mod keys;
mod kinds;
mod laws;
mod limits;
mod ordering;
mod pending;
mod reading;
mod setting;
mod settling;
mod sizes;
mod spelt_content;
mod spelt_items;
mod stored;
mod undecided;
mod whole;
mod writing;

pub use adding::{AddFault, add};
pub use content::{Content, empty, greatest_cas, item, length, manifest, prepares, size};
pub use entry::{Entry, Pending};
pub use flushing::{by_position, emptied, spelt_length, weight};
pub use items::rising;
pub use joining::{Difference, difference_from, join};
pub use judging::{allowed, size_after};
pub use laws::{
    abort_only_ends_its_prepare, changes_count_once, commit_shows_what_was_prepared,
    content_has_one_spelling, contents_stay_whole, entry_has_one_spelling,
    folds_follow_their_entries, length_counts_entries, manifest_takes_what_it_drops,
    one_broken_place, parts_join_back, pending_has_one_spelling, prepare_shows_nothing,
    spelling_has_its_length,
};
pub use limits::{
    CONTENT_LIMIT, GREATEST_CAS, GREATEST_LEVEL, GREATEST_POSITION, ITEM_OVERHEAD, LOG_LIMIT,
    SECTION_LIMIT, SPELT_KEY_LIMIT, SUM_LIMIT, log_numbers,
};
pub use pending::{pending_into, read_pending};
pub use reading::{ContentFault, read_entry};
pub use settling::commit_first;
pub use spelt_content::{content_into, read_content};
pub use stored::{item_into, read_item};
pub use whole::of_parts;
pub use writing::entry_into;

#[cfg(test)]
mod content_tests;
#[cfg(test)]
mod joining_tests;
#[cfg(test)]
mod settling_tests;
#[cfg(test)]
mod tests;
