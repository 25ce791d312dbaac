//! The lines of a script, which says what happens to the copies of a vbucket, one event a line.
//!
//! # The lines
//!
//! A line is words with one space between each and the next; the line feed behind it is no part of
//! it. The first word says which line it is.
//!
//! | Line | Words behind the first, and their bounds | Worked line |
//! |---|---|---|
//! | `chain W..` | 1 to 4 places: a name, or `-` for none; the first a name, none twice | `chain a b - c` |
//! | `at MS` | the moment from now on | `at 1500` |
//! | `feed C S HEX` | a copy, its connection 0 to 3, one byte or more | `feed a 0 80000004` |
//! | `deliver K` | a message | `deliver 12` |
//! | `all` | none | `all` |
//! | `tick C` | a copy | `tick a` |
//! | `flush C` | a copy | `flush a` |
//! | `clean C M` | a copy, at most how many items are to be moved, from 1 | `clean a 4` |
//! | `fence C T` | a copy, a term, from 4 | `fence b 5` |
//! | `promote C T strict J..` | a copy, a term, one answer or more | `promote b 5 strict 0 1` |
//! | `promote C T weak J..` | the same | `promote b 5 weak 0` |
//! | `fuse C K` | a copy, from which call of its disk on, from 1 | `fuse a 3` |
//! | `fail C K` | a copy, at which call of its disk, from 1 | `fail a 3` |
//! | `crash C` | a copy | `crash a` |
//! | `open C` | a copy | `open a` |
//! | `#..` | anything: a comment, whose words don't count | `# a goes down` |
//!
//! | Word | Bounds |
//! |---|---|
//! | a copy | its name: 1 to 16 of `a` to `z` and `0` to `9` |
//! | a number | decimal digits without leading zeros, of a number below 2^48 |
//! | bytes | two hexadecimal digits each, of either case |
//!
//! Bytes are one line's at most (`one_line`), and a line with a line feed in it is a comment
//! (`line_feeds_are_in_comments`).
//!
//! # What is bad
//!
//! `Bad` is told exactly where no line has these bytes. A line is judged alone: whether it may stand
//! where it does in a script, and whether its copy is one of the chain, isn't asked here.
//!
//! | Bytes | Why they are bad |
//! |---|---|
//! | `tick  a` | no word stands between the two spaces |
//! | `at 007` | a number has no leading zeros |
//! | `at 281474976710656` | it is 2^48 |
//! | `feed a 0 8` | half a byte |
//! | `feed a 4 80` | there is no connection 4 |
//! | `promote b 5 strict` | no answer is named |
//! | `chain a a` | two places have one name |
#![tactic(auto)]

mod chains;
mod keyword;
mod laws;
mod line;
mod parts;
mod promotions;
mod reading;
#[cfg(test)]
mod tests;
mod words;

pub use laws::{line_feeds_are_in_comments, one_line};
pub use line::{Line, LineFault};
pub use reading::read_line;
