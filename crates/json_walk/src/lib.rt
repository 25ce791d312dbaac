//! Walking in a text that is known to be JSON: from a value to its parts, from part to part, and
//! over whole values, without memory.
//!
//! Once `json_spell` has judged bytes to be a JSON text, a value in it can be stepped over by its
//! brackets and quotation marks alone. A value is named by the place of its first byte; places
//! count bytes of the text, from 0 on. A step looks once at each byte that it passes over, and no
//! function calls itself.
//!
//! | Question | Answer |
//! |---|---|
//! | `root` | the place of the text's value |
//! | `kind_at` | what the value at a place is |
//! | `value_end` | the place behind it |
//! | `first_part` | its first member or element |
//! | `next_part` | the one behind the place at which a part's value ends |
//! | `part` | the member or element of a number, counted from 0 on |
//! | `count` | how many it has |
//! | `last_end` | the place behind the last one's value |
//!
//! The text `{"a": [1], "b": {}}` has these parts:
//!
//! | Value | Part | `start` | `key_to` | `value` | its value's end |
//! |---|---|---|---|---|---|
//! | 0 | 0 | 1 | 4 | 6 | 9 |
//! | 0 | 1 | 11 | 14 | 16 | 18 |
//! | 6 | 0 | 7 | 7 | 7 | 8 |
//! | 16 | none | | | | |
//!
//! # How a value is stepped over
//!
//! A string ends at the first quotation mark that no reverse solidus stands before; the byte behind
//! a reverse solidus is passed over with it. An object or an array ends at the bracket that closes
//! as many as were opened, strings passed over as wholes: that brackets match in shape is known. A
//! number or a word ends before the first blank, comma or closing bracket, or with the text.
//!
//! What is told is promised of each tree whose text stands at the place (`specs/Places.antt`),
//! since bytes that are no JSON text have no values. On such bytes, too, each call ends and each
//! place that is told lies within the text.
#![tactic(auto)]

mod laws;
mod places;
mod stepping;
mod walking;

pub use laws::{changes_stay_within, places_lead_on};
pub use places::PartAt;
pub use walking::{count, first_part, kind_at, last_end, next_part, part, root, value_end};

#[cfg(test)]
mod tests;
