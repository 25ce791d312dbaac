//! JSON texts (RFC 8259) as they are spelled: whether bytes are one, and where each of its values
//! stands.
//!
//! # The grammar
//!
//! Bytes, in quotation marks or hexadecimal, with the section of RFC 8259 that has them:
//!
//! ```text
//! text      = blanks value blanks                                              2
//! blanks    = *( 20 / 09 / 0a / 0d )                                           2
//! value     = object / array / string / number / "true" / "false" / "null"     3
//! object    = "{" ( blanks / member *( "," member ) ) "}"                      4
//! member    = blanks string blanks ":" blanks value blanks                     4
//! array     = "[" ( blanks / element *( "," element ) ) "]"                    5
//! element   = blanks value blanks                                              5
//! number    = [ "-" ] whole [ "." digits ] [ ( "e" / "E" ) [ "+" / "-" ] digits ]   6
//! whole     = "0" / a digit other than 0, and digits                           6
//! string    = 22 *( character / escape ) 22                                    7
//! character = one character in UTF-8 (RFC 3629, 4) but those below 20, 22 and 5c    7
//! escape    = 5c ( 22 / 5c / "/" / "b" / "f" / "n" / "r" / "t" / "u" four hexadecimal digits )   7
//! ```
//!
//! A byte order mark is no blank. An escape of half a surrogate pair is JSON. Objects and arrays
//! nest at most 32 deep.
//!
//! # What is told of other bytes
//!
//! `Not` has the place of the first byte that no JSON text of any depth has there, behind the
//! bytes before it; where all bytes are the front of a JSON text and none themselves, their number.
//! `Deep` has the place of the bracket that opens depth 33, where no byte before it is wrong.
//!
//! | Bytes | What is told |
//! |---|---|
//! | `{"a":tru}` | `Not(8)`: an `e` is missing |
//! | `[1,]` | `Not(3)`: an element is missing |
//! | `01` | `Not(1)`: no digit follows a leading 0 |
//! | `"ab` | `Not(3)`: the text ends early |
//! | 33 times `[` | `Deep(32)` |
//!
//! # Where values stand
//!
//! `scan` lists the values in the order of their first bytes, each before those in it. Places
//! count bytes of the text, from 0 on; those of a key include its quotation marks. `after` is the
//! place in the list behind a value's last descendant, where the next value of that level is.
//! The text `{"a": [1], "b": {}}` has these:
//!
//! | Value | `kind` | `from` | `to` | `key_from` | `key_to` | `children` | `after` |
//! |---|---|---|---|---|---|---|---|
//! | 0 | Object | 0 | 19 | 0 | 0 | 2 | 4 |
//! | 1 | Array | 6 | 9 | 1 | 4 | 1 | 3 |
//! | 2 | Number | 7 | 8 | 0 | 0 | 0 | 3 |
//! | 3 | Object | 16 | 18 | 11 | 14 | 0 | 4 |
//!
//! `judge_text` and `is_json` tell whether bytes are a JSON text without memory, in time that grows
//! with their number, as `scan` does.
#![tactic(auto)]

mod brackets;
mod judging;
mod node;
mod pieces;
mod scanned;
mod scanning;
mod tokens;

pub use judging::{Judgement, is_json, judge_text};
pub use node::{Node, Span};
pub use scanned::{Scanned, Spans, nodes, one_text, scan};

#[cfg(test)]
mod tests;
