//! Looking into a JSON text and editing it at a path, byte for byte.
//!
//! A look-up finds the bytes of a value where they stand, or how many members or elements it has.
//! It copies nothing: a `Piece` names the bytes by their places in the text. An edit makes a new
//! text: one splice of the old one, in one allocation of just its size. What stands beside the
//! change keeps its bytes, blanks and all, and a text that is refused is left as it was. Places are
//! found by walking in the text: no list of its values is made.
//!
//! # Opcodes
//!
//! | Opcode | Name | What it does | Its path | Its value |
//! |---|---|---|---|---|
//! | c5 | Get | finds a value's text | any | |
//! | c6 | Exists | finds out whether there is a value | any | |
//! | d2 | Get count | counts members or elements | any | |
//! | c7 | Dictionary add | adds a member where none has its name | ends in a name | one text |
//! | c8 | Dictionary upsert | replaces a member's value or adds it | ends in a name | one text |
//! | c9 | Delete | removes a member or an element | has a part | ignored |
//! | ca | Replace | replaces a value | any | one text |
//! | cb | Array push last | puts elements behind the last one | any | one text or several |
//! | cc | Array push first | puts elements before the first one | any | one text or several |
//! | cd | Array insert | puts them before one | ends in an index but -1 | one text or several |
//! | ce | Array add unique | adds an element of a text that none has | any | one text of no parts |
//! | cf | Counter | counts a whole number up or down | any | a delta |
//!
//! Several texts are parted by commas, as between the brackets of an array. Blanks at both ends of
//! a value are not written. A delta is a whole number other than 0 in 64 bits with a sign, in
//! decimal without leading zeros.
//!
//! # What is absent
//!
//! Where the path's last part alone names nothing and is a name, c7, c8 and cf add that member.
//! With bit 01 of the path's flags any number of names may be absent, also for cb, cc and ce: each
//! but the last becomes an object, and these three put a new array behind the last. cd at an index
//! that is the number of elements puts its elements at the end. A counter that is absent begins at
//! its delta.
//!
//! # Refusals
//!
//! A request is refused with the first of these that applies; the text is then unchanged.
//!
//! | Status | What is refused |
//! |---|---|
//! | 00c3 | a path of more than 1,024 bytes |
//! | 00c2 | bytes that are no path |
//! | 00c3 | a path of more than 32 parts |
//! | 00c6 | a text that isn't JSON |
//! | 00c4 | a text that nests deeper than 32 |
//! | 00c2 | a path of another form than the edit takes |
//! | 00c5 | a value that the edit doesn't take |
//! | 00c8 | a delta that isn't one |
//! | 00ca | several texts of which one nests too deep |
//! | 00c1 | a name where there is no object, an index where there is no array |
//! | 00c1 | new elements where there is no array, a count where there are no parts to count |
//! | 00c1 | a counter that is no whole number, a set that holds an object or an array |
//! | 00c0 | a name or an index of nothing that is there, or that can be made |
//! | 00c9 | a member that is there already, an element that the set has |
//! | 00c7 | a counter that is there and beyond 64 bits with a sign |
//! | 00c5 | a counter that would pass 64 bits with a sign |
//! | 00ca | a result that nests deeper than 32 |
//! | 0003 | a result of more than 20,971,520 bytes |
//!
//! # Texts
//!
//! | Text | Edit | Result |
//! |---|---|---|
//! | `{ "a" : 1 }` | c8 `b` `2` | `{ "a" : 1,"b":2 }` |
//! | `{"a":[1,2]}` | cd `a[2]` `3` | `{"a":[1,2,3]}` |
//! | `{"a":1}` | c7 `b.c` `1`, bit 01 | `{"a":1,"b":{"c":1}}` |
//! | `{"a":1,"b":2}` | c9 `a` | `{"b":2}` |
//! | `{"a":1,"b":2}` | c9 `b` | `{"a":1}` |
//! | `{"\u0061":1}` | ca `a` `2` | `{"\u0061":2}` |
//! | `[1]` | ce (no path) `1.0` | `[1,1.0]` |
//! | `[ 1 , 2 ]` | cc (no path) `0` | `[ 0,1 , 2 ]` |
//! | `{"n":-1}` | cf `n` `3` | `{"n":2}`, and the number 2 |
#![tactic(auto)]

mod deciding;
mod depths;
mod editing;
mod kinds;
mod looking;
mod numbers;
mod parents;
mod places;
mod plan;
mod reading;
mod values;
mod walking;

pub use editing::{Edited, edit, edit_of};
pub use looking::{Piece, look, look_judged, lookup_of, one_answer};
pub use parents::put_key;
pub use reading::{judge, path_of};

#[cfg(test)]
mod edit_tests;
#[cfg(test)]
mod given_tests;
#[cfg(test)]
mod tests;
