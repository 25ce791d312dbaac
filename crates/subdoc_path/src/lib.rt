//! Paths into a JSON text, and the values to which they lead.
//!
//! # The grammar of paths
//!
//! A path is bytes in UTF-8. It names steps from the value of a text to one in it, from left to
//! right:
//!
//! ```text
//! path      = [first *further]
//! first     = component / index
//! further   = "." component / index
//! component = 1*bare / "`" *between "`"
//! index     = "[" ("-1" / digits) "]"
//! ```
//!
//! - *bare* is any character but `.`, `[`, `]` and the backtick. *between* is any character at all,
//!   where a backtick is written twice.
//! - *digits* are decimal, without a leading zero, up to 4294967295.
//! - No bytes are the path to the text's value itself.
//!
//! A path has at most 1,024 bytes and at most 32 parts. Bytes are counted before the grammar is
//! looked at, and parts behind it: so 1,025 bytes are too big whatever they are, and 33 parts only
//! where they are a path.
//!
//! | Bytes | Parts |
//! |---|---|
//! | (none) | none |
//! | `a.b[0]` | the member `a`, its member `b`, the element 0 of that |
//! | `[-1][2]` | the last element, its element 2 |
//! | `` `a.b` `` | the member `a.b` |
//! | two backticks | the member whose name has no characters |
//! | four backticks | the member whose name is one backtick |
//!
//! Three backticks are no path: the second and the third are one character, and the name doesn't
//! end.
//!
//! # Following a path
//!
//! A component leads from an object to its first member whose key stands for the same characters,
//! and an index from an array to that element. Where there is none the part is missing; where the
//! value is no object, or no array, it doesn't match. A key is compared by what its escapes stand
//! for, and one with a lone surrogate stands for nothing.
//!
//! In `{"a": {"b": [true, 7]}}` the path `a.b[-1]` leads to `7`, which is the value number 4 of the
//! list of the text's values: the object, that of `a`, the array, `true`, `7`. `a.c.d` is missing
//! at part 1, and `a[0]` doesn't match at part 1.
//!
//! [`find`] follows a path by the list of a text's values, and tells a value's number in it. It
//! takes no memory, and looks at no value within those that it passes.
//!
//! [`follow`] follows parts in the text itself, without a list, and tells the place of a value's
//! first byte, counted from 0 on. It takes no memory either. Each part goes on from the value that
//! was reached, and steps over what stands between that and the value that it names: once over each
//! byte, and once more over a key, to compare it. `[-1]` steps over the last element too. The text
//! must be JSON, as `json_spell::is_json` tells. In the text above:
//!
//! | Path | Number | Place |
//! |---|---|---|
//! | (none) | 0 | 0 |
//! | `a` | 1 | 6 |
//! | `a.b` | 2 | 12 |
//! | `a.b[0]` | 3 | 13 |
//! | `a.b[-1]` | 4 | 19 |
#![tactic(auto)]

mod children;
mod cutting;
mod finding;
mod keys;
mod laws;
mod leading;
mod led;
mod path;
mod pieces;
mod reading;

pub use cutting::value_span;
pub use finding::{Found, find, find_parts};
pub use laws::one_path;
pub use leading::follow;
pub use led::Led;
pub use path::{Path, PathFault};
pub use reading::read_path;

#[cfg(test)]
mod tests;
