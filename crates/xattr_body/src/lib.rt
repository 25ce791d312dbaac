//! The bytes in which a document's extended attributes are kept.
//!
//! # The format
//!
//! A document without attributes has no bytes. Else they are one section:
//!
//! ```text
//! offset  bytes   what
//! 0       4       the length of all that follows, big-endian
//! 4               the pairs in their order, at least one
//! ```
//!
//! A pair is a name and a text:
//!
//! ```text
//! offset  bytes   what
//! 0       4       the length of what follows of the pair, big-endian
//! 4       n       the name: 1 to 16 bytes of UTF-8, none of them 00
//! 4 + n   1       00
//! 5 + n   t       a JSON text at most 31 deep, with what blanks stand round it
//! 5+n+t   1       00
//! ```
//!
//! No two pairs have one name. An attribute's text is one less deep than a document's, since the
//! attributes together are an object.
//!
//! # A worked example
//!
//! The attribute `_s` with the text `1` alone is `00000009 00000005 5f73 00 31 00`: 9 bytes follow
//! the length of the section, 5 the length of the pair.
//!
//! # Where bytes stop to be a section
//!
//! `Bad` has the place 0 where the first four bytes aren't there or aren't the length of what
//! follows, or nothing follows; else the offset of the first pair that is none, that is of its
//! length: its length goes past the end, its name is empty, too long, no UTF-8 or not ended by 00,
//! its text is no JSON at most 31 deep or not ended by 00, or a pair before it has its name.
//!
//! | Bytes | What is told |
//! |---|---|
//! | `00000000` | `Bad(0)`: nothing follows |
//! | `00000008 00000005 5f73 00 31 00` | `Bad(0)`: 9 bytes follow |
//! | `00000009 00000006 5f73 00 31 00` | `Bad(4)`: 5 bytes follow |
//! | `00000009 00000005 5f73 00 2d 00` | `Bad(4)`: `-` is no JSON text |
//! | `00000012 00000005 5f73 00 31 00 00000005 5f73 00 32 00` | `Bad(13)`: `_s` again |
#![tactic(auto)]

mod judging;
mod known;
mod laws;
mod reading;
mod writing;
mod xattrs;

pub use judging::{is_name, is_value};
pub use known::{first_pair, pairs_of};
pub use laws::{
    limits, one_broken_place, put_changes_one, remove_takes_one, section_is_read_back, size_fits,
};
pub use reading::read;
pub use writing::{section, section_size, write};
pub use xattrs::{XattrFault, Xattrs, get, put, remove};

#[cfg(test)]
mod tests;

/// How many bytes the name of an attribute has at most.
pub const NAME_LIMIT: usize = 16;

/// How deep the objects and arrays of an attribute's text may nest.
pub const VALUE_DEEP: u8 = 31;

/// How many bytes a section has at most.
pub const SECTION_LIMIT: usize = 1_048_576;

/// How many bytes a length has.
const LENGTH_SIZE: usize = 4;
