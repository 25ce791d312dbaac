//! What a look-up and an edit of a document's extended attributes come to, as functions.
//!
//! The attributes of a document are one JSON object: its members are the attributes in their order,
//! `{"n":v,"m":w}`, a name written as a new key is. A path into the attributes is a path into this
//! object, and what a look-up finds and an edit makes there is what it does of any JSON text
//! (`subdoc_step`). Three things are the attributes' own:
//!
//! - The path begins with a name of 1 to 16 bytes without 00, else it is refused with PATH_EINVAL; a
//!   name that begins with `$` is refused with XATTR_UNKNOWN_VATTR.
//! - The attribute that the path leads into gets the text that the edited object has at its name,
//!   between the blanks that stood round its old text. Each other keeps its text, blanks and all,
//!   and its place; a new one is the last.
//! - The section of the attributes (`xattr_body`) has at most 1,048,576 bytes, else the edit is
//!   refused with E2BIG.
//!
//! | What | Where |
//! |---|---|
//! | the object of the attributes | `specs/Object.antt` |
//! | what a look-up and an edit answer | `specs/Answers.antt` |
#![tactic(auto)]

mod laws;

pub use laws::{
    attributes_are_an_object, edits_keep_the_others, edits_leave_sections,
    nothing_is_found_in_none, sections_are_within, upserted_attribute_is_found,
    worked_out_names_are_refused,
};
