//! Looking into a document's extended attributes and editing them.
//!
//! What a document keeps of its attributes is a section (`xattr_body`). Here a section is taken as
//! known to be one: no text of it is judged again. The attributes are one JSON object, whose
//! members they are in their order, and a path leads into this object:
//!
//! - [`object_of`] spells the object of a section.
//! - [`look`] looks into an object that was judged, so that several look-ups spell and judge it
//!   once. What it finds is a piece of the object.
//! - [`edit`] makes a new section of an old one, which stays.
//!
//! The edits and look-ups are those of any JSON text (`subdoc_edit`), with their opcodes, forms of
//! path and values. The attribute in which a path leads gets the text that it has in the edited
//! object, between the blanks that stood round its old text; the others keep theirs, byte for byte,
//! and each its place. A new attribute is the last. One that the edited object hasn't is taken away,
//! and where no attribute is left, the section has no bytes.
//!
//! # Refusals
//!
//! A request is refused with the first of these that applies.
//!
//! | Status | What is refused |
//! |---|---|
//! | 00c3 | a path of more than 1,024 bytes |
//! | 00c2 | bytes that are no path |
//! | 00c3 | a path of more than 32 parts |
//! | 00c2 | a path that doesn't begin with a name of 1 to 16 bytes, none of them 00 |
//! | 00d1 | a name that begins with `$`: such attributes are worked out, and none is served |
//! | as of a text | what `subdoc_edit` refuses in the object |
//! | 0003 | an edit that leaves a section of more than 1,048,576 bytes |
//!
//! The object is one deeper than an attribute's text: an edit may leave a text 31 deep, and is
//! refused with 00ca where it would leave one deeper.
//!
//! # Sections
//!
//! `_s=1` stands for a section whose one attribute `_s` has the text `1`, of the bytes
//! `00000009 00000005 5f73 00 31 00`.
//!
//! | Attributes | Object | Edit | Attributes then |
//! |---|---|---|---|
//! | none | `{}` | c8 `_s` `1` | `_s=1` |
//! | `_s=1` | `{"_s":1}` | c8 `a` `[]` | `_s=1` `a=[]` |
//! | `_s= 1 ` `a=[ ]` | `{"_s": 1 ,"a":[ ]}` | c8 `_s` `2` | `_s= 2 ` `a=[ ]` |
//! | `a={"b":1 }` | `{"a":{"b":1 }}` | c9 `a.b` | `a={ }` |
//! | `a=1` `b=2` | `{"a":1,"b":2}` | c9 `a` | `b=2` |
//! | `b=2` | `{"b":2}` | c9 `b` | none |
//! | `n=-1` | `{"n":-1}` | cf `n` `3` | `n=2`, and the number 2 |
#![tactic(auto)]

mod blanks;
mod editing;
mod looking;
mod naming;
mod object;
mod updating;

pub use editing::{EditedSection, edit};
pub use looking::look;
pub use object::object_of;

#[cfg(test)]
mod edit_tests;
#[cfg(test)]
mod look_tests;
