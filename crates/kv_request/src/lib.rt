//! Requests and replies of the memcached binary protocol, between the frames that carry them and the documents that
//! they speak of.
//!
//! A request's frame is checked in this order, and the first check that fails is the answer's status:
//!
//! 1. The opcode is none of the streams between nodes, 50 to 6f, else NOT_SUPPORTED, and it is known, else UNKNOWN_COMMAND.
//! 2. The datatype is 00 or 01, else EINVAL.
//! 3. Of the framing extras those of id 1 ask for a level of durability: there is at most one, it has one byte or three,
//!    and the opcode takes it, else EINVAL. Its timeout, the last two bytes, isn't 0, else EINVAL. Its level, the first
//!    byte, is 1 to 3, else DURABILITY_INVALID_LEVEL. Other framing extras are skipped.
//! 4. Extras, key and value are there as the opcode asks, the value of a Hello has an even length, and of a path's key
//!    and value just one is there, else EINVAL.
//! 5. The key of a document spells one, else EINVAL ("Keys").
//! 6. The value has at most 20,971,520 bytes, and the text of a manifest at most 1,048,576, else E2BIG.
//! 7. An Add has the CAS 0, else EINVAL.
//! 8. A request on a part of a document, or on several, passes checks of its own ("Parts of documents", "Several parts").
//!
//! | Opcode (quiet) | Name | Extras | Key | Value | Level | Reply |
//! |---|---|---|---|---|---|---|
//! | 00 (09) | Get | none | yes | no | | extras flags u32, value, CAS |
//! | 0c (0d) | GetK | none | yes | no | | as Get, with the key |
//! | 01 (11), 02 (12), 03 (13) | Set, Add, Replace | flags u32, expiry u32 | yes | may be | yes | token, CAS |
//! | 04 (14) | Delete | none | yes | no | yes | token, CAS of the deletion |
//! | 05 (15), 06 (16) | Increment, Decrement | delta u64, initial value u64, expiry u32 | yes | no | yes | token, CAS, value u64 |
//! | 0e (19), 0f (1a) | Append, Prepend | none | yes | may be | yes | token, CAS |
//! | 1c | Touch | expiry u32 | yes | no | | CAS |
//! | 1d | Get and touch | expiry u32 | yes | no | | as Get, with the CAS of the change |
//! | 07 (17) | Quit | none | no | no | | empty |
//! | 0a | Noop | none | no | no | | empty |
//! | 0b | Version | none | no | no | | value: the version |
//! | 1f | Hello | none | may be | may be | | value: the features granted |
//! | b9 | SetManifest | none | no | yes | | empty |
//! | ba | GetManifest | none | no | no | | value: the manifest |
//! | bb, bc | CollectionId, ScopeId | none | a path | or a path | | extras: manifest's uid u64, id u32 |
//! | c5, c6, d2 | Get, Exists, GetCount at a path | path length u16, path flags u8, perhaps the document's flags u8 | yes | the path | | value: the text at the path, or how many there are; CAS |
//! | c7, c8, c9, ca, cb, cc, cd, ce, cf | DictAdd, DictUpsert, Delete, Replace, ArrayPushLast, ArrayPushFirst, ArrayInsert, ArrayAddUnique, Counter at a path | path length u16, path flags u8, perhaps the expiry u32, perhaps the document's flags u8 | yes | the path, and behind it the edit's value | yes | token, CAS; value: the number that a Counter comes to |
//! | d0 | look-ups at several paths | perhaps the document's flags u8 | yes | specs | | value: of each its status u16, a length u32 and the text or the number; CAS |
//! | d1 | edits at several paths | perhaps the expiry u32, perhaps the document's flags u8 | yes | specs | yes | token, CAS; value: of each Counter its place u8, its status u16, a length u32 and the number |
//!
//! A quiet Get or GetK leaves a miss unsent, every other quiet opcode a success.
//!
//! # Parts of documents
//!
//! Extras of 7 and of 8 bytes have an expiry, those of 4 and of 8 end in the document's flags. These
//! are 01, a document is made where none is there, and 02, a document is made and none may be there.
//! The path's flags are 01, parts of the path that are absent are made, 04, the path leads into the
//! document's attributes, and 10, macros in the value are expanded. Behind all other checks a look-up
//! and an edit are checked in this order:
//!
//! 1. The document's flags are none, or those of an edit 01 or 02 and not both, else EINVAL.
//! 2. The path ends within the value, else EINVAL.
//! 3. Nothing stands behind the path of a look-up or of a Delete, else EINVAL.
//! 4. The path has no flags but 01, 04 and 10, else EINVAL.
//! 5. With the flag 10 there is the flag 04, else XATTR_INVALID_FLAG_COMBO.
//! 6. There is no flag 10, else XATTR_UNKNOWN_MACRO: no macro is known.
//! 7. The flag 01 stands on c7, c8, cb, cc, ce and cf alone, else EINVAL.
//! 8. The path has a byte, or the opcode is cb, cc, ce or d2 and there is no flag 04, else EINVAL.
//!
//! The size of the value, check 6 above, is that of path and value together.
//!
//! # Several parts
//!
//! The value of d0 and of d1 is specs, one behind the other. A spec of d0 is a look-up: its opcode u8, its path flags
//! u8, the path's length u16, the path. A spec of d1 is an edit: its opcode u8, its path flags u8, the path's length
//! u16, the value's length u32, the path, the value. Extras of 4 and of 5 bytes begin with the expiry, those of 1 and
//! of 5 end in the document's flags. Flags mean the same as above. Behind all other checks a request is checked in
//! this order:
//!
//! 1. The document's flags are none, or those of d1 01 or 02 and not both, else EINVAL.
//! 2. The value is specs and nothing else: none passes its end, and no byte is left over, else EINVAL.
//! 3. There are 1 to 16 specs, else INVALID_COMBO.
//! 4. Each spec of d0 has the opcode c5, c6 or d2, and each of d1 one from c7 to cf, else INVALID_COMBO.
//! 5. Each spec, from the first on, passes the checks 4 to 8 of "Parts of documents", else their status.
//! 6. No spec with the flag 04 stands behind one without it, else INVALID_XATTR_ORDER.
//! 7. The paths of d1 with the flag 04 have one name at the front, else XATTR_INVALID_KEY_COMBO. It ends before the
//!    first point or bracket outside backticks, and is compared as it is spelt: `a`, `a.b` and `a[0]` have the name
//!    `a`, and `` `a`.b `` has the name `` `a` ``, which is another.
//!
//! A Delete among the specs may have a value, which says nothing.
//!
//! The document `m` is edited at three paths by this frame:
//!
//! | Bytes | What they are |
//! |---|---|
//! | `80 d1 0001 00 00 0000 0000001e 00000003 0000000000000000` | the header: a key of 1 byte, no extras, a body of 30 bytes |
//! | `6d` | the key `m` |
//! | `c8 00 0001 00000001 79 32` | a DictUpsert: at `y` the value `2` |
//! | `ca 00 0001 00000001 71 33` | a Replace: at `q` the value `3` |
//! | `c9 00 0001 00000000 72` | a Delete: at `r`, without a value |
//!
//! # Keys
//!
//! Where collections are granted, a document's key begins with the id of its collection in shortest LEB128
//! (`leb_collections`), and the document's name follows: `08 61` is `a` in collection 8. The key of a reply is spelled
//! in the same way. Where they aren't granted the whole key is a name in collection 0. A name has at least one byte, and
//! at most 250 in collection 0 and 246 in any other.
#![tactic(auto)]

mod laws;
mod multi;
pub mod opcode;
mod parts;
mod reading;
mod reply;
mod request;
mod writing;

pub use laws::{
    keys_as_spelled, part_numbers, request_numbers, requests_are_small, small_replies,
    specs_as_spelled,
};
pub use multi::MOST_SPECS;
pub use opcode::Command;
pub use parts::{ADDS_DOCUMENT, EXPANDS_MACROS, IS_XATTR, MAKES_DOCUMENT, MAKES_PARENTS};
pub use reading::{
    DURABILITY, KEY_LIMIT, MANIFEST_LIMIT, OTHER_KEY_LIMIT, USUAL_TIMEOUT, VALUE_LIMIT,
    read_request, read_view,
};
pub use reply::{Reply, refusal};
pub use request::{Body, Durability, Features, Mode, Request, Spec};
pub use writing::{reply_into, write_reply};

#[cfg(test)]
mod multi_tests;
#[cfg(test)]
mod part_tests;
#[cfg(test)]
mod reply_tests;
#[cfg(test)]
mod tests;
