//! Manifests: which scopes and collections there are, and which ids may never come back.
//!
//! # The form
//!
//! A manifest is a text of JSON (RFC 8259): an object with the members `uid`, a text of 1 to 16 hexadecimal digits, and
//! `scopes`, a list. A scope is an object with `name`, a text, `uid`, a text of 1 to 8 hexadecimal digits, and
//! `collections`, a list. A collection is an object with `name`, `uid`, as a scope has them, and maybe `maxTTL`, a
//! number below 2^32 that is spelt in digits alone: the greatest lifetime of its documents in seconds, 0 for any, as
//! where it is left out. Digits are in either case. Further members are passed over, and of several members of one name
//! the last counts. What hasn't this form is no manifest (`EINVAL`).
//!
//! # The rules
//!
//! A manifest is applied over the one that is there. What decides, in this order:
//!
//! 1. A smaller uid: `MANIFEST_IS_AHEAD`.
//! 2. An equal uid: nothing changes where the scopes are equal, in order, names, ids and greatest lifetimes; else
//!    `CANNOT_APPLY_MANIFEST`.
//! 3. A greater uid: the new manifest takes the place of the old one where all of these hold; else
//!    `CANNOT_APPLY_MANIFEST`. There are at most 1,200 scopes and 1,200 collections, and the text below has at most
//!    1,048,576 bytes; each name has 1 to 251 letters of ASCII, digits, `_`, `-` and `%`; no two scopes share an id or a
//!    name, no two collections an id, and no two of one scope a name; no id is 1 to 7; scope 0 is there and called
//!    `_default`; collection 0, if it is there, is `_default` in scope 0; a scope that was there keeps its name, and a
//!    collection that was there its name and its scope; no id that was ever dropped is there; and at most 65,536 ids of
//!    each kind were ever dropped.
//!
//! An id is dropped by the manifest in which it is missing for the first time. It never comes back.
//!
//! # The text
//!
//! One text is written for a manifest: the members in the order above, without space, hexadecimal digits in lower case
//! and without leading zeros, and `maxTTL` left out where it is 0.
//!
//! # The state
//!
//! The state keeps the dropped ids, too. Numbers have four bytes, the highest first.
//!
//! | Offset | What |
//! |---|---|
//! | 0 | the length n of the text |
//! | 4 | the text, n bytes |
//! | 4 + n | how many ids of scopes were ever dropped, k |
//! | 8 + n | these ids in rising order, 4 k bytes |
//! | 8 + n + 4 k | how many ids of collections were ever dropped, m |
//! | 12 + n + 4 k | these ids in rising order, 4 m bytes |
//!
//! Its fields are the length of the text, at most 1,048,576, the text, and each count, at most 65,536, and each id behind
//! it, which is greater than the one before and is none of the manifest's. The place of a fault is where the first field
//! begins that isn't there or isn't so.
//!
//! Worked example, the state of the manifest that a store begins with:
//!
//! ```text
//! 00000062
//! {"uid":"0","scopes":[{"name":"_default","uid":"0","collections":[{"name":"_default","uid":"0"}]}]}
//! 00000000 00000000
//! ```
#![tactic(auto)]

mod applying;
mod following;
mod ids;
mod laws;
mod manifest;
mod paths;
mod reading;
mod rules;
mod sound;
mod state;
mod types;
mod writing;

pub use applying::{Dropped, apply, apply_text, foresee_text, lost_collections};
pub use laws::{
    dropped_ids_are_the_lost, equal_changes_nothing, kept_stays_kept, manifest_numbers,
    no_id_comes_back, one_broken_place, state_is_read_back, text_is_read_back,
};
pub use manifest::{Manifest, dropped_collections, dropped_scopes, first, has, max_ttl, uid};
pub use paths::{collection_of, scope_of};
pub use reading::read_manifest;
pub use state::{StateFault, is_kept, read_state, state_into};
pub use types::{COUNT_LIMIT, Collection, DROPPED_LIMIT, NAME_LIMIT, Scope};
pub use writing::text;

#[cfg(test)]
mod tests;
