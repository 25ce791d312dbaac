//! Documents and their keys, as every layer above speaks of them: a key is a collection's id and bytes, a document
//! is a value with its XATTRs, flags, expiry and CAS, and an item is what a key has, a document or the mark of a
//! deletion, with its sequence number. Statuses of the protocol have their names here.
#![tactic(auto)]

mod document;
mod dropping;
mod key;
mod key_map;
mod limits;
mod numbers;
mod slot;
mod status;
mod values;
mod weighing;

pub use document::{Doc, Item, What};
pub use key::DocKey;
pub use key_map::KeyMap;
pub use limits::{KEY_LIMIT, MANIFEST_LIMIT, OTHER_KEY_LIMIT, VALUE_LIMIT, limit_numbers};
pub use numbers::status_numbers;
pub use status::{Refused, Status};
pub use values::Values;
pub use weighing::Weigh;

#[cfg(test)]
mod tests;
