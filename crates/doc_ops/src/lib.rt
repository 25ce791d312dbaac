//! What a request does to the document of its key, computed.
//!
//! `plan` looks at the document that the map has and says what is to become of it, and what is
//! answered. It changes nothing: whoever calls it makes the change, and only once that is sure.
//!
//! The order is always the same: a document that has expired isn't there, then the CAS is compared,
//! then come the operation's own refusals, and only then is memory taken.
#![tactic(auto)]

mod counter;
mod documents;
mod edits;
mod expiry;
mod looks;
mod planning;
mod replies;

pub use doc_step::{Change, Effect};
pub use planning::plan;

#[cfg(test)]
mod part_tests;
#[cfg(test)]
mod tests;
