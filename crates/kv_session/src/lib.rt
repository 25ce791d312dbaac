//! A session: the bytes of a connection, in whatever pieces they come, as requests and refusals.
//!
//! A session holds the bytes of at most one frame that isn't given out yet: 24 bytes, and then the body that they
//! announce, whose memory is taken when the 24 bytes are known. The memory is kept for the next frame where it is at most
//! 64 KiB. A frame that comes whole in one piece is read where it lies. A session answers by itself what asks nothing of a vbucket:
//! Hello, which grants features from then on, Noop, Version, Quit and QuitQ; and frames that are no request.
//!
//! Hello's value is a list of features of two bytes each. Those of 0004 (tokens), 0006, 0007, 000b (JSON), 0010, 0011 and
//! 0012 (collections) that stand in it are granted, each once and in the client's order, and the reply lists them. They
//! take the place of all that was granted before. 0004, 000b and 0012 alone change anything: with 000b the datatype of a
//! reply is 01 where what it carries is JSON.
#![tactic(auto)]

mod answers;
mod filling;
mod finding;
mod laws;
mod session;

pub use answers::{
    FEATURE_COLLECTIONS, FEATURE_DURABILITY, FEATURE_FLEX, FEATURE_JSON, FEATURE_TOKEN,
    FEATURE_XATTR, FEATURE_XERROR, VERSION_TEXT,
};
pub use filling::KEPT_LIMIT;
pub use laws::{any_cutting, one_reading, session_numbers, two_cuttings};
pub use session::{Next, Session};

#[cfg(test)]
mod tests;
