//! The frame of the memcached binary protocol: what its bytes are, whether bytes begin with one, and the one
//! spelling of each frame.
//!
//! Numbers of several bytes have the highest byte first.
//!
//! | Offset | Magics 80 and 81 | Magics 08 and 18 |
//! |---|---|---|
//! | 0 | magic, u8 | magic, u8 |
//! | 1 | opcode, u8 | opcode, u8 |
//! | 2 | key length, u16 | framing length, u8; at 3 key length, u8 |
//! | 4 | extras length, u8 | the same |
//! | 5 | datatype, u8 | the same |
//! | 6 | vbucket of a request, status of a reply, u16 | the same |
//! | 8 | body length, u32 | the same |
//! | 12 | opaque, u32 | the same |
//! | 16 | CAS, u64 | the same |
//! | 24 | extras, key, value | framing extras, extras, key, value |
//!
//! Requests have the magics 80 and 08, replies 81 and 18. A frame is valid if and only if (1) its magic is one of
//! its side, (2) the body length is the sum of the lengths of framing extras, extras, key and value and at most
//! 23,068,672, and (3) the framing section is a list of framing extras that fill it exactly.
//!
//! A framing extra is one byte with the id in its high nibble and the length in its low nibble, then a byte with the
//! id less 15 where the id's nibble is 15, then a byte with the length less 15 where the length's nibble is 15, and
//! then that many bytes.
//!
//! Worked example, a Get of the key `a` on vbucket 1 with the opaque deadbeef:
//!
//! ```text
//! 80 00 0001 00 00 0001 00000001 deadbeef 0000000000000000 61
//! ```
#![tactic(auto)]

mod decoding;
mod encoding;
mod fitting;
mod frame;
mod framing;
mod header;
mod judging;
mod laws;
mod viewing;

pub use decoding::{Step, decode};
pub use encoding::{encode_into, header_bytes};
pub use fitting::fits;
pub use frame::{BODY_LIMIT, Frame, FrameExtra, FrameView, HEADER_LENGTH, Magic, Side, view_of};
pub use header::Header;
pub use judging::{Fault, Judged, judge};
pub use laws::{frame_numbers, one_frame, one_judgement};
pub use viewing::{ViewStep, view};

#[cfg(test)]
mod tests;
