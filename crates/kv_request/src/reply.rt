ghost use Rattle.std.specs.Prelude.{◌≡◌};
ghost use Rattle.kv_request.specs.Tables.{refused, IsReply};

use doc_model::{DocKey, Status};
use kv_edge::Bytes;
use std::alloc::Global;

/// A reply. Its CAS is 0 where nothing is said of one.
#[derive(Debug, PartialEq, Eq, Drop)]
pub struct Reply {
    /// The request's.
    pub opcode: u8,
    /// The request's.
    pub opaque: u32,
    pub status: Status,
    /// The document's or the change's.
    pub cas: u64,
    /// Whether the value is a whole document's and JSON text.
    pub json: bool,
    /// The flags of the document that the reply carries.
    pub flags: Option<u32>,
    /// Term and sequence number of the change that was made.
    pub token: Option<(u64, u64)>,
    /// Extras that are neither flags nor token.
    pub extras: Bytes,
    /// The key, where the request asks for it.
    pub key: Option<DocKey>,
    /// The value, empty where there is none.
    pub value: Bytes,
}

/// A reply with an empty body that says why a request wasn't done. It takes no memory.
pub fn refusal(alloc: Global, opcode: u8, opaque: u32, status: Status) -> Reply
    ensures reply { result ≡ refused opcode opaque status }
    ensures fits { IsReply result }
{
    Reply {
        opcode,
        opaque,
        status,
        cas: 0,
        json: false,
        flags: None,
        token: None,
        extras: Bytes::new(alloc),
        key: None,
        value: Bytes::new(alloc),
    }
}
