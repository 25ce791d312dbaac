//! The replies to requests that were done.

ghost use Rattle.std.specs.Prelude.{◌≡◌, IfOk, Ok};
ghost use Rattle.doc_step.specs.Replies.{told_key, carrying, changing, storing};
ghost use Rattle.doc_step.specs.Parts.{part_failed};

use doc_model::{Doc, DocKey, Status};
use doc_step::{Change, Effect};
use kv_edge::{Bytes, Copied, NoMemory};
use kv_request::{Command, Reply, Request};
use std::alloc::Global;

/// The reply that carries the document of a key, with a copy of its value.
pub(crate) fn carrying(
    alloc: Global,
    request: &Request,
    key: &DocKey,
    doc: &Doc,
) -> Result<Reply, NoMemory>
    ensures { IfOk result (λ reply. reply ≡ carrying request.now key.now doc.now) }
{
    let value = doc.value.copy(alloc)?;
    let key = told_key(alloc, request.opcode, key)?;
    Ok(Reply {
        opcode: request.opcode,
        opaque: request.opaque,
        status: Status::SUCCESS,
        cas: doc.cas,
        json: doc.json,
        flags: Some(doc.flags),
        token: None,
        extras: Bytes::new(alloc),
        key,
        value,
    })
}

/// The reply to a change with this CAS, with this value.
pub(crate) fn changing(alloc: Global, request: &Request, cas: u64, value: Bytes) -> Reply
    ensures { result ≡ changing request.now cas value }
{
    Reply {
        opcode: request.opcode,
        opaque: request.opaque,
        status: Status::SUCCESS,
        cas,
        json: false,
        flags: None,
        token: None,
        extras: Bytes::new(alloc),
        key: None,
        value,
    }
}

/// The reply to a request of which a part failed, with what it tells of its parts.
pub(crate) fn part_failed(alloc: Global, request: &Request, value: Bytes) -> Reply
    ensures { result ≡ part_failed request.now value }
{
    let mut reply = changing(alloc, request, 0, value);
    reply.status = Status::MULTI_PATH_FAILURE;
    reply
}

/// The change that stores a document, and whose reply has this value.
pub(crate) fn storing(alloc: Global, request: &Request, doc: Doc, value: Bytes) -> Change
    ensures { Ok result ≡ storing request.now doc value }
{
    let reply = changing(alloc, request, doc.cas, value);
    Change {
        effect: Effect::Put(doc),
        reply,
    }
}

/// A copy of the key, where the opcode asks that the reply tell it.
fn told_key(alloc: Global, opcode: u8, key: &DocKey) -> Result<Option<DocKey>, NoMemory>
    ensures { IfOk result (λ told. told ≡ told_key opcode key.now) }
{
    match Command::of(opcode) {
        Some(command) => {
            if command.tells_key() {
                Ok(Some(key.copy(alloc)?))
            } else {
                Ok(None)
            }
        }
        None => Ok(None),
    }
}
