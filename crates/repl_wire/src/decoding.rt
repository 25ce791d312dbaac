ghost use Rattle.std.specs.Prelude.{◌≡◌, ◌⊎◌, ℕ, List, ◌++◌, length};
ghost use Rattle.repl_wire.specs.declared.decoding.WireStep.TheVariants as steps;
ghost use Rattle.repl_wire.specs.declared.message.Sent.{Sent as SentMessage};
ghost use Rattle.repl_wire.specs.Grammar.{IsSpelled};
ghost use Rattle.repl_wire.specs.Judging.{HeadAt, Decodes};

use crate::bodies::body_of;
use crate::heads::{Head, HeadFault, head_at};
use crate::limits::HEAD_LENGTH;
use crate::message::Sent;
use crate::numbers::BodyFault;
use kv_edge::slice_at;
use std::alloc::Global;

/// What bytes begin with.
#[derive(Drop)]
pub enum WireStep {
    /// This message, and how many bytes it has.
    Whole(Sent, usize),
    /// This many bytes are missing, of the head or else of the body.
    More(usize),
    /// No message begins so: the offset of the first field that is wrong.
    Bad(usize),
    /// Memory was refused.
    NoMemory,
}

/// Reads the message that the bytes begin with. `Bad` tells a wrong field of the head as soon as it is there, one of the
/// body once the body is whole; until then `More` tells how many bytes are missing, and no memory is taken for them.
/// `NoMemory` comes where memory is refused. The work and the memory are in proportion to the message. What
/// `encode_link` appended is read as that very message, whatever follows.
pub fn decode_link(alloc: Global, bytes: &[u8]) -> WireStep
    ensures answer { Decodes bytes.now result }
    ensures only { (s : SentMessage) (spelt rest : List ℕ)
        → IsSpelled s spelt → bytes.now ≡ spelt ++ rest
        → (result ≡ steps.Whole s (length spelt)) ⊎ (result ≡ steps.NoMemory) }
{
    decoded(alloc, bytes)
}

/// Reads the message that the bytes begin with.
fn decoded(alloc: Global, bytes: &[u8]) -> WireStep
    ensures { Decodes bytes.now result }
{
    let (head, rest) = match head_at(bytes) {
        Ok(found) => found,
        Err(HeadFault::Ended) => return WireStep::More(HEAD_LENGTH - bytes.len()),
        Err(HeadFault::Broken(left)) => return WireStep::Bad(bytes.len() - left),
    };
    whole_with(alloc, bytes, head, rest)
}

/// Reads the message that the bytes begin with, whose head is read.
fn whole_with(alloc: Global, bytes: &[u8], head: Head, rest: &[u8]) -> WireStep
    requires { HeadAt bytes.now head rest.now }
    ensures { Decodes bytes.now result }
{
    let size = head.size as usize;
    let body = match slice_at(rest, size) {
        Some((body, _)) => body,
        None => return WireStep::More(size - rest.len()),
    };
    match body_of(alloc, head.kind, body) {
        Ok(message) => {
            let sent = Sent {
                from: head.from,
                to: head.to,
                vbucket: head.vbucket,
                message,
            };
            WireStep::Whole(sent, HEAD_LENGTH + size)
        }
        Err(BodyFault::Broken(left)) => WireStep::Bad(HEAD_LENGTH + size - left),
        Err(BodyFault::NoMemory) => WireStep::NoMemory,
    }
}
