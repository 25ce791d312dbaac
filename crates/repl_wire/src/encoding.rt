ghost use Rattle.std.specs.Prelude.{◌≡◌, ◌++◌, OnOk, OnErr};
ghost use Rattle.repl_wire.specs.Grammar.{CanBeSent, kind_of, head_bytes, spelling};

use crate::bodies::add_body;
use crate::heads::{Head, head_bytes};
use crate::message::{Message, Sent};
use kv_edge::NoMemory;
use replica_core::{ACK, ADOPT, ENTRY, REJOIN};

/// Appends the bytes of a message, which has to be one that may be sent. `NoMemory` comes where memory is refused, and
/// then nothing is appended. The work is in proportion to the bytes.
pub fn encode_link(sent: &Sent, out: &mut Vec<u8>) -> Result<(), NoMemory>
    requires { CanBeSent sent.now }
    ensures ok { OnOk result (out.new.items ≡ out.old.items ++ spelling sent.now) }
    ensures err { OnErr result (out.new.items ≡ out.old.items) }
{
    let alloc = *out.allocator();
    let mut spelt = Vec::new(alloc);
    add_sent(&mut spelt, sent)?;
    out.extend_from_slice(spelt.as_slice())?;
    Ok(())
}

/// Appends a message.
fn add_sent(out: &mut Vec<u8>, sent: &Sent) -> Result<(), NoMemory>
    requires { CanBeSent sent.now }
    ensures { OnOk result (out.new.items ≡ out.old.items ++ spelling sent.now) }
{
    let alloc = *out.allocator();
    let mut body = Vec::new(alloc);
    add_body(&mut body, &sent.message)?;
    let head = Head {
        kind: kind_of(&sent.message),
        from: sent.from,
        to: sent.to,
        vbucket: sent.vbucket,
        size: body.len() as u32,
    };
    add_whole(out, head, body.as_slice())?;
    Ok(())
}

/// Appends a head, and a body behind it.
fn add_whole(out: &mut Vec<u8>, head: Head, body: &[u8]) -> Result<(), NoMemory>
    ensures { OnOk result (out.new.items ≡ out.old.items
        ++ (head_bytes head.kind head.from head.to head.vbucket head.size ++ body.now)) }
{
    add_head(out, head)?;
    out.extend_from_slice(body)?;
    Ok(())
}

/// Appends a head.
fn add_head(out: &mut Vec<u8>, head: Head) -> Result<(), NoMemory>
    ensures { OnOk result (out.new.items ≡ out.old.items
        ++ head_bytes head.kind head.from head.to head.vbucket head.size) }
{
    out.extend_from_slice(&head_bytes(head))?;
    Ok(())
}

/// The number that says which message it is.
fn kind_of(message: &Message) -> u8
    ensures { result ≡ kind_of message.now }
{
    match message {
        Message::Entry { .. } => ENTRY,
        Message::Ack { .. } => ACK,
        Message::Rejoin { .. } => REJOIN,
        Message::Adopt { .. } => ADOPT,
    }
}
