ghost use Rattle.std.specs.Prelude.{◌≡◌, ◌++◌, IfOk, OnOk, OnErr, length, take};
ghost use Rattle.kv_frame.specs.Grammar.{header_of, spelling};
ghost use Rattle.kv_request.specs.Tables.{sent, frame, flags_bytes, token_bytes, key_bytes};
ghost use Rattle.kv_request.specs.Sending.{sent_bytes, IsSendable};
ghost use Rattle.leb_collections.specs.Functions.{id_bytes};

use crate::opcode::is_unsent;
use crate::reading::JSON;
use crate::reply::Reply;
use crate::request::Features;
use doc_model::DocKey;
use kv_edge::{Bytes, Copied, NoMemory, Seq};
use kv_frame::{Frame, HEADER_LENGTH, Header, Magic, header_bytes};
use leb_collections::write_id;
use std::alloc::Global;

/// The frame of a reply, or nothing where its opcode is quiet and leaves this status unsent.
pub fn write_reply(
    alloc: Global,
    reply: &Reply,
    features: &Features,
) -> Result<Option<Frame>, NoMemory>
    ensures { IfOk result (λ made. made ≡ sent features.now reply.now) }
{
    if is_unsent(reply.opcode, reply.status) {
        return Ok(None);
    }
    let extras = extras(alloc, reply, features)?;
    let key = key(alloc, reply, features)?;
    let value = reply.value.copy(alloc)?;
    Ok(Some(Frame {
        magic: Magic::Reply,
        opcode: reply.opcode,
        datatype: datatype(reply, features),
        word: reply.status.code,
        opaque: reply.opaque,
        cas: reply.cas,
        framing: Seq::new(alloc),
        extras,
        key,
        value,
    }))
}

/// The extras of a reply's frame: the flags, the token where the client asked for it, and the others.
fn extras(alloc: Global, reply: &Reply, features: &Features) -> Result<Bytes, NoMemory>
    ensures { IfOk result (λ made. made ≡ (frame features.now reply.now).extras) }
{
    let mut extras = Vec::new(alloc);
    if let Some(flags) = reply.flags {
        extras.extend_from_slice(&flags.to_be_bytes())?;
    }
    if features.token {
        if let Some((term, seqno)) = reply.token {
            extras.extend_from_slice(&term.to_be_bytes())?;
            extras.extend_from_slice(&seqno.to_be_bytes())?;
        }
    }
    extras.extend_from_slice(reply.extras.as_slice())?;
    Ok(Bytes::from_vec(extras))
}

/// The bytes of a reply's key.
fn key(alloc: Global, reply: &Reply, features: &Features) -> Result<Bytes, NoMemory>
    ensures { IfOk result (λ made. made ≡ key_bytes features.now.collections reply.now.key) }
{
    match &reply.key {
        Some(key) => {
            if features.collections {
                spell_key(alloc, key)
            } else {
                key.key.copy(alloc)
            }
        }
        None => Ok(Bytes::new(alloc)),
    }
}

/// The bytes of a key behind its collection's id.
fn spell_key(alloc: Global, key: &DocKey) -> Result<Bytes, NoMemory>
    ensures { IfOk result (λ made. made ≡ id_bytes key.now.collection ++ key.now.key) }
{
    let mut id = [0u8; 5];
    let used = write_id(key.collection, &mut id);
    let (front, _) = id.split_at(used);
    let mut bytes = Vec::new(alloc);
    bytes.extend_from_slice(front)?;
    bytes.extend_from_slice(key.key.as_slice())?;
    Ok(Bytes::from_vec(bytes))
}

/// The datatype of a reply's frame.
fn datatype(reply: &Reply, features: &Features) -> u8
    ensures { result ≡ (frame features.now reply.now).datatype }
{
    if reply.json && features.json { JSON } else { 0 }
}

/// Appends the bytes of a reply's frame, or nothing where its opcode is quiet and leaves this status unsent. It asks for
/// memory at most once. `NoMemory` comes where that is refused, and then nothing is appended.
pub fn reply_into(reply: &Reply, features: &Features, out: &mut Vec<u8>) -> Result<(), NoMemory>
    requires { IsSendable features.now reply.now }
    ensures ok { OnOk result (out.new.items ≡ out.old.items ++ sent_bytes features.now reply.now) }
    ensures err { OnErr result (out.new.items ≡ out.old.items) }
{
    if is_unsent(reply.opcode, reply.status) {
        return Ok(());
    }
    let before = out.len();
    match put_reply(reply, features, out) {
        Ok(()) => Ok(()),
        Err(refused) => {
            // What was put before memory was refused is no frame: take it back.
            out.truncate(before);
            Err(refused)
        }
    }
}

/// Appends the spelling of a reply's frame. At `Err` what was there stands at the front.
#[tactic(auto, unfolding(kv_frame::specs::Grammar::spelling, kv_frame::specs::Grammar::body), using(std::proofs::lemmas::List::append_assoc, kv_frame::proofs::Kept::kept_behind))]
fn put_reply(reply: &Reply, features: &Features, out: &mut Vec<u8>) -> Result<(), NoMemory>
    requires { IsSendable features.now reply.now }
    ensures ok { OnOk result (out.new.items ≡ out.old.items ++ spelling (frame features.now reply.now)) }
    ensures err { OnErr result (take (length out.old.items) out.new.items ≡ out.old.items) }
{
    let header = header_of(reply, features);
    out.reserve(HEADER_LENGTH + header.body)?;
    out.extend_from_slice(&header_bytes(&header))?;
    put_extras(reply, features, out)?;
    put_key(reply, features, out)?;
    out.extend_from_slice(reply.value.as_slice())?;
    Ok(())
}

/// The header of a reply's frame.
fn header_of(reply: &Reply, features: &Features) -> Header
    requires { IsSendable features.now reply.now }
    ensures { result ≡ header_of (frame features.now reply.now) }
{
    let extras = extras_length(reply, features);
    let key = key_length(reply, features);
    Header {
        magic: Magic::Reply,
        opcode: reply.opcode,
        datatype: datatype(reply, features),
        word: reply.status.code,
        opaque: reply.opaque,
        cas: reply.cas,
        framing: 0,
        extras,
        key,
        body: extras + (key + reply.value.len()),
    }
}

/// How many bytes the extras of a reply's frame have.
fn extras_length(reply: &Reply, features: &Features) -> usize
    requires { IsSendable features.now reply.now }
    ensures { result ≡ length (frame features.now reply.now).extras }
{
    let flags = if reply.flags.is_some() { 4 } else { 0 };
    let token = if features.token && reply.token.is_some() {
        16
    } else {
        0
    };
    flags + token + reply.extras.len()
}

/// How many bytes the key of a reply's frame has.
fn key_length(reply: &Reply, features: &Features) -> usize
    requires { IsSendable features.now reply.now }
    ensures { result ≡ length (frame features.now reply.now).key }
{
    match &reply.key {
        None => 0,
        Some(key) => {
            let name = key.key.len();
            if features.collections {
                let mut id = [0u8; 5];
                write_id(key.collection, &mut id) + name
            } else {
                name
            }
        }
    }
}

/// Appends the extras of a reply's frame. At `Err` what was there stands at the front.
#[tactic(auto, using(std::proofs::lemmas::List::append_assoc, kv_frame::proofs::Kept::kept_behind))]
fn put_extras(reply: &Reply, features: &Features, out: &mut Vec<u8>) -> Result<(), NoMemory>
    ensures ok { OnOk result (out.new.items ≡ out.old.items ++ (frame features.now reply.now).extras) }
    ensures err { OnErr result (take (length out.old.items) out.new.items ≡ out.old.items) }
{
    put_flags(reply, out)?;
    put_token(reply, features, out)?;
    out.extend_from_slice(reply.extras.as_slice())?;
    Ok(())
}

/// Appends the flags, where there are flags. At `Err` nothing is appended.
fn put_flags(reply: &Reply, out: &mut Vec<u8>) -> Result<(), NoMemory>
    ensures ok { OnOk result (out.new.items ≡ out.old.items ++ flags_bytes reply.now.flags) }
    ensures err { OnErr result (out.new.items ≡ out.old.items) }
{
    if let Some(flags) = reply.flags {
        out.extend_from_slice(&flags.to_be_bytes())?;
    }
    Ok(())
}

/// Appends the token, where the client asked for it. At `Err` what was there stands at the front.
#[tactic(auto, using(std::proofs::lemmas::List::append_assoc))]
fn put_token(reply: &Reply, features: &Features, out: &mut Vec<u8>) -> Result<(), NoMemory>
    ensures ok { OnOk result (out.new.items ≡ out.old.items ++ token_bytes features.now.token reply.now.token) }
    ensures err { OnErr result (take (length out.old.items) out.new.items ≡ out.old.items) }
{
    if features.token {
        if let Some((term, seqno)) = reply.token {
            out.extend_from_slice(&term.to_be_bytes())?;
            out.extend_from_slice(&seqno.to_be_bytes())?;
        }
    }
    Ok(())
}

/// Appends the bytes of a reply's key. At `Err` what was there stands at the front.
#[tactic(auto, using(std::proofs::lemmas::List::append_assoc))]
fn put_key(reply: &Reply, features: &Features, out: &mut Vec<u8>) -> Result<(), NoMemory>
    ensures ok { OnOk result (out.new.items ≡ out.old.items ++ (frame features.now reply.now).key) }
    ensures err { OnErr result (take (length out.old.items) out.new.items ≡ out.old.items) }
{
    if let Some(key) = &reply.key {
        if features.collections {
            let mut id = [0u8; 5];
            let used = write_id(key.collection, &mut id);
            let (front, _) = id.split_at(used);
            out.extend_from_slice(front)?;
        }
        out.extend_from_slice(key.key.as_slice())?;
    }
    Ok(())
}
