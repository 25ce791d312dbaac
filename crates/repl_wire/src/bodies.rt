//! The body of a message, kind by kind.

ghost use Rattle.std.specs.Prelude.{◌≡◌, ◌≤◌, ◌++◌, length, IfOk, IfErr, OnOk, IsTrue};
ghost use Rattle.std.specs.Int.{w64, to_be_bytes};
ghost use Rattle.repl_wire.specs.Grammar.{IsAllowedMessage, body_bytes, is_size, body_layout};
ghost use Rattle.repl_wire.specs.Grammar.{entry_layout, ack_layout, rejoin_layout, adopt_layout};
ghost use Rattle.repl_wire.specs.Layout.{within, an_entry, a_content};
ghost use Rattle.repl_wire.specs.Reading.{IsBody, BodyFails};
ghost use Rattle.vb_log.specs.Contents.{IsContent, IsWhole, content_bytes};
ghost use Rattle.vb_log.specs.Spelling as entries;

use crate::message::Message;
use crate::numbers::{BodyFault, accepted_at, length_at, number_at, position_at, term_at};
use kv_edge::NoMemory;
use replica_core::{ACK, ENTRY, REJOIN};
use std::alloc::Global;
use vb_log::{Content, ContentFault, Entry, content_into, entry_into, read_content, read_entry};

/// Reads a body of a kind, all of whose bytes are there.
pub(crate) fn body_of(alloc: Global, kind: u8, bytes: &[u8]) -> Result<Message, BodyFault>
    requires kind { IsTrue (within 1 4 kind) }
    requires size { IsTrue (is_size kind (length bytes.now)) }
    ensures found { IfOk result (λ m. IsBody kind m bytes.now) }
    ensures broken { IfErr result (BodyFails (body_layout kind) bytes.now) }
{
    match kind {
        ENTRY => entry_of(alloc, bytes),
        ACK => ack_of(bytes),
        REJOIN => rejoin_of(bytes),
        _ => adopt_of(alloc, bytes),
    }
}

/// Reads the body of an Entry.
fn entry_of(alloc: Global, bytes: &[u8]) -> Result<Message, BodyFault>
    requires { 16 ≤ length bytes.now }
    ensures found { IfOk result (λ m. IsBody 1 m bytes.now) }
    ensures broken { IfErr result (BodyFails entry_layout bytes.now) }
{
    let (term, behind_term) = term_at(bytes)?;
    let (position, rest) = position_at(behind_term)?;
    let entry = last_entry(alloc, rest)?;
    Ok(Message::Entry {
        term,
        position,
        entry,
    })
}

/// Reads the body of an Ack.
fn ack_of(bytes: &[u8]) -> Result<Message, BodyFault>
    requires { length bytes.now ≡ 24 }
    ensures found { IfOk result (λ m. IsBody 2 m bytes.now) }
    ensures broken { IfErr result (BodyFails ack_layout bytes.now) }
{
    let (term, behind_term) = term_at(bytes)?;
    let (mem, behind_mem) = length_at(behind_term)?;
    let (disk, _) = length_at(behind_mem)?;
    Ok(Message::Ack { term, mem, disk })
}

/// Reads the body of a Rejoin.
fn rejoin_of(bytes: &[u8]) -> Result<Message, BodyFault>
    requires { length bytes.now ≡ 32 }
    ensures found { IfOk result (λ m. IsBody 3 m bytes.now) }
    ensures broken { IfErr result (BodyFails rejoin_layout bytes.now) }
{
    let (term, behind_term) = term_at(bytes)?;
    let (accepted, behind_accepted) = accepted_at(behind_term)?;
    let (length, behind_length) = length_at(behind_accepted)?;
    let (incarnation, _) = number_at(behind_length);
    Ok(Message::Rejoin {
        term,
        accepted,
        length,
        incarnation,
    })
}

/// Reads the body of an Adopt.
fn adopt_of(alloc: Global, bytes: &[u8]) -> Result<Message, BodyFault>
    requires { 16 ≤ length bytes.now }
    ensures found { IfOk result (λ m. IsBody 4 m bytes.now) }
    ensures broken { IfErr result (BodyFails adopt_layout bytes.now) }
{
    let (term, behind_term) = term_at(bytes)?;
    let (incarnation, rest) = number_at(behind_term);
    let content = last_content(alloc, rest)?;
    Ok(Message::Adopt {
        term,
        incarnation,
        content,
    })
}

/// Reads the entry whose bytes these are.
fn last_entry(alloc: Global, bytes: &[u8]) -> Result<Entry, BodyFault>
    ensures found { IfOk result (λ e. entries.IsSpelled e bytes.now) }
    ensures broken { IfErr result (BodyFails an_entry bytes.now) }
{
    match read_entry(alloc, bytes) {
        Ok(entry) => Ok(entry),
        Err(ContentFault::Bad(place)) => Err(BodyFault::Broken(bytes.len() - place)),
        Err(ContentFault::NoMemory) => Err(BodyFault::NoMemory),
    }
}

/// Reads the content whose bytes these are.
fn last_content(alloc: Global, bytes: &[u8]) -> Result<Content, BodyFault>
    ensures found { IfOk result (λ c. IsContent c bytes.now) }
    ensures broken { IfErr result (BodyFails a_content bytes.now) }
{
    match read_content(alloc, bytes) {
        Ok(content) => Ok(content),
        Err(ContentFault::Bad(place)) => Err(BodyFault::Broken(bytes.len() - place)),
        Err(ContentFault::NoMemory) => Err(BodyFault::NoMemory),
    }
}

/// Appends the body of a message.
pub(crate) fn add_body(out: &mut Vec<u8>, message: &Message) -> Result<(), NoMemory>
    requires { IsAllowedMessage message.now }
    ensures { OnOk result (out.new.items ≡ out.old.items ++ body_bytes message.now) }
{
    match message {
        Message::Entry {
            term,
            position,
            entry,
        } => add_entry(out, *term, *position, entry),
        Message::Ack { term, mem, disk } => add_ack(out, *term, *mem, *disk),
        Message::Rejoin {
            term,
            accepted,
            length,
            incarnation,
        } => add_rejoin(out, (*term, *accepted), (*length, *incarnation)),
        Message::Adopt {
            term,
            incarnation,
            content,
        } => add_adopt(out, *term, *incarnation, content),
    }
}

/// Appends a number.
fn add_one(out: &mut Vec<u8>, number: u64) -> Result<(), NoMemory>
    ensures { OnOk result (out.new.items ≡ out.old.items ++ to_be_bytes w64 number) }
{
    out.extend_from_slice(&number.to_be_bytes())?;
    Ok(())
}

/// Appends two numbers.
#[tactic(auto, using(std::proofs::lemmas::List::append_assoc))]
fn add_two(out: &mut Vec<u8>, first: u64, second: u64) -> Result<(), NoMemory>
    ensures { OnOk result (out.new.items
        ≡ out.old.items ++ (to_be_bytes w64 first ++ to_be_bytes w64 second)) }
{
    out.extend_from_slice(&first.to_be_bytes())?;
    out.extend_from_slice(&second.to_be_bytes())?;
    Ok(())
}

/// Appends the body of an Entry.
#[tactic(auto, using(std::proofs::lemmas::List::append_assoc))]
fn add_entry(out: &mut Vec<u8>, term: u64, position: u64, entry: &Entry) -> Result<(), NoMemory>
    requires { entries.IsAllowed entry.now }
    ensures { OnOk result (out.new.items ≡ out.old.items
        ++ (to_be_bytes w64 term ++ (to_be_bytes w64 position ++ entries.spelling entry.now))) }
{
    add_two(out, term, position)?;
    entry_into(entry, out)?;
    Ok(())
}

/// Appends the body of an Ack.
#[tactic(auto, using(std::proofs::lemmas::List::append_assoc))]
fn add_ack(out: &mut Vec<u8>, term: u64, mem: u64, disk: u64) -> Result<(), NoMemory>
    ensures { OnOk result (out.new.items ≡ out.old.items
        ++ (to_be_bytes w64 term ++ (to_be_bytes w64 mem ++ to_be_bytes w64 disk))) }
{
    add_two(out, term, mem)?;
    add_one(out, disk)?;
    Ok(())
}

/// Appends the body of a Rejoin: two terms, and two other numbers.
#[tactic(auto, using(std::proofs::lemmas::List::append_assoc))]
fn add_rejoin(out: &mut Vec<u8>, terms: (u64, u64), others: (u64, u64)) -> Result<(), NoMemory>
    ensures { OnOk result (out.new.items ≡ out.old.items
        ++ (to_be_bytes w64 terms.0 ++ (to_be_bytes w64 terms.1
        ++ (to_be_bytes w64 others.0 ++ to_be_bytes w64 others.1)))) }
{
    add_two(out, terms.0, terms.1)?;
    add_two(out, others.0, others.1)?;
    Ok(())
}

/// Appends the body of an Adopt.
#[tactic(auto, using(std::proofs::lemmas::List::append_assoc))]
fn add_adopt(
    out: &mut Vec<u8>,
    term: u64,
    incarnation: u64,
    content: &Content,
) -> Result<(), NoMemory>
    requires { IsWhole content.now }
    ensures { OnOk result (out.new.items ≡ out.old.items
        ++ (to_be_bytes w64 term ++ (to_be_bytes w64 incarnation ++ content_bytes content.now))) }
{
    add_two(out, term, incarnation)?;
    content_into(content, out)?;
    Ok(())
}
