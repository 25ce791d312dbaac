ghost use Rattle.std.specs.Prelude.{◌≡◌};
ghost use Rattle.repl_wire.specs.Heads.{head_of};

use replica_core::{ACK, ADOPT, ENTRY, MessageHead, REJOIN};
use vb_log::{Content, Entry, length};

/// What one copy of a vbucket tells another.
#[derive(Drop)]
pub enum Message {
    /// The entry at a position of the term's log.
    Entry {
        term: u64,
        position: u64,
        entry: Entry,
    },
    /// How many entries the sender's log of the term has, in memory and on disk.
    Ack {
        term: u64,
        mem: u64,
        disk: u64,
    },
    /// The sender, which has so many entries of this accepted term and was opened so often, asks
    /// for all of the term's log.
    Rejoin {
        term: u64,
        accepted: u64,
        length: u64,
        incarnation: u64,
    },
    /// What the term's log comes to, for the copy that was opened so often.
    Adopt {
        term: u64,
        incarnation: u64,
        content: Content,
    },
}

/// A message of a vbucket, from the copy at one place to the copy at another.
#[derive(Drop)]
pub struct Sent {
    pub from: u8,
    pub to: u8,
    pub vbucket: u16,
    pub message: Message,
}

/// What of a message decides what its addressee is to do with it.
pub fn head(sent: &Sent) -> MessageHead
    ensures { result ≡ head_of sent.now }
{
    let from = sent.from;
    match &sent.message {
        Message::Entry { term, position, .. } => head_with(ENTRY, from, *term, (*position, 0, 0)),
        Message::Ack { term, mem, disk } => head_with(ACK, from, *term, (*mem, *disk, 0)),
        Message::Rejoin {
            term,
            accepted,
            length,
            incarnation,
        } => head_with(REJOIN, from, *term, (*accepted, *length, *incarnation)),
        Message::Adopt {
            term,
            incarnation,
            content,
        } => head_with(ADOPT, from, *term, (*incarnation, length(content), 0)),
    }
}

/// A head of this kind with these numbers.
fn head_with(kind: u8, from: u8, term: u64, numbers: (u64, u64, u64)) -> MessageHead
    ensures { result ≡ record {
      kind = kind;
      from = from;
      term = term;
      first = numbers.0;
      second = numbers.1;
      third = numbers.2;
    } }
{
    let (first, second, third) = numbers;
    MessageHead {
        kind,
        from,
        term,
        first,
        second,
        third,
    }
}
