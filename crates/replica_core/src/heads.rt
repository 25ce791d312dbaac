//! What a copy is to do with a message, by the message's head.

ghost use Rattle.std.specs.Prelude.{◌≡◌};
ghost use Rattle.replica_core.specs.Hearing as hearings;

use crate::copy::{CopyCore, Role};
use crate::messages::{ACK, ADOPT, ENTRY, Heard, MessageHead, REJOIN};
use crate::promoting::owns;

impl CopyCore {
    /// What the copy is to do with a message.
    pub fn hear(&self, head: &MessageHead) -> Heard
        ensures { result ≡ hearings.heard self.now head.now }
    {
        if !self.chain.is_named(head.from) {
            return Heard::Ignore;
        }
        match self.role {
            Role::Active => heard_active(self, head),
            Role::Replica | Role::Pending => heard_passive(self, head),
            Role::Dead => Heard::Ignore,
        }
    }
}

/// What an active copy hears: Ack and Rejoin of its own term.
fn heard_active(core: &CopyCore, head: &MessageHead) -> Heard
    ensures { result ≡ hearings.heard_active core.now head.now }
{
    if head.term != core.accepted {
        return Heard::Ignore;
    }
    match head.kind {
        ACK => Heard::Count,
        REJOIN => Heard::GiveAdopt,
        _ => Heard::Ignore,
    }
}

/// What a replica or a pending copy hears: the owner of a term that isn't below its promise.
fn heard_passive(core: &CopyCore, head: &MessageHead) -> Heard
    ensures { result ≡ hearings.heard_passive core.now head.now }
{
    if !owns(head.from, head.term) || head.term < core.promise {
        return Heard::Ignore;
    }
    match head.kind {
        ENTRY => heard_entry(core, head),
        ACK => heard_ack(core, head),
        ADOPT => heard_adopt(core, head),
        _ => Heard::Ignore,
    }
}

/// An Entry: one that is there, the next one, or one that the copy can't take.
fn heard_entry(core: &CopyCore, head: &MessageHead) -> Heard
    ensures { result ≡ hearings.heard_entry core.now head.now }
{
    if head.term != core.accepted {
        Heard::AskRejoin
    } else if head.first <= core.length {
        Heard::Acknowledge
    } else if head.first - 1 == core.length {
        Heard::Append
    } else {
        Heard::AskRejoin
    }
}

/// An Ack: a copy that is whole and has as much of its term needs nothing.
fn heard_ack(core: &CopyCore, head: &MessageHead) -> Heard
    ensures { result ≡ hearings.heard_ack core.now head.now }
{
    if head.term == core.accepted && head.first <= core.length && core.whole {
        Heard::Ignore
    } else {
        Heard::AskRejoin
    }
}

/// An Adopt: one for another incarnation is too late.
fn heard_adopt(core: &CopyCore, head: &MessageHead) -> Heard
    ensures { result ≡ hearings.heard_adopt core.now head.now }
{
    if head.first != core.incarnation || head.term < core.accepted {
        Heard::Ignore
    } else if core.accepted < head.term || core.length < head.second {
        Heard::TakeAll
    } else {
        Heard::MarkWhole
    }
}
