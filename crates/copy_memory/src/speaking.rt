//! What a copy says to the others.

ghost use Rattle.std.specs.Prelude.{◌≡◌, ◌++◌, ◌+◌, ◌≤◌, ℕ, length, map as list_map, option_map, OnOk, OnErr, IfOk};
ghost use Rattle.std.specs.VecDeque.{deque_capacity, deque_len};
ghost use Rattle.copy_model.specs.Copies.{Copy};
ghost use Rattle.copy_model.specs.Entries.{acknowledging, saying};
ghost use Rattle.copy_model.specs.Events.{speaks, telling_all};
ghost use Rattle.copy_model.specs.Hearing.{asking};
ghost use Rattle.vb_log.specs.Content as contents;
ghost use Rattle.vb_log.specs.Logs.{folds};
ghost use Rattle.copy_memory.specs.Remembers.{Remembers, Becomes, BecomesAt};
ghost use Rattle.copy_memory.specs.Sending.{message_of, sent_of, kept_to};
ghost use Rattle.copy_memory.specs.Shown.{Rests};
ghost use Rattle.repl_wire.specs.declared.message.Message.TheVariants as Message;

use crate::memory::Memory;
use kv_edge::NoMemory;
use repl_wire::{Message, Sent};
use std::collections::VecDeque;
use vb_log::Content;

/// How many places own terms.
const PLACES: u64 = 4;

impl Memory {
    /// The oldest message that isn't spoken yet. It takes no memory.
    pub fn speak(&mut self) -> Option<Sent>
        ensures { (c : Copy contents.Content ℕ) → Remembers self.old c
            → Remembers self.new (speaks c).0 × (option_map sent_of result ≡ (speaks c).1) }
    {
        self.unspoken.pop_front()
    }

    /// Tells the owner of the accepted term how far the copy is, of whose log of that term so many entries are on disk. At
    /// `Err` all is as before.
    pub fn acknowledge(&mut self, on_disk: u64) -> Result<(), NoMemory>
        ensures ok { OnOk result (BecomesAt on_disk self.old self.new (acknowledging folds)) }
        ensures err { OnErr result (Rests self.old self.new) }
    {
        self.unspoken.reserve(1)?;
        self.acknowledge_reserved(on_disk);
        Ok(())
    }

    /// Tells the owner of the accepted term how far the copy is, where there is room for a message.
    pub(crate) fn acknowledge_reserved(&mut self, on_disk: u64)
        requires { 1 ≤ self.old.room }
        ensures { BecomesAt on_disk self.old self.new (acknowledging folds) }
    {
        let message = self.ack(on_disk);
        let to = (self.core.accepted % PLACES) as u8;
        self.unspoken.push_back_reserved(Sent {
            from: self.core.place,
            to,
            vbucket: self.number,
            message,
        });
    }

    /// Tells all others how far the copy is, of whose log of the accepted term so many entries are on disk. At `Err` all is as
    /// before.
    pub fn tell_all(&mut self, on_disk: u64) -> Result<(), NoMemory>
        ensures ok { OnOk result (BecomesAt on_disk self.old self.new (telling_all folds)) }
        ensures err { OnErr result (Rests self.old self.new) }
    {
        self.unspoken.reserve(self.others.len())?;
        let (term, length) = (self.core.accepted, self.core.length);
        let from = (self.core.place, self.number);
        tell_each(
            &mut self.unspoken,
            from,
            self.others.as_slice(),
            (term, length, on_disk),
        );
        Ok(())
    }

    /// Asks the copy at a place for all of a term's log. At `Err` all is as before.
    pub fn ask(&mut self, to: u8, term: u64) -> Result<(), NoMemory>
        ensures ok { OnOk result (Becomes self.old self.new (asking folds to term)) }
        ensures err { OnErr result (Rests self.old self.new) }
    {
        let message = Message::Rejoin {
            term,
            accepted: self.core.accepted,
            length: self.core.length,
            incarnation: self.core.incarnation,
        };
        self.say(to, message)
    }

    /// Gives the copy at a place, that was opened so often, all that the log comes to. At `Err` all is as before.
    pub fn give(&mut self, to: u8, incarnation: u64, content: Content) -> Result<(), NoMemory>
        ensures ok { OnOk result (Becomes self.old self.new (saying to (message_of (Message.Adopt self.old.core.accepted incarnation content)))) }
        ensures err { OnErr result (Rests self.old self.new) }
    {
        let term = self.core.accepted;
        let message = Message::Adopt {
            term,
            incarnation,
            content,
        };
        self.say(to, message)
    }

    /// How far the copy is, of whose log of the accepted term so many entries are on disk.
    fn ack(&self, on_disk: u64) -> Message
        ensures { result ≡ Message.Ack self.now.core.accepted self.now.core.length on_disk }
    {
        Message::Ack {
            term: self.core.accepted,
            mem: self.core.length,
            disk: on_disk,
        }
    }

    /// Adds a message to a place. At `Err` all is as before.
    fn say(&mut self, to: u8, message: Message) -> Result<(), NoMemory>
        ensures ok { OnOk result (Becomes self.old self.new (saying to (message_of message))) }
        ensures err { OnErr result (Rests self.old self.new) }
    {
        self.unspoken.reserve(1)?;
        self.unspoken.push_back_reserved(Sent {
            from: self.core.place,
            to,
            vbucket: self.number,
            message,
        });
        Ok(())
    }
}

/// Adds a message to each of these places that tells the term, and how long its log is in memory and on disk.
fn tell_each(unspoken: &mut VecDeque<Sent>, from: (u8, u16), others: &[u8], told: (u64, u64, u64))
    requires { deque_len unspoken.old + length others.now ≤ deque_capacity unspoken.old }
    ensures messages { unspoken.new.items ≡ unspoken.old.items ++ list_map (kept_to from.0 from.1 (Message.Ack told.0 told.1 told.2)) others.now }
    ensures room { deque_capacity unspoken.new ≡ deque_capacity unspoken.old }
{
    for to in others {
        unspoken.push_back_reserved(Sent {
            from: from.0,
            to: *to,
            vbucket: from.1,
            message: Message::Ack {
                term: told.0,
                mem: told.1,
                disk: told.2,
            },
        });
    }
}
