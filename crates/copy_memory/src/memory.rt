ghost use Rattle.std.specs.Prelude.{◌≡◌};

use crate::tickets::Tickets;
use durability_core::Tracker;
use repl_wire::Sent;
use replica_core::CopyCore;
use std::alloc::Global;
use std::collections::VecDeque;
use std::marker::Model;
use vb_log::Content;

/// What of a copy is in memory: all but what its disk holds.
///
/// Contracts see the parts of it, and say which copy these are of (`specs/Remembers.antt`).
#[derive(Drop)]
pub struct Memory {
    pub(crate) alloc: Global,
    pub(crate) core: CopyCore,
    /// Which vbucket it is.
    pub(crate) number: u16,
    /// What the log comes to.
    pub(crate) content: Content,
    /// The greatest moment seen, in milliseconds since 1970.
    pub(crate) seen: u64,
    /// Up to which position prepares are inherited.
    pub(crate) inherited: u64,
    /// What an active copy knows of its durable writes; none where it isn't active.
    pub(crate) tracker: Option<Tracker>,
    pub(crate) tickets: Tickets,
    /// The other places that have a name, in rising order.
    pub(crate) others: Vec<u8>,
    /// The messages that aren't spoken yet, the oldest first.
    pub(crate) unspoken: VecDeque<Sent>,
    /// How many entries were added since the log was last put on disk, and the bytes of their spellings.
    pub(crate) unflushed_entries: u64,
    pub(crate) unflushed_bytes: u64,
}

impl Model for Memory {
    ghost use Rattle.std.specs.Prelude.{◌-◌};
    ghost use Rattle.std.specs.VecDeque.{deque_capacity, deque_len};
    ghost use Rattle.std.specs.FinMap as map;
    ghost use Rattle.std.specs.Coded.{coded_list, coded_option};
    ghost use Rattle.durability_core.specs.contracts.tracking.Tracker as tracker_rows;
    ghost use Rattle.replica_core.specs.contracts.copy.CopyCore as core_rows;
    ghost use Rattle.repl_wire.specs.contracts.message.Sent as sent_rows;
    ghost use Rattle.vb_log.specs.contracts.content.Content as content_rows;
    ghost use Rattle.copy_memory.specs.contracts.tickets.Tickets as ticket_rows;
    ghost use Rattle.copy_memory.specs.Shown.{ShownMemory, IsKept, coded_memory};

    ghost Value = { ShownMemory };

    ghost coded = { coded_memory core_rows.the_row.coded content_rows.the_row.coded (coded_option tracker_rows.the_row.coded) ticket_rows.the_row.coded (coded_list sent_rows.the_row.coded) };

    ghost view = { λ m. record { core = m.core; number = m.number; content = m.content; seen = m.seen; inherited = m.inherited; tracker = m.tracker; tickets = m.tickets; unspoken = m.unspoken.items; room = deque_capacity m.unspoken - deque_len m.unspoken; unflushed_entries = m.unflushed_entries; unflushed_bytes = m.unflushed_bytes } };

    ghost invariant = { λ m. IsKept m.core m.content m.others.items };
}

impl Memory {
    /// The numbers of the copy.
    pub fn core(&self) -> &CopyCore
        ensures { result.now ≡ self.now.core }
    {
        &self.core
    }

    /// What the copy's log comes to.
    pub fn content(&self) -> &Content
        ensures { result.now ≡ self.now.content }
    {
        &self.content
    }
}
