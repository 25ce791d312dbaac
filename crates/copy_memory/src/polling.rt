//! What a client learns that waits for a durable write.

ghost use Rattle.std.specs.Prelude.{◌≡◌, ℕ};
ghost use Rattle.copy_model.specs.Copies.{Copy};
ghost use Rattle.copy_model.specs.Requests as requests;
ghost use Rattle.copy_model.specs.Requests.{polled, forgetting, stood_at};
ghost use Rattle.vb_log.specs.Content as contents;
ghost use Rattle.copy_memory.specs.Remembers.{Remembers, Becomes};
ghost use Rattle.copy_memory.specs.Tickets as tickets;

use crate::memory::Memory;
use crate::tickets::{KeptFate, TicketName};
use copy_model::{Polled, Ticket};
use doc_model::Status;
use kv_request::{Reply, refusal};
use replica_core::Role;
use std::alloc::Global;

impl Memory {
    /// What has become of a ticket. `Pending` exactly where it is open, its Prepare waits and the copy is active at its term;
    /// else it is answered: where its Commit stands with the reply that tells this position, and where it doesn't, or the
    /// ticket isn't open, with `SYNC_WRITE_AMBIGUOUS`. It takes no memory.
    pub fn poll(&mut self, ticket: Ticket) -> Polled
        ensures { (c : Copy contents.Content ℕ) → Remembers self.old c
            → Remembers self.new (polled ticket c).0 × (result ≡ (polled ticket c).1) }
    {
        let name = name_of(&ticket);
        let Some(fate) = self.tickets.fate(&name) else {
            return Polled::Done(ambiguous(self.alloc, ticket.reply));
        };
        if fate == KeptFate::Waiting && self.is_active_at(ticket.term) {
            return Polled::Pending(ticket);
        }
        self.tickets.close(&name);
        match fate {
            KeptFate::Stood(position) => Polled::Done(standing(ticket.reply, position)),
            KeptFate::Waiting | KeptFate::Aborted => Polled::Done(ambiguous(
                self.alloc,
                ticket.reply,
            )),
        }
    }

    /// Closes a ticket, for which no one waits any more. It takes no memory.
    pub fn forget(&mut self, ticket: &Ticket)
        ensures { Becomes self.old self.new (forgetting ticket.now) }
    {
        self.tickets.close(&name_of(ticket));
    }

    /// Whether the copy is active at a term.
    fn is_active_at(&self, term: u64) -> bool
        ensures { result ≡ tickets.is_active_at (tickets.active_term self.now.core.role self.now.core.accepted) term }
    {
        self.core.role == Role::Active && self.core.accepted == term
    }
}

/// The name of a ticket.
fn name_of(ticket: &Ticket) -> TicketName
    ensures { result ≡ tickets.name_of ticket.now }
{
    TicketName {
        term: ticket.term,
        prepare: ticket.prepare,
    }
}

/// The reply to a change that was prepared and of which the Commit stands at a position.
fn standing(reply: Reply, position: u64) -> Reply
    ensures { result ≡ stood_at position reply }
{
    let token = match reply.token {
        Some((term, _prepare)) => Some((term, position)),
        None => None,
    };
    Reply { token, ..reply }
}

/// The reply to a change of which it isn't known whether it stands.
fn ambiguous(alloc: Global, reply: Reply) -> Reply
    ensures { result ≡ requests.ambiguous reply }
{
    refusal(
        alloc,
        reply.opcode,
        reply.opaque,
        Status::SYNC_WRITE_AMBIGUOUS,
    )
}
