//! What no clause says: what a client learns whose ticket is of an earlier term, and in which order messages are spoken.
ghost use Rattle.std.specs.Prelude.{◌≡◌, [], ◌∷◌, Some, IfOk};

use crate::Memory;
use crate::adding::to_each;
use crate::tickets::{TicketName, Tickets};
use copy_model::{Polled, Ticket};
use doc_model::Status;
use durability_core::{Chain, Tracker};
use kv_edge::{Bytes, NoMemory, Seq};
use kv_request::refusal;
use repl_wire::{Sent, head};
use replica_core::{ACK, CopyCore, REJOIN, Role};
use std::alloc::Global;
use std::collections::VecDeque;
use std::test::Fail;
use vb_log::{Entry, empty};

/// The chain of three places with names.
fn chain(alloc: Global) -> Result<Chain, NoMemory>
    ensures { IfOk result (λ made. made.names ≡ Some (97 ∷ []) ∷ Some (98 ∷ []) ∷ Some (99 ∷ []) ∷ []) }
{
    let mut names = Seq::new(alloc);
    names.push(Some(Bytes::from_slice(alloc, b"a")?))?;
    names.push(Some(Bytes::from_slice(alloc, b"b")?))?;
    names.push(Some(Bytes::from_slice(alloc, b"c")?))?;
    Ok(Chain { names })
}

/// The memory of the active copy at the first of three places, whose log of a term has no entries.
fn memory(alloc: Global, term: u64) -> Result<Memory, NoMemory> {
    let chain = chain(alloc)?;
    let tracker = Tracker::new(alloc, &chain, 0)?;
    let mut others = Vec::new(alloc);
    others.push(1)?;
    others.push(2)?;
    let core = CopyCore {
        chain,
        place: 0,
        role: Role::Active,
        promise: term,
        accepted: term,
        length: 0,
        whole: true,
        incarnation: 1,
    };
    Ok(Memory {
        alloc,
        core,
        number: 7,
        content: empty(alloc)?,
        seen: 0,
        inherited: 0,
        tracker: Some(tracker),
        tickets: Tickets::new(alloc),
        others,
        unspoken: VecDeque::new(alloc),
        unflushed_entries: 0,
        unflushed_bytes: 0,
    })
}

/// The status with which the ticket of a term's first entry is answered; none where it waits on.
fn status_of(memory: &mut Memory, alloc: Global, term: u64) -> Option<Status> {
    let reply = refusal(alloc, 1, 0, Status::SUCCESS);
    let ticket = Ticket {
        prepare: 1,
        term,
        reply,
    };
    match memory.poll(ticket) {
        Polled::Done(reply) => Some(reply.status),
        Polled::Pending(_ticket) => None,
    }
}

/// To which place the next message is spoken, its kind, and its first number.
fn spoken(memory: &mut Memory) -> Option<(u8, u8, u64)> {
    match memory.speak() {
        Some(sent) => {
            let head = head(&sent);
            Some((sent.to, head.kind, head.first))
        }
        None => None,
    }
}

/// Opens a ticket of term 4 and one of term 8.
fn open_both(memory: &mut Memory) -> Result<(), NoMemory> {
    memory.tickets.open(TicketName {
        term: 4,
        prepare: 1,
    })?;
    memory.tickets.open(TicketName {
        term: 8,
        prepare: 1,
    })
}

#[test]
fn tickets_of_an_earlier_term_are_ambiguous(rt: HostRuntime) -> Result<(), Fail> {
    let mut memory = memory(rt.alloc(), 8)?;
    open_both(&mut memory)?;
    let later = status_of(&mut memory, rt.alloc(), 8);
    let earlier = status_of(&mut memory, rt.alloc(), 4);
    assert_eq!(rt;
        (later, earlier),
        (None, Some(Status::SYNC_WRITE_AMBIGUOUS))
    );
    Ok(())
}

/// Asks the copy at place 2 for the log of term 4, and then tells the owner of that term how far the copy is.
fn ask_and_tell(memory: &mut Memory) -> Result<(), NoMemory> {
    memory.ask(2, 4)?;
    memory.acknowledge(0)
}

#[test]
fn messages_are_spoken_in_order(rt: HostRuntime) -> Result<(), Fail> {
    let mut memory = memory(rt.alloc(), 4)?;
    ask_and_tell(&mut memory)?;
    let first = spoken(&mut memory);
    let second = spoken(&mut memory);
    assert_eq!(rt; (first, second), (Some((2, REJOIN, 4)), Some((0, ACK, 0))));
    Ok(())
}

/// To which place the oldest of these messages goes, and its first number.
fn oldest(told: &mut VecDeque<Sent>) -> Option<(u8, u64)> {
    match told.pop_front() {
        Some(sent) => {
            let head = head(&sent);
            Some((sent.to, head.first))
        }
        None => None,
    }
}

#[test]
fn entries_are_told_to_both_others(rt: HostRuntime) -> Result<(), Fail> {
    let entry = Entry::Commit { of: 1 };
    let mut told = to_each(rt.alloc(), (0, 7, 4), &[1, 2], 5, &entry)?;
    let first = oldest(&mut told);
    let second = oldest(&mut told);
    assert_eq!(rt; (first, second), (Some((1, 5)), Some((2, 5))));
    Ok(())
}
