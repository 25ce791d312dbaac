//! How an entry is added to the log.

ghost use Rattle.std.specs.Prelude.{◌≡◌, ◌+◌, ◌++◌, ◌<◌, ◌≤◌, ℕ, true, false, length, IfOk, OnOk, OnErr};
ghost use Rattle.std.specs.VecDeque.{deque_capacity, deque_len};
ghost use Rattle.copy_model.specs.Copies.{Copy};
ghost use Rattle.copy_model.specs.Entries.{added, disk_length};
ghost use Rattle.copy_model.specs.Hearing.{appended};
ghost use Rattle.replica_core.specs.Terms.{is_active};
ghost use Rattle.vb_log.specs.Content as contents;
ghost use Rattle.vb_log.specs.Content.{allowed, with_entry};
ghost use Rattle.vb_log.specs.Logs.{folds};
ghost use Rattle.vb_log.specs.Spelling.{IsAllowed};
ghost use Rattle.vb_log.specs.declared.limits.TheConstants.{GREATEST_POSITION};
ghost use Rattle.copy_memory.specs.Remembers.{Remembers, Becomes};
ghost use Rattle.copy_memory.specs.Sending.{entry_to_each};
ghost use Rattle.copy_memory.specs.Shown.{Rests, grown, is_plain};

use crate::memory::Memory;
use kv_edge::{Copied, NoMemory};
use repl_wire::{Message, Sent};
use std::alloc::Global;
use std::collections::VecDeque;
use vb_log::{
    AddFault, CONTENT_LIMIT, Content, Entry, SUM_LIMIT, add, length, prepares, size, size_after,
    spelt_length,
};

impl Memory {
    /// Adds an entry that is allowed, and that neither prepares a change nor settles one, to the log of an active copy, and
    /// tells it to the others. At `Err` all is as before.
    pub fn publish(&mut self, entry: Entry) -> Result<(), NoMemory>
        requires entry { IsAllowed entry }
        requires allowed { allowed self.old.content entry ≡ true }
        requires kind { is_plain entry ≡ true }
        ensures ok { OnOk result (Becomes self.old self.new (added folds entry)) }
        ensures err { OnErr result (Rests self.old self.new) }
        ensures room { OnOk result (self.old.content.length < GREATEST_POSITION) }
    {
        let from = (self.core.place, self.number, self.core.accepted);
        let position = self.core.length.saturating_add(1);
        let told = to_each(self.alloc, from, self.others.as_slice(), position, &entry)?;
        self.unspoken.reserve(told.len())?;
        self.add(entry)?;
        move_all(&mut self.unspoken, told);
        Ok(())
    }

    /// Adds an entry that is allowed to the log of a copy that isn't active, and tells the owner of its term how far it is,
    /// of whose log of that term so many entries are on disk. At `Err` all is as before.
    pub fn append(&mut self, entry: Entry, on_disk: u64) -> Result<(), NoMemory>
        requires entry { IsAllowed entry }
        requires allowed { allowed self.old.content entry ≡ true }
        ensures ok { OnOk result ((c : Copy contents.Content ℕ) → Remembers self.old c → is_active c.role ≡ false
            → disk_length folds c ≡ on_disk → Remembers self.new (appended folds entry c)) }
        ensures err { OnErr result (Rests self.old self.new) }
    {
        self.unspoken.reserve(1)?;
        self.add(entry)?;
        self.acknowledge_reserved(on_disk);
        Ok(())
    }

    /// Adds an entry that is allowed to the log, and counts it. At `Err` all is as before.
    fn add(&mut self, entry: Entry) -> Result<(), NoMemory>
        requires entry { IsAllowed entry }
        requires allowed { allowed self.old.content entry ≡ true }
        ensures ok { OnOk result (self.new ≡ grown entry self.old) }
        ensures err { OnErr result (self.new ≡ self.old) }
        ensures room { OnOk result (self.old.content.length < GREATEST_POSITION) }
    {
        let bytes = spelt_length(&entry);
        let entries = checked_sum(self.unflushed_entries, 1)?;
        let bytes = checked_sum(self.unflushed_bytes, bytes)?;
        add_within(self.alloc, &mut self.content, entry)?;
        self.core.length = length(&self.content);
        self.unflushed_entries = entries;
        self.unflushed_bytes = bytes;
        Ok(())
    }
}

/// A sum of 64 bits, or none, as where memory is wanting.
pub(crate) fn checked_sum(a: u64, b: u64) -> Result<u64, NoMemory>
    ensures { IfOk result (λ sum. sum ≡ a + b) }
{
    match a.checked_add(b) {
        Some(sum) => Ok(sum),
        None => Err(NoMemory),
    }
}

/// Adds an entry that is allowed, unless the content is too large or too long, or would become so. At `Err` the content is as
/// before.
fn add_within(alloc: Global, content: &mut Content, entry: Entry) -> Result<(), NoMemory>
    requires entry { IsAllowed entry }
    requires allowed { allowed content.old entry ≡ true }
    ensures ok { OnOk result (content.new ≡ with_entry content.old entry) }
    ensures err { OnErr result (content.new ≡ content.old) }
    ensures room { OnOk result (content.old.length < GREATEST_POSITION) }
{
    let others = prepares(content).len() as u64;
    if size(content) > CONTENT_LIMIT || length(content).saturating_add(others) >= SUM_LIMIT - 1 {
        return Err(NoMemory);
    }
    if size_after(alloc, content, &entry)? > CONTENT_LIMIT {
        return Err(NoMemory);
    }
    match add(alloc, content, entry) {
        Ok(()) => Ok(()),
        Err(AddFault::NotAllowed) => Err(NoMemory),
        Err(AddFault::NoMemory) => Err(NoMemory),
    }
}

/// The message of an entry at a position of a term's log to each of these places, from a place, a vbucket and a term.
pub(crate) fn to_each(
    alloc: Global,
    from: (u8, u16, u64),
    others: &[u8],
    position: u64,
    entry: &Entry,
) -> Result<VecDeque<Sent>, NoMemory>
    ensures { IfOk result (λ told. told.items ≡ entry_to_each from.0 from.1 from.2 others.now position entry.now) }
{
    let mut told = VecDeque::with_capacity(alloc, others.len())?;
    for to in others {
        let message = Message::Entry {
            term: from.2,
            position,
            entry: copied(alloc, entry)?,
        };
        told.push_back(Sent {
            from: from.0,
            to: *to,
            vbucket: from.1,
            message,
        })?;
    }
    Ok(told)
}

/// Moves messages behind others.
fn move_all(unspoken: &mut VecDeque<Sent>, told: VecDeque<Sent>)
    requires { deque_len unspoken.old + length told.items ≤ deque_capacity unspoken.old }
    ensures messages { unspoken.new.items ≡ unspoken.old.items ++ told.items }
    ensures room { deque_capacity unspoken.new ≡ deque_capacity unspoken.old }
{
    let mut told = told;
    while let Some(sent) = told.pop_front() {
        unspoken.push_back_reserved(sent);
    }
}

/// An equal entry.
fn copied(alloc: Global, entry: &Entry) -> Result<Entry, NoMemory>
    ensures { IfOk result (λ made. made ≡ entry.now) }
{
    Ok(match entry {
        Entry::Mutation { key, doc } => Entry::Mutation {
            key: key.copy(alloc)?,
            doc: doc.copy(alloc)?,
        },
        Entry::Deletion { key, cas } => Entry::Deletion {
            key: key.copy(alloc)?,
            cas: *cas,
        },
        Entry::Prepare { key, what, level } => Entry::Prepare {
            key: key.copy(alloc)?,
            what: what.copy(alloc)?,
            level: *level,
        },
        Entry::Commit { of } => Entry::Commit { of: *of },
        Entry::Abort { of } => Entry::Abort { of: *of },
        Entry::Manifest { text } => Entry::Manifest {
            text: text.copy(alloc)?,
        },
    })
}
