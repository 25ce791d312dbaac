//! How what is ready is committed.

ghost use Rattle.std.specs.Prelude.{◌≡◌, ◌+◌, ◌*◌, ◌++◌, ◌<◌, ◌≤◌, ◌^◌, ℕ, true, length, IsTrue, IfOk, OnOk, OnErr};
ghost use Rattle.std.specs.VecDeque.{deque_capacity, deque_len};
ghost use Rattle.copy_model.specs.Copies.{Copy, Pair};
ghost use Rattle.copy_model.specs.Disk as disks;
ghost use Rattle.copy_model.specs.Disk.{after_flush};
ghost use Rattle.copy_model.specs.Entries.{settled, counting, core_of, disk_length};
ghost use Rattle.replica_core.specs.Terms.{is_active};
ghost use Rattle.vb_log.specs.Content as contents;
ghost use Rattle.vb_log.specs.Held.{positions_rise};
ghost use Rattle.vb_log.specs.Logs.{folds};
ghost use Rattle.vb_log.specs.declared.entry.Entry.TheVariants as Entry;
ghost use Rattle.copy_memory.specs.Remembers.{Remembers};
ghost use Rattle.copy_memory.specs.Sending.{entry_to_each, commits_to_each};
ghost use Rattle.copy_memory.specs.Settling.{settles, stood, would_commit, committing_first, commit_length, IsPlanned, IsPutDown, emptied_on};
ghost use Rattle.copy_memory.specs.Shown.{Rests, other_places};
ghost use Rattle.copy_memory.specs.Tickets.{standing};

use crate::adding::checked_sum;
use crate::memory::Memory;
use crate::tickets::{KeptFate, TicketName, Tickets};
use kv_edge::NoMemory;
use repl_wire::{Message, Sent, TERM_BOUND};
use replica_core::{CopyCore, Role};
use std::alloc::Global;
use std::collections::VecDeque;
use vb_log::{
    CONTENT_LIMIT, Content, Entry, SUM_LIMIT, commit_first, emptied, length, prepares, size,
};

impl Memory {
    /// Commits what is ready in an active copy, of whose log of the accepted term so many entries are on disk, and tells the
    /// others. It costs a few look-ups for each change that is committed. At `Err` all is as before.
    pub fn settle(&mut self, on_disk: u64) -> Result<(), NoMemory>
        ensures ok { OnOk result ((c : Copy contents.Content ℕ) → Remembers self.old c → is_active c.role ≡ true
            → disk_length folds c ≡ on_disk → Remembers self.new (settled folds c)) }
        ensures err { OnErr result (Rests self.old self.new) }
    {
        let (place, mem) = (self.core.place, self.core.length);
        self.settle_by(place, mem, on_disk)
    }

    /// Counts how far the copy at a place is in memory and on disk, and commits what is ready then in an active copy, of whose
    /// own log of the accepted term so many entries are on disk. What a message tells of the own place isn't counted. At
    /// `Err` all is as before.
    pub fn count(&mut self, place: u8, mem: u64, disk: u64, on_disk: u64) -> Result<(), NoMemory>
        ensures ok { OnOk result ((c : Copy contents.Content ℕ) → Remembers self.old c → is_active c.role ≡ true
            → disk_length folds c ≡ on_disk → Remembers self.new (settled folds (counting place mem disk c))) }
        ensures err { OnErr result (Rests self.old self.new) }
    {
        if place == self.core.place {
            return self.settle(on_disk);
        }
        self.settle_by(place, mem, disk)
    }

    /// Tells the tracker how far a place is, and commits what is ready then. At `Err` all is as before: all memory is taken
    /// before anything is committed.
    fn settle_by(&mut self, place: u8, mem: u64, disk: u64) -> Result<(), NoMemory>
        ensures ok { OnOk result (Rests (settles place mem disk self.old) self.new) }
        ensures err { OnErr result (Rests self.old self.new) }
        ensures rise { OnOk result (IsTrue (positions_rise self.old.content.prepares)) }
    {
        let count = self.ready_count(place, mem, disk);
        let entries = checked_sum(self.unflushed_entries, count as u64)?;
        let bytes = checked_sum(self.unflushed_bytes, commits_length(count)?)?;
        self.make_room(count)?;
        let behind = self.core.length;
        commit_within(self.alloc, &mut self.content, count)?;
        self.core.length = length(&self.content);
        self.unflushed_entries = entries;
        self.unflushed_bytes = bytes;
        self.stand(place, mem, disk, behind);
        Ok(())
    }

    /// How many changes would be committed, if the tracker were told how far a place is. Nothing changes.
    fn ready_count(&mut self, place: u8, mem: u64, disk: u64) -> usize
        ensures count { result ≡ would_commit place mem disk self.old.tracker }
        ensures same { self.new ≡ self.old }
    {
        match &mut self.tracker {
            Some(tracker) => tracker.would_settle(place, mem, disk),
            None => 0,
        }
    }

    /// Makes room for the messages of so many Commits. At `Err` all is as before.
    fn make_room(&mut self, count: usize) -> Result<(), NoMemory>
        ensures ok { OnOk result (count * length (other_places self.old.core) ≤ self.new.room) }
        ensures same { Rests self.old self.new }
    {
        match count.checked_mul(self.others.len()) {
            Some(room) => Ok(self.unspoken.reserve(room)?),
            None => Err(NoMemory),
        }
    }

    /// Tells the tracker how far a place is, and the others and the tickets which changes are committed then. Their Commits
    /// are in the content already, behind a log of this length.
    fn stand(&mut self, place: u8, mem: u64, disk: u64, behind: u64)
        requires room { would_commit place mem disk self.old.tracker * length (other_places self.old.core) ≤ self.old.room }
        requires made { behind + would_commit place mem disk self.old.tracker ≡ self.old.core.length }
        requires numbers { behind + would_commit place mem disk self.old.tracker < 2 ^ 64 }
        ensures { Rests (stood place mem disk behind self.old) self.new }
    {
        let Some(tracker) = &mut self.tracker else {
            return;
        };
        tracker.ack(place, mem, disk);
        let from = (self.core.place, self.number, self.core.accepted);
        tell_commits(
            &mut self.unspoken,
            from,
            self.others.as_slice(),
            behind,
            tracker.settled(),
        );
        stand_all(
            &mut self.tickets,
            self.core.accepted,
            behind,
            tracker.settled(),
        );
    }
}

/// What a flush will come to once the log is on disk: the content then, and how many Commits are in it that weren't in the
/// log which is put on disk.
#[derive(Drop)]
pub struct FlushPlan {
    pub(crate) content: Content,
    pub(crate) count: usize,
    /// The bytes of the spellings of these Commits.
    pub(crate) bytes: u64,
}

impl Memory {
    /// What a flush of the log will come to, with room for what it brings to be told. At `Err` nothing is planned. Nothing
    /// else changes: the content without items and the Commits of what will be ready are made beside the content.
    pub fn plan_flush(&mut self) -> Result<FlushPlan, NoMemory>
        ensures ok { IfOk result (IsPlanned self.new) }
        ensures same { Rests self.old self.new }
    {
        let (place, length) = (self.core.place, self.core.length);
        let count = self.ready_count(place, length, length);
        let bytes = commits_length(count)?;
        self.make_room(count)?;
        self.unspoken.reserve(1)?;
        let mut content = emptied(self.alloc, &self.content)?;
        commit_within(self.alloc, &mut content, count)?;
        Ok(FlushPlan {
            content,
            count,
            bytes,
        })
    }

    /// The log is on disk at the accepted term: commits what is ready then in an active copy, and tells the others; another
    /// copy tells the owner of its term how far it is, where it is to. It takes no memory.
    pub fn flushed(&mut self, plan: FlushPlan)
        requires planned { IsPlanned self.old plan }
        ensures { (c : Copy contents.Content ℕ) (d : Pair contents.Content ℕ) → Remembers self.old c → IsPutDown c d
            → Remembers self.new (after_flush folds (emptied_on d c)) }
    {
        let FlushPlan {
            content,
            count,
            bytes,
        } = plan;
        let (place, behind) = (self.core.place, self.core.length);
        self.core.length = length(&content);
        self.content = content;
        self.unflushed_entries = count as u64;
        self.unflushed_bytes = bytes;
        if self.core.role == Role::Active {
            self.stand(place, behind, behind, behind);
        } else if tells_flush(&self.core) {
            self.acknowledge_reserved(behind);
        }
    }
}

/// How many bytes the spelling of a Commit has.
const COMMIT_LENGTH: u64 = 9;

/// How many bytes the spellings of so many Commits have.
fn commits_length(count: usize) -> Result<u64, NoMemory>
    ensures { IfOk result (λ n. n ≡ count * commit_length) }
{
    match (count as u64).checked_mul(COMMIT_LENGTH) {
        Some(bytes) => Ok(bytes),
        None => Err(NoMemory),
    }
}

/// Whether a copy that isn't active tells how far it is, once it has flushed: its accepted term is its promise, and one of
/// another place.
fn tells_flush(core: &CopyCore) -> bool
    ensures { (c : Copy contents.Content ℕ) → core.now ≡ core_of folds c → result ≡ disks.tells_flush c }
{
    0 < core.accepted
        && core.accepted == core.promise
        && (4 <= core.accepted
            && core.accepted < TERM_BOUND
            && core.accepted % 4 != core.place as u64)
}

/// Commits the first changes that wait, so many, unless fewer wait, or the content is too large or too long. At `Err` the
/// content is as before.
fn commit_within(alloc: Global, content: &mut Content, count: usize) -> Result<(), NoMemory>
    ensures ok { OnOk result (content.new ≡ committing_first count content.old) }
    ensures err { OnErr result (content.new ≡ content.old) }
    ensures few { OnOk result (count ≤ length content.old.prepares) }
    ensures rise { IsTrue (positions_rise content.old.prepares) }
{
    let others = prepares(content).len();
    if others < count
        || size(content) > CONTENT_LIMIT
        || length(content).saturating_add(others as u64) > SUM_LIMIT
    {
        return Err(NoMemory);
    }
    commit_first(alloc, content, count)
}

/// Adds the message of each Commit to each of these places, one Commit after the other, behind a log of this length, from a
/// place, a vbucket and a term.
fn tell_commits(
    unspoken: &mut VecDeque<Sent>,
    from: (u8, u16, u64),
    others: &[u8],
    behind: u64,
    settled: &[u64],
)
    requires room { deque_len unspoken.old + length settled.now * length others.now ≤ deque_capacity unspoken.old }
    requires numbers { behind + length settled.now < 2 ^ 64 }
    ensures messages { unspoken.new.items ≡ unspoken.old.items ++ commits_to_each from.0 from.1 from.2 others.now behind settled.now }
    ensures room { deque_capacity unspoken.new ≡ deque_capacity unspoken.old }
{
    let mut position = behind;
    for prepare in settled {
        position += 1;
        tell_commit(unspoken, from, others, position, *prepare);
    }
}

/// Adds the message of a Commit at a position to each of these places.
fn tell_commit(
    unspoken: &mut VecDeque<Sent>,
    from: (u8, u16, u64),
    others: &[u8],
    position: u64,
    prepare: u64,
)
    requires { deque_len unspoken.old + length others.now ≤ deque_capacity unspoken.old }
    ensures messages { unspoken.new.items ≡ unspoken.old.items ++ entry_to_each from.0 from.1 from.2 others.now position (Entry.Commit prepare) }
    ensures len { deque_len unspoken.new ≡ deque_len unspoken.old + length others.now }
    ensures room { deque_capacity unspoken.new ≡ deque_capacity unspoken.old }
{
    for to in others {
        unspoken.push_back_reserved(Sent {
            from: from.0,
            to: *to,
            vbucket: from.1,
            message: Message::Entry {
                term: from.2,
                position,
                entry: Entry::Commit { of: prepare },
            },
        });
    }
}

/// The tickets of these prepares of a term stand, by Commits one after the other behind a log of this length.
fn stand_all(tickets: &mut Tickets, term: u64, behind: u64, settled: &[u64])
    requires { behind + length settled.now < 2 ^ 64 }
    ensures { tickets.new ≡ standing term behind settled.now tickets.old }
{
    let mut position = behind;
    for prepare in settled {
        position += 1;
        let name = TicketName {
            term,
            prepare: *prepare,
        };
        tickets.decide(&name, KeptFate::Stood(position));
    }
}
