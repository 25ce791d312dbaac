ghost use Rattle.std.specs.Prelude.{◌≡◌, ◌+◌, ◌≤◌, [], ◌++◌, length, replicate, filter, not, is_some, drop, take_while, map as list_map, vec_len, vec_capacity, None, Some, IfOk, OnOk, OnErr, false};
ghost use Rattle.durability_core.specs.Chains.{place_count};
ghost use Rattle.durability_core.specs.Ready.{unknown};
ghost use Rattle.durability_core.specs.Reaches.{known_of, raised_in};
ghost use Rattle.durability_core.specs.Kept.{first_ready, NoneBefore};
ghost use Rattle.durability_core.specs.Tracking as tracking;
ghost use Rattle.durability_core.specs.Tracking.{is_due, has_waiting, positions, is_ready_by, still_waiting, MayEnd, IsLater, IsRising, with_waiting, acknowledged, given_up};

use crate::chain::Chain;
use crate::fault::TrackFault;
use crate::places::{Reach, is_ready, put_back, raise, reach_at};
use crate::queue::Queue;
use crate::sweeping::earlier;
use crate::waiting::Waiting;
use doc_model::DocKey;
use kv_edge::{Copied, NoMemory};
use std::alloc::Global;
use std::marker::Model;

/// What the active copy of a vbucket knows of its durable writes: how far each place is, and which prepares wait.
///
/// Contracts see it as what it knows (`specs/Tracking.antt`).
#[derive(Drop)]
pub struct Tracker {
    chain: Chain,
    own: u8,
    known: Vec<Reach>,
    waiting: Queue,
    settled: Vec<u64>,
    /// A moment before which no prepare is given up.
    earliest: u64,
}

impl Model for Tracker {
    ghost use Rattle.std.specs.Prelude.{map as list_map, vec_capacity};
    ghost use Rattle.durability_core.specs.Tracking.{Tracked};
    ghost use Rattle.durability_core.specs.Reaches.{known_of};
    ghost use Rattle.durability_core.specs.Kept.{IsKept};

    ghost Value = { Tracked };

    ghost view = { λ t. record { chain = t.chain; own = t.own; known = list_map known_of t.known.items; waiting = t.waiting; settled = t.settled.items } };

    ghost invariant = { λ t. IsKept t.earliest t.waiting t.settled.items (vec_capacity t.settled) };
}

impl Tracker {
    /// The tracker of an active copy that was just promoted, at its place of a chain. Nothing is known of any place, its
    /// own among them, and no prepare waits.
    ///
    /// # Errors
    ///
    /// `NoMemory` where memory was refused.
    pub fn new(alloc: Global, chain: &Chain, own: u8) -> Result<Tracker, NoMemory>
        ensures { IfOk result (λ t. t ≡ record { chain = chain.now; own = own; known = replicate (place_count chain.now) unknown; waiting = []; settled = [] }) }
    {
        let chain = chain.copy(alloc)?;
        let known = nothing_known(alloc, chain.names.len())?;
        Ok(Tracker {
            chain,
            own,
            known,
            waiting: Queue::new(alloc),
            settled: Vec::new(alloc),
            earliest: u64::MAX,
        })
    }

    /// Adds a prepare that the copy inherited, which is never given up.
    ///
    /// # Errors
    ///
    /// `NoMemory` where memory was refused; all is as before then.
    pub fn inherit(&mut self, position: u64, level: u8, key: DocKey) -> Result<(), NoMemory>
        requires later { IsLater position self.old.waiting }
        requires free { has_waiting self.old.waiting key ≡ false }
        ensures ok { OnOk result (self.new ≡ with_waiting (record { position = position; level = level; key = key; deadline = None }) self.old) }
        ensures err { OnErr result (self.new ≡ self.old) }
    {
        self.add(Waiting {
            position,
            level,
            key,
            deadline: None,
        })
    }

    /// Adds a prepare of this term, which is given up at its deadline, in milliseconds since 1970. It takes the room for its
    /// place in the settled list too.
    ///
    /// # Errors
    ///
    /// The first that holds of `Level`, the level isn't from 1 to 3; `ReCommit`, an inherited prepare of the key waits;
    /// `Impossible`, the chain names fewer than a majority of its places; `InProgress`, a prepare of the key waits. Else
    /// `NoMemory` where memory was refused. All is as before then.
    pub fn prepare(
        &mut self,
        position: u64,
        level: u8,
        key: DocKey,
        deadline: u64,
    ) -> Result<(), TrackFault>
        requires { IsLater position self.old.waiting }
        ensures told { MayEnd (tracking.prepare_fault self.old.chain self.old.waiting level key) result }
        ensures ok { OnOk result (self.new ≡ with_waiting (record { position = position; level = level; key = key; deadline = Some deadline }) self.old) }
        ensures err { OnErr result (self.new ≡ self.old) }
    {
        if let Some(fault) = prepare_fault(&self.chain, &self.waiting, level, &key) {
            return Err(fault);
        }
        let added = self.add(Waiting {
            position,
            level,
            key,
            deadline: Some(deadline),
        });
        match added {
            Ok(()) => Ok(()),
            Err(NoMemory) => Err(TrackFault::NoMemory),
        }
    }

    /// Counts how far the log of a place is in memory and on disk, the active's own among them, and settles the first
    /// prepares that are ready by what is known then, in their order, up to one that isn't. Answers how many. It takes no
    /// memory, and costs a step for each that it settles.
    pub fn ack(&mut self, place: u8, mem: u64, disk: u64) -> usize
        ensures after { self.new ≡ acknowledged place mem disk self.old }
        ensures count { result ≡ length self.new.settled }
    {
        raise(self.known.as_mut_slice(), place as usize, mem, disk);
        self.settled.clear();
        commit_ready(
            &self.chain,
            self.own as usize,
            self.known.as_slice(),
            &mut self.waiting,
            &mut self.settled,
        );
        self.settled.len()
    }

    /// How many prepares `ack` would settle, told the same. It changes nothing and takes no memory, and costs a step for each
    /// that it counts: so all memory that their Commits need can be taken before any of them is settled.
    pub fn would_settle(&mut self, place: u8, mem: u64, disk: u64) -> usize
        ensures count { result ≡ length (acknowledged place mem disk self.old).settled }
        ensures same { self.new ≡ self.old }
    {
        told_count(
            &self.chain,
            self.own as usize,
            self.known.as_mut_slice(),
            &self.waiting,
            place as usize,
            (mem, disk),
        )
    }

    /// Settles the prepares of this term whose deadline is at most a moment, in milliseconds since 1970, in rising order.
    /// Answers how many. It takes no memory. Where no deadline of those that wait since the last call has come it costs one
    /// step, and else a step for each that waits.
    pub fn due(&mut self, now: u64) -> usize
        ensures after { self.new ≡ given_up now self.old }
        ensures count { result ≡ length self.new.settled }
    {
        self.settled.clear();
        let earliest = give_up(&mut self.waiting, self.earliest, now, &mut self.settled);
        self.earliest = earliest;
        self.settled.len()
    }

    /// The positions that the last `ack` or `due` settled, in rising order.
    pub fn settled(&self) -> &[u64]
        ensures value { result.now ≡ self.now.settled }
        ensures rising { IsRising result.now }
    {
        self.settled.as_slice()
    }

    /// Adds a prepare, with the room for its place in the settled list. At `Err` all is as before.
    fn add(&mut self, prepare: Waiting) -> Result<(), NoMemory>
        requires later { IsLater prepare.position self.old.waiting }
        requires free { has_waiting self.old.waiting prepare.key ≡ false }
        ensures ok { OnOk result (self.new ≡ with_waiting prepare self.old) }
        ensures err { OnErr result (self.new ≡ self.old) }
    {
        self.settled.reserve(self.waiting.len() + 1)?;
        let earliest = earlier(self.earliest, prepare.deadline);
        self.waiting.push(prepare)?;
        self.earliest = earliest;
        Ok(())
    }
}

/// Nothing is known of so many places.
fn nothing_known(alloc: Global, count: usize) -> Result<Vec<Reach>, NoMemory>
    ensures { IfOk result (λ known. list_map known_of known.items ≡ replicate count unknown) }
{
    let mut known = Vec::with_capacity(alloc, count)?;
    for _place in 0..count {
        known.push(Reach { mem: 0, disk: 0 })?;
    }
    Ok(known)
}

/// The fault of a new prepare of a level and a key, none where it may be added.
fn prepare_fault(chain: &Chain, waiting: &Queue, level: u8, key: &DocKey) -> Option<TrackFault>
    ensures { result ≡ tracking.prepare_fault chain.now waiting.now level key.now }
{
    let found = waiting.inherited_of(key);
    if level < 1 || 3 < level {
        return Some(TrackFault::Level);
    }
    if found == Some(true) {
        return Some(TrackFault::ReCommit);
    }
    if chain.named_count() <= chain.names.len() / 2 {
        return Some(TrackFault::Impossible);
    }
    if found.is_some() {
        return Some(TrackFault::InProgress);
    }
    None
}

/// Settles the first prepares that are ready by what is known, in their order, up to one that isn't.
fn commit_ready(
    chain: &Chain,
    own: usize,
    known: &[Reach],
    waiting: &mut Queue,
    settled: &mut Vec<u64>,
)
    requires { vec_len settled.old + length waiting.old ≤ vec_capacity settled.old }
    ensures left { waiting.new ≡ still_waiting (is_ready_by chain.now own (list_map known_of known.now)) waiting.old }
    ensures settled { settled.new.items ≡ settled.old.items ++ positions (take_while (is_ready_by chain.now own (list_map known_of known.now)) waiting.old) }
    ensures room { vec_capacity settled.new ≡ vec_capacity settled.old }
{
    while let Some(position) = ready_position(chain, own, known, waiting) {
        settled.push_reserved(position);
        waiting.take_first();
    }
}

/// How many of the first prepares are ready once a place has told how far it is in memory and on disk, up to one that isn't.
/// What is known of it is put back.
fn told_count(
    chain: &Chain,
    own: usize,
    known: &mut [Reach],
    waiting: &Queue,
    place: usize,
    told: (u64, u64),
) -> usize
    ensures count { result ≡ length (take_while (is_ready_by chain.now own (raised_in (list_map known_of known.old) place told.0 told.1)) waiting.now) }
    ensures same { list_map known_of known.new ≡ list_map known_of known.old }
{
    let (mem, disk) = told;
    let before = reach_at(known, place);
    raise(known, place, mem, disk);
    let count = ready_count(chain, own, known, waiting);
    put_back(known, place, before);
    count
}

/// How many of the first prepares are ready by what is known, up to one that isn't.
fn ready_count(chain: &Chain, own: usize, known: &[Reach], waiting: &Queue) -> usize
    ensures { result ≡ length (take_while (is_ready_by chain.now own (list_map known_of known.now)) waiting.now) }
{
    for count in 0..waiting.len() {
        if !is_ready_at(chain, own, known, waiting, count) {
            return count;
        }
    }
    waiting.len()
}

/// Whether the prepare before which so many stand is ready by what is known; there is none behind the last.
fn is_ready_at(chain: &Chain, own: usize, known: &[Reach], waiting: &Queue, index: usize) -> bool
    ensures { result ≡ is_some (first_ready (is_ready_by chain.now own (list_map known_of known.now)) (drop index waiting.now)) }
{
    match waiting.get(index) {
        Some(prepare) => is_ready(chain, own, known, prepare.level, prepare.position),
        None => false,
    }
}

/// Gives up the prepares of this term whose deadline has come, where the earliest has. Answers a moment before which none of
/// the others is given up.
fn give_up(waiting: &mut Queue, earliest: u64, now: u64, settled: &mut Vec<u64>) -> u64
    requires earliest { NoneBefore earliest waiting.old }
    requires room { vec_len settled.old + length waiting.old ≤ vec_capacity settled.old }
    ensures left { waiting.new ≡ filter (λ w. not (is_due now w)) waiting.old }
    ensures settled { settled.new.items ≡ settled.old.items ++ positions (filter (is_due now) waiting.old) }
    ensures room { vec_capacity settled.new ≡ vec_capacity settled.old }
    ensures earliest { NoneBefore result waiting.new }
{
    if now < earliest {
        return earliest;
    }
    waiting.give_up(now, settled)
}

/// The position of the first prepare, where it is ready by what is known.
fn ready_position(chain: &Chain, own: usize, known: &[Reach], waiting: &Queue) -> Option<u64>
    ensures { result ≡ first_ready (is_ready_by chain.now own (list_map known_of known.now)) waiting.now }
{
    match waiting.first() {
        Some(first) if is_ready(chain, own, known, first.level, first.position) => Some(
            first.position,
        ),
        _ => None,
    }
}
