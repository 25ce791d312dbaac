//! The prepares that wait, in their order.

ghost use Rattle.std.specs.Prelude.{◌≡◌, ◌++◌, ◌∷◌, [], ◌+◌, ◌≤◌, not, filter, length, slice_get, drop, vec_len, vec_capacity, false, OnOk, OnErr};
ghost use Rattle.std.specs.Option.{option_copied};
ghost use Rattle.durability_core.specs.Tracking as tracking;
ghost use Rattle.durability_core.specs.Kept.{NoneBefore};

use crate::sweeping::sweep;
use crate::waiting::Waiting;
use doc_model::{DocKey, KeyMap};
use kv_edge::NoMemory;
use std::alloc::Global;
use std::collections::VecDeque;
use std::marker::Model;

/// Prepares in the order in which they came, each of another key. Contracts see the list of them.
#[derive(Drop)]
pub(crate) struct Queue {
    alloc: Global,
    prepares: VecDeque<Waiting>,
    /// Of each key of which a prepare waits, whether it was inherited.
    keys: KeyMap<bool>,
}

impl Model for Queue {
    ghost use Rattle.std.specs.Prelude.{List};
    ghost use Rattle.std.specs.Coded.{coded_list};
    ghost use Rattle.durability_core.specs.declared.waiting.Waiting.{Waiting};
    ghost use Rattle.durability_core.specs.contracts.waiting.Waiting as waiting_rows;
    ghost use Rattle.durability_core.specs.Kept.{IsQueue};

    ghost Value = { List Waiting };

    ghost coded = { coded_list waiting_rows.the_row.coded };

    ghost view = { λ q. q.prepares.items };

    ghost invariant = { λ q. IsQueue q.keys q.prepares.items };
}

impl Queue {
    /// No prepares. It takes no memory.
    pub(crate) fn new(alloc: Global) -> Queue
        ensures { result ≡ [] }
    {
        Queue {
            alloc,
            prepares: VecDeque::new(alloc),
            keys: KeyMap::new(alloc),
        }
    }

    /// How many prepares wait.
    pub(crate) fn len(&self) -> usize
        ensures { result ≡ length self.now }
    {
        self.prepares.len()
    }

    /// Whether the prepare of a key was inherited, where one waits.
    pub(crate) fn inherited_of(&self, key: &DocKey) -> Option<bool>
        ensures { result ≡ tracking.inherited_of self.now key.now }
    {
        self.keys.get(key).copied()
    }

    /// The first prepare.
    pub(crate) fn first(&self) -> Option<&Waiting>
        ensures { option_copied result ≡ slice_get self.now 0 }
    {
        self.prepares.front()
    }

    /// The prepare before which so many stand.
    pub(crate) fn get(&self, index: usize) -> Option<&Waiting>
        ensures { option_copied result ≡ slice_get self.now index }
    {
        self.prepares.get(index)
    }

    /// Adds a prepare at the end. At `Err` all is as before, and the prepare is dropped.
    pub(crate) fn push(&mut self, prepare: Waiting) -> Result<(), NoMemory>
        requires { tracking.has_waiting self.old prepare.key ≡ false }
        ensures ok { OnOk result (self.new ≡ self.old ++ prepare ∷ []) }
        ensures err { OnErr result (self.new ≡ self.old) }
    {
        self.prepares.reserve(1)?;
        self.keys
            .insert(self.alloc, &prepare.key, is_inherited(&prepare))?;
        self.prepares.push_back_reserved(prepare);
        Ok(())
    }

    /// Takes out the first prepare. It takes no memory.
    pub(crate) fn take_first(&mut self)
        ensures { self.new ≡ drop 1 self.old }
    {
        if let Some(first) = self.prepares.pop_front() {
            self.keys.remove(&first.key);
        }
    }

    /// Takes out the prepares that are given up at a moment, and adds their positions to what is settled. Answers a moment
    /// before which none of the others is given up. It takes no memory.
    pub(crate) fn give_up(&mut self, now: u64, settled: &mut Vec<u64>) -> u64
        requires { vec_len settled.old + length self.old ≤ vec_capacity settled.old }
        ensures left { self.new ≡ filter (λ w. not (tracking.is_due now w)) self.old }
        ensures settled { settled.new.items ≡ settled.old.items ++ tracking.positions (filter (tracking.is_due now) self.old) }
        ensures room { vec_capacity settled.new ≡ vec_capacity settled.old }
        ensures earliest { NoneBefore result self.new }
    {
        sweep(&mut self.prepares, &mut self.keys, now, settled)
    }
}

/// Whether a prepare was inherited.
fn is_inherited(prepare: &Waiting) -> bool
    ensures { result ≡ tracking.is_inherited prepare.now }
{
    prepare.deadline.is_none()
}
