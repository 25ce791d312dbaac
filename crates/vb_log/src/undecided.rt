//! The changes that wait.

ghost use Rattle.std.specs.Prelude.{◌≡◌, ◌<◌, ◌+◌, ◌^◌, ◌++◌, ◌∷◌, [], nat_eq, nat_lt, is_some, position, length, IsTrue, IfOk, OnOk, OnErr};
ghost use Rattle.std.specs.List.{list_all, list_any};
ghost use Rattle.std.specs.Option.{option_copied};
ghost use Rattle.std.specs.Ordering.{eq_by_cmp};
ghost use Rattle.doc_model.specs.Keys.{key_cmp};
ghost use Rattle.vb_log.specs.declared.entry.Pending.{Pending};
ghost use Rattle.vb_log.specs.Content.{prepare_at, prepare_of, other_than};
ghost use Rattle.vb_log.specs.Held.{pending_weight, pending_size, waiting_size, positions_rise};
ghost use Rattle.vb_log.specs.Settling.{CanBeMade, AreMade};

use crate::entry::Pending;
use crate::items::Items;
use crate::settling::make_each;
use crate::sizes::{size_of, waiting_size};
use doc_model::DocKey;
use kv_edge::{Copied, NoMemory};
use manifest_rules::Manifest;
use std::alloc::Global;
use std::collections::VecDeque;
use std::marker::Model;
use std::mem;

/// Changes that wait, in rising order of their positions, and what they count together. Contracts see the list of them.
#[derive(Drop)]
pub(crate) struct Undecided {
    changes: Vec<Pending>,
    size: u64,
}

impl Model for Undecided {
    ghost use Rattle.std.specs.Prelude.{◌≡◌, List, IsTrue};
    ghost use Rattle.std.specs.Coded.{coded_list};
    ghost use Rattle.vb_log.specs.declared.entry.Pending.{Pending};
    ghost use Rattle.vb_log.specs.contracts.entry.Pending as pending_rows;
    ghost use Rattle.vb_log.specs.Held.{waiting_size, positions_rise};

    ghost Value = { List Pending };

    ghost coded = { coded_list pending_rows.the_row.coded };

    ghost view = { λ w. w.changes.items };

    ghost invariant = { λ w. (w.size ≡ waiting_size w.changes.items) × IsTrue (positions_rise w.changes.items) };
}

impl Undecided {
    /// No changes. It takes no memory.
    pub(crate) fn new(alloc: Global) -> Undecided
        ensures { result ≡ [] }
    {
        Undecided {
            changes: Vec::new(alloc),
            size: 0,
        }
    }

    /// Changes whose positions rise.
    pub(crate) fn from_vec(changes: Vec<Pending>) -> Undecided
        requires rise { IsTrue (positions_rise changes.items) }
        requires room { waiting_size changes.items < 2 ^ 64 }
        ensures { result ≡ changes.items }
    {
        let size = waiting_size(changes.as_slice());
        Undecided { changes, size }
    }

    /// The changes, in rising order of their positions.
    pub(crate) fn as_slice(&self) -> &[Pending]
        ensures value { result.now ≡ self.now }
        ensures rise { IsTrue (positions_rise self.now) }
    {
        let _size = self.size;
        self.changes.as_slice()
    }

    /// What they count together.
    pub(crate) fn size(&self) -> u64
        ensures { result ≡ waiting_size self.now }
    {
        self.size
    }

    /// Whether a change of a key waits.
    pub(crate) fn has(&self, key: &DocKey) -> bool
        ensures { result ≡ is_some (prepare_of self.now key.now) }
    {
        has_key(self.changes.as_slice(), key)
    }

    /// The change that was prepared at a position.
    pub(crate) fn find(&self, of: u64) -> Option<&Pending>
        ensures value { option_copied result ≡ prepare_at self.now of }
        ensures rise { IsTrue (positions_rise self.now) }
    {
        match place_of(self.changes.as_slice(), of) {
            Some(place) => Some(&self.changes[place]),
            None => None,
        }
    }

    /// What the change counts that was prepared at a position, where there is one.
    pub(crate) fn size_at(&self, of: u64) -> u64
        ensures value { result ≡ pending_size (prepare_at self.now of) }
        ensures others { waiting_size (other_than of self.now) + result ≡ waiting_size self.now }
    {
        let _size = self.size;
        match self.find(of) {
            Some(change) => size_of(&change.key, &change.what),
            None => 0,
        }
    }

    /// Adds a change that was prepared behind all others. At `Err` all is as before, and the change is dropped.
    pub(crate) fn push(&mut self, change: Pending) -> Result<(), NoMemory>
        requires behind { IsTrue (list_all (λ p. nat_lt p.position change.position) self.old) }
        requires room { waiting_size self.old + pending_weight change < 2 ^ 64 }
        ensures ok { OnOk result (self.new ≡ self.old ++ change ∷ []) }
        ensures err { OnErr result (self.new ≡ self.old) }
    {
        let added = size_of(&change.key, &change.what);
        self.changes.push(change)?;
        self.size += added;
        Ok(())
    }

    /// Takes away the change that was prepared at a position, and answers it. It takes no memory.
    pub(crate) fn take(&mut self, of: u64) -> Option<Pending>
        ensures before { result ≡ prepare_at self.old of }
        ensures after { self.new ≡ other_than of self.old }
    {
        match place_of(self.changes.as_slice(), of) {
            Some(place) => {
                let change = self.changes.remove(place);
                self.size -= size_of(&change.key, &change.what);
                Some(change)
            }
            None => None,
        }
    }

    /// Makes the first changes, which have these keys, in their order, by the entries behind a position; what is left moves
    /// up once. It takes no memory.
    pub(crate) fn make_first(
        &mut self,
        alloc: Global,
        keys: &[DocKey],
        items: &mut Items,
        manifest: &Manifest,
        position: u64,
    )
        requires { CanBeMade manifest.now items.old self.old keys.now position }
        ensures { AreMade (length keys.now) manifest.now position items.old self.old items.new self.new }
    {
        let changes = mem::replace(&mut self.changes, Vec::new(alloc));
        let mut waiting = VecDeque::from_vec(changes);
        let counted = make_each(&mut waiting, keys, items, manifest, position);
        self.changes = waiting.into_vec();
        self.size -= counted;
    }

    /// The same changes.
    pub(crate) fn copy(&self, alloc: Global) -> Result<Undecided, NoMemory>
        ensures { IfOk result (λ copied. copied ≡ self.now) }
    {
        let changes = copy_all(alloc, self.changes.as_slice())?;
        Ok(Undecided {
            changes,
            size: self.size,
        })
    }
}

/// Whether one of some changes is of a key.
fn has_key(changes: &[Pending], key: &DocKey) -> bool
    ensures { result ≡ list_any (λ p. eq_by_cmp key_cmp p.key key.now) changes.now }
{
    for change in changes {
        if change.key == *key {
            return true;
        }
    }
    false
}

/// The place of the first change that was prepared at a position.
fn place_of(changes: &[Pending], of: u64) -> Option<usize>
    ensures { result ≡ position (λ p. nat_eq p.position of) changes.now }
{
    changes.iter().position(|change| change.position == of)
}

/// The same changes.
fn copy_all(alloc: Global, changes: &[Pending]) -> Result<Vec<Pending>, NoMemory>
    ensures { IfOk result (λ copied. copied.items ≡ changes.now) }
{
    let mut copied = Vec::with_capacity(alloc, changes.len())?;
    for change in changes {
        copied.push(change.copy(alloc)?)?;
    }
    Ok(copied)
}
