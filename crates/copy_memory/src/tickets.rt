//! The tickets that were given out and not answered.

ghost use Rattle.std.specs.Prelude.{◌≡◌, OnOk, OnErr};
ghost use Rattle.std.specs.Option.{option_copied};
ghost use Rattle.std.specs.FinMap as map;
ghost use Rattle.copy_memory.specs.Tickets.{name_cmp, deciding};

use kv_edge::NoMemory;
use std::alloc::Global;
use std::collections::BTreeMap;
use std::marker::Model;

/// What a ticket is known by.
#[derive(Clone, Copy, Debug, PartialEq, Eq, PartialOrd, Ord)]
pub(crate) struct TicketName {
    /// The term in which its Prepare was added.
    pub(crate) term: u64,
    /// The position of that Prepare.
    pub(crate) prepare: u64,
}

/// What has become of a Prepare for which a client waits.
#[derive(Clone, Copy, Debug, PartialEq, Eq)]
pub(crate) enum KeptFate {
    /// Nothing yet; a copy that isn't active at its term any more has left it.
    Waiting,
    /// Its Commit stands at a position.
    Stood(u64),
    /// It was aborted.
    Aborted,
}

/// The open tickets of a copy, by their names. A look-up costs the logarithm of their number. Contracts see the finite map.
#[derive(Drop)]
pub(crate) struct Tickets {
    by_name: BTreeMap<TicketName, KeptFate>,
}

impl Model for Tickets {
    ghost use Rattle.std.specs.FinMap as map;
    ghost use Rattle.std.specs.List.Sorted.{IsStrictlySortedBy};
    ghost use Rattle.std.specs.Map.{keys_of};
    ghost use Rattle.copy_memory.specs.declared.tickets.KeptFate.{KeptFate};
    ghost use Rattle.copy_memory.specs.contracts.tickets.KeptFate as fate_rows;
    ghost use Rattle.copy_memory.specs.Tickets.{name_cmp, coded_name};

    ghost Value = { map.FinMap name_cmp KeptFate };

    ghost coded = { map.code coded_name fate_rows.the_row.coded };

    ghost view = { λ t. map.from_entries t.by_name.entries };

    ghost invariant = { λ t. IsStrictlySortedBy name_cmp (keys_of t.by_name.entries) };
}

impl Tickets {
    /// No tickets. It takes no memory.
    pub(crate) fn new(alloc: Global) -> Tickets
        ensures { result ≡ map.empty }
    {
        Tickets {
            by_name: BTreeMap::new(alloc),
        }
    }

    /// What is kept of a ticket, where it is open.
    pub(crate) fn fate(&self, name: &TicketName) -> Option<KeptFate>
        ensures { result ≡ map.get self.now name.now }
    {
        self.by_name.get(name).copied()
    }

    /// Gives out a ticket. At `Err` all is as before.
    pub(crate) fn open(&mut self, name: TicketName) -> Result<(), NoMemory>
        ensures ok { OnOk result (self.new ≡ map.insert self.old name KeptFate.Waiting) }
        ensures err { OnErr result (self.new ≡ self.old) }
    {
        self.by_name.insert(name, KeptFate::Waiting)?;
        Ok(())
    }

    /// Decides of a ticket that is open and waits; any other stays as it is. It takes no memory.
    pub(crate) fn decide(&mut self, name: &TicketName, fate: KeptFate)
        ensures { self.new ≡ deciding name.now fate self.old }
    {
        if let Some(kept) = self.by_name.get_mut(name) {
            if *kept == KeptFate::Waiting {
                *kept = fate;
            }
        }
    }

    /// Takes a ticket back, where it is open. It takes no memory.
    pub(crate) fn close(&mut self, name: &TicketName)
        ensures { self.new ≡ map.remove self.old name.now }
    {
        self.by_name.remove(name);
    }
}
