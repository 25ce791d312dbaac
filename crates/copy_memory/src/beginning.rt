//! How the memory of a copy begins.

ghost use Rattle.std.specs.Prelude.{◌≡◌, ◌≤◌, ◌&&◌, ℕ, nat_eq, not, is_some, filter, length, false, IfOk};
ghost use Rattle.copy_model.specs.Copies.{Copy};
ghost use Rattle.durability_core.specs.Chains.{named_places};
ghost use Rattle.replica_core.specs.Terms.{is_active};
ghost use Rattle.vb_log.specs.Content as contents;
ghost use Rattle.copy_memory.specs.Beginning.{Begins};
ghost use Rattle.copy_memory.specs.Remembers.{Remembers};

use crate::memory::Memory;
use crate::tickets::Tickets;
use durability_core::Chain;
use kv_edge::{Bytes, NoMemory};
use replica_core::CopyCore;
use std::alloc::Global;
use std::collections::VecDeque;
use vb_log::Content;

impl Memory {
    /// The memory of a copy that begins in a vbucket with these numbers and what its log comes to. It isn't active, no one waits
    /// for a durable write of it, it has nothing to say, and all of its log counts as on disk. `NoMemory` comes where memory
    /// was refused.
    pub fn new(
        alloc: Global,
        core: CopyCore,
        number: u16,
        content: Content,
    ) -> Result<Memory, NoMemory>
        requires few { length core.chain.names ≤ 256 }
        requires passive { is_active core.role ≡ false }
        requires length { core.length ≡ content.length }
        ensures { IfOk result (λ memory. (c : Copy contents.Content ℕ) → Begins core number content c → Remembers memory c) }
    {
        let others = other_places(alloc, &core.chain, core.place)?;
        Ok(Memory {
            alloc,
            core,
            number,
            content,
            seen: 0,
            inherited: 0,
            tracker: None,
            tickets: Tickets::new(alloc),
            others,
            unspoken: VecDeque::new(alloc),
            unflushed_entries: 0,
            unflushed_bytes: 0,
        })
    }
}

/// The other places of a chain that have a name, in rising order.
fn other_places(alloc: Global, chain: &Chain, own: u8) -> Result<Vec<u8>, NoMemory>
    requires { length chain.now.names ≤ 256 }
    ensures { IfOk result (λ others. others.items ≡ filter (λ place. not (nat_eq place own)) (named_places chain.now)) }
{
    let mut others = Vec::new(alloc);
    for (place, name) in chain.names.as_slice().iter().enumerate() {
        if is_other(name, place, own) {
            others.push(place as u8)?;
        }
    }
    Ok(others)
}

/// Whether a place has a name, and isn't the own one.
fn is_other(name: &Option<Bytes>, place: usize, own: u8) -> bool
    ensures { result ≡ (is_some name.now && not (nat_eq place own)) }
{
    name.is_some() && place != own as usize
}
