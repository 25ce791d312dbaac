//! How a vbucket is opened.

ghost use Rattle.std.specs.Prelude.{◌≡◌, ◌⊎◌, ◌<◌, ◌+◌, ◌↔◌, ◌^◌, ℕ, true, false, length, IsErr, IsSome, IsErrOf, IfOk, IfErr, IfSome};
ghost use Rattle.durability_core.specs.Chains.{IsChain};
ghost use Rattle.magma_disk.specs.Moments.{Throughout};
ghost use Rattle.magma_store.specs.Counting.{CountsStore};
ghost use Rattle.magma_store.specs.Held.{Held};
ghost use Rattle.magma_store.specs.Store.{IsOpen, IsOwn};
ghost use Rattle.copy_model.specs.Copies.{Copy};
ghost use Rattle.vb_log.specs.Content as contents;
ghost use Rattle.vb_log.specs.Contents.{IsWhole};
ghost use Rattle.vb_core.specs.Beginning.{TailRead, BeginsWithout, IsRestOf, BeginsIn, PutsFirst, StaysSilent, OpensOn, core_at, vb_begun};
ghost use Rattle.vb_core.specs.Means.{Stands};
ghost use Rattle.vb_core.specs.Openings.{OpensVb, LeavesBeginning, LeavesRefused, begun};

use crate::vbucket::Vb;
use durability_core::Chain;
use kv_edge::{Copied, NoMemory, Seq};
use magma_disk::Disk;
use magma_store::{Meta, Store, StoreFault};
use manifest_rules::{Manifest, StateFault, first, read_state};
use replica_core::{CopyCore, Role};
use std::alloc::Global;
use vb_log::{Content, ContentFault, Pending, empty, length, read_pending};

/// By how much the term of an opening is above the one that was accepted last: a term of the next round has the same place.
const NEXT_ROUND: u64 = 4;

/// What a store holds: all of its log's content but the items, or none and the log begins anew.
#[derive(Drop)]
pub(crate) struct Begun {
    pub(crate) content: Content,
    pub(crate) is_anew: bool,
}

impl<D: Disk> Vb<D> {
    /// Opens the vbucket of this number of a chain's place on a disk. It is active at the term of the next round after the one
    /// that was accepted last, 4 on an empty device, and whole; the term is put on disk as promise and accepted term before
    /// the call returns. Where the store's content isn't whole, the log is begun anew without entries.
    ///
    /// A refusal hands the disk back. The faults are those of `Store::open_store`; besides, `Full` comes where the disk has no
    /// room for the term.
    pub fn open_vb(
        alloc: Global,
        disk: D,
        number: u16,
        chain: &Chain,
        place: u8,
    ) -> (Result<Vb<D>, StoreFault>, Option<D>)
        requires chain { IsChain chain.now }
        requires place { place < length chain.now.names }
        ensures handed_back { IsErr result.0 ↔ IsSome result.1 }
        ensures opens { OpensVb D.states (D.states disk) chain.now place number result.0 }
        ensures any_moment { IfOk result.0 (λ vb. Throughout (LeavesBeginning (D.states disk) chain.now place number) (D.states disk) (D.states vb.store.disk)) }
        ensures any_moment_back { IfErr result.0 (λ why. IfSome result.1 (λ back. Throughout (LeavesRefused why (D.states disk) chain.now place number) (D.states disk) (D.states back))) }
        ensures counts { IfOk result.0 (λ vb. CountsStore (IsErrOf result.0 StoreFault.DiskFault) (D.counts disk) (D.counts vb.store.disk)) }
        ensures counts_back { IfSome result.1 (λ back. CountsStore (IsErrOf result.0 StoreFault.DiskFault) (D.counts disk) (D.counts back)) }
    {
        let (opened, back) = Store::open_store(alloc, disk, chain, place);
        match opened {
            Ok(store) => {
                match back {
                    Some(_disk) => unreachable!(),
                    None => return on_store(alloc, store, number),
                }
            }
            Err(fault) => (Err(fault), back),
        }
    }
}

/// The vbucket on a store that was just opened.
fn on_store<D: Disk>(
    alloc: Global,
    store: Store<D>,
    number: u16,
) -> (Result<Vb<D>, StoreFault>, Option<D>)
    requires numbers { store.meta.accepted + 4 < 2 ^ 64 }
    ensures handed_back { IsErr result.0 ↔ IsSome result.1 }
    ensures opens { (held : Held) → IsOpen D.states held store → OpensOn D.states held store number result.0 result.1 }
    ensures silent { StaysSilent D.states (D.states store.disk) result.0 result.1 }
    ensures counts { IfOk result.0 (λ vb. CountsStore (IsErrOf result.0 StoreFault.DiskFault) (D.counts store.disk) (D.counts vb.store.disk)) }
    ensures counts_back { IfSome result.1 (λ back. CountsStore (IsErrOf result.0 StoreFault.DiskFault) (D.counts store.disk) (D.counts back)) }
{
    match begin(alloc, &store) {
        Ok(log) => with_term(alloc, store, number, log),
        Err(NoMemory) => (Err(StoreFault::NoMemory), Some(store.finish())),
    }
}

/// What the log of a store comes to; it begins anew where no whole content has the store's items. It reads no disk.
fn begin<D: Disk>(alloc: Global, store: &Store<D>) -> Result<Begun, NoMemory>
    ensures begins { (held : Held) → IsOpen D.states held store.now → IfOk result (λ b. BeginsWithout held b.content b.is_anew) }
    ensures whole { IfOk result (λ b. IsWhole b.content) }
{
    let (manifest, prepares) = match read_tail(alloc, store.meta().tail.as_slice())? {
        Some(parts) => parts,
        None => return begin_anew(alloc),
    };
    match store.beside_items(prepares.into_vec(), manifest)? {
        Some(content) => Ok(Begun {
            content,
            is_anew: false,
        }),
        None => begin_anew(alloc),
    }
}

/// A log without entries, beside what is on disk.
fn begin_anew(alloc: Global) -> Result<Begun, NoMemory>
    ensures none { IfOk result (λ b. b.content ≡ contents.no_content) }
    ensures anew { IfOk result (λ b. b.is_anew ≡ true) }
    ensures whole { IfOk result (λ b. IsWhole b.content) }
{
    Ok(Begun {
        content: empty(alloc)?,
        is_anew: true,
    })
}

/// The manifest and the changes that wait of which these are the bytes; of no bytes the first manifest, and nothing waits.
fn read_tail(alloc: Global, tail: &[u8]) -> Result<Option<(Manifest, Seq<Pending>)>, NoMemory>
    ensures { IfOk result (λ t. TailRead tail.now t) }
{
    if tail.is_empty() {
        return Ok(Some((first(alloc)?, Seq::new(alloc))));
    }
    let (manifest, size) = match read_state(alloc, tail) {
        Ok(found) => found,
        Err(StateFault::NoMemory) => return Err(NoMemory),
        Err(StateFault::Bad(_)) => return Ok(None),
    };
    let (_, rest) = tail.split_at(size);
    match read_pending(alloc, rest) {
        Ok((prepares, used)) => {
            if used < rest.len() {
                return Ok(None);
            }
            Ok(Some((manifest, prepares)))
        }
        Err(ContentFault::Bad(_)) => Ok(None),
        Err(ContentFault::NoMemory) => Err(NoMemory),
    }
}

/// The vbucket of a store and its log's content, active at the term of the next round, once that is on disk.
fn with_term<D: Disk>(
    alloc: Global,
    store: Store<D>,
    number: u16,
    log: Begun,
) -> (Result<Vb<D>, StoreFault>, Option<D>)
    requires numbers { store.meta.accepted + 4 < 2 ^ 64 }
    requires whole { IsWhole log.content }
    ensures handed_back { IsErr result.0 ↔ IsSome result.1 }
    ensures puts { (content : contents.Content) (c : Copy contents.Content ℕ) → IsRestOf content log.content
        → BeginsIn D.states store number content log.is_anew c → PutsFirst D.states (D.states store.disk) (begun c) result.0 result.1 }
    ensures silent { StaysSilent D.states (D.states store.disk) result.0 result.1 }
    ensures counts { IfOk result.0 (λ vb. CountsStore (IsErrOf result.0 StoreFault.DiskFault) (D.counts store.disk) (D.counts vb.store.disk)) }
    ensures counts_back { IfSome result.1 (λ back. CountsStore (IsErrOf result.0 StoreFault.DiskFault) (D.counts store.disk) (D.counts back)) }
{
    match core_of(alloc, store.meta(), length(&log.content)) {
        Ok(core) => put_first(in_store(alloc, store, number, core, log)),
        Err(NoMemory) => (Err(StoreFault::NoMemory), Some(store.finish())),
    }
}

/// The vbucket of a store, before its term is on disk.
fn in_store<D: Disk>(
    alloc: Global,
    store: Store<D>,
    number: u16,
    core: CopyCore,
    log: Begun,
) -> Vb<D>
    requires core { core ≡ core_at store.meta log.content.length }
    requires whole { IsWhole log.content }
    ensures { result ≡ vb_begun store number log.is_anew core log.content }
{
    let inherited = core.length;
    let showing = if log.is_anew { 0 } else { store.weight() };
    Vb {
        alloc,
        store,
        core,
        number,
        recent: log.content,
        showing,
        is_anew: log.is_anew,
        seen: 0,
        inherited,
        unflushed_entries: 0,
        unflushed_bytes: 0,
    }
}

/// Puts a vbucket's term on disk.
fn put_first<D: Disk>(vb: Vb<D>) -> (Result<Vb<D>, StoreFault>, Option<D>)
    ensures handed_back { IsErr result.0 ↔ IsSome result.1 }
    ensures puts { (copy : Copy contents.Content ℕ) → Stands D.states vb copy → PutsFirst D.states (D.states vb.store.disk) copy result.0 result.1 }
    ensures silent { StaysSilent D.states (D.states vb.store.disk) result.0 result.1 }
    ensures counts { IfOk result.0 (λ new. CountsStore (IsErrOf result.0 StoreFault.DiskFault) (D.counts vb.store.disk) (D.counts new.store.disk)) }
    ensures counts_back { IfSome result.1 (λ back. CountsStore (IsErrOf result.0 StoreFault.DiskFault) (D.counts vb.store.disk) (D.counts back)) }
{
    let mut vb = vb;
    match vb.put_log() {
        Ok(()) => (Ok(vb), None),
        Err(fault) => (Err(fault), Some(vb.finish())),
    }
}

/// The numbers of an active copy at the term of the next round.
fn core_of(alloc: Global, meta: &Meta, length: u64) -> Result<CopyCore, NoMemory>
    requires { meta.now.accepted + 4 < 2 ^ 64 }
    ensures { IfOk result (λ core. core ≡ core_at meta.now length) }
{
    let term = meta.accepted + NEXT_ROUND;
    Ok(CopyCore {
        chain: meta.chain.copy(alloc)?,
        place: meta.place,
        role: Role::Active,
        promise: term,
        accepted: term,
        length,
        whole: true,
        incarnation: meta.incarnation,
    })
}
