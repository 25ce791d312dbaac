//! How the log is put on disk.

ghost use Rattle.std.specs.Prelude.{◌≡◌, ◌↔◌, ◌<◌, ◌^◌, ℕ, false, [], length, IsTrue, IfOk, IfErr, OnOk, IsErrOf};
ghost use Rattle.std.specs.FinMap as map;
ghost use Rattle.copy_model.specs.Copies.{Copy};
ghost use Rattle.copy_model.specs.Events.{flushes};
ghost use Rattle.manifest_rules.specs.State.{is_kept};
ghost use Rattle.replica_core.specs.declared.copy.Role.TheVariants as roles;
ghost use Rattle.magma_store.specs.Changes.{AreNumbers};
ghost use Rattle.magma_store.specs.Counting.{CountsStore};
ghost use Rattle.magma_store.specs.Held.{numbers_of};
ghost use Rattle.vb_log.specs.Content as contents;
ghost use Rattle.vb_log.specs.Logs.{folds};
ghost use Rattle.vb_core.specs.Coming.{Comes, Rests, IsFlushFault};
ghost use Rattle.vb_core.specs.Flat.{flat, tail_of};
ghost use Rattle.vb_core.specs.Means.{IsCopy, Stands};
ghost use Rattle.vb_core.specs.Noting.{stopped_at, PutsDown, fault_told};
ghost use Rattle.vb_core.specs.Putting.{IsMetaOf, Puts, IsPutFault};
ghost use Rattle.vb_core.specs.Shown.{AreStorable};

use crate::vbucket::Vb;
use copy_model::VbFault;
use kv_edge::{Bytes, Copied, NoMemory};
use magma_disk::Disk;
use magma_store::{Meta, Store, StoreFault};
use manifest_rules::state_into;
use replica_core::Role;
use std::alloc::Global;
use vb_log::{
    Content, by_position, emptied, greatest_cas, length, manifest, pending_into, prepares,
};

/// How many bytes the tail of what is put on disk has at most.
const TAIL_LIMIT: usize = (1 << 32) - 1;

/// How many items are put on disk at once at most.
const ITEM_LIMIT: usize = (1 << 32) - 1;

impl<D: Disk> Vb<D> {
    /// Puts the accepted term and the whole log on disk, and answers how many entries are there. After that the values
    /// aren't kept in memory. It takes two writes and two syncs, whatever the number of entries.
    ///
    /// `Dead` comes exactly where the copy is dead, `Full` where more segments are needed than are free, `NoMemory` where
    /// memory is refused; then all is as before. At `DiskFault`, which comes only where the disk's count of faults rose, the
    /// copy is dead.
    pub fn flush(&mut self) -> Result<u64, VbFault>
        ensures flushes { (copy : Copy contents.Content ℕ) → IsCopy D.states self.old copy
            → Comes D.states D.counts copy (λ luck. flushes folds (flat copy.chain) luck copy) self.old self.new result }
        ensures why { IfErr result IsFlushFault }
        ensures dead { (result ≡ Err VbFault.Dead) ↔ (self.old.core.role ≡ roles.Dead) }
        ensures counts { CountsStore (IsErrOf result VbFault.DiskFault) (D.counts self.old.store.disk) (D.counts self.new.store.disk) }
    {
        if self.core.role == Role::Dead {
            return Err(VbFault::Dead);
        }
        match self.put_log() {
            Ok(()) => Ok(self.core.length),
            Err(fault) => Err(vb_fault(fault)),
        }
    }

    /// Puts the accepted term and the log on disk. At `DiskFault` the copy is dead, at any other fault all is as before: all
    /// memory is taken before anything is written.
    pub(crate) fn put_log(&mut self) -> Result<(), StoreFault>
        ensures puts { (copy : Copy contents.Content ℕ) → Stands D.states self.old copy → Puts D.states D.counts copy self.old self.new result }
        ensures recent { OnOk result (self.new.recent ≡ record self.old.recent { items = map.empty }) }
        ensures anew { OnOk result (self.new.is_anew ≡ false) }
        ensures why { IfErr result IsPutFault }
        ensures silent { D.states self.old.store.disk ≡ [] → D.states self.new.store.disk ≡ [] }
        ensures stays { result ≡ Err StoreFault.NoMemory → Rests D.states self.old self.new }
        ensures counts { CountsStore (IsErrOf result StoreFault.DiskFault) (D.counts self.old.store.disk) (D.counts self.new.store.disk) }
    {
        let left = emptied(self.alloc, &self.recent)?;
        let meta = self.meta_now()?;
        let written = put(
            self.alloc,
            &mut self.store,
            &self.recent,
            self.is_anew,
            meta,
        );
        match written {
            Ok(()) => {
                self.recent = left;
                self.showing = self.store.weight();
                self.is_anew = false;
                self.unflushed_entries = 0;
                self.unflushed_bytes = 0;
                Ok(())
            }
            Err(fault) => {
                self.stop_at(&fault);
                Err(fault)
            }
        }
    }

    /// The copy is dead where its disk failed.
    fn stop_at(&mut self, fault: &StoreFault)
        ensures { self.new ≡ stopped_at fault.now self.old }
    {
        if let StoreFault::DiskFault = fault {
            self.core.role = Role::Dead;
        }
    }

    /// What is put on disk beside the items.
    fn meta_now(&self) -> Result<Meta, NoMemory>
        ensures meta { IfOk result (IsMetaOf self.now.core self.now.recent) }
        ensures kept { IsTrue (is_kept self.now.recent.manifest) }
    {
        let mut tail = Vec::new(self.alloc);
        state_into(manifest(&self.recent), &mut tail)?;
        pending_into(prepares(&self.recent), &mut tail)?;
        if tail.len() > TAIL_LIMIT {
            return Err(NoMemory);
        }
        Ok(Meta {
            chain: self.core.chain.copy(self.alloc)?,
            place: self.core.place,
            promise: self.core.promise,
            accepted: self.core.accepted,
            incarnation: self.core.incarnation,
            length: length(&self.recent),
            cas: greatest_cas(&self.recent),
            tail: Bytes::from_vec(tail),
        })
    }
}

/// Puts the items in memory on disk, in rising order of their positions.
fn put<D: Disk>(
    alloc: Global,
    store: &mut Store<D>,
    recent: &Content,
    is_anew: bool,
    meta: Meta,
) -> Result<(), StoreFault>
    requires own { (meta.chain ≡ store.old.meta.chain) × (meta.place ≡ store.old.meta.place) }
    requires kept { IsTrue (is_kept recent.now.manifest) }
    requires tail { meta.tail ≡ tail_of recent.now }
    requires short { length meta.tail < 2 ^ 32 }
    requires numbers { AreNumbers (numbers_of meta) }
    requires items { AreStorable recent.now.items }
    ensures puts { PutsDown D.states is_anew recent.now meta store.old store.new result }
    ensures meta { OnOk result (store.new.meta ≡ meta) }
    ensures own { (store.new.meta.chain ≡ store.old.meta.chain) × (store.new.meta.place ≡ store.old.meta.place) }
    ensures silent { D.states store.old.disk ≡ [] → D.states store.new.disk ≡ [] }
    ensures counts { CountsStore (IsErrOf result StoreFault.DiskFault) (D.counts store.old.disk) (D.counts store.new.disk) }
{
    let items = by_position(alloc, recent)?;
    if items.len() > ITEM_LIMIT {
        return Err(StoreFault::NoMemory);
    }
    store.write(is_anew, items.as_slice(), meta)
}

/// The fault of a vbucket whose store has one.
fn vb_fault(fault: StoreFault) -> VbFault
    ensures told { result ≡ fault_told fault }
    ensures why { IsFlushFault result }
{
    match fault {
        StoreFault::DiskFault => VbFault::DiskFault,
        StoreFault::Full { needed, free } => VbFault::Full { needed, free },
        _ => VbFault::NoMemory,
    }
}
