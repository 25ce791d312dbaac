ghost use Rattle.std.specs.Prelude.{◌≡◌, ℕ, List, option_map, IsTrue};
ghost use Rattle.copy_model.specs.Copies.{Copy};
ghost use Rattle.magma_disk.specs.Calls.{MayLeave};
ghost use Rattle.magma_disk.specs.Counting.{CountsPlan};
ghost use Rattle.magma_disk.specs.Plan.{planned};
ghost use Rattle.manifest_rules.specs.State.{is_kept};
ghost use Rattle.vb_core.specs.Means.{Lives, IsCopy};
ghost use Rattle.vb_core.specs.Openings.{IsAllOnDisk, HoldsSound};
ghost use Rattle.vb_core.specs.Pairs.{HoldsOf};
ghost use Rattle.vb_log.specs.Content as contents;

use magma_disk::Disk;
use magma_store::Store;
use manifest_rules::Manifest;
use replica_core::CopyCore;
use std::alloc::Global;
use std::marker::Model;
use vb_log::{Content, manifest};

/// A vbucket on a disk. Of the items on disk it keeps how much they count, and reads one when it is asked for.
///
/// Contracts see the parts of it, and say which copy these are (`specs/Means.antt`).
#[derive(Drop)]
pub struct Vb<D: Disk> {
    pub(crate) alloc: Global,
    pub(crate) store: Store<D>,
    pub(crate) core: CopyCore,
    /// Which vbucket it is.
    pub(crate) number: u16,
    /// What the log comes to, but of the items only those that aren't on disk.
    pub(crate) recent: Content,
    /// How much the items on disk count together that still show: none where the log was begun anew, else those of keys that
    /// weren't changed since, in collections that weren't dropped.
    pub(crate) showing: u64,
    /// Whether the log was begun anew, and nothing of what is on disk counts.
    pub(crate) is_anew: bool,
    /// The greatest moment seen, in milliseconds since 1970, at most `LAST_MOMENT`.
    pub(crate) seen: u64,
    /// Up to which position prepares are inherited.
    pub(crate) inherited: u64,
    /// How many entries were added since the log was last put on disk, and the bytes of their spellings.
    pub(crate) unflushed_entries: u64,
    pub(crate) unflushed_bytes: u64,
}

impl<D: Disk> Model for Vb<D> {
    ghost use Rattle.doc_model.specs.Keys.{coded_key};
    ghost use Rattle.magma_store.specs.contracts.spot.Spot as spot_rows;
    ghost use Rattle.magma_store.specs.contracts.meta.Meta as meta_rows;
    ghost use Rattle.magma_store.specs.Store.{coded_store};
    ghost use Rattle.replica_core.specs.contracts.copy.CopyCore as core_rows;
    ghost use Rattle.vb_log.specs.contracts.content.Content as content_rows;
    ghost use Rattle.vb_core.specs.Shown.{ShownVb, coded_vb, IsFit};

    ghost Value = { ShownVb D };

    ghost coded = { coded_vb (coded_store D.code spot_rows.the_row.coded coded_key meta_rows.the_row.coded) core_rows.the_row.coded content_rows.the_row.coded };

    ghost view = { λ vb. record { store = vb.store; core = vb.core; number = vb.number; recent = vb.recent; showing = vb.showing; is_anew = vb.is_anew; seen = vb.seen; inherited = vb.inherited; unflushed_entries = vb.unflushed_entries; unflushed_bytes = vb.unflushed_bytes } };

    ghost invariant = { λ vb. IsFit vb.store.meta vb.core vb.recent vb.seen };
}

impl<D: Disk> Vb<D> {
    /// The numbers of its copy.
    pub fn copy_state(&self) -> &CopyCore
        ensures { result.now ≡ self.now.core }
    {
        &self.core
    }

    /// The manifest, whatever the copy's role.
    pub fn manifest(&self) -> &Manifest
        ensures value { result.now ≡ self.now.recent.manifest }
        ensures kept { IsTrue (is_kept result.now) }
    {
        manifest(&self.recent)
    }

    /// Plans a fault of the disk, as `Disk::plan_fault` does.
    pub fn plan_fault(&mut self, after: u64, lasting: bool)
        ensures stays { self.new ≡ record self.old { store = record self.old.store { disk = self.new.store.disk } } }
        ensures states { D.states self.new.store.disk ≡ D.states self.old.store.disk }
        ensures plan { D.plan self.new.store.disk ≡ option_map (planned after lasting) (D.plan self.old.store.disk) }
        ensures counts { CountsPlan (D.counts self.old.store.disk) (D.counts self.new.store.disk) }
    {
        self.store.plan_fault(after, lasting);
    }

    /// The disk. A crash leaves on it a pair that the vbucket's copy may hold; where its log is all there, one on which a copy
    /// begins with that log.
    pub fn finish(self) -> D
        ensures disk { result ≡ self.store.disk }
        ensures leaves { (copy : Copy contents.Content ℕ) → IsCopy D.states self copy → (image : List ℕ) →
            MayLeave (D.states result) image → HoldsOf copy image }
        ensures sound { (copy : Copy contents.Content ℕ) → Lives D.states self copy → IsAllOnDisk copy → (image : List ℕ) →
            MayLeave (D.states result) image → HoldsSound copy image }
    {
        let Vb { store, .. } = self;
        store.finish()
    }
}
