//! How an entry is added.

ghost use Rattle.std.specs.Prelude.{◌≡◌, ◌<◌, ◌+◌, ◌^◌, ◌||◌, ℕ, nat_le, nat_lt, true, IsTrue, IfOk, OnOk, OnErr};
ghost use Rattle.std.specs.Option.{option_copied};
ghost use Rattle.std.specs.FinMap as map;
ghost use Rattle.std.specs.List.{sum_by};
ghost use Rattle.doc_model.specs.Keys.{is_in};
ghost use Rattle.copy_model.specs.Copies.{Copy};
ghost use Rattle.magma_store.specs.Counting.{CountsStore};
ghost use Rattle.magma_store.specs.Spots.{size_at, spots_size};
ghost use Rattle.manifest_rules.specs.State.{are_rising};
ghost use Rattle.vb_log.specs.declared.limits.TheConstants.{GREATEST_POSITION};
ghost use Rattle.vb_log.specs.Content as contents;
ghost use Rattle.vb_log.specs.Content.{allowed, with_entry};
ghost use Rattle.vb_log.specs.Sizes.{size_after};
ghost use Rattle.vb_log.specs.Spelling.{IsAllowed};
ghost use Rattle.vb_core.specs.Coming.{Rests};
ghost use Rattle.vb_core.specs.Covering.{size_among, size_within, covered_size, counted, grown, CanCount, IsFlushedFirst};
ghost use Rattle.vb_core.specs.Making.{Covers, Makes};
ghost use Rattle.vb_core.specs.Means.{Lives, Stands, uncovered};

use crate::vbucket::Vb;
use copy_model::{CAS_LIMIT, REQUEST_LIMIT, UNFLUSHED_BYTES, UNFLUSHED_ENTRIES};
use doc_model::{DocKey, Item, Status};
use kv_edge::NoMemory;
use magma_disk::Disk;
use magma_store::{Store, StoreFault};
use std::alloc::Global;
use vb_log::{
    AddFault, CONTENT_LIMIT, Content, Entry, SUM_LIMIT, add, by_position, emptied, item, length,
    prepares, size, size_after, spelt_length,
};

/// What came of a change.
#[derive(Clone, Copy)]
pub(crate) enum Made {
    /// It was made.
    Done,
    /// It was refused with this status.
    Refused(Status),
}

impl<D: Disk> Vb<D> {
    /// What the whole log counts once an entry is added that takes the place of the item of a key, or of those of collections
    /// whose ids rise.
    pub(crate) fn size_with(
        &self,
        entry: &Entry,
        key: Option<&DocKey>,
        dropped: &[u32],
    ) -> Result<u64, NoMemory>
        requires entry { IsAllowed entry.now }
        requires allowed { allowed self.now.recent entry.now ≡ true }
        requires covers { Covers self.now.recent.manifest entry.now (option_copied key) dropped.now }
        requires rising { IsTrue (are_rising dropped.now) }
        ensures { (copy : Copy contents.Content ℕ) → Stands D.states self.now copy
            → IfOk result (λ n. n ≡ size_after copy.log entry.now) }
    {
        if size(&self.recent) > CONTENT_LIMIT {
            return Err(NoMemory);
        }
        let covered = self.covered(key, dropped)?;
        let recent = size_after(self.alloc, &self.recent, entry)?;
        match recent.checked_add(self.showing.saturating_sub(covered)) {
            Some(size) => Ok(size),
            None => Err(NoMemory),
        }
    }

    /// Adds an entry, for which a CAS was drawn and with which the log counts so much, and that takes the place of the item of
    /// a key, or of those of collections whose ids rise. Where much isn't on disk yet, the log is put there first.
    ///
    /// `E2BIG` comes exactly where the log is too long, the CAS too great, or the content would be too large; `EBUSY` where the
    /// disk has no room; `ETMPFAIL` where it failed, and the copy is dead. At `Err` all is as before: all memory is taken
    /// before anything changes.
    pub(crate) fn make(
        &mut self,
        cas: u64,
        size: u64,
        entry: Entry,
        key: Option<&DocKey>,
        dropped: &[u32],
    ) -> Result<Made, NoMemory>
        requires entry { IsAllowed entry }
        requires allowed { allowed self.old.recent entry ≡ true }
        requires covers { Covers self.old.recent.manifest entry (option_copied key) dropped.now }
        requires rising { IsTrue (are_rising dropped.now) }
        ensures made { (copy : Copy contents.Content ℕ) → Lives D.states self.old copy → size ≡ size_after copy.log entry
            → IfOk result (Makes D.states D.counts copy cas entry self.old self.new) }
        ensures stays { OnErr result (Rests D.states self.old self.new) }
        ensures counts { CountsStore ⊥ (D.counts self.old.store.disk) (D.counts self.new.store.disk) }
    {
        if is_too_much(length(&self.recent), cas, size) {
            return Ok(Made::Refused(Status::E2BIG));
        }
        if must_flush(self.unflushed_entries, self.unflushed_bytes) {
            return self.put_and_make(entry, key, dropped);
        }
        self.add_now(entry, key, dropped)?;
        Ok(Made::Done)
    }

    /// Adds an entry where one more can be counted. At `Err` all is as before.
    fn add_now(
        &mut self,
        entry: Entry,
        key: Option<&DocKey>,
        dropped: &[u32],
    ) -> Result<(), NoMemory>
        requires entry { IsAllowed entry }
        requires allowed { allowed self.old.recent entry ≡ true }
        requires covers { Covers self.old.recent.manifest entry (option_copied key) dropped.now }
        requires rising { IsTrue (are_rising dropped.now) }
        requires count { CanCount self.old }
        ensures ok { OnOk result (self.new ≡ grown entry (option_copied key.entry) dropped.now self.old) }
        ensures err { OnErr result (self.new ≡ self.old) }
    {
        let bytes = spelt_length(&entry);
        let covered = self.covered(key, dropped)?;
        add_within(self.alloc, &mut self.recent, entry)?;
        self.core.length = length(&self.recent);
        self.showing = self.showing.saturating_sub(covered);
        self.count(bytes);
        Ok(())
    }

    /// Puts the log on disk and then adds an entry. It is refused by `EBUSY` where the disk has no room, and by `ETMPFAIL` where
    /// it failed, and the copy is dead. At `Err` all is as before: all memory is taken before anything is written.
    fn put_and_make(
        &mut self,
        entry: Entry,
        key: Option<&DocKey>,
        dropped: &[u32],
    ) -> Result<Made, NoMemory>
        requires entry { IsAllowed entry }
        requires allowed { allowed self.old.recent entry ≡ true }
        requires covers { Covers self.old.recent.manifest entry (option_copied key) dropped.now }
        requires rising { IsTrue (are_rising dropped.now) }
        ensures made { (copy : Copy contents.Content ℕ) (cas : ℕ) → Lives D.states self.old copy → IsFlushedFirst copy cas entry
            → IfOk result (Makes D.states D.counts copy cas entry self.old self.new) }
        ensures stays { OnErr result (Rests D.states self.old self.new) }
        ensures counts { CountsStore ⊥ (D.counts self.old.store.disk) (D.counts self.new.store.disk) }
    {
        let bytes = spelt_length(&entry);
        let mut next = emptied(self.alloc, &self.recent)?;
        add_within(self.alloc, &mut next, entry)?;
        match self.put_log() {
            Ok(()) => {}
            Err(StoreFault::Full { .. }) => return Ok(Made::Refused(Status::EBUSY)),
            Err(StoreFault::DiskFault) => return Ok(Made::Refused(Status::ETMPFAIL)),
            Err(_) => return Err(NoMemory),
        }
        let covered = self.on_disk(key, dropped);
        self.recent = next;
        self.core.length = length(&self.recent);
        self.showing = self.showing.saturating_sub(covered);
        self.count(bytes);
        Ok(Made::Done)
    }

    /// What shows on disk of the item of a key, or of those of collections whose ids rise.
    fn covered(&self, key: Option<&DocKey>, dropped: &[u32]) -> Result<u64, NoMemory>
        requires { IsTrue (are_rising dropped.now) }
        ensures { IfOk result (λ n. n ≡ covered_size self.now (option_copied key.entry) dropped.now) }
    {
        if self.is_anew {
            return Ok(0);
        }
        match key {
            Some(key) => Ok(self.covered_at(key)),
            None => self.covered_in(dropped),
        }
    }

    /// What the item of a key counts on disk, unless the key was changed of late.
    fn covered_at(&self, key: &DocKey) -> u64
        ensures { result ≡ size_at (map.get (uncovered self.now.recent.items self.now.store.spots) key.now) }
    {
        if item(&self.recent, key).is_some() {
            return 0;
        }
        self.store.weight_at(key)
    }

    /// What the items of collections, whose ids rise, count on disk of keys that weren't changed of late. It costs a sort of the
    /// items in memory, and a step for each item on disk of these collections.
    fn covered_in(&self, dropped: &[u32]) -> Result<u64, NoMemory>
        requires { IsTrue (are_rising dropped.now) }
        ensures { IfOk result (λ n. n
            ≡ spots_size (map.retain_keys (uncovered self.now.recent.items self.now.store.spots) (is_in dropped.now))) }
    {
        let changed = self.changed_in(dropped)?;
        Ok(self.store.weight_in(dropped) - changed)
    }

    /// What the items of collections count on disk of keys that were changed of late: what doesn't show.
    fn changed_in(&self, dropped: &[u32]) -> Result<u64, NoMemory>
        ensures { IfOk result (λ n.
            spots_size (map.retain_keys (uncovered self.now.recent.items self.now.store.spots) (is_in dropped.now)) + n
            ≡ spots_size (map.retain_keys self.now.store.spots (is_in dropped.now))) }
    {
        let items = by_position(self.alloc, &self.recent)?;
        total_within(&self.store, items.as_slice(), dropped)
    }

    /// What the item of a key counts on disk, or those of collections whose ids rise.
    fn on_disk(&self, key: Option<&DocKey>, dropped: &[u32]) -> u64
        requires { IsTrue (are_rising dropped.now) }
        ensures { result ≡ size_among self.now.store.spots (option_copied key.entry) dropped.now }
    {
        match key {
            Some(key) => self.store.weight_at(key),
            None => self.store.weight_in(dropped),
        }
    }

    /// Counts an entry that isn't on disk, of which the spelling has so many bytes.
    fn count(&mut self, bytes: u64)
        ensures counted { CanCount self.old → bytes < 2 ^ 32 → self.new ≡ counted bytes self.old }
        ensures stays { self.new
            ≡ record self.old { unflushed_entries = self.new.unflushed_entries; unflushed_bytes = self.new.unflushed_bytes } }
    {
        self.unflushed_entries = self.unflushed_entries.saturating_add(1);
        self.unflushed_bytes = self.unflushed_bytes.saturating_add(bytes);
    }
}

/// Whether a change is too much: the log is so long, the CAS so great, or the content would count so much.
fn is_too_much(length: u64, cas: u64, size: u64) -> bool
    ensures { result ≡ (nat_le REQUEST_LIMIT length || nat_le CAS_LIMIT cas || nat_lt CONTENT_LIMIT size) }
{
    length >= REQUEST_LIMIT || cas >= CAS_LIMIT || size > CONTENT_LIMIT
}

/// Whether so many entries and bytes of them aren't on disk that a change begins with a flush.
fn must_flush(entries: u64, bytes: u64) -> bool
    ensures { result ≡ (nat_le UNFLUSHED_ENTRIES entries || nat_le UNFLUSHED_BYTES bytes) }
{
    entries >= UNFLUSHED_ENTRIES || bytes >= UNFLUSHED_BYTES
}

/// What the items on disk of these items' keys count together that are in these collections.
fn total_within<D: Disk>(
    store: &Store<D>,
    items: &[&Item],
    collections: &[u32],
) -> Result<u64, NoMemory>
    ensures { IfOk result (λ n. n ≡ sum_by (λ i. size_within collections.now store.now.spots i.now) items.now) }
{
    let mut total: u64 = 0;
    for item in items {
        match total.checked_add(weight_within(store, item, collections)) {
            Some(more) => total = more,
            None => return Err(NoMemory),
        }
    }
    Ok(total)
}

/// What the item on disk of an item's key counts, where its collection is one of these.
fn weight_within<D: Disk>(store: &Store<D>, item: &Item, collections: &[u32]) -> u64
    ensures { result ≡ size_within collections.now store.now.spots item.now }
{
    if collections.contains(&item.key.collection) {
        return store.weight_at(&item.key);
    }
    0
}

/// Adds an entry that is allowed, unless the content is too large or too long, or would become so. At `Err` the content is as
/// before.
fn add_within(alloc: Global, content: &mut Content, entry: Entry) -> Result<(), NoMemory>
    requires entry { IsAllowed entry }
    requires allowed { allowed content.old entry ≡ true }
    ensures ok { OnOk result (content.new ≡ with_entry content.old entry) }
    ensures err { OnErr result (content.new ≡ content.old) }
    ensures room { OnOk result (content.old.length < GREATEST_POSITION) }
{
    let others = prepares(content).len() as u64;
    if size(content) > CONTENT_LIMIT || length(content).saturating_add(others) >= SUM_LIMIT - 1 {
        return Err(NoMemory);
    }
    if size_after(alloc, content, &entry)? > CONTENT_LIMIT {
        return Err(NoMemory);
    }
    match add(alloc, content, entry) {
        Ok(()) => Ok(()),
        Err(AddFault::NotAllowed) => Err(NoMemory),
        Err(AddFault::NoMemory) => Err(NoMemory),
    }
}
