ghost use Rattle.std.specs.Prelude.{◌≡◌, ◌⊎◌, ◌+◌, ◌*◌, ◌^◌, ◌<◌, ◌≤◌, ◌++◌, ◌∷◌, ℕ, List, [], length, IfOk, IfErr, IfSome, OnOk, IsErr, IsSome, IsErrOf, ◌↔◌, map as list_map, option_map, true, false};
ghost use Rattle.std.specs.FinMap as map;
ghost use Rattle.std.specs.List.{AllByRecursion};
ghost use Rattle.durability_core.specs.Chains.{IsChain};
ghost use Rattle.manifest_rules.specs.Catalog.{Catalog};
ghost use Rattle.vb_log.specs.Stored.{IsStorable};
ghost use Rattle.magma_disk.specs.Calls.{SeesAnImage};
ghost use Rattle.magma_disk.specs.Counting.{CountsPlan};
ghost use Rattle.magma_disk.specs.Moments.{Throughout};
ghost use Rattle.magma_disk.specs.Plan.{planned};
ghost use Rattle.magma_store.specs.Held.{Held};
ghost use Rattle.magma_store.specs.Journal.{IsJournal, IsAtRest, journal_bytes, piece_bytes};
ghost use Rattle.magma_store.specs.Layout as layouts;

use crate::cleaning::{Account, Cleaned};
use crate::fault::StoreFault;
use crate::getting::{item_of, items_behind};
use crate::index::dropped_in;
use crate::journal::append;
use crate::loading::{FILLED_LIMIT, HEAD};
use crate::meta::Meta;
use crate::opening::{Opened, numbers_of, open_on};
use crate::spelling::{sets_piece, write_piece};
use crate::spot_map::SpotMap;
use crate::writing::{put_places, room};
use doc_model::{DocKey, Item};
use durability_core::Chain;
use kv_edge::NoMemory;
use magma_disk::{Disk, DiskDone};
use std::alloc::Global;
use std::marker::Model;

/// A store on a disk. After a failed write or sync its owner calls only `plan_fault` and `finish`.
///
/// Contracts see its disk, where each key's item stands there, what it keeps beside the items, and its layout. What its
/// items are they see in the bytes of the disk.
#[derive(Drop)]
pub struct Store<D: Disk> {
    pub(crate) alloc: Global,
    pub(crate) disk: D,
    pub(crate) spots: SpotMap,
    pub(crate) meta: Meta,
    /// The offset of the gate behind the last record.
    pub(crate) filled: u64,
}

impl<D: Disk> Model for Store<D> {
    ghost use Rattle.std.specs.Prelude.{◌≤◌, ◌^◌};
    ghost use Rattle.doc_model.specs.Keys.{coded_key};
    ghost use Rattle.magma_store.specs.contracts.spot.Spot as spot_rows;
    ghost use Rattle.magma_store.specs.contracts.meta.Meta as meta_rows;
    ghost use Rattle.magma_store.specs.Spots.{AllLead};
    ghost use Rattle.magma_store.specs.Store.{Shown, coded_store};

    ghost Value = { Shown D };

    ghost coded = { coded_store D.code spot_rows.the_row.coded coded_key meta_rows.the_row.coded };

    ghost view = { λ s. record { disk = s.disk; spots = s.spots; meta = s.meta; layout = s.filled } };

    ghost invariant = { λ s. (s.filled ≤ 2 ^ 62) × AllLead s.spots };
}

impl<D: Disk> Store<D> {
    ghost use Rattle.magma_store.specs.Store.{IsOpen, IsOwn, Either, IsBatch, IsUnwritten, IsUnread, written, promised};
    ghost use Rattle.magma_store.specs.Store.{LeavesOpening, LeavesDisk, Opens, AreSince};
    ghost use Rattle.magma_store.specs.Counting.{CountsStore};

    /// Opens the store of a chain's place on a disk, and raises its incarnation; or makes it, where the device has none. It
    /// begins with a sync, so that what was written before the call is on the device when it is read.
    ///
    /// A refusal hands the disk back. `DiskFault` comes only where the disk's count of faults rose. `Damaged`, `OtherChain`
    /// and `Spent` come exactly where the device's bytes break the layout, are those of another chain or place, or have a
    /// promise or an incarnation of at least `SPENT`, of which the first is told; in this order, and nothing is written then.
    /// `NoMemory` leaves the store as it was.
    pub fn open_store(
        alloc: Global,
        disk: D,
        chain: &Chain,
        place: u8,
    ) -> (Result<Store<D>, StoreFault>, Option<D>)
        requires chain { IsChain chain.now }
        requires place { place < length chain.now.names }
        ensures handed_back { IsErr result.0 ↔ IsSome result.1 }
        ensures opens { Opens D.states (D.states disk) chain.now place result.0 }
        ensures own { IfOk result.0 (λ store. IsOwn chain.now place store.meta) }
        ensures seen { (result.0 ≡ Err StoreFault.NoMemory) ⊎ ((result.0 ≡ Err StoreFault.DiskFault) ⊎ SeesAnImage (D.states disk)) }
        ensures any_moment { IfOk result.0 (λ store. Throughout (LeavesOpening (D.states disk) chain.now place) (D.states disk) (D.states store.disk)) }
        ensures any_moment_back { IfSome result.1 (λ back. Throughout (LeavesOpening (D.states disk) chain.now place) (D.states disk) (D.states back)) }
        ensures left { IfErr result.0 (λ why. IfSome result.1 (λ back. LeavesDisk why (D.states disk) (D.states back))) }
        ensures counts { IfOk result.0 (λ store. CountsStore (IsErrOf result.0 StoreFault.DiskFault) (D.counts disk) (D.counts store.disk)) }
        ensures counts_back { IfSome result.1 (λ back. CountsStore (IsErrOf result.0 StoreFault.DiskFault) (D.counts disk) (D.counts back)) }
    {
        let mut disk = disk;
        match open_on(alloc, &mut disk, chain, place) {
            Ok(opened) => {
                let Opened {
                    meta,
                    spots,
                    filled,
                } = opened;
                let store = Store {
                    alloc,
                    disk,
                    spots,
                    meta,
                    filled,
                };
                (Ok(store), None)
            }
            Err(fault) => (Err(fault), Some(disk)),
        }
    }

    /// Puts a batch over the items that are left of those there, when those of the collections are gone that the manifest
    /// names as dropped, and takes what stands beside them.
    ///
    /// `Full` comes exactly where more segments are needed than are free, and `NoMemory` where memory is refused; then nothing
    /// changed. `DiskFault` comes only where the disk's count of faults rose; then the store is no more used.
    pub fn commit(&mut self, batch: Vec<Item>, meta: Meta) -> Result<(), StoreFault>
        requires own { (meta.chain ≡ self.old.meta.chain) × (meta.place ≡ self.old.meta.place) }
        requires batch { (manifest : Catalog) × IsBatch manifest batch.items meta }
        ensures any_moment { (held : Held) (manifest : Catalog) → IsOpen D.states held self.old → IsBatch manifest batch.items meta
            → (after : ℕ) × layouts.LaysWrite self.old.layout false batch.items meta after
            × Throughout (Either held self.old.layout (written false manifest batch.items meta held) after) (D.states self.old.disk) (D.states self.new.disk) }
        ensures done { OnOk result ((held : Held) (manifest : Catalog) → IsOpen D.states held self.old → IsBatch manifest batch.items meta
            → IsOpen D.states (written false manifest batch.items meta held) self.new) }
        ensures layout { OnOk result (layouts.LaysWrite self.old.layout false batch.items meta self.new.layout) }
        ensures meta { OnOk result (self.new.meta ≡ meta) }
        ensures room { OnOk result (layouts.needed self.old.layout false batch.items meta ≤ layouts.free self.old.layout) }
        ensures refused { IfErr result (IsUnwritten D.states (layouts.needed self.old.layout false batch.items meta) (layouts.free self.old.layout) self.old self.new) }
        ensures counts { CountsStore (IsErrOf result StoreFault.DiskFault) (D.counts self.old.disk) (D.counts self.new.disk) }
    {
        let items = lent(self.alloc, &batch)?;
        self.write(false, &items, meta)
    }

    /// Puts a batch in the place of all items, and takes what stands beside them. Its faults are those of `commit`.
    pub fn replace(&mut self, all: Vec<Item>, meta: Meta) -> Result<(), StoreFault>
        requires own { (meta.chain ≡ self.old.meta.chain) × (meta.place ≡ self.old.meta.place) }
        requires batch { (manifest : Catalog) × IsBatch manifest all.items meta }
        ensures any_moment { (held : Held) (manifest : Catalog) → IsOpen D.states held self.old → IsBatch manifest all.items meta
            → (after : ℕ) × layouts.LaysWrite self.old.layout true all.items meta after
            × Throughout (Either held self.old.layout (written true manifest all.items meta held) after) (D.states self.old.disk) (D.states self.new.disk) }
        ensures done { OnOk result ((held : Held) (manifest : Catalog) → IsOpen D.states held self.old → IsBatch manifest all.items meta
            → IsOpen D.states (written true manifest all.items meta held) self.new) }
        ensures layout { OnOk result (layouts.LaysWrite self.old.layout true all.items meta self.new.layout) }
        ensures meta { OnOk result (self.new.meta ≡ meta) }
        ensures room { OnOk result (layouts.needed self.old.layout true all.items meta ≤ layouts.free self.old.layout) }
        ensures refused { IfErr result (IsUnwritten D.states (layouts.needed self.old.layout true all.items meta) (layouts.free self.old.layout) self.old self.new) }
        ensures counts { CountsStore (IsErrOf result StoreFault.DiskFault) (D.counts self.old.disk) (D.counts self.new.disk) }
    {
        let items = lent(self.alloc, &all)?;
        self.write(true, &items, meta)
    }

    /// Puts items that stay their owner's over those there, or in their place, and takes what stands beside them: what
    /// `commit` and `replace` do, with their faults.
    pub fn write(&mut self, is_anew: bool, batch: &[&Item], meta: Meta) -> Result<(), StoreFault>
        requires own { (meta.chain ≡ self.old.meta.chain) × (meta.place ≡ self.old.meta.place) }
        requires batch { (manifest : Catalog) × IsBatch manifest (list_map (λ i. i.now) batch.now) meta }
        ensures any_moment { (held : Held) (manifest : Catalog) → IsOpen D.states held self.old → IsBatch manifest (list_map (λ i. i.now) batch.now) meta
            → (after : ℕ) × layouts.LaysWrite self.old.layout is_anew (list_map (λ i. i.now) batch.now) meta after
            × Throughout (Either held self.old.layout (written is_anew manifest (list_map (λ i. i.now) batch.now) meta held) after) (D.states self.old.disk) (D.states self.new.disk) }
        ensures done { OnOk result ((held : Held) (manifest : Catalog) → IsOpen D.states held self.old → IsBatch manifest (list_map (λ i. i.now) batch.now) meta
            → IsOpen D.states (written is_anew manifest (list_map (λ i. i.now) batch.now) meta held) self.new) }
        ensures layout { OnOk result (layouts.LaysWrite self.old.layout is_anew (list_map (λ i. i.now) batch.now) meta self.new.layout) }
        ensures meta { OnOk result (self.new.meta ≡ meta) }
        ensures room { OnOk result (layouts.needed self.old.layout is_anew (list_map (λ i. i.now) batch.now) meta ≤ layouts.free self.old.layout) }
        ensures refused { IfErr result (IsUnwritten D.states (layouts.needed self.old.layout is_anew (list_map (λ i. i.now) batch.now) meta) (layouts.free self.old.layout) self.old self.new) }
        ensures own { (self.new.meta.chain ≡ self.old.meta.chain) × (self.new.meta.place ≡ self.old.meta.place) }
        ensures silent { D.states self.old.disk ≡ [] → D.states self.new.disk ≡ [] }
        ensures counts { CountsStore (IsErrOf result StoreFault.DiskFault) (D.counts self.old.disk) (D.counts self.new.disk) }
    {
        if self.filled > FILLED_LIMIT {
            return Err(StoreFault::NoMemory);
        }
        let at = self.filled + HEAD;
        let tail = meta.tail.as_slice();
        let (piece, places) = write_piece(self.alloc, is_anew, numbers_of(&meta), tail, batch, at)?;
        let (needed, free) = room(self.filled, piece.len() as u64);
        if needed > free {
            return Err(StoreFault::Full { needed, free });
        }
        let dropped = dropped_in(self.alloc, tail)?;
        put_places(
            self.alloc,
            &mut self.spots,
            is_anew,
            &dropped,
            places.as_slice(),
        )?;
        self.meta = meta;
        self.add(piece.as_slice())
    }

    /// Promises a term, which isn't below the accepted one. It takes no segment, and is never `Full`.
    pub fn promise(&mut self, term: u64) -> Result<(), StoreFault>
        requires term { self.old.meta.accepted ≤ term }
        requires accepted { (self.old.meta.accepted ≡ 0) ⊎ (4 ≤ self.old.meta.accepted) }
        ensures any_moment { (held : Held) → IsOpen D.states held self.old
            → (after : ℕ) × layouts.LaysNumbers self.old.layout after
            × Throughout (Either held self.old.layout (promised term held) after) (D.states self.old.disk) (D.states self.new.disk) }
        ensures done { OnOk result ((held : Held) → IsOpen D.states held self.old → IsOpen D.states (promised term held) self.new) }
        ensures layout { OnOk result (layouts.LaysNumbers self.old.layout self.new.layout) }
        ensures meta { OnOk result (self.new.meta ≡ record self.old.meta { promise = term }) }
        ensures refused { IfErr result (λ why. (why ≡ StoreFault.DiskFault) ⊎ ((why ≡ StoreFault.NoMemory) × (self.new ≡ self.old))) }
        ensures counts { CountsStore (IsErrOf result StoreFault.DiskFault) (D.counts self.old.disk) (D.counts self.new.disk) }
    {
        if self.filled > FILLED_LIMIT {
            return Err(StoreFault::NoMemory);
        }
        let mut numbers = numbers_of(&self.meta);
        numbers.promise = term;
        let piece = sets_piece(self.alloc, numbers)?;
        self.meta.promise = term;
        self.add(piece.as_slice())
    }

    /// The item of a key, read from the disk. A read that fails changes nothing.
    pub fn get(&mut self, key: &DocKey) -> Result<Option<Item>, StoreFault>
        ensures found { (held : Held) → IsOpen D.states held self.old → IfOk result (λ item. item ≡ map.get held.items key.now) }
        ensures item { IfOk result (λ item. IfSome item (λ i. (i.key ≡ key.now) × IsStorable i)) }
        ensures stays { self.new ≡ record self.old { disk = self.new.disk } }
        ensures states { D.states self.new.disk ≡ D.states self.old.disk }
        ensures unread { IfErr result IsUnread }
        ensures counts { CountsStore (IsErrOf result StoreFault.DiskFault) (D.counts self.old.disk) (D.counts self.new.disk) }
        ensures few { (held : Held) → IsOpen D.states held self.old → (D.counts self.new.disk).reads ≤ (D.counts self.old.disk).reads + (8 * 21 + 23) }
    {
        match self.spots.get(key) {
            Some(spot) => {
                let spot = *spot;
                item_of(self.alloc, &mut self.disk, key, spot)
            }
            None => Ok(None),
        }
    }

    /// The items with a greater sequence number, in rising order of theirs, read from the disk. A read that fails changes
    /// nothing.
    pub fn since(&mut self, seqno: u64) -> Result<Vec<Item>, StoreFault>
        ensures found { (held : Held) → IsOpen D.states held self.old → IfOk result (λ items. AreSince seqno held.items items.items) }
        ensures items { IfOk result (λ items. AllByRecursion IsStorable items.items) }
        ensures stays { self.new ≡ record self.old { disk = self.new.disk } }
        ensures states { D.states self.new.disk ≡ D.states self.old.disk }
        ensures unread { IfErr result IsUnread }
        ensures counts { CountsStore (IsErrOf result StoreFault.DiskFault) (D.counts self.old.disk) (D.counts self.new.disk) }
    {
        items_behind(self.alloc, &mut self.disk, &self.spots, seqno)
    }

    /// Adds a record behind the others, of which the piece is what stands behind its gate. Room for it was found.
    fn add(&mut self, piece: &[u8]) -> Result<(), StoreFault>
        requires { self.old.layout + length piece.now ≤ 2 ^ 62 }
        ensures any_moment { (records : List (List ℕ)) (held : List ℕ) → IsAtRest records (D.states self.old.disk)
            → self.old.layout ≡ length (journal_bytes records) → length held < 2 ^ 64 → piece.now ≡ piece_bytes held
            → Throughout (λ image. IsJournal records image ⊎ IsJournal (records ++ held ∷ []) image) (D.states self.old.disk) (D.states self.new.disk) }
        ensures added { OnOk result ((records : List (List ℕ)) (held : List ℕ) → IsAtRest records (D.states self.old.disk)
            → self.old.layout ≡ length (journal_bytes records) → length held < 2 ^ 64 → piece.now ≡ piece_bytes held
            → IsAtRest (records ++ held ∷ []) (D.states self.new.disk)) }
        ensures rest { self.new ≡ record self.old { disk = self.new.disk; layout = self.old.layout + length piece.now } }
        ensures stopped { IfErr result (λ why. why ≡ StoreFault.DiskFault) }
        ensures silent { D.states self.old.disk ≡ [] → D.states self.new.disk ≡ [] }
        ensures counts { CountsStore (IsErrOf result StoreFault.DiskFault) (D.counts self.old.disk) (D.counts self.new.disk) }
    {
        let end = self.filled;
        self.filled = end + piece.len() as u64;
        match append(&mut self.disk, end, piece) {
            DiskDone::Done => Ok(()),
            DiskDone::Failed => Err(StoreFault::DiskFault),
        }
    }

    /// How much of each segment is in use. A flat journal tells of none.
    pub fn accounts(&self) -> &[Account]
        ensures { result.now ≡ [] }
    {
        &[]
    }

    /// Cleans a segment, of which at most so many items are moved. In a flat journal there is nothing to clean.
    pub fn clean(&mut self, most: u32) -> Cleaned
        requires { 1 ≤ most }
        ensures answer { result ≡ Cleaned.Nothing }
        ensures stays { self.new ≡ self.old }
    {
        let _most = most;
        Cleaned::Nothing
    }

    /// What the store keeps beside its items.
    pub fn meta(&self) -> &Meta
        ensures { result.now ≡ self.now.meta }
    {
        &self.meta
    }

    /// Plans a fault of the disk, as `Disk::plan_fault` does.
    pub fn plan_fault(&mut self, after: u64, lasting: bool)
        ensures stays { self.new ≡ record self.old { disk = self.new.disk } }
        ensures states { D.states self.new.disk ≡ D.states self.old.disk }
        ensures plan { D.plan self.new.disk ≡ option_map (planned after lasting) (D.plan self.old.disk) }
        ensures counts { CountsPlan (D.counts self.old.disk) (D.counts self.new.disk) }
    {
        self.disk.plan_fault(after, lasting);
    }

    /// The disk.
    pub fn finish(self) -> D
        ensures { result ≡ self.disk }
    {
        let Store {
            alloc: _,
            disk,
            spots: _,
            meta: _,
            filled: _,
        } = self;
        disk
    }
}

/// References to items.
fn lent(alloc: Global, items: &[Item]) -> Result<Vec<&Item>, NoMemory>
    ensures { IfOk result (λ lent. list_map (λ i. i.now) lent.items ≡ items.now) }
{
    let mut lent = Vec::new(alloc);
    for item in items {
        lent.push(item)?;
    }
    Ok(lent)
}
