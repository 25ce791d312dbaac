//! Whether a whole content has the items of a store, told without reading the disk.

ghost use Rattle.std.specs.Prelude.{◌≡◌, ◌↔◌, ◌+◌, ◌≤◌, ℕ, [], ◌++◌, nat_eq, is_some, map as list_map, IsTrue, IfOk, IfSome, OnOk};
ghost use Rattle.std.specs.FinMap as map;
ghost use Rattle.std.specs.List.{list_any, IsDistinct};
ghost use Rattle.manifest_rules.specs.State.{are_rising};
ghost use Rattle.vb_log.specs.declared.limits.TheConstants as limits;
ghost use Rattle.vb_log.specs.Content.{has_collection};
ghost use Rattle.vb_log.specs.Contents.{IsWhole};
ghost use Rattle.vb_log.specs.Sizes as sizes;
ghost use Rattle.magma_store.specs.Held.{Held};
ghost use Rattle.magma_store.specs.Spots.{spots_size};
ghost use Rattle.magma_store.specs.Store.{IsOpen};
ghost use Rattle.magma_store.specs.Whole.{having, bare_of, content_of, numbers_at, is_of_log, size_there, GoWith, AnswersAll, AreNumbersBehind};

use crate::spot_map::SpotMap;
use crate::store::Store;
use kv_edge::{NoMemory, Seq};
use magma_disk::Disk;
use manifest_rules::{Manifest, first, has, lost_collections};
use std::alloc::Global;
use vb_log::{
    CONTENT_LIMIT, Content, ContentFault, Pending, greatest_cas, length, manifest, of_parts,
    prepares, rising, size,
};

/// The collection that the first manifest has.
const DEFAULT: u32 = 0;

impl<D: Disk> Store<D> {
    /// The content without items of the store's length and greatest CAS, this manifest and these changes that wait, where it
    /// is whole with the store's items; or nothing, where it isn't. It reads no disk, and costs what `is_whole_with` does.
    pub fn beside_items(
        &self,
        prepares: Vec<Pending>,
        manifest: Manifest,
    ) -> Result<Option<Content>, NoMemory>
        ensures whole { (held : Held) → IsOpen D.states held self.now
            → IfOk result (λ rest. IsTrue (is_some rest) ↔ IsWhole (content_of held manifest prepares.items)) }
        ensures rest { IfOk result (λ rest. IfSome rest (λ r. r ≡ bare_of self.now.meta manifest prepares.items)) }
        ensures rest_whole { IfOk result (λ rest. IfSome rest IsWhole) }
        ensures spots { IfOk result (λ rest. IfSome rest (GoWith self.now.spots)) }
    {
        let none = Vec::new(self.alloc);
        let (cas, last) = (self.meta.cas, self.meta.length);
        match of_parts(self.alloc, none, prepares, manifest, cas, last) {
            Ok(rest) => {
                if self.is_whole_with(&rest)? {
                    return Ok(Some(rest));
                }
                Ok(None)
            }
            Err(ContentFault::Bad(_)) => Ok(None),
            Err(ContentFault::NoMemory) => Err(NoMemory),
        }
    }

    /// Whether a whole content without items is whole with the store's items. It reads no disk. It costs a sort of the sequence
    /// numbers of all items, which take eight bytes each meanwhile, and of each collection what `weight_in` does.
    pub fn is_whole_with(&self, rest: &Content) -> Result<bool, NoMemory>
        requires whole { IsWhole rest.now }
        requires bare { rest.now.items ≡ map.empty }
        ensures items { (held : Held) → IsOpen D.states held self.now → IfOk result (λ b. IsTrue b ↔ IsWhole (having held.items rest.now)) }
        ensures spots { IfOk result (λ b. IsTrue b ↔ GoWith self.now.spots rest.now) }
    {
        go_with(self.alloc, &self.spots, rest)
    }
}

/// Whether the items at spots go with a content without items.
pub(crate) fn go_with(alloc: Global, spots: &SpotMap, rest: &Content) -> Result<bool, NoMemory>
    requires { sizes.size rest.now ≤ limits.CONTENT_LIMIT }
    ensures { IfOk result (λ b. IsTrue b ↔ GoWith spots.now rest.now) }
{
    if spots.size() > CONTENT_LIMIT - size(rest) {
        return Ok(false);
    }
    if !are_of_log(spots, length(rest), greatest_cas(rest)) {
        return Ok(false);
    }
    if !are_present(alloc, spots, manifest(rest))? {
        return Ok(false);
    }
    have_one_each(alloc, spots, prepares(rest))
}

/// Whether each item was made by an entry of a log so long, and its CAS is one of that log's.
fn are_of_log(spots: &SpotMap, length: u64, cas: u64) -> bool
    ensures { AnswersAll (is_of_log length cas) spots.now result }
{
    for spot in spots.values() {
        if spot.seqno > length || spot.cas > cas {
            return false;
        }
    }
    true
}

/// Whether the collection of each item is there, of which each counts something.
fn are_present(alloc: Global, spots: &SpotMap, manifest: &Manifest) -> Result<bool, NoMemory>
    ensures { IfOk result (λ b. IsTrue b ↔ (size_there manifest.now spots.now ≡ spots_size spots.now)) }
{
    let there = collections_of(alloc, manifest)?;
    Ok(spots.size_in(&there) == spots.size())
}

/// The ids of the collections that a manifest has, in rising order: that of the first manifest, where it is there, and all that
/// would be lost if that manifest came next.
fn collections_of(alloc: Global, manifest: &Manifest) -> Result<Vec<u32>, NoMemory>
    ensures rise { IfOk result (λ ids. IsTrue (are_rising ids.items)) }
    ensures there { IfOk result (λ ids. (id : ℕ) → list_any (nat_eq id) ids.items ≡ has_collection manifest.now id) }
{
    let initial = first(alloc)?;
    let mut ids = lost_collections(alloc, manifest, &initial)?;
    if has(manifest, DEFAULT) {
        ids.push(DEFAULT)?;
    }
    Ok(rising(ids))
}

/// Whether no two items and changes that wait have one number.
fn have_one_each(alloc: Global, spots: &SpotMap, prepares: &[Pending]) -> Result<bool, NoMemory>
    ensures { IfOk result (λ b. IsTrue b ↔ IsDistinct nat_eq (numbers_at (map.values spots.now) prepares.now)) }
{
    // the room of all of them is taken at once, so that it isn't taken twice while it grows
    let count = spots.values().take(usize::MAX).count();
    let mut numbers = positions_of(alloc, prepares, count)?;
    add_seqnos(&mut numbers, spots)?;
    numbers.sort_unstable();
    Ok(numbers.is_sorted_by(|a, b| a < b))
}

/// The positions of changes that wait, with room for so many numbers more.
fn positions_of(alloc: Global, prepares: &[Pending], more: usize) -> Result<Vec<u64>, NoMemory>
    ensures { IfOk result (λ numbers. numbers.items ≡ list_map (λ p. p.position) prepares.now) }
{
    let mut numbers = Vec::with_capacity(alloc, prepares.len().saturating_add(more))?;
    for change in prepares {
        numbers.push(change.position)?;
    }
    Ok(numbers)
}

/// Adds the sequence numbers of all items.
fn add_seqnos(numbers: &mut Vec<u64>, spots: &SpotMap) -> Result<(), NoMemory>
    ensures { OnOk result (AreNumbersBehind numbers.old.items spots.now numbers.new.items) }
{
    for spot in spots.values() {
        numbers.push(spot.seqno)?;
    }
    Ok(())
}
