//! How a document is found, and what a request does to it.

ghost use Rattle.std.specs.Prelude.{◌≡◌, ◌⊎◌, ◌<◌, ◌^◌, ℕ, true, Some, IfOk, IfErr, IfSome};
ghost use Rattle.std.specs.Option.{option_copied};
ghost use Rattle.std.specs.FinMap as map;
ghost use Rattle.kv_edge.specs.Edge.{Rose};
ghost use Rattle.doc_model.specs.declared.status.Refused.TheVariants as refusals;
ghost use Rattle.doc_model.specs.declared.status.TheConstants.Status as status;
ghost use Rattle.kv_request.specs.Tables.{IsRequest, key_named};
ghost use Rattle.doc_step.specs.Laws.{HasSmallInitial};
ghost use Rattle.copy_model.specs.Copies.{Copy};
ghost use Rattle.copy_model.specs.Requests.{step_on};
ghost use Rattle.magma_store.specs.Counting.{CountsStore};
ghost use Rattle.vb_log.specs.Content as contents;
ghost use Rattle.vb_log.specs.Content.{doc_in, has_collection, stored_doc};
ghost use Rattle.vb_log.specs.Stored.{IsStorable};
ghost use Rattle.vb_core.specs.Coming.{Rests};
ghost use Rattle.vb_core.specs.Making.{drawn_by, PlansOn, IsPlanned};
ghost use Rattle.vb_core.specs.Means.{Stands, over};
ghost use Rattle.vb_core.specs.Plans.{HasRanges};

use crate::vbucket::Vb;
use doc_model::{Doc, DocKey, Item, Refused, Status, What};
use doc_ops::plan;
use doc_step::{Change, Effect};
use kv_request::Request;
use magma_disk::Disk;
use magma_store::StoreFault;
use manifest_rules::max_ttl;
use vb_log::{Content, item, manifest};

impl<D: Disk> Vb<D> {
    /// What a request at a moment does to the document of its key, with the CAS that a change draws. `ETMPFAIL` also comes
    /// where the document couldn't be read. Nothing changes.
    pub(crate) fn plan_on(
        &mut self,
        request: &Request,
        key: &DocKey,
        now: u64,
        cas: u64,
    ) -> Result<Change, Refused>
        requires request { IsRequest request.now }
        requires key { key_named request.now.body ≡ Some key.now }
        requires initial { HasSmallInitial request.now.body }
        requires cas { cas ≡ drawn_by self.old }
        requires there { has_collection self.old.recent.manifest key.now.collection ≡ true }
        ensures planned { (copy : Copy contents.Content ℕ) → Stands D.states self.old copy
            → PlansOn (step_on copy.log copy.seen now request.now) (D.counts self.old.store.disk).faults
            (D.counts self.new.store.disk).faults result }
        ensures fits { IfOk result (IsPlanned cas) }
        ensures rests { Rests D.states self.old self.new }
        ensures counts { CountsStore ⊥ (D.counts self.old.store.disk) (D.counts self.new.store.disk) }
    {
        let lifetime = max_ttl(manifest(&self.recent), key.collection);
        let read = match self.read(key) {
            Ok(read) => read,
            Err(why) => return Err(why),
        };
        let doc = shown(&self.recent, key, &read);
        match plan(self.alloc, request, doc, lifetime, now, cas) {
            Ok(change) => {
                know_ranges(&change.effect);
                Ok(change)
            }
            Err(why) => Err(why),
        }
    }

    /// The item of a key whose collection is there, read from the disk where it isn't in memory and is there.
    fn read(&mut self, key: &DocKey) -> Result<Option<Item>, Refused>
        requires there { has_collection self.old.recent.manifest key.now.collection ≡ true }
        ensures found { (copy : Copy contents.Content ℕ) → Stands D.states self.old copy
            → IfOk result (λ read. over (map.get self.old.recent.items key.now) read ≡ map.get copy.log.items key.now) }
        ensures storable { IfOk result (λ read. IfSome read IsStorable) }
        ensures refused { IfErr result (λ why. (why ≡ refusals.NoMemory)
            ⊎ ((why ≡ refusals.Status status.ETMPFAIL) × Rose (D.counts self.old.store.disk).faults
            (D.counts self.new.store.disk).faults)) }
        ensures rests { Rests D.states self.old self.new }
        ensures counts { CountsStore ⊥ (D.counts self.old.store.disk) (D.counts self.new.store.disk) }
    {
        if self.is_anew || item(&self.recent, key).is_some() {
            return Ok(None);
        }
        match self.store.get(key) {
            Ok(item) => Ok(item),
            Err(StoreFault::DiskFault) => Err(Refused::Status(Status::ETMPFAIL)),
            Err(_) => Err(Refused::NoMemory),
        }
    }
}

/// The document of a key that a content in memory has, or else the one that was read.
fn shown<'a>(recent: &'a Content, key: &DocKey, read: &'a Option<Item>) -> Option<&'a Doc>
    ensures { option_copied result ≡ doc_in (over (map.get recent.now.items key.now) read.now) }
{
    match item(recent, key) {
        Some(item) => doc_of(item),
        None => match read {
            Some(item) => doc_of(item),
            None => None,
        },
    }
}

/// The document that an item has.
fn doc_of(item: &Item) -> Option<&Doc>
    ensures { option_copied result ≡ stored_doc item.now.what }
{
    match &item.what {
        What::Put(doc) => Some(doc),
        What::Remove(_) => None,
    }
}

/// Sees to it that the ranges of the flags and the expiry of a document that is to be stored are known.
fn know_ranges(effect: &Effect)
    ensures { HasRanges effect.now }
{
    if let Effect::Put(doc) = effect {
        read_numbers(doc);
    }
}

/// Reads flags and expiry of a document, so that their ranges are known.
fn read_numbers(doc: &Doc)
    ensures flags { doc.now.flags < 2 ^ 32 }
    ensures expiry { doc.now.expiry < 2 ^ 32 }
{
    let _flags = doc.flags;
    let _expiry = doc.expiry;
}
