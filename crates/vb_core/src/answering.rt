//! How requests are answered.

ghost use Rattle.std.specs.Prelude.{◌≡◌, ◌≤◌, ℕ, Some, None, [], length, is_some, true, false, IfOk, OnErr};
ghost use Rattle.kv_request.specs.declared.reading.TheConstants.{VALUE_LIMIT};
ghost use Rattle.kv_request.specs.declared.request.Body.TheVariants as bodies;
ghost use Rattle.kv_request.specs.Tables.{IsRequest, IsReply, IsSmallReply, key_named, is_for_session};
ghost use Rattle.doc_model.specs.declared.status.TheConstants.Status as status;
ghost use Rattle.doc_step.specs.Laws.{HasSmallInitial};
ghost use Rattle.manifest_rules.specs.Applying.{text_step, Drops};
ghost use Rattle.manifest_rules.specs.Text.{text_of};
ghost use Rattle.copy_model.specs.declared.limits.TheConstants.{LAST_MOMENT};
ghost use Rattle.copy_model.specs.declared.outcome.Outcome.TheVariants as outcomes;
ghost use Rattle.copy_model.specs.Copies.{Copy};
ghost use Rattle.copy_model.specs.Requests.{requested, refusal, served, body_step, what_of, effecting};
ghost use Rattle.copy_model.specs.Requests.{plain_entry, changing, changing_at_once, with_token, set_by, installed, success, id_answer};
ghost use Rattle.magma_store.specs.Counting.{CountsStore};
ghost use Rattle.vb_log.specs.declared.entry.Entry.TheVariants as entries;
ghost use Rattle.vb_log.specs.Content as contents;
ghost use Rattle.vb_log.specs.Content.{prepare_of};
ghost use Rattle.vb_log.specs.Logs.{folds};
ghost use Rattle.replica_core.specs.Terms.{is_active};
ghost use Rattle.vb_core.specs.Coming.{Comes, ComesWell, Rests, IsOutcome, IsReplied};
ghost use Rattle.vb_core.specs.Flat.{flat};
ghost use Rattle.vb_core.specs.Making.{early_refusal, IsPlanned};
ghost use Rattle.vb_core.specs.Means.{IsCopy, Lives};
ghost use Rattle.vb_core.specs.Plans.{CanBeEntered, IsAtHome};

use crate::changing::{draw, name_of, tells_token};
use crate::making::Made;
use crate::vbucket::Vb;
use copy_model::{CAS_LIMIT, LAST_MOMENT, Outcome};
use doc_model::{DocKey, Refused, Status, What};
use doc_step::{Change, Effect};
use kv_edge::{Bytes, Copied, NoMemory};
use kv_request::{Body, Reply, Request, refusal};
use magma_disk::Disk;
use manifest_rules::{Dropped, Manifest, collection_of, foresee_text, has, scope_of, text, uid};
use replica_core::Role;
use std::alloc::Global;
use vb_log::{Entry, Pending, greatest_cas, manifest, prepares, rising};

impl<D: Disk> Vb<D> {
    /// Answers a request on documents or the manifest at a moment, in milliseconds since 1970. Where memory is refused, or
    /// the next CAS passes 64 bits, the reply is `ENOMEM` and the vbucket is as before. A request with a durability level is
    /// refused with `NOT_SUPPORTED`, so no request waits yet. `ETMPFAIL` comes only where the disk's count of faults rose: the document couldn't be
    /// read, and nothing changed; or the log couldn't be put on disk before the change, and the copy is dead.
    pub fn request(&mut self, request: &Request, now: u64) -> Outcome
        requires request { IsRequest request.now }
        requires ours { is_for_session request.now.body ≡ false }
        ensures step { (copy : Copy contents.Content ℕ) → IsCopy D.states self.old copy → request.now.durability ≡ None
            → Comes D.states D.counts copy (λ luck. requested folds (flat copy.chain) luck request.now now copy) self.old self.new
            result }
        ensures level { is_some request.now.durability ≡ true
            → (result ≡ refusal request.now status.NOT_SUPPORTED) × (self.new ≡ self.old) }
        ensures fits { IsOutcome result }
        ensures replied { IsReplied result }
        ensures counts { CountsStore ⊥ (D.counts self.old.store.disk) (D.counts self.new.store.disk) }
    {
        if request.durability.is_some() {
            return self.refuse(request, Status::NOT_SUPPORTED);
        }
        let before = self.seen;
        let now = now.min(LAST_MOMENT);
        self.seen = before.max(now);
        match self.answer(request, now) {
            Ok(reply) => Outcome::Reply(reply),
            Err(_refused) => {
                self.seen = before;
                self.refuse(request, Status::ENOMEM)
            }
        }
    }

    /// The refusal of a request.
    fn refuse(&self, request: &Request, why: Status) -> Outcome
        ensures refusal { result ≡ refusal request.now why }
        ensures fits { IsOutcome result }
        ensures replied { IsReplied result }
    {
        Outcome::Reply(refusal(self.alloc, request.opcode, request.opaque, why))
    }

    /// The answer to a request without a level at a moment that was seen. At `Err` the vbucket is as before.
    fn answer(&mut self, request: &Request, now: u64) -> Result<Reply, NoMemory>
        requires request { IsRequest request.now }
        requires ours { is_for_session request.now.body ≡ false }
        requires level { request.now.durability ≡ None }
        ensures step { (copy : Copy contents.Content ℕ) → IsCopy D.states self.old copy
            → IfOk result (λ reply. ComesWell D.states D.counts copy
            (λ luck. body_step folds (flat copy.chain) luck now request.now request.now.body copy) self.old self.new
            (outcomes.Reply reply)) }
        ensures fits { IfOk result IsReply }
        ensures stays { OnErr result (Rests D.states self.old self.new) }
        ensures counts { CountsStore ⊥ (D.counts self.old.store.disk) (D.counts self.new.store.disk) }
    {
        match name_of(&request.body) {
            Some(key) => self.on_document(request, key, now),
            None => self.on_manifest(request),
        }
    }

    /// The answer to a request on the document of a key. At `Err` the vbucket is as before.
    fn on_document(&mut self, request: &Request, key: &DocKey, now: u64) -> Result<Reply, NoMemory>
        requires request { IsRequest request.now }
        requires key { key_named request.now.body ≡ Some key.now }
        requires initial { HasSmallInitial request.now.body }
        requires level { request.now.durability ≡ None }
        ensures served { (copy : Copy contents.Content ℕ) → IsCopy D.states self.old copy
            → IfOk result (λ reply. ComesWell D.states D.counts copy (λ luck. served folds (flat copy.chain) luck now request.now copy)
            self.old self.new (outcomes.Reply reply)) }
        ensures fits { IfOk result IsReply }
        ensures stays { OnErr result (Rests D.states self.old self.new) }
        ensures counts { CountsStore ⊥ (D.counts self.old.store.disk) (D.counts self.new.store.disk) }
    {
        match self.refused_early(request, key) {
            Some(status) => Ok(refusal(self.alloc, request.opcode, request.opaque, status)),
            None => self.serve(request, key, now),
        }
    }

    /// Why a request on a document is refused whatever the document is.
    fn refused_early(&self, request: &Request, key: &DocKey) -> Option<Status>
        ensures { result ≡ early_refusal self.now request.now key.now }
    {
        if !is_active(self.core.role) || request.vbucket != self.number {
            return Some(Status::NOT_MY_VBUCKET);
        }
        if !has(manifest(&self.recent), key.collection) {
            return Some(Status::UNKNOWN_COLLECTION);
        }
        if waits(prepares(&self.recent), key) {
            return Some(Status::SYNC_WRITE_RE_COMMIT_IN_PROGRESS);
        }
        None
    }

    /// The answer to a request on the document of a key that isn't refused early. At `Err` the vbucket is as before.
    fn serve(&mut self, request: &Request, key: &DocKey, now: u64) -> Result<Reply, NoMemory>
        requires request { IsRequest request.now }
        requires key { key_named request.now.body ≡ Some key.now }
        requires initial { HasSmallInitial request.now.body }
        requires level { request.now.durability ≡ None }
        requires early { early_refusal self.old request.now key.now ≡ None }
        ensures served { (copy : Copy contents.Content ℕ) → Lives D.states self.old copy
            → IfOk result (λ reply. ComesWell D.states D.counts copy (λ luck. served folds (flat copy.chain) luck now request.now copy)
            self.old self.new (outcomes.Reply reply)) }
        ensures fits { IfOk result IsReply }
        ensures stays { OnErr result (Rests D.states self.old self.new) }
        ensures counts { CountsStore ⊥ (D.counts self.old.store.disk) (D.counts self.new.store.disk) }
    {
        let cas = draw(greatest_cas(&self.recent), self.seen)?;
        match self.plan_on(request, key, now, cas) {
            Ok(change) => self.effect(request, key, cas, change),
            Err(Refused::Status(status)) => Ok(refusal(
                self.alloc,
                request.opcode,
                request.opaque,
                status,
            )),
            Err(Refused::NoMemory) => Err(NoMemory),
        }
    }

    /// The answer to a request on the document of a key, by the change that was planned. At `Err` the vbucket is as before.
    fn effect(
        &mut self,
        request: &Request,
        key: &DocKey,
        cas: u64,
        change: Change,
    ) -> Result<Reply, NoMemory>
        requires request { IsRequest request.now }
        requires key { key_named request.now.body ≡ Some key.now }
        requires level { request.now.durability ≡ None }
        requires early { early_refusal self.old request.now key.now ≡ None }
        requires planned { IsPlanned cas change }
        requires home { IsAtHome self.old }
        ensures effect { (now : ℕ) (copy : Copy contents.Content ℕ) → Lives D.states self.old copy
            → IfOk result (λ reply. ComesWell D.states D.counts copy
            (λ luck. effecting folds (flat copy.chain) luck now request.now cas change.reply (what_of change.effect cas) copy)
            self.old self.new (outcomes.Reply reply)) }
        ensures fits { IfOk result IsReply }
        ensures stays { OnErr result (Rests D.states self.old self.new) }
        ensures counts { CountsStore ⊥ (D.counts self.old.store.disk) (D.counts self.new.store.disk) }
    {
        let Change { effect, reply } = change;
        match effect {
            Effect::Nothing => Ok(reply),
            Effect::Put(doc) => self.change(request, key, cas, reply, What::Put(doc)),
            Effect::Remove => self.change(request, key, cas, reply, What::Remove(cas)),
        }
    }

    /// Makes a change of the item of a key, and completes the reply to it. At `Err` the vbucket is as before.
    fn change(
        &mut self,
        request: &Request,
        key: &DocKey,
        cas: u64,
        reply: Reply,
        what: What,
    ) -> Result<Reply, NoMemory>
        requires request { IsRequest request.now }
        requires key { key_named request.now.body ≡ Some key.now }
        requires early { early_refusal self.old request.now key.now ≡ None }
        requires reply { IsSmallReply reply }
        requires what { CanBeEntered cas what }
        ensures changed { (copy : Copy contents.Content ℕ) → Lives D.states self.old copy
            → IfOk result (λ told. ComesWell D.states D.counts copy
            (λ luck. changing_at_once folds (flat copy.chain) luck request.now cas reply (plain_entry key.now what) copy) self.old
            self.new (outcomes.Reply told)) }
        ensures fits { IfOk result IsReply }
        ensures stays { OnErr result (Rests D.states self.old self.new) }
        ensures counts { CountsStore ⊥ (D.counts self.old.store.disk) (D.counts self.new.store.disk) }
    {
        if cas >= CAS_LIMIT {
            return Ok(refusal(self.alloc, request.opcode, request.opaque, Status::E2BIG));
        }
        let own = key.copy(self.alloc)?;
        let entry = plain_entry(own, what);
        let size = self.size_with(&entry, Some(key), &[])?;
        match self.make(cas, size, entry, Some(key), &[])? {
            Made::Refused(status) => Ok(refusal(
                self.alloc,
                request.opcode,
                request.opaque,
                status,
            )),
            Made::Done => Ok(telling(&request.body, self.core.accepted, self.core.length, reply)),
        }
    }

    /// The answer to a request on the manifest. At `Err` the vbucket is as before.
    fn on_manifest(&mut self, request: &Request) -> Result<Reply, NoMemory>
        requires request { IsRequest request.now }
        requires ours { is_for_session request.now.body ≡ false }
        requires key { key_named request.now.body ≡ None }
        ensures step { (now : ℕ) (copy : Copy contents.Content ℕ) → IsCopy D.states self.old copy
            → IfOk result (λ reply. ComesWell D.states D.counts copy
            (λ luck. body_step folds (flat copy.chain) luck now request.now request.now.body copy) self.old self.new
            (outcomes.Reply reply)) }
        ensures fits { IfOk result IsReply }
        ensures stays { OnErr result (Rests D.states self.old self.new) }
        ensures counts { CountsStore ⊥ (D.counts self.old.store.disk) (D.counts self.new.store.disk) }
    {
        if !is_active(self.core.role) {
            return Ok(refusal(
                self.alloc,
                request.opcode,
                request.opaque,
                Status::NOT_MY_VBUCKET,
            ));
        }
        match &request.body {
            Body::SetManifest { text } => self.set_manifest(request, text),
            Body::GetManifest => self.tell_manifest(request),
            Body::CollectionId { path } => {
                let id = collection_of(manifest(&self.recent), path.as_slice());
                self.tell_id(request, id)
            }
            Body::ScopeId { path } => {
                let id = scope_of(manifest(&self.recent), path.as_slice());
                self.tell_id(request, id)
            }
            Body::Hello { .. } | Body::Noop | Body::Version | Body::Quit => unreachable!(),
            Body::Get { .. } | Body::Store { .. } | Body::Delete { .. } => unreachable!(),
            Body::Count { .. } | Body::Join { .. } | Body::Touch { .. } => unreachable!(),
            Body::Look { .. } | Body::Edit { .. } => unreachable!(),
            Body::MultiLook { .. } | Body::MultiEdit { .. } => unreachable!(),
        }
    }

    /// The answer to a request that bytes take the place of the manifest. At `Err` the vbucket is as before.
    fn set_manifest(&mut self, request: &Request, text: &Bytes) -> Result<Reply, NoMemory>
        requires request { IsRequest request.now }
        requires text { request.now.body ≡ bodies.SetManifest text.now }
        ensures set { (copy : Copy contents.Content ℕ) → Lives D.states self.old copy
            → IfOk result (λ reply. ComesWell D.states D.counts copy (λ luck. set_by folds (flat copy.chain) luck request.now text.now
            (text_step copy.log.manifest text.now) copy) self.old self.new (outcomes.Reply reply)) }
        ensures fits { IfOk result IsReply }
        ensures stays { OnErr result (Rests D.states self.old self.new) }
        ensures counts { CountsStore ⊥ (D.counts self.old.store.disk) (D.counts self.new.store.disk) }
    {
        match foresee_text(self.alloc, manifest(&self.recent), text.as_slice()) {
            Ok(dropped) => {
                if dropped.changed {
                    self.install(request, text, dropped)
                } else {
                    Ok(refusal(self.alloc, request.opcode, request.opaque, Status::SUCCESS))
                }
            }
            Err(Refused::Status(status)) => Ok(refusal(
                self.alloc,
                request.opcode,
                request.opaque,
                status,
            )),
            Err(Refused::NoMemory) => Err(NoMemory),
        }
    }

    /// Lets bytes that are a manifest take the place of the one that is there, where this is what that drops. At `Err` the
    /// vbucket is as before.
    fn install(
        &mut self,
        request: &Request,
        text: &Bytes,
        dropped: Dropped,
    ) -> Result<Reply, NoMemory>
        requires request { IsRequest request.now }
        requires text { request.now.body ≡ bodies.SetManifest text.now }
        requires dropped { Drops (text_step self.old.recent.manifest text.now) dropped }
        ensures installed { (copy : Copy contents.Content ℕ) → Lives D.states self.old copy
            → IfOk result (λ reply. ComesWell D.states D.counts copy (λ luck. changing folds (flat copy.chain) luck request.now 0
            (entries.Manifest text.now)
            (installed folds request.now (entries.Manifest text.now)) copy) self.old self.new (outcomes.Reply reply)) }
        ensures fits { IfOk result IsReply }
        ensures stays { OnErr result (Rests D.states self.old self.new) }
        ensures counts { CountsStore ⊥ (D.counts self.old.store.disk) (D.counts self.new.store.disk) }
    {
        let ids = rising(dropped.collections);
        let entry = Entry::Manifest {
            text: text.copy(self.alloc)?,
        };
        let size = self.size_with(&entry, None, ids.as_slice())?;
        match self.make(0, size, entry, None, ids.as_slice())? {
            Made::Refused(status) => Ok(refusal(
                self.alloc,
                request.opcode,
                request.opaque,
                status,
            )),
            Made::Done => Ok(refusal(self.alloc, request.opcode, request.opaque, Status::SUCCESS)),
        }
    }

    /// The reply with the manifest's text.
    fn tell_manifest(&self, request: &Request) -> Result<Reply, NoMemory>
        ensures reply { IfOk result (λ reply. reply ≡ success request.now [] (text_of self.now.recent.manifest)) }
        ensures fits { IfOk result IsReply }
    {
        let text = text(self.alloc, manifest(&self.recent))?;
        Ok(success(self.alloc, request, Bytes::new(self.alloc), text))
    }

    /// The reply with the manifest's uid and the id that a path led to.
    fn tell_id(&self, request: &Request, id: Result<u32, Status>) -> Result<Reply, NoMemory>
        ensures reply { IfOk result (λ reply. reply ≡ id_answer self.now.recent request.now id) }
        ensures fits { IfOk result IsReply }
    {
        let id = match id {
            Ok(id) => id,
            Err(status) => {
                return Ok(refusal(self.alloc, request.opcode, request.opaque, status));
            }
        };
        let mut extras = Vec::new(self.alloc);
        extras.extend_from_slice(&uid(manifest(&self.recent)).to_be_bytes())?;
        extras.extend_from_slice(&id.to_be_bytes())?;
        let value = Bytes::new(self.alloc);
        Ok(success(self.alloc, request, Bytes::from_vec(extras), value))
    }
}

/// Whether a role is that of an active copy.
fn is_active(role: Role) -> bool
    ensures { result ≡ is_active role }
{
    matches!(role, Role::Active)
}

/// Whether a change of a key waits.
fn waits(prepares: &[Pending], key: &DocKey) -> bool
    ensures { result ≡ is_some (prepare_of prepares.now key.now) }
{
    for change in prepares {
        if change.key == *key {
            return true;
        }
    }
    false
}

/// The entry of a change of a key.
fn plain_entry(key: DocKey, what: What) -> Entry
    ensures { result ≡ plain_entry key what }
{
    match what {
        What::Put(doc) => Entry::Mutation { key, doc },
        What::Remove(cas) => Entry::Deletion { key, cas },
    }
}

/// The reply to a change, which tells term and position but for a Touch.
fn telling(body: &Body, term: u64, position: u64, reply: Reply) -> Reply
    requires { IsSmallReply reply }
    ensures told { result ≡ with_token body.now term position reply }
    ensures fits { IsReply result }
{
    let mut reply = reply;
    if tells_token(body) {
        reply.token = Some((term, position));
    }
    reply
}

/// The reply of success with extras and a value, which are short enough for a reply.
fn success(alloc: Global, request: &Request, extras: Bytes, value: Bytes) -> Reply
    requires extras { length extras ≤ 12 }
    requires value { length value ≤ VALUE_LIMIT }
    ensures reply { result ≡ success request.now extras value }
    ensures fits { IsReply result }
{
    Reply {
        extras,
        value,
        ..refusal(alloc, request.opcode, request.opaque, Status::SUCCESS)
    }
}
