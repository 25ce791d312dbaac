//! What a Get tells after whatever came, and how the numbers of a log rise.

ghost use Rattle.std.specs.Prelude.{◌≡◌, ◌≢◌, ◌≤◌, ◌<◌, ◌+◌, ℕ, true, List, [], Some, IsSome};
ghost use Rattle.std.specs.List.{AllByRecursion};
ghost use Rattle.std.specs.FinMap as map;
ghost use Rattle.doc_model.specs.declared.key.DocKey.{DocKey};
ghost use Rattle.kv_request.specs.declared.request.Request.{Request};
ghost use Rattle.kv_request.specs.declared.reply.Reply.{Reply};
ghost use Rattle.kv_request.specs.Tables.{key_named, document_key};
ghost use Rattle.doc_step.specs.Step.{tells_token};
ghost use Rattle.vb_log.specs.Content.{Content};
ghost use Rattle.copy_model.specs.Copies.{Copy, LayoutKind};
ghost use Rattle.copy_laws.specs.Histories.{Deed, Asked, Takes, TakesAll, IsServed, IsGetOf};
ghost use Rattle.copy_laws.specs.Histories.{IsSetOf, IsDeleteOf, LeavesKey, LastsUntil};
ghost use Rattle.copy_laws.specs.Leaving.{Carries};

use doc_model::Status;

/// A Get that is served tells what the last Set of its key that was answered Success stored, with
/// the CAS that its reply told, while that doesn't expire, and no other request changed the
/// document or dropped its collection between, whatever else came, flushes among it.
pub fn get_tells_what_was_set<Y>()
    ensures { (y : LayoutKind Y) (a b c d : Copy Content Y) (set get : Request)
        (moment now flags expiry : ℕ) (key : DocKey) (value : List ℕ) (done told : Reply)
        (between : List Deed) →
        a.log.prepares ≡ [] → IsSetOf key flags expiry value set →
        Takes y a (Asked set moment done) b → done.status ≡ Status.SUCCESS →
        TakesAll y b between c → AllByRecursion (LeavesKey key) between →
        IsGetOf key get → Takes y c (Asked get now told) d → IsServed told →
        LastsUntil a key moment expiry now →
        Carries told flags value × (told.cas ≡ done.cas) }
{}

/// A Get that is served tells what was set also of another copy, which began with the log that the
/// first one had meanwhile: what one process put on disk is there at the next.
pub fn documents_outlive_copies<Y, Z>()
    ensures { (y : LayoutKind Y) (z : LayoutKind Z) (a b c : Copy Content Y) (d e f : Copy Content Z)
        (set get : Request) (moment now flags expiry : ℕ) (key : DocKey) (value : List ℕ)
        (done told : Reply) (between later : List Deed) →
        a.log.prepares ≡ [] → IsSetOf key flags expiry value set → Takes y a (Asked set moment done) b →
        done.status ≡ Status.SUCCESS →
        TakesAll y b between c → AllByRecursion (LeavesKey key) between →
        d.log ≡ c.log → TakesAll z d later e → AllByRecursion (LeavesKey key) later →
        IsGetOf key get → Takes z e (Asked get now told) f → IsServed told →
        LastsUntil a key moment expiry now →
        Carries told flags value × (told.cas ≡ done.cas) }
{}

/// A Get that is served misses what a Delete that was answered Success deleted, where no other
/// request changed the document or dropped its collection between, whatever else came.
pub fn get_misses_what_is_deleted<Y>()
    ensures { (y : LayoutKind Y) (a b c d : Copy Content Y) (delete get : Request) (earlier now : ℕ)
        (key : DocKey) (done told : Reply) (between : List Deed) →
        a.log.prepares ≡ [] → IsDeleteOf key delete →
        Takes y a (Asked delete earlier done) b → done.status ≡ Status.SUCCESS →
        TakesAll y b between c → AllByRecursion (LeavesKey key) between →
        IsGetOf key get → Takes y c (Asked get now told) d → IsServed told →
        told.status ≡ Status.KEY_ENOENT }
{}

/// Whatever happens, the greatest CAS and the length of the log never fall. A request on a document
/// that adds to the log adds one entry; its reply tells a CAS above each one before, and where it
/// tells a position, that of the entry, one above the last.
pub fn numbers_rise<Y>()
    ensures kept { (y : LayoutKind Y) (a b : Copy Content Y) (deeds : List Deed) →
        a.log.prepares ≡ [] → TakesAll y a deeds b →
        (a.log.greatest_cas ≤ b.log.greatest_cas) × (a.log.length ≤ b.log.length) }
    ensures told { (y : LayoutKind Y) (a b : Copy Content Y) (request : Request) (now : ℕ)
        (reply : Reply) → a.log.prepares ≡ [] →
        Takes y a (Asked request now reply) b → IsSome (key_named request.body) →
        b.log.length ≢ a.log.length →
        (b.log.length ≡ a.log.length + 1) × (a.log.greatest_cas < reply.cas)
        × (b.log.greatest_cas ≡ reply.cas)
        × (tells_token request.body ≡ true → reply.token ≡ Some (a.accepted, b.log.length)) }
{}

/// A request on one document changes no other.
pub fn other_documents_stay<Y>()
    ensures { (y : LayoutKind Y) (a b : Copy Content Y) (request : Request) (now : ℕ)
        (reply : Reply) (other : DocKey) →
        a.log.prepares ≡ [] → Takes y a (Asked request now reply) b →
        IsSome (key_named request.body) → other ≢ document_key request.body →
        map.get b.log.items other ≡ map.get a.log.items other }
{}

/// A flush changes nothing that requests see.
pub fn flushes_change_no_document<Y>()
    ensures { (y : LayoutKind Y) (a b : Copy Content Y) (deeds : List Deed) →
        a.log.prepares ≡ [] → TakesAll y a deeds b →
        AllByRecursion (λ deed. (request : Request) (now : ℕ) (reply : Reply) →
        deed ≢ Asked request now reply) deeds →
        b.log ≡ a.log }
{}

/// What the laws ask of a log, that no prepared change waits in it, stays so, whatever happens.
pub fn nothing_begins_to_wait<Y>()
    ensures { (y : LayoutKind Y) (a b : Copy Content Y) (deeds : List Deed) →
        a.log.prepares ≡ [] → TakesAll y a deeds b → b.log.prepares ≡ [] }
{}
