//! How long documents last, and what requests leave of them.

ghost use Rattle.std.specs.Prelude.{◌≡◌, ◌≢◌, ◌≤◌, ◌<◌, ℕ, true, List, [], Some, None};
ghost use Rattle.std.specs.List.{AllByRecursion};
ghost use Rattle.doc_model.specs.declared.key.DocKey.{DocKey};
ghost use Rattle.doc_model.specs.declared.document.Doc.{Doc};
ghost use Rattle.kv_request.specs.declared.request.Request.{Request};
ghost use Rattle.kv_request.specs.declared.reply.Reply.{Reply};
ghost use Rattle.manifest_rules.specs.Catalog.{max_ttl_of};
ghost use Rattle.doc_step.specs.Expiry.{seconds};
ghost use Rattle.vb_log.specs.Content.{Content, has_collection};
ghost use Rattle.copy_model.specs.Copies.{Copy, LayoutKind};
ghost use Rattle.copy_model.specs.Requests.{moment_of};
ghost use Rattle.copy_laws.specs.Histories.{Deed, Asked, Takes, TakesAll, IsServed, IsGetOf};
ghost use Rattle.copy_laws.specs.Histories.{IsSetOf, IsDeleteOf, LeavesKey};
ghost use Rattle.copy_laws.specs.Leaving.{Carries};
ghost use Rattle.copy_laws.specs.Documents.{document_at, HasExpired, IsReplaceOf, Keeps};
ghost use Rattle.copy_laws.specs.Documents.{end_of, IsGranted};

use doc_model::Status;

/// A document whose expiry has passed is kept until it is stored over, or deleted while it is
/// there: a Delete that comes at such a moment leaves the log as it was (`stays`), and where it is
/// served it finds no document (`missed`).
pub fn expired_documents_are_kept<Y>()
    ensures stays { (y : LayoutKind Y) (a b : Copy Content Y) (delete : Request) (now : ℕ)
        (key : DocKey) (reply : Reply) →
        a.log.prepares ≡ [] → IsDeleteOf key delete → HasExpired a.log key now →
        Takes y a (Asked delete now reply) b → b.log ≡ a.log }
    ensures missed { (y : LayoutKind Y) (a b : Copy Content Y) (delete : Request) (now : ℕ)
        (key : DocKey) (reply : Reply) →
        a.log.prepares ≡ [] → IsDeleteOf key delete → HasExpired a.log key now →
        has_collection a.log.manifest key.collection ≡ true →
        Takes y a (Asked delete now reply) b → IsServed reply →
        reply.status ≡ Status.KEY_ENOENT }
{}

/// A Set that is answered Success stores its value and its flags, with the extended attributes of
/// the document that was there (`kept`), and with none where none was (`none`).
pub fn storing_keeps_attributes<Y>()
    ensures kept { (y : LayoutKind Y) (a b : Copy Content Y) (set : Request) (now flags expiry : ℕ)
        (key : DocKey) (value : List ℕ) (done : Reply) (found : Doc) →
        a.log.prepares ≡ [] → IsSetOf key flags expiry value set →
        document_at a.log key now ≡ Some found →
        Takes y a (Asked set now done) b → done.status ≡ Status.SUCCESS →
        Keeps b.log key flags value found.xattrs }
    ensures none { (y : LayoutKind Y) (a b : Copy Content Y) (set : Request) (now flags expiry : ℕ)
        (key : DocKey) (value : List ℕ) (done : Reply) →
        a.log.prepares ≡ [] → IsSetOf key flags expiry value set →
        document_at a.log key now ≡ None →
        Takes y a (Asked set now done) b → done.status ≡ Status.SUCCESS →
        Keeps b.log key flags value [] }
{}

/// A Replace of a key that has no document at its moment isn't answered Success, and leaves the log
/// as it was.
pub fn replacing_makes_no_document<Y>()
    ensures { (y : LayoutKind Y) (a b : Copy Content Y) (replace : Request) (now flags expiry : ℕ)
        (key : DocKey) (value : List ℕ) (reply : Reply) →
        a.log.prepares ≡ [] → IsReplaceOf key flags expiry value replace →
        document_at a.log key now ≡ None → Takes y a (Asked replace now reply) b →
        (reply.status ≢ Status.SUCCESS) × (b.log ≡ a.log) }
{}

/// Behind a Set that was answered Success, where no other request changed the document or dropped
/// its collection, a Get that is served finds it before its end comes (`before`), and misses it
/// from then on (`after`): so many seconds behind the Set, or at the second that the expiry names, where
/// the collection grants that. Without an expiry, in a collection that grants any lifetime, it is
/// found at any moment (`forever`).
pub fn documents_live_as_long_as_asked<Y>()
    ensures before { (y : LayoutKind Y) (a b c d : Copy Content Y) (set get : Request)
        (moment now flags expiry : ℕ) (key : DocKey) (value : List ℕ) (done told : Reply)
        (between : List Deed) →
        a.log.prepares ≡ [] → IsSetOf key flags expiry value set →
        Takes y a (Asked set moment done) b → done.status ≡ Status.SUCCESS →
        TakesAll y b between c → AllByRecursion (LeavesKey key) between →
        IsGetOf key get → Takes y c (Asked get now told) d → IsServed told →
        expiry ≢ 0 → IsGranted a.log key moment expiry →
        seconds (moment_of now) < end_of moment expiry →
        Carries told flags value × (told.cas ≡ done.cas) }
    ensures after { (y : LayoutKind Y) (a b c d : Copy Content Y) (set get : Request)
        (moment now flags expiry : ℕ) (key : DocKey) (value : List ℕ) (done told : Reply)
        (between : List Deed) →
        a.log.prepares ≡ [] → IsSetOf key flags expiry value set →
        Takes y a (Asked set moment done) b → done.status ≡ Status.SUCCESS →
        TakesAll y b between c → AllByRecursion (LeavesKey key) between →
        IsGetOf key get → Takes y c (Asked get now told) d → IsServed told →
        expiry ≢ 0 → IsGranted a.log key moment expiry →
        end_of moment expiry ≤ seconds (moment_of now) →
        told.status ≡ Status.KEY_ENOENT }
    ensures forever { (y : LayoutKind Y) (a b c d : Copy Content Y) (set get : Request)
        (moment now flags : ℕ) (key : DocKey) (value : List ℕ) (done told : Reply)
        (between : List Deed) →
        a.log.prepares ≡ [] → IsSetOf key flags 0 value set →
        Takes y a (Asked set moment done) b → done.status ≡ Status.SUCCESS →
        TakesAll y b between c → AllByRecursion (LeavesKey key) between →
        IsGetOf key get → Takes y c (Asked get now told) d → IsServed told →
        max_ttl_of a.log.manifest.scopes key.collection ≡ 0 →
        Carries told flags value × (told.cas ≡ done.cas) }
{}
