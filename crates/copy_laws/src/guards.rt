//! What a CAS that was told guards.

ghost use Rattle.std.specs.Prelude.{◌≡◌, ◌≢◌, ◌⊎◌, ℕ, true, List, [], Some, IsSome};
ghost use Rattle.doc_model.specs.declared.key.DocKey.{DocKey};
ghost use Rattle.doc_model.specs.declared.document.Doc.{Doc};
ghost use Rattle.kv_request.specs.declared.request.Request.{Request};
ghost use Rattle.kv_request.specs.declared.request.Body.TheVariants as bodies;
ghost use Rattle.kv_request.specs.declared.reply.Reply.{Reply};
ghost use Rattle.kv_request.specs.Tables.{key_named, document_key};
ghost use Rattle.vb_log.specs.Content.{Content, has_collection, no_content};
ghost use Rattle.copy_model.specs.Copies.{Copy, LayoutKind};
ghost use Rattle.copy_laws.specs.Histories.{Deed, Asked, Takes, TakesAll, IsServed, IsSetOf};
ghost use Rattle.copy_laws.specs.Documents.{kept_document, document_at};
ghost use Rattle.copy_laws.specs.Guards.{IsWithinCas, without_cas};

use doc_model::Status;

/// No document's CAS is above the greatest CAS of the log: so it is in a log without entries, and
/// so it stays, whatever happens.
pub fn no_cas_is_above_the_greatest<Y>()
    ensures begins { (key : DocKey) → IsWithinCas key no_content }
    ensures kept { (y : LayoutKind Y) (a b : Copy Content Y) (deeds : List Deed) (key : DocKey) →
        a.log.prepares ≡ [] → TakesAll y a deeds b → IsWithinCas key a.log → IsWithinCas key b.log }
{}

/// A reply of success tells the CAS of the key's document: that to a Get of the document that is
/// there (`found`), and that to a Set of the one that is stored (`stored`); and so does the reply to
/// any request that changes a document and leaves one (`changed`).
pub fn replies_tell_the_cas<Y>()
    ensures found { (y : LayoutKind Y) (a b : Copy Content Y) (get : Request) (now : ℕ)
        (key : DocKey) (told : Reply) →
        a.log.prepares ≡ [] → get.body ≡ bodies.Get key → Takes y a (Asked get now told) b →
        told.status ≡ Status.SUCCESS →
        (doc : Doc) × (document_at a.log key now ≡ Some doc) × (told.cas ≡ doc.cas) }
    ensures stored { (y : LayoutKind Y) (a b : Copy Content Y) (set : Request)
        (now flags expiry : ℕ) (key : DocKey) (value : List ℕ) (done : Reply) →
        a.log.prepares ≡ [] → IsSetOf key flags expiry value set →
        Takes y a (Asked set now done) b → done.status ≡ Status.SUCCESS →
        (doc : Doc) × (kept_document b.log key ≡ Some doc) × (done.cas ≡ doc.cas) }
    ensures changed { (y : LayoutKind Y) (a b : Copy Content Y) (request : Request) (now : ℕ)
        (key : DocKey) (reply : Reply) (doc : Doc) →
        a.log.prepares ≡ [] → key_named request.body ≡ Some key →
        Takes y a (Asked request now reply) b → b.log.length ≢ a.log.length →
        kept_document b.log key ≡ Some doc → reply.cas ≡ doc.cas }
{}

/// A request with the CAS of the document that is there may do and answer what the same request
/// does that takes any document (`passes`), and nothing else (`no_more`).
pub fn the_cas_of_a_document_passes<Y>()
    ensures passes { (y : LayoutKind Y) (a b : Copy Content Y) (request : Request) (now : ℕ)
        (reply : Reply) (doc : Doc) →
        IsSome (key_named request.body) →
        document_at a.log (document_key request.body) now ≡ Some doc →
        request.cas ≡ doc.cas → Takes y a (Asked (without_cas request) now reply) b →
        Takes y a (Asked request now reply) b }
    ensures no_more { (y : LayoutKind Y) (a b : Copy Content Y) (request : Request) (now : ℕ)
        (reply : Reply) (doc : Doc) →
        IsSome (key_named request.body) →
        document_at a.log (document_key request.body) now ≡ Some doc →
        request.cas ≡ doc.cas → Takes y a (Asked request now reply) b →
        Takes y a (Asked (without_cas request) now reply) b }
{}

/// A request with a CAS that a Get told before the document was changed adds nothing, whatever came
/// before and since (`adds_nothing`), and where it is served and the collection is there it is
/// refused as KEY_EEXISTS or as KEY_ENOENT (`refused`).
pub fn the_cas_of_before_is_refused<Y>()
    ensures adds_nothing { (y : LayoutKind Y) (a b c d e f : Copy Content Y)
        (get change request : Request) (first second now : ℕ) (key : DocKey)
        (told done reply : Reply) (before since : List Deed) →
        a.log.prepares ≡ [] → IsWithinCas key a.log →
        get.body ≡ bodies.Get key → Takes y a (Asked get first told) b →
        told.status ≡ Status.SUCCESS → TakesAll y b before c →
        key_named change.body ≡ Some key → Takes y c (Asked change second done) d →
        d.log.length ≢ c.log.length → TakesAll y d since e →
        key_named request.body ≡ Some key → request.cas ≡ told.cas → request.cas ≢ 0 →
        Takes y e (Asked request now reply) f → f.log ≡ e.log }
    ensures refused { (y : LayoutKind Y) (a b c d e f : Copy Content Y)
        (get change request : Request) (first second now : ℕ) (key : DocKey)
        (told done reply : Reply) (before since : List Deed) →
        a.log.prepares ≡ [] → IsWithinCas key a.log →
        get.body ≡ bodies.Get key → Takes y a (Asked get first told) b →
        told.status ≡ Status.SUCCESS → TakesAll y b before c →
        key_named change.body ≡ Some key → Takes y c (Asked change second done) d →
        d.log.length ≢ c.log.length → TakesAll y d since e →
        key_named request.body ≡ Some key → request.cas ≡ told.cas → request.cas ≢ 0 →
        Takes y e (Asked request now reply) f → IsServed reply →
        has_collection e.log.manifest key.collection ≡ true →
        (reply.status ≡ Status.KEY_EEXISTS) ⊎ (reply.status ≡ Status.KEY_ENOENT) }
{}
