//! What becomes of collections and of the documents in them.

ghost use Rattle.std.specs.Prelude.{◌≡◌, ℕ, true, false, List, [], None};
ghost use Rattle.std.specs.FinMap as map;
ghost use Rattle.doc_model.specs.declared.key.DocKey.{DocKey};
ghost use Rattle.kv_request.specs.declared.request.Request.{Request};
ghost use Rattle.kv_request.specs.declared.request.Body.TheVariants as bodies;
ghost use Rattle.kv_request.specs.declared.reply.Reply.{Reply};
ghost use Rattle.vb_log.specs.Content.{Content, has_collection, no_content};
ghost use Rattle.copy_model.specs.Copies.{Copy, LayoutKind};
ghost use Rattle.copy_laws.specs.Histories.{Deed, Asked, Takes, TakesAll};
ghost use Rattle.copy_laws.specs.Collections.{StandsInCollection};

/// Each document stands in a collection that the manifest has: so it is in a log without entries,
/// and so it stays, whatever happens.
pub fn documents_stand_in_collections<Y>()
    ensures begins { (key : DocKey) → StandsInCollection key no_content }
    ensures kept { (y : LayoutKind Y) (a b : Copy Content Y) (deeds : List Deed) (key : DocKey) →
        a.log.prepares ≡ [] → TakesAll y a deeds b →
        StandsInCollection key a.log → StandsInCollection key b.log }
{}

/// Once a collection that was there isn't any more, whatever came between, nothing of it is left:
/// no document, and no mark of one that was deleted.
pub fn dropped_collections_are_empty<Y>()
    ensures { (y : LayoutKind Y) (a b : Copy Content Y) (deeds : List Deed) (key : DocKey) →
        a.log.prepares ≡ [] → has_collection a.log.manifest key.collection ≡ true →
        TakesAll y a deeds b → has_collection b.log.manifest key.collection ≡ false →
        map.get b.log.items key ≡ None }
{}

/// A new manifest leaves all documents of each collection that it has.
pub fn kept_collections_stay<Y>()
    ensures { (y : LayoutKind Y) (a b : Copy Content Y) (request : Request) (now : ℕ)
        (reply : Reply) (text : List ℕ) (key : DocKey) →
        a.log.prepares ≡ [] → request.body ≡ bodies.SetManifest text →
        Takes y a (Asked request now reply) b →
        has_collection b.log.manifest key.collection ≡ true →
        map.get b.log.items key ≡ map.get a.log.items key }
{}

/// A collection that was there and was dropped is in no later manifest, whatever happens.
pub fn dropped_collections_never_return<Y>()
    ensures { (y : LayoutKind Y) (a b c : Copy Content Y) (before later : List Deed) (id : ℕ) →
        a.log.prepares ≡ [] → has_collection a.log.manifest id ≡ true →
        TakesAll y a before b → has_collection b.log.manifest id ≡ false →
        TakesAll y b later c → has_collection c.log.manifest id ≡ false }
{}
