//! What those who use documents rely on, as laws of the document step.

ghost use Rattle.std.specs.Prelude.{◌≡◌, ◌≢◌, ℕ, ◌+◌, ◌^◌, ◌<◌, Bool, List, Option, Some, None, Ok, IsTrue, IfSome};
ghost use Rattle.std.specs.Fmt.{decimal};
ghost use Rattle.doc_model.specs.declared.key.DocKey.{DocKey};
ghost use Rattle.doc_model.specs.declared.document.Doc.{Doc};
ghost use Rattle.doc_model.specs.declared.status.TheConstants.Status as status;
ghost use Rattle.kv_request.specs.declared.request.Request.{Request};
ghost use Rattle.kv_request.specs.declared.request.Body.TheVariants as bodies;
ghost use Rattle.kv_request.specs.declared.request.Mode.TheVariants as modes;
ghost use Rattle.kv_request.specs.Tables.{IsSmallRequest};
ghost use Rattle.doc_step.specs.declared.Change.{Change};
ghost use Rattle.doc_step.specs.declared.Effect.TheVariants as effects;
ghost use Rattle.doc_step.specs.Expiry.{Setting, there, is_expired};
ghost use Rattle.doc_step.specs.Counter.{number_of};
ghost use Rattle.doc_step.specs.Step.{document_step};
ghost use Rattle.doc_step.specs.Laws.{effect_of, status_of, CarriesDraw, IsSmallDoc, IsSmallChange, HasSmallInitial};

use crate::{DIGITS_LIMIT, LAST_EXPIRY, NO_INITIAL, RELATIVE_LIMIT};

/// A request that isn't answered Success changes nothing.
pub fn refusals_change_nothing()
    ensures { (s : Setting) (request : Request) (doc : Option Doc) →
        status_of (document_step s request doc) ≢ status.SUCCESS → effect_of (document_step s request doc) ≡ effects.Nothing }
{}

/// What is stored has the CAS drawn, and so has the reply to any change.
pub fn changes_carry_the_draw()
    ensures { (s : Setting) (request : Request) (doc : Option Doc) (change : Change) →
        document_step s request doc ≡ Ok change → CarriesDraw s.draw change change.effect }
{}

/// A request with a CAS other than 0 changes only a document that is there and has this CAS.
pub fn cas_guards_changes()
    ensures { (s : Setting) (request : Request) (doc : Option Doc) →
        request.cas ≢ 0 → effect_of (document_step s request doc) ≢ effects.Nothing →
        (found : Doc) × (there s.now doc ≡ Some found) × (found.cas ≡ request.cas) }
{}

/// A document whose expiry has passed is as one that isn't there, whatever is asked.
pub fn expired_is_absent()
    ensures { (s : Setting) (request : Request) (doc : Doc) →
        IsTrue (is_expired doc.expiry s.now) → document_step s request (Some doc) ≡ document_step s request None }
{}

/// An Add changes nothing where a document is there.
pub fn adding_keeps_what_is_there()
    ensures { (s : Setting) (request : Request) (doc found : Doc) (key : DocKey) (flags expiry : ℕ) (value : List ℕ) →
        request.body ≡ bodies.Store key modes.Add flags expiry value → there s.now (Some doc) ≡ Some found →
        effect_of (document_step s request (Some doc)) ≡ effects.Nothing }
{}

/// A number that is counted up and then down by as much is the number that it was, where it doesn't pass 64 bits and
/// its document doesn't expire in between.
pub fn count_up_and_down()
    ensures { (s t : Setting) (up down : Request) (key : DocKey) (delta initial other expiry later number : ℕ) (doc : Doc) →
        up.body ≡ bodies.Count key Bool.true delta initial expiry → up.cas ≡ 0 →
        down.body ≡ bodies.Count key Bool.false delta other later → down.cas ≡ 0 →
        there s.now (Some doc) ≡ Some doc → there t.now (Some doc) ≡ Some doc →
        number_of doc.value ≡ Some number → number + delta < 2 ^ 64 →
        (raised lowered : Doc) × (effect_of (document_step s up (Some doc)) ≡ effects.Put raised)
        × (effect_of (document_step t down (Some raised)) ≡ effects.Put lowered)
        × (lowered.value ≡ decimal number) × (number_of lowered.value ≡ Some number) }
{}

/// Append and Prepend leave flags, expiry and extended attributes.
pub fn joining_keeps_the_rest()
    ensures { (s : Setting) (request : Request) (doc : Option Doc) (key : DocKey) (front : Bool) (value : List ℕ) (made : Doc) →
        request.body ≡ bodies.Join key front value → effect_of (document_step s request doc) ≡ effects.Put made →
        (found : Doc) × (there s.now doc ≡ Some found)
        × (made.flags ≡ found.flags) × (made.expiry ≡ found.expiry) × (made.xattrs ≡ found.xattrs) }
{}

/// Touch leaves value, flags and extended attributes.
pub fn touching_keeps_the_value()
    ensures { (s : Setting) (request : Request) (doc : Option Doc) (key : DocKey) (expiry : ℕ) (fetch : Bool) (made : Doc) →
        request.body ≡ bodies.Touch key expiry fetch → effect_of (document_step s request doc) ≡ effects.Put made →
        (found : Doc) × (there s.now doc ≡ Some found)
        × (made.value ≡ found.value) × (made.flags ≡ found.flags) × (made.xattrs ≡ found.xattrs) }
{}

/// Where a reply can carry the document that is there, the reply has a frame, and a reply can carry what is stored. An
/// initial value is to be below 2^64, as one of the type `u64` is.
pub fn small_stays_small()
    ensures { (s : Setting) (request : Request) (doc : Option Doc) (change : Change) →
        s.draw < 2 ^ 64 → IsSmallRequest request → HasSmallInitial request.body → IfSome doc IsSmallDoc →
        document_step s request doc ≡ Ok change → IsSmallChange change }
{}

/// The limits are these numbers.
pub fn step_numbers()
    ensures relative { RELATIVE_LIMIT ≡ 2592000 }
    ensures last { LAST_EXPIRY ≡ 4294967295 }
    ensures no_initial { NO_INITIAL ≡ 4294967295 }
    ensures digits { DIGITS_LIMIT ≡ 20 }
{}
