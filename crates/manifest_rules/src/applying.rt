ghost use Rattle.std.specs.Prelude.{◌≡◌, [], false, Ok, IfOk, IfErr, IfSome, OnErr, IsTrue, ◌&&◌};
ghost use Rattle.std.specs.Cmp.Lexicographic.{pointwise};
ghost use Rattle.manifest_rules.specs.Catalog.{scope_ids, collection_ids};
ghost use Rattle.manifest_rules.specs.Rules.{same_scope, is_small, obeys_alone, follows, obeys, manifest_step, lost, IsRefusedStep};
ghost use Rattle.manifest_rules.specs.Applying.{text_step, bare, ComesTo, BothRise, taken_of, taken_if, Drops};
ghost use Rattle.manifest_rules.specs.State.{is_kept};

use crate::following::follows;
use crate::ids::{ids_of_collections, lost_ids, with_ids};
use crate::manifest::{
    Manifest, dropped_collections, dropped_scopes, manifest_of, scopes, uid, with_dropped,
};
use crate::reading::{Parts, read_parts};
use crate::sound::{Ids, ids_of, obeys_itself};
use crate::types::{DROPPED_LIMIT, Scope};
use doc_model::{Refused, Status};
use kv_edge::{NoMemory, Seq};
use std::alloc::Global;

/// What a manifest did that took the place of another.
#[derive(Debug, Drop)]
pub struct Dropped {
    /// The ids of collections that were there and aren't any more.
    pub collections: Seq<u32>,
    /// Whether anything changed.
    pub changed: bool,
}

/// The ids that are dropped where a manifest takes the place of another.
#[derive(Drop)]
pub(crate) struct Taken {
    /// The ids of scopes that were ever dropped, in rising order.
    scopes: Seq<u32>,
    /// The ids of collections that were ever dropped, in rising order.
    collections: Seq<u32>,
    /// The ids of collections that are dropped by this manifest.
    dropped: Seq<u32>,
}

/// Applies a manifest over another. `MANIFEST_IS_AHEAD` where its uid is smaller; `CANNOT_APPLY_MANIFEST` where its uid is
/// equal and its scopes aren't, or where its uid is greater and it breaks a rule. At `Err` the old manifest is as before.
pub fn apply(alloc: Global, old: &mut Manifest, new: Manifest) -> Result<Dropped, Refused>
    ensures step { IfOk result (λ d. manifest_step old.old new ≡ Ok (record { after = old.new; dropped = d.collections; changed = d.changed })) }
    ensures refused { IfErr result (IsRefusedStep (manifest_step old.old new)) }
    ensures unchanged { OnErr result (old.new ≡ old.old) }
    ensures kept { IsTrue (is_kept old.old) → IsTrue (is_kept old.new) }
{
    match outcome(alloc, old, uid(&new), scopes(&new))? {
        Some(taken) => {
            *old = with_dropped(new, taken.scopes, taken.collections);
            Ok(Dropped {
                collections: taken.dropped,
                changed: true,
            })
        }
        None => Ok(nothing_dropped(alloc)),
    }
}

/// Applies the manifest that bytes are over another. `EINVAL` where they are none, and else as `apply`. A manifest that is
/// refused costs no more than its own text and a walk over the one that is there, which isn't copied. At `Err` the old
/// manifest is as before.
pub fn apply_text(alloc: Global, old: &mut Manifest, text: &[u8]) -> Result<Dropped, Refused>
    ensures step { IfOk result (λ d. text_step old.old text.now ≡ Ok (record { after = old.new; dropped = d.collections; changed = d.changed })) }
    ensures refused { IfErr result (IsRefusedStep (text_step old.old text.now)) }
    ensures unchanged { OnErr result (old.new ≡ old.old) }
    ensures kept { IsTrue (is_kept old.old) → IsTrue (is_kept old.new) }
{
    let Parts { uid, scopes } = read_parts(alloc, text)?;
    match outcome(alloc, old, uid, scopes.as_slice())? {
        Some(taken) => {
            *old = manifest_of(alloc, uid, scopes, taken.scopes, taken.collections)?;
            Ok(Dropped {
                collections: taken.dropped,
                changed: true,
            })
        }
        None => Ok(nothing_dropped(alloc)),
    }
}

/// What `apply_text` would do with these bytes, which changes nothing. The status is the one with which it would refuse
/// them.
pub fn foresee_text(alloc: Global, old: &Manifest, text: &[u8]) -> Result<Dropped, Refused>
    ensures step { IfOk result (Drops (text_step old.now text.now)) }
    ensures refused { IfErr result (IsRefusedStep (text_step old.now text.now)) }
{
    let Parts { uid, scopes } = read_parts(alloc, text)?;
    match outcome(alloc, old, uid, scopes.as_slice())? {
        Some(taken) => Ok(Dropped {
            collections: taken.dropped,
            changed: true,
        }),
        None => Ok(nothing_dropped(alloc)),
    }
}

/// The ids of the collections that a manifest has and another hasn't.
pub fn lost_collections(alloc: Global, old: &Manifest, new: &Manifest) -> Result<Seq<u32>, NoMemory>
    ensures { IfOk result (λ ids. ids ≡ lost (collection_ids old.now.scopes) (collection_ids new.now.scopes)) }
{
    let before = ids_of_collections(alloc, scopes(old))?;
    let after = ids_of_collections(alloc, scopes(new))?;
    Ok(Seq::from_vec(lost_ids(alloc, before.as_slice(), after.as_slice())?))
}

/// What a manifest did that changes nothing.
fn nothing_dropped(alloc: Global) -> Dropped
    ensures collections { result.collections ≡ [] }
    ensures changed { result.changed ≡ false }
{
    Dropped {
        collections: Seq::new(alloc),
        changed: false,
    }
}

/// The ids that are dropped where a manifest of this uid and these scopes takes the place of another; none where it
/// changes nothing. The status is the one that refuses it.
fn outcome(
    alloc: Global,
    old: &Manifest,
    new: u64,
    scopes_after: &[Scope],
) -> Result<Option<Taken>, Refused>
    ensures taken { IfOk result (ComesTo old.now new scopes_after.now) }
    ensures rising { IfOk result (λ taken. IfSome taken BothRise) }
    ensures refused { IfErr result (IsRefusedStep (manifest_step old.now (bare new scopes_after.now))) }
{
    if new < uid(old) {
        return Err(Refused::Status(Status::MANIFEST_IS_AHEAD));
    }
    if new == uid(old) {
        if are_same(scopes(old), scopes_after) {
            return Ok(None);
        }
        return Err(Refused::Status(Status::CANNOT_APPLY_MANIFEST));
    }
    match successor(alloc, old, new, scopes_after)? {
        Some(taken) => Ok(Some(taken)),
        None => Err(Refused::Status(Status::CANNOT_APPLY_MANIFEST)),
    }
}

/// Whether scopes are equal in all, in the same order.
fn are_same(old: &[Scope], new: &[Scope]) -> bool
    ensures { result ≡ pointwise same_scope old.now new.now }
{
    old == new
}

/// The ids that are dropped where a manifest of a greater uid obeys the rules.
fn successor(
    alloc: Global,
    old: &Manifest,
    new: u64,
    scopes_after: &[Scope],
) -> Result<Option<Taken>, NoMemory>
    ensures taken { IfOk result (λ taken. taken ≡ taken_if (obeys old.now (bare new scopes_after.now)) old.now scopes_after.now) }
    ensures rising { IfOk result (λ taken. IfSome taken BothRise) }
{
    let after = ids_of(alloc, scopes_after)?;
    if !is_allowed(alloc, old, new, scopes_after, &after)? {
        return Ok(None);
    }
    let taken = dropped_by(alloc, old, &after)?;
    if taken.scopes.len() > DROPPED_LIMIT || taken.collections.len() > DROPPED_LIMIT {
        return Ok(None);
    }
    Ok(Some(taken))
}

/// The ids that are dropped where scopes and collections of these ids take the place of a manifest's.
fn dropped_by(alloc: Global, old: &Manifest, after: &Ids) -> Result<Taken, NoMemory>
    ensures taken { IfOk result (λ taken. taken ≡ taken_of old.now after.now.scopes.items after.now.collections.items) }
    ensures rising { IfOk result BothRise }
{
    let before = ids_of(alloc, scopes(old))?;
    let gone_scopes = lost_ids(alloc, before.scopes.as_slice(), after.scopes.as_slice())?;
    let gone = lost_ids(
        alloc,
        before.collections.as_slice(),
        after.collections.as_slice(),
    )?;
    let all_scopes = with_ids(alloc, dropped_scopes(old), gone_scopes.as_slice())?;
    let all = with_ids(alloc, dropped_collections(old), gone.as_slice())?;
    Ok(Taken {
        scopes: Seq::from_vec(all_scopes),
        collections: Seq::from_vec(all),
        dropped: Seq::from_vec(gone),
    })
}

/// Whether a manifest of this uid and these scopes, with these ids, obeys all rules but the limit on dropped ids.
fn is_allowed(
    alloc: Global,
    old: &Manifest,
    new: u64,
    scopes_after: &[Scope],
    ids: &Ids,
) -> Result<bool, NoMemory>
    requires of_scopes { ids.now.scopes.items ≡ scope_ids scopes_after.now }
    requires of_collections { ids.now.collections.items ≡ collection_ids scopes_after.now }
    ensures { IfOk result (λ b. b ≡ (is_small (bare new scopes_after.now) && obeys_alone scopes_after.now && follows old.now scopes_after.now)) }
{
    if !obeys_itself(alloc, new, scopes_after, ids)? {
        return Ok(false);
    }
    Ok(follows(
        old,
        scopes_after,
        ids.scopes.as_slice(),
        ids.collections.as_slice(),
    ))
}
