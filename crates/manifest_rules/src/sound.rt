ghost use Rattle.std.specs.Prelude.{◌≡◌, ◌&&◌, length, IfOk};
ghost use Rattle.manifest_rules.specs.Catalog.{scope_ids, collections_in, collection_ids};
ghost use Rattle.manifest_rules.specs.Applying.{bare};
ghost use Rattle.manifest_rules.specs.Rules.{is_small, obeys_alone};

use crate::ids::{ids_of_collections, ids_of_scopes};
use crate::rules::obeys_alone;
use crate::types::{COUNT_LIMIT, Scope};
use crate::writing::text_with;
use doc_model::MANIFEST_LIMIT;
use kv_edge::NoMemory;
use std::alloc::Global;

/// The ids of a manifest's scopes and collections, in order.
#[derive(Drop)]
pub(crate) struct Ids {
    pub(crate) scopes: Vec<u32>,
    pub(crate) collections: Vec<u32>,
}

/// The ids of scopes and their collections.
pub(crate) fn ids_of(alloc: Global, scopes: &[Scope]) -> Result<Ids, NoMemory>
    ensures of_scopes { IfOk result (λ ids. ids.scopes.items ≡ scope_ids scopes.now) }
    ensures of_collections { IfOk result (λ ids. ids.collections.items ≡ collection_ids scopes.now) }
{
    Ok(Ids {
        scopes: ids_of_scopes(alloc, scopes)?,
        collections: ids_of_collections(alloc, scopes)?,
    })
}

/// Whether a manifest of this uid and these scopes, with these ids, obeys the rules that don't speak of another manifest.
pub(crate) fn obeys_itself(
    alloc: Global,
    uid: u64,
    scopes: &[Scope],
    ids: &Ids,
) -> Result<bool, NoMemory>
    requires of_scopes { ids.now.scopes.items ≡ scope_ids scopes.now }
    requires of_collections { ids.now.collections.items ≡ collection_ids scopes.now }
    ensures { IfOk result (λ b. b ≡ (is_small (bare uid scopes.now) && obeys_alone scopes.now)) }
{
    // the limits come first, so that the rules have few to look at
    if !is_small(alloc, uid, scopes, ids.collections.len())? {
        return Ok(false);
    }
    obeys_alone(
        alloc,
        scopes,
        ids.scopes.as_slice(),
        ids.collections.as_slice(),
    )
}

/// Whether a manifest of this uid and these scopes, with so many collections, keeps the limits.
fn is_small(alloc: Global, uid: u64, scopes: &[Scope], collections: usize) -> Result<bool, NoMemory>
    requires { collections ≡ length (collections_in scopes.now) }
    ensures { IfOk result (λ b. b ≡ is_small (bare uid scopes.now)) }
{
    if scopes.len() > COUNT_LIMIT || collections > COUNT_LIMIT {
        return Ok(false);
    }
    let text = text_with(alloc, uid, scopes)?;
    Ok(text.len() <= MANIFEST_LIMIT)
}
