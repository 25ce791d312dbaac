ghost use Rattle.std.specs.Prelude.{◌≡◌, nat_eq, ◌&&◌, ◌||◌, not, map, codes, IfOk};
ghost use Rattle.std.specs.List.{list_all, list_any};
ghost use Rattle.manifest_rules.specs.Catalog.{scope_ids, collection_ids};
ghost use Rattle.manifest_rules.specs.Rules.{same_name, obeys_alone, is_name_byte, is_name, are_distinct, names_formed};
ghost use Rattle.manifest_rules.specs.Rules.{scopes_distinct, collections_distinct, names_differ_in, is_reserved};
ghost use Rattle.manifest_rules.specs.Rules.{has_default_scope, default_is_in_place};

use crate::types::{Collection, NAME_LIMIT, Scope};
use kv_edge::{Copied, NoMemory};
use std::alloc::Global;
use std::collections::BTreeSet;

/// The name of what is there from the beginning.
const DEFAULT: &[u8] = b"_default";

/// Whether a manifest of these scopes, with these ids of scopes and collections, obeys the rules that don't speak of
/// another manifest.
pub(crate) fn obeys_alone(
    alloc: Global,
    scopes: &[Scope],
    scopes_by_id: &[u32],
    collections_by_id: &[u32],
) -> Result<bool, NoMemory>
    requires of_scopes { scopes_by_id.now ≡ scope_ids scopes.now }
    requires of_collections { collections_by_id.now ≡ collection_ids scopes.now }
    ensures { IfOk result (λ b. b ≡ obeys_alone scopes.now) }
{
    let formed = are_named(scopes)
        && none_reserved(scopes_by_id, collections_by_id)
        && has_default(scopes)
        && all_default_in_place(scopes);
    if !formed {
        return Ok(false);
    }
    if !scopes_distinct(alloc, scopes, scopes_by_id)? {
        return Ok(false);
    }
    collections_distinct(alloc, scopes, collections_by_id)
}

/// Whether the names of scopes and collections have their form.
fn are_named(scopes: &[Scope]) -> bool
    ensures { result ≡ names_formed scopes.now }
{
    scopes_named(scopes) && all_collections_named(scopes)
}

/// Whether no two scopes share an id or a name.
fn scopes_distinct(alloc: Global, scopes: &[Scope], ids: &[u32]) -> Result<bool, NoMemory>
    requires { ids.now ≡ scope_ids scopes.now }
    ensures { IfOk result (λ b. b ≡ scopes_distinct scopes.now) }
{
    if !ids_differ(alloc, ids)? {
        return Ok(false);
    }
    scopes_differ(alloc, scopes)
}

/// Whether no two collections share an id, and no two of one scope a name.
fn collections_distinct(alloc: Global, scopes: &[Scope], ids: &[u32]) -> Result<bool, NoMemory>
    requires { ids.now ≡ collection_ids scopes.now }
    ensures { IfOk result (λ b. b ≡ collections_distinct scopes.now) }
{
    if !ids_differ(alloc, ids)? {
        return Ok(false);
    }
    all_collections_differ(alloc, scopes)
}

/// Whether no id is kept for the system.
fn none_reserved(scopes_by_id: &[u32], collections_by_id: &[u32]) -> bool
    ensures { result ≡ (not (list_any is_reserved scopes_by_id.now) && not (list_any is_reserved collections_by_id.now)) }
{
    !has_reserved(scopes_by_id) && !has_reserved(collections_by_id)
}

/// Whether the names of scopes have their form.
fn scopes_named(scopes: &[Scope]) -> bool
    ensures { result ≡ list_all (λ s. is_name s.name) scopes.now }
{
    scopes.iter().all(|scope| is_name(scope.name.as_slice()))
}

/// Whether the names of all collections have their form.
fn all_collections_named(scopes: &[Scope]) -> bool
    ensures { result ≡ list_all (λ s. list_all (λ c. is_name c.name) s.collections) scopes.now }
{
    scopes
        .iter()
        .all(|scope| collections_named(scope.collections.as_slice()))
}

/// Whether no two collections of one scope share a name.
fn all_collections_differ(alloc: Global, scopes: &[Scope]) -> Result<bool, NoMemory>
    ensures { IfOk result (λ b. b ≡ list_all names_differ_in scopes.now) }
{
    for scope in scopes {
        if !collections_differ(alloc, scope.collections.as_slice())? {
            return Ok(false);
        }
    }
    Ok(true)
}

/// Whether collection 0, if it is there, is `_default` in scope 0.
fn all_default_in_place(scopes: &[Scope]) -> bool
    ensures { result ≡ default_is_in_place scopes.now }
{
    scopes.iter().all(|scope| default_in_place(scope))
}

/// Whether the names of collections have their form.
fn collections_named(collections: &[Collection]) -> bool
    ensures { result ≡ list_all (λ c. is_name c.name) collections.now }
{
    collections
        .iter()
        .all(|collection| is_name(collection.name.as_slice()))
}

/// Whether a name has its form.
fn is_name(name: &[u8]) -> bool
    ensures { result ≡ is_name name.now }
{
    !name.is_empty() && name.len() <= NAME_LIMIT && has_name_bytes(name)
}

/// Whether each byte may stand in a name.
fn has_name_bytes(name: &[u8]) -> bool
    ensures { result ≡ list_all is_name_byte name.now }
{
    name.iter().all(|byte| is_name_byte(*byte))
}

/// Whether a byte may stand in a name.
fn is_name_byte(byte: u8) -> bool
    ensures { result ≡ is_name_byte byte }
{
    matches!(byte, b'A'..=b'Z' | b'a'..=b'z' | b'0'..=b'9' | b'_' | b'-' | b'%')
}

/// Whether each id comes once.
fn ids_differ(alloc: Global, ids: &[u32]) -> Result<bool, NoMemory>
    ensures { IfOk result (λ b. b ≡ are_distinct nat_eq ids.now) }
{
    let mut seen = BTreeSet::new(alloc);
    for id in ids {
        if !seen.insert(*id)? {
            return Ok(false);
        }
    }
    Ok(true)
}

/// Whether each scope has a name of its own.
fn scopes_differ(alloc: Global, scopes: &[Scope]) -> Result<bool, NoMemory>
    ensures { IfOk result (λ b. b ≡ are_distinct same_name (map (λ s. s.name) scopes.now)) }
{
    let mut seen = BTreeSet::new(alloc);
    for scope in scopes {
        if !seen.insert(scope.name.copy(alloc)?)? {
            return Ok(false);
        }
    }
    Ok(true)
}

/// Whether each collection of a scope has a name of its own.
fn collections_differ(alloc: Global, collections: &[Collection]) -> Result<bool, NoMemory>
    ensures { IfOk result (λ b. b ≡ are_distinct same_name (map (λ c. c.name) collections.now)) }
{
    let mut seen = BTreeSet::new(alloc);
    for collection in collections {
        if !seen.insert(collection.name.copy(alloc)?)? {
            return Ok(false);
        }
    }
    Ok(true)
}

/// Whether one of the ids is kept for the system.
fn has_reserved(ids: &[u32]) -> bool
    ensures { result ≡ list_any is_reserved ids.now }
{
    ids.iter().any(|id| matches!(*id, 1..=7))
}

/// Whether scope 0 is there, and is called `_default`.
fn has_default(scopes: &[Scope]) -> bool
    ensures { result ≡ has_default_scope scopes.now }
{
    scopes
        .iter()
        .any(|scope| scope.id == 0 && scope.name.as_slice() == DEFAULT)
}

/// Whether collection 0, if it is in this scope, is `_default` in scope 0.
fn default_in_place(scope: &Scope) -> bool
    ensures { result ≡ list_all (λ c. not (nat_eq c.id 0) || (nat_eq scope.now.id 0 && same_name c.name (codes "_default"))) scope.now.collections }
{
    scope.collections.as_slice().iter().all(|collection| collection.id != 0
        || (scope.id == 0 && collection.name.as_slice() == DEFAULT))
}
