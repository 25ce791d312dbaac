ghost use Rattle.std.specs.Prelude.{◌≡◌, ◌++◌, nat_eq, map, IsTrue, IfOk, OnOk};
ghost use Rattle.std.specs.List.{list_any};
ghost use Rattle.std.specs.List.Sorted.{IsNonDecreasing, IsPermutation};
ghost use Rattle.manifest_rules.specs.Catalog.{scope_ids, collection_ids};
ghost use Rattle.manifest_rules.specs.Rules.{lost, with_ids as with_all};
ghost use Rattle.manifest_rules.specs.Ids.{SameIds, IsPassed};
ghost use Rattle.manifest_rules.specs.State.{are_rising};

use crate::types::Scope;
use kv_edge::NoMemory;
use std::alloc::Global;

/// Whether one of the ids is among others, which rise.
pub(crate) fn share_id(ids: &[u32], others: &[u32]) -> bool
    requires { IsTrue (are_rising others.now) }
    ensures { result ≡ list_any (λ id. list_any (nat_eq id) others.now) ids.now }
{
    for id in ids {
        if is_among_sorted(others, *id) {
            return true;
        }
    }
    false
}

/// A copy of ids from the least to the greatest.
pub(crate) fn sorted(alloc: Global, ids: &[u32]) -> Result<Vec<u32>, NoMemory>
    ensures same { IfOk result (λ sorted. IsPermutation ids.now sorted.items) }
    ensures sorted { IfOk result (λ sorted. IsNonDecreasing sorted.items) }
{
    let mut sorted = Vec::from_slice(alloc, ids)?;
    sorted.sort_unstable();
    Ok(sorted)
}

/// Whether an id is among ids that stand from the least to the greatest.
pub(crate) fn is_among_sorted(ids: &[u32], id: u32) -> bool
    requires { IsNonDecreasing ids.now }
    ensures { result ≡ list_any (nat_eq id) ids.now }
{
    ids.binary_search(&id).is_ok()
}

/// The ids of scopes, in order.
pub(crate) fn ids_of_scopes(alloc: Global, scopes: &[Scope]) -> Result<Vec<u32>, NoMemory>
    ensures { IfOk result (λ ids. ids.items ≡ scope_ids scopes.now) }
{
    let mut ids = Vec::new(alloc);
    for scope in scopes {
        ids.push(scope.id)?;
    }
    Ok(ids)
}

/// The ids of the collections of all scopes, in order.
pub(crate) fn ids_of_collections(alloc: Global, scopes: &[Scope]) -> Result<Vec<u32>, NoMemory>
    ensures { IfOk result (λ ids. ids.items ≡ collection_ids scopes.now) }
{
    let mut ids = Vec::new(alloc);
    for scope in scopes {
        add_ids(&mut ids, scope)?;
    }
    Ok(ids)
}

/// Adds the ids of the collections of a scope.
fn add_ids(ids: &mut Vec<u32>, scope: &Scope) -> Result<(), NoMemory>
    ensures { OnOk result (ids.new.items ≡ ids.old.items ++ map (λ c. c.id) scope.now.collections) }
{
    for collection in scope.collections.as_slice() {
        ids.push(collection.id)?;
    }
    Ok(())
}

/// The ids that aren't among others.
pub(crate) fn lost_ids(alloc: Global, ids: &[u32], others: &[u32]) -> Result<Vec<u32>, NoMemory>
    ensures { IfOk result (λ found. found.items ≡ lost ids.now others.now) }
{
    let others = sorted(alloc, others)?;
    Ok(lost_to(alloc, ids, others.as_slice())?)
}

/// The ids that aren't among others, which stand from the least to the greatest.
fn lost_to(alloc: Global, ids: &[u32], others: &[u32]) -> Result<Vec<u32>, NoMemory>
    requires { IsNonDecreasing others.now }
    ensures { IfOk result (λ found. found.items ≡ lost ids.now others.now) }
{
    let mut found = Vec::new(alloc);
    for id in ids {
        if !is_among_sorted(others, *id) {
            found.push(*id)?;
        }
    }
    Ok(found)
}

/// A copy of ids in rising order, with others added.
pub(crate) fn with_ids(alloc: Global, ids: &[u32], others: &[u32]) -> Result<Vec<u32>, NoMemory>
    requires { IsTrue (are_rising ids.now) }
    ensures value { IfOk result (λ all. all.items ≡ with_all others.now ids.now) }
    ensures rising { IfOk result (λ all. IsTrue (are_rising all.items)) }
{
    let others = rising(alloc, others)?;
    Ok(merged(alloc, ids, others.as_slice())?)
}

/// The ids in rising order, each once.
fn rising(alloc: Global, ids: &[u32]) -> Result<Vec<u32>, NoMemory>
    ensures rising { IfOk result (λ rising. IsTrue (are_rising rising.items)) }
    ensures same { IfOk result (λ rising. SameIds rising.items ids.now) }
{
    let mut rising = Vec::from_slice(alloc, ids)?;
    rising.sort_unstable();
    rising.dedup();
    Ok(rising)
}

/// The ids of two lists in rising order, each once.
fn merged(alloc: Global, ids: &[u32], others: &[u32]) -> Result<Vec<u32>, NoMemory>
    requires { IsTrue (are_rising others.now) }
    ensures { IfOk result (λ all. all.items ≡ with_all others.now ids.now) }
{
    let mut all = Vec::new(alloc);
    let mut left = others;
    for id in ids {
        left = add_below(&mut all, left, *id)?;
        all.push(*id)?;
    }
    all.extend_from_slice(left)?;
    Ok(all)
}

/// Adds those of the ids in rising order that are below one, and answers those above it.
fn add_below<'i>(all: &mut Vec<u32>, ids: &'i [u32], id: u32) -> Result<&'i [u32], NoMemory>
    requires { IsTrue (are_rising ids.now) }
    ensures { IfOk result (λ left. IsPassed id ids.now left.now all.old.items all.new.items) }
{
    let mut left = ids;
    while let [first, rest @ ..] = left {
        if *first > id {
            return Ok(left);
        }
        if *first < id {
            all.push(*first)?;
        }
        left = rest;
    }
    Ok(left)
}
