ghost use Rattle.std.specs.Prelude.{◌≡◌, nat_eq, ◌&&◌, ◌||◌, not};
ghost use Rattle.std.specs.List.{list_all, list_any};
ghost use Rattle.manifest_rules.specs.Catalog.{scope_ids, collection_ids};
ghost use Rattle.manifest_rules.specs.Rules.{same_name, scopes_keep_names, collections_stay, none_revived, follows};

use crate::ids::share_id;
use crate::manifest::{Manifest, dropped_collections, dropped_scopes, scopes};
use crate::types::{Collection, Scope};

/// Whether scopes, with these ids of scopes and collections, obey the rules on a manifest that comes after another.
pub(crate) fn follows(
    old: &Manifest,
    new: &[Scope],
    scopes_by_id: &[u32],
    collections_by_id: &[u32],
) -> bool
    requires of_scopes { scopes_by_id.now ≡ scope_ids new.now }
    requires of_collections { collections_by_id.now ≡ collection_ids new.now }
    ensures { result ≡ follows old.now new.now }
{
    keep_names(scopes(old), new)
        && stay(scopes(old), new)
        && none_revived(old, scopes_by_id, collections_by_id)
}

/// Whether no id that was ever dropped is there again.
fn none_revived(old: &Manifest, scopes_by_id: &[u32], collections_by_id: &[u32]) -> bool
    ensures { result ≡ (not (list_any (λ id. list_any (nat_eq id) old.now.dropped_scopes) scopes_by_id.now) && not (list_any (λ id. list_any (nat_eq id) old.now.dropped_collections) collections_by_id.now)) }
{
    !share_id(scopes_by_id, dropped_scopes(old))
        && !share_id(collections_by_id, dropped_collections(old))
}

/// Whether the scopes that are in both keep their names.
fn keep_names(old: &[Scope], new: &[Scope]) -> bool
    ensures { result ≡ scopes_keep_names old.now new.now }
{
    new.iter().all(|scope| keeps_name(old, scope))
}

/// Whether a scope has the name that it had, if it was there.
fn keeps_name(old: &[Scope], scope: &Scope) -> bool
    ensures { result ≡ list_all (λ t. not (nat_eq scope.now.id t.id) || same_name scope.now.name t.name) old.now }
{
    old.iter().all(|other| scope.id != other.id || scope.name.as_slice() == other.name.as_slice())
}

/// Whether the collections that are in both keep their names and their scopes.
fn stay(old: &[Scope], new: &[Scope]) -> bool
    ensures { result ≡ collections_stay old.now new.now }
{
    all_stay(old, new)
}

/// The same, scope by scope.
fn all_stay(old: &[Scope], new: &[Scope]) -> bool
    ensures { result ≡ list_all (λ s. list_all (λ c. list_all (λ t. list_all (λ d. not (nat_eq c.id d.id) || (nat_eq s.id t.id && same_name c.name d.name)) t.collections) old.now) s.collections) new.now }
{
    new.iter().all(|scope| stays(old, scope))
}

/// Whether the collections of a scope have the names and the scope that they had, if they were there.
fn stays(old: &[Scope], scope: &Scope) -> bool
    ensures { result ≡ list_all (λ c. list_all (λ t. list_all (λ d. not (nat_eq c.id d.id) || (nat_eq scope.now.id t.id && same_name c.name d.name)) t.collections) old.now) scope.now.collections }
{
    scope
        .collections
        .as_slice()
        .iter()
        .all(|collection| collection_stays(old, scope.id, collection))
}

/// Whether a collection of a scope has the name and the scope that it had, if it was there.
fn collection_stays(old: &[Scope], scope: u32, collection: &Collection) -> bool
    ensures { result ≡ list_all (λ t. list_all (λ d. not (nat_eq collection.now.id d.id) || (nat_eq scope t.id && same_name collection.now.name d.name)) t.collections) old.now }
{
    old.iter().all(|other| stays_in(other, scope, collection))
}

/// Whether a collection of a scope has the name and the scope that it had, if it was in the other scope.
fn stays_in(other: &Scope, scope: u32, collection: &Collection) -> bool
    ensures { result ≡ list_all (λ d. not (nat_eq collection.now.id d.id) || (nat_eq scope other.now.id && same_name collection.now.name d.name)) other.now.collections }
{
    other
        .collections
        .as_slice()
        .iter()
        .all(|before| keeps_place(other.id, before, scope, collection))
}

/// Whether two collections with the scopes that they are in have different ids, or the same scope and name.
fn keeps_place(old_scope: u32, old: &Collection, new_scope: u32, new: &Collection) -> bool
    ensures { result ≡ (not (nat_eq new.now.id old.now.id) || (nat_eq new_scope old_scope && same_name new.now.name old.now.name)) }
{
    new.id != old.id || (new_scope == old_scope && new.name.as_slice() == old.name.as_slice())
}
