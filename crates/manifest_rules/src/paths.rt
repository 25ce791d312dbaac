ghost use Rattle.std.specs.Prelude.{◌≡◌, ◌≤◌, length, count_by, find};
ghost use Rattle.std.specs.List.{position_or_len};
ghost use Rattle.std.specs.Option.{option_copied};
ghost use Rattle.manifest_rules.specs.Paths.{is_dot, named, scope_at, scope_by, collection_in, collection_by};
ghost use Rattle.manifest_rules.specs.Rules.{same_name};

use crate::manifest::{Manifest, scopes};
use crate::types::{Collection, Scope};
use doc_model::Status;

/// The id of the scope that a path names before its first dot; an empty name is `_default`.
/// `UNKNOWN_SCOPE` where there is no such scope.
pub fn scope_of(manifest: &Manifest, path: &[u8]) -> Result<u32, Status>
    ensures { result ≡ scope_by manifest.now.scopes path.now }
{
    let (name, _) = path.split_at(first_dot(path));
    match scope_named(scopes(manifest), name) {
        Some(scope) => Ok(scope.id),
        None => Err(Status::UNKNOWN_SCOPE),
    }
}

/// The id of the collection that a path `scope.collection` names; an empty name is `_default`. `EINVAL` where the path
/// has not just one dot, `UNKNOWN_SCOPE` where there is no such scope, `UNKNOWN_COLLECTION` where the scope has no such
/// collection.
pub fn collection_of(manifest: &Manifest, path: &[u8]) -> Result<u32, Status>
    ensures { result ≡ collection_by manifest.now.scopes path.now }
{
    if dots(path) != 1 {
        return Err(Status::EINVAL);
    }
    let (name, rest) = path.split_at(first_dot(path));
    let (_, collection) = rest.split_at(1);
    match scope_named(scopes(manifest), name) {
        Some(scope) => collection_named(scope, collection),
        None => Err(Status::UNKNOWN_SCOPE),
    }
}

/// The id of the collection of this name in a scope.
fn collection_named(scope: &Scope, name: &[u8]) -> Result<u32, Status>
    ensures { result ≡ collection_in scope.now name.now }
{
    match collection_at(scope.collections.as_slice(), or_default(name)) {
        Some(collection) => Ok(collection.id),
        None => Err(Status::UNKNOWN_COLLECTION),
    }
}

/// The first collection of this name.
fn collection_at<'a>(collections: &'a [Collection], name: &[u8]) -> Option<&'a Collection>
    ensures { option_copied result ≡ find (λ c. same_name c.name name.now) collections.now }
{
    collections
        .iter()
        .find(|collection| collection.name.as_slice() == name)
}

/// The scope of this name.
fn scope_named<'a>(scopes: &'a [Scope], name: &[u8]) -> Option<&'a Scope>
    ensures { option_copied result ≡ scope_at scopes.now name.now }
{
    let name = or_default(name);
    scopes.iter().find(|scope| scope.name.as_slice() == name)
}

/// The name, or `_default` where it is empty.
fn or_default(name: &[u8]) -> &[u8]
    ensures { result.now ≡ named name.now }
{
    if name.is_empty() { b"_default" } else { name }
}

/// How many dots there are.
fn dots(path: &[u8]) -> usize
    ensures { result ≡ count_by is_dot path.now }
{
    path.iter().filter(|byte| **byte == b'.').count()
}

/// Where the first dot stands, or the length where there is none.
fn first_dot(path: &[u8]) -> usize
    ensures value { result ≡ position_or_len is_dot path.now }
    ensures within { result ≤ length path.now }
{
    for (at, byte) in path.iter().enumerate() {
        if *byte == b'.' {
            return at;
        }
    }
    path.len()
}
