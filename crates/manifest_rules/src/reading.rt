ghost use Rattle.std.specs.Prelude.{◌≡◌, ◌≤◌, Some, option_map, IfOk, IfErr};
ghost use Rattle.std.specs.Str.{IsUtf8};
ghost use Rattle.serde_json.specs.View.{view, items_view};
ghost use Rattle.manifest_rules.specs.Form.{hex_number, text_at, id_at, items_at, lifetime_in, each_from};
ghost use Rattle.manifest_rules.specs.Form.{collection_from as collection_of, scope_from as scope_of, catalog_in, IsNoManifest};
ghost use Rattle.manifest_rules.specs.Parts.{AreParts, AreReadFrom};
ghost use Rattle.manifest_rules.specs.Reading.{member_lifetime, collection_with, scope_parts, catalog_parts};

use crate::manifest::{Manifest, manifest_of};
use crate::types::{Collection, Scope};
use doc_model::{Refused, Status};
use kv_edge::{Bytes, NoMemory, Seq};
use serde_json::Value;
use std::alloc::Global;

/// How many hexadecimal digits the id of a scope or a collection has at most.
const ID_DIGITS: usize = 8;

/// How many hexadecimal digits the uid of a manifest has at most.
const UID_DIGITS: usize = 16;

/// The uid and the scopes of a manifest that was read.
#[derive(Drop)]
pub(crate) struct Parts {
    pub(crate) uid: u64,
    pub(crate) scopes: Seq<Scope>,
}

/// The manifest that bytes are. `EINVAL` where they are no text of JSON, or the text hasn't the form of a manifest.
pub fn read_manifest(alloc: Global, bytes: &[u8]) -> Result<Manifest, Refused>
    ensures found { IfOk result (λ m. IsUtf8 bytes.now × (catalog_in bytes.now ≡ Some m)) }
    ensures refused { IfErr result (IsNoManifest bytes.now) }
{
    let Parts { uid, scopes } = read_parts(alloc, bytes)?;
    Ok(manifest_of(alloc, uid, scopes, Seq::new(alloc), Seq::new(alloc))?)
}

/// The uid and the scopes of the manifest that bytes are. `EINVAL` as where a manifest is read.
pub(crate) fn read_parts(alloc: Global, bytes: &[u8]) -> Result<Parts, Refused>
    ensures found { IfOk result (AreReadFrom bytes.now) }
    ensures refused { IfErr result (IsNoManifest bytes.now) }
{
    let value = match Value::from_slice(alloc, bytes) {
        Ok(value) => value,
        Err(error) => {
            if error.is_memory() {
                return Err(Refused::NoMemory);
            }
            return Err(Refused::Status(Status::EINVAL));
        }
    };
    match parts_from(alloc, &value)? {
        Some(parts) => Ok(parts),
        None => Err(Refused::Status(Status::EINVAL)),
    }
}

/// The uid and the scopes of the manifest that a value is.
fn parts_from(alloc: Global, value: &Value) -> Result<Option<Parts>, NoMemory>
    ensures { IfOk result (AreParts (view value.now)) }
{
    let (uid, items) = match manifest_parts(value) {
        Some(parts) => parts,
        None => return Ok(None),
    };
    match scopes_from(alloc, items)? {
        Some(scopes) => Ok(Some(Parts { uid, scopes })),
        None => Ok(None),
    }
}

/// The uid of a manifest and the values of its scopes.
fn manifest_parts(value: &Value) -> Option<(u64, &[Value])>
    ensures { option_map (λ x. (x.0, items_view x.1.now)) result ≡ catalog_parts (view value.now) }
{
    let uid = id_member(value, "uid", UID_DIGITS)?;
    let items = items_member(value, "scopes")?;
    Some((uid, items))
}

/// The scopes that values are.
fn scopes_from(alloc: Global, items: &[Value]) -> Result<Option<Seq<Scope>>, NoMemory>
    ensures { IfOk result (λ ss. ss ≡ each_from scope_of (items_view items.now)) }
{
    let mut scopes = Seq::new(alloc);
    for item in items {
        match scope_from(alloc, item)? {
            Some(scope) => scopes.push(scope)?,
            None => return Ok(None),
        }
    }
    Ok(Some(scopes))
}

/// The scope that a value is.
fn scope_from(alloc: Global, value: &Value) -> Result<Option<Scope>, NoMemory>
    ensures { IfOk result (λ s. s ≡ scope_of (view value.now)) }
{
    let (name, id, items) = match scope_parts(value) {
        Some(parts) => parts,
        None => return Ok(None),
    };
    match collections_from(alloc, items)? {
        Some(collections) => {
            let name = Bytes::from_slice(alloc, name.as_bytes())?;
            Ok(Some(Scope {
                name,
                id,
                collections,
            }))
        }
        None => Ok(None),
    }
}

/// The name and the id of a scope and the values of its collections.
fn scope_parts(value: &Value) -> Option<(&str, u32, &[Value])>
    ensures { option_map (λ x. (x.0.now, x.1, items_view x.2.now)) result ≡ scope_parts (view value.now) }
{
    let name = text_member(value, "name")?;
    let id = short_id_member(value, "uid")?;
    let items = items_member(value, "collections")?;
    Some((name, id, items))
}

/// The collections that values are.
fn collections_from(alloc: Global, items: &[Value]) -> Result<Option<Seq<Collection>>, NoMemory>
    ensures { IfOk result (λ cs. cs ≡ each_from collection_of (items_view items.now)) }
{
    let mut collections = Seq::new(alloc);
    for item in items {
        match collection_from(alloc, item)? {
            Some(collection) => collections.push(collection)?,
            None => return Ok(None),
        }
    }
    Ok(Some(collections))
}

/// The collection that a value is.
fn collection_from(alloc: Global, value: &Value) -> Result<Option<Collection>, NoMemory>
    ensures { IfOk result (λ c. c ≡ collection_of (view value.now)) }
{
    match collection_parts(value) {
        Some((name, id, max_ttl)) => {
            let name = Bytes::from_slice(alloc, name.as_bytes())?;
            Ok(Some(Collection { name, id, max_ttl }))
        }
        None => Ok(None),
    }
}

/// The name, the id and the greatest lifetime of a collection.
fn collection_parts(value: &Value) -> Option<(&str, u32, u32)>
    ensures { option_map (λ x. collection_with x.0.now x.1 x.2) result ≡ collection_of (view value.now) }
{
    let name = text_member(value, "name")?;
    let id = short_id_member(value, "uid")?;
    let max_ttl = lifetime_member(value)?;
    Some((name, id, max_ttl))
}

/// The greatest lifetime of a collection, 0 where it is left out.
fn lifetime_member(value: &Value) -> Option<u32>
    ensures { result ≡ member_lifetime (view value.now) }
{
    match value.get("maxTTL") {
        Some(lifetime) => u32::try_from(lifetime.as_u64()?).ok(),
        None => Some(0),
    }
}

/// A member that is a text.
fn text_member<'v>(value: &'v Value, name: &str) -> Option<&'v str>
    ensures { option_map (λ s. s.now) result ≡ text_at name.now (view value.now) }
{
    match value.get(name) {
        Some(member) => member.as_str(),
        None => None,
    }
}

/// A member that is a list.
fn items_member<'v>(value: &'v Value, name: &str) -> Option<&'v [Value]>
    ensures { option_map (λ vs. items_view vs.now) result ≡ items_at name.now (view value.now) }
{
    match value.get(name) {
        Some(member) => match member.as_array() {
            Some(items) => Some(items.as_slice()),
            None => None,
        },
        None => None,
    }
}

/// A member that is a text of at most eight hexadecimal digits.
fn short_id_member(value: &Value, name: &str) -> Option<u32>
    ensures { result ≡ id_at 8 name.now (view value.now) }
{
    let id = id_member(value, name, ID_DIGITS)?;
    Some(id as u32)
}

/// A member that is a text of at most so many hexadecimal digits.
fn id_member(value: &Value, name: &str, most: usize) -> Option<u64>
    requires { most ≤ 16 }
    ensures { result ≡ id_at most name.now (view value.now) }
{
    match text_member(value, name) {
        Some(text) => hex_number(text.as_bytes(), most),
        None => None,
    }
}

/// The number that a text of at most so many hexadecimal digits is, in either case.
fn hex_number(text: &[u8], most: usize) -> Option<u64>
    requires { most ≤ 16 }
    ensures { result ≡ hex_number most text.now }
{
    if text.is_empty() || text.len() > most {
        return None;
    }
    let mut number: u64 = 0;
    for byte in text {
        match char::from(*byte).to_digit(16) {
            Some(digit) => number = number * 16 + u64::from(digit),
            None => return None,
        }
    }
    Some(number)
}
