ghost use Rattle.std.specs.Prelude.{◌≡◌, ◌++◌, map, decimal, string_bytes, IfOk, OnOk};
ghost use Rattle.manifest_rules.specs.Text.{hex, with_commas, comma_before, lifetime_text, collection_text, scope_text, manifest_text, text_of};

use crate::manifest::{Manifest, scopes, uid};
use crate::types::{Collection, Scope};
use kv_edge::{Bytes, NoMemory};
use std::alloc::{AllocError, Global};

/// The text of a manifest as JSON, without space.
pub fn text(alloc: Global, manifest: &Manifest) -> Result<Bytes, NoMemory>
    ensures { IfOk result (λ bytes. bytes ≡ text_of manifest.now) }
{
    text_with(alloc, uid(manifest), scopes(manifest))
}

/// The text of a manifest of this uid and these scopes.
pub(crate) fn text_with(alloc: Global, uid: u64, scopes: &[Scope]) -> Result<Bytes, NoMemory>
    ensures { IfOk result (λ bytes. bytes ≡ manifest_text uid scopes.now) }
{
    let mut out = Vec::new(alloc);
    add_manifest(alloc, &mut out, uid, scopes)?;
    Ok(Bytes::from_vec(out))
}

/// Adds the text of a manifest of this uid and these scopes.
fn add_manifest(
    alloc: Global,
    out: &mut Vec<u8>,
    uid: u64,
    scopes: &[Scope],
) -> Result<(), NoMemory>
    ensures { OnOk result (out.new.items ≡ out.old.items ++ manifest_text uid scopes.now) }
{
    out.extend_from_slice(b"{\"uid\":\"")?;
    add_hex(alloc, out, uid)?;
    out.extend_from_slice(b"\",\"scopes\":[")?;
    add_scopes(alloc, out, scopes)?;
    out.extend_from_slice(b"]}")?;
    Ok(())
}

/// Adds the texts of scopes, with commas between them.
fn add_scopes(alloc: Global, out: &mut Vec<u8>, scopes: &[Scope]) -> Result<(), NoMemory>
    ensures { OnOk result (out.new.items ≡ out.old.items ++ with_commas (map scope_text scopes.now)) }
{
    for (at, scope) in scopes.iter().enumerate() {
        add_comma(out, at)?;
        add_scope(alloc, out, scope)?;
    }
    Ok(())
}

/// Adds the text of a scope.
fn add_scope(alloc: Global, out: &mut Vec<u8>, scope: &Scope) -> Result<(), NoMemory>
    ensures { OnOk result (out.new.items ≡ out.old.items ++ scope_text scope.now) }
{
    out.extend_from_slice(b"{\"name\":\"")?;
    out.extend_from_slice(scope.name.as_slice())?;
    out.extend_from_slice(b"\",\"uid\":\"")?;
    add_hex(alloc, out, u64::from(scope.id))?;
    out.extend_from_slice(b"\",\"collections\":[")?;
    add_collections(alloc, out, scope.collections.as_slice())?;
    out.extend_from_slice(b"]}")?;
    Ok(())
}

/// Adds the texts of collections, with commas between them.
fn add_collections(
    alloc: Global,
    out: &mut Vec<u8>,
    collections: &[Collection],
) -> Result<(), NoMemory>
    ensures { OnOk result (out.new.items ≡ out.old.items ++ with_commas (map collection_text collections.now)) }
{
    for (at, collection) in collections.iter().enumerate() {
        add_comma(out, at)?;
        add_collection(alloc, out, collection)?;
    }
    Ok(())
}

/// Adds the text of a collection.
fn add_collection(alloc: Global, out: &mut Vec<u8>, collection: &Collection) -> Result<(), NoMemory>
    ensures { OnOk result (out.new.items ≡ out.old.items ++ collection_text collection.now) }
{
    out.extend_from_slice(b"{\"name\":\"")?;
    out.extend_from_slice(collection.name.as_slice())?;
    out.extend_from_slice(b"\",\"uid\":\"")?;
    add_hex(alloc, out, u64::from(collection.id))?;
    out.extend_from_slice(b"\"")?;
    add_lifetime(alloc, out, collection.max_ttl)?;
    out.extend_from_slice(b"}")?;
    Ok(())
}

/// Adds the member for a greatest lifetime, which is left out where any is granted.
fn add_lifetime(alloc: Global, out: &mut Vec<u8>, lifetime: u32) -> Result<(), NoMemory>
    ensures { OnOk result (out.new.items ≡ out.old.items ++ lifetime_text lifetime) }
{
    if lifetime != 0 {
        let text = decimal_text(alloc, lifetime)?;
        out.extend_from_slice(b",\"maxTTL\":")?;
        out.extend_from_slice(text.as_bytes())?;
    }
    Ok(())
}

/// Adds the comma that stands before the element at a place.
fn add_comma(out: &mut Vec<u8>, at: usize) -> Result<(), NoMemory>
    ensures { OnOk result (out.new.items ≡ out.old.items ++ comma_before at) }
{
    if at > 0 {
        out.extend_from_slice(b",")?;
    }
    Ok(())
}

/// Adds a number in hexadecimal digits.
fn add_hex(alloc: Global, out: &mut Vec<u8>, number: u64) -> Result<(), NoMemory>
    ensures { OnOk result (out.new.items ≡ out.old.items ++ hex number) }
{
    let text = hex_text(alloc, number)?;
    out.extend_from_slice(text.as_bytes())?;
    Ok(())
}

/// A number in hexadecimal digits.
fn hex_text(alloc: Global, number: u64) -> Result<String, AllocError>
    ensures { IfOk result (λ text. string_bytes text ≡ hex number) }
{
    format!(in alloc; "{number:x}")
}

/// A number in decimal digits.
fn decimal_text(alloc: Global, number: u32) -> Result<String, AllocError>
    ensures { IfOk result (λ text. string_bytes text ≡ decimal number) }
{
    format!(in alloc; "{number}")
}
