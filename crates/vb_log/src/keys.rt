ghost use Rattle.std.specs.Prelude.{◌≡◌, ◌++◌, IfOk, IfErr, OnOk, MatchOption};
ghost use Rattle.doc_model.specs.declared.key.DocKey.{DocKey};
ghost use Rattle.vb_log.specs.Keys.{name_limit, IsAllowedKey, spelt_key, key_bytes};
ghost use Rattle.vb_log.specs.Layout.{Layout};
ghost use Rattle.vb_log.specs.Spelling.{key_layout};
ghost use Rattle.vb_log.specs.Faults.{IsBroken};
ghost use Rattle.vb_log.specs.Reading.{KeyAt};

use crate::fields::{FieldFault, byte_within, run_of};
use crate::limits::SPELT_KEY_LIMIT;
use doc_model::{DocKey, KEY_LIMIT, OTHER_KEY_LIMIT};
use kv_edge::{Bytes, NoMemory};
use leb_collections::{read_id, write_id};
use std::alloc::Global;

/// Appends a key behind its length.
pub(crate) fn add_key(out: &mut Vec<u8>, key: &DocKey) -> Result<(), NoMemory>
    requires { IsAllowedKey key.now }
    ensures { OnOk result (out.new.items ≡ out.old.items ++ key_bytes key.now) }
{
    let mut id = [0u8; 5];
    let used = write_id(key.collection, &mut id);
    let (front, _) = id.split_at(used);
    out.push((used + key.key.len()) as u8)?;
    out.extend_from_slice(front)?;
    out.extend_from_slice(key.key.as_slice())?;
    Ok(())
}

/// Reads the key at the front, and the bytes behind it.
pub(crate) fn key_at(alloc: Global, bytes: &[u8]) -> Result<(DocKey, &[u8]), FieldFault>
    ensures found { IfOk result (λ x. KeyAt bytes.now x.0 x.1.now) }
    ensures broken { (next : Layout) → IfErr result (IsBroken (key_layout next) bytes.now) }
{
    let (size, rest) = byte_within(bytes, 0, SPELT_KEY_LIMIT)?;
    let (spelt, behind) = run_of(rest, size as usize)?;
    match key_of(alloc, spelt)? {
        Some(key) => Ok((key, behind)),
        None => Err(FieldFault::Broken(rest.len())),
    }
}

/// The key that bytes spell: a collection's id, and a name that keeps its limit.
fn key_of(alloc: Global, spelt: &[u8]) -> Result<Option<DocKey>, NoMemory>
    ensures { IfOk result (λ found.
        MatchOption found ((key : DocKey) → IsAllowedKey key → spelt.now ≡ spelt_key key → ⊥)
        (λ key. IsAllowedKey key × (spelt.now ≡ spelt_key key))) }
{
    let (collection, used) = match read_id(spelt) {
        Ok(found) => found,
        Err(_) => return Ok(None),
    };
    let (_, name) = spelt.split_at(used);
    if name.is_empty() || name.len() > name_limit(collection) {
        return Ok(None);
    }
    let key = Bytes::from_slice(alloc, name)?;
    Ok(Some(DocKey { collection, key }))
}

/// How many bytes a name has at most in a collection.
pub(crate) fn name_limit(collection: u32) -> usize
    ensures { result ≡ name_limit collection }
{
    if collection == 0 {
        KEY_LIMIT
    } else {
        OTHER_KEY_LIMIT
    }
}
