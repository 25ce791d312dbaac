//! The documents that changes store. None has a sequence number yet.

ghost use Rattle.std.specs.Prelude.{◌≡◌, ◌+◌, ◌++◌, ◌≤◌, length, IfOk};
ghost use Rattle.std.specs.Option.{option_copied};
ghost use Rattle.doc_step.specs.Replies.{json_of, with_value};
ghost use Rattle.doc_step.specs.Step.{kept_xattrs, stored_doc, new_counter, joined_value, touched_doc};
ghost use Rattle.doc_ops.specs.Planning.{setting_of};

use crate::counter::decimal;
use crate::expiry::{Setting, expiry_of};
use doc_model::Doc;
use json_spell::is_json;
use kv_edge::{Bytes, Copied, NoMemory};
use kv_request::VALUE_LIMIT;
use std::alloc::Global;

/// The document that a store leaves.
pub(crate) fn stored_doc(
    alloc: Global,
    setting: Setting,
    flags: u32,
    expiry: u32,
    value: &Bytes,
    doc: Option<&Doc>,
) -> Result<Doc, NoMemory>
    ensures { IfOk result (λ stored. stored ≡ stored_doc
        (setting_of setting) flags expiry value.now (option_copied doc.entry)) }
{
    let value = value.copy(alloc)?;
    let xattrs = kept_xattrs(alloc, doc)?;
    let json = json_of(value.as_slice());
    Ok(Doc {
        value,
        xattrs,
        flags,
        expiry: expiry_of(setting, expiry),
        cas: setting.draw,
        seqno: 0,
        json,
    })
}

/// The document that a counter begins with.
pub(crate) fn new_counter(
    alloc: Global,
    setting: Setting,
    initial: u64,
    expiry: u32,
) -> Result<Doc, NoMemory>
    ensures { IfOk result (λ counter. counter ≡ new_counter (setting_of setting) initial expiry) }
{
    let value = decimal(alloc, initial)?;
    let json = json_of(value.as_slice());
    Ok(Doc {
        value,
        xattrs: Bytes::new(alloc),
        flags: 0,
        expiry: expiry_of(setting, expiry),
        cas: setting.draw,
        seqno: 0,
        json,
    })
}

/// A document that is there with another value.
pub(crate) fn with_value(
    alloc: Global,
    setting: Setting,
    doc: &Doc,
    value: Bytes,
) -> Result<Doc, NoMemory>
    ensures { IfOk result (λ changed. changed ≡ with_value (setting_of setting) doc.now value) }
{
    let json = json_of(value.as_slice());
    Ok(Doc {
        value,
        xattrs: doc.xattrs.copy(alloc)?,
        flags: doc.flags,
        expiry: doc.expiry,
        cas: setting.draw,
        seqno: 0,
        json,
    })
}

/// A document that is there with another expiry.
pub(crate) fn touched_doc(
    alloc: Global,
    setting: Setting,
    doc: &Doc,
    expiry: u32,
) -> Result<Doc, NoMemory>
    ensures { IfOk result (λ touched. touched ≡ touched_doc (setting_of setting) doc.now expiry) }
{
    let mut touched = doc.copy(alloc)?;
    touched.json = json_of(touched.value.as_slice());
    touched.expiry = expiry_of(setting, expiry);
    touched.cas = setting.draw;
    touched.seqno = 0;
    Ok(touched)
}

/// A value with bytes before it or behind it.
pub(crate) fn joined_value(
    alloc: Global,
    front: bool,
    old: &[u8],
    value: &[u8],
) -> Result<Bytes, NoMemory>
    requires { length old.now + length value.now ≤ VALUE_LIMIT }
    ensures { IfOk result (λ joined. joined ≡ joined_value front old.now value.now) }
{
    if front {
        concat(alloc, value, old)
    } else {
        concat(alloc, old, value)
    }
}

/// Two slices in one allocation, of just their size.
fn concat(alloc: Global, first: &[u8], second: &[u8]) -> Result<Bytes, NoMemory>
    requires { length first.now + length second.now ≤ VALUE_LIMIT }
    ensures { IfOk result (λ bytes. bytes ≡ first.now ++ second.now) }
{
    let mut bytes = Vec::with_capacity(alloc, first.len() + second.len())?;
    bytes.extend_from_slice(first)?;
    bytes.extend_from_slice(second)?;
    Ok(Bytes::from_vec(bytes))
}

/// A copy of the extended attributes of the document that is there.
fn kept_xattrs(alloc: Global, doc: Option<&Doc>) -> Result<Bytes, NoMemory>
    ensures { IfOk result (λ xattrs. xattrs ≡ kept_xattrs (option_copied doc.entry)) }
{
    match doc {
        None => Ok(Bytes::new(alloc)),
        Some(doc) => doc.xattrs.copy(alloc),
    }
}

/// Whether a value is JSON text at most 32 deep. It takes no memory, and time as the value has bytes.
pub(crate) fn json_of(value: &[u8]) -> bool
    ensures { result ≡ json_of value.now }
{
    is_json(value)
}
