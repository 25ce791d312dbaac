ghost use Rattle.std.specs.Prelude.{◌≡◌, ◌++◌, ◌<◌, ◌≤◌, ◌^◌, ◌↔◌, ℕ, length, IsTrue, IfOk, IfErr, OnOk};
ghost use Rattle.std.specs.Int.{w32, w64, to_be_bytes, from_bool};
ghost use Rattle.vb_log.specs.declared.limits.TheConstants.{GREATEST_CAS};
ghost use Rattle.vb_log.specs.Layout.{Layout, Spells, as_section, number, four};
ghost use Rattle.vb_log.specs.Spelling.{IsAllowedDoc, IsAllowedWhat, sized, doc_bytes, what_bytes};
ghost use Rattle.vb_log.specs.Spelling.{cas_layout, attributes_layout, head_layout, doc_layout, what_layout};
ghost use Rattle.vb_log.specs.Faults.{IsBroken};
ghost use Rattle.vb_log.specs.Reading.{CasAt, HeadAt, AttributesAt, DocAt, WhatAt};

use crate::fields::{FieldFault, byte_within, sized_at, u32_within, u64_within};
use crate::limits::SECTION_LIMIT;
use doc_model::{Doc, VALUE_LIMIT, What};
use kv_edge::{Bytes, NoMemory};
use std::alloc::Global;
use xattr_body::{XattrFault, read};

/// What says that a change is a document.
const PUT: u8 = 1;

/// What says that a change is a deletion.
const REMOVE: u8 = 2;

/// Appends bytes behind their length.
pub(crate) fn add_sized(out: &mut Vec<u8>, bytes: &[u8]) -> Result<(), NoMemory>
    requires { length bytes.now < 2 ^ 32 }
    ensures { OnOk result (out.new.items ≡ out.old.items ++ sized bytes.now) }
{
    out.extend_from_slice(&(bytes.len() as u32).to_be_bytes())?;
    out.extend_from_slice(bytes)?;
    Ok(())
}

/// Appends a document.
pub(crate) fn add_doc(out: &mut Vec<u8>, doc: &Doc) -> Result<(), NoMemory>
    requires { IsAllowedDoc doc.now }
    ensures { OnOk result (out.new.items ≡ out.old.items ++ doc_bytes doc.now) }
{
    out.extend_from_slice(&doc.cas.to_be_bytes())?;
    out.extend_from_slice(&doc.flags.to_be_bytes())?;
    out.extend_from_slice(&doc.expiry.to_be_bytes())?;
    out.push(u8::from(doc.json))?;
    add_sized(out, doc.xattrs.as_slice())?;
    add_sized(out, doc.value.as_slice())?;
    Ok(())
}

/// Appends a change.
pub(crate) fn add_what(out: &mut Vec<u8>, what: &What) -> Result<(), NoMemory>
    requires { IsAllowedWhat what.now }
    ensures { OnOk result (out.new.items ≡ out.old.items ++ what_bytes what.now) }
{
    match what {
        What::Put(doc) => {
            out.push(PUT)?;
            add_doc(out, doc)?;
            Ok(())
        }
        What::Remove(cas) => {
            out.push(REMOVE)?;
            out.extend_from_slice(&cas.to_be_bytes())?;
            Ok(())
        }
    }
}

/// The CAS at the front, which may not be above another, and the bytes behind it.
pub(crate) fn cas_at(bytes: &[u8], most: u64) -> Result<(u64, &[u8]), FieldFault>
    requires { most ≤ GREATEST_CAS }
    ensures found { IfOk result (λ x. CasAt most bytes.now x.0 x.1.now) }
    ensures broken { (next : Layout) → IfErr result (IsBroken (cas_layout most next) bytes.now) }
{
    let (cas, rest) = u64_within(bytes, 0, most)?;
    Ok((cas, rest))
}

/// What a document has beside its bytes: CAS, flags, expiry, and whether its value is JSON.
#[derive(Drop)]
struct Head {
    cas: u64,
    flags: u32,
    expiry: u32,
    json: bool,
}

/// What a document at the front has beside its bytes, and the bytes behind that.
fn head_at(bytes: &[u8], most: u64) -> Result<(Head, &[u8]), FieldFault>
    requires { most ≤ GREATEST_CAS }
    ensures found { IfOk result (λ x. HeadAt most bytes.now x.0 x.1.now) }
    ensures broken { (next : Layout) → IfErr result (IsBroken (head_layout most next) bytes.now) }
{
    let (cas, behind_cas) = cas_at(bytes, most)?;
    let (flags, behind_flags) = u32_within(behind_cas, u32::MAX)?;
    let (expiry, behind_expiry) = u32_within(behind_flags, u32::MAX)?;
    let (json, rest) = byte_within(behind_expiry, 0, 1)?;
    let json = json == 1;
    Ok((
        Head {
            cas,
            flags,
            expiry,
            json,
        },
        rest,
    ))
}

/// The attributes at the front, behind their length, and the bytes behind them.
fn attributes_at(alloc: Global, bytes: &[u8]) -> Result<(&[u8], &[u8]), FieldFault>
    ensures found { IfOk result (λ x. AttributesAt bytes.now x.0.now x.1.now) }
    ensures broken { (next : Layout) → IfErr result (IsBroken (attributes_layout next) bytes.now) }
{
    let (section, rest) = sized_at(bytes, SECTION_LIMIT as u32)?;
    if is_section(alloc, section)? {
        Ok((section, rest))
    } else {
        Err(FieldFault::Broken(section.len() + rest.len()))
    }
}

/// Whether bytes are the section of some attributes.
pub(crate) fn is_section(alloc: Global, bytes: &[u8]) -> Result<bool, NoMemory>
    ensures { IfOk result (λ b. IsTrue b ↔ Spells as_section bytes.now) }
{
    match read(alloc, bytes) {
        Ok(_) => Ok(true),
        Err(XattrFault::Bad(_)) => Ok(false),
        Err(XattrFault::NoMemory) => Err(NoMemory),
    }
}

/// Reads the document at the front, whose CAS may not be above another, and the bytes behind it. It
/// has the sequence number 0.
pub(crate) fn doc_at(alloc: Global, bytes: &[u8], most: u64) -> Result<(Doc, &[u8]), FieldFault>
    requires { most ≤ GREATEST_CAS }
    ensures found { IfOk result (λ x. DocAt most bytes.now x.0 x.1.now) }
    ensures broken { (next : Layout) → IfErr result (IsBroken (doc_layout most next) bytes.now) }
{
    let (head, behind_head) = head_at(bytes, most)?;
    let (section, behind_section) = attributes_at(alloc, behind_head)?;
    let (piece, rest) = sized_at(behind_section, VALUE_LIMIT as u32)?;
    let xattrs = Bytes::from_slice(alloc, section)?;
    let value = Bytes::from_slice(alloc, piece)?;
    Ok((
        Doc {
            value,
            xattrs,
            flags: head.flags,
            expiry: head.expiry,
            cas: head.cas,
            seqno: 0,
            json: head.json,
        },
        rest,
    ))
}

/// Reads the change at the front, whose CAS may not be above another, and the bytes behind it.
pub(crate) fn what_at(alloc: Global, bytes: &[u8], most: u64) -> Result<(What, &[u8]), FieldFault>
    requires { most ≤ GREATEST_CAS }
    ensures found { IfOk result (λ x. WhatAt most bytes.now x.0 x.1.now) }
    ensures broken { (next : Layout) → IfErr result (IsBroken (what_layout most next) bytes.now) }
{
    let (tag, behind) = byte_within(bytes, PUT, REMOVE)?;
    if tag == PUT {
        let (doc, rest) = doc_at(alloc, behind, most)?;
        Ok((What::Put(doc), rest))
    } else {
        let (cas, rest) = cas_at(behind, most)?;
        Ok((What::Remove(cas), rest))
    }
}
