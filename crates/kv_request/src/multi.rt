//! Requests on several parts of a document: their specs, their checks, and what they ask for. Their
//! value is walked once for each check, so that no memory is taken before all are passed.

ghost use Rattle.std.specs.Prelude.{◌≡◌, true, false, length, option_map, IfOk};
ghost use Rattle.std.specs.List.{flat_map, list_all};
ghost use Rattle.kv_frame.specs.Viewing.{frame_seen};
ghost use Rattle.kv_request.specs.declared.opcode.Command.TheVariants as commands;
ghost use Rattle.kv_request.specs.declared.request.Body.TheVariants as bodies;
ghost use Rattle.kv_request.specs.Multi.{multi_expiry, multi_flags};
ghost use Rattle.kv_request.specs.Multi.{look_spec_at, edit_spec_at, spec_at, specs_in};
ghost use Rattle.kv_request.specs.Multi.{edits_parts, specs_of, is_of_kind, own_checks, attributes_first};
ghost use Rattle.kv_request.specs.Multi.{name_spelt, names_spelt, are_same, multi_checks};
ghost use Rattle.kv_request.specs.Tables.{first_failing};
ghost use Rattle.kv_request.specs.Viewing.{spec_seen, specs_at, AreSpecs, specs_checks};

use crate::opcode::{Command, part_command};
use crate::parts::{SpecView, are_doc_flags, check_spec, copy_spec};
use crate::reading::word_at;
use crate::request::{Body, Spec};
use doc_model::{DocKey, Status};
use kv_edge::{NoMemory, Seq, slice_at, u8_at, u16_at, u32_at};
use kv_frame::FrameView;
use std::alloc::Global;

/// How many specs a request has at most.
pub const MOST_SPECS: usize = 16;

/// The spec of a look-up at the front, and what follows it.
#[tactic(auto, unfolding(crate::specs::Multi::look_spec_at))]
fn look_spec_at(bytes: &[u8]) -> Option<(SpecView<'_>, &[u8])>
    ensures { option_map (λ x. (spec_seen x.0, x.1.now)) result ≡ look_spec_at bytes.now }
{
    let (opcode, rest) = u8_at(bytes)?;
    let (flags, rest) = u8_at(rest)?;
    let (size, rest) = u16_at(rest)?;
    let (path, rest) = slice_at(rest, usize::from(size))?;
    let spec = SpecView {
        opcode,
        flags,
        path,
        value: &[],
    };
    Some((spec, rest))
}

/// The spec of an edit at the front, and what follows it.
#[tactic(auto, unfolding(crate::specs::Multi::edit_spec_at))]
fn edit_spec_at(bytes: &[u8]) -> Option<(SpecView<'_>, &[u8])>
    ensures { option_map (λ x. (spec_seen x.0, x.1.now)) result ≡ edit_spec_at bytes.now }
{
    let (opcode, rest) = u8_at(bytes)?;
    let (flags, rest) = u8_at(rest)?;
    let (size, rest) = u16_at(rest)?;
    let (more, rest) = u32_at(rest)?;
    let (path, rest) = slice_at(rest, usize::from(size))?;
    let (value, rest) = slice_at(rest, more as usize)?;
    let spec = SpecView {
        opcode,
        flags,
        path,
        value,
    };
    Some((spec, rest))
}

/// The spec at the front, and what follows it.
fn spec_at(edits: bool, bytes: &[u8]) -> Option<(SpecView<'_>, &[u8])>
    ensures { option_map (λ x. (spec_seen x.0, x.1.now)) result ≡ spec_at edits bytes.now }
{
    if edits {
        edit_spec_at(bytes)
    } else {
        look_spec_at(bytes)
    }
}

/// The status of the first check that a request on several parts of a document fails.
pub(crate) fn check_multi(view: &FrameView<'_>, command: Command) -> Option<Status>
    ensures { result ≡ first_failing (multi_checks (frame_seen view.now) command) }
{
    if !are_doc_flags(command, multi_flags(view.extras)) {
        return Some(Status::EINVAL);
    }
    let edits = edits_parts(command);
    let Some(count) = count_specs(edits, view.value) else {
        return Some(Status::EINVAL);
    };
    if count == 0 || count > MOST_SPECS || !are_of_kind(edits, view.value) {
        return Some(Status::INVALID_COMBO);
    }
    check_specs(edits, view.value)
}

/// The status of the first check that the specs fail, behind those of their number and their kind.
#[tactic(auto, using(crate::proofs::Failing::fails_before, crate::proofs::Failing::passes_before))]
fn check_specs(edits: bool, bytes: &[u8]) -> Option<Status>
    requires { AreSpecs edits bytes.now }
    ensures { result ≡ first_failing (specs_checks edits (specs_at edits bytes.now)) }
{
    if let Some(status) = check_each(edits, bytes) {
        return Some(status);
    }
    if !attributes_first(edits, bytes) {
        return Some(Status::INVALID_XATTR_ORDER);
    }
    if edits && !have_one_name(edits, bytes) {
        return Some(Status::XATTR_INVALID_KEY_COMBO);
    }
    None
}

/// Whether a command on several parts edits them.
fn edits_parts(command: Command) -> bool
    ensures { result ≡ edits_parts command }
{
    command == Command::MultiEdit
}

/// How many specs the bytes are, or nothing where they aren't just specs.
#[tactic(auto, using(crate::proofs::Walking::specs_end, crate::proofs::Walking::spec_shorter))]
fn count_specs(edits: bool, bytes: &[u8]) -> Option<usize>
    ensures { result ≡ option_map length (specs_in edits bytes.now) }
{
    let mut count = 0;
    let mut rest = bytes;
    while let Some((_, behind)) = spec_at(edits, rest) {
        count += 1;
        rest = behind;
    }
    if rest.is_empty() { Some(count) } else { None }
}

/// Whether each spec is of the request's kind: an edit among edits, else a look-up.
#[tactic(auto, using(crate::proofs::Walking::walks, crate::proofs::Walking::walked))]
fn are_of_kind(edits: bool, bytes: &[u8]) -> bool
    requires { AreSpecs edits bytes.now }
    ensures { result ≡ list_all (is_of_kind edits) (specs_at edits bytes.now) }
{
    let mut rest = bytes;
    while let Some((spec, behind)) = spec_at(edits, rest) {
        if !is_of_kind(edits, spec) {
            return false;
        }
        rest = behind;
    }
    true
}

/// Whether a spec is an edit, or else a look-up.
fn is_of_kind(edits: bool, spec: SpecView<'_>) -> bool
    ensures { result ≡ is_of_kind edits (spec_seen spec.entry) }
{
    match part_command(spec.opcode) {
        Some(Command::Edit(_)) => edits,
        Some(Command::Look(_)) => !edits,
        _ => false,
    }
}

/// The status of the first check that one of the specs fails by itself.
#[tactic(auto, using(crate::proofs::Walking::walks, crate::proofs::Walking::walked))]
fn check_each(edits: bool, bytes: &[u8]) -> Option<Status>
    requires { AreSpecs edits bytes.now }
    ensures { result ≡ first_failing (flat_map own_checks (specs_at edits bytes.now)) }
{
    let mut rest = bytes;
    while let Some((spec, behind)) = spec_at(edits, rest) {
        if let Some(status) = check_own(spec) {
            return Some(status);
        }
        rest = behind;
    }
    None
}

/// The status of the first check that a spec fails by itself.
fn check_own(spec: SpecView<'_>) -> Option<Status>
    ensures { result ≡ first_failing (own_checks (spec_seen spec.entry)) }
{
    let command = part_command(spec.opcode)?;
    check_spec(command, spec)
}

/// Whether no spec on an attribute stands behind one on the value.
#[tactic(auto, using(crate::proofs::Walking::walks, crate::proofs::Walking::walked))]
fn attributes_first(edits: bool, bytes: &[u8]) -> bool
    requires { AreSpecs edits bytes.now }
    ensures { result ≡ attributes_first (specs_at edits bytes.now) }
{
    let mut on_value = false;
    let mut rest = bytes;
    while let Some((spec, behind)) = spec_at(edits, rest) {
        if on_value && spec.is_attribute() {
            return false;
        }
        on_value = !spec.is_attribute();
        rest = behind;
    }
    true
}

/// Whether the specs on attributes all spell the same name at the front of their paths.
#[tactic(auto, using(crate::proofs::Walking::walks, crate::proofs::Walking::walked))]
fn have_one_name(edits: bool, bytes: &[u8]) -> bool
    requires { AreSpecs edits bytes.now }
    ensures { result ≡ are_same (names_spelt (specs_at edits bytes.now)) }
{
    let mut first: Option<&[u8]> = None;
    let mut rest = bytes;
    while let Some((spec, behind)) = spec_at(edits, rest) {
        if spec.is_attribute() {
            let name = name_spelt(spec.path);
            match first {
                None => first = Some(name),
                Some(other) => {
                    if other != name {
                        return false;
                    }
                }
            }
        }
        rest = behind;
    }
    true
}

/// The name at the front of a path as it is spelt: up to the first point or bracket outside backticks.
fn name_spelt(path: &[u8]) -> &[u8]
    ensures { result.now ≡ name_spelt false path.now }
{
    let mut quoted = false;
    let mut length = 0;
    while length < path.len() {
        let byte = path[length];
        if !quoted && (byte == b'.' || byte == b'[') {
            break;
        }
        if byte == b'`' {
            quoted = !quoted;
        }
        length += 1;
    }
    path.split_at(length).0
}

/// The expiry, where one is given.
fn multi_expiry(extras: &[u8]) -> Option<u32>
    ensures { result ≡ multi_expiry extras.now }
{
    if extras.len() < 4 {
        return None;
    }
    Some(word_at(0, extras))
}

/// The document's flags, 0 where none are given.
fn multi_flags(extras: &[u8]) -> u8
    ensures { result ≡ multi_flags extras.now }
{
    if extras.len() == 1 || extras.len() == 5 {
        extras[extras.len() - 1]
    } else {
        0
    }
}

/// Copies of the specs.
#[tactic(auto, using(crate::proofs::Walking::walks))]
fn copy_specs(alloc: Global, edits: bool, bytes: &[u8]) -> Result<Seq<Spec>, NoMemory>
    requires { AreSpecs edits bytes.now }
    ensures { IfOk result (λ made. made ≡ specs_at edits bytes.now) }
{
    let mut specs = Seq::new(alloc);
    let mut rest = bytes;
    while let Some((spec, behind)) = spec_at(edits, rest) {
        specs.push(copy_spec(alloc, spec)?)?;
        rest = behind;
    }
    Ok(specs)
}

/// Parts of a document to look at.
pub(crate) fn multi_look(alloc: Global, view: &FrameView<'_>, key: DocKey) -> Result<Body, NoMemory>
    requires { AreSpecs false view.now.value.now }
    ensures { IfOk result (λ made. made ≡ bodies.MultiLook key
        (specs_of commands.MultiLook (frame_seen view.now))) }
{
    let specs = copy_specs(alloc, false, view.value)?;
    Ok(Body::MultiLook { key, specs })
}

/// Parts of a document to edit.
pub(crate) fn multi_edit(alloc: Global, view: &FrameView<'_>, key: DocKey) -> Result<Body, NoMemory>
    requires { AreSpecs true view.now.value.now }
    ensures { IfOk result (λ made. made ≡ bodies.MultiEdit key
        (specs_of commands.MultiEdit (frame_seen view.now))
        (multi_expiry view.now.extras.now) (multi_flags view.now.extras.now)) }
{
    let specs = copy_specs(alloc, true, view.value)?;
    Ok(Body::MultiEdit {
        key,
        specs,
        expiry: multi_expiry(view.extras),
        doc_flags: multi_flags(view.extras),
    })
}
