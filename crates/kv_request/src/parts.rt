//! Requests on a part of a document: their checks, and what they ask for.

ghost use Rattle.std.specs.Prelude.{◌≡◌, ◌≤◌, true, length, IfOk};
ghost use Rattle.kv_frame.specs.Viewing.{frame_seen};
ghost use Rattle.kv_request.specs.declared.request.Body.TheVariants as bodies;
ghost use Rattle.kv_request.specs.Parts.{path_length, path_flags, given_expiry, doc_flags, spec_of};
ghost use Rattle.kv_request.specs.Parts.{is_attribute, are_doc_flags, spec_checks, part_checks};
ghost use Rattle.kv_request.specs.Tables.{has_form, body_checks, first_failing};
ghost use Rattle.kv_request.specs.Viewing.{spec_seen};

use crate::multi::check_multi;
use crate::opcode::Command;
use crate::reading::word_at;
use crate::request::{Body, Spec};
use doc_model::{DocKey, Status};
use kv_edge::{Bytes, NoMemory};
use kv_frame::FrameView;
use std::alloc::Global;

/// A path's flag: parts of the path that are absent are made.
pub const MAKES_PARENTS: u8 = 0x01;

/// A path's flag: the path leads into the extended attributes.
pub const IS_XATTR: u8 = 0x04;

/// A path's flag: macros in the value are expanded.
pub const EXPANDS_MACROS: u8 = 0x10;

/// A document's flag: a document is made where none is there.
pub const MAKES_DOCUMENT: u8 = 0x01;

/// A document's flag: a document is made, and none may be there.
pub const ADDS_DOCUMENT: u8 = 0x02;

/// The bits of a path's flags that say nothing.
const UNKNOWN_FLAGS: u8 = 0xea;

/// A path into a document where it lies, and what comes with it.
#[derive(Clone, Copy)]
pub(crate) struct SpecView<'a> {
    pub(crate) opcode: u8,
    pub(crate) flags: u8,
    pub(crate) path: &'a [u8],
    pub(crate) value: &'a [u8],
}

impl SpecView<'_> {
    /// Whether the path leads into the document's attributes, and not into its value.
    pub(crate) fn is_attribute(self) -> bool
        ensures { result ≡ is_attribute (spec_seen self.entry) }
    {
        self.flags & IS_XATTR != 0
    }
}

/// The status of the first check that what a command brings fails, beside key and CAS.
pub(crate) fn check_body(view: &FrameView<'_>, command: Command) -> Option<Status>
    requires { has_form (frame_seen view.now) command ≡ true }
    ensures { result ≡ first_failing (body_checks (frame_seen view.now) command) }
{
    match command {
        Command::Look(_) | Command::Edit(_) => check_part(view, command),
        Command::MultiLook | Command::MultiEdit => check_multi(view, command),
        _ => None,
    }
}

/// The status of the first check that a request on a part of a document fails.
fn check_part(view: &FrameView<'_>, command: Command) -> Option<Status>
    requires { 3 ≤ length view.now.extras.now }
    ensures { result ≡ first_failing (part_checks (frame_seen view.now) command) }
{
    if !are_doc_flags(command, doc_flags(view.extras)) {
        return Some(Status::EINVAL);
    }
    if path_length(view) > view.value.len() {
        return Some(Status::EINVAL);
    }
    let spec = spec_of(view);
    if !command.takes_value() && !spec.value.is_empty() {
        return Some(Status::EINVAL);
    }
    check_spec(command, spec)
}

/// The status of the first check that a path and its flags fail.
pub(crate) fn check_spec(command: Command, spec: SpecView<'_>) -> Option<Status>
    ensures { result ≡ first_failing (spec_checks command (spec_seen spec.entry)) }
{
    let is_attribute = spec.is_attribute();
    let expands_macros = spec.flags & EXPANDS_MACROS != 0;
    if spec.flags & UNKNOWN_FLAGS != 0 {
        return Some(Status::EINVAL);
    }
    if expands_macros && !is_attribute {
        return Some(Status::XATTR_INVALID_FLAG_COMBO);
    }
    if expands_macros {
        return Some(Status::XATTR_UNKNOWN_MACRO);
    }
    if spec.flags & MAKES_PARENTS != 0 && !command.may_make_parents() {
        return Some(Status::EINVAL);
    }
    if spec.path.is_empty() && (is_attribute || !command.takes_whole()) {
        return Some(Status::EINVAL);
    }
    None
}

/// How many bytes the path has.
fn path_length(view: &FrameView<'_>) -> usize
    requires { 3 ≤ length view.now.extras.now }
    ensures { result ≡ path_length (frame_seen view.now) }
{
    usize::from(u16::from_be_bytes([view.extras[0], view.extras[1]]))
}

/// What a frame asks for at which path, with what comes with it.
fn spec_of<'a>(view: &FrameView<'a>) -> SpecView<'a>
    requires { 3 ≤ length view.now.extras.now }
    ensures { spec_seen result ≡ spec_of (frame_seen view.now) }
{
    let length = path_length(view);
    let (path, value) = view.value.split_at(length.min(view.value.len()));
    SpecView {
        opcode: view.opcode,
        flags: view.extras[2],
        path,
        value,
    }
}

/// The expiry, where one is given.
fn given_expiry(extras: &[u8]) -> Option<u32>
    ensures { result ≡ given_expiry extras.now }
{
    if extras.len() < 7 {
        return None;
    }
    Some(word_at(3, extras))
}

/// The document's flags, 0 where none are given.
fn doc_flags(extras: &[u8]) -> u8
    ensures { result ≡ doc_flags extras.now }
{
    if extras.len() == 4 || extras.len() == 8 {
        extras[extras.len() - 1]
    } else {
        0
    }
}

/// Whether a command takes these flags of a document: look-ups none, edits one of two or none.
pub(crate) fn are_doc_flags(command: Command, flags: u8) -> bool
    ensures { result ≡ are_doc_flags command flags }
{
    match command {
        Command::Look(_) | Command::MultiLook => flags == 0,
        _ => flags == 0 || flags == MAKES_DOCUMENT || flags == ADDS_DOCUMENT,
    }
}

/// What is asked for at a path, with copies of path and value.
pub(crate) fn copy_spec(alloc: Global, spec: SpecView<'_>) -> Result<Spec, NoMemory>
    ensures { IfOk result (λ made. made ≡ spec_seen spec.entry) }
{
    let path = Bytes::from_slice(alloc, spec.path)?;
    let value = Bytes::from_slice(alloc, spec.value)?;
    Ok(Spec {
        opcode: spec.opcode,
        flags: spec.flags,
        path,
        value,
    })
}

/// A part of a document to look at.
pub(crate) fn look(alloc: Global, view: &FrameView<'_>, key: DocKey) -> Result<Body, NoMemory>
    requires { 3 ≤ length view.now.extras.now }
    ensures { IfOk result (λ made. made ≡ bodies.Look key (spec_of (frame_seen view.now))) }
{
    let spec = copy_spec(alloc, spec_of(view))?;
    Ok(Body::Look { key, spec })
}

/// A part of a document to edit.
pub(crate) fn edit(alloc: Global, view: &FrameView<'_>, key: DocKey) -> Result<Body, NoMemory>
    requires { 3 ≤ length view.now.extras.now }
    ensures { IfOk result (λ made. made ≡ bodies.Edit key (spec_of (frame_seen view.now))
        (given_expiry view.now.extras.now) (doc_flags view.now.extras.now)) }
{
    let spec = copy_spec(alloc, spec_of(view))?;
    Ok(Body::Edit {
        key,
        spec,
        expiry: given_expiry(view.extras),
        doc_flags: doc_flags(view.extras),
    })
}
