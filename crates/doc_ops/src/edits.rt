//! Edits of parts of the document that is there, or of a new one where none is there and the request
//! asks for one.

ghost use Rattle.std.specs.Prelude.{◌≡◌, ℕ, ◌++◌, ◌≤◌, ◌<◌, [], ◌∷◌, List, true, false, not, find};
ghost use Rattle.std.specs.Prelude.{length, unwrap_or, Ok, OnOk, IfOk, IsSome};
ghost use Rattle.std.specs.Int.{w16, to_be_bytes};
ghost use Rattle.std.specs.Fmt.{signed_decimal};
ghost use Rattle.std.specs.Option.{option_copied, option_map};
ghost use Rattle.doc_model.specs.declared.document.Doc.{Doc};
ghost use Rattle.json_model.specs.Edit.{edit_of, makes_parents};
ghost use Rattle.kv_request.specs.declared.request.Spec.{Spec};
ghost use Rattle.kv_request.specs.Parts.{is_attribute};
ghost use Rattle.kv_request.specs.declared.multi.TheConstants.{MOST_SPECS};
ghost use Rattle.doc_step.specs.Expiry.{expiry_of};
ghost use Rattle.doc_step.specs.Replies.{changed, storing};
ghost use Rattle.doc_step.specs.Parts.{first_text, begun_value, doc_to_edit, makes_several, number_text};
ghost use Rattle.doc_step.specs.Parts.{edit_step, edit_result, edits_from, multi_edit_step};
ghost use Rattle.doc_step.specs.Step.{Plans};
ghost use Rattle.doc_ops.specs.Planning.{setting_of};
ghost use Rattle.doc_ops.specs.Edits.{Begins, FindsDoc, drafted, IsDraft, made_doc, made_number};
ghost use Rattle.doc_ops.specs.Edits.{IsMade, MakesValue, MakesAttributes, MakesDoc, FoldsTo};

use crate::documents::json_of;
use crate::expiry::{Setting, expiry_of};
use crate::replies::{part_failed, storing};
use doc_model::{Doc, Refused, Status};
use doc_step::{Change, Effect};
use kv_edge::{Bytes, NoMemory};
use kv_request::{ADDS_DOCUMENT, MAKES_PARENTS, Request, Spec};
use std::alloc::Global;
use subdoc_edit::{Edited, edit, edit_of};
use xattr_edit::EditedSection;

/// What edits begin with.
#[derive(Drop)]
pub(crate) struct Begun<'a> {
    value: &'a [u8],
    xattrs: &'a [u8],
    flags: u32,
    expiry: u32,
}

/// The value and the attributes that edits have made so far, none where they are as they were.
#[derive(Drop)]
pub(crate) struct Draft {
    value: Option<Bytes>,
    xattrs: Option<Bytes>,
}

/// What one edit made: a value, or the section of attributes.
#[derive(Drop)]
pub(crate) enum Made {
    Value(Edited),
    Attributes(EditedSection),
}

/// What several edits came to: all are made, with the results that the reply tells, or one is refused.
#[derive(Drop)]
pub(crate) enum Outcome {
    All(Draft, Bytes),
    RefusedAt(u8, Status),
}

/// An edit of a part of the document.
pub(crate) fn edit_at(
    alloc: Global,
    setting: Setting,
    request: &Request,
    spec: &Spec,
    expiry: Option<u32>,
    doc_flags: u8,
    doc: Option<&Doc>,
) -> Result<Change, Refused>
    ensures { Plans (edit_step (setting_of setting) request.now spec.now expiry doc_flags
        (option_copied doc.entry)) result }
{
    let text = begun_for(spec);
    let begun = match begin(setting, text, expiry, doc_flags, doc) {
        Ok(begun) => begun,
        Err(status) => return Err(Refused::Status(status)),
    };
    let made = match edit_one(alloc, spec, doc_flags, begun.value, begun.xattrs) {
        Ok(made) => made,
        Err(refused) => return Err(refused),
    };
    let mut draft = Draft {
        value: None,
        xattrs: None,
    };
    let number = take_made(&mut draft, made);
    let told = number_text(alloc, number)?;
    Ok(store(alloc, setting, request, &begun, draft, told)?)
}

/// Edits of several parts of the document, each of what those before it left: all of them, or none.
pub(crate) fn edit_each(
    alloc: Global,
    setting: Setting,
    request: &Request,
    specs: &[Spec],
    expiry: Option<u32>,
    doc_flags: u8,
    doc: Option<&Doc>,
) -> Result<Change, Refused>
    requires { length specs.now ≤ MOST_SPECS }
    ensures { Plans (multi_edit_step (setting_of setting) request.now specs.now expiry doc_flags
        (option_copied doc.entry)) result }
{
    let text = begun_value(specs);
    let begun = match begin(setting, text, expiry, doc_flags, doc) {
        Ok(begun) => begun,
        Err(status) => return Err(Refused::Status(status)),
    };
    match edit_all(alloc, specs, doc_flags, &begun)? {
        Outcome::All(draft, told) => Ok(store(alloc, setting, request, &begun, draft, told)?),
        Outcome::RefusedAt(place, status) => {
            let told = failure(alloc, place, status)?;
            Ok(Change {
                effect: Effect::Nothing,
                reply: part_failed(alloc, request, told),
            })
        }
    }
}

/// What edits begin with: the document that is there, or a new one of this text, without attributes.
fn begin<'a>(
    setting: Setting,
    text: &'static [u8],
    expiry: Option<u32>,
    doc_flags: u8,
    doc: Option<&'a Doc>,
) -> Result<Begun<'a>, Status>
    ensures { (specs : List Spec) → text.now ≡ begun_value specs → FindsDoc (doc_to_edit
        (setting_of setting) expiry doc_flags specs (option_copied doc.entry)) result }
{
    match doc {
        None => {
            if doc_flags == 0 {
                return Err(Status::KEY_ENOENT);
            }
            Ok(Begun {
                value: text,
                xattrs: &[],
                flags: 0,
                expiry: expiry_of(setting, expiry.unwrap_or(0)),
            })
        }
        Some(doc) => {
            if doc_flags == ADDS_DOCUMENT {
                return Err(Status::KEY_EEXISTS);
            }
            Ok(Begun {
                value: doc.value.as_slice(),
                xattrs: doc.xattrs.as_slice(),
                flags: doc.flags,
                expiry: kept_expiry(setting, expiry, doc.expiry),
            })
        }
    }
}

/// The expiry of a document that is edited: the request's where it gives one, else its own.
fn kept_expiry(setting: Setting, expiry: Option<u32>, own: u32) -> u32
    ensures { result ≡ unwrap_or (option_map (expiry_of (setting_of setting)) expiry) own }
{
    match expiry {
        Some(expiry) => expiry_of(setting, expiry),
        None => own,
    }
}

/// The text that edits of these specs begin with where no document is there.
fn begun_value(specs: &[Spec]) -> &'static [u8]
    ensures { result.now ≡ begun_value specs.now }
{
    match first_on_value(specs) {
        Some(spec) => first_text(spec.path.as_slice()),
        None => b"{}",
    }
}

/// The text that an edit of this spec alone begins with where no document is there.
fn begun_for(spec: &Spec) -> &'static [u8]
    ensures { result.now ≡ begun_value (spec.now ∷ []) }
{
    if spec.is_attribute() {
        b"{}"
    } else {
        first_text(spec.path.as_slice())
    }
}

/// The first spec on the value.
fn first_on_value(specs: &[Spec]) -> Option<&Spec>
    ensures { option_copied result ≡ find (λ spec. not (is_attribute spec)) specs.now }
{
    specs.iter().find(|spec| !spec.is_attribute())
}

/// The text that an edit of a value begins with at this path.
fn first_text(path: &[u8]) -> &'static [u8]
    ensures { result.now ≡ first_text path.now }
{
    match path {
        [] => b"[]",
        [b'[', ..] => b"[]",
        _ => b"{}",
    }
}

/// Makes edits one after the other, up to the first that is refused.
fn edit_all(
    alloc: Global,
    specs: &[Spec],
    doc_flags: u8,
    begun: &Begun<'_>,
) -> Result<Outcome, NoMemory>
    requires { length specs.now ≤ MOST_SPECS }
    ensures { IfOk result (λ outcome. (doc : Doc) → Begins begun.now doc → FoldsTo doc
        (edits_from doc_flags 0 doc [] specs.now) outcome) }
{
    let mut draft = Draft {
        value: None,
        xattrs: None,
    };
    let mut told = Vec::new(alloc);
    let mut place: u8 = 0;
    let mut rest = specs;
    while let [spec, others @ ..] = rest {
        let value = value_of(&draft, &*begun);
        let xattrs = xattrs_of(&draft, &*begun);
        let made = match edit_one(alloc, spec, doc_flags, value, xattrs) {
            Ok(made) => made,
            Err(Refused::Status(status)) => return Ok(Outcome::RefusedAt(place, status)),
            Err(Refused::NoMemory) => return Err(NoMemory),
        };
        let number = take_made(&mut draft, made);
        add_number(alloc, &mut told, place, number)?;
        place += 1;
        rest = others;
    }
    Ok(Outcome::All(draft, Bytes::from_vec(told)))
}

/// The value that edits have left so far.
fn value_of<'a>(draft: &'a Draft, begun: &'a Begun<'_>) -> &'a [u8]
    ensures { result.now ≡ unwrap_or draft.now.value begun.now.value.now }
{
    match &draft.value {
        Some(value) => value.as_slice(),
        None => begun.value,
    }
}

/// The section of the attributes that edits have left so far.
fn xattrs_of<'a>(draft: &'a Draft, begun: &'a Begun<'_>) -> &'a [u8]
    ensures { result.now ≡ unwrap_or draft.now.xattrs begun.now.xattrs.now }
{
    match &draft.xattrs {
        Some(xattrs) => xattrs.as_slice(),
        None => begun.xattrs,
    }
}

/// Makes one edit, of a value or of the attributes whose section is given.
fn edit_one(
    alloc: Global,
    spec: &Spec,
    doc_flags: u8,
    value: &[u8],
    xattrs: &[u8],
) -> Result<Made, Refused>
    ensures { (doc : Doc) → value.now ≡ doc.value → xattrs.now ≡ doc.xattrs
        → MakesDoc spec.now doc_flags doc result }
{
    if edit_of(spec.opcode).is_none() {
        return Err(Refused::Status(Status::UNKNOWN_COMMAND));
    }
    if spec.is_attribute() {
        match edit_attributes(alloc, spec, doc_flags, xattrs) {
            Ok(made) => Ok(Made::Attributes(made)),
            Err(refused) => Err(refused),
        }
    } else {
        match edit_value(alloc, spec, doc_flags, value) {
            Ok(made) => Ok(Made::Value(made)),
            Err(refused) => Err(refused),
        }
    }
}

/// Makes an edit of a value.
fn edit_value(alloc: Global, spec: &Spec, doc_flags: u8, value: &[u8]) -> Result<Edited, Refused>
    requires known { IsSome (edit_of spec.now.opcode) }
    requires value { is_attribute spec.now ≡ false }
    ensures { (doc : Doc) → value.now ≡ doc.value → MakesValue spec.now doc_flags doc result }
{
    let flags = path_flags(makes_several(spec, doc_flags));
    let path = spec.path.as_slice();
    edit(
        alloc,
        spec.opcode,
        flags,
        value,
        path,
        spec.value.as_slice(),
    )
}

/// Makes an edit of the attributes of a section.
fn edit_attributes(
    alloc: Global,
    spec: &Spec,
    doc_flags: u8,
    section: &[u8],
) -> Result<EditedSection, Refused>
    requires known { IsSome (edit_of spec.now.opcode) }
    requires attributes { is_attribute spec.now ≡ true }
    ensures { (doc : Doc) → section.now ≡ doc.xattrs → MakesAttributes spec.now doc_flags doc result }
{
    let several = makes_several(spec, doc_flags);
    let path = spec.path.as_slice();
    xattr_edit::edit(
        alloc,
        spec.opcode,
        several,
        section,
        path,
        spec.value.as_slice(),
    )
}

/// Whether several parts of a path may be absent.
fn makes_several(spec: &Spec, doc_flags: u8) -> bool
    ensures { result ≡ makes_several spec.now doc_flags }
{
    spec.flags % 2 == MAKES_PARENTS || doc_flags != 0
}

/// The flags of a path of which several parts may be absent, or one.
fn path_flags(several: bool) -> u8
    ensures { makes_parents result ≡ several }
{
    if several { MAKES_PARENTS } else { 0 }
}

/// Takes up what an edit made, and tells the number that it came to.
fn take_made(draft: &mut Draft, made: Made) -> Option<i64>
    ensures taken { (doc : Doc) → drafted draft.new doc ≡ made_doc (drafted draft.old doc) made }
    ensures json { IsDraft draft.old → IsMade made → IsDraft draft.new }
    ensures number { result ≡ made_number made }
{
    match made {
        Made::Value(edited) => {
            draft.value = Some(edited.text);
            edited.number
        }
        Made::Attributes(edited) => {
            draft.xattrs = Some(edited.section);
            edited.number
        }
    }
}

/// The text of the number that a counter has come to.
fn number_text(alloc: Global, number: Option<i64>) -> Result<Bytes, NoMemory>
    ensures { IfOk result (λ text. text ≡ number_text number) }
{
    match number {
        Some(number) => signed_text(alloc, number),
        None => Ok(Bytes::new(alloc)),
    }
}

/// The decimal text of a number.
fn signed_text(alloc: Global, number: i64) -> Result<Bytes, NoMemory>
    ensures text { IfOk result (λ text. text ≡ signed_decimal number) }
    ensures short { IfOk result (λ text. length text ≤ 21) }
{
    Ok(Bytes::from_vec(format!(in alloc; "{number}")?.into_bytes()))
}

/// Adds the result of an edit, where it came to a number.
fn add_number(
    alloc: Global,
    out: &mut Vec<u8>,
    place: u8,
    number: Option<i64>,
) -> Result<(), NoMemory>
    ensures { OnOk result (out.new.items ≡ out.old.items ++ edit_result place number) }
{
    let Some(number) = number else {
        return Ok(());
    };
    let text = signed_text(alloc, number)?;
    out.push(place)?;
    out.extend_from_slice(&Status::SUCCESS.code.to_be_bytes())?;
    out.extend_from_slice(&(text.len() as u32).to_be_bytes())?;
    out.extend_from_slice(text.as_slice())?;
    Ok(())
}

/// What the reply tells of the first edit that is refused: its place and its status.
fn failure(alloc: Global, place: u8, status: Status) -> Result<Bytes, NoMemory>
    ensures { IfOk result (λ bytes. bytes ≡ place ∷ to_be_bytes w16 status.code) }
{
    let mut bytes = Vec::with_capacity(alloc, 3)?;
    bytes.push(place)?;
    bytes.extend_from_slice(&status.code.to_be_bytes())?;
    Ok(Bytes::from_vec(bytes))
}

/// The change that stores an edited document, and whose reply has this value. A value that edits
/// made is known to be JSON, another one is judged.
fn store(
    alloc: Global,
    setting: Setting,
    request: &Request,
    begun: &Begun<'_>,
    draft: Draft,
    told: Bytes,
) -> Result<Change, NoMemory>
    requires { IsDraft draft }
    ensures { IfOk result (λ change. (doc : Doc) → Begins begun.now doc
        → Ok change ≡ storing request.now (changed (setting_of setting) (drafted draft doc)) told) }
{
    let Draft { value, xattrs } = draft;
    let json = value.is_some() || json_of(begun.value);
    let value = match value {
        Some(value) => value,
        None => Bytes::from_slice(alloc, begun.value)?,
    };
    let xattrs = match xattrs {
        Some(xattrs) => xattrs,
        None => Bytes::from_slice(alloc, begun.xattrs)?,
    };
    let doc = Doc {
        value,
        xattrs,
        flags: begun.flags,
        expiry: begun.expiry,
        cas: setting.draw,
        seqno: 0,
        json,
    };
    Ok(storing(alloc, request, doc, told))
}
