//! Look-ups of parts of the document that is there.

ghost use Rattle.std.specs.Prelude.{◌≡◌, ◌++◌, ◌≤◌, ◌<◌, ◌-◌, not, length, take, drop, Ok, Err};
ghost use Rattle.std.specs.Prelude.{OnOk, IfOk, is_ok};
ghost use Rattle.std.specs.List.{AllByRecursion, list_any};
ghost use Rattle.std.specs.Option.{option_copied};
ghost use Rattle.std.specs.Fmt.{decimal};
ghost use Rattle.doc_model.specs.declared.status.Status.{Status};
ghost use Rattle.doc_model.specs.declared.status.TheConstants.Status as status;
ghost use Rattle.subdoc_edit.specs.Looking.{IsWithin, piece_text};
ghost use Rattle.subdoc_edit.specs.Telling.{Told};
ghost use Rattle.kv_request.specs.declared.reading.TheConstants.{VALUE_LIMIT};
ghost use Rattle.kv_request.specs.Parts.{is_attribute};
ghost use Rattle.doc_step.specs.Parts.{found_in, look_step, look_result, multi_look_step};
ghost use Rattle.doc_step.specs.Step.{Plans};
ghost use Rattle.doc_ops.specs.Looks.{Answers, Hold, Serve, text_for, FindsPiece, AreResults};

use crate::replies::{changing, part_failed};
use doc_model::{Doc, Refused, Status};
use doc_step::{Change, Effect};
use kv_edge::{Bytes, NoMemory};
use kv_request::{Request, Spec, VALUE_LIMIT};
use std::alloc::Global;
use subdoc_edit::{Piece, judge, look_judged, lookup_of};
use xattr_edit::object_of;

/// The texts that look-ups of a document look into. Each is there and judged where a look-up is
/// asked of it, and else stands for nothing.
#[derive(Drop)]
pub(crate) struct Texts<'a> {
    value: &'a [u8],
    judged: Option<Status>,
    object: Bytes,
    object_judged: Option<Status>,
}

/// The results of several look-ups, and whether each found something.
#[derive(Drop)]
pub(crate) struct Results {
    bytes: Bytes,
    all: bool,
}

/// A look at a part of the document, which stays.
pub(crate) fn look_at(
    alloc: Global,
    request: &Request,
    spec: &Spec,
    doc: Option<&Doc>,
) -> Result<Change, Refused>
    ensures { Plans (look_step request.now spec.now (option_copied doc.entry)) result }
{
    let Some(doc) = doc else {
        return Err(Refused::Status(Status::KEY_ENOENT));
    };
    match found(alloc, spec, doc) {
        Ok(found) => Ok(Change {
            effect: Effect::Nothing,
            reply: changing(alloc, request, doc.cas, found),
        }),
        Err(refused) => Err(refused),
    }
}

/// What a look-up finds in a document.
fn found(alloc: Global, spec: &Spec, doc: &Doc) -> Result<Bytes, Refused>
    ensures { Answers (found_in doc.now spec.now) result }
{
    let texts = texts_of(alloc, spec.is_attribute(), !spec.is_attribute(), doc)?;
    match look_in(alloc, spec, doc, &texts) {
        Ok(piece) => Ok(piece_bytes(alloc, text_for(&texts, spec), piece)?),
        Err(refused) => Err(refused),
    }
}

/// Looks at several parts of the document, which stays.
pub(crate) fn look_at_each(
    alloc: Global,
    request: &Request,
    specs: &[Spec],
    doc: Option<&Doc>,
) -> Result<Change, Refused>
    ensures { Plans (multi_look_step request.now specs.now (option_copied doc.entry)) result }
{
    let Some(doc) = doc else {
        return Err(Refused::Status(Status::KEY_ENOENT));
    };
    let texts = texts_of(alloc, on_attributes(specs), on_value(specs), doc)?;
    match results_of(alloc, specs, doc, &texts) {
        Ok(Results { bytes, all }) => Ok(Change {
            effect: Effect::Nothing,
            reply: if all {
                changing(alloc, request, doc.cas, bytes)
            } else {
                part_failed(alloc, request, bytes)
            },
        }),
        Err(refused) => Err(refused),
    }
}

/// Whether a spec is on an attribute.
fn on_attributes(specs: &[Spec]) -> bool
    ensures { result ≡ list_any is_attribute specs.now }
{
    specs.iter().any(|spec| spec.is_attribute())
}

/// Whether a spec is on the value.
fn on_value(specs: &[Spec]) -> bool
    ensures { result ≡ list_any (λ spec. not (is_attribute spec)) specs.now }
{
    specs.iter().any(|spec| !spec.is_attribute())
}

/// The texts of a document: the object of its attributes, its value, or both.
fn texts_of(alloc: Global, attributes: bool, value: bool, doc: &Doc) -> Result<Texts<'_>, NoMemory>
    ensures { IfOk result (λ texts. Hold doc.now attributes value texts) }
{
    let judged = if value {
        judge(doc.value.as_slice())
    } else {
        None
    };
    let object = if attributes {
        object_of(alloc, doc.xattrs.as_slice())?
    } else {
        Bytes::new(alloc)
    };
    let object_judged = judge(object.as_slice());
    Ok(Texts {
        value: doc.value.as_slice(),
        judged,
        object,
        object_judged,
    })
}

/// The text that a look-up of a spec looks into.
fn text_for<'a>(texts: &'a Texts<'_>, spec: &Spec) -> &'a [u8]
    ensures { result.now ≡ text_for texts.now spec.now }
{
    if spec.is_attribute() {
        texts.object.as_slice()
    } else {
        texts.value
    }
}

/// The piece that a look-up finds in the text that it looks into.
fn look_in(alloc: Global, spec: &Spec, doc: &Doc, texts: &Texts<'_>) -> Result<Piece, Refused>
    requires { Serve doc.now texts.now spec.now }
    ensures { FindsPiece doc.now spec.now (text_for texts.now spec.now) result }
{
    if lookup_of(spec.opcode).is_none() {
        return Err(Refused::Status(Status::UNKNOWN_COMMAND));
    }
    let path = spec.path.as_slice();
    if spec.is_attribute() {
        let object = texts.object.as_slice();
        xattr_edit::look(alloc, spec.opcode, object, texts.object_judged, path)
    } else {
        look_judged(alloc, spec.opcode, texts.value, texts.judged, path)
    }
}

/// The bytes that a piece stands for: those of the text between its places, or a count in decimal.
fn piece_bytes(alloc: Global, text: &[u8], piece: Piece) -> Result<Bytes, NoMemory>
    requires { IsWithin text.now piece }
    ensures { IfOk result (λ bytes. bytes ≡ piece_text text.now piece) }
{
    match piece.count {
        Some(count) => count_text(alloc, count),
        None => Bytes::from_slice(alloc, cut(text, piece)),
    }
}

/// The text of a count.
#[tactic(auto, using(doc_step::proofs::Counting::decimal_short))]
fn count_text(alloc: Global, count: u64) -> Result<Bytes, NoMemory>
    ensures text { IfOk result (λ text. text ≡ decimal count) }
    ensures short { IfOk result (λ text. length text ≤ 20) }
{
    Ok(Bytes::from_vec(format!(in alloc; "{count}")?.into_bytes()))
}

/// The bytes of a text between the places of a piece.
fn cut(text: &[u8], piece: Piece) -> &[u8]
    requires { IsWithin text.now piece }
    ensures { result.now ≡ take (piece.to - piece.from) (drop piece.from text.now) }
{
    let (_, behind) = text.split_at(piece.from);
    behind.split_at(piece.to - piece.from).0
}

/// The results of look-ups. It ends as soon as they pass the limit.
fn results_of(
    alloc: Global,
    specs: &[Spec],
    doc: &Doc,
    texts: &Texts<'_>,
) -> Result<Results, Refused>
    requires { AllByRecursion (λ spec. Serve doc.now texts.now spec) specs.now }
    ensures { AreResults doc.now specs.now result }
{
    let mut bytes = Vec::new(alloc);
    let mut all = true;
    let mut rest = specs;
    while let [spec, others @ ..] = rest {
        match add_result(alloc, &mut bytes, spec, doc, texts) {
            Ok(found) => all = all && found,
            Err(refused) => return Err(refused),
        }
        if bytes.len() > VALUE_LIMIT {
            return Err(Refused::Status(Status::E2BIG));
        }
        rest = others;
    }
    Ok(Results {
        bytes: Bytes::from_vec(bytes),
        all,
    })
}

/// Adds the result of a look-up, and tells whether it found something. A piece that passes the limit
/// by itself is refused before it is copied.
fn add_result(
    alloc: Global,
    out: &mut Vec<u8>,
    spec: &Spec,
    doc: &Doc,
    texts: &Texts<'_>,
) -> Result<bool, Refused>
    requires { Serve doc.now texts.now spec.now }
    ensures added { OnOk result (out.new.items ≡ out.old.items ++ look_result (found_in doc.now spec.now)) }
    ensures told { Told (λ found. found ≡ is_ok (found_in doc.now spec.now)) (λ s.
        (s ≡ status.E2BIG) × (VALUE_LIMIT < length (look_result
        (found_in doc.now spec.now)))) result }
{
    match look_in(alloc, spec, doc, texts) {
        Ok(piece) => {
            add_found(alloc, out, text_for(texts, spec), piece)?;
            Ok(true)
        }
        Err(Refused::Status(status)) => {
            add_refused(out, status)?;
            Ok(false)
        }
        Err(Refused::NoMemory) => Err(Refused::NoMemory),
    }
}

/// Adds the result of a look-up that found a piece, unless that passes the limit by itself.
fn add_found(alloc: Global, out: &mut Vec<u8>, text: &[u8], piece: Piece) -> Result<(), Refused>
    requires { IsWithin text.now piece }
    ensures added { OnOk result (out.new.items ≡ out.old.items ++ look_result (Ok
        (piece_text text.now piece))) }
    ensures told { Told (λ done. Unit {0}) (λ s. (s ≡ status.E2BIG) × (VALUE_LIMIT < length
        (look_result (Ok (piece_text text.now piece))))) result }
{
    match piece.count {
        Some(count) => {
            let digits = count_text(alloc, count)?;
            Ok(add_bytes(out, digits.as_slice())?)
        }
        None => {
            if piece.to - piece.from > VALUE_LIMIT {
                return Err(Refused::Status(Status::E2BIG));
            }
            Ok(add_bytes(out, cut(text, piece))?)
        }
    }
}

/// Adds the result of a look-up that found these bytes.
fn add_bytes(out: &mut Vec<u8>, found: &[u8]) -> Result<(), NoMemory>
    requires { length found.now ≤ VALUE_LIMIT }
    ensures { OnOk result (out.new.items ≡ out.old.items ++ look_result (Ok found.now)) }
{
    out.extend_from_slice(&Status::SUCCESS.code.to_be_bytes())?;
    out.extend_from_slice(&(found.len() as u32).to_be_bytes())?;
    out.extend_from_slice(found)?;
    Ok(())
}

/// Adds the result of a look-up that was refused.
fn add_refused(out: &mut Vec<u8>, status: Status) -> Result<(), NoMemory>
    ensures { OnOk result (out.new.items ≡ out.old.items ++ look_result (Err status)) }
{
    out.extend_from_slice(&status.code.to_be_bytes())?;
    out.extend_from_slice(&[0; 4])?;
    Ok(())
}
