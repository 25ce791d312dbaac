//! The value that comes with an edit.

ghost use Rattle.std.specs.Prelude.{◌≡◌, Ok, Err, IfOk, MatchOption};
ghost use Rattle.json_model.specs.Edit.{magnitude};
ghost use Rattle.json_model.specs.Values.{bracketed, Gives, IsDelta};
ghost use Rattle.json_spell.specs.Places.{Spans as AreSpans};
ghost use Rattle.subdoc_edit.specs.Telling.{Told};
ghost use Rattle.subdoc_edit.specs.Given.{IsGiven, ReadsTree, ReadsParts, ReadsLeaf, ReadsDelta};
ghost use Rattle.subdoc_edit.specs.Given.{IsNoDelta, begins_with_digit};

use crate::depths::{depth_of, pass};
use crate::kinds::holds_others;
use doc_model::{Refused, Status};
use json_model::{Edit, MOST_DEEP};
use json_spell::{Node, Scanned, Spans, nodes, scan};
use kv_edge::NoMemory;
use std::alloc::Global;
use std::str::from_utf8;
use subdoc_path::value_span;

/// The value of an edit, as it was read.
#[derive(Clone, Copy, Debug, PartialEq, Eq)]
pub struct Given {
    /// From where in the value's bytes that stands which is to be written, without blanks at its
    /// front.
    pub from: usize,
    /// To where in the value's bytes it stands, without blanks at its end.
    pub to: usize,
    /// How deep it nests, of several values the deepest; more than 32 where it nests too deep.
    pub depth: u8,
    /// A counter's delta, else 0.
    pub delta: i64,
}

/// A depth that is too deep.
const TOO_DEEP: u8 = MOST_DEEP + 1;

/// Reads one JSON text.
fn read_tree(alloc: Global, value: &[u8]) -> Result<Given, Refused>
    ensures { ReadsTree value.now result }
{
    match scan(alloc, value) {
        Scanned::Json(spans) => {
            let span = value_span(value, &spans, 0);
            let (depth, _) = depth_of(nodes(&spans));
            Ok(Given {
                from: span.from,
                to: span.to,
                depth,
                delta: 0,
            })
        }
        Scanned::Not(_) => Err(Refused::Status(Status::VALUE_CANT_INSERT)),
        Scanned::Deep(_) => Ok(Given {
            from: 0,
            to: 0,
            depth: TOO_DEEP,
            delta: 0,
        }),
        Scanned::NoMemory => Err(Refused::NoMemory),
    }
}

/// The bytes of an array whose elements are these bytes.
fn bracketed(alloc: Global, value: &[u8]) -> Result<Vec<u8>, NoMemory>
    ensures { IfOk result (λ bytes. bytes.items ≡ bracketed value.now) }
{
    let mut bytes = Vec::with_capacity(alloc, value.len() + 2)?;
    bytes.push(b'[')?;
    bytes.extend_from_slice(value)?;
    bytes.push(b']')?;
    Ok(bytes)
}

/// The elements of the array that these bytes are between brackets. Places in the array's text are
/// one more than in the bytes.
fn elements_of(value: &[u8], nodes: &[Node]) -> Result<Given, Refused>
    requires { AreSpans (bracketed value.now) nodes.now }
    ensures { ReadsParts value.now result }
{
    let (array, inner) = match nodes {
        [] => return Err(Refused::NoMemory),
        [array, inner @ ..] => (*array, inner),
    };
    let first = match inner {
        [] => return Err(Refused::Status(Status::VALUE_CANT_INSERT)),
        [first, ..] => *first,
    };
    let parts = pass(inner, array.children);
    Ok(Given {
        from: first.from - 1,
        to: parts.end - 1,
        depth: parts.depth,
        delta: 0,
    })
}

/// Reads one JSON text or more with commas between.
fn read_parts(alloc: Global, value: &[u8]) -> Result<Given, Refused>
    ensures { ReadsParts value.now result }
{
    let bytes = match bracketed(alloc, value) {
        Ok(bytes) => bytes,
        Err(NoMemory) => return Err(Refused::NoMemory),
    };
    match scan(alloc, bytes.as_slice()) {
        Scanned::Json(spans) => elements_of(value, nodes(&spans)),
        Scanned::Not(_) => Err(Refused::Status(Status::VALUE_CANT_INSERT)),
        Scanned::Deep(_) => Err(Refused::Status(Status::VALUE_ETOODEEP)),
        Scanned::NoMemory => Err(Refused::NoMemory),
    }
}

/// The value of this text, where it holds no others.
fn leaf_of(value: &[u8], spans: &Spans) -> Result<Given, Refused>
    requires { AreSpans value.now spans.now }
    ensures { ReadsLeaf value.now result }
{
    let node = match nodes(spans).get(0) {
        Some(node) => *node,
        None => return Err(Refused::NoMemory),
    };
    if holds_others(node.kind) {
        return Err(Refused::Status(Status::VALUE_CANT_INSERT));
    }
    let span = value_span(value, spans, 0);
    Ok(Given {
        from: span.from,
        to: span.to,
        depth: 0,
        delta: 0,
    })
}

/// Reads one JSON text that is no object and no array.
fn read_leaf(alloc: Global, value: &[u8]) -> Result<Given, Refused>
    ensures { ReadsLeaf value.now result }
{
    match scan(alloc, value) {
        Scanned::Json(spans) => leaf_of(value, &spans),
        Scanned::Not(_) | Scanned::Deep(_) => Err(Refused::Status(Status::VALUE_CANT_INSERT)),
        Scanned::NoMemory => Err(Refused::NoMemory),
    }
}

/// The bytes behind what may be a minus.
fn magnitude(bytes: &[u8]) -> &[u8]
    ensures { result.now ≡ magnitude bytes.now }
{
    match bytes {
        [b'-', digits @ ..] => digits,
        _ => bytes,
    }
}

/// Whether a digit other than 0 is first.
fn begins_with_digit(bytes: &[u8]) -> bool
    ensures { result ≡ begins_with_digit bytes.now }
{
    match bytes {
        [] => false,
        [first, ..] => b'0' < *first && *first <= b'9',
    }
}

/// The delta that these bytes are.
fn delta_of(value: &[u8]) -> Option<i64>
    ensures { MatchOption result (IsNoDelta value.now) (λ delta. IsDelta delta value.now) }
{
    if !begins_with_digit(magnitude(value)) {
        return None;
    }
    match from_utf8(value) {
        Ok(text) => match text.parse::<i64>() {
            Ok(delta) => Some(delta),
            Err(_) => None,
        },
        Err(_) => None,
    }
}

/// Reads a counter's delta.
fn read_delta(value: &[u8]) -> Result<Given, Refused>
    ensures { ReadsDelta value.now result }
{
    match delta_of(value) {
        Some(delta) => Ok(Given {
            from: 0,
            to: 0,
            depth: 0,
            delta,
        }),
        None => Err(Refused::Status(Status::DELTA_EINVAL)),
    }
}

/// Reads the value of an edit.
///
/// It is refused with 00c5 where it isn't what the edit asks for: one JSON text; one or more with
/// commas between of ArrayPushLast, ArrayPushFirst and ArrayInsert; one that is no object and no
/// array of ArrayAddUnique. It is refused with 00ca where one of several nests deeper than 32, and
/// with 00c8 where a counter's delta is no whole number other than 0 within 64 bits with a sign. Of
/// Delete it is ignored.
pub fn given_of(alloc: Global, edit: Edit, value: &[u8]) -> Result<Given, Refused>
    ensures { Told (λ g. IsGiven edit value.now g) (λ s. Gives edit value.now (Err s)) result }
{
    match edit {
        Edit::DictAdd | Edit::DictUpsert | Edit::Replace => read_tree(alloc, value),
        Edit::ArrayPushLast | Edit::ArrayPushFirst | Edit::ArrayInsert => read_parts(alloc, value),
        Edit::ArrayAddUnique => read_leaf(alloc, value),
        Edit::Counter => read_delta(value),
        Edit::Delete => Ok(Given {
            from: 0,
            to: 0,
            depth: 0,
            delta: 0,
        }),
    }
}
