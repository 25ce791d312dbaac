//! Look-ups.

ghost use Rattle.std.specs.Prelude.{◌≡◌, ℕ, ◌≤◌, List, length, Result, IsSome, IfOk, Err};
ghost use Rattle.doc_model.specs.declared.status.Status.{Status};
ghost use Rattle.json_model.specs.declared.asked.Lookup.{Lookup};
ghost use Rattle.json_model.specs.Order.{Looks};
ghost use Rattle.json_model.specs.Edit.{lookup_of};
ghost use Rattle.json_model.specs.Spelled.{Tree};
ghost use Rattle.json_walk.specs.Places.{IsAt};
ghost use Rattle.subdoc_edit.specs.Judging.{IsJudged};
ghost use Rattle.subdoc_edit.specs.Looking.{TellsLooked, TellsLook, Finds, RefusesLook};

use crate::kinds::holds_others;
use crate::reading::{check_judged, judge, path_of};
use doc_model::{Refused, Status};
use json_model::Lookup;
use json_walk::{count, kind_at, value_end};
use std::alloc::Global;
use subdoc_path::{Led, follow};

/// What a look-up found in a text.
#[derive(Clone, Copy, Debug, PartialEq, Eq)]
pub struct Piece {
    /// The place of the first byte of what was found.
    pub from: usize,
    /// The place behind its last byte.
    pub to: usize,
    /// The number of members or elements, where that was asked: its decimal text is the answer
    /// then.
    pub count: Option<u64>,
}

/// The look-up that an opcode stands for.
pub fn lookup_of(opcode: u8) -> Option<Lookup>
    ensures { result ≡ lookup_of opcode }
{
    match opcode {
        0xc5 => Some(Lookup::Get),
        0xc6 => Some(Lookup::Exists),
        0xd2 => Some(Lookup::GetCount),
        _ => None,
    }
}

/// What a look-up finds in the value at this place.
fn looked(lookup: Lookup, text: &[u8], at: usize) -> Result<Piece, Refused>
    requires { at ≤ length text.now }
    ensures { (t : Tree) → IsAt text.now at t → TellsLooked lookup text.now t result }
{
    match lookup {
        Lookup::Get => Ok(Piece {
            from: at,
            to: value_end(text, at),
            count: None,
        }),
        Lookup::Exists => Ok(Piece {
            from: at,
            to: at,
            count: None,
        }),
        Lookup::GetCount => {
            if !holds_others(kind_at(text, at)) {
                return Err(Refused::Status(Status::PATH_MISMATCH));
            }
            Ok(Piece {
                from: at,
                to: at,
                count: Some(count(text, at)),
            })
        }
    }
}

/// Looks at a path of a text that was judged.
fn look_at(
    alloc: Global,
    lookup: Lookup,
    text: &[u8],
    judged: Option<Status>,
    path: &[u8],
) -> Result<Piece, Refused>
    requires { IsJudged text.now judged }
    ensures { TellsLook lookup text.now path.now result }
{
    let path = path_of(alloc, path)?;
    check_judged(judged)?;
    let led = follow(text, path.parts());
    match led {
        Led::At(at) => looked(lookup, text, at),
        Led::Missing(_) => Err(Refused::Status(Status::PATH_ENOENT)),
        Led::Mismatch(_) => Err(Refused::Status(Status::PATH_MISMATCH)),
    }
}

/// Looks at a path of a JSON text: `opcode` is that of sub-document Get, Exists or GetCount. Of Get
/// the piece is the value's text without the blanks round it, of Exists it has no bytes, and of
/// GetCount it has the number of members or elements.
///
/// It is refused with the first of these that applies: 00c2 and 00c3 where the path isn't one, 00c6
/// where the text isn't JSON, 00c4 where it nests deeper than 32, 00c1 where the path meets another
/// kind of value than it asks for or a number of parts is asked of a value without any, and 00c0
/// where it leads nowhere.
pub fn look(alloc: Global, opcode: u8, text: &[u8], path: &[u8]) -> Result<Piece, Refused>
    requires { IsSome (lookup_of opcode) }
    ensures found { IfOk result (λ piece. Finds opcode text.now path.now piece) }
    ensures refused { (s : Status) → result ≡ Err (Refused.Status s)
        → RefusesLook opcode text.now path.now s }
{
    look_judged(alloc, opcode, text, judge(text), path)
}

/// Looks at a path of a text of which `judged` is what `judge` tells, so that several look-ups in
/// one text judge it once. Otherwise it is as `look`: what the text is refused for is told behind
/// what the path is refused for.
pub fn look_judged(
    alloc: Global,
    opcode: u8,
    text: &[u8],
    judged: Option<Status>,
    path: &[u8],
) -> Result<Piece, Refused>
    requires known { IsSome (lookup_of opcode) }
    requires judged { IsJudged text.now judged }
    ensures found { IfOk result (λ piece. Finds opcode text.now path.now piece) }
    ensures refused { (s : Status) → result ≡ Err (Refused.Status s)
        → RefusesLook opcode text.now path.now s }
{
    match lookup_of(opcode) {
        Some(lookup) => look_at(alloc, lookup, text, judged, path),
        None => Err(Refused::NoMemory),
    }
}

/// A look-up has one answer.
pub fn one_answer()
    ensures { (lookup : Lookup) (text path : List ℕ) (x y : Result (List ℕ) Status)
        → Looks lookup text path x → Looks lookup text path y → x ≡ y }
{}
