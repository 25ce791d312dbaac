//! Edits.

ghost use Rattle.std.specs.Prelude.{◌≡◌, ℕ, ◌+◌, ◌-◌, ◌^◌, min, List, ◌++◌, ◌≤◌, length, take};
ghost use Rattle.std.specs.Prelude.{drop, IsSome, IfOk, Err};
ghost use Rattle.doc_model.specs.declared.status.Status.{Status};
ghost use Rattle.json_model.specs.Edit.{edit_of};
ghost use Rattle.json_model.specs.Order.{takes, ends_in_name, ends_in_index};
ghost use Rattle.json_model.specs.Spelled.{Document};
ghost use Rattle.json_model.specs.Moves.{Change};
ghost use Rattle.subdoc_edit.specs.Planning.{Plans, plan_bytes};
ghost use Rattle.subdoc_edit.specs.Editing.{Makes, RefusesEdit, TellsEdit, IsPlanned, Finishes};

use crate::deciding::decide;
use crate::plan::Plan;
use crate::reading::{check_text, path_of};
use crate::values::given_of;
use crate::walking::cut;
use doc_model::{Refused, Status};
use json_model::{Edit, MOST_DEEP, Part, TEXT_LIMIT};
use kv_edge::{Bytes, NoMemory};
use std::alloc::Global;

/// What an edit leaves.
#[derive(Debug, Drop)]
pub struct Edited {
    /// The text.
    pub text: Bytes,
    /// What a counter has come to.
    pub number: Option<i64>,
}

/// The edit that an opcode stands for.
pub fn edit_of(opcode: u8) -> Option<Edit>
    ensures { result ≡ edit_of opcode }
{
    match opcode {
        0xc7 => Some(Edit::DictAdd),
        0xc8 => Some(Edit::DictUpsert),
        0xc9 => Some(Edit::Delete),
        0xca => Some(Edit::Replace),
        0xcb => Some(Edit::ArrayPushLast),
        0xcc => Some(Edit::ArrayPushFirst),
        0xcd => Some(Edit::ArrayInsert),
        0xce => Some(Edit::ArrayAddUnique),
        0xcf => Some(Edit::Counter),
        _ => None,
    }
}

/// Whether the last part is a name.
fn ends_in_name(parts: &[Part]) -> bool
    ensures { result ≡ ends_in_name parts.now }
{
    match parts.last() {
        Some(part) => match part {
            Part::Member(_) => true,
            Part::At(_) => false,
            Part::Last => false,
        },
        None => false,
    }
}

/// Whether the last part is an index other than -1.
fn ends_in_index(parts: &[Part]) -> bool
    ensures { result ≡ ends_in_index parts.now }
{
    match parts.last() {
        Some(part) => match part {
            Part::Member(_) => false,
            Part::At(_) => true,
            Part::Last => false,
        },
        None => false,
    }
}

/// Whether an edit takes a path of this form.
fn takes(edit: Edit, parts: &[Part]) -> bool
    ensures { result ≡ takes edit parts.now }
{
    match edit {
        Edit::DictAdd => ends_in_name(parts),
        Edit::DictUpsert => ends_in_name(parts),
        Edit::Delete => !parts.is_empty(),
        Edit::ArrayInsert => ends_in_index(parts),
        _ => true,
    }
}

/// How many bytes the text has that a plan leaves; of more than can be counted, the greatest
/// number.
fn size_of(text: &[u8], plan: &Plan) -> usize
    requires ordered { plan.now.from ≤ plan.now.to }
    requires within { plan.now.to ≤ length text.now }
    requires cut { plan.now.value_from ≤ plan.now.value_to }
    ensures { result ≡ min (plan.now.from + (length text.now - plan.now.to) + (plan.now.value_to -
        plan.now.value_from) + (length plan.now.before + length plan.now.behind)) (2 ^ 64 - 1) }
{
    let kept = plan.from.saturating_add(text.len() - plan.to);
    let new = plan.value_to - plan.value_from;
    let round = plan.before.len().saturating_add(plan.behind.len());
    kept.saturating_add(new).saturating_add(round)
}

/// The text that a plan leaves.
fn written(
    alloc: Global,
    size: usize,
    text: &[u8],
    value: &[u8],
    plan: &Plan,
) -> Result<Bytes, NoMemory>
    requires ordered { plan.now.from ≤ plan.now.to }
    requires within { plan.now.to ≤ length text.now }
    requires cut_ordered { plan.now.value_from ≤ plan.now.value_to }
    requires cut_within { plan.now.value_to ≤ length value.now }
    ensures { IfOk result (λ bytes. bytes ≡ take plan.now.from text.now
        ++ (plan_bytes value.now plan.now ++ drop plan.now.to text.now)) }
{
    let (front, _) = text.split_at(plan.from);
    let (_, back) = text.split_at(plan.to);
    let mut out = Vec::with_capacity(alloc, size)?;
    out.extend_from_slice(front)?;
    out.extend_from_slice(plan.before.as_slice())?;
    out.extend_from_slice(cut(value, plan.value_from, plan.value_to))?;
    out.extend_from_slice(plan.behind.as_slice())?;
    out.extend_from_slice(back)?;
    Ok(Bytes::from_vec(out))
}

/// What a plan leaves, where it isn't too deep and hasn't too many bytes.
fn finish(alloc: Global, text: &[u8], value: &[u8], plan: Plan) -> Result<Edited, Refused>
    requires { IsPlanned text.now value.now plan }
    ensures { (d : Document) (trail : List ℕ) (change : Change)
        → Plans text.now value.now d trail change plan
        → Finishes d trail change plan.number result }
{
    if plan.depth > MOST_DEEP as usize {
        return Err(Refused::Status(Status::VALUE_ETOODEEP));
    }
    let size = size_of(text, &plan);
    if size > TEXT_LIMIT {
        return Err(Refused::Status(Status::E2BIG));
    }
    let text = written(alloc, size, text, value, &plan)?;
    Ok(Edited {
        text,
        number: plan.number,
    })
}

/// Edits at a path, where several parts may be absent or one.
fn edit_at(
    alloc: Global,
    edit: Edit,
    several: bool,
    text: &[u8],
    path: &[u8],
    value: &[u8],
) -> Result<Edited, Refused>
    ensures { TellsEdit edit several text.now path.now value.now result }
{
    let path = path_of(alloc, path)?;
    check_text(text)?;
    if !takes(edit, path.parts()) {
        return Err(Refused::Status(Status::PATH_EINVAL));
    }
    let given = given_of(alloc, edit, value)?;
    let plan = decide(alloc, edit, several, text, path.parts(), value, given)?;
    finish(alloc, text, value, plan)
}

/// Edits a JSON text at a path: `opcode` is that of a sub-document edit, c7 to cf, and bit 01 of
/// `flags` lets any number of names at the end of the path be absent, and makes them. The text that
/// is left is new, and differs from the old one in one splice alone; beside it a counter tells the
/// number that it has come to.
///
/// It is refused with the first of these that applies, and nothing is left then:
///
/// - 00c2 and 00c3 where the path isn't one, 00c6 where the text isn't JSON, 00c4 where it nests
///   deeper than 32, 00c2 where the edit takes no path of that form;
/// - 00c5 where the edit doesn't take the value, 00c8 where a counter's delta isn't one, 00ca where
///   one of several values nests too deep;
/// - 00c1 where the path meets another kind of value than it asks for, or the value there is of
///   another kind than the edit is for;
/// - 00c0 where the path leads nowhere and nothing may be made there, 00c9 where there is already
///   what is to be added;
/// - 00c7 where a counter is beyond 64 bits with a sign, 00c5 where it would come beyond them;
/// - 00ca where the result would nest deeper than 32, 0003 where it would have more than 20,971,520
///   bytes.
///
/// Want of memory is told apart from these, at any point.
pub fn edit(
    alloc: Global,
    opcode: u8,
    flags: u8,
    text: &[u8],
    path: &[u8],
    value: &[u8],
) -> Result<Edited, Refused>
    requires { IsSome (edit_of opcode) }
    ensures edited { IfOk result (λ e. Makes opcode flags text.now path.now value.now e) }
    ensures refused { (s : Status) → result ≡ Err (Refused.Status s)
        → RefusesEdit opcode flags text.now path.now value.now s }
{
    match edit_of(opcode) {
        Some(edit) => edit_at(alloc, edit, flags % 2 == 1, text, path, value),
        None => Err(Refused::NoMemory),
    }
}
