//! What an edit does where its path leads.

ghost use Rattle.std.specs.Prelude.{◌≡◌, ℕ, ◌<◌, ◌≤◌, ◌||◌, ◌&&◌, ◌==◌, true, length, Ok};
ghost use Rattle.json_model.specs.declared.TheConstants.{MOST_DEEP as most_deep};
ghost use Rattle.json_model.specs.declared.asked.Edit.TheVariants as edits;
ghost use Rattle.json_model.specs.Order.{takes, ends_in_index};
ghost use Rattle.json_model.specs.Spelled.{Tree, Document, IsText};
ghost use Rattle.json_walk.specs.Places.{IsAt};
ghost use Rattle.subdoc_edit.specs.Splicing.{IsDocument, IsStanding};
ghost use Rattle.subdoc_edit.specs.Given.{IsCutOut, IsGiven};
ghost use Rattle.subdoc_edit.specs.Planning.{FoundDecides, MissedDecides, IsFound, IsMissed};
ghost use Rattle.subdoc_edit.specs.Planning.{TellsArray, TellsSet, MakesMember, TellsIndex};
ghost use Rattle.subdoc_edit.specs.Planning.{DecidesGiven};

use crate::numbers::counter_at;
use crate::parents::around_of;
use crate::plan::{Content, Plan, insert_at, member_at, push_at, push_front_at, put_at, remove_at};
use crate::values::Given;
use crate::walking::{are_leaves, cut, has_text};
use doc_model::{Refused, Status};
use json_model::{Edit, Kind, MOST_DEEP, PARTS_LIMIT, Part};
use json_walk::kind_at;
use std::alloc::Global;
use subdoc_path::{Led, follow};

// ---- where the path leads to a value

/// A value in place of the one there.
fn replace(
    alloc: Global,
    text: &[u8],
    parts: &[Part],
    at: usize,
    value: &[u8],
    given: Given,
) -> Result<Plan, Refused>
    requires found { IsFound text.now parts.now at }
    requires few { length parts.now ≤ PARTS_LIMIT }
    ensures upserts { FoundDecides edits.DictUpsert text.now value.now parts.now at given
        result }
    ensures replaces { FoundDecides edits.Replace text.now value.now parts.now at given
        result }
{
    let content = Content {
        from: given.from,
        to: given.to,
        listed: false,
        depth: given.depth,
        number: None,
    };
    Ok(put_at(alloc, text, at, parts.len(), value, content))
}

/// A member or an element gone.
fn delete(
    alloc: Global,
    text: &[u8],
    parts: &[Part],
    at: usize,
    value: &[u8],
    given: Given,
) -> Result<Plan, Refused>
    requires found { IsFound text.now parts.now at }
    requires some { 0 < length parts.now }
    ensures { FoundDecides edits.Delete text.now value.now parts.now at given result }
{
    let (front, _) = parts.split_at(parts.len() - 1);
    match follow(text, front) {
        Led::At(whole) => Ok(remove_at(alloc, text, whole, at, value)),
        Led::Missing(_) => Err(Refused::NoMemory),
        Led::Mismatch(_) => Err(Refused::NoMemory),
    }
}

/// Whether the value at `at` is an array.
fn is_array(text: &[u8], at: usize) -> bool
    requires { IsStanding text.now at }
    ensures { (t : Tree) → IsAt text.now at t → TellsArray t result }
{
    match kind_at(text, at) {
        Kind::Array => true,
        _ => false,
    }
}

/// Elements at the end of an array.
fn push_last(
    alloc: Global,
    text: &[u8],
    parts: &[Part],
    at: usize,
    value: &[u8],
    given: Given,
) -> Result<Plan, Refused>
    requires found { IsFound text.now parts.now at }
    requires few { length parts.now ≤ PARTS_LIMIT }
    ensures { FoundDecides edits.ArrayPushLast text.now value.now parts.now at given
        result }
{
    if !is_array(text, at) {
        return Err(Refused::Status(Status::PATH_MISMATCH));
    }
    let plan = push_at(alloc, text, at, parts.len(), value, given)?;
    Ok(plan)
}

/// Elements at the front of an array.
fn push_first(
    alloc: Global,
    text: &[u8],
    parts: &[Part],
    at: usize,
    value: &[u8],
    given: Given,
) -> Result<Plan, Refused>
    requires found { IsFound text.now parts.now at }
    requires few { length parts.now ≤ PARTS_LIMIT }
    ensures { FoundDecides edits.ArrayPushFirst text.now value.now parts.now at given
        result }
{
    if !is_array(text, at) {
        return Err(Refused::Status(Status::PATH_MISMATCH));
    }
    let plan = push_front_at(alloc, text, at, parts.len(), value, given)?;
    Ok(plan)
}

/// Elements before the one there.
fn insert(
    alloc: Global,
    text: &[u8],
    parts: &[Part],
    at: usize,
    value: &[u8],
    given: Given,
) -> Result<Plan, Refused>
    requires found { IsFound text.now parts.now at }
    requires few { length parts.now ≤ PARTS_LIMIT }
    requires form { ends_in_index parts.now ≡ true }
    ensures { FoundDecides edits.ArrayInsert text.now value.now parts.now at given
        result }
{
    let plan = insert_at(alloc, text, at, parts.len(), value, given)?;
    Ok(plan)
}

/// Why an element of this text can't be added to the value at `at`: it is no array, or one that
/// holds objects or arrays, or one that has it.
fn set_fault(text: &[u8], at: usize, wanted: &[u8]) -> Option<Status>
    requires { IsStanding text.now at }
    ensures { (t : Tree) → IsAt text.now at t → TellsSet t wanted.now result }
{
    if kind_at(text, at) != Kind::Array {
        return Some(Status::PATH_MISMATCH);
    }
    if !are_leaves(text, at) {
        return Some(Status::PATH_MISMATCH);
    }
    if has_text(text, at, wanted) {
        return Some(Status::PATH_EEXISTS);
    }
    None
}

/// An element at the end of an array that has none of its text.
fn add_unique(
    alloc: Global,
    text: &[u8],
    parts: &[Part],
    at: usize,
    value: &[u8],
    given: Given,
) -> Result<Plan, Refused>
    requires found { IsFound text.now parts.now at }
    requires few { length parts.now ≤ PARTS_LIMIT }
    requires within { IsCutOut value.now given }
    ensures { FoundDecides edits.ArrayAddUnique text.now value.now parts.now at given
        result }
{
    match set_fault(text, at, cut(value, given.from, given.to)) {
        Some(status) => return Err(Refused::Status(status)),
        None => {}
    }
    let plan = push_at(alloc, text, at, parts.len(), value, given)?;
    Ok(plan)
}

/// A counter counted up or down.
fn count(
    alloc: Global,
    text: &[u8],
    parts: &[Part],
    at: usize,
    value: &[u8],
    given: Given,
) -> Result<Plan, Refused>
    requires found { IsFound text.now parts.now at }
    requires few { length parts.now ≤ PARTS_LIMIT }
    ensures { FoundDecides edits.Counter text.now value.now parts.now at given result }
{
    counter_at(alloc, text, at, parts.len(), value, given)
}

/// What is done where the path leads to the value at `at`.
fn at_value(
    alloc: Global,
    edit: Edit,
    text: &[u8],
    parts: &[Part],
    at: usize,
    value: &[u8],
    given: Given,
) -> Result<Plan, Refused>
    requires found { IsFound text.now parts.now at }
    requires few { length parts.now ≤ PARTS_LIMIT }
    requires form { takes edit parts.now ≡ true }
    requires read { IsGiven edit value.now given }
    ensures { FoundDecides edit text.now value.now parts.now at given result }
{
    match edit {
        Edit::DictAdd => Err(Refused::Status(Status::PATH_EEXISTS)),
        Edit::DictUpsert => replace(alloc, text, parts, at, value, given),
        Edit::Delete => delete(alloc, text, parts, at, value, given),
        Edit::Replace => replace(alloc, text, parts, at, value, given),
        Edit::ArrayPushLast => push_last(alloc, text, parts, at, value, given),
        Edit::ArrayPushFirst => push_first(alloc, text, parts, at, value, given),
        Edit::ArrayInsert => insert(alloc, text, parts, at, value, given),
        Edit::ArrayAddUnique => add_unique(alloc, text, parts, at, value, given),
        Edit::Counter => count(alloc, text, parts, at, value, given),
    }
}

// ---- where parts of the path name nothing

/// Whether so many parts may be absent: several where `several` says so, one where `one` does.
fn may_make(one: bool, several: bool, absent: usize) -> bool
    ensures { result ≡ (several || (one && absent == 1)) }
{
    several || (one && absent == 1)
}

/// A new member of what the first parts lead to, where the part number `followed` names nothing:
/// several parts may be absent where `several` says so, the last one alone where `one` does.
fn make(
    alloc: Global,
    one: bool,
    several: bool,
    text: &[u8],
    parts: &[Part],
    followed: usize,
    value: &[u8],
    content: Content,
) -> Result<Plan, Refused>
    requires missed { IsMissed text.now parts.now followed }
    requires few { length parts.now ≤ PARTS_LIMIT }
    ensures { MakesMember one several text.now value.now parts.now followed content
        result }
{
    let (front, absent) = parts.split_at(followed);
    if !may_make(one, several, absent.len()) {
        return Err(Refused::Status(Status::PATH_ENOENT));
    }
    let around = match around_of(alloc, absent)? {
        Some(around) => around,
        None => return Err(Refused::Status(Status::PATH_ENOENT)),
    };
    let at = match follow(text, front) {
        Led::At(at) => at,
        Led::Missing(_) => return Err(Refused::NoMemory),
        Led::Mismatch(_) => return Err(Refused::NoMemory),
    };
    let plan = member_at(alloc, text, at, parts.len(), &around, value, content)?;
    Ok(plan)
}

/// The index that these parts are alone.
fn lone_index(absent: &[Part]) -> Option<u32>
    ensures { TellsIndex absent.now result }
{
    match absent {
        [Part::At(number)] => Some(*number),
        _ => None,
    }
}

/// Elements at the end of an array, where the path's last index is how many it has.
fn insert_last(
    alloc: Global,
    several: bool,
    text: &[u8],
    parts: &[Part],
    followed: usize,
    value: &[u8],
    given: Given,
) -> Result<Plan, Refused>
    requires missed { IsMissed text.now parts.now followed }
    requires few { length parts.now ≤ PARTS_LIMIT }
    ensures { MissedDecides edits.ArrayInsert several text.now value.now parts.now
        followed given result }
{
    let (front, absent) = parts.split_at(followed);
    let number = match lone_index(absent) {
        Some(number) => number,
        None => return Err(Refused::Status(Status::PATH_ENOENT)),
    };
    let at = match follow(text, front) {
        Led::At(at) => at,
        Led::Missing(_) => return Err(Refused::NoMemory),
        Led::Mismatch(_) => return Err(Refused::NoMemory),
    };
    if json_walk::count(text, at) != number as u64 {
        return Err(Refused::Status(Status::PATH_ENOENT));
    }
    let plan = push_at(alloc, text, at, followed, value, given)?;
    Ok(plan)
}

/// One value under new names.
fn make_value(
    alloc: Global,
    several: bool,
    text: &[u8],
    parts: &[Part],
    followed: usize,
    value: &[u8],
    given: Given,
) -> Result<Plan, Refused>
    requires missed { IsMissed text.now parts.now followed }
    requires few { length parts.now ≤ PARTS_LIMIT }
    ensures adds { MissedDecides edits.DictAdd several text.now value.now parts.now
        followed given result }
    ensures upserts { MissedDecides edits.DictUpsert several text.now value.now parts.now
        followed given result }
{
    let content = Content {
        from: given.from,
        to: given.to,
        listed: false,
        depth: given.depth,
        number: None,
    };
    make(alloc, true, several, text, parts, followed, value, content)
}

/// An array of the given elements under new names.
fn make_array(
    alloc: Global,
    several: bool,
    text: &[u8],
    parts: &[Part],
    followed: usize,
    value: &[u8],
    given: Given,
) -> Result<Plan, Refused>
    requires missed { IsMissed text.now parts.now followed }
    requires few { length parts.now ≤ PARTS_LIMIT }
    requires shallow { given.depth ≤ MOST_DEEP }
    ensures last { MissedDecides edits.ArrayPushLast several text.now value.now parts.now
        followed given result }
    ensures first { MissedDecides edits.ArrayPushFirst several text.now value.now
        parts.now followed given result }
    ensures unique { MissedDecides edits.ArrayAddUnique several text.now value.now
        parts.now followed given result }
{
    let content = Content {
        from: given.from,
        to: given.to,
        listed: true,
        depth: given.depth + 1,
        number: None,
    };
    make(alloc, false, several, text, parts, followed, value, content)
}

/// A counter that begins at its delta, under new names.
fn make_counter(
    alloc: Global,
    several: bool,
    text: &[u8],
    parts: &[Part],
    followed: usize,
    value: &[u8],
    given: Given,
) -> Result<Plan, Refused>
    requires missed { IsMissed text.now parts.now followed }
    requires few { length parts.now ≤ PARTS_LIMIT }
    ensures { MissedDecides edits.Counter several text.now value.now parts.now followed
        given result }
{
    let content = Content {
        from: 0,
        to: value.len(),
        listed: false,
        depth: 0,
        number: Some(given.delta),
    };
    make(alloc, true, several, text, parts, followed, value, content)
}

/// What is done where the part number `followed` of the path names nothing.
fn at_gap(
    alloc: Global,
    edit: Edit,
    several: bool,
    text: &[u8],
    parts: &[Part],
    followed: usize,
    value: &[u8],
    given: Given,
) -> Result<Plan, Refused>
    requires missed { IsMissed text.now parts.now followed }
    requires few { length parts.now ≤ PARTS_LIMIT }
    requires read { IsGiven edit value.now given }
    ensures { MissedDecides edit several text.now value.now parts.now followed given
        result }
{
    match edit {
        Edit::DictAdd => make_value(alloc, several, text, parts, followed, value, given),
        Edit::DictUpsert => make_value(alloc, several, text, parts, followed, value, given),
        Edit::Delete => Err(Refused::Status(Status::PATH_ENOENT)),
        Edit::Replace => Err(Refused::Status(Status::PATH_ENOENT)),
        Edit::ArrayPushLast => make_array(alloc, several, text, parts, followed, value, given),
        Edit::ArrayPushFirst => make_array(alloc, several, text, parts, followed, value, given),
        Edit::ArrayInsert => insert_last(alloc, several, text, parts, followed, value, given),
        Edit::ArrayAddUnique => make_array(alloc, several, text, parts, followed, value, given),
        Edit::Counter => make_counter(alloc, several, text, parts, followed, value, given),
    }
}

/// What an edit is to write, or why nothing is to be written.
pub fn decide(
    alloc: Global,
    edit: Edit,
    several: bool,
    text: &[u8],
    parts: &[Part],
    value: &[u8],
    given: Given,
) -> Result<Plan, Refused>
    requires text { IsDocument text.now }
    requires few { length parts.now ≤ PARTS_LIMIT }
    requires form { takes edit parts.now ≡ true }
    requires read { IsGiven edit value.now given }
    ensures { (d : Document) → IsText most_deep d text.now
        → DecidesGiven edit several text.now value.now parts.now given d result }
{
    match follow(text, parts) {
        Led::At(at) => at_value(alloc, edit, text, parts, at, value, given),
        Led::Missing(followed) => {
            at_gap(alloc, edit, several, text, parts, followed, value, given)
        }
        Led::Mismatch(_) => Err(Refused::Status(Status::PATH_MISMATCH)),
    }
}
