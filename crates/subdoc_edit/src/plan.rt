//! What an edit is to write where: one splice of the text.

ghost use Rattle.std.specs.Prelude.{◌≡◌, ◌≤◌, ◌++◌, false, IfOk};
ghost use Rattle.subdoc_edit.specs.Splicing.{comma_if, IsStanding, IsPartOf};
ghost use Rattle.subdoc_edit.specs.Planning.{PlansPut, PlansPush, PlansFront, PlansInsert};
ghost use Rattle.subdoc_edit.specs.Planning.{PlansRemove, PlansMember, bracket_before};
ghost use Rattle.subdoc_edit.specs.Planning.{bracket_behind};

use crate::parents::Around;
use crate::places::{cut_of, end_of, front_of};
use crate::values::Given;
use json_model::PARTS_LIMIT;
use json_walk::value_end;
use kv_edge::{Bytes, NoMemory};
use std::alloc::Global;

/// What an edit is to write where.
#[derive(Debug, Drop)]
pub struct Plan {
    /// The place of the first byte of the text that goes.
    pub from: usize,
    /// The place behind the last one.
    pub to: usize,
    /// What comes in their place: these bytes ..
    pub before: Bytes,
    /// .. those of the edit's value from this place ..
    pub value_from: usize,
    /// .. up to this one ..
    pub value_to: usize,
    /// .. and these.
    pub behind: Bytes,
    /// How deep the text nests where it changes; more than 32 where the result is too deep.
    pub depth: usize,
    /// What a counter has come to.
    pub number: Option<i64>,
}

/// A value that is written: bytes of the edit's value, perhaps between brackets.
#[derive(Clone, Copy, Debug, PartialEq, Eq)]
pub struct Content {
    /// The place of the first byte.
    pub from: usize,
    /// The place behind the last one.
    pub to: usize,
    /// Whether they stand between brackets.
    pub listed: bool,
    /// How deep the value nests; more than 32 where it nests too deep.
    pub depth: u8,
    /// The number that a counter begins at.
    pub number: Option<i64>,
}

/// A comma where there is to be one.
fn comma(alloc: Global, wanted: bool) -> Result<Bytes, NoMemory>
    ensures { IfOk result (λ bytes. bytes ≡ comma_if wanted) }
{
    let mut bytes = Bytes::new(alloc);
    if wanted {
        bytes.push(b',')?;
    }
    Ok(bytes)
}

/// A value in place of the one at `at`, to which so many parts of a path lead.
pub fn put_at(
    alloc: Global,
    text: &[u8],
    at: usize,
    followed: usize,
    value: &[u8],
    content: Content,
) -> Plan
    requires stands { IsStanding text.now at }
    requires few { followed ≤ PARTS_LIMIT }
    requires bare { content.listed ≡ false }
    ensures plan { PlansPut text.now value.now at followed content result }
    ensures number { result.number ≡ content.number }
{
    Plan {
        from: at,
        to: value_end(text, at),
        before: Bytes::new(alloc),
        value_from: content.from,
        value_to: content.to,
        behind: Bytes::new(alloc),
        depth: followed + content.depth as usize,
        number: content.number,
    }
}

/// Elements at the end of the value at `at`.
pub fn push_at(
    alloc: Global,
    text: &[u8],
    at: usize,
    followed: usize,
    value: &[u8],
    given: Given,
) -> Result<Plan, NoMemory>
    requires stands { IsStanding text.now at }
    requires few { followed ≤ PARTS_LIMIT }
    ensures plan { IfOk result (λ p. PlansPush text.now value.now at followed given p) }
    ensures number { IfOk result (λ p. p.number ≡ None) }
{
    let gap = end_of(text, at);
    Ok(Plan {
        from: gap.at,
        to: gap.at,
        before: comma(alloc, gap.comma)?,
        value_from: given.from,
        value_to: given.to,
        behind: Bytes::new(alloc),
        depth: followed + 1 + given.depth as usize,
        number: None,
    })
}

/// Elements at the front of the array at `at`.
pub fn push_front_at(
    alloc: Global,
    text: &[u8],
    at: usize,
    followed: usize,
    value: &[u8],
    given: Given,
) -> Result<Plan, NoMemory>
    requires stands { IsStanding text.now at }
    requires few { followed ≤ PARTS_LIMIT }
    ensures plan { IfOk result (λ p. PlansFront text.now value.now at followed given p) }
    ensures number { IfOk result (λ p. p.number ≡ None) }
{
    let gap = front_of(text, at);
    Ok(Plan {
        from: gap.at,
        to: gap.at,
        before: Bytes::new(alloc),
        value_from: given.from,
        value_to: given.to,
        behind: comma(alloc, gap.comma)?,
        depth: followed + 1 + given.depth as usize,
        number: None,
    })
}

/// Elements before the one at `at`, to which so many parts of a path lead.
pub fn insert_at(
    alloc: Global,
    text: &[u8],
    at: usize,
    followed: usize,
    value: &[u8],
    given: Given,
) -> Result<Plan, NoMemory>
    requires stands { IsStanding text.now at }
    requires few { followed ≤ PARTS_LIMIT }
    ensures plan { IfOk result (λ p. PlansInsert text.now value.now at followed given p) }
    ensures number { IfOk result (λ p. p.number ≡ None) }
{
    Ok(Plan {
        from: at,
        to: at,
        before: Bytes::new(alloc),
        value_from: given.from,
        value_to: given.to,
        behind: comma(alloc, true)?,
        depth: followed + given.depth as usize,
        number: None,
    })
}

/// The part whose value is at `at` gone from the value at `whole`.
pub fn remove_at(alloc: Global, text: &[u8], whole: usize, at: usize, value: &[u8]) -> Plan
    requires { IsPartOf text.now whole at }
    ensures plan { PlansRemove text.now value.now whole at result }
    ensures number { result.number ≡ None }
{
    let span = cut_of(text, whole, at);
    Plan {
        from: span.from,
        to: span.to,
        before: Bytes::new(alloc),
        value_from: 0,
        value_to: 0,
        behind: Bytes::new(alloc),
        depth: 0,
        number: None,
    }
}

/// The bytes before a new member's value.
fn before_new(
    alloc: Global,
    with_comma: bool,
    around: &Around,
    listed: bool,
) -> Result<Bytes, NoMemory>
    ensures { IfOk result (λ b. b ≡ comma_if with_comma ++ (around.now.before
        ++ bracket_before listed)) }
{
    let mut bytes = Vec::new(alloc);
    if with_comma {
        bytes.push(b',')?;
    }
    bytes.extend_from_slice(around.before.as_slice())?;
    if listed {
        bytes.push(b'[')?;
    }
    Ok(Bytes::from_vec(bytes))
}

/// The bytes behind a new member's value.
fn behind_new(alloc: Global, around: &Around, listed: bool) -> Result<Bytes, NoMemory>
    ensures { IfOk result (λ b. b ≡ bracket_behind listed ++ around.now.behind) }
{
    let mut bytes = Vec::new(alloc);
    if listed {
        bytes.push(b']')?;
    }
    bytes.extend_from_slice(around.behind.as_slice())?;
    Ok(Bytes::from_vec(bytes))
}

/// A new member at the end of the value at `at`, where a path of `total` parts leads to its value.
pub fn member_at(
    alloc: Global,
    text: &[u8],
    at: usize,
    total: usize,
    around: &Around,
    value: &[u8],
    content: Content,
) -> Result<Plan, NoMemory>
    requires stands { IsStanding text.now at }
    requires few { total ≤ PARTS_LIMIT }
    ensures plan { IfOk result (λ p. PlansMember text.now value.now at total around.now
        content p) }
    ensures number { IfOk result (λ p. p.number ≡ content.number) }
{
    let gap = end_of(text, at);
    Ok(Plan {
        from: gap.at,
        to: gap.at,
        before: before_new(alloc, gap.comma, around, content.listed)?,
        value_from: content.from,
        value_to: content.to,
        behind: behind_new(alloc, around, content.listed)?,
        depth: total + content.depth as usize,
        number: content.number,
    })
}
