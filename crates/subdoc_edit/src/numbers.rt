//! Whole numbers, and counters.

ghost use Rattle.std.specs.Prelude.{◌≡◌, ◌≤◌, ◌+ℤ◌, IfOk, FitsSigned, SomeIff};
ghost use Rattle.std.specs.Int.{w64};
ghost use Rattle.std.specs.List.{list_all};
ghost use Rattle.json_model.specs.Grammar.{IsNumber};
ghost use Rattle.json_model.specs.Edit.{is_digit, magnitude};
ghost use Rattle.subdoc_edit.specs.Numbers.{TellsWhole, IsNumberPlan};
ghost use Rattle.subdoc_edit.specs.Planning.{TellsCounter};
ghost use Rattle.subdoc_edit.specs.Splicing.{IsStanding};

use crate::plan::Plan;
use crate::values::Given;
use crate::walking::cut;
use doc_model::{Refused, Status};
use json_model::{Kind, PARTS_LIMIT};
use json_spell::Span;
use json_walk::{kind_at, value_end};
use kv_edge::{Bytes, NoMemory};
use std::alloc::Global;

/// The whole number that a JSON number is.
#[derive(Clone, Copy, Debug, PartialEq, Eq)]
pub enum Whole {
    /// This one.
    Is(i64),
    /// One beyond 64 bits with a sign.
    Large,
    /// None: it is spelt with a point or an e.
    Not,
}

/// Whether a byte is a decimal digit.
fn is_digit(byte: u8) -> bool
    ensures { result ≡ is_digit byte }
{
    byte > 0x2f && byte < 0x3a
}

/// The digits behind what may be a minus.
fn magnitude(bytes: &[u8]) -> &[u8]
    ensures { result.now ≡ magnitude bytes.now }
{
    match bytes {
        [b'-', digits @ ..] => digits,
        _ => bytes,
    }
}

/// Whether all bytes are digits.
fn are_digits(bytes: &[u8]) -> bool
    ensures { result ≡ list_all is_digit bytes.now }
{
    for byte in bytes {
        if !is_digit(*byte) {
            return false;
        }
    }
    true
}

/// The whole number that a JSON number is.
fn whole_of(bytes: &[u8]) -> Whole
    requires { IsNumber bytes.now }
    ensures { TellsWhole bytes.now result }
{
    if !are_digits(magnitude(bytes)) {
        return Whole::Not;
    }
    let text = match str::from_utf8(bytes) {
        Ok(text) => text,
        Err(_) => return Whole::Not,
    };
    match text.parse::<i64>() {
        Ok(number) => Whole::Is(number),
        Err(_) => Whole::Large,
    }
}

/// The number at `at`, to which so many parts of a path lead, counted up by the delta that was
/// given.
pub fn counter_at(
    alloc: Global,
    text: &[u8],
    at: usize,
    followed: usize,
    value: &[u8],
    given: Given,
) -> Result<Plan, Refused>
    requires stands { IsStanding text.now at }
    requires few { followed ≤ PARTS_LIMIT }
    ensures { TellsCounter text.now value.now at followed given.delta result }
{
    if kind_at(text, at) != Kind::Number {
        return Err(Refused::Status(Status::PATH_MISMATCH));
    }
    let end = value_end(text, at);
    let old = match whole_of(cut(text, at, end)) {
        Whole::Is(number) => number,
        Whole::Large => return Err(Refused::Status(Status::NUM_ERANGE)),
        Whole::Not => return Err(Refused::Status(Status::PATH_MISMATCH)),
    };
    match sum(old, given.delta) {
        Some(number) => {
            let span = Span { from: at, to: end };
            Ok(number_plan(alloc, span, followed, number)?)
        }
        None => Err(Refused::Status(Status::VALUE_CANT_INSERT)),
    }
}

/// A number and a delta together, where that is a number of 64 bits with a sign.
fn sum(number: i64, delta: i64) -> Option<i64>
    ensures { SomeIff result (FitsSigned w64 (number +ℤ delta)) (number +ℤ delta) }
{
    number.checked_add(delta)
}

/// A number in place of a value.
fn number_plan(alloc: Global, span: Span, followed: usize, number: i64) -> Result<Plan, NoMemory>
    ensures { IfOk result (λ p. IsNumberPlan span followed number p) }
{
    let digits = format!(in alloc; "{number}")?;
    Ok(Plan {
        from: span.from,
        to: span.to,
        before: Bytes::from_slice(alloc, digits.as_bytes())?,
        value_from: 0,
        value_to: 0,
        behind: Bytes::new(alloc),
        depth: followed,
        number: Some(number),
    })
}
