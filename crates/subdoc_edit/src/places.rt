//! Where the bytes of a text change.

ghost use Rattle.std.specs.Prelude.{◌≡◌, ◌≤◌, length};
ghost use Rattle.json_model.specs.declared.kinds.Shape.{Shape};
ghost use Rattle.json_spell.specs.Nodes.{kind_of};
ghost use Rattle.subdoc_edit.specs.Splicing.{IsStanding, EndsAt, BeginsAt, IsPartOf, MeetsAt};
ghost use Rattle.subdoc_edit.specs.Splicing.{CutsAt};

use json_model::{Kind, Shape};
use json_spell::Span;
use json_walk::{first_part, kind_at, last_end, next_part, value_end};

/// Where new parts go.
#[derive(Clone, Copy, Debug, PartialEq, Eq)]
pub struct Gap {
    /// The place in the text.
    pub at: usize,
    /// Whether a comma parts them from the parts that are there.
    pub comma: bool,
}

/// Where parts go at the end of a value that may hold some: behind the last one's value, or behind
/// the bracket.
pub fn end_of(text: &[u8], at: usize) -> Gap
    requires { IsStanding text.now at }
    ensures { EndsAt text.now at result }
{
    match last_end(text, at) {
        None => Gap {
            at: at + 1,
            comma: false,
        },
        Some(end) => Gap {
            at: end,
            comma: true,
        },
    }
}

/// Where elements go at the front of an array: before the first one, behind the blanks before it,
/// or behind the bracket.
pub fn front_of(text: &[u8], at: usize) -> Gap
    requires { IsStanding text.now at }
    ensures { BeginsAt text.now at result }
{
    match first_part(text, at) {
        None => Gap {
            at: at + 1,
            comma: false,
        },
        Some(first) => Gap {
            at: first.start,
            comma: true,
        },
    }
}

/// The shape of a value of this kind that holds parts.
fn shape_of(kind: Kind) -> Shape
    ensures { (shape : Shape) → kind ≡ kind_of shape → result ≡ shape }
{
    match kind {
        Kind::Object => Shape::Object,
        _ => Shape::Array,
    }
}

/// Where a part of a value stands.
#[derive(Clone, Copy, Debug, PartialEq, Eq)]
struct Met {
    /// The place of its first byte behind its blanks.
    start: usize,
    /// The place behind the value of the part before it, if there is one.
    before: Option<usize>,
}

/// Where the part stands whose value is at `at`, of the value at `whole`.
fn meet(text: &[u8], shape: Shape, whole: usize, at: usize) -> Met
    requires { whole ≤ length text.now }
    ensures { MeetsAt text.now shape whole at result }
{
    let mut before = None;
    let mut part = match first_part(text, whole) {
        None => return Met { start: at, before },
        Some(first) => first,
    };
    while part.value != at {
        let end = value_end(text, part.value);
        part = match next_part(text, shape, end) {
            None => return Met { start: at, before },
            Some(next) => next,
        };
        before = Some(end);
    }
    Met {
        start: part.start,
        before,
    }
}

/// The bytes that go with a part of the value at `whole`, whose own value is at `at`: up to the
/// next part; of the last one, from the end of the one before it on; of the only one, its own.
pub fn cut_of(text: &[u8], whole: usize, at: usize) -> Span
    requires { IsPartOf text.now whole at }
    ensures { CutsAt text.now whole at result }
{
    let shape = shape_of(kind_at(text, whole));
    let met = meet(text, shape, whole, at);
    let end = value_end(text, at);
    match next_part(text, shape, end) {
        Some(next) => Span {
            from: met.start,
            to: next.start,
        },
        None => match met.before {
            Some(previous) => Span {
                from: previous,
                to: end,
            },
            None => Span {
                from: met.start,
                to: end,
            },
        },
    }
}
