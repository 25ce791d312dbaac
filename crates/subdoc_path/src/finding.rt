//! Following a path.

ghost use Rattle.json_model.specs.declared.TheConstants.{MOST_DEEP};
ghost use Rattle.json_model.specs.declared.asked.Part.TheVariants as parts;
ghost use Rattle.json_model.specs.Spelled.{Document, IsText};
ghost use Rattle.json_spell.specs.Places.{Spans as AreSpans};
ghost use Rattle.subdoc_path.specs.Standing.{IsStanding};
ghost use Rattle.subdoc_path.specs.Leading.{Leads};
ghost use Rattle.subdoc_path.specs.Stepping.{StepsAt};

use crate::children::{element, member};
use crate::path::Path;
use json_model::{Kind, Part};
use json_spell::{Node, Spans, nodes};

/// Where a path leads.
#[derive(Clone, Copy, Debug, PartialEq, Eq)]
pub enum Found {
    /// To the value at this place in the list of the text's values.
    At(usize),
    /// The part of this number, from 0 on, names nothing that is there.
    Missing(usize),
    /// The part of this number, from 0 on, is a name where there is no object, or an index where
    /// there is no array.
    Mismatch(usize),
}

/// Where one part of a path leads.
#[derive(Clone, Copy, Debug, PartialEq, Eq)]
pub enum Step {
    /// To the value at this place in the list.
    To(usize),
    /// It names nothing that is there.
    Missing,
    /// It asks for another kind of value.
    Mismatch,
}

/// To the first member of this name.
fn to_member(text: &[u8], nodes: &[Node], at: usize, name: &[u8]) -> Step
    requires { IsStanding text.now nodes.now at }
    ensures { StepsAt text.now nodes.now at (parts.Member name.now) result }
{
    let node = match nodes.get(at) {
        Some(node) => node,
        None => return Step::Mismatch,
    };
    if node.kind != Kind::Object {
        return Step::Mismatch;
    }
    if node.children == 0 {
        return Step::Missing;
    }
    let end = node.after as usize;
    match member(text, nodes, at + 1, end, name) {
        Some(next) => Step::To(next),
        None => Step::Missing,
    }
}

/// To the element of this number.
fn to_element(text: &[u8], nodes: &[Node], at: usize, number: u32) -> Step
    requires { IsStanding text.now nodes.now at }
    ensures { StepsAt text.now nodes.now at (parts.At number) result }
{
    let node = match nodes.get(at) {
        Some(node) => *node,
        None => return Step::Mismatch,
    };
    if node.kind != Kind::Array {
        return Step::Mismatch;
    }
    if number >= node.children {
        return Step::Missing;
    }
    Step::To(element(nodes, at + 1, number))
}

/// To the last element.
fn to_last(text: &[u8], nodes: &[Node], at: usize) -> Step
    requires { IsStanding text.now nodes.now at }
    ensures { StepsAt text.now nodes.now at parts.Last result }
{
    let node = match nodes.get(at) {
        Some(node) => *node,
        None => return Step::Mismatch,
    };
    if node.kind != Kind::Array {
        return Step::Mismatch;
    }
    if node.children == 0 {
        return Step::Missing;
    }
    Step::To(element(nodes, at + 1, node.children - 1))
}

/// Where one part of a path leads.
fn follow(text: &[u8], nodes: &[Node], at: usize, part: &Part) -> Step
    requires { IsStanding text.now nodes.now at }
    ensures { StepsAt text.now nodes.now at part.now result }
{
    match part {
        Part::Member(name) => to_member(text, nodes, at, name.as_slice()),
        Part::At(number) => to_element(text, nodes, at, *number),
        Part::Last => to_last(text, nodes, at),
    }
}

/// Follows parts of a path in a text whose values these are, as [`find`] follows them all: an edit
/// asks so for what the front of a path leads to.
pub fn find_parts(text: &[u8], spans: &Spans, parts: &[Part]) -> Found
    requires { AreSpans text.now spans.now }
    ensures { (d : Document) → IsText MOST_DEEP d text.now → Leads parts.now d.tree result }
{
    let nodes = nodes(spans);
    let mut at = 0;
    for (followed, part) in parts.iter().enumerate() {
        match follow(text, nodes, at, part) {
            Step::To(next) => at = next,
            Step::Missing => return Found::Missing(followed),
            Step::Mismatch => return Found::Mismatch(followed),
        }
    }
    Found::At(at)
}

/// Follows a path in a text whose values these are. It takes no memory, and looks at the members
/// and elements before those that the path names, and at no value in them.
pub fn find(text: &[u8], spans: &Spans, path: &Path) -> Found
    requires { AreSpans text.now spans.now }
    ensures { (d : Document) → IsText MOST_DEEP d text.now → Leads path.now d.tree result }
{
    find_parts(text, spans, path.parts())
}
