//! Following a path in a text itself.

ghost use Rattle.std.specs.Prelude.{◌≡◌};
ghost use Rattle.json_model.specs.declared.TheConstants.{MOST_DEEP};
ghost use Rattle.json_model.specs.declared.asked.Part.TheVariants as parts;
ghost use Rattle.json_model.specs.Follow.{asks};
ghost use Rattle.json_model.specs.Spelled.{Document, IsText};
ghost use Rattle.json_spell.specs.Nodes.{kind_of};
ghost use Rattle.subdoc_path.specs.Led.{LeadsAt};
ghost use Rattle.subdoc_path.specs.Naming.{IsAskedAt, FindsAt};

use crate::keys::{cut, stands_for};
use crate::led::Led;
use json_model::{Kind, Part, Shape};
use json_walk::{first_part, kind_at, next_part, root, value_end};

/// The place of the value of the first member of this name, of the object at a place.
fn member_at(text: &[u8], at: usize, name: &[u8]) -> Option<usize>
    requires { IsAskedAt text.now at (parts.Member name.now) }
    ensures { FindsAt text.now at (parts.Member name.now) result }
{
    let mut member = match first_part(text, at) {
        None => return None,
        Some(first) => first,
    };
    loop {
        if stands_for(cut(text, member.start, member.key_to), name) {
            return Some(member.value);
        }
        match next_part(text, Shape::Object, value_end(text, member.value)) {
            None => return None,
            Some(next) => member = next,
        }
    }
}

/// The place of the element of this number, of the array at a place.
fn element_at(text: &[u8], at: usize, number: u32) -> Option<usize>
    requires { IsAskedAt text.now at (parts.At number) }
    ensures { FindsAt text.now at (parts.At number) result }
{
    match json_walk::part(text, at, number as u64) {
        None => None,
        Some(found) => Some(found.value),
    }
}

/// The place of the last element, of the array at a place.
fn last_at(text: &[u8], at: usize) -> Option<usize>
    requires { IsAskedAt text.now at parts.Last }
    ensures { FindsAt text.now at parts.Last result }
{
    let mut element = match first_part(text, at) {
        None => return None,
        Some(first) => first,
    };
    loop {
        match next_part(text, Shape::Array, value_end(text, element.value)) {
            None => return Some(element.value),
            Some(next) => element = next,
        }
    }
}

/// The place of the value that a part of a path names, of the object or array at a place.
fn child_at(text: &[u8], at: usize, part: &Part) -> Option<usize>
    requires { IsAskedAt text.now at part.now }
    ensures { FindsAt text.now at part.now result }
{
    match part {
        Part::Member(name) => member_at(text, at, name.as_slice()),
        Part::At(number) => element_at(text, at, *number),
        Part::Last => last_at(text, at),
    }
}

/// The kind of value that a part of a path asks for.
fn kind_asked(part: &Part) -> Kind
    ensures { result ≡ kind_of (asks part.now) }
{
    match part {
        Part::Member(_) => Kind::Object,
        Part::At(_) | Part::Last => Kind::Array,
    }
}

/// Follows parts of a path in a JSON text itself. It takes no memory. Each part goes on from the
/// value that was reached, and steps over the bytes between that and the value that it names; for
/// the last element over that too.
///
/// A part that names nothing that is there is [`Led::Missing`], one that asks for another kind of
/// value [`Led::Mismatch`], each with its number.
pub fn follow(text: &[u8], parts: &[Part]) -> Led
    requires { (d : Document) × IsText MOST_DEEP d text.now }
    ensures { (d : Document) → IsText MOST_DEEP d text.now → LeadsAt parts.now text.now d result }
{
    let mut at = root(text);
    for (followed, part) in parts.iter().enumerate() {
        if kind_at(text, at) != kind_asked(part) {
            return Led::Mismatch(followed);
        }
        match child_at(text, at, part) {
            Some(next) => at = next,
            None => return Led::Missing(followed),
        }
    }
    Led::At(at)
}
