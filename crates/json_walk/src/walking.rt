//! From a value to its parts, and from part to part.

ghost use Rattle.std.specs.Prelude.{◌≡◌, ℕ, ◌+◌, ◌<◌, ◌≤◌, length, IfSome};
ghost use Rattle.json_model.specs.Spelled.{Tree, Parts, Document, count, IsText};
ghost use Rattle.json_walk.specs.Places.{IsAt, ArePartsAt};
ghost use Rattle.json_walk.specs.Stepping.{shape_told};
ghost use Rattle.json_walk.specs.Telling.{tree_kind, tree_end, filled, LiesWithin, part_at};
ghost use Rattle.json_walk.specs.Telling.{end_at, parts_behind, told, part_of};
ghost use Rattle.json_walk.specs.Telling.{last_end_at, last_end_of, many_of};

use crate::places::PartAt;
use crate::stepping::{behind_colon, behind_key, behind_value, kind_of, skip_blanks};
use json_model::{Kind, Shape};

/// The place of the text's value: behind the blanks at its front.
pub fn root(text: &[u8]) -> usize
    ensures found { (most : ℕ) (d : Document) → IsText most d text.now
        → result ≡ length d.before }
    ensures within { result ≤ length text.now }
{
    text.len() - skip_blanks(text).len()
}

/// What the value at a place is.
pub fn kind_at(text: &[u8], at: usize) -> Kind
    requires { at ≤ length text.now }
    ensures { (t : Tree) → IsAt text.now at t → result ≡ tree_kind t }
{
    let (_, value) = text.split_at(at);
    match value {
        [] => Kind::Null,
        [byte, ..] => kind_of(*byte),
    }
}

/// The place behind the value at a place.
pub fn value_end(text: &[u8], at: usize) -> usize
    requires { at ≤ length text.now }
    ensures found { (t : Tree) → IsAt text.now at t → result ≡ tree_end at t }
    ensures within { (at ≤ result) × (result ≤ length text.now) }
{
    let (_, value) = text.split_at(at);
    text.len() - behind_value(value).len()
}

/// Where the part stands whose first byte, blanks and all, is at a place.
fn part_from(text: &[u8], shape: Shape, at: usize) -> PartAt
    requires { at ≤ length text.now }
    ensures found { (ps : Parts) → ArePartsAt text.now at shape ps → result ≡ part_at at ps }
    ensures within { LiesWithin at (length text.now) result }
{
    let (_, bytes) = text.split_at(at);
    let start = skip_blanks(bytes);
    let key_to = behind_key(shape, start);
    let value = behind_colon(shape, key_to);
    PartAt {
        start: text.len() - start.len(),
        key_to: text.len() - key_to.len(),
        value: text.len() - value.len(),
    }
}

/// The next part of an object or an array behind the place at which a part's value ends; none where
/// the closing bracket follows.
pub fn next_part(text: &[u8], shape: Shape, end: usize) -> Option<PartAt>
    requires { end ≤ length text.now }
    ensures found { (at : ℕ) (ps : Parts) → ArePartsAt text.now at shape ps
        → end ≡ end_at at ps → result ≡ told (parts_behind at ps) }
    ensures within { IfSome result (λ p. LiesWithin (end + 1) (length text.now) p) }
{
    let (_, bytes) = text.split_at(end);
    match skip_blanks(bytes) {
        [] => None,
        [byte, rest @ ..] => {
            if *byte == b',' {
                Some(part_from(text, shape, text.len() - rest.len()))
            } else {
                None
            }
        }
    }
}

/// Whether a value that begins with this byte, with these bytes behind it, holds parts: its shape.
fn shape_of(byte: u8, behind: &[u8]) -> Option<Shape>
    ensures { result ≡ shape_told byte behind.now }
{
    match skip_blanks(behind) {
        [b'}' | b']', ..] => None,
        _ => match byte {
            b'{' => Some(Shape::Object),
            b'[' => Some(Shape::Array),
            _ => None,
        },
    }
}

/// The shape of the value at a place, where it holds parts.
fn filled(text: &[u8], at: usize) -> Option<Shape>
    requires { at ≤ length text.now }
    ensures found { (t : Tree) → IsAt text.now at t → result ≡ filled t }
    ensures within { IfSome result (λ shape. at < length text.now) }
{
    let (_, value) = text.split_at(at);
    match value {
        [] => None,
        [byte, behind @ ..] => shape_of(*byte, behind),
    }
}

/// The first part of the value at a place; none where it holds none.
pub fn first_part(text: &[u8], at: usize) -> Option<PartAt>
    requires { at ≤ length text.now }
    ensures found { (t : Tree) → IsAt text.now at t → result ≡ part_of 0 at t }
    ensures within { IfSome result (λ p. LiesWithin (at + 1) (length text.now) p) }
{
    match filled(text, at) {
        None => None,
        Some(shape) => Some(part_from(text, shape, at + 1)),
    }
}

/// The part of this number, counted from 0 on, of the value at a place; none where it has no such
/// part.
pub fn part(text: &[u8], at: usize, number: u64) -> Option<PartAt>
    requires { at ≤ length text.now }
    ensures found { (t : Tree) → IsAt text.now at t → result ≡ part_of number at t }
    ensures within { IfSome result (λ p. LiesWithin (at + 1) (length text.now) p) }
{
    let shape = match filled(text, at) {
        None => return None,
        Some(shape) => shape,
    };
    let mut next = Some(part_from(text, shape, at + 1));
    for _passed in 0..number {
        match next {
            None => return None,
            Some(part) => next = next_part(text, shape, value_end(text, part.value)),
        }
    }
    next
}

/// How many parts there are, and where the last one's value ends.
#[derive(Clone, Copy, Debug, PartialEq, Eq)]
struct AllParts {
    count: u64,
    last_end: usize,
}

/// All parts of an object or an array, of which the first begins, blanks and all, at a place.
fn all_parts_from(text: &[u8], shape: Shape, from: usize) -> AllParts
    requires { (1 ≤ from) × (from ≤ length text.now) }
    ensures found { (ps : Parts) → ArePartsAt text.now from shape ps
        → (result.count ≡ count ps) × (result.last_end ≡ last_end_at from ps) }
    ensures few { result.count ≤ result.last_end }
    ensures within { (from ≤ result.last_end) × (result.last_end ≤ length text.now) }
{
    let first = part_from(text, shape, from);
    let mut end = value_end(text, first.value);
    let mut count = 1u64;
    while let Some(part) = next_part(text, shape, end) {
        count += 1;
        end = value_end(text, part.value);
    }
    AllParts {
        count,
        last_end: end,
    }
}

/// How many members or elements the value at a place has.
pub fn count(text: &[u8], at: usize) -> u64
    requires { at ≤ length text.now }
    ensures found { (t : Tree) → IsAt text.now at t → result ≡ many_of t }
    ensures few { result ≤ length text.now }
{
    match filled(text, at) {
        None => 0,
        Some(shape) => all_parts_from(text, shape, at + 1).count,
    }
}

/// The place behind the last member's or element's value, of the value at a place; none where it
/// has none.
pub fn last_end(text: &[u8], at: usize) -> Option<usize>
    requires { at ≤ length text.now }
    ensures found { (t : Tree) → IsAt text.now at t → result ≡ last_end_of at t }
    ensures within { IfSome result (λ end. (at < end) × (end ≤ length text.now)) }
{
    match filled(text, at) {
        None => None,
        Some(shape) => Some(all_parts_from(text, shape, at + 1).last_end),
    }
}
