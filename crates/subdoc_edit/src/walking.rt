//! From element to element of an array.

ghost use Rattle.std.specs.Prelude.{◌≡◌, ◌-◌, ◌≤◌, length, take, drop};
ghost use Rattle.subdoc_edit.specs.Parts.{TellsLeaves, TellsText};

use crate::kinds::holds_others;
use json_model::Shape;
use json_walk::{first_part, kind_at, next_part, value_end};

/// Whether none of the elements of the array at `at` holds others.
pub fn are_leaves(text: &[u8], at: usize) -> bool
    requires { at ≤ length text.now }
    ensures { TellsLeaves text.now at result }
{
    let first = match first_part(text, at) {
        None => return true,
        Some(first) => first,
    };
    if holds_others(kind_at(text, first.value)) {
        return false;
    }
    let mut end = value_end(text, first.value);
    while let Some(part) = next_part(text, Shape::Array, end) {
        if holds_others(kind_at(text, part.value)) {
            return false;
        }
        end = value_end(text, part.value);
    }
    true
}

/// Whether one of the elements of the array at `at` has this text.
pub fn has_text(text: &[u8], at: usize, wanted: &[u8]) -> bool
    requires { at ≤ length text.now }
    ensures { TellsText text.now at wanted.now result }
{
    let first = match first_part(text, at) {
        None => return false,
        Some(first) => first,
    };
    let mut end = value_end(text, first.value);
    if cut(text, first.value, end) == wanted {
        return true;
    }
    while let Some(part) = next_part(text, Shape::Array, end) {
        end = value_end(text, part.value);
        if cut(text, part.value, end) == wanted {
            return true;
        }
    }
    false
}

/// The bytes from one place to another.
pub fn cut(bytes: &[u8], from: usize, to: usize) -> &[u8]
    requires { (from ≤ to) × (to ≤ length bytes.now) }
    ensures { result.now ≡ take (to - from) (drop from bytes.now) }
{
    let (_, back) = bytes.split_at(from);
    let (front, _) = back.split_at(to - from);
    front
}
