//! What values and what stands round them are made of, byte by byte.

ghost use Rattle.std.specs.Prelude.{◌≡◌};
ghost use Rattle.std.specs.Option.{option_copied};
ghost use Rattle.json_model.specs.Spelled.{closing};
ghost use Rattle.json_spell.specs.Tokens.{seen};
ghost use Rattle.json_spell.specs.Reading.{leaf_end, behind_byte, key_end};
ghost use Rattle.json_spell.specs.Reading.{part_end, closed, shape_of};

use crate::tokens::{Mode, Stop, run, spelled_at};
use json_model::{Kind, Shape};

/// The bracket at the end of an object or an array.
pub fn closing(shape: Shape) -> u8
    ensures { result ≡ closing shape }
{
    match shape {
        Shape::Object => b'}',
        Shape::Array => b']',
    }
}

/// The bytes behind a leaf of this kind, of which the first byte is known.
pub fn leaf_end(kind: Kind, bytes: &[u8]) -> Result<&[u8], Stop>
    ensures { seen (λ rest. rest.now) result ≡ leaf_end kind bytes.now }
{
    match kind {
        Kind::Object | Kind::Array => Err(Stop::Not(bytes.len())),
        Kind::Text => match bytes {
            [] => Err(Stop::Not(0)),
            [_, inner @ ..] => run(Mode::Inside, inner),
        },
        Kind::Number => run(Mode::Start, bytes),
        Kind::True => spelled_at(b"true", bytes),
        Kind::False => spelled_at(b"false", bytes),
        Kind::Null => spelled_at(b"null", bytes),
    }
}

/// The bytes behind this byte.
pub fn behind_byte(wanted: u8, bytes: &[u8]) -> Result<&[u8], Stop>
    ensures { seen (λ rest. rest.now) result ≡ behind_byte wanted bytes.now }
{
    match bytes {
        [] => Err(Stop::Not(0)),
        [byte, rest @ ..] => {
            if *byte == wanted {
                Ok(rest)
            } else {
                Err(Stop::Not(bytes.len()))
            }
        }
    }
}

/// The bytes behind a key.
pub fn key_end(bytes: &[u8]) -> Result<&[u8], Stop>
    ensures { seen (λ rest. rest.now) result ≡ key_end bytes.now }
{
    let inner = behind_byte(b'"', bytes)?;
    run(Mode::Inside, inner)
}

/// The bytes behind the closing bracket, where it is first.
pub fn closed(shape: Shape, bytes: &[u8]) -> Option<&[u8]>
    ensures { option_copied result ≡ closed shape bytes.now }
{
    match bytes {
        [byte, rest @ ..] if *byte == closing(shape) => Some(rest),
        _ => None,
    }
}

/// Whether another part follows behind a part's value, and the bytes behind the comma or the
/// bracket.
pub fn part_end(shape: Shape, bytes: &[u8]) -> Result<(bool, &[u8]), Stop>
    ensures { seen (λ x. (x.0, x.1.now)) result ≡ part_end shape bytes.now }
{
    match bytes {
        [] => Err(Stop::Not(0)),
        [byte, rest @ ..] => {
            if *byte == b',' {
                Ok((true, rest))
            } else if *byte == closing(shape) {
                Ok((false, rest))
            } else {
                Err(Stop::Not(bytes.len()))
            }
        }
    }
}

/// The shape of a kind that holds values.
pub fn shape_of(kind: Kind) -> Option<Shape>
    ensures { result ≡ shape_of kind }
{
    match kind {
        Kind::Object => Some(Shape::Object),
        Kind::Array => Some(Shape::Array),
        _ => None,
    }
}
