//! Whether bytes are a JSON text, without memory: one loop over the tokens, with the open brackets
//! as bits.

ghost use Rattle.std.specs.Prelude.{◌≡◌, [], ◌∷◌, IsTrue};
ghost use Rattle.json_model.specs.Spelled.{Document, IsText};
ghost use Rattle.json_spell.specs.Machine.{before, opened, naming, behind, verdict};
ghost use Rattle.json_spell.specs.Places.{Judges};
ghost use Rattle.json_spell.specs.Reading.{IsAt};
ghost use Rattle.json_spell.specs.Nodes.{kind_of};
ghost use Rattle.json_spell.specs.Turns.{shapes_in, Turns, TurnsOrEnds, state_of};

use crate::brackets::Brackets;
use crate::pieces::{behind_byte, closed, key_end, leaf_end, part_end, shape_of};
use crate::tokens::{Stop, kind_at, skip_blanks};
use json_model::{MOST_DEEP, Shape};

/// What bytes are.
#[derive(Clone, Copy, Debug, PartialEq, Eq)]
pub enum Judgement {
    /// A JSON text at most 32 deep.
    Json,
    /// None: no JSON text has the bytes up to and with this place as its front; or the bytes end
    /// too early, and this is their number.
    Not(usize),
    /// None: the bracket at this place opens depth 33.
    Deep(usize),
}

/// What may stand next, after blanks.
#[derive(Clone, Copy, Debug, PartialEq, Eq)]
pub enum Place {
    /// A value.
    Before,
    /// The first part of what is innermost, or its closing bracket.
    Opened,
    /// A key.
    Naming,
    /// A comma or a closing bracket, or the end of the text where nothing is open.
    Behind,
}

/// How far a text has been read.
#[derive(Clone, Copy, Debug, PartialEq, Eq)]
pub struct Spot {
    pub place: Place,
    pub brackets: Brackets,
}

/// Goes in behind an opening bracket.
fn enter(brackets: Brackets, shape: Shape, bytes: &[u8]) -> Result<(Spot, &[u8]), Stop>
    requires { IsAt (kind_of shape) bytes.now }
    ensures { Turns (before (shapes_in brackets)) bytes.now result }
{
    if brackets.is_full() {
        return Err(Stop::Deep(bytes.len()));
    }
    match bytes {
        [] => Err(Stop::Not(0)),
        [_, inner @ ..] => {
            let spot = Spot {
                place: Place::Opened,
                brackets: brackets.with(shape),
            };
            Ok((spot, inner))
        }
    }
}

/// Passes over a string, a number or a word, or goes in behind an opening bracket.
fn value_turn(brackets: Brackets, bytes: &[u8]) -> Result<(Spot, &[u8]), Stop>
    ensures { Turns (before (shapes_in brackets)) bytes.now result }
{
    let at_value = skip_blanks(bytes);
    let byte = match at_value {
        [] => return Err(Stop::Not(0)),
        [byte, ..] => *byte,
    };
    let kind = match kind_at(byte) {
        Some(kind) => kind,
        None => return Err(Stop::Not(at_value.len())),
    };
    match shape_of(kind) {
        Some(shape) => enter(brackets, shape, at_value),
        None => {
            let rest = leaf_end(kind, at_value)?;
            let spot = Spot {
                place: Place::Behind,
                brackets,
            };
            Ok((spot, rest))
        }
    }
}

/// Passes over a key and its colon.
fn member_turn(brackets: Brackets, bytes: &[u8]) -> Result<(Spot, &[u8]), Stop>
    ensures { Turns (naming (shapes_in brackets)) bytes.now result }
{
    let rest = key_end(skip_blanks(bytes))?;
    let at_value = behind_byte(b':', skip_blanks(rest))?;
    let spot = Spot {
        place: Place::Before,
        brackets,
    };
    Ok((spot, at_value))
}

/// Passes over the closing bracket where it is first, or over the start of the first part.
fn first_turn(
    brackets: Brackets,
    shape: Shape,
    outer: Brackets,
    bytes: &[u8],
) -> Result<(Spot, &[u8]), Stop>
    requires { shapes_in brackets ≡ shape ∷ shapes_in outer }
    ensures { Turns (opened shape (shapes_in outer)) bytes.now result }
{
    let at_part = skip_blanks(bytes);
    match closed(shape, at_part) {
        Some(rest) => {
            let spot = Spot {
                place: Place::Behind,
                brackets: outer,
            };
            Ok((spot, rest))
        }
        None => match shape {
            Shape::Object => member_turn(brackets, at_part),
            Shape::Array => value_turn(brackets, at_part),
        },
    }
}

/// Passes over a comma or the closing bracket.
fn next_turn(
    brackets: Brackets,
    shape: Shape,
    outer: Brackets,
    bytes: &[u8],
) -> Result<(Spot, &[u8]), Stop>
    requires { shapes_in brackets ≡ shape ∷ shapes_in outer }
    ensures { Turns (behind (shapes_in brackets)) bytes.now result }
{
    let (more, rest) = part_end(shape, skip_blanks(bytes))?;
    if !more {
        let place = Place::Behind;
        return Ok((
            Spot {
                place,
                brackets: outer,
            },
            rest,
        ));
    }
    let place = match shape {
        Shape::Object => Place::Naming,
        Shape::Array => Place::Before,
    };
    Ok((Spot { place, brackets }, rest))
}

/// The end of the text, behind its value.
fn text_end(bytes: &[u8]) -> Result<(), Stop>
    ensures { verdict MOST_DEEP (behind []) bytes.now ≡ result }
{
    let left = skip_blanks(bytes);
    if left.is_empty() {
        Ok(())
    } else {
        Err(Stop::Not(left.len()))
    }
}

/// Reads on by a token; nothing is returned at the end of the text.
fn turn(spot: Spot, bytes: &[u8]) -> Result<Option<(Spot, &[u8])>, Stop>
    ensures { TurnsOrEnds (state_of spot) bytes.now result }
{
    match spot.place {
        Place::Before => Ok(Some(value_turn(spot.brackets, bytes)?)),
        Place::Naming => Ok(Some(member_turn(spot.brackets, bytes)?)),
        Place::Opened => match spot.brackets.innermost() {
            None => Ok(Some(value_turn(spot.brackets, bytes)?)),
            Some((shape, outer)) => Ok(Some(first_turn(spot.brackets, shape, outer, bytes)?)),
        },
        Place::Behind => match spot.brackets.innermost() {
            None => {
                text_end(bytes)?;
                Ok(None)
            }
            Some((shape, outer)) => Ok(Some(next_turn(spot.brackets, shape, outer, bytes)?)),
        },
    }
}

/// Reads a whole text.
fn judged(text: &[u8]) -> Result<(), Stop>
    ensures { verdict MOST_DEEP (before []) text.now ≡ result }
{
    let mut spot = Spot {
        place: Place::Before,
        brackets: Brackets::none(),
    };
    let mut rest = text;
    loop {
        match turn(spot, rest)? {
            None => return Ok(()),
            Some((next, left)) => {
                spot = next;
                rest = left;
            }
        }
    }
}

/// What bytes are: a JSON text at most 32 deep, or the place at which they stop to be the front of
/// one. It takes no memory.
pub fn judge_text(text: &[u8]) -> Judgement
    ensures answer { Judges text.now result }
    ensures only { (d : Document) → IsText MOST_DEEP d text.now → result ≡ Judgement.Json }
{
    match judged(text) {
        Ok(()) => Judgement::Json,
        Err(Stop::Not(left)) => Judgement::Not(text.len() - left),
        Err(Stop::Deep(left)) => Judgement::Deep(text.len() - left),
        Err(Stop::NoMemory) => unreachable!(),
    }
}

/// Whether bytes are a JSON text at most 32 deep.
pub fn is_json(text: &[u8]) -> bool
    ensures found { IsTrue result → (d : Document) × IsText MOST_DEEP d text.now }
    ensures only { (d : Document) → IsText MOST_DEEP d text.now → IsTrue result }
{
    match judge_text(text) {
        Judgement::Json => true,
        _ => false,
    }
}
