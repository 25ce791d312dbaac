//! The words behind `promote`.

ghost use Rattle.kv_script.specs.Lines.{IsPromotion};
ghost use Rattle.kv_script.specs.Reading.{Reads, AreNumberWords, IsStrengthWord, texts};

use crate::line::LineFault;
use crate::words::{name_at, number_at};
use kv_edge::{Bytes, Seq};
use std::alloc::Global;

/// Whether a word asks for a weak promotion, and not for a strict one.
fn is_weak(word: &[u8]) -> Result<bool, LineFault>
    ensures { Reads (IsStrengthWord word.now) result }
{
    match word {
        b"weak" => Ok(true),
        b"strict" => Ok(false),
        _ => Err(LineFault::Bad),
    }
}

/// The numbers that words are.
fn numbers_at(alloc: Global, words: &[&[u8]]) -> Result<Seq<u64>, LineFault>
    ensures { Reads (AreNumberWords (texts words.now)) result }
{
    let Ok(mut numbers) = Vec::with_capacity(alloc, words.len()) else {
        return Err(LineFault::NoMemory);
    };
    for word in words {
        let number = number_at(word)?;
        match numbers.push(number) {
            Ok(()) => {}
            Err(_) => return Err(LineFault::NoMemory),
        }
    }
    Ok(Seq::from_vec(numbers))
}

/// A copy's name, a term, whether a weak promotion is asked for, and the numbers of the answers.
pub(crate) fn promotion(
    alloc: Global,
    parts: &[&[u8]],
) -> Result<(Bytes, u64, bool, Seq<u64>), LineFault>
    ensures { Reads (λ read. IsPromotion read.0 read.1 read.2 read.3 (texts parts.now)) result }
{
    let [copy, term, strength, answers @ ..] = parts else {
        return Err(LineFault::Bad);
    };
    if answers.is_empty() {
        return Err(LineFault::Bad);
    }
    let copy = name_at(alloc, copy)?;
    let term = number_at(term)?;
    let weak = is_weak(strength)?;
    let answers = numbers_at(alloc, answers)?;
    Ok((copy, term, weak, answers))
}
