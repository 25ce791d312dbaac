//! The words of a line, and the names and numbers that they spell.

ghost use Rattle.std.specs.Prelude.{◌≡◌, ◌==◌, ◌↔◌, ◌≢◌, ◌≤◌, ℕ, map, length, slice_index, IfOk, IsTrue};
ghost use Rattle.std.specs.List.{list_all, slice_split};
ghost use Rattle.kv_script.specs.Lines.{IsName, is_name_byte};
ghost use Rattle.kv_script.specs.Reading.{Reads, IsNumberWord, IsNumberFrom, IsConnectionWord, IsNameWord, texts};

use crate::line::LineFault;
use kv_edge::{Bytes, NoMemory};
use std::alloc::{AllocError, Global};
use std::str;

/// Numbers are below 2^48.
const NUMBER_BOUND: u64 = 1 << 48;

/// A copy takes bytes on the connections 0 to 3.
const GREATEST_CONNECTION: u64 = 3;

/// The most bytes of a name.
const NAME_LIMIT: usize = 16;

/// The words of a line: what stands between its spaces, before the first and behind the last.
pub(crate) fn words_of(alloc: Global, line: &[u8]) -> Result<Vec<&[u8]>, AllocError>
    ensures { IfOk result (λ words. texts words.items ≡ slice_split (λ b. b == 0x20) line.now) }
{
    line.split(|byte| *byte == b' ').collect(alloc)
}

/// Whether a byte may stand in a name.
fn is_name_byte(byte: u8) -> bool
    ensures { result ≡ is_name_byte byte }
{
    (b'a' <= byte && byte <= b'z') || (b'0' <= byte && byte <= b'9')
}

/// Whether all bytes of a word may stand in a name.
fn is_plain(word: &[u8]) -> bool
    ensures { result ≡ list_all is_name_byte word.now }
{
    word.iter().all(|byte| is_name_byte(*byte))
}

/// Whether a word is a copy's name.
pub(crate) fn is_name(word: &[u8]) -> bool
    ensures { IsTrue result ↔ IsName word.now }
{
    1 <= word.len() && word.len() <= NAME_LIMIT && is_plain(word)
}

/// The copy's name that a word is.
pub(crate) fn name_at(alloc: Global, word: &[u8]) -> Result<Bytes, LineFault>
    ensures { Reads (IsNameWord word.now) result }
{
    if !is_name(word) {
        return Err(LineFault::Bad);
    }
    match Bytes::from_slice(alloc, word) {
        Ok(name) => Ok(name),
        Err(NoMemory) => Err(LineFault::NoMemory),
    }
}

/// Whether a word begins as a number's does: without a sign, and with 0 only where that is all.
fn begins_as_number(word: &[u8]) -> bool
    ensures { IsTrue result
        ↔ ((slice_index word.now 0 ≢ 0x2b) × (slice_index word.now 0 ≡ 0x30 → length word.now ≤ 1)) }
{
    match word {
        [b'+', ..] | [b'0', _, ..] => false,
        _ => true,
    }
}

/// The number that a word is, in decimal digits.
pub(crate) fn number_at(word: &[u8]) -> Result<u64, LineFault>
    ensures { Reads (IsNumberWord word.now) result }
{
    if !begins_as_number(word) {
        return Err(LineFault::Bad);
    }
    let Ok(text) = str::from_utf8(word) else {
        return Err(LineFault::Bad);
    };
    let Ok(number) = text.parse::<u64>() else {
        return Err(LineFault::Bad);
    };
    if number < NUMBER_BOUND {
        Ok(number)
    } else {
        Err(LineFault::Bad)
    }
}

/// The number that a word is, from the least one on.
pub(crate) fn number_from(word: &[u8], least: u64) -> Result<u64, LineFault>
    ensures { Reads (IsNumberFrom least word.now) result }
{
    let number = number_at(word)?;
    if number >= least {
        Ok(number)
    } else {
        Err(LineFault::Bad)
    }
}

/// The connection that a word is.
#[tactic(auto, using(crate::proofs::Numbers::too_great))]
pub(crate) fn connection_at(word: &[u8]) -> Result<u8, LineFault>
    ensures { Reads (IsConnectionWord word.now) result }
{
    let number = number_at(word)?;
    if number <= GREATEST_CONNECTION {
        Ok(number as u8)
    } else {
        Err(LineFault::Bad)
    }
}
