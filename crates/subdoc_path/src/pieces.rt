//! The pieces of a path: names and indices.

ghost use Rattle.std.specs.Prelude.{◌≡◌, ◌≤◌, ◌<◌, IfOk, IfSome, length, option_map, false};
ghost use Rattle.subdoc_path.specs.Reading.{seen, Reads, is_bare, bare_length, bare_at, ticked_at};
ghost use Rattle.subdoc_path.specs.Reading.{name_at, with_digit, number_at, last_at, zero_at};
ghost use Rattle.subdoc_path.specs.Reading.{index_at};

use crate::path::PathFault;
use json_model::Part;
use kv_edge::Bytes;
use std::alloc::Global;

/// Whether a byte may stand in a name without backticks.
fn is_bare(byte: u8) -> bool
    ensures { result ≡ is_bare byte }
{
    !matches!(byte, b'.' | b'[' | b']' | b'`')
}

/// How many bytes of a name without backticks are first.
#[tactic(auto, unfolding(crate::specs::Reading::bare_length))]
fn bare_length(bytes: &[u8]) -> usize
    ensures is { result ≡ bare_length bytes.now }
    ensures within { result ≤ length bytes.now }
{
    let mut count = 0;
    let mut rest = bytes;
    while let [byte, behind @ ..] = rest {
        if !is_bare(*byte) {
            return count;
        }
        count += 1;
        rest = behind;
    }
    count
}

/// A name behind its first backtick, and what is behind the last one. A backtick in it is written
/// twice, so one waits for the next byte to tell whether it ends the name.
#[tactic(auto, unfolding(crate::specs::Reading::ticked_at))]
fn ticked_at(alloc: Global, bytes: &[u8]) -> Result<(Bytes, &[u8]), PathFault>
    ensures name { Reads (ticked_at false bytes.now) (seen (λ x. (x.0, x.1.now)) result) }
    ensures shorter { IfOk result (λ x. length x.1.now ≤ length bytes.now) }
{
    let mut name = Bytes::new(alloc);
    let mut waits = false;
    let mut rest = bytes;
    while let [byte, behind @ ..] = rest {
        let ticks = *byte == b'`';
        if ticks && !waits {
            waits = true;
        } else if waits && !ticks {
            return Ok((name, rest));
        } else {
            name.push(*byte)?;
            waits = false;
        }
        rest = behind;
    }
    if waits {
        Ok((name, rest))
    } else {
        Err(PathFault::Einval)
    }
}

/// A name without backticks, and what is behind it.
fn bare_at(alloc: Global, bytes: &[u8]) -> Result<(Bytes, &[u8]), PathFault>
    ensures name { Reads (bare_at bytes.now) (seen (λ x. (x.0, x.1.now)) result) }
    ensures shorter { IfOk result (λ x. length x.1.now < length bytes.now) }
{
    let count = bare_length(bytes);
    if count == 0 {
        return Err(PathFault::Einval);
    }
    let (front, behind) = bytes.split_at(count);
    let name = Bytes::from_slice(alloc, front)?;
    Ok((name, behind))
}

/// A name, and what is behind it.
pub fn name_at(alloc: Global, bytes: &[u8]) -> Result<(Bytes, &[u8]), PathFault>
    ensures name { Reads (name_at bytes.now) (seen (λ x. (x.0, x.1.now)) result) }
    ensures shorter { IfOk result (λ x. length x.1.now < length bytes.now) }
{
    match bytes {
        [] => Err(PathFault::Einval),
        [byte, inner @ ..] => {
            if *byte == b'`' {
                ticked_at(alloc, inner)
            } else {
                bare_at(alloc, bytes)
            }
        }
    }
}

/// A number with one digit more behind it, where it stays below 2^32.
fn with_digit(number: u32, byte: u8) -> Option<u32>
    ensures { result ≡ with_digit number byte }
{
    if byte < b'0' || byte > b'9' {
        return None;
    }
    let longer = number as u64 * 10 + (byte - b'0') as u64;
    if longer < 0x1_0000_0000 {
        Some(longer as u32)
    } else {
        None
    }
}

/// The number that digits up to a closing bracket spell, and what is behind the bracket.
#[tactic(auto, unfolding(crate::specs::Reading::number_at))]
fn number_at(bytes: &[u8]) -> Option<(u32, &[u8])>
    ensures number { option_map (λ x. (x.0, x.1.now)) result ≡ number_at 0 bytes.now }
    ensures shorter { IfSome result (λ x. length x.1.now < length bytes.now) }
{
    let mut number = 0;
    let mut rest = bytes;
    while let [byte, behind @ ..] = rest {
        if *byte == b']' {
            return Some((number, behind));
        }
        match with_digit(number, *byte) {
            None => return None,
            Some(longer) => number = longer,
        }
        rest = behind;
    }
    None
}

/// Behind the minus of `[-1]`.
fn last_at(bytes: &[u8]) -> Option<(Part, &[u8])>
    ensures part { option_map (λ x. (x.0, x.1.now)) result ≡ last_at bytes.now }
    ensures shorter { IfSome result (λ x. length x.1.now < length bytes.now) }
{
    match bytes {
        [one, bracket, rest @ ..] => {
            if *one == b'1' && *bracket == b']' {
                Some((Part::Last, rest))
            } else {
                None
            }
        }
        _ => None,
    }
}

/// Behind a zero that begins an index: no digit follows it.
fn zero_at(bytes: &[u8]) -> Option<(Part, &[u8])>
    ensures part { option_map (λ x. (x.0, x.1.now)) result ≡ zero_at bytes.now }
    ensures shorter { IfSome result (λ x. length x.1.now < length bytes.now) }
{
    match bytes {
        [] => None,
        [bracket, rest @ ..] => {
            if *bracket == b']' {
                Some((Part::At(0), rest))
            } else {
                None
            }
        }
    }
}

/// An index behind its opening bracket, and what is behind the closing one.
pub fn index_at(bytes: &[u8]) -> Option<(Part, &[u8])>
    ensures part { option_map (λ x. (x.0, x.1.now)) result ≡ index_at bytes.now }
    ensures shorter { IfSome result (λ x. length x.1.now < length bytes.now) }
{
    match bytes {
        [] => None,
        [byte, inner @ ..] => {
            if *byte == b'-' {
                return last_at(inner);
            }
            if *byte == b'0' {
                return zero_at(inner);
            }
            if *byte == b']' {
                return None;
            }
            let (number, rest) = number_at(bytes)?;
            Some((Part::At(number), rest))
        }
    }
}
