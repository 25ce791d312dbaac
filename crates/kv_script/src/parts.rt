//! The words behind the first one of a line, and what they say.

ghost use Rattle.kv_script.specs.Lines.{IsOneNumber, IsOneCopy, IsCopyAndNumber, IsFed};
ghost use Rattle.kv_script.specs.Reading.{Reads, IsDigits, texts};

use crate::line::LineFault;
use crate::words::{connection_at, name_at, number_at, number_from};
use hex::FromHexError;
use kv_edge::Bytes;
use std::alloc::Global;

/// A number.
pub(crate) fn one_number(parts: &[&[u8]]) -> Result<u64, LineFault>
    ensures { Reads (λ n. IsOneNumber n (texts parts.now)) result }
{
    match parts {
        [number] => number_at(number),
        _ => Err(LineFault::Bad),
    }
}

/// A copy's name.
pub(crate) fn one_copy(alloc: Global, parts: &[&[u8]]) -> Result<Bytes, LineFault>
    ensures { Reads (λ copy. IsOneCopy copy (texts parts.now)) result }
{
    match parts {
        [copy] => name_at(alloc, copy),
        _ => Err(LineFault::Bad),
    }
}

/// A copy's name, and a number from the least one on.
pub(crate) fn copy_and_number(
    alloc: Global,
    parts: &[&[u8]],
    least: u64,
) -> Result<(Bytes, u64), LineFault>
    ensures { Reads (λ read. IsCopyAndNumber least read.0 read.1 (texts parts.now)) result }
{
    let [copy, number] = parts else {
        return Err(LineFault::Bad);
    };
    let copy = name_at(alloc, copy)?;
    let number = number_from(number, least)?;
    Ok((copy, number))
}

/// The bytes of a word of hexadecimal digits, of which there are some.
fn bytes_at(alloc: Global, digits: &[u8]) -> Result<Bytes, LineFault>
    ensures { Reads (IsDigits digits.now) result }
{
    let bytes = match hex::decode(alloc, digits) {
        Ok(bytes) => bytes,
        Err(FromHexError::OutOfMemory) => return Err(LineFault::NoMemory),
        Err(_) => return Err(LineFault::Bad),
    };
    if bytes.is_empty() {
        return Err(LineFault::Bad);
    }
    Ok(Bytes::from_vec(bytes))
}

/// A copy's name, a connection of it, and the bytes that come in there.
pub(crate) fn fed(alloc: Global, parts: &[&[u8]]) -> Result<(Bytes, u8, Bytes), LineFault>
    ensures { Reads (λ read. IsFed read.0 read.1 read.2 (texts parts.now)) result }
{
    let [copy, connection, digits] = parts else {
        return Err(LineFault::Bad);
    };
    let copy = name_at(alloc, copy)?;
    let connection = connection_at(connection)?;
    let bytes = bytes_at(alloc, digits)?;
    Ok((copy, connection, bytes))
}
