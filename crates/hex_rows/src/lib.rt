//! Rows of bytes as tests and examples write them: hexadecimal digits of either case, with spaces between them for
//! reading, as `80 00 0001`.
#![tactic(auto)]

ghost use Rattle.std.specs.Prelude.{◌≡◌, ◌↔◌, Ok, Err, IfOk, IsOk};
ghost use Rattle.hex.specs.Hex.{decode_of};
ghost use Rattle.hex_rows.specs.Rows.{without_spaces};

use hex::FromHexError;
use kv_edge::NoMemory;
use std::alloc::Global;

/// Why a row gives no bytes.
#[derive(Clone, Copy, Debug, PartialEq, Eq)]
pub enum RowFault {
    /// It has another character, or an odd number of digits.
    NotHex,
    /// Memory was refused.
    NoMemory,
}

/// The bytes of a row, two digits each; its spaces don't count.
pub fn bytes_of(alloc: Global, row: &str) -> Result<Vec<u8>, RowFault>
    ensures bytes { IfOk result (λ bytes. decode_of (without_spaces row.now) ≡ Ok bytes.items) }
    ensures not_hex { result ≡ Err RowFault.NotHex → ¬ IsOk (decode_of (without_spaces row.now)) }
{
    let Ok(digits) = digits_of(alloc, row) else {
        return Err(RowFault::NoMemory);
    };
    match hex::decode(alloc, digits.as_slice()) {
        Ok(bytes) => Ok(bytes),
        Err(FromHexError::OutOfMemory) => Err(RowFault::NoMemory),
        Err(_) => Err(RowFault::NotHex),
    }
}

/// The row without its spaces.
fn digits_of(alloc: Global, row: &str) -> Result<Vec<u8>, NoMemory>
    ensures { IfOk result (λ digits. digits.items ≡ without_spaces row.now) }
{
    let mut digits = Vec::with_capacity(alloc, row.len())?;
    let mut left = row.as_bytes();
    while let [byte, rest @ ..] = left {
        if *byte != b' ' {
            digits.push(*byte)?;
        }
        left = rest;
    }
    Ok(digits)
}

#[cfg(test)]
mod tests;
