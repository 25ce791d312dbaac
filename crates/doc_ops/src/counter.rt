//! Numbers that are counted up and down, and their decimal text.

ghost use Rattle.std.specs.Prelude.{◌≡◌, IfOk};
ghost use Rattle.std.specs.Option.{SomeIff};
ghost use Rattle.std.specs.Fmt.{decimal};
ghost use Rattle.doc_step.specs.Counter.{number_of, moved};
ghost use Rattle.doc_ops.specs.Digits.{with_digit, GoesOn};

use doc_step::DIGITS_LIMIT;
use kv_edge::{Bytes, NoMemory};
use std::alloc::Global;

/// The number that a text is, where it is 1 to 20 decimal digits of one below 2^64. A longer text
/// is refused unread.
pub(crate) fn number_of(text: &[u8]) -> Option<u64>
    ensures { result ≡ number_of text.now }
{
    if text.is_empty() || text.len() > DIGITS_LIMIT {
        return None;
    }
    let mut number = 0;
    for byte in text {
        number = with_digit(number, *byte)?;
    }
    Some(number)
}

/// The number whose digits are a number's and one more, where the byte is a digit and the number is
/// below 2^64.
fn with_digit(number: u64, byte: u8) -> Option<u64>
    ensures { SomeIff result (GoesOn number byte) (with_digit number byte) }
{
    if !byte.is_ascii_digit() {
        return None;
    }
    number.checked_mul(10)?.checked_add(u64::from(byte - b'0'))
}

/// A number counted by a delta: up, past 2^64 - 1 on from 0, or down to 0 at the least.
pub(crate) fn moved(up: bool, number: u64, delta: u64) -> u64
    ensures { result ≡ moved up number delta }
{
    if up {
        number.wrapping_add(delta)
    } else {
        number.saturating_sub(delta)
    }
}

/// The shortest decimal text of a number.
pub(crate) fn decimal(alloc: Global, number: u64) -> Result<Bytes, NoMemory>
    ensures { IfOk result (λ text. text ≡ decimal number) }
{
    let text = format!(in alloc; "{number}")?;
    Ok(Bytes::from_vec(text.into_bytes()))
}
