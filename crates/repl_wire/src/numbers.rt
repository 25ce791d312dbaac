//! The numbers of a body, which have eight bytes each.

ghost use Rattle.std.specs.Prelude.{◌≡◌, ℕ, ◌+◌, ◌≤◌, length, IfOk, IfErr};
ghost use Rattle.replica_core.specs.Terms.{is_term};
ghost use Rattle.repl_wire.specs.Grammar.{is_accepted, is_length, is_position};
ghost use Rattle.repl_wire.specs.Layout.{Layout, number, eight, NumberAt, RightAt};
ghost use Rattle.repl_wire.specs.Reading.{BodyFails};

use crate::limits::TERM_BOUND;
use kv_edge::u64_at;
use vb_log::GREATEST_POSITION;

/// Why fields of a body were not read.
#[derive(Clone, Copy, Debug)]
pub(crate) enum BodyFault {
    /// A field is wrong. From its beginning on so many bytes are left.
    Broken(usize),
    /// Memory was refused.
    NoMemory,
}

/// The number at the front, and the bytes behind it.
pub(crate) fn number_at(bytes: &[u8]) -> (u64, &[u8])
    requires { 8 ≤ length bytes.now }
    ensures found { NumberAt eight bytes.now result.0 result.1.now }
    ensures left { 8 + length result.1.now ≡ length bytes.now }
{
    match u64_at(bytes) {
        Some((found, rest)) => (found, rest),
        None => (0, bytes),
    }
}

/// Whether a number is a term.
fn is_term(number: u64) -> bool
    ensures { result ≡ is_term number }
{
    4 <= number && number < TERM_BOUND
}

/// The term at the front, and the bytes behind it.
pub(crate) fn term_at(bytes: &[u8]) -> Result<(u64, &[u8]), BodyFault>
    requires { 8 ≤ length bytes.now }
    ensures found { IfOk result (λ x. RightAt eight is_term bytes.now x.0 x.1.now) }
    ensures left { IfOk result (λ x. 8 + length x.1.now ≡ length bytes.now) }
    ensures broken { (next : ℕ → Layout)
        → IfErr result (BodyFails (number eight is_term next) bytes.now) }
{
    let (found, rest) = number_at(bytes);
    if is_term(found) {
        Ok((found, rest))
    } else {
        Err(BodyFault::Broken(bytes.len()))
    }
}

/// The accepted term at the front, and the bytes behind it.
pub(crate) fn accepted_at(bytes: &[u8]) -> Result<(u64, &[u8]), BodyFault>
    requires { 8 ≤ length bytes.now }
    ensures found { IfOk result (λ x. RightAt eight is_accepted bytes.now x.0 x.1.now) }
    ensures left { IfOk result (λ x. 8 + length x.1.now ≡ length bytes.now) }
    ensures broken { (next : ℕ → Layout)
        → IfErr result (BodyFails (number eight is_accepted next) bytes.now) }
{
    let (found, rest) = number_at(bytes);
    if found == 0 || is_term(found) {
        Ok((found, rest))
    } else {
        Err(BodyFault::Broken(bytes.len()))
    }
}

/// The length of a log at the front, and the bytes behind it.
pub(crate) fn length_at(bytes: &[u8]) -> Result<(u64, &[u8]), BodyFault>
    requires { 8 ≤ length bytes.now }
    ensures found { IfOk result (λ x. RightAt eight is_length bytes.now x.0 x.1.now) }
    ensures left { IfOk result (λ x. 8 + length x.1.now ≡ length bytes.now) }
    ensures broken { (next : ℕ → Layout)
        → IfErr result (BodyFails (number eight is_length next) bytes.now) }
{
    let (found, rest) = number_at(bytes);
    if found <= GREATEST_POSITION {
        Ok((found, rest))
    } else {
        Err(BodyFault::Broken(bytes.len()))
    }
}

/// The position at the front, and the bytes behind it.
pub(crate) fn position_at(bytes: &[u8]) -> Result<(u64, &[u8]), BodyFault>
    requires { 8 ≤ length bytes.now }
    ensures found { IfOk result (λ x. RightAt eight is_position bytes.now x.0 x.1.now) }
    ensures left { IfOk result (λ x. 8 + length x.1.now ≡ length bytes.now) }
    ensures broken { (next : ℕ → Layout)
        → IfErr result (BodyFails (number eight is_position next) bytes.now) }
{
    let (found, rest) = number_at(bytes);
    if 1 <= found && found <= GREATEST_POSITION {
        Ok((found, rest))
    } else {
        Err(BodyFault::Broken(bytes.len()))
    }
}
