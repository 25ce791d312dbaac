//! Numbers at the front of what a record holds.

ghost use Rattle.std.specs.Prelude.{◌≡◌, ℕ, [], length, Option, IfOk, IfErr, OnOk};
ghost use Rattle.std.specs.Int.{w8, w32, w64};
ghost use Rattle.magma_store.specs.declared.fields.FormFault.TheVariants as faults;
ghost use Rattle.magma_store.specs.Forms.{Form, end, field, run, between, exactly, accepted_within, FieldAt, IsBroken};
ghost use Rattle.magma_store.specs.Fronts.{KeptAt, RunAt};

use kv_edge::NoMemory;

/// Why a record wasn't read.
#[derive(Clone, Copy, Debug, PartialEq, Eq)]
pub(crate) enum FormFault {
    /// So many bytes are left where they break the form: what is found there, and what is expected.
    Broken {
        left: u64,
        found: u64,
        expected: u64,
    },
    /// Memory was refused.
    NoMemory,
}

impl From<NoMemory> for FormFault {
    ghost from_gives = { λ _ fault. fault ≡ faults.NoMemory };

    fn from(_refused: NoMemory) -> FormFault {
        FormFault::NoMemory
    }
}

/// The byte at the front, and the bytes behind it.
pub(crate) fn byte_at(bytes: &[u8]) -> Result<(u8, &[u8]), FormFault>
    ensures found { IfOk result (λ x. FieldAt w8 bytes.now x.0 x.1.now) }
    ensures broken { (broken : ℕ → Option ℕ) (next : ℕ → Form)
        → IfErr result (IsBroken (field w8 broken next) bytes.now) }
{
    match kv_edge::u8_at(bytes) {
        Some((number, rest)) => Ok((number, rest)),
        None => Err(short(bytes, 1)),
    }
}

/// The number of four bytes at the front, and the bytes behind it.
pub(crate) fn u32_at(bytes: &[u8]) -> Result<(u32, &[u8]), FormFault>
    ensures found { IfOk result (λ x. FieldAt w32 bytes.now x.0 x.1.now) }
    ensures broken { (broken : ℕ → Option ℕ) (next : ℕ → Form)
        → IfErr result (IsBroken (field w32 broken next) bytes.now) }
{
    match kv_edge::u32_at(bytes) {
        Some((number, rest)) => Ok((number, rest)),
        None => Err(short(bytes, 4)),
    }
}

/// The number of eight bytes at the front, and the bytes behind it.
pub(crate) fn u64_at(bytes: &[u8]) -> Result<(u64, &[u8]), FormFault>
    ensures found { IfOk result (λ x. FieldAt w64 bytes.now x.0 x.1.now) }
    ensures broken { (broken : ℕ → Option ℕ) (next : ℕ → Form)
        → IfErr result (IsBroken (field w64 broken next) bytes.now) }
{
    match kv_edge::u64_at(bytes) {
        Some((number, rest)) => Ok((number, rest)),
        None => Err(short(bytes, 8)),
    }
}

/// A fault where too few bytes are left for a field of so many.
fn short(bytes: &[u8], expected: u64) -> FormFault
    ensures { result ≡ faults.Broken (length bytes.now) (length bytes.now) expected }
{
    refused(bytes, bytes.len() as u64, expected)
}

/// A fault where bytes don't begin as they have to: what is found there, and what is expected.
pub(crate) fn refused(bytes: &[u8], found: u64, expected: u64) -> FormFault
    ensures { result ≡ faults.Broken (length bytes.now) found expected }
{
    FormFault::Broken {
        left: bytes.len() as u64,
        found,
        expected,
    }
}

/// The byte at the front, which has to be within bounds, and the bytes behind it.
pub(crate) fn byte_between(bytes: &[u8], least: u8, most: u8) -> Result<(u8, &[u8]), FormFault>
    ensures found { IfOk result (λ x. KeptAt w8 (between least most) bytes.now x.0 x.1.now) }
    ensures broken { (next : ℕ → Form) → IfErr result (IsBroken (field w8 (between least most) next) bytes.now) }
{
    let (number, rest) = byte_at(bytes)?;
    if number < least {
        Err(refused(bytes, u64::from(number), u64::from(least)))
    } else if number > most {
        Err(refused(bytes, u64::from(number), u64::from(most)))
    } else {
        Ok((number, rest))
    }
}

/// The bytes behind a number of four bytes, which has to be this one.
pub(crate) fn behind_exactly(bytes: &[u8], expected: u32) -> Result<&[u8], FormFault>
    ensures found { IfOk result (λ rest. KeptAt w32 (exactly expected) bytes.now expected rest.now) }
    ensures broken { (next : ℕ → Form) → IfErr result (IsBroken (field w32 (exactly expected) next) bytes.now) }
{
    let (number, rest) = u32_at(bytes)?;
    if number == expected {
        Ok(rest)
    } else {
        Err(refused(bytes, u64::from(number), u64::from(expected)))
    }
}

/// The accepted term at the front, beside the promise that was made, and the bytes behind it. It is none, or at least 4
/// and not above the promise.
pub(crate) fn accepted_at(bytes: &[u8], promise: u64) -> Result<(u64, &[u8]), FormFault>
    ensures found { IfOk result (λ x. KeptAt w64 (accepted_within promise) bytes.now x.0 x.1.now) }
    ensures broken { (next : ℕ → Form) → IfErr result (IsBroken (field w64 (accepted_within promise) next) bytes.now) }
{
    let (number, rest) = u64_at(bytes)?;
    if number == 0 {
        Ok((number, rest))
    } else if number < 4 {
        Err(refused(bytes, number, 4))
    } else if number > promise {
        Err(refused(bytes, number, promise))
    } else {
        Ok((number, rest))
    }
}

/// So many bytes at the front, and the bytes behind them.
pub(crate) fn run_of(bytes: &[u8], size: usize) -> Result<(&[u8], &[u8]), FormFault>
    ensures found { IfOk result (λ x. RunAt size bytes.now x.0.now x.1.now) }
    ensures broken { (next : Form) → IfErr result (IsBroken (run size next) bytes.now) }
{
    match kv_edge::slice_at(bytes, size) {
        Some((piece, rest)) => Ok((piece, rest)),
        None => Err(short(bytes, size as u64)),
    }
}

/// Goes on where no bytes are left.
pub(crate) fn ended(bytes: &[u8]) -> Result<(), FormFault>
    ensures ok { OnOk result (bytes.now ≡ []) }
    ensures broken { IfErr result (IsBroken end bytes.now) }
{
    if bytes.is_empty() {
        Ok(())
    } else {
        Err(short(bytes, 0))
    }
}
