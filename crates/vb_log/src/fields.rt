ghost use Rattle.std.specs.Prelude.{◌≡◌, ◌≤◌, ℕ, IfOk, IfErr};
ghost use Rattle.vb_log.specs.declared.fields.FieldFault.TheVariants as faults;
ghost use Rattle.vb_log.specs.Layout.{Layout, byte, number, run, four, eight, Form, as_value};
ghost use Rattle.vb_log.specs.Layout.{ByteAt, NumberAt, RunAt};
ghost use Rattle.vb_log.specs.Spelling.{sized_layout};
ghost use Rattle.vb_log.specs.Faults.{IsBroken};
ghost use Rattle.vb_log.specs.Reading.{SizedAt};

use kv_edge::{NoMemory, slice_at, u8_at, u32_at, u64_at};

/// Why fields were not read.
#[derive(Clone, Copy, Debug, PartialEq, Eq)]
pub(crate) enum FieldFault {
    /// A field isn't there, or isn't as it has to be. From its beginning on so many bytes are left.
    Broken(usize),
    /// Memory was refused.
    NoMemory,
}

impl From<NoMemory> for FieldFault {
    ghost from_gives = { λ _ fault. fault ≡ faults.NoMemory };

    fn from(_refused: NoMemory) -> FieldFault {
        FieldFault::NoMemory
    }
}

/// The byte at the front, which has to be within bounds, and the bytes behind it.
pub(crate) fn byte_within(bytes: &[u8], least: u8, most: u8) -> Result<(u8, &[u8]), FieldFault>
    ensures found { IfOk result (λ x. ByteAt least most bytes.now x.0 x.1.now) }
    ensures broken { (next : ℕ → Layout) → IfErr result (IsBroken (byte least most next) bytes.now) }
{
    match u8_at(bytes) {
        Some((number, rest)) => {
            if least <= number && number <= most {
                Ok((number, rest))
            } else {
                Err(FieldFault::Broken(bytes.len()))
            }
        }
        None => Err(FieldFault::Broken(bytes.len())),
    }
}

/// The number of four bytes at the front, which has to be within a bound, and the bytes behind it.
pub(crate) fn u32_within(bytes: &[u8], most: u32) -> Result<(u32, &[u8]), FieldFault>
    ensures found { IfOk result (λ x. NumberAt four 0 most bytes.now x.0 x.1.now) }
    ensures broken { (next : ℕ → Layout) → IfErr result (IsBroken (number four 0 most next) bytes.now) }
{
    match u32_at(bytes) {
        Some((number, rest)) => {
            if number <= most {
                Ok((number, rest))
            } else {
                Err(FieldFault::Broken(bytes.len()))
            }
        }
        None => Err(FieldFault::Broken(bytes.len())),
    }
}

/// The number of eight bytes at the front, which has to be within bounds, and the bytes behind it.
pub(crate) fn u64_within(bytes: &[u8], least: u64, most: u64) -> Result<(u64, &[u8]), FieldFault>
    ensures found { IfOk result (λ x. NumberAt eight least most bytes.now x.0 x.1.now) }
    ensures broken { (next : ℕ → Layout)
        → IfErr result (IsBroken (number eight least most next) bytes.now) }
{
    match u64_at(bytes) {
        Some((number, rest)) => {
            if least <= number && number <= most {
                Ok((number, rest))
            } else {
                Err(FieldFault::Broken(bytes.len()))
            }
        }
        None => Err(FieldFault::Broken(bytes.len())),
    }
}

/// So many bytes at the front, and the bytes behind them.
pub(crate) fn run_of(bytes: &[u8], size: usize) -> Result<(&[u8], &[u8]), FieldFault>
    ensures found { IfOk result (λ x. RunAt size as_value bytes.now x.0.now x.1.now) }
    ensures broken { (form : Form) (next : Layout)
        → IfErr result (IsBroken (run size form next) bytes.now) }
{
    match slice_at(bytes, size) {
        Some((piece, rest)) => Ok((piece, rest)),
        None => Err(FieldFault::Broken(bytes.len())),
    }
}

/// The bytes at the front behind their length, which has to be within a bound, and those behind
/// them.
pub(crate) fn sized_at(bytes: &[u8], most: u32) -> Result<(&[u8], &[u8]), FieldFault>
    ensures found { IfOk result (λ x. SizedAt most bytes.now x.0.now x.1.now) }
    ensures broken { (form : Form) (next : Layout)
        → IfErr result (IsBroken (sized_layout most form next) bytes.now) }
{
    let (size, rest) = u32_within(bytes, most)?;
    let (piece, behind) = run_of(rest, size as usize)?;
    Ok((piece, behind))
}
