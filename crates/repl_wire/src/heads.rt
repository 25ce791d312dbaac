//! The head of a message, read field by field.

ghost use Rattle.std.specs.Prelude.{◌≡◌, ℕ, ◌<◌, length, IfOk, IfErr, MatchOption};
ghost use Rattle.repl_wire.specs.Grammar.{is_place, is_other, is_any, least_size, most_size};
ghost use Rattle.repl_wire.specs.Grammar.{head_bytes, head_layout};
ghost use Rattle.repl_wire.specs.Judging.{HeadAt};
ghost use Rattle.repl_wire.specs.Layout.{Layout, number, one, two, four, within, NumberAt, RightAt};
ghost use Rattle.repl_wire.specs.Reading.{HeadFails};

use crate::limits::{BODY_LIMIT, GREATEST_PLACE, HEAD_LENGTH, MARK};
use kv_edge::{u8_at, u16_at, u32_at};
use replica_core::{ACK, ADOPT, ENTRY, REJOIN};

/// What a head says.
#[derive(Clone, Copy, Debug)]
pub(crate) struct Head {
    pub(crate) kind: u8,
    pub(crate) from: u8,
    pub(crate) to: u8,
    pub(crate) vbucket: u16,
    /// How many bytes the body has.
    pub(crate) size: u32,
}

/// Why fields of a head were not read.
#[derive(Clone, Copy, Debug)]
pub(crate) enum HeadFault {
    /// The bytes end within them.
    Ended,
    /// A field is wrong. From its beginning on so many bytes are left.
    Broken(usize),
}

/// The byte at the front, which has to be within bounds, and the bytes behind it.
fn byte_within(bytes: &[u8], least: u8, most: u8) -> Result<(u8, &[u8]), HeadFault>
    ensures found { IfOk result (λ x. RightAt one (within least most) bytes.now x.0 x.1.now) }
    ensures broken { (next : ℕ → Layout)
        → IfErr result (HeadFails (number one (within least most) next) bytes.now) }
{
    match u8_at(bytes) {
        Some((found, rest)) => {
            if least <= found && found <= most {
                Ok((found, rest))
            } else {
                Err(HeadFault::Broken(bytes.len()))
            }
        }
        None => Err(HeadFault::Ended),
    }
}

/// The place of the sender, and the bytes behind it.
fn sender_at(bytes: &[u8]) -> Result<(u8, &[u8]), HeadFault>
    ensures found { IfOk result (λ x. RightAt one is_place bytes.now x.0 x.1.now) }
    ensures broken { (next : ℕ → Layout)
        → IfErr result (HeadFails (number one is_place next) bytes.now) }
{
    match u8_at(bytes) {
        Some((found, rest)) => {
            if found <= GREATEST_PLACE {
                Ok((found, rest))
            } else {
                Err(HeadFault::Broken(bytes.len()))
            }
        }
        None => Err(HeadFault::Ended),
    }
}

/// The place of the addressee, which isn't the sender's, and the bytes behind it.
fn addressee_at(bytes: &[u8], from: u8) -> Result<(u8, &[u8]), HeadFault>
    ensures found { IfOk result (λ x. RightAt one (is_other from) bytes.now x.0 x.1.now) }
    ensures broken { (next : ℕ → Layout)
        → IfErr result (HeadFails (number one (is_other from) next) bytes.now) }
{
    match u8_at(bytes) {
        Some((found, rest)) => {
            if found <= GREATEST_PLACE && from != found {
                Ok((found, rest))
            } else {
                Err(HeadFault::Broken(bytes.len()))
            }
        }
        None => Err(HeadFault::Ended),
    }
}

/// The number of two bytes at the front and the bytes behind it, or nothing where there are fewer.
fn two_at(bytes: &[u8]) -> Option<(u16, &[u8])>
    ensures { MatchOption result (length bytes.now < 2) (λ x. NumberAt two bytes.now x.0 x.1.now) }
{
    match u16_at(bytes) {
        Some((found, rest)) => Some((found, rest)),
        None => None,
    }
}

/// The number of four bytes at the front and the bytes behind it, or nothing where there are fewer.
fn four_at(bytes: &[u8]) -> Option<(u32, &[u8])>
    ensures { MatchOption result (length bytes.now < 4) (λ x. NumberAt four bytes.now x.0 x.1.now) }
{
    match u32_at(bytes) {
        Some((found, rest)) => Some((found, rest)),
        None => None,
    }
}

/// The number of the vbucket, and the bytes behind it.
fn vbucket_at(bytes: &[u8]) -> Result<(u16, &[u8]), HeadFault>
    ensures found { IfOk result (λ x. RightAt two is_any bytes.now x.0 x.1.now) }
    ensures broken { (next : ℕ → Layout)
        → IfErr result (HeadFails (number two is_any next) bytes.now) }
{
    match two_at(bytes) {
        Some((found, rest)) => Ok((found, rest)),
        None => Err(HeadFault::Ended),
    }
}

/// The bytes behind the two that are 0.
fn behind_unused(bytes: &[u8]) -> Result<&[u8], HeadFault>
    ensures found { IfOk result (λ rest. RightAt two (within 0 0) bytes.now 0 rest.now) }
    ensures broken { (next : ℕ → Layout)
        → IfErr result (HeadFails (number two (within 0 0) next) bytes.now) }
{
    match two_at(bytes) {
        Some((found, rest)) => {
            if found == 0 {
                Ok(rest)
            } else {
                Err(HeadFault::Broken(bytes.len()))
            }
        }
        None => Err(HeadFault::Ended),
    }
}

/// The size of a body, which has to be within bounds, and the bytes behind it.
fn size_within(bytes: &[u8], least: u32, most: u32) -> Result<(u32, &[u8]), HeadFault>
    ensures found { IfOk result (λ x. RightAt four (within least most) bytes.now x.0 x.1.now) }
    ensures broken { (next : ℕ → Layout)
        → IfErr result (HeadFails (number four (within least most) next) bytes.now) }
{
    match four_at(bytes) {
        Some((found, rest)) => {
            if least <= found && found <= most {
                Ok((found, rest))
            } else {
                Err(HeadFault::Broken(bytes.len()))
            }
        }
        None => Err(HeadFault::Ended),
    }
}

/// How many bytes the body of a kind has at least.
fn least_size(kind: u8) -> u32
    ensures { result ≡ least_size kind }
{
    match kind {
        ACK => 24,
        REJOIN => 32,
        _ => 16,
    }
}

/// How many bytes the body of a kind has at most.
fn most_size(kind: u8) -> u32
    ensures { result ≡ most_size kind }
{
    match kind {
        ACK => 24,
        REJOIN => 32,
        _ => BODY_LIMIT,
    }
}

/// Reads the head at the front, and the bytes behind it. The first field that is wrong is told as
/// soon as its bytes are there.
pub(crate) fn head_at(bytes: &[u8]) -> Result<(Head, &[u8]), HeadFault>
    ensures found { IfOk result (λ x. HeadAt bytes.now x.0 x.1.now) }
    ensures broken { IfErr result (HeadFails head_layout bytes.now) }
{
    let (_, behind_mark) = byte_within(bytes, MARK, MARK)?;
    let (kind, behind_kind) = byte_within(behind_mark, ENTRY, ADOPT)?;
    let (from, behind_from) = sender_at(behind_kind)?;
    let (to, behind_to) = addressee_at(behind_from, from)?;
    let (vbucket, behind_vbucket) = vbucket_at(behind_to)?;
    let last = behind_unused(behind_vbucket)?;
    let (size, rest) = size_within(last, least_size(kind), most_size(kind))?;
    let head = Head {
        kind,
        from,
        to,
        vbucket,
        size,
    };
    Ok((head, rest))
}

/// The bytes of a head.
pub(crate) fn head_bytes(head: Head) -> [u8; HEAD_LENGTH]
    ensures { result ≡ head_bytes head.kind head.from head.to head.vbucket head.size }
{
    let vbucket = head.vbucket.to_be_bytes();
    let size = head.size.to_be_bytes();
    [
        MARK, head.kind, head.from, head.to, vbucket[0], vbucket[1], 0, 0, size[0], size[1],
        size[2], size[3],
    ]
}
