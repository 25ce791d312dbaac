ghost use Rattle.std.specs.Prelude.{◌≡◌, IfOk, option_map};
ghost use Rattle.kv_frame.specs.Reading.{number_from, extra_at, ReadsSection};

use crate::frame::FrameExtra;
use kv_edge::{Bytes, NoMemory, Seq, slice_at, u8_at};
use std::alloc::Global;

/// What is read of a framing section.
#[derive(Debug, Drop)]
pub enum Framing {
    /// Its framing extras.
    All(Seq<FrameExtra>),
    /// The offset of the framing extra that passes the section.
    Wrong(usize),
}

/// The number that a nibble shows: the nibble itself, and where it is 15 what the next byte has above it.
fn read_number(nibble: u8, bytes: &[u8]) -> Option<(u16, &[u8])>
    ensures { option_map (λ x. (x.0, x.1.now)) result ≡ number_from nibble bytes.now }
{
    if nibble < 15 {
        return Some((u16::from(nibble), bytes));
    }
    let (further, rest) = u8_at(bytes)?;
    Some((15 + u16::from(further), rest))
}

/// The id and the bytes of the framing extra at the front, and what stands after it; nothing where it isn't whole.
#[tactic(auto, unfolding(crate::specs::Reading::extra_at))]
pub fn read_extra(bytes: &[u8]) -> Option<(u16, &[u8], &[u8])>
    ensures { option_map (λ x. (record { id = x.0; body = x.1.now }, x.2.now)) result ≡ extra_at bytes.now }
{
    let (head, rest) = u8_at(bytes)?;
    let (id, rest) = read_number(head / 16, rest)?;
    let (length, rest) = read_number(head % 16, rest)?;
    let (body, rest) = slice_at(rest, usize::from(length))?;
    Some((id, body, rest))
}

/// The framing extras of a whole framing section.
pub fn read_framing(alloc: Global, bytes: &[u8]) -> Result<Framing, NoMemory>
    ensures { IfOk result (λ read. ReadsSection bytes.now read) }
{
    let mut extras = Seq::new(alloc);
    let mut rest = bytes;
    while !rest.is_empty() {
        match read_extra(rest) {
            Some((id, body, after)) => {
                let body = Bytes::from_slice(alloc, body)?;
                extras.push(FrameExtra { id, body })?;
                rest = after;
            }
            None => return Ok(Framing::Wrong(bytes.len() - rest.len())),
        }
    }
    Ok(Framing::All(extras))
}
