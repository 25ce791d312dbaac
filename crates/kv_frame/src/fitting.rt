ghost use Rattle.std.specs.Prelude.{◌≡◌, ◌<◌, ◌^◌, ◌↔◌, length, IsTrue, MatchOption};
ghost use Rattle.std.specs.List.{AllByRecursion};
ghost use Rattle.kv_frame.specs.Grammar.{section, ExtraFits, FramingFits, key_bound, Fits};

use crate::encoding::extra_length;
use crate::frame::{BODY_LIMIT, Frame, FrameExtra, Magic};

/// The greatest id and the greatest length of a framing extra.
const EXTRA_LIMIT: usize = 270;

/// What a length has to be below to stand in one byte, and in two.
const BYTE_BOUND: usize = 256;

const TWO_BYTES_BOUND: usize = 65_536;

/// Whether a framing extra has a spelling.
fn extra_fits(frame_extra: &FrameExtra) -> bool
    ensures { IsTrue result ↔ ExtraFits frame_extra.now }
{
    frame_extra.id as usize <= EXTRA_LIMIT && frame_extra.body.len() <= EXTRA_LIMIT
}

/// How many bytes framing extras have together, or nothing where they don't fit a section.
fn section_room(extras: &[FrameExtra]) -> Option<usize>
    ensures { MatchOption result (AllByRecursion ExtraFits extras.now × (length (section extras.now) < 2 ^ 8) → ⊥) (λ n. AllByRecursion ExtraFits extras.now × (n ≡ length (section extras.now)) × (n < 2 ^ 8)) }
{
    let mut total = 0;
    for frame_extra in extras {
        if !extra_fits(frame_extra) {
            return None;
        }
        total += extra_length(frame_extra);
        if total >= BYTE_BOUND {
            return None;
        }
    }
    Some(total)
}

/// How many bytes a frame's framing section has, or nothing where its magic doesn't allow it.
fn framing_room(magic: Magic, extras: &[FrameExtra]) -> Option<usize>
    ensures { MatchOption result (FramingFits magic extras.now → ⊥) (λ n. FramingFits magic extras.now × (n ≡ length (section extras.now)) × (n < 2 ^ 8)) }
{
    match magic {
        Magic::FlexRequest | Magic::FlexReply => section_room(extras),
        Magic::Request | Magic::Reply => { if extras.is_empty() { Some(0) } else { None } }
    }
}

/// Keys are shorter than this.
fn key_bound(magic: Magic) -> usize
    ensures { result ≡ key_bound magic }
{
    match magic {
        Magic::Request | Magic::Reply => TWO_BYTES_BOUND,
        Magic::FlexRequest | Magic::FlexReply => BYTE_BOUND,
    }
}

/// Whether the frame has a spelling: its framing extras, lengths and sum of lengths are in their bounds.
pub fn fits(frame: &Frame) -> bool
    ensures { IsTrue result ↔ Fits frame.now }
{
    // The proof knows the range of a number once it is read.
    let _opcode = frame.opcode;
    let _datatype = frame.datatype;
    let _word = frame.word;
    let _opaque = frame.opaque;
    let _cas = frame.cas;
    let framing = match framing_room(frame.magic, frame.framing.as_slice()) {
        Some(framing) => framing,
        None => return false,
    };
    let extras = frame.extras.len();
    let key = frame.key.len();
    if extras >= BYTE_BOUND || key >= key_bound(frame.magic) {
        return false;
    }
    frame.value.len() <= BODY_LIMIT - framing - extras - key
}
