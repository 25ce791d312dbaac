ghost use Rattle.std.specs.Prelude.{◌≡◌, [], ◌∷◌, ◌++◌, ◌<◌, ◌^◌, ◌≤◌, ◌+◌, OnOk, OnErr, length, take};
ghost use Rattle.std.specs.List.{AllByRecursion};
ghost use Rattle.kv_frame.specs.Grammar.{magic_byte, nibble, further, front_lengths, header_of, header_front, header_back, extra, section, ExtraFits, body, spelling, Fits};
ghost use Rattle.kv_frame.specs.Reading.{HeaderFits};

use crate::frame::{
    FLEX_REPLY, FLEX_REQUEST, Frame, FrameExtra, HEADER_LENGTH, Magic, REPLY, REQUEST,
};
use crate::header::Header;
use kv_edge::NoMemory;

/// The first byte of a frame with this magic.
fn magic_byte(magic: Magic) -> u8
    ensures { result ≡ magic_byte magic }
{
    match magic {
        Magic::Request => REQUEST,
        Magic::FlexRequest => FLEX_REQUEST,
        Magic::Reply => REPLY,
        Magic::FlexReply => FLEX_REPLY,
    }
}

/// The bytes at offsets 2 and 3: the lengths of framing section and key.
fn front_lengths(header: &Header) -> (u8, u8)
    requires { HeaderFits header.now }
    ensures { result.0 ∷ result.1 ∷ [] ≡ front_lengths header.now.magic header.now.framing header.now.key }
{
    match header.magic {
        Magic::Request | Magic::Reply => {
            let key = (header.key as u16).to_be_bytes();
            (key[0], key[1])
        }
        Magic::FlexRequest | Magic::FlexReply => (header.framing as u8, header.key as u8),
    }
}

/// The bytes of a header.
#[tactic(auto, unfolding(crate::specs::Grammar::header_front, crate::specs::Grammar::header_back))]
pub fn header_bytes(header: &Header) -> [u8; HEADER_LENGTH]
    requires { HeaderFits header.now }
    ensures { result ≡ header_front header.now ++ header_back header.now }
{
    let (second, third) = front_lengths(header);
    let word = header.word.to_be_bytes();
    let body = (header.body as u32).to_be_bytes();
    let opaque = header.opaque.to_be_bytes();
    let cas = header.cas.to_be_bytes();
    [
        magic_byte(header.magic),
        header.opcode,
        second,
        third,
        header.extras as u8,
        header.datatype,
        word[0],
        word[1],
        body[0],
        body[1],
        body[2],
        body[3],
        opaque[0],
        opaque[1],
        opaque[2],
        opaque[3],
        cas[0],
        cas[1],
        cas[2],
        cas[3],
        cas[4],
        cas[5],
        cas[6],
        cas[7],
    ]
}

/// What the nibble of a number shows.
fn nibble(number: u16) -> u8
    ensures { result ≡ nibble number }
{
    if number < 15 { number as u8 } else { 15 }
}

/// Appends the further byte of a number whose nibble shows 15. At `Err` nothing is appended.
fn put_further(number: u16, out: &mut Vec<u8>) -> Result<(), NoMemory>
    requires { number < 15 + 2 ^ 8 }
    ensures ok { OnOk result (out.new.items ≡ out.old.items ++ further number) }
    ensures err { OnErr result (out.new.items ≡ out.old.items) }
{
    if number >= 15 {
        out.push((number - 15) as u8)?;
    }
    Ok(())
}

/// Appends a framing extra. At `Err` what was there stands at the front.
#[tactic(auto, unfolding(crate::specs::Grammar::extra), using(std::proofs::lemmas::List::append_assoc))]
fn put_extra(frame_extra: &FrameExtra, out: &mut Vec<u8>) -> Result<(), NoMemory>
    requires { ExtraFits frame_extra.now }
    ensures ok { OnOk result (out.new.items ≡ out.old.items ++ extra frame_extra.now) }
    ensures err { OnErr result (take (length out.old.items) out.new.items ≡ out.old.items) }
{
    let length = frame_extra.body.len() as u16;
    out.push(16 * nibble(frame_extra.id) + nibble(length))?;
    put_further(frame_extra.id, out)?;
    put_further(length, out)?;
    out.extend_from_slice(frame_extra.body.as_slice())?;
    Ok(())
}

/// Appends framing extras. At `Err` what was there stands at the front.
#[tactic(auto, using(crate::proofs::Kept::kept_behind))]
fn put_section(extras: &[FrameExtra], out: &mut Vec<u8>) -> Result<(), NoMemory>
    requires { AllByRecursion ExtraFits extras.now }
    ensures ok { OnOk result (out.new.items ≡ out.old.items ++ section extras.now) }
    ensures err { OnErr result (take (length out.old.items) out.new.items ≡ out.old.items) }
{
    for frame_extra in extras {
        put_extra(frame_extra, out)?;
    }
    Ok(())
}

/// How many bytes a number takes behind the first byte of its framing extra.
fn further_length(number: u16) -> usize
    ensures { result ≡ length (further number) }
{
    if number < 15 { 0 } else { 1 }
}

/// How many bytes a framing extra that fits has.
#[tactic(auto, unfolding(crate::specs::Grammar::extra))]
pub fn extra_length(frame_extra: &FrameExtra) -> usize
    requires { ExtraFits frame_extra.now }
    ensures { result ≡ length (extra frame_extra.now) }
{
    let length = frame_extra.body.len();
    1 + further_length(frame_extra.id) + further_length(length as u16) + length
}

/// How many bytes framing extras have together.
fn section_length(extras: &[FrameExtra]) -> usize
    requires fit { AllByRecursion ExtraFits extras.now }
    requires short { length (section extras.now) < 2 ^ 8 }
    ensures { result ≡ length (section extras.now) }
{
    let mut total = 0;
    for frame_extra in extras {
        total += extra_length(frame_extra);
    }
    total
}

/// The header of a frame.
fn header_of(frame: &Frame) -> Header
    requires { Fits frame.now }
    ensures { result ≡ header_of frame.now }
{
    let framing = section_length(frame.framing.as_slice());
    let extras = frame.extras.len();
    let key = frame.key.len();
    Header {
        magic: frame.magic,
        opcode: frame.opcode,
        datatype: frame.datatype,
        word: frame.word,
        opaque: frame.opaque,
        cas: frame.cas,
        framing,
        extras,
        key,
        body: framing + (extras + (key + frame.value.len())),
    }
}

/// Appends what stands behind the header. At `Err` what was there stands at the front.
#[tactic(auto, unfolding(crate::specs::Grammar::body), using(std::proofs::lemmas::List::append_assoc, crate::proofs::Kept::kept_behind))]
fn put_body(frame: &Frame, out: &mut Vec<u8>) -> Result<(), NoMemory>
    requires { AllByRecursion ExtraFits frame.now.framing }
    ensures ok { OnOk result (out.new.items ≡ out.old.items ++ body frame.now) }
    ensures err { OnErr result (take (length out.old.items) out.new.items ≡ out.old.items) }
{
    put_section(frame.framing.as_slice(), out)?;
    out.extend_from_slice(frame.extras.as_slice())?;
    out.extend_from_slice(frame.key.as_slice())?;
    out.extend_from_slice(frame.value.as_slice())?;
    Ok(())
}

/// Appends the spelling of the frame. At `Err` what was there stands at the front.
#[tactic(auto, unfolding(crate::specs::Grammar::spelling), using(std::proofs::lemmas::List::append_assoc, crate::proofs::Kept::kept_behind))]
fn put_frame(frame: &Frame, out: &mut Vec<u8>) -> Result<(), NoMemory>
    requires { Fits frame.now }
    ensures ok { OnOk result (out.new.items ≡ out.old.items ++ spelling frame.now) }
    ensures err { OnErr result (take (length out.old.items) out.new.items ≡ out.old.items) }
{
    let header = header_of(frame);
    out.reserve(HEADER_LENGTH + header.body)?;
    out.extend_from_slice(&header_bytes(&header))?;
    put_body(frame, out)
}

/// Appends the one spelling of the frame, which `fits` says that it has. `NoMemory` comes where memory for it is
/// refused, and then nothing is appended.
pub fn encode_into(frame: &Frame, out: &mut Vec<u8>) -> Result<(), NoMemory>
    requires { Fits frame.now }
    ensures ok { OnOk result (out.new.items ≡ out.old.items ++ spelling frame.now) }
    ensures err { OnErr result (out.new.items ≡ out.old.items) }
{
    let before = out.len();
    match put_frame(frame, out) {
        Ok(()) => Ok(()),
        Err(refused) => {
            // What was put before memory was refused is no frame: take it back.
            out.truncate(before);
            Err(refused)
        }
    }
}
