//! Reading a frame where it lies.

ghost use Rattle.std.specs.Prelude.{◌≡◌, ◌+◌, ◌≤◌, length, IfOk};
ghost use Rattle.kv_frame.specs.Viewing.{Views, Finds, ReadsBody};

use crate::frame::{FrameView, HEADER_LENGTH, Side};
use crate::framing::{Framing, read_framing};
use crate::header::{Header, HeaderRead, read_header};
use crate::judging::Fault;
use kv_edge::NoMemory;
use std::alloc::Global;

/// What bytes begin with, where it lies.
#[derive(Debug, Drop)]
pub enum ViewStep<'a> {
    /// This frame, and how many bytes it has.
    Whole(FrameView<'a>, usize),
    /// This many bytes are missing, of the header or else of the body.
    More(usize),
    /// No frame begins so: where in the frame, and why.
    Bad(usize, Fault),
}

/// What is read of the bytes behind a header.
#[derive(Debug, Drop)]
pub enum BodyRead<'a> {
    /// The frame of both.
    Whole(FrameView<'a>),
    /// The offset in the body of a framing extra that passes its section.
    Wrong(usize),
}

/// Reads the frame of a header and of the bytes behind it, all of them.
fn read_body<'a>(alloc: Global, header: &Header, body: &'a [u8]) -> Result<BodyRead<'a>, NoMemory>
    requires sum { header.now.framing + (header.now.extras + header.now.key) ≤ header.now.body }
    requires whole { length body.now ≡ header.now.body }
    ensures { IfOk result (λ read. ReadsBody header.now body.now read) }
{
    let (section, rest) = body.split_at(header.framing);
    let framing = match read_framing(alloc, section)? {
        Framing::All(extras) => extras,
        Framing::Wrong(offset) => return Ok(BodyRead::Wrong(offset)),
    };
    let (extras, rest) = rest.split_at(header.extras);
    let (key, value) = rest.split_at(header.key);
    Ok(BodyRead::Whole(FrameView {
        magic: header.magic,
        opcode: header.opcode,
        datatype: header.datatype,
        word: header.word,
        opaque: header.opaque,
        cas: header.cas,
        framing,
        extras,
        key,
        value,
    }))
}

/// Reads what the bytes begin with.
fn read_step<'a>(alloc: Global, side: Side, bytes: &'a [u8]) -> Result<ViewStep<'a>, NoMemory>
    ensures { IfOk result (Views side bytes.now) }
{
    let header = match read_header(side, bytes) {
        HeaderRead::Good(header) => header,
        HeaderRead::More(missing) => return Ok(ViewStep::More(missing)),
        HeaderRead::Bad(place, fault) => return Ok(ViewStep::Bad(place, fault)),
    };
    let (_, rest) = bytes.split_at(HEADER_LENGTH);
    if rest.len() < header.body {
        return Ok(ViewStep::More(header.body - rest.len()));
    }
    let (body, _) = rest.split_at(header.body);
    match read_body(alloc, &header, body)? {
        BodyRead::Whole(frame) => Ok(ViewStep::Whole(frame, HEADER_LENGTH + header.body)),
        BodyRead::Wrong(offset) => Ok(ViewStep::Bad(HEADER_LENGTH + offset, Fault::Extra)),
    }
}

/// Reads the frame of the side that the bytes begin with, where it lies: what `judge` tells of them, with a view of the
/// frame. `NoMemory` comes where memory for framing extras is refused. The work is in proportion to these.
pub fn view<'a>(alloc: Global, side: Side, bytes: &'a [u8]) -> Result<ViewStep<'a>, NoMemory>
    ensures answer { IfOk result (Views side bytes.now) }
    ensures only { IfOk result (Finds side bytes.now) }
{
    read_step(alloc, side, bytes)
}
