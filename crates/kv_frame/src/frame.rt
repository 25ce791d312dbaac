ghost use Rattle.std.specs.Prelude.{◌≡◌, IfOk};
ghost use Rattle.kv_frame.specs.Viewing.{frame_seen};

use kv_edge::{Bytes, Copied, NoMemory, Seq};
use std::alloc::Global;

/// How many bytes a header has.
pub const HEADER_LENGTH: usize = 24;

/// How many bytes a body has at most: framing extras, extras, key and value together.
pub const BODY_LIMIT: usize = 23_068_672;

/// Whose frames are read.
#[derive(Clone, Copy, Debug, PartialEq, Eq)]
pub enum Side {
    Requests,
    Replies,
}

/// The kind of a frame, which its first byte tells. The flexible kinds have framing extras.
#[derive(Clone, Copy, Debug, PartialEq, Eq)]
pub enum Magic {
    Request,
    FlexRequest,
    Reply,
    FlexReply,
}

/// The first byte of each kind.
pub(crate) const REQUEST: u8 = 0x80;

pub(crate) const FLEX_REQUEST: u8 = 0x08;

pub(crate) const REPLY: u8 = 0x81;

pub(crate) const FLEX_REPLY: u8 = 0x18;

/// A framing extra: an id from 0 to 270, and 0 to 270 bytes.
#[derive(Debug, Drop)]
pub struct FrameExtra {
    pub id: u16,
    pub body: Bytes,
}

/// A frame of the memcached binary protocol without its lengths, which are those of its parts.
#[derive(Debug, Drop)]
pub struct Frame {
    pub magic: Magic,
    pub opcode: u8,
    pub datatype: u8,
    /// The vbucket of a request, the status of a reply.
    pub word: u16,
    pub opaque: u32,
    pub cas: u64,
    pub framing: Seq<FrameExtra>,
    pub extras: Bytes,
    pub key: Bytes,
    pub value: Bytes,
}

/// A frame where it lies: extras, key and value are parts of the bytes that it was read in. The framing extras are read
/// already, so a frame without them takes no memory.
#[derive(Debug, Drop)]
pub struct FrameView<'a> {
    pub magic: Magic,
    pub opcode: u8,
    pub datatype: u8,
    /// The vbucket of a request, the status of a reply.
    pub word: u16,
    pub opaque: u32,
    pub cas: u64,
    pub framing: Seq<FrameExtra>,
    pub extras: &'a [u8],
    pub key: &'a [u8],
    pub value: &'a [u8],
}

impl Copied for FrameExtra {
    fn copy(&self, alloc: Global) -> Result<FrameExtra, NoMemory> {
        let body = self.body.copy(alloc)?;
        Ok(FrameExtra { id: self.id, body })
    }
}

/// A view of a frame, whose framing extras are copied.
pub fn view_of<'a>(alloc: Global, frame: &'a Frame) -> Result<FrameView<'a>, NoMemory>
    ensures { IfOk result (λ view. frame_seen view ≡ frame.now) }
{
    let framing = frame.framing.copy(alloc)?;
    Ok(FrameView {
        magic: frame.magic,
        opcode: frame.opcode,
        datatype: frame.datatype,
        word: frame.word,
        opaque: frame.opaque,
        cas: frame.cas,
        framing,
        extras: frame.extras.as_slice(),
        key: frame.key.as_slice(),
        value: frame.value.as_slice(),
    })
}

/// The frame that a view is of, with copies of its parts.
pub(crate) fn frame_of(alloc: Global, view: FrameView<'_>) -> Result<Frame, NoMemory>
    ensures { IfOk result (λ frame. frame ≡ frame_seen view.entry) }
{
    let extras = Bytes::from_slice(alloc, view.extras)?;
    let key = Bytes::from_slice(alloc, view.key)?;
    let value = Bytes::from_slice(alloc, view.value)?;
    Ok(Frame {
        magic: view.magic,
        opcode: view.opcode,
        datatype: view.datatype,
        word: view.word,
        opaque: view.opaque,
        cas: view.cas,
        framing: view.framing,
        extras,
        key,
        value,
    })
}
