//! How the tests open a vbucket on a disk in memory and ask it, frame by frame.

ghost use Rattle.std.specs.Prelude.{◌≡◌};
ghost use Rattle.kv_request.specs.Tables.{is_for_session};

use crate::{Outcome, Vb};
use doc_model::{Refused, Status};
use durability_core::Chain;
use kv_edge::{Bytes, NoMemory, Seq};
use kv_frame::{Frame, FrameExtra, Magic, fits};
use kv_request::{Body, DURABILITY, Features, Reply, read_request};
use magma_disk::MemDisk;
use std::alloc::Global;

// A manifest with another collection, and one without it again.
pub(crate) const FRUIT: &str =
    "{\"uid\":\"1\",\"scopes\":[{\"name\":\"_default\",\"uid\":\"0\",\"collections\":[{\"name\":\"_default\",\"uid\":\"0\"},{\"name\":\"fruit\",\"uid\":\"8\"}]}]}";

pub(crate) const NO_FRUIT: &str =
    "{\"uid\":\"2\",\"scopes\":[{\"name\":\"_default\",\"uid\":\"0\",\"collections\":[{\"name\":\"_default\",\"uid\":\"0\"}]}]}";

// A request with the opaque 7.
#[derive(Clone, Copy)]
pub(crate) struct Asked<'a> {
    pub(crate) opcode: u8,
    pub(crate) vbucket: u16,
    pub(crate) cas: u64,
    pub(crate) level: Option<u8>,
    // Whether collections are granted.
    pub(crate) collections: bool,
    pub(crate) extras: &'a [u8],
    pub(crate) key: &'a [u8],
    pub(crate) value: &'a [u8],
}

// A request on the key `n`, where no collections are granted.
pub(crate) fn plain<'a>(opcode: u8, extras: &'a [u8], value: &'a [u8]) -> Asked<'a> {
    Asked {
        opcode,
        vbucket: 0,
        cas: 0,
        level: None,
        collections: false,
        extras,
        key: b"n",
        value,
    }
}

// A request on a key with its collection.
pub(crate) fn within<'a>(asked: Asked<'a>, key: &'a [u8]) -> Asked<'a> {
    Asked {
        collections: true,
        key,
        ..asked
    }
}

// The frame of a request, with a framing extra where a level is asked for.
fn frame(alloc: Global, asked: Asked<'_>) -> Result<Frame, NoMemory> {
    let mut framing = Seq::new(alloc);
    let mut magic = Magic::Request;
    if let Some(level) = asked.level {
        magic = Magic::FlexRequest;
        framing.push(FrameExtra {
            id: DURABILITY,
            body: Bytes::from_slice(alloc, &[level])?,
        })?;
    }
    Ok(Frame {
        magic,
        opcode: asked.opcode,
        datatype: 0,
        word: asked.vbucket,
        opaque: 7,
        cas: asked.cas,
        framing,
        extras: Bytes::from_slice(alloc, asked.extras)?,
        key: Bytes::from_slice(alloc, asked.key)?,
        value: Bytes::from_slice(alloc, asked.value)?,
    })
}

// Whether a session answers it.
fn is_of_session(body: &Body) -> bool
    ensures { result ≡ is_for_session body.now }
{
    matches!(
        body,
        Body::Hello { .. } | Body::Noop | Body::Version | Body::Quit
    )
}

// What is answered at this moment. It goes by a frame, since only a request of a frame may be handed to a vbucket.
pub(crate) fn ask(
    alloc: Global,
    vb: &mut Vb<MemDisk>,
    asked: Asked<'_>,
    now: u64,
) -> Result<Reply, Refused> {
    let frame = frame(alloc, asked)?;
    if !fits(&frame) {
        return Err(Refused::Status(Status::EINVAL));
    }
    let granted = Features {
        token: false,
        json: false,
        collections: asked.collections,
    };
    let request = read_request(alloc, &frame, &granted)?;
    if is_of_session(&request.body) {
        return Err(Refused::Status(Status::EINVAL));
    }
    match vb.request(&request, now) {
        Outcome::Reply(reply) => Ok(reply),
        Outcome::Parked(_) => Err(Refused::Status(Status::NOT_SUPPORTED)),
    }
}

// The vbucket 0 of the one place of a chain, on a disk.
pub(crate) fn opened(alloc: Global, disk: MemDisk) -> Result<Vb<MemDisk>, Refused> {
    let chain = Chain::of_one(alloc, b"a")?;
    let (opened, _back) = Vb::open_vb(alloc, disk, 0, &chain, 0);
    match opened {
        Ok(vb) => Ok(vb),
        Err(_) => Err(Refused::Status(Status::ETMPFAIL)),
    }
}

// The vbucket on an empty disk.
pub(crate) fn opened_first(alloc: Global) -> Result<Vb<MemDisk>, Refused> {
    opened(alloc, MemDisk::new(alloc, Vec::new(alloc)))
}
