use crate::{Body, Features, Mode, read_request};
use doc_model::{Refused, Status};
use hex_rows::bytes_of;
use kv_edge::{Bytes, NoMemory, Seq};
use kv_frame::{Frame, Magic, Side, Step, decode};
use std::alloc::Global;
use std::test::Fail;

pub(crate) const NOTHING: Features = Features {
    token: false,
    json: false,
    collections: false,
};

const COLLECTIONS: Features = Features {
    token: false,
    json: false,
    collections: true,
};

/// The status of a frame that is a request.
pub(crate) const READ: u16 = 0x0000;

const E2BIG: u16 = 0x0003;

pub(crate) const EINVAL: u16 = 0x0004;

const UNKNOWN_COMMAND: u16 = 0x0081;

const NOT_SUPPORTED: u16 = 0x0083;

const INVALID_LEVEL: u16 = 0x00a0;

/// Level and timeout where no level is asked for, or where the frame is refused.
const NO_LEVEL: (u8, u16) = (0, 0);

/// The expiry of an edit that has none.
const NO_EXPIRY: u64 = 0x1_0000_0000;

/// What stands for a key that is refused: no name is so long.
const REFUSED: (u32, usize) = (0, 1000);

/// The frame that all of the bytes are.
pub(crate) fn frame_of(alloc: Global, text: &str) -> Result<Frame, Fail> {
    let bytes = bytes_of(alloc, text)?;
    match decode(alloc, Side::Requests, &bytes)? {
        Step::Whole(frame, used) => {
            if used == bytes.len() {
                return Ok(frame);
            }
        }
        _ => {}
    }
    Err("the bytes are no whole frame")?
}

/// A frame with this many bytes 00 as its extras, letters as its key and blanks as its value.
pub(crate) fn frame_with(
    alloc: Global,
    opcode: u8,
    extras: usize,
    key: usize,
    value: usize,
) -> Result<Frame, NoMemory> {
    Ok(Frame {
        magic: Magic::Request,
        opcode,
        datatype: 0,
        word: 0,
        opaque: 1,
        cas: 0,
        framing: Seq::new(alloc),
        extras: Bytes::from_vec(vec![in alloc; 0u8; extras]?),
        key: Bytes::from_vec(vec![in alloc; b'k'; key]?),
        value: Bytes::from_vec(vec![in alloc; b' '; value]?),
    })
}

/// The status that a frame is refused with, or READ with level and timeout that are asked for.
pub(crate) fn outcome(
    alloc: Global,
    frame: &Frame,
    features: &Features,
) -> Result<(u16, (u8, u16)), NoMemory> {
    match read_request(alloc, frame, features) {
        Ok(made) => match made.durability {
            Some(asked) => Ok((READ, (asked.level, asked.timeout))),
            None => Ok((READ, NO_LEVEL)),
        },
        Err(Refused::Status(status)) => Ok((status.code, NO_LEVEL)),
        Err(Refused::NoMemory) => Err(NoMemory),
    }
}

/// What a request asks for: its opcode, opaque, CAS and vbucket.
type Head = (u8, u32, u64, u16);

/// What a request brings: a name for what is asked for, its numbers in the order of its fields, the
/// collection and the name of its key, a path, and a value.
type Brought<'a> = (&'static str, [u64; 4], u32, &'a str, &'a str, &'a str);

/// A name for what is asked for, and its numbers in the order of its fields.
fn kind(body: &Body) -> (&'static str, [u64; 4]) {
    match body {
        Body::Hello { wanted } => match wanted.as_slice() {
            [first, second] => ("hello", [u64::from(*first), u64::from(*second), 0, 0]),
            _ => ("hello", [0; 4]),
        },
        Body::Noop => ("noop", [0; 4]),
        Body::Version => ("version", [0; 4]),
        Body::Quit => ("quit", [0; 4]),
        Body::Get { .. } => ("get", [0; 4]),
        Body::Store {
            mode,
            flags,
            expiry,
            ..
        } => {
            let name = match mode {
                Mode::Set => "set",
                Mode::Add => "add",
                Mode::Replace => "replace",
            };
            (name, [u64::from(*flags), u64::from(*expiry), 0, 0])
        }
        Body::Delete { .. } => ("delete", [0; 4]),
        Body::Count {
            up,
            delta,
            initial,
            expiry,
            ..
        } => {
            let name = if *up { "up" } else { "down" };
            (name, [*delta, *initial, u64::from(*expiry), 0])
        }
        Body::Join { front, .. } => (if *front { "before" } else { "behind" }, [0; 4]),
        Body::Touch { fetch, expiry, .. } => {
            let name = if *fetch { "touch and get" } else { "touch" };
            (name, [u64::from(*expiry), 0, 0, 0])
        }
        Body::Look { spec, .. } => {
            (
                "look",
                [u64::from(spec.opcode), u64::from(spec.flags), 0, 0],
            )
        }
        Body::Edit {
            spec,
            expiry,
            doc_flags,
            ..
        } => {
            let expiry = match expiry {
                Some(expiry) => u64::from(*expiry),
                None => NO_EXPIRY,
            };
            let flags = u64::from(spec.flags);
            (
                "edit",
                [u64::from(spec.opcode), flags, expiry, u64::from(*doc_flags)],
            )
        }
        Body::MultiLook { specs, .. } => ("looks", [specs.len() as u64, 0, 0, 0]),
        Body::MultiEdit { specs, .. } => ("edits", [specs.len() as u64, 0, 0, 0]),
        Body::SetManifest { .. } => ("set manifest", [0; 4]),
        Body::GetManifest => ("get manifest", [0; 4]),
        Body::CollectionId { .. } => ("collection", [0; 4]),
        Body::ScopeId { .. } => ("scope", [0; 4]),
    }
}

/// The collection and the name of a request's key.
fn key(body: &Body) -> (u32, &[u8]) {
    match body {
        Body::Get { key }
        | Body::Store { key, .. }
        | Body::Delete { key }
        | Body::Count { key, .. }
        | Body::Join { key, .. }
        | Body::Touch { key, .. }
        | Body::Look { key, .. }
        | Body::Edit { key, .. }
        | Body::MultiLook { key, .. }
        | Body::MultiEdit { key, .. } => (key.collection, key.key.as_slice()),
        _ => (0, b""),
    }
}

/// The path and the value that a request brings.
fn texts(body: &Body) -> (&[u8], &[u8]) {
    match body {
        Body::Store { value, .. } | Body::Join { value, .. } => (b"", value.as_slice()),
        Body::SetManifest { text } => (b"", text.as_slice()),
        Body::CollectionId { path } | Body::ScopeId { path } => (path.as_slice(), b""),
        Body::Look { spec, .. } | Body::Edit { spec, .. } => {
            (spec.path.as_slice(), spec.value.as_slice())
        }
        _ => (b"", b""),
    }
}

/// Whether a request brings this.
fn brings(body: &Body, wanted: &Brought<'_>) -> bool {
    let (name, collection) = (wanted.3.as_bytes(), wanted.2);
    kind(body) == (wanted.0, wanted.1)
        && key(body) == (collection, name)
        && texts(body) == (wanted.4.as_bytes(), wanted.5.as_bytes())
}

/// Whether a frame is read as a request with this head that brings this.
fn is_read(
    alloc: Global,
    frame: &Frame,
    features: &Features,
    head: Head,
    wanted: &Brought<'_>,
) -> bool {
    let read = read_request(alloc, frame, features);
    match &read {
        Ok(made) => {
            (made.opcode, made.opaque, made.cas, made.vbucket) == head && brings(&made.body, wanted)
        }
        Err(_) => false,
    }
}

/// A name for what a frame asks for.
fn asked(alloc: Global, frame: &Frame) -> &'static str {
    let read = read_request(alloc, frame, &NOTHING);
    match &read {
        Ok(made) => kind(&made.body).0,
        Err(_) => "refused",
    }
}

/// Frames with what they are read as, where collections are granted or not.
const READINGS: [(&str, bool, Head, Brought<'static>); 18] = [
    (
        "80 00 0001 00 00 0000 00000001 deadbeef 0000000000000000 61",
        false,
        (0x00, 0xdead_beef, 0, 0),
        ("get", [0; 4], 0, "a", "", ""),
    ),
    (
        "80 00 0002 00 00 0000 00000002 deadbeef 0000000000000000 0861",
        true,
        (0x00, 0xdead_beef, 0, 0),
        ("get", [0; 4], 8, "a", "", ""),
    ),
    (
        "80 11 0001 08 01 03ff 0000000b 00000001 0102030405060708 0000002a 00000e10 61 6869",
        false,
        (0x11, 1, 0x0102_0304_0506_0708, 1023),
        ("set", [42, 3600, 0, 0], 0, "a", "", "hi"),
    ),
    (
        "80 05 0001 14 00 0000 00000015 00000001 0000000000000000 0000000000000001 0000000000000005 00000000 6e",
        false,
        (0x05, 1, 0, 0),
        ("up", [1, 5, 0, 0], 0, "n", "", ""),
    ),
    (
        "80 1f 0001 00 00 0000 00000005 00000001 0000000000000000 61 0004 0110",
        false,
        (0x1f, 1, 0, 0),
        ("hello", [4, 272, 0, 0], 0, "", "", ""),
    ),
    (
        "80 b9 0000 00 00 0000 00000002 00000001 0000000000000000 7b7d",
        true,
        (0xb9, 1, 0, 0),
        ("set manifest", [0; 4], 0, "", "", "{}"),
    ),
    (
        "80 bb 0003 00 00 0000 00000003 00000001 0000000000000000 732e63",
        true,
        (0xbb, 1, 0, 0),
        ("collection", [0; 4], 0, "", "s.c", ""),
    ),
    (
        "80 bb 0000 00 00 0000 00000003 00000001 0000000000000000 732e63",
        true,
        (0xbb, 1, 0, 0),
        ("collection", [0; 4], 0, "", "s.c", ""),
    ),
    (
        "80 bc 0003 00 00 0000 00000003 00000001 0000000000000000 732e63",
        true,
        (0xbc, 1, 0, 0),
        ("scope", [0; 4], 0, "", "s.c", ""),
    ),
    (
        "80 bc 0000 00 00 0000 00000003 00000001 0000000000000000 732e63",
        true,
        (0xbc, 1, 0, 0),
        ("scope", [0; 4], 0, "", "s.c", ""),
    ),
    (
        "80 c5 0001 03 00 0000 00000007 00000001 0000000000000000 0003 00 61 622e63",
        false,
        (0xc5, 1, 0, 0),
        ("look", [0xc5, 0, 0, 0], 0, "a", "b.c", ""),
    ),
    (
        "80 d2 0001 04 00 0000 00000005 00000001 0000000000000000 0000 00 00 61",
        false,
        (0xd2, 1, 0, 0),
        ("look", [0xd2, 0, 0, 0], 0, "a", "", ""),
    ),
    (
        "80 c8 0001 03 00 0000 00000007 00000001 0000000000000007 0001 01 61 62 3132",
        false,
        (0xc8, 1, 7, 0),
        ("edit", [0xc8, 1, NO_EXPIRY, 0], 0, "a", "b", "12"),
    ),
    (
        "80 c9 0001 04 00 0000 00000008 00000001 0000000000000000 0003 00 02 61 622e63",
        false,
        (0xc9, 1, 0, 0),
        ("edit", [0xc9, 0, NO_EXPIRY, 2], 0, "a", "b.c", ""),
    ),
    (
        "80 ca 0002 07 00 0000 0000000c 00000001 0000000000000000 0001 00 00000e10 0861 62 3132",
        true,
        (0xca, 1, 0, 0),
        ("edit", [0xca, 0, 3600, 0], 8, "a", "b", "12"),
    ),
    (
        "80 cf 0001 08 00 0000 0000000d 00000001 0000000000000000 0002 01 00000000 01 61 6263 2d35",
        false,
        (0xcf, 1, 0, 0),
        ("edit", [0xcf, 1, 0, 1], 0, "a", "bc", "-5"),
    ),
    (
        "80 d0 0002 01 00 0000 0000000d 00000001 0000000000000000 00 0861 c500000170 c600000171",
        true,
        (0xd0, 1, 0, 0),
        ("looks", [2, 0, 0, 0], 8, "a", "", ""),
    ),
    (
        "80 d1 0001 00 00 0000 0000001e 00000003 0000000000000000 6d c8000001000000017932 ca000001000000017133 c90000010000000072",
        false,
        (0xd1, 3, 0, 0),
        ("edits", [3, 0, 0, 0], 0, "m", "", ""),
    ),
];

/// The place of the first frame that is read as another request.
fn first_misread(
    alloc: Global,
    rows: &[(&str, bool, Head, Brought<'_>)],
) -> Result<Option<usize>, Fail> {
    for (place, row) in rows.iter().enumerate() {
        let features = if row.1 { COLLECTIONS } else { NOTHING };
        let frame = frame_of(alloc, row.0)?;
        if !is_read(alloc, &frame, &features, row.2, &row.3) {
            return Ok(Some(place));
        }
    }
    Ok(None)
}

#[test]
fn frames_are_read_with_all_their_parts(rt: HostRuntime) -> Result<(), Fail> {
    assert_eq!(rt; first_misread(rt.alloc(), &READINGS)?, None);
    Ok(())
}

/// Opcodes but for those on parts of documents, with the lengths of extras and key that they ask
/// for, and what is read.
const OPCODES: [(u8, usize, usize, &str); 30] = [
    (0x00, 0, 1, "get"),
    (0x01, 8, 1, "set"),
    (0x02, 8, 1, "add"),
    (0x03, 8, 1, "replace"),
    (0x04, 0, 1, "delete"),
    (0x05, 20, 1, "up"),
    (0x06, 20, 1, "down"),
    (0x07, 0, 0, "quit"),
    (0x09, 0, 1, "get"),
    (0x0a, 0, 0, "noop"),
    (0x0b, 0, 0, "version"),
    (0x0c, 0, 1, "get"),
    (0x0d, 0, 1, "get"),
    (0x0e, 0, 1, "behind"),
    (0x0f, 0, 1, "before"),
    (0x11, 8, 1, "set"),
    (0x12, 8, 1, "add"),
    (0x13, 8, 1, "replace"),
    (0x14, 0, 1, "delete"),
    (0x15, 20, 1, "up"),
    (0x16, 20, 1, "down"),
    (0x17, 0, 0, "quit"),
    (0x19, 0, 1, "behind"),
    (0x1a, 0, 1, "before"),
    (0x1c, 4, 1, "touch"),
    (0x1d, 4, 1, "touch and get"),
    (0x1f, 0, 0, "hello"),
    (0xba, 0, 0, "get manifest"),
    (0xbb, 0, 1, "collection"),
    (0xbc, 0, 1, "scope"),
];

/// The place of the first opcode that asks for something else, or that takes extras of 21 bytes, as
/// no opcode does.
fn first_other(alloc: Global, rows: &[(u8, usize, usize, &str)]) -> Result<Option<usize>, Fail> {
    for (place, row) in rows.iter().enumerate() {
        let frame = frame_with(alloc, row.0, row.1, row.2, 0)?;
        let longer = frame_with(alloc, row.0, 21, row.2, 0)?;
        if asked(alloc, &frame) != row.3 || outcome(alloc, &longer, &NOTHING)?.0 != EINVAL {
            return Ok(Some(place));
        }
    }
    Ok(None)
}

#[test]
fn each_opcode_asks_for_its_own(rt: HostRuntime) -> Result<(), Fail> {
    assert_eq!(rt; first_other(rt.alloc(), &OPCODES)?, None);
    Ok(())
}

/// Frames by what they show, with the status, and level and timeout where a level is asked for.
const STATUSES: [(&str, &str, u16, (u8, u16)); 39] = [
    (
        "alone",
        "08 01 02 01 08 00 0000 0000000c 00000005 0000000000000000 1101 0000000000000000 61 31",
        READ,
        (1, 30_000),
    ),
    (
        "with a timeout",
        "08 01 04 01 08 00 0000 0000000e 00000005 0000000000000000 13011388 0000000000000000 61 31",
        READ,
        (1, 5_000),
    ),
    (
        "the greatest, behind an extra of another id",
        "08 01 04 01 08 00 0000 0000000e 00000005 0000000000000000 21041103 0000000000000000 61 31",
        READ,
        (3, 30_000),
    ),
    (
        "none among extras of other ids",
        "08 01 02 01 08 00 0000 0000000c 00000005 0000000000000000 2104 0000000000000000 61 31",
        READ,
        NO_LEVEL,
    ),
    (
        "timeout 0",
        "08 01 04 01 08 00 0000 0000000e 00000005 0000000000000000 13010000 0000000000000000 61 31",
        EINVAL,
        NO_LEVEL,
    ),
    (
        "timeout 0 of a level that isn't there",
        "08 01 04 01 08 00 0000 0000000e 00000005 0000000000000000 13040000 0000000000000000 61 31",
        EINVAL,
        NO_LEVEL,
    ),
    (
        "a fourth",
        "08 01 02 01 08 00 0000 0000000c 00000005 0000000000000000 1104 0000000000000000 61 31",
        INVALID_LEVEL,
        NO_LEVEL,
    ),
    (
        "level 0, without the extras of a Set",
        "08 01 02 01 00 00 0000 00000003 00000005 0000000000000000 1100 61",
        INVALID_LEVEL,
        NO_LEVEL,
    ),
    (
        "of two bytes",
        "08 01 03 01 08 00 0000 0000000d 00000005 0000000000000000 120113 0000000000000000 61 31",
        EINVAL,
        NO_LEVEL,
    ),
    (
        "twice",
        "08 01 04 01 08 00 0000 0000000e 00000005 0000000000000000 11011101 0000000000000000 61 31",
        EINVAL,
        NO_LEVEL,
    ),
    (
        "on a Get",
        "08 00 02 01 00 00 0000 00000003 00000005 0000000000000000 1101 61",
        EINVAL,
        NO_LEVEL,
    ),
    (
        "the first opcode of streams, datatype 2",
        "80 50 0000 00 02 0000 00000000 00000001 0000000000000000",
        NOT_SUPPORTED,
        NO_LEVEL,
    ),
    (
        "the last opcode of streams",
        "80 6f 0000 00 00 0000 00000000 00000001 0000000000000000",
        NOT_SUPPORTED,
        NO_LEVEL,
    ),
    (
        "the opcode before those of streams, datatype 2",
        "80 4f 0000 00 02 0000 00000000 00000001 0000000000000000",
        UNKNOWN_COMMAND,
        NO_LEVEL,
    ),
    (
        "the opcode behind those of streams",
        "80 70 0000 00 00 0000 00000000 00000001 0000000000000000",
        UNKNOWN_COMMAND,
        NO_LEVEL,
    ),
    (
        "datatype 2, a fourth level",
        "08 01 02 01 08 02 0000 0000000b 00000001 0000000000000000 1104 0000000000000000 61",
        EINVAL,
        NO_LEVEL,
    ),
    (
        "a Get of datatype 1",
        "80 00 0001 00 01 0000 00000001 00000001 0000000000000000 61",
        READ,
        NO_LEVEL,
    ),
    (
        "a Get without a key",
        "80 00 0000 00 00 0000 00000000 00000001 0000000000000000",
        EINVAL,
        NO_LEVEL,
    ),
    (
        "a Get with a value",
        "80 00 0001 00 00 0000 00000002 00000001 0000000000000000 61 31",
        EINVAL,
        NO_LEVEL,
    ),
    (
        "an Increment with a value",
        "80 05 0001 14 00 0000 00000016 00000001 0000000000000000 0000000000000001 0000000000000005 00000000 6e 31",
        EINVAL,
        NO_LEVEL,
    ),
    (
        "a Noop with a key",
        "80 0a 0001 00 00 0000 00000001 00000001 0000000000000000 61",
        EINVAL,
        NO_LEVEL,
    ),
    (
        "a Hello with an odd value",
        "80 1f 0001 00 00 0000 00000004 00000001 0000000000000000 61 000400",
        EINVAL,
        NO_LEVEL,
    ),
    (
        "an Add with a CAS",
        "80 02 0001 08 00 0000 00000009 00000001 0000000000000001 0000000000000000 61",
        EINVAL,
        NO_LEVEL,
    ),
    (
        "a manifest to set, without a text",
        "80 b9 0000 00 00 0000 00000000 00000001 0000000000000000",
        EINVAL,
        NO_LEVEL,
    ),
    (
        "a manifest to set, with a key",
        "80 b9 0001 00 00 0000 00000003 00000001 0000000000000000 61 7b7d",
        EINVAL,
        NO_LEVEL,
    ),
    (
        "a manifest to get, with a value",
        "80 ba 0000 00 00 0000 00000002 00000001 0000000000000000 7b7d",
        EINVAL,
        NO_LEVEL,
    ),
    (
        "a collection without a path",
        "80 bb 0000 00 00 0000 00000000 00000001 0000000000000000",
        EINVAL,
        NO_LEVEL,
    ),
    (
        "a collection with two paths",
        "80 bb 0003 00 00 0000 00000006 00000001 0000000000000000 732e63 732e63",
        EINVAL,
        NO_LEVEL,
    ),
    (
        "a scope without a path",
        "80 bc 0000 00 00 0000 00000000 00000001 0000000000000000",
        EINVAL,
        NO_LEVEL,
    ),
    (
        "a scope with two paths",
        "80 bc 0001 00 00 0000 00000002 00000001 0000000000000000 73 73",
        EINVAL,
        NO_LEVEL,
    ),
    (
        "a Replace with a CAS",
        "80 03 0001 08 00 0000 00000009 00000001 0000000000000001 0000000000000000 61",
        READ,
        NO_LEVEL,
    ),
    (
        "an edit with a level",
        "08 c8 02 01 03 00 0000 00000008 00000001 0000000000000000 1101 0001 00 61 62 31",
        READ,
        (1, 30_000),
    ),
    (
        "a look-up with a level",
        "08 c5 02 01 03 00 0000 00000007 00000001 0000000000000000 1101 0001 00 61 62",
        EINVAL,
        NO_LEVEL,
    ),
    (
        "edits with a level",
        "08 d1 02 01 00 00 0000 0000000d 00000001 0000000000000000 1101 61 c8000001000000017031",
        READ,
        (1, 30_000),
    ),
    (
        "look-ups with a level",
        "08 d0 02 01 00 00 0000 00000008 00000001 0000000000000000 1101 61 c500000170",
        EINVAL,
        NO_LEVEL,
    ),
    (
        "edits without a key",
        "80 d1 0000 00 00 0000 0000000a 00000001 0000000000000000 c8000001000000017031",
        EINVAL,
        NO_LEVEL,
    ),
    (
        "look-ups without a key",
        "80 d0 0000 00 00 0000 00000005 00000001 0000000000000000 c500000170",
        EINVAL,
        NO_LEVEL,
    ),
    (
        "an edit without a key",
        "80 c8 0000 03 00 0000 00000005 00000001 0000000000000000 0001 00 62 31",
        EINVAL,
        NO_LEVEL,
    ),
    (
        "a look-up without a key",
        "80 c5 0000 03 00 0000 00000004 00000001 0000000000000000 0001 00 62",
        EINVAL,
        NO_LEVEL,
    ),
];

/// The place of the first frame with another status, level or timeout.
fn first_mistaken(
    alloc: Global,
    rows: &[(&str, &str, u16, (u8, u16))],
) -> Result<Option<usize>, Fail> {
    for (place, row) in rows.iter().enumerate() {
        let frame = frame_of(alloc, row.1)?;
        if outcome(alloc, &frame, &NOTHING)? != (row.2, row.3) {
            return Ok(Some(place));
        }
    }
    Ok(None)
}

#[test]
fn the_first_check_that_fails_gives_the_status(rt: HostRuntime) -> Result<(), Fail> {
    assert_eq!(rt; first_mistaken(rt.alloc(), &STATUSES)?, None);
    Ok(())
}

/// Opcodes with the lengths of extras, key and value and the CAS of a frame, and the status. The
/// paths of those on one part have no byte, which one of the two opcodes doesn't take, and blanks
/// are no specs.
const SIZES: [(u8, usize, usize, usize, u64, u16); 13] = [
    (0x02, 8, 250, 20_971_520, 0, READ),
    (0x02, 8, 250, 20_971_521, 1, E2BIG),
    (0x02, 8, 251, 20_971_521, 1, EINVAL),
    (0xb9, 0, 0, 1_048_576, 0, READ),
    (0xb9, 0, 0, 1_048_577, 0, E2BIG),
    (0xcb, 3, 1, 20_971_520, 0, READ),
    (0xcb, 3, 1, 20_971_521, 0, E2BIG),
    (0xcd, 3, 1, 20_971_520, 0, EINVAL),
    (0xcd, 3, 1, 20_971_521, 0, E2BIG),
    (0xd0, 0, 1, 20_971_520, 0, EINVAL),
    (0xd0, 0, 1, 20_971_521, 0, E2BIG),
    (0xd1, 0, 1, 20_971_520, 0, EINVAL),
    (0xd1, 0, 1, 20_971_521, 0, E2BIG),
];

/// The place of the first frame of these sizes with another status.
fn first_missized(
    alloc: Global,
    rows: &[(u8, usize, usize, usize, u64, u16)],
) -> Result<Option<usize>, Fail> {
    for (place, row) in rows.iter().enumerate() {
        let mut frame = frame_with(alloc, row.0, row.1, row.2, row.3)?;
        frame.cas = row.4;
        if outcome(alloc, &frame, &NOTHING)?.0 != row.5 {
            return Ok(Some(place));
        }
    }
    Ok(None)
}

#[test]
fn the_longest_keys_and_values_pass_and_no_longer_ones(rt: HostRuntime) -> Result<(), Fail> {
    assert_eq!(rt; first_missized(rt.alloc(), &SIZES)?, None);
    Ok(())
}

/// The first bytes of a key and how many letters follow them, whether collections are granted, and
/// the collection and the length of the name that are read, or REFUSED.
const KEYS: [(&str, usize, bool, (u32, usize)); 16] = [
    ("08", 1, true, (8, 1)),
    ("08", 1, false, (0, 2)),
    ("00", 1, true, (0, 1)),
    ("b964", 3, true, (12857, 3)),
    ("ffffffff0f", 1, true, (0xffff_ffff, 1)),
    ("8000", 1, true, REFUSED),
    ("ffffffff1f", 1, true, REFUSED),
    ("80", 0, true, REFUSED),
    ("08", 0, true, REFUSED),
    ("00", 0, true, REFUSED),
    ("00", 250, true, (0, 250)),
    ("00", 251, true, REFUSED),
    ("08", 246, true, (8, 246)),
    ("08", 247, true, REFUSED),
    ("", 250, false, (0, 250)),
    ("", 251, false, REFUSED),
];

/// The collection of a frame's key and how many bytes its name has, or REFUSED.
fn split(alloc: Global, frame: &Frame, features: &Features) -> (u32, usize) {
    let read = read_request(alloc, frame, features);
    match &read {
        Ok(made) => {
            let (collection, name) = key(&made.body);
            (collection, name.len())
        }
        Err(_) => REFUSED,
    }
}

/// The place of the first key of a Get that is read as another.
fn first_missplit(
    alloc: Global,
    rows: &[(&str, usize, bool, (u32, usize))],
) -> Result<Option<usize>, Fail> {
    for (place, row) in rows.iter().enumerate() {
        let features = if row.2 { COLLECTIONS } else { NOTHING };
        let mut name = bytes_of(alloc, row.0)?;
        let letters = vec![in alloc; b'k'; row.1]?;
        name.extend_from_slice(&letters)?;
        let mut get = frame_with(alloc, 0x00, 0, 0, 0)?;
        get.key = Bytes::from_vec(name);
        let status = if row.3 == REFUSED { EINVAL } else { READ };
        if split(alloc, &get, &features) != row.3 || outcome(alloc, &get, &features)?.0 != status {
            return Ok(Some(place));
        }
    }
    Ok(None)
}

#[test]
fn a_key_begins_with_its_collection_where_those_are_granted(rt: HostRuntime) -> Result<(), Fail> {
    assert_eq!(rt; first_missplit(rt.alloc(), &KEYS)?, None);
    Ok(())
}
