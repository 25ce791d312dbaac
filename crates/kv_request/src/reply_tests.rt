use crate::tests::NOTHING;
use crate::{Features, Reply, refusal, write_reply};
use doc_model::{DocKey, Status};
use hex_rows::bytes_of;
use kv_edge::{Bytes, NoMemory};
use kv_frame::{Frame, Magic};
use std::alloc::Global;
use std::test::Fail;

const ALL: Features = Features {
    token: true,
    json: true,
    collections: true,
};

/// Opcode, datatype, status, opaque and CAS of a reply's frame, and its extras, key and value in
/// hexadecimal digits.
type Sent<'a> = ((u8, u8, u16, u32, u64), &'a str, &'a str, &'a str);

/// Whether a reply's frame is this one.
fn is_sent(alloc: Global, made: &Frame, wanted: &Sent<'_>) -> Result<bool, Fail> {
    let head = (made.opcode, made.datatype, made.word, made.opaque, made.cas);
    let extras = bytes_of(alloc, wanted.1)?;
    let key = bytes_of(alloc, wanted.2)?;
    let value = bytes_of(alloc, wanted.3)?;
    Ok(
        made.magic == Magic::Reply
            && head == wanted.0
            && made.extras.as_slice() == extras.as_slice()
            && made.key.as_slice() == key.as_slice()
            && made.value.as_slice() == value.as_slice(),
    )
}

/// A reply with all that a reply may have.
fn full_reply(alloc: Global) -> Result<Reply, NoMemory> {
    Ok(Reply {
        opcode: 0x0c,
        opaque: 0xdead_beef,
        status: Status::SUCCESS,
        cas: 5,
        json: true,
        flags: Some(42),
        token: Some((4, 9)),
        extras: Bytes::from_slice(alloc, b"e")?,
        key: Some(DocKey {
            collection: 8,
            key: Bytes::from_slice(alloc, b"a")?,
        }),
        value: Bytes::from_slice(alloc, b"hi")?,
    })
}

/// What a reply with all that a reply may have is sent as, where nothing and where all is granted.
const FULL_REPLY: [(Features, Sent<'static>); 2] = [
    (
        NOTHING,
        ((0x0c, 0, 0, 0xdead_beef, 5), "0000002a 65", "61", "6869"),
    ),
    (
        ALL,
        (
            (0x0c, 1, 0, 0xdead_beef, 5),
            "0000002a 0000000000000004 0000000000000009 65",
            "0861",
            "6869",
        ),
    ),
];

/// The place of the first features under which a reply is sent in another way.
fn first_missent(
    alloc: Global,
    reply: &Reply,
    rows: &[(Features, Sent<'_>)],
) -> Result<Option<usize>, Fail> {
    for (place, row) in rows.iter().enumerate() {
        match write_reply(alloc, reply, &row.0)? {
            None => return Ok(Some(place)),
            Some(made) => {
                if !is_sent(alloc, &made, &row.1)? {
                    return Ok(Some(place));
                }
            }
        }
    }
    Ok(None)
}

#[test]
fn a_reply_tells_what_was_granted(rt: HostRuntime) -> Result<(), Fail> {
    let reply = full_reply(rt.alloc())?;
    assert_eq!(rt; first_missent(rt.alloc(), &reply, &FULL_REPLY)?, None);
    Ok(())
}

/// Empty replies by what they tell, with opcode and status, and whether they are sent.
const QUIET: [(&str, u8, u16, bool); 12] = [
    ("the miss of a Get", 0x00, 0x0001, true),
    ("the miss of a quiet Get", 0x09, 0x0001, false),
    ("the success of a quiet Get", 0x09, 0x0000, true),
    ("the miss of a quiet GetK", 0x0d, 0x0001, false),
    ("the success of a Set", 0x01, 0x0000, true),
    ("the success of a quiet Set", 0x11, 0x0000, false),
    ("the refusal of a quiet Set", 0x11, 0x0002, true),
    ("the success of a quiet Prepend", 0x1a, 0x0000, false),
    ("the miss of a quiet Increment", 0x15, 0x0001, true),
    ("the success of a quiet Quit", 0x17, 0x0000, false),
    ("the refusal of an unknown opcode", 0x4f, 0x0081, true),
    ("the success of an edit", 0xc8, 0x0000, true),
];

/// The place of the first reply that is sent and should not be, or the other way round, or that
/// isn't empty.
fn first_loud(alloc: Global, rows: &[(&str, u8, u16, bool)]) -> Result<Option<usize>, Fail> {
    for (place, row) in rows.iter().enumerate() {
        let reply = refusal(alloc, row.1, 7, Status { code: row.2 });
        let is_right = match write_reply(alloc, &reply, &ALL)? {
            None => !row.3,
            Some(made) => row.3 && is_sent(alloc, &made, &((row.1, 0, row.2, 7, 0), "", "", ""))?,
        };
        if !is_right {
            return Ok(Some(place));
        }
    }
    Ok(None)
}

#[test]
fn quiet_opcodes_leave_one_status_unsent(rt: HostRuntime) -> Result<(), Fail> {
    assert_eq!(rt; first_loud(rt.alloc(), &QUIET)?, None);
    Ok(())
}
