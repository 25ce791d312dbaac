ghost use Rattle.std.specs.Prelude.{◌≡◌, IfOk};
ghost use Rattle.kv_request.specs.Tables.{IsReply};

use crate::{Next, Session};
use doc_model::{DocKey, Status};
use hex_rows::bytes_of;
use kv_edge::{Bytes, NoMemory};
use kv_frame::Fault;
use kv_request::{Body, Reply, Request, small_replies};
use std::alloc::Global;
use std::test::Fail;

const GET: &str = "80 00 0001 00 00 0000 00000001 deadbeef 0000000000000000 61";

const GET_BEHIND_AN_8: &str = "80 00 0002 00 00 0000 00000002 00000001 0000000000000000 0861";

const NOOP: &str = "80 0a 0000 00 00 0000 00000000 00000009 0000000000000000";

const NOOP_DONE: &str = "81 0a 0000 00 00 0000 00000000 00000009 0000000000000000";

const SET_DONE: &str = "81 01 0000 00 00 0000 00000000 00000001 0000000000000001";

const SET_DONE_WITH_TOKEN: &str = "\
    81 01 0000 10 00 0000 00000010 00000001 0000000000000001 \
    0000000000000004 0000000000000001";

const GET_DONE: &str = "81 0c 0001 04 00 0000 00000007 00000001 0000000000000005 0000002a 61 6869";

const GET_DONE_AS_JSON: &str =
    "81 0c 0001 04 01 0000 00000007 00000001 0000000000000005 0000002a 61 6869";

const GET_DONE_IN_8: &str =
    "81 0c 0002 04 00 0000 00000008 00000001 0000000000000005 0000002a 0861 6869";

const GET_DONE_IN_8_AS_JSON: &str =
    "81 0c 0002 04 01 0000 00000008 00000001 0000000000000005 0000002a 0861 6869";

const MAGIC: usize = 1;

const LENGTHS: usize = 2;

const TOO_BIG: usize = 3;

const EXTRA: usize = 4;

/// A name for what is given out, and two numbers that it tells: of a Get the collection and the
/// length of the name, of a reply opcode and status, the bytes that are missing, and place and kind
/// of a fault.
type Given = (&'static str, usize, usize);

/// Whether a session is new, a piece that it is offered, how many of its bytes are taken, what is
/// given out, what is sent of a reply of its own, and how many bytes are held.
type Offer<'a> = (bool, &'a str, usize, Given, &'a str, usize);

/// The collection of a Get's key and how many bytes its name has.
fn key_of(request: &Request) -> (usize, usize) {
    match &request.body {
        Body::Get { key } => (key.collection as usize, key.key.len()),
        _ => (0, 0),
    }
}

/// A number for a fault.
fn number_of(fault: &Fault) -> usize {
    match fault {
        Fault::Magic => MAGIC,
        Fault::Lengths => LENGTHS,
        Fault::TooBig => TOO_BIG,
        Fault::Extra => EXTRA,
    }
}

fn given(next: &Next) -> Given {
    match next {
        Next::Request(request) => {
            let (collection, length) = key_of(request);
            ("request", collection, length)
        }
        Next::Refused(reply) => (
            "reply",
            usize::from(reply.opcode),
            usize::from(reply.status.code),
        ),
        Next::More(missing) => ("more", *missing, 0),
        Next::Bad(place, fault) => ("bad", *place, number_of(fault)),
        Next::Quit => ("quit", 0, 0),
        Next::NoMemory => ("no memory", 0, 0),
    }
}

/// What is sent of what a session gives out.
fn sent(alloc: Global, session: &Session, next: &Next) -> Result<Vec<u8>, NoMemory>
    requires { (reply : _) → next.now ≡ Next.Refused reply → IsReply reply }
{
    let mut out = Vec::new(alloc);
    match next {
        Next::Refused(reply) => session.answer(reply, &mut out)?,
        _ => {}
    }
    Ok(out)
}

/// How many bytes of a piece are taken, what is then given out, and what is sent of it.
fn offer(
    alloc: Global,
    session: &mut Session,
    piece: &[u8],
) -> Result<(usize, Given, Vec<u8>), NoMemory> {
    let (taken, next) = session.advance(piece)?;
    let out = sent(alloc, session, &next)?;
    Ok((taken, given(&next), out))
}

/// The same, by two calls.
fn feed_and_ask(
    alloc: Global,
    session: &mut Session,
    piece: &[u8],
) -> Result<(usize, Given, Vec<u8>), NoMemory> {
    let taken = session.feed(piece)?;
    let next = session.next_request();
    let out = sent(alloc, session, &next)?;
    Ok((taken, given(&next), out))
}

/// Pieces one after the other.
const OFFERS: [Offer<'static>; 27] = [
    // A frame is taken up to its end, and no further.
    (
        true,
        "80 00 0001 00 00 0000 00000001 deadbeef 0000000000000000 61 80 0a 0000 00 00 0000 00000000 00000009 0000000000000000",
        25,
        ("request", 0, 1),
        "",
        0,
    ),
    (false, NOOP, 24, ("reply", 0x0a, 0), NOOP_DONE, 0),
    // A frame in three pieces.
    (
        true,
        "80 00 0001 00 00 0000 0000",
        10,
        ("more", 14, 0),
        "",
        10,
    ),
    (
        false,
        "0001 deadbeef 0000000000000000",
        14,
        ("more", 1, 0),
        "",
        24,
    ),
    (false, "61", 1, ("request", 0, 1), "", 0),
    (false, "", 0, ("more", 24, 0), "", 0),
    // The header of a Get is cut, and then its key.
    (
        true,
        "80 00 0005 00 00 0000 00000005 deadbeef 00000000000000",
        23,
        ("more", 1, 0),
        "",
        23,
    ),
    (false, "00", 1, ("more", 5, 0), "", 24),
    (false, "61 6263", 3, ("more", 2, 0), "", 27),
    (false, "64 65", 2, ("request", 0, 5), "", 0),
    // What is no frame is told with its place from then on.
    (true, GET, 25, ("request", 0, 1), "", 0),
    (
        false,
        "82 00 0001 00 00 0000 00000001 deadbeef 0000000000000000 61",
        24,
        ("bad", 0, MAGIC),
        "",
        24,
    ),
    (false, GET, 0, ("bad", 0, MAGIC), "", 24),
    (true, GET, 25, ("request", 0, 1), "", 0),
    (
        false,
        "80 00 0002 00 00 0000 00000001 00000000 0000000000000000 61",
        24,
        ("bad", 8, LENGTHS),
        "",
        24,
    ),
    (false, GET, 0, ("bad", 8, LENGTHS), "", 24),
    (true, GET, 25, ("request", 0, 1), "", 0),
    (
        false,
        "80 00 0002 00 00 0000 01600001 00000000 0000000000000000 61",
        24,
        ("bad", 8, TOO_BIG),
        "",
        24,
    ),
    (false, GET, 0, ("bad", 8, TOO_BIG), "", 24),
    // What asks nothing of documents is answered.
    (true, NOOP, 24, ("reply", 0x0a, 0), NOOP_DONE, 0),
    (
        false,
        "80 0b 0000 00 00 0000 00000000 00000002 0000000000000000",
        24,
        ("reply", 0x0b, 0),
        "81 0b 0000 00 00 0000 00000005 00000002 0000000000000000 312e302e30",
        0,
    ),
    (
        false,
        "80 3f 0000 00 00 0000 00000000 00000003 0000000000000000",
        24,
        ("reply", 0x3f, 0x0081),
        "81 3f 0000 00 00 0081 00000000 00000003 0000000000000000",
        0,
    ),
    // A Quit ends the connection, and a quiet one is not answered.
    (
        true,
        "80 07 0000 00 00 0000 00000000 00000004 0000000000000000 80 0a 0000 00 00 0000 00000000 00000009 0000000000000000",
        24,
        ("reply", 0x07, 0),
        "81 07 0000 00 00 0000 00000000 00000004 0000000000000000",
        0,
    ),
    (false, NOOP, 0, ("quit", 0, 0), "", 0),
    (false, NOOP, 0, ("quit", 0, 0), "", 0),
    (
        true,
        "80 17 0000 00 00 0000 00000000 00000005 0000000000000000 80 0a 0000 00 00 0000 00000000 00000009 0000000000000000",
        24,
        ("reply", 0x17, 0),
        "",
        0,
    ),
    (false, NOOP, 0, ("quit", 0, 0), "", 0),
];

/// Whether a piece is taken, given out and sent as a row tells.
fn is_as_told(
    alloc: Global,
    row: &Offer<'_>,
    came: (usize, Given, Vec<u8>),
    rest: usize,
) -> Result<bool, Fail> {
    let wanted = bytes_of(alloc, row.4)?;
    Ok((came.0, came.1, rest) == (row.2, row.3, row.5) && came.2 == wanted)
}

/// The place of the first piece of which something else comes, of two sessions that are offered the
/// same: one by one call, one by two.
fn first_wrong_offer(alloc: Global, rows: &[Offer<'_>]) -> Result<Option<usize>, Fail> {
    let mut one = Session::new(alloc);
    let mut two = Session::new(alloc);
    for (place, row) in rows.iter().enumerate() {
        if row.0 {
            one = Session::new(alloc);
            two = Session::new(alloc);
        }
        let piece = bytes_of(alloc, row.1)?;
        let came = offer(alloc, &mut one, &piece)?;
        if !is_as_told(alloc, row, came, one.rest())? {
            return Ok(Some(place));
        }
        let came = feed_and_ask(alloc, &mut two, &piece)?;
        if !is_as_told(alloc, row, came, two.rest())? {
            return Ok(Some(place));
        }
    }
    Ok(None)
}

#[test]
fn pieces_are_taken_and_frames_given_out(rt: HostRuntime) -> Result<(), Fail> {
    assert_eq!(rt; first_wrong_offer(rt.alloc(), &OFFERS)?, None);
    Ok(())
}

/// What a Set is answered that made the first change of term 4.
fn set_done(alloc: Global) -> Reply
    ensures { IsReply result }
{
    small_replies();
    Reply {
        opcode: 0x01,
        opaque: 1,
        status: Status::SUCCESS,
        cas: 1,
        json: false,
        flags: None,
        token: Some((4, 1)),
        extras: Bytes::new(alloc),
        key: None,
        value: Bytes::new(alloc),
    }
}

/// What a GetK of `a` in collection 8 is answered, whose document has the flags 42 and the value
/// `hi`, which is told as JSON.
fn get_done(alloc: Global) -> Result<Reply, NoMemory>
    ensures { IfOk result IsReply }
{
    small_replies();
    let key = Bytes::from_slice(alloc, b"a")?;
    let value = Bytes::from_slice(alloc, b"hi")?;
    Ok(Reply {
        opcode: 0x0c,
        opaque: 1,
        status: Status::SUCCESS,
        cas: 5,
        json: true,
        flags: Some(42),
        token: None,
        extras: Bytes::new(alloc),
        key: Some(DocKey { collection: 8, key }),
        value,
    })
}

/// A Hello and its reply, what a Set and a GetK are answered from then on, and the collection and
/// the length of the name that a Get's key 08 61 is read as.
type Greeting<'a> = (&'a str, &'a str, &'a str, &'a str, (usize, usize));

/// Hellos to one session, one after the other; the third and the fifth have an odd length.
const GREETINGS: [Greeting<'static>; 8] = [
    (
        "80 1f 0000 00 00 0000 00000000 00000000 0000000000000000",
        "81 1f 0000 00 00 0000 00000000 00000000 0000000000000000",
        SET_DONE,
        GET_DONE,
        (0, 2),
    ),
    (
        "80 1f 0003 00 00 0000 0000000b 00000000 0000000000000000 73646b 0003 0004 000b 0012",
        "81 1f 0000 00 00 0000 00000006 00000000 0000000000000000 0004 000b 0012",
        SET_DONE_WITH_TOKEN,
        GET_DONE_IN_8_AS_JSON,
        (8, 1),
    ),
    (
        "80 1f 0000 00 00 0000 00000003 00000000 0000000000000000 0006 00",
        "81 1f 0000 00 00 0004 00000000 00000000 0000000000000000",
        SET_DONE_WITH_TOKEN,
        GET_DONE_IN_8_AS_JSON,
        (8, 1),
    ),
    (
        "80 1f 0000 00 00 0000 00000000 00000000 0000000000000000",
        "81 1f 0000 00 00 0000 00000000 00000000 0000000000000000",
        SET_DONE,
        GET_DONE,
        (0, 2),
    ),
    (
        "80 1f 0000 00 00 0000 00000003 00000000 0000000000000000 0006 00",
        "81 1f 0000 00 00 0004 00000000 00000000 0000000000000000",
        SET_DONE,
        GET_DONE,
        (0, 2),
    ),
    (
        "80 1f 0000 00 00 0000 00000006 00000000 0000000000000000 0010 0004 0010",
        "81 1f 0000 00 00 0000 00000004 00000000 0000000000000000 0010 0004",
        SET_DONE_WITH_TOKEN,
        GET_DONE,
        (0, 2),
    ),
    (
        "80 1f 0000 00 00 0000 00000002 00000000 0000000000000000 000b",
        "81 1f 0000 00 00 0000 00000002 00000000 0000000000000000 000b",
        SET_DONE,
        GET_DONE_AS_JSON,
        (0, 2),
    ),
    (
        "80 1f 0000 00 00 0000 0000000a 00000000 0000000000000000 0006 0007 0012 0011 000a",
        "81 1f 0000 00 00 0000 00000008 00000000 0000000000000000 0006 0007 0012 0011",
        SET_DONE,
        GET_DONE_IN_8,
        (8, 1),
    ),
];

/// What a session sends of a reply to a request that it passed on.
fn answered(alloc: Global, session: &Session, reply: &Reply) -> Result<Vec<u8>, NoMemory>
    requires { IsReply reply.now }
{
    let mut out = Vec::new(alloc);
    session.answer(reply, &mut out)?;
    Ok(out)
}

/// Whether a session changes at a Hello as it should.
fn is_greeted(alloc: Global, session: &mut Session, row: &Greeting<'_>) -> Result<bool, Fail> {
    let hello = bytes_of(alloc, row.0)?;
    let (_, _, told) = offer(alloc, session, &hello)?;
    let set = answered(alloc, session, &set_done(alloc))?;
    let get = answered(alloc, session, &get_done(alloc)?)?;
    let piece = bytes_of(alloc, GET_BEHIND_AN_8)?;
    let (_, next, _) = offer(alloc, session, &piece)?;
    Ok(
        told == bytes_of(alloc, row.1)?
            && set == bytes_of(alloc, row.2)?
            && get == bytes_of(alloc, row.3)?
            && next == ("request", row.4.0, row.4.1),
    )
}

/// The place of the first Hello that changes something else.
fn first_wrong_greeting(alloc: Global, rows: &[Greeting<'_>]) -> Result<Option<usize>, Fail> {
    let mut session = Session::new(alloc);
    for (place, row) in rows.iter().enumerate() {
        if !is_greeted(alloc, &mut session, row)? {
            return Ok(Some(place));
        }
    }
    Ok(None)
}

#[test]
fn a_hello_decides_how_keys_and_replies_are_spelled(rt: HostRuntime) -> Result<(), Fail> {
    assert_eq!(rt; first_wrong_greeting(rt.alloc(), &GREETINGS)?, None);
    Ok(())
}

/// Sets without their values, how many bytes these have, and whether memory is kept behind them.
const LONG_FRAMES: [(&str, usize, bool); 2] = [
    (
        "80 01 0001 08 00 0000 0000000a 00000001 0000000000000000 0000000000000000 61",
        1,
        true,
    ),
    (
        "80 01 0001 08 00 0000 00011179 00000001 0000000000000000 0000000000000000 61",
        70_000,
        false,
    ),
];

/// The place of the first frame for which too little memory is taken, or is kept otherwise.
fn first_wrong_length(alloc: Global, rows: &[(&str, usize, bool)]) -> Result<Option<usize>, Fail> {
    let mut session = Session::new(alloc);
    for (place, row) in rows.iter().enumerate() {
        let front = bytes_of(alloc, row.0)?;
        let (_, next, _) = offer(alloc, &mut session, &front)?;
        let taken = session.reserved();
        let value = vec![in alloc; b'v'; row.1]?;
        let (_, last, _) = offer(alloc, &mut session, &value)?;
        let is_kept = session.reserved() > 0;
        if next != ("more", row.1, 0) || last.0 != "request" || taken <= row.1 || is_kept != row.2 {
            return Ok(Some(place));
        }
    }
    Ok(None)
}

#[test]
fn memory_for_a_long_frame_is_given_back(rt: HostRuntime) -> Result<(), Fail> {
    assert_eq!(rt; first_wrong_length(rt.alloc(), &LONG_FRAMES)?, None);
    Ok(())
}
