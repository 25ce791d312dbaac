//! What no clause shows: what a vbucket answers to rows of requests.

use crate::asking::{Asked, FRUIT, NO_FRUIT, ask, opened_first, plain, within};
use doc_model::Refused;
use kv_request::Reply;
use kv_request::opcode::{
    ADD, COLLECTION_ID, DELETE, GET, GET_MANIFEST, GETQ, INCREMENT, SCOPE_ID, SET, SET_MANIFEST,
    SETQ, TOUCH,
};
use std::alloc::Global;
use std::test::Fail;

// The flags 2a and no expiry, or the first second of 1970 as the expiry.
const FLAGS: [u8; 8] = [0, 0, 0, 0x2a, 0, 0, 0, 0];

const EXPIRY_ONE: [u8; 8] = [0, 0, 0, 0x2a, 0, 0, 0, 1];

// Another expiry, of a Touch.
const EXPIRY_NINE: [u8; 4] = [0, 0, 0, 9];

// Count by 1, and begin with 5.
const ONE_FROM_FIVE: [u8; 20] = [0, 0, 0, 0, 0, 0, 0, 1, 0, 0, 0, 0, 0, 0, 0, 5, 0, 0, 0, 0];

// The manifest of a vbucket without a history.
const FIRST: &str =
    "{\"uid\":\"0\",\"scopes\":[{\"name\":\"_default\",\"uid\":\"0\",\"collections\":[{\"name\":\"_default\",\"uid\":\"0\"}]}]}";

// The other collection with a greatest lifetime of a second.
const SHORT_FRUIT: &str =
    "{\"uid\":\"1\",\"scopes\":[{\"name\":\"_default\",\"uid\":\"0\",\"collections\":[{\"name\":\"fruit\",\"uid\":\"8\",\"maxTTL\":1}]}]}";

// A request on the manifest.
fn managing<'a>(opcode: u8, key: &'a [u8], value: &'a [u8]) -> Asked<'a> {
    within(plain(opcode, b"", value), key)
}

// A request that this text takes the place of the manifest.
fn replacing<'a>(text: &'a str) -> Asked<'a> {
    managing(SET_MANIFEST, b"", text.as_bytes())
}

fn get<'a>() -> Asked<'a> {
    plain(GET, b"", b"")
}

fn delete<'a>() -> Asked<'a> {
    plain(DELETE, b"", b"")
}

fn set<'a>() -> Asked<'a> {
    plain(SET, &FLAGS, b"hi")
}

// The place of the first request, at its moment, that isn't answered with its status, over an empty disk.
fn first_other_status(
    alloc: Global,
    rows: &[(Asked<'_>, u64, u16)],
) -> Result<Option<usize>, Refused> {
    let mut vb = opened_first(alloc)?;
    for (place, (asked, now, status)) in rows.iter().enumerate() {
        let reply = ask(alloc, &mut vb, *asked, *now)?;
        if reply.status.code != *status {
            return Ok(Some(place));
        }
    }
    Ok(None)
}

// The position that a reply tells, 0 where it tells none, or 1,000 in another term.
fn position_told(reply: &Reply) -> u64 {
    match reply.token {
        None => 0,
        Some((4, position)) => position,
        Some(_) => 1_000,
    }
}

// The place of the first request at this moment that isn't answered with its CAS and position.
fn first_other_change(
    alloc: Global,
    now: u64,
    rows: &[(Asked<'_>, u64, u64)],
) -> Result<Option<usize>, Refused> {
    let mut vb = opened_first(alloc)?;
    for (place, (asked, cas, position)) in rows.iter().enumerate() {
        let reply = ask(alloc, &mut vb, *asked, now)?;
        if reply.cas != *cas || position_told(&reply) != *position {
            return Ok(Some(place));
        }
    }
    Ok(None)
}

// The place of the first request that isn't answered with its extras and value, or with another opcode or opaque.
fn first_other_body(
    alloc: Global,
    rows: &[(Asked<'_>, &[u8], &[u8])],
) -> Result<Option<usize>, Refused> {
    let mut vb = opened_first(alloc)?;
    for (place, (asked, extras, value)) in rows.iter().enumerate() {
        let reply = ask(alloc, &mut vb, *asked, 0)?;
        if reply.opcode != asked.opcode || reply.opaque != 7 {
            return Ok(Some(place));
        }
        if reply.extras.as_slice() != *extras || reply.value.as_slice() != *value {
            return Ok(Some(place));
        }
    }
    Ok(None)
}

fn at_level<'a>(level: u8, vbucket: u16) -> Asked<'a> {
    Asked {
        level: Some(level),
        vbucket,
        ..set()
    }
}

fn elsewhere<'a>() -> Asked<'a> {
    Asked {
        vbucket: 1,
        ..set()
    }
}

fn with_cas<'a>(cas: u64) -> Asked<'a> {
    Asked { cas, ..set() }
}

#[test]
fn changes_draw_a_cas_and_take_a_position(rt: HostRuntime) -> Result<(), Fail> {
    let rows = [
        (get(), 0, 0),
        (set(), 1, 1),
        (get(), 1, 0),
        (delete(), 2, 2),
        (delete(), 0, 0),
        (set(), 3, 3),
        (plain(TOUCH, &EXPIRY_NINE, b""), 4, 0),
        (set(), 5, 5),
    ];
    assert_eq!(rt; first_other_change(rt.alloc(), 0, &rows)?, None);
    Ok(())
}

// 5000 milliseconds times 2^20 is 138800000 in hexadecimal. A refused request's moment counts.
#[test]
fn a_cas_begins_at_the_moment(rt: HostRuntime) -> Result<(), Fail> {
    let rows = [
        (get(), 0, 0),
        (elsewhere(), 0, 0),
        (at_level(1, 0), 0, 0),
        (set(), 0x0000_0001_3880_0000, 1),
        (set(), 0x0000_0001_3880_0001, 2),
    ];
    assert_eq!(rt; first_other_change(rt.alloc(), 5_000, &rows)?, None);
    Ok(())
}

#[test]
fn values_and_counters_are_told(rt: HostRuntime) -> Result<(), Fail> {
    let count = plain(INCREMENT, &ONE_FROM_FIVE, b"");
    let rows = [
        (plain(SETQ, &FLAGS, b"hi"), b"".as_slice(), b"".as_slice()),
        (plain(GETQ, b"", b""), b"".as_slice(), b"hi".as_slice()),
        (delete(), b"".as_slice(), b"".as_slice()),
        (count, b"".as_slice(), b"\0\0\0\0\0\0\0\x05".as_slice()),
        (count, b"".as_slice(), b"\0\0\0\0\0\0\0\x06".as_slice()),
    ];
    assert_eq!(rt; first_other_body(rt.alloc(), &rows)?, None);
    Ok(())
}

#[test]
fn a_document_is_gone_once_its_expiry_has_passed(rt: HostRuntime) -> Result<(), Fail> {
    let add = plain(ADD, &FLAGS, b"hi");
    let rows = [
        (plain(SET, &EXPIRY_ONE, b"hi"), 0, 0x0000),
        (get(), 999, 0x0000),
        (add, 999, 0x0002),
        (get(), 1_000, 0x0001),
        // what counts is the moment of the request, and not the greatest
        (delete(), 1_000, 0x0001),
        (get(), 999, 0x0000),
        (add, 1_000, 0x0000),
        (get(), 1_000, 0x0000),
    ];
    assert_eq!(rt; first_other_status(rt.alloc(), &rows)?, None);
    Ok(())
}

#[test]
fn levels_vbuckets_and_a_cas_are_refused(rt: HostRuntime) -> Result<(), Fail> {
    let rows = [
        (at_level(1, 0), 0, 0x0083),
        (elsewhere(), 0, 0x0007),
        (at_level(1, 1), 0, 0x0083),
        (with_cas(1), 0, 0x0001),
        (set(), 0, 0x0000),
        (with_cas(9), 0, 0x0002),
        (with_cas(1), 0, 0x0000),
    ];
    assert_eq!(rt; first_other_status(rt.alloc(), &rows)?, None);
    Ok(())
}

#[test]
fn a_manifest_makes_a_collection_and_another_drops_it(rt: HostRuntime) -> Result<(), Fail> {
    let rows = [
        (within(set(), b"\x08a"), 0, 0x0088),
        (replacing(FRUIT), 0, 0x0000),
        (within(set(), b"\x08a"), 0, 0x0000),
        (within(get(), b"\x08a"), 0, 0x0000),
        (within(get(), b"\x09a"), 0, 0x0088),
        (replacing(FIRST), 0, 0x008b),
        (replacing("{"), 0, 0x0004),
        (replacing(NO_FRUIT), 0, 0x0000),
        (within(get(), b"\x08a"), 0, 0x0088),
    ];
    assert_eq!(rt; first_other_status(rt.alloc(), &rows)?, None);
    Ok(())
}

#[test]
fn a_manifest_takes_a_position_where_it_changes_something(rt: HostRuntime) -> Result<(), Fail> {
    let rows = [
        (replacing(FRUIT), 0, 0),
        (replacing(FRUIT), 0, 0),
        (set(), 1, 2),
    ];
    assert_eq!(rt; first_other_change(rt.alloc(), 0, &rows)?, None);
    Ok(())
}

#[test]
fn the_manifest_and_ids_are_told(rt: HostRuntime) -> Result<(), Fail> {
    let rows = [
        (
            managing(GET_MANIFEST, b"", b""),
            b"".as_slice(),
            FIRST.as_bytes(),
        ),
        (replacing(FRUIT), b"".as_slice(), b"".as_slice()),
        (
            managing(GET_MANIFEST, b"", b""),
            b"".as_slice(),
            FRUIT.as_bytes(),
        ),
        (
            managing(COLLECTION_ID, b"_default.fruit", b""),
            b"\0\0\0\0\0\0\0\x01\0\0\0\x08".as_slice(),
            b"".as_slice(),
        ),
        (
            managing(SCOPE_ID, b"_default", b""),
            b"\0\0\0\0\0\0\0\x01\0\0\0\0".as_slice(),
            b"".as_slice(),
        ),
    ];
    assert_eq!(rt; first_other_body(rt.alloc(), &rows)?, None);
    Ok(())
}

#[test]
fn a_lifetime_is_cut_to_the_greatest_of_its_collection(rt: HostRuntime) -> Result<(), Fail> {
    let rows = [
        (replacing(SHORT_FRUIT), 0, 0x0000),
        (within(set(), b"\x08a"), 0, 0x0000),
        (within(get(), b"\x08a"), 999, 0x0000),
        (within(get(), b"\x08a"), 1_000, 0x0001),
    ];
    assert_eq!(rt; first_other_status(rt.alloc(), &rows)?, None);
    Ok(())
}
