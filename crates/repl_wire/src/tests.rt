//! What no clause says: that the bytes of the definitions are those that are meant.
use crate::{WireStep, decode_link, encode_link, head};
use hex_rows::bytes_of;
use kv_edge::NoMemory;
use replica_core::MessageHead;
use std::alloc::Global;
use std::test::Fail;

// What is told of a row.

const WRITTEN: u16 = 0;

const MORE: u16 = 1;

const BAD: u16 = 2;

const NO_MEMORY: u16 = 3;

const OTHER: u16 = 4;

const NOT_HEX: u16 = 5;

/// The text of the first manifest and the counts of dropped ids behind it, with the length before it.
const FIRST_STATE: &str =
    "00000062 7b22756964223a2230222c2273636f706573223a5b7b226e616d65223a225f64656661756c74222c22756964223a2230222c\
     22636f6c6c656374696f6e73223a5b7b226e616d65223a225f64656661756c74222c22756964223a2230227d5d7d5d7d 00000000 00000000";

/// Whether what bytes begin with is written by the same bytes, and how many these are; or how many are missing, or where
/// they are wrong.
fn told_of(alloc: Global, bytes: &[u8]) -> (u16, usize) {
    match decode_link(alloc, bytes) {
        WireStep::Whole(sent, used) => {
            let mut out = Vec::new(alloc);
            match encode_link(&sent, &mut out) {
                Ok(()) => {
                    if bytes.starts_with(out.as_slice()) && out.len() == used {
                        (WRITTEN, used)
                    } else {
                        (OTHER, 0)
                    }
                }
                Err(NoMemory) => (NO_MEMORY, 0),
            }
        }
        WireStep::More(missing) => (MORE, missing),
        WireStep::Bad(place) => (BAD, place),
        WireStep::NoMemory => (NO_MEMORY, 0),
    }
}

/// What is told of a row.
fn told(alloc: Global, row: &str) -> (u16, usize) {
    match bytes_of(alloc, row) {
        Ok(bytes) => told_of(alloc, bytes.as_slice()),
        Err(_) => (NOT_HEX, 0),
    }
}

/// The number of the first row of which something else is told.
fn first_wrong(alloc: Global, rows: &[(&str, (u16, usize))]) -> Option<usize> {
    let mut number = 0;
    for (row, wanted) in rows {
        if told(alloc, row) != *wanted {
            return Some(number);
        }
        number = number.saturating_add(1);
    }
    None
}

/// What is told of two rows with the state of the first manifest between them.
fn told_around(alloc: Global, front: &str, behind: &str) -> (u16, usize) {
    let mut bytes = Vec::new(alloc);
    for row in &[front, FIRST_STATE, behind] {
        match bytes_of(alloc, row) {
            Ok(piece) => match bytes.extend_from_slice(piece.as_slice()) {
                Ok(()) => {}
                Err(_) => return (NO_MEMORY, 0),
            },
            Err(_) => return (NOT_HEX, 0),
        }
    }
    told_of(alloc, bytes.as_slice())
}

#[test]
fn messages_are_read_and_written(rt: HostRuntime) {
    let rows: &[(&str, (u16, usize))] = &[
        // an Ack of two entries in memory at the term 4
        (
            "70 02 01 00 0000 0000 00000018 0000000000000004 0000000000000002 0000000000000000",
            (WRITTEN, 36),
        ),
        // the same, and another message begins behind it
        (
            "70 02 01 00 0000 0000 00000018 0000000000000004 0000000000000002 0000000000000000 70 02",
            (WRITTEN, 36),
        ),
        // a Commit of 1 at the position 2, on the last vbucket
        (
            "70 01 00 03 ffff 0000 00000019 0000000000000004 0000000000000002 04 0000000000000001",
            (WRITTEN, 37),
        ),
        // the deletion of `a` with the CAS 9, at the greatest term and position
        (
            "70 01 03 02 0001 0000 0000001c 0000ffffffffffff 000003ffffffffff 02 02 00 61 0000000000000009",
            (WRITTEN, 40),
        ),
        // a Rejoin of a copy that has accepted no term
        (
            "70 03 02 00 0000 0000 00000020 0000000000000005 0000000000000000 0000000000000000 ffffffffffffffff",
            (WRITTEN, 44),
        ),
        // a Rejoin with a log of the term 4, at its second opening
        (
            "70 03 02 00 0000 0000 00000020 0000000000000005 0000000000000004 000003ffffffffff 0000000000000002",
            (WRITTEN, 44),
        ),
    ];
    assert_eq!(rt; first_wrong(rt.alloc(), rows), None);
}

#[test]
fn contents_are_read_and_written(rt: HostRuntime) {
    // one item, made at 3, and one change that waits from 5
    let front =
        "70 04 00 01 0000 0000 000000bf 0000000000000004 0000000000000002 0000000000000005 0000000000000009";
    let behind = "00000001 020061 0000000000000003 02 0000000000000009 \
         00000001 0000000000000005 02 020062 02 0000000000000008";
    assert_eq!(rt; told_around(rt.alloc(), front, behind), (WRITTEN, 203));
    // both were made by the entry at 3
    let twice = "00000001 020061 0000000000000003 02 0000000000000009 \
         00000001 0000000000000003 02 020062 02 0000000000000008";
    assert_eq!(rt; told_around(rt.alloc(), front, twice), (BAD, 28));
    // the item was made behind the log
    let later = "00000001 020061 0000000000000006 02 0000000000000009 \
         00000001 0000000000000005 02 020062 02 0000000000000008";
    assert_eq!(rt; told_around(rt.alloc(), front, later), (BAD, 161));
}

#[test]
fn a_wrong_head_is_told_at_its_first_wrong_field(rt: HostRuntime) {
    let rows: &[(&str, (u16, usize))] = &[
        ("71", (BAD, 0)),
        ("00 09", (BAD, 0)),
        ("70 00", (BAD, 1)),
        ("70 05", (BAD, 1)),
        ("70 09", (BAD, 1)),
        (
            "70 09 01 00 0000 0000 00000018 0000000000000004 0000000000000002 0000000000000000",
            (BAD, 1),
        ),
        ("70 02 04", (BAD, 2)),
        ("70 02 01 04", (BAD, 3)),
        ("70 02 01 01", (BAD, 3)),
        ("70 02 01 00 0000 0001", (BAD, 6)),
        ("70 02 01 00 0000 0100", (BAD, 6)),
        ("70 02 01 00 0000 0000 00000017", (BAD, 8)),
        ("70 02 01 00 0000 0000 00000019", (BAD, 8)),
        ("70 03 01 00 0000 0000 00000018", (BAD, 8)),
        ("70 01 01 00 0000 0000 0000000f", (BAD, 8)),
        ("70 04 01 00 0000 0000 0000000f", (BAD, 8)),
        ("70 01 01 00 0000 0000 20000001", (BAD, 8)),
        ("70 04 01 00 0000 0000 ffffffff", (BAD, 8)),
    ];
    assert_eq!(rt; first_wrong(rt.alloc(), rows), None);
}

#[test]
fn what_is_missing_is_told(rt: HostRuntime) {
    let rows: &[(&str, (u16, usize))] = &[
        ("", (MORE, 12)),
        ("70", (MORE, 11)),
        ("70 02 01 00 00", (MORE, 7)),
        ("70 02 01 00 0000 0000 000000", (MORE, 1)),
        ("70 02 01 00 0000 0000 00000018", (MORE, 24)),
        ("70 01 01 00 0000 0000 20000000", (MORE, 536_870_912)),
        ("70 04 01 00 0000 0000 20000000 00", (MORE, 536_870_911)),
        // a wrong term is told once the body is whole
        (
            "70 02 01 00 0000 0000 00000018 0000000000000003 0000000000000002 00000000000000",
            (MORE, 1),
        ),
    ];
    assert_eq!(rt; first_wrong(rt.alloc(), rows), None);
}

#[test]
fn a_wrong_body_is_told_at_its_first_wrong_field(rt: HostRuntime) {
    let rows: &[(&str, (u16, usize))] = &[
        // an Ack: no term, then lengths of 2^42
        (
            "70 02 01 00 0000 0000 00000018 0000000000000003 0000000000000002 0000000000000000",
            (BAD, 12),
        ),
        (
            "70 02 01 00 0000 0000 00000018 0001000000000000 0000000000000002 0000000000000000",
            (BAD, 12),
        ),
        (
            "70 02 01 00 0000 0000 00000018 0000000000000004 0000040000000000 0000000000000000",
            (BAD, 20),
        ),
        (
            "70 02 01 00 0000 0000 00000018 0000000000000004 0000000000000002 0000040000000000",
            (BAD, 28),
        ),
        // a Rejoin: no accepted term, then a length of 2^42
        (
            "70 03 02 00 0000 0000 00000020 0000000000000005 0000000000000001 0000000000000000 0000000000000001",
            (BAD, 20),
        ),
        (
            "70 03 02 00 0000 0000 00000020 0000000000000005 0000000000000003 0000000000000000 0000000000000001",
            (BAD, 20),
        ),
        (
            "70 03 02 00 0000 0000 00000020 0000000000000005 0001000000000000 0000000000000000 0000000000000001",
            (BAD, 20),
        ),
        (
            "70 03 02 00 0000 0000 00000020 0000000000000005 0000000000000004 0000040000000000 0000000000000001",
            (BAD, 28),
        ),
        // an Entry: positions 0 and 2^42, then no entry, one of no kind, one that ends early, one with a byte more
        (
            "70 01 00 01 0000 0000 00000019 0000000000000004 0000000000000000 04 0000000000000001",
            (BAD, 20),
        ),
        (
            "70 01 00 01 0000 0000 00000019 0000000000000004 0000040000000000 04 0000000000000001",
            (BAD, 20),
        ),
        (
            "70 01 00 01 0000 0000 00000010 0000000000000004 0000000000000001",
            (BAD, 28),
        ),
        (
            "70 01 00 01 0000 0000 00000019 0000000000000004 0000000000000002 07 0000000000000001",
            (BAD, 28),
        ),
        (
            "70 01 00 01 0000 0000 00000018 0000000000000004 0000000000000002 04 00000000000001",
            (BAD, 29),
        ),
        (
            "70 01 00 01 0000 0000 0000001a 0000000000000004 0000000000000002 04 0000000000000001 00",
            (BAD, 37),
        ),
        // an Adopt: no term, no content, and a content of 2^42 entries
        (
            "70 04 00 01 0000 0000 00000010 0000000000000000 0000000000000001",
            (BAD, 12),
        ),
        (
            "70 04 00 01 0000 0000 00000010 0000000000000004 0000000000000001",
            (BAD, 28),
        ),
        (
            "70 04 00 01 0000 0000 00000018 0000000000000004 0000000000000001 0000040000000000",
            (BAD, 28),
        ),
    ];
    assert_eq!(rt; first_wrong(rt.alloc(), rows), None);
}

/// The head of the message that a row is.
fn head_in(alloc: Global, row: &str) -> Result<MessageHead, Fail> {
    let bytes = bytes_of(alloc, row)?;
    match decode_link(alloc, bytes.as_slice()) {
        WireStep::Whole(sent, _) => Ok(head(&sent)),
        _ => Err("the row is no message")?,
    }
}

#[test]
fn heads_have_the_numbers_of_their_kind(rt: HostRuntime) -> Result<(), Fail> {
    let ack = "70 02 01 00 0000 0000 00000018 0000000000000004 0000000000000002 0000000000000001";
    let told = head_in(rt.alloc(), ack)?;
    assert_eq!(rt; (told.kind, told.from, told.term), (2, 1, 4));
    assert_eq!(rt; (told.first, told.second, told.third), (2, 1, 0));
    let rejoin =
        "70 03 02 00 0000 0000 00000020 0000000000000005 0000000000000004 0000000000000007 0000000000000009";
    let told = head_in(rt.alloc(), rejoin)?;
    assert_eq!(rt; (told.kind, told.from, told.term), (3, 2, 5));
    assert_eq!(rt; (told.first, told.second, told.third), (4, 7, 9));
    let entry =
        "70 01 00 01 0000 0000 00000019 0000000000000004 0000000000000002 04 0000000000000001";
    let told = head_in(rt.alloc(), entry)?;
    assert_eq!(rt; (told.kind, told.from, told.term), (1, 0, 4));
    assert_eq!(rt; (told.first, told.second, told.third), (2, 0, 0));
    Ok(())
}
