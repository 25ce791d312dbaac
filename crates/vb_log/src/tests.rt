//! What no clause says: that the bytes of the definitions are those that are meant.
use crate::{
    ContentFault, entry_into, item_into, pending_into, read_entry, read_item, read_pending,
};
use hex_rows::bytes_of;
use kv_edge::NoMemory;
use std::alloc::Global;

// What a row is read as.

const ENTRY: u16 = 0;

const PREPARES: u16 = 1;

const ITEM: u16 = 2;

// What is told of it.

const WRITTEN: u16 = 0;

const BAD: u16 = 1;

const NO_MEMORY: u16 = 2;

const OTHER: u16 = 3;

const NOT_HEX: u16 = 4;

/// Reads the entry whose bytes these are, and appends its bytes. Tells how many bytes were read.
fn entry_again(alloc: Global, bytes: &[u8], out: &mut Vec<u8>) -> Result<usize, ContentFault> {
    let entry = read_entry(alloc, bytes)?;
    match entry_into(&entry, out) {
        Ok(()) => Ok(bytes.len()),
        Err(NoMemory) => Err(ContentFault::NoMemory),
    }
}

/// Reads the changes that wait at the front, and appends their bytes. Tells how many bytes were read.
fn prepares_again(alloc: Global, bytes: &[u8], out: &mut Vec<u8>) -> Result<usize, ContentFault> {
    let (prepares, used) = read_pending(alloc, bytes)?;
    match pending_into(prepares.as_slice(), out) {
        Ok(()) => Ok(used),
        Err(NoMemory) => Err(ContentFault::NoMemory),
    }
}

/// Reads the item at the front, and appends its bytes. Tells how many bytes were read.
fn item_again(alloc: Global, bytes: &[u8], out: &mut Vec<u8>) -> Result<usize, ContentFault> {
    let (item, used) = read_item(alloc, bytes)?;
    match item_into(&item, out) {
        Ok(()) => Ok(used),
        Err(NoMemory) => Err(ContentFault::NoMemory),
    }
}

/// Whether what a row begins with is written by the same bytes, and how many these are, or where the
/// row breaks the layout.
fn told(alloc: Global, kind: u16, row: &str) -> (u16, usize) {
    let bytes = match bytes_of(alloc, row) {
        Ok(bytes) => bytes,
        Err(_) => return (NOT_HEX, 0),
    };
    let mut out = Vec::new(alloc);
    let read = match kind {
        ENTRY => entry_again(alloc, bytes.as_slice(), &mut out),
        ITEM => item_again(alloc, bytes.as_slice(), &mut out),
        _ => prepares_again(alloc, bytes.as_slice(), &mut out),
    };
    match read {
        Ok(used) => {
            if bytes.as_slice().starts_with(out.as_slice()) && out.len() == used {
                (WRITTEN, used)
            } else {
                (OTHER, 0)
            }
        }
        Err(ContentFault::Bad(place)) => (BAD, place),
        Err(ContentFault::NoMemory) => (NO_MEMORY, 0),
    }
}

/// The number of the first row of which something else is told.
fn first_wrong(alloc: Global, kind: u16, rows: &[(&str, (u16, usize))]) -> Option<usize> {
    let mut number = 0;
    for (row, wanted) in rows {
        if told(alloc, kind, row) != *wanted {
            return Some(number);
        }
        number = number.saturating_add(1);
    }
    None
}

#[test]
fn entries_are_read_and_written(rt: HostRuntime) {
    let rows: &[(&str, (u16, usize))] = &[
        (
            "01 020061 0000000000000001 00000002 00000003 01 \
             0000000d 00000009 00000005 5f7300 3100 00000002 7b7d",
            (WRITTEN, 44),
        ),
        ("02 05b9646b6579 7fffffffffffffff", (WRITTEN, 15)),
        (
            "03 01 020062 01 0000000000000004 00000000 ffffffff 00 00000000 00000001 78",
            (WRITTEN, 32),
        ),
        ("03 03 020863 02 0000000000000005", (WRITTEN, 14)),
        ("04 0000000000000001", (WRITTEN, 9)),
        ("05 000003ffffffffff", (WRITTEN, 9)),
        (
            "06 00000017 7b22756964223a2231222c2273636f706573223a5b5d7d",
            (WRITTEN, 28),
        ),
    ];
    assert_eq!(rt; first_wrong(rt.alloc(), ENTRY, rows), None);
}

#[test]
fn what_is_no_entry_breaks_the_layout_at_its_place(rt: HostRuntime) {
    let rows: &[(&str, (u16, usize))] = &[
        ("", (BAD, 0)),
        ("00", (BAD, 0)),
        ("07 0000000000000001", (BAD, 0)),
        // a key
        ("02", (BAD, 1)),
        ("02 fc 00", (BAD, 1)),
        ("02 00 7fffffffffffffff", (BAD, 2)),
        ("02 03 0061", (BAD, 2)),
        ("02 01 00 0000000000000001", (BAD, 2)),
        ("02 03 800061 0000000000000001", (BAD, 2)),
        ("02 02 8061 0000000000000001", (BAD, 2)),
        // a CAS, and what stands behind it
        ("02 020061 00000000000000", (BAD, 4)),
        ("02 020061 8000000000000000", (BAD, 4)),
        ("02 020061 0000000000000001 00", (BAD, 12)),
        // a document
        ("01 020061 8000000000000000", (BAD, 4)),
        ("01 020061 0000000000000001 000000", (BAD, 12)),
        ("01 020061 0000000000000001 00000000 000000", (BAD, 16)),
        ("01 020061 0000000000000001 00000000 00000000 02", (BAD, 20)),
        (
            "01 020061 0000000000000001 00000000 00000000 00 00100001",
            (BAD, 21),
        ),
        (
            "01 020061 0000000000000001 00000000 00000000 00 00000001",
            (BAD, 25),
        ),
        (
            "01 020061 0000000000000001 00000000 00000000 00 00000004 00000000 01400001",
            (BAD, 25),
        ),
        (
            "01 020061 0000000000000001 00000000 00000000 00 00000000 01400001",
            (BAD, 25),
        ),
        (
            "01 020061 0000000000000001 00000000 00000000 00 00000000 00000002 7b",
            (BAD, 29),
        ),
        (
            "01 020061 0000000000000001 00000000 00000000 00 00000000 00000001 7b7d",
            (BAD, 30),
        ),
        // a level, and what was prepared
        ("03 00 020062 02 0000000000000001", (BAD, 1)),
        ("03 04 020062 02 0000000000000001", (BAD, 1)),
        ("03 01 020062 03 0000000000000001", (BAD, 5)),
        ("03 01 020062 01 8000000000000000", (BAD, 6)),
        ("03 01 020062 02 8000000000000000", (BAD, 6)),
        ("03 01 020062 02 0000000000000001 00", (BAD, 14)),
        // a position
        ("04 0000000000000000", (BAD, 1)),
        ("05 0000040000000000", (BAD, 1)),
        ("04 0000000000000001 04", (BAD, 9)),
        // a manifest
        ("06 00100001 7b7d", (BAD, 1)),
        ("06 00000003 7b7d", (BAD, 5)),
        ("06 00000002 7b7d", (BAD, 5)),
        (
            "06 00000017 7b22756964223a2231222c2273636f706573223a5b5d7d 0a",
            (BAD, 28),
        ),
    ];
    assert_eq!(rt; first_wrong(rt.alloc(), ENTRY, rows), None);
}

#[test]
fn prepares_are_read_and_written(rt: HostRuntime) {
    let rows: &[(&str, (u16, usize))] = &[
        ("00000000", (WRITTEN, 4)),
        ("00000000 ff", (WRITTEN, 4)),
        (
            "00000001 0000000000000005 02 020062 02 0000000000000009",
            (WRITTEN, 25),
        ),
        (
            "00000001 000003ffffffffff 03 020062 02 7fffffffffffffff 00",
            (WRITTEN, 25),
        ),
        (
            "00000002 0000000000000001 01 020062 02 0000000000000009 \
             0000000000000002 01 020061 01 0000000000000004 00000000 00000000 00 00000000 00000001 78",
            (WRITTEN, 64),
        ),
    ];
    assert_eq!(rt; first_wrong(rt.alloc(), PREPARES, rows), None);
}

#[test]
fn what_are_no_prepares_breaks_the_layout_at_its_place(rt: HostRuntime) {
    let rows: &[(&str, (u16, usize))] = &[
        ("", (BAD, 0)),
        ("000000", (BAD, 0)),
        // a count of which nothing, or too little, follows
        ("00000001", (BAD, 4)),
        ("ffffffff", (BAD, 4)),
        ("00000001 00000000000000", (BAD, 4)),
        (
            "ffffffff 0000000000000005 02 020062 02 0000000000000009",
            (BAD, 25),
        ),
        // a position
        (
            "00000001 0000000000000000 02 020062 02 0000000000000009",
            (BAD, 4),
        ),
        (
            "00000001 0000040000000000 02 020062 02 0000000000000009",
            (BAD, 4),
        ),
        (
            "00000002 0000000000000005 02 020062 02 0000000000000009 \
             0000000000000005 02 020061 02 0000000000000009",
            (BAD, 25),
        ),
        (
            "00000002 0000000000000005 02 020062 02 0000000000000009 \
             0000000000000004 02 020061 02 0000000000000009",
            (BAD, 25),
        ),
        // a level
        (
            "00000001 0000000000000005 00 020062 02 0000000000000009",
            (BAD, 12),
        ),
        (
            "00000001 0000000000000005 04 020062 02 0000000000000009",
            (BAD, 12),
        ),
        // a key
        (
            "00000001 0000000000000005 02 fc0062 02 0000000000000009",
            (BAD, 13),
        ),
        (
            "00000001 0000000000000005 02 0100 02 0000000000000009",
            (BAD, 14),
        ),
        // a change
        (
            "00000001 0000000000000005 02 020062 03 0000000000000009",
            (BAD, 16),
        ),
        (
            "00000001 0000000000000005 02 020062 02 8000000000000000",
            (BAD, 17),
        ),
    ];
    assert_eq!(rt; first_wrong(rt.alloc(), PREPARES, rows), None);
}

#[test]
fn items_are_read_and_written(rt: HostRuntime) {
    let rows: &[(&str, (u16, usize))] = &[
        ("020061 0000000000000003 02 0000000000000009", (WRITTEN, 20)),
        (
            "020061 000003ffffffffff 02 7fffffffffffffff 00",
            (WRITTEN, 20),
        ),
        (
            "0308626b 0000000000000001 \
             01 0000000000000004 00000000 00000000 00 00000000 00000001 78 0061",
            (WRITTEN, 39),
        ),
    ];
    assert_eq!(rt; first_wrong(rt.alloc(), ITEM, rows), None);
}

#[test]
fn what_is_no_item_breaks_the_layout_at_its_place(rt: HostRuntime) {
    let rows: &[(&str, (u16, usize))] = &[
        ("", (BAD, 0)),
        ("fc0061", (BAD, 0)),
        ("0100 0000000000000003 02 0000000000000009", (BAD, 1)),
        ("020061 0000000000000000 02 0000000000000009", (BAD, 3)),
        ("020061 0000040000000000 02 0000000000000009", (BAD, 3)),
        ("020061 00000000000003", (BAD, 3)),
        ("020061 0000000000000003 03 0000000000000009", (BAD, 11)),
        ("020061 0000000000000003 02 8000000000000000", (BAD, 12)),
    ];
    assert_eq!(rt; first_wrong(rt.alloc(), ITEM, rows), None);
}
