//! What no clause says: that the bytes of contents are those that are meant, and which contents are whole.
use crate::{ContentFault, Pending, content_into, of_parts, read_content};
use doc_model::{DocKey, Item, What};
use hex_rows::bytes_of;
use kv_edge::{Bytes, NoMemory};
use manifest_rules::first;
use std::alloc::Global;

// What is told of a row.

const WRITTEN: u16 = 0;

const BAD: u16 = 1;

const NO_MEMORY: u16 = 2;

const OTHER: u16 = 3;

/// The text of the first manifest, which stands behind its length and before two counts of dropped ids.
const FIRST: &str =
    "{\"uid\":\"0\",\"scopes\":[{\"name\":\"_default\",\"uid\":\"0\",\"collections\":[{\"name\":\"_default\",\"uid\":\"0\"}]}]}";

/// What is told of a fault.
fn fault_of(fault: ContentFault) -> (u16, usize) {
    match fault {
        ContentFault::Bad(place) => (BAD, place),
        ContentFault::NoMemory => (NO_MEMORY, 0),
    }
}

/// The bytes of two rows, with the state of the first manifest between them.
fn content_bytes(alloc: Global, front: &str, behind: &str) -> Result<Vec<u8>, NoMemory> {
    let mut bytes = Vec::new(alloc);
    add_row(alloc, &mut bytes, front)?;
    add_row(alloc, &mut bytes, "00000062")?;
    bytes.extend_from_slice(FIRST.as_bytes())?;
    add_row(alloc, &mut bytes, "00000000 00000000")?;
    add_row(alloc, &mut bytes, behind)?;
    Ok(bytes)
}

/// Appends the bytes of a row, or nothing where it isn't hexadecimal.
fn add_row(alloc: Global, out: &mut Vec<u8>, row: &str) -> Result<(), NoMemory> {
    match bytes_of(alloc, row) {
        Ok(bytes) => out.extend_from_slice(bytes.as_slice())?,
        Err(_) => {}
    }
    Ok(())
}

/// Whether a content is read and written by the same bytes, and how many these are, or where they break the layout.
fn told(alloc: Global, front: &str, behind: &str) -> (u16, usize) {
    let bytes = match content_bytes(alloc, front, behind) {
        Ok(bytes) => bytes,
        Err(NoMemory) => return (NO_MEMORY, 0),
    };
    let content = match read_content(alloc, bytes.as_slice()) {
        Ok(content) => content,
        Err(fault) => return fault_of(fault),
    };
    let mut out = Vec::new(alloc);
    match content_into(&content, &mut out) {
        Ok(()) => {
            if out.as_slice() == bytes.as_slice() {
                (WRITTEN, out.len())
            } else {
                (OTHER, 0)
            }
        }
        Err(NoMemory) => (NO_MEMORY, 0),
    }
}

/// The number of the first row of which something else is told.
fn first_wrong(alloc: Global, rows: &[(&str, &str, (u16, usize))]) -> Option<usize> {
    let mut number = 0;
    for (front, behind, wanted) in rows {
        if told(alloc, front, behind) != *wanted {
            return Some(number);
        }
        number = number.saturating_add(1);
    }
    None
}

#[test]
fn contents_are_read_and_written(rt: HostRuntime) {
    let rows: &[(&str, &str, (u16, usize))] = &[
        // nothing
        (
            "0000000000000000 0000000000000000",
            "00000000 00000000",
            (WRITTEN, 134),
        ),
        // a deletion made at 3, and another that waits from 5
        (
            "0000000000000005 0000000000000009",
            "00000001 020061 0000000000000003 02 0000000000000009 \
             00000001 0000000000000005 02 020062 02 0000000000000008",
            (WRITTEN, 175),
        ),
        // a change waits for a key that has something
        (
            "0000000000000005 0000000000000009",
            "00000001 020061 0000000000000003 02 0000000000000009 \
             00000001 0000000000000005 02 020061 02 0000000000000008",
            (WRITTEN, 175),
        ),
        // as many entries as there may be
        (
            "0000020000100000 7fffffffffffffff",
            "00000000 00000000",
            (WRITTEN, 134),
        ),
    ];
    assert_eq!(rt; first_wrong(rt.alloc(), rows), None);
}

#[test]
fn what_is_no_content_breaks_the_layout_at_its_place(rt: HostRuntime) {
    let rows: &[(&str, &str, (u16, usize))] = &[
        // the numbers
        (
            "0000040000000000 0000000000000000",
            "00000000 00000000",
            (BAD, 0),
        ),
        (
            "0000000000000000 8000000000000000",
            "00000000 00000000",
            (BAD, 8),
        ),
        // no items, no changes that wait, a byte too many
        ("0000000000000000 0000000000000000", "000000", (BAD, 126)),
        (
            "0000000000000000 0000000000000000",
            "00000000 000000",
            (BAD, 130),
        ),
        (
            "0000000000000000 0000000000000000",
            "00000000 00000000 00",
            (BAD, 134),
        ),
        // a collection that isn't there, a key that isn't above the one before
        (
            "0000000000000005 0000000000000009",
            "00000001 020861 0000000000000003 02 0000000000000009 00000000",
            (BAD, 131),
        ),
        (
            "0000000000000005 0000000000000009",
            "00000002 020061 0000000000000003 02 0000000000000009 \
             020061 0000000000000004 02 0000000000000009 00000000",
            (BAD, 151),
        ),
        // a sequence number behind the last, a CAS above the greatest
        (
            "0000000000000005 0000000000000009",
            "00000001 020061 0000000000000006 02 0000000000000009 00000000",
            (BAD, 133),
        ),
        (
            "0000000000000005 0000000000000009",
            "00000001 020061 0000000000000005 02 000000000000000a 00000000",
            (BAD, 142),
        ),
    ];
    assert_eq!(rt; first_wrong(rt.alloc(), rows), None);
}

#[test]
fn what_does_not_go_together_is_no_content(rt: HostRuntime) {
    let rows: &[(&str, &str, (u16, usize))] = &[
        // two items of one number
        (
            "0000000000000005 0000000000000009",
            "00000002 020061 0000000000000003 02 0000000000000009 \
             020062 0000000000000003 02 0000000000000009 00000000",
            (BAD, 0),
        ),
        // an item and a change that waits
        (
            "0000000000000005 0000000000000009",
            "00000001 020061 0000000000000005 02 0000000000000009 \
             00000001 0000000000000005 02 020062 02 0000000000000008",
            (BAD, 0),
        ),
        // two changes that wait for one key
        (
            "0000000000000005 0000000000000009",
            "00000000 00000002 0000000000000004 02 020062 02 0000000000000008 \
             0000000000000005 02 020062 02 0000000000000008",
            (BAD, 0),
        ),
        // too many entries for one more to wait
        (
            "0000020000100000 0000000000000009",
            "00000000 00000001 0000000000000005 02 020062 02 0000000000000008",
            (BAD, 0),
        ),
    ];
    assert_eq!(rt; first_wrong(rt.alloc(), rows), None);
}

// ---- of parts

/// A key of collection 0.
fn key_of(alloc: Global, name: &str) -> Result<DocKey, NoMemory> {
    Ok(DocKey {
        collection: 0,
        key: Bytes::from_slice(alloc, name.as_bytes())?,
    })
}

/// Marks of deletions of keys, each made at a position, with the CAS 9.
fn marks(alloc: Global, rows: &[(&str, u64)]) -> Result<Vec<Item>, NoMemory> {
    let mut items = Vec::new(alloc);
    for (name, position) in rows {
        items.push(Item {
            key: key_of(alloc, name)?,
            seqno: *position,
            what: What::Remove(9),
        })?;
    }
    Ok(items)
}

/// Deletions of keys that wait, each from a position, with the CAS 8.
fn waiting(alloc: Global, rows: &[(&str, u64)]) -> Result<Vec<Pending>, NoMemory> {
    let mut changes = Vec::new(alloc);
    for (name, position) in rows {
        changes.push(Pending {
            position: *position,
            level: 2,
            key: key_of(alloc, name)?,
            what: What::Remove(8),
        })?;
    }
    Ok(changes)
}

/// The bytes of the content of such parts, of 5 entries and the greatest CAS 9.
fn made(
    alloc: Global,
    items: &[(&str, u64)],
    changes: &[(&str, u64)],
) -> Result<Vec<u8>, ContentFault> {
    let items = marks(alloc, items)?;
    let changes = waiting(alloc, changes)?;
    let content = of_parts(alloc, items, changes, first(alloc)?, 9, 5)?;
    let mut out = Vec::new(alloc);
    content_into(&content, &mut out)?;
    Ok(out)
}

/// Whether the content of parts has these bytes, and how many these are, or what is told of the parts.
fn made_as(
    alloc: Global,
    items: &[(&str, u64)],
    changes: &[(&str, u64)],
    behind: &str,
) -> (u16, usize) {
    let bytes = match content_bytes(alloc, "0000000000000005 0000000000000009", behind) {
        Ok(bytes) => bytes,
        Err(NoMemory) => return (NO_MEMORY, 0),
    };
    match made(alloc, items, changes) {
        Ok(out) => {
            if out.as_slice() == bytes.as_slice() {
                (WRITTEN, out.len())
            } else {
                (OTHER, 0)
            }
        }
        Err(fault) => fault_of(fault),
    }
}

#[test]
fn a_content_is_made_of_its_parts(rt: HostRuntime) {
    let items: &[(&str, u64)] = &[("b", 4), ("a", 1)];
    let changes: &[(&str, u64)] = &[("a", 2), ("c", 3)];
    let bytes = "00000002 020061 0000000000000001 02 0000000000000009 \
                 020062 0000000000000004 02 0000000000000009 \
                 00000002 0000000000000002 02 020061 02 0000000000000008 \
                 0000000000000003 02 020063 02 0000000000000008";
    assert_eq!(rt; made_as(rt.alloc(), items, changes, bytes), (WRITTEN, 216));
}

#[test]
fn parts_that_do_not_go_together_make_no_content(rt: HostRuntime) {
    let none: &[(&str, u64)] = &[];
    // two items of one key, two of one number, one of none, one behind the last entry
    let one_key: &[(&str, u64)] = &[("a", 1), ("a", 2)];
    let one_number: &[(&str, u64)] = &[("a", 2), ("b", 2)];
    let no_number: &[(&str, u64)] = &[("a", 0)];
    let later: &[(&str, u64)] = &[("a", 6)];
    assert_eq!(rt; made_as(rt.alloc(), one_key, none, ""), (BAD, 0));
    assert_eq!(rt; made_as(rt.alloc(), one_number, none, ""), (BAD, 0));
    assert_eq!(rt; made_as(rt.alloc(), no_number, none, ""), (BAD, 0));
    assert_eq!(rt; made_as(rt.alloc(), later, none, ""), (BAD, 0));
    // two changes of one key, two whose positions fall, an item and a change of one number
    let falling: &[(&str, u64)] = &[("a", 2), ("b", 1)];
    let second: &[(&str, u64)] = &[("c", 2)];
    assert_eq!(rt; made_as(rt.alloc(), none, one_key, ""), (BAD, 0));
    assert_eq!(rt; made_as(rt.alloc(), none, falling, ""), (BAD, 0));
    assert_eq!(rt; made_as(rt.alloc(), one_number, second, ""), (BAD, 0));
}
