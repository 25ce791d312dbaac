//! What no clause says: that the bytes of the definitions are those that are meant.
use crate::{
    SECTION_LIMIT, XattrFault, Xattrs, get, pairs_of, put, read, remove, section, section_size,
    write,
};
use kv_edge::{Bytes, NoMemory};
use std::alloc::Global;
use std::test::Fail;

const SECTION: u16 = 0;

const BAD: u16 = 1;

const NO_MEMORY: u16 = 2;

const OTHER: u16 = 3;

/// Whether bytes are a section and how many pairs it has, or where they break off; `OTHER` where
/// the pairs that were read are written as other bytes.
fn told(alloc: Global, bytes: &[u8]) -> (u16, usize) {
    match read(alloc, bytes) {
        Ok(xattrs) => match write(alloc, &xattrs) {
            Ok(written) => {
                if written.as_slice() == bytes {
                    (SECTION, xattrs.pairs().len())
                } else {
                    (OTHER, 0)
                }
            }
            Err(_) => (NO_MEMORY, 0),
        },
        Err(XattrFault::Bad(place)) => (BAD, place),
        Err(XattrFault::NoMemory) => (NO_MEMORY, 0),
    }
}

/// The number of the first row of which something else is told.
fn first_wrong(alloc: Global, rows: &[(&[u8], (u16, usize))]) -> Option<usize> {
    let mut number = 0;
    for (bytes, wanted) in rows {
        if told(alloc, bytes) != *wanted {
            return Some(number);
        }
        number = number.saturating_add(1);
    }
    None
}

#[test]
fn sections_are_read_and_written(rt: HostRuntime) {
    let rows: &[(&[u8], (u16, usize))] = &[
        (b"", (SECTION, 0)),
        (b"\0\0\0\x09\0\0\0\x05_s\x001\0", (SECTION, 1)),
        (
            b"\0\0\0\x13\0\0\0\x05_s\x001\0\0\0\0\x06b\0 2 \0",
            (SECTION, 2),
        ),
        (b"\0\0\0\x17\0\0\0\x130123456789abcdef\x001\0", (SECTION, 1)),
        (b"\0\0\0\x09\0\0\0\x05\xc3\xa9\x001\0", (SECTION, 1)),
        (
            b"\0\0\0\x45\0\0\0\x41a\0[[[[[[[[[[[[[[[[[[[[[[[[[[[[[[[]]]]]]]]]]]]]]]]]]]]]]]]]]]]]]]\0",
            (SECTION, 1),
        ),
    ];
    assert_eq!(rt; first_wrong(rt.alloc(), rows), None);
}

#[test]
fn what_is_no_section_breaks_off_at_its_place(rt: HostRuntime) {
    let rows: &[(&[u8], (u16, usize))] = &[
        (b"\0\0\0", (BAD, 0)),
        (b"\0\0\0\0", (BAD, 0)),
        (b"\0\0\0\x08\0\0\0\x05_s\x001\0", (BAD, 0)),
        (b"\0\0\0\x0a\0\0\0\x05_s\x001\0", (BAD, 0)),
        (b"\0\0\0\x03\0\0\0", (BAD, 4)),
        (b"\0\0\0\x09\0\0\0\x06_s\x001\0", (BAD, 4)),
        (b"\0\0\0\x09\0\0\0\x04_s\x001\0", (BAD, 4)),
        (b"\0\0\0\x07\0\0\0\x03\x001\0", (BAD, 4)),
        (b"\0\0\0\x18\0\0\0\x140123456789abcdefg\x001\0", (BAD, 4)),
        (b"\0\0\0\x09\0\0\0\x05_\xff\x001\0", (BAD, 4)),
        (b"\0\0\0\x07\0\0\0\x03_s1", (BAD, 4)),
        (b"\0\0\0\x08\0\0\0\x04_s\0\0", (BAD, 4)),
        (b"\0\0\0\x09\0\0\0\x05_s\0-\0", (BAD, 4)),
        (b"\0\0\0\x09\0\0\0\x05_s\x0012", (BAD, 4)),
        (
            b"\0\0\0\x12\0\0\0\x05_s\x001\0\0\0\0\x05_s\x002\0",
            (BAD, 13),
        ),
        (b"\0\0\0\x12\0\0\0\x05_s\x001\0\0\0\0\x05_t\0-\0", (BAD, 13)),
        (
            b"\0\0\0\x47\0\0\0\x43a\0[[[[[[[[[[[[[[[[[[[[[[[[[[[[[[[[]]]]]]]]]]]]]]]]]]]]]]]]]]]]]]]]\0",
            (BAD, 4),
        ),
    ];
    assert_eq!(rt; first_wrong(rt.alloc(), rows), None);
}

/// Whether these are the pairs.
fn are(pairs: &[(Bytes, Bytes)], wanted: &[(&[u8], &[u8])]) -> bool {
    if pairs.len() != wanted.len() {
        return false;
    }
    for (pair, row) in pairs.iter().zip(wanted) {
        if pair.0.as_slice() != row.0 || pair.1.as_slice() != row.1 {
            return false;
        }
    }
    true
}

/// Puts a text, or removes a pair where there is none to be put; tells whether the name has then
/// that text.
fn step(
    alloc: Global,
    xattrs: &mut Xattrs,
    name: &[u8],
    value: Option<&[u8]>,
) -> Result<bool, NoMemory> {
    match value {
        Some(value) => {
            let text = Bytes::from_slice(alloc, value)?;
            put(xattrs, Bytes::from_slice(alloc, name)?, text)?;
            match get(xattrs, name) {
                Some(found) => Ok(found.as_slice() == value),
                None => Ok(false),
            }
        }
        None => {
            let _before = remove(xattrs, name);
            Ok(get(xattrs, name).is_none())
        }
    }
}

/// The number of the first row after which other pairs are there.
fn first_other(
    alloc: Global,
    rows: &[(&[u8], Option<&[u8]>, &[(&[u8], &[u8])])],
) -> Result<Option<usize>, NoMemory> {
    let mut xattrs = Xattrs::new(alloc);
    let mut number = 0;
    for (name, value, wanted) in rows {
        if !step(alloc, &mut xattrs, name, *value)? || !are(xattrs.pairs(), wanted) {
            return Ok(Some(number));
        }
        number = number.saturating_add(1);
    }
    Ok(None)
}

#[test]
fn attributes_are_put_and_removed(rt: HostRuntime) -> Result<(), Fail> {
    let rows: &[(&[u8], Option<&[u8]>, &[(&[u8], &[u8])])] = &[
        (b"a", Some(b"1"), &[(b"a", b"1")]),
        (b"b", Some(b"2"), &[(b"a", b"1"), (b"b", b"2")]),
        (
            b"c",
            Some(b"3"),
            &[(b"a", b"1"), (b"b", b"2"), (b"c", b"3")],
        ),
        (
            b"b",
            Some(b" 4"),
            &[(b"a", b"1"), (b"b", b" 4"), (b"c", b"3")],
        ),
        (b"d", None, &[(b"a", b"1"), (b"b", b" 4"), (b"c", b"3")]),
        (b"b", None, &[(b"a", b"1"), (b"c", b"3")]),
        (b"a", None, &[(b"c", b"3")]),
        (b"c", None, &[]),
    ];
    assert_eq!(rt; first_other(rt.alloc(), rows)?, None);
    Ok(())
}

/// The number of the first row whose pairs, read without judging, have other bytes.
fn first_unlike(alloc: Global, rows: &[(&[u8], &[u8])]) -> Result<Option<usize>, NoMemory> {
    let mut number = 0;
    for (bytes, wanted) in rows {
        let xattrs = pairs_of(alloc, bytes)?;
        if section_size(&xattrs) > SECTION_LIMIT {
            return Ok(Some(number));
        }
        if section(alloc, &xattrs)?.as_slice() != *wanted {
            return Ok(Some(number));
        }
        number = number.saturating_add(1);
    }
    Ok(None)
}

#[test]
fn pairs_are_read_without_judging(rt: HostRuntime) -> Result<(), Fail> {
    let rows: &[(&[u8], &[u8])] = &[
        (b"", b""),
        (b"\0\0\0", b""),
        (
            b"\0\0\0\x09\0\0\0\x05_s\x001\0",
            b"\0\0\0\x09\0\0\0\x05_s\x001\0",
        ),
        (
            b"\0\0\0\x13\0\0\0\x05_s\x001\0\0\0\0\x06b\0 2 \0",
            b"\0\0\0\x13\0\0\0\x05_s\x001\0\0\0\0\x06b\0 2 \0",
        ),
        (
            b"\0\0\0\0\0\0\0\x05_s\0-\0\0\0",
            b"\0\0\0\x09\0\0\0\x05_s\0-\0",
        ),
        (b"\0\0\0\x09\0\0\0\x05_s_1_", b""),
    ];
    assert_eq!(rt; first_unlike(rt.alloc(), rows)?, None);
    Ok(())
}
