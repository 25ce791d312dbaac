//! Edits by the section that they leave, and by what they are refused with.
use crate::edit;
use doc_model::Refused;
use kv_edge::NoMemory;
use std::alloc::Global;
use std::test::Fail;
use subdoc_edit::edit_of;
use xattr_body::SECTION_LIMIT;

const ADD: u8 = 0xc7;

const UPSERT: u8 = 0xc8;

const DELETE: u8 = 0xc9;

const REPLACE: u8 = 0xca;

const PUSH_LAST: u8 = 0xcb;

const PUSH_FIRST: u8 = 0xcc;

const INSERT: u8 = 0xcd;

const ADD_UNIQUE: u8 = 0xce;

const COUNTER: u8 = 0xcf;

/// An edit: opcode, whether several parts may be absent, section, path, value.
type Asked<'a> = (u8, bool, &'a [u8], &'a [u8], &'a [u8]);

/// The status of an edit, 0 where it leaves this section and comes to this number, and 0xffff where
/// it leaves another, memory is refused or there is no such opcode.
fn outcome(alloc: Global, asked: Asked<'_>, wanted: &[u8], number: Option<i64>) -> u16 {
    let (opcode, several, section, path, value) = asked;
    if edit_of(opcode).is_none() {
        return 0xffff;
    }
    match edit(alloc, opcode, several, section, path, value) {
        Ok(edited) => {
            if edited.section.as_slice() == wanted && edited.number == number {
                0
            } else {
                0xffff
            }
        }
        Err(Refused::Status(status)) => status.code,
        Err(Refused::NoMemory) => 0xffff,
    }
}

/// The number of the first row that comes to something else.
fn first_wrong(alloc: Global, rows: &[(Asked<'_>, u16, &[u8], Option<i64>)]) -> Option<usize> {
    let mut row = 0;
    for (asked, status, wanted, number) in rows {
        if outcome(alloc, *asked, wanted, *number) != *status {
            return Some(row);
        }
        row = row.saturating_add(1);
    }
    None
}

/// The section of the attribute `a` with the text `1`.
const ONE: &[u8] = b"\0\0\0\x08\0\0\0\x04a\x001\0";

/// Edits and what they leave.
const MADE: [(Asked<'static>, u16, &[u8], Option<i64>); 28] = [
    (
        (UPSERT, false, b"", b"_s", b"1"),
        0,
        b"\0\0\0\x09\0\0\0\x05_s\x001\0",
        None,
    ),
    (
        (UPSERT, false, b"\0\0\0\x09\0\0\0\x05_s\x001\0", b"a", b"[]"),
        0,
        b"\0\0\0\x12\0\0\0\x05_s\x001\0\0\0\0\x05a\0[]\0",
        None,
    ),
    (
        (ADD, false, b"\0\0\0\x09\0\0\0\x05_s\x001\0", b"a", b" 2 "),
        0,
        b"\0\0\0\x11\0\0\0\x05_s\x001\0\0\0\0\x04a\x002\0",
        None,
    ),
    (
        (
            UPSERT,
            false,
            b"\0\0\0\x15\0\0\0\x07_s\0 1 \0\0\0\0\x06a\0[ ]\0",
            b"_s",
            b"2",
        ),
        0,
        b"\0\0\0\x15\0\0\0\x07_s\0 2 \0\0\0\0\x06a\0[ ]\0",
        None,
    ),
    (
        (
            REPLACE,
            false,
            b"\0\0\0\x1d\0\0\0\x07a\0\t\r\n1\0\0\0\0\x05b\x002 \0\0\0\0\x05c\0 3\0",
            b"b",
            b" {} ",
        ),
        0,
        b"\0\0\0\x1e\0\0\0\x07a\0\t\r\n1\0\0\0\0\x06b\0{} \0\0\0\0\x05c\0 3\0",
        None,
    ),
    (
        (
            UPSERT,
            false,
            b"\0\0\0\x13\0\0\0\x0fa\0{ \"b\" : 1 } \0",
            b"a.c",
            b"2",
        ),
        0,
        b"\0\0\0\x19\0\0\0\x15a\0{ \"b\" : 1,\"c\":2 } \0",
        None,
    ),
    (
        (UPSERT, true, b"", b"a.b.c", b"1"),
        0,
        b"\0\0\0\x14\0\0\0\x10a\0{\"b\":{\"c\":1}}\0",
        None,
    ),
    (
        (
            UPSERT,
            false,
            b"\0\0\0\x17\0\0\0\x0ba\0{\"b\":1 }\0\0\0\0\x04c\x001\0",
            b"a.b",
            b"3",
        ),
        0,
        b"\0\0\0\x17\0\0\0\x0ba\0{\"b\":3 }\0\0\0\0\x04c\x001\0",
        None,
    ),
    (
        (
            DELETE,
            false,
            b"\0\0\0\x0f\0\0\0\x0ba\0{\"b\":1 }\0",
            b"a.b",
            b"",
        ),
        0,
        b"\0\0\0\x0a\0\0\0\x06a\0{ }\0",
        None,
    ),
    (
        (
            DELETE,
            false,
            b"\0\0\0\x11\0\0\0\x04a\x001\0\0\0\0\x05b\0 2\0",
            b"a",
            b"",
        ),
        0,
        b"\0\0\0\x09\0\0\0\x05b\0 2\0",
        None,
    ),
    (
        (
            DELETE,
            false,
            b"\0\0\0\x11\0\0\0\x04a\x001\0\0\0\0\x05b\0 2\0",
            b"b",
            b"",
        ),
        0,
        b"\0\0\0\x08\0\0\0\x04a\x001\0",
        None,
    ),
    (
        (DELETE, false, b"\0\0\0\x08\0\0\0\x04b\x002\0", b"b", b""),
        0,
        b"",
        None,
    ),
    (
        (
            DELETE,
            false,
            b"\0\0\0\x0c\0\0\0\x08a\0[1,2]\0",
            b"a[-1]",
            b"",
        ),
        0,
        b"\0\0\0\x0a\0\0\0\x06a\0[1]\0",
        None,
    ),
    (
        (
            PUSH_LAST,
            false,
            b"\0\0\0\x0c\0\0\0\x08a\0 [1 ]\0",
            b"a",
            b"2,3",
        ),
        0,
        b"\0\0\0\x10\0\0\0\x0ca\0 [1,2,3 ]\0",
        None,
    ),
    (
        (PUSH_LAST, true, b"", b"a", b"1"),
        0,
        b"\0\0\0\x0a\0\0\0\x06a\0[1]\0",
        None,
    ),
    (
        (
            PUSH_FIRST,
            false,
            b"\0\0\0\x0a\0\0\0\x06a\0[1]\0",
            b"a",
            b"0",
        ),
        0,
        b"\0\0\0\x0c\0\0\0\x08a\0[0,1]\0",
        None,
    ),
    (
        (
            INSERT,
            false,
            b"\0\0\0\x0a\0\0\0\x06a\0[1]\0",
            b"a[1]",
            b"2",
        ),
        0,
        b"\0\0\0\x0c\0\0\0\x08a\0[1,2]\0",
        None,
    ),
    (
        (
            ADD_UNIQUE,
            false,
            b"\0\0\0\x0c\0\0\0\x08a\0[\"x\"]\0",
            b"a",
            b"1",
        ),
        0,
        b"\0\0\0\x0e\0\0\0\x0aa\0[\"x\",1]\0",
        None,
    ),
    (
        (UPSERT, false, b"", b"q\"\x01", b"1"),
        0,
        b"\0\0\0\x0a\0\0\0\x06q\"\x01\x001\0",
        None,
    ),
    (
        (
            UPSERT,
            false,
            b"\0\0\0\x13\0\0\0\x07q\"\x01\0 1\0\0\0\0\x04\\\x002\0",
            b"q\"\x01",
            b"\"x\"",
        ),
        0,
        b"\0\0\0\x15\0\0\0\x09q\"\x01\0 \"x\"\0\0\0\0\x04\\\x002\0",
        None,
    ),
    (
        (
            DELETE,
            false,
            b"\0\0\0\x12\0\0\0\x06q\"\x01\x001\0\0\0\0\x04\\\x002\0",
            b"\\",
            b"",
        ),
        0,
        b"\0\0\0\x0a\0\0\0\x06q\"\x01\x001\0",
        None,
    ),
    (
        (UPSERT, false, b"", b"`a.b`", b"1"),
        0,
        b"\0\0\0\x0a\0\0\0\x06a.b\x001\0",
        None,
    ),
    (
        (UPSERT, false, b"", b"0123456789abcdef", b"1"),
        0,
        b"\0\0\0\x17\0\0\0\x130123456789abcdef\x001\0",
        None,
    ),
    (
        (UPSERT, false, b"", b"_$", b"1"),
        0,
        b"\0\0\0\x09\0\0\0\x05_$\x001\0",
        None,
    ),
    (
        (COUNTER, false, b"", b"n", b"3"),
        0,
        b"\0\0\0\x08\0\0\0\x04n\x003\0",
        Some(3),
    ),
    (
        (COUNTER, false, b"\0\0\0\x0b\0\0\0\x07n\0 -1 \0", b"n", b"3"),
        0,
        b"\0\0\0\x0a\0\0\0\x06n\0 2 \0",
        Some(2),
    ),
    (
        (
            COUNTER,
            true,
            b"\0\0\0\x09\0\0\0\x05a\0{}\0",
            b"a.b.n",
            b"-7",
        ),
        0,
        b"\0\0\0\x15\0\0\0\x11a\0{\"b\":{\"n\":-7}}\0",
        Some(-7),
    ),
    (
        (
            UPSERT,
            false,
            b"",
            b"a",
            b"[[[[[[[[[[[[[[[[[[[[[[[[[[[[[[[]]]]]]]]]]]]]]]]]]]]]]]]]]]]]]]",
        ),
        0,
        b"\0\0\0\x45\0\0\0\x41a\0[[[[[[[[[[[[[[[[[[[[[[[[[[[[[[[]]]]]]]]]]]]]]]]]]]]]]]]]]]]]]]\0",
        None,
    ),
];

/// Edits and what they are refused with.
const REFUSED: [(Asked<'static>, u16, &[u8], Option<i64>); 27] = [
    ((UPSERT, false, ONE, b"$x", b"1"), 0xd1, b"", None),
    ((UPSERT, false, ONE, b"$x.y", b"{"), 0xd1, b"", None),
    ((DELETE, false, ONE, b"`$`", b""), 0xd1, b"", None),
    ((UPSERT, false, ONE, b"", b"1"), 0xc2, b"", None),
    ((REPLACE, false, ONE, b"", b"{}"), 0xc2, b"", None),
    ((UPSERT, false, ONE, b"[0]", b"1"), 0xc2, b"", None),
    ((DELETE, false, ONE, b"[-1]", b""), 0xc2, b"", None),
    ((UPSERT, false, ONE, b"``", b"1"), 0xc2, b"", None),
    (
        (UPSERT, false, ONE, b"0123456789abcdefg", b"1"),
        0xc2,
        b"",
        None,
    ),
    (
        (UPSERT, false, ONE, b"$123456789abcdefg", b"1"),
        0xc2,
        b"",
        None,
    ),
    ((UPSERT, false, ONE, b"a\0b", b"1"), 0xc2, b"", None),
    ((UPSERT, false, ONE, b"a..b", b"1"), 0xc2, b"", None),
    ((UPSERT, false, ONE, b"\xff", b"1"), 0xc2, b"", None),
    ((ADD, false, ONE, b"b[0]", b"1"), 0xc2, b"", None),
    ((UPSERT, false, ONE, b"a", b"{"), 0xc5, b"", None),
    ((COUNTER, false, ONE, b"a", b"0"), 0xc8, b"", None),
    ((UPSERT, false, ONE, b"a.b", b"1"), 0xc1, b"", None),
    (
        (
            COUNTER,
            false,
            b"\0\0\0\x0a\0\0\0\x06a\0\"x\"\0",
            b"a",
            b"1",
        ),
        0xc1,
        b"",
        None,
    ),
    ((PUSH_LAST, false, ONE, b"a", b"1"), 0xc1, b"", None),
    ((DELETE, false, ONE, b"b", b""), 0xc0, b"", None),
    ((REPLACE, false, b"", b"a", b"1"), 0xc0, b"", None),
    ((UPSERT, false, ONE, b"b.c", b"1"), 0xc0, b"", None),
    ((PUSH_LAST, false, ONE, b"b", b"1"), 0xc0, b"", None),
    ((ADD, false, ONE, b"a", b"2"), 0xc9, b"", None),
    (
        (
            COUNTER,
            false,
            b"\0\0\0\x1a\0\0\0\x16a\09223372036854775808\0",
            b"a",
            b"1",
        ),
        0xc7,
        b"",
        None,
    ),
    (
        (
            UPSERT,
            false,
            b"",
            b"a",
            b"[[[[[[[[[[[[[[[[[[[[[[[[[[[[[[[[]]]]]]]]]]]]]]]]]]]]]]]]]]]]]]]]",
        ),
        0xca,
        b"",
        None,
    ),
    (
        (
            UPSERT,
            true,
            b"",
            b"a.b",
            b"[[[[[[[[[[[[[[[[[[[[[[[[[[[[[[[]]]]]]]]]]]]]]]]]]]]]]]]]]]]]]]",
        ),
        0xca,
        b"",
        None,
    ),
];

#[test]
fn edits_leave_sections(rt: HostRuntime) {
    assert_eq!(rt; first_wrong(rt.alloc(), &MADE), None);
}

#[test]
fn edits_are_refused_in_their_order(rt: HostRuntime) {
    assert_eq!(rt; first_wrong(rt.alloc(), &REFUSED), None);
}

/// The text of a number of so many digits.
fn digits(alloc: Global, count: usize) -> Result<Vec<u8>, NoMemory> {
    let mut text = Vec::with_capacity(alloc, count)?;
    for _ in 0..count {
        text.push(b'1')?;
    }
    Ok(text)
}

/// How a text of so many bytes is put at `a` where nothing is, and then another attribute beside
/// it, and then how it is taken away again.
fn filled(alloc: Global, count: usize) -> Result<(u16, u16, u16), NoMemory> {
    let text = digits(alloc, count)?;
    match edit(alloc, UPSERT, false, b"", b"a", text.as_slice()) {
        Ok(full) => {
            let section = full.section.as_slice();
            let beside = outcome(alloc, (UPSERT, false, section, b"b", b"1"), b"", None);
            let gone = outcome(alloc, (DELETE, false, section, b"a", b""), b"", None);
            Ok((0, beside, gone))
        }
        Err(Refused::Status(status)) => Ok((status.code, 0, 0)),
        Err(Refused::NoMemory) => Err(NoMemory),
    }
}

#[test]
fn a_section_has_1048576_bytes_at_most(rt: HostRuntime) -> Result<(), Fail> {
    assert_eq!(rt; filled(rt.alloc(), SECTION_LIMIT - 11)?, (0, 3, 0));
    assert_eq!(rt; filled(rt.alloc(), SECTION_LIMIT - 10)?, (3, 0, 0));
    Ok(())
}
