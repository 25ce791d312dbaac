//! What no clause says: that the definitions have the meaning that is meant.
use crate::parents::around_of;
use crate::values::given_of;
use doc_model::Refused;
use json_model::{Edit, Part};
use kv_edge::{Bytes, NoMemory};
use std::alloc::Global;

/// The status, the bytes that are to be written, how deep they nest, and the delta; 0xffff stands
/// for want of memory.
fn read(alloc: Global, edit: Edit, value: &[u8]) -> (u16, &[u8], u8, i64) {
    match given_of(alloc, edit, value) {
        Ok(given) => match value.get(given.from..given.to) {
            Some(piece) => (0, piece, given.depth, given.delta),
            None => (0xffff, b"", 0, 0),
        },
        Err(Refused::Status(status)) => (status.code, b"", 0, 0),
        Err(Refused::NoMemory) => (0xffff, b"", 0, 0),
    }
}

/// The number of the first row whose value is read as another.
fn first_wrong(alloc: Global, rows: &[(Edit, &[u8], (u16, &[u8], u8, i64))]) -> Option<usize> {
    let mut number = 0;
    for (edit, value, wanted) in rows {
        if read(alloc, *edit, value) != *wanted {
            return Some(number);
        }
        number = number.saturating_add(1);
    }
    None
}

#[test]
fn values_are_read_as_their_edit_asks(rt: HostRuntime) {
    let deep: &[u8] = b"[[[[[[[[[[[[[[[[[[[[[[[[[[[[[[[[]]]]]]]]]]]]]]]]]]]]]]]]]]]]]]]]";
    let rows: &[(Edit, &[u8], (u16, &[u8], u8, i64))] = &[
        (Edit::Replace, b" [1, {}] ", (0, b"[1, {}]", 2, 0)),
        (Edit::DictAdd, b"1 2", (0xc5, b"", 0, 0)),
        (Edit::DictUpsert, b"", (0xc5, b"", 0, 0)),
        (Edit::Replace, deep, (0, deep, 32, 0)),
        (Edit::Replace, &[b'['; 33], (0, b"", 33, 0)),
        (Edit::ArrayPushLast, deep, (0xca, b"", 0, 0)),
        (Edit::ArrayPushLast, b" 1 ,  [2] ", (0, b"1 ,  [2]", 1, 0)),
        (Edit::ArrayPushLast, b"{\"a\":[]}", (0, b"{\"a\":[]}", 2, 0)),
        (Edit::ArrayPushFirst, b"1],[2", (0xc5, b"", 0, 0)),
        (Edit::ArrayInsert, b" ", (0xc5, b"", 0, 0)),
        (Edit::ArrayInsert, b"1,", (0xc5, b"", 0, 0)),
        (Edit::ArrayPushFirst, &[b'['; 32], (0xca, b"", 0, 0)),
        (Edit::ArrayAddUnique, b" \"a\" ", (0, b"\"a\"", 0, 0)),
        (Edit::ArrayAddUnique, b"[]", (0xc5, b"", 0, 0)),
        (Edit::ArrayAddUnique, &[b'['; 33], (0xc5, b"", 0, 0)),
        (Edit::Delete, b"{", (0, b"", 0, 0)),
    ];
    assert_eq!(rt; first_wrong(rt.alloc(), rows), None);
}

#[test]
fn deltas_are_whole_numbers_other_than_zero(rt: HostRuntime) {
    let wrong: (u16, &[u8], u8, i64) = (0xc8, b"", 0, 0);
    let rows: &[(Edit, &[u8], (u16, &[u8], u8, i64))] = &[
        (Edit::Counter, b"1", (0, b"", 0, 1)),
        (Edit::Counter, b"-10", (0, b"", 0, -10)),
        (
            Edit::Counter,
            b"-9223372036854775808",
            (0, b"", 0, i64::MIN),
        ),
        (Edit::Counter, b"9223372036854775807", (0, b"", 0, i64::MAX)),
        (Edit::Counter, b"9223372036854775808", wrong),
        (Edit::Counter, b"0", wrong),
        (Edit::Counter, b"-0", wrong),
        (Edit::Counter, b"01", wrong),
        (Edit::Counter, b"+1", wrong),
        (Edit::Counter, b" 1", wrong),
        (Edit::Counter, b"1.0", wrong),
        (Edit::Counter, b"-", wrong),
        (Edit::Counter, b"", wrong),
    ];
    assert_eq!(rt; first_wrong(rt.alloc(), rows), None);
}

/// The text of a new member of these names whose value is 1; none where there are no names.
fn written(alloc: Global, names: &[&[u8]]) -> Result<Option<Vec<u8>>, NoMemory> {
    let mut parts = Vec::new(alloc);
    for name in names {
        parts.push(Part::Member(Bytes::from_slice(alloc, name)?))?;
    }
    match around_of(alloc, parts.as_slice())? {
        Some(around) => {
            let mut text = around.before.into_vec();
            text.push(b'1')?;
            text.extend_from_slice(around.behind.as_slice())?;
            Ok(Some(text))
        }
        None => Ok(None),
    }
}

/// Whether a new member of these names is written so.
fn is_written(alloc: Global, names: &[&[u8]], wanted: &[u8]) -> bool {
    match written(alloc, names) {
        Ok(Some(text)) => text.as_slice() == wanted,
        Ok(None) => wanted.is_empty(),
        Err(NoMemory) => false,
    }
}

#[test]
fn new_members_are_written_without_blanks(rt: HostRuntime) {
    let alloc = rt.alloc();
    let key: &[u8] = b"\"\\\n\x1f\xc3\xa9";
    assert!(rt; is_written(alloc, &[], b""));
    assert!(rt; is_written(alloc, &[b"c"], b"\"c\":1"));
    assert!(rt;
        is_written(
            alloc,
            &[b"b", key],
            b"\"b\":{\"\\\"\\\\\\u000a\\u001f\xc3\xa9\":1}"
        )
    );
    assert!(rt; is_written(alloc, &[b"", b"a", b"/"], b"\"\":{\"a\":{\"/\":1}}"));
}
