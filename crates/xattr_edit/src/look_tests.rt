//! Look-ups by what they find in the attributes' object, and the object by its bytes.
use crate::{look, object_of};
use doc_model::Refused;
use kv_edge::NoMemory;
use std::alloc::Global;
use std::test::Fail;
use subdoc_edit::{judge, lookup_of};

const GET: u8 = 0xc5;

const EXISTS: u8 = 0xc6;

const COUNT: u8 = 0xd2;

/// The status of a look-up in an object, the bytes that were found, and the count.
fn looked<'a>(
    alloc: Global,
    opcode: u8,
    object: &'a [u8],
    path: &[u8],
) -> (u16, &'a [u8], Option<u64>) {
    if lookup_of(opcode).is_none() {
        return (0xffff, b"", None);
    }
    match look(alloc, opcode, object, judge(object), path) {
        Ok(piece) => match object.get(piece.from..piece.to) {
            Some(found) => (0, found, piece.count),
            None => (0xffff, b"", None),
        },
        Err(Refused::Status(status)) => (status.code, b"", None),
        Err(Refused::NoMemory) => (0xffff, b"", None),
    }
}

/// The number of the first row whose answer is another one.
fn first_wrong(
    alloc: Global,
    rows: &[(u8, &[u8], &[u8], (u16, &[u8], Option<u64>))],
) -> Option<usize> {
    let mut number = 0;
    for (opcode, object, path, wanted) in rows {
        if looked(alloc, *opcode, object, path) != *wanted {
            return Some(number);
        }
        number = number.saturating_add(1);
    }
    None
}

/// The number of the first section that has another object.
fn first_other(alloc: Global, rows: &[(&[u8], &[u8])]) -> Result<Option<usize>, NoMemory> {
    let mut number = 0;
    for (section, wanted) in rows {
        if object_of(alloc, section)?.as_slice() != *wanted {
            return Ok(Some(number));
        }
        number = number.saturating_add(1);
    }
    Ok(None)
}

#[test]
fn attributes_are_one_object(rt: HostRuntime) -> Result<(), Fail> {
    let rows: &[(&[u8], &[u8])] = &[
        (b"", b"{}"),
        (b"\0\0\0\x09\0\0\0\x05_s\x001\0", b"{\"_s\":1}"),
        (
            b"\0\0\0\x2d\0\0\0\x13a\0 {\"b\": [1, 2] } \0\0\0\0\x08q\"\x01\0\"x\"\0\0\0\0\x06n\0 -1\0",
            b"{\"a\": {\"b\": [1, 2] } ,\"q\\\"\\u0001\":\"x\",\"n\": -1}",
        ),
    ];
    assert_eq!(rt; first_other(rt.alloc(), rows)?, None);
    Ok(())
}

#[test]
fn look_ups_lead_into_attributes(rt: HostRuntime) {
    let object: &[u8] = b"{\"a\": {\"b\": [1, 2] } ,\"q\\\"\\u0001\":\"x\",\"n\": -1}";
    let rows: &[(u8, &[u8], &[u8], (u16, &[u8], Option<u64>))] = &[
        (GET, object, b"a", (0, b"{\"b\": [1, 2] }", None)),
        (GET, object, b"a.b[-1]", (0, b"2", None)),
        (GET, object, b"q\"\x01", (0, b"\"x\"", None)),
        (GET, object, b"n", (0, b"-1", None)),
        (EXISTS, object, b"`n`", (0, b"", None)),
        (COUNT, object, b"a.b", (0, b"", Some(2))),
        (GET, object, b"", (0xc2, b"", None)),
        (COUNT, object, b"", (0xc2, b"", None)),
        (GET, object, b"[0]", (0xc2, b"", None)),
        (GET, object, b"``", (0xc2, b"", None)),
        (GET, object, b"a\0", (0xc2, b"", None)),
        (GET, object, b"0123456789abcdefg", (0xc2, b"", None)),
        (GET, object, b"$n", (0xd1, b"", None)),
        (GET, object, b"0123456789abcdef", (0xc0, b"", None)),
        (EXISTS, b"{}", b"a", (0xc0, b"", None)),
        (COUNT, object, b"n", (0xc1, b"", None)),
        (GET, b"{\"a\":", b"[0]", (0xc2, b"", None)),
        (GET, b"{\"a\":", b"a", (0xc6, b"", None)),
        (GET, object, &[b'a'; 1025], (0xc3, b"", None)),
    ];
    assert_eq!(rt; first_wrong(rt.alloc(), rows), None);
}
