//! Edits by what they leave, and by what they are refused with.
use crate::{edit, edit_of};
use doc_model::Refused;
use std::alloc::Global;

const ADD: u8 = 0xc7;

const UPSERT: u8 = 0xc8;

const DELETE: u8 = 0xc9;

const REPLACE: u8 = 0xca;

const PUSH_LAST: u8 = 0xcb;

const PUSH_FIRST: u8 = 0xcc;

const INSERT: u8 = 0xcd;

const ADD_UNIQUE: u8 = 0xce;

const COUNTER: u8 = 0xcf;

/// An edit: opcode, flags, text, path, value.
type Asked<'a> = (u8, u8, &'a [u8], &'a [u8], &'a [u8]);

/// The status of an edit, 0 where it leaves these bytes, and 0xffff where it leaves others, memory
/// is refused or there is no such opcode.
fn outcome(alloc: Global, asked: Asked<'_>, wanted: &[u8]) -> u16 {
    let (opcode, flags, text, path, value) = asked;
    if edit_of(opcode).is_none() {
        return 0xffff;
    }
    match edit(alloc, opcode, flags, text, path, value) {
        Ok(edited) => {
            if edited.text.as_slice() == wanted {
                0
            } else {
                0xffff
            }
        }
        Err(Refused::Status(status)) => status.code,
        Err(Refused::NoMemory) => 0xffff,
    }
}

/// The number of the first row that comes to something else.
fn first_wrong(alloc: Global, rows: &[(Asked<'_>, u16, &[u8])]) -> Option<usize> {
    let mut number = 0;
    for (asked, status, wanted) in rows {
        if outcome(alloc, *asked, wanted) != *status {
            return Some(number);
        }
        number = number.saturating_add(1);
    }
    None
}

/// Edits and what they leave.
const MADE: [(Asked<'static>, u16, &[u8]); 47] = [
    ((ADD, 0, b"{}", b"a", b"1"), 0, b"{\"a\":1}"),
    ((ADD, 0, b"{ }", b"a", b"1"), 0, b"{\"a\":1 }"),
    (
        (ADD, 0, b"{\"a\":1}", b"b", b" 2 "),
        0,
        b"{\"a\":1,\"b\":2}",
    ),
    (
        (ADD, 0, b" {\"a\":1 } ", b"b", b"2"),
        0,
        b" {\"a\":1,\"b\":2 } ",
    ),
    ((ADD, 1, b"{}", b"a.b", b"1"), 0, b"{\"a\":{\"b\":1}}"),
    ((ADD, 0, b"{}", b"a\"b\\c", b"1"), 0, b"{\"a\\\"b\\\\c\":1}"),
    (
        (ADD, 0, b"{}", b"\x1f\x0a", b"1"),
        0,
        b"{\"\\u001f\\u000a\":1}",
    ),
    ((ADD, 0, b"{}", b"``", b"1"), 0, b"{\"\":1}"),
    ((ADD, 0, b"{}", b"`a.b`", b"1"), 0, b"{\"a.b\":1}"),
    (
        (ADD, 0, b"{\"a\":[1,2,3]}", b"b", b"{ \"c\" : [ ] }"),
        0,
        b"{\"a\":[1,2,3],\"b\":{ \"c\" : [ ] }}",
    ),
    (
        (UPSERT, 0, b"{ \"a\" : 1 }", b"b", b"2"),
        0,
        b"{ \"a\" : 1,\"b\":2 }",
    ),
    (
        (UPSERT, 0, b"{\"a\": 1 ,\"b\":2}", b"a", b"[ ]"),
        0,
        b"{\"a\": [ ] ,\"b\":2}",
    ),
    (
        (UPSERT, 0, b"{\"a\":1,\"a\":2}", b"a", b"3"),
        0,
        b"{\"a\":3,\"a\":2}",
    ),
    (
        (UPSERT, 1, b"{\"x\":{}}", b"x.y.z", b"true"),
        0,
        b"{\"x\":{\"y\":{\"z\":true}}}",
    ),
    (
        (UPSERT, 0, b"{\"a\":[{\"b\":1}]}", b"a[-1].b", b"\"c\""),
        0,
        b"{\"a\":[{\"b\":\"c\"}]}",
    ),
    (
        (DELETE, 0, b"{\"a\":1,\"b\":2}", b"a", b""),
        0,
        b"{\"b\":2}",
    ),
    (
        (DELETE, 0, b"{\"a\":1,\"b\":2}", b"b", b""),
        0,
        b"{\"a\":1}",
    ),
    ((DELETE, 0, b"{ \"a\" : 1 }", b"a", b""), 0, b"{  }"),
    ((DELETE, 0, b"[1, 2 ,3]", b"[1]", b""), 0, b"[1, 3]"),
    ((DELETE, 0, b"[1, 2 ]", b"[-1]", b""), 0, b"[1 ]"),
    ((DELETE, 0, b"[1]", b"[0]", b"x"), 0, b"[]"),
    (
        (DELETE, 0, b"{\"a\": {\"b\":1 , \"c\":2}}", b"a.b", b""),
        0,
        b"{\"a\": {\"c\":2}}",
    ),
    (
        (REPLACE, 0, b"{\"\\u0061\":1}", b"a", b"2"),
        0,
        b"{\"\\u0061\":2}",
    ),
    ((REPLACE, 0, b" [1] ", b"", b"{}"), 0, b" {} "),
    ((REPLACE, 0, b"[0,1]", b"[1]", b" null "), 0, b"[0,null]"),
    ((PUSH_LAST, 0, b"[]", b"", b"1"), 0, b"[1]"),
    ((PUSH_LAST, 0, b"[ ]", b"", b"1,2"), 0, b"[1,2 ]"),
    (
        (PUSH_LAST, 0, b"{\"a\":[1 ]}", b"a", b" 2 , 3 "),
        0,
        b"{\"a\":[1,2 , 3 ]}",
    ),
    ((PUSH_LAST, 1, b"{}", b"a", b"1"), 0, b"{\"a\":[1]}"),
    (
        (PUSH_LAST, 1, b"{}", b"a.b", b"1,2"),
        0,
        b"{\"a\":{\"b\":[1,2]}}",
    ),
    ((PUSH_FIRST, 0, b"[ 1]", b"", b"0"), 0, b"[ 0,1]"),
    ((PUSH_FIRST, 0, b"[]", b"", b"0,[]"), 0, b"[0,[]]"),
    (
        (PUSH_FIRST, 1, b"{\"x\":1}", b"a", b"0"),
        0,
        b"{\"x\":1,\"a\":[0]}",
    ),
    (
        (INSERT, 0, b"{\"a\":[1,2]}", b"a[2]", b"3"),
        0,
        b"{\"a\":[1,2,3]}",
    ),
    ((INSERT, 0, b"[1,2]", b"[1]", b"8,9"), 0, b"[1,8,9,2]"),
    ((INSERT, 0, b"[ 1 ]", b"[0]", b"9"), 0, b"[ 9,1 ]"),
    ((INSERT, 0, b"[]", b"[0]", b"9"), 0, b"[9]"),
    ((ADD_UNIQUE, 0, b"[1]", b"", b"1.0"), 0, b"[1,1.0]"),
    (
        (ADD_UNIQUE, 0, b"[\"\\u0061\"]", b"", b"\"a\""),
        0,
        b"[\"\\u0061\",\"a\"]",
    ),
    ((ADD_UNIQUE, 1, b"{}", b"a", b"null"), 0, b"{\"a\":[null]}"),
    ((COUNTER, 0, b"{\"n\":5}", b"n", b"3"), 0, b"{\"n\":8}"),
    (
        (COUNTER, 0, b"{\"n\": 5 }", b"n", b"-7"),
        0,
        b"{\"n\": -2 }",
    ),
    ((COUNTER, 0, b"{}", b"n", b"1"), 0, b"{\"n\":1}"),
    ((COUNTER, 1, b"{}", b"a.n", b"-1"), 0, b"{\"a\":{\"n\":-1}}"),
    (
        (COUNTER, 0, b"[0]", b"[0]", b"-9223372036854775808"),
        0,
        b"[-9223372036854775808]",
    ),
    ((COUNTER, 0, b"{\"n\":-0}", b"n", b"1"), 0, b"{\"n\":1}"),
    (
        (
            UPSERT,
            0,
            b"{\"a\":1}",
            b"a",
            b"[[[[[[[[[[[[[[[[[[[[[[[[[[[[[[[]]]]]]]]]]]]]]]]]]]]]]]]]]]]]]]",
        ),
        0,
        b"{\"a\":[[[[[[[[[[[[[[[[[[[[[[[[[[[[[[[]]]]]]]]]]]]]]]]]]]]]]]]]]]]]]]}",
    ),
];

#[test]
fn edits_leave_these_texts(rt: HostRuntime) {
    assert_eq!(rt; first_wrong(rt.alloc(), &MADE), None);
}

/// Edits that are refused, the last ones for the first of several reasons.
const REFUSED: [(Asked<'static>, u16, &[u8]); 57] = [
    ((ADD, 0, b"{\"a\":1}", b"a", b"2"), 0xc9, b""),
    ((ADD, 0, b"{\"\\u0061\":1}", b"a", b"2"), 0xc9, b""),
    ((ADD, 0, b"{}", b"a.b", b"1"), 0xc0, b""),
    ((ADD, 1, b"{\"a\":[]}", b"a.b", b"1"), 0xc1, b""),
    ((ADD, 1, b"{}", b"a[0].b", b"1"), 0xc0, b""),
    ((ADD, 0, b"[]", b"a", b"1"), 0xc1, b""),
    ((ADD, 0, b"{}", b"[0]", b"1"), 0xc2, b""),
    ((ADD, 0, b"{}", b"", b"1"), 0xc2, b""),
    ((ADD, 0, b"{}", b"a", b""), 0xc5, b""),
    ((ADD, 0, b"{}", b"a", b"1,2"), 0xc5, b""),
    ((ADD, 0, b"{}", b"a", b"\x0c1"), 0xc5, b""),
    ((UPSERT, 0, b"{\"x\":1}", b"x.y", b"1"), 0xc1, b""),
    ((UPSERT, 0, b"{}", b"a[1]", b"1"), 0xc2, b""),
    ((DELETE, 0, b"{}", b"a", b""), 0xc0, b""),
    ((DELETE, 0, b"{}", b"", b""), 0xc2, b""),
    ((DELETE, 0, b"[]", b"[-1]", b""), 0xc0, b""),
    ((REPLACE, 1, b"{}", b"a", b"1"), 0xc0, b""),
    ((REPLACE, 0, b"[0,1]", b"[2]", b"5"), 0xc0, b""),
    ((REPLACE, 0, b"{\"a\":1}", b"a", b"x"), 0xc5, b""),
    ((PUSH_LAST, 0, b"{}", b"a", b"1"), 0xc0, b""),
    ((PUSH_LAST, 0, b"{\"a\":{}}", b"a", b"1"), 0xc1, b""),
    ((PUSH_LAST, 0, b"[]", b"", b""), 0xc5, b""),
    ((PUSH_LAST, 0, b"[]", b"", b"1],[2"), 0xc5, b""),
    ((PUSH_LAST, 1, b"{}", b"a[0]", b"1"), 0xc0, b""),
    ((PUSH_FIRST, 0, b"1", b"", b"1"), 0xc1, b""),
    ((INSERT, 0, b"{\"a\":[1,2,3]}", b"a[4]", b"3"), 0xc0, b""),
    ((INSERT, 0, b"{\"a\":[1]}", b"a[-1]", b"3"), 0xc2, b""),
    ((INSERT, 0, b"{\"a\":[1]}", b"a", b"3"), 0xc2, b""),
    ((INSERT, 1, b"{}", b"a[0]", b"1"), 0xc0, b""),
    ((INSERT, 0, b"{}", b"[0]", b"1"), 0xc1, b""),
    ((ADD_UNIQUE, 0, b"[\"a\"]", b"", b"\"a\""), 0xc9, b""),
    ((ADD_UNIQUE, 0, b"[1,[]]", b"", b"1"), 0xc1, b""),
    ((ADD_UNIQUE, 0, b"[]", b"", b"[]"), 0xc5, b""),
    (
        (
            ADD_UNIQUE,
            0,
            b"{}",
            b"",
            b"[[[[[[[[[[[[[[[[[[[[[[[[[[[[[[[[[]]]]]]]]]]]]]]]]]]]]]]]]]]]]]]]]]",
        ),
        0xc5,
        b"",
    ),
    ((ADD_UNIQUE, 0, b"{}", b"", b"1"), 0xc1, b""),
    ((COUNTER, 0, b"{\"n\":1.0}", b"n", b"1"), 0xc1, b""),
    ((COUNTER, 0, b"{\"n\":1e2}", b"n", b"1"), 0xc1, b""),
    ((COUNTER, 0, b"{\"n\":\"1\"}", b"n", b"1"), 0xc1, b""),
    (
        (COUNTER, 0, b"{\"n\":9223372036854775807}", b"n", b"1"),
        0xc5,
        b"",
    ),
    (
        (COUNTER, 0, b"{\"n\":-9223372036854775809}", b"n", b"1"),
        0xc7,
        b"",
    ),
    ((COUNTER, 0, b"{\"n\":1}", b"n", b"0"), 0xc8, b""),
    ((COUNTER, 0, b"{\"n\":1}", b"n", b"01"), 0xc8, b""),
    ((COUNTER, 0, b"{\"n\":1}", b"n", b"+1"), 0xc8, b""),
    (
        (COUNTER, 0, b"{\"n\":1}", b"n", b"9223372036854775808"),
        0xc8,
        b"",
    ),
    ((COUNTER, 0, b"{}", b"a.n", b"1"), 0xc0, b""),
    ((ADD, 0, b"{", b"a.", b""), 0xc2, b""),
    ((ADD, 0, b"{", b"[0]", b""), 0xc6, b""),
    (
        (
            ADD,
            0,
            b"[[[[[[[[[[[[[[[[[[[[[[[[[[[[[[[[[]]]]]]]]]]]]]]]]]]]]]]]]]]]]]]]]]",
            b"[0]",
            b"",
        ),
        0xc4,
        b"",
    ),
    ((ADD, 0, b"{}", b"[0]", b"x"), 0xc2, b""),
    ((ADD, 0, b"[]", b"a", b"x"), 0xc5, b""),
    ((COUNTER, 0, b"[]", b"a", b"x"), 0xc8, b""),
    (
        (
            UPSERT,
            0,
            b"[]",
            b"a",
            b"[[[[[[[[[[[[[[[[[[[[[[[[[[[[[[[[[]]]]]]]]]]]]]]]]]]]]]]]]]]]]]]]]]",
        ),
        0xc1,
        b"",
    ),
    (
        (
            UPSERT,
            0,
            b"{}",
            b"a",
            b"[[[[[[[[[[[[[[[[[[[[[[[[[[[[[[[[[]]]]]]]]]]]]]]]]]]]]]]]]]]]]]]]]]",
        ),
        0xca,
        b"",
    ),
    (
        (
            UPSERT,
            0,
            b"{\"a\":1}",
            b"a",
            b"[[[[[[[[[[[[[[[[[[[[[[[[[[[[[[[[]]]]]]]]]]]]]]]]]]]]]]]]]]]]]]]]",
        ),
        0xca,
        b"",
    ),
    (
        (
            PUSH_LAST,
            0,
            b"{}",
            b"",
            b"[[[[[[[[[[[[[[[[[[[[[[[[[[[[[[[[]]]]]]]]]]]]]]]]]]]]]]]]]]]]]]]]",
        ),
        0xca,
        b"",
    ),
    (
        (
            ADD,
            0,
            b"{\"a\":1}",
            b"a",
            b"[[[[[[[[[[[[[[[[[[[[[[[[[[[[[[[[[]]]]]]]]]]]]]]]]]]]]]]]]]]]]]]]]]",
        ),
        0xc9,
        b"",
    ),
    (
        (
            ADD,
            0,
            b"{",
            b"a.a.a.a.a.a.a.a.a.a.a.a.a.a.a.a.a.a.a.a.a.a.a.a.a.a.a.a.a.a.a.a.a",
            b"",
        ),
        0xc3,
        b"",
    ),
];

#[test]
fn edits_are_refused_in_their_order(rt: HostRuntime) {
    assert_eq!(rt; first_wrong(rt.alloc(), &REFUSED), None);
}
