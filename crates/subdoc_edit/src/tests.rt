//! What no clause says: that the definitions have the meaning that is meant.
use crate::looking::{Piece, look, lookup_of};
use doc_model::Refused;
use std::alloc::Global;

/// The status of an answer, 0 of a piece; 0xffff stands for want of memory and for other opcodes.
fn status_of(answer: &Result<Piece, Refused>) -> u16 {
    match answer {
        Ok(_) => 0,
        Err(Refused::Status(status)) => status.code,
        Err(Refused::NoMemory) => 0xffff,
    }
}

/// The status, the bytes that were found, and the count.
fn looked<'a>(
    alloc: Global,
    opcode: u8,
    text: &'a [u8],
    path: &[u8],
) -> (u16, &'a [u8], Option<u64>) {
    if lookup_of(opcode).is_none() {
        return (0xffff, b"", None);
    }
    let answer = look(alloc, opcode, text, path);
    match answer {
        Ok(piece) => match text.get(piece.from..piece.to) {
            Some(found) => (0, found, piece.count),
            None => (0xffff, b"", None),
        },
        Err(_) => (status_of(&answer), b"", None),
    }
}

/// The number of the first row whose answer is another one.
fn first_wrong(
    alloc: Global,
    rows: &[(u8, &[u8], &[u8], (u16, &[u8], Option<u64>))],
) -> Option<usize> {
    let mut number = 0;
    for (opcode, text, path, wanted) in rows {
        if looked(alloc, *opcode, text, path) != *wanted {
            return Some(number);
        }
        number = number.saturating_add(1);
    }
    None
}

const GET: u8 = 0xc5;

const EXISTS: u8 = 0xc6;

const COUNT: u8 = 0xd2;

#[test]
fn look_ups_find_pieces_of_the_text(rt: HostRuntime) {
    let text: &[u8] = b" {\"a\": [1, {\"b\":2} ], \"\\u0062\" : \"x\" } ";
    let whole: &[u8] = b"{\"a\": [1, {\"b\":2} ], \"\\u0062\" : \"x\" }";
    let rows: &[(u8, &[u8], &[u8], (u16, &[u8], Option<u64>))] = &[
        (GET, text, b"", (0, whole, None)),
        (GET, text, b"a", (0, b"[1, {\"b\":2} ]", None)),
        (GET, text, b"a[1].b", (0, b"2", None)),
        (GET, text, b"a[-1]", (0, b"{\"b\":2}", None)),
        (GET, text, b"b", (0, b"\"x\"", None)),
        (GET, text, b"`a`[0]", (0, b"1", None)),
        (GET, b"{\"a\":1,\"a\":2}", b"a", (0, b"1", None)),
        (EXISTS, text, b"a[0]", (0, b"", None)),
        (COUNT, text, b"", (0, b"", Some(2))),
        (COUNT, text, b"a", (0, b"", Some(2))),
        (COUNT, b"[ ]", b"", (0, b"", Some(0))),
    ];
    assert_eq!(rt; first_wrong(rt.alloc(), rows), None);
}

#[test]
fn look_ups_are_refused_in_their_order(rt: HostRuntime) {
    let text: &[u8] = b"{\"a\": [1, {\"b\":2}], \"c\": null}";
    let rows: &[(u8, &[u8], &[u8], (u16, &[u8], Option<u64>))] = &[
        (GET, text, b"d", (0xc0, b"", None)),
        (EXISTS, text, b"a[2]", (0xc0, b"", None)),
        (GET, b"[]", b"[-1]", (0xc0, b"", None)),
        (GET, text, b"a.b", (0xc1, b"", None)),
        (GET, text, b"c[0]", (0xc1, b"", None)),
        (COUNT, text, b"c", (0xc1, b"", None)),
        (GET, text, b"a[01]", (0xc2, b"", None)),
        (GET, b"{\"a\":", b"a.", (0xc2, b"", None)),
        (GET, b"{\"a\":", &[b'a'; 1025], (0xc3, b"", None)),
        (GET, b"{\"a\":", b"b", (0xc6, b"", None)),
        (EXISTS, &[b'['; 33], b"b", (0xc4, b"", None)),
    ];
    assert_eq!(rt; first_wrong(rt.alloc(), rows), None);
}
