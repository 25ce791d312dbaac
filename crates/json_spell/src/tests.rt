//! What no clause says: that the grammar of the clauses is that of RFC 8259 and RFC 3629.
use crate::{Judgement, Node, Scanned, is_json, judge_text, nodes, scan};
use json_model::Kind;
use std::alloc::Global;
use std::test::Fail;

const JSON: u16 = 0;

const NOT: u16 = 1;

const DEEP: u16 = 2;

fn judged(text: &[u8]) -> (u16, usize) {
    match judge_text(text) {
        Judgement::Json => (JSON, 0),
        Judgement::Not(place) => (NOT, place),
        Judgement::Deep(place) => (DEEP, place),
    }
}

fn scanned(alloc: Global, text: &[u8]) -> (u16, usize) {
    match scan(alloc, text) {
        Scanned::Json(_) => (JSON, 0),
        Scanned::Not(place) => (NOT, place),
        Scanned::Deep(place) => (DEEP, place),
        Scanned::NoMemory => (3, 0),
    }
}

/// The number of the first row whose text is told otherwise.
fn first_wrong(alloc: Global, rows: &[(&[u8], (u16, usize))]) -> Option<usize> {
    let mut number = 0;
    for (text, wanted) in rows {
        if judged(text) != *wanted || scanned(alloc, text) != *wanted {
            return Some(number);
        }
        if is_json(text) != (wanted.0 == JSON) {
            return Some(number);
        }
        number = number.saturating_add(1);
    }
    None
}

#[test]
fn texts_of_the_grammar_are_json(rt: HostRuntime) {
    let rows: &[(&[u8], (u16, usize))] = &[
        (b" \t\n\r1 \t\n\r", (JSON, 0)),
        (b"-0.5E-10", (JSON, 0)),
        (b"[ ]", (JSON, 0)),
        (b"{ }", (JSON, 0)),
        (b"[true,false,null,\"\",0]", (JSON, 0)),
        (b"{\"a\" : {\"a\":1} , \"a\":[2]}", (JSON, 0)),
        (b"\"\\\"\\\\\\/\\b\\f\\n\\r\\t\\u00Ff\"", (JSON, 0)),
        (b"\"\\ud800\"", (JSON, 0)),
        (
            b"\"\x7f\xc2\x80\xe0\xa0\x80\xed\x9f\xbf\xf0\x90\x80\x80\xf4\x8f\xbf\xbf\"",
            (JSON, 0),
        ),
    ];
    assert_eq!(rt; first_wrong(rt.alloc(), rows), None);
}

#[test]
fn a_wrong_byte_is_told_by_its_place(rt: HostRuntime) {
    let rows: &[(&[u8], (u16, usize))] = &[
        (b"{\"a\":tru}", (NOT, 8)),
        (b"[1,]", (NOT, 3)),
        (b"01", (NOT, 1)),
        (b"+1", (NOT, 0)),
        (b".5", (NOT, 0)),
        (b"1 1", (NOT, 2)),
        (b"[1}", (NOT, 2)),
        (b"{1:2}", (NOT, 1)),
        (b"{\"a\" 1}", (NOT, 5)),
        (b"\"\\x\"", (NOT, 2)),
        (b"\"\\u12g4\"", (NOT, 5)),
        (b"\"\x1f\"", (NOT, 1)),
        (b"\x0b1", (NOT, 0)),
        (b"\x0c1", (NOT, 0)),
        (b"\xa01", (NOT, 0)),
        (b"\xef\xbb\xbf1", (NOT, 0)),
        (b"\"\xc0\x80\"", (NOT, 1)),
        (b"\"\xed\xa0\x80\"", (NOT, 2)),
        (b"\"\xf4\x90\x80\x80\"", (NOT, 2)),
        (b"\"\xf5\x80\x80\x80\"", (NOT, 1)),
    ];
    assert_eq!(rt; first_wrong(rt.alloc(), rows), None);
}

#[test]
fn a_text_that_ends_early_is_told_by_its_length(rt: HostRuntime) {
    let rows: &[(&[u8], (u16, usize))] = &[
        (b"", (NOT, 0)),
        (b"\"ab", (NOT, 3)),
        (b"1.", (NOT, 2)),
        (b"-", (NOT, 1)),
        (b"1e", (NOT, 2)),
        (b"nul", (NOT, 3)),
        (&[b'['; 32], (NOT, 32)),
    ];
    assert_eq!(rt; first_wrong(rt.alloc(), rows), None);
}

#[test]
fn depth_32_is_taken_and_33_is_told_by_its_bracket(rt: HostRuntime) {
    let rows: &[(&[u8], (u16, usize))] = &[
        (
            b"[[[[[[[[[[[[[[[[[[[[[[[[[[[[[[[[]]]]]]]]]]]]]]]]]]]]]]]]]]]]]]]]",
            (JSON, 0),
        ),
        (&[b'['; 33], (DEEP, 32)),
        (b"[[[[[[[[[[[[[[[[[[[[[[[[[[[[[[[{\"\":{}}", (DEEP, 35)),
    ];
    assert_eq!(rt; first_wrong(rt.alloc(), rows), None);
}

fn node(kind: Kind, place: (usize, usize), key: (usize, usize), children: u32, after: u32) -> Node {
    Node {
        kind,
        from: place.0,
        to: place.1,
        key_from: key.0,
        key_to: key.1,
        children,
        after,
    }
}

#[test]
fn values_stand_where_the_head_page_says(rt: HostRuntime) -> Result<(), Fail> {
    let spans = match scan(rt.alloc(), b"{\"a\": [1], \"b\": {}}") {
        Scanned::Json(spans) => spans,
        _ => return Err("a JSON text".into()),
    };
    let wanted = [
        node(Kind::Object, (0, 19), (0, 0), 2, 4),
        node(Kind::Array, (6, 9), (1, 4), 1, 3),
        node(Kind::Number, (7, 8), (0, 0), 0, 3),
        node(Kind::Object, (16, 18), (11, 14), 0, 4),
    ];
    assert_eq!(rt; nodes(&spans), wanted.as_slice());
    Ok(())
}
