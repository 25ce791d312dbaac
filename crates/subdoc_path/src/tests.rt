//! What no clause says: that the grammar of the clauses is the one of the head page.
use crate::{Found, Led, PathFault, find, follow, read_path};
use json_model::Part;
use json_spell::{Scanned, is_json, scan};
use std::alloc::Global;

const EINVAL: u16 = 1001;

const E2BIG: u16 = 1002;

const AT: u16 = 0;

const MISSING: u16 = 1;

const MISMATCH: u16 = 2;

/// Whether a part is this name, or this number where the name is one byte 0, or the last element
/// where it is two of them.
fn is_part(part: &Part, name: &[u8], number: u32) -> bool {
    match part {
        Part::Member(found) => found.as_slice() == name,
        Part::At(found) => name == [0].as_slice() && *found == number,
        Part::Last => name == [0, 0].as_slice(),
    }
}

/// How many parts a path has, or why it is none, and whether its last part is this one.
fn is_read(alloc: Global, path: &[u8], parts: u16, name: &[u8], number: u32) -> bool {
    match read_path(alloc, path) {
        Ok(path) => {
            path.parts().len() == parts as usize
                && match path.parts().last() {
                    None => true,
                    Some(part) => is_part(part, name, number),
                }
        }
        Err(PathFault::Einval) => parts == EINVAL,
        Err(PathFault::E2big) => parts == E2BIG,
        Err(PathFault::NoMemory) => false,
    }
}

/// The number of the first row whose path is read otherwise.
fn first_misread(alloc: Global, rows: &[(&[u8], u16, &[u8], u32)]) -> Option<usize> {
    let mut number = 0;
    for (path, parts, name, index) in rows {
        if !is_read(alloc, path, *parts, name, *index) {
            return Some(number);
        }
        number = number.saturating_add(1);
    }
    None
}

#[test]
fn paths_are_those_of_the_grammar(rt: HostRuntime) {
    let rows: &[(&[u8], u16, &[u8], u32)] = &[
        (b"", 0, b"", 0),
        (b"a", 1, b"a", 0),
        (b"a.b", 2, b"b", 0),
        (b"a[0]", 2, b"\0", 0),
        (b"[0]", 1, b"\0", 0),
        (b"[-1]", 1, b"\0\0", 0),
        (b"[0][1].x", 3, b"x", 0),
        (b"``", 1, b"", 0),
        (b"```", EINVAL, b"", 0),
        (b"````", 1, b"`", 0),
        (b"`a.b`", 1, b"a.b", 0),
        (b"`a`.`[`[12]", 3, b"\0", 12),
        (b"a..b", EINVAL, b"", 0),
        (b".a", EINVAL, b"", 0),
        (b"a.", EINVAL, b"", 0),
        (b"`a`b", EINVAL, b"", 0),
        (b"a`b`", EINVAL, b"", 0),
        (b"[]", EINVAL, b"", 0),
        (b"[01]", EINVAL, b"", 0),
        (b"[4294967295]", 1, b"\0", 4294967295),
        (b"[4294967296]", EINVAL, b"", 0),
        (b"[-2]", EINVAL, b"", 0),
        (b"[+1]", EINVAL, b"", 0),
        (b"[0", EINVAL, b"", 0),
        (b"a]", EINVAL, b"", 0),
        (b"\xc3\xa9", 1, b"\xc3\xa9", 0),
        (b"a\xff", EINVAL, b"", 0),
        (b"`\xc3`", EINVAL, b"", 0),
    ];
    assert_eq!(rt; first_misread(rt.alloc(), rows), None);
}

#[test]
fn limits_of_bytes_and_parts_are_told_in_order(rt: HostRuntime) {
    let rows: &[(&[u8], u16, &[u8], u32)] = &[
        (&[b'a'; 1024], 1, &[b'a'; 1024], 0),
        (&[b'a'; 1025], E2BIG, b"", 0),
        (&[0xff; 1025], E2BIG, b"", 0),
        (
            b"a.b.c.d.e.f.g.h.i.j.k.l.m.n.o.p.a.b.c.d.e.f.g.h.i.j.k.l.m.n.o.p",
            32,
            b"p",
            0,
        ),
        (
            b"a.b.c.d.e.f.g.h.i.j.k.l.m.n.o.p.a.b.c.d.e.f.g.h.i.j.k.l.m.n.o.p[0]",
            E2BIG,
            b"",
            0,
        ),
        (
            b"a.b.c.d.e.f.g.h.i.j.k.l.m.n.o.p.a.b.c.d.e.f.g.h.i.j.k.l.m.n.o.p[0].",
            EINVAL,
            b"",
            0,
        ),
    ];
    assert_eq!(rt; first_misread(rt.alloc(), rows), None);
}

/// Where a path leads in a text.
fn found(alloc: Global, text: &[u8], path: &[u8]) -> Option<(u16, usize)> {
    match (scan(alloc, text), read_path(alloc, path)) {
        (Scanned::Json(spans), Ok(path)) => match find(text, &spans, &path) {
            Found::At(place) => Some((AT, place)),
            Found::Missing(number) => Some((MISSING, number)),
            Found::Mismatch(number) => Some((MISMATCH, number)),
        },
        _ => None,
    }
}

/// Where a path leads in a text itself.
fn led(alloc: Global, text: &[u8], path: &[u8]) -> Option<(u16, usize)> {
    if !is_json(text) {
        return None;
    }
    match read_path(alloc, path) {
        Ok(path) => match follow(text, path.parts()) {
            Led::At(place) => Some((AT, place)),
            Led::Missing(number) => Some((MISSING, number)),
            Led::Mismatch(number) => Some((MISMATCH, number)),
        },
        Err(_) => None,
    }
}

/// The number of the first row whose path leads elsewhere: what is told with the value's number or
/// the part's, and the place of the value's first byte or the part's number again.
fn first_misled(alloc: Global, rows: &[(&[u8], &[u8], (u16, usize), usize)]) -> Option<usize> {
    let mut number = 0;
    for (text, path, wanted, place) in rows {
        if found(alloc, text, path) != Some(*wanted) {
            return Some(number);
        }
        if led(alloc, text, path) != Some((wanted.0, *place)) {
            return Some(number);
        }
        number = number.saturating_add(1);
    }
    None
}

#[test]
fn paths_lead_where_the_head_page_says(rt: HostRuntime) {
    let page: &[u8] = b"{\"a\": {\"b\": [true, 7]}}";
    let keys: &[u8] =
        b"{\"\\u0061\":1,\"a\":2,\"\\ud83d\\ude00\":3,\"\\ud83d\":4,\"\\/\":5,\"\":6}";
    let nested: &[u8] = b"[[1,2],[3,[4]],5]";
    let blank: &[u8] = b" [ 1 , [2,3] , true ] ";
    let brackets: &[u8] = b"{\"x\":\"]},\\\"\",\"y\" : [ ] }";
    let rows: &[(&[u8], &[u8], (u16, usize), usize)] = &[
        (page, b"", (AT, 0), 0),
        (page, b"a.b[-1]", (AT, 4), 19),
        (page, b"a.b[0]", (AT, 3), 13),
        (page, b"a.b[2]", (MISSING, 2), 2),
        (page, b"a.c.d", (MISSING, 1), 1),
        (page, b"a[0]", (MISMATCH, 1), 1),
        (page, b"[0]", (MISMATCH, 0), 0),
        (page, b"a.b[1].c", (MISMATCH, 3), 3),
        (keys, b"a", (AT, 1), 10),
        (keys, b"\xf0\x9f\x98\x80", (AT, 3), 33),
        (b"{\"\\ud83d\":1}", b"``", (MISSING, 0), 0),
        (keys, b"/", (AT, 5), 51),
        (keys, b"``", (AT, 6), 56),
        (keys, b"b", (MISSING, 0), 0),
        (b" [ ] ", b"[-1]", (MISSING, 0), 0),
        (b" [ ] ", b"a", (MISMATCH, 0), 0),
        (b"{}", b"a", (MISSING, 0), 0),
        (b"{}", b"[-1]", (MISMATCH, 0), 0),
        (nested, b"[1][-1][0]", (AT, 7), 11),
        (nested, b"[2]", (AT, 8), 15),
        (blank, b"", (AT, 0), 1),
        (blank, b"[1][-1]", (AT, 4), 10),
        (blank, b"[-1]", (AT, 5), 15),
        (brackets, b"y", (AT, 2), 19),
        (brackets, b"y[0]", (MISSING, 1), 1),
    ];
    assert_eq!(rt; first_misled(rt.alloc(), rows), None);
}
