//! Look-ups and edits of parts, by what they find, store and answer.
ghost use Rattle.std.specs.Prelude.{◌≡◌, [], IfOk};
ghost use Rattle.kv_request.specs.Tables.{specs_brought};

use crate::{Change, Effect, plan};
use doc_model::{Doc, DocKey, Refused};
use kv_edge::{Bytes, NoMemory};
use kv_request::{Body, Request, Spec};
use std::alloc::Global;

const GET: u8 = 0xc5;

const EXISTS: u8 = 0xc6;

const UPSERT: u8 = 0xc8;

const DELETE: u8 = 0xc9;

const PUSH_LAST: u8 = 0xcb;

const INSERT: u8 = 0xcd;

const COUNTER: u8 = 0xcf;

const COUNT: u8 = 0xd2;

/// A request on a part: opcode, the path's flags, path, value, expiry, the document's flags.
type Asked<'a> = (u8, u8, &'a [u8], &'a [u8], Option<u32>, u8);

/// The request, at the key `a`.
fn request(alloc: Global, asked: Asked<'_>) -> Result<Request, NoMemory>
    ensures { IfOk result (λ request. specs_brought request.body ≡ []) }
{
    let (opcode, flags, path, value, expiry, doc_flags) = asked;
    let key = DocKey {
        collection: 9,
        key: Bytes::from_slice(alloc, b"a")?,
    };
    let spec = Spec {
        opcode,
        flags,
        path: Bytes::from_slice(alloc, path)?,
        value: Bytes::from_slice(alloc, value)?,
    };
    let body = match opcode {
        GET | EXISTS | COUNT => Body::Look { key, spec },
        _ => Body::Edit {
            key,
            spec,
            expiry,
            doc_flags,
        },
    };
    Ok(Request {
        opcode,
        opaque: 7,
        cas: 0,
        vbucket: 0,
        durability: None,
        body,
    })
}

/// What is planned at second 5, where the key has a document of this value that expires in second
/// 900, or none.
fn planned(alloc: Global, asked: Asked<'_>, value: Option<&[u8]>) -> Result<Change, Refused> {
    let request = request(alloc, asked)?;
    match value {
        None => plan(alloc, &request, None, 0, 5_000, 77),
        Some(value) => {
            let doc = Doc {
                value: Bytes::from_slice(alloc, value)?,
                xattrs: Bytes::new(alloc),
                flags: 0xcafe,
                expiry: 900,
                cas: 11,
                seqno: 13,
                json: false,
            };
            plan(alloc, &request, Some(&doc), 0, 5_000, 77)
        }
    }
}

/// The status of a request with the bytes of its answer and of the document that it stores, with
/// its expiry; 0xffff for other bytes or another expiry than these, and for want of memory.
fn outcome(
    alloc: Global,
    asked: Asked<'_>,
    value: Option<&[u8]>,
    wanted: (&[u8], Option<(&[u8], u32)>),
) -> u16 {
    match planned(alloc, asked, value) {
        Err(Refused::Status(status)) => status.code,
        Err(Refused::NoMemory) => 0xffff,
        Ok(change) => {
            let stored = match &change.effect {
                Effect::Put(doc) if doc.json => Some((doc.value.as_slice(), doc.expiry)),
                _ => None,
            };
            if (change.reply.value.as_slice(), stored) == wanted {
                change.reply.status.code
            } else {
                0xffff
            }
        }
    }
}

/// A request, the value of the document that is there, the status, and what is answered and stored.
type Row<'a> = (
    Asked<'a>,
    Option<&'a [u8]>,
    u16,
    (&'a [u8], Option<(&'a [u8], u32)>),
);

/// The number of the first row that comes to something else.
fn first_wrong(alloc: Global, rows: &[Row<'_>]) -> Option<usize> {
    let mut number = 0;
    for (asked, value, status, wanted) in rows {
        if outcome(alloc, *asked, *value, *wanted) != *status {
            return Some(number);
        }
        number = number.saturating_add(1);
    }
    None
}

const NOTHING: (&[u8], Option<(&[u8], u32)>) = (b"", None);

const ROWS: [Row<'static>; 21] = [
    (
        (GET, 0, b"a", b"", None, 0),
        Some(b"{\"a\": [1, 2] }"),
        0,
        (b"[1, 2]", None),
    ),
    (
        (COUNT, 0, b"a", b"", None, 0),
        Some(b"{\"a\": [1, 2] }"),
        0,
        (b"2", None),
    ),
    (
        (EXISTS, 0, b"a", b"", None, 0),
        Some(b"{\"a\": [1, 2] }"),
        0,
        NOTHING,
    ),
    (
        (EXISTS, 0, b"b", b"", None, 0),
        Some(b"{\"a\": [1, 2] }"),
        0xc0,
        NOTHING,
    ),
    ((GET, 0, b"a", b"", None, 0), None, 0x01, NOTHING),
    ((GET, 0, b"a", b"", None, 0), Some(b"a"), 0xc6, NOTHING),
    (
        (UPSERT, 0, b"b", b"2", None, 0),
        Some(b"{}"),
        0,
        (b"", Some((b"{\"b\":2}", 900))),
    ),
    (
        (UPSERT, 0, b"b", b"2", Some(10), 0),
        Some(b"{}"),
        0,
        (b"", Some((b"{\"b\":2}", 15))),
    ),
    (
        (UPSERT, 0, b"b", b"2", Some(0), 0),
        Some(b"{}"),
        0,
        (b"", Some((b"{\"b\":2}", 0))),
    ),
    (
        (UPSERT, 0, b"b.c", b"2", None, 0),
        Some(b"{}"),
        0xc0,
        NOTHING,
    ),
    (
        (UPSERT, 1, b"b.c", b"2", None, 0),
        Some(b"{}"),
        0,
        (b"", Some((b"{\"b\":{\"c\":2}}", 900))),
    ),
    (
        (UPSERT, 0, b"b.c", b"2", None, 1),
        Some(b"{}"),
        0,
        (b"", Some((b"{\"b\":{\"c\":2}}", 900))),
    ),
    ((UPSERT, 0, b"b", b"2", None, 0), None, 0x01, NOTHING),
    (
        (UPSERT, 0, b"b.c", b"2", None, 1),
        None,
        0,
        (b"", Some((b"{\"b\":{\"c\":2}}", 0))),
    ),
    (
        (UPSERT, 0, b"b", b"2", Some(10), 2),
        None,
        0,
        (b"", Some((b"{\"b\":2}", 15))),
    ),
    ((UPSERT, 0, b"b", b"2", None, 2), Some(b"{}"), 0x02, NOTHING),
    (
        (PUSH_LAST, 0, b"", b"1", None, 1),
        None,
        0,
        (b"", Some((b"[1]", 0))),
    ),
    (
        (INSERT, 0, b"[0]", b"1", None, 2),
        None,
        0,
        (b"", Some((b"[1]", 0))),
    ),
    ((DELETE, 0, b"a", b"", None, 1), None, 0xc0, NOTHING),
    (
        (COUNTER, 0, b"n", b"3", None, 0),
        Some(b"{\"n\":5}"),
        0,
        (b"8", Some((b"{\"n\":8}", 900))),
    ),
    (
        (COUNTER, 0, b"n", b"-3", None, 1),
        None,
        0,
        (b"-3", Some((b"{\"n\":-3}", 0))),
    ),
];

#[test]
fn parts_are_looked_at_and_edited(rt: HostRuntime) {
    assert_eq!(rt; first_wrong(rt.alloc(), &ROWS), None);
}
