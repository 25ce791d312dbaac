ghost use Rattle.std.specs.Prelude.{◌≡◌, [], IfOk};
ghost use Rattle.kv_request.specs.Tables.{specs_brought};

use crate::{Change, Effect, plan};
use doc_model::{Doc, DocKey, Refused, Status};
use kv_edge::{Bytes, NoMemory, Seq};
use kv_request::{Body, Mode, Request};
use std::alloc::Global;
use std::test::Fail;

// The CAS that each change draws.
const DRAW: u64 = 77;

// The CAS that the document has which is there.
const CAS: u64 = 11;

// What a test asks for, of the key `a`: an expiry, or a delta and an expiry. A store has the value
// `new` and flags beef, a join the value `+`, and a counter begins with 5.
#[derive(Clone, Copy, Debug)]
enum Asked {
    Hello,
    Noop,
    Version,
    Quit,
    Get,
    GetKey,
    Set(u32),
    Add,
    Replace,
    Delete,
    Increment(u64, u32),
    Decrement(u64, u32),
    Append,
    Prepend,
    Touch(u32),
    GetAndTouch(u32),
}

fn key(alloc: Global) -> Result<DocKey, NoMemory> {
    let key = Bytes::from_slice(alloc, b"a")?;
    Ok(DocKey { collection: 9, key })
}

fn store(alloc: Global, mode: Mode, expiry: u32) -> Result<Body, NoMemory>
    ensures { IfOk result (λ body. specs_brought body ≡ []) }
{
    let key = key(alloc)?;
    let value = Bytes::from_slice(alloc, b"new")?;
    Ok(Body::Store {
        key,
        mode,
        flags: 0xbeef,
        expiry,
        value,
    })
}

fn count(alloc: Global, up: bool, delta: u64, expiry: u32) -> Result<Body, NoMemory>
    ensures { IfOk result (λ body. specs_brought body ≡ []) }
{
    Ok(Body::Count {
        key: key(alloc)?,
        up,
        delta,
        initial: 5,
        expiry,
    })
}

fn join(alloc: Global, front: bool) -> Result<Body, NoMemory>
    ensures { IfOk result (λ body. specs_brought body ≡ []) }
{
    let key = key(alloc)?;
    let value = Bytes::from_slice(alloc, b"+")?;
    Ok(Body::Join { key, front, value })
}

fn touch(alloc: Global, expiry: u32, fetch: bool) -> Result<Body, NoMemory>
    ensures { IfOk result (λ body. specs_brought body ≡ []) }
{
    Ok(Body::Touch {
        key: key(alloc)?,
        expiry,
        fetch,
    })
}

fn body(alloc: Global, asked: Asked) -> Result<Body, NoMemory>
    ensures { IfOk result (λ body. specs_brought body ≡ []) }
{
    match asked {
        Asked::Hello => Ok(Body::Hello {
            wanted: Seq::new(alloc),
        }),
        Asked::Noop => Ok(Body::Noop),
        Asked::Version => Ok(Body::Version),
        Asked::Quit => Ok(Body::Quit),
        Asked::Get | Asked::GetKey => Ok(Body::Get { key: key(alloc)? }),
        Asked::Set(expiry) => store(alloc, Mode::Set, expiry),
        Asked::Add => store(alloc, Mode::Add, 0),
        Asked::Replace => store(alloc, Mode::Replace, 0),
        Asked::Delete => Ok(Body::Delete { key: key(alloc)? }),
        Asked::Increment(delta, expiry) => count(alloc, true, delta, expiry),
        Asked::Decrement(delta, expiry) => count(alloc, false, delta, expiry),
        Asked::Append => join(alloc, false),
        Asked::Prepend => join(alloc, true),
        Asked::Touch(expiry) => touch(alloc, expiry, false),
        Asked::GetAndTouch(expiry) => touch(alloc, expiry, true),
    }
}

fn opcode(asked: Asked) -> u8 {
    match asked {
        Asked::Get => 0x00,
        Asked::Set(_) => 0x01,
        Asked::Add => 0x02,
        Asked::Replace => 0x03,
        Asked::Delete => 0x04,
        Asked::Increment(_, _) => 0x05,
        Asked::Decrement(_, _) => 0x06,
        Asked::Quit => 0x07,
        Asked::Noop => 0x0a,
        Asked::Version => 0x0b,
        Asked::GetKey => 0x0c,
        Asked::Append => 0x0e,
        Asked::Prepend => 0x0f,
        Asked::Touch(_) => 0x1c,
        Asked::GetAndTouch(_) => 0x1d,
        Asked::Hello => 0x1f,
    }
}

fn request(alloc: Global, asked: Asked, cas: u64) -> Result<Request, NoMemory>
    ensures { IfOk result (λ request. specs_brought request.body ≡ []) }
{
    Ok(Request {
        opcode: opcode(asked),
        opaque: 7,
        cas,
        vbucket: 0,
        durability: None,
        body: body(alloc, asked)?,
    })
}

// A document with attributes, flags cafe and a place in the history.
fn doc(alloc: Global, value: &[u8], expiry: u32) -> Result<Doc, NoMemory> {
    let value = Bytes::from_slice(alloc, value)?;
    let xattrs = Bytes::from_slice(alloc, &[0, 0, 0, 0])?;
    Ok(Doc {
        value,
        xattrs,
        flags: 0xcafe,
        expiry,
        cas: CAS,
        seqno: 13,
        json: false,
    })
}

// What is planned where the collection grants any lifetime.
fn planned(alloc: Global, asked: Asked, doc: Option<&Doc>, now: u64) -> Result<Change, Refused> {
    let request = request(alloc, asked, 0)?;
    plan(alloc, &request, doc, 0, now, DRAW)
}

// The status that is answered.
fn status(planned: &Result<Change, Refused>) -> u16 {
    match planned {
        Ok(change) => change.reply.status.code,
        Err(Refused::Status(status)) => status.code,
        Err(Refused::NoMemory) => 0x0082,
    }
}

// The status that is answered to a request with a CAS.
fn status_at_cas(
    alloc: Global,
    asked: Asked,
    cas: u64,
    doc: Option<&Doc>,
) -> Result<u16, NoMemory> {
    let request = request(alloc, asked, cas)?;
    Ok(status(&plan(alloc, &request, doc, 0, 0, DRAW)))
}

// The document that is stored.
fn stored(planned: Result<Change, Refused>) -> Option<Doc> {
    let Change { effect, reply: _ } = planned.ok()?;
    match effect {
        Effect::Put(doc) => Some(doc),
        Effect::Nothing | Effect::Remove => None,
    }
}

// The expiry that is stored for one that is asked for.
fn given(alloc: Global, max_ttl: u32, now: u64, expiry: u32) -> Result<Option<u32>, NoMemory> {
    let request = request(alloc, Asked::Set(expiry), 0)?;
    Ok(stored(plan(alloc, &request, None, max_ttl, now, DRAW)).map(|doc| doc.expiry))
}

// Whether a document is deleted.
fn is_removed(planned: &Result<Change, Refused>) -> bool {
    match planned {
        Ok(change) => matches!(&change.effect, Effect::Remove),
        Err(_) => false,
    }
}

// Whether a request is answered with success, this CAS, these flags and this value.
fn is_answered(
    alloc: Global,
    asked: Asked,
    doc: &Doc,
    cas: u64,
    flags: Option<u32>,
    value: &[u8],
) -> Result<bool, Refused> {
    let change = planned(alloc, asked, Some(doc), 0)?;
    let reply = &change.reply;
    let is_named = (reply.opcode, reply.opaque, reply.status.code) == (opcode(asked), 7, 0x0000);
    let has_key = reply.key.is_some() == matches!(asked, Asked::GetKey);
    let is_carried = (reply.cas, reply.flags) == (cas, flags) && reply.value.as_slice() == value;
    Ok(is_named && has_key && is_carried)
}

// Whether a counter answers this number and stores this text.
fn is_counted(
    alloc: Global,
    asked: Asked,
    old: &[u8],
    answer: u64,
    text: &[u8],
) -> Result<bool, Refused> {
    let old = doc(alloc, old, 0)?;
    let Change { effect, reply } = planned(alloc, asked, Some(&old), 0)?;
    match effect {
        Effect::Put(new) => {
            let bytes = answer.to_be_bytes();
            Ok(reply.value.as_slice() == bytes.as_slice() && new.value.as_slice() == text)
        }
        Effect::Nothing | Effect::Remove => Ok(false),
    }
}

#[test]
fn a_document_is_there_until_its_second(rt: HostRuntime) -> Result<(), Fail> {
    let alloc = rt.alloc();
    let old = doc(alloc, b"4", 5)?;
    for (asked, there, gone) in [
        (Asked::Hello, 0x0081, 0x0081),
        (Asked::Noop, 0x0081, 0x0081),
        (Asked::Version, 0x0081, 0x0081),
        (Asked::Quit, 0x0081, 0x0081),
        (Asked::Get, 0x0000, 0x0001),
        (Asked::GetKey, 0x0000, 0x0001),
        (Asked::Set(0), 0x0000, 0x0000),
        (Asked::Add, 0x0002, 0x0000),
        (Asked::Replace, 0x0000, 0x0001),
        (Asked::Delete, 0x0000, 0x0001),
        (Asked::Increment(1, 0), 0x0000, 0x0000),
        (Asked::Increment(1, 0xffff_ffff), 0x0000, 0x0001),
        (Asked::Decrement(1, 0), 0x0000, 0x0000),
        (Asked::Append, 0x0000, 0x0005),
        (Asked::Prepend, 0x0000, 0x0005),
        (Asked::Touch(9), 0x0000, 0x0001),
        (Asked::GetAndTouch(9), 0x0000, 0x0001),
    ] {
        let at_last = status(&planned(alloc, asked, Some(&old), 4_999));
        let expired = status(&planned(alloc, asked, Some(&old), 5_000));
        let never = status(&planned(alloc, asked, None, 4_999));
        assert_eq!(rt; (at_last, expired, never), (there, gone, gone), "{asked:?}");
    }
    Ok(())
}

#[test]
fn a_cas_is_compared_before_anything_is_done(rt: HostRuntime) -> Result<(), Fail> {
    let alloc = rt.alloc();
    let old = doc(alloc, b"4", 0)?;
    for asked in [
        Asked::Get,
        Asked::Set(0),
        Asked::Replace,
        Asked::Delete,
        Asked::Increment(1, 0),
        Asked::Append,
        Asked::GetAndTouch(9),
    ] {
        let none = status_at_cas(alloc, asked, CAS, None)?;
        let another = status_at_cas(alloc, asked, CAS + 1, Some(&old))?;
        let same = status_at_cas(alloc, asked, CAS, Some(&old))?;
        assert_eq!(rt;
            (none, another, same),
            (0x0001, 0x0002, 0x0000),
            "{asked:?}"
        );
    }
    Ok(())
}

#[test]
fn an_expiry_counts_from_now_or_from_1970_and_is_cut(rt: HostRuntime) -> Result<(), Fail> {
    let alloc = rt.alloc();
    for (max_ttl, now, asked, wanted) in [
        (0, 5_000, 0, 0),
        (0, 5_000, 10, 15),
        (0, 5_999, 10, 15),
        (0, 5_000, 2_592_000, 2_592_005),
        (0, 5_000, 2_592_001, 2_592_001),
        (0, 4_294_967_290_000, 10, 0xffff_ffff),
        (0, 0xffff_ffff_ffff_ffff, 1, 0xffff_ffff),
        (100, 5_000, 0, 105),
        (100, 5_000, 200, 105),
        (100, 5_000, 3_000_000, 105),
        (100, 5_000, 50, 55),
        (100, 5_000_000_000, 2_592_001, 2_592_001),
        (100, 4_294_967_290_000, 0, 0xffff_ffff),
    ] {
        let expiry = given(alloc, max_ttl, now, asked)?;
        assert_eq!(rt; expiry, Some(wanted), "{asked} at {now}");
    }
    Ok(())
}

// What the document has that is stored: value, length of the attributes, flags and expiry. It has
// the CAS drawn.
#[test]
fn a_change_keeps_what_it_does_not_change(rt: HostRuntime) -> Result<(), Fail> {
    let alloc = rt.alloc();
    let old = doc(alloc, b"4", 8)?;
    for (asked, now, value, xattrs, flags, expiry) in [
        (Asked::Set(0), 7_999, "new", 4, 0xbeef, 0),
        (Asked::Set(10), 8_000, "new", 0, 0xbeef, 18),
        (Asked::Add, 8_000, "new", 0, 0xbeef, 0),
        (Asked::Replace, 7_999, "new", 4, 0xbeef, 0),
        (Asked::Increment(1, 30), 7_999, "5", 4, 0xcafe, 8),
        (Asked::Increment(1, 30), 8_000, "5", 0, 0, 38),
        (Asked::Append, 7_999, "4+", 4, 0xcafe, 8),
        (Asked::Prepend, 7_999, "+4", 4, 0xcafe, 8),
        (Asked::Touch(20), 7_999, "4", 4, 0xcafe, 27),
        (Asked::GetAndTouch(20), 7_999, "4", 4, 0xcafe, 27),
    ] {
        let made = stored(planned(alloc, asked, Some(&old), now)).unwrap_or(doc(
            alloc, b"none", 0,
        )?);
        assert_eq!(rt;
            (
                made.value.as_slice(),
                made.xattrs.len(),
                made.flags,
                made.expiry,
                made.cas
            ),
            (value.as_bytes(), xattrs, flags, expiry, DRAW),
            "{asked:?}"
        );
    }
    Ok(())
}

#[test]
fn a_reply_carries_what_its_opcode_asks_for(rt: HostRuntime) -> Result<(), Fail> {
    let alloc = rt.alloc();
    let old = doc(alloc, b"4", 0)?;
    let flags = Some(0xcafe);
    assert!(rt; is_answered(alloc, Asked::Get, &old, CAS, flags, b"4")?);
    assert!(rt; is_answered(alloc, Asked::GetKey, &old, CAS, flags, b"4")?);
    assert!(rt; is_answered(alloc, Asked::Set(0), &old, DRAW, None, b"")?);
    assert!(rt; is_answered(alloc, Asked::Delete, &old, DRAW, None, b"")?);
    let number = b"\0\0\0\0\0\0\x01\x05";
    assert!(rt; is_answered(alloc, Asked::Increment(0x101, 0), &old, DRAW, None, number)?);
    assert!(rt; is_answered(alloc, Asked::Append, &old, DRAW, None, b"")?);
    assert!(rt; is_answered(alloc, Asked::Touch(9), &old, DRAW, None, b"")?);
    assert!(rt; is_answered(alloc, Asked::GetAndTouch(9), &old, DRAW, flags, b"4")?);
    Ok(())
}

#[test]
fn a_get_leaves_the_document_and_a_delete_takes_it_away(rt: HostRuntime) -> Result<(), Fail> {
    let alloc = rt.alloc();
    let old = doc(alloc, b"4", 0)?;
    assert_eq!(rt; stored(planned(alloc, Asked::Get, Some(&old), 0)), None);
    assert!(rt; !is_removed(&planned(alloc, Asked::Get, Some(&old), 0)));
    assert!(rt; is_removed(&planned(alloc, Asked::Delete, Some(&old), 0)));
    Ok(())
}

#[test]
fn counters_go_on_from_0_and_stop_at_0(rt: HostRuntime) -> Result<(), Fail> {
    let alloc = rt.alloc();
    let up = Asked::Increment(1, 0);
    let down = Asked::Decrement(5, 0);
    assert!(rt; is_counted(alloc, up, b"18446744073709551615", 0, b"0")?);
    assert!(rt; is_counted(alloc, up, b"007", 8, b"8")?);
    assert!(rt; is_counted(alloc, up, b"00000000000000065535", 65536, b"65536")?);
    assert!(rt; is_counted(alloc, down, b"3", 0, b"0")?);
    assert!(rt; is_counted(alloc, down, b"14", 9, b"9")?);

    let begun = planned(alloc, down, None, 0)?;
    assert_eq!(rt;
        begun.reply.value.as_slice(),
        b"\0\0\0\0\0\0\0\x05".as_slice()
    );
    Ok(())
}

#[test]
fn what_is_no_number_below_2_to_the_64_is_not_counted(rt: HostRuntime) {
    let alloc = rt.alloc();
    for old in [
        b"x".as_slice(),
        b"",
        b"1x",
        b"-1",
        b" 1",
        b"18446744073709551616",
        b"99999999999999999999",
        b"000000000000000000001",
    ] {
        let refused = is_counted(alloc, Asked::Increment(1, 0), old, 0, b"0").err();
        assert_eq!(rt;
            refused,
            Some(Refused::Status(Status { code: 0x0006 })),
            "{old:?}"
        );
    }
}

#[test]
fn a_value_grows_up_to_its_limit(rt: HostRuntime) -> Result<(), Fail> {
    let alloc = rt.alloc();
    for (size, wanted) in [(20_971_519, 0x0000), (20_971_520, 0x0003)] {
        let value = vec![in alloc; 0; size]?;
        let old = doc(alloc, value.as_slice(), 0)?;
        let appended = status(&planned(alloc, Asked::Append, Some(&old), 0));
        let prepended = status(&planned(alloc, Asked::Prepend, Some(&old), 0));
        assert_eq!(rt; (appended, prepended), (wanted, wanted), "{size}");
    }
    Ok(())
}
