ghost use Rattle.std.specs.Prelude.{◌≡◌, None, true, length, IfOk};

use crate::{Exit, run_offline};
use kv_edge::{Bytes, Clock, MemClock, MemSink, MemSource, Put, Sink, Source, Taken};
use magma_disk::MemDisk;
use std::alloc::{AllocError, Global};
use std::cell::Cell;
use std::process::Abort;
use std::test::Fail;

// How the source and the sink of a run behave.
#[derive(Clone, Copy)]
pub(crate) struct Outside {
    pub(crate) most_a_call: usize,
    pub(crate) failing_read: Option<u64>,
    pub(crate) failing_write: Option<u64>,
}

pub(crate) const WHOLE: Outside = Outside {
    most_a_call: 1 << 20,
    failing_read: None,
    failing_write: None,
};

const IN_BYTES: Outside = Outside {
    most_a_call: 1,
    failing_read: None,
    failing_write: None,
};

pub(crate) const GET: &str = "80 00 0001 00 00 0000 00000001 deadbeef 0000000000000000 61";

pub(crate) const CUT_GET: &str = "80 00 0001 00 00 0000 00000001 deadbeef 00000000000000";

pub(crate) const NOT_FOUND: &str = "81 00 0000 00 00 0001 00000000 deadbeef 0000000000000000";

pub(crate) const SET: &str =
    "80 01 0001 08 00 0000 0000000b 00000001 0000000000000000 0000002a 00000000 61 6869";

pub(crate) const WAS_SET: &str = "81 01 0000 00 00 0000 00000000 00000001 0000000000000001";

const WAS_SET_WITH_TOKEN: &str = "\
    81 01 0000 10 00 0000 00000010 00000001 0000000000000001 \
    0000000000000004 0000000000000001";

pub(crate) const SET_AND_GET: &str = "\
    80 01 0001 08 00 0000 0000000b 00000001 0000000000000000 0000002a 00000000 61 6869 \
    80 00 0001 00 00 0000 00000001 00000002 0000000000000000 61";

pub(crate) const WAS_SET_AND_FOUND: &str = "\
    81 01 0000 00 00 0000 00000000 00000001 0000000000000001 \
    81 00 0000 04 00 0000 00000006 00000002 0000000000000001 0000002a 6869";

const DELETE_AND_GET: &str = "\
    80 04 0001 00 00 0000 00000001 00000003 0000000000000000 61 \
    80 00 0001 00 00 0000 00000001 00000004 0000000000000000 61";

const WAS_DELETED: &str = "\
    81 04 0000 00 00 0000 00000000 00000003 0000000000000002 \
    81 00 0000 00 00 0001 00000000 00000004 0000000000000000";

const GETQ: &str = "80 09 0001 00 00 0000 00000001 00000008 0000000000000000 61";

const NOOP: &str = "80 0a 0000 00 00 0000 00000000 00000009 0000000000000000";

const NOTHING_DONE: &str = "81 0a 0000 00 00 0000 00000000 00000009 0000000000000000";

// A Noop with the opaque 0, whose reply has as many bytes.
const PLAIN_NOOP: [u8; 24] = [
    0x80, 0x0a, 0, 0, 0, 0, 0, 0, 0, 0, 0, 0, 0, 0, 0, 0, 0, 0, 0, 0, 0, 0, 0, 0,
];

// A Quit with the opaque 5.
const QUIT: [u8; 24] = [
    0x80, 0x07, 0, 0, 0, 0, 0, 0, 0, 0, 0, 0, 0, 0, 0, 5, 0, 0, 0, 0, 0, 0, 0, 0,
];

// The header of a Noop but for its first byte, which no frame has.
const NO_FRAME: [u8; 24] = [
    0x82, 0x0a, 0, 0, 0, 0, 0, 0, 0, 0, 0, 0, 0, 0, 0, 0, 0, 0, 0, 0, 0, 0, 0, 0,
];

const QUIT_AND_GET: &str = "\
    80 07 0000 00 00 0000 00000000 00000005 0000000000000000 \
    80 00 0001 00 00 0000 00000001 00000006 0000000000000000 61";

const HAS_QUIT: &str = "81 07 0000 00 00 0000 00000000 00000005 0000000000000000";

const QUITQ_AND_GET: &str = "\
    80 17 0000 00 00 0000 00000000 00000005 0000000000000000 \
    80 00 0001 00 00 0000 00000001 00000006 0000000000000000 61";

// Asks for the features 0003, 0004 and 000b.
const HELLO: &str = "80 1f 0000 00 00 0000 00000006 00000007 0000000000000000 0003 0004 000b";

const GRANTED: &str = "81 1f 0000 00 00 0000 00000004 00000007 0000000000000000 0004 000b";

// Sets with a framing extra that asks for a level of durability: 1, 4, and 1 with the timeout 0.
const SET_AT_LEVEL_1: &str =
    "08 01 02 01 08 00 0000 0000000c 00000005 0000000000000000 1101 0000000000000000 61 31";

const SET_AT_LEVEL_4: &str =
    "08 01 02 01 08 00 0000 0000000c 00000005 0000000000000000 1104 0000000000000000 61 31";

const SET_IN_NO_TIME: &str =
    "08 01 04 01 08 00 0000 0000000e 00000005 0000000000000000 13010000 0000000000000000 61 31";

const NOT_SUPPORTED: &str = "81 01 0000 00 00 0083 00000000 00000005 0000000000000000";

const NO_SUCH_LEVEL: &str = "81 01 0000 00 00 00a0 00000000 00000005 0000000000000000";

const INVALID: &str = "81 01 0000 00 00 0004 00000000 00000005 0000000000000000";

// Asks for tokens and for collections.
const HELLO_COLLECTIONS: &str =
    "80 1f 0000 00 00 0000 00000004 00000007 0000000000000000 0004 0012";

const GRANTED_COLLECTIONS: &str =
    "81 1f 0000 00 00 0000 00000004 00000007 0000000000000000 0004 0012";

// Manifests with and without a collection 8 called `fruit`, and with a cut-off text.
const WITH_FRUIT: &str =
    r#"{"uid":"1","scopes":[{"name":"_default","uid":"0","collections":[{"name":"_default","uid":"0"},{"name":"fruit","uid":"8"}]}]}"#;

const WITHOUT_FRUIT: &str =
    r#"{"uid":"1","scopes":[{"name":"_default","uid":"0","collections":[{"name":"_default","uid":"0"}]}]}"#;

const EARLIER: &str =
    r#"{"uid":"0","scopes":[{"name":"_default","uid":"0","collections":[{"name":"_default","uid":"0"}]}]}"#;

const LATER: &str =
    r#"{"uid":"2","scopes":[{"name":"_default","uid":"0","collections":[{"name":"_default","uid":"0"}]}]}"#;

const FRUIT_AGAIN: &str =
    r#"{"uid":"3","scopes":[{"name":"_default","uid":"0","collections":[{"name":"_default","uid":"0"},{"name":"fruit","uid":"8"}]}]}"#;

const WITHOUT_A_MAGIC: &str = "82 00 0001 00 00 0000 00000001 deadbeef 0000000000000000 61";

const KEY_OVER_BODY: &str = "80 00 0002 00 00 0000 00000001 00000000 0000000000000000";

const BODY_OVER_LIMIT: &str = "80 00 0002 00 00 0000 01600001 00000000 0000000000000000";

// Adds the bytes of a row of hexadecimal digits.
fn add_row(alloc: Global, bytes: &mut Vec<u8>, row: &str) -> Result<(), Fail> {
    let more = hex_rows::bytes_of(alloc, row)?;
    bytes.extend_from_slice(&more)?;
    Ok(())
}

// The bytes of texts, one behind the other.
pub(crate) fn bytes_of(alloc: Global, texts: &[&str]) -> Result<Vec<u8>, Fail> {
    let mut bytes = Vec::new(alloc);
    for text in texts {
        add_row(alloc, &mut bytes, text)?;
    }
    Ok(bytes)
}

fn words_of(alloc: Global, texts: &[&str]) -> Result<Vec<String>, Fail> {
    let mut words = Vec::new(alloc);
    for text in texts {
        words.push(String::from_str(alloc, text)?)?;
    }
    Ok(words)
}

// Four disks: this one, and three without a byte.
pub(crate) fn disks_behind(alloc: Global, first: MemDisk) -> Result<Vec<MemDisk>, AllocError>
    ensures { IfOk result (λ disks. length disks.items ≡ 4) }
{
    vec![in alloc;
        first,
        MemDisk::new(alloc, Vec::new(alloc)),
        MemDisk::new(alloc, Vec::new(alloc)),
        MemDisk::new(alloc, Vec::new(alloc)),
    ]
    .map_err(|_refused| AllocError)
}

// Four disks without a byte.
pub(crate) fn empty_disks(alloc: Global) -> Result<Vec<MemDisk>, AllocError>
    ensures { IfOk result (λ disks. length disks.items ≡ 4) }
{
    disks_behind(alloc, MemDisk::new(alloc, Vec::new(alloc)))
}

fn numbers(alloc: Global, number: Option<u64>) -> Result<Vec<u64>, Fail> {
    let mut numbers = Vec::new(alloc);
    if let Some(number) = number {
        numbers.push(number)?;
    }
    Ok(numbers)
}

// What the words come to over the input and empty disks, and what is written.
fn run(
    alloc: Global,
    words: &[&str],
    input: Vec<u8>,
    outside: Outside,
) -> Result<(Exit, MemSink), Fail> {
    let (exit, sink, _) = run_on(alloc, words, input, outside, empty_disks(alloc)?)?;
    Ok((exit, sink))
}

// What the words come to over the input and these disks, what is written, and the disks then.
pub(crate) fn run_on(
    alloc: Global,
    words: &[&str],
    input: Vec<u8>,
    outside: Outside,
    disks: Vec<MemDisk>,
) -> Result<(Exit, MemSink, Vec<MemDisk>), Fail>
    requires { length disks.items ≡ 4 }
{
    let words = words_of(alloc, words)?;
    let failing_reads = numbers(alloc, outside.failing_read)?;
    let failing_writes = numbers(alloc, outside.failing_write)?;
    let most = outside.most_a_call.max(1);
    let mut source = MemSource::new(Bytes::from_vec(input), most, failing_reads);
    let mut sink = MemSink::new(alloc, most, failing_writes);
    let mut clock = MemClock::new(0);
    let (exit, disks) = run_offline(alloc, &words, &mut source, &mut sink, disks, &mut clock);
    Ok((exit, sink, disks))
}

// Asserts that the frames of an input are answered so, read whole and byte by byte.
fn assert_answered(
    rt: &impl Abort,
    alloc: Global,
    frames: &[&str],
    replies: &[&str],
    wanted: Exit,
) -> Result<(), Fail> {
    let output = bytes_of(alloc, replies)?;
    for outside in [WHOLE, IN_BYTES] {
        let (exit, sink) = run(alloc, &["pipe"], bytes_of(alloc, frames)?, outside)?;
        assert_eq!(rt; exit, wanted);
        assert_eq!(rt; sink.bytes(), output.as_slice());
    }
    Ok(())
}

#[test]
fn frames_are_answered_however_the_input_is_cut(rt: HostRuntime) -> Result<(), Fail> {
    let cases: [(&[&str], &[&str]); 7] = [
        (&[], &[]),
        (&[GET], &[NOT_FOUND]),
        (&[SET_AND_GET], &[WAS_SET_AND_FOUND]),
        (
            &[SET_AND_GET, DELETE_AND_GET],
            &[WAS_SET_AND_FOUND, WAS_DELETED],
        ),
        (&[GETQ, NOOP], &[NOTHING_DONE]),
        (&[SET, QUIT_AND_GET], &[WAS_SET, HAS_QUIT]),
        (&[SET, QUITQ_AND_GET], &[WAS_SET]),
    ];
    for (frames, replies) in cases {
        assert_answered(&rt, rt.alloc(), frames, replies, Exit::Done)?;
    }
    Ok(())
}

#[test]
fn features_and_levels_are_answered(rt: HostRuntime) -> Result<(), Fail> {
    let cases: [(&[&str], &[&str]); 4] = [
        (&[HELLO, SET], &[GRANTED, WAS_SET_WITH_TOKEN]),
        (&[SET_AT_LEVEL_1], &[NOT_SUPPORTED]),
        (&[SET_AT_LEVEL_4], &[NO_SUCH_LEVEL]),
        (&[SET_IN_NO_TIME], &[INVALID]),
    ];
    for (frames, replies) in cases {
        assert_answered(&rt, rt.alloc(), frames, replies, Exit::Done)?;
    }
    Ok(())
}

// A Set of the key `d` to `{ "a" : 1 }`, and a DictUpsert of its member `b` to `2`.
const SET_SPACED: &str =
    "80 01 0001 08 00 0000 00000014 00000001 0000000000000000 00000000 00000000 64 7b20226122203a2031207d";

const WAS_SET_SPACED: &str = "81 01 0000 00 00 0000 00000000 00000001 0000000000000001";

const UPSERT_B: &str = "80 c8 0001 03 00 0000 00000006 00000002 0000000000000000 000100 64 6232";

const WAS_UPSERTED: &str = "81 c8 0000 00 00 0000 00000000 00000002 0000000000000002";

const GET_D: &str = "80 00 0001 00 00 0000 00000001 00000003 0000000000000000 64";

// The document `{ "a" : 1,"b":2 }`.
const HAS_BOTH: &str =
    "81 00 0000 04 00 0000 00000015 00000003 0000000000000002 00000000 7b20226122203a20312c2262223a32207d";

// A Set of the key `d` to `{"a":[1,2]}`.
const SET_LIST: &str =
    "80 01 0001 08 00 0000 00000014 00000001 0000000000000000 00000000 00000000 64 7b2261223a5b312c325d7d";

// ArrayInsert of `3` at `a[2]`, `a[4]` and `a[-1]`.
const INSERT_AT_2: &str =
    "80 cd 0001 03 00 0000 00000009 00000002 0000000000000000 000400 64 615b325d33";

const WAS_INSERTED: &str = "81 cd 0000 00 00 0000 00000000 00000002 0000000000000002";

const INSERT_AT_4: &str =
    "80 cd 0001 03 00 0000 00000009 00000002 0000000000000000 000400 64 615b345d33";

const NO_PLACE: &str = "81 cd 0000 00 00 00c0 00000000 00000002 0000000000000000";

const INSERT_AT_LAST: &str =
    "80 cd 0001 03 00 0000 0000000a 00000002 0000000000000000 000500 64 615b2d315d33";

const NO_INDEX: &str = "81 cd 0000 00 00 00c2 00000000 00000002 0000000000000000";

// DictAdd of `1` at `b.c`, without and with the flag that makes parents.
const ADD_BELOW: &str =
    "80 c7 0001 03 00 0000 00000008 00000002 0000000000000000 000300 64 622e6331";

const NO_PARENT: &str = "81 c7 0000 00 00 00c0 00000000 00000002 0000000000000000";

const ADD_WITH_PARENT: &str =
    "80 c7 0001 03 00 0000 00000008 00000002 0000000000000000 000301 64 622e6331";

const WAS_ADDED: &str = "81 c7 0000 00 00 0000 00000000 00000002 0000000000000003";

// The document `{"a":[1,2,3],"b":{"c":1}}`.
const HAS_LIST_AND_MEMBER: &str =
    "81 00 0000 04 00 0000 0000001d 00000003 0000000000000003 00000000 7b2261223a5b312c322c335d2c2262223a7b2263223a317d7d";

// Asks for tokens, for JSON and for collections, as the client `sdk`.
const HELLO_ALL: &str =
    "80 1f 0003 00 00 0000 0000000b 00000000 0000000000000000 73646b 0003 0004 000b 0012";

const GRANTED_ALL: &str = "81 1f 0000 00 00 0000 00000006 00000000 0000000000000000 0004 000b 0012";

// A Set of the key `a` in collection 0 to `{"n":1}`, and its Get.
const SET_JSON: &str =
    "80 01 0002 08 01 0000 00000011 00000001 0000000000000000 0000000000000000 0061 7b226e223a317d";

const WAS_SET_JSON: &str =
    "81 01 0000 10 00 0000 00000010 00000001 0000000000000001 0000000000000004 0000000000000001";

const GET_JSON: &str = "80 00 0002 00 00 0000 00000002 00000002 0000000000000000 0061";

const HAS_JSON: &str =
    "81 00 0000 04 01 0000 0000000b 00000002 0000000000000001 00000000 7b226e223a317d";

#[test]
fn documents_are_edited_in_place(rt: HostRuntime) -> Result<(), Fail> {
    let cases: [(&[&str], &[&str]); 3] = [
        (
            &[SET_SPACED, UPSERT_B, GET_D],
            &[WAS_SET_SPACED, WAS_UPSERTED, HAS_BOTH],
        ),
        (
            &[
                SET_LIST,
                INSERT_AT_2,
                INSERT_AT_4,
                INSERT_AT_LAST,
                ADD_BELOW,
                ADD_WITH_PARENT,
                GET_D,
            ],
            &[
                WAS_SET_SPACED,
                WAS_INSERTED,
                NO_PLACE,
                NO_INDEX,
                NO_PARENT,
                WAS_ADDED,
                HAS_LIST_AND_MEMBER,
            ],
        ),
        (
            &[HELLO_ALL, SET_JSON, GET_JSON],
            &[GRANTED_ALL, WAS_SET_JSON, HAS_JSON],
        ),
    ];
    for (frames, replies) in cases {
        assert_answered(&rt, rt.alloc(), frames, replies, Exit::Done)?;
    }
    Ok(())
}

// Adds the bytes of a row and of a text.
fn add(alloc: Global, bytes: &mut Vec<u8>, row: &str, text: &str) -> Result<(), Fail> {
    add_row(alloc, bytes, row)?;
    bytes.extend_from_slice(text.as_bytes())?;
    Ok(())
}

// A header, a text behind it, and the reply.
const MANIFEST_TURNS: [(&str, &str, &str); 13] = [
    (
        "80 b9 0000 00 00 0000 0000007d 00000001 0000000000000000",
        WITH_FRUIT,
        "81 b9 0000 00 00 0000 00000000 00000001 0000000000000000",
    ),
    (
        "80 b9 0000 00 00 0000 00000062 00000002 0000000000000000",
        WITHOUT_FRUIT,
        "81 b9 0000 00 00 008a 00000000 00000002 0000000000000000",
    ),
    (
        "80 b9 0000 00 00 0000 00000062 00000003 0000000000000000",
        EARLIER,
        "81 b9 0000 00 00 008b 00000000 00000003 0000000000000000",
    ),
    (
        "80 bb 000e 00 00 0000 0000000e 00000004 0000000000000000",
        "_default.fruit",
        "81 bb 0000 0c 00 0000 0000000c 00000004 0000000000000000 0000000000000001 00000008",
    ),
    (
        "80 bb 0000 00 00 0000 0000000d 00000005 0000000000000000",
        "_default.pear",
        "81 bb 0000 00 00 0088 00000000 00000005 0000000000000000",
    ),
    (
        "80 bc 0000 00 00 0000 00000008 00000006 0000000000000000",
        "_default",
        "81 bc 0000 0c 00 0000 0000000c 00000006 0000000000000000 0000000000000001 00000000",
    ),
    (
        "80 bc 0007 00 00 0000 00000007 00000007 0000000000000000",
        "nowhere",
        "81 bc 0000 00 00 008c 00000000 00000007 0000000000000000",
    ),
    (
        "80 01 0002 08 00 0000 0000000b 00000008 0000000000000000 0000000000000000 08 61",
        "1",
        "81 01 0000 10 00 0000 00000010 00000008 0000000000000001 0000000000000004 0000000000000002",
    ),
    (
        "80 b9 0000 00 00 0000 00000062 00000009 0000000000000000",
        LATER,
        "81 b9 0000 00 00 0000 00000000 00000009 0000000000000000",
    ),
    (
        "80 00 0002 00 00 0000 00000002 0000000a 0000000000000000 08",
        "a",
        "81 00 0000 00 00 0088 00000000 0000000a 0000000000000000",
    ),
    (
        "80 b9 0000 00 00 0000 0000007d 0000000b 0000000000000000",
        FRUIT_AGAIN,
        "81 b9 0000 00 00 008a 00000000 0000000b 0000000000000000",
    ),
    (
        "80 b9 0000 00 00 0000 00000001 0000000c 0000000000000000",
        "{",
        "81 b9 0000 00 00 0004 00000000 0000000c 0000000000000000",
    ),
    (
        "80 ba 0000 00 00 0000 00000000 0000000d 0000000000000000",
        "",
        "81 ba 0000 00 00 0000 00000062 0000000d 0000000000000000",
    ),
];

#[test]
fn manifests_decide_which_collections_there_are(rt: HostRuntime) -> Result<(), Fail> {
    let alloc = rt.alloc();
    let (mut input, mut output) = (Vec::new(alloc), Vec::new(alloc));
    add_row(alloc, &mut input, HELLO_COLLECTIONS)?;
    add_row(alloc, &mut output, GRANTED_COLLECTIONS)?;
    for (header, text, reply) in MANIFEST_TURNS {
        add(alloc, &mut input, header, text)?;
        add_row(alloc, &mut output, reply)?;
    }
    add(alloc, &mut output, "", LATER)?;
    let (exit, sink) = run(alloc, &["pipe"], input, WHOLE)?;
    assert_eq!(rt; exit, Exit::Done);
    assert_eq!(rt; sink.bytes(), output.as_slice());
    Ok(())
}

#[test]
fn the_place_of_a_bad_frame_and_a_cut_are_told(rt: HostRuntime) -> Result<(), Fail> {
    let cases: [(&[&str], &[&str], Exit); 8] = [
        (&[CUT_GET], &[], Exit::Cut(23)),
        (&[GET, CUT_GET], &[NOT_FOUND], Exit::Cut(23)),
        (&[WITHOUT_A_MAGIC, SET], &[], Exit::BadFrame(0)),
        (&[SET, WITHOUT_A_MAGIC], &[WAS_SET], Exit::BadFrame(35)),
        (&[KEY_OVER_BODY], &[], Exit::BadFrame(8)),
        (&[SET, KEY_OVER_BODY], &[WAS_SET], Exit::BadFrame(43)),
        (&[BODY_OVER_LIMIT], &[], Exit::BadFrame(8)),
        (&[SET, BODY_OVER_LIMIT], &[WAS_SET], Exit::BadFrame(43)),
    ];
    for (frames, replies, wanted) in cases {
        assert_answered(&rt, rt.alloc(), frames, replies, wanted)?;
    }
    Ok(())
}

#[test]
fn a_key_has_at_most_250_bytes(rt: HostRuntime) -> Result<(), Fail> {
    let alloc = rt.alloc();
    for (front, length, reply) in [
        (
            "80 00 00fa 00 00 0000 000000fa 00000000 0000000000000000",
            250,
            "81 00 0000 00 00 0001 00000000 00000000 0000000000000000",
        ),
        (
            "80 00 00fb 00 00 0000 000000fb 00000000 0000000000000000",
            251,
            "81 00 0000 00 00 0004 00000000 00000000 0000000000000000",
        ),
    ] {
        let mut input = Vec::new(alloc);
        add_row(alloc, &mut input, front)?;
        for _ in 0..length {
            input.push(b'k')?;
        }
        let mut output = Vec::new(alloc);
        add_row(alloc, &mut output, reply)?;
        let (exit, sink) = run(alloc, &["pipe"], input, WHOLE)?;
        assert_eq!(rt; exit, Exit::Done);
        assert_eq!(rt; sink.bytes(), output.as_slice());
    }
    Ok(())
}

// A source that gives one frame at each call, and counts the calls.
#[derive(Drop)]
struct Repeating {
    frame: [u8; 24],
    calls: u64,
}

impl Source for Repeating {
    ghost left = { λ _. None };

    ghost faults = { λ _. 0 };

    fn read(&mut self, buf: &mut [u8]) -> Taken {
        self.calls = self.calls.saturating_add(1);
        if buf.is_empty() {
            return Taken::Got(0);
        }
        if buf.len() < self.frame.len() {
            return Taken::End;
        }
        let (front, _) = buf.split_at_mut(self.frame.len());
        front.copy_from_slice(&self.frame);
        Taken::Got(self.frame.len())
    }
}

// A clock that answers how often it was asked.
#[derive(Drop)]
struct Counting {
    calls: u64,
}

impl Clock for Counting {
    ghost told = { λ _. None };

    ghost may_answer = { λ _ _. true };

    fn now(&mut self) -> u64 {
        self.calls = self.calls.saturating_add(1);
        self.calls
    }
}

#[test]
fn the_clock_is_read_once_and_nothing_behind_the_end(rt: HostRuntime) -> Result<(), Fail> {
    let alloc = rt.alloc();
    let words = words_of(alloc, &["pipe"])?;
    let rows: [([u8; 24], Exit, &[&str]); 2] = [
        (QUIT, Exit::Done, &[HAS_QUIT]),
        (NO_FRAME, Exit::BadFrame(0), &[]),
    ];
    for (frame, wanted, replies) in rows {
        let mut source = Repeating { frame, calls: 0 };
        let mut sink = MemSink::new(alloc, 1 << 20, Vec::new(alloc));
        let mut clock = Counting { calls: 0 };
        let disks = empty_disks(alloc)?;
        let (exit, _) = run_offline(alloc, &words, &mut source, &mut sink, disks, &mut clock);
        let output = bytes_of(alloc, replies)?;
        assert_eq!(rt; exit, wanted);
        assert_eq!(rt; sink.bytes(), output.as_slice());
        assert_eq!(rt; (source.calls, clock.calls), (1, 1));
    }
    Ok(())
}

// A source of three Noops, one a call. It notes where it is asked for more before all replies so far were written.
#[derive(Drop)]
struct Asking<'a> {
    written: &'a Cell<usize>,
    answers: usize,
    early: bool,
}

impl Source for Asking<'_> {
    ghost left = { λ _. None };

    ghost faults = { λ _. 0 };

    fn read(&mut self, buf: &mut [u8]) -> Taken {
        if self.written.get() < self.answers {
            self.early = true;
        }
        if buf.is_empty() {
            return Taken::Got(0);
        }
        if buf.len() < PLAIN_NOOP.len() || self.answers >= 3 * PLAIN_NOOP.len() {
            return Taken::End;
        }
        let (front, _) = buf.split_at_mut(PLAIN_NOOP.len());
        front.copy_from_slice(&PLAIN_NOOP);
        self.answers += PLAIN_NOOP.len();
        Taken::Got(PLAIN_NOOP.len())
    }
}

// A sink that tells how many bytes were written.
#[derive(Drop)]
struct Telling<'a> {
    written: &'a Cell<usize>,
}

impl Sink for Telling<'_> {
    ghost written = { λ _. None };

    ghost faults = { λ _. 0 };

    fn write(&mut self, piece: &[u8]) -> Put {
        let before = self.written.get();
        self.written.set(before.saturating_add(piece.len()));
        Put::Wrote(piece.len())
    }
}

#[test]
fn replies_are_written_before_more_is_asked_for(rt: HostRuntime) -> Result<(), Fail> {
    let alloc = rt.alloc();
    let words = words_of(alloc, &["pipe"])?;
    let written = Cell::new(0);
    let mut source = Asking {
        written: &written,
        answers: 0,
        early: false,
    };
    let mut sink = Telling { written: &written };
    let disks = empty_disks(alloc)?;
    let mut clock = MemClock::new(0);
    let (exit, _) = run_offline(alloc, &words, &mut source, &mut sink, disks, &mut clock);
    assert_eq!(rt; exit, Exit::Done);
    assert_eq!(rt; (source.early, written.get()), (false, 72));
    Ok(())
}

#[test]
fn the_file_of_pipe_is_not_looked_at(rt: HostRuntime) -> Result<(), Fail> {
    let alloc = rt.alloc();
    let input = bytes_of(alloc, &[SET_AND_GET])?;
    let output = bytes_of(alloc, &[WAS_SET_AND_FOUND])?;
    let (exit, sink) = run(alloc, &["pipe", "store"], input, WHOLE)?;
    assert_eq!(rt; exit, Exit::Done);
    assert_eq!(rt; sink.bytes(), output.as_slice());
    Ok(())
}

#[test]
fn other_words_are_told(rt: HostRuntime) -> Result<(), Fail> {
    let alloc = rt.alloc();
    let cases: [&[&str]; 6] = [
        &["replay", "now"],
        &[],
        &["pipes"],
        &["pipes", "store"],
        &["pipe", ""],
        &["pipe", "store", "store"],
    ];
    for words in cases {
        let (exit, sink) = run(alloc, words, bytes_of(alloc, &[GET])?, WHOLE)?;
        assert_eq!(rt; exit, Exit::Usage);
        assert!(rt; sink.bytes().is_empty());
    }
    Ok(())
}

// A Set has 35 bytes, so that each frame is read and each reply written by a call of its own.
#[test]
fn failing_calls_are_told_and_earlier_replies_written(rt: HostRuntime) -> Result<(), Fail> {
    let alloc = rt.alloc();
    let cases = [
        (35, Some(0), None, 0, Exit::ReadFault),
        (35, Some(1), None, 24, Exit::ReadFault),
        (35, None, Some(0), 0, Exit::WriteFault),
        (35, None, Some(1), 24, Exit::WriteFault),
        (1, Some(7), None, 0, Exit::ReadFault),
        (1, Some(40), None, 24, Exit::ReadFault),
        (1, None, Some(3), 3, Exit::WriteFault),
    ];
    let replies = bytes_of(alloc, &[WAS_SET, NOT_FOUND])?;
    for (most_a_call, failing_read, failing_write, length, wanted) in cases {
        let outside = Outside {
            most_a_call,
            failing_read,
            failing_write,
        };
        let (exit, sink) = run(alloc, &["pipe"], bytes_of(alloc, &[SET, GET])?, outside)?;
        assert_eq!(rt; exit, wanted);
        assert!(rt; sink.bytes().len() == length && replies.starts_with(sink.bytes()));
    }
    Ok(())
}

#[test]
fn exits_have_names_and_statuses(rt: HostRuntime) -> Result<(), Fail> {
    let alloc = rt.alloc();
    for (exit, name, status) in [
        (Exit::Done, "Done", 0),
        (Exit::Usage, "Usage", 1),
        (Exit::ReadFault, "ReadFault", 2),
        (Exit::WriteFault, "WriteFault", 3),
        (Exit::NoMemory, "NoMemory", 4),
        (Exit::DiskFault, "DiskFault", 5),
        (
            Exit::Damaged {
                disk: 0,
                place: 9,
                found: 7,
                expected: 8,
            },
            "Damaged 0 9 7 8",
            6,
        ),
        (Exit::TooLong, "TooLong", 7),
        (Exit::BadFrame(25), "BadFrame 25", 9),
        (Exit::Cut(23), "Cut 23", 10),
        (Exit::Spent(5), "Spent 5", 11),
        (Exit::OtherChain(0), "OtherChain 0", 12),
        (Exit::Full { needed: 3, free: 2 }, "Full 3 2", 13),
    ] {
        assert_eq!(rt; format!(in alloc; "{exit}")?.as_str(), name);
        assert_eq!(rt; exit.status(), status);
    }
    Ok(())
}
