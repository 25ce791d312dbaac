use crate::part_tests::{INVALID_FLAG_COMBO, UNKNOWN_MACRO};
use crate::tests::{EINVAL, NOTHING, READ, frame_of, frame_with, outcome};
use crate::{Body, Spec, read_request};
use hex_rows::bytes_of;
use kv_edge::Bytes;
use std::alloc::Global;
use std::test::Fail;

const INVALID_COMBO: u16 = 0x00cb;

const INVALID_KEY_COMBO: u16 = 0x00cf;

const INVALID_XATTR_ORDER: u16 = 0x00d4;

/// Requests on several parts of documents: opcode, extras, a piece of the value, how often it
/// stands there, and the status.
const REQUESTS: [(u8, &str, &str, usize, u16); 98] = [
    // Sizes of extras.
    (0xd0, "", "c5 00 0001 70", 1, READ),
    (0xd0, "00", "c5 00 0001 70", 1, READ),
    (0xd0, "0000", "c5 00 0001 70", 1, EINVAL),
    (0xd0, "000000", "c5 00 0001 70", 1, EINVAL),
    (0xd0, "00000000", "c5 00 0001 70", 1, EINVAL),
    (0xd0, "00000000 00", "c5 00 0001 70", 1, EINVAL),
    (0xd1, "", "c8 00 0001 00000001 70 31", 1, READ),
    (0xd1, "00", "c8 00 0001 00000001 70 31", 1, READ),
    (0xd1, "0000", "c8 00 0001 00000001 70 31", 1, EINVAL),
    (0xd1, "000000", "c8 00 0001 00000001 70 31", 1, EINVAL),
    (0xd1, "00000e10", "c8 00 0001 00000001 70 31", 1, READ),
    (0xd1, "00000e10 00", "c8 00 0001 00000001 70 31", 1, READ),
    (
        0xd1,
        "00000e10 0000",
        "c8 00 0001 00000001 70 31",
        1,
        EINVAL,
    ),
    (
        0xd1,
        "00000e10 00000000",
        "c8 00 0001 00000001 70 31",
        1,
        EINVAL,
    ),
    // The document's flags, before how many specs there are.
    (0xd0, "01", "", 1, EINVAL),
    (0xd0, "02", "", 1, EINVAL),
    (0xd0, "04", "", 1, EINVAL),
    (0xd1, "04", "", 1, EINVAL),
    (0xd1, "03", "", 1, EINVAL),
    (0xd1, "00000e10 80", "", 1, EINVAL),
    (0xd1, "00000001", "", 1, INVALID_COMBO),
    (0xd1, "01", "c8 00 0001 00000001 70 31", 1, READ),
    (0xd1, "02", "c8 00 0001 00000001 70 31", 1, READ),
    (0xd1, "00000e10 01", "c8 00 0001 00000001 70 31", 1, READ),
    (0xd1, "00000e10 02", "c8 00 0001 00000001 70 31", 1, READ),
    // Specs that don't fill the value, before how many they are and of which kind.
    (0xd0, "", "c5", 1, EINVAL),
    (0xd0, "", "c8 00 00", 1, EINVAL),
    (0xd0, "", "c5 00 0002 70", 1, EINVAL),
    (0xd0, "", "c8 00 0001 70 00", 1, EINVAL),
    (0xd1, "", "c5 00 0001 000000", 1, EINVAL),
    (0xd1, "", "c5 00 0002 00000000 70", 1, EINVAL),
    (0xd1, "", "c8 00 0001 00000002 70 31", 1, EINVAL),
    (0xd1, "", "c8 00 0001 ffffffff 70 31", 1, EINVAL),
    (0xd1, "", "c5 00 0001 00000001 70 31 00", 1, EINVAL),
    // None, 16, 17, and as many as a value can hold.
    (0xd0, "", "", 1, INVALID_COMBO),
    (0xd1, "", "", 1, INVALID_COMBO),
    (0xd0, "", "c5 00 0001 70", 16, READ),
    (0xd0, "", "c5 00 0001 70", 17, INVALID_COMBO),
    (0xd1, "", "c8 00 0001 00000001 70 31", 16, READ),
    (0xd1, "", "c8 00 0001 00000001 70 31", 17, INVALID_COMBO),
    (0xd0, "", "c5 02 0001 70", 17, INVALID_COMBO),
    (0xd0, "", "c5 00 0000", 5_242_880, INVALID_COMBO),
    // Specs of another kind, before what each spec has to be.
    (0xd0, "", "c8 02 0001 70", 1, INVALID_COMBO),
    (0xd1, "", "c5 02 0001 00000000 70", 1, INVALID_COMBO),
    (0xd0, "", "c5 02 0001 70 c9 00 0001 70", 1, INVALID_COMBO),
    (0xd0, "", "d0 00 0001 70", 1, INVALID_COMBO),
    (0xd1, "", "d1 00 0001 00000000 70", 1, INVALID_COMBO),
    (0xd0, "", "00 00 0001 70", 1, INVALID_COMBO),
    (0xd1, "", "01 00 0001 00000001 70 31", 1, INVALID_COMBO),
    (
        0xd0,
        "",
        "c5 00 0001 70 c6 00 0001 70 d2 00 0001 70",
        1,
        READ,
    ),
    (
        0xd1,
        "",
        "c7 00 0001 00000001 70 31 cf 00 0001 00000001 70 31",
        1,
        READ,
    ),
    // What each spec has to be: the first that isn't gives the status.
    (0xd0, "", "c5 00 0001 70 c5 02 0001 70", 1, EINVAL),
    (
        0xd1,
        "",
        "c8 00 0001 00000000 70 c8 80 0001 00000000 70",
        1,
        EINVAL,
    ),
    (0xd0, "", "c5 10 0001 70", 1, INVALID_FLAG_COMBO),
    (0xd0, "", "c5 14 0001 70", 1, UNKNOWN_MACRO),
    (0xd1, "", "c8 10 0001 00000001 70 31", 1, INVALID_FLAG_COMBO),
    (0xd1, "", "c8 15 0001 00000001 70 31", 1, UNKNOWN_MACRO),
    (
        0xd0,
        "",
        "c5 10 0001 70 c5 02 0001 70",
        1,
        INVALID_FLAG_COMBO,
    ),
    (0xd0, "", "c5 02 0001 70 c5 10 0001 70", 1, EINVAL),
    (0xd1, "", "c9 01 0001 00000000 70", 1, EINVAL),
    (0xd1, "", "ca 01 0001 00000001 70 31", 1, EINVAL),
    (0xd1, "", "c8 01 0001 00000001 70 31", 1, READ),
    (0xd0, "", "c5 01 0001 70", 1, EINVAL),
    (0xd0, "", "c5 00 0000", 1, EINVAL),
    (0xd0, "", "d2 00 0000", 1, READ),
    (0xd0, "", "d2 04 0000", 1, EINVAL),
    (0xd1, "", "c8 00 0000 00000001 31", 1, EINVAL),
    (0xd1, "", "cb 00 0000 00000001 31", 1, READ),
    (0xd1, "", "cb 04 0000 00000001 31", 1, EINVAL),
    (0xd1, "", "c9 00 0001 00000001 70 31", 1, READ),
    (0xd1, "", "c8 00 0001 00000000 70", 1, READ),
    // Attributes behind values, behind what each spec has to be and before their names.
    (0xd0, "", "c5 04 0001 61 c5 00 0001 70", 1, READ),
    (
        0xd0,
        "",
        "c5 00 0001 70 c5 04 0001 61",
        1,
        INVALID_XATTR_ORDER,
    ),
    (
        0xd0,
        "",
        "c5 04 0001 61 c5 00 0001 70 c5 04 0001 61",
        1,
        INVALID_XATTR_ORDER,
    ),
    (
        0xd0,
        "",
        "c5 00 0001 70 c5 00 0001 71 c5 04 0001 61",
        1,
        INVALID_XATTR_ORDER,
    ),
    (0xd0, "", "c5 00 0001 70 c5 14 0001 61", 1, UNKNOWN_MACRO),
    (
        0xd1,
        "",
        "c9 04 0001 00000000 61 c9 00 0001 00000000 70",
        1,
        READ,
    ),
    (
        0xd1,
        "",
        "c9 00 0001 00000000 70 c9 04 0001 00000000 61",
        1,
        INVALID_XATTR_ORDER,
    ),
    (
        0xd1,
        "",
        "c9 04 0001 00000000 61 c9 00 0001 00000000 70 c9 04 0001 00000000 62",
        1,
        INVALID_XATTR_ORDER,
    ),
    // Names of attributes: a, b, ab.
    (0xd0, "", "c5 04 0001 61 c5 04 0001 62", 1, READ),
    (
        0xd1,
        "",
        "c9 04 0001 00000000 61 c9 04 0001 00000000 62",
        1,
        INVALID_KEY_COMBO,
    ),
    (
        0xd1,
        "",
        "c9 04 0001 00000000 61 c9 04 0002 00000000 6162",
        1,
        INVALID_KEY_COMBO,
    ),
    (
        0xd1,
        "",
        "c9 04 0002 00000000 6162 c9 04 0001 00000000 61",
        1,
        INVALID_KEY_COMBO,
    ),
    (
        0xd1,
        "",
        "c9 04 0001 00000000 61 c9 00 0001 00000000 62",
        1,
        READ,
    ),
    (
        0xd1,
        "",
        "c9 00 0001 00000000 61 c9 00 0001 00000000 62",
        1,
        READ,
    ),
    (
        0xd1,
        "",
        "c9 04 0001 00000000 61 c9 04 0001 00000000 61 c9 04 0001 00000000 62",
        1,
        INVALID_KEY_COMBO,
    ),
    // a.b, a[0], a; then a with a.b[0] and with an a behind which a bracket closes.
    (
        0xd1,
        "",
        "c9 04 0003 00000000 612e62 c9 04 0004 00000000 615b305d c9 04 0001 00000000 61",
        1,
        READ,
    ),
    (
        0xd1,
        "",
        "c9 04 0001 00000000 61 c9 04 0006 00000000 612e625b305d",
        1,
        READ,
    ),
    (
        0xd1,
        "",
        "c9 04 0001 00000000 61 c9 04 0002 00000000 615d",
        1,
        INVALID_KEY_COMBO,
    ),
    // `a` and a; `a` and `a`.b; `a.b`.c with `a.b`, with `a` and with `a.c`.
    (
        0xd1,
        "",
        "c9 04 0003 00000000 606160 c9 04 0001 00000000 61",
        1,
        INVALID_KEY_COMBO,
    ),
    (
        0xd1,
        "",
        "c9 04 0003 00000000 606160 c9 04 0005 00000000 6061602e62",
        1,
        READ,
    ),
    (
        0xd1,
        "",
        "c9 04 0007 00000000 60612e62602e63 c9 04 0005 00000000 60612e6260",
        1,
        READ,
    ),
    (
        0xd1,
        "",
        "c9 04 0007 00000000 60612e62602e63 c9 04 0003 00000000 606160",
        1,
        INVALID_KEY_COMBO,
    ),
    (
        0xd1,
        "",
        "c9 04 0007 00000000 60612e62602e63 c9 04 0005 00000000 60612e6360",
        1,
        INVALID_KEY_COMBO,
    ),
    // Backticks written twice within a name: `a``.` twice, and with another byte behind the point.
    (
        0xd1,
        "",
        "c9 04 0006 00000000 606160602e60 c9 04 0008 00000000 606160602e602e62",
        1,
        READ,
    ),
    (
        0xd1,
        "",
        "c9 04 0007 00000000 606160602e6260 c9 04 0007 00000000 606160602e6360",
        1,
        INVALID_KEY_COMBO,
    ),
    // Names that begin with a point and with a bracket are none.
    (
        0xd1,
        "",
        "c9 04 0002 00000000 2e61 c9 04 0003 00000000 5b305d",
        1,
        READ,
    ),
    (
        0xd1,
        "",
        "c9 04 0002 00000000 2e61 c9 04 0001 00000000 61",
        1,
        INVALID_KEY_COMBO,
    ),
];

/// The place of the first request on several parts of a document with another status.
fn first_unlike(
    alloc: Global,
    rows: &[(u8, &str, &str, usize, u16)],
) -> Result<Option<usize>, Fail> {
    for (place, row) in rows.iter().enumerate() {
        let mut frame = frame_with(alloc, row.0, 0, 1, 0)?;
        frame.extras = Bytes::from_vec(bytes_of(alloc, row.1)?);
        let piece = bytes_of(alloc, row.2)?;
        let mut value = Vec::new(alloc);
        for _ in 0..row.3 {
            value.extend_from_slice(&piece)?;
        }
        frame.value = Bytes::from_vec(value);
        if outcome(alloc, &frame, &NOTHING)?.0 != row.4 {
            return Ok(Some(place));
        }
    }
    Ok(None)
}

#[test]
fn requests_on_several_parts_have_checks_of_their_own(rt: HostRuntime) -> Result<(), Fail> {
    assert_eq!(rt; first_unlike(rt.alloc(), &REQUESTS)?, None);
    Ok(())
}

/// A spec as a row has it: opcode, flags, path and value.
type Row<'a> = (u8, u8, &'a str, &'a str);

/// Whether a spec is as a row has it.
fn is_spec(spec: &Spec, row: &Row<'_>) -> bool {
    (spec.opcode, spec.flags) == (row.0, row.1)
        && spec.path.as_slice() == row.2.as_bytes()
        && spec.value.as_slice() == row.3.as_bytes()
}

/// Whether specs are those of rows, in their order.
fn are_specs(specs: &[Spec], rows: &[Row<'_>]) -> bool {
    specs.len() == rows.len() && specs.iter().zip(rows).all(|(spec, row)| is_spec(spec, row))
}

/// The specs that a request brings, with its expiry and the document's flags.
fn brought(body: &Body) -> (&[Spec], Option<u32>, u8) {
    match body {
        Body::MultiLook { specs, .. } => (specs.as_slice(), None, 0),
        Body::MultiEdit {
            specs,
            expiry,
            doc_flags,
            ..
        } => (specs.as_slice(), *expiry, *doc_flags),
        _ => (&[], None, 0),
    }
}

/// Frames with the specs that they bring, the expiry, and the document's flags.
const READINGS: [(&str, [Row<'static>; 3], Option<u32>, u8); 4] = [
    (
        "80 d1 0001 00 00 0000 0000001e 00000003 0000000000000000 6d c8000001000000017932 ca000001000000017133 c90000010000000072",
        [(0xc8, 0, "y", "2"), (0xca, 0, "q", "3"), (0xc9, 0, "r", "")],
        None,
        0,
    ),
    (
        "80 d1 0001 05 00 0000 00000026 00000003 0000000000000000 00000e10 02 6d c80500030000000178 2e 7932 c9 04 0001 00000002 783132 cb 01 0000 00000001 33",
        [
            (0xc8, 5, "x.y", "2"),
            (0xc9, 4, "x", "12"),
            (0xcb, 1, "", "3"),
        ],
        Some(3600),
        2,
    ),
    (
        "80 d1 0001 04 00 0000 00000023 00000003 0000000000000000 00000000 6d c8000001000000017932 ca000001000000017133 c8000001000000017234",
        [
            (0xc8, 0, "y", "2"),
            (0xca, 0, "q", "3"),
            (0xc8, 0, "r", "4"),
        ],
        Some(0),
        0,
    ),
    (
        "80 d0 0001 00 00 0000 0000000f 00000003 0000000000000000 6d c5040001 78 c6000001 79 d2000000",
        [(0xc5, 4, "x", ""), (0xc6, 0, "y", ""), (0xd2, 0, "", "")],
        None,
        0,
    ),
];

/// The place of the first frame that brings something else.
fn first_misread(
    alloc: Global,
    rows: &[(&str, [Row<'_>; 3], Option<u32>, u8)],
) -> Result<Option<usize>, Fail> {
    for (place, row) in rows.iter().enumerate() {
        let frame = frame_of(alloc, row.0)?;
        let read = read_request(alloc, &frame, &NOTHING);
        let is_as_spelt = match &read {
            Ok(made) => {
                let (specs, expiry, flags) = brought(&made.body);
                are_specs(specs, &row.1) && expiry == row.2 && flags == row.3
            }
            Err(_) => false,
        };
        if !is_as_spelt {
            return Ok(Some(place));
        }
    }
    Ok(None)
}

#[test]
fn specs_are_read_as_they_are_spelt(rt: HostRuntime) -> Result<(), Fail> {
    assert_eq!(rt; first_misread(rt.alloc(), &READINGS)?, None);
    Ok(())
}
