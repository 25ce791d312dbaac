use crate::tests::{EINVAL, NOTHING, READ, frame_with, outcome};
use hex_rows::bytes_of;
use kv_edge::Bytes;
use std::alloc::Global;
use std::test::Fail;

pub(crate) const INVALID_FLAG_COMBO: u16 = 0x00ce;

pub(crate) const UNKNOWN_MACRO: u16 = 0x00d0;

/// Requests on parts of documents: opcode, extras in hexadecimal digits, value, and the status.
const PARTS: [(u8, &str, &str, u16); 76] = [
    // Each opcode, with a path of its own, and the value where one may come with it.
    (0xc5, "0001 00", "p", READ),
    (0xc6, "0001 00", "p", READ),
    (0xd2, "0001 00", "p", READ),
    (0xc9, "0001 00", "p", READ),
    (0xc7, "0001 00", "p1", READ),
    (0xc8, "0001 00", "p1", READ),
    (0xca, "0001 00", "p1", READ),
    (0xcb, "0001 00", "p1", READ),
    (0xcc, "0001 00", "p1", READ),
    (0xcd, "0001 00", "p1", READ),
    (0xce, "0001 00", "p1", READ),
    (0xcf, "0001 00", "p1", READ),
    // Sizes of extras.
    (0xc5, "0001", "p", EINVAL),
    (0xc5, "0001 00 00", "p", READ),
    (0xc5, "0001 00 00000000", "p", EINVAL),
    (0xc5, "0001 00 00000000 00", "p", EINVAL),
    (0xc8, "0001", "p1", EINVAL),
    (0xc8, "0001 00 00", "p1", READ),
    (0xc8, "0001 00 0000", "p1", EINVAL),
    (0xc8, "0001 00 000000", "p1", EINVAL),
    (0xc8, "0001 00 00000000", "p1", READ),
    (0xc8, "0001 00 00000000 00", "p1", READ),
    (0xc8, "0001 00 00000000 00 00", "p1", EINVAL),
    // The document's flags, before the path's.
    (0xc5, "0001 00 01", "p", EINVAL),
    (0xc5, "0001 10 02", "p", EINVAL),
    (0xc8, "0001 00 01", "p1", READ),
    (0xc8, "0001 00 00000000 02", "p1", READ),
    (0xc8, "0001 10 03", "p1", EINVAL),
    (0xc8, "0001 10 00000000 04", "p1", EINVAL),
    (0xc8, "0001 10 00000001", "p1", INVALID_FLAG_COMBO),
    // Paths that pass the value, and values that may not be there, before the path's flags.
    (0xc8, "0003 10", "p1", EINVAL),
    (0xc8, "0002 00", "p1", READ),
    (0xc8, "0100 10", "p1", EINVAL),
    (0xc5, "0001 10", "p1", EINVAL),
    (0xd2, "0000 10", "1", EINVAL),
    (0xc9, "0001 10", "p1", EINVAL),
    // The path's flags.
    (0xc8, "0001 02", "p1", EINVAL),
    (0xc8, "0001 08", "p1", EINVAL),
    (0xc8, "0001 20", "p1", EINVAL),
    (0xc8, "0001 40", "p1", EINVAL),
    (0xc8, "0001 80", "p1", EINVAL),
    (0xc8, "0001 12", "p1", EINVAL),
    (0xc8, "0001 94", "p1", EINVAL),
    (0xc8, "0001 10", "p1", INVALID_FLAG_COMBO),
    (0xc5, "0001 11", "p", INVALID_FLAG_COMBO),
    (0xc8, "0001 14", "p1", UNKNOWN_MACRO),
    (0xc5, "0001 15", "p", UNKNOWN_MACRO),
    (0xc5, "0001 01", "p", EINVAL),
    (0xc6, "0001 01", "p", EINVAL),
    (0xd2, "0001 01", "p", EINVAL),
    (0xc9, "0001 01", "p", EINVAL),
    (0xca, "0001 01", "p1", EINVAL),
    (0xcd, "0001 01", "p1", EINVAL),
    (0xca, "0001 05", "p1", EINVAL),
    (0xc7, "0001 01", "p1", READ),
    (0xc8, "0001 01", "p1", READ),
    (0xcb, "0001 01", "p1", READ),
    (0xcc, "0001 01", "p1", READ),
    (0xce, "0001 01", "p1", READ),
    (0xcf, "0001 01", "p1", READ),
    // Paths of no bytes.
    (0xc5, "0000 00", "", EINVAL),
    (0xc6, "0000 00", "", EINVAL),
    (0xc9, "0000 00", "", EINVAL),
    (0xc7, "0000 00", "1", EINVAL),
    (0xc8, "0000 00", "1", EINVAL),
    (0xca, "0000 00", "1", EINVAL),
    (0xcd, "0000 00", "1", EINVAL),
    (0xcf, "0000 00", "1", EINVAL),
    (0xcb, "0000 01", "1", READ),
    (0xcc, "0000 01", "1", READ),
    (0xce, "0000 01", "1", READ),
    (0xd2, "0000 00", "", READ),
    (0xcb, "0000 04", "1", EINVAL),
    (0xd2, "0000 04", "", EINVAL),
    // Attributes.
    (0xc5, "0001 04", "p", READ),
    (0xc8, "0001 05", "p1", READ),
];

/// The place of the first request on a part of a document with another status.
fn first_unlike(alloc: Global, rows: &[(u8, &str, &str, u16)]) -> Result<Option<usize>, Fail> {
    for (place, row) in rows.iter().enumerate() {
        let mut frame = frame_with(alloc, row.0, 0, 1, 0)?;
        frame.extras = Bytes::from_vec(bytes_of(alloc, row.1)?);
        frame.value = Bytes::from_slice(alloc, row.2.as_bytes())?;
        if outcome(alloc, &frame, &NOTHING)?.0 != row.3 {
            return Ok(Some(place));
        }
    }
    Ok(None)
}

#[test]
fn parts_of_documents_have_checks_of_their_own(rt: HostRuntime) -> Result<(), Fail> {
    assert_eq!(rt; first_unlike(rt.alloc(), &PARTS)?, None);
    Ok(())
}
