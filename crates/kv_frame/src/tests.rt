use crate::{Fault, Frame, Judged, Magic, Side, Step, decode, encode_into, fits, judge};
use hex_rows::bytes_of;
use std::alloc::Global;
use std::test::Fail;

/// A Get of the key `a` on vbucket 0.
const GET: &str = "80 00 0001 00 00 0000 00000001 deadbeef 0000000000000000 61";

/// A Set of the key `a` at level 1, which its one framing extra asks for.
const SET_AT_A_LEVEL: &str =
    "08 01 02 01 08 00 0000 0000000c 00000005 0000000000000000 1101 0000000000000000 61 31";

/// The frame that all of the bytes are.
fn frame_of(alloc: Global, side: Side, bytes: &[u8]) -> Result<Frame, Fail> {
    match decode(alloc, side, bytes) {
        Ok(Step::Whole(frame, used)) if used == bytes.len() => Ok(frame),
        _ => Err("the bytes are no whole frame")?,
    }
}

/// What is appended for the frame.
fn spelled(alloc: Global, frame: &Frame) -> Result<Vec<u8>, Fail> {
    let mut out = Vec::new(alloc);
    if !fits(frame) {
        return Err("the frame has a spelling")?;
    }
    match encode_into(frame, &mut out) {
        Ok(()) => Ok(out),
        Err(_) => Err("there is memory")?,
    }
}

#[test]
fn a_get_is_read_and_spelled_again(rt: HostRuntime) -> Result<(), Fail> {
    let bytes = bytes_of(rt.alloc(), GET)?;
    let frame = frame_of(rt.alloc(), Side::Requests, &bytes)?;
    assert_eq!(rt; frame.magic, Magic::Request);
    assert_eq!(rt; frame.opcode, 0);
    assert_eq!(rt; frame.datatype, 0);
    assert_eq!(rt; frame.word, 0);
    assert_eq!(rt; frame.opaque, 0xdead_beef);
    assert_eq!(rt; frame.cas, 0);
    assert_eq!(rt; frame.framing.len(), 0);
    assert_eq!(rt; frame.extras.len(), 0);
    assert_eq!(rt; frame.key.as_slice(), b"a".as_slice());
    assert_eq!(rt; frame.value.len(), 0);
    assert_eq!(rt; spelled(rt.alloc(), &frame)?, bytes);
    Ok(())
}

#[test]
fn a_reply_with_a_token_is_read_and_spelled_again(rt: HostRuntime) -> Result<(), Fail> {
    let text =
        "81 01 0000 10 00 0007 00000010 00000001 0102030405060708 0000000000000004 0000000000000009";
    let bytes = bytes_of(rt.alloc(), text)?;
    let frame = frame_of(rt.alloc(), Side::Replies, &bytes)?;
    assert_eq!(rt; frame.magic, Magic::Reply);
    assert_eq!(rt; frame.opcode, 1);
    assert_eq!(rt; frame.word, 7);
    assert_eq!(rt; frame.opaque, 1);
    assert_eq!(rt; frame.cas, 0x0102_0304_0506_0708);
    assert_eq!(rt;
        frame.extras.as_slice(),
        [0, 0, 0, 0, 0, 0, 0, 4, 0, 0, 0, 0, 0, 0, 0, 9].as_slice()
    );
    assert_eq!(rt; spelled(rt.alloc(), &frame)?, bytes);
    Ok(())
}

#[test]
fn a_framing_extra_is_read_and_spelled_again(rt: HostRuntime) -> Result<(), Fail> {
    let bytes = bytes_of(rt.alloc(), SET_AT_A_LEVEL)?;
    let frame = frame_of(rt.alloc(), Side::Requests, &bytes)?;
    assert_eq!(rt; frame.magic, Magic::FlexRequest);
    assert_eq!(rt; frame.framing.len(), 1);
    for frame_extra in frame.framing.as_slice() {
        assert_eq!(rt; frame_extra.id, 1);
        assert_eq!(rt; frame_extra.body.as_slice(), [1].as_slice());
    }
    assert_eq!(rt; frame.extras.as_slice(), [0; 8].as_slice());
    assert_eq!(rt; frame.key.as_slice(), b"a".as_slice());
    assert_eq!(rt; frame.value.as_slice(), b"1".as_slice());
    assert_eq!(rt; spelled(rt.alloc(), &frame)?, bytes);
    Ok(())
}

#[test]
fn an_id_and_a_length_from_15_on_have_a_further_byte(rt: HostRuntime) -> Result<(), Fail> {
    // Id 15 + 1, and 15 + 2 bytes.
    let text =
        "18 00 14 00 00 00 0000 00000014 00000000 0000000000000000 ff 01 02 0102030405060708090a0b0c0d0e0f1011";
    let bytes = bytes_of(rt.alloc(), text)?;
    let frame = frame_of(rt.alloc(), Side::Replies, &bytes)?;
    assert_eq!(rt; frame.magic, Magic::FlexReply);
    assert_eq!(rt; frame.framing.len(), 1);
    for frame_extra in frame.framing.as_slice() {
        assert_eq!(rt; frame_extra.id, 16);
        assert_eq!(rt; frame_extra.body.len(), 17);
    }
    assert_eq!(rt; spelled(rt.alloc(), &frame)?, bytes);
    Ok(())
}

#[test]
fn what_is_judged_and_what_is_decoded_agree(rt: HostRuntime) -> Result<(), Fail> {
    let rows = [
        (GET, Judged::Whole(25)),
        ("", Judged::More(24)),
        (
            "80 00 0001 00 00 0000 00000001 deadbeef 00000000000000",
            Judged::More(1),
        ),
        (
            "80 00 0002 00 00 0000 00000001 00000000 0000000000000000",
            Judged::Bad(8, Fault::Lengths),
        ),
        (
            "80 00 0002 00 00 0000 01600001 00000000 0000000000000000",
            Judged::Bad(8, Fault::TooBig),
        ),
        (
            "80 00 0002 00 00 0000 01600000 00000000 0000000000000000",
            Judged::More(23_068_672),
        ),
        (
            "82 00 0002 00 00 0000 00000001 00000000 0000000000000000",
            Judged::Bad(0, Fault::Magic),
        ),
        (
            "81 00 0001 00 00 0000 00000001 00000000 0000000000000000 61",
            Judged::Bad(0, Fault::Magic),
        ),
        (SET_AT_A_LEVEL, Judged::Whole(36)),
        // The second framing extra says that it has two bytes, and its section ends behind one.
        (
            "08 00 04 00 00 00 0000 00000004 00000000 0000000000000000 1101 1201",
            Judged::Bad(26, Fault::Extra),
        ),
    ];
    for (text, want) in rows {
        let bytes = bytes_of(rt.alloc(), text)?;
        assert_eq!(rt; judge(Side::Requests, &bytes), want, "{text}");
        let step = decode(rt.alloc(), Side::Requests, &bytes)
            .ok()
            .ok_or("there is memory")?;
        let told = match step {
            Step::Whole(_, used) => Judged::Whole(used),
            Step::More(missing) => Judged::More(missing),
            Step::Bad(place, fault) => Judged::Bad(place, fault),
        };
        assert_eq!(rt; told, want, "{text}");
    }
    Ok(())
}
