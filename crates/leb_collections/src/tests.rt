//! What the clauses can't say: that they are about LEB128 as others spell it.
use super::*;
use std::process::Abort;

// The numbers of DWARF's table of unsigned LEB128 and of Couchbase's table of collection ids.

fn spells(rt: &impl Abort, id: u32, spelling: &[u8]) {
    let mut out = [0xee; 5];
    let used = write_id(id, &mut out);
    assert_eq!(rt; &out[..used], spelling, "{id} is written");
    assert_eq!(rt; read_id(spelling), Ok((id, spelling.len())), "{id} is read");
}

#[test]
fn ids_are_spelled_as_in_the_public_tables(rt: HostRuntime) {
    spells(&rt, 0, &[0x00]);
    spells(&rt, 2, &[0x02]);
    spells(&rt, 127, &[0x7f]);
    spells(&rt, 128, &[0x80, 0x01]);
    spells(&rt, 129, &[0x81, 0x01]);
    spells(&rt, 12857, &[0xb9, 0x64]);
    spells(&rt, 0x7fff, &[0xff, 0xff, 0x01]);
    spells(&rt, 0x8000, &[0x80, 0x80, 0x02]);
    spells(&rt, 0x0caf_ef00, &[0x80, 0xde, 0xbf, 0x65]);
    spells(&rt, 0xcafe_f00d, &[0x8d, 0xe0, 0xfb, 0xd7, 0x0c]);
    spells(&rt, 0xffff_ffff, &[0xff, 0xff, 0xff, 0xff, 0x0f]);
}

#[test]
fn an_id_takes_its_own_bytes_and_none_of_the_key(rt: HostRuntime) {
    assert_eq!(rt; read_id(&[0xb9, 0x64, 0x6b, 0x65, 0x79]), Ok((12857, 2)));
    assert_eq!(rt; read_id(&[0x00, 0x80, 0x00]), Ok((0, 1)));
}

#[test]
fn a_spelling_that_ends_too_soon_is_short(rt: HostRuntime) {
    assert_eq!(rt; read_id(&[]), Err(LebFault::Short));
    assert_eq!(rt; read_id(&[0x80]), Err(LebFault::Short));
    assert_eq!(rt; read_id(&[0xff, 0xff, 0xff, 0xff]), Err(LebFault::Short));
}

#[test]
fn a_number_past_32_bits_is_long(rt: HostRuntime) {
    assert_eq!(rt;
        read_id(&[0xff, 0xff, 0xff, 0xff, 0x1f]),
        Err(LebFault::Long)
    );
    assert_eq!(rt;
        read_id(&[0x80, 0x80, 0x80, 0x80, 0x80, 0x00]),
        Err(LebFault::Long)
    );
}

#[test]
fn a_padded_spelling_of_the_default_collection_is_refused(rt: HostRuntime) {
    assert_eq!(rt; read_id(&[0x80, 0x00]), Err(LebFault::NotShortest));
    assert_eq!(rt;
        read_id(&[0x80, 0x80, 0x80, 0x80, 0x00]),
        Err(LebFault::NotShortest)
    );
}

#[test]
fn writing_leaves_the_other_bytes(rt: HostRuntime) {
    let mut out = [0xee; 5];
    assert_eq!(rt; write_id(0, &mut out), 1);
    assert_eq!(rt; out, [0x00, 0xee, 0xee, 0xee, 0xee]);
}
