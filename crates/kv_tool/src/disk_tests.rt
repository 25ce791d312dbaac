//! Runs one after the other on the same disks, and runs whose first disk fails or has something else.
ghost use Rattle.std.specs.Prelude.{◌≤◌, length};

use crate::Exit;
use crate::tests::{
    CUT_GET, GET, NOT_FOUND, Outside, SET, SET_AND_GET, WAS_SET, WAS_SET_AND_FOUND, WHOLE,
    bytes_of, disks_behind, empty_disks, run_on,
};
use durability_core::Chain;
use magma_disk::{Disk, DiskDone, MemDisk};
use std::alloc::Global;
use std::test::Fail;
use vb_core::Vb;

/// How source and sink behave, frames, those that answer them, and what the run comes to.
type Row = (
    Outside,
    &'static [&'static str],
    &'static [&'static str],
    Exit,
);

/// Any call on the source or the sink fails: a run that tells neither fault reads and writes nothing.
const UNUSED: Outside = Outside {
    most_a_call: 1 << 20,
    failing_read: Some(0),
    failing_write: Some(0),
};

/// Asks for tokens.
const HELLO: &str = "80 1f 0000 00 00 0000 00000002 00000000 0000000000000000 0004";

const GRANTED: &str = "81 1f 0000 00 00 0000 00000002 00000000 0000000000000000 0004";

const SET_B: &str =
    "80 01 0001 08 00 0000 0000000a 00000001 0000000000000000 0000000000000000 62 31";

/// The term is that of a second opening, and the position is behind that of `a`.
const WAS_SET_B: &str = "\
    81 01 0000 10 00 0000 00000010 00000001 0000000000000002 \
    0000000000000008 0000000000000002";

const SET_C: &str =
    "80 01 0001 08 00 0000 0000000a 00000001 0000000000000000 0000000000000000 63 31";

const WAS_SET_C: &str = "81 01 0000 00 00 0000 00000000 00000001 0000000000000003";

const GET_C: &str = "80 00 0001 00 00 0000 00000001 deadbeef 0000000000000000 63";

const HAS_A: &str = "81 00 0000 04 00 0000 00000006 deadbeef 0000000000000001 0000002a 6869";

/// Two runs that are done, one that is cut and so puts nothing on disk, and a look at what that left.
const HISTORY: [Row; 4] = [
    (WHOLE, &[SET_AND_GET], &[WAS_SET_AND_FOUND], Exit::Done),
    (WHOLE, &[HELLO, SET_B], &[GRANTED, WAS_SET_B], Exit::Done),
    (WHOLE, &[SET_C, CUT_GET], &[WAS_SET_C], Exit::Cut(23)),
    (WHOLE, &[GET, GET_C], &[HAS_A, NOT_FOUND], Exit::Done),
];

/// What a Set on an empty disk comes to where a call of the disk fails, from one number to another: a call of the opening,
/// one of the closing flush, and one behind the last.
const FAULTS: [(u64, u64, Row); 3] = [
    (1, 13, (UNUSED, &[SET], &[], Exit::DiskFault)),
    (14, 17, (WHOLE, &[SET], &[WAS_SET], Exit::DiskFault)),
    (18, 18, (WHOLE, &[SET], &[WAS_SET], Exit::Done)),
];

const FOR_ANOTHER_CHAIN: Row = (UNUSED, &[GET], &[], Exit::OtherChain(0));

/// The first byte of the store's magic is `ff`.
const WITHOUT_A_MAGIC: Row = (
    UNUSED,
    &[GET],
    &[],
    Exit::Damaged {
        disk: 0,
        place: 9,
        found: 0xff56_4a31,
        expected: 0x4b56_4a31,
    },
);

/// The number of the first run that comes to something else, of runs one after the other on the same disks.
fn first_other(alloc: Global, disks: Vec<MemDisk>, rows: &[Row]) -> Result<Option<usize>, Fail> {
    let mut disks = disks;
    for (number, row) in rows.iter().enumerate() {
        if disks.len() != 4 {
            return Ok(Some(number));
        }
        let (outside, frames, replies, wanted) = *row;
        let input = bytes_of(alloc, frames)?;
        let output = bytes_of(alloc, replies)?;
        let (exit, sink, left) = run_on(alloc, &["pipe"], input, outside, disks)?;
        if exit != wanted || sink.bytes() != output.as_slice() {
            return Ok(Some(number));
        }
        disks = left;
    }
    Ok(None)
}

/// The disk of a vbucket 0 of the one place of a chain, which was opened once.
fn disk_of(alloc: Global, name: &[u8]) -> Result<MemDisk, Fail>
    requires some { 1 ≤ length name.now }
    requires short { length name.now ≤ 255 }
{
    let chain = Chain::of_one(alloc, name)?;
    let disk = MemDisk::new(alloc, Vec::new(alloc));
    let (opened, _back) = Vb::open_vb(alloc, disk, 0, &chain, 0);
    Ok(opened?.finish())
}

#[test]
fn what_was_put_on_disk_is_there_in_a_later_run(rt: HostRuntime) -> Result<(), Fail> {
    let alloc = rt.alloc();
    assert_eq!(rt; first_other(alloc, empty_disks(alloc)?, &HISTORY)?, None);
    Ok(())
}

#[test]
fn each_failing_call_of_the_disk_is_told(rt: HostRuntime) -> Result<(), Fail> {
    let alloc = rt.alloc();
    for (first, last, row) in FAULTS {
        for call in first..=last {
            let mut disk = MemDisk::new(alloc, Vec::new(alloc));
            disk.plan_fault(call, false);
            let disks = disks_behind(alloc, disk)?;
            assert_eq!(rt; first_other(alloc, disks, &[row])?, None, "at {call}");
        }
    }
    Ok(())
}

#[test]
fn a_disk_with_something_else_is_not_used(rt: HostRuntime) -> Result<(), Fail> {
    let alloc = rt.alloc();
    let other = disks_behind(alloc, disk_of(alloc, b"b")?)?;
    assert_eq!(rt; first_other(alloc, other, &[FOR_ANOTHER_CHAIN])?, None);
    let mut disk = disk_of(alloc, b"a")?;
    assert_eq!(rt; disk.write_at(9, &[0xff]), DiskDone::Done);
    assert_eq!(rt; disk.sync(), DiskDone::Done);
    let damaged = disks_behind(alloc, disk)?;
    assert_eq!(rt; first_other(alloc, damaged, &[WITHOUT_A_MAGIC])?, None);
    Ok(())
}
