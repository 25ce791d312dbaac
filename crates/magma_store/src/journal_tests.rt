ghost use Rattle.std.specs.Prelude.{◌<◌, ◌^◌};

use crate::fault::StoreFault;
use crate::journal::{append, close, next_record, read_bytes};
use magma_disk::{Disk, DiskDone, MemDisk, write_synced};
use std::alloc::Global;
use std::test::Fail;

// what stands behind the gates of two records: their size, what they hold, and a closed gate
const FIRST: &[u8] = b"\0\0\0\0\0\0\0\x03one\0";

const SECOND: &[u8] = b"\0\0\0\0\0\0\0\x05three\0";

// where the first one ends, and the second
const MIDDLE: u64 = 12;

const LAST: u64 = 26;

// what stands at an offset
const RECORD: u8 = 0;

const OTHER_RECORD: u8 = 1;

const NONE: u8 = 2;

const DAMAGE: u8 = 3;

const FAULT: u8 = 4;

// What stands at an offset, where a record is to hold these bytes.
fn at<D: Disk>(alloc: Global, disk: &mut D, place: u64, held: &[u8]) -> u8
    requires { place < 2 ^ 62 }
{
    match next_record(alloc, disk, place) {
        Ok(Some(found)) => {
            if found.as_slice() == held {
                return RECORD;
            }
            OTHER_RECORD
        }
        Ok(None) => NONE,
        Err(StoreFault::Damaged { .. }) => DAMAGE,
        Err(_) => FAULT,
    }
}

// How many bytes are there.
fn count<D: Disk>(alloc: Global, disk: &mut D) -> usize {
    match read_bytes(alloc, disk, 0, 3_000_000) {
        Ok(bytes) => bytes.len(),
        Err(_) => usize::MAX,
    }
}

#[test]
fn records_are_read_back(rt: HostRuntime) -> Result<(), Fail> {
    let alloc = rt.alloc();
    let mut disk = MemDisk::new(alloc, Vec::new(alloc));
    assert_eq!(rt; at(alloc, &mut disk, 0, b""), NONE);
    assert_eq!(rt; close(&mut disk, 0), DiskDone::Done);
    assert_eq!(rt; append(&mut disk, 0, FIRST), DiskDone::Done);
    assert_eq!(rt; append(&mut disk, MIDDLE, SECOND), DiskDone::Done);
    assert_eq!(rt; close(&mut disk, LAST), DiskDone::Done);
    assert_eq!(rt; at(alloc, &mut disk, 0, b"one"), RECORD);
    assert_eq!(rt; at(alloc, &mut disk, MIDDLE, b"three"), RECORD);
    assert_eq!(rt; at(alloc, &mut disk, LAST, b""), NONE);
    assert_eq!(rt; count(alloc, &mut disk), 27);
    // three pieces
    assert_eq!(rt; write_synced(&mut disk, 2_500_000, b"z"), DiskDone::Done);
    assert_eq!(rt; count(alloc, &mut disk), 2_500_001);
    Ok(())
}

// Stops the second record at the call of this number, and tells what stands in its place when the machine starts again.
fn stopped(alloc: Global, disk: &mut MemDisk, after: u64) -> u8 {
    if close(disk, 0) != DiskDone::Done || append(disk, 0, FIRST) != DiskDone::Done {
        return FAULT;
    }
    disk.plan_fault(after, true);
    if append(disk, MIDDLE, SECOND) != DiskDone::Failed {
        return FAULT;
    }
    disk.crash();
    if at(alloc, disk, 0, b"one") != RECORD {
        return OTHER_RECORD;
    }
    at(alloc, disk, MIDDLE, b"three")
}

#[test]
fn a_stopped_record_is_there_or_not(rt: HostRuntime) -> Result<(), Fail> {
    let alloc = rt.alloc();
    let mut there = 0u64;
    let mut gone = 0u64;
    for tear in [0u64, 1, 0xa5, 0xa5a5, 0x5a01_02ff] {
        for after in 1..5u64 {
            let mut disk = MemDisk::new(alloc, vec![in alloc; tear, tear >> 8, tear]?);
            match stopped(alloc, &mut disk, after) {
                RECORD => there = there.saturating_add(1),
                NONE => gone = gone.saturating_add(1),
                other => assert_eq!(rt; other, NONE, "at {after}"),
            }
        }
    }
    assert_eq!(rt; there.saturating_add(gone), 20);
    assert!(rt; there > 0);
    Ok(())
}

// Where a device of these bytes is damaged, what is found there, and what is expected; three zeros where it isn't.
fn damage(alloc: Global, bytes: &[u8]) -> (u64, u64, u64) {
    let mut disk = MemDisk::new(alloc, Vec::new(alloc));
    if write_synced(&mut disk, 0, bytes) != DiskDone::Done {
        return (0, 0, 0);
    }
    match next_record(alloc, &mut disk, 0) {
        Err(
            StoreFault::Damaged {
                place,
                found,
                expected,
            },
        ) => (place, found, expected),
        _ => (0, 0, 0),
    }
}

#[test]
fn damage_is_told(rt: HostRuntime) {
    let rows: [(&[u8], (u64, u64, u64)); 7] = [
        (b"", (0, 0, 0)),
        (b"\xa5", (0, 0, 0)),
        (b"\x01\0\0\0\0\0\0\0\x09", (0, 0, 0)),
        (b"\xa5\0\0\0", (1, 3, 8)),
        (b"\xa5\0\0\0\0\0\0\0\x02ab", (0, 0, 0)),
        (b"\xa5\0\0\0\0\0\0\0\x05ab", (1, 5, 2)),
        (b"\xa5\xff\xff\xff\xff\xff\xff\xff\xffabc", (1, u64::MAX, 3)),
    ];
    for row in &rows {
        assert_eq!(rt; damage(rt.alloc(), row.0), row.1);
    }
}
