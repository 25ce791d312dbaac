use crate::{Disk, DiskDone, DiskRead, FileDisk, MemDisk, settle, write_synced};
use std::fs::File;
use std::test::Fail;
use std::{env, fs, process};

// what a row of a table asks for
const WRITE: u8 = 0;

const CUT: u8 = 1;

const SYNC: u8 = 2;

const CRASH: u8 = 3;

const FAIL: u8 = 4;

const FAIL_FROM: u8 = 5;

const WRITE_SYNCED: u8 = 6;

const SETTLE: u8 = 7;

const READ: u8 = 8;

// what comes of it
const DONE: u8 = 0;

const FAILED: u8 = 1;

const OTHER_BYTES: u8 = 2;

fn done(answer: DiskDone) -> u8 {
    match answer {
        DiskDone::Done => DONE,
        DiskDone::Failed => FAILED,
    }
}

// Makes the call of a row. A read is to give these bytes.
fn call<D: Disk>(disk: &mut D, asked: u8, number: u64, bytes: &[u8]) -> u8 {
    match asked {
        WRITE => done(disk.write_at(number, bytes)),
        CUT => done(disk.cut(number)),
        SYNC => done(disk.sync()),
        CRASH => {
            disk.crash();
            DONE
        }
        FAIL | FAIL_FROM => {
            disk.plan_fault(number, asked == FAIL_FROM);
            DONE
        }
        WRITE_SYNCED => done(write_synced(disk, number, bytes)),
        SETTLE => done(settle(disk)),
        _ => read(disk, number, bytes),
    }
}

fn read<D: Disk>(disk: &mut D, at: u64, bytes: &[u8]) -> u8 {
    let mut buf = [0u8; 8];
    match disk.read(at, &mut buf) {
        DiskRead::Failed => FAILED,
        DiskRead::Got(count) => {
            let (front, _) = buf.split_at(count);
            if front == bytes { DONE } else { OTHER_BYTES }
        }
    }
}

// Makes the calls of the rows in turn, and tells the place of the first that comes to something
// else.
fn first_wrong<D: Disk>(disk: &mut D, rows: &[(u8, u64, &[u8], u8)]) -> usize {
    for (place, row) in rows.iter().enumerate() {
        if call(disk, row.0, row.1, row.2) != row.3 {
            return place;
        }
    }
    rows.len()
}

#[test]
fn a_device_keeps_its_bytes(rt: HostRuntime) -> Result<(), Fail> {
    let rows: [(u8, u64, &[u8], u8); 17] = [
        (READ, 0, b"", DONE),
        (WRITE, 0, b"abcd", DONE),
        (SYNC, 0, b"", DONE),
        (READ, 0, b"abcd", DONE),
        (READ, 3, b"d", DONE),
        (READ, 9, b"", DONE),
        (WRITE, 3, b"xy", DONE),
        (READ, 0, b"abcxy", DONE),
        (WRITE, 7, b"z", DONE),
        (READ, 0, b"abcxy\0\0z", DONE),
        (CUT, 2, b"", DONE),
        (WRITE, 9, b"", DONE),
        (READ, 0, b"ab", DONE),
        (CUT, 4, b"", DONE),
        (SETTLE, 0, b"", DONE),
        (WRITE_SYNCED, 1, b"c", DONE),
        (READ, 0, b"ac\0\0", DONE),
    ];
    let mut memory = MemDisk::new(rt.alloc(), Vec::new(rt.alloc()));
    assert_eq!(rt; first_wrong(&mut memory, &rows), rows.len());
    assert_eq!(rt; memory.refused(), 0);

    let name = format!(in rt.alloc(); "magma-disk-{}", process::id(rt.process()))?;
    let path = env::temp_dir(&rt)?.join(rt.alloc(), name.as_str())?;
    let mut disk = FileDisk::new(File::create_new(&rt, path.as_path())?);
    let wrong = first_wrong(&mut disk, &rows);
    fs::remove_file(&rt, path.as_path())?;
    assert_eq!(rt; wrong, rows.len());
    Ok(())
}

// The tears: one that spoils nothing; one that cuts all past the least length; and one that xors
// the bytes at offsets 0 and 1 with 2 and 3.
#[test]
fn a_crash_leaves_what_tears_say(rt: HostRuntime) -> Result<(), Fail> {
    let rows: [(u8, u64, &[u8], u8); 17] = [
        (WRITE, 0, b"abcd", DONE),
        (SYNC, 0, b"", DONE),
        (CRASH, 0, b"", DONE),
        (READ, 0, b"abcd", DONE),
        (WRITE, 3, b"xy", DONE),
        (CRASH, 0, b"", DONE),
        (READ, 0, b"abcxy", DONE),
        (WRITE, 4, b"yz", DONE),
        (CRASH, 0, b"", DONE),
        (READ, 0, b"abcxy", DONE),
        (WRITE, 0, b"AB", DONE),
        (WRITE, 2, b"", DONE),
        (CRASH, 0, b"", DONE),
        (READ, 0, b"CAcxy", DONE),
        (CRASH, 0, b"", DONE),
        (READ, 0, b"CAcxy", DONE),
        (SYNC, 0, b"", DONE),
    ];
    let mut disk = MemDisk::new(rt.alloc(), vec![in rt.alloc(); 0u64, 1, 0x0302]?);
    assert_eq!(rt; first_wrong(&mut disk, &rows), rows.len());
    Ok(())
}

// The tears: of a write of three bytes two are written; of a cut from four to one nothing is kept
// behind the one; of a cut from one to four one byte is added.
#[test]
fn calls_fail_as_planned(rt: HostRuntime) -> Result<(), Fail> {
    let rows: [(u8, u64, &[u8], u8); 33] = [
        (WRITE, 0, b"abcd", DONE),
        (SYNC, 0, b"", DONE),
        (FAIL, 2, b"", DONE),
        (READ, 0, b"abcd", DONE),
        (WRITE, 1, b"XYZ", FAILED),
        (READ, 0, b"aXYd", DONE),
        (FAIL, 1, b"", DONE),
        (SYNC, 0, b"", FAILED),
        (FAIL, 0, b"", DONE),
        (SYNC, 0, b"", DONE),
        // a newer plan takes the place of an older one
        (FAIL, 3, b"", DONE),
        (FAIL, 1, b"", DONE),
        (READ, 0, b"", FAILED),
        (READ, 0, b"aXYd", DONE),
        (READ, 0, b"aXYd", DONE),
        // of two lasting ones the earlier stands, until a crash
        (FAIL_FROM, 2, b"", DONE),
        (FAIL_FROM, 3, b"", DONE),
        (READ, 0, b"aXYd", DONE),
        (READ, 0, b"", FAILED),
        (SYNC, 0, b"", FAILED),
        (CRASH, 0, b"", DONE),
        (READ, 0, b"aXYd", DONE),
        (FAIL, 1, b"", DONE),
        (CUT, 1, b"", FAILED),
        (READ, 0, b"a", DONE),
        (FAIL, 1, b"", DONE),
        (CUT, 4, b"", FAILED),
        (READ, 0, b"a\0", DONE),
        (SYNC, 0, b"", DONE),
        (FAIL, 3, b"", DONE),
        (CRASH, 0, b"", DONE),
        (SYNC, 0, b"", DONE),
        (READ, 0, b"a\0", DONE),
    ];
    let mut disk = MemDisk::new(rt.alloc(), vec![in rt.alloc(); 2u64, 0, 5]?);
    assert_eq!(rt; first_wrong(&mut disk, &rows), rows.len());
    Ok(())
}
