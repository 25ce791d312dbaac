//! What no clause shows: vbuckets on disks in memory that outlive them, and on disks that fail.

use crate::asking::{self, FRUIT, NO_FRUIT, opened, opened_first, plain, within};
use crate::{Vb, VbFault};
use doc_model::Refused;
use kv_request::Reply;
use kv_request::opcode::{DELETE, GET, SET, SET_MANIFEST};
use magma_disk::{Disk, MemDisk};
use std::alloc::Global;
use std::test::Fail;

// What is done to a vbucket beside asking it: its log is put on disk, or it is opened again.
const FLUSH: u8 = 0xf0;

const REOPEN: u8 = 0xf1;

// What a flush comes to.
const DONE: u16 = 0;

const DISK_FAULT: u16 = 1;

const OTHER_FAULT: u16 = 2;

// No flags and no expiry.
const PLAIN: &[u8] = &[0, 0, 0, 0, 0, 0, 0, 0];

// What is answered at the moment 0 to a request on a key, which has the id of its collection before its name.
fn ask(
    alloc: Global,
    vb: &mut Vb<MemDisk>,
    opcode: u8,
    key: &str,
    value: &str,
) -> Result<Reply, Refused> {
    let extras = if opcode == SET { PLAIN } else { &[] };
    let asked = within(plain(opcode, extras, value.as_bytes()), key.as_bytes());
    asking::ask(alloc, vb, asked, 0)
}

// What a flush comes to.
fn flushed(vb: &mut Vb<MemDisk>) -> u16 {
    match vb.flush() {
        Ok(_) => DONE,
        Err(VbFault::DiskFault) => DISK_FAULT,
        Err(_) => OTHER_FAULT,
    }
}

// The place of the first row that isn't answered with its status, or a Get of it with its value; over an empty disk.
fn first_other(alloc: Global, rows: &[(u8, &str, &str, u16)]) -> Result<Option<usize>, Refused> {
    let mut vb = opened_first(alloc)?;
    for (place, (deed, key, value, status)) in rows.iter().enumerate() {
        let told = match *deed {
            FLUSH => flushed(&mut vb),
            REOPEN => {
                vb = opened(alloc, vb.finish())?;
                DONE
            }
            opcode => {
                let sent = if opcode == GET { "" } else { value };
                let reply = ask(alloc, &mut vb, opcode, key, sent)?;
                if opcode == GET && reply.value.as_slice() != value.as_bytes() {
                    return Ok(Some(place));
                }
                reply.status.code
            }
        };
        if told != *status {
            return Ok(Some(place));
        }
    }
    Ok(None)
}

#[test]
fn flushed_documents_outlive_the_vbucket(rt: HostRuntime) -> Result<(), Fail> {
    let rows = [
        (SET, "\0n", "one", 0),
        (SET, "\0m", "two", 0),
        (FLUSH, "", "", DONE),
        (GET, "\0n", "one", 0),
        (SET, "\0n", "three", 0),
        (DELETE, "\0m", "", 0),
        (FLUSH, "", "", DONE),
        (GET, "\0m", "", 1),
        (SET, "\0l", "four", 0),
        (REOPEN, "", "", DONE),
        (GET, "\0n", "three", 0),
        (GET, "\0m", "", 1),
        (GET, "\0l", "", 1),
    ];
    assert_eq!(rt; first_other(rt.alloc(), &rows)?, None);
    Ok(())
}

#[test]
fn dropped_collections_are_gone_from_the_disk(rt: HostRuntime) -> Result<(), Fail> {
    let rows = [
        (SET_MANIFEST, "", FRUIT, 0),
        (SET, "\x08n", "pear", 0),
        (SET, "\0n", "one", 0),
        (FLUSH, "", "", DONE),
        (SET_MANIFEST, "", NO_FRUIT, 0),
        (GET, "\x08n", "", 0x88),
        (GET, "\0n", "one", 0),
        (FLUSH, "", "", DONE),
        (REOPEN, "", "", DONE),
        (GET, "\x08n", "", 0x88),
        (GET, "\0n", "one", 0),
    ];
    assert_eq!(rt; first_other(rt.alloc(), &rows)?, None);
    Ok(())
}

// Whether a flush that fails at a call of the disk leaves the vbucket dead, and the disk with the value before it or that
// behind it.
fn fails_well(alloc: Global, call: u64, tear: u64) -> Result<bool, Refused> {
    let mut tears = Vec::new(alloc);
    if tears.push(tear).is_err() {
        return Err(Refused::NoMemory);
    }
    let mut vb = opened(alloc, MemDisk::new(alloc, tears))?;
    ask(alloc, &mut vb, SET, "\0n", "one")?;
    flushed(&mut vb);
    ask(alloc, &mut vb, SET, "\0n", "two")?;
    vb.plan_fault(call, false);
    let told = flushed(&mut vb);
    let dead = ask(alloc, &mut vb, GET, "\0n", "")?;
    let mut disk = vb.finish();
    disk.crash();
    let mut again = opened(alloc, disk)?;
    let left = ask(alloc, &mut again, GET, "\0n", "")?;
    let known = left.value.as_slice() == b"one".as_slice()
        || left.value.as_slice() == b"two".as_slice();
    Ok(told == DISK_FAULT && dead.status.code == 7 && known)
}

// The first of the four calls of a flush that doesn't fail well, 0 where none is.
fn first_bad_call(alloc: Global, tear: u64) -> Result<u64, Refused> {
    for call in 1..5 {
        if !fails_well(alloc, call, tear)? {
            return Ok(call);
        }
    }
    Ok(0)
}

#[test]
fn a_flush_that_fails_leaves_the_old_or_the_new(rt: HostRuntime) -> Result<(), Fail> {
    assert_eq!(rt; first_bad_call(rt.alloc(), 0)?, 0);
    assert_eq!(rt; first_bad_call(rt.alloc(), 3)?, 0);
    Ok(())
}
