ghost use Rattle.std.specs.Prelude.{◌≡◌, ℕ, ◌≤◌, [], None, length, IfOk};
ghost use Rattle.magma_disk.specs.Counting.{CountsFault};

use crate::disk::{Disk, DiskDone, DiskRead};
use std::fs::File;
use std::io;
use std::io::ErrorKind;
use std::marker::Model;
use std::os::unix::fs::FileExt;

/// How many calls of the system one read may take, interrupted ones among them.
const TRIES: u32 = 1 << 21;

/// A file as a disk. It tells neither states nor plans, so contracts see what it counts alone.
#[derive(Drop)]
pub struct FileDisk {
    file: File,
    faults: u64,
    reads: u64,
}

impl Model for FileDisk {
    ghost use Rattle.magma_disk.specs.Counting.{Counts};

    ghost Value = { Counts };

    ghost view = { λ disk. record { faults = disk.faults; reads = disk.reads; plans = 0 } };
}

impl FileDisk {
    /// A disk over a file that is open for reading and writing. It has counted nothing.
    pub fn new(file: File) -> FileDisk
        ensures { result ≡ record { faults = 0; reads = 0; plans = 0 } }
    {
        FileDisk {
            file,
            faults: 0,
            reads: 0,
        }
    }
}

impl Disk for FileDisk {
    ghost states = { λ _. [] };

    ghost plan = { λ _. None };

    ghost counts = { λ disk. disk };

    fn read(&mut self, at: u64, buf: &mut [u8]) -> DiskRead {
        self.reads = self.reads.saturating_add(1);
        match fill(&self.file, at, buf) {
            Ok(count) => DiskRead::Got(count),
            Err(_) => {
                self.faults = self.faults.saturating_add(1);
                DiskRead::Failed
            }
        }
    }

    fn write_at(&mut self, at: u64, piece: &[u8]) -> DiskDone {
        counted(self.file.write_all_at(piece, at), &mut self.faults)
    }

    fn cut(&mut self, length: u64) -> DiskDone {
        counted(self.file.set_len(length), &mut self.faults)
    }

    fn sync(&mut self) -> DiskDone {
        counted(self.file.sync_data(), &mut self.faults)
    }

    /// Does nothing.
    fn crash(&mut self) {}

    /// Does nothing.
    fn plan_fault(&mut self, _after: u64, _lasting: bool) {}
}

/// Whether a call was done; one that failed is counted.
fn counted(outcome: io::Result<()>, faults: &mut u64) -> DiskDone
    ensures { CountsFault (result ≡ DiskDone.Failed) faults.old faults.new }
{
    match outcome {
        Ok(()) => DiskDone::Done,
        Err(_) => {
            *faults = faults.saturating_add(1);
            DiskDone::Failed
        }
    }
}

/// Fills the buffer from a file, or its front up to the file's end, and tells how many bytes that
/// is. A read that a signal broke off is tried again.
fn fill(file: &File, at: u64, buf: &mut [u8]) -> io::Result<usize>
    ensures { IfOk result (λ n. n ≤ length buf.new) }
{
    let mut filled = 0;
    for _ in 0..TRIES {
        if filled == buf.len() {
            return Ok(filled);
        }
        let (_, rest) = buf.split_at_mut(filled);
        match file.read_at(rest, at.saturating_add(filled as u64)) {
            Ok(0) => return Ok(filled),
            Ok(count) => filled += count,
            Err(error) => {
                if error.kind() != ErrorKind::Interrupted {
                    return Err(error);
                }
            }
        }
    }
    Err(ErrorKind::Interrupted.into())
}
