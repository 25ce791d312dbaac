//! Disks of which some are files and some are in memory.

ghost use Rattle.kv_tool.specs.Disks.{states_of, plan_of, counts_of};

use magma_disk::{Disk, DiskDone, DiskRead, FileDisk, MemDisk};

/// A file as a disk, or a disk in memory: so that the disks of one run may be of both kinds. Each call is that of the disk
/// within, and so is what contracts see of it: of a file what it counts alone.
#[derive(Drop)]
pub enum AnyDisk {
    /// What is put there outlives the process, once it is synced.
    File(FileDisk),
    /// What is put there is gone with the process.
    Memory(MemDisk),
}

impl Disk for AnyDisk {
    ghost states = { states_of };

    ghost plan = { plan_of };

    ghost counts = { counts_of };

    fn read(&mut self, at: u64, buf: &mut [u8]) -> DiskRead {
        match self {
            AnyDisk::File(disk) => disk.read(at, buf),
            AnyDisk::Memory(disk) => disk.read(at, buf),
        }
    }

    fn write_at(&mut self, at: u64, piece: &[u8]) -> DiskDone {
        match self {
            AnyDisk::File(disk) => disk.write_at(at, piece),
            AnyDisk::Memory(disk) => disk.write_at(at, piece),
        }
    }

    fn cut(&mut self, length: u64) -> DiskDone {
        match self {
            AnyDisk::File(disk) => disk.cut(length),
            AnyDisk::Memory(disk) => disk.cut(length),
        }
    }

    fn sync(&mut self) -> DiskDone {
        match self {
            AnyDisk::File(disk) => disk.sync(),
            AnyDisk::Memory(disk) => disk.sync(),
        }
    }

    /// Does nothing to a file.
    fn crash(&mut self) {
        match self {
            AnyDisk::File(disk) => disk.crash(),
            AnyDisk::Memory(disk) => disk.crash(),
        }
    }

    /// Plans nothing for a file.
    fn plan_fault(&mut self, after: u64, lasting: bool) {
        match self {
            AnyDisk::File(disk) => disk.plan_fault(after, lasting),
            AnyDisk::Memory(disk) => disk.plan_fault(after, lasting),
        }
    }
}
