ghost use Rattle.std.specs.Prelude.{◌≡◌, OnOk, IfErr};
ghost use Rattle.magma_store.specs.declared.fault.StoreFault.TheVariants as faults;

use kv_edge::NoMemory;
use magma_disk::DiskDone;
use std::alloc::{AllocError, AllocFailed};

/// Why a store didn't do what it was asked.
#[derive(Clone, Copy, Debug, PartialEq, Eq)]
pub enum StoreFault {
    /// A call of the disk failed.
    DiskFault,
    /// More segments are needed than are free.
    Full {
        needed: u64,
        free: u64,
    },
    /// The device's bytes break the layout at this offset. The numbers are what is found there and what is expected: a number,
    /// and the one that has to stand there or its bound; or how many bytes, or items, there are, and how many there should be.
    Damaged {
        place: u64,
        found: u64,
        expected: u64,
    },
    /// The stored promise or incarnation is too great to be opened once more.
    Spent {
        found: u64,
    },
    /// The device's store was made for another chain or another place.
    OtherChain,
    /// Memory was refused.
    NoMemory,
}

impl From<NoMemory> for StoreFault {
    ghost from_gives = { λ _ fault. fault ≡ faults.NoMemory };

    fn from(_refused: NoMemory) -> StoreFault {
        StoreFault::NoMemory
    }
}

impl From<AllocError> for StoreFault {
    ghost from_gives = { λ _ fault. fault ≡ faults.NoMemory };

    fn from(_refused: AllocError) -> StoreFault {
        StoreFault::NoMemory
    }
}

impl<T: Drop> From<AllocFailed<T>> for StoreFault {
    ghost from_gives = { λ _ fault. fault ≡ faults.NoMemory };

    fn from(_refused: AllocFailed<T>) -> StoreFault {
        StoreFault::NoMemory
    }
}

/// Goes on where a call of the disk was done.
pub(crate) fn done(answer: DiskDone) -> Result<(), StoreFault>
    ensures ok { OnOk result (answer ≡ DiskDone.Done) }
    ensures err { IfErr result (λ fault. (fault ≡ faults.DiskFault) × (answer ≡ DiskDone.Failed)) }
{
    match answer {
        DiskDone::Done => Ok(()),
        DiskDone::Failed => Err(StoreFault::DiskFault),
    }
}
