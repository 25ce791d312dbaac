ghost use Rattle.std.specs.Prelude.{◌≡◌, ◌≢◌, ℕ, ◌≤◌, List, Option, Bool, length, IfOk, IfSome, IsTrue, is_some};
ghost use Rattle.kv_edge.specs.Edge.{Rose, IsTakenWithin, Takes, IsPutWithin, Puts};

use std::alloc::{AllocError, AllocFailed, Global};

/// Memory was refused.
#[derive(Clone, Copy, Debug, PartialEq, Eq)]
pub struct NoMemory;

impl From<AllocError> for NoMemory {
    fn from(_refused: AllocError) -> NoMemory {
        NoMemory
    }
}

impl<T: Drop> From<AllocFailed<T>> for NoMemory {
    fn from(_refused: AllocFailed<T>) -> NoMemory {
        NoMemory
    }
}

/// What a read gave.
#[derive(Clone, Copy, Debug, PartialEq, Eq)]
pub enum Taken {
    /// This many bytes stand at the front of the buffer.
    Got(usize),
    /// No byte is left.
    End,
    /// The read failed and took nothing.
    Failed,
}

/// What a write did.
#[derive(Clone, Copy, Debug, PartialEq, Eq)]
pub enum Put {
    /// This many bytes of the piece's front were written.
    Wrote(usize),
    /// The write failed and wrote nothing.
    Failed,
}

/// Where bytes come from.
pub trait Source {
    /// The bytes that are left, where the source tells them.
    ghost left: { Self → Option (List ℕ) };

    /// How many calls have failed.
    ghost faults: { Self → ℕ };

    /// Takes bytes from the front of what is left into the front of the buffer.
    fn read(&mut self, buf: &mut [u8]) -> Taken
        ensures within { IsTakenWithin (length buf.old) result }
        ensures bytes { Takes (left self.old) (left self.new) result buf.new }
        ensures counted { faults self.old ≤ faults self.new }
        ensures cause { result ≡ Taken.Failed → Rose (faults self.old) (faults self.new) }
        ensures alone { result ≢ Taken.Failed → faults self.new ≡ faults self.old };
}

/// Where bytes go.
pub trait Sink {
    /// The bytes that were written, where the sink tells them.
    ghost written: { Self → Option (List ℕ) };

    /// How many calls have failed.
    ghost faults: { Self → ℕ };

    /// Writes bytes from the front of the piece.
    fn write(&mut self, piece: &[u8]) -> Put
        ensures within { IsPutWithin (length piece.now) result }
        ensures bytes { Puts (written self.old) (written self.new) result piece.now }
        ensures counted { faults self.old ≤ faults self.new }
        ensures cause { result ≡ Put.Failed → Rose (faults self.old) (faults self.new) }
        ensures alone { result ≢ Put.Failed → faults self.new ≡ faults self.old };
}

/// A clock that answers milliseconds since 1970.
pub trait Clock {
    /// The next answer, where the clock tells it.
    ghost told: { Self → Option ℕ };

    /// The moments that the clock may answer.
    ghost may_answer: { Self → ℕ → Bool };

    /// The moment now, in milliseconds since 1970.
    fn now(&mut self) -> u64
        ensures answer { IfSome (told self.old) (λ moment. result ≡ moment) }
        ensures allowed { IsTrue (may_answer self.old result) }
        ensures same_moments { (moment : ℕ) → may_answer self.new moment ≡ may_answer self.old moment }
        ensures still_told { is_some (told self.new) ≡ is_some (told self.old) };
}

/// A value that can be copied, given memory.
pub trait Copied: Drop {
    /// An equal value.
    fn copy(&self, alloc: Global) -> Result<Self, NoMemory>
        ensures { IfOk result (λ made. made ≡ self.now) };
}
