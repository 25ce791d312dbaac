use kv_request::Reply;
use replica_core::PromoteFault;

/// What a client that waits for a durable write holds.
#[derive(Debug, Drop)]
pub struct Ticket {
    /// The position of the Prepare.
    pub prepare: u64,
    /// The term in which it was added.
    pub term: u64,
    /// The reply that tells its success; its token has the position of the Prepare until the
    /// write is answered.
    pub reply: Reply,
}

/// What a request comes to.
#[derive(Debug, Drop)]
pub enum Outcome {
    /// It is answered.
    Reply(Reply),
    /// It waits for its Commit.
    Parked(Ticket),
}

/// What a ticket comes to.
#[derive(Debug, Drop)]
pub enum Polled {
    /// It is answered, and not open any more.
    Done(Reply),
    /// It waits further.
    Pending(Ticket),
}

/// Why an event did nothing, or left the copy dead.
#[derive(Clone, Copy, Debug, PartialEq, Eq)]
pub enum VbFault {
    /// The disk failed; the copy is dead.
    DiskFault,
    /// What was to be put on disk needs this many segments, and this many are free.
    Full { needed: u64, free: u64 },
    /// The copy is dead.
    Dead,
    /// The fence or the promotion was refused.
    Promote(PromoteFault),
    /// Memory was wanting; nothing happened.
    NoMemory,
}
