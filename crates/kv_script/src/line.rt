//! A line of a script, read.

use kv_edge::{Bytes, Seq};

/// What a line of a script asks for. A copy is told by its name.
#[derive(Debug, PartialEq, Eq, Drop)]
pub enum Line {
    /// Nothing: a remark for the reader.
    Comment,
    /// The places of the vbucket, with the names of their copies.
    Chain {
        names: Seq<Option<Bytes>>,
    },
    /// The moment from now on, in milliseconds.
    At {
        moment: u64,
    },
    /// Bytes that come in on a connection of a copy.
    Feed {
        copy: Bytes,
        connection: u8,
        bytes: Bytes,
    },
    /// The message of this number reaches its addressee.
    Deliver {
        message: u64,
    },
    /// All messages that are under way reach their addressees.
    All,
    /// A copy looks at what is due.
    Tick {
        copy: Bytes,
    },
    /// A copy writes what it has to its disk.
    Flush {
        copy: Bytes,
    },
    /// A copy cleans its disk, and moves at most so many items.
    Clean {
        copy: Bytes,
        most: u64,
    },
    /// A copy promises a term.
    Fence {
        copy: Bytes,
        term: u64,
    },
    /// A copy becomes the active one of a term, by the answers of these numbers.
    Promote {
        copy: Bytes,
        term: u64,
        weak: bool,
        answers: Seq<u64>,
    },
    /// The disk of a copy fails from the call of this number on, counted from 1.
    Fuse {
        copy: Bytes,
        after: u64,
    },
    /// The disk of a copy fails at the call of this number, counted from 1, and at no other.
    Fail {
        copy: Bytes,
        after: u64,
    },
    /// A copy goes down, and its disk crashes.
    Crash {
        copy: Bytes,
    },
    /// A copy that is down comes up again.
    OpenCopy {
        copy: Bytes,
    },
}

/// Why a line wasn't read.
#[derive(Clone, Copy, Debug, PartialEq, Eq)]
pub enum LineFault {
    /// No line is spelled so.
    Bad,
    /// Memory was refused.
    NoMemory,
}
