use std::fmt;

/// What the top call came to.
#[derive(Clone, Copy, Debug, PartialEq, Eq)]
pub enum Exit {
    /// The input was read to its end or to a Quit, all replies were written, and all that changed was put on disk, unless the
    /// disk had failed at a request and the copy is dead.
    Done,
    /// The words are of no form that is served.
    Usage,
    /// A read failed; the replies to the whole frames that were taken were written.
    ReadFault,
    /// A write failed; a front of the replies was written.
    WriteFault,
    /// Memory was refused; the replies to the frames that were answered before were written.
    NoMemory,
    /// The disk failed as the vbucket was opened, and nothing was taken; or as it was put on disk in the end, behind all
    /// replies.
    DiskFault,
    /// The bytes of the disk of this number break the layout of a store at a place, in bytes from 0; and the number found
    /// there, and the one expected.
    Damaged {
        disk: u8,
        place: u64,
        found: u64,
        expected: u64,
    },
    /// More than 268,435,456 bytes came; the replies to the whole frames among the first so many were written.
    TooLong,
    /// No frame begins behind the frames that were answered. The number is the place in the input, in bytes from 0, at
    /// which that shows.
    BadFrame(u64),
    /// The input ended within a frame, this many bytes behind its beginning; the earlier frames were answered.
    Cut(u64),
    /// The promise or the number of openings that the disk's store has is too great for it to be opened again.
    Spent(u64),
    /// The store on the disk of this number was made for another chain, or for another place of it.
    OtherChain(u8),
    /// More segments of 1,048,576 bytes are needed than are free: for the term as the vbucket was opened, and nothing was
    /// taken; or for what changed in the end, behind all replies.
    Full {
        needed: u64,
        free: u64,
    },
}

impl Exit {
    ghost use Rattle.std.specs.Prelude.{◌≡◌};
    ghost use Rattle.kv_tool.specs.Statuses.{status_of};

    /// The exit status of the program.
    pub fn status(self) -> u8
        ensures { result ≡ status_of self }
    {
        match self {
            Exit::Done => 0,
            Exit::Usage => 1,
            Exit::ReadFault => 2,
            Exit::WriteFault => 3,
            Exit::NoMemory => 4,
            Exit::DiskFault => 5,
            Exit::Damaged { .. } => 6,
            Exit::TooLong => 7,
            Exit::BadFrame(_) => 9,
            Exit::Cut(_) => 10,
            Exit::Spent(_) => 11,
            Exit::OtherChain(_) => 12,
            Exit::Full { .. } => 13,
        }
    }
}

/// The name and, each behind one space, the numbers.
impl fmt::Display for Exit {
    ghost use Rattle.std.specs.Prelude.{Some};
    ghost use Rattle.kv_tool.specs.Statuses.{text_of};

    ghost output = { λ exit. Some (text_of exit) };

    fn fmt<W: fmt::Write>(&self, f: &mut fmt::Formatter<W>) -> fmt::Result {
        match self {
            Exit::Done => write!(f, "Done"),
            Exit::Usage => write!(f, "Usage"),
            Exit::ReadFault => write!(f, "ReadFault"),
            Exit::WriteFault => write!(f, "WriteFault"),
            Exit::NoMemory => write!(f, "NoMemory"),
            Exit::DiskFault => write!(f, "DiskFault"),
            Exit::Damaged {
                disk,
                place,
                found,
                expected,
            } => write!(f, "Damaged {disk} {place} {found} {expected}"),
            Exit::TooLong => write!(f, "TooLong"),
            Exit::BadFrame(place) => write!(f, "BadFrame {place}"),
            Exit::Cut(count) => write!(f, "Cut {count}"),
            Exit::Spent(found) => write!(f, "Spent {found}"),
            Exit::OtherChain(disk) => write!(f, "OtherChain {disk}"),
            Exit::Full { needed, free } => write!(f, "Full {needed} {free}"),
        }
    }
}
