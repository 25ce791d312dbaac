ghost use Rattle.std.specs.Prelude.{◌≡◌, ℕ, List, ◌++◌, length};
ghost use Rattle.kv_frame.specs.declared.frame.Frame.{Frame};
ghost use Rattle.kv_frame.specs.Grammar.{spelling, IsFrame};
ghost use Rattle.kv_frame.specs.Judging.{Judges};
ghost use Rattle.kv_frame.specs.Reading.{JudgesSection};

use crate::frame::{HEADER_LENGTH, Side};
use crate::framing::read_extra;
use crate::header::{HeaderRead, read_header};

/// Why no frame can begin like this.
#[derive(Clone, Copy, Debug, PartialEq, Eq)]
pub enum Fault {
    /// The first byte is no magic of the side.
    Magic,
    /// The body length is below the sum of the stated lengths.
    Lengths,
    /// The body length is above 23,068,672.
    TooBig,
    /// A framing extra passes the framing section.
    Extra,
}

/// Whether bytes begin with a frame.
#[derive(Clone, Copy, Debug, PartialEq, Eq)]
pub enum Judged {
    /// The first bytes, this many, are a frame.
    Whole(usize),
    /// This many bytes are missing, of the header or else of the body.
    More(usize),
    /// No frame begins so: where in the frame, and why.
    Bad(usize, Fault),
}

/// The offset of the first framing extra of a section that passes it, where there is one.
fn first_wrong(section: &[u8]) -> Option<usize>
    ensures { JudgesSection section.now result }
{
    let mut rest = section;
    while !rest.is_empty() {
        match read_extra(rest) {
            Some((_, _, after)) => rest = after,
            None => return Some(section.len() - rest.len()),
        }
    }
    None
}

/// Judges what the bytes begin with.
fn judge_bytes(side: Side, bytes: &[u8]) -> Judged
    ensures { Judges side bytes.now result }
{
    let header = match read_header(side, bytes) {
        HeaderRead::Good(header) => header,
        HeaderRead::More(missing) => return Judged::More(missing),
        HeaderRead::Bad(place, fault) => return Judged::Bad(place, fault),
    };
    let (_, rest) = bytes.split_at(HEADER_LENGTH);
    if rest.len() < header.body {
        return Judged::More(header.body - rest.len());
    }
    let (section, _) = rest.split_at(header.framing);
    match first_wrong(section) {
        Some(offset) => Judged::Bad(HEADER_LENGTH + offset, Fault::Extra),
        None => Judged::Whole(HEADER_LENGTH + header.body),
    }
}

/// Judges whether bytes begin with a frame of the side. A fault of the header is told when its 24 bytes are there,
/// one of a framing extra when the body is there; until then bytes are missing. It takes no memory.
pub fn judge(side: Side, bytes: &[u8]) -> Judged
    ensures answer { Judges side bytes.now result }
    ensures only { (f : Frame) (rest : List ℕ) → IsFrame side f (spelling f) → bytes.now ≡ spelling f ++ rest → result ≡ Judged.Whole (length (spelling f)) }
{
    judge_bytes(side, bytes)
}
