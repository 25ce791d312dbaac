//! The lines, read: each by its first word and those behind it.

ghost use Rattle.std.specs.Prelude.{◌≡◌, ◌↔◌, slice_index, IfOk, Err, IsTrue};
ghost use Rattle.kv_script.specs.declared.keyword.Keyword.TheVariants as keywords;
ghost use Rattle.kv_script.specs.declared.line.Line.{Line as ALine};
ghost use Rattle.kv_script.specs.Lines.{IsLine, IsSpelled, IsWorded};
ghost use Rattle.kv_script.specs.Reading.{Reads, HasWords, texts};

use crate::chains::names;
use crate::keyword::{Keyword, keyword_at};
use crate::line::{Line, LineFault};
use crate::parts::{copy_and_number, fed, one_copy, one_number};
use crate::promotions::promotion;
use crate::words::words_of;
use std::alloc::Global;

/// The least term that a copy can be asked to promise.
const LEAST_TERM: u64 = 4;

/// `chain W..`
fn chain_line(alloc: Global, parts: &[&[u8]]) -> Result<Line, LineFault>
    ensures { Reads (λ line. IsWorded line keywords.Chain (texts parts.now)) result }
{
    let names = names(alloc, parts)?;
    Ok(Line::Chain { names })
}

/// `at MS`
fn at_line(parts: &[&[u8]]) -> Result<Line, LineFault>
    ensures { Reads (λ line. IsWorded line keywords.At (texts parts.now)) result }
{
    let moment = one_number(parts)?;
    Ok(Line::At { moment })
}

/// `feed C S HEX`
#[tactic(auto, using(crate::proofs::Tuples::fed_bad))]
fn feed_line(alloc: Global, parts: &[&[u8]]) -> Result<Line, LineFault>
    ensures { Reads (λ line. IsWorded line keywords.Feed (texts parts.now)) result }
{
    let (copy, connection, bytes) = fed(alloc, parts)?;
    Ok(Line::Feed {
        copy,
        connection,
        bytes,
    })
}

/// `deliver K`
fn deliver_line(parts: &[&[u8]]) -> Result<Line, LineFault>
    ensures { Reads (λ line. IsWorded line keywords.Deliver (texts parts.now)) result }
{
    let message = one_number(parts)?;
    Ok(Line::Deliver { message })
}

/// `all`
fn all_line(parts: &[&[u8]]) -> Result<Line, LineFault>
    ensures { Reads (λ line. IsWorded line keywords.All (texts parts.now)) result }
{
    match parts {
        [] => Ok(Line::All),
        _ => Err(LineFault::Bad),
    }
}

/// `tick C`
fn tick_line(alloc: Global, parts: &[&[u8]]) -> Result<Line, LineFault>
    ensures { Reads (λ line. IsWorded line keywords.Tick (texts parts.now)) result }
{
    let copy = one_copy(alloc, parts)?;
    Ok(Line::Tick { copy })
}

/// `flush C`
fn flush_line(alloc: Global, parts: &[&[u8]]) -> Result<Line, LineFault>
    ensures { Reads (λ line. IsWorded line keywords.Flush (texts parts.now)) result }
{
    let copy = one_copy(alloc, parts)?;
    Ok(Line::Flush { copy })
}

/// `clean C M`, M from 1
fn clean_line(alloc: Global, parts: &[&[u8]]) -> Result<Line, LineFault>
    ensures { Reads (λ line. IsWorded line keywords.Clean (texts parts.now)) result }
{
    let (copy, most) = copy_and_number(alloc, parts, 1)?;
    Ok(Line::Clean { copy, most })
}

/// `fence C T`, T from 4
fn fence_line(alloc: Global, parts: &[&[u8]]) -> Result<Line, LineFault>
    ensures { Reads (λ line. IsWorded line keywords.Fence (texts parts.now)) result }
{
    let (copy, term) = copy_and_number(alloc, parts, LEAST_TERM)?;
    Ok(Line::Fence { copy, term })
}

/// `promote C T strict J..` or `promote C T weak J..`
fn promote_line(alloc: Global, parts: &[&[u8]]) -> Result<Line, LineFault>
    ensures { Reads (λ line. IsWorded line keywords.Promote (texts parts.now)) result }
{
    let (copy, term, weak, answers) = promotion(alloc, parts)?;
    Ok(Line::Promote {
        copy,
        term,
        weak,
        answers,
    })
}

/// `fuse C K`, K from 1
fn fuse_line(alloc: Global, parts: &[&[u8]]) -> Result<Line, LineFault>
    ensures { Reads (λ line. IsWorded line keywords.Fuse (texts parts.now)) result }
{
    let (copy, after) = copy_and_number(alloc, parts, 1)?;
    Ok(Line::Fuse { copy, after })
}

/// `fail C K`, K from 1
fn fail_line(alloc: Global, parts: &[&[u8]]) -> Result<Line, LineFault>
    ensures { Reads (λ line. IsWorded line keywords.Fail (texts parts.now)) result }
{
    let (copy, after) = copy_and_number(alloc, parts, 1)?;
    Ok(Line::Fail { copy, after })
}

/// `crash C`
fn crash_line(alloc: Global, parts: &[&[u8]]) -> Result<Line, LineFault>
    ensures { Reads (λ line. IsWorded line keywords.Crash (texts parts.now)) result }
{
    let copy = one_copy(alloc, parts)?;
    Ok(Line::Crash { copy })
}

/// `open C`
fn open_line(alloc: Global, parts: &[&[u8]]) -> Result<Line, LineFault>
    ensures { Reads (λ line. IsWorded line keywords.Open (texts parts.now)) result }
{
    let copy = one_copy(alloc, parts)?;
    Ok(Line::OpenCopy { copy })
}

/// The line of a first word and the words behind it.
fn line_of(alloc: Global, first: Keyword, parts: &[&[u8]]) -> Result<Line, LineFault>
    ensures { Reads (λ line. IsWorded line first (texts parts.now)) result }
{
    match first {
        Keyword::Chain => chain_line(alloc, parts),
        Keyword::At => at_line(parts),
        Keyword::Feed => feed_line(alloc, parts),
        Keyword::Deliver => deliver_line(parts),
        Keyword::All => all_line(parts),
        Keyword::Tick => tick_line(alloc, parts),
        Keyword::Flush => flush_line(alloc, parts),
        Keyword::Clean => clean_line(alloc, parts),
        Keyword::Fence => fence_line(alloc, parts),
        Keyword::Promote => promote_line(alloc, parts),
        Keyword::Fuse => fuse_line(alloc, parts),
        Keyword::Fail => fail_line(alloc, parts),
        Keyword::Crash => crash_line(alloc, parts),
        Keyword::Open => open_line(alloc, parts),
    }
}

/// The line of words.
fn worded(alloc: Global, words: &[&[u8]]) -> Result<Line, LineFault>
    ensures { Reads (HasWords (texts words.now)) result }
{
    let [spelt, parts @ ..] = words else {
        return Err(LineFault::Bad);
    };
    match keyword_at(spelt) {
        Some(first) => line_of(alloc, first, parts),
        None => Err(LineFault::Bad),
    }
}

/// The line that bytes are, which don't begin as a comment does.
fn spelled(alloc: Global, line: &[u8]) -> Result<Line, LineFault>
    ensures { Reads (λ found. IsSpelled found line.now) result }
{
    match words_of(alloc, line) {
        Ok(words) => worded(alloc, words.as_slice()),
        Err(_) => Err(LineFault::NoMemory),
    }
}

/// Whether bytes begin as a comment does.
fn is_comment(line: &[u8]) -> bool
    ensures { IsTrue result ↔ (slice_index line.now 0 ≡ 0x23) }
{
    matches!(line, [b'#', ..])
}

/// Reads a line, without the line feed at its end. `Bad` comes exactly where no line has these
/// bytes, and `NoMemory` where memory is refused; both leave nothing behind. The work and the memory
/// are in proportion to the bytes.
pub fn read_line(alloc: Global, line: &[u8]) -> Result<Line, LineFault>
    ensures line { IfOk result (λ found. IsLine found line.now) }
    ensures bad { result ≡ Err LineFault.Bad → (found : ALine) → IsLine found line.now → ⊥ }
{
    if is_comment(line) {
        Ok(Line::Comment)
    } else {
        spelled(alloc, line)
    }
}
