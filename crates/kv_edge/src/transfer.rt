ghost use Rattle.std.specs.Prelude.{◌≡◌, ◌≤◌};
ghost use Rattle.kv_edge.specs.Edge.{Rose};
ghost use Rattle.kv_edge.specs.Transfer.{ReadsAll, WritesAll};

use crate::bytes::Bytes;
use crate::traits::{Put, Sink, Source, Taken};
use std::alloc::Global;

/// How many bytes are asked for at once.
const PIECE: usize = 16384;

/// What reading a whole source came to.
#[derive(Debug, Drop)]
pub enum ReadAll {
    /// All the bytes that were left.
    Whole(Bytes),
    /// More bytes than the limit came.
    TooLong,
    /// A read failed.
    Failed,
    /// Memory was refused.
    NoMemory,
}

/// Takes all bytes of a source, as long as they aren't more than `limit`.
pub fn read_all<S: Source>(alloc: Global, source: &mut S, limit: usize) -> ReadAll
    ensures bytes { ReadsAll limit (S.left source.old) (S.left source.new) result }
    ensures counted { S.faults source.old ≤ S.faults source.new }
    ensures cause { result ≡ ReadAll.Failed → Rose (S.faults source.old) (S.faults source.new) }
{
    let mut bytes = Vec::new(alloc);
    let mut buffer = [0u8; PIECE];
    while bytes.len() <= limit {
        match source.read(&mut buffer) {
            Taken::Got(count) => {
                let (front, _) = buffer.split_at(count);
                match bytes.extend_from_slice(front) {
                    Ok(()) => {}
                    Err(_) => return ReadAll::NoMemory,
                }
            }
            Taken::End => return ReadAll::Whole(Bytes::from_vec(bytes)),
            Taken::Failed => return ReadAll::Failed,
        }
    }
    ReadAll::TooLong
}

/// What writing a whole piece came to.
#[derive(Clone, Copy, Debug, PartialEq, Eq)]
pub enum WriteAll {
    /// Every byte was written.
    Done,
    /// A write failed; a front of the piece was written.
    Failed,
}

/// Writes a whole piece.
pub fn write_all<K: Sink>(sink: &mut K, piece: &[u8]) -> WriteAll
    ensures bytes { WritesAll piece.now (K.written sink.old) (K.written sink.new) result }
    ensures counted { K.faults sink.old ≤ K.faults sink.new }
    ensures cause { result ≡ WriteAll.Failed → Rose (K.faults sink.old) (K.faults sink.new) }
{
    let mut at = 0;
    while at < piece.len() {
        let (_, rest) = piece.split_at(at);
        match sink.write(rest) {
            Put::Wrote(count) => at += count,
            Put::Failed => return WriteAll::Failed,
        }
    }
    WriteAll::Done
}
