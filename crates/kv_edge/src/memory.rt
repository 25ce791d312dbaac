ghost use Rattle.std.specs.Prelude.{◌≡◌, ℕ, ◌≢◌, ◌+◌, ◌^◌, ◌-◌, ◌<◌, ◌≤◌, ◌↔◌, [], length, take, drop, min, Contains, Some, ◌⊎◌};
ghost use Rattle.kv_edge.specs.Edge.{Rose, IsTakenWithin, Takes, IsPutWithin, Puts};

use crate::bytes::Bytes;
use crate::traits::{Put, Sink, Source, Taken};
use std::alloc::Global;
use std::marker::Model;

/// A source over bytes in memory. It tells what is left.
#[derive(Debug, Drop)]
pub struct MemSource {
    bytes: Vec<u8>,
    taken: usize,
    most: usize,
    failing: Vec<u64>,
    calls: u64,
    failed: u64,
}

impl Model for MemSource {
    ghost use Rattle.std.specs.Prelude.{◌<◌, ◌≤◌, drop, vec_len};
    ghost use Rattle.kv_edge.specs.Memory.{Memory};

    ghost Value = { Memory };

    ghost view = { λ s. record { bytes = drop s.taken s.bytes.items; most = s.most; failing = s.failing.items; calls = s.calls; failed = s.failed; refused = 0 } };

    ghost invariant = { λ s. (s.taken ≤ vec_len s.bytes) × (0 < s.most) };
}

impl MemSource {
    /// A source of these bytes that gives at most `most` of them a call. Exactly the calls numbered in `failing`,
    /// from 0, fail.
    pub fn new(bytes: Bytes, most: usize, failing: Vec<u64>) -> MemSource
        requires { 0 < most }
        ensures bytes { result.bytes ≡ bytes }
        ensures most { result.most ≡ most }
        ensures failing { result.failing ≡ failing.items }
        ensures calls { result.calls ≡ 0 }
        ensures failed { result.failed ≡ 0 }
    {
        MemSource {
            bytes: bytes.into_vec(),
            taken: 0,
            most,
            failing,
            calls: 0,
            failed: 0,
        }
    }
}

impl Source for MemSource {
    ghost left = { λ source. Some source.bytes };

    ghost faults = { λ source. source.failed };

    fn read(&mut self, buf: &mut [u8]) -> Taken
        ensures within { IsTakenWithin (length buf.old) result }
        ensures bytes { Takes (Some self.old.bytes) (Some self.new.bytes) result buf.new }
        ensures counted { self.old.failed ≤ self.new.failed }
        ensures cause { result ≡ Taken.Failed → Rose self.old.failed self.new.failed }
        ensures alone { result ≢ Taken.Failed → self.new.failed ≡ self.old.failed }
        ensures fails { (result ≡ Taken.Failed) ↔ Contains self.old.failing self.old.calls }
        ensures at_most { (n : ℕ) → result ≡ Taken.Got n → n ≤ self.old.most }
        ensures most { self.new.most ≡ self.old.most }
        ensures failing { self.new.failing ≡ self.old.failing }
        ensures calls { self.new.calls ≡ min (self.old.calls + 1) (2 ^ 64 - 1) }
    {
        let fails = self.failing.contains(&self.calls);
        self.calls = self.calls.saturating_add(1);
        if fails {
            self.failed = self.failed.saturating_add(1);
            return Taken::Failed;
        }
        let rest = self.bytes.len() - self.taken;
        if rest == 0 && !buf.is_empty() {
            return Taken::End;
        }
        let count = rest.min(buf.len()).min(self.most);
        copy_front(&self.bytes, self.taken, count, buf);
        self.taken += count;
        Taken::Got(count)
    }
}

/// Copies `count` bytes of `from`, beginning at `at`, to the front of the buffer.
fn copy_front(from: &[u8], at: usize, count: usize, buf: &mut [u8])
    requires source { at + count ≤ length from.now }
    requires room { count ≤ length buf.old }
    ensures front { take count buf.new ≡ take count (drop at from.now) }
{
    let (_, rest) = from.split_at(at);
    let (piece, _) = rest.split_at(count);
    let (front, _) = buf.split_at_mut(count);
    front.copy_from_slice(piece);
}

/// A sink in memory. It tells what was written.
#[derive(Debug, Drop)]
pub struct MemSink {
    bytes: Vec<u8>,
    most: usize,
    failing: Vec<u64>,
    calls: u64,
    failed: u64,
    /// How many calls found no memory.
    refused: u64,
}

impl Model for MemSink {
    ghost use Rattle.std.specs.Prelude.{◌<◌};
    ghost use Rattle.kv_edge.specs.Memory.{Memory};

    ghost Value = { Memory };

    ghost view = { λ s. record { bytes = s.bytes.items; most = s.most; failing = s.failing.items; calls = s.calls; failed = s.failed; refused = s.refused } };

    ghost invariant = { λ s. 0 < s.most };
}

impl MemSink {
    /// An empty sink that takes at most `most` bytes a call. The calls numbered in `failing`, from 0, fail, and so
    /// does a call for whose bytes no memory is found.
    pub fn new(alloc: Global, most: usize, failing: Vec<u64>) -> MemSink
        requires { 0 < most }
        ensures bytes { result.bytes ≡ [] }
        ensures most { result.most ≡ most }
        ensures failing { result.failing ≡ failing.items }
        ensures calls { result.calls ≡ 0 }
        ensures failed { result.failed ≡ 0 }
        ensures refused { result.refused ≡ 0 }
    {
        MemSink {
            bytes: Vec::new(alloc),
            most,
            failing,
            calls: 0,
            failed: 0,
            refused: 0,
        }
    }

    /// What was written.
    pub fn bytes(&self) -> &[u8]
        ensures { result.now ≡ self.now.bytes }
    {
        self.bytes.as_slice()
    }

    /// How many calls failed since no memory was found for their bytes.
    pub fn refused(&self) -> u64
        ensures { result ≡ self.now.refused }
    {
        self.refused
    }
}

impl Sink for MemSink {
    ghost written = { λ sink. Some sink.bytes };

    ghost faults = { λ sink. sink.failed };

    fn write(&mut self, piece: &[u8]) -> Put
        ensures within { IsPutWithin (length piece.now) result }
        ensures bytes { Puts (Some self.old.bytes) (Some self.new.bytes) result piece.now }
        ensures counted { self.old.failed ≤ self.new.failed }
        ensures cause { result ≡ Put.Failed → Rose self.old.failed self.new.failed }
        ensures alone { result ≢ Put.Failed → self.new.failed ≡ self.old.failed }
        ensures told { Contains self.old.failing self.old.calls → result ≡ Put.Failed }
        ensures untold { result ≡ Put.Failed → Contains self.old.failing self.old.calls ⊎ Rose self.old.refused self.new.refused }
        ensures refused { Contains self.old.failing self.old.calls ⊎ (result ≢ Put.Failed) → self.new.refused ≡ self.old.refused }
        ensures at_most { (n : ℕ) → result ≡ Put.Wrote n → n ≤ self.old.most }
        ensures most { self.new.most ≡ self.old.most }
        ensures failing { self.new.failing ≡ self.old.failing }
        ensures calls { self.new.calls ≡ min (self.old.calls + 1) (2 ^ 64 - 1) }
    {
        let fails = self.failing.contains(&self.calls);
        self.calls = self.calls.saturating_add(1);
        if fails {
            self.failed = self.failed.saturating_add(1);
            return Put::Failed;
        }
        let count = piece.len().min(self.most);
        let (front, _) = piece.split_at(count);
        match self.bytes.extend_from_slice(front) {
            Ok(()) => Put::Wrote(count),
            Err(_) => {
                self.refused = self.refused.saturating_add(1);
                self.failed = self.failed.saturating_add(1);
                Put::Failed
            }
        }
    }
}
