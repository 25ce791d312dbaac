ghost use Rattle.std.specs.Prelude.{◌≡◌, ◌≢◌, ◌≤◌, None, length};
ghost use Rattle.kv_edge.specs.Edge.{Rose, IsTakenWithin, Takes, IsPutWithin, Puts};
ghost use Rattle.kv_edge.specs.Standard.{TakesOf, PutsTo};

use crate::traits::{Put, Sink, Source, Taken};
use std::io::{ErrorKind, Read, Write};
use std::marker::Model;

/// How often a call that a signal broke off is tried again before it counts as failed.
const TRIES: u32 = 1000;

/// A reader of std as a source. As a source it tells nothing of its bytes, since a reader may begin or stop to know what
/// it has; but contracts see the bytes that the reader itself knows to have left.
#[derive(Debug, Drop)]
pub struct StdSource<R: Read> {
    reader: R,
    faults: u64,
}

impl<R: Read> Model for StdSource<R> {
    ghost use Rattle.kv_edge.specs.Standard.{Adapter, coded_adapter};

    ghost Value = { Adapter };

    ghost coded = { coded_adapter };

    ghost view = { λ source. record { known = R.remaining source.reader; faults = source.faults } };
}

impl<R: Read> StdSource<R> {
    /// A source over a reader, of which no call has failed.
    pub fn new(reader: R) -> StdSource<R>
        ensures known { result.known ≡ R.remaining reader }
        ensures faults { result.faults ≡ 0 }
    {
        StdSource { reader, faults: 0 }
    }
}

impl<R: Read> Source for StdSource<R> {
    ghost left = { λ _. None };

    ghost faults = { λ source. source.faults };

    /// Takes from the reader what it gives. A read that a signal broke off is tried again.
    fn read(&mut self, buf: &mut [u8]) -> Taken
        ensures within { IsTakenWithin (length buf.old) result }
        ensures bytes { Takes None None result buf.new }
        ensures counted { self.old.faults ≤ self.new.faults }
        ensures cause { result ≡ Taken.Failed → Rose self.old.faults self.new.faults }
        ensures alone { result ≢ Taken.Failed → self.new.faults ≡ self.old.faults }
        ensures reader { TakesOf self.old.known self.new.known result buf.new }
    {
        if buf.is_empty() {
            return Taken::Got(0);
        }
        for _ in 0..TRIES {
            match self.reader.read(buf) {
                Ok(0) => return Taken::End,
                Ok(count) => return Taken::Got(count),
                Err(error) => {
                    if error.kind() != ErrorKind::Interrupted {
                        break;
                    }
                }
            }
        }
        self.faults = self.faults.saturating_add(1);
        Taken::Failed
    }
}

/// A writer of std as a sink. As a sink it tells nothing of its bytes, since a writer may begin or stop to know what it
/// has; but contracts see the bytes that the writer itself knows to hold.
#[derive(Debug, Drop)]
pub struct StdSink<W: Write> {
    writer: W,
    faults: u64,
}

impl<W: Write> Model for StdSink<W> {
    ghost use Rattle.kv_edge.specs.Standard.{Adapter, coded_adapter};

    ghost Value = { Adapter };

    ghost coded = { coded_adapter };

    ghost view = { λ sink. record { known = W.contents sink.writer; faults = sink.faults } };
}

impl<W: Write> StdSink<W> {
    /// A sink over a writer, of which no call has failed.
    pub fn new(writer: W) -> StdSink<W>
        ensures known { result.known ≡ W.contents writer }
        ensures faults { result.faults ≡ 0 }
    {
        StdSink { writer, faults: 0 }
    }
}

impl<W: Write> Sink for StdSink<W> {
    ghost written = { λ _. None };

    ghost faults = { λ sink. sink.faults };

    /// Gives the writer what it takes. A write that a signal broke off is tried again; one that takes nothing counts as a
    /// failed call.
    fn write(&mut self, piece: &[u8]) -> Put
        ensures within { IsPutWithin (length piece.now) result }
        ensures bytes { Puts None None result piece.now }
        ensures counted { self.old.faults ≤ self.new.faults }
        ensures cause { result ≡ Put.Failed → Rose self.old.faults self.new.faults }
        ensures alone { result ≢ Put.Failed → self.new.faults ≡ self.old.faults }
        ensures writer { PutsTo self.old.known self.new.known result piece.now }
    {
        if piece.is_empty() {
            return Put::Wrote(0);
        }
        for _ in 0..TRIES {
            match self.writer.write(piece) {
                Ok(0) => break,
                Ok(count) => return Put::Wrote(count),
                Err(error) => {
                    if error.kind() != ErrorKind::Interrupted {
                        break;
                    }
                }
            }
        }
        self.faults = self.faults.saturating_add(1);
        Put::Failed
    }
}
