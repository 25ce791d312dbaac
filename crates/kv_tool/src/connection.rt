//! A connection: its frames are answered from one vbucket as they come, and the replies are gathered and written.

ghost use Rattle.std.specs.Prelude.{◌≡◌, ◌≢◌, ◌≤◌, ◌+◌, ℕ, List, Some, None, [], length, false, IfErr};
ghost use Rattle.kv_edge.specs.Edge.{Rose};
ghost use Rattle.kv_request.specs.Tables.{IsRequest, IsReply, is_for_session};
ghost use Rattle.magma_disk.specs.Calls.{MayLeave};
ghost use Rattle.magma_store.specs.Counting.{CountsStore};
ghost use Rattle.vb_log.specs.Content.{Content};
ghost use Rattle.copy_model.specs.Copies.{Copy};
ghost use Rattle.vb_core.specs.Coming.{IsFlushFault};
ghost use Rattle.vb_core.specs.Means.{Lives, IsCopy};
ghost use Rattle.vb_core.specs.Openings.{IsAllOnDisk, HoldsSound};
ghost use Rattle.vb_core.specs.Pairs.{HoldsOf};
ghost use Rattle.kv_tool.specs.Outcomes.{Seen, closed_as};
ghost use Rattle.kv_tool.specs.Progress.{IsNew, Asks, Turns, Gathers, Progress, Serves, Empties};
ghost use Rattle.kv_tool.specs.Progress.{Finishes, EndsAt, ClosesWith};

use crate::exit::Exit;
use crate::piping::INPUT_LIMIT;
use kv_edge::{Sink, WriteAll, write_all};
use kv_request::{Reply, Request};
use kv_session::{Next, Session};
use magma_disk::Disk;
use std::alloc::Global;
use vb_core::{Outcome, Vb, VbFault};

/// How many bytes of replies are gathered before they are written.
const OUTPUT_PIECE: usize = 65536;

/// A session, the vbucket that answers its requests, and the replies to them.
#[derive(Drop)]
pub(crate) struct Connection<D: Disk> {
    session: Session,
    vb: Vb<D>,
    /// The bytes of replies that aren't written yet.
    out: Vec<u8>,
    /// How many bytes were fed to the session.
    fed: usize,
}

/// What came of asking for the next frame.
#[derive(Clone, Copy)]
enum Turn {
    /// This many bytes were taken up to the end of a frame, which was answered, and its reply gathered.
    Answered(usize),
    /// All bytes were taken, and more of a frame are missing.
    Waits,
    /// No further frame is answered: the run is to end so.
    Over(Exit),
    /// Memory was refused, and what is gathered is as before.
    NoMemory,
}

impl<D: Disk> Connection<D> {
    /// A connection from which no byte came, to a vbucket.
    pub(crate) fn open(alloc: Global, vb: Vb<D>) -> Connection<D>
        ensures new { IsNew result }
        ensures vb { result.vb ≡ vb }
    {
        Connection {
            session: Session::new(alloc),
            vb,
            out: Vec::new(alloc),
            fed: 0,
        }
    }

    /// Answers the frames of the next piece of the input, and writes the replies to them. Where the run stops in the
    /// piece, this is what it comes to. Also where memory is refused, the replies gathered before are written.
    pub(crate) fn take_piece<K: Sink>(
        &mut self,
        sink: &mut K,
        piece: &[u8],
        now: u64,
    ) -> Option<Exit>
        requires held { length self.old.session.held ≤ self.old.fed }
        requires room { self.old.fed + length piece.now ≤ INPUT_LIMIT }
        ensures serves { (seen : Seen) →
            Progress D.states D.counts now (record seen { written_now = K.written sink.old }) piece.now self.old →
            Serves D.states D.counts now (record seen { written_now = K.written sink.new }) self.new result }
        ensures held { result ≡ None → length self.new.session.held ≤ self.new.fed }
        ensures fed { result ≡ None → self.new.fed ≡ self.old.fed + length piece.now }
        ensures counted { K.faults sink.old ≤ K.faults sink.new }
        ensures cause { result ≡ Some Exit.WriteFault → Rose (K.faults sink.old) (K.faults sink.new) }
        ensures disk_counted { CountsStore ⊥ (D.counts self.old.vb.store.disk) (D.counts self.new.vb.store.disk) }
    {
        let mut at = 0;
        loop {
            let (_, rest) = piece.split_at(at);
            match self.answer_next(rest, now) {
                Turn::Answered(count) => {
                    at += count;
                    match self.write_piece(sink) {
                        WriteAll::Done => {}
                        WriteAll::Failed => return Some(Exit::WriteFault),
                    }
                }
                Turn::Waits => return self.finish(sink, None),
                Turn::Over(exit) => return self.finish(sink, Some(exit)),
                Turn::NoMemory => return self.finish(sink, Some(Exit::NoMemory)),
            }
        }
    }

    /// What a run comes to whose input ended here.
    pub(crate) fn at_end(&self) -> Exit
        ensures { EndsAt self.now result }
    {
        match self.session.rest() {
            0 => Exit::Done,
            count => Exit::Cut(count as u64),
        }
    }

    /// How many bytes were fed.
    pub(crate) fn fed(&self) -> usize
        ensures { result ≡ self.now.fed }
    {
        self.fed
    }

    /// What a run comes to that stopped so: where all was answered, the vbucket is put on disk.
    pub(crate) fn close(&mut self, came_to: Exit) -> Exit
        ensures closes { ClosesWith D.states D.counts self.old.vb came_to self.new.vb result }
        ensures counts { CountsStore ((came_to ≡ Exit.Done) × (result ≡ Exit.DiskFault)) (D.counts self.old.vb.store.disk) (D.counts self.new.vb.store.disk) }
    {
        match came_to {
            Exit::Done => closed_as(self.vb.flush()),
            stopped => stopped,
        }
    }

    /// The vbucket's disk, as `Vb::finish` hands it back.
    pub(crate) fn into_disk(self) -> D
        ensures disk { result ≡ self.vb.store.disk }
        ensures leaves { (copy : Copy Content ℕ) → IsCopy D.states self.vb copy → (image : List ℕ) →
            MayLeave (D.states result) image → HoldsOf copy image }
        ensures sound { (copy : Copy Content ℕ) → Lives D.states self.vb copy → IsAllOnDisk copy → (image : List ℕ) →
            MayLeave (D.states result) image → HoldsSound copy image }
    {
        let Connection { vb, .. } = self;
        vb.finish()
    }

    /// Takes bytes of what is left of a piece up to the end of a frame, and answers that frame.
    fn answer_next(&mut self, rest: &[u8], now: u64) -> Turn
        requires held { length self.old.session.held ≤ self.old.fed }
        requires room { self.old.fed + length rest.now ≤ INPUT_LIMIT }
        ensures turns { Turns D.states D.counts now self.old rest.now self.new result }
        ensures disk_counted { CountsStore ⊥ (D.counts self.old.vb.store.disk) (D.counts self.new.vb.store.disk) }
    {
        let (count, next) = match self.session.advance(rest) {
            Ok(given) => given,
            Err(_refused) => return Turn::NoMemory,
        };
        self.fed += count;
        match next {
            Next::Request(request) => {
                let reply = self.ask(&request, now);
                self.gather(count, &reply)
            }
            Next::Refused(reply) => self.gather(count, &reply),
            Next::More(_missing) => Turn::Waits,
            Next::Bad(place, _fault) => {
                Turn::Over(Exit::BadFrame((self.fed - self.session.rest() + place) as u64))
            }
            Next::Quit => Turn::Over(Exit::Done),
            Next::NoMemory => Turn::NoMemory,
        }
    }

    /// What the vbucket answers to a request.
    fn ask(&mut self, request: &Request, now: u64) -> Reply
        requires request { IsRequest request.now }
        requires ours { is_for_session request.now.body ≡ false }
        ensures asks { Asks D.states D.counts now request.now self.old.vb result self.new.vb }
        ensures fits { IsReply result }
        ensures others { self.new ≡ record self.old { vb = self.new.vb } }
        ensures disk_counted { CountsStore ⊥ (D.counts self.old.vb.store.disk) (D.counts self.new.vb.store.disk) }
    {
        match self.vb.request(request, now) {
            Outcome::Reply(reply) => reply,
            Outcome::Parked(_ticket) => unreachable!(),
        }
    }

    /// Gathers the bytes of the reply to a frame behind which this many bytes were taken.
    fn gather(&mut self, count: usize, reply: &Reply) -> Turn
        requires { IsReply reply.now }
        ensures { Gathers self.old count reply.now self.new result }
    {
        match self.session.answer(reply, &mut self.out) {
            Ok(()) => Turn::Answered(count),
            Err(_refused) => Turn::NoMemory,
        }
    }

    /// Writes the gathered replies where they are enough for a piece.
    fn write_piece<K: Sink>(&mut self, sink: &mut K) -> WriteAll
        ensures bytes { Empties (K.written sink.old) (K.written sink.new) self.old self.new result }
        ensures counted { K.faults sink.old ≤ K.faults sink.new }
        ensures cause { result ≡ WriteAll.Failed → Rose (K.faults sink.old) (K.faults sink.new) }
    {
        if self.out.len() < OUTPUT_PIECE {
            return WriteAll::Done;
        }
        self.write_out(sink)
    }

    /// Writes all gathered replies, and comes to this where that succeeds.
    fn finish<K: Sink>(&mut self, sink: &mut K, wanted: Option<Exit>) -> Option<Exit>
        requires { wanted ≢ Some Exit.WriteFault }
        ensures bytes { Finishes (K.written sink.old) (K.written sink.new) self.old self.new wanted result }
        ensures counted { K.faults sink.old ≤ K.faults sink.new }
        ensures cause { result ≡ Some Exit.WriteFault → Rose (K.faults sink.old) (K.faults sink.new) }
    {
        match self.write_out(sink) {
            WriteAll::Done => wanted,
            WriteAll::Failed => Some(Exit::WriteFault),
        }
    }

    /// Writes all gathered replies.
    fn write_out<K: Sink>(&mut self, sink: &mut K) -> WriteAll
        ensures bytes { Empties (K.written sink.old) (K.written sink.new) self.old self.new result }
        ensures all { result ≡ WriteAll.Done → self.new.out.items ≡ [] }
        ensures counted { K.faults sink.old ≤ K.faults sink.new }
        ensures cause { result ≡ WriteAll.Failed → Rose (K.faults sink.old) (K.faults sink.new) }
    {
        match write_all(sink, &self.out) {
            WriteAll::Done => {
                self.out.clear();
                WriteAll::Done
            }
            WriteAll::Failed => WriteAll::Failed,
        }
    }
}

/// What a run comes to that put its vbucket on disk in the end, which told this.
fn closed_as(told: Result<u64, VbFault>) -> Exit
    requires { IfErr told IsFlushFault }
    ensures { result ≡ closed_as told }
{
    match told {
        Ok(_count) => Exit::Done,
        Err(VbFault::DiskFault) => Exit::DiskFault,
        Err(VbFault::Full { needed, free }) => Exit::Full { needed, free },
        Err(VbFault::Dead) => Exit::Done,
        Err(VbFault::Promote(_fault)) => unreachable!(),
        Err(VbFault::NoMemory) => Exit::NoMemory,
    }
}
