//! `pipe`: the frames of one connection, answered from one vbucket on a disk as they come.

ghost use Rattle.std.specs.Prelude.{◌≡◌, ◌≢◌, ◌≤◌, ◌↔◌, ℕ, List, min, length, Err, IsErr, IsSome, IfSome, IfOk, IfErr, IsErrOf};
ghost use Rattle.kv_edge.specs.Edge.{Rose, IsTakenWithin, Takes};
ghost use Rattle.magma_disk.specs.Device.{Device};
ghost use Rattle.magma_disk.specs.Moments.{Throughout};
ghost use Rattle.magma_store.specs.Counting.{CountsStore};
ghost use Rattle.vb_core.specs.Openings.{OpensVb, LeavesRefused};
ghost use Rattle.kv_tool.specs.Course.{only_chain, Knowledge, Begins, IsKnown};
ghost use Rattle.kv_tool.specs.Outcomes.{Outcome, Refuses};
ghost use Rattle.kv_tool.specs.Progress.{IsNew, Exceeds, StopsWith, Reports};

use crate::connection::Connection;
use crate::exit::Exit;
use durability_core::Chain;
use kv_edge::{Sink, Source, Taken};
use magma_disk::Disk;
use magma_store::StoreFault;
use std::alloc::Global;
use vb_core::Vb;

/// How many bytes of input are taken at most.
pub const INPUT_LIMIT: usize = 268_435_456;

/// How many bytes are read at once.
const INPUT_PIECE: usize = 65536;

/// The name of the one place of the chain.
const PLACE_NAME: &[u8] = b"a";

/// Answers the frames of a source from the vbucket on a disk, at one moment, and hands the disk back.
pub(crate) fn pipe<S: Source, K: Sink, D: Disk>(
    alloc: Global,
    source: &mut S,
    sink: &mut K,
    disk: D,
    now: u64,
) -> (Exit, D)
    ensures outcome { Outcome (λ moment. moment ≡ now) (record {
      left_before = S.left source.old;
      left_now = S.left source.new;
      written_before = K.written sink.old;
      written_now = K.written sink.new;
      disk_before = D.states disk;
      disk_now = D.states result.1;
      faults_before = (D.counts disk).faults;
      faults_now = (D.counts result.1).faults;
    }) result.0 }
    ensures served { result.0 ≢ Exit.Usage }
    ensures reads_counted { S.faults source.old ≤ S.faults source.new }
    ensures writes_counted { K.faults sink.old ≤ K.faults sink.new }
    ensures read_cause { result.0 ≡ Exit.ReadFault → Rose (S.faults source.old) (S.faults source.new) }
    ensures write_cause { result.0 ≡ Exit.WriteFault → Rose (K.faults sink.old) (K.faults sink.new) }
    ensures disk_counted { CountsStore (result.0 ≡ Exit.DiskFault) (D.counts disk) (D.counts result.1) }
{
    let (opened, back) = opened(alloc, disk);
    match opened {
        Ok(vb) => match back {
            Some(_disk) => unreachable!(),
            None => {
                let mut connection = Connection::open(alloc, vb);
                let came_to = serve(source, sink, &mut connection, now);
                let exit = connection.close(came_to);
                (exit, connection.into_disk())
            }
        },
        Err(fault) => match back {
            Some(disk) => (refused(fault), disk),
            None => unreachable!(),
        },
    }
}

/// The vbucket 0 of the one place of the chain on a disk; or the disk again, and why there is none.
fn opened<D: Disk>(alloc: Global, disk: D) -> (Result<Vb<D>, StoreFault>, Option<D>)
    ensures handed_back { IsErr result.0 ↔ IsSome result.1 }
    ensures opens { OpensVb D.states (D.states disk) only_chain 0 0 result.0 }
    ensures any_moment_back { IfErr result.0 (λ why. IfSome result.1 (λ back.
        Throughout (LeavesRefused why (D.states disk) only_chain 0 0) (D.states disk) (D.states back))) }
    ensures counts { IfOk result.0 (λ vb. CountsStore (IsErrOf result.0 StoreFault.DiskFault) (D.counts disk) (D.counts vb.store.disk)) }
    ensures counts_back { IfSome result.1 (λ back. CountsStore (IsErrOf result.0 StoreFault.DiskFault) (D.counts disk) (D.counts back)) }
{
    match Chain::of_one(alloc, PLACE_NAME) {
        Ok(chain) => Vb::open_vb(alloc, disk, 0, &chain, 0),
        Err(_refused) => (Err(StoreFault::NoMemory), Some(disk)),
    }
}

/// What a call comes to whose vbucket couldn't be opened on the first disk.
fn refused(fault: StoreFault) -> Exit
    ensures { Reports fault result }
{
    match fault {
        StoreFault::DiskFault => Exit::DiskFault,
        StoreFault::Full { needed, free } => Exit::Full { needed, free },
        StoreFault::Damaged {
            place,
            found,
            expected,
        } => Exit::Damaged {
            disk: 0,
            place,
            found,
            expected,
        },
        StoreFault::Spent { found } => Exit::Spent(found),
        StoreFault::OtherChain => Exit::OtherChain(0),
        StoreFault::NoMemory => Exit::NoMemory,
    }
}

/// Answers the frames of a source through a new connection at one moment, until the answering stops.
fn serve<S: Source, K: Sink, D: Disk>(
    source: &mut S,
    sink: &mut K,
    connection: &mut Connection<D>,
    now: u64,
) -> Exit
    requires new { IsNew connection.old }
    ensures stops { (before : List Device) (faults : ℕ) (begin : Knowledge) →
        Begins before begin → IsKnown D.states D.counts faults connection.old.vb begin →
        StopsWith D.states D.counts now (record {
          left_before = S.left source.old;
          left_now = S.left source.new;
          written_before = K.written sink.old;
          written_now = K.written sink.new;
          disk_before = before;
          disk_now = D.states connection.new.vb.store.disk;
          faults_before = faults;
          faults_now = (D.counts connection.new.vb.store.disk).faults;
        }) connection.new.vb result }
    ensures reads_counted { S.faults source.old ≤ S.faults source.new }
    ensures writes_counted { K.faults sink.old ≤ K.faults sink.new }
    ensures read_cause { result ≡ Exit.ReadFault → Rose (S.faults source.old) (S.faults source.new) }
    ensures write_cause { result ≡ Exit.WriteFault → Rose (K.faults sink.old) (K.faults sink.new) }
    ensures disk_counted { CountsStore ⊥ (D.counts connection.old.vb.store.disk) (D.counts connection.new.vb.store.disk) }
{
    let mut buffer = [0u8; INPUT_PIECE];
    while connection.fed() < INPUT_LIMIT {
        let room = INPUT_LIMIT - connection.fed();
        match read_piece(source, &mut buffer, room) {
            Taken::Got(count) => {
                let (piece, _) = buffer.split_at(count);
                match connection.take_piece(sink, piece, now) {
                    None => {}
                    Some(exit) => return exit,
                }
            }
            Taken::End => return connection.at_end(),
            Taken::Failed => return Exit::ReadFault,
        }
    }
    exceed(source, connection)
}

/// Takes at most as many bytes as there is room for into the front of the buffer.
fn read_piece<S: Source>(source: &mut S, buffer: &mut [u8], room: usize) -> Taken
    ensures within { IsTakenWithin (min room (length buffer.old)) result }
    ensures bytes { Takes (S.left source.old) (S.left source.new) result buffer.new }
    ensures counted { S.faults source.old ≤ S.faults source.new }
    ensures cause { result ≡ Taken.Failed → Rose (S.faults source.old) (S.faults source.new) }
{
    let (front, _) = buffer.split_at_mut(room.min(buffer.len()));
    source.read(front)
}

/// What a run comes to that took as many bytes as are taken: a further byte is too much.
fn exceed<S: Source, D: Disk>(source: &mut S, connection: &Connection<D>) -> Exit
    ensures bytes { Exceeds (S.left source.old) (S.left source.new) connection.now result }
    ensures counted { S.faults source.old ≤ S.faults source.new }
    ensures cause { result ≡ Exit.ReadFault → Rose (S.faults source.old) (S.faults source.new) }
{
    match source.read(&mut [0u8; 1]) {
        Taken::Got(_) => Exit::TooLong,
        Taken::End => connection.at_end(),
        Taken::Failed => Exit::ReadFault,
    }
}
