ghost use Rattle.std.specs.Prelude.{◌≡◌, ◌≤◌, ◌↔◌, List, ◌∷◌, length, IsTrue};
ghost use Rattle.kv_edge.specs.Edge.{Rose};
ghost use Rattle.magma_store.specs.Counting.{CountsStore};
ghost use Rattle.kv_tool.specs.Outcomes.{IsPipe, IsMoment, Outcome};

use crate::exit::Exit;
use crate::piping::pipe;
use kv_edge::{Clock, Sink, Source};
use magma_disk::Disk;
use std::alloc::Global;

/// Runs the program's words over a source, a sink and four disks, at one moment of the clock, and hands the disks back in
/// their order.
///
/// `pipe` answers the frames of one connection as they come, from the vbucket 0 on the first disk; the other disks stay as
/// they are. A second word names the file that the first disk is, and isn't looked at here. What each exit says of the bytes
/// taken and written, and of the disk, is one definition with a case for each; a fault comes only where the count of faults
/// of that object rose in this call.
pub fn run_offline<S: Source, K: Sink, D: Disk, C: Clock>(
    alloc: Global,
    words: &[String],
    source: &mut S,
    sink: &mut K,
    disks: Vec<D>,
    clock: &mut C,
) -> (Exit, Vec<D>)
    requires four { length disks.items ≡ 4 }
    // Usage is told exactly where the words are neither the one word `pipe` nor `pipe` and a file.
    ensures usage { (result.0 ≡ Exit.Usage) ↔ ¬ IsPipe words.now }

    // The first disk is used, and the others are as they were.
    ensures outcome { (first : D) (others : List D) → disks.items ≡ first ∷ others →
        (left : D) × (result.1.items ≡ left ∷ others) × CountsStore (result.0 ≡ Exit.DiskFault) (D.counts first) (D.counts left)
        × Outcome (IsMoment (C.told clock.old) (C.may_answer clock.old)) (record {
          left_before = S.left source.old;
          left_now = S.left source.new;
          written_before = K.written sink.old;
          written_now = K.written sink.new;
          disk_before = D.states first;
          disk_now = D.states left;
          faults_before = (D.counts first).faults;
          faults_now = (D.counts left).faults;
        }) result.0 }

    // What isn't used stays untouched.
    ensures untouched { result.0 ≡ Exit.Usage →
        (source.new ≡ source.old) × (sink.new ≡ sink.old) × (result.1.items ≡ disks.items) × (clock.new ≡ clock.old) }

    ensures reads_counted { S.faults source.old ≤ S.faults source.new }
    ensures writes_counted { K.faults sink.old ≤ K.faults sink.new }
    ensures read_cause { result.0 ≡ Exit.ReadFault → Rose (S.faults source.old) (S.faults source.new) }
    ensures write_cause { result.0 ≡ Exit.WriteFault → Rose (K.faults sink.old) (K.faults sink.new) }
{
    if !is_pipe(words) {
        return (Exit::Usage, disks);
    }
    let mut disks = disks;
    let first = disks.remove(0);
    let now = clock.now();
    let (exit, first) = pipe(alloc, source, sink, first, now);
    match disks.insert(0, first) {
        Ok(()) => (exit, disks),
        Err(_full) => unreachable!(),
    }
}

/// Whether the words are the one word `pipe`, or `pipe` and a word that isn't empty.
fn is_pipe(words: &[String]) -> bool
    ensures { IsTrue result ↔ IsPipe words.now }
{
    match words {
        [word] => word.as_str() == "pipe",
        [word, file] => word.as_str() == "pipe" && !file.is_empty(),
        _ => false,
    }
}
