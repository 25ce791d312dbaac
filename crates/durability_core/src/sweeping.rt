//! Prepares that are given up leave the queue.

ghost use Rattle.std.specs.Prelude.{◌≡◌, ◌++◌, ◌+◌, ◌≤◌, min, not, filter, length, vec_len, vec_capacity, option_map};
ghost use Rattle.std.specs.Option.{option_map_or};
ghost use Rattle.durability_core.specs.Tracking as tracking;
ghost use Rattle.durability_core.specs.Kept.{IsQueue, NoneBefore, earlier_of};

use crate::waiting::Waiting;
use doc_model::KeyMap;
use std::collections::VecDeque;

/// Takes out the prepares that are given up at a moment, and adds their positions to what is settled. Answers a moment
/// before which none of the others is given up. Each prepare is taken from the front once, and put at the back again if it
/// stays, so the others keep their order.
pub(crate) fn sweep(
    prepares: &mut VecDeque<Waiting>,
    keys: &mut KeyMap<bool>,
    now: u64,
    settled: &mut Vec<u64>,
) -> u64
    requires queue { IsQueue keys.old prepares.old.items }
    requires room { vec_len settled.old + length prepares.old.items ≤ vec_capacity settled.old }
    ensures queue { IsQueue keys.new prepares.new.items }
    ensures left { prepares.new.items ≡ filter (λ w. not (tracking.is_due now w)) prepares.old.items }
    ensures settled { settled.new.items ≡ settled.old.items ++ tracking.positions (filter (tracking.is_due now) prepares.old.items) }
    ensures room { vec_capacity settled.new ≡ vec_capacity settled.old }
    ensures earliest { NoneBefore result prepares.new.items }
{
    let mut earliest = u64::MAX;
    for _turn in 0..prepares.len() {
        if let Some(first) = prepares.pop_front() {
            if is_due(&first, now) {
                keys.remove(&first.key);
                settled.push_reserved(first.position);
            } else {
                earliest = earlier(earliest, first.deadline);
                prepares.push_back_reserved(first);
            }
        }
    }
    earliest
}

/// Whether a prepare is given up at a moment.
fn is_due(prepare: &Waiting, now: u64) -> bool
    ensures { result ≡ tracking.is_due now prepare.now }
{
    match prepare.deadline {
        Some(deadline) => deadline <= now,
        None => false,
    }
}

/// The earlier of a moment and a deadline, where there is one.
pub(crate) fn earlier(moment: u64, deadline: Option<u64>) -> u64
    ensures { result ≡ earlier_of moment deadline }
{
    match deadline {
        Some(deadline) => moment.min(deadline),
        None => moment,
    }
}
