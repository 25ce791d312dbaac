//! Where the copies of a vbucket stand, and when a durable write may be committed.
//!
//! # Chains
//!
//! A chain has 1 to 4 places, each with a name or without one; the first has a name. The active and
//! its replicas stand at places with names. A majority of n places is n / 2 + 1 of them, rounded
//! down.
//!
//! | Places | Majority |
//! |---|---|
//! | 1 | 1 |
//! | 2 | 2 |
//! | 3 | 2 |
//! | 4 | 3 |
//!
//! # When a prepare is ready
//!
//! Of each place the active knows how long the log there is in memory and on disk; of its own place
//! it knows its own. The prepare at a position is ready
//!
//! | Level | where |
//! |---|---|
//! | 1 | a majority of the places has the position in memory |
//! | 2 | that, and the active's own disk has it |
//! | 3 | a majority of the places has it on disk, the active's own among them |
//!
//! Places without a name have nothing, and count among the places of which a majority is asked: a
//! chain that names fewer than a majority of its places never has a prepare that is ready.
//!
//! # What a tracker does
//!
//! A `Tracker` is what the active copy of one term knows: how far each place is, and the prepares
//! that wait, in rising order of their positions, each of another key. It holds no log, reads no
//! clock and sends nothing: who keeps it tells it of each prepare, of each Ack, of the own log and
//! disk as of an Ack of the own place, and of each tick, and adds the entries that it is told.
//!
//! | Call | what it settles |
//! |---|---|
//! | `ack` | commits the first prepares that are ready by what is known then, up to one that isn't |
//! | `due` | gives up those of this term whose deadline is at most the moment, and no inherited one |
//!
//! Both name the positions in `settled`, in rising order, until the next of these calls. What is
//! known of a place never falls, so an Ack that comes twice counts once. `prepare` refuses for the
//! first of these reasons that holds:
//!
//! | Fault | where |
//! |---|---|
//! | Level | the level isn't 1, 2 or 3 |
//! | ReCommit | a prepare of the key waits that was inherited |
//! | Impossible | the chain names fewer than a majority of its places |
//! | InProgress | a prepare of the key waits |
//!
//! `ack` costs a step for each prepare that it settles, and one more; `due` one step where no
//! deadline has come, and else one for each prepare that waits. Neither takes memory, as the room
//! for what they settle is taken when a prepare is added (`specs/Tracking.antt`).
#![tactic(auto)]

mod chain;
mod fault;
mod laws;
mod places;
mod queue;
mod sweeping;
#[cfg(test)]
mod tests;
mod tracking;
mod waiting;

pub use chain::Chain;
pub use fault::TrackFault;
pub use laws::{
    acks_count_once, chain_numbers, inherited_prepares_are_never_given_up, majorities_meet,
    nothing_is_ready_where_too_few_are_named, readiness_lasts, ready_places_have_it,
    stronger_is_ready, the_first_ready_are_committed, what_places_have_is_ready,
};
pub use tracking::Tracker;
