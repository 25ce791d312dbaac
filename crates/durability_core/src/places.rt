//! What is known of the places, and which prepare is ready by it.

ghost use Rattle.std.specs.Prelude.{◌≡◌, ℕ, Bool, is_some, ◌&&◌, count_by, set, map as list_map, List};
ghost use Rattle.durability_core.specs.Chains.{named_places};
ghost use Rattle.durability_core.specs.Ready as readiness;
ghost use Rattle.durability_core.specs.Tracking as tracking;
ghost use Rattle.durability_core.specs.Reaches.{known_of, has_reached, raised_in};

use crate::chain::Chain;
use kv_edge::Bytes;

/// How far the log of a place is known to be.
#[derive(Clone, Copy, Debug, PartialEq, Eq)]
pub(crate) struct Reach {
    /// In memory.
    pub(crate) mem: u64,
    /// On disk.
    pub(crate) disk: u64,
}

/// Raises what is known of a place; it is never less.
pub(crate) fn raise(known: &mut [Reach], place: usize, mem: u64, disk: u64)
    ensures { list_map known_of known.new ≡ raised_in (list_map known_of known.old) place mem disk }
{
    if place < known.len() {
        let before = known[place];
        known[place] = Reach {
            mem: before.mem.max(mem),
            disk: before.disk.max(disk),
        };
    }
}

/// Puts back what was known of a place.
pub(crate) fn put_back(known: &mut [Reach], place: usize, reach: Reach)
    ensures { known.new ≡ set known.old place reach }
{
    if place < known.len() {
        known[place] = reach;
    }
}

/// How far the log of a place is known to be.
pub(crate) fn reach_at(known: &[Reach], place: usize) -> Reach
    ensures { known_of result ≡ tracking.known_at (list_map known_of known.now) place }
{
    if place < known.len() {
        known[place]
    } else {
        Reach { mem: 0, disk: 0 }
    }
}

/// Whether the prepare at a position is ready at a level, by what is known.
pub(crate) fn is_ready(chain: &Chain, own: usize, known: &[Reach], level: u8, position: u64) -> bool
    ensures { result ≡ readiness.is_ready chain.now own (tracking.known_at (list_map known_of known.now)) level position }
{
    let most = chain.names.len() / 2 < reached_count(chain, known, level == 3, position);
    most && (level == 1 || position <= reach_at(known, own).disk)
}

/// How many of the named places have a position, on disk or in memory.
fn reached_count(chain: &Chain, known: &[Reach], on_disk: bool, position: u64) -> usize
    ensures { result ≡ count_by (has_reached (tracking.known_at (list_map known_of known.now)) on_disk position) (named_places chain.now) }
{
    let mut count = 0;
    for (place, name) in chain.names.as_slice().iter().enumerate() {
        if is_counted(name, known, on_disk, position, place) {
            count += 1;
        }
    }
    count
}

/// Whether a place is named and has a position, on disk or in memory.
fn is_counted(
    name: &Option<Bytes>,
    known: &[Reach],
    on_disk: bool,
    position: u64,
    place: usize,
) -> bool
    ensures { result ≡ (is_some name.now && has_reached (tracking.known_at (list_map known_of known.now)) on_disk position place) }
{
    let reach = reach_at(known, place);
    name.is_some() && position <= (if on_disk { reach.disk } else { reach.mem })
}
