//! What a write needs before anything is written: room on the disk and in memory.

ghost use Rattle.std.specs.Prelude.{◌≡◌, ◌+◌, ◌≤◌, ◌<◌, ◌^◌, IsTrue, OnOk, OnErr};
ghost use Rattle.manifest_rules.specs.State.{are_rising};
ghost use Rattle.magma_store.specs.Layout as layouts;
ghost use Rattle.magma_store.specs.Spots.{AllLead, with_spots, spots_size, places_size};
ghost use Rattle.magma_store.specs.Taking.{spots_left};
ghost use Rattle.magma_store.specs.Writing.{NoneIn};

use crate::index::{insert_all, make_room, place_all};
use crate::kinds::{SEGMENT, SEGMENTS};
use crate::spot::Placed;
use crate::spot_map::SpotMap;
use kv_edge::NoMemory;
use std::alloc::Global;

/// How many segments so many bytes more need behind those that are filled, and how many are free.
pub(crate) fn room(filled: u64, more: u64) -> (u64, u64)
    requires filled { filled ≤ 2 ^ 61 }
    requires more { more ≤ 2 ^ 63 }
    ensures needed { result.0 ≡ layouts.needed_for filled more }
    ensures free { result.1 ≡ layouts.free filled }
{
    let used = segments_of(filled);
    (
        segments_of(filled + more) - used,
        SEGMENTS.saturating_sub(used),
    )
}

/// How many segments so many bytes fill.
fn segments_of(filled: u64) -> u64
    requires { filled ≤ 2 ^ 63 + 2 ^ 62 }
    ensures { result ≡ layouts.segments_of filled }
{
    filled.div_ceil(SEGMENT)
}

/// Puts places over the spots that are left when those of dropped collections are gone, or in their place. At `Err` the spots
/// are as before.
pub(crate) fn put_places(
    alloc: Global,
    spots: &mut SpotMap,
    is_anew: bool,
    dropped: &[u32],
    places: &[Placed],
) -> Result<(), NoMemory>
    requires lead { AllLead spots.old }
    requires rise { IsTrue (are_rising dropped.now) }
    requires apart { NoneIn dropped.now places.now }
    ensures ok { OnOk result (spots.new ≡ with_spots (spots_left is_anew dropped.now spots.old) places.now) }
    ensures err { OnErr result (spots.new ≡ spots.old) }
{
    if is_anew {
        let mut anew = SpotMap::new(alloc);
        insert_all(alloc, &mut anew, places)?;
        *spots = anew;
        return Ok(());
    }
    check_size(spots, places)?;
    make_room(alloc, spots, places)?;
    spots.remove_collections(dropped);
    place_all(spots, places);
    Ok(())
}

/// Refuses places whose items would count more than 64 bits tell beside those of the spots.
fn check_size(spots: &SpotMap, places: &[Placed]) -> Result<(), NoMemory>
    ensures { OnOk result (spots_size spots.now + places_size places.now < 2 ^ 64) }
{
    let mut total = spots.size();
    for place in places {
        total = match total.checked_add(u64::from(place.spot.weight)) {
            Some(more) => more,
            None => return Err(NoMemory),
        };
    }
    Ok(())
}
