//! Where the items of keys stand, in memory.

ghost use Rattle.std.specs.Prelude.{◌≡◌, ◌+◌, ◌<◌, ◌^◌, IsTrue, OnOk, OnErr, IfOk};
ghost use Rattle.std.specs.FinMap.{FinMap};
ghost use Rattle.doc_model.specs.Keys.{key_cmp};
ghost use Rattle.magma_store.specs.Held.{AreDropped};
ghost use Rattle.magma_store.specs.Spots.{with_spots, with_room, AllLead, spots_size, places_size};
ghost use Rattle.magma_store.specs.Room.{with_room_for, without_room_for, with_found, is_no_spot};
ghost use Rattle.manifest_rules.specs.State.{are_rising};

use crate::spot::{Placed, Spot};
use crate::spot_map::SpotMap;
use kv_edge::NoMemory;
use manifest_rules::{StateFault, dropped_collections, read_state};
use std::alloc::Global;

/// Makes room for spots of these keys, which `place_all` then needs no memory for. At `Err` the map is as before.
pub(crate) fn make_room(
    alloc: Global,
    spots: &mut SpotMap,
    places: &[Placed],
) -> Result<(), NoMemory>
    requires { AllLead spots.old }
    ensures ok { OnOk result (spots.new ≡ with_room spots.old places.now) }
    ensures err { OnErr result (spots.new ≡ spots.old) }
{
    for (i, place) in places.iter().enumerate() {
        match make_room_for(alloc, spots, place) {
            Ok(()) => {}
            Err(refused) => {
                let (made, _) = places.split_at(i);
                take_back(spots, made);
                return Err(refused);
            }
        }
    }
    Ok(())
}

/// Makes room for the spot of a key.
fn make_room_for(alloc: Global, spots: &mut SpotMap, place: &Placed) -> Result<(), NoMemory>
    ensures ok { OnOk result (spots.new ≡ with_room_for spots.old place.now) }
    ensures err { OnErr result (spots.new ≡ spots.old) }
{
    if spots.get(&place.key).is_some() {
        return Ok(());
    }
    let room = Spot {
        seqno: 0,
        at: 0,
        length: 0,
        weight: 0,
        cas: 0,
    };
    spots.insert(alloc, &place.key, room)?;
    Ok(())
}

/// Takes back the room that was made. It takes no memory.
pub(crate) fn take_back(spots: &mut SpotMap, places: &[Placed])
    requires { (before : FinMap key_cmp Spot) × AllLead before × (spots.old ≡ with_room before places.now) }
    ensures { (before : FinMap key_cmp Spot) → AllLead before → spots.old ≡ with_room before places.now → spots.new ≡ before }
{
    for place in places {
        take_back_for(spots, place);
    }
}

/// Takes back the room of a key, where it has room alone.
fn take_back_for(spots: &mut SpotMap, place: &Placed)
    ensures { spots.new ≡ without_room_for spots.old place.now }
{
    let spare = match spots.get(&place.key) {
        Some(spot) => is_room(spot),
        None => false,
    };
    if spare {
        spots.remove(&place.key);
    }
}

/// Whether a spot is of no item.
fn is_room(spot: &Spot) -> bool
    ensures { result ≡ is_no_spot spot.now }
{
    spot.seqno == 0 && spot.at == 0 && spot.length == 0 && spot.weight == 0 && spot.cas == 0
}

/// Sets the spots of those keys that have one. It takes no memory.
pub(crate) fn place_all(spots: &mut SpotMap, places: &[Placed])
    requires { spots_size spots.old + places_size places.now < 2 ^ 64 }
    ensures { spots.new ≡ with_found spots.old places.now }
{
    for place in places {
        spots.replace(&place.key, place.spot);
    }
}

/// Sets the spots of keys. At `Err` some are set.
pub(crate) fn insert_all(
    alloc: Global,
    spots: &mut SpotMap,
    places: &[Placed],
) -> Result<(), NoMemory>
    ensures { OnOk result (spots.new ≡ with_spots spots.old places.now) }
{
    for place in places {
        spots.insert(alloc, &place.key, place.spot)?;
    }
    Ok(())
}

/// The collections that a tail names as dropped, in rising order.
pub(crate) fn dropped_in(alloc: Global, tail: &[u8]) -> Result<Vec<u32>, NoMemory>
    ensures dropped { IfOk result (λ ids. AreDropped tail.now ids.items) }
    ensures rise { IfOk result (λ ids. IsTrue (are_rising ids.items)) }
{
    match read_state(alloc, tail) {
        Ok(found) => Ok(dropped_collections(&found.0).to_vec(alloc)?),
        Err(StateFault::Bad(_)) => Ok(Vec::new(alloc)),
        Err(StateFault::NoMemory) => Err(NoMemory),
    }
}
