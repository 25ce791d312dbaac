use crate::{Chain, TrackFault, Tracker};
use doc_model::DocKey;
use kv_edge::{Bytes, NoMemory, Seq};
use std::alloc::Global;
use std::test::Fail;

/// The chain whose places have names of one byte each, and none where the byte is `-`.
fn chain(alloc: Global, names: &[u8]) -> Result<Chain, NoMemory> {
    let mut places = Seq::new(alloc);
    for name in names {
        let is_named = *name != b'-';
        places.push(if is_named {
            Some(Bytes::from_slice(alloc, &[*name])?)
        } else {
            None
        })?;
    }
    Ok(Chain { names: places })
}

/// A key of one byte in collection 0.
fn key(alloc: Global, name: u8) -> Result<DocKey, NoMemory> {
    let key = Bytes::from_slice(alloc, &[name])?;
    Ok(DocKey { collection: 0, key })
}

/// How many prepares the last of these Acks settles.
fn last_count(tracker: &mut Tracker, acks: &[(u8, u64, u64)]) -> usize {
    let mut count = 0;
    for (place, mem, disk) in acks {
        count = tracker.ack(*place, *mem, *disk);
    }
    count
}

/// The place of the first row where a prepare at position 2 isn't committed as told once the places told how far they are:
/// each a place with the lengths of its log in memory and on disk.
fn first_wrong(
    alloc: Global,
    rows: &[(&[u8], u8, &[(u8, u64, u64)], bool)],
) -> Result<Option<usize>, NoMemory> {
    for i in 0..rows.len() {
        let (names, level, acks, want) = rows[i];
        let mut tracker = Tracker::new(alloc, &chain(alloc, names)?, 0)?;
        if tracker
            .prepare(2, level, key(alloc, b'k')?, 30_000)
            .is_err()
        {
            return Ok(Some(i));
        }
        let count = last_count(&mut tracker, acks);
        let is_settled = tracker.settled() == [2].as_slice();
        if is_settled != want || (count == 1) != want {
            return Ok(Some(i));
        }
    }
    Ok(None)
}

#[test]
fn a_prepare_is_ready_at_its_level(rt: HostRuntime) -> Result<(), Fail> {
    let rows: [(&[u8], u8, &[(u8, u64, u64)], bool); 21] = [
        // one place: in memory, and at levels 2 and 3 on its disk
        (b"a", 1, &[(0, 1, 0)], false),
        (b"a", 1, &[(0, 2, 0)], true),
        (b"a", 2, &[(0, 2, 1)], false),
        (b"a", 2, &[(0, 2, 0), (0, 2, 2)], true),
        (b"a", 3, &[(0, 2, 2)], true),
        // no place is counted before it told how far it is
        (b"abc", 1, &[(0, 2, 0)], false),
        (b"abc", 1, &[(0, 2, 0), (1, 1, 0)], false),
        (b"abc", 1, &[(0, 2, 0), (2, 2, 0)], true),
        (b"abc", 1, &[(1, 2, 0), (2, 2, 0)], true),
        // one place that tells it again counts once
        (b"abc", 1, &[(1, 2, 0), (1, 2, 0)], false),
        (b"abcd", 1, &[(0, 2, 0), (1, 2, 0), (1, 3, 0)], false),
        (b"abcd", 1, &[(0, 2, 0), (1, 2, 0), (3, 2, 0)], true),
        // a place is never known to be less far than before
        (b"abc", 1, &[(1, 2, 0), (1, 0, 0), (0, 2, 0)], true),
        // places without a name count among those of which most are asked, and have nothing
        (b"a-c", 1, &[(0, 2, 0), (1, 2, 0)], false),
        (b"a-c", 1, &[(0, 2, 0), (2, 2, 0)], true),
        (b"ab-d", 1, &[(0, 2, 0), (1, 2, 0)], false),
        // level 2: most have it in memory, and the own disk has it
        (b"abc", 2, &[(0, 2, 0), (1, 2, 2), (2, 2, 2)], false),
        (b"abc", 2, &[(0, 2, 2), (1, 2, 0)], true),
        // level 3: most have it on disk, the own disk among them
        (b"abc", 3, &[(0, 2, 2), (1, 2, 0), (2, 2, 0)], false),
        (b"abc", 3, &[(0, 2, 1), (1, 2, 2), (2, 2, 2)], false),
        (b"abc", 3, &[(0, 2, 2), (1, 2, 2)], true),
    ];
    assert_eq!(rt; first_wrong(rt.alloc(), &rows)?, None);
    Ok(())
}

/// A tracker of three places at which an inherited prepare waits at position 1 and others at 2, 3 and 4, the one at 3 at level
/// 3, with deadlines 10, 5 and 20; none where memory was refused.
fn filled(alloc: Global) -> Result<Option<Tracker>, NoMemory> {
    let mut tracker = Tracker::new(alloc, &chain(alloc, b"abc")?, 0)?;
    tracker.inherit(1, 1, key(alloc, b'i')?)?;
    if tracker.prepare(2, 1, key(alloc, b'x')?, 10).is_err() {
        return Ok(None);
    }
    if tracker.prepare(3, 3, key(alloc, b'y')?, 5).is_err() {
        return Ok(None);
    }
    if tracker.prepare(4, 1, key(alloc, b'z')?, 20).is_err() {
        return Ok(None);
    }
    Ok(Some(tracker))
}

/// The place of the first event that doesn't settle these positions: a tick at a moment, or, where the place isn't 9, an Ack.
fn first_unsettled(tracker: &mut Tracker, events: &[(u8, u64, u64, &[u64])]) -> Option<usize> {
    for i in 0..events.len() {
        let (place, first, second, want) = events[i];
        let count = if place == 9 {
            tracker.due(first)
        } else {
            let foreseen = tracker.would_settle(place, first, second);
            if foreseen != want.len() {
                return Some(i);
            }
            tracker.ack(place, first, second)
        };
        if count != want.len() || tracker.settled() != want {
            return Some(i);
        }
    }
    None
}

#[test]
fn prepares_are_committed_in_their_order(rt: HostRuntime) -> Result<(), Fail> {
    let alloc = rt.alloc();
    let events: [(u8, u64, u64, &[u64]); 5] = [
        (0, 4, 0, &[]),
        // the last is ready too, but one before it isn't
        (1, 4, 4, &[1, 2]),
        (0, 4, 3, &[3, 4]),
        // what was settled before is forgotten
        (0, 9, 9, &[]),
        (9, 30, 0, &[]),
    ];
    if let Some(mut tracker) = filled(alloc)? {
        assert_eq!(rt; first_unsettled(&mut tracker, &events), None);
        return Ok(());
    }
    Err(NoMemory.into())
}

#[test]
fn what_has_waited_too_long_is_given_up_but_not_what_was_inherited(
    rt: HostRuntime,
) -> Result<(), Fail> {
    let alloc = rt.alloc();
    let events: [(u8, u64, u64, &[u64]); 6] = [
        (9, 4, 0, &[]),
        (9, 10, 0, &[2, 3]),
        (9, 19, 0, &[]),
        (9, u64::MAX, 0, &[4]),
        (0, 4, 4, &[]),
        (2, 1, 0, &[1]),
    ];
    if let Some(mut tracker) = filled(alloc)? {
        assert_eq!(rt; first_unsettled(&mut tracker, &events), None);
        return Ok(());
    }
    Err(NoMemory.into())
}

/// How a prepare of a level and a key ends where an inherited one of `i` waits, and one of `x` where it could be added.
fn end_of(
    alloc: Global,
    names: &[u8],
    level: u8,
    name: u8,
) -> Result<Option<TrackFault>, NoMemory> {
    let mut tracker = Tracker::new(alloc, &chain(alloc, names)?, 0)?;
    tracker.inherit(1, 3, key(alloc, b'i')?)?;
    if tracker.prepare(2, 1, key(alloc, b'x')?, 9) == Err(TrackFault::NoMemory) {
        return Err(NoMemory);
    }
    Ok(tracker.prepare(3, level, key(alloc, name)?, 9).err())
}

#[test]
fn a_prepare_is_refused_for_the_first_fault(rt: HostRuntime) -> Result<(), Fail> {
    // a chain of which most places have a name, and one of which most have none
    let rows: [(&[u8], u8, u8, Option<TrackFault>); 9] = [
        (b"ab-", 1, b'y', None),
        (b"ab-", 3, b'y', None),
        (b"ab-", 0, b'i', Some(TrackFault::Level)),
        (b"a--", 4, b'x', Some(TrackFault::Level)),
        (b"ab-", 1, b'i', Some(TrackFault::ReCommit)),
        (b"a--", 1, b'i', Some(TrackFault::ReCommit)),
        (b"a--", 1, b'x', Some(TrackFault::Impossible)),
        (b"a--", 1, b'y', Some(TrackFault::Impossible)),
        (b"ab-", 2, b'x', Some(TrackFault::InProgress)),
    ];
    for (names, level, name, want) in rows {
        assert_eq!(rt; end_of(rt.alloc(), names, level, name)?, want);
    }
    Ok(())
}

#[test]
fn a_chain_counts_its_names(rt: HostRuntime) -> Result<(), Fail> {
    let chain = chain(rt.alloc(), b"a-c")?;
    assert_eq!(rt; chain.named_count(), 2);
    for (place, want) in [(0, true), (1, false), (2, true), (3, false), (255, false)] {
        assert_eq!(rt; chain.is_named(place), want);
    }
    Ok(())
}
