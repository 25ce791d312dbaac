use crate::slot::slot_of;
use crate::{Doc, DocKey, Item, KeyMap, Refused, Status, What};
use kv_edge::{Bytes, Copied, NoMemory};
use std::alloc::Global;
use std::test::Fail;

fn key(alloc: Global, collection: u32, key: &[u8]) -> Result<DocKey, NoMemory> {
    let key = Bytes::from_slice(alloc, key)?;
    Ok(DocKey { collection, key })
}

fn doc(alloc: Global) -> Result<Doc, NoMemory> {
    let value = Bytes::from_slice(alloc, b"{}")?;
    let xattrs = Bytes::from_slice(alloc, &[0, 0, 0, 0])?;
    Ok(Doc {
        value,
        xattrs,
        flags: 0xcafe,
        expiry: 7,
        cas: 11,
        seqno: 13,
        json: true,
    })
}

#[test]
fn a_copy_has_each_field(rt: HostRuntime) -> Result<(), Fail> {
    let alloc = rt.alloc();
    let copied = doc(alloc)?.copy(alloc)?;
    assert_eq!(rt; copied.value.as_slice(), b"{}".as_slice());
    assert_eq!(rt; copied.xattrs.as_slice(), [0, 0, 0, 0].as_slice());
    assert_eq!(rt; (copied.flags, copied.expiry), (0xcafe, 7));
    assert_eq!(rt; (copied.cas, copied.seqno, copied.json), (11, 13, true));

    let put = Item {
        key: key(alloc, 9, b"a")?,
        seqno: 13,
        what: What::Put(copied),
    };
    assert_eq!(rt; put.copy(alloc)?, put);
    let gone = Item {
        key: key(alloc, 9, b"a")?,
        seqno: 14,
        what: What::Remove(17),
    };
    let gone_again = gone.copy(alloc)?;
    assert_eq!(rt; gone_again.seqno, 14);
    assert_eq!(rt; gone_again.what, What::Remove(17));
    assert_ne!(rt; gone_again, put);
    Ok(())
}

#[test]
fn keys_are_ordered_by_collection_and_then_by_bytes(rt: HostRuntime) -> Result<(), Fail> {
    let alloc = rt.alloc();
    let ascending = [
        key(alloc, 0, b"a")?,
        key(alloc, 0, b"a\x00")?,
        key(alloc, 0, b"b")?,
        key(alloc, 8, b"")?,
        key(alloc, 8, b"a")?,
        key(alloc, 0xffff_ffff, b"\xff")?,
    ];
    for i in 1..ascending.len() {
        assert!(rt; ascending[i - 1].lt(&ascending[i]), "at {i}");
    }
    Ok(())
}

#[test]
fn a_map_has_what_was_inserted_last_and_not_what_was_removed(rt: HostRuntime) -> Result<(), Fail> {
    let alloc = rt.alloc();
    let mut map = KeyMap::<u8>::new(alloc);
    let here = key(alloc, 0, b"a")?;
    let there = key(alloc, 8, b"a")?;
    assert_eq!(rt; map.insert(alloc, &here, 1)?, None);
    assert_eq!(rt; map.insert(alloc, &there, 2)?, None);
    assert_eq!(rt; map.insert(alloc, &here, 3)?, Some(1));
    assert_eq!(rt; map.get(&here).copied(), Some(3));
    assert_eq!(rt; map.get(&there).copied(), Some(2));
    assert_eq!(rt; map.remove(&here), Some(3));
    assert_eq!(rt; map.remove(&here), None);
    assert_eq!(rt; map.get(&here).copied(), None);
    assert_eq!(rt; map.get(&there).copied(), Some(2));
    Ok(())
}

/// Whichever of two keys that have one slot comes first, each is found, replaced and taken away by itself.
#[test]
fn two_keys_may_have_one_slot(rt: HostRuntime) -> Result<(), Fail> {
    let alloc = rt.alloc();
    let coma = key(alloc, 8, b"coma")?;
    let gmjg = key(alloc, 8, b"gmjg")?;
    assert_eq!(rt; slot_of(&coma), slot_of(&gmjg));
    for (first, second) in [(&coma, &gmjg), (&gmjg, &coma)] {
        let mut map = KeyMap::<u8>::new(alloc);
        // what a key had, and what it then has
        for (key, before, after) in [
            (first, None, Some(1)),
            (second, None, Some(2)),
            (first, Some(1), Some(3)),
            (second, Some(2), Some(4)),
            (first, Some(3), None),
            // the second moves into the slot that is free now
            (second, Some(4), Some(5)),
            (first, None, Some(6)),
            (second, Some(5), None),
            (second, None, None),
            (first, Some(6), None),
        ] {
            assert_eq!(rt; map.get(key).copied(), before);
            let answer = match after {
                Some(value) => map.insert(alloc, key, value)?,
                None => map.remove(key),
            };
            assert_eq!(rt; answer, before);
            assert_eq!(rt; map.get(key).copied(), after);
        }
    }
    Ok(())
}

/// `coma` and `gmjg` have one slot, so one of them stands among the others.
#[test]
fn collections_are_taken_away_and_no_others(rt: HostRuntime) -> Result<(), Fail> {
    let alloc = rt.alloc();
    let mut map = KeyMap::<u8>::new(alloc);
    let rows: [(u32, &[u8], bool); 8] = [
        (0, b"a", true),
        (8, b"a", false),
        (8, b"b", false),
        (8, b"coma", false),
        (8, b"gmjg", false),
        (9, b"coma", true),
        (9, b"gmjg", true),
        (0xffff_ffff, b"z", false),
    ];
    for (collection, name, _) in rows {
        map.insert(alloc, &key(alloc, collection, name)?, 1)?;
    }
    map.remove_collections(&[7, 8, 0xffff_ffff]);
    for (collection, name, there) in rows {
        let found = map.get(&key(alloc, collection, name)?).is_some();
        assert_eq!(rt; found, there, "{collection} {name:?}");
    }
    Ok(())
}

/// `coma` and `gmjg` have one slot, so one of them stands among the others.
#[test]
fn values_stand_once_and_are_replaced_where_they_are(rt: HostRuntime) -> Result<(), Fail> {
    let alloc = rt.alloc();
    let mut map = KeyMap::<u8>::new(alloc);
    let names: [(u32, &[u8], u8); 5] = [
        (0, b"a", 1),
        (8, b"coma", 2),
        (8, b"gmjg", 4),
        (8, b"a", 8),
        (9, b"coma", 16),
    ];
    for (collection, name, value) in names {
        map.insert(alloc, &key(alloc, collection, name)?, value)?;
    }
    let mut sum = 0u8;
    let mut count = 0u8;
    for value in map.values() {
        sum = sum.saturating_add(*value);
        count = count.saturating_add(1);
    }
    assert_eq!(rt; (sum, count), (31, 5));
    assert_eq!(rt; map.replace(&key(alloc, 8, b"gmjg")?, 32), Some(4));
    assert_eq!(rt; map.replace(&key(alloc, 8, b"coma")?, 64), Some(2));
    assert_eq!(rt; map.replace(&key(alloc, 7, b"coma")?, 128), None);
    assert_eq!(rt; map.get(&key(alloc, 7, b"coma")?).copied(), None);
    assert_eq!(rt; map.get(&key(alloc, 8, b"gmjg")?).copied(), Some(32));
    assert_eq!(rt; map.get(&key(alloc, 8, b"coma")?).copied(), Some(64));
    Ok(())
}

#[test]
fn want_of_memory_is_a_refusal_of_its_own(rt: HostRuntime) {
    assert_eq!(rt; Refused::from(NoMemory), Refused::NoMemory);
    assert_ne!(rt; Refused::NoMemory, Refused::Status(Status::ENOMEM));
}
