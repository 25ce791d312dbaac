use crate::spot::Spot;
use crate::spot_map::SpotMap;
use crate::whole::go_with;
use doc_model::{DocKey, Refused};
use kv_edge::{Bytes, NoMemory};
use manifest_rules::{Manifest, read_manifest};
use std::alloc::Global;
use vb_log::{ContentFault, of_parts};

// A manifest with the collections 0 and 8.
const TWO: &[u8] =
    b"{\"uid\":\"1\",\"scopes\":[{\"name\":\"_default\",\"uid\":\"0\",\"collections\":[{\"name\":\"_default\",\"uid\":\"0\"},{\"name\":\"c\",\"uid\":\"8\"}]}]}";

// A manifest with the collection 8 alone.
const ONE: &[u8] =
    b"{\"uid\":\"1\",\"scopes\":[{\"name\":\"_default\",\"uid\":\"0\",\"collections\":[{\"name\":\"c\",\"uid\":\"8\"}]}]}";

fn manifest_of(alloc: Global, text: &[u8]) -> Result<Manifest, ContentFault> {
    match read_manifest(alloc, text) {
        Ok(manifest) => Ok(manifest),
        Err(Refused::Status(_)) => Err(ContentFault::Bad(1)),
        Err(Refused::NoMemory) => Err(ContentFault::NoMemory),
    }
}

// Spots of items, of each its collection and name, its sequence number, its CAS, and what it counts.
fn spots_of(alloc: Global, rows: &[(u32, &str, u64, u64, u32)]) -> Result<SpotMap, NoMemory> {
    let mut spots = SpotMap::new(alloc);
    for (collection, name, seqno, cas, weight) in rows {
        let key = DocKey {
            collection: *collection,
            key: Bytes::from_slice(alloc, name.as_bytes())?,
        };
        let spot = Spot {
            seqno: *seqno,
            at: 0,
            length: 0,
            weight: *weight,
            cas: *cas,
        };
        spots.insert(alloc, &key, spot)?;
    }
    Ok(spots)
}

// Whether such items go with a manifest, a length and a greatest CAS, where nothing waits.
fn go(
    alloc: Global,
    text: &[u8],
    last: u64,
    cas: u64,
    rows: &[(u32, &str, u64, u64, u32)],
) -> Result<bool, ContentFault> {
    let spots = spots_of(alloc, rows)?;
    let manifest = manifest_of(alloc, text)?;
    let rest = of_parts(alloc, Vec::new(alloc), Vec::new(alloc), manifest, cas, last)?;
    Ok(go_with(alloc, &spots, &rest)?)
}

#[test]
fn items_go_with_a_content(rt: HostRuntime) {
    let alloc = rt.alloc();
    let rows: &[(u32, &str, u64, u64, u32)] = &[(0, "a", 1, 5, 300), (8, "b", 3, 9, 400)];
    assert_eq!(rt; go(alloc, TWO, 3, 9, rows), Ok(true));
    assert_eq!(rt; go(alloc, TWO, 2, 9, rows), Ok(false));
    assert_eq!(rt; go(alloc, TWO, 3, 8, rows), Ok(false));
    assert_eq!(rt; go(alloc, ONE, 3, 9, rows), Ok(false));
}

#[test]
fn items_go_with_each_other(rt: HostRuntime) {
    let alloc = rt.alloc();
    let one_number: &[(u32, &str, u64, u64, u32)] = &[(0, "a", 3, 5, 300), (8, "b", 3, 9, 400)];
    assert_eq!(rt; go(alloc, TWO, 3, 9, one_number), Ok(false));
    let full: &[(u32, &str, u64, u64, u32)] = &[(0, "a", 1, 5, 256), (8, "b", 3, 9, 268_435_200)];
    assert_eq!(rt; go(alloc, TWO, 3, 9, full), Ok(true));
    let large: &[(u32, &str, u64, u64, u32)] = &[(0, "a", 1, 5, 257), (8, "b", 3, 9, 268_435_200)];
    assert_eq!(rt; go(alloc, TWO, 3, 9, large), Ok(false));
    assert_eq!(rt; go(alloc, ONE, 0, 0, &[]), Ok(true));
}
