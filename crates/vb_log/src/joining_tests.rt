//! What no clause shows: worked contents with parts of others joined to them.
use crate::{
    CONTENT_LIMIT, Content, ContentFault, difference_from, greatest_cas, item, join, length,
    of_parts, prepares, size,
};
use doc_model::{DocKey, Item, Refused, What};
use kv_edge::{Bytes, NoMemory};
use manifest_rules::{Manifest, first, read_manifest};
use std::alloc::Global;

/// A manifest with the collections 0 and 8.
const TWO: &[u8] =
    b"{\"uid\":\"1\",\"scopes\":[{\"name\":\"_default\",\"uid\":\"0\",\"collections\":[{\"name\":\"_default\",\"uid\":\"0\"},{\"name\":\"c\",\"uid\":\"8\"}]}]}";

/// The manifest with the collections 0 and 8.
fn two(alloc: Global) -> Result<Manifest, ContentFault> {
    match read_manifest(alloc, TWO) {
        Ok(manifest) => Ok(manifest),
        Err(Refused::Status(_)) => Err(ContentFault::Bad(1)),
        Err(Refused::NoMemory) => Err(ContentFault::NoMemory),
    }
}

/// A key.
pub(crate) fn key_of(alloc: Global, collection: u32, name: &str) -> Result<DocKey, NoMemory> {
    Ok(DocKey {
        collection,
        key: Bytes::from_slice(alloc, name.as_bytes())?,
    })
}

/// Marks of deletions of keys of collections, each made at a position.
pub(crate) fn marks(alloc: Global, rows: &[(u32, &str, u64)]) -> Result<Vec<Item>, NoMemory> {
    let mut items = Vec::new(alloc);
    for (collection, name, position) in rows {
        items.push(Item {
            key: key_of(alloc, *collection, name)?,
            seqno: *position,
            what: What::Remove(*position),
        })?;
    }
    Ok(items)
}

/// A content of so many entries, with such marks, where nothing waits.
fn marked(
    alloc: Global,
    manifest: Manifest,
    last: u64,
    rows: &[(u32, &str, u64)],
) -> Result<Content, ContentFault> {
    let items = marks(alloc, rows)?;
    of_parts(alloc, items, Vec::new(alloc), manifest, last, last)
}

/// Joins what of a content lies behind the end of another to that other.
fn followed(alloc: Global, content: &mut Content, later: &Content) -> Result<(), ContentFault> {
    let from = length(content);
    if length(later) < from || size(content) > CONTENT_LIMIT || size(later) > CONTENT_LIMIT {
        return Err(ContentFault::Bad(2));
    }
    let part = difference_from(alloc, later, from)?;
    join(alloc, content, part)?;
    Ok(())
}

/// The position at which a key's item was made, or 0 where it has none.
fn made_at(alloc: Global, content: &Content, collection: u32, name: &str) -> Result<u64, NoMemory> {
    let key = key_of(alloc, collection, name)?;
    match item(content, &key) {
        Some(item) => Ok(item.seqno),
        None => Ok(0),
    }
}

/// The number of the first row whose key's item was made elsewhere.
pub(crate) fn first_wrong(
    alloc: Global,
    content: &Content,
    rows: &[(u32, &str, u64)],
) -> Result<Option<usize>, NoMemory> {
    let mut number = 0;
    for (collection, name, position) in rows {
        if made_at(alloc, content, *collection, name)? != *position {
            return Ok(Some(number));
        }
        number = number.saturating_add(1);
    }
    Ok(None)
}

/// Joins what lies behind three entries of a later content of five; tells the first row that is wrong then, the length and
/// the greatest CAS.
fn joined(
    alloc: Global,
    manifest: Manifest,
    old: &[(u32, &str, u64)],
    new: &[(u32, &str, u64)],
    wanted: &[(u32, &str, u64)],
) -> Result<(Option<usize>, u64, u64), ContentFault> {
    let mut content = marked(alloc, two(alloc)?, 3, old)?;
    let later = marked(alloc, manifest, 5, new)?;
    followed(alloc, &mut content, &later)?;
    let wrong = first_wrong(alloc, &content, wanted)?;
    if !prepares(&content).is_empty() {
        return Err(ContentFault::Bad(3));
    }
    Ok((wrong, length(&content), greatest_cas(&content)))
}

#[test]
fn a_part_stands_over_what_was_there(rt: HostRuntime) {
    let old: &[(u32, &str, u64)] = &[(0, "a", 1), (0, "b", 2), (8, "a", 3)];
    let new: &[(u32, &str, u64)] = &[(0, "a", 1), (0, "b", 4), (8, "a", 3), (8, "b", 5)];
    let wanted: &[(u32, &str, u64)] = &[(0, "a", 1), (0, "b", 4), (8, "a", 3), (8, "b", 5)];
    let told = match two(rt.alloc()) {
        Ok(manifest) => joined(rt.alloc(), manifest, old, new, wanted),
        Err(fault) => Err(fault),
    };
    assert_eq!(rt; told, Ok((None, 5, 5)));
}

#[test]
fn a_part_leaves_nothing_of_dropped_collections(rt: HostRuntime) {
    let old: &[(u32, &str, u64)] = &[(0, "a", 1), (8, "a", 2), (8, "b", 3)];
    let new: &[(u32, &str, u64)] = &[(0, "a", 1), (0, "b", 5)];
    let wanted: &[(u32, &str, u64)] = &[(0, "a", 1), (0, "b", 5), (8, "a", 0), (8, "b", 0)];
    let told = match first(rt.alloc()) {
        Ok(manifest) => joined(rt.alloc(), manifest, old, new, wanted),
        Err(NoMemory) => Err(ContentFault::NoMemory),
    };
    assert_eq!(rt; told, Ok((None, 5, 5)));
}
