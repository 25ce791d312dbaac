//! What no clause shows: a worked content whose first changes that wait are committed.
use crate::joining_tests::{first_wrong, key_of, marks};
use crate::{
    CONTENT_LIMIT, Content, ContentFault, LOG_LIMIT, Pending, commit_first, length, of_parts,
    prepares, size,
};
use doc_model::What;
use kv_edge::NoMemory;
use manifest_rules::first;
use std::alloc::Global;

/// Deletions of keys of collections that wait, each prepared at a position.
fn deletions(alloc: Global, rows: &[(u32, &str, u64)]) -> Result<Vec<Pending>, NoMemory> {
    let mut changes = Vec::new(alloc);
    for (collection, name, position) in rows {
        changes.push(Pending {
            position: *position,
            level: 1,
            key: key_of(alloc, *collection, name)?,
            what: What::Remove(*position),
        })?;
    }
    Ok(changes)
}

/// A content of four entries: `a` has something, and three changes wait, one of them of a collection that is gone.
fn three(alloc: Global) -> Result<Content, ContentFault> {
    let items = marks(alloc, &[(0, "a", 1)])?;
    let changes = deletions(alloc, &[(0, "a", 2), (8, "b", 3), (0, "c", 4)])?;
    of_parts(alloc, items, changes, first(alloc)?, 4, 4)
}

/// Commits so many of the three; tells the first key that is wrong then, the length and how many still wait.
fn committed(
    alloc: Global,
    count: usize,
    wanted: &[(u32, &str, u64)],
) -> Result<(Option<usize>, u64, usize), ContentFault> {
    let mut content = three(alloc)?;
    let waits = prepares(&content).len();
    if waits < count
        || waits > 3
        || length(&content) > LOG_LIMIT
        || size(&content) > CONTENT_LIMIT
    {
        return Err(ContentFault::Bad(1));
    }
    commit_first(alloc, &mut content, count)?;
    let wrong = first_wrong(alloc, &content, wanted)?;
    Ok((wrong, length(&content), prepares(&content).len()))
}

#[test]
fn two_are_committed_at_once(rt: HostRuntime) {
    let wanted: &[(u32, &str, u64)] = &[(0, "a", 5), (8, "b", 0), (0, "c", 0)];
    assert_eq!(rt; committed(rt.alloc(), 2, wanted), Ok((None, 6, 1)));
}

#[test]
fn none_is_committed(rt: HostRuntime) {
    let wanted: &[(u32, &str, u64)] = &[(0, "a", 1), (8, "b", 0), (0, "c", 0)];
    assert_eq!(rt; committed(rt.alloc(), 0, wanted), Ok((None, 4, 3)));
}

#[test]
fn all_are_committed(rt: HostRuntime) {
    let wanted: &[(u32, &str, u64)] = &[(0, "a", 5), (8, "b", 0), (0, "c", 7)];
    assert_eq!(rt; committed(rt.alloc(), 3, wanted), Ok((None, 7, 0)));
}
