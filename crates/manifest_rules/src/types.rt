use kv_edge::{Bytes, Copied, NoMemory, Seq};
use std::alloc::Global;

/// How many characters a name has at most.
pub const NAME_LIMIT: usize = 251;

/// How many scopes, and how many collections, there are at most.
pub const COUNT_LIMIT: usize = 1200;

/// How many ids of each kind may have been dropped at most.
pub const DROPPED_LIMIT: usize = 65_536;

/// A collection of documents.
#[derive(Debug, PartialEq, Eq, Drop)]
pub struct Collection {
    pub name: Bytes,
    pub id: u32,
    /// The greatest lifetime of its documents in seconds, 0 for any.
    pub max_ttl: u32,
}

/// A scope and its collections.
#[derive(Debug, PartialEq, Eq, Drop)]
pub struct Scope {
    pub name: Bytes,
    pub id: u32,
    pub collections: Seq<Collection>,
}

impl Copied for Collection {
    fn copy(&self, alloc: Global) -> Result<Collection, NoMemory> {
        let name = self.name.copy(alloc)?;
        Ok(Collection {
            name,
            id: self.id,
            max_ttl: self.max_ttl,
        })
    }
}

impl Copied for Scope {
    fn copy(&self, alloc: Global) -> Result<Scope, NoMemory> {
        let name = self.name.copy(alloc)?;
        let collections = self.collections.copy(alloc)?;
        Ok(Scope {
            name,
            id: self.id,
            collections,
        })
    }
}
