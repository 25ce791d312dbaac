use doc_model::{Doc, DocKey, What};
use kv_edge::{Bytes, Copied, NoMemory};
use std::alloc::Global;

/// One entry of a log.
#[derive(Debug, PartialEq, Eq, Drop)]
pub enum Entry {
    /// A key gets a document.
    Mutation { key: DocKey, doc: Doc },
    /// A key's document is deleted, with this CAS.
    Deletion { key: DocKey, cas: u64 },
    /// A change that waits for its Commit, at a level from 1 to 3.
    Prepare { key: DocKey, what: What, level: u8 },
    /// The change that was prepared at a position is made.
    Commit { of: u64 },
    /// The change that was prepared at a position is given up.
    Abort { of: u64 },
    /// A manifest takes the place of the one that is there.
    Manifest { text: Bytes },
}

/// A prepared change that waits for its Commit or Abort.
#[derive(Debug, PartialEq, Eq, Drop)]
pub struct Pending {
    /// The position of its Prepare in the log, from 1.
    pub position: u64,
    /// The level at which it is to stand, from 1 to 3.
    pub level: u8,
    /// The key that it changes.
    pub key: DocKey,
    /// What the key gets at the Commit.
    pub what: What,
}

impl Copied for Pending {
    fn copy(&self, alloc: Global) -> Result<Pending, NoMemory> {
        let key = self.key.copy(alloc)?;
        let what = self.what.copy(alloc)?;
        Ok(Pending {
            position: self.position,
            level: self.level,
            key,
            what,
        })
    }
}
