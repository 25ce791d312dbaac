use crate::key::DocKey;
use kv_edge::{Bytes, Copied, NoMemory};
use std::alloc::Global;

/// A document. Its expiry is 0 for none, or seconds since 1970.
#[derive(Debug, PartialEq, Eq, Drop)]
pub struct Doc {
    pub value: Bytes,
    /// Empty, or a section of extended attributes.
    pub xattrs: Bytes,
    /// The client's own 32 bits.
    pub flags: u32,
    pub expiry: u32,
    pub cas: u64,
    /// The position of the change that made it, from 1, in the history of its vbucket; 0 where it has none yet.
    pub seqno: u64,
    /// Whether the value is JSON text.
    pub json: bool,
}

/// What a key has.
#[derive(Debug, PartialEq, Eq, Drop)]
pub enum What {
    /// A document.
    Put(Doc),
    /// The mark of a deletion, with its CAS.
    Remove(u64),
}

/// A key and what it has, with the position of the change that made it so, from 1.
#[derive(Debug, PartialEq, Eq, Drop)]
pub struct Item {
    pub key: DocKey,
    pub seqno: u64,
    pub what: What,
}

impl Copied for Doc {
    fn copy(&self, alloc: Global) -> Result<Doc, NoMemory> {
        let value = self.value.copy(alloc)?;
        let xattrs = self.xattrs.copy(alloc)?;
        Ok(Doc {
            value,
            xattrs,
            flags: self.flags,
            expiry: self.expiry,
            cas: self.cas,
            seqno: self.seqno,
            json: self.json,
        })
    }
}

impl Copied for What {
    fn copy(&self, alloc: Global) -> Result<What, NoMemory> {
        match self {
            What::Put(doc) => Ok(What::Put(doc.copy(alloc)?)),
            What::Remove(cas) => Ok(What::Remove(*cas)),
        }
    }
}

impl Copied for Item {
    fn copy(&self, alloc: Global) -> Result<Item, NoMemory> {
        let key = self.key.copy(alloc)?;
        let what = self.what.copy(alloc)?;
        Ok(Item {
            key,
            seqno: self.seqno,
            what,
        })
    }
}
