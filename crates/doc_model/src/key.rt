use kv_edge::{Bytes, Copied, NoMemory};
use std::alloc::Global;

/// The key of a document: its collection's id and the bytes that the client calls it by, ordered by collection and
/// then byte by byte.
#[derive(Debug, PartialEq, Eq, PartialOrd, Ord, Drop)]
pub struct DocKey {
    pub collection: u32,
    pub key: Bytes,
}

impl Copied for DocKey {
    fn copy(&self, alloc: Global) -> Result<DocKey, NoMemory> {
        let key = self.key.copy(alloc)?;
        let collection = self.collection;
        Ok(DocKey { collection, key })
    }
}
