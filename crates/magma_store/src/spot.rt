use doc_model::DocKey;

/// Where an item's bytes stand on the device.
#[derive(Clone, Copy, Debug, PartialEq, Eq)]
pub struct Spot {
    /// The item's sequence number.
    pub seqno: u64,
    /// The offset of its first byte.
    pub at: u64,
    /// How many bytes it has.
    pub length: u32,
    /// What the item counts: its overhead, and the bytes of its key, its attributes and its value.
    pub weight: u32,
    /// The CAS of its document, or of its deletion.
    pub cas: u64,
}

/// A key and where its item stands.
#[derive(Debug, PartialEq, Eq, Drop)]
pub(crate) struct Placed {
    pub(crate) key: DocKey,
    pub(crate) spot: Spot,
}
