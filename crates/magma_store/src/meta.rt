use durability_core::Chain;
use kv_edge::{Bytes, Copied, NoMemory};
use std::alloc::Global;

/// What a store keeps beside its items.
#[derive(Debug, PartialEq, Eq, Drop)]
pub struct Meta {
    /// The places of the vbucket's copies, and that of the store's own among them, from 0.
    pub chain: Chain,
    pub place: u8,
    /// The greatest term that was promised, and the one that was accepted last; 0 for none.
    pub promise: u64,
    pub accepted: u64,
    /// How often the store was opened, its making counted.
    pub incarnation: u64,
    /// How many entries the log has whose items these are, and the greatest CAS of them.
    pub length: u64,
    pub cas: u64,
    /// The state of the log's manifest and the changes that wait, in bytes; nothing in a new store.
    pub tail: Bytes,
}

/// The numbers of what a store keeps.
#[derive(Clone, Copy, Debug, PartialEq, Eq)]
pub(crate) struct Numbers {
    pub(crate) promise: u64,
    pub(crate) accepted: u64,
    pub(crate) incarnation: u64,
    pub(crate) length: u64,
    pub(crate) cas: u64,
}
