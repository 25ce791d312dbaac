use durability_core::Chain;

/// What a copy is to the others.
#[derive(Clone, Copy, Debug, PartialEq, Eq)]
pub enum Role {
    /// It answers requests and adds entries.
    Active,
    /// It takes what the active sends.
    Replica,
    /// It was made so by a state, and takes what the active sends as a replica does.
    Pending,
    /// Its disk failed, or it was told to be dead; it does nothing until it is opened again.
    Dead,
}

/// The numbers of a copy.
#[derive(Debug, PartialEq, Eq, Drop)]
pub struct CopyCore {
    /// The places of the vbucket's copies.
    pub chain: Chain,
    /// The copy's own place, from 0.
    pub place: u8,
    /// What it is to the others.
    pub role: Role,
    /// No fence, message or promotion of a lower term is taken.
    pub promise: u64,
    /// The term whose log this is; 0 before the first.
    pub accepted: u64,
    /// How many entries the log has.
    pub length: u64,
    /// Whether nothing that the copy acknowledged is lost.
    pub whole: bool,
    /// The number of its opening, from 1; one that stopped may count.
    pub incarnation: u64,
}
