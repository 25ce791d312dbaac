/// The kind of a message that brings one entry.
pub const ENTRY: u8 = 1;

/// The kind of a message that tells how far a copy is.
pub const ACK: u8 = 2;

/// The kind of a message that asks for all that an active copy has.
pub const REJOIN: u8 = 3;

/// The kind of a message that brings all that an active copy has.
pub const ADOPT: u8 = 4;

/// What of a message decides what is to be done with it.
///
/// | Kind | `first` | `second` | `third` |
/// |---|---|---|---|
/// | Entry | position | 0 | 0 |
/// | Ack | length in memory | length on disk | 0 |
/// | Rejoin | accepted term | length | incarnation |
/// | Adopt | incarnation | length | 0 |
#[derive(Clone, Copy, Debug, PartialEq, Eq)]
pub struct MessageHead {
    pub kind: u8,
    /// The place that sent it.
    pub from: u8,
    pub term: u64,
    pub first: u64,
    pub second: u64,
    pub third: u64,
}

/// What a copy is to do with a message.
#[derive(Clone, Copy, Debug, PartialEq, Eq)]
pub enum Heard {
    /// Nothing.
    Ignore,
    /// Tell how far it is: it has the entry.
    Acknowledge,
    /// Ask for all that the active has.
    AskRejoin,
    /// Add the entry.
    Append,
    /// Take all that the message brings in place of its log.
    TakeAll,
    /// Be whole, and tell how far it is: its log is no shorter than what the message brings.
    MarkWhole,
    /// Send all that it has.
    GiveAdopt,
    /// Count how far the sender is.
    Count,
}
