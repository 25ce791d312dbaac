/// How much of a segment is in use. A flat journal has no segments to tell of.
#[derive(Clone, Copy, Debug, PartialEq, Eq)]
pub struct Account {
    /// Which segment it is, from 0.
    pub segment: u16,
    /// What it holds.
    pub kind: u8,
    /// How many of its bytes the store needs, and how many it doesn't need any more.
    pub live: u32,
    pub dead: u32,
}

/// What a step of cleaning came to.
#[derive(Clone, Copy, Debug, PartialEq, Eq)]
pub enum Cleaned {
    /// There is nothing to clean.
    Nothing,
    /// So many items were moved.
    Moved(u32),
    /// A segment is free again.
    Freed(u16),
    /// More segments are needed than are free.
    Full { needed: u64, free: u64 },
    /// A call of the disk failed.
    Fault,
    /// Memory was refused.
    NoMemory,
}
