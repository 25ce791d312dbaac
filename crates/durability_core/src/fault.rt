/// Why a prepare isn't added.
#[derive(Clone, Copy, Debug, PartialEq, Eq)]
pub enum TrackFault {
    /// The level isn't 1, 2 or 3.
    Level,
    /// The chain names fewer than a majority of its places.
    Impossible,
    /// A prepare of this term waits of the key.
    InProgress,
    /// A prepare that was inherited waits of the key.
    ReCommit,
    /// Memory was refused.
    NoMemory,
}
