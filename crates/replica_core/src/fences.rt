/// What a copy answers to a fence.
#[derive(Clone, Copy, Debug, PartialEq, Eq)]
pub struct FenceAnswer {
    /// The place of the copy.
    pub place: u8,
    /// The term of the fence.
    pub term: u64,
    /// The term whose log the copy has.
    pub accepted: u64,
    /// How many entries that log has.
    pub length: u64,
    /// The number of the copy's opening.
    pub incarnation: u64,
    /// Whether nothing that the copy acknowledged is lost.
    pub whole: bool,
}

/// Why a promotion is refused.
#[derive(Clone, Copy, Debug, PartialEq, Eq)]
pub enum PromoteFault {
    /// The place doesn't own the term.
    Owner,
    /// The term is at most the accepted one, or below the promise. A fence is refused so where its
    /// term is below the promise.
    Old,
    /// Fewer than a majority of the named places answered.
    Few,
    /// An answer isn't one for this promotion, the copy's own isn't there as it would be now, or its
    /// promise isn't the term.
    Foreign,
    /// An answer is of a copy that has a later log, or more of the same.
    NotLongest,
    /// An answer is of a copy that isn't whole.
    NotWhole,
}
