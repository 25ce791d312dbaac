use doc_model::DocKey;

/// A prepare that waits.
#[derive(Debug, PartialEq, Eq, Drop)]
pub(crate) struct Waiting {
    /// Where it stands in the log.
    pub(crate) position: u64,
    /// From 1 to 3.
    pub(crate) level: u8,
    /// The key that it changes.
    pub(crate) key: DocKey,
    /// When it is given up, in milliseconds since 1970; none where it was inherited.
    pub(crate) deadline: Option<u64>,
}
