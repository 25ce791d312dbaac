/// How late in a log something was made, and how great its CAS, at most.
#[derive(Clone, Copy, Debug)]
pub(crate) struct Bounds {
    /// The last position.
    pub(crate) last: u64,
    /// The greatest CAS.
    pub(crate) cas: u64,
}
