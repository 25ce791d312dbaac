use json_model::Kind;

/// Bytes of a text, from a place up to another.
#[derive(Clone, Copy, Debug, PartialEq, Eq)]
pub struct Span {
    /// The place of the first byte.
    pub from: usize,
    /// The place behind the last byte.
    pub to: usize,
}

/// A value of a text.
#[derive(Clone, Copy, Debug, PartialEq, Eq)]
pub struct Node {
    /// What it is.
    pub kind: Kind,
    /// The place of its first byte.
    pub from: usize,
    /// The place behind its last byte.
    pub to: usize,
    /// The place of its key's first byte, a quotation mark; 0 where it is no member.
    pub key_from: usize,
    /// The place behind its key's last byte; 0 where it is no member.
    pub key_to: usize,
    /// How many members or elements it has.
    pub children: u32,
    /// The place in the list behind its last descendant.
    pub after: u32,
}
