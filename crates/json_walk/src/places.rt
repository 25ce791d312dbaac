/// Where a part of an object or an array stands in a text: places that count bytes from 0 on.
#[derive(Clone, Copy, Debug, PartialEq, Eq)]
pub struct PartAt {
    /// The place of its first byte behind its blanks: of its key, or of an element's value.
    pub start: usize,
    /// The place behind its key; `start` of an element, which has none.
    pub key_to: usize,
    /// The place of its value's first byte.
    pub value: usize,
}
