/// Where a path leads in a text itself.
#[derive(Clone, Copy, Debug, PartialEq, Eq)]
pub enum Led {
    /// To the value whose first byte stands at this place of the text.
    At(usize),
    /// The part of this number, from 0 on, names nothing that is there.
    Missing(usize),
    /// The part of this number, from 0 on, is a name where there is no object, or an index where
    /// there is no array.
    Mismatch(usize),
}
