/// What a value is.
#[derive(Clone, Copy, Debug, PartialEq, Eq)]
pub enum Kind {
    /// Members between braces.
    Object,
    /// Elements between brackets.
    Array,
    /// A string.
    Text,
    /// A number.
    Number,
    /// The word `true`.
    True,
    /// The word `false`.
    False,
    /// The word `null`.
    Null,
}

/// The two kinds of values that hold others.
#[derive(Clone, Copy, Debug, PartialEq, Eq)]
pub enum Shape {
    /// Members between braces.
    Object,
    /// Elements between brackets.
    Array,
}
