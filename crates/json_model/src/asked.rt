use kv_edge::Bytes;

/// A step of a path into a text.
#[derive(Debug, Drop)]
pub enum Part {
    /// To the first member of this name, in UTF-8.
    Member(Bytes),
    /// To the element of this number, from 0 on.
    At(u32),
    /// To the last element.
    Last,
}

/// What is asked of the value that a path leads to.
#[derive(Clone, Copy, Debug, PartialEq, Eq)]
pub enum Lookup {
    /// Its text.
    Get,
    /// Whether it is there.
    Exists,
    /// How many members or elements it has.
    GetCount,
}

/// What is done at a path.
#[derive(Clone, Copy, Debug, PartialEq, Eq)]
pub enum Edit {
    /// A member is inserted, where there is none of this name.
    DictAdd,
    /// A member's value is replaced, or a member inserted.
    DictUpsert,
    /// A member or an element is removed.
    Delete,
    /// A value is replaced.
    Replace,
    /// Elements are put behind the last one.
    ArrayPushLast,
    /// Elements are put before the first one.
    ArrayPushFirst,
    /// Elements are put before the one that the path names.
    ArrayInsert,
    /// An element is put behind the last one, where none has its text.
    ArrayAddUnique,
    /// A whole number is counted up or down.
    Counter,
}
