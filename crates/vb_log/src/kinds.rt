//! What says in an entry's first byte which entry it is.

pub(crate) const MUTATION: u8 = 1;

pub(crate) const DELETION: u8 = 2;

pub(crate) const PREPARE: u8 = 3;

pub(crate) const COMMIT: u8 = 4;

pub(crate) const ABORT: u8 = 5;

pub(crate) const MANIFEST: u8 = 6;
