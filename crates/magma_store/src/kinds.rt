//! Numbers that a store's bytes have, and limits.

ghost use Rattle.std.specs.Prelude.{◌≡◌, ◌+◌, ◌^◌};

/// The first bytes of the record with which a store is made: `KVJ1`.
pub(crate) const MAGIC: u32 = 0x4b56_4a31;

/// The first byte of a record whose items are put over those that are there.
pub(crate) const OVER: u8 = 1;

/// The first byte of a record whose items take the place of those that are there.
pub(crate) const ANEW: u8 = 2;

/// The first byte of a record that sets numbers alone.
pub(crate) const NUMBERS: u8 = 3;

/// How many bytes a segment has.
pub const SEGMENT: u64 = 1_048_576;

/// How many segments a store fills at most by its writes.
pub const SEGMENTS: u64 = 1024;

/// A store whose promise or incarnation is at least this isn't opened any more.
pub const SPENT: u64 = (1 << 48) - 8;

/// The limits are these numbers.
pub fn store_numbers()
    ensures segment { SEGMENT ≡ 2 ^ 20 }
    ensures segments { SEGMENTS ≡ 2 ^ 10 }
    ensures spent { SPENT + 8 ≡ 2 ^ 48 }
{}
