//! Numbers by which a copy goes.

ghost use Rattle.std.specs.Prelude.{◌≡◌, ◌+◌, ◌^◌};

/// The last moment there is, in milliseconds since 1970: a later one is taken as this.
pub const LAST_MOMENT: u64 = (1 << 42) - 1;

/// With this many entries in the log no request changes anything any more.
pub const REQUEST_LIMIT: u64 = 1 << 40;

/// The first CAS that isn't drawn any more.
pub const CAS_LIMIT: u64 = 1 << 63;

/// With this many entries added one by one since the last flush a change begins with a flush.
pub const UNFLUSHED_ENTRIES: u64 = 16_384;

/// With this many bytes of such entries a change begins with a flush.
pub const UNFLUSHED_BYTES: u64 = 67_108_864;

/// With this promise or incarnation, or a greater one, a copy isn't opened any more.
pub const SPENT: u64 = (1 << 48) - 8;

/// The limits are these numbers.
pub fn copy_numbers()
    ensures moment { LAST_MOMENT + 1 ≡ 2 ^ 42 }
    ensures requests { REQUEST_LIMIT ≡ 2 ^ 40 }
    ensures cas { CAS_LIMIT ≡ 2 ^ 63 }
    ensures entries { UNFLUSHED_ENTRIES ≡ 16384 }
    ensures bytes { UNFLUSHED_BYTES ≡ 67108864 }
    ensures spent { SPENT + 8 ≡ 2 ^ 48 }
{}
