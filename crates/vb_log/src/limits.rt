//! How large a log, its content and the parts of its entries may be.

ghost use Rattle.std.specs.Prelude.{◌≡◌, ◌+◌, ◌^◌};

/// How much a content holds at most, each document, mark of a deletion and pending change counted
/// with the bytes of its key, attributes and value, and `ITEM_OVERHEAD` beside these.
pub const CONTENT_LIMIT: u64 = 268_435_456;

/// What a document, a mark of a deletion and a pending change each count beside their bytes.
pub const ITEM_OVERHEAD: u64 = 288;

/// How many entries a log has at most.
pub const LOG_LIMIT: u64 = 1 << 41;

/// What the entries of a log and its pending changes are at most, counted together.
pub const SUM_LIMIT: u64 = (1 << 41) + (1 << 20);

/// The greatest CAS that an entry may have.
pub const GREATEST_CAS: u64 = (1 << 63) - 1;

/// The greatest position that an entry may name.
pub const GREATEST_POSITION: u64 = (1 << 42) - 1;

/// The greatest level that a prepared change may have; the least is 1.
pub const GREATEST_LEVEL: u8 = 3;

/// How many bytes a key's spelling has at most, its collection's id among them.
pub const SPELT_KEY_LIMIT: u8 = 251;

/// How many bytes a document's extended attributes have at most.
pub const SECTION_LIMIT: usize = xattr_body::SECTION_LIMIT;

/// The limits are these numbers.
pub fn log_numbers()
    ensures content { CONTENT_LIMIT ≡ 268435456 }
    ensures overhead { ITEM_OVERHEAD ≡ 288 }
    ensures log { LOG_LIMIT ≡ 2 ^ 41 }
    ensures sum { SUM_LIMIT ≡ 2 ^ 41 + 2 ^ 20 }
    ensures cas { GREATEST_CAS + 1 ≡ 2 ^ 63 }
    ensures position { GREATEST_POSITION + 1 ≡ 2 ^ 42 }
    ensures level { GREATEST_LEVEL ≡ 3 }
    ensures key { SPELT_KEY_LIMIT ≡ 251 }
    ensures section { SECTION_LIMIT ≡ 1048576 }
{}
