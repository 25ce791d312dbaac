//! The numbers of the layout.

ghost use Rattle.std.specs.Prelude.{◌≡◌, ◌^◌};

/// The first byte of each message.
pub(crate) const MARK: u8 = 0x70;

/// How many bytes a head has.
pub const HEAD_LENGTH: usize = 12;

/// How many bytes a body has at most.
pub const BODY_LIMIT: u32 = 536_870_912;

/// The greatest place; the least is 0.
pub const GREATEST_PLACE: u8 = 3;

/// The least number above all terms; the least term is 4.
pub const TERM_BOUND: u64 = 1 << 48;

/// The numbers are these.
pub fn wire_numbers()
    ensures head { HEAD_LENGTH ≡ 12 }
    ensures body { BODY_LIMIT ≡ 536870912 }
    ensures place { GREATEST_PLACE ≡ 3 }
    ensures term { TERM_BOUND ≡ 2 ^ 48 }
{}
