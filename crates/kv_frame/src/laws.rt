ghost use Rattle.std.specs.Prelude.{◌≡◌, ℕ, List, ◌++◌};
ghost use Rattle.kv_edge.specs.Fields.{IsBytes};
ghost use Rattle.kv_frame.specs.declared.frame.Side.{Side};
ghost use Rattle.kv_frame.specs.declared.frame.Frame.{Frame};
ghost use Rattle.kv_frame.specs.declared.judging.Judged.{Judged};
ghost use Rattle.kv_frame.specs.Grammar.{IsFrame};
ghost use Rattle.kv_frame.specs.Judging.{Judges};

use crate::frame::{BODY_LIMIT, HEADER_LENGTH};

// Two more laws are clauses of `decode`. What `encode_into` appended is decoded again, as that very frame and all of
// its bytes, whatever follows: that is `only` at a spelling. What `decode` finds is encoded as the very bytes that it
// was found in: that is `answer`, by which they are the one spelling of the frame.

/// No spelling begins another: of two frames of a side at the front of the same bytes, both are one, in one spelling.
pub fn one_frame()
    ensures { (side : Side) (f g : Frame) (a b x y : List ℕ) → IsFrame side f a → IsFrame side g b → a ++ x ≡ b ++ y → (f ≡ g) × (a ≡ b) }
{}

/// Of bytes one thing is to be told.
pub fn one_judgement()
    ensures { (side : Side) (bytes : List ℕ) (x y : Judged) → IsBytes bytes → Judges side bytes x → Judges side bytes y → x ≡ y }
{}

/// The length of a header and the greatest length of a body are these numbers of bytes.
pub fn frame_numbers()
    ensures header { HEADER_LENGTH ≡ 24 }
    ensures body { BODY_LIMIT ≡ 23068672 }
{}
