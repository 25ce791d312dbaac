ghost use Rattle.std.specs.Prelude.{◌≡◌, ℕ, List, ◌++◌, length, IfOk};
ghost use Rattle.kv_frame.specs.Grammar.{spelling, IsFrame};
ghost use Rattle.kv_frame.specs.Judging.{Decodes};

use crate::frame::{Frame, Side, frame_of};
use crate::judging::Fault;
use crate::viewing::{ViewStep, view};
use kv_edge::NoMemory;
use std::alloc::Global;

/// What bytes begin with.
#[derive(Debug, Drop)]
pub enum Step {
    /// This frame, and how many bytes it has.
    Whole(Frame, usize),
    /// This many bytes are missing, of the header or else of the body.
    More(usize),
    /// No frame begins so: where in the frame, and why.
    Bad(usize, Fault),
}

/// Reads the frame of the side that the bytes begin with, as `view` does, and copies its parts. `NoMemory` comes where
/// memory for them is refused. The work is in proportion to the frame.
pub fn decode(alloc: Global, side: Side, bytes: &[u8]) -> Result<Step, NoMemory>
    ensures answer { IfOk result (λ step. Decodes side bytes.now step) }
    ensures only { (f : Frame) (rest : List ℕ) → IsFrame side f (spelling f) → bytes.now ≡ spelling f ++ rest → IfOk result (λ step. step ≡ Step.Whole f (length (spelling f))) }
{
    match view(alloc, side, bytes)? {
        ViewStep::Whole(found, used) => Ok(Step::Whole(frame_of(alloc, found)?, used)),
        ViewStep::More(missing) => Ok(Step::More(missing)),
        ViewStep::Bad(place, fault) => Ok(Step::Bad(place, fault)),
    }
}
