//! What bytes begin with, as a session sees it.

ghost use Rattle.std.specs.Prelude.{◌≡◌, IfOk};
ghost use Rattle.kv_session.specs.Making.{FindsIn};

use crate::answers::{Made, read_frame};
use kv_edge::NoMemory;
use kv_frame::{Fault, Side, ViewStep, view};
use kv_request::Features;
use std::alloc::Global;

/// What bytes begin with.
#[derive(Debug, Drop)]
pub(crate) enum Found {
    /// A frame: what the session makes of it, and how many bytes it has.
    Frame(Made, usize),
    /// This many bytes of a frame are missing.
    More(usize),
    /// No frame begins so: the place in the frame, and why.
    Bad(usize, Fault),
}

/// What the bytes begin with, under the features granted so far. A whole frame is read where it lies.
pub(crate) fn find_frame(
    alloc: Global,
    features: &Features,
    bytes: &[u8],
) -> Result<Found, NoMemory>
    ensures { IfOk result (FindsIn features.now bytes.now) }
{
    match view(alloc, Side::Requests, bytes)? {
        ViewStep::Whole(frame, used) => Ok(Found::Frame(
            read_frame(alloc, &frame, features)?,
            used,
        )),
        ViewStep::More(missing) => Ok(Found::More(missing)),
        ViewStep::Bad(place, fault) => Ok(Found::Bad(place, fault)),
    }
}
