//! The path and the document of a request, or the status by which they are refused.

ghost use Rattle.std.specs.Prelude.{ℕ, List, Ok, Err};
ghost use Rattle.json_model.specs.Paths.{ReadsPath};
ghost use Rattle.json_model.specs.Order.{ReadsText};
ghost use Rattle.subdoc_edit.specs.Judging.{IsJudged};
ghost use Rattle.subdoc_edit.specs.Splicing.{IsDocument};
ghost use Rattle.subdoc_edit.specs.Telling.{Told};

use doc_model::{Refused, Status};
use json_spell::{Judgement, judge_text};
use std::alloc::Global;
use subdoc_path::{Path, PathFault, read_path};

/// The path of these bytes: PATH_E2BIG where they are more than 1,024 or it has more than 32 parts,
/// PATH_EINVAL where they are none.
pub fn path_of(alloc: Global, bytes: &[u8]) -> Result<Path, Refused>
    ensures { Told (λ path. ReadsPath bytes.now (Ok path)) (λ s. ReadsPath bytes.now (Err s))
        result }
{
    match read_path(alloc, bytes) {
        Ok(path) => Ok(path),
        Err(PathFault::Einval) => Err(Refused::Status(Status::PATH_EINVAL)),
        Err(PathFault::E2big) => Err(Refused::Status(Status::PATH_E2BIG)),
        Err(PathFault::NoMemory) => Err(Refused::NoMemory),
    }
}

/// Why bytes are no JSON text at most 32 deep: DOC_NOT_JSON where they are none, DOC_E2DEEP where
/// one nests deeper; none where they are one.
pub fn judge(text: &[u8]) -> Option<Status>
    ensures { IsJudged text.now result }
{
    match judge_text(text) {
        Judgement::Json => None,
        Judgement::Not(_) => Some(Status::DOC_NOT_JSON),
        Judgement::Deep(_) => Some(Status::DOC_E2DEEP),
    }
}

/// Refuses a text that was judged to be none.
pub fn check_judged(judged: Option<Status>) -> Result<(), Refused>
    ensures { (text : List ℕ) → IsJudged text judged
        → Told (λ done. IsDocument text) (λ s. ReadsText text (Err s)) result }
{
    match judged {
        Some(status) => Err(Refused::Status(status)),
        None => Ok(()),
    }
}

/// Whether bytes are a JSON text at most 32 deep.
pub fn check_text(text: &[u8]) -> Result<(), Refused>
    ensures { Told (λ done. IsDocument text.now) (λ s. ReadsText text.now (Err s)) result }
{
    check_judged(judge(text))
}
