//! The attribute that a path leads into.

ghost use Rattle.std.specs.Prelude.{◌≡◌, Ok, Err};
ghost use Rattle.subdoc_edit.specs.Telling.{Told};
ghost use Rattle.xattr_step.specs.Answers.{may_name, is_virtual, named, attribute_of};

use doc_model::{Refused, Status};
use json_model::Part;
use xattr_body::NAME_LIMIT;

/// Whether an attribute may have this name.
fn may_name(name: &[u8]) -> bool
    ensures { result ≡ may_name name.now }
{
    !name.is_empty() && name.len() <= NAME_LIMIT && !name.contains(&0)
}

/// Whether it is the name of an attribute that is worked out.
fn is_virtual(name: &[u8]) -> bool
    ensures { result ≡ is_virtual name.now }
{
    match name {
        [first, ..] => *first == b'$',
        [] => false,
    }
}

/// A name, where an attribute may have it and is not worked out.
fn named(name: &[u8]) -> Result<&[u8], Refused>
    ensures { Told (λ x. named name.now ≡ Ok x.now) (λ s. named name.now ≡ Err s) result }
{
    if !may_name(name) {
        return Err(Refused::Status(Status::PATH_EINVAL));
    }
    if is_virtual(name) {
        return Err(Refused::Status(Status::XATTR_UNKNOWN_VATTR));
    }
    Ok(name)
}

/// The name of the attribute that parts of a path lead into: PATH_EINVAL where the first is none
/// that an attribute may have, XATTR_UNKNOWN_VATTR where it is that of one that is worked out.
pub fn attribute_of(parts: &[Part]) -> Result<&[u8], Refused>
    ensures { Told (λ name. attribute_of parts.now ≡ Ok name.now)
        (λ s. attribute_of parts.now ≡ Err s) result }
{
    match parts {
        [] => Err(Refused::Status(Status::PATH_EINVAL)),
        [first, ..] => match first {
            Part::Member(name) => named(name.as_slice()),
            Part::At(_) => Err(Refused::Status(Status::PATH_EINVAL)),
            Part::Last => Err(Refused::Status(Status::PATH_EINVAL)),
        },
    }
}
