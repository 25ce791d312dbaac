//! Look-ups.

ghost use Rattle.std.specs.Prelude.{◌≡◌, List, IsSome};
ghost use Rattle.json_model.specs.Edit.{lookup_of};
ghost use Rattle.subdoc_edit.specs.Judging.{IsJudged};
ghost use Rattle.xattr_body.specs.Section.{Pair};
ghost use Rattle.xattr_step.specs.Object.{object_text};
ghost use Rattle.xattr_edit.specs.Telling.{FindsIn};

use crate::naming::attribute_of;
use doc_model::{Refused, Status};
use std::alloc::Global;
use subdoc_edit::{Piece, look_judged, path_of};

/// Looks at a path of attributes, of which `object` is the object: `opcode` is that of
/// sub-document Get, Exists or GetCount, and `judged` is what `subdoc_edit::judge` tells of the
/// object. The piece is one of the object.
///
/// It is refused with the first of these that applies: 00c3 and 00c2 where the path isn't one, 00c2
/// where it begins with no name that an attribute may have, 00d1 where that name begins with `$`,
/// and then the status with which `subdoc_edit::look` refuses the look-up in the object.
pub fn look(
    alloc: Global,
    opcode: u8,
    object: &[u8],
    judged: Option<Status>,
    path: &[u8],
) -> Result<Piece, Refused>
    requires known { IsSome (lookup_of opcode) }
    requires judged { IsJudged object.now judged }
    ensures { (pairs : List Pair) → object.now ≡ object_text pairs
        → FindsIn opcode pairs object.now path.now result }
{
    let parts = path_of(alloc, path)?;
    let _name = attribute_of(parts.parts())?;
    look_judged(alloc, opcode, object, judged, path)
}
