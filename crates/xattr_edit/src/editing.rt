//! Edits.

ghost use Rattle.std.specs.Prelude.{◌≡◌, IsSome};
ghost use Rattle.json_model.specs.Edit.{edit_of, makes_parents};
ghost use Rattle.xattr_body.specs.Pairs.{pairs_in};
ghost use Rattle.xattr_edit.specs.Telling.{EditsIn};
ghost use Rattle.xattr_edit.specs.Updating.{EditsObject, Spells};

use crate::naming::attribute_of;
use crate::object::object_of;
use crate::updating::{text_at, update};
use doc_model::{Refused, Status};
use kv_edge::Bytes;
use std::alloc::Global;
use subdoc_edit::{Edited, path_of};
use xattr_body::{SECTION_LIMIT, Xattrs, pairs_of, section, section_size};

/// What an edit leaves.
#[derive(Debug, Drop)]
pub struct EditedSection {
    /// The section of the attributes; no bytes where there are none.
    pub section: Bytes,
    /// What a counter has come to.
    pub number: Option<i64>,
}

/// Edits the attributes of a section that is known to be one: `opcode` is that of a sub-document
/// edit, c7 to cf, and `several` lets any number of names at the end of the path be absent, and
/// makes them. The section that is left is new; beside it a counter tells the number that it has
/// come to.
///
/// It is refused with the first of these that applies, and nothing is left then:
///
/// - 00c3 and 00c2 where the path isn't one, 00c2 where it begins with no name that an attribute
///   may have, 00d1 where that name begins with `$`;
/// - the status with which `subdoc_edit::edit` refuses the edit of the attributes' object;
/// - 0003 where the section would have more than 1,048,576 bytes.
///
/// Want of memory is told apart from these, at any point.
pub fn edit(
    alloc: Global,
    opcode: u8,
    several: bool,
    section: &[u8],
    path: &[u8],
    value: &[u8],
) -> Result<EditedSection, Refused>
    requires { IsSome (edit_of opcode) }
    ensures { EditsIn opcode several section.now path.now value.now result }
{
    let parts = path_of(alloc, path)?;
    let name = attribute_of(parts.parts())?;
    let edited = edit_object(alloc, opcode, several, section, path, value)?;
    let found = text_at(edited.text.as_slice(), parts.parts());
    let mut xattrs = pairs_of(alloc, section)?;
    update(alloc, &mut xattrs, name, found)?;
    spell(alloc, &xattrs, edited.number)
}

/// What an edit makes of the object of a section's attributes.
fn edit_object(
    alloc: Global,
    opcode: u8,
    several: bool,
    section: &[u8],
    path: &[u8],
    value: &[u8],
) -> Result<Edited, Refused>
    requires { IsSome (edit_of opcode) }
    ensures { EditsObject opcode several (pairs_in section.now) path.now value.now result }
{
    let object = object_of(alloc, section)?;
    subdoc_edit::edit(
        alloc,
        opcode,
        path_flags(several),
        object.as_slice(),
        path,
        value,
    )
}

/// The flags of a path: bit 01 where several parts may be absent.
fn path_flags(several: bool) -> u8
    ensures { makes_parents result ≡ several }
{
    if several { 1 } else { 0 }
}

/// The section of attributes, where it isn't too large.
fn spell(alloc: Global, xattrs: &Xattrs, number: Option<i64>) -> Result<EditedSection, Refused>
    ensures { Spells xattrs.now number result }
{
    if section_size(xattrs) > SECTION_LIMIT {
        return Err(Refused::Status(Status::E2BIG));
    }
    let section = section(alloc, xattrs)?;
    Ok(EditedSection { section, number })
}
