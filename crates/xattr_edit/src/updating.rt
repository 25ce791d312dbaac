//! The attributes that an edited object leaves.

ghost use Rattle.std.specs.Prelude.{◌≡◌, ℕ, List, ◌∷◌, OnOk};
ghost use Rattle.std.specs.Option.{option_copied};
ghost use Rattle.json_model.specs.declared.asked.Part.{Part};
ghost use Rattle.json_model.specs.declared.asked.Part.TheVariants.{Member};
ghost use Rattle.subdoc_edit.specs.Splicing.{IsDocument};
ghost use Rattle.xattr_step.specs.Answers.{text_at};
ghost use Rattle.xattr_edit.specs.Updating.{BeginsWith, found_in, with_found};

use crate::blanks::within_blanks;
use json_model::Part;
use json_walk::value_end;
use kv_edge::{Bytes, NoMemory};
use std::alloc::Global;
use subdoc_path::{Led, follow};
use xattr_body::{Xattrs, get, put, remove};

/// The text that an object has at the name with which parts begin, without the blanks round it.
pub fn text_at<'a>(object: &'a [u8], parts: &[Part]) -> Option<&'a [u8]>
    requires json { IsDocument object.now }
    requires named { (name : List ℕ) × BeginsWith name parts.now }
    ensures { (name : List ℕ) → BeginsWith name parts.now
        → option_copied result ≡ found_in (text_at name object.now) }
{
    let (first, _) = parts.split_at(1);
    match follow(object, first) {
        Led::At(at) => {
            let (_, behind) = object.split_at(at);
            let (text, _) = behind.split_at(value_end(object, at) - at);
            Some(text)
        }
        Led::Missing(_) => None,
        Led::Mismatch(_) => None,
    }
}

/// Gives the attribute of a name the text that was found for it, between the blanks that stood
/// round its old one; takes it away where none was found.
pub fn update(
    alloc: Global,
    xattrs: &mut Xattrs,
    name: &[u8],
    found: Option<&[u8]>,
) -> Result<(), NoMemory>
    ensures { OnOk result (xattrs.new ≡ with_found name.now xattrs.old (option_copied found.entry)) }
{
    match found {
        Some(text) => {
            let text = within_blanks(alloc, get(xattrs, name), text)?;
            put(xattrs, Bytes::from_slice(alloc, name)?, text)
        }
        None => {
            let _old = remove(xattrs, name);
            Ok(())
        }
    }
}
