//! The text of new members.

ghost use Rattle.std.specs.Prelude.{◌≡◌, ◌<◌, ◌++◌, IfOk, OnOk};
ghost use Rattle.json_model.specs.Edit.{hex_digit, key_byte, key_text};
ghost use Rattle.subdoc_edit.specs.Parents.{IsAround, closers, PutsNames};

use json_model::Part;
use kv_edge::{Bytes, NoMemory};
use std::alloc::Global;

/// The bytes of a new member round its value.
#[derive(Debug, Drop)]
pub struct Around {
    /// What stands before the value.
    pub before: Bytes,
    /// What stands behind it.
    pub behind: Bytes,
}

/// A hexadecimal digit in lower case.
fn hex_digit(digit: u8) -> u8
    requires { digit < 16 }
    ensures { result ≡ hex_digit digit }
{
    if digit < 10 {
        b'0' + digit
    } else {
        b'W' + digit
    }
}

/// Adds a control character by its number.
fn put_control(out: &mut Vec<u8>, byte: u8) -> Result<(), NoMemory>
    requires { byte < 0x20 }
    ensures { OnOk result (out.new.items ≡ out.old.items ++ key_byte byte) }
{
    let (high, low) = if byte < 0x10 {
        (b'0', byte)
    } else {
        (b'1', byte - 0x10)
    };
    out.extend_from_slice(&[b'\\', b'u', b'0', b'0', high, hex_digit(low)])?;
    Ok(())
}

/// Adds a byte of a key.
fn put_byte(out: &mut Vec<u8>, byte: u8) -> Result<(), NoMemory>
    ensures { OnOk result (out.new.items ≡ out.old.items ++ key_byte byte) }
{
    match byte {
        b'"' => out.extend_from_slice(b"\\\"")?,
        b'\\' => out.extend_from_slice(b"\\\\")?,
        0..0x20 => put_control(out, byte)?,
        _ => out.push(byte)?,
    }
    Ok(())
}

/// Adds the key of a new member, in quotes: a quotation mark and a reverse solidus stand behind a
/// reverse solidus, a control character is written by its number, and all else as it is.
pub fn put_key(out: &mut Vec<u8>, name: &[u8]) -> Result<(), NoMemory>
    ensures { OnOk result (out.new.items ≡ out.old.items ++ key_text name.now) }
{
    out.push(b'"')?;
    for byte in name {
        put_byte(out, *byte)?;
    }
    out.push(b'"')?;
    Ok(())
}

/// Adds the keys of objects of one member each, one in the other; false where a part is no name.
fn put_names(out: &mut Vec<u8>, parts: &[Part]) -> Result<bool, NoMemory>
    ensures { IfOk result (λ all. PutsNames out.old.items out.new.items parts.now all) }
{
    for part in parts {
        match part {
            Part::Member(name) => {
                out.push(b'{')?;
                put_key(out, name.as_slice())?;
                out.push(b':')?;
            }
            Part::At(_) => return Ok(false),
            Part::Last => return Ok(false),
        }
    }
    Ok(true)
}

/// The text of a new member under these names, the first outermost, round its value; none where a
/// part is no name or there are no parts.
pub fn around_of(alloc: Global, absent: &[Part]) -> Result<Option<Around>, NoMemory>
    ensures { IfOk result (λ found. IsAround absent.now found) }
{
    let (first, further) = match absent {
        [] => return Ok(None),
        [first, further @ ..] => (first, further),
    };
    let name = match first {
        Part::Member(name) => name,
        Part::At(_) | Part::Last => return Ok(None),
    };
    let mut before = Vec::new(alloc);
    put_key(&mut before, name.as_slice())?;
    before.push(b':')?;
    if !put_names(&mut before, further)? {
        return Ok(None);
    }
    let behind = vec![in alloc; b'}'; further.len()]?;
    Ok(Some(Around {
        before: Bytes::from_vec(before),
        behind: Bytes::from_vec(behind),
    }))
}
