ghost use Rattle.std.specs.Prelude.{◌≡◌, ◌↔◌, IsTrue, IfOk};
ghost use Rattle.json_model.specs.Values.{bracketed};
ghost use Rattle.std.specs.Str.{IsUtf8};
ghost use Rattle.xattr_body.specs.Section.{HasNoZero, IsName, IsValue};

use crate::NAME_LIMIT;
use json_spell::is_json;
use kv_edge::NoMemory;
use std::alloc::Global;
use std::str;

/// Whether bytes are the name of an attribute: 1 to 16 bytes of UTF-8, none of them 00.
pub fn is_name(name: &[u8]) -> bool
    ensures { IsTrue result ↔ IsName name.now }
{
    !name.is_empty() && name.len() <= NAME_LIMIT && has_no_zero(name) && is_utf8(name)
}

/// Whether no byte is 00.
fn has_no_zero(bytes: &[u8]) -> bool
    ensures { IsTrue result ↔ HasNoZero bytes.now }
{
    for byte in bytes {
        if *byte == 0 {
            return false;
        }
    }
    true
}

/// Whether bytes are UTF-8.
fn is_utf8(bytes: &[u8]) -> bool
    ensures { IsTrue result ↔ IsUtf8 bytes.now }
{
    match str::from_utf8(bytes) {
        Ok(_) => true,
        Err(_) => false,
    }
}

/// Whether bytes are the text of an attribute: a JSON text at most 31 deep. The text is judged
/// twice, by itself and between brackets, where it is one deeper.
pub fn is_value(alloc: Global, text: &[u8]) -> Result<bool, NoMemory>
    ensures { IfOk result (λ b. IsTrue b ↔ IsValue text.now) }
{
    if !is_json(text) {
        return Ok(false);
    }
    let array = bracketed(alloc, text)?;
    Ok(is_json(array.as_slice()))
}

/// A text as the one element of an array.
fn bracketed(alloc: Global, text: &[u8]) -> Result<Vec<u8>, NoMemory>
    ensures { IfOk result (λ array. array.items ≡ bracketed text.now) }
{
    let mut array = Vec::with_capacity(alloc, text.len() + 2)?;
    array.push(b'[')?;
    array.extend_from_slice(text)?;
    array.push(b']')?;
    Ok(array)
}
