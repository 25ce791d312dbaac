//! The blanks round a text.

ghost use Rattle.std.specs.Prelude.{◌≡◌, reverse, IfOk};
ghost use Rattle.std.specs.Option.{option_copied};
ghost use Rattle.json_spell.specs.Tokens.{is_blank, gap};
ghost use Rattle.xattr_step.specs.Answers.{blanks_before, blanks_behind, within_blanks};

use kv_edge::{Bytes, NoMemory};
use std::alloc::Global;

/// Whether a byte is a blank.
fn is_blank(byte: u8) -> bool
    ensures { result ≡ is_blank byte }
{
    match byte {
        b' ' | b'\t' | b'\n' | b'\r' => true,
        _ => false,
    }
}

/// The blanks at the front.
fn blanks_before(text: &[u8]) -> &[u8]
    ensures { result.now ≡ blanks_before text.now }
{
    for (i, byte) in text.iter().enumerate() {
        if !is_blank(*byte) {
            let (blanks, _) = text.split_at(i);
            return blanks;
        }
    }
    text
}

/// The blanks at the end.
fn blanks_behind(text: &[u8]) -> &[u8]
    ensures { result.now ≡ blanks_behind text.now }
{
    let mut front = text;
    while let [before @ .., last] = front {
        if !is_blank(*last) {
            let (_, blanks) = text.split_at(front.len());
            return blanks;
        }
        front = before;
    }
    text
}

/// A new text between the blanks that stand round the old one, where there is one.
pub fn within_blanks(alloc: Global, old: Option<&Bytes>, text: &[u8]) -> Result<Bytes, NoMemory>
    ensures { IfOk result (λ bytes. bytes ≡ within_blanks (option_copied old.entry) text.now) }
{
    match old {
        None => Bytes::from_slice(alloc, text),
        Some(old) => {
            let mut out = Vec::with_capacity(alloc, text.len())?;
            out.extend_from_slice(blanks_before(old.as_slice()))?;
            out.extend_from_slice(text)?;
            out.extend_from_slice(blanks_behind(old.as_slice()))?;
            Ok(Bytes::from_vec(out))
        }
    }
}
