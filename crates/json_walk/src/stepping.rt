//! Steps over what is at the front of bytes.

ghost use Rattle.std.specs.Prelude.{◌≡◌, drop, unwrap_or};
ghost use Rattle.json_model.specs.declared.kinds.Kind.TheVariants as kinds;
ghost use Rattle.json_spell.specs.Tokens.{behind_gap, kind_at};
ghost use Rattle.json_walk.specs.Stepping.{ends_word, behind_word, behind_string, closed_at};
ghost use Rattle.json_walk.specs.Stepping.{behind_value, behind_key, behind_colon};

use json_model::{Kind, Shape};

/// The bytes behind the first one.
fn behind_byte(bytes: &[u8]) -> &[u8]
    ensures { result.now ≡ drop 1 bytes.now }
{
    match bytes {
        [] => bytes,
        [_, behind @ ..] => behind,
    }
}

/// The bytes behind the blanks at the front.
#[tactic(auto, unfolding(json_spell::specs::Tokens::behind_gap))]
pub fn skip_blanks(bytes: &[u8]) -> &[u8]
    ensures { result.now ≡ behind_gap bytes.now }
{
    let mut rest = bytes;
    while let [b' ' | b'\t' | b'\n' | b'\r', behind @ ..] = rest {
        rest = behind;
    }
    rest
}

/// Whether a number or a word ends before this byte.
fn ends_word(byte: u8) -> bool
    ensures { result ≡ ends_word byte }
{
    matches!(byte, b' ' | b'\t' | b'\n' | b'\r' | b',' | b'}' | b']')
}

/// The bytes behind a number or a word.
#[tactic(auto, unfolding(crate::specs::Stepping::behind_word))]
fn behind_word(bytes: &[u8]) -> &[u8]
    ensures { result.now ≡ behind_word bytes.now }
{
    let mut rest = bytes;
    while let [byte, behind @ ..] = rest {
        if ends_word(*byte) {
            return rest;
        }
        rest = behind;
    }
    rest
}

/// The bytes behind a string, from behind its opening quotation mark on.
#[tactic(auto, using(crate::proofs::Strings::skip_step), unfolding(crate::specs::Stepping::behind_string))]
fn behind_string(bytes: &[u8]) -> &[u8]
    ensures { result.now ≡ behind_string bytes.now }
{
    let mut rest = bytes;
    while let [byte, behind @ ..] = rest {
        match *byte {
            b'"' => return behind,
            b'\\' => rest = behind_byte(behind),
            _ => rest = behind,
        }
    }
    rest
}

/// The bytes behind an object or an array, from behind its opening bracket on.
#[tactic(auto, using(crate::proofs::Strings::string_whole, crate::proofs::Shorter::string_short), unfolding(crate::specs::Stepping::closed_at))]
fn behind_group(bytes: &[u8]) -> &[u8]
    ensures { result.now ≡ closed_at 0 bytes.now }
{
    let mut depth = 0usize;
    let mut rest = bytes;
    while let [byte, behind @ ..] = rest {
        match *byte {
            b'"' => rest = behind_string(behind),
            b'{' | b'[' => {
                depth += 1;
                rest = behind;
            }
            b'}' | b']' => {
                if depth == 0 {
                    return behind;
                }
                depth -= 1;
                rest = behind;
            }
            _ => rest = behind,
        }
    }
    rest
}

/// The bytes behind a value.
pub fn behind_value(bytes: &[u8]) -> &[u8]
    ensures { result.now ≡ behind_value bytes.now }
{
    match bytes {
        [] => bytes,
        [byte, behind @ ..] => match *byte {
            b'"' => behind_string(behind),
            b'{' | b'[' => behind_group(behind),
            _ => behind_word(bytes),
        },
    }
}

/// The bytes behind a part's key, if it has one.
pub fn behind_key(shape: Shape, bytes: &[u8]) -> &[u8]
    ensures { result.now ≡ behind_key shape bytes.now }
{
    match shape {
        Shape::Object => behind_value(bytes),
        Shape::Array => bytes,
    }
}

/// A part's value, from behind its key on.
pub fn behind_colon(shape: Shape, bytes: &[u8]) -> &[u8]
    ensures { result.now ≡ behind_colon shape bytes.now }
{
    match shape {
        Shape::Object => skip_blanks(behind_byte(skip_blanks(bytes))),
        Shape::Array => bytes,
    }
}

/// The kind of value that a byte begins.
pub fn kind_of(byte: u8) -> Kind
    ensures { result ≡ unwrap_or (kind_at byte) kinds.Null }
{
    match byte {
        b'{' => Kind::Object,
        b'[' => Kind::Array,
        b'"' => Kind::Text,
        b'-' | b'0'..=b'9' => Kind::Number,
        b't' => Kind::True,
        b'f' => Kind::False,
        _ => Kind::Null,
    }
}
