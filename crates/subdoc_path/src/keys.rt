//! Whether the text of a key stands for a name, character by character, without memory.

ghost use Rattle.std.specs.Prelude.{◌≡◌, ◌<◌, ◌≤◌, ◌-◌, ◌↔◌, IsTrue, length, take, drop};
ghost use Rattle.std.specs.Prelude.{IfSome, None, option_map};
ghost use Rattle.std.specs.Option.{option_copied};
ghost use Rattle.json_model.specs.Grammar.{IsString};
ghost use Rattle.json_model.specs.Decoding.{StandsFor, utf8, hex, escaped};
ghost use Rattle.subdoc_path.specs.Matching.{strip_left, unit_left, plain_left, ended, matches};
ghost use Rattle.subdoc_path.specs.Matching.{digits_left, escape_left, letter_left};

/// What is left of a name behind these bytes.
#[tactic(auto, unfolding(crate::specs::Matching::strip_left))]
fn strip_left<'a>(front: &[u8], name: &'a [u8]) -> Option<&'a [u8]>
    ensures { option_copied result ≡ strip_left front.now name.now }
{
    let mut wanted = front;
    let mut left = name;
    while let [byte, later @ ..] = wanted {
        match left {
            [first, behind @ ..] if *first == *byte => {
                wanted = later;
                left = behind;
            }
            _ => return None,
        }
    }
    Some(left)
}

/// What is left of a name behind this character.
fn strip_utf8<'a>(n: u32, name: &'a [u8]) -> Option<&'a [u8]>
    requires { n < 0x110000 }
    ensures { option_copied result ≡ strip_left (utf8 n) name.now }
{
    let low = (0x80 + n % 64) as u8;
    let middle = (0x80 + n / 64 % 64) as u8;
    if n < 0x80 {
        strip_left(&[n as u8], name)
    } else if n < 0x800 {
        strip_left(&[(0xc0 + n / 64) as u8, low], name)
    } else if n < 0x10000 {
        strip_left(&[(0xe0 + n / 4096) as u8, middle, low], name)
    } else {
        strip_left(
            &[
                (0xf0 + n / 262144) as u8,
                (0x80 + n / 4096 % 64) as u8,
                middle,
                low,
            ],
            name,
        )
    }
}

/// The number that a hexadecimal digit stands for.
fn hex(x: u8) -> u32
    ensures is { result ≡ hex x }
    ensures small { result ≤ 168 }
{
    if x < 0x41 {
        x.saturating_sub(0x30) as u32
    } else if x < 0x61 {
        (x - 0x37) as u32
    } else {
        (x - 0x57) as u32
    }
}

/// What is left of a name behind this code unit, and the surrogate that waits for another.
fn unit_left<'a>(waiting: Option<u32>, n: u32, name: &'a [u8]) -> Option<(Option<u32>, &'a [u8])>
    requires small { n < 0x110000 }
    requires waits { IfSome waiting (λ high. high < 0xdc00) }
    ensures left { option_map (λ x. (x.0, x.1.now)) result ≡ unit_left waiting n name.now }
    ensures waits { IfSome result (λ x. IfSome x.0 (λ high. high < 0xdc00)) }
{
    match waiting {
        None => {
            if n >= 0xd800 && n < 0xdc00 {
                return Some((Some(n), name));
            }
            if n >= 0xdc00 && n < 0xe000 {
                return None;
            }
            let left = strip_utf8(n, name)?;
            Some((None, left))
        }
        Some(high) => {
            if n >= 0xdc00 && n < 0xe000 {
                let left = strip_utf8(
                    0x10000 + (1024 * high.saturating_sub(0xd800) + (n - 0xdc00)),
                    name,
                )?;
                return Some((None, left));
            }
            None
        }
    }
}

/// What is left of a name behind a byte that stands for itself.
fn plain_left<'a>(waiting: Option<u32>, x: u8, name: &'a [u8]) -> Option<(Option<u32>, &'a [u8])>
    ensures left { option_map (λ x. (x.0, x.1.now)) result ≡ plain_left waiting x name.now }
    ensures waits { IfSome result (λ x. IfSome x.0 (λ high. high < 0xdc00)) }
{
    match waiting {
        Some(_) => None,
        None => {
            let left = strip_left(&[x], name)?;
            Some((None, left))
        }
    }
}

/// What a letter behind a reverse solidus stands for.
fn escaped(x: u8) -> u8
    ensures { result ≡ escaped x }
{
    match x {
        b'b' => 0x08,
        b'f' => 0x0c,
        b'n' => 0x0a,
        b'r' => 0x0d,
        b't' => 0x09,
        _ => x,
    }
}

/// Behind an escape of four digits.
fn digits_left<'a, 'b>(
    waiting: Option<u32>,
    bytes: &'b [u8],
    name: &'a [u8],
) -> Option<(Option<u32>, &'b [u8], &'a [u8])>
    requires { IfSome waiting (λ high. high < 0xdc00) }
    ensures left { option_map (λ x. (x.0, x.1.now, x.2.now)) result
        ≡ digits_left waiting bytes.now name.now }
    ensures shorter { IfSome result (λ x. length x.1.now < length bytes.now) }
    ensures waits { IfSome result (λ x. IfSome x.0 (λ high. high < 0xdc00)) }
{
    match bytes {
        [a, b, c, d, behind @ ..] => {
            let n = 4096 * hex(*a) + 256 * hex(*b) + 16 * hex(*c) + hex(*d);
            let (next, left) = unit_left(waiting, n, name)?;
            Some((next, behind, left))
        }
        _ => None,
    }
}

/// Behind an escape.
fn escape_left<'a, 'b>(
    waiting: Option<u32>,
    bytes: &'b [u8],
    name: &'a [u8],
) -> Option<(Option<u32>, &'b [u8], &'a [u8])>
    requires { IfSome waiting (λ high. high < 0xdc00) }
    ensures left { option_map (λ x. (x.0, x.1.now, x.2.now)) result
        ≡ escape_left waiting bytes.now name.now }
    ensures shorter { IfSome result (λ x. length x.1.now < length bytes.now) }
    ensures waits { IfSome result (λ x. IfSome x.0 (λ high. high < 0xdc00)) }
{
    match bytes {
        [] => None,
        [letter, behind @ ..] => {
            if *letter == b'u' {
                return digits_left(waiting, behind, name);
            }
            let (next, left) = plain_left(waiting, escaped(*letter), name)?;
            Some((next, behind, left))
        }
    }
}

/// Behind a byte or an escape.
fn letter_left<'a, 'b>(
    waiting: Option<u32>,
    bytes: &'b [u8],
    name: &'a [u8],
) -> Option<(Option<u32>, &'b [u8], &'a [u8])>
    requires { IfSome waiting (λ high. high < 0xdc00) }
    ensures left { option_map (λ x. (x.0, x.1.now, x.2.now)) result
        ≡ letter_left waiting bytes.now name.now }
    ensures shorter { IfSome result (λ x. length x.1.now < length bytes.now) }
    ensures waits { IfSome result (λ x. IfSome x.0 (λ high. high < 0xdc00)) }
{
    match bytes {
        [] => None,
        [byte, behind @ ..] => {
            if *byte == b'\\' {
                return escape_left(waiting, behind, name);
            }
            let (next, left) = plain_left(waiting, *byte, name)?;
            Some((next, behind, left))
        }
    }
}

/// Whether a string may end here.
fn ended(waiting: Option<u32>, left: &[u8]) -> bool
    ensures { result ≡ ended waiting left.now }
{
    match waiting {
        None => left.is_empty(),
        Some(_) => false,
    }
}

/// Whether the bytes up to the quotation mark stand for this name.
fn spells(inner: &[u8], name: &[u8]) -> bool
    ensures { result ≡ matches None inner.now name.now }
{
    let mut waiting = None;
    let mut rest = inner;
    let mut left = name;
    while let [byte, ..] = rest {
        if *byte == b'"' {
            return ended(waiting, left);
        }
        match letter_left(waiting, rest, left) {
            None => return false,
            Some((next, behind, after)) => {
                waiting = next;
                rest = behind;
                left = after;
            }
        }
    }
    false
}

/// Whether the text of a string stands for these characters.
pub fn stands_for(key: &[u8], name: &[u8]) -> bool
    requires { IsString key.now }
    ensures { IsTrue result ↔ StandsFor key.now name.now }
{
    match key {
        [] => false,
        [_, inner @ ..] => spells(inner, name),
    }
}

/// The bytes from one place to another.
pub fn cut(bytes: &[u8], from: usize, to: usize) -> &[u8]
    requires { (from ≤ to) × (to ≤ length bytes.now) }
    ensures { result.now ≡ take (to - from) (drop from bytes.now) }
{
    let (_, back) = bytes.split_at(from);
    let (front, _) = back.split_at(to - from);
    front
}
