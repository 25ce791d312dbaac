ghost use Rattle.std.specs.Prelude.{◌≡◌, ◌≤◌, length, IsTrue, Some};
ghost use Rattle.json_spell.specs.Tokens.{seen, next, ends, end_here, run};
ghost use Rattle.json_spell.specs.Tokens.{spelled_at, behind_gap, kind_at};

use json_model::Kind;

/// Why reading stopped.
#[derive(Clone, Copy, Debug, PartialEq, Eq)]
pub enum Stop {
    /// A byte is wrong, or the bytes end too early: so many are left, that byte among them.
    Not(usize),
    /// A bracket opens too deep: so many bytes are left, it among them.
    Deep(usize),
    /// Memory was refused.
    NoMemory,
}

/// Where a string or a number has been read to.
#[derive(Clone, Copy, Debug, PartialEq, Eq)]
pub enum Mode {
    /// Between characters of a string.
    Inside,
    /// In a character: the next byte is in this range, and so many bytes follow it.
    Tail { least: u8, most: u8, more: u8 },
    /// Behind a reverse solidus.
    Escape,
    /// In an escape, with so many digits missing behind the next.
    Hex(u8),
    /// Behind a string.
    Closed,
    /// Before a number.
    Start,
    /// Behind a minus.
    Minus,
    /// Behind a 0 that begins a number.
    Zero,
    /// In a whole number.
    Whole,
    /// Behind a point.
    Point,
    /// In a fraction.
    Fraction,
    /// Behind an e.
    Mark,
    /// Behind the sign of an exponent.
    Sign,
    /// In an exponent.
    Exponent,
}

/// The mode behind a byte that begins a character, or that ends the string.
fn next_inside(byte: u8) -> Option<Mode>
    ensures { result ≡ next Mode.Inside byte }
{
    match byte {
        b'"' => Some(Mode::Closed),
        b'\\' => Some(Mode::Escape),
        0x20..=0x7f => Some(Mode::Inside),
        0xc2..=0xdf => Some(Mode::Tail {
            least: 0x80,
            most: 0xbf,
            more: 0,
        }),
        0xe0 => Some(Mode::Tail {
            least: 0xa0,
            most: 0xbf,
            more: 1,
        }),
        0xed => Some(Mode::Tail {
            least: 0x80,
            most: 0x9f,
            more: 1,
        }),
        0xe1..=0xef => Some(Mode::Tail {
            least: 0x80,
            most: 0xbf,
            more: 1,
        }),
        0xf0 => Some(Mode::Tail {
            least: 0x90,
            most: 0xbf,
            more: 2,
        }),
        0xf4 => Some(Mode::Tail {
            least: 0x80,
            most: 0x8f,
            more: 2,
        }),
        0xf1..=0xf3 => Some(Mode::Tail {
            least: 0x80,
            most: 0xbf,
            more: 2,
        }),
        _ => None,
    }
}

/// The mode behind a byte, where the byte goes on.
fn next(mode: Mode, byte: u8) -> Option<Mode>
    ensures { result ≡ next mode byte }
{
    match mode {
        Mode::Inside => next_inside(byte),
        Mode::Tail { least, most, more } => {
            if byte < least || byte > most {
                None
            } else if more == 0 {
                Some(Mode::Inside)
            } else {
                Some(Mode::Tail {
                    least: 0x80,
                    most: 0xbf,
                    more: more - 1,
                })
            }
        }
        Mode::Escape => match byte {
            b'u' => Some(Mode::Hex(3)),
            b'"' | b'\\' | b'/' | b'b' | b'f' | b'n' | b'r' | b't' => Some(Mode::Inside),
            _ => None,
        },
        Mode::Hex(more) => match byte {
            b'0'..=b'9' | b'A'..=b'F' | b'a'..=b'f' => {
                if more == 0 {
                    Some(Mode::Inside)
                } else {
                    Some(Mode::Hex(more - 1))
                }
            }
            _ => None,
        },
        Mode::Closed => None,
        Mode::Start => match byte {
            b'-' => Some(Mode::Minus),
            b'0' => Some(Mode::Zero),
            b'1'..=b'9' => Some(Mode::Whole),
            _ => None,
        },
        Mode::Minus => match byte {
            b'0' => Some(Mode::Zero),
            b'1'..=b'9' => Some(Mode::Whole),
            _ => None,
        },
        Mode::Zero => match byte {
            b'.' => Some(Mode::Point),
            b'e' | b'E' => Some(Mode::Mark),
            _ => None,
        },
        Mode::Whole => match byte {
            b'0'..=b'9' => Some(Mode::Whole),
            b'.' => Some(Mode::Point),
            b'e' | b'E' => Some(Mode::Mark),
            _ => None,
        },
        Mode::Point => match byte {
            b'0'..=b'9' => Some(Mode::Fraction),
            _ => None,
        },
        Mode::Fraction => match byte {
            b'0'..=b'9' => Some(Mode::Fraction),
            b'e' | b'E' => Some(Mode::Mark),
            _ => None,
        },
        Mode::Mark => match byte {
            b'+' | b'-' => Some(Mode::Sign),
            b'0'..=b'9' => Some(Mode::Exponent),
            _ => None,
        },
        Mode::Sign | Mode::Exponent => match byte {
            b'0'..=b'9' => Some(Mode::Exponent),
            _ => None,
        },
    }
}

/// Whether a string or a number may end here.
fn ends(mode: Mode) -> bool
    ensures { result ≡ ends mode }
{
    match mode {
        Mode::Closed | Mode::Zero | Mode::Whole | Mode::Fraction | Mode::Exponent => true,
        _ => false,
    }
}

/// The bytes from here on, where a string or a number may end here.
fn end_here(mode: Mode, bytes: &[u8]) -> Result<&[u8], Stop>
    ensures { seen (λ rest. rest.now) result ≡ end_here mode bytes.now }
{
    if ends(mode) {
        Ok(bytes)
    } else {
        Err(Stop::Not(bytes.len()))
    }
}

/// Whether a byte is a whole character that stands for itself in a string.
fn is_plain(byte: u8) -> bool
    ensures { IsTrue result → next Mode.Inside byte ≡ Some Mode.Inside }
{
    matches!(byte, 0x20..=0x21 | 0x23..=0x5b | 0x5d..=0x7f)
}

/// The bytes behind the plain characters of a string: most strings have no others, and this loop is
/// shorter than that of `run`.
fn skip_plain(bytes: &[u8]) -> &[u8]
    ensures read { run Mode.Inside result.now ≡ run Mode.Inside bytes.now }
    ensures within { length result.now ≤ length bytes.now }
{
    let mut rest = bytes;
    while let [byte, behind @ ..] = rest {
        if !is_plain(*byte) {
            return rest;
        }
        rest = behind;
    }
    rest
}

/// The bytes behind those that leave the mode as it is.
fn skip(mode: Mode, bytes: &[u8]) -> &[u8]
    ensures read { run mode result.now ≡ run mode bytes.now }
    ensures within { length result.now ≤ length bytes.now }
{
    match mode {
        Mode::Inside => skip_plain(bytes),
        _ => bytes,
    }
}

/// The bytes behind a string or a number that is read from this mode on, as far as it goes.
#[tactic(auto, unfolding(crate::specs::Tokens::run))]
pub fn run(mode: Mode, bytes: &[u8]) -> Result<&[u8], Stop>
    ensures { seen (λ rest. rest.now) result ≡ run mode bytes.now }
{
    let mut mode = mode;
    let mut rest = skip(mode, bytes);
    while let [byte, behind @ ..] = rest {
        match next(mode, *byte) {
            Some(then) => {
                mode = then;
                rest = skip(mode, behind);
            }
            None => return end_here(mode, rest),
        }
    }
    end_here(mode, rest)
}

/// The bytes behind a word that they are to begin with.
#[tactic(auto, unfolding(crate::specs::Tokens::spelled_at))]
pub fn spelled_at<'a>(word: &[u8], bytes: &'a [u8]) -> Result<&'a [u8], Stop>
    ensures { seen (λ rest. rest.now) result ≡ spelled_at word.now bytes.now }
{
    let mut left = word;
    let mut rest = bytes;
    while let [letter, later @ ..] = left {
        match rest {
            [byte, behind @ ..] if *byte == *letter => {
                left = later;
                rest = behind;
            }
            _ => return Err(Stop::Not(rest.len())),
        }
    }
    Ok(rest)
}

/// The bytes behind the blanks at the front.
#[tactic(auto, unfolding(crate::specs::Tokens::behind_gap))]
pub fn skip_blanks(bytes: &[u8]) -> &[u8]
    ensures { result.now ≡ behind_gap bytes.now }
{
    let mut rest = bytes;
    while let [b' ' | b'\t' | b'\n' | b'\r', behind @ ..] = rest {
        rest = behind;
    }
    rest
}

/// The kind of value that a byte begins.
pub fn kind_at(byte: u8) -> Option<Kind>
    ensures { result ≡ kind_at byte }
{
    match byte {
        b'{' => Some(Kind::Object),
        b'[' => Some(Kind::Array),
        b'"' => Some(Kind::Text),
        b'-' | b'0'..=b'9' => Some(Kind::Number),
        b't' => Some(Kind::True),
        b'f' => Some(Kind::False),
        b'n' => Some(Kind::Null),
        _ => None,
    }
}
