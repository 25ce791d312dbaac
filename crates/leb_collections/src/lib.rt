//! Collection ids, as they stand in front of a document's key on the wire: unsigned LEB128, each
//! id in its shortest spelling alone.
//!
//! # The format
//!
//! An id is a number below 2^32. It is cut into groups of seven bits, the lowest first, one group a
//! byte. The top bit of a byte (`80`) says that another byte follows.
//!
//! ```text
//! place    low seven bits            top bit
//! 0        bits 0 to 6 of the id     set unless this is the last byte
//! 1        bits 7 to 13              the same
//! 2        bits 14 to 20             the same
//! 3        bits 21 to 27             the same
//! 4        bits 28 to 31             never set: the byte is at most 0f
//! ```
//!
//! Bytes are a valid spelling if and only if
//!
//! 1. there are one to five of them,
//! 2. all but the last have the top bit, and the last has not,
//! 3. a fifth byte is at most `0f`, so that the number is below 2^32, and
//! 4. with several of them the last isn't `00`.
//!
//! LEB128 itself allows padding: `80 00` and `00` are both 0 there. Here the fourth condition
//! forbids it: an id and the key behind it are one run of bytes, and a document must not be
//! reachable under two of them. So each id has one spelling, and no spelling begins another: an id
//! needs no length in front of it, and what follows it can't change it.
//!
//! # A worked example
//!
//! The id 12857 is `11 0010 0011 1001` in binary. Its low seven bits are `011 1001` (`39`), and the
//! seven above them are `110 0100` (`64`). The first byte gets the top bit, so the spelling is
//! `b9 64`: 57 + 128 * 100. In front of the key `key` the wire has `b9 64 6b 65 79`, of which the
//! id takes 2.
//!
//! ```text
//! id             bytes
//! 0              00                   the default collection
//! 127            7f                   the last id of one byte
//! 128            80 01
//! 4294967295     ff ff ff ff 0f       the last id
//! none           80                   Short: the byte that should follow isn't there
//! none           ff ff ff ff 1f       Long: 33 bits
//! none           80 00                NotShortest: 0 is spelled 00
//! ```
#![tactic(auto)]

ghost use Rattle.std.specs.Prelude.{◌≡◌, ℕ, ◌+◌, ◌*◌, ◌%◌, ◌^◌, ◌<◌, ◌≤◌, ◌↔◌, List, length, ◌++◌, take, drop, Some, None, IfOk, OnErr};
ghost use Rattle.leb_collections.specs.Leb128.{AreBytes, IsShortest, IsShort, IsLong, IsNotShortest};
ghost use Rattle.leb_collections.specs.Functions.{id_at, id_bytes};

#[cfg(test)]
mod tests;

/// The bit of a byte that says that another one follows.
const TOP_BIT: u8 = 0x80;

/// The place of the last byte that a spelling can have.
const LAST_PLACE: usize = 4;

/// The most that the byte at the last place can be, since four bits of the id are left for it.
const LAST_MOST: u8 = 0x0f;

/// Why bytes don't begin with a collection id.
#[derive(Clone, Copy, Debug, PartialEq, Eq)]
pub enum LebFault {
    /// The bytes run out while each still announces another.
    Short,
    /// A fifth byte brings more than four bits, or announces a sixth: the id would pass 32 bits.
    Long,
    /// The spelling ends with `00` behind other bytes, so one byte less would do.
    NotShortest,
}

/// The low seven bits of a byte, times 128 to the power of its place.
fn weighed(byte: u8, place: usize) -> u32
    requires place { place ≤ 4 }
    requires fits { place ≡ 4 → byte ≤ 15 }
    ensures { result ≡ byte % 128 * 128 ^ place }
{
    u32::from(byte & 0x7f) << (7 * place)
}

/// Reads the collection id at the front of `bytes`, and answers it with the number of bytes that it
/// takes, 1 to 5. Other bytes may follow it.
///
/// An error comes exactly where its description holds, and no two of them hold of the same bytes.
/// No bytes at all are `Short`.
pub fn read_id(bytes: &[u8]) -> Result<(u32, usize), LebFault>
    // What is read is spelled so by the bytes that it takes.
    ensures found { IfOk result (λ read.
        (read.1 ≤ length bytes.now) × IsShortest read.0 (take read.1 bytes.now)) }
    // Where a spelling stands at the front, that number is read, whatever follows it.
    ensures only { (n : ℕ) (spelling rest : List ℕ) →
        IsShortest n spelling → bytes.now ≡ spelling ++ rest → result ≡ Ok (n, length spelling) }
    ensures short { (result ≡ Err LebFault.Short) ↔ IsShort bytes.now }
    ensures long { (result ≡ Err LebFault.Long) ↔ IsLong bytes.now }
    ensures not_shortest { (result ≡ Err LebFault.NotShortest) ↔ IsNotShortest bytes.now }
    // The same as a function.
    ensures reads { IfOk result (λ read. id_at bytes.now ≡ Some (read.0, drop read.1 bytes.now)) }
    ensures fails { OnErr result (id_at bytes.now ≡ None) }
{
    let mut id = 0;
    for (place, &byte) in bytes.iter().enumerate() {
        // The last place also ends the loop: what isn't too long there has no top bit.
        if place == LAST_PLACE && byte > LAST_MOST {
            return Err(LebFault::Long);
        }
        id += weighed(byte, place);
        if byte < TOP_BIT {
            if byte == 0 && place > 0 {
                return Err(LebFault::NotShortest);
            }
            return Ok((id, place + 1));
        }
    }
    Err(LebFault::Short)
}

/// The low seven bits of a number that has more, in a byte that says that another one follows.
fn continued(number: u32) -> u8
    ensures { result ≡ number % 128 + 128 }
{
    (number & 0x7f) as u8 | TOP_BIT
}

/// Writes the spelling of `id` to the front of `out`, and answers how many bytes it has, 1 to 5. The
/// other bytes of `out` stay as they were.
pub fn write_id(id: u32, out: &mut [u8; 5]) -> usize
    ensures within { (1 ≤ result) × (result ≤ 5) }
    ensures spelled { IsShortest id (take result out.new) }
    ensures writes { take result out.new ≡ id_bytes id }
    ensures kept { drop result out.new ≡ drop result out.old }
{
    let mut rest = id;
    let mut used = 0;
    while rest >= 0x80 {
        out[used] = continued(rest);
        rest >>= 7;
        used += 1;
    }
    out[used] = rest as u8;
    used + 1
}

/// A law: each number below 2^32 has a shortest spelling, and no more than one.
pub fn one_spelling()
    ensures exists { (n : ℕ) → n < 2 ^ 32 → (spelling : List ℕ) × IsShortest n spelling }
    ensures unique { (n : ℕ) (a b : List ℕ) → IsShortest n a → IsShortest n b → a ≡ b }
{}

/// A law: no spelling begins another, so bytes begin with one spelling at most.
pub fn no_spelling_begins_another()
    ensures { (m n : ℕ) (a b x y : List ℕ) →
        IsShortest m a → IsShortest n b → a ++ x ≡ b ++ y → (a ≡ b) × (m ≡ n) }
{}

/// A law: reading and writing as functions are the relation between ids and spellings.
pub fn reading_and_writing()
    ensures reads { (n : ℕ) (spelling rest : List ℕ) → IsShortest n spelling → id_at (spelling ++ rest) ≡ Some (n, rest) }
    ensures told { (n : ℕ) (bytes rest : List ℕ) → AreBytes bytes → id_at bytes ≡ Some (n, rest) →
        (spelling : List ℕ) × (bytes ≡ spelling ++ rest) × IsShortest n spelling }
    ensures writes { (n : ℕ) → n < 2 ^ 32 → IsShortest n (id_bytes n) }
{}
