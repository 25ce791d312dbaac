//! The attributes of bytes that are known to be a section.

ghost use Rattle.std.specs.Prelude.{◌≡◌, length, IfOk, option_map};
ghost use Rattle.xattr_body.specs.Pairs.{pair_in, pair_at, pairs_from, pairs_in};

use crate::reading::{add_pair, split_at_zero};
use crate::xattrs::Xattrs;
use kv_edge::{Bytes, NoMemory, slice_at, u32_at};
use std::alloc::Global;

/// The attributes of a section that is known to be one, as what a document keeps. No text is judged
/// and no name sought among the others, so that it costs what the bytes are. Of bytes that are no
/// section it gives the pairs at their front.
pub fn pairs_of(alloc: Global, bytes: &[u8]) -> Result<Xattrs, NoMemory>
    ensures { IfOk result (λ pairs. pairs ≡ pairs_in bytes.now) }
{
    match u32_at(bytes) {
        Some((_, behind)) => Ok(Xattrs::from_pairs(front_pairs(alloc, behind)?)),
        None => Ok(Xattrs::new(alloc)),
    }
}

/// The pairs at the front of bytes.
fn front_pairs(alloc: Global, bytes: &[u8]) -> Result<Vec<(Bytes, Bytes)>, NoMemory>
    ensures { IfOk result (λ pairs. pairs.items ≡ pairs_from (length bytes.now) bytes.now) }
{
    let mut pairs = Vec::new(alloc);
    let mut rest = bytes;
    while let Some((name, value, next)) = first_pair(rest) {
        add_pair(alloc, &mut pairs, name, value)?;
        rest = next;
    }
    Ok(pairs)
}

/// The name and the text of the pair at the front of bytes that are known to be pairs, and the bytes
/// behind it; none where there is no pair. The bytes of a section stand behind its length.
#[tactic(auto, unfolding(crate::specs::Pairs::pair_at))]
pub fn first_pair(bytes: &[u8]) -> Option<(&[u8], &[u8], &[u8])>
    ensures { option_map (λ x. ((x.0.now, x.1.now), x.2.now)) result ≡ pair_at bytes.now }
{
    let (size, behind) = u32_at(bytes)?;
    let (body, rest) = slice_at(behind, size as usize)?;
    let (name, value) = parts_in(body)?;
    Some((name, value, rest))
}

/// The name and the text that stand behind the length of a pair: what is before the first 00, and
/// what is from there to the last byte.
fn parts_in(body: &[u8]) -> Option<(&[u8], &[u8])>
    ensures { option_map (λ x. (x.0.now, x.1.now)) result ≡ pair_in body.now }
{
    match split_at_zero(body) {
        Some((name, rest)) => match rest {
            [] => Some((name, rest)),
            [value @ .., _] => Some((name, value)),
        },
        None => None,
    }
}
