ghost use Rattle.std.specs.Prelude.{◌≡◌, ◌<◌, ◌^◌, length, IfOk, IfErr, OnOk, MatchOption, MatchResult};
ghost use Rattle.std.specs.Prelude.{List, ℕ, [], ◌∷◌, ◌++◌};
ghost use Rattle.std.specs.BTreeSet.{contains};
ghost use Rattle.std.specs.Cmp.Lexicographic.{slice_cmp};
ghost use Rattle.std.specs.Ordering.{nat_cmp};
ghost use Rattle.xattr_body.specs.Section.{Pair, HasNoZero, ArePairs, pairs_bytes, IsSection};
ghost use Rattle.xattr_body.specs.Faults.{IsBehindLength, IsNoSection};
ghost use Rattle.xattr_body.specs.Fields.{SizedAt, NotSized, SplitAt, PartsOf, NoParts};
ghost use Rattle.xattr_body.specs.Fields.{PairAt, NoPairAt, Adds, IsNoPairs};

use crate::LENGTH_SIZE;
use crate::judging::{is_name, is_value};
use crate::xattrs::{XattrFault, Xattrs};
use kv_edge::{Bytes, NoMemory, slice_at, u32_at};
use std::alloc::Global;
use std::collections::BTreeSet;

/// Reads the attributes whose section the bytes are; no bytes are the section of none. Each name is
/// sought once in a tree of the names before it, so that n pairs cost n times the logarithm of n
/// beside the bytes, whatever they are.
pub fn read(alloc: Global, bytes: &[u8]) -> Result<Xattrs, XattrFault>
    ensures found { IfOk result (λ pairs. IsSection pairs bytes.now) }
    ensures only { (pairs : List Pair) → IsSection pairs bytes.now
        → MatchResult result (λ found. found ≡ pairs) (λ fault. fault ≡ XattrFault.NoMemory) }
    ensures broken { IfErr result (IsNoSection bytes.now) }
{
    if bytes.is_empty() {
        return Ok(Xattrs::new(alloc));
    }
    match behind_length(bytes) {
        Some(behind) => match read_pairs(alloc, behind) {
            Ok(pairs) => Ok(Xattrs::from_pairs(pairs)),
            Err(fault) => Err(fault),
        },
        None => Err(XattrFault::Bad(0)),
    }
}

/// What stands behind the length of a section, where the length is the number of these bytes.
fn behind_length(bytes: &[u8]) -> Option<&[u8]>
    ensures { MatchOption result ((behind : List ℕ) → IsBehindLength bytes.now behind → ⊥)
        (λ behind. IsBehindLength bytes.now behind.now) }
{
    match sized_at(bytes) {
        Some((behind, rest)) => {
            if rest.is_empty() && !behind.is_empty() {
                Some(behind)
            } else {
                None
            }
        }
        None => None,
    }
}

/// The bytes behind the length at the front, as many as it says, and the rest.
fn sized_at(bytes: &[u8]) -> Option<(&[u8], &[u8])>
    ensures { MatchOption result (NotSized bytes.now) (λ x. SizedAt bytes.now x.0.now x.1.now) }
{
    match u32_at(bytes) {
        Some((size, rest)) => slice_at(rest, size as usize),
        None => None,
    }
}

/// Reads pairs to the end of the bytes, which stand behind the length of a section.
fn read_pairs(alloc: Global, behind: &[u8]) -> Result<Vec<(Bytes, Bytes)>, XattrFault>
    requires { length behind.now < 2 ^ 32 }
    ensures together { IfOk result (λ pairs. ArePairs pairs.items) }
    ensures spelled { IfOk result (λ pairs. behind.now ≡ pairs_bytes pairs.items) }
    ensures broken { IfErr result (IsNoPairs behind.now) }
{
    let mut pairs = Vec::new(alloc);
    let mut seen = BTreeSet::new(alloc);
    let mut rest = behind;
    while !rest.is_empty() {
        let place = LENGTH_SIZE + (behind.len() - rest.len());
        let (name, value, next) = match pair_at(alloc, rest)? {
            Some(found) => found,
            None => return Err(XattrFault::Bad(place)),
        };
        if !add_name(alloc, &mut seen, name)? {
            return Err(XattrFault::Bad(place));
        }
        add_pair(alloc, &mut pairs, name, value)?;
        rest = next;
    }
    Ok(pairs)
}

/// Puts a name among others, and tells whether it wasn't there.
fn add_name(alloc: Global, names: &mut BTreeSet<Bytes>, name: &[u8]) -> Result<bool, NoMemory>
    ensures { IfOk result (Adds (contains (slice_cmp nat_cmp) names.old)
        (contains (slice_cmp nat_cmp) names.new) name.now) }
{
    let added = names.insert(Bytes::from_slice(alloc, name)?)?;
    Ok(added)
}

/// Adds a pair behind the others.
pub fn add_pair(
    alloc: Global,
    pairs: &mut Vec<(Bytes, Bytes)>,
    name: &[u8],
    value: &[u8],
) -> Result<(), NoMemory>
    ensures { OnOk result (pairs.new.items ≡ pairs.old.items ++ (name.now, value.now) ∷ []) }
{
    let name = Bytes::from_slice(alloc, name)?;
    let value = Bytes::from_slice(alloc, value)?;
    pairs.push((name, value))?;
    Ok(())
}

/// The name and the text of the pair at the front, and the bytes behind it.
fn pair_at(alloc: Global, bytes: &[u8]) -> Result<Option<(&[u8], &[u8], &[u8])>, NoMemory>
    ensures { IfOk result (λ found. MatchOption found (NoPairAt bytes.now)
        (λ x. PairAt bytes.now (x.0.now, x.1.now) x.2.now)) }
{
    let (body, rest) = match sized_at(bytes) {
        Some(found) => found,
        None => return Ok(None),
    };
    let (name, value) = match parts_of(body) {
        Some(found) => found,
        None => return Ok(None),
    };
    if !is_name(name) {
        return Ok(None);
    }
    if !is_value(alloc, value)? {
        return Ok(None);
    }
    Ok(Some((name, value, rest)))
}

/// The name and the text that stand behind the length of a pair, each before 00.
fn parts_of(body: &[u8]) -> Option<(&[u8], &[u8])>
    ensures { MatchOption result (NoParts body.now) (λ x. PartsOf body.now (x.0.now, x.1.now)) }
{
    match split_at_zero(body) {
        Some((name, rest)) => match rest {
            [] => None,
            [value @ .., last] => {
                if *last == 0 {
                    Some((name, value))
                } else {
                    None
                }
            }
        },
        None => None,
    }
}

/// The bytes before the first 00, and those behind it.
pub fn split_at_zero(bytes: &[u8]) -> Option<(&[u8], &[u8])>
    ensures { MatchOption result (HasNoZero bytes.now) (λ x. SplitAt bytes.now x.0.now x.1.now) }
{
    for (i, byte) in bytes.iter().enumerate() {
        if *byte == 0 {
            let (front, rest) = bytes.split_at(i);
            return match rest {
                [] => None,
                [_, back @ ..] => Some((front, back)),
            };
        }
    }
    None
}
