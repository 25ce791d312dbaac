ghost use Rattle.std.specs.Prelude.{◌≡◌, ◌-◌, ◌<◌, ◌^◌, ◌++◌, min, length, IfOk, OnOk};
ghost use Rattle.std.specs.List.{All};
ghost use Rattle.xattr_body.specs.Section.{pair_body, pair_bytes, pairs_bytes, section_of};
ghost use Rattle.xattr_body.specs.Section.{HaveSection, IsSection};

use crate::LENGTH_SIZE;
use crate::xattrs::Xattrs;
use kv_edge::{Bytes, NoMemory};
use std::alloc::Global;

/// How many bytes stand in a section's pair beside its name and its text: its length, and two 00.
const PAIR_EXTRA: usize = 6;

/// The section of attributes.
pub fn write(alloc: Global, xattrs: &Xattrs) -> Result<Bytes, NoMemory>
    requires { HaveSection xattrs.now }
    ensures { IfOk result (λ bytes. IsSection xattrs.now bytes) }
{
    spelled(alloc, xattrs.pairs())
}

/// The bytes of attributes that a section has, where four bytes can count them. Whether they are
/// attributes that may stand together is not asked here.
pub fn section(alloc: Global, xattrs: &Xattrs) -> Result<Bytes, NoMemory>
    requires { length (section_of xattrs.now) < 2 ^ 32 }
    ensures { IfOk result (λ bytes. bytes ≡ section_of xattrs.now) }
{
    spelled(alloc, xattrs.pairs())
}

/// Pairs in their order behind the length of them all, and no bytes where there are none.
fn spelled(alloc: Global, pairs: &[(Bytes, Bytes)]) -> Result<Bytes, NoMemory>
    requires { length (pairs_bytes pairs.now) < 2 ^ 32 }
    ensures { IfOk result (λ bytes. bytes ≡ section_of pairs.now) }
{
    if pairs.is_empty() {
        return Ok(Bytes::new(alloc));
    }
    let size = pairs_size(pairs);
    let mut out = Vec::with_capacity(alloc, LENGTH_SIZE + size)?;
    out.extend_from_slice(&(size as u32).to_be_bytes())?;
    add_pairs(&mut out, pairs)?;
    Ok(Bytes::from_vec(out))
}

/// How many bytes the section of attributes has; 2^64 - 1 where it has more.
pub fn section_size(xattrs: &Xattrs) -> usize
    ensures { result ≡ min (length (section_of xattrs.now)) (2 ^ 64 - 1) }
{
    let pairs = xattrs.pairs();
    if pairs.is_empty() {
        return 0;
    }
    pairs_size(pairs).saturating_add(LENGTH_SIZE)
}

/// How many bytes pairs have; 2^64 - 1 where they have more.
fn pairs_size(pairs: &[(Bytes, Bytes)]) -> usize
    ensures { result ≡ min (length (pairs_bytes pairs.now)) (2 ^ 64 - 1) }
{
    let mut size: usize = 0;
    for pair in pairs {
        let text = pair.0.len().saturating_add(pair.1.len());
        size = size.saturating_add(text.saturating_add(PAIR_EXTRA));
    }
    size
}

/// Adds pairs in their order.
fn add_pairs(out: &mut Vec<u8>, pairs: &[(Bytes, Bytes)]) -> Result<(), NoMemory>
    requires { All (λ pair. length (pair_body pair) < 2 ^ 32) pairs.now }
    ensures { OnOk result (out.new.items ≡ out.old.items ++ pairs_bytes pairs.now) }
{
    for pair in pairs {
        add_pair(out, pair.0.as_slice(), pair.1.as_slice())?;
    }
    Ok(())
}

/// Adds a pair.
fn add_pair(out: &mut Vec<u8>, name: &[u8], value: &[u8]) -> Result<(), NoMemory>
    requires { length (pair_body (name.now, value.now)) < 2 ^ 32 }
    ensures { OnOk result (out.new.items ≡ out.old.items ++ pair_bytes (name.now, value.now)) }
{
    let size = (name.len() + value.len() + 2) as u32;
    out.extend_from_slice(&size.to_be_bytes())?;
    out.extend_from_slice(name)?;
    out.push(0)?;
    out.extend_from_slice(value)?;
    out.push(0)?;
    Ok(())
}
