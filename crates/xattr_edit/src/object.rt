//! A document's attributes as one JSON object.

ghost use Rattle.std.specs.Prelude.{◌≡◌, ◌++◌, length, IfOk, OnOk};
ghost use Rattle.xattr_body.specs.Pairs.{pairs_from, pairs_in};
ghost use Rattle.xattr_step.specs.Object.{member_text, further_text, members_text, object_text};

use kv_edge::{Bytes, NoMemory, u32_at};
use std::alloc::Global;
use subdoc_edit::put_key;
use xattr_body::first_pair;

/// The object of the attributes of a section that is known to be one: its members are the
/// attributes in their order, each text with the blanks round it. Of no bytes it is `{}`.
pub fn object_of(alloc: Global, section: &[u8]) -> Result<Bytes, NoMemory>
    ensures { IfOk result (λ text. text ≡ object_text (pairs_in section.now)) }
{
    // A member has fewer bytes than its pair, but for what is escaped in its key.
    let mut out = Vec::with_capacity(alloc, section.len() + 2)?;
    out.push(b'{')?;
    put_members(&mut out, behind_length(section))?;
    out.push(b'}')?;
    Ok(Bytes::from_vec(out))
}

/// The pairs of a section: what stands behind its length. Where no length is there, no pair is in
/// the bytes themselves.
fn behind_length(section: &[u8]) -> &[u8]
    ensures { pairs_from (length result.now) result.now ≡ pairs_in section.now }
{
    match u32_at(section) {
        Some((_, pairs)) => pairs,
        None => section,
    }
}

/// Adds the members that the pairs at the front of bytes are, with commas between.
fn put_members(out: &mut Vec<u8>, pairs: &[u8]) -> Result<(), NoMemory>
    ensures { OnOk result (out.new.items
        ≡ out.old.items ++ members_text (pairs_from (length pairs.now) pairs.now)) }
{
    match first_pair(pairs) {
        None => Ok(()),
        Some((name, text, rest)) => {
            put_member(out, name, text)?;
            put_further(out, rest)
        }
    }
}

/// Adds the members that the pairs at the front of bytes are, each behind a comma.
fn put_further(out: &mut Vec<u8>, pairs: &[u8]) -> Result<(), NoMemory>
    ensures { OnOk result (out.new.items
        ≡ out.old.items ++ further_text (pairs_from (length pairs.now) pairs.now)) }
{
    let mut rest = pairs;
    while let Some((name, text, next)) = first_pair(rest) {
        out.push(b',')?;
        put_member(out, name, text)?;
        rest = next;
    }
    Ok(())
}

/// Adds the member that an attribute is.
fn put_member(out: &mut Vec<u8>, name: &[u8], text: &[u8]) -> Result<(), NoMemory>
    ensures { OnOk result (out.new.items ≡ out.old.items ++ member_text (name.now, text.now)) }
{
    put_key(out, name)?;
    out.push(b':')?;
    out.extend_from_slice(text)?;
    Ok(())
}
