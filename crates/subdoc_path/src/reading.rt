//! Reading a path, part by part.

ghost use Rattle.std.specs.Prelude.{◌≡◌, ◌<◌, IfOk, Err, length};
ghost use Rattle.subdoc_path.specs.Reading.{seen, Reads, ReadsParts, first_at, further_at};
ghost use Rattle.subdoc_path.specs.Told.{IsRead, IsNoPath, IsTooBig};

use crate::path::{Path, PathFault};
use crate::pieces::{index_at, name_at};
use json_model::{PARTS_LIMIT, PATH_LIMIT, Part};
use kv_edge::Seq;
use std::alloc::Global;

/// The part that begins a path, and what is behind it.
fn first_at(alloc: Global, bytes: &[u8]) -> Result<(Part, &[u8]), PathFault>
    ensures part { Reads (first_at bytes.now) (seen (λ x. (x.0, x.1.now)) result) }
    ensures shorter { IfOk result (λ x. length x.1.now < length bytes.now) }
{
    match bytes {
        [] => Err(PathFault::Einval),
        [byte, inner @ ..] => {
            if *byte == b'[' {
                return match index_at(inner) {
                    None => Err(PathFault::Einval),
                    Some((part, rest)) => Ok((part, rest)),
                };
            }
            let (name, rest) = name_at(alloc, bytes)?;
            Ok((Part::Member(name), rest))
        }
    }
}

/// A part behind another, and what is behind it.
fn further_at(alloc: Global, bytes: &[u8]) -> Result<(Part, &[u8]), PathFault>
    ensures part { Reads (further_at bytes.now) (seen (λ x. (x.0, x.1.now)) result) }
    ensures shorter { IfOk result (λ x. length x.1.now < length bytes.now) }
{
    match bytes {
        [] => Err(PathFault::Einval),
        [byte, inner @ ..] => {
            if *byte == b'[' {
                return match index_at(inner) {
                    None => Err(PathFault::Einval),
                    Some((part, rest)) => Ok((part, rest)),
                };
            }
            if *byte != b'.' {
                return Err(PathFault::Einval);
            }
            let (name, rest) = name_at(alloc, inner)?;
            Ok((Part::Member(name), rest))
        }
    }
}

/// All parts of a path.
fn parts_of(alloc: Global, bytes: &[u8]) -> Result<Seq<Part>, PathFault>
    ensures { ReadsParts bytes.now result }
{
    let mut parts = Seq::new(alloc);
    if bytes.is_empty() {
        return Ok(parts);
    }
    let (first, behind) = first_at(alloc, bytes)?;
    parts.push(first)?;
    let mut rest = behind;
    while !rest.is_empty() {
        let (part, behind) = further_at(alloc, rest)?;
        parts.push(part)?;
        rest = behind;
    }
    Ok(parts)
}

/// Reads a path of at most 1,024 bytes and 32 parts. The bytes are counted before the grammar is
/// looked at, the parts behind it. No bytes are the path of no parts.
pub fn read_path(alloc: Global, bytes: &[u8]) -> Result<Path, PathFault>
    ensures parts { IfOk result (λ path. IsRead bytes.now path) }
    ensures einval { result ≡ Err PathFault.Einval → IsNoPath bytes.now }
    ensures e2big { result ≡ Err PathFault.E2big → IsTooBig bytes.now }
{
    if bytes.len() > PATH_LIMIT {
        return Err(PathFault::E2big);
    }
    match str::from_utf8(bytes) {
        Err(_) => return Err(PathFault::Einval),
        Ok(_) => {}
    }
    let parts = parts_of(alloc, bytes)?;
    if parts.len() > PARTS_LIMIT {
        return Err(PathFault::E2big);
    }
    Ok(Path::new(parts))
}
