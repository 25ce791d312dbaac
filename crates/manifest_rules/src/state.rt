ghost use Rattle.std.specs.Prelude.{◌≡◌, ◌<◌, ◌≤◌, ◌^◌, ◌++◌, ◌↔◌, [], ◌∷◌, length, drop, IsTrue, IfOk, IfErr, OnOk, OnErr, MatchOption};
ghost use Rattle.std.specs.List.Sorted.{IsNonDecreasing};
ghost use Rattle.manifest_rules.specs.declared.types.TheConstants.{DROPPED_LIMIT};
ghost use Rattle.manifest_rules.specs.Text.{text_of};
ghost use Rattle.manifest_rules.specs.State.{are_rising, is_sound, are_gone, is_kept, ids_bytes, text_bytes, state_of, IsAt, SoundText, TextAt, NoCount, CountAt, NoId, IdAt, IdsAt, IsTextFault, IsIdsFault, IsNoState};
ghost use Rattle.manifest_rules.specs.declared.state.StateFault.TheVariants as faults;

use crate::ids::{is_among_sorted, share_id, sorted};
use crate::manifest::{Manifest, dropped_collections, dropped_scopes, scopes, uid, with_dropped};
use crate::reading::read_manifest;
use crate::sound::{ids_of, obeys_itself};
use crate::types::DROPPED_LIMIT;
use crate::writing::text;
use doc_model::{MANIFEST_LIMIT, Refused};
use kv_edge::{NoMemory, Seq, slice_at, u32_at};
use std::alloc::{AllocFailed, Global};

/// Why no manifest was read from a state.
#[derive(Clone, Copy, Debug, PartialEq, Eq)]
pub enum StateFault {
    /// The bytes don't begin with the state of a manifest. The offset is that of the first field that breaks the layout.
    Bad(usize),
    /// Memory was refused.
    NoMemory,
}

impl From<NoMemory> for StateFault {
    ghost from_gives = { λ _ fault. fault ≡ faults.NoMemory };

    fn from(_refused: NoMemory) -> StateFault {
        StateFault::NoMemory
    }
}

impl<T: Drop> From<AllocFailed<T>> for StateFault {
    ghost from_gives = { λ _ fault. fault ≡ faults.NoMemory };

    fn from(_refused: AllocFailed<T>) -> StateFault {
        StateFault::NoMemory
    }
}

/// How many bytes a number has.
const NUMBER: usize = 4;

/// Adds the state of a manifest. At `Err` the bytes are as before.
pub fn state_into(manifest: &Manifest, out: &mut Vec<u8>) -> Result<(), NoMemory>
    requires { IsTrue (is_kept manifest.now) }
    ensures ok { OnOk result (out.new.items ≡ out.old.items ++ state_of manifest.now) }
    ensures err { OnErr result (out.new.items ≡ out.old.items) }
{
    let alloc = *out.allocator();
    let mut state = Vec::new(alloc);
    add_text(alloc, &mut state, manifest)?;
    add_ids(&mut state, dropped_scopes(manifest))?;
    add_ids(&mut state, dropped_collections(manifest))?;
    out.extend_from_slice(state.as_slice())?;
    Ok(())
}

/// Adds the text of a manifest behind its length.
fn add_text(alloc: Global, out: &mut Vec<u8>, manifest: &Manifest) -> Result<(), NoMemory>
    requires { length (text_of manifest.now) < 2 ^ 32 }
    ensures { OnOk result (out.new.items ≡ out.old.items ++ text_bytes manifest.now) }
{
    let text = text(alloc, manifest)?;
    out.extend_from_slice(&(text.len() as u32).to_be_bytes())?;
    out.extend_from_slice(text.as_slice())?;
    Ok(())
}

/// Adds a count of ids and the ids.
fn add_ids(out: &mut Vec<u8>, ids: &[u32]) -> Result<(), NoMemory>
    requires { length ids.now < 2 ^ 32 }
    ensures { OnOk result (out.new.items ≡ out.old.items ++ ids_bytes ids.now) }
{
    out.extend_from_slice(&(ids.len() as u32).to_be_bytes())?;
    for id in ids {
        out.extend_from_slice(&id.to_be_bytes())?;
    }
    Ok(())
}

/// Reads the manifest whose state the bytes begin with, and tells how many bytes the state has.
pub fn read_state(alloc: Global, bytes: &[u8]) -> Result<(Manifest, usize), StateFault>
    ensures found { IfOk result (λ x. IsAt bytes.now x.0 x.1) }
    ensures none { IfErr result (IsNoState bytes.now) }
{
    let (manifest, text) = read_text(alloc, bytes)?;
    let ids = ids_of(alloc, scopes(&manifest))?;
    let (gone_scopes, size) = read_ids(alloc, bytes, text, ids.scopes.as_slice())?;
    let (gone, last) = read_ids(alloc, bytes, text + size, ids.collections.as_slice())?;
    let manifest = with_dropped(manifest, Seq::from_vec(gone_scopes), Seq::from_vec(gone));
    Ok((manifest, text + size + last))
}

/// Reads the text of a manifest behind its length, and tells how many bytes both have.
fn read_text(alloc: Global, bytes: &[u8]) -> Result<(Manifest, usize), StateFault>
    ensures found { IfOk result (λ x. TextAt bytes.now x.0 x.1 × (x.0.dropped_scopes ≡ []) × (x.0.dropped_collections ≡ [])) }
    ensures breaks { IfErr result (IsTextFault bytes.now) }
{
    let (count, rest) = match count_at(bytes, MANIFEST_LIMIT) {
        Some(found) => found,
        None => return Err(StateFault::Bad(0)),
    };
    let (text, _) = match slice_at(rest, count) {
        Some(found) => found,
        None => return Err(StateFault::Bad(NUMBER)),
    };
    match read_sound(alloc, text)? {
        Some(manifest) => Ok((manifest, NUMBER + count)),
        None => Err(StateFault::Bad(NUMBER)),
    }
}

/// The count at the front, where one up to a limit is there, and the bytes after it.
fn count_at(bytes: &[u8], limit: usize) -> Option<(usize, &[u8])>
    requires { limit < 2 ^ 32 }
    ensures { MatchOption result (NoCount limit bytes.now) (λ x. CountAt limit bytes.now x.0 x.1.now) }
{
    match u32_at(bytes) {
        Some((count, rest)) => {
            let count = count as usize;
            if count <= limit {
                Some((count, rest))
            } else {
                None
            }
        }
        None => None,
    }
}

/// The manifest that obeys its own rules and whose text this is.
fn read_sound(alloc: Global, bytes: &[u8]) -> Result<Option<Manifest>, NoMemory>
    ensures { IfOk result (SoundText bytes.now) }
{
    let manifest = match read_manifest(alloc, bytes) {
        Ok(manifest) => manifest,
        Err(Refused::Status(_)) => return Ok(None),
        Err(Refused::NoMemory) => return Err(NoMemory),
    };
    if is_sound(alloc, &manifest)? && is_text(alloc, &manifest, bytes)? {
        Ok(Some(manifest))
    } else {
        Ok(None)
    }
}

/// Whether a manifest has this text.
fn is_text(alloc: Global, manifest: &Manifest, bytes: &[u8]) -> Result<bool, NoMemory>
    ensures { IfOk result (λ b. IsTrue b ↔ (text_of manifest.now ≡ bytes.now)) }
{
    let text = text(alloc, manifest)?;
    Ok(text.as_slice() == bytes)
}

/// Whether a manifest obeys its own rules.
fn is_sound(alloc: Global, manifest: &Manifest) -> Result<bool, NoMemory>
    ensures { IfOk result (λ b. b ≡ is_sound manifest.now) }
{
    let ids = ids_of(alloc, scopes(manifest))?;
    obeys_itself(alloc, uid(manifest), scopes(manifest), &ids)
}

/// Whether a manifest may be kept: it obeys its own rules, not too many ids were dropped, and none of them is there.
pub fn is_kept(alloc: Global, manifest: &Manifest) -> Result<bool, NoMemory>
    ensures { IfOk result (λ b. b ≡ is_kept manifest.now) }
{
    if !is_sound(alloc, manifest)? {
        return Ok(false);
    }
    let ids = ids_of(alloc, scopes(manifest))?;
    Ok(
        are_gone(ids.scopes.as_slice(), dropped_scopes(manifest))
            && are_gone(ids.collections.as_slice(), dropped_collections(manifest)),
    )
}

/// Whether rising ids may have been dropped where others are there.
fn are_gone(present: &[u32], gone: &[u32]) -> bool
    requires { IsTrue (are_rising gone.now) }
    ensures { result ≡ are_gone present.now gone.now }
{
    gone.len() <= DROPPED_LIMIT && !share_id(present, gone)
}

/// Reads, behind so many bytes, a count of ids and the ids, which may have been dropped where others are there, and tells
/// how many bytes both have.
fn read_ids(
    alloc: Global,
    bytes: &[u8],
    start: usize,
    present: &[u32],
) -> Result<(Vec<u32>, usize), StateFault>
    requires { start ≤ length bytes.now }
    ensures found { IfOk result (λ x. IdsAt present.now (drop start bytes.now) x.0.items x.1) }
    ensures breaks { IfErr result (IsIdsFault present.now bytes.now start) }
{
    let (_, part) = bytes.split_at(start);
    let (count, rest) = match count_at(part, DROPPED_LIMIT) {
        Some(found) => found,
        None => return Err(StateFault::Bad(start)),
    };
    let present = sorted(alloc, present)?;
    let mut ids = Vec::new(alloc);
    let mut left = rest;
    for _ in 0..count {
        match id_at(left, ids.as_slice(), present.as_slice()) {
            Some((id, rest)) => {
                ids.push(id)?;
                left = rest;
            }
            None => return Err(StateFault::Bad(start + NUMBER + NUMBER * ids.len())),
        }
    }
    Ok((ids, NUMBER + NUMBER * count))
}

/// The id at the front, where it may have been dropped with the ones before it, and the bytes after it.
fn id_at<'b>(bytes: &'b [u8], before: &[u32], present: &[u32]) -> Option<(u32, &'b [u8])>
    requires before { IsTrue (are_gone present.now before.now) }
    requires few { length before.now < DROPPED_LIMIT }
    requires sorted { IsNonDecreasing present.now }
    ensures { MatchOption result (NoId present.now before.now bytes.now) (λ x. IdAt present.now before.now bytes.now x.0 x.1.now) }
{
    match u32_at(bytes) {
        Some((id, rest)) => {
            if rises_to(before, id) && !is_among_sorted(present, id) {
                Some((id, rest))
            } else {
                None
            }
        }
        None => None,
    }
}

/// Whether rising ids still rise with one more.
fn rises_to(ids: &[u32], id: u32) -> bool
    requires { IsTrue (are_rising ids.now) }
    ensures { result ≡ are_rising (ids.now ++ id ∷ []) }
{
    match ids.last() {
        Some(last) => *last < id,
        None => true,
    }
}
