ghost use Rattle.std.specs.Prelude.{◌≡◌, ◌≤◌, ◌↔◌, ◌∷◌, [], IfOk, IfErr, OnOk, MatchResult, IsTrue};
ghost use Rattle.vb_log.specs.declared.entry.Entry.{Entry};
ghost use Rattle.vb_log.specs.declared.reading.ContentFault.TheVariants as faults;
ghost use Rattle.vb_log.specs.declared.limits.TheConstants.{GREATEST_CAS};
ghost use Rattle.vb_log.specs.Layout.{end, Spells, as_manifest};
ghost use Rattle.vb_log.specs.Spelling.{IsSpelled, key_layout, cas_layout, doc_layout};
ghost use Rattle.vb_log.specs.Spelling.{prepare_layout, position_layout, manifest_layout};
ghost use Rattle.vb_log.specs.Spelling.{parts_layout, entry_layout};
ghost use Rattle.vb_log.specs.Faults.{IsNoEntry, IsBroken};
ghost use Rattle.vb_log.specs.Reading.{PositionAt};

use crate::documents::{cas_at, doc_at, what_at};
use crate::entry::Entry;
use crate::fields::{FieldFault, byte_within, sized_at, u64_within};
use crate::keys::key_at;
use crate::kinds::{ABORT, COMMIT, DELETION, MANIFEST, MUTATION, PREPARE};
use crate::limits::{GREATEST_CAS, GREATEST_LEVEL, GREATEST_POSITION};
use doc_model::{MANIFEST_LIMIT, Refused};
use kv_edge::{Bytes, NoMemory};
use manifest_rules::read_manifest;
use std::alloc::Global;

/// Why nothing was read.
#[derive(Clone, Copy, Debug, PartialEq, Eq)]
pub enum ContentFault {
    /// The bytes break the layout. The offset is that of the first field that does.
    Bad(usize),
    /// Memory was refused.
    NoMemory,
}

impl From<NoMemory> for ContentFault {
    ghost from_gives = { λ _ fault. fault ≡ faults.NoMemory };

    fn from(_refused: NoMemory) -> ContentFault {
        ContentFault::NoMemory
    }
}

/// Reads the entry whose bytes these are, all of them. `Bad` comes exactly where they are no entry's,
/// with the place where they break the layout.
pub fn read_entry(alloc: Global, bytes: &[u8]) -> Result<Entry, ContentFault>
    ensures found { IfOk result (λ e. IsSpelled e bytes.now) }
    ensures only { (e : Entry) → IsSpelled e bytes.now
        → MatchResult result (λ found. found ≡ e) (λ fault. fault ≡ faults.NoMemory) }
    ensures broken { IfErr result (IsNoEntry bytes.now) }
{
    match entry_of(alloc, bytes) {
        Ok(entry) => Ok(entry),
        Err(FieldFault::Broken(left)) => Err(ContentFault::Bad(bytes.len() - left)),
        Err(FieldFault::NoMemory) => Err(ContentFault::NoMemory),
    }
}

/// Reads an entry.
fn entry_of(alloc: Global, bytes: &[u8]) -> Result<Entry, FieldFault>
    ensures found { IfOk result (λ e. IsSpelled e bytes.now) }
    ensures broken { IfErr result (IsBroken entry_layout bytes.now) }
{
    let (kind, parts) = byte_within(bytes, MUTATION, MANIFEST)?;
    let entry = entry_with(alloc, kind, parts)?;
    Ok(entry)
}

/// Reads an entry behind the byte that says which it is.
fn entry_with(alloc: Global, kind: u8, parts: &[u8]) -> Result<Entry, FieldFault>
    requires least { 1 ≤ kind }
    requires most { kind ≤ 6 }
    ensures found { IfOk result (λ e. IsSpelled e (kind ∷ parts.now)) }
    ensures broken { IfErr result (IsBroken (parts_layout kind) parts.now) }
{
    match kind {
        MUTATION => mutation_of(alloc, parts),
        DELETION => deletion_of(alloc, parts),
        PREPARE => prepare_of(alloc, parts),
        COMMIT => commit_of(parts),
        ABORT => abort_of(parts),
        _ => manifest_of(alloc, parts),
    }
}

/// Reads the key and the document of a Mutation.
fn mutation_of(alloc: Global, parts: &[u8]) -> Result<Entry, FieldFault>
    ensures found { IfOk result (λ e. IsSpelled e (1 ∷ parts.now)) }
    ensures broken { IfErr result (IsBroken (key_layout (doc_layout GREATEST_CAS end)) parts.now) }
{
    let (key, behind_key) = key_at(alloc, parts)?;
    let (doc, rest) = doc_at(alloc, behind_key, GREATEST_CAS)?;
    ended(rest)?;
    Ok(Entry::Mutation { key, doc })
}

/// Reads the key and the CAS of a Deletion.
fn deletion_of(alloc: Global, parts: &[u8]) -> Result<Entry, FieldFault>
    ensures found { IfOk result (λ e. IsSpelled e (2 ∷ parts.now)) }
    ensures broken { IfErr result (IsBroken (key_layout (cas_layout GREATEST_CAS end)) parts.now) }
{
    let (key, behind_key) = key_at(alloc, parts)?;
    let (cas, rest) = cas_at(behind_key, GREATEST_CAS)?;
    ended(rest)?;
    Ok(Entry::Deletion { key, cas })
}

/// Reads the level, the key and the change of a Prepare.
fn prepare_of(alloc: Global, parts: &[u8]) -> Result<Entry, FieldFault>
    ensures found { IfOk result (λ e. IsSpelled e (3 ∷ parts.now)) }
    ensures broken { IfErr result (IsBroken prepare_layout parts.now) }
{
    let (level, behind_level) = byte_within(parts, 1, GREATEST_LEVEL)?;
    let (key, behind_key) = key_at(alloc, behind_level)?;
    let (what, rest) = what_at(alloc, behind_key, GREATEST_CAS)?;
    ended(rest)?;
    Ok(Entry::Prepare { key, what, level })
}

/// Reads the position that a Commit names.
fn commit_of(parts: &[u8]) -> Result<Entry, FieldFault>
    ensures found { IfOk result (λ e. IsSpelled e (4 ∷ parts.now)) }
    ensures broken { IfErr result (IsBroken position_layout parts.now) }
{
    let of = position_of(parts)?;
    Ok(Entry::Commit { of })
}

/// Reads the position that an Abort names.
fn abort_of(parts: &[u8]) -> Result<Entry, FieldFault>
    ensures found { IfOk result (λ e. IsSpelled e (5 ∷ parts.now)) }
    ensures broken { IfErr result (IsBroken position_layout parts.now) }
{
    let of = position_of(parts)?;
    Ok(Entry::Abort { of })
}

/// Reads a position, behind which nothing follows.
fn position_of(bytes: &[u8]) -> Result<u64, FieldFault>
    ensures found { IfOk result (PositionAt bytes.now) }
    ensures broken { IfErr result (IsBroken position_layout bytes.now) }
{
    let (of, rest) = u64_within(bytes, 1, GREATEST_POSITION)?;
    ended(rest)?;
    Ok(of)
}

/// Reads the text of a Manifest.
fn manifest_of(alloc: Global, parts: &[u8]) -> Result<Entry, FieldFault>
    ensures found { IfOk result (λ e. IsSpelled e (6 ∷ parts.now)) }
    ensures broken { IfErr result (IsBroken manifest_layout parts.now) }
{
    let (piece, rest) = sized_at(parts, MANIFEST_LIMIT as u32)?;
    if !is_manifest(alloc, piece)? {
        return Err(FieldFault::Broken(piece.len() + rest.len()));
    }
    ended(rest)?;
    let text = Bytes::from_slice(alloc, piece)?;
    Ok(Entry::Manifest { text })
}

/// Whether bytes are read as a manifest.
fn is_manifest(alloc: Global, bytes: &[u8]) -> Result<bool, NoMemory>
    ensures { IfOk result (λ b. IsTrue b ↔ Spells as_manifest bytes.now) }
{
    match read_manifest(alloc, bytes) {
        Ok(_) => Ok(true),
        Err(Refused::Status(_)) => Ok(false),
        Err(Refused::NoMemory) => Err(NoMemory),
    }
}

/// Whether nothing follows.
pub(crate) fn ended(rest: &[u8]) -> Result<(), FieldFault>
    ensures found { OnOk result (rest.now ≡ []) }
    ensures broken { IfErr result (IsBroken end rest.now) }
{
    if rest.is_empty() {
        Ok(())
    } else {
        Err(FieldFault::Broken(rest.len()))
    }
}
