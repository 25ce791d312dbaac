ghost use Rattle.std.specs.Prelude.{◌≡◌, ◌≤◌, ◌++◌, ℕ, length, List, IfOk, IfErr, OnOk, OnErr, MatchResult};
ghost use Rattle.vb_log.specs.declared.entry.Pending.{Pending};
ghost use Rattle.vb_log.specs.declared.reading.ContentFault.TheVariants as faults;
ghost use Rattle.vb_log.specs.declared.limits.TheConstants.{GREATEST_POSITION};
ghost use Rattle.vb_log.specs.Layout.{Layout};
ghost use Rattle.vb_log.specs.Prepares.{AreBounds, IsWaiting, IsPendingWithin, IsAllowedPending};
ghost use Rattle.vb_log.specs.Prepares.{waiting_bytes, pending_bytes, waiting_layout, pending_layout};
ghost use Rattle.vb_log.specs.Prepares.{widest, WaitingAt, AllWaitingAt, PendingAt};
ghost use Rattle.vb_log.specs.Faults.{IsBroken, IsNoPending};

use crate::bounds::Bounds;
use crate::documents::{add_what, what_at};
use crate::entry::Pending;
use crate::fields::{FieldFault, byte_within, u32_within, u64_within};
use crate::keys::{add_key, key_at};
use crate::limits::{GREATEST_CAS, GREATEST_LEVEL, GREATEST_POSITION};
use crate::reading::ContentFault;
use kv_edge::{NoMemory, Seq};
use std::alloc::Global;

/// Appends the bytes of changes that wait, which have to be such as the layout allows: their count,
/// and one after another. `NoMemory` comes where memory is refused, and then nothing is appended.
pub fn pending_into(prepares: &[Pending], out: &mut Vec<u8>) -> Result<(), NoMemory>
    requires { IsAllowedPending prepares.now }
    ensures ok { OnOk result (out.new.items ≡ out.old.items ++ pending_bytes prepares.now) }
    ensures err { OnErr result (out.new.items ≡ out.old.items) }
{
    let alloc = *out.allocator();
    let mut spelt = Vec::new(alloc);
    add_pending(&mut spelt, prepares)?;
    out.extend_from_slice(spelt.as_slice())?;
    Ok(())
}

/// Appends changes that wait behind their count.
pub(crate) fn add_pending(out: &mut Vec<u8>, prepares: &[Pending]) -> Result<(), NoMemory>
    requires { IsAllowedPending prepares.now }
    ensures { OnOk result (out.new.items ≡ out.old.items ++ pending_bytes prepares.now) }
{
    out.extend_from_slice(&(prepares.len() as u32).to_be_bytes())?;
    for prepare in prepares {
        add_waiting(out, prepare)?;
    }
    Ok(())
}

/// Appends a change that waits.
fn add_waiting(out: &mut Vec<u8>, prepare: &Pending) -> Result<(), NoMemory>
    requires { IsWaiting widest 0 prepare.now }
    ensures { OnOk result (out.new.items ≡ out.old.items ++ waiting_bytes prepare.now) }
{
    out.extend_from_slice(&prepare.position.to_be_bytes())?;
    out.push(prepare.level)?;
    add_key(out, &prepare.key)?;
    add_what(out, &prepare.what)?;
    Ok(())
}

/// Reads the changes that wait at the front of the bytes, and tells how many bytes they have. `Bad`
/// comes exactly where the bytes begin with none, with the place where they break the layout.
pub fn read_pending(alloc: Global, bytes: &[u8]) -> Result<(Seq<Pending>, usize), ContentFault>
    ensures found { IfOk result (λ x. PendingAt bytes.now x.0 x.1) }
    ensures only { (ps : List Pending) (rest : List ℕ) → IsAllowedPending ps → bytes.now ≡ pending_bytes ps ++ rest
        → MatchResult result (λ x. (x.0 ≡ ps) × (x.1 ≡ length (pending_bytes ps))) (λ fault. fault ≡ faults.NoMemory) }
    ensures broken { IfErr result (IsNoPending bytes.now) }
{
    let bounds = Bounds {
        last: GREATEST_POSITION,
        cas: GREATEST_CAS,
    };
    match pending_at(alloc, bytes, bounds) {
        Ok((prepares, rest)) => Ok((prepares, bytes.len() - rest.len())),
        Err(FieldFault::Broken(left)) => Err(ContentFault::Bad(bytes.len() - left)),
        Err(FieldFault::NoMemory) => Err(ContentFault::NoMemory),
    }
}

/// Reads the changes at the front that wait within bounds, behind their count, and the bytes behind
/// them.
pub(crate) fn pending_at(
    alloc: Global,
    bytes: &[u8],
    bounds: Bounds,
) -> Result<(Seq<Pending>, &[u8]), FieldFault>
    requires { AreBounds bounds }
    ensures found { IfOk result (λ x. AllWaitingAt bounds bytes.now x.0 x.1.now) }
    ensures broken { (next : Layout) → IfErr result (IsBroken (pending_layout bounds next) bytes.now) }
{
    let (count, rest) = u32_within(bytes, u32::MAX)?;
    let mut prepares = Seq::new(alloc);
    let mut before = 0;
    let mut left = rest;
    for _ in 0..count {
        let (prepare, behind) = waiting_at(alloc, left, bounds, before)?;
        before = prepare.position;
        prepares.push(prepare)?;
        left = behind;
    }
    Ok((prepares, left))
}

/// Reads the change at the front that waits within bounds, prepared behind a position, and the bytes
/// behind it.
fn waiting_at(
    alloc: Global,
    bytes: &[u8],
    bounds: Bounds,
    before: u64,
) -> Result<(Pending, &[u8]), FieldFault>
    requires bounds { AreBounds bounds }
    requires before { before ≤ GREATEST_POSITION }
    ensures found { IfOk result (λ x. WaitingAt bounds before bytes.now x.0 x.1.now) }
    ensures broken { (next : ℕ → Layout) → IfErr result (IsBroken (waiting_layout bounds before next) bytes.now) }
{
    let (position, behind_position) = u64_within(bytes, before + 1, bounds.last)?;
    let (level, behind_level) = byte_within(behind_position, 1, GREATEST_LEVEL)?;
    let (key, behind_key) = key_at(alloc, behind_level)?;
    let (what, rest) = what_at(alloc, behind_key, bounds.cas)?;
    Ok((
        Pending {
            position,
            level,
            key,
            what,
        },
        rest,
    ))
}
