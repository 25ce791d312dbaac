ghost use Rattle.std.specs.Prelude.{◌≡◌, ◌++◌, List, ℕ, length, IfOk, IfErr, OnOk, OnErr, MatchResult};
ghost use Rattle.doc_model.specs.declared.document.Item.{Item};
ghost use Rattle.vb_log.specs.declared.reading.ContentFault.TheVariants as faults;
ghost use Rattle.vb_log.specs.Contents.{item_bytes};
ghost use Rattle.vb_log.specs.Faults.{IsBroken};
ghost use Rattle.vb_log.specs.Layout.{Layout};
ghost use Rattle.vb_log.specs.Stored.{IsStorable, StoredAt, StoredFront, IsNoItem, stored_layout};

use crate::documents::what_at;
use crate::fields::{FieldFault, u64_within};
use crate::keys::key_at;
use crate::limits::{GREATEST_CAS, GREATEST_POSITION};
use crate::reading::ContentFault;
use crate::spelt_items::{add_item, numbered};
use doc_model::Item;
use kv_edge::NoMemory;
use std::alloc::Global;

/// Appends the bytes of an item, which has to be one that some content may have. `NoMemory` comes where memory is refused,
/// and then nothing is appended.
pub fn item_into(item: &Item, out: &mut Vec<u8>) -> Result<(), NoMemory>
    requires { IsStorable item.now }
    ensures ok { OnOk result (out.new.items ≡ out.old.items ++ item_bytes item.now) }
    ensures err { OnErr result (out.new.items ≡ out.old.items) }
{
    let alloc = *out.allocator();
    let mut spelt = Vec::new(alloc);
    add_item(&mut spelt, item)?;
    out.extend_from_slice(spelt.as_slice())?;
    Ok(())
}

/// Reads the item at the front of the bytes, and tells how many bytes it has. `Bad` comes exactly where the bytes begin
/// with none, with the place where they break the layout.
pub fn read_item(alloc: Global, bytes: &[u8]) -> Result<(Item, usize), ContentFault>
    ensures found { IfOk result (λ x. StoredAt bytes.now x.0 x.1) }
    ensures only { (item : Item) (rest : List ℕ) → IsStorable item → bytes.now ≡ item_bytes item ++ rest
        → MatchResult result (λ x. (x.0 ≡ item) × (x.1 ≡ length (item_bytes item))) (λ fault. fault ≡ faults.NoMemory) }
    ensures broken { IfErr result (IsNoItem bytes.now) }
{
    match stored_at(alloc, bytes) {
        Ok((item, rest)) => Ok((item, bytes.len() - rest.len())),
        Err(FieldFault::Broken(left)) => Err(ContentFault::Bad(bytes.len() - left)),
        Err(FieldFault::NoMemory) => Err(ContentFault::NoMemory),
    }
}

/// Reads the item at the front, and the bytes behind it.
fn stored_at(alloc: Global, bytes: &[u8]) -> Result<(Item, &[u8]), FieldFault>
    ensures found { IfOk result (λ x. StoredFront bytes.now x.0 x.1.now) }
    ensures broken { (next : Layout) → IfErr result (IsBroken (stored_layout next) bytes.now) }
{
    let (key, behind_key) = key_at(alloc, bytes)?;
    let (seqno, behind_seqno) = u64_within(behind_key, 1, GREATEST_POSITION)?;
    let (what, rest) = what_at(alloc, behind_seqno, GREATEST_CAS)?;
    let what = numbered(what, seqno);
    Ok((Item { key, seqno, what }, rest))
}
