ghost use Rattle.std.specs.Prelude.{◌≡◌, ◌++◌, IfOk, IfErr, OnOk, OnErr, MatchResult};
ghost use Rattle.manifest_rules.specs.Catalog.{Catalog};
ghost use Rattle.vb_log.specs.declared.reading.ContentFault.TheVariants as faults;
ghost use Rattle.vb_log.specs.Content as contents;
ghost use Rattle.vb_log.specs.Contents.{HasBytes, IsContent, IsWhole, content_bytes, body_layout, content_layout, BodyAt, PartsAt};
ghost use Rattle.vb_log.specs.Layout.{Layout, StateAt, state_field};
ghost use Rattle.vb_log.specs.Prepares.{AreBounds};
ghost use Rattle.vb_log.specs.Faults.{IsBroken, IsNoContent};

use crate::bounds::Bounds;
use crate::content::{Content, greatest_cas, length, manifest, prepares};
use crate::entry::Pending;
use crate::fields::{FieldFault, u64_within};
use crate::limits::{GREATEST_CAS, GREATEST_POSITION};
use crate::ordering::in_order;
use crate::pending::{add_pending, pending_at};
use crate::reading::{ContentFault, ended};
use crate::spelt_items::{add_items, items_at};
use crate::whole::whole_of;
use doc_model::Item;
use kv_edge::{NoMemory, Seq};
use manifest_rules::{Manifest, StateFault, read_state, state_into};
use std::alloc::Global;

/// Appends the bytes of a content, which has to be whole. `NoMemory` comes where memory is refused,
/// and then nothing is appended.
pub fn content_into(content: &Content, out: &mut Vec<u8>) -> Result<(), NoMemory>
    requires { IsWhole content.now }
    ensures ok { OnOk result (out.new.items ≡ out.old.items ++ content_bytes content.now) }
    ensures err { OnErr result (out.new.items ≡ out.old.items) }
{
    let alloc = *out.allocator();
    let mut spelt = Vec::new(alloc);
    add_content(&mut spelt, content)?;
    out.extend_from_slice(spelt.as_slice())?;
    Ok(())
}

/// Appends a content.
fn add_content(out: &mut Vec<u8>, content: &Content) -> Result<(), NoMemory>
    requires { HasBytes content.now }
    ensures { OnOk result (out.new.items ≡ out.old.items ++ content_bytes content.now) }
{
    let alloc = *out.allocator();
    let items = in_order(alloc, content.items.values())?;
    out.extend_from_slice(&length(content).to_be_bytes())?;
    out.extend_from_slice(&greatest_cas(content).to_be_bytes())?;
    state_into(manifest(content), out)?;
    add_items(out, items.as_slice())?;
    add_pending(out, prepares(content))?;
    Ok(())
}

/// What a content's bytes say behind its length and its greatest CAS.
#[derive(Drop)]
pub(crate) struct Body {
    pub(crate) manifest: Manifest,
    /// In rising order of their keys.
    pub(crate) items: Seq<Item>,
    /// In rising order of their positions.
    pub(crate) prepares: Seq<Pending>,
}

/// Reads the content whose bytes these are, all of them. `Bad` comes exactly where they are no content's, with the place where
/// they break the layout, or 0 where they keep it and the content isn't whole.
pub fn read_content(alloc: Global, bytes: &[u8]) -> Result<Content, ContentFault>
    ensures found { IfOk result (λ c. IsContent c bytes.now) }
    ensures only { (c : contents.Content) → IsContent c bytes.now
        → MatchResult result (λ found. found ≡ c) (λ fault. fault ≡ faults.NoMemory) }
    ensures broken { IfErr result (IsNoContent bytes.now) }
{
    match parts_of(alloc, bytes) {
        Ok((bounds, body)) => whole_of(alloc, bounds, body),
        Err(FieldFault::Broken(left)) => Err(ContentFault::Bad(bytes.len() - left)),
        Err(FieldFault::NoMemory) => Err(ContentFault::NoMemory),
    }
}

/// Reads a content's length and greatest CAS, and what follows them, which keeps within both.
fn parts_of(alloc: Global, bytes: &[u8]) -> Result<(Bounds, Body), FieldFault>
    ensures found { IfOk result (λ x. PartsAt bytes.now x.0 x.1) }
    ensures broken { IfErr result (IsBroken content_layout bytes.now) }
{
    let (last, behind_last) = u64_within(bytes, 0, GREATEST_POSITION)?;
    let (cas, rest) = u64_within(behind_last, 0, GREATEST_CAS)?;
    let bounds = Bounds { last, cas };
    let body = body_of(alloc, rest, bounds)?;
    Ok((bounds, body))
}

/// Reads the manifest, the items and the changes that wait, behind which nothing follows.
fn body_of(alloc: Global, bytes: &[u8], bounds: Bounds) -> Result<Body, FieldFault>
    requires { AreBounds bounds }
    ensures found { IfOk result (BodyAt bounds bytes.now) }
    ensures broken { IfErr result (IsBroken (body_layout bounds) bytes.now) }
{
    let (manifest, behind_manifest) = state_at(alloc, bytes)?;
    let (items, behind_items) = items_at(alloc, behind_manifest, &manifest, bounds)?;
    let (prepares, rest) = pending_at(alloc, behind_items, bounds)?;
    ended(rest)?;
    Ok(Body {
        manifest,
        items,
        prepares,
    })
}

/// Reads the manifest whose state stands at the front, and the bytes behind it.
fn state_at(alloc: Global, bytes: &[u8]) -> Result<(Manifest, &[u8]), FieldFault>
    ensures found { IfOk result (λ x. StateAt bytes.now x.0 x.1.now) }
    ensures broken { (next : Catalog → Layout) → IfErr result (IsBroken (state_field next) bytes.now) }
{
    match read_state(alloc, bytes) {
        Ok((manifest, size)) => {
            let (_, rest) = bytes.split_at(size);
            Ok((manifest, rest))
        }
        Err(StateFault::Bad(place)) => Err(FieldFault::Broken(bytes.len() - place)),
        Err(StateFault::NoMemory) => Err(FieldFault::NoMemory),
    }
}
