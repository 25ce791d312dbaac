//! What a log comes to, held in memory.

ghost use Rattle.std.specs.Prelude.{◌≡◌, ◌<◌, ◌^◌, IfOk, IsTrue};
ghost use Rattle.std.specs.Option.{option_copied};
ghost use Rattle.std.specs.FinMap as map;
ghost use Rattle.manifest_rules.specs.State.{is_kept};
ghost use Rattle.vb_log.specs.Content.{no_content};
ghost use Rattle.vb_log.specs.Sizes as sizes;
ghost use Rattle.vb_log.specs.Held.{positions_rise};

use crate::entry::Pending;
use crate::items::Items;
use crate::undecided::Undecided;
use doc_model::{DocKey, Item};
use kv_edge::NoMemory;
use manifest_rules::{Manifest, first};
use std::alloc::Global;
use std::marker::Model;

/// What a log comes to. Contracts see what each key has, the changes that wait, the manifest, the greatest CAS and how many
/// entries the log has.
#[derive(Drop)]
pub struct Content {
    pub(crate) items: Items,
    pub(crate) prepares: Undecided,
    pub(crate) manifest: Manifest,
    pub(crate) greatest_cas: u64,
    /// How many entries the log has.
    pub(crate) length: u64,
}

impl Model for Content {
    ghost use Rattle.std.specs.FinMap as map;
    ghost use Rattle.doc_model.specs.Keys.{coded_key};
    ghost use Rattle.doc_model.specs.contracts.document.Item as item_rows;
    ghost use Rattle.manifest_rules.specs.contracts.manifest.Manifest as manifest_rows;
    ghost use Rattle.vb_log.specs.contracts.entry.Pending as pending_rows;
    ghost use Rattle.vb_log.specs.Content as contents;
    ghost use Rattle.vb_log.specs.Held.{IsHeld, coded_content};

    ghost Value = { contents.Content };

    ghost coded = { coded_content (map.code coded_key item_rows.the_row.coded) pending_rows.the_row.coded manifest_rows.the_row.coded };

    ghost view = { λ c. record { items = c.items; prepares = c.prepares; manifest = c.manifest; greatest_cas = c.greatest_cas; length = c.length } };

    ghost invariant = { λ c. IsHeld (record { items = c.items; prepares = c.prepares; manifest = c.manifest; greatest_cas = c.greatest_cas; length = c.length }) };
}

/// What a log without entries comes to.
pub fn empty(alloc: Global) -> Result<Content, NoMemory>
    ensures { IfOk result (λ c. c ≡ no_content) }
{
    Ok(Content {
        items: Items::new(alloc),
        prepares: Undecided::new(alloc),
        manifest: first(alloc)?,
        greatest_cas: 0,
        length: 0,
    })
}

/// The item of a key.
pub fn item<'c>(content: &'c Content, key: &DocKey) -> Option<&'c Item>
    ensures { option_copied result ≡ map.get content.now.items key.now }
{
    content.items.get(key)
}

/// The changes that wait, in rising order of their positions.
pub fn prepares(content: &Content) -> &[Pending]
    ensures value { result.now ≡ content.now.prepares }
    ensures rise { IsTrue (positions_rise result.now) }
{
    content.prepares.as_slice()
}

/// The manifest, which is one that may be kept.
pub fn manifest(content: &Content) -> &Manifest
    ensures value { result.now ≡ content.now.manifest }
    ensures kept { IsTrue (is_kept result.now) }
{
    &content.manifest
}

/// The greatest CAS of all entries.
pub fn greatest_cas(content: &Content) -> u64
    ensures { result ≡ content.now.greatest_cas }
{
    content.greatest_cas
}

/// How many entries the log has.
pub fn length(content: &Content) -> u64
    ensures { result ≡ content.now.length }
{
    content.length
}

/// What the items and the changes that wait count together: each the bytes of its key, attributes and value, and
/// `ITEM_OVERHEAD`.
pub fn size(content: &Content) -> u64
    ensures { result ≡ sizes.size content.now }
{
    content.items.size() + content.prepares.size()
}
