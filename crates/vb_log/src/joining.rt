//! The part of a content behind a position, and a content with such a part joined to it.

ghost use Rattle.std.specs.Prelude.{◌≡◌, ◌≤◌, ◌<◌, ◌+◌, ◌++◌, ◌^◌, map as list_map, IfOk, OnOk, OnErr};
ghost use Rattle.std.specs.FinMap as map;
ghost use Rattle.doc_model.specs.declared.document.Item.{Item};
ghost use Rattle.doc_model.specs.Keys.{key_cmp};
ghost use Rattle.doc_model.specs.Values.{AreValues};
ghost use Rattle.vb_log.specs.Held.{StandAtKeys};
ghost use Rattle.vb_log.specs.Joining.{part_size, AreBehind};
ghost use Rattle.vb_log.specs.Parts.{difference, joined};
ghost use Rattle.vb_log.specs.Sizes.{size};

use crate::content::Content;
use crate::items::rising;
use crate::setting::set_all;
use crate::undecided::Undecided;
use doc_model::{Item, Values};
use kv_edge::{Copied, NoMemory};
use manifest_rules::{Manifest, lost_collections};
use std::alloc::Global;
use std::marker::Model;

/// What of a content lies behind a position: the items that were made there. The changes that wait, the manifest and the
/// greatest CAS are whole.
#[derive(Drop)]
pub struct Difference {
    from: u64,
    end: u64,
    /// Each of a key of its own.
    items: Vec<Item>,
    prepares: Undecided,
    manifest: Manifest,
    greatest_cas: u64,
}

impl Model for Difference {
    ghost use Rattle.std.specs.FinMap as map;
    ghost use Rattle.doc_model.specs.Keys.{coded_key};
    ghost use Rattle.doc_model.specs.contracts.document.Item as item_rows;
    ghost use Rattle.manifest_rules.specs.contracts.manifest.Manifest as manifest_rows;
    ghost use Rattle.vb_log.specs.contracts.entry.Pending as pending_rows;
    ghost use Rattle.vb_log.specs.Parts as parts;
    ghost use Rattle.vb_log.specs.Joining.{IsPart, coded_part};
    ghost use Rattle.vb_log.specs.Wholes.{by_keys};

    ghost Value = { parts.Difference };

    ghost coded = { coded_part (map.code coded_key item_rows.the_row.coded) pending_rows.the_row.coded manifest_rows.the_row.coded };

    ghost view = { λ d. record { from = d.from; end = d.end; items = map.from_entries (by_keys d.items.items); prepares = d.prepares; manifest = d.manifest; greatest_cas = d.greatest_cas } };

    ghost invariant = { λ d. IsPart d.items.items d.prepares d.manifest d.end };
}

/// What of a content lies behind a position. It costs a walk over the content's items, and copies those that lie behind.
pub fn difference_from(alloc: Global, content: &Content, from: u64) -> Result<Difference, NoMemory>
    requires { from ≤ content.now.length }
    ensures value { IfOk result (λ part. part ≡ difference content.now from) }
    ensures small { IfOk result (λ part. part_size part ≤ size content.now) }
{
    let items = items_behind(alloc, content.items.values(), from)?;
    Ok(Difference {
        from,
        end: content.length,
        items,
        prepares: content.prepares.copy(alloc)?,
        manifest: content.manifest.copy(alloc)?,
        greatest_cas: content.greatest_cas,
    })
}

/// Copies of the items of a map that were made behind a position.
fn items_behind(alloc: Global, values: Values<'_, Item>, from: u64) -> Result<Vec<Item>, NoMemory>
    ensures { (m : map.FinMap key_cmp Item) → AreValues m (list_map (λ e. e.1) values.entry.slots ++ values.entry.others)
        → StandAtKeys m → IfOk result (λ copied. AreBehind m from copied.items) }
{
    let mut behind = Vec::new(alloc);
    for item in values {
        if from < item.seqno {
            behind.push(item.copy(alloc)?)?;
        }
    }
    Ok(behind)
}

/// Joins a part to a content that ends where the part begins: the content is then that at the part's end. It costs a look-up
/// for each item of the part, and a walk over the items of collections that are dropped. At `Err` the content is as before:
/// all memory is taken, and the items are set, before anything else changes.
pub fn join(alloc: Global, content: &mut Content, part: Difference) -> Result<(), NoMemory>
    requires from { part.from ≡ content.old.length }
    requires room { size content.old + part_size part < 2 ^ 64 }
    ensures ok { OnOk result (content.new ≡ joined content.old part) }
    ensures err { OnErr result (content.new ≡ content.old) }
{
    let Difference {
        end,
        items,
        prepares,
        manifest,
        greatest_cas,
        ..
    } = part;
    let lost = rising(lost_collections(alloc, &content.manifest, &manifest)?);
    set_all(alloc, &mut content.items, items)?;
    content.items.remove_collections(lost.as_slice());
    content.prepares = prepares;
    content.manifest = manifest;
    content.greatest_cas = greatest_cas;
    content.length = end;
    Ok(())
}
