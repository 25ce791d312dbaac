//! How the first changes that wait are committed.

ghost use Rattle.std.specs.Prelude.{◌≡◌, ◌≤◌, ◌<◌, ◌+◌, ◌^◌, true, ◌&&◌, is_some, is_none, Some, length, take, IsTrue, IfOk, OnOk, OnErr};
ghost use Rattle.std.specs.List.{flat_map};
ghost use Rattle.std.specs.FinMap as map;
ghost use Rattle.vb_log.specs.declared.limits.TheConstants.{CONTENT_LIMIT, SUM_LIMIT};
ghost use Rattle.vb_log.specs.Adding.{mark, items_with};
ghost use Rattle.vb_log.specs.Content.{has_collection, with_entries};
ghost use Rattle.vb_log.specs.Contents.{keys_waiting};
ghost use Rattle.vb_log.specs.Held.{items_size, pending_weight, waiting_size, positions_rise};
ghost use Rattle.vb_log.specs.Settling.{commits_of, mark_for, CanBeMade, AreMade};
ghost use Rattle.vb_log.specs.Sizes.{size};

use crate::adding::{mark, show};
use crate::content::Content;
use crate::entry::Pending;
use crate::items::Items;
use crate::setting::set_all;
use crate::sizes::size_of;
use doc_model::{DocKey, Item};
use kv_edge::{Copied, NoMemory};
use manifest_rules::{Manifest, has};
use std::alloc::Global;
use std::collections::VecDeque;

/// Commits the first changes that wait, so many, in their order, each by an entry of its own. The documents move. It costs some
/// look-ups and copies of its key for each change that is committed, and a step for each that still waits. At `Err` the content
/// is as before: all memory is taken before any change is committed.
pub fn commit_first(alloc: Global, content: &mut Content, count: usize) -> Result<(), NoMemory>
    requires count { count ≤ length content.old.prepares }
    requires within { size content.old ≤ CONTENT_LIMIT }
    requires short { content.old.length + length content.old.prepares ≤ SUM_LIMIT }
    ensures ok { OnOk result (content.new ≡ with_entries content.old (commits_of (take count content.old.prepares))) }
    ensures err { OnErr result (content.new ≡ content.old) }
{
    let keys = first_keys(alloc, content.prepares.as_slice(), count)?;
    let marks = marks_for(alloc, &content.items, &content.manifest, keys.as_slice())?;
    set_all(alloc, &mut content.items, marks)?;
    content.prepares.make_first(
        alloc,
        keys.as_slice(),
        &mut content.items,
        &content.manifest,
        content.length,
    );
    content.length += count as u64;
    Ok(())
}

/// Copies of the keys of the first changes, so many.
fn first_keys(alloc: Global, changes: &[Pending], count: usize) -> Result<Vec<DocKey>, NoMemory>
    requires { count ≤ length changes.now }
    ensures { IfOk result (λ keys. keys.items ≡ keys_waiting (take count changes.now)) }
{
    let (first, _) = changes.split_at(count);
    let mut keys = Vec::with_capacity(alloc, count)?;
    for change in first {
        keys.push(change.key.copy(alloc)?)?;
    }
    Ok(keys)
}

/// The marks that some keys need, so that each has something that can be replaced without memory.
fn marks_for(
    alloc: Global,
    items: &Items,
    manifest: &Manifest,
    keys: &[DocKey],
) -> Result<Vec<Item>, NoMemory>
    ensures { IfOk result (λ marks. marks.items ≡ flat_map (mark_for items.now manifest.now) keys.now) }
{
    let mut marks = Vec::new(alloc);
    for key in keys {
        if needs_mark(items, manifest, key) {
            marks.push(mark(key.copy(alloc)?))?;
        }
    }
    Ok(marks)
}

/// Whether a key has nothing, and its collection is there.
fn needs_mark(items: &Items, manifest: &Manifest, key: &DocKey) -> bool
    ensures { result ≡ (has_collection manifest.now key.now.collection && is_none (map.get items.now key.now)) }
{
    has(manifest, key.collection) && items.get(key).is_none()
}

/// Makes the first changes that wait, which have these keys, in their order, by the entries behind a position, and answers
/// what they counted while they waited. It takes no memory.
pub(crate) fn make_each(
    waiting: &mut VecDeque<Pending>,
    keys: &[DocKey],
    items: &mut Items,
    manifest: &Manifest,
    position: u64,
) -> u64
    requires { CanBeMade manifest.now items.old waiting.old.items keys.now position }
    ensures made { AreMade (length keys.now) manifest.now position items.old waiting.old.items items.new waiting.new.items }
    ensures counted { result + waiting_size waiting.new.items ≡ waiting_size waiting.old.items }
    ensures rise { IsTrue (positions_rise waiting.new.items) }
{
    let mut counted = 0;
    let mut last = position;
    for key in keys {
        let change = match waiting.pop_front() {
            Some(change) => change,
            None => return counted,
        };
        counted += size_of(&change.key, &change.what);
        last += 1;
        make_one(items, manifest, key, last, change);
    }
    counted
}

/// Makes a change, by the entry at a position, if its collection is still there: its key has something then.
fn make_one(items: &mut Items, manifest: &Manifest, key: &DocKey, position: u64, change: Pending)
    requires own { change.key ≡ key.now }
    requires has { has_collection manifest.now key.now.collection ≡ true → is_some (map.get items.old key.now) ≡ true }
    requires room { items_size items.old + pending_weight change < 2 ^ 64 }
    ensures { items.new ≡ items_with items.old manifest.now position (Some change) }
{
    if has(manifest, key.collection) {
        show(items, key, position, Some(change));
    }
}
