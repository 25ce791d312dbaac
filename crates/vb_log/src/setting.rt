//! How many items are set at once, or none.

ghost use Rattle.std.specs.Prelude.{◌≡◌, ◌<◌, ◌+◌, ◌∷◌, ◌^◌, reverse, OnOk, OnErr};
ghost use Rattle.std.specs.FinMap as map;
ghost use Rattle.doc_model.specs.Keys.{key_cmp};
ghost use Rattle.doc_model.specs.declared.document.Item.{Item};
ghost use Rattle.vb_log.specs.Held.{item_weight, items_size};
ghost use Rattle.vb_log.specs.Joining.{with_all, Noted, AreNoted};
ghost use Rattle.vb_log.specs.Wholes.{by_keys, listed_size};

use crate::items::Items;
use doc_model::{DocKey, Item};
use kv_edge::{Copied, NoMemory};
use std::alloc::Global;

/// A key, and what it had.
type Note = (DocKey, Option<Item>);

/// Sets items, the first of a key over later ones. At `Err` all is as before: what was set is noted, and set back.
pub(crate) fn set_all(alloc: Global, items: &mut Items, new: Vec<Item>) -> Result<(), NoMemory>
    requires { items_size items.old + listed_size new.items < 2 ^ 64 }
    ensures ok { OnOk result (items.new ≡ with_all items.old (by_keys new.items)) }
    ensures err { OnErr result (items.new ≡ items.old) }
{
    let mut notes = Vec::new(alloc);
    let mut left = new;
    while let Some(item) = left.pop() {
        if let Err(refused) = set(alloc, items, item, &mut notes) {
            set_back(items, notes);
            return Err(refused);
        }
    }
    Ok(())
}

/// Sets an item and notes what its key had. At `Err` all is as before.
fn set(alloc: Global, items: &mut Items, item: Item, notes: &mut Vec<Note>) -> Result<(), NoMemory>
    requires { items_size items.old + item_weight item < 2 ^ 64 }
    ensures set { OnOk result (items.new ≡ map.insert items.old item.key item) }
    ensures noted { (before : map.FinMap key_cmp Item) → AreNoted before (reverse notes.old.items) items.old → AreNoted before (reverse notes.new.items) items.new }
    ensures err { OnErr result (items.new ≡ items.old) }
{
    notes.reserve(1)?;
    let key = item.key.copy(alloc)?;
    let had = items.put(alloc, &key, item)?;
    notes.push_reserved((key, had));
    Ok(())
}

/// Sets back what is noted, the last note first.
fn set_back(items: &mut Items, notes: Vec<Note>)
    requires { (before : map.FinMap key_cmp Item) × AreNoted before (reverse notes.items) items.old }
    ensures { (before : map.FinMap key_cmp Item) → AreNoted before (reverse notes.items) items.old → items.new ≡ before }
{
    let mut left = notes;
    while let Some((key, had)) = left.pop() {
        put_back(items, &key, had);
    }
}

/// Gives a key back what it had.
fn put_back(items: &mut Items, key: &DocKey, had: Option<Item>)
    requires { (before : map.FinMap key_cmp Item) × Noted before items.old (key.now, had) }
    ensures { (before : map.FinMap key_cmp Item) → Noted before items.old (key.now, had) → items.new ≡ before }
{
    match had {
        Some(item) => {
            items.replace(key, item);
        }
        None => {
            items.remove(key);
        }
    }
}
