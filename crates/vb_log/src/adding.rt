//! How an entry is added to a content.

ghost use Rattle.std.specs.Prelude.{◌≡◌, ◌≤◌, ◌<◌, ◌+◌, ◌^◌, true, false, is_some, Ok, Err, IsTrue, IfSome, IfOk, IfErr, OnOk, OnErr};
ghost use Rattle.std.specs.FinMap as map;
ghost use Rattle.std.specs.Result.{is_ok};
ghost use Rattle.vb_log.specs.declared.adding.AddFault.TheVariants as faults;
ghost use Rattle.vb_log.specs.declared.limits.TheConstants.{CONTENT_LIMIT};
ghost use Rattle.vb_log.specs.Keys.{IsAllowedKey};
ghost use Rattle.vb_log.specs.Spelling.{IsAllowed, IsAllowedWhat};
ghost use Rattle.vb_log.specs.Content.{with_entry, allowed, is_free, prepare_at, other_than, cas_of, numbered};
ghost use Rattle.vb_log.specs.Content.{item_made, with_step, one_longer};
ghost use Rattle.vb_log.specs.declared.entry.Entry.TheVariants as entries;
ghost use Rattle.vb_log.specs.Sizes.{can_add, size};
ghost use Rattle.vb_log.specs.Held.{items_size, waiting_size, pending_size};
ghost use Rattle.vb_log.specs.Adding.{Becomes, HasRoom, with_change, with_waiting, mark, with_room, items_given, items_with};

use crate::content::Content;
use crate::entry::{Entry, Pending};
use crate::items::{Items, rising};
use crate::judging::is_free;
use crate::undecided::Undecided;
use doc_model::{Doc, DocKey, Item, Refused, What};
use kv_edge::{Bytes, Copied, NoMemory};
use manifest_rules::{Manifest, apply_text, has};
use std::alloc::Global;

/// Why an entry wasn't added.
#[derive(Clone, Copy, Debug, PartialEq, Eq)]
pub enum AddFault {
    /// The entry may not stand behind those that there are.
    NotAllowed,
    /// Memory was refused.
    NoMemory,
}

impl From<NoMemory> for AddFault {
    ghost from_gives = { λ _ fault. fault ≡ faults.NoMemory };

    fn from(_refused: NoMemory) -> AddFault {
        AddFault::NoMemory
    }
}

/// Adds an entry, where it is allowed, to a content that isn't too large and doesn't become so. A document moves into the
/// content. A Commit and an Abort cost a walk over the changes that wait; a Manifest costs what applying it costs, and a walk
/// over the items of the collections that it drops. At `Err` the content is as before: `NotAllowed` comes where the entry
/// isn't allowed, unless memory is refused.
pub fn add(alloc: Global, content: &mut Content, entry: Entry) -> Result<(), AddFault>
    requires entry { IsAllowed entry }
    requires within { size content.old ≤ CONTENT_LIMIT }
    requires room { allowed content.old entry ≡ true → can_add content.old entry ≡ true }
    ensures added { OnOk result (content.new ≡ with_entry content.old entry) }
    ensures allowed { OnOk result (allowed content.old entry ≡ true) }
    ensures refused { result ≡ Err AddFault.NotAllowed → allowed content.old entry ≡ false }
    ensures unchanged { OnErr result (content.new ≡ content.old) }
{
    match entry {
        Entry::Mutation { key, doc } => add_change(alloc, content, key, What::Put(doc)),
        Entry::Deletion { key, cas } => add_change(alloc, content, key, What::Remove(cas)),
        Entry::Prepare { key, what, level } => add_prepare(content, key, what, level),
        Entry::Commit { of } => add_commit(alloc, content, of),
        Entry::Abort { of } => add_abort(content, of),
        Entry::Manifest { text } => add_manifest(alloc, content, &text),
    }
}

/// Adds a change of a key.
fn add_change(alloc: Global, content: &mut Content, key: DocKey, what: What) -> Result<(), AddFault>
    requires key { IsAllowedKey key }
    requires what { IsAllowedWhat what }
    requires room { HasRoom (is_free content.old key) content.old (with_change content.old key what) }
    ensures { Becomes (is_free content.old key) content.old (with_change content.old key what) content.new result }
{
    if !is_free(content, &key) {
        return Err(AddFault::NotAllowed);
    }
    let cas = cas_of(&what);
    let position = content.length + 1;
    let own = key.copy(alloc)?;
    let item = item_made(position, own, what);
    content.items.put(alloc, &key, item)?;
    content.length = position;
    content.greatest_cas = content.greatest_cas.max(cas);
    Ok(())
}

/// Adds a change that waits.
fn add_prepare(content: &mut Content, key: DocKey, what: What, level: u8) -> Result<(), AddFault>
    requires key { IsAllowedKey key }
    requires what { IsAllowedWhat what }
    requires room { HasRoom (is_free content.old key) content.old (with_waiting content.old key what level) }
    ensures { Becomes (is_free content.old key) content.old (with_waiting content.old key what level) content.new result }
{
    if !is_free(content, &key) {
        return Err(AddFault::NotAllowed);
    }
    let cas = cas_of(&what);
    let position = content.length + 1;
    content.prepares.push(Pending {
        position,
        level,
        key,
        what,
    })?;
    content.length = position;
    content.greatest_cas = content.greatest_cas.max(cas);
    Ok(())
}

/// Adds the Commit of the change that was prepared at a position.
fn add_commit(alloc: Global, content: &mut Content, of: u64) -> Result<(), AddFault>
    requires { HasRoom (allowed content.old (entries.Commit of)) content.old (with_entry content.old (entries.Commit of)) }
    ensures { Becomes (allowed content.old (entries.Commit of)) content.old (with_entry content.old (entries.Commit of)) content.new result }
{
    if content.prepares.find(of).is_none() {
        return Err(AddFault::NotAllowed);
    }
    let position = content.length + 1;
    make(
        alloc,
        &mut content.items,
        &mut content.prepares,
        &content.manifest,
        of,
        position,
    )?;
    content.length = position;
    Ok(())
}

/// Makes the change that was prepared at a position, by the entry at another: its key gets it, if its collection is still
/// there. At `Err` all is as before: all memory is taken before anything changes.
fn make(
    alloc: Global,
    items: &mut Items,
    prepares: &mut Undecided,
    manifest: &Manifest,
    of: u64,
    position: u64,
) -> Result<(), NoMemory>
    requires { items_size items.old + waiting_size prepares.old ≤ CONTENT_LIMIT }
    ensures items { OnOk result (items.new ≡ items_with items.old manifest.now position (prepare_at prepares.old of)) }
    ensures prepares { OnOk result (prepares.new ≡ other_than of prepares.old) }
    ensures items_err { OnErr result (items.new ≡ items.old) }
    ensures prepares_err { OnErr result (prepares.new ≡ prepares.old) }
{
    let key = match prepares.find(of) {
        Some(change) => change.key.copy(alloc)?,
        None => return Ok(()),
    };
    if !has(manifest, key.collection) {
        prepares.take(of);
        return Ok(());
    }
    make_room(alloc, items, &key)?;
    show(items, &key, position, prepares.take(of));
    Ok(())
}

/// Gives a key that has something what was prepared for it.
pub(crate) fn show(items: &mut Items, key: &DocKey, position: u64, change: Option<Pending>)
    requires own { IfSome change (λ p. p.key ≡ key.now) }
    requires has { is_some (map.get items.old key.now) ≡ true }
    requires room { items_size items.old + pending_size change < 2 ^ 64 }
    ensures { items.new ≡ items_given items.old position change }
{
    if let Some(change) = change {
        items.replace(key, item_made(position, change.key, change.what));
    }
}

/// Sees to it that a key has something, which can then be replaced without memory. At `Err` all is as before.
fn make_room(alloc: Global, items: &mut Items, key: &DocKey) -> Result<(), NoMemory>
    requires { items_size items.old ≤ CONTENT_LIMIT }
    ensures ok { OnOk result (items.new ≡ with_room items.old key.now) }
    ensures err { OnErr result (items.new ≡ items.old) }
{
    if items.get(key).is_none() {
        let own = key.copy(alloc)?;
        items.put(alloc, key, mark(own))?;
    }
    Ok(())
}

/// What a key gets that has nothing, before it gets what was prepared: a mark of deletion.
pub(crate) fn mark(key: DocKey) -> Item
    ensures { result ≡ mark key }
{
    Item {
        key,
        seqno: 0,
        what: What::Remove(0),
    }
}

/// Adds the Abort of the change that was prepared at a position.
fn add_abort(content: &mut Content, of: u64) -> Result<(), AddFault>
    requires { HasRoom (allowed content.old (entries.Abort of)) content.old (with_entry content.old (entries.Abort of)) }
    ensures { Becomes (allowed content.old (entries.Abort of)) content.old (with_entry content.old (entries.Abort of)) content.new result }
{
    if content.prepares.find(of).is_none() {
        return Err(AddFault::NotAllowed);
    }
    content.prepares.take(of);
    content.length += 1;
    Ok(())
}

/// Adds a manifest. All memory is taken before anything changes.
fn add_manifest(alloc: Global, content: &mut Content, text: &Bytes) -> Result<(), AddFault>
    requires { HasRoom (allowed content.old (entries.Manifest text.now)) content.old (with_entry content.old (entries.Manifest text.now)) }
    ensures { Becomes (allowed content.old (entries.Manifest text.now)) content.old (with_entry content.old (entries.Manifest text.now)) content.new result }
{
    let dropped = match apply_text(alloc, &mut content.manifest, text.as_slice()) {
        Ok(dropped) => dropped,
        Err(Refused::Status(_)) => return Err(AddFault::NotAllowed),
        Err(Refused::NoMemory) => return Err(AddFault::NoMemory),
    };
    let ids = rising(dropped.collections);
    content.items.remove_collections(ids.as_slice());
    content.length += 1;
    Ok(())
}

/// The CAS of a change.
pub(crate) fn cas_of(what: &What) -> u64
    ensures { result ≡ cas_of what.now }
{
    match what {
        What::Put(doc) => doc.cas,
        What::Remove(cas) => *cas,
    }
}

/// The item that a key gets by the entry at a position.
pub(crate) fn item_made(position: u64, key: DocKey, what: What) -> Item
    ensures { result ≡ item_made position key what }
{
    let what = match what {
        What::Put(doc) => What::Put(Doc {
            seqno: position,
            ..doc
        }),
        What::Remove(cas) => What::Remove(cas),
    };
    Item {
        key,
        seqno: position,
        what,
    }
}
