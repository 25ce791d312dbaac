//! Whether an entry may be added to a content, and how much the content then counts.

ghost use Rattle.std.specs.Prelude.{◌≡◌, ◌≤◌, ◌+◌, true, IfOk};
ghost use Rattle.std.specs.Result.{is_ok};
ghost use Rattle.manifest_rules.specs.Applying.{text_step};
ghost use Rattle.vb_log.specs.declared.limits.TheConstants.{CONTENT_LIMIT};
ghost use Rattle.vb_log.specs.Spelling.{IsAllowed};
ghost use Rattle.vb_log.specs.declared.entry.Entry.TheVariants as entries;
ghost use Rattle.vb_log.specs.Content.{allowed, is_free, with_entry};
ghost use Rattle.vb_log.specs.Sizes.{size, size_after};

use crate::content::{Content, size};
use crate::entry::Entry;
use crate::items::rising;
use crate::sizes::{put_size, remove_size, size_of};
use doc_model::{DocKey, Refused};
use kv_edge::{Bytes, NoMemory};
use manifest_rules::{foresee_text, has};
use std::alloc::Global;

/// Whether an entry may be added: a change is one of a key that may be changed, a Commit or an Abort names a change that
/// waits, and a manifest is one that applies. Only the judgement of a manifest takes memory.
pub fn allowed(alloc: Global, content: &Content, entry: &Entry) -> Result<bool, NoMemory>
    ensures { IfOk result (λ b. b ≡ allowed content.now entry.now) }
{
    match entry {
        Entry::Mutation { key, .. } => Ok(is_free(content, key)),
        Entry::Deletion { key, .. } => Ok(is_free(content, key)),
        Entry::Prepare { key, .. } => Ok(is_free(content, key)),
        Entry::Commit { of } => Ok(content.prepares.find(*of).is_some()),
        Entry::Abort { of } => Ok(content.prepares.find(*of).is_some()),
        Entry::Manifest { text } => applies(alloc, content, text),
    }
}

/// Whether a key may be changed: its collection is there, and no change of it waits.
pub(crate) fn is_free(content: &Content, key: &DocKey) -> bool
    ensures { result ≡ is_free content.now key.now }
{
    !content.prepares.has(key) && has(&content.manifest, key.collection)
}

/// Whether a text is a manifest that applies.
fn applies(alloc: Global, content: &Content, text: &Bytes) -> Result<bool, NoMemory>
    ensures { IfOk result (λ b. b ≡ is_ok (text_step content.now.manifest text.now)) }
{
    match foresee_text(alloc, &content.manifest, text.as_slice()) {
        Ok(_) => Ok(true),
        Err(Refused::Status(_)) => Ok(false),
        Err(Refused::NoMemory) => Err(NoMemory),
    }
}

/// What a content counts once an entry is added that is allowed. Only the judgement of a manifest takes memory, and a walk
/// over the items of the collections that it drops.
pub fn size_after(alloc: Global, content: &Content, entry: &Entry) -> Result<u64, NoMemory>
    requires entry { IsAllowed entry.now }
    requires within { size content.now ≤ CONTENT_LIMIT }
    requires allowed { allowed content.now entry.now ≡ true }
    ensures { IfOk result (λ n. n ≡ size_after content.now entry.now) }
{
    let before = size(content);
    match entry {
        Entry::Mutation { key, doc } => {
            Ok(before - content.items.size_at(key) + put_size(key, doc))
        }
        Entry::Deletion { key, .. } => Ok(before - content.items.size_at(key) + remove_size(key)),
        Entry::Prepare { key, what, .. } => Ok(before + size_of(key, what)),
        Entry::Commit { of } => Ok(before - committed_size(content, *of)),
        Entry::Abort { of } => Ok(before - content.prepares.size_at(*of)),
        Entry::Manifest { text } => Ok(before - dropped_size(alloc, content, text)?),
    }
}

/// How much less a content counts once the change is made that was prepared at a position: what its key had, where its
/// collection is there, or else itself.
fn committed_size(content: &Content, of: u64) -> u64
    ensures { size (with_entry content.now (entries.Commit of)) + result ≡ size content.now }
{
    match content.prepares.find(of) {
        Some(change) => {
            if has(&content.manifest, change.key.collection) {
                content.items.size_at(&change.key)
            } else {
                content.prepares.size_at(of)
            }
        }
        None => 0,
    }
}

/// How much less a content counts once a manifest is applied that applies.
fn dropped_size(alloc: Global, content: &Content, text: &Bytes) -> Result<u64, NoMemory>
    requires { is_ok (text_step content.now.manifest text.now) ≡ true }
    ensures { IfOk result (λ n. size (with_entry content.now (entries.Manifest text.now)) + n ≡ size content.now) }
{
    match foresee_text(alloc, &content.manifest, text.as_slice()) {
        Ok(dropped) => {
            let ids = rising(dropped.collections);
            Ok(content.items.size_in(ids.as_slice()))
        }
        Err(_) => Err(NoMemory),
    }
}
