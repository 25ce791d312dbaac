//! Contents that are made of parts.

ghost use Rattle.std.specs.Prelude.{◌≡◌, ◌↔◌, ◌+◌, ◌<◌, ◌^◌, nat_eq, length, map as list_map, IsTrue, IfOk, IfErr, MatchOption, MatchResult};
ghost use Rattle.std.specs.FinMap.{is_sorted};
ghost use Rattle.std.specs.List.{IsDistinct};
ghost use Rattle.std.specs.List.Sorted.{IsPermutation};
ghost use Rattle.std.specs.Ordering.{eq_by_cmp};
ghost use Rattle.doc_model.specs.Keys.{key_cmp};
ghost use Rattle.vb_log.specs.declared.reading.ContentFault.TheVariants as faults;
ghost use Rattle.vb_log.specs.Content as contents;
ghost use Rattle.vb_log.specs.Contents.{IsWhole, keys_waiting, numbers_in};
ghost use Rattle.vb_log.specs.Held.{waiting_size};
ghost use Rattle.vb_log.specs.Wholes.{AreParts, IsNoWhole, AreOrdered, GoTogether, are_within, by_keys, listed_size};

use crate::bounds::Bounds;
use crate::content::Content;
use crate::entry::Pending;
use crate::items::Items;
use crate::keeping::keep_limits;
use crate::limits::{CONTENT_LIMIT, SUM_LIMIT};
use crate::reading::ContentFault;
use crate::sizes::{listed_size, waiting_size};
use crate::spelt_content::Body;
use crate::undecided::Undecided;
use doc_model::Item;
use kv_edge::{NoMemory, Seq};
use manifest_rules::Manifest;
use std::alloc::Global;

/// The content that has these items, in whatever order they stand, these changes that wait, this manifest, this greatest CAS
/// and this length. `Bad(0)` comes exactly where no content that has them is whole: where a part passes its limits, two items
/// or two changes that wait have one key, two of them have one number, or all are too large. It costs a sort of the items, of
/// the changes that wait and of the numbers.
pub fn of_parts(
    alloc: Global,
    items: Vec<Item>,
    pending: Vec<Pending>,
    manifest: Manifest,
    greatest_cas: u64,
    length: u64,
) -> Result<Content, ContentFault>
    ensures found { IfOk result (AreParts items.items pending.items manifest greatest_cas length) }
    ensures whole { IfOk result IsWhole }
    ensures only { (c : contents.Content) → AreParts items.items pending.items manifest greatest_cas length c → IsWhole c
        → MatchResult result (λ found. found ≡ c) (λ fault. fault ≡ faults.NoMemory) }
    ensures broken { IfErr result (IsNoWhole items.items pending.items manifest greatest_cas length) }
{
    let bounds = Bounds {
        last: length,
        cas: greatest_cas,
    };
    if !keep_limits(
        alloc,
        items.as_slice(),
        pending.as_slice(),
        &manifest,
        bounds,
    )? {
        return Err(ContentFault::Bad(0));
    }
    match in_rising_order(items) {
        Some(items) => {
            let body = Body {
                manifest,
                items: Seq::from_vec(items),
                prepares: Seq::from_vec(pending),
            };
            whole_of(alloc, bounds, body)
        }
        None => Err(ContentFault::Bad(0)),
    }
}

/// The items in rising order of their keys, where no two of these are equal.
fn in_rising_order(items: Vec<Item>) -> Option<Vec<Item>>
    ensures { MatchOption result (IsDistinct (eq_by_cmp key_cmp) (list_map (λ i. i.key) items.items) → ⊥)
        (λ sorted. IsPermutation items.items sorted.items × IsTrue (is_sorted key_cmp (by_keys sorted.items))) }
{
    let mut sorted = items;
    sorted.sort_unstable_by(|a, b| a.key.cmp(&b.key));
    if sorted.is_sorted_by(|a, b| a.key < b.key) {
        Some(sorted)
    } else {
        None
    }
}

/// The content that has parts which keep their limits, of which the items stand in rising order of their keys. `Bad(0)` comes
/// exactly where it isn't whole.
pub(crate) fn whole_of(alloc: Global, bounds: Bounds, body: Body) -> Result<Content, ContentFault>
    requires { AreOrdered body.items body.prepares body.manifest bounds }
    ensures found { IfOk result (AreParts body.items body.prepares body.manifest bounds.cas bounds.last) }
    ensures whole { IfOk result IsWhole }
    ensures broken { IfErr result (IsNoWhole body.items body.prepares body.manifest bounds.cas bounds.last) }
{
    let Body {
        manifest,
        items,
        prepares,
    } = body;
    if !go_together(alloc, items.as_slice(), prepares.as_slice(), bounds.last)? {
        return Err(ContentFault::Bad(0));
    }
    Ok(Content {
        items: Items::from_vec(alloc, items.into_vec())?,
        prepares: Undecided::from_vec(prepares.into_vec()),
        manifest,
        greatest_cas: bounds.cas,
        length: bounds.last,
    })
}

/// Whether parts go together: no two changes that wait have one key, no two items and changes have one number, and they aren't
/// too many.
fn go_together(
    alloc: Global,
    items: &[Item],
    prepares: &[Pending],
    last: u64,
) -> Result<bool, NoMemory>
    requires room { listed_size items.now + waiting_size prepares.now < 2 ^ 64 }
    requires short { last + length prepares.now < 2 ^ 64 }
    ensures { IfOk result (λ b. IsTrue b ↔ GoTogether items.now prepares.now last) }
{
    if !are_within(items, prepares, last) {
        return Ok(false);
    }
    Ok(are_apart(alloc, prepares)? && have_one_each(alloc, items, prepares)?)
}

/// Whether items, changes that wait and entries aren't too many.
fn are_within(items: &[Item], prepares: &[Pending], last: u64) -> bool
    requires room { listed_size items.now + waiting_size prepares.now < 2 ^ 64 }
    requires short { last + length prepares.now < 2 ^ 64 }
    ensures { result ≡ are_within items.now prepares.now last }
{
    listed_size(items) + waiting_size(prepares) <= CONTENT_LIMIT
        && last + prepares.len() as u64 <= SUM_LIMIT
}

/// Whether no two changes that wait have one key.
fn are_apart(alloc: Global, prepares: &[Pending]) -> Result<bool, NoMemory>
    ensures { IfOk result (λ b. IsTrue b ↔ IsDistinct (eq_by_cmp key_cmp) (keys_waiting prepares.now)) }
{
    let mut changes = Vec::new(alloc);
    for change in prepares {
        changes.push(change)?;
    }
    changes.sort_unstable_by(|a, b| a.key.cmp(&b.key));
    Ok(changes.is_sorted_by(|a, b| a.key < b.key))
}

/// Whether no two items and changes that wait have one number.
fn have_one_each(alloc: Global, items: &[Item], prepares: &[Pending]) -> Result<bool, NoMemory>
    ensures { IfOk result (λ b. IsTrue b ↔ IsDistinct nat_eq (numbers_in items.now prepares.now)) }
{
    let mut numbers = numbers_in(alloc, items, prepares)?;
    numbers.sort_unstable();
    Ok(numbers.is_sorted_by(|a, b| a < b))
}

/// The sequence numbers of items and the positions of changes that wait.
fn numbers_in(alloc: Global, items: &[Item], prepares: &[Pending]) -> Result<Vec<u64>, NoMemory>
    ensures { IfOk result (λ numbers. numbers.items ≡ numbers_in items.now prepares.now) }
{
    let seqnos = items.iter().map(|item| item.seqno);
    let positions = prepares.iter().map(|change| change.position);
    Ok(seqnos.chain(positions).collect(alloc)?)
}
