//! What is asked of the answers to a promotion.

ghost use Rattle.std.specs.Prelude.{◌≡◌, nat_eq, nat_lt, nat_le, ◌&&◌, is_some, count_by};
ghost use Rattle.std.specs.List.{list_all, list_any};
ghost use Rattle.durability_core.specs.Chains.{named_places};
ghost use Rattle.replica_core.specs.declared.fences.FenceAnswer.{FenceAnswer};
ghost use Rattle.replica_core.specs.Terms as terms;
ghost use Rattle.replica_core.specs.Promotion as promotions;

use crate::copy::CopyCore;
use crate::fences::{FenceAnswer, PromoteFault};
use durability_core::Chain;
use kv_edge::Bytes;

/// The first number above each term.
const TERM_END: u64 = 1 << 48;

/// Whether a place owns a number, which is then a term.
pub(crate) fn owns(place: u8, term: u64) -> bool
    ensures { result ≡ terms.owns place term }
{
    4 <= term && term < TERM_END && term % 4 == place as u64
}

/// What the copy answers to a fence at a term.
pub(crate) fn answer_at(term: u64, core: &CopyCore) -> FenceAnswer
    ensures { result ≡ promotions.answer_at term core.now }
{
    FenceAnswer {
        place: core.place,
        term,
        accepted: core.accepted,
        length: core.length,
        incarnation: core.incarnation,
        whole: core.whole,
    }
}

/// The fault of a promotion at a term by answers, none where it is rightful.
pub(crate) fn promote_fault(
    core: &CopyCore,
    term: u64,
    answers: &[FenceAnswer],
    weak: bool,
) -> Option<PromoteFault>
    ensures { result ≡ promotions.promote_fault core.now term answers.now weak }
{
    if !owns(core.place, term) {
        return Some(PromoteFault::Owner);
    }
    if !is_later(core, term) {
        return Some(PromoteFault::Old);
    }
    if !are_many(core, term, answers) {
        return Some(PromoteFault::Few);
    }
    if !none_foreign(core, term, answers) {
        return Some(PromoteFault::Foreign);
    }
    if any_ahead(core, answers) {
        return Some(PromoteFault::NotLongest);
    }
    if !weak && !all_whole(answers) {
        return Some(PromoteFault::NotWhole);
    }
    None
}

/// Whether a term is above that of the copy's log, and not below its promise.
fn is_later(core: &CopyCore, term: u64) -> bool
    ensures { result ≡ (nat_lt core.now.accepted term && nat_le core.now.promise term) }
{
    core.accepted < term && core.promise <= term
}

/// Whether a majority of the named places answered at a term.
fn are_many(core: &CopyCore, term: u64, answers: &[FenceAnswer]) -> bool
    ensures { result ≡ promotions.are_many core.now term answers.now }
{
    core.chain.named_count() / 2 < answered_count(&core.chain, term, answers)
}

/// How many of the named places answered at a term.
fn answered_count(chain: &Chain, term: u64, answers: &[FenceAnswer]) -> usize
    ensures { result ≡ count_by (promotions.has_answered term answers.now) (named_places chain.now) }
{
    let mut count = 0;
    for (place, name) in chain.names.as_slice().iter().enumerate() {
        if is_counted(name, term, answers, place) {
            count += 1;
        }
    }
    count
}

/// Whether a place is named and answered at a term.
fn is_counted(name: &Option<Bytes>, term: u64, answers: &[FenceAnswer], place: usize) -> bool
    ensures { result ≡ (is_some name.now && promotions.has_answered term answers.now place) }
{
    name.is_some() && has_answered(answers, term, place)
}

/// Whether a place answered at a term.
fn has_answered(answers: &[FenceAnswer], term: u64, place: usize) -> bool
    ensures { result ≡ promotions.has_answered term answers.now place }
{
    answers
        .iter()
        .any(|a| a.place as usize == place && a.term == term)
}

/// Whether no answer is foreign: each is one for this promotion, the copy's own is there as it would be now, and the
/// copy's promise is the term.
fn none_foreign(core: &CopyCore, term: u64, answers: &[FenceAnswer]) -> bool
    ensures { result ≡ promotions.none_foreign core.now term answers.now }
{
    all_own(core, term, answers)
        && has_same(&answer_at(term, core), answers)
        && core.promise == term
}

/// Whether each answer is of this term, of a named place, and the only one of its place. Where there are more answers than
/// places, one of the first few isn't.
fn all_own(core: &CopyCore, term: u64, answers: &[FenceAnswer]) -> bool
    ensures { result ≡ list_all (promotions.is_own core.now term answers.now) answers.now }
{
    answers.iter().all(|a| is_own(core, term, answers, a))
}

/// Whether an answer is of this term, of a named place, and the only one of its place.
fn is_own(core: &CopyCore, term: u64, answers: &[FenceAnswer], a: &FenceAnswer) -> bool
    ensures { result ≡ promotions.is_own core.now term answers.now a.now }
{
    a.term == term && core.chain.is_named(a.place) && count_of(answers, a.place) == 1
}

/// How many answers are of a place.
fn count_of(answers: &[FenceAnswer], place: u8) -> usize
    ensures { result ≡ count_by (λ (b : FenceAnswer). nat_eq b.place place) answers.now }
{
    answers.iter().filter(|b| b.place == place).count()
}

/// Whether an answer is among answers.
fn has_same(answer: &FenceAnswer, answers: &[FenceAnswer]) -> bool
    ensures { result ≡ list_any (promotions.same_answer answer.now) answers.now }
{
    answers.iter().any(|a| is_same(answer, a))
}

/// Whether two answers are the same.
fn is_same(a: &FenceAnswer, b: &FenceAnswer) -> bool
    ensures { result ≡ promotions.same_answer a.now b.now }
{
    a.place == b.place
        && a.term == b.term
        && a.accepted == b.accepted
        && a.length == b.length
        && a.incarnation == b.incarnation
        && a.whole == b.whole
}

/// Whether an answer is of a copy whose log is of a later term, or of the same and longer.
fn any_ahead(core: &CopyCore, answers: &[FenceAnswer]) -> bool
    ensures { result ≡ list_any (promotions.is_behind core.now) answers.now }
{
    answers.iter().any(|a| is_behind(core, a))
}

/// Whether the copy's log is of an earlier term than an answer's, or of the same and shorter.
fn is_behind(core: &CopyCore, a: &FenceAnswer) -> bool
    ensures { result ≡ promotions.is_behind core.now a.now }
{
    core.accepted < a.accepted || core.accepted == a.accepted && core.length < a.length
}

/// Whether each answer is of a copy that is whole.
fn all_whole(answers: &[FenceAnswer]) -> bool
    ensures { result ≡ list_all (λ (a : FenceAnswer). a.whole) answers.now }
{
    answers.iter().all(|a| a.whole)
}
