//! The words behind `chain`.

ghost use Rattle.std.specs.Prelude.{◌≡◌, ◌↔◌, nat_eq, map, codes, IsTrue, IfOk};
ghost use Rattle.std.specs.Cmp.Lexicographic.{pointwise};
ghost use Rattle.kv_script.specs.Lines.{IsChain, IsChainOf, IsPlace, ArePlaces, begins_named};
ghost use Rattle.kv_script.specs.Reading.{Reads, texts, place_of};

use crate::line::LineFault;
use crate::words::is_name;
use kv_edge::{Bytes, NoMemory, Seq};
use std::alloc::Global;

/// A chain has at most so many places.
const PLACE_LIMIT: usize = 4;

/// Whether a word stands for a place without a name.
fn is_nameless(word: &[u8]) -> bool
    ensures { result ≡ pointwise nat_eq word.now (codes "-") }
{
    word == b"-".as_slice()
}

/// Whether the first place has a name.
fn begins_named(words: &[&[u8]]) -> bool
    ensures { result ≡ begins_named (map place_of (texts words.now)) }
{
    match words {
        [first, ..] => !is_nameless(first),
        [] => false,
    }
}

/// Whether a word stands for a place, which has no name or one that no later place has.
fn is_place(word: &[u8], later: &[&[u8]]) -> bool
    ensures { IsTrue result ↔ IsPlace (place_of word.now) (map place_of (texts later.now)) }
{
    is_nameless(word) || (is_name(word) && !later.contains(&word))
}

/// Whether words stand for places.
fn are_places(words: &[&[u8]]) -> bool
    ensures { IsTrue result ↔ ArePlaces (map place_of (texts words.now)) }
{
    let mut left = words;
    while let [word, later @ ..] = left {
        if !is_place(word, later) {
            return false;
        }
        left = later;
    }
    true
}

/// Whether words stand for the places of a chain.
#[tactic(auto, using(crate::proofs::Places::as_many))]
fn is_chain(words: &[&[u8]]) -> bool
    ensures { IsTrue result ↔ IsChain (map place_of (texts words.now)) }
{
    words.len() <= PLACE_LIMIT && begins_named(words) && are_places(words)
}

/// The place that a word stands for.
fn place_at(alloc: Global, word: &[u8]) -> Result<Option<Bytes>, NoMemory>
    ensures { IfOk result (λ place. place ≡ place_of word.now) }
{
    if is_nameless(word) {
        return Ok(None);
    }
    Ok(Some(Bytes::from_slice(alloc, word)?))
}

/// The places that words stand for.
fn places_at(alloc: Global, words: &[&[u8]]) -> Result<Seq<Option<Bytes>>, NoMemory>
    ensures { IfOk result (λ places. places ≡ map place_of (texts words.now)) }
{
    let mut places = Seq::new(alloc);
    for word in words {
        places.push(place_at(alloc, word)?)?;
    }
    Ok(places)
}

/// The names of a chain's places.
pub(crate) fn names(alloc: Global, parts: &[&[u8]]) -> Result<Seq<Option<Bytes>>, LineFault>
    ensures { Reads (λ names. IsChainOf names (texts parts.now)) result }
{
    if !is_chain(parts) {
        return Err(LineFault::Bad);
    }
    match places_at(alloc, parts) {
        Ok(names) => Ok(names),
        Err(NoMemory) => Err(LineFault::NoMemory),
    }
}
