//! A store of items on one device: it holds what a vbucket's log comes to, and what stands beside it, over crashes and restarts.
//!
//! The store is a flat journal: records one after another, of which each write appends one. It gives nothing back. Its calls
//! speak of what the store holds and of its layout, so that they can outlive the journal.
//!
//! # What it holds
//!
//! Of each key one item, a document or the mark of a deletion with its sequence number; the chain and the place for which it
//! was made; the promise, the accepted term, and the incarnation, which counts its openings; the length of the log whose items
//! these are and the greatest CAS of it; and a tail of bytes, of which it reads the manifest's state at the front alone
//! (`specs/Held.antt`).
//!
//! | Call | What the store holds then |
//! |---|---|
//! | `Store::open_store` | what the device held, opened once more; or nothing, where no store was there |
//! | `Store::commit`, `Store::write` | the items of collections that weren't dropped, a batch over them, and other numbers and tail |
//! | `Store::replace`, `Store::write` anew | a batch in place of all items, and other numbers and tail |
//! | `Store::promise` | the same with another promise |
//! | `Store::get`, `Store::since` | the same: they answer from it |
//! | `Store::has`, `Store::weight_at`, `Store::weight`, `Store::weight_in` | the same: they answer without the disk |
//! | `Store::beside_items`, `Store::is_whole_with` | the same: they judge without the disk what its items make with the rest |
//!
//! # What a crash leaves
//!
//! At any moment of a call a crash leaves what the store held before it, or what it holds after it, each in its layout; and
//! once the call answered `Ok`, what it holds after it alone. Of a disk that tells its states this is a clause of each call
//! (`any_moment`, `done`); of another nothing is claimed. After a failed write or sync no call can tell which of the two the
//! device holds, so its owner uses the store no more, and opens the device again.
//!
//! # Faults
//!
//! | Fault | When | What stands after it |
//! |---|---|---|
//! | `DiskFault` | only where a call of the disk failed in this call | before or after, as above; after a failed read all as it was |
//! | `Full` | exactly where a write needs more segments than are free, with both numbers | all as it was |
//! | `Damaged` | exactly where the device's bytes break the layout, with the place and the numbers that differ | the bytes as they were |
//! | `OtherChain` | exactly where its store was made for another chain or place | the bytes as they were |
//! | `Spent` | exactly where its promise or its incarnation is too great, with the first that is | the bytes as they were |
//! | `NoMemory` | where memory is refused | all as it was, or a store that was opened once more |
//!
//! # The bytes
//!
//! A record is a gate of one byte, which is `a5` where the record counts; its size in eight bytes; and so many bytes. Behind
//! the last record stands another byte, a closed gate, and what is behind that doesn't count. A write puts all but the gate on
//! the device and syncs, and then opens the gate and syncs, so that each record counts whole or not at all.
//!
//! | Record | What it holds |
//! |---|---|
//! | the first | `KVJ1`; how many places the chain has; each name behind its length of one byte; the store's place |
//! | 1 | five numbers of eight bytes: promise, accepted term, incarnation, length, greatest CAS; the tail behind its length of four bytes; items behind their count of four bytes, each a key, its sequence number and its change as `vb_log` spells them: they are put over those there |
//! | 2 | the same; the items take the place of all |
//! | 3 | the five numbers |
//!
//! Numbers have the highest byte first. docs/STORE.md has a worked example and the reasons.
#![tactic(auto)]

mod asking;
mod cleaning;
mod fault;
mod fields;
mod getting;
mod index;
mod journal;
#[cfg(test)]
mod journal_tests;
mod kinds;
mod laws;
mod loading;
mod meta;
mod opening;
mod reading;
mod spelling;
mod spot;
mod spot_map;
mod store;
mod weighing;
mod whole;
#[cfg(test)]
mod whole_tests;
mod writing;

pub use cleaning::{Account, Cleaned};
pub use fault::StoreFault;
pub use kinds::{SEGMENT, SEGMENTS, SPENT, store_numbers};
pub use laws::{a_content_has_a_stores_parts, a_device_is_one_thing, what_is_on_disk_survives};
pub use meta::Meta;
pub use spot::Spot;
pub use store::Store;
