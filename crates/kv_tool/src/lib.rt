//! The top call of the program, and the names and statuses of what it may come to.
//!
//! `pipe` reads the request frames of one connection, answers them from one vbucket as they come, and writes the replies. It
//! reads pieces of at most 64 KiB, and holds at most the bytes of one frame and 64 KiB of replies besides the last one:
//! neither all input nor all output. The vbucket is number 0 of the one place `a` of a chain, on the first of four disks: it is
//! opened there before anything is read, and what changed is put there in the end, where all input was answered or a Quit
//! came.
//!
//! | Exit | When | Status |
//! |---|---|---|
//! | Done | the input was read to its end or to a Quit, all replies were written, and all that changed is on disk unless the disk had failed | 0 |
//! | Usage | the words are neither `pipe` nor `pipe` and a file | 1 |
//! | ReadFault | a read failed | 2 |
//! | WriteFault | a write failed | 3 |
//! | NoMemory | memory was refused | 4 |
//! | DiskFault | the disk failed as the vbucket was opened, or as it was put there in the end | 5 |
//! | Damaged | the disk's bytes break the layout of a store; disk, place, what is found there and what was expected | 6 |
//! | TooLong | more than 268,435,456 bytes came | 7 |
//! | BadFrame | no frame begins behind the last one; the place in the input | 9 |
//! | Cut | the input ended within a frame; how many bytes of it came | 10 |
//! | Spent | the store may not be opened again; its promise or its number of openings | 11 |
//! | OtherChain | the store is that of another chain or place; the disk | 12 |
//! | Full | there is no room on the disk, for the term at the opening or for what changed; segments needed and free | 13 |
//!
//! Where the vbucket can't be opened, nothing was read and nothing written. At WriteFault a front of the replies is written, at
//! every other exit all replies to the frames that were answered, but at NoMemory for the one that found none. A copy whose disk
//! failed at a request is dead: it answers the further ones so, and isn't put on disk in the end.
#![tactic(auto)]

mod connection;
#[cfg(test)]
mod disk_tests;
mod disks;
mod exit;
mod laws;
mod offline;
#[cfg(test)]
mod part_tests;
mod piping;
#[cfg(test)]
mod tests;

pub use disks::AnyDisk;
pub use exit::Exit;
pub use kv_session::VERSION_TEXT;
pub use laws::{flushed_logs_are_there, input_limit, one_beginning, same_output, same_replies};
pub use offline::run_offline;
pub use piping::INPUT_LIMIT;
