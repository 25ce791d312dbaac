//! Laws of whole runs of `pipe`, one after another on one disk, in the words of those who use documents.
//!
//! Of a run on a disk that tells what a crash may leave, in whose log nothing waits: the requests that the
//! session passed on, each with its reply, are deeds of the copy that the disk held (`specs/Deeds.antt`,
//! `deeds_of`), so that every law of such deeds (`copy_laws`) holds of what was written. With the law that a
//! vbucket begins with the log that was flushed (`kv_tool`, `flushed_logs_are_there`) and that what was set is
//! told by another copy with that log (`copy_laws`, `documents_outlive_copies`), what one run was told is there
//! at the next.
#![tactic(auto)]

mod runs;

pub use runs::runs_are_histories;
