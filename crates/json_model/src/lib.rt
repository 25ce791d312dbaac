//! JSON texts, paths into them and edits at paths, as definitions that every layer above cites, and
//! the few types that these need.
//!
//! A JSON text (RFC 8259) is a spelled tree: each leaf keeps its text, and each gap its blanks, so
//! a tree has one text and a text one tree. An edit makes a tree of a tree, and all that stands
//! beside the change keeps its bytes.
//!
//! | What | Where |
//! |---|---|
//! | strings, numbers, words, blanks | `specs/Grammar.antt` |
//! | the spelled tree, its text, which trees are JSON, how deep they are | `specs/Spelled.antt` |
//! | the tree without blanks | `specs/Plain.antt` |
//! | the characters that a string stands for | `specs/Decoding.antt` |
//! | where bytes stop to be the front of a text | `specs/Fronts.antt` |
//! | the grammar of paths | `specs/Paths.antt` |
//! | where a path leads | `specs/Follow.antt` |
//! | changes of a tree, and the same of a plain one | `specs/Moves.antt`, `specs/PlainMoves.antt` |
//! | what stands round a change | `specs/Splices.antt` |
//! | what an opcode does at a path | `specs/Edit.antt` |
//! | the value that comes with an edit | `specs/Values.antt` |
//! | the order of refusals | `specs/Order.antt` |
//! | texts whose changes are worked out by hand | `specs/Worked.antt` |
#![tactic(auto)]

mod asked;
mod kinds;
mod laws;

pub use asked::{Edit, Lookup, Part};
pub use kinds::{Kind, Shape};
pub use laws::{
    depth_counts_below_the_trail, edits_are_plain, edits_are_splices, edits_keep_json, limits,
    one_outcome, opcodes, paths_lead_by_trails, worked_elements, worked_members,
};

/// How deep the objects and arrays of a text may nest.
pub const MOST_DEEP: u8 = 32;

/// How many bytes a path has at most.
pub const PATH_LIMIT: usize = 1024;

/// How many parts a path has at most.
pub const PARTS_LIMIT: usize = 32;

/// How many bytes the text has at most that an edit leaves.
pub const TEXT_LIMIT: usize = 20_971_520;
