//! What a look-up and an edit of a JSON text come to, as functions: for each text, path and value
//! there is one answer.
//!
//! The definitions of JSON, paths and edits are relations (`json_model`). What a document becomes
//! has to be one thing, so the layers above speak of functions: `looked_up` and `edited` of
//! `specs/Answers.antt`. The laws here say that their answers are those of the relations, and that
//! the relations have no others. Further laws say what that comes to for those who ask: what an
//! edit leaves is a JSON text, not too deep and not too long; what was upserted is found; what
//! stands at other names stays.
//!
//! | What | Where |
//! |---|---|
//! | what a look-up and an edit answer | `specs/Answers.antt` |
//! | the parts that a path has, and where they lead | `specs/Paths.antt` |
//! | the text that bytes are | `specs/Texts.antt` |
//! | what comes with an edit | `specs/Given.antt` |
//! | paths of which neither is a beginning of the other | `specs/Apart.antt` |
#![tactic(auto)]

mod laws;
mod user_laws;

pub use laws::{edits_have_one_answer, look_ups_have_one_answer};
pub use user_laws::{edits_leave_json, looks_are_within, other_members_stay, upserted_is_found};
