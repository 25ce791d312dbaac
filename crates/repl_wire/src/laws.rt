//! Laws of the bytes of messages. Each function does nothing; its contract is the law.
//!
//! Two more laws are clauses of `decode_link`. What `encode_link` appended is read again, as that
//! very message and all of its bytes, whatever follows: that is `only`. What is read has the very
//! bytes that `encode_link` appends: that is `answer`, by which they are the one spelling of the
//! message.

ghost use Rattle.std.specs.Prelude.{◌≡◌, ℕ, ◌+◌, ◌≤◌, List, ◌++◌, length};
ghost use Rattle.repl_wire.specs.declared.message.Message.{Message};
ghost use Rattle.repl_wire.specs.declared.message.Sent.{Sent};
ghost use Rattle.repl_wire.specs.Grammar.{IsAllowedMessage, IsSpelled, body_bytes};
ghost use Rattle.repl_wire.specs.Judging.{Lacks, IsBad};

use crate::limits::BODY_LIMIT;

/// No spelling begins another: of two messages at the front of the same bytes, both are one, in one
/// spelling.
pub fn one_message()
    ensures { (s t : Sent) (a b x y : List ℕ)
        → IsSpelled s a → IsSpelled t b → a ++ x ≡ b ++ y → (s ≡ t) × (a ≡ b) }
{}

/// Bytes are wrong at one place at most.
pub fn one_wrong_place()
    ensures { (bytes : List ℕ) (place other : ℕ)
        → IsBad bytes place → IsBad bytes other → place ≡ other }
{}

/// No message has wrong bytes at its front, and no bytes that follow these make it one.
pub fn wrong_bytes_stay_wrong()
    ensures { (s : Sent) (bytes more spelt rest : List ℕ) (place : ℕ)
        → IsBad bytes place → IsSpelled s spelt → bytes ++ more ≡ spelt ++ rest → ⊥ }
{}

/// Bytes that are said to be missing are: a message that has what is there at its front has at least
/// so many bytes more.
pub fn missing_bytes_are_missing()
    ensures { (s : Sent) (bytes more spelt rest : List ℕ) (n : ℕ)
        → Lacks bytes n → IsSpelled s spelt → bytes ++ more ≡ spelt ++ rest
        → length bytes + n ≤ length spelt }
{}

/// Each message that is allowed has a body within the limit.
pub fn bodies_keep_their_limit()
    ensures { (m : Message) → IsAllowedMessage m → length (body_bytes m) ≤ BODY_LIMIT }
{}
