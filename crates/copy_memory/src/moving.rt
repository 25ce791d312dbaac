//! How a copy's numbers move: what it promises, which part it has, and what it takes from another.

ghost use Rattle.std.specs.Prelude.{◌≡◌, ◌⊎◌, ◌<◌, ◌≤◌, ℕ, true, false, OnOk, OnErr};
ghost use Rattle.copy_model.specs.Copies.{Copy};
ghost use Rattle.copy_model.specs.Entries.{in_role, disk_length};
ghost use Rattle.copy_model.specs.Hearing as hearing;
ghost use Rattle.replica_core.specs.Terms.{is_active};
ghost use Rattle.vb_log.specs.Content as contents;
ghost use Rattle.vb_log.specs.Logs.{folds};
ghost use Rattle.copy_memory.specs.Remembers.{Remembers, Becomes};
ghost use Rattle.copy_memory.specs.Moving.{promised, GoesOn};
ghost use Rattle.copy_memory.specs.Shown.{Rests};

use crate::memory::Memory;
use kv_edge::NoMemory;
use replica_core::Role;
use vb_log::{Content, length};

impl Memory {
    /// Puts the copy in a role that isn't the active one. Who waits for a durable write of an active copy is left. It takes no
    /// memory, and one step whatever waits.
    pub fn leave(&mut self, role: Role)
        requires { is_active role ≡ false }
        ensures { Becomes self.old self.new (in_role role) }
    {
        self.core.role = role;
        self.tracker = None;
    }

    /// Promises a term, which is on disk already.
    pub fn promise(&mut self, term: u64)
        ensures { Becomes self.old self.new (promised term) }
    {
        self.core.promise = term;
    }

    /// The copy is whole, and tells the owner of its term how far it is, of whose log of that term so many entries are on
    /// disk. At `Err` all is as before.
    pub fn make_whole(&mut self, on_disk: u64) -> Result<(), NoMemory>
        ensures ok { OnOk result ((c : Copy contents.Content ℕ) → Remembers self.old c → is_active c.role ≡ false
            → disk_length folds c ≡ on_disk → Remembers self.new (hearing.made_whole folds c)) }
        ensures err { OnErr result (Rests self.old self.new) }
    {
        self.unspoken.reserve(1)?;
        self.core.whole = true;
        self.acknowledge_reserved(on_disk);
        Ok(())
    }

    /// A copy that isn't active takes a log that comes to a content, and its term, in place of its own, and tells the owner of
    /// the term how far it is: nothing of it is on disk, but for what a log of the same term has there. At `Err` all is as
    /// before.
    pub fn take(&mut self, term: u64, content: Content, on_disk: u64) -> Result<(), NoMemory>
        requires on { GoesOn self.old term content }
        ensures ok { OnOk result ((c : Copy contents.Content ℕ) → Remembers self.old c → is_active c.role ≡ false
            → disk_length folds (record c { accepted = term }) ≡ on_disk → Remembers self.new (hearing.taken folds term content c)) }
        ensures err { OnErr result (Rests self.old self.new) }
    {
        self.unspoken.reserve(1)?;
        self.core.accepted = term;
        self.core.length = length(&content);
        self.core.whole = true;
        self.content = content;
        self.acknowledge_reserved(on_disk);
        Ok(())
    }
}
