//! Laws of what a copy's steps leave on its disk, in any representation of logs and any layout.

ghost use Rattle.std.specs.Prelude.{◌≡◌, ◌⊎◌, ℕ, Bool, true, false, List, None, Ok};
ghost use Rattle.vb_log.specs.Logs.{LogKind};
ghost use Rattle.replica_core.specs.declared.fences.FenceAnswer.{FenceAnswer};
ghost use Rattle.replica_core.specs.Terms.{is_dead};
ghost use Rattle.copy_model.specs.Copies.{Copy, Fine, LayoutKind, Luck};
ghost use Rattle.copy_model.specs.Events.{Event, step, nothing, flushes, promotes};
ghost use Rattle.copy_model.specs.Grown.{IsStored};
ghost use Rattle.copy_model.specs.Laying.{writes};

/// A dead copy stays as it is, whatever comes: dead, with its log and the term of it, its promise,
/// and what its disk may hold.
pub fn dead_copies_stay<L, Y>()
    ensures { (k : LogKind L) (y : LayoutKind Y) (luck : Luck Y) (e : Event L) (c : Copy L Y) →
        is_dead c.role ≡ true →
        let d = (step k y luck e c).0 in
        (d.role ≡ c.role) × (d.log ≡ c.log) × (d.accepted ≡ c.accepted)
        × (d.promise ≡ c.promise) × (d.disk ≡ c.disk) × (d.torn ≡ c.torn) }
{}

/// Where an event leaves another pair on disk, this has the layout that luck chose: no write keeps
/// an old layout or makes up one of its own.
pub fn written_disks_have_their_layout<L, Y>()
    ensures { (k : LogKind L) (y : LayoutKind Y) (luck : Luck Y) (e : Event L) (c : Copy L Y) →
        let d = (step k y luck e c).0 in
        (d.disk ≡ c.disk) ⊎ (d.disk.layout ≡ luck.layout) }
{}

/// An event that doesn't write leaves what the disk may hold as it was, however it fares: `writes`
/// misses no write. Before it, no stopped write may have left another pair on a living copy's disk.
pub fn unwritten_disks_stay<L, Y>()
    ensures { (k : LogKind L) (y : LayoutKind Y) (luck : Luck Y) (e : Event L) (c : Copy L Y) →
        (is_dead c.role ≡ false → c.torn ≡ None) → writes k y e c ≡ false →
        let d = (step k y luck e c).0 in
        (d.disk ≡ c.disk) × (d.torn ≡ c.torn) }
{}

/// An event that writes leaves on disk what it wrote, where all goes well: `writes` names no event
/// that may go well without a write.
pub fn events_that_write_do<L, Y>()
    ensures { (k : LogKind L) (y : LayoutKind Y) (luck : Luck Y) (e : Event L) (c : Copy L Y) →
        (is_dead c.role ≡ false → c.torn ≡ None) → writes k y e c ≡ true → luck.chance ≡ Fine →
        (step k y luck e c).0.disk.layout ≡ luck.layout }
{}

/// An event that may leave another pair on disk, by a write that stopped, leaves the copy dead.
pub fn stopped_writes_leave_the_copy_dead<L, Y>()
    ensures { (k : LogKind L) (y : LayoutKind Y) (luck : Luck Y) (e : Event L) (c : Copy L Y) →
        let d = (step k y luck e c).0 in
        (d.torn ≡ c.torn) ⊎ (is_dead d.role ≡ true) }
{}

/// Of a living copy it is known which pair its disk holds: where that is so, it is so after any
/// event that leaves the copy alive.
pub fn living_copies_have_one_pair<L, Y>()
    ensures { (k : LogKind L) (y : LayoutKind Y) (luck : Luck Y) (e : Event L) (c : Copy L Y) →
        (is_dead c.role ≡ false → c.torn ≡ None) →
        let d = (step k y luck e c).0 in
        is_dead d.role ≡ false → d.torn ≡ None }
{}

/// A flush that is told to be done put all of the log on disk at its accepted term, and told how
/// many entries it has; a promotion that is told to be done put all of the log on disk at its term.
pub fn what_is_told_is_on_disk<L, Y>()
    ensures flushed { (k : LogKind L) (y : LayoutKind Y) (luck : Luck Y) (c : Copy L Y) (n : ℕ) →
        (flushes k y luck c).1 ≡ Ok n →
        IsStored c.accepted c (flushes k y luck c).0 × (n ≡ (k.view c.log).length) }
    ensures promoted { (k : LogKind L) (y : LayoutKind Y) (luck : Luck Y) (c : Copy L Y)
        (term : ℕ) (answers : List FenceAnswer) (weak : Bool) →
        (promotes k y luck term answers weak c).1 ≡ Ok nothing →
        IsStored term c (promotes k y luck term answers weak c).0 }
{}
