//! What holds of every world and each of its runs.

ghost use Rattle.std.specs.Prelude.{◌≡◌, ℕ, true, List};
ghost use Rattle.vb_log.specs.declared.entry.Entry.{Entry};
ghost use Rattle.vb_log.specs.Logs.{LogKind, whole_logs, folds};
ghost use Rattle.durability_core.specs.declared.chain.Chain.{Chain};
ghost use Rattle.replica_core.specs.Terms.{is_active, is_term, owner};
ghost use Rattle.copy_model.specs.Copies.{Copy, LayoutKind};
ghost use Rattle.world_model.specs.Worlds.{World, Up, Step, Run, Then, seat_at, first_world, Remembers, IsFirstAt};
ghost use Rattle.world_model.specs.Terms.{term_of};
ghost use Rattle.world_model.specs.Folded.{folded_world};

/// A later world has all that was sent and answered before it, in the same order, and its chain and
/// number are the same.
pub fn nothing_is_unsaid<L, Y>()
    ensures { (k : LogKind L) (y : LayoutKind Y) (s w : World L Y) →
        Run k y s w → Remembers s w }
{}

/// A term that its owner has accepted stays accepted along a run, with the base that it has.
pub fn bases_stay<L, Y>()
    ensures had { (k : LogKind L) (y : LayoutKind Y) (s v w : World L Y) (run : Run k y s v)
        (last : Step k y v w) (term : ℕ) →
        (term_of run term).had ≡ true → (term_of (Then run last) term).had ≡ true }
    ensures base { (k : LogKind L) (y : LayoutKind Y) (s v w : World L Y) (run : Run k y s v)
        (last : Step k y v w) (term : ℕ) →
        (term_of run term).had ≡ true →
        (term_of (Then run last) term).base ≡ (term_of run term).base }
{}

/// Where a term's owner is active at it, it has accepted the term, and its log is the term's lead.
pub fn leads_are_of_actives<L, Y>()
    ensures had { (k : LogKind L) (y : LayoutKind Y) (s v w : World L Y) (run : Run k y s v)
        (last : Step k y v w) (c : Copy L Y) →
        seat_at w (owner c.accepted) ≡ Up c → is_active c.role ≡ true →
        is_term c.accepted ≡ true → (term_of (Then run last) c.accepted).had ≡ true }
    ensures lead { (k : LogKind L) (y : LayoutKind Y) (s v w : World L Y) (run : Run k y s v)
        (last : Step k y v w) (c : Copy L Y) →
        seat_at w (owner c.accepted) ≡ Up c → is_active c.role ≡ true →
        is_term c.accepted ≡ true → (term_of (Then run last) c.accepted).lead ≡ c.log }
{}

/// Each copy of a world that just begins knows its place, its chain and its vbucket's number, and
/// has no entry.
pub fn copies_begin_new<L, Y>()
    ensures { (k : LogKind L) (layout : Y) (chain : Chain) (number x : ℕ) (c : Copy L Y) →
        seat_at (first_world k layout chain number) x ≡ Up c → IsFirstAt k chain number x c }
{}

/// A run of a world is one of what its logs come to (`runs`), from the same beginning (`begins`): so
/// what a node keeps is enough to take every step.
pub fn worlds_fold<Y>()
    ensures runs { (y : LayoutKind Y) (s w : World (List Entry) Y) →
        Run whole_logs y s w → Run folds y (folded_world whole_logs s) (folded_world whole_logs w) }
    ensures begins { (layout : Y) (chain : Chain) (number : ℕ) →
        folded_world whole_logs (first_world whole_logs layout chain number)
        ≡ first_world folds layout chain number }
{}
