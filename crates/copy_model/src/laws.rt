//! Laws of how copies begin, and of their steps on whole logs and on what they come to.

ghost use Rattle.std.specs.Prelude.{◌≡◌, ℕ, List};
ghost use Rattle.vb_log.specs.declared.entry.Entry.{Entry};
ghost use Rattle.vb_log.specs.Content.{Content};
ghost use Rattle.vb_log.specs.Logs.{LogKind, whole_logs, folds};
ghost use Rattle.durability_core.specs.declared.chain.Chain.{Chain};
ghost use Rattle.copy_model.specs.Copies.{Pair, Copy, LayoutKind, Luck};
ghost use Rattle.copy_model.specs.Openings.{new_copy, Opened, opening, IsNew, IsOpenedOn};
ghost use Rattle.copy_model.specs.Events.{Event, Told, step};
ghost use Rattle.copy_model.specs.Laying.{May};
ghost use Rattle.copy_model.specs.Folded.{folded, folded_event, folded_told, folded_after};

/// An event on a copy with its whole log comes to the same as on the copy with what the log comes
/// to, in any layout.
pub fn steps_fold<Y>()
    ensures { (y : LayoutKind Y) (luck : Luck Y) (e : Event (List Entry))
        (c : Copy (List Entry) Y) →
        folded_after whole_logs (step whole_logs y luck e c)
        ≡ step folds y luck (folded_event whole_logs e) (folded whole_logs c) }
{}

/// What a copy with its whole log may become by an event, a copy with what the log comes to may
/// become by it (`folds_may`); and what that may become, some copy with its whole log may
/// (`wholes_may`).
pub fn copies_may_the_same<Y>()
    ensures folds_may { (y : LayoutKind Y) (e : Event (List Entry)) (c new : Copy (List Entry) Y)
        (told : Told (List Entry)) → May whole_logs y e c new told →
        May folds y (folded_event whole_logs e) (folded whole_logs c) (folded whole_logs new)
        (folded_told whole_logs told) }
    ensures wholes_may { (y : LayoutKind Y) (e : Event (List Entry)) (c : Copy (List Entry) Y)
        (d : Copy Content Y) (told : Told Content) →
        May folds y (folded_event whole_logs e) (folded whole_logs c) d told →
        (r : Copy (List Entry) Y × Told (List Entry)) × May whole_logs y e c r.0 r.1
        × (folded_after whole_logs r ≡ (d, told)) }
{}

/// A copy begins as a replica: on an empty disk whole and without anything (`new`), and on a pair
/// with what the pair has, not whole, and only where the pair isn't spent (`opened`).
pub fn copies_begin_as_replicas<L, Y>()
    ensures new { (k : LogKind L) (chain : Chain) (place number : ℕ) (layout : Y) →
        IsNew k (new_copy k chain place number layout) }
    ensures opened { (luck : Luck Y) (chain : Chain) (place number : ℕ) (d : Pair L Y)
        (c : Copy L Y) →
        opening luck chain place number d ≡ Opened c → IsOpenedOn d c }
{}
