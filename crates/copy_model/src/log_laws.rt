//! Laws of what a copy tells of durable writes, of how it becomes active, and of its log.

ghost use Rattle.std.specs.Prelude.{◌≡◌, ◌≢◌, ◌↔◌, ◌≤◌, false, true, List, Some};
ghost use Rattle.kv_request.specs.declared.reply.Reply.{Reply};
ghost use Rattle.doc_model.specs.declared.status.TheConstants.Status as status;
ghost use Rattle.vb_log.specs.declared.entry.Entry.{Entry};
ghost use Rattle.vb_log.specs.Logs.{whole_logs};
ghost use Rattle.replica_core.specs.Terms.{is_active};
ghost use Rattle.copy_model.specs.declared.outcome.Ticket.{Ticket};
ghost use Rattle.copy_model.specs.declared.outcome.Polled.TheVariants as polls;
ghost use Rattle.copy_model.specs.Copies.{Waiting, Copy, LayoutKind, Luck};
ghost use Rattle.copy_model.specs.Requests.{fate_of, polled};
ghost use Rattle.copy_model.specs.Events.{Event, step};
ghost use Rattle.copy_model.specs.Grown.{TellsWhere, TellsCommit, AreBorne};
ghost use Rattle.copy_model.specs.Grown.{IsPromoted, IsLonger, hears_all};

/// A durable write that waited is answered with another status than `SYNC_WRITE_AMBIGUOUS` only
/// where its Commit was made, and the reply's token, if it has one, then has the Commit's position.
/// A ticket is pending exactly while nothing is decided of its prepare.
pub fn success_means_it_stands<L, Y>()
    ensures stands { (ticket : Ticket) (c : Copy L Y) (reply : Reply) →
        (polled ticket c).1 ≡ polls.Done reply →
        reply.status ≢ status.SYNC_WRITE_AMBIGUOUS →
        TellsWhere ticket (fate_of ticket c) reply }
    ensures waits { (ticket : Ticket) (c : Copy L Y) (next : Ticket) →
        ((polled ticket c).1 ≡ polls.Pending next)
        ↔ ((fate_of ticket c ≡ Some Waiting) × (next ≡ ticket)) }
{}

/// If a copy's log has the Commit of each open ticket that stands, at the ticket's position, then
/// so it does after any event but a message that brings all of a log. A durable write that waited
/// is then answered with another status than `SYNC_WRITE_AMBIGUOUS` only where its Commit is in the
/// log, at the position that the reply's token has, if there is one.
pub fn success_has_its_commit<Y>()
    ensures kept { (y : LayoutKind Y) (luck : Luck Y) (e : Event (List Entry))
        (c : Copy (List Entry) Y) →
        hears_all e ≡ false → AreBorne c.log c.tickets →
        AreBorne (step whole_logs y luck e c).0.log (step whole_logs y luck e c).0.tickets }
    ensures told { (ticket : Ticket) (c : Copy (List Entry) Y) (reply : Reply) →
        AreBorne c.log c.tickets →
        (polled ticket c).1 ≡ polls.Done reply →
        reply.status ≢ status.SYNC_WRITE_AMBIGUOUS →
        TellsCommit c.log ticket reply }
{}

/// A copy that isn't active becomes active only by a promotion, and only by one whose answers allow
/// it; its log is then one of the promotion's term.
pub fn only_a_rightful_promotion_makes_active<Y>()
    ensures { (y : LayoutKind Y) (luck : Luck Y) (e : Event (List Entry))
        (c : Copy (List Entry) Y) →
        is_active c.role ≡ false →
        is_active (step whole_logs y luck e c).0.role ≡ true →
        IsPromoted e c (step whole_logs y luck e c).0 }
{}

/// No event takes an entry out of a copy's log or puts one before another: the log goes on from
/// what it was. Only a message that brings all of a log may put another one in its place.
pub fn logs_only_grow<Y>()
    ensures { (y : LayoutKind Y) (luck : Luck Y) (e : Event (List Entry))
        (c : Copy (List Entry) Y) →
        hears_all e ≡ false → IsLonger c.log (step whole_logs y luck e c).0.log }
{}

/// A copy never goes back on its promise: no event lowers the term below which it takes nothing.
pub fn promises_rise<Y>()
    ensures { (y : LayoutKind Y) (luck : Luck Y) (e : Event (List Entry))
        (c : Copy (List Entry) Y) →
        c.promise ≤ (step whole_logs y luck e c).0.promise }
{}

/// A copy never goes back to an earlier term's log: no event lowers the term that it has accepted.
pub fn accepted_terms_rise<Y>()
    ensures { (y : LayoutKind Y) (luck : Luck Y) (e : Event (List Entry))
        (c : Copy (List Entry) Y) →
        c.accepted ≤ (step whole_logs y luck e c).0.accepted }
{}
