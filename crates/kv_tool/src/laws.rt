//! What those who pipe frames rely on, as laws of the outcome that `run_offline` has.

ghost use Rattle.std.specs.Prelude.{◌≡◌, ℕ, Bool, List, ◌∷◌, Option, Ok};
ghost use Rattle.kv_edge.specs.Fields.{IsBytes};
ghost use Rattle.kv_frame.specs.declared.frame.Frame.{Frame};
ghost use Rattle.kv_request.specs.declared.reply.Reply.{Reply};
ghost use Rattle.kv_session.specs.Cutting.{IsDrained};
ghost use Rattle.kv_session.specs.Weaving.{output};
ghost use Rattle.magma_disk.specs.Calls.{MayLeave};
ghost use Rattle.magma_disk.specs.Device.{Device};
ghost use Rattle.vb_log.specs.Content.{Content};
ghost use Rattle.copy_model.specs.Copies.{Copy};
ghost use Rattle.kv_tool.specs.declared.exit.Exit.{Exit};
ghost use Rattle.kv_tool.specs.Course.{Knowledge, IsAt, known_by, Begins, KeepsAll};
ghost use Rattle.kv_tool.specs.Outcomes.{Seen, IsMoment, IsServed, Outcome};
ghost use Rattle.kv_tool.specs.Alike.{run_of, AreGiven, IsClear};

use crate::piping::INPUT_LIMIT;

/// Two calls of `run_offline` that serve the same input at the same moment from the same copy come to the same exit and write
/// the same bytes, however each cut the input into pieces: where source and sink tell their bytes, no call on them or on the
/// disk failed, memory and room sufficed, and no reply says that memory was refused.
pub fn same_output()
    ensures { (now : ℕ) (input before : List ℕ) (copy : Copy Content ℕ) (told others : Option ℕ) (may can : ℕ → Bool)
        (seen other : Seen) (exit end : Exit)
        (one : Outcome (IsMoment told may) seen exit) (two : Outcome (IsMoment others can) other end) →
        IsBytes input →
        IsClear now input before copy seen exit (run_of (IsMoment told may) seen exit one) →
        IsClear now input before copy other end (run_of (IsMoment others can) other end two) →
        (exit ≡ end) × (seen.written_now ≡ other.written_now) }
{}

/// Two readings of the same input, answered at the same moment from the same copy until nothing more is to be answered, are the
/// same frames and the same rest, and their replies are the same bytes, where the disk failed no event and no reply says that
/// memory was refused; and the copy comes to the same.
pub fn same_replies()
    ensures { (now : ℕ) (input : List ℕ) (frames others : List Frame) (rest left : List ℕ)
        (replies answers : List Reply) (copy after end : Copy Content ℕ) →
        IsServed now input frames rest replies (IsAt copy 0) (IsAt after 0) → IsDrained frames rest →
        IsServed now input others left answers (IsAt copy 0) (IsAt end 0) → IsDrained others left →
        AreGiven replies → AreGiven answers →
        (frames ≡ others) × (rest ≡ left) × (output frames replies ≡ output others answers) × (after ≡ end) }
{}

/// On devices with the same bytes a vbucket begins as the same copy.
pub fn one_beginning()
    ensures { (d e : Device) (past others : List Device) (one two : Knowledge) →
        d.bytes ≡ e.bytes → Begins (d ∷ past) one → Begins (e ∷ others) two → one ≡ two }
{}

/// On each device that a crash may leave behind a flush that was done a vbucket begins with the log that was flushed.
pub fn flushed_logs_are_there()
    ensures { (states : List Device) (count faults : ℕ) (copy : Copy Content ℕ) (d : Device) (past : List Device) (begin : Knowledge) →
        KeepsAll states (Ok count) (IsAt copy faults) → MayLeave states d.bytes → Begins (d ∷ past) begin →
        (next : Copy Content ℕ) × (next.log ≡ copy.log) × (begin ≡ known_by copy.log.prepares next) }
{}

/// The greatest number of input bytes is 2^28.
pub fn input_limit()
    ensures { INPUT_LIMIT ≡ 268435456 }
{}
