//! What runs of `pipe` do to the documents on their disk.

ghost use Rattle.std.specs.Prelude.{◌≡◌, ◌++◌, ℕ, Bool, Option, List, [], ◌∷◌, Result};
ghost use Rattle.magma_disk.specs.Device.{Device};
ghost use Rattle.vb_log.specs.Content.{Content};
ghost use Rattle.copy_model.specs.declared.outcome.VbFault.{VbFault};
ghost use Rattle.copy_model.specs.Copies.{Copy};
ghost use Rattle.vb_core.specs.Flat.{flat};
ghost use Rattle.kv_tool.specs.Course.{only_chain, Knowledge, IsAt};
ghost use Rattle.kv_tool.specs.Outcomes.{Seen, IsMoment, Run, IsRun, Closes};
ghost use Rattle.copy_laws.specs.Histories.{Flushed, TakesAll};
ghost use Rattle.pipe_laws.specs.Deeds.{deeds_of};

/// A run that begins as a copy ends as one that its deeds make of it (`answered`), and as one that they and a
/// flush make where the vbucket is put on disk in the end (`flushed`).
pub fn runs_are_histories()
    ensures answered { (clock : Option ℕ) (may : ℕ → Bool) (states : List Device) (run : Run) (copy : Copy Content ℕ) →
        IsRun (IsMoment clock may) states run → run.begin ≡ IsAt copy 0 →
        (after : Copy Content ℕ) × (faults : ℕ) × (run.end ≡ IsAt after faults)
        × TakesAll (flat only_chain) copy (deeds_of run) after }
    ensures flushed { (clock : Option ℕ) (may : ℕ → Bool) (seen : Seen) (told : Result ℕ VbFault) (copy : Copy Content ℕ)
        (closes : Closes (IsMoment clock may) seen told) → closes.run.begin ≡ IsAt copy 0 →
        (after : Copy Content ℕ) × (faults : ℕ) × (closes.last ≡ IsAt after faults)
        × TakesAll (flat only_chain) copy (deeds_of closes.run ++ Flushed told ∷ []) after }
{}
