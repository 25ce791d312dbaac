//! What holds of the report of a script.

ghost use Rattle.std.specs.Prelude.{◌≡◌, ℕ, List, [], ◌∷◌, Some, codes};
ghost use Rattle.kv_script.specs.declared.line.Line.{Line};
ghost use Rattle.vb_log.specs.Logs.{LogKind};
ghost use Rattle.durability_core.specs.declared.chain.Chain.{Chain};
ghost use Rattle.replica_core.specs.declared.fences.PromoteFault.TheVariants as refusals;
ghost use Rattle.copy_model.specs.Copies.{LayoutKind};
ghost use Rattle.copy_model.specs.Laying.{IsBegun};
ghost use Rattle.world_model.specs.Facts as facts;
ghost use Rattle.world_model.specs.Facts.{Fact, fact_line};
ghost use Rattle.world_model.specs.Replays.{Replay};
ghost use Rattle.world_model.specs.Scripts.{LinesDo, Reports, IsChain};
ghost use Rattle.world_model.specs.Worlds.{World, Run, first_world};

/// What lines do is a run of the world: each takes it by steps from where it was. So a script's report is that of a run from
/// empty disks.
pub fn reports_are_of_runs<L, Y>()
    ensures lines { (k : LogKind L) (y : LayoutKind Y) (s : World L Y) (script : List Line) (old new : Replay L Y)
        (told : List Fact) →
        Run k y s old.world → LinesDo k y script old told new → Run k y s new.world }
    ensures report { (k : LogKind L) (y : LayoutKind Y) (number : ℕ) (script : List Line) (told : List Fact)
        (end : Replay L Y) →
        Reports k y number script told end →
        (layout : Y) × (chain : Chain) × IsChain chain.names × IsBegun y layout
        × Run k y (first_world k layout chain number) end.world }
{}

/// The lines of some facts of a chain of two named places, word for word.
pub fn facts_have_lines()
    ensures down { (chain : Chain) → chain.names ≡ Some (codes "a") ∷ Some (codes "b") ∷ [] →
        fact_line chain (facts.IsDown 1) ≡ codes "down b\n" }
    ensures fault { (chain : Chain) → chain.names ≡ Some (codes "a") ∷ Some (codes "b") ∷ [] →
        fact_line chain (facts.Fault (codes "flush") 0) ≡ codes "flush a fault\n" }
    ensures refused { (chain : Chain) → chain.names ≡ Some (codes "a") ∷ Some (codes "b") ∷ [] →
        fact_line chain (facts.Refused 1 refusals.NotLongest) ≡ codes "refused b NotLongest\n" }
    ensures crashed { (chain : Chain) → chain.names ≡ Some (codes "a") ∷ Some (codes "b") ∷ [] →
        fact_line chain (facts.Crashed 0) ≡ codes "crashed a\n" }
{}
