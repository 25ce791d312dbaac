//! Laws of majorities, of readiness and of trackers. Each function does nothing; its contract is the law.

ghost use Rattle.std.specs.Prelude.{◌≡◌, ◌≢◌, ◌≤◌, ℕ, nat_eq, nat_le, Bool, true, false, List, ◌∷◌, ◌++◌, take_while};
ghost use Rattle.std.specs.List.{list_all, list_any};
ghost use Rattle.durability_core.specs.declared.chain.Chain.{Chain};
ghost use Rattle.durability_core.specs.Chains.{majority, named_places};
ghost use Rattle.durability_core.specs.declared.waiting.Waiting.{Waiting};
ghost use Rattle.durability_core.specs.Tracking.{Tracked, known_at, told, is_inherited, is_due, still_waiting};
ghost use Rattle.durability_core.specs.Ready.{Known, KnowsMore, most_pass, can_commit, is_ready};

/// How many places are a majority of 1, 2, 3 and 4.
pub fn chain_numbers()
    ensures of_one { majority 1 ≡ 1 }
    ensures of_two { majority 2 ≡ 2 }
    ensures of_three { majority 3 ≡ 2 }
    ensures of_four { majority 4 ≡ 3 }
{}

/// Two majorities of a chain's places meet: where a majority has a name and passes one test, and a
/// majority has a name and passes another, some place has a name and passes both.
pub fn majorities_meet()
    ensures { (chain : Chain) (first second : ℕ → Bool)
        → most_pass chain first ≡ true → most_pass chain second ≡ true
        → (place : ℕ) × (list_any (nat_eq place) (named_places chain) ≡ true)
        × (first place ≡ true) × (second place ≡ true) }
{}

/// A prepare that is ready stays so while more is known of the places.
pub fn readiness_lasts()
    ensures { (chain : Chain) (own level position : ℕ) (before after : ℕ → Known)
        → KnowsMore before after
        → is_ready chain own before level position ≡ true
        → is_ready chain own after level position ≡ true }
{}

/// Where no log is known to be longer on disk than in memory, a prepare that is ready at level 3 is
/// ready at level 2; and one that is ready at level 2 is ready at level 1.
pub fn stronger_is_ready()
    ensures on_own_disk { (chain : Chain) (own position : ℕ) (known : ℕ → Known)
        → ((place : ℕ) → (known place).disk ≤ (known place).mem)
        → is_ready chain own known 3 position ≡ true
        → is_ready chain own known 2 position ≡ true }
    ensures in_memory { (chain : Chain) (own position : ℕ) (known : ℕ → Known)
        → is_ready chain own known 2 position ≡ true
        → is_ready chain own known 1 position ≡ true }
{}

/// Above level 1 a prepare that is ready is on the active's own disk; at level 3 it is on disk at a
/// majority of the places, and else in memory there.
pub fn ready_places_have_it()
    ensures own { (chain : Chain) (own level position : ℕ) (known : ℕ → Known)
        → 2 ≤ level → is_ready chain own known level position ≡ true
        → position ≤ (known own).disk }
    ensures on_disk { (chain : Chain) (own position : ℕ) (known : ℕ → Known)
        → is_ready chain own known 3 position ≡ true
        → most_pass chain (λ place. nat_le position (known place).disk) ≡ true }
    ensures in_memory { (chain : Chain) (own level position : ℕ) (known : ℕ → Known)
        → level ≢ 3 → is_ready chain own known level position ≡ true
        → most_pass chain (λ place. nat_le position (known place).mem) ≡ true }
{}

/// A prepare is ready at level 1 where a majority of the places has it in memory, at level 2 where
/// besides the active's own disk has it, and at level 3 where a majority has it on disk, and the
/// active's own disk.
pub fn what_places_have_is_ready()
    ensures in_memory { (chain : Chain) (own position : ℕ) (known : ℕ → Known)
        → most_pass chain (λ place. nat_le position (known place).mem) ≡ true
        → is_ready chain own known 1 position ≡ true }
    ensures own { (chain : Chain) (own position : ℕ) (known : ℕ → Known)
        → most_pass chain (λ place. nat_le position (known place).mem) ≡ true
        → position ≤ (known own).disk → is_ready chain own known 2 position ≡ true }
    ensures on_disk { (chain : Chain) (own position : ℕ) (known : ℕ → Known)
        → most_pass chain (λ place. nat_le position (known place).disk) ≡ true
        → position ≤ (known own).disk → is_ready chain own known 3 position ≡ true }
{}

/// A chain that names fewer than a majority of its places has no prepare that is ready.
pub fn nothing_is_ready_where_too_few_are_named()
    ensures { (chain : Chain) (own level position : ℕ) (known : ℕ → Known)
        → can_commit chain ≡ false → is_ready chain own known level position ≡ false }
{}

/// An Ack that comes again changes nothing more; and no Ack lowers what is known of a place.
pub fn acks_count_once()
    ensures once { (t : Tracked) (place mem disk : ℕ)
        → told place mem disk (told place mem disk t) ≡ told place mem disk t }
    ensures more { (t : Tracked) (place mem disk : ℕ)
        → KnowsMore (known_at t.known) (known_at (told place mem disk t).known) }
{}

/// What is committed is ready, it is the first of what waits, and the first prepare that is left isn't ready.
pub fn the_first_ready_are_committed()
    ensures ready { (ready : Waiting → Bool) (waiting : List Waiting)
        → list_all ready (take_while ready waiting) ≡ true }
    ensures first { (ready : Waiting → Bool) (waiting : List Waiting)
        → take_while ready waiting ++ still_waiting ready waiting ≡ waiting }
    ensures left { (ready : Waiting → Bool) (waiting others : List Waiting) (next : Waiting)
        → still_waiting ready waiting ≡ next ∷ others → ready next ≡ false }
{}

/// A prepare that was inherited isn't given up at any moment.
pub fn inherited_prepares_are_never_given_up()
    ensures { (now : ℕ) (prepare : Waiting)
        → is_inherited prepare ≡ true → is_due now prepare ≡ false }
{}
