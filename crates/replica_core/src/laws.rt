//! Laws of terms, promotions and messages. Each function does nothing; its contract is the law.

ghost use Rattle.std.specs.Prelude.{◌≡◌, ℕ, ◌<◌, ◌≤◌, ◌%◌, ◌^◌, ◌||◌, nat_eq, Bool, true, false, List, None, Ok, ◌⊎◌};
ghost use Rattle.std.specs.List.{list_all, list_any};
ghost use Rattle.durability_core.specs.Chains.{named_places};
ghost use Rattle.durability_core.specs.Ready.{most_pass};
ghost use Rattle.replica_core.specs.declared.copy.CopyCore.{CopyCore};
ghost use Rattle.replica_core.specs.declared.copy.Role.TheVariants as roles;
ghost use Rattle.replica_core.specs.declared.fences.FenceAnswer.{FenceAnswer};
ghost use Rattle.replica_core.specs.declared.messages.MessageHead.{MessageHead};
ghost use Rattle.replica_core.specs.declared.messages.Heard.TheVariants as hearing;
ghost use Rattle.replica_core.specs.Terms.{owns};
ghost use Rattle.replica_core.specs.Promotion.{answer_at, same_answer, is_behind, has_answered};
ghost use Rattle.replica_core.specs.Promotion.{are_many, none_foreign, promote_fault};
ghost use Rattle.replica_core.specs.Hearing.{heard};
ghost use Rattle.replica_core.specs.Moving.{fenced, fence_answer, after_promotion, with_all};

/// A term has one owner, a place from 0 to 3; each number from 4 to below 2^48 has its own, and no
/// other number has one.
pub fn terms_have_one_owner()
    ensures one { (first second term : ℕ)
        → owns first term ≡ true → owns second term ≡ true → first ≡ second }
    ensures place { (place term : ℕ) → owns place term ≡ true → place < 4 }
    ensures least { (place number : ℕ) → number < 4 → owns place number ≡ false }
    ensures most { (place number : ℕ) → 2 ^ 48 ≤ number → owns place number ≡ false }
    ensures each { (term : ℕ) → 4 ≤ term → term < 2 ^ 48 → owns (term % 4) term ≡ true }
{}

/// A promotion that isn't refused is one by the owner of the term, to a term above that of its log,
/// which it promised, with answers of a majority of the named places, its own as it is now among
/// them, none ahead of the copy, and all of them whole unless it is a weak one.
pub fn promotion_needs_a_majority()
    ensures owner { (core : CopyCore) (term : ℕ) (answers : List FenceAnswer) (weak : Bool)
        → promote_fault core term answers weak ≡ None → owns core.place term ≡ true }
    ensures later { (core : CopyCore) (term : ℕ) (answers : List FenceAnswer) (weak : Bool)
        → promote_fault core term answers weak ≡ None → core.accepted < term }
    ensures many { (core : CopyCore) (term : ℕ) (answers : List FenceAnswer) (weak : Bool)
        → promote_fault core term answers weak ≡ None → are_many core term answers ≡ true }
    ensures longest { (core : CopyCore) (term : ℕ) (answers : List FenceAnswer) (weak : Bool)
        → promote_fault core term answers weak ≡ None
        → list_any (is_behind core) answers ≡ false }
    ensures promised { (core : CopyCore) (term : ℕ) (answers : List FenceAnswer) (weak : Bool)
        → promote_fault core term answers weak ≡ None → core.promise ≡ term }
    ensures own { (core : CopyCore) (term : ℕ) (answers : List FenceAnswer) (weak : Bool)
        → promote_fault core term answers weak ≡ None
        → list_any (same_answer (answer_at term core)) answers ≡ true }
    ensures whole { (core : CopyCore) (term : ℕ) (answers : List FenceAnswer)
        → promote_fault core term answers false ≡ None
        → list_all (λ (a : FenceAnswer). a.whole) answers ≡ true }
{}

/// A promotion of a copy that promised the term is refused for one of these reasons alone: its place
/// isn't the owner, its log is of as late a term, too few answered, an answer is foreign or ahead,
/// or the promotion is strict and an answer isn't whole.
pub fn rightful_promotions_are_made()
    ensures { (core : CopyCore) (term : ℕ) (answers : List FenceAnswer) (weak : Bool)
        → owns core.place term ≡ true → core.accepted < term → core.promise ≡ term
        → are_many core term answers ≡ true → none_foreign core term answers ≡ true
        → list_any (is_behind core) answers ≡ false
        → (weak || list_all (λ (a : FenceAnswer). a.whole) answers) ≡ true
        → promote_fault core term answers weak ≡ None }
{}

/// What a majority of a chain's places have is had by one that answered a promotion which isn't
/// refused: some named place answered at the term and passes the majority's test.
pub fn promotion_meets_each_majority()
    ensures { (core : CopyCore) (term : ℕ) (answers : List FenceAnswer) (weak : Bool)
        (test : ℕ → Bool)
        → promote_fault core term answers weak ≡ None → most_pass core.chain test ≡ true
        → (place : ℕ) × (list_any (nat_eq place) (named_places core.chain) ≡ true)
        × (has_answered term answers place ≡ true) × (test place ≡ true) }
{}

/// A copy that is dead ignores each message.
pub fn dead_copies_hear_nothing()
    ensures { (core : CopyCore) (head : MessageHead)
        → core.role ≡ roles.Dead → heard core head ≡ hearing.Ignore }
{}

/// Nothing lowers a copy's promise: no fence, no promotion, and no message of which all is taken.
pub fn promises_never_fall()
    ensures fenced { (core : CopyCore) (term : ℕ) → core.promise ≤ (fenced term core).promise }
    ensures promoted { (core : CopyCore) (term : ℕ) (answers : List FenceAnswer) (weak : Bool)
        → (after_promotion term (promote_fault core term answers weak) core).promise
        ≡ core.promise }
    ensures taken { (core : CopyCore) (head : MessageHead)
        → core.promise ≤ (with_all head core).promise }
{}

/// A copy that answers a fence has promised its term: it is the promise then.
pub fn fences_are_promised()
    ensures { (core : CopyCore) (term : ℕ) (answer : FenceAnswer)
        → fence_answer term core ≡ Ok answer → (fenced term core).promise ≡ term }
{}

/// A copy takes all that a message brings only from the owner of the message's term, which is not below its promise, and only
/// where that is a log of a later term, or a longer one of the same.
pub fn only_more_is_taken()
    ensures owner { (core : CopyCore) (head : MessageHead)
        → heard core head ≡ hearing.TakeAll → owns head.from head.term ≡ true }
    ensures promise { (core : CopyCore) (head : MessageHead)
        → heard core head ≡ hearing.TakeAll → (with_all head core).promise ≡ head.term }
    ensures more { (core : CopyCore) (head : MessageHead)
        → heard core head ≡ hearing.TakeAll
        → (core.accepted < head.term)
        ⊎ ((core.accepted ≡ head.term) × (core.length < head.second)) }
{}
