ghost use Rattle.std.specs.Prelude.{◌≡◌, false};
ghost use Rattle.replica_core.specs.declared.messages.Heard.TheVariants as hearing;
ghost use Rattle.replica_core.specs.Terms.{is_active};
ghost use Rattle.replica_core.specs.Promotion as promotions;
ghost use Rattle.replica_core.specs.Hearing as hearings;
ghost use Rattle.replica_core.specs.Moving.{fenced, fence_answer, after_promotion, promotion_answer, with_all, in_role};

use crate::copy::{CopyCore, Role};
use crate::fences::{FenceAnswer, PromoteFault};
use crate::messages::MessageHead;
use crate::promoting::{answer_at, promote_fault};

impl CopyCore {
    /// Fences the copy at a term, and answers how far it is.
    ///
    /// A term above its promise is promised, and the copy is a replica then. Whoever keeps the copy puts the promise on
    /// disk before it tells the answer, and fences no dead copy.
    ///
    /// # Errors
    ///
    /// `Old` exactly where the term is below the promise; nothing is changed then.
    pub fn fence(&mut self, term: u64) -> Result<FenceAnswer, PromoteFault>
        ensures told { result ≡ fence_answer term self.old }
        ensures after { self.new ≡ fenced term self.old }
    {
        if term < self.promise {
            return Err(PromoteFault::Old);
        }
        if self.promise < term {
            self.promise = term;
            self.role = Role::Replica;
        }
        Ok(answer_at(term, self))
    }

    /// Makes the copy active at a term, by answers to fences at that term; it is whole then. It costs a step for each
    /// answer and place.
    ///
    /// # Errors
    ///
    /// The first of `Owner`, `Old`, `Few`, `Foreign`, `NotLongest` and `NotWhole` that holds; nothing is changed then.
    pub fn promote(
        &mut self,
        term: u64,
        answers: &[FenceAnswer],
        weak: bool,
    ) -> Result<(), PromoteFault>
        ensures told { result ≡ promotion_answer (promotions.promote_fault self.old term answers.now weak) }
        ensures after { self.new ≡ after_promotion term (promotions.promote_fault self.old term answers.now weak) self.old }
    {
        if let Some(fault) = promote_fault(self, term, answers, weak) {
            return Err(fault);
        }
        self.role = Role::Active;
        self.accepted = term;
        self.whole = true;
        Ok(())
    }

    /// Takes the numbers of a message of which the copy took all.
    pub fn taken(&mut self, head: &MessageHead)
        requires { hearings.heard self.old head.now ≡ hearing.TakeAll }
        ensures { self.new ≡ with_all head.now self.old }
    {
        if self.promise < head.term {
            self.promise = head.term;
        }
        self.accepted = head.term;
        self.length = head.second;
        self.whole = true;
    }

    /// Puts the copy in a role that isn't the active one.
    pub fn leave(&mut self, role: Role)
        requires { is_active role ≡ false }
        ensures { self.new ≡ in_role role self.old }
    {
        self.role = role;
    }
}
