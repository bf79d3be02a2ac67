// Reduce: the reduction of a settled book by the pairs that it keeps, into an empty target. Where these are the pairs that some simulation has,
// it is the least book that the settled one simulates and that simulates it.

ghost use Rattle.std.specs.Prelude.{◌≡◌, length, IfNone, IfOk, OnErr, MatchOption, MatchResult};
ghost use Rattle.bits.specs.Matrix.{pair};
ghost use Rattle.automata.specs.Automata.{automaton};
ghost use Rattle.automata.specs.Simulation.{Keeps};
ghost use Rattle.automata.specs.Minimal.{Minimal};
ghost use Rattle.reduction.specs.Filled.{Filled, Crowded};
ghost use Rattle.rulebook.specs.declared.parts.Condition.TheVariants.{Settled};
ghost use Rattle.rulebook.specs.declared.parts.Refusal.TheVariants.{TooSmall};
ghost use Rattle.rulebook.specs.Refusals.{is_settled};
ghost use Rattle.rulebook.specs.Model.{machine, book_is_empty};
ghost use Rattle.rulebook.specs.Reducing.{ReducedInto, ReduceGives};
ghost use Rattle.rulebook.specs.View.{view, kept, lent_of};

use super::*;
use labels::LabelAlgebra;
use reduction::Counts;

impl<'t, P> Book<'t, P> {
    // Whether it is settled and has no states.
    fn is_empty(&self) -> bool
        ensures { result ≡ book_is_empty (view self.now) }
    {
        matches!(self.inner.condition, Condition::Settled) && self.inner.states == 0
    }
}

impl<'t, P: Copy> Book<'t, P> {
    // Makes this book, which is settled, the reduction of a settled one, or declines with 3 where its table is too small.
    fn become_reduced<L: LabelAlgebra<Predicate = P>>(
        &mut self,
        labels: &L,
        source: &Book<'_, P>,
    ) -> Result<Counts, Refusal>
        requires target { self.old.inner.condition ≡ Settled }
        requires source { source.now.inner.condition ≡ Settled }
        ensures made { MatchResult result (λ c. ReducedInto (L.LabelAlgebra.holds labels.now) (view source.now) (kept source.now) (view self.old) c (view self.new) (kept self.new)) (λ e. (e ≡ TooSmall) × Crowded (machine (L.LabelAlgebra.holds labels.now) (view source.now)) (kept source.now) (view self.old).room) }
        ensures same { OnErr result ((view self.new ≡ view self.old) × (kept self.new ≡ kept self.old)) }
        ensures lent { lent_of self.new ≡ lent_of self.old }
    {
        let mut marks = [Mark::Neither; 256];
        let mut rows = Rows::empty();
        let counts = reduction::reduce(
            labels,
            source.arrows(),
            source.marks(),
            &source.inner.rows.words,
            self.slots,
            &mut marks,
            &mut rows.words,
        )
        .ok_or(Refusal::TooSmall)?;
        self.inner = Inner {
            number: self.inner.number,
            states: counts.states,
            marks,
            arrows: counts.arrows,
            condition: Condition::Settled,
            rows,
        };
        Ok(counts)
    }

    // Reduces a settled book into an empty target: declines with 6, 9, 3, and answers the counts of states and arrows.
    pub fn reduce<L: LabelAlgebra<Predicate = P>>(
        &self,
        labels: &L,
        target: &mut Book<'_, P>,
    ) -> Result<Counts, Refusal>
        ensures says { ReduceGives (L.LabelAlgebra.holds labels.now) (view self.now) (kept self.now) (view target.old) (kept target.old) result (view target.new) (kept target.new) }
        ensures least { IfOk result (λ c. Keeps (machine (L.LabelAlgebra.holds labels.now) (view self.now)) (kept self.now) → Minimal (machine (L.LabelAlgebra.holds labels.now) (view self.now)) (machine (L.LabelAlgebra.holds labels.now) (view target.new)) (kept target.new) c.arrows) }
        ensures lent { lent_of target.new ≡ lent_of target.old }
    {
        self.inner.condition.judge(Act::Reads)?;
        if !target.is_empty() {
            return Err(Refusal::TargetTaken);
        }
        target.become_reduced(labels, self)
    }
}
