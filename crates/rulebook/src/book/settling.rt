// Settling: the kept pairs become those of the greatest simulation.

ghost use Rattle.std.specs.Prelude.{◌≡◌, ℕ, ◌≤◌, false, ◌⊎◌, length, MatchResult};
ghost use Rattle.bits.specs.Matrix.{pair};
ghost use Rattle.automata.specs.Below.{pairs};
ghost use Rattle.automata.specs.Simulation.{Greatest, Keeps};
ghost use Rattle.rulebook.specs.Model.{machine, settling};
ghost use Rattle.rulebook.specs.View.{view, kept, lent_of, number_of, said_settled, handed_back};

use super::*;
use labels::LabelAlgebra;

impl<'t, P: Copy> Book<'t, P> {
    // The greatest simulation of the book, into `rows`, and the number of its pairs.
    fn simulation<L: LabelAlgebra<Predicate = P>>(&self, labels: &L, rows: &mut Rows<1024>) -> usize
        ensures keeps { Keeps (machine (L.LabelAlgebra.holds labels.now) (view self.now)) (pair rows.new.words) }
        ensures greatest { Greatest (machine (L.LabelAlgebra.holds labels.now) (view self.now)) (pair rows.new.words) }
        ensures empty { (p q : ℕ) → (self.now.inner.states ≤ p) ⊎ (self.now.inner.states ≤ q) → pair rows.new.words p q ≡ false }
        ensures count { result ≡ pairs (pair rows.new.words) (length (view self.now).marks) }
    {
        engine::settle(labels, self.arrows(), self.marks(), &mut rows.words)
    }

    // Settles an open book and takes its ticket back: declines with 8, 7, and then hands the ticket back. Answers the
    // number of kept pairs.
    pub fn settle<L: LabelAlgebra<Predicate = P>>(
        &mut self,
        labels: &L,
        ticket: Ticket,
    ) -> Result<usize, (Refusal, Ticket)>
        ensures says { said_settled result ≡ (settling (view self.old) (number_of ticket)).answer }
        ensures leaves { view self.new ≡ (settling (view self.old) (number_of ticket)).next }
        ensures keeps { MatchResult result (λ n. Keeps (machine (L.LabelAlgebra.holds labels.now) (view self.old)) (kept self.new) × (n ≡ pairs (kept self.new) (length (view self.old).marks))) (λ _. kept self.new ≡ kept self.old) }
        ensures back { handed_back result ticket }
        ensures lent { lent_of self.new ≡ lent_of self.old }
    {
        // The ticket goes one way or the other, which `?` cannot say of a value that may not be let go.
        match self.admit(&ticket, Act::Settles) {
            Err(why) => Err((why, ticket)),
            Ok(next) => {
                let Ticket { number: _ } = ticket;
                let mut rows = Rows::empty();
                let count = self.simulation(labels, &mut rows);
                self.inner.rows = rows;
                self.inner.condition = next;
                Ok(count)
            }
        }
    }
}
