// One column of the simulation: which states are still kept below a given one.
//
// A pair p, q stands as long as q answers each read of p. For a state q and a target t, one join tells all symbols that
// q reads to states that t is kept below; each arrow from some p to t is then tested against it. So a column costs a
// join for each target and each arrow that leaves q, and a test for each arrow. A target into which no arrow leads from
// a state still kept is passed over after a look at four words.

ghost use Rattle.std.specs.Prelude.{◌≡◌, ℕ, ◌<◌, true, Decides};
ghost use Rattle.std.specs.List.{AllByRecursion};
ghost use Rattle.bits.specs.Matrix.{pair};
ghost use Rattle.automata.specs.Simulation.{Answer, Wide};
ghost use Rattle.engine.specs.Columns.{machine, size, Gathered, Swept, Only, Answered, Met};

use crate::book::Indexed;
use crate::index::End;
use crate::states::states;
use bits::Rows;
use labels::LabelAlgebra;

impl<L: LabelAlgebra> Indexed<'_, L, L::Predicate> {
    // Holds of the symbols that `q` reads to states that `t` is kept below.
    fn answers(&self, rows: &Rows<1024>, q: usize, t: usize) -> L::Predicate
        requires state { q < size self.now }
        requires target { t < size self.now }
        ensures { (a : L.Value) → Decides (L.LabelAlgebra.holds self.now.labels.now result a) (Answer (machine L.LabelAlgebra.holds self.now) (pair rows.now.words) q a t) }
    {
        let labels = self.labels;
        let arrows = self.arrows;
        let mut all = labels.none();
        for entry in self.entries(End::Source, q) {
            if rows.keeps(t, usize::from(entry.end)) {
                let place = usize::from(entry.place);
                all = labels.join(all, arrows[place].label);
            }
        }
        all
    }

    // The states other than `q` that are kept below `q`. The pair `q`, `q` never goes.
    fn gather(&self, rows: &Rows<1024>, q: usize) -> Rows<4>
        requires { q < size self.now }
        ensures { Gathered (size self.now) q rows.now.words result.words }
    {
        states(self.marks.len(), |p| p != q && rows.keeps(p, q))
    }

    // Strikes out each pair p, `q` where p has an arrow to `t` that `q` does not answer, and says how many went.
    fn strike(&self, rows: &mut Rows<1024>, below: &mut Rows<4>, q: usize, t: usize) -> usize
        requires state { q < size self.now }
        requires target { t < size self.now }
        requires wide { Wide (machine L.LabelAlgebra.holds self.now) (pair rows.old.words) }
        requires gathered { Gathered (size self.now) q rows.old.words below.old.words }
        ensures swept { Swept (machine L.LabelAlgebra.holds self.now) rows.old.words rows.new.words result }
        ensures only { Only q rows.old.words rows.new.words }
        ensures met { AllByRecursion (Met (L.LabelAlgebra.holds self.now.labels.now) (machine L.LabelAlgebra.holds self.now) rows.old.words rows.new.words q t) self.now.arrows.now }
        ensures gathered { Gathered (size self.now) q rows.new.words below.new.words }
    {
        if !self.preds.meets(t, below) {
            return 0;
        }
        let all = self.answers(rows, q, t);
        let arrows = self.arrows;
        let mut struck = 0;
        for entry in self.entries(End::Target, t) {
            let p = usize::from(entry.end);
            if rows.keeps(p, q) {
                let place = usize::from(entry.place);
                if !labels::is_within(self.labels, arrows[place].label, all) {
                    rows.set(p, q, false);
                    below.set(0, p, false);
                    struck += 1;
                }
            }
        }
        struck
    }

    // Strikes out each pair p, `q` where `q` does not answer some read of p, and says how many went.
    pub fn column(&self, rows: &mut Rows<1024>, q: usize) -> usize
        requires state { q < size self.now }
        requires wide { Wide (machine L.LabelAlgebra.holds self.now) (pair rows.old.words) }
        ensures swept { Swept (machine L.LabelAlgebra.holds self.now) rows.old.words rows.new.words result }
        ensures only { Only q rows.old.words rows.new.words }
        ensures answered { (p : ℕ) → pair rows.new.words p q ≡ true → Answered (machine L.LabelAlgebra.holds self.now) (pair rows.old.words) p q }
    {
        let mut below = self.gather(rows, q);
        let mut struck = 0;
        // A target's number is what the step takes: nothing is indexed by it here.
        for t in 0..self.marks.len() {
            struck += self.strike(rows, &mut below, q, t);
        }
        struck
    }
}
