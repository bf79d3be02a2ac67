// The labels between classes, after merging and pruning.
//
// No label is kept: each is joined anew over the arrows of its source class, where it is asked for.

ghost use Rattle.std.specs.Prelude.{◌≡◌, ◌<◌, true, length, Decides};
ghost use Rattle.std.specs.List.{HoldsAt};
ghost use Rattle.automata.specs.Reduction.{name};
ghost use Rattle.reduction.specs.Sorted.{kept_of, pruned_of};

use crate::classes::Classes;
use labels::LabelAlgebra;

impl<L: LabelAlgebra> Classes<'_, L> {
    // The class that the arrow at the place `k` leads to.
    pub fn target_of(&self, k: usize) -> usize
        requires { k < length self.now.book.arrows.now }
        ensures value { HoldsAt (λ x. result ≡ name (kept_of self.now.book) x.target) self.now.book.arrows.now k }
        ensures within { result < length self.now.book.marks.now }
    {
        usize::from(self.names[usize::from(self.book.arrows[k].target)])
    }

    // The label from the class `c` to the class `d`, without the symbols that are also on an arrow to a class above `d`.
    pub fn pruned(&self, c: usize, d: usize) -> L::Predicate
        requires { (c < 256) × (d < 256) }
        ensures { (v : L.Value) → L.LabelAlgebra.holds self.now.book.labels.now result v ≡ (pruned_of self.now.book).reads c v d }
    {
        let labels = self.book.labels;
        let mut merged = labels.none();
        let mut over = labels.none();
        let mut at = self.chains.last[c];
        // The same walk as in `link`: for two walks an iterator, with its law, is no shorter.
        while let Some(place) = at {
            let k = usize::from(place);
            let e = self.target_of(k);
            let label = self.book.arrows[k].label;
            if e == d {
                merged = labels.join(merged, label);
            } else if self.book.rows.keeps(d, e) {
                over = labels.join(over, label);
            }
            at = self.chains.before[k];
        }
        labels.meet(merged, labels.complement(over))
    }
}
