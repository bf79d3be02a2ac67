// The word test: which states the word so far may have led to, symbol by symbol.
//
// Each symbol costs one pass over the arrows; a value that is no symbol is read by nothing, so that no state is live
// after it.

ghost use Rattle.std.specs.Prelude.{◌≡◌, ℕ, ◌≤◌, true, T, length, Decides};
ghost use Rattle.std.specs.List.{AllByRecursion};
ghost use Rattle.bits.specs.Matrix.{pair};
ghost use Rattle.automata.specs.Automata.{automaton, some_label, leads, Within, Accepts};

use crate::states::states;
use automata::{Arrow, Mark};
use bits::Rows;
use labels::LabelAlgebra;

// The states to which a live one reads `value`.
fn step<L: LabelAlgebra>(
    labels: &L,
    arrows: &[Arrow<L::Predicate>],
    live: &Rows<4>,
    value: L::Value,
) -> Rows<4>
    requires { AllByRecursion (Within 256) arrows.now }
    ensures { (q : ℕ) → Decides (pair result.words 0 q) ((p : ℕ) × (pair live.now.words 0 p ≡ true) × T (some_label (L.LabelAlgebra.holds labels.now) (leads p q) arrows.now value)) }
{
    let mut next = Rows::empty();
    for x in arrows {
        if live.keeps(0, usize::from(x.source)) && labels.test(x.label, value) {
            next.set(0, usize::from(x.target), true);
        }
    }
    next
}

// Whether the word is accepted.
pub fn accepts<L: LabelAlgebra>(
    labels: &L,
    arrows: &[Arrow<L::Predicate>],
    marks: &[Mark],
    word: &[L::Value],
) -> bool
    requires states { length marks.now ≤ 256 }
    requires within { AllByRecursion (Within (length marks.now)) arrows.now }
    ensures { Decides result (Accepts (automaton (L.LabelAlgebra.holds labels.now) marks.now arrows.now) word.now) }
{
    let mut live = states(marks.len(), |q| marks[q].is_initial());
    for value in word {
        live = step(labels, arrows, &live, *value);
    }
    states(marks.len(), |q| marks[q].is_accepting()).meets(0, &live)
}
