// What is reduced: the arrows, marks and kept pairs of a book, and the algebra of its labels.

ghost use Rattle.std.specs.Prelude.{ℕ, ◌<◌, ◌≤◌, length};
ghost use Rattle.reduction.specs.Filled.{EndsBelow};

use automata::{Arrow, Mark};
use bits::Rows;
use labels::LabelAlgebra;

#[derive(Drop)]
pub struct Source<'a, L: LabelAlgebra> {
    pub labels: &'a L,
    pub arrows: &'a [Arrow<L::Predicate>],
    pub marks: &'a [Mark],
    pub rows: &'a Rows<1024>,
    ghost few_states: { length marks.now ≤ 256 },
    ghost few_arrows: { length arrows.now ≤ 8192 },
    ghost within: { EndsBelow (length marks.now) arrows.now },
}
