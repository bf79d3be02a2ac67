// Reduces a book: gives the least one that it simulates and that simulates it.
//
// The states are merged into classes, the labels and the initial classes are pruned, and what can then be reached is numbered
// and written, with its order, into another book. Whether the target's table can take the arrows is known before anything is
// written, so each label is worked out twice, once to see whether it is empty and once to be written: for n states and m arrows
// at most n · m joins each time, and otherwise some steps for each pair of states. Nothing is allocated, and local arrays hold
// numbers and flags only.
#![tactic(auto)]

ghost use Rattle.std.specs.Prelude.{◌≡◌, ℕ, false, length, take, IfSome, IfNone, MatchOption};
ghost use Rattle.automata.specs.Automata.{automaton};
ghost use Rattle.automata.specs.Simulation.{Greatest};
ghost use Rattle.automata.specs.Minimal.{Minimal};
ghost use Rattle.bits.specs.Matrix.{pair};
ghost use Rattle.reduction.specs.Filled.{Bounded, Filled, Crowded};

use automata::{Arrow, Mark};
use bits::Rows;
use classes::Classes;
use labels::LabelAlgebra;
use source::Source;
use writing::write_rows;

mod classes;
mod pruning;
mod reaching;
mod source;
mod staying;
mod writing;

// How many states and arrows a reduced book has.
#[derive(Clone, Copy, PartialEq, Eq, Debug)]
pub struct Counts {
    pub states: usize,
    pub arrows: usize,
}

// The same on rows of the engine's own, of which the target's keep nothing.
fn reduce_rows<'a, L: LabelAlgebra>(
    labels: &'a L,
    arrows: &'a [Arrow<L::Predicate>],
    marks: &'a [Mark],
    rows: &'a Rows<1024>,
    into_arrows: &mut [Arrow<L::Predicate>],
    into_marks: &mut [Mark],
    into_rows: &mut Rows<1024>,
) -> Option<Counts>
    requires source { Bounded marks.now arrows.now }
    requires target { length into_marks.old ≡ 256 }
    requires empty { (p q : ℕ) → pair into_rows.old.words p q ≡ false }
    ensures made { MatchOption result (Crowded (automaton (L.LabelAlgebra.holds labels.now) marks.now arrows.now) (pair rows.now.words) (length into_arrows.old)) (λ c. Filled (L.LabelAlgebra.holds labels.now) (automaton (L.LabelAlgebra.holds labels.now) marks.now arrows.now) (pair rows.now.words) c.states c.arrows into_marks.new into_arrows.new into_rows.new.words) }
    ensures same { IfNone result ((into_marks.new ≡ into_marks.old) × (into_arrows.new ≡ into_arrows.old) × (into_rows.new.words ≡ into_rows.old.words)) }
    ensures least { IfSome result (λ c. Greatest (automaton (L.LabelAlgebra.holds labels.now) marks.now arrows.now) (pair rows.now.words) → Minimal (automaton (L.LabelAlgebra.holds labels.now) marks.now arrows.now) (automaton (L.LabelAlgebra.holds labels.now) (take c.states into_marks.new) (take c.arrows into_arrows.new)) (pair into_rows.new.words) c.arrows) }
{
    let classes = Classes::of(Source {
        labels,
        arrows,
        marks,
        rows,
    });
    let reached = classes.reach();
    if into_arrows.len().min(8192) < reached.count_links() {
        return None;
    }
    let arrows = classes.write_arrows(&reached, into_arrows);
    classes.write_marks(&reached.staying, into_marks);
    write_rows(rows, &reached.staying, into_rows);
    let states = reached.staying.len();
    Some(Counts { states, arrows })
}

// Reduces a book by its kept pairs, `rows`, into another: marks and arrows from the first place on, and rows; both rows are 1,024
// words wherever they lie. Where the target's table, of which at most 8,192 places count, cannot take the arrows, it answers nothing
// and alters nothing.
pub fn reduce<'a, L: LabelAlgebra>(
    labels: &'a L,
    arrows: &'a [Arrow<L::Predicate>],
    marks: &'a [Mark],
    rows: &'a [u64],
    into_arrows: &mut [Arrow<L::Predicate>],
    into_marks: &mut [Mark],
    into_rows: &mut [u64],
) -> Option<Counts>
    requires source { Bounded marks.now arrows.now }
    requires rows { length rows.now ≡ 1024 }
    requires target { (length into_marks.old ≡ 256) × (length into_rows.old ≡ 1024) }
    ensures made { MatchOption result (Crowded (automaton (L.LabelAlgebra.holds labels.now) marks.now arrows.now) (pair rows.now) (length into_arrows.old)) (λ c. Filled (L.LabelAlgebra.holds labels.now) (automaton (L.LabelAlgebra.holds labels.now) marks.now arrows.now) (pair rows.now) c.states c.arrows into_marks.new into_arrows.new into_rows.new) }
    ensures same { IfNone result ((into_marks.new ≡ into_marks.old) × (into_arrows.new ≡ into_arrows.old) × (into_rows.new ≡ into_rows.old)) }
    ensures least { IfSome result (λ c. Greatest (automaton (L.LabelAlgebra.holds labels.now) marks.now arrows.now) (pair rows.now) → Minimal (automaton (L.LabelAlgebra.holds labels.now) marks.now arrows.now) (automaton (L.LabelAlgebra.holds labels.now) (take c.states into_marks.new) (take c.arrows into_arrows.new)) (pair into_rows.new) c.arrows) }
{
    let mut kept = Rows::empty();
    bits::put_words(&mut kept.words, 0, rows);
    let mut order = Rows::empty();
    let counts = reduce_rows(
        labels,
        arrows,
        marks,
        &kept,
        into_arrows,
        into_marks,
        &mut order,
    )?;
    bits::put_words(into_rows, 0, &order.words);
    Some(counts)
}
