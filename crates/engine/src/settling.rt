// The greatest simulation, by striking out pairs until every pair that is left is answered.
//
// A state's column is computed once, and again only after a pair below one of its successors has gone: a flag for each
// state says whether it has to be. The flags may be served in any order; they are served upwards and downwards in turn.

ghost use Rattle.std.specs.Prelude.{◌≡◌, ℕ, ◌<◌, ◌≤◌, true, false, ◌⊎◌, length, MatchOption, ⊤};
ghost use Rattle.std.specs.List.{AllByRecursion};
ghost use Rattle.bits.specs.Matrix.{pair};
ghost use Rattle.automata.specs.Automata.{automaton, Within};
ghost use Rattle.automata.specs.Simulation.{Wide, Greatest, Keeps};
ghost use Rattle.automata.specs.Below.{pairs};
ghost use Rattle.engine.specs.Columns.{machine, size, Answered, Woken, Quiet, Found, work};

use crate::book::Indexed;
use crate::fill::fill;
use crate::index::End;
use crate::states::states;
use automata::{Arrow, Mark};
use bits::Rows;
use labels::LabelAlgebra;

// The way in which the flags are served.
#[derive(Clone, Copy)]
enum Way {
    Up,
    Down,
}

impl<L, P: Copy> Indexed<'_, L, P> {
    // The first state from `from` on whose flag is set.
    fn next_up(&self, flags: &Rows<4>, from: usize) -> Option<usize>
        ensures found { Found flags.now.words from (size self.now) result }
        ensures first { MatchOption result ⊤ (λ q. (k : ℕ) → from ≤ k → k < q → pair flags.now.words 0 k ≡ false) }
    {
        (from..self.marks.len()).find(|q| flags.keeps(0, *q))
    }

    // The last state below `to` whose flag is set.
    fn next_down(&self, flags: &Rows<4>, to: usize) -> Option<usize>
        requires { to ≤ size self.now }
        ensures { Found flags.now.words 0 to result }
    {
        (0..to).rev().find(|q| flags.keeps(0, *q))
    }

    // A state whose flag is set, if any is: the next one in the way given, or else the next one back.
    fn next_state(&self, flags: &Rows<4>, at: usize, way: Way) -> Option<usize>
        requires { at ≤ size self.now }
        ensures { Found flags.now.words 0 (size self.now) result }
    {
        // Tried with `or_else`, and the proof did not close: its closure on a generic `self` tells nothing of the result.
        match way {
            Way::Up => match self.next_up(flags, at) {
                None => self.next_down(flags, at),
                found => found,
            },
            Way::Down => match self.next_down(flags, at) {
                None => self.next_up(flags, at),
                found => found,
            },
        }
    }
}

impl<L: LabelAlgebra> Indexed<'_, L, L::Predicate> {
    // Sets the flag of each state with an arrow to `q`.
    fn wake(&self, q: usize, flags: &mut Rows<4>)
        requires { q < size self.now }
        ensures woken { AllByRecursion (Woken q flags.new.words) self.now.arrows.now }
        ensures stays { (i : ℕ) → pair flags.old.words 0 i ≡ true → pair flags.new.words 0 i ≡ true }
    {
        for entry in self.entries(End::Target, q) {
            flags.set(0, usize::from(entry.end), true);
        }
    }

    // Computes the column of `q`, whose flag is set, and sets the flags of the states that may have lost an answer.
    fn visit(&self, rows: &mut Rows<1024>, q: usize, flags: &mut Rows<4>)
        requires state { q < size self.now }
        requires flag { pair flags.old.words 0 q ≡ true }
        requires wide { Wide (machine L.LabelAlgebra.holds self.now) (pair rows.old.words) }
        requires quiet { Quiet (machine L.LabelAlgebra.holds self.now) rows.old.words flags.old.words }
        ensures fewer { (i j : ℕ) → pair rows.new.words i j ≡ true → pair rows.old.words i j ≡ true }
        ensures wide { Wide (machine L.LabelAlgebra.holds self.now) (pair rows.new.words) }
        ensures quiet { Quiet (machine L.LabelAlgebra.holds self.now) rows.new.words flags.new.words }
        ensures less { work rows.new.words (size self.now) flags.new.words < work rows.old.words (size self.now) flags.old.words }
    {
        flags.set(0, q, false);
        if self.column(rows, q) != 0 {
            self.wake(q, flags);
        }
    }

    // Serves the flags until none is set.
    fn sweep(&self, rows: &mut Rows<1024>)
        requires { Wide (machine L.LabelAlgebra.holds self.now) (pair rows.old.words) }
        ensures fewer { (i j : ℕ) → pair rows.new.words i j ≡ true → pair rows.old.words i j ≡ true }
        ensures wide { Wide (machine L.LabelAlgebra.holds self.now) (pair rows.new.words) }
        ensures answered { (p q : ℕ) → q < size self.now → pair rows.new.words p q ≡ true → Answered (machine L.LabelAlgebra.holds self.now) (pair rows.new.words) p q }
    {
        let mut flags = states(self.marks.len(), |_| true);
        let mut at = 0;
        let mut way = Way::Up;
        // No pass over the states: each visit may set flags that were passed.
        while let Some(q) = self.next_state(&flags, at, way) {
            self.visit(rows, q, &mut flags);
            way = if q < at { Way::Down } else { Way::Up };
            at = q;
        }
    }
}

// Fills `rows`, 1,024 words wherever they lie, with exactly the greatest simulation, every other bit 0, and answers the number
// of kept pairs.
pub fn settle<L: LabelAlgebra>(
    labels: &L,
    arrows: &[Arrow<L::Predicate>],
    marks: &[Mark],
    rows: &mut [u64],
) -> usize
    requires rows { length rows.old ≡ 1024 }
    requires states { length marks.now ≤ 256 }
    requires arrows { length arrows.now ≤ 8192 }
    requires within { AllByRecursion (Within (length marks.now)) arrows.now }
    ensures keeps { Keeps (automaton (L.LabelAlgebra.holds labels.now) marks.now arrows.now) (pair rows.new) }
    ensures greatest { Greatest (automaton (L.LabelAlgebra.holds labels.now) marks.now arrows.now) (pair rows.new) }
    ensures empty { (p q : ℕ) → (length marks.now ≤ p) ⊎ (length marks.now ≤ q) → pair rows.new p q ≡ false }
    ensures count { result ≡ pairs (pair rows.new) (length marks.now) }
{
    let mut kept = Rows::empty();
    fill(marks, &mut kept);
    let book = Indexed::new(labels, marks, arrows);
    book.sweep(&mut kept);
    bits::put_words(rows, 0, &kept.words);
    book.count(&kept)
}
