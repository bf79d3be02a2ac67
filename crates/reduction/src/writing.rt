// The target: its marks, its arrows and its kept pairs, in the order of the numbers.

ghost use Rattle.std.specs.Prelude.{◌≡◌, ℕ, ◌+◌, ◌<◌, ◌≤◌, min, false, ◌&&◌, ◌||◌, map, length, take, ◌==◌, ◌≢◌, nat_lt, slice_index, slice_index_or};
ghost use Rattle.automata.specs.declared.Mark.TheVariants.{Neither};
ghost use Rattle.automata.specs.Below.{rows as listed, table};
ghost use Rattle.bits.specs.Matrix.{pair};
ghost use Rattle.reduction.specs.Sorted.{pruned_of};
ghost use Rattle.reduction.specs.Drawn.{linked_at, reads_at, Drawn};

use crate::classes::Classes;
use crate::reaching::Reached;
use crate::staying::Staying;
use automata::{Arrow, Mark};
use bits::Rows;
use labels::LabelAlgebra;

impl<L: LabelAlgebra> Classes<'_, L> {
    // By the place: after a `zip` with `iter_mut` no proof knows the elements.
    pub fn write_marks(&self, staying: &Staying, into: &mut [Mark])
        requires { length staying.now ≤ length into.old }
        ensures { take (length staying.now) into.new ≡ map (λ c. slice_index_or self.now.marks c Neither) staying.now }
    {
        let list = staying.list();
        for (i, c) in list.iter().enumerate() {
            into[i] = self.marks[usize::from(*c)];
        }
    }

    // Writes the arrows from the class `c`, which has the number `i`, after the first `used`; answers how many there are then.
    fn write_row(
        &self,
        reached: &Reached,
        i: usize,
        mut used: usize,
        into: &mut [Arrow<L::Predicate>],
    ) -> usize
        requires here { i < length reached.now.staying }
        requires room { length (listed (linked_at (pair reached.now.links.words) reached.now.staying) (length reached.now.staying) (i + 1)) ≤ min (length into.old) 8192 }
        requires before { Drawn (L.LabelAlgebra.holds self.now.book.labels.now) (reads_at (pruned_of self.now.book).reads reached.now.staying) (listed (linked_at (pair reached.now.links.words) reached.now.staying) (length reached.now.staying) i) used into.old }
        ensures { Drawn (L.LabelAlgebra.holds self.now.book.labels.now) (reads_at (pruned_of self.now.book).reads reached.now.staying) (listed (linked_at (pair reached.now.links.words) reached.now.staying) (length reached.now.staying) (i + 1)) result into.new }
    {
        let staying = reached.staying.list();
        let c = usize::from(staying[i]);
        // `used` is counted by hand: nothing allocates, so each arrow goes straight to its place in the target.
        for (j, to) in staying.iter().enumerate() {
            let d = usize::from(*to);
            if reached.links.keeps(c, d) {
                into[used] = Arrow {
                    source: i as u16,
                    label: self.pruned(c, d),
                    target: j as u16,
                };
                used += 1;
            }
        }
        used
    }

    pub fn write_arrows(&self, reached: &Reached, into: &mut [Arrow<L::Predicate>]) -> usize
        requires { length (table (linked_at (pair reached.now.links.words) reached.now.staying) (length reached.now.staying)) ≤ min (length into.old) 8192 }
        ensures { Drawn (L.LabelAlgebra.holds self.now.book.labels.now) (reads_at (pruned_of self.now.book).reads reached.now.staying) (table (linked_at (pair reached.now.links.words) reached.now.staying) (length reached.now.staying)) result into.new }
    {
        let mut used = 0;
        // The number itself goes on: it is the state's number in the target.
        for i in 0..reached.staying.len() {
            used = self.write_row(reached, i, used, into);
        }
        used
    }
}

// Keeps the pairs of the class with the number `i`.
fn keep_row(rows: &Rows<1024>, staying: &Staying, i: usize, into: &mut Rows<1024>)
    requires listed { i < length staying.now }
    requires empty { (j : ℕ) → pair into.old.words i j ≡ false }
    ensures here { (j : ℕ) → pair into.new.words i j ≡ (nat_lt j (length staying.now) && (i == j || linked_at (pair rows.now.words) staying.now i j)) }
    ensures others { (p j : ℕ) → (p ≢ i) → pair into.new.words p j ≡ pair into.old.words p j }
{
    let list = staying.list();
    let c = usize::from(list[i]);
    for (j, d) in list.iter().enumerate() {
        if i == j || rows.keeps(c, usize::from(*d)) {
            into.set(i, j, true);
        }
    }
}

// Into rows that keep nothing.
pub fn write_rows(rows: &Rows<1024>, staying: &Staying, into: &mut Rows<1024>)
    requires { (i j : ℕ) → pair into.old.words i j ≡ false }
    ensures { (i j : ℕ) → pair into.new.words i j ≡ (nat_lt i (length staying.now) && (nat_lt j (length staying.now) && (i == j || linked_at (pair rows.now.words) staying.now i j))) }
{
    // Here too the number goes on, and not the class.
    for i in 0..staying.len() {
        keep_row(rows, staying, i, into);
    }
}
