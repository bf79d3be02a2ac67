// The first fill of the matrix, which keeps every pair that the marks allow, and the count of what is kept.

ghost use Rattle.std.specs.Prelude.{◌≡◌, ℕ, ◌<◌, ◌≤◌, false, length};
ghost use Rattle.bits.specs.Matrix.{pair};
ghost use Rattle.automata.specs.Below.{count, pairs};
ghost use Rattle.engine.specs.Columns.{allowed, size};

use crate::book::Indexed;
use crate::states::states;
use automata::Mark;
use bits::Rows;

// Keeps, in rows that keep nothing, every pair of states of which the second accepts where the first does.
pub fn fill(marks: &[Mark], rows: &mut Rows<1024>)
    requires few { length marks.now ≤ 256 }
    requires empty { (p q : ℕ) → pair rows.old.words p q ≡ false }
    ensures { (p q : ℕ) → pair rows.new.words p q ≡ allowed marks.now p q }
{
    let all = states(marks.len(), |_| true);
    let accepting = states(marks.len(), |q| marks[q].is_accepting());
    for (p, mark) in marks.iter().enumerate() {
        let above = if mark.is_accepting() { accepting } else { all };
        rows.put_row(p, &above);
    }
}

impl<L, P: Copy> Indexed<'_, L, P> {
    // How many states are kept above `p`.
    fn count_row(&self, rows: &Rows<1024>, p: usize) -> usize
        requires { p < size self.now }
        ensures count { result ≡ count (pair rows.now.words p) (size self.now) }
        ensures most { result ≤ size self.now }
    {
        (0..self.marks.len()).filter(|q| rows.keeps(p, *q)).count()
    }

    // How many pairs of states are kept.
    pub fn count(&self, rows: &Rows<1024>) -> usize
        ensures { result ≡ pairs (pair rows.now.words) (size self.now) }
    {
        (0..self.marks.len()).map(|p| self.count_row(rows, p)).sum()
    }
}
