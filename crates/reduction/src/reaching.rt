// What can be reached of the classes, and which of them are linked.

ghost use Rattle.std.specs.Prelude.{◌≡◌, ℕ, ◌<◌, true, false, ◌||◌, length, Decides, MatchOption, ◌≢◌, slice_index, slice_index_or};
ghost use Rattle.automata.specs.declared.Mark.TheVariants.{Neither};
ghost use Rattle.automata.specs.Automata.{mark_is_start, Linked};
ghost use Rattle.automata.specs.Reduction.{Tells, staying};
ghost use Rattle.bits.specs.Matrix.{pair};
ghost use Rattle.automata.specs.Below.{rising, table};
ghost use Rattle.reduction.specs.Drawn.{linked_at};
ghost use Rattle.reduction.specs.Sorted.{kept_of, book_of, pruned_of};

use crate::classes::Classes;
use crate::staying::Staying;
use automata::Mark;
use bits::Rows;
use labels::LabelAlgebra;

// The classes that stay, since they can be reached, and a matrix of the links from these.
#[derive(Drop)]
pub struct Reached {
    pub staying: Staying,
    pub links: Rows<1024>,
}

impl Reached {
    // How many links there are from the class `c` to those that stay.
    fn count_row(&self, c: u8) -> usize
        ensures { result ≡ length (rising (λ j. pair self.now.links.words c (slice_index self.now.staying j)) (length self.now.staying)) }
    {
        self.staying
            .list()
            .iter()
            .copied()
            .filter(|d| self.links.keeps(usize::from(c), usize::from(*d)))
            .count()
    }

    // How many links there are between the classes that stay: so many arrows the target has.
    pub fn count_links(&self) -> usize
        ensures { result ≡ length (table (linked_at (pair self.now.links.words) self.now.staying) (length self.now.staying)) }
    {
        let mut found = 0;
        for c in self.staying.list() {
            found += self.count_row(*c);
        }
        found
    }
}

// The classes whose marks are initial.
fn starting(marks: &[Mark; 256]) -> [bool; 256]
    ensures { (c : ℕ) → c < 256 → slice_index_or result c false ≡ mark_is_start (slice_index_or marks.now c Neither) }
{
    marks.map(|mark| mark.is_initial())
}

impl<L: LabelAlgebra> Classes<'_, L> {
    // The first class that is reached and not done.
    fn waiting(&self, reached: &[bool; 256], done: &[bool; 256]) -> Option<usize>
        ensures { MatchOption result ((c : ℕ) → c < length self.now.book.marks.now → slice_index_or reached.now c false ≡ true → slice_index_or done.now c false ≡ true) (λ c. (c < length self.now.book.marks.now) × (slice_index_or reached.now c false ≡ true) × (slice_index_or done.now c false ≡ false)) }
    {
        (0..self.book.marks.len()).find(|c| reached[*c] && !done[*c])
    }

    // Links the class `c` to each class that it still reads a symbol to, and these are reached. Each class that an arrow
    // leads to is looked at once.
    fn link(&self, c: usize, links: &mut Rows<1024>, reached: &mut [bool; 256])
        requires here { c < length self.now.book.marks.now }
        requires empty { (d : ℕ) → pair links.old.words c d ≡ false }
        ensures tells { (d : ℕ) → d < length self.now.book.marks.now → Decides (pair links.new.words c d) (Linked (pruned_of self.now.book) c d) }
        ensures others { (i j : ℕ) → (i ≢ c) → pair links.new.words i j ≡ pair links.old.words i j }
        ensures grown { (d : ℕ) → slice_index_or reached.new d false ≡ (pair links.new.words c d || slice_index_or reached.old d false) }
    {
        let mut seen = [false; 256];
        let mut at = self.chains.last[c];
        // The same walk as in `pruned`.
        while let Some(place) = at {
            let k = usize::from(place);
            let d = self.target_of(k);
            if !seen[d] {
                seen[d] = true;
                if labels::is_satisfiable(self.book.labels, self.pruned(c, d)) {
                    links.set(c, d, true);
                    reached[d] = true;
                }
            }
            at = self.chains.before[k];
        }
    }

    pub fn reach(&self) -> Reached
        ensures told { Tells (book_of self.now.book) (kept_of self.now.book) (pair result.links.words) }
        ensures named { result.staying ≡ staying (book_of self.now.book) (kept_of self.now.book) (pair result.links.words) }
    {
        let mut stays = starting(&self.marks);
        let mut done = [false; 256];
        let mut links = Rows::empty();
        // No pass over the classes: each step may reach one that was passed.
        while let Some(c) = self.waiting(&stays, &done) {
            self.link(c, &mut links, &mut stays);
            done[c] = true;
        }
        Reached {
            staying: Staying::of(&stays, self.book.marks.len()),
            links,
        }
    }
}
