// The classes of a book's states, with their marks and their arrows.
//
// States that are kept both ways form a class, which goes by its least state. Names and marks cost a few steps for each
// pair of states, the chains of arrows one step for each arrow.

ghost use Rattle.std.specs.Prelude.{◌≡◌, ℕ, ◌<◌, Bool, ◌&&◌, map, length, MatchOption, slice_index, slice_index_or};
ghost use Rattle.std.proofs.Props.{props};
ghost use Rattle.automata.specs.declared.Mark.TheVariants.{Neither};
ghost use Rattle.automata.specs.Automata.{mark_is_start, mark_accepts};
ghost use Rattle.automata.specs.Reduction.{name, same, member, below, highest};
ghost use Rattle.reduction.specs.Chains.{Heads, Links};
ghost use Rattle.reduction.specs.Sorted.{Named, sources, kept_of, pruned_of};

use crate::source::Source;
use automata::Mark;
use labels::LabelAlgebra;
use std::array;

// The places of the arrows, by the class of their source: by the class its last place, and by the place the one before it of
// the same class. Chains of places and no lists, since nothing allocates.
#[derive(Drop)]
pub struct Chains {
    pub last: [Option<u16>; 256],
    pub before: [Option<u16>; 8192],
}

// A book with its classes: by the state its class, and by the class its mark after pruning. Arrays side by side, since states,
// classes and places are numbers of three kinds.
#[derive(Drop)]
pub struct Classes<'a, L: LabelAlgebra> {
    pub book: Source<'a, L>,
    pub names: [u8; 256],
    pub marks: [Mark; 256],
    pub chains: Chains,
    ghost named: { Named (kept_of book) (length book.marks.now) names },
    ghost initial: { (c : ℕ) → c < length book.marks.now → mark_is_start (slice_index_or marks c Neither) ≡ (pruned_of book).initial c },
    ghost accepting: { (c : ℕ) → c < length book.marks.now → mark_accepts (slice_index_or marks c Neither) ≡ (pruned_of book).accepting c },
    ghost heads: { Heads (sources (kept_of book) book.arrows.now) (length book.arrows.now) chains.last } by { Prim.hlevel props },
    ghost links: { Links (sources (kept_of book) book.arrows.now) (length book.arrows.now) chains.before } by { Prim.hlevel props },
}

impl<L: LabelAlgebra> Source<'_, L> {
    #[tactic(auto, unfolding(automata::specs::Reduction::same))]
    fn is_same(&self, p: usize, q: usize) -> bool
        requires { (p < 256) × (q < 256) }
        ensures { result ≡ same (kept_of self.now) p q }
    {
        self.rows.keeps(p, q) && self.rows.keeps(q, p)
    }

    // The least state that `p` is kept with both ways, or `p`.
    fn name_of(&self, p: usize) -> u8
        requires { p < 256 }
        ensures { result ≡ name (kept_of self.now) p }
    {
        (0..p).find(|q| self.is_same(p, *q)).unwrap_or(p) as u8
    }

    fn names(&self) -> [u8; 256]
        ensures { Named (kept_of self.now) (length self.now.marks.now) result }
    {
        // Past the states the array only has to be filled.
        array::from_fn(
            |p|
                ensures { p < length self.entry.now.marks.now → result ≡ name (kept_of self.entry.now) p }
            {
                if p < self.marks.len() {
                    self.name_of(p)
                } else {
                    0
                }
            },
        )
    }

    // A class is marked as any of its states is, whatever relation the names are of.
    fn merged_marks(&self, names: &[u8; 256]) -> [Mark; 256]
        ensures initial { (K : ℕ → ℕ → Bool) → Named K (length self.now.marks.now) names.now → (c : ℕ) → mark_is_start (slice_index_or result c Neither) ≡ member (length self.now.marks.now) K (λ p. mark_is_start (slice_index_or self.now.marks.now p Neither)) c }
        ensures accepting { (K : ℕ → ℕ → Bool) → Named K (length self.now.marks.now) names.now → (c : ℕ) → mark_accepts (slice_index_or result c Neither) ≡ member (length self.now.marks.now) K (λ p. mark_accepts (slice_index_or self.now.marks.now p Neither)) c }
    {
        let mut merged = [Mark::Neither; 256];
        for (name, mark) in names.iter().zip(self.marks) {
            let c = usize::from(*name);
            let was = merged[c];
            merged[c] = Mark::new(
                mark.is_initial() | was.is_initial(),
                mark.is_accepting() | was.is_accepting(),
            );
        }
        merged
    }

    #[tactic(auto, unfolding(automata::specs::Reduction::below))]
    fn is_below(&self, c: usize, d: usize) -> bool
        requires { (c < 256) × (d < 256) }
        ensures { result ≡ below (kept_of self.now) c d }
    {
        c != d && self.rows.keeps(c, d)
    }

    // Whether `c` is initial, and no class above it is.
    fn is_highest(&self, marks: &[Mark; 256], c: usize) -> bool
        requires { c < 256 }
        ensures { result ≡ highest (length self.now.marks.now) (kept_of self.now) (λ e. mark_is_start (slice_index_or marks.now e Neither)) c }
    {
        marks[c].is_initial()
            && !(0..self.marks.len()).any(
                |e|
                    requires { (c < 256) × (e < 256) }
                { marks[e].is_initial() && self.is_below(c, e) },
            )
    }

    // Only the highest of the initial classes stay so.
    fn pruned_marks(&self, marks: &[Mark; 256]) -> [Mark; 256]
        ensures initial { (c : ℕ) → c < 256 → mark_is_start (slice_index_or result c Neither) ≡ highest (length self.now.marks.now) (kept_of self.now) (λ e. mark_is_start (slice_index_or marks.now e Neither)) c }
        ensures accepting { (c : ℕ) → c < 256 → mark_accepts (slice_index_or result c Neither) ≡ mark_accepts (slice_index_or marks.now c Neither) }
    {
        let mut top = [Mark::Neither; 256];
        for (c, mark) in marks.iter().enumerate() {
            top[c] = Mark::new(self.is_highest(marks, c), mark.is_accepting());
        }
        top
    }

    // Into a table that is there: one of 32 KiB that is handed out is copied.
    fn chains(&self, names: &[u8; 256], into: &mut Chains)
        ensures last { Heads (map (λ x. slice_index names.now x.source) self.now.arrows.now) (length self.now.arrows.now) into.new.last }
        ensures before { Links (map (λ x. slice_index names.now x.source) self.now.arrows.now) (length self.now.arrows.now) into.new.before }
    {
        into.last = [None; 256];
        for (k, arrow) in self.arrows.iter().enumerate() {
            let c = usize::from(names[usize::from(arrow.source)]);
            into.before[k] = into.last[c];
            into.last[c] = Some(k as u16);
        }
    }
}

impl<'a, L: LabelAlgebra> Classes<'a, L> {
    pub fn of(book: Source<'a, L>) -> Classes<'a, L>
        ensures { result.book ≡ book.entry }
    {
        let names = book.names();
        let marks = book.pruned_marks(&book.merged_marks(&names));
        let mut chains = Chains {
            last: [None; 256],
            before: [None; 8192],
        };
        book.chains(&names, &mut chains);
        Classes {
            book,
            names,
            marks,
            chains,
        }
    }
}
