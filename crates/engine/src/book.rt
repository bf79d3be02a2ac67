// A book made ready: its marks and arrows with the arrows indexed by both ends.

ghost use Rattle.std.specs.Prelude.{◌≡◌, ◌<◌, ◌≤◌, true, length};
ghost use Rattle.std.specs.List.{All};
ghost use Rattle.bits.specs.Matrix.{pair};
ghost use Rattle.automata.specs.Automata.{Within};
ghost use Rattle.engine.specs.declared.index.End.TheVariants.{Source, Target};
ghost use Rattle.engine.specs.Indexing.{Listed, Sorted};

use crate::index::{End, Entry, Index, Listing};
use automata::{Arrow, Mark};
use bits::Rows;

// A row of `preds` has the states with an arrow to a state.
#[derive(Drop)]
pub struct Indexed<'b, L, P> {
    pub labels: &'b L,
    pub marks: &'b [Mark],
    pub arrows: &'b [Arrow<P>],
    pub leaving: Index,
    pub entering: Index,
    pub preds: Rows<1024>,
    pub ghost few: { length marks.now ≤ 256 },
    pub ghost within: { All (Within (length marks.now)) arrows.now },
    pub ghost left: { Sorted Source arrows.now leaving },
    pub ghost entered: { Sorted Target arrows.now entering },
    pub ghost joined: { All (λ x. pair preds.words x.target x.source ≡ true) arrows.now },
}

impl<P: Copy> Listing<'_, P> {
    // For each state the row of those with an arrow to it.
    fn predecessors(&self) -> Rows<1024>
        ensures { All (λ x. pair result.words x.target x.source ≡ true) self.now.arrows.now }
    {
        let mut preds = Rows::empty();
        for x in self.arrows {
            preds.set(usize::from(x.target), usize::from(x.source), true);
        }
        preds
    }
}

impl<'b, L, P: Copy> Indexed<'b, L, P> {
    pub fn new(labels: &'b L, marks: &'b [Mark], arrows: &'b [Arrow<P>]) -> Indexed<'b, L, P>
        requires states { length marks.now ≤ 256 }
        requires arrows { length arrows.now ≤ 8192 }
        requires within { All (Within (length marks.now)) arrows.now }
        ensures labels { result.labels.now ≡ labels.now }
        ensures marks { result.marks.now ≡ marks.now }
        ensures arrows { result.arrows.now ≡ arrows.now }
    {
        let listing = Listing { arrows };
        Indexed {
            labels,
            marks,
            arrows,
            leaving: listing.index(End::Source),
            entering: listing.index(End::Target),
            preds: listing.predecessors(),
        }
    }

    // The entries of the arrows whose end `by` is `q`.
    pub fn entries(&self, by: End, q: usize) -> &[Entry]
        requires { q < length self.now.marks.now }
        ensures places { All (λ e. e.place < length self.now.arrows.now) result.now }
        ensures ends { All (λ e. e.end < length self.now.marks.now) result.now }
        ensures listed { Listed by self.now.arrows.now q result.now }
    {
        match by {
            End::Source => self.leaving.of(q),
            End::Target => self.entering.of(q),
        }
    }
}
