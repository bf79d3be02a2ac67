// How a cut list is made.

ghost use Rattle.std.specs.Prelude.{◌≡◌, ◌-◌, [], ◌∷◌, ◌++◌, length, is_ok, MatchResult, OnOk, OnErr, slice_index};
ghost use Rattle.labels.specs.Segments.{Rising, goes_on};
ghost use Rattle.labels.specs.CutLists.{cuts_of};

use super::{BadCut, Cuts};

impl Cuts {
    // No cuts: all code points in one segment.
    pub fn none() -> Cuts
        ensures { cuts_of result ≡ [] }
    {
        Cuts {
            list: [0; 63],
            len: 0,
        }
    }

    // One more cut; refused, and nothing changed, where the list is full or the cut is not above the last one (above 0,
    // as the first) or past the last code point.
    #[tactic(auto, using(crate::specs::CutListsLemmas::pushes, std::proofs::lemmas::List::take_more_set))]
    pub fn push(&mut self, cut: u32) -> Result<(), BadCut>
        ensures value { is_ok result ≡ goes_on (cuts_of self.old) cut }
        ensures ok { OnOk result (cuts_of self.new ≡ cuts_of self.old ++ cut ∷ []) }
        ensures err { OnErr result (cuts_of self.new ≡ cuts_of self.old) }
    {
        if self.len >= 63 || cut <= self.last() || cut > 1_114_111 {
            return Err(BadCut);
        }
        self.list[self.len] = cut;
        self.len += 1;
        Ok(())
    }
}

impl TryFrom<&[u32]> for Cuts {
    type Error = BadCut;

    // These cuts, or an error exactly where they are too many, do not rise, or leave the range of cuts.
    ghost try_from_gives = { λ cuts made. MatchResult made (λ c. (cuts_of c ≡ cuts.now) × Rising cuts.now) (λ _. Rising cuts.now → ⊥) };

    #[tactic(auto, using(std::proofs::lemmas::List::take_more, std::proofs::lemmas::List::take_all, crate::specs::CutListsLemmas::cuts_rising))]
    fn try_from(cuts: &[u32]) -> Result<Cuts, BadCut> {
        let mut made = Cuts::none();
        for cut in cuts {
            made.push(*cut)?;
        }
        Ok(made)
    }
}
