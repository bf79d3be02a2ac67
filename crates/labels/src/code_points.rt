// Code points: 1,114,112 symbols, told apart by at most 63 cuts.

ghost use Rattle.std.specs.Prelude.{◌≡◌, ℕ, nat_lt, ◌&&◌};
ghost use Rattle.bits.specs.Bit.{bit, some_bit};
ghost use Rattle.labels.specs.Segments.{is_point, point_holds, first_of_segment};
ghost use Rattle.labels.specs.CutLists.{cuts_of, segment_count, real_bits};
ghost use Rattle.bits.proofs.Lows.{some_bit_at, no_bit};
ghost use Rattle.labels.specs.CutListsLemmas.{point_at, no_point};
ghost use Rattle.std.proofs.Common.{rules};

use crate::{Cuts, LabelAlgebra};

// The symbols are the numbers 0 to 1,114,111; a predicate holds of `c` exactly when the bit of its segment is set. Bits
// past the last segment mean nothing.
#[derive(Clone, Copy, PartialEq, Eq, Debug)]
pub struct CodePoints {
    pub cuts: Cuts,
}

impl CodePoints {
    // The bits of a predicate that mean something: those of the segments.
    pub fn real_bits(&self, p: u64) -> u64
        ensures value { result ≡ real_bits self.now.cuts p }
        ensures bits { (k : ℕ) → bit result k ≡ (nat_lt k (segment_count self.now.cuts) && bit p k) }
    {
        bits::low_bits(p, self.cuts.len())
    }
}

#[tactic(auto, using(crate::proofs::Gates::gates))]
impl LabelAlgebra for CodePoints {
    type Value = u32;

    type Predicate = u64;

    ghost symbol = { λ _ c. is_point c };

    ghost holds = { λ a p c. point_holds (cuts_of a.cuts) p c };

    ghost satisfiable = { λ a p. some_bit (real_bits a.cuts p) };

    ghost within = { Prim.search rules };

    ghost inhabited = { λ a p t.
        let k = some_bit_at (real_bits a.cuts p) t in
        (first_of_segment (cuts_of a.cuts) k.0, point_at a.cuts p k.0 k.1) };

    ghost barren = { λ a p t v. no_point a.cuts p (no_bit (real_bits a.cuts p) t) v };

    fn none(&self) -> u64 {
        0
    }

    fn join(&self, p: u64, q: u64) -> u64 {
        p | q
    }

    fn meet(&self, p: u64, q: u64) -> u64 {
        p & q
    }

    fn complement(&self, p: u64) -> u64 {
        !p
    }

    fn test(&self, p: u64, c: u32) -> bool {
        c <= 1_114_111 && bits::is_set(p, self.cuts.segment(c))
    }

    #[tactic(auto, using(crate::specs::CutListsLemmas::no_point))]
    fn sample(&self, p: u64) -> Option<u32> {
        let segment = bits::lowest(self.real_bits(p))?;
        self.cuts.first_in(segment as usize)
    }
}
