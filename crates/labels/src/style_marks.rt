// Style marks: 64 symbols, and a predicate is the set of them as a word.

ghost use Rattle.std.specs.Prelude.{nat_lt};
ghost use Rattle.bits.specs.Bit.{bit, some_bit};
ghost use Rattle.std.proofs.lemmas.Bool.{lt-ltb};
ghost use Rattle.bits.proofs.Words.{bit_within};
ghost use Rattle.bits.proofs.Lows.{some_bit_at, no_bit};

use crate::LabelAlgebra;

// The symbols are the numbers 0 to 63; a predicate holds of `s` exactly when bit `s` is set.
#[derive(Clone, Copy, PartialEq, Eq, Debug)]
pub struct StyleMarks;

#[tactic(auto, using(crate::proofs::Gates::word_bits))]
impl LabelAlgebra for StyleMarks {
    type Value = u8;

    type Predicate = u64;

    ghost symbol = { λ _ v. nat_lt v 64 };

    ghost holds = { λ _ p v. bit p v };

    ghost satisfiable = { λ _ p. some_bit p };

    ghost within = { λ a p v t. lt-ltb v 64 (bit_within p v t) };

    ghost inhabited = { λ a p t. some_bit_at p t };

    ghost barren = { λ a p t v. no_bit p t v };

    // The four operations stand in code_points.rt too: one operator each, which a trait between them would not shorten.
    fn none(&self) -> u64 {
        0
    }

    fn join(&self, p: u64, q: u64) -> u64 {
        p | q
    }

    fn meet(&self, p: u64, q: u64) -> u64 {
        p & q
    }

    fn complement(&self, p: u64) -> u64 {
        !p
    }

    fn test(&self, p: u64, v: u8) -> bool {
        bits::is_set(p, usize::from(v))
    }

    fn sample(&self, p: u64) -> Option<u8> {
        bits::lowest(p).map(|s| s as u8)
    }
}
