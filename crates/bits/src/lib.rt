// Bits of 64-bit words, and a relation on 256 states as a matrix of bits.
//
// Every set of this product that is small lies in the bits of a word (a label's style marks, the segments of a
// label), and the simulation of a book lies in 1,024 words. Each function costs a fixed number of steps.
#![tactic(auto)]

ghost use Rattle.std.specs.Prelude.{◌≡◌, ℕ, ◌+◌, ◌%◌, ◌^◌, false, ◌&&◌, MatchOption, nat_lt};
ghost use Rattle.bits.specs.Bit.{bit, Lowest};
ghost use Rattle.bits.specs.Laws.{WordLaws};

mod matrix;

pub use matrix::{Rows, is_kept, put_word, put_words, set};

// Whether bit `k` of `word` is set; there is none past 63.
pub fn is_set(word: u64, k: usize) -> bool
    ensures { result ≡ bit word k }
{
    k < 64 && (word >> k) & 1 == 1
}

// The lowest bit that is set, if any is.
pub fn lowest(word: u64) -> Option<u32>
    ensures { MatchOption result ((k : ℕ) → bit word k ≡ false) (λ n. Lowest word n) }
{
    (word != 0).then_some(word.trailing_zeros())
}

// The bits 0 to `last` of `word`, and no other.
pub fn low_bits(word: u64, last: usize) -> u64
    ensures value { result ≡ word % 2 ^ (last + 1) }
    ensures bits { (k : ℕ) → bit result k ≡ (nat_lt k (last + 1) && bit word k) }
{
    if last < 63 {
        word & ((1 << (last + 1)) - 1)
    } else {
        word
    }
}

// The laws of the bits of a word, which the label algebras rest on.
pub fn word_laws_stand()
    ensures { WordLaws }
{}
