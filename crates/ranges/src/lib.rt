// Which symbols a label holds of, as ranges, and how many they are: what an editor shows of a label.
//
// Each call finds one range, so that nothing has to be stored. It costs at most a pass over the cuts, and a count of
// code points costs one such call for each range. No function refuses or alters anything.
#![tactic(auto)]

ghost use Rattle.std.specs.Prelude.{◌≡◌, ℕ, ◌+◌, ◌≤◌, false, Some, MatchOption};
ghost use Rattle.bits.specs.Bit.{bit};
ghost use Rattle.labels.specs.CutLists.{cuts_of};
ghost use Rattle.labels.specs.declared.sum.Either.TheVariants.{Left, Right};
ghost use Rattle.ranges.specs.Counts.{counted};
ghost use Rattle.ranges.specs.Runs.{Next, Run};
ghost use Rattle.ranges.specs.Starts.{start_of};
ghost use Rattle.ranges.specs.Texts.{range_text};
ghost use Rattle.ranges.specs.Below.{mark_below, point_below};

mod walk;

use labels::{Both, CodePoints, Cuts, LabelAlgebra, StyleMarks, Sum};
use std::fmt;
pub use walk::{Ranged, Runs};

// The code points are the numbers below this one.
const POINTS: u32 = 1_114_112;

// Consecutive symbols, both ends included.
#[derive(Clone, Copy, PartialEq, Eq, Debug)]
pub struct Range {
    pub first: u32,
    pub last: u32,
}

// One number, or the first and the last with a dash between.
impl fmt::Display for Range {
    ghost output = { λ range. Some (range_text range.first range.last) };

    fn fmt<W: fmt::Write>(&self, f: &mut fmt::Formatter<W>) -> fmt::Result {
        if self.first == self.last {
            write!(f, "{}", self.first)
        } else {
            write!(f, "{}-{}", self.first, self.last)
        }
    }
}

// The next longest run of style marks from `from` on of which `p` holds.
pub fn next_marks(p: u64, from: u32) -> Option<Range>
    ensures { MatchOption result ((k : ℕ) → from ≤ k → bit p k ≡ false) (λ range. Run (bit p) from range.first range.last) }
{
    let first = next_set(p, from)?;
    // Where no later bit is clear, the run ends with the word.
    let end = next_set(!p, first).unwrap_or(64);
    Some(Range {
        first,
        last: end - 1,
    })
}

// The lowest bit at or above `from` that is set, if any is.
#[tactic(auto, using(bits::proofs::Words::bit_none))]
fn next_set(word: u64, from: u32) -> Option<u32>
    ensures { MatchOption result ((k : ℕ) → from ≤ k → bit word k ≡ false) (λ n. Next (bit word) from n) }
{
    // Tested here, since a word can be shifted by less than 64 alone.
    if from >= 64 {
        return None;
    }
    let n = bits::lowest(word >> from)?;
    Some(from + n)
}

// The next longest run of code points from `from` on of which `p` holds; neighbouring segments are one range.
pub fn next_points(a: &CodePoints, p: u64, from: u32) -> Option<Range>
    ensures { MatchOption result ((k : ℕ) → from ≤ k → ⟦<CodePoints as LabelAlgebra>⟧.holds a.now p k ≡ false) (λ range. Run (⟦<CodePoints as LabelAlgebra>⟧.holds a.now p) from range.first range.last) }
{
    if from >= POINTS {
        return None;
    }
    // A run of segments is a run of bits.
    let segments = next_marks(a.real_bits(p), a.cuts.segment(from) as u32)?;
    let first = start(&a.cuts, segments.first as usize);
    let end = start(&a.cuts, segments.last as usize + 1);
    Some(Range {
        first: from.max(first),
        last: end - 1,
    })
}

// The least code point of segment `s`, or the number after the last code point where there is no such segment.
fn start(cuts: &Cuts, s: usize) -> u32
    ensures { result ≡ start_of (cuts_of cuts.now) s }
{
    cuts.first_in(s).unwrap_or(POINTS)
}

impl Ranged for StyleMarks {
    ghost at = { ⟦<StyleMarks as LabelAlgebra>⟧.holds };

    ghost below = { λ a p k t. mark_below p k t };

    fn next_run(&self, p: u64, from: u32) -> Option<Range> {
        next_marks(p, from)
    }
}

impl Ranged for CodePoints {
    ghost at = { ⟦<CodePoints as LabelAlgebra>⟧.holds };

    ghost below = { point_below };

    fn next_run(&self, p: u64, from: u32) -> Option<Range> {
        next_points(self, p, from)
    }
}

// How many style marks `p` holds of: one instruction, where `count_points` walks over the runs.
#[tactic(auto, using(crate::proofs::Bits::counted_bits))]
pub fn count_marks(p: u64) -> u32
    ensures { result ≡ counted (bit p) 64 }
{
    p.count_ones()
}

// How many code points `p` holds of.
pub fn count_points(a: &CodePoints, p: u64) -> u32
    ensures { result ≡ counted (⟦<CodePoints as LabelAlgebra>⟧.holds a.now p) 1114112 }
{
    let mut total = 0;
    // No `sum`: `Runs` says of each range that it is the next one, and of no list that it has them all.
    for range in Runs::new(a, p) {
        total += range.last - range.first + 1;
    }
    total
}

// How many symbols of the sum of style marks and code points `p` holds of.
#[tactic(auto, using(crate::proofs::Counts::counted_le))]
pub fn count(a: &Sum<StyleMarks, CodePoints>, p: Both<u64, u64>) -> u32
    ensures { let holds = ⟦<Sum<StyleMarks, CodePoints> as LabelAlgebra>⟧.holds a.now p in result ≡ counted (λ s. holds (Left s)) 64 + counted (λ c. holds (Right c)) 1114112 }
{
    count_marks(p.left) + count_points(&a.right, p.right)
}

#[cfg(test)]
mod tests {
    use super::*;
    use labels::BadCut;

    #[test]
    fn the_surrogates_are_one_range_of_2048(rt: HostRuntime) -> Result<(), BadCut> {
        let cuts = Cuts::try_from([55_296, 57_344].as_slice())?;
        let a = CodePoints { cuts };
        // Bit 3 means nothing: there are three segments.
        assert_eq!(rt;
            next_points(&a, 10, 0),
            Some(Range {
                first: 55_296,
                last: 57_343,
            })
        );
        assert_eq!(rt; next_points(&a, 10, 57_344), None);
        assert_eq!(rt; count_points(&a, 10), 2_048);
        assert_eq!(rt;
            next_points(&a, 6, 57_343),
            Some(Range {
                first: 57_343,
                last: 1_114_111,
            }),
            "two segments, one range"
        );
        Ok(())
    }

    #[test]
    fn without_cuts_all_code_points_are_one_range(rt: HostRuntime) {
        let a = CodePoints { cuts: Cuts::none() };
        assert_eq!(rt;
            next_points(&a, 1, 0),
            Some(Range {
                first: 0,
                last: 1_114_111,
            })
        );
        assert_eq!(rt; next_points(&a, 1, 1_114_112), None);
        assert_eq!(rt; next_points(&a, 1, 4_294_967_295), None);
        assert_eq!(rt; count_points(&a, 1), 1_114_112);
    }

    #[test]
    fn with_63_cuts_each_bit_is_a_segment(rt: HostRuntime) {
        let mut cuts = Cuts::none();
        for i in 1..64 {
            assert!(rt; cuts.push(1000 * i).is_ok());
        }
        let a = CodePoints { cuts };
        assert_eq!(rt;
            next_points(&a, 1 << 63, 5),
            Some(Range {
                first: 63_000,
                last: 1_114_111,
            })
        );
        assert_eq!(rt;
            next_points(&a, 0x5555_5555_5555_5555, 1_000),
            Some(Range {
                first: 2_000,
                last: 2_999,
            })
        );
        assert_eq!(rt; count_points(&a, 0x5555_5555_5555_5555), 32_000);
    }

    #[test]
    fn marks_0_and_63_are_two_ranges(rt: HostRuntime) {
        let p = 1 << 63 | 1;
        assert_eq!(rt; next_marks(p, 0), Some(Range { first: 0, last: 0 }));
        assert_eq!(rt;
            next_marks(p, 1),
            Some(Range {
                first: 63,
                last: 63,
            })
        );
        assert_eq!(rt; next_marks(p, 64), None);
        assert_eq!(rt; count_marks(p), 2);
        let a = Sum {
            left: StyleMarks,
            right: CodePoints { cuts: Cuts::none() },
        };
        assert_eq!(rt; count(&a, Both { left: p, right: 1 }), 1_114_114);
    }
}
