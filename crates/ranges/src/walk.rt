// The runs of a label, one after the other.

ghost use Rattle.std.specs.Prelude.{◌≡◌, ℕ, ◌+◌, ◌-◌, ◌<◌, ◌≤◌, Bool, true, false, MatchOption};
ghost use Rattle.std.specs.Iterator.{at_most};
ghost use Rattle.ranges.specs.Runs.{Run, Step};

use crate::Range;

// What has symbols that are numbers, and predicates that are words.
pub trait Ranged {
    // of which numbers a predicate holds
    ghost at: { Self → ℕ → ℕ → Bool };

    // The next longest run from `from` on of numbers of which `p` holds.
    fn next_run(&self, p: u64, from: u32) -> Option<Range>
        ensures { MatchOption result ((k : ℕ) → from ≤ k → at self.now p k ≡ false) (λ range. Run (at self.now p) from range.first range.last) };

    ghost below: { (a : Self) (p k : ℕ) → at a p k ≡ true → k < 1114112 };
}

// The longest runs of the numbers from `from` on that `p` holds of; a new one begins with the lowest.
#[derive(Drop)]
pub struct Runs<'a, A> {
    pub of: &'a A,
    pub p: u64,
    pub from: u32,
}

impl<'a, A: Ranged> Runs<'a, A> {
    pub fn new(of: &'a A, p: u64) -> Runs<'a, A>
        ensures algebra { result.of.now ≡ of.now }
        ensures predicate { result.p ≡ p }
        ensures start { result.from ≡ 0 }
    {
        Runs { of, p, from: 0 }
    }
}

impl<'a, A: Ranged> Iterator for Runs<'a, A> {
    type Item = Range;

    ghost next_gives = { λ s r t. Step (A.at s.of.now s.p) s.from r t.from × (t.of.now ≡ s.of.now) × (t.p ≡ s.p) };

    ghost remaining = { λ s. at_most (1114112 - s.from) };

    fn next(&mut self) -> Option<Range> {
        let range = self.of.next_run(self.p, self.from)?;
        self.from = range.last + 1;
        Some(range)
    }
}
