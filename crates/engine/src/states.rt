// Sets of states, each as one row of bits.

ghost use Rattle.std.specs.Prelude.{◌≡◌, ℕ, ◌<◌, ◌≤◌, false};
ghost use Rattle.bits.specs.Matrix.{pair};

use bits::Rows;

// The states below `n` that pass a test.
pub fn states<F: Fn(usize) -> bool>(n: usize, test: F) -> Rows<4>
    requires few { n ≤ 256 }
    requires asked { (q : ℕ) → q < n → F.pre test q }
    ensures tested { (q : ℕ) → q < n → F.post test q (pair result.words 0 q) }
    ensures past { (q : ℕ) → n ≤ q → pair result.words 0 q ≡ false }
{
    let mut passing = Rows::empty();
    // Numbers are tested here, and no elements of a slice.
    for q in 0..n {
        if test(q) {
            passing.set(0, q, true);
        }
    }
    passing
}
