// Label algebras: what stands on the arrows of a rule book.
//
// A label is a predicate on symbols. The engine knows an algebra by the trait alone: which values are symbols and of
// which symbols a predicate holds (ghost members, which take no memory), and six operations with a contract over that
// meaning. No operation refuses, allocates or alters anything.
#![tactic(auto)]

ghost use Rattle.std.specs.Prelude.{◌≡◌, Bool, true, false, not, ◌&&◌, ◌||◌, IsTrue, ◌↔◌, MatchOption};

mod code_points;
mod cuts;
mod style_marks;
mod sum;

pub use code_points::CodePoints;
pub use cuts::{BadCut, Cuts};
pub use style_marks::StyleMarks;
pub use sum::{Both, Either, Sum};

pub trait LabelAlgebra {
    type Value: Copy;

    type Predicate: Copy;

    // which values are symbols
    ghost symbol: { Self → Self.Value → Bool };

    // of which values a predicate holds: symbols alone
    ghost holds: { Self → Self.Predicate → Self.Value → Bool };

    // whether a predicate holds of some symbol, as a test, so that definitions can decide it
    ghost satisfiable: { Self → Self.Predicate → Bool };

    // A predicate that holds of no symbol.
    fn none(&self) -> Self::Predicate
        ensures { (v : Self.Value) → holds self.now result v ≡ false };

    // Holds of a symbol exactly when at least one of the two does.
    fn join(&self, p: Self::Predicate, q: Self::Predicate) -> Self::Predicate
        ensures { (v : Self.Value) → holds self.now result v ≡ (holds self.now p v || holds self.now q v) };

    // Holds of a symbol exactly when both do.
    fn meet(&self, p: Self::Predicate, q: Self::Predicate) -> Self::Predicate
        ensures { (v : Self.Value) → holds self.now result v ≡ (holds self.now p v && holds self.now q v) };

    // Holds of a symbol exactly when `p` does not.
    fn complement(&self, p: Self::Predicate) -> Self::Predicate
        ensures { (v : Self.Value) → holds self.now result v ≡ (symbol self.now v && not (holds self.now p v)) };

    // Whether `p` holds of `v`: never of a value that is no symbol.
    fn test(&self, p: Self::Predicate, v: Self::Value) -> bool
        ensures { result ≡ holds self.now p v };

    // A symbol of which `p` holds, or nothing exactly when there is none.
    fn sample(&self, p: Self::Predicate) -> Option<Self::Value>
        ensures { MatchOption result ((v : Self.Value) → holds self.now p v ≡ false) (λ v. holds self.now p v ≡ true) };

    ghost within: { (a : Self) (p : Self.Predicate) (v : Self.Value) → holds a p v ≡ true → symbol a v ≡ true };

    ghost inhabited: { (a : Self) (p : Self.Predicate) → satisfiable a p ≡ true → (v : Self.Value) × (holds a p v ≡ true) };

    ghost barren: { (a : Self) (p : Self.Predicate) → satisfiable a p ≡ false → (v : Self.Value) → holds a p v ≡ false };
}

// Whether all symbols of `p` belong to `q`.
pub fn is_within<L: LabelAlgebra>(a: &L, p: L::Predicate, q: L::Predicate) -> bool
    ensures { IsTrue result ↔ ((v : L.Value) → L.LabelAlgebra.holds a.now p v ≡ true → L.LabelAlgebra.holds a.now q v ≡ true) }
{
    a.sample(a.meet(p, a.complement(q))).is_none()
}

// Whether two predicates hold of the same symbols.
pub fn is_same<L: LabelAlgebra>(a: &L, p: L::Predicate, q: L::Predicate) -> bool
    ensures { IsTrue result ↔ ((v : L.Value) → L.LabelAlgebra.holds a.now p v ≡ L.LabelAlgebra.holds a.now q v) }
{
    is_within(a, p, q) && is_within(a, q, p)
}

// Whether a predicate holds of some symbol: an absent sample is the only test.
pub fn is_satisfiable<L: LabelAlgebra>(a: &L, p: L::Predicate) -> bool
    ensures value { result ≡ L.LabelAlgebra.satisfiable a.now p }
    ensures symbol { IsTrue result ↔ ((v : L.Value) × (L.LabelAlgebra.holds a.now p v ≡ true)) }
{
    a.sample(p).is_some()
}
