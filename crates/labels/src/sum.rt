// The sum of two algebras, which may be sums themselves.

ghost use Rattle.std.specs.Prelude.{◌||◌};
ghost use Rattle.labels.specs.Sums.{either};
ghost use Rattle.std.proofs.Common.{inl, inr, rules};
ghost use Rattle.std.proofs.lemmas.Bool.{or_cases};
ghost use Rattle.labels.specs.declared.sum.Either.TheVariants.{Left, Right};

use crate::LabelAlgebra;

// A left or a right symbol.
#[derive(Clone, Copy, PartialEq, Eq, Debug)]
pub enum Either<V, W> {
    Left(V),
    Right(W),
}

// A predicate for each side.
#[derive(Clone, Copy, PartialEq, Eq, Debug)]
pub struct Both<P, Q> {
    pub left: P,
    pub right: Q,
}

// Two algebras by value; each half of a predicate holds of its own side.
#[derive(Clone, Copy, PartialEq, Eq, Debug, Drop)]
pub struct Sum<L, R> {
    pub left: L,
    pub right: R,
}

impl<L: LabelAlgebra, R: LabelAlgebra> LabelAlgebra for Sum<L, R> {
    type Value = Either<L::Value, R::Value>;

    type Predicate = Both<L::Predicate, R::Predicate>;

    ghost symbol = { λ s v. either (L.LabelAlgebra.symbol s.left) (R.LabelAlgebra.symbol s.right) v };

    ghost holds = { λ s p v. either (L.LabelAlgebra.holds s.left p.left) (R.LabelAlgebra.holds s.right p.right) v };

    ghost satisfiable = { λ s p. L.LabelAlgebra.satisfiable s.left p.left || R.LabelAlgebra.satisfiable s.right p.right };

    ghost within = { Prim.search rules };

    ghost inhabited = { λ a p t.
        elim (or_cases _ _ t) [
          | inl l ↦ let w = L.LabelAlgebra.inhabited a.left p.left l in (Left w.0, w.1)
          | inr r ↦ let w = R.LabelAlgebra.inhabited a.right p.right r in (Right w.0, w.1)
        ] };

    ghost barren = { Prim.search rules };

    // Each operation asks both halves, which are of two types, so that no closure could stand for the call.
    fn none(&self) -> Both<L::Predicate, R::Predicate> {
        Both {
            left: self.left.none(),
            right: self.right.none(),
        }
    }

    fn join(
        &self,
        p: Both<L::Predicate, R::Predicate>,
        q: Both<L::Predicate, R::Predicate>,
    ) -> Both<L::Predicate, R::Predicate> {
        Both {
            left: self.left.join(p.left, q.left),
            right: self.right.join(p.right, q.right),
        }
    }

    fn meet(
        &self,
        p: Both<L::Predicate, R::Predicate>,
        q: Both<L::Predicate, R::Predicate>,
    ) -> Both<L::Predicate, R::Predicate> {
        Both {
            left: self.left.meet(p.left, q.left),
            right: self.right.meet(p.right, q.right),
        }
    }

    fn complement(&self, p: Both<L::Predicate, R::Predicate>) -> Both<L::Predicate, R::Predicate> {
        Both {
            left: self.left.complement(p.left),
            right: self.right.complement(p.right),
        }
    }

    fn test(&self, p: Both<L::Predicate, R::Predicate>, v: Either<L::Value, R::Value>) -> bool {
        match v {
            Either::Left(x) => self.left.test(p.left, x),
            Either::Right(y) => self.right.test(p.right, y),
        }
    }

    fn sample(&self, p: Both<L::Predicate, R::Predicate>) -> Option<Either<L::Value, R::Value>> {
        // No `map`: the type of the other side stands in its result alone, and such a call gets no proof.
        match self.left.sample(p.left) {
            Some(x) => Some(Either::Left(x)),
            None => Some(Either::Right(self.right.sample(p.right)?)),
        }
    }
}
