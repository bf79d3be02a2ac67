// Uses of the label crates: generic code at a sum of sums, and their tests.
#![tactic(auto)]

ghost use Rattle.std.specs.Prelude.{IsTrue, ◌↔◌};
ghost use Rattle.label_uses.specs.Deep.{WithinLeaves};

#[cfg(test)]
mod label_tests;
#[cfg(test)]
mod list_tests;

use labels::{Both, CodePoints, LabelAlgebra, StyleMarks, Sum, is_within};

// Sums three deep.
pub type Deep = Sum<Sum<Sum<StyleMarks, CodePoints>, StyleMarks>, CodePoints>;

pub type DeepPredicate = Both<Both<Both<u64, u64>, u64>, u64>;

// At a sum of sums, one predicate is within another exactly when it is so at each leaf.
pub fn is_within_leaves(a: &Deep, p: DeepPredicate, q: DeepPredicate) -> bool
    ensures { IsTrue result ↔ (WithinLeaves a.now p q) }
{
    is_within(a, p, q)
}
