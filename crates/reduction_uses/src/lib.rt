// Tests of reduction on small books, whose kept pairs are given by hand.
#![tactic(auto)]

#[cfg(test)]
mod book_tests;
#[cfg(test)]
mod sum_tests;
