// The engine: settle and the word test, over slices of arrows with labels of any algebra.
//
// Both take a book as it lies in the caller's memory: a slice of arrows and a mark for each state, at most 256 states
// and, for settle, 8,192 arrows. Nothing is allocated, and no array holds labels, so that any algebra will do; settle
// has under 256 KiB of stack. Of the algebra settle uses only `none`, `join` and `is_within`, the word test only `test`.
#![tactic(auto)]

mod book;
mod columns;
mod fill;
mod index;
mod settling;
mod states;
#[cfg(test)]
mod tests;
mod words;

pub use settling::settle;
pub use words::accepts;
