// Histories: lists of calls on a book, carried out one after another.
//
// `replay` makes the public calls of a book and nothing else, and its contract is the theorem on histories. Whatever the calls,
// declined ones included, each answers and leaves what its definition says. If the book that they start from has no states or
// keeps the right pairs, then at every moment at which the book is settled it keeps exactly the pairs that some simulation of the
// present automaton has, under the one algebra that the list is carried out with, and every answer is right.
#![tactic(auto)]

mod calls;
mod performing;
mod replaying;
mod scene;
mod tickets;

pub use calls::{Answer, Call};
pub use replaying::Reduction;
pub use scene::Scene;
