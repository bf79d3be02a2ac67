// The rule book: an automaton that editors open, change and settle.
//
// A book lies over an arrow table that its owner lends it, and holds the marks of its states, whether it is open, and the
// pairs of states that it keeps: once it is settled, those of its greatest simulation under the algebra that settle was given. Its
// calls decline what they cannot do and then alter nothing. Nothing is allocated; a book takes about nine thousand bytes besides its table.
#![tactic(auto)]

mod book;
mod parts;

pub use book::{Book, Ticket};
pub use parts::Refusal;
