// The structs: a book over a lent table, and its ticket.

ghost use Rattle.std.specs.Prelude.{◌≡◌, ◌≤◌, length};
ghost use Rattle.rulebook.specs.Invariants.{EndsIn, Reflexive, Transitive, OnStates};

use crate::parts::{Act, Condition, Refusal};
use automata::{Arrow, Mark};
use bits::Rows;

mod asking;
mod editing;
mod opening;
mod reducing;
mod settling;

// Leave to edit the open book with this number. It is not `Drop`: whoever opens a book has to settle it.
pub struct Ticket {
    number: u32,
}

// All of a book but its arrows. The marks are those of the first states: nothing is allocated, so their room is fixed.
#[derive(Drop)]
struct Inner {
    number: u32,
    states: usize,
    marks: [Mark; 256],
    arrows: usize,
    condition: Condition,
    rows: Rows<1024>,
    ghost few_states: { states ≤ 256 },
    ghost few_arrows: { arrows ≤ 8192 },
    ghost all_marks: { length marks ≡ 256 },
    ghost reflexive: { Reflexive condition states rows.words },
    ghost transitive: { Transitive condition states rows.words },
    ghost bounded: { OnStates condition states rows.words },
}

// A rule book over a lent table: its arrows are the first ones there, and their ends exist.
// A table with a count, since it is lent for longer than any call and arrows come and go in it.
#[derive(Drop)]
pub struct Book<'t, P> {
    slots: &'t mut [Arrow<P>],
    inner: Inner,
    ghost fits: { inner.arrows ≤ length slots.now },
    ghost ends: { EndsIn inner.states inner.arrows slots.now },
}
