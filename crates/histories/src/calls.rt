// A call with its arguments, and what it answers.

use automata::Mark;
use reduction::Counts;

// A call on a book. A ticket goes by the number that it bears. What cannot lie in a list of calls is lent beside it: a
// word is a part of a lent text, a buffer for rows a part of lent words, and reduce fills a lent target.
#[derive(Clone, Copy, PartialEq, Eq, Debug)]
pub enum Call<P> {
    Open,
    AddState {
        ticket: u32,
        mark: Mark,
    },
    ReMark {
        ticket: u32,
        state: u16,
        mark: Mark,
    },
    AddArrow {
        ticket: u32,
        source: u16,
        label: P,
        target: u16,
    },
    Strike {
        ticket: u32,
        place: usize,
    },
    Settle {
        ticket: u32,
    },
    Ask {
        lower: u16,
        upper: u16,
    },
    CopyRows {
        from: usize,
        to: usize,
    },
    TestWord {
        from: usize,
        to: usize,
    },
    Reduce,
}

// What an accepted call answers: the number that a ticket bears, a state, a mark, an arrow's place, that it was accepted, how
// many pairs are kept, whether a pair is kept, whether a word is accepted, or the counts of a reduced book.
#[derive(Clone, Copy, PartialEq, Eq, Debug)]
pub enum Answer {
    Ticket(u32),
    State(u16),
    Mark(Mark),
    Place(usize),
    Done,
    Pairs(usize),
    Kept(bool),
    Accepts(bool),
    Counts(Counts),
}
