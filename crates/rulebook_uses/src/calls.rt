// The calls of a book over style marks, for tests: a refusal is its number. A ticket has to be spent on every way through
// a test, so each call says that the book stays open, and `settle` that it is not declined.

ghost use Rattle.std.specs.Prelude.{◌≡◌, IfOk};
ghost use Rattle.rulebook.specs.declared.parts.Condition.TheVariants.{Settled, Open};
ghost use Rattle.rulebook.specs.Model.{Edited};
ghost use Rattle.rulebook.specs.View.{view, number_of};

use automata::{Arrow, Mark};
use labels::StyleMarks;
use rulebook::{Book, Refusal, Ticket};

pub const BLANK: Arrow<u64> = Arrow {
    source: 9,
    label: 9,
    target: 9,
};

pub(crate) fn open(book: &mut Book<'_, u64>) -> Ticket
    requires { (view book.old).condition ≡ Settled }
    ensures bears { number_of result ≡ (view book.old).number }
    ensures number { (view book.new).number ≡ (view book.old).number }
    ensures opens { (view book.new).condition ≡ Open }
{
    book.open().unwrap()
}

// Opens a book that may be open.
pub(crate) fn try_open(book: &mut Book<'_, u64>) -> Result<Ticket, u8>
    ensures { IfOk result (λ t. ((view book.new).condition ≡ Open) × (number_of t ≡ (view book.new).number)) }
{
    book.open().map_err(Refusal::number)
}

pub(crate) fn add_state(book: &mut Book<'_, u64>, ticket: &Ticket, mark: Mark) -> Result<u16, u8>
    ensures { Edited (view book.old) (view book.new) }
{
    book.add_state(ticket, mark).map_err(Refusal::number)
}

pub(crate) fn re_mark(
    book: &mut Book<'_, u64>,
    ticket: &Ticket,
    state: u16,
    mark: Mark,
) -> Result<Mark, u8>
    ensures { Edited (view book.old) (view book.new) }
{
    book.re_mark(ticket, state, mark).map_err(Refusal::number)
}

pub(crate) fn add_arrow(
    book: &mut Book<'_, u64>,
    ticket: &Ticket,
    source: u16,
    label: u64,
    target: u16,
) -> Result<usize, u8>
    ensures { Edited (view book.old) (view book.new) }
{
    book.add_arrow(&StyleMarks, ticket, source, label, target)
        .map_err(Refusal::number)
}

pub(crate) fn strike(book: &mut Book<'_, u64>, ticket: &Ticket, place: usize) -> Result<(), u8>
    ensures { Edited (view book.old) (view book.new) }
{
    book.strike(ticket, place).map_err(Refusal::number)
}

// Adds unmarked states, and answers what the last of them was answered.
pub(crate) fn add_states(book: &mut Book<'_, u64>, ticket: &Ticket, count: usize) -> Result<u16, u8>
    ensures { Edited (view book.old) (view book.new) }
{
    let mut last = Err(0);
    for _ in 0..count {
        last = add_state(book, ticket, Mark::Neither);
    }
    last
}

pub(crate) fn settle(book: &mut Book<'_, u64>, ticket: Ticket) -> usize
    requires open { (view book.old).condition ≡ Open }
    requires own { number_of ticket ≡ (view book.old).number }
    ensures number { (view book.new).number ≡ (view book.old).number }
    ensures settled { (view book.new).condition ≡ Settled }
{
    // Not `unwrap`: an error would hold the ticket, which may not be let go.
    match book.settle(&StyleMarks, ticket) {
        Ok(pairs) => pairs,
        Err(_) => unreachable(),
    }
}

pub(crate) fn ask(book: &Book<'_, u64>, lower: u16, upper: u16) -> Result<bool, u8> {
    book.ask(lower, upper).map_err(Refusal::number)
}

pub(crate) fn copy_rows(book: &Book<'_, u64>, words: &mut [u64]) -> Result<(), u8> {
    book.copy_rows(words).map_err(Refusal::number)
}

// Answers how many states and arrows the target has.
pub(crate) fn reduce(
    book: &Book<'_, u64>,
    target: &mut Book<'_, u64>,
) -> Result<(usize, usize), u8> {
    let counts = book.reduce(&StyleMarks, target).map_err(Refusal::number)?;
    Ok((counts.states, counts.arrows))
}
