// A desk: how a program enters rules into a book over style marks.
//
// A rule is two states and an arrow between them. An entry opens the book and settles it again, also where a part of the
// rule is declined: a ticket cannot be let go, so no way through `enter_rule` leaves a settled book open.
#![tactic(auto)]

ghost use Rattle.std.specs.Prelude.{◌≡◌, length, IfOk};
ghost use Rattle.rulebook.specs.declared.parts.Condition.TheVariants.{Open, Settled};
ghost use Rattle.rulebook.specs.Model.{with_condition, settling};
ghost use Rattle.rulebook.specs.View.{view, number_of, Edits};
ghost use Rattle.bits.specs.Bit.{some_bit};
ghost use Rattle.desk.specs.Rules.{writing, entering};

use automata::Mark;
use labels::StyleMarks;
use rulebook::{Book, Refusal, Ticket};

// Writes a rule under the ticket, up to the first part that is declined. Answers the arrow's place.
fn write_rule(book: &mut Book<'_, u64>, ticket: &Ticket, label: u64) -> Result<usize, Refusal>
    ensures writes { Edits (writing (view book.old) (number_of ticket.now) label (some_bit label)) result book.old book.new }
    ensures place { IfOk result (λ k. k ≡ length (view book.old).arrows) }
{
    let source = book.add_state(ticket, Mark::Initial)?;
    let target = book.add_state(ticket, Mark::Accepting)?;
    book.add_arrow(&StyleMarks, ticket, source, label, target)
}

// Settles the open book by its own ticket. Not by `unwrap`: an error would hold the ticket, which may not be let go.
fn close(book: &mut Book<'_, u64>, ticket: Ticket)
    requires open { (view book.old).condition ≡ Open }
    requires own { number_of ticket ≡ (view book.old).number }
    ensures closes { view book.new ≡ with_condition (view book.old) Settled }
    ensures leaves { view book.new ≡ (settling (view book.old) (number_of ticket)).next }
{
    match book.settle(&StyleMarks, ticket) {
        Ok(_) => (),
        Err(_) => unreachable(),
    }
}

// Enters a rule into a settled book, and settles it again. An open book is declined with 6 and left as it is; what else
// is declined, with 1, 4 or 3, leaves the parts that were written before. Answers the arrow's place.
pub fn enter_rule(book: &mut Book<'_, u64>, label: u64) -> Result<usize, Refusal>
    ensures says { result ≡ (entering (view book.old) label (some_bit label)).answer }
    ensures leaves { view book.new ≡ (entering (view book.old) label (some_bit label)).next }
    ensures place { IfOk result (λ k. k ≡ length (view book.old).arrows) }
    ensures number { (view book.new).number ≡ (view book.old).number }
    ensures room { (view book.new).room ≡ (view book.old).room }
    ensures condition { (view book.new).condition ≡ (view book.old).condition }
{
    let ticket = book.open()?;
    let written = write_rule(book, &ticket, label);
    close(book, ticket);
    written
}
