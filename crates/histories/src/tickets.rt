// Tickets by number: the ticket of a scratch book over an empty table, which only a real `open` makes.

ghost use Rattle.std.specs.Prelude.{◌≡◌};
ghost use Rattle.rulebook.specs.declared.parts.Condition.TheVariants.{Settled, Open};
ghost use Rattle.rulebook.specs.View.{view, number_of};

use labels::LabelAlgebra;
use rulebook::{Book, Ticket};

// The ticket of a settled book, which it leaves open.
pub(crate) fn draw<P>(scratch: &mut Book<'_, P>) -> Ticket
    requires { (view scratch.old).condition ≡ Settled }
    ensures bears { number_of result ≡ (view scratch.old).number }
    ensures opens { (view scratch.new).condition ≡ Open }
    ensures same { (view scratch.new).number ≡ (view scratch.old).number }
{
    scratch.open().unwrap()
}

// Spends a ticket on an open book with its number.
pub(crate) fn spend<L: LabelAlgebra>(
    labels: &L,
    scratch: &mut Book<'_, L::Predicate>,
    ticket: Ticket,
)
    requires open { (view scratch.old).condition ≡ Open }
    requires own { number_of ticket ≡ (view scratch.old).number }
{
    // Not `unwrap`: an error would hold a ticket, which may not be let go.
    match scratch.settle(labels, ticket) {
        Ok(_) => (),
        Err(_) => unreachable(),
    }
}
