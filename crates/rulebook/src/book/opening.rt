// A new book, opening it, and what a ticket lets through.

ghost use Rattle.std.specs.Prelude.{◌≡◌, ◌≤◌, length};
ghost use Rattle.rulebook.specs.Model.{fresh, admitted, opening};
ghost use Rattle.rulebook.specs.View.{view, number_of, lent_of, Gives, said_ticket};

use super::*;

impl Ticket {
    // The number that it bears.
    pub fn number(&self) -> u32
        ensures { result ≡ number_of self.now }
    {
        self.number
    }
}

impl<'t, P> Book<'t, P> {
    // A settled book with no states over the table.
    pub fn new(table: &'t mut [Arrow<P>], number: u32) -> Book<'t, P>
        ensures made { view result ≡ fresh number (length table.old) }
        ensures lent { lent_of result ≡ table.entry.ghost_name }
    {
        Book {
            slots: table,
            inner: Inner {
                number,
                states: 0,
                marks: [Mark::Neither; 256],
                arrows: 0,
                condition: Condition::Settled,
                rows: Rows::empty(),
            },
        }
    }

    // The condition that a call under the ticket leaves, or why it is declined.
    pub(super) fn admit(&self, ticket: &Ticket, act: Act) -> Result<Condition, Refusal>
        ensures { result ≡ admitted (view self.now) (number_of ticket.now) act }
    {
        if ticket.number != self.inner.number {
            return Err(Refusal::ForeignTicket);
        }
        self.inner.condition.judge(act)
    }

    // Opens a settled book; whoever holds the ticket may edit it, and has to settle it.
    pub fn open(&mut self) -> Result<Ticket, Refusal>
        ensures { Gives (opening (view self.old)) (said_ticket result) self.old self.new }
    {
        self.inner.condition = self.inner.condition.judge(Act::Opens)?;
        Ok(Ticket {
            number: self.inner.number,
        })
    }
}
