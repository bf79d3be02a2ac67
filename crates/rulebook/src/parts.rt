// A book's condition, what a call does to it, and why a call is declined.

ghost use Rattle.std.specs.Prelude.{◌≡◌};
ghost use Rattle.rulebook.specs.Refusals.{refusal_number, judged};

// Settled, or being edited under a ticket.
#[derive(Clone, Copy)]
pub enum Condition {
    Settled,
    Open,
}

// What a call does: it opens the book, edits it, settles it, or reads what a settled book holds.
#[derive(Clone, Copy)]
pub enum Act {
    Opens,
    Edits,
    Settles,
    Reads,
}

// Why a call is declined, by the numbers that formats and programs name.
#[derive(Clone, Copy, PartialEq, Eq, Debug)]
pub enum Refusal {
    StatesFull = 1,
    NoSuchState = 2,
    TooSmall = 3,
    EmptyLabel = 4,
    NoSuchArrow = 5,
    BookOpen = 6,
    NotOpen = 7,
    ForeignTicket = 8,
    TargetTaken = 9,
}

impl Condition {
    // The condition that a call leaves, or why it is declined.
    // Matched together, so that each pair of a condition and a call is seen to have its case.
    pub(crate) fn judge(self, act: Act) -> Result<Condition, Refusal>
        ensures { result ≡ judged self act }
    {
        match (self, act) {
            (Condition::Settled, Act::Opens) => Ok(Condition::Open),
            (Condition::Settled, Act::Edits | Act::Settles) => Err(Refusal::NotOpen),
            (Condition::Settled, Act::Reads) => Ok(Condition::Settled),
            (Condition::Open, Act::Opens | Act::Reads) => Err(Refusal::BookOpen),
            (Condition::Open, Act::Edits) => Ok(Condition::Open),
            (Condition::Open, Act::Settles) => Ok(Condition::Settled),
        }
    }
}

impl Refusal {
    // The number by which formats and programs name it.
    pub fn number(self) -> u8
        ensures { result ≡ refusal_number self }
    {
        self as u8
    }
}
