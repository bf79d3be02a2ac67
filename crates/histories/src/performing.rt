// One call of a history, by the public calls of the book and nothing else.

ghost use Rattle.std.specs.Prelude.{◌≡◌, ℕ, Bool, not, ◌&&◌, ◌||◌, length, Decides, MatchResult, is_ok, is_some};
ghost use Rattle.rulebook.specs.Model.{adding_state, re_marking, adding_arrow, striking, settling, opening, asking, copying, machine};
ghost use Rattle.rulebook.specs.View.{view, kept, lent_of, Gives, Edits};
ghost use Rattle.automata.specs.Below.{pairs};
ghost use Rattle.automata.specs.Simulation.{Keeps};
ghost use Rattle.histories.specs.declared.calls.Answer.TheVariants.{State, Place, Done, Pairs, Kept, Ticket as Bears, Mark as Old};
ghost use Rattle.histories.specs.Present.{part, ticket_by};
ghost use Rattle.histories.specs.Moments.{said, answering, Whole, Step, Copies, CopiesWhole, Settles, FilledBy};
ghost use Rattle.histories.specs.Held.{Held, moment, SameLoans};
ghost use Rattle.histories.specs.Under.{Under};

use crate::calls::{Answer, Call};
use crate::scene::Scene;
use crate::tickets::{draw, spend};
use automata::{Arrow, Mark};
use labels::LabelAlgebra;
use rulebook::{Book, Refusal, Ticket};

// Edits a book by a ticket with this number: that of a scratch book, which is then settled by it.
fn under<L: LabelAlgebra, B, R, F: FnOnce(&mut B, &Ticket) -> R>(
    labels: &L,
    book: &mut B,
    number: u32,
    edit: F,
) -> R
    requires { F.IsAlwaysCallable edit }
    ensures { Under F.FnOnce edit number book.old result book.new }
{
    let mut none: [Arrow<L::Predicate>; 0] = [];
    let mut scratch = Book::new(&mut none, number);
    let ticket = draw(&mut scratch);
    let result = edit(book, &ticket);
    spend(labels, &mut scratch, ticket);
    result
}

// The four edits take the algebra, the book and the ticket's number, as the call names them: no more is said of the three.
fn add_state<L: LabelAlgebra>(
    labels: &L,
    book: &mut Book<'_, L::Predicate>,
    number: u32,
    mark: Mark,
) -> Result<Answer, Refusal>
    ensures { Edits (answering State (adding_state (view book.old) number mark)) result book.old book.new }
{
    under(
        labels,
        book,
        number,
        |book, ticket| book.add_state(ticket, mark),
    )
    .map(Answer::State)
}

fn re_mark<L: LabelAlgebra>(
    labels: &L,
    book: &mut Book<'_, L::Predicate>,
    number: u32,
    state: u16,
    mark: Mark,
) -> Result<Answer, Refusal>
    ensures { Edits (answering Old (re_marking (view book.old) number state mark)) result book.old book.new }
{
    under(
        labels,
        book,
        number,
        |book, ticket| book.re_mark(ticket, state, mark),
    )
    .map(Answer::Mark)
}

fn add_arrow<L: LabelAlgebra>(
    labels: &L,
    book: &mut Book<'_, L::Predicate>,
    number: u32,
    source: u16,
    label: L::Predicate,
    target: u16,
) -> Result<Answer, Refusal>
    ensures { Edits (answering Place (adding_arrow (view book.old) number source label target (L.LabelAlgebra.satisfiable labels.now label))) result book.old book.new }
{
    under(
        labels,
        book,
        number,
        |book, ticket| book.add_arrow(labels, ticket, source, label, target),
    )
    .map(Answer::Place)
}

fn strike<L: LabelAlgebra>(
    labels: &L,
    book: &mut Book<'_, L::Predicate>,
    number: u32,
    place: usize,
) -> Result<Answer, Refusal>
    ensures { Edits (answering (λ _. Done) (striking (view book.old) number place)) result book.old book.new }
{
    under(
        labels,
        book,
        number,
        |book, ticket| book.strike(ticket, place),
    )
    .map(|_| Answer::Done)
}

// A ticket that is held belongs to an open book, so a book that was opened has no other.
fn open<P>(
    book: &mut Book<'_, P>,
    held: Option<Ticket>,
) -> (Result<Answer, Refusal>, Option<Ticket>)
    requires { Held (view book.old) held }
    ensures gives { Gives (answering Bears (opening (view book.old))) result.0 book.old book.new }
    ensures held { Held (view book.new) result.1 }
    ensures ticket { is_some result.1 ≡ (is_ok (opening (view book.old)).answer || is_some held) }
{
    // The ticket that is held goes back on every way, and may not be let go: no `?` and no `map`.
    match book.open() {
        Err(why) => (Err(why), held),
        Ok(ticket) => match held {
            None => (Ok(Answer::Ticket(ticket.number())), Some(ticket)),
            Some(_) => unreachable(),
        },
    }
}

// The scratch ticket settles the book, and the book's own ticket, if it is held, the scratch book.
fn settle<L: LabelAlgebra>(
    labels: &L,
    book: &mut Book<'_, L::Predicate>,
    held: Option<Ticket>,
    number: u32,
) -> (Result<Answer, Refusal>, Option<Ticket>)
    requires { Held (view book.old) held }
    ensures says { Settles (settling (view book.old) number).answer (machine (L.LabelAlgebra.holds labels.now) (view book.old)) (kept book.old) result.0 (kept book.new) }
    ensures leaves { view book.new ≡ (settling (view book.old) number).next }
    ensures held { Held (view book.new) result.1 }
    ensures ticket { is_some result.1 ≡ (not (is_ok (settling (view book.old) number).answer) && is_some held) }
    ensures lent { lent_of book.new ≡ lent_of book.old }
{
    // Not by `under`, which keeps the ticket that it draws: here it is used up or comes back, and none may be let go, so no `?`.
    let mut none: [Arrow<L::Predicate>; 0] = [];
    let mut scratch = Book::new(&mut none, number);
    let ticket = draw(&mut scratch);
    match book.settle(labels, ticket) {
        Err((why, back)) => {
            spend(labels, &mut scratch, back);
            (Err(why), held)
        }
        Ok(count) => {
            if let Some(own) = held {
                spend(labels, &mut scratch, own);
            }
            (Ok(Answer::Pairs(count)), None)
        }
    }
}

// `ask`, `copy_into` and `reduce` are a call each, with the clause that says the call's answer; a closure would have to bear it.
fn ask<P>(book: &Book<'_, P>, lower: u16, upper: u16) -> Result<Answer, Refusal>
    ensures { result ≡ said Kept (asking (view book.now) (kept book.now) lower upper) }
{
    book.ask(lower, upper).map(Answer::Kept)
}

fn copy_into<P>(book: &Book<'_, P>, words: &mut [u64]) -> Result<Answer, Refusal>
    ensures says { result ≡ said (λ _. Done) (copying (view book.now) (length words.old)) }
    ensures copies { CopiesWhole (copying (view book.now) (length words.old)) (length (view book.now).marks) (kept book.now) words.old words.new }
{
    book.copy_rows(words).map(|_| Answer::Done)
}

// Copies the rows into the part of the words, or into none where there is no such part. What `get_mut` lends a proof loses:
// it would know the length of the words afterwards, and none of them.
fn copy_rows<P>(
    book: &Book<'_, P>,
    words: &mut [u64],
    from: usize,
    to: usize,
) -> Result<Answer, Refusal>
    ensures says { result ≡ said (λ _. Done) (copying (view book.now) (length (part from to words.old))) }
    ensures copies { Copies (copying (view book.now) (length (part from to words.old))) from to (length (view book.now).marks) (kept book.now) words.old words.new }
{
    if from <= to && to <= words.len() {
        copy_into(book, &mut words[from..to])
    } else {
        copy_into(book, &mut [])
    }
}

// The part of the text, or nothing where there is no such part.
fn part_of<V>(text: &[V], from: usize, to: usize) -> &[V]
    ensures { result.now ≡ part from to text.now }
{
    text.get(from..to).unwrap_or(&[])
}

fn reduce<L: LabelAlgebra>(
    labels: &L,
    book: &Book<'_, L::Predicate>,
    target: &mut Book<'_, L::Predicate>,
) -> Result<Answer, Refusal>
    ensures says { FilledBy (L.LabelAlgebra.holds labels.now) (view book.now) (kept book.now) (view target.old) (kept target.old) result (view target.new) (kept target.new) }
    ensures lent { lent_of target.new ≡ lent_of target.old }
{
    book.reduce(labels, target).map(Answer::Counts)
}

impl<'x, 'w, 'b, 'g, 't, 'u, P: Copy, V> Scene<'x, 'w, 'b, 'g, 't, 'u, P, V> {
    // Carries out one call. The book's own ticket, if it is held, comes in and goes out.
    pub(crate) fn perform<L: LabelAlgebra<Predicate = P, Value = V>>(
        &mut self,
        labels: &L,
        held: Option<Ticket>,
        call: Call<P>,
    ) -> (Result<Answer, Refusal>, Option<Ticket>)
        requires { Held (view self.old.book.now) held }
        ensures step { Step (Whole (L.LabelAlgebra.holds labels.now) (moment self.old)) self.old.text.now (L.LabelAlgebra.holds labels.now) (L.LabelAlgebra.satisfiable labels.now) (moment self.old) call result.0 (moment self.new) }
        ensures held { Held (view self.new.book.now) result.1 }
        ensures ticket { is_some result.1 ≡ ticket_by (view self.old.book.now) (is_some held) call }
        ensures lent { SameLoans self.old self.new }
    {
        match call {
            Call::Open => open(self.book, held),
            Call::AddState { ticket, mark } => (add_state(labels, self.book, ticket, mark), held),
            Call::ReMark {
                ticket,
                state,
                mark,
            } => (re_mark(labels, self.book, ticket, state, mark), held),
            Call::AddArrow {
                ticket,
                source,
                label,
                target,
            } => (
                add_arrow(labels, self.book, ticket, source, label, target),
                held,
            ),
            Call::Strike { ticket, place } => (strike(labels, self.book, ticket, place), held),
            Call::Settle { ticket } => settle(labels, self.book, held, ticket),
            Call::Ask { lower, upper } => (ask(self.book, lower, upper), held),
            Call::CopyRows { from, to } => (copy_rows(self.book, self.words, from, to), held),
            Call::TestWord { from, to } => {
                let accepted = self.book.test_word(labels, part_of(self.text, from, to));
                (Ok(Answer::Accepts(accepted)), held)
            }
            Call::Reduce => (reduce(labels, self.book, self.target), held),
        }
    }
}
