// Whole histories: any list of calls, and any list of calls with a reduction at its end.

ghost use Rattle.std.specs.Prelude.{◌≡◌, ◌≤◌, [], ◌∷◌, ◌++◌, length, take, drop, is_some, IfOk, MatchResult};
ghost use Rattle.rulebook.specs.View.{view, kept};
ghost use Rattle.histories.specs.Present.{present, ticket_after};
ghost use Rattle.reduction.specs.declared.Counts.{Counts};
ghost use Rattle.histories.specs.declared.calls.Call.TheVariants.{Reduce};
ghost use Rattle.histories.specs.declared.calls.Answer.TheVariants as answered;
ghost use Rattle.histories.specs.Moments.{Start, ReducedRight};
ghost use Rattle.histories.specs.Reductions.{said_reduction};
ghost use Rattle.histories.specs.Held.{Held, replaying, said_replay, moment, SameLoans, Plays};

use crate::calls::{Answer, Call};
use crate::scene::Scene;
use labels::LabelAlgebra;
use rulebook::{Book, Refusal, Ticket};

// Whether a list of calls is declined before any is carried out.
fn check<P>(
    book: &Book<'_, P>,
    held: &Option<Ticket>,
    calls: usize,
    places: usize,
) -> Result<(), Refusal>
    ensures { result ≡ replaying (view book.now) held.now calls places }
{
    // The tests of the book's own `admit`, which only its crate can call.
    if let Some(ticket) = held {
        if ticket.number() != book.number() {
            return Err(Refusal::ForeignTicket);
        }
        if !book.is_open() {
            return Err(Refusal::NotOpen);
        }
    }
    if places < calls {
        return Err(Refusal::TooSmall);
    }
    Ok(())
}

// What is known at the end of a list of calls with a reduction behind it: the book's ticket, and what reduce answered.
pub struct Reduction {
    pub held: Option<Ticket>,
    pub answer: Result<Answer, Refusal>,
}

impl<'x, 'w, 'b, 'g, 't, 'u, P: Copy, V> Scene<'x, 'w, 'b, 'g, 't, 'u, P, V> {
    // Carries out the calls one after another.
    // `labels`, `held`, `calls` and `answers` stay arguments here and below: the ticket goes out again, and what a scene lends stays.
    fn carry_out<L: LabelAlgebra<Predicate = P, Value = V>>(
        &mut self,
        labels: &L,
        held: Option<Ticket>,
        calls: &[Call<P>],
        answers: &mut [Result<Answer, Refusal>],
    ) -> Option<Ticket>
        requires held { Held (view self.old.book.now) held }
        requires room { length calls.now ≤ length answers.old }
        ensures history { Plays (L.LabelAlgebra.holds labels.now) (L.LabelAlgebra.satisfiable labels.now) self.old calls.now (take (length calls.now) answers.new) self.new }
        ensures beyond { drop (length calls.now) answers.new ≡ drop (length calls.now) answers.old }
        ensures held { Held (view self.new.book.now) result }
        ensures ticket { is_some result ≡ ticket_after (L.LabelAlgebra.satisfiable labels.now) (view self.old.book.now) (is_some held) calls.now }
        ensures lent { SameLoans self.old self.new }
    {
        let mut own = held;
        // The answer is written by its place: after a `zip` with `iter_mut` no proof knows the elements.
        for (i, call) in calls.iter().enumerate() {
            let (answer, next) = self.perform(labels, own, *call);
            own = next;
            answers[i] = answer;
        }
        own
    }

    // Carries out a list of calls on a book, whatever they are, and writes what each answers. A word or a buffer that a call
    // names is a part of the text or the words. `held` is the book's own ticket, where the caller has it; one that does not
    // belong to the open book is handed back and nothing is done (8, 7), as where the answers have too few places (3).
    pub fn replay<L: LabelAlgebra<Predicate = P, Value = V>>(
        &mut self,
        labels: &L,
        held: Option<Ticket>,
        calls: &[Call<P>],
        answers: &mut [Result<Answer, Refusal>],
    ) -> Result<Option<Ticket>, (Refusal, Option<Ticket>)>
        ensures says { said_replay result ≡ replaying (view self.old.book.now) held (length calls.now) (length answers.old) }
        ensures leaves { MatchResult result (λ _. view self.new.book.now ≡ present (L.LabelAlgebra.satisfiable labels.now) (view self.old.book.now) calls.now) (λ _. moment self.new ≡ moment self.old) }
        ensures history { MatchResult result (λ _. Plays (L.LabelAlgebra.holds labels.now) (L.LabelAlgebra.satisfiable labels.now) self.old calls.now (take (length calls.now) answers.new) self.new) (λ _. answers.new ≡ answers.old) }
        ensures beyond { drop (length calls.now) answers.new ≡ drop (length calls.now) answers.old }
        ensures held { MatchResult result (λ t. Held (view self.new.book.now) t) (λ e. e.1 ≡ held) }
        ensures ticket { IfOk result (λ t. is_some t ≡ ticket_after (L.LabelAlgebra.satisfiable labels.now) (view self.old.book.now) (is_some held) calls.now) }
        ensures lent { SameLoans self.old self.new }
    {
        // The ticket goes one way or the other, which neither `?` nor a closure can say of a value that may not be let go.
        match check(self.book, &held, calls.len(), answers.len()) {
            Ok(()) => Ok(self.carry_out(labels, held, calls, answers)),
            Err(why) => Err((why, held)),
        }
    }

    // Carries out a list of calls on a book and then reduces it into the target, whatever the target's number, table and
    // condition are. It is declined as `replay` is, and then nothing is done.
    pub fn reduce_after<L: LabelAlgebra<Predicate = P, Value = V>>(
        &mut self,
        labels: &L,
        held: Option<Ticket>,
        calls: &[Call<P>],
        answers: &mut [Result<Answer, Refusal>],
    ) -> Result<Reduction, (Refusal, Option<Ticket>)>
        ensures says { said_reduction result ≡ replaying (view self.old.book.now) held (length calls.now) (length answers.old) }
        ensures history { MatchResult result (λ d. Plays (L.LabelAlgebra.holds labels.now) (L.LabelAlgebra.satisfiable labels.now) self.old (calls.now ++ (Reduce ∷ [])) (take (length calls.now) answers.new ++ (d.answer ∷ [])) self.new) (λ e. (moment self.new ≡ moment self.old) × (answers.new ≡ answers.old) × (e.1 ≡ held)) }
        ensures reduced { IfOk result (λ d. (c : Counts) → d.answer ≡ Ok (answered.Counts c) → Start (L.LabelAlgebra.holds labels.now) (moment self.old) → ReducedRight (L.LabelAlgebra.holds labels.now) (present (L.LabelAlgebra.satisfiable labels.now) (view self.old.book.now) calls.now) (view self.new.target.now) (kept self.new.target.now) c) }
        ensures leaves { IfOk result (λ _. view self.new.book.now ≡ present (L.LabelAlgebra.satisfiable labels.now) (view self.old.book.now) calls.now) }
        ensures beyond { drop (length calls.now) answers.new ≡ drop (length calls.now) answers.old }
        ensures held { IfOk result (λ d. Held (view self.new.book.now) d.held) }
        ensures ticket { IfOk result (λ d. is_some d.held ≡ ticket_after (L.LabelAlgebra.satisfiable labels.now) (view self.old.book.now) (is_some held) calls.now) }
        ensures lent { SameLoans self.old self.new }
    {
        let own = self.replay(labels, held, calls, answers)?;
        let (answer, held) = self.perform(labels, own, Call::Reduce);
        Ok(Reduction { held, answer })
    }
}
