// What calls answer, a line each.

use histories::Answer;
use rulebook::Refusal;
use script::letter_of;
use std::{fmt, io};

fn yes_or_no(answer: bool) -> &'static str {
    if answer { "yes" } else { "no" }
}

// An answer as a line says it.
#[derive(Clone, Copy)]
struct Said(Answer);

impl fmt::Display for Said {
    fn fmt<W: fmt::Write>(&self, f: &mut fmt::Formatter<W>) -> fmt::Result {
        match self.0 {
            Answer::Ticket(number) => write!(f, "ticket,{number}"),
            Answer::State(state) => write!(f, "state,{state}"),
            Answer::Mark(old) => write!(f, "mark,{}", letter_of(old)),
            Answer::Place(place) => write!(f, "arrow,{place}"),
            Answer::Done => write!(f, "accepted"),
            Answer::Pairs(count) => write!(f, "pairs,{count}"),
            Answer::Kept(kept) => write!(f, "kept,{}", yes_or_no(kept)),
            Answer::Accepts(accepts) => write!(f, "word,{}", yes_or_no(accepts)),
            Answer::Counts(counts) => write!(f, "reduced,{},{}", counts.states, counts.arrows),
        }
    }
}

pub(crate) fn print_answers(
    rt: &HostRuntime,
    answers: &[Result<Answer, Refusal>],
) -> io::Result<()> {
    for answer in answers {
        match answer {
            Ok(answer) => println!(rt; "{}", Said(*answer))?,
            Err(refusal) => println!(rt; "declined,{}", refusal.number())?,
        }
    }
    Ok(())
}
