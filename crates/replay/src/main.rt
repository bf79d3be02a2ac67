// Carries out a script of calls on a rule book.
//
// Standard input is a script; the program prints what each call answers, and then what the book holds. What is read is
// proved in the crate `script`, and what the calls do in `rulebook` and `histories`; the layout of the output is tested.
#![tactic(auto)]

ghost use Rattle.rulebook.specs.View.{view};
ghost use Rattle.histories.specs.Held.{Held};

use answers::print_answers;
use automata::Arrow;
use book::print_book;
use histories::{Answer, Scene};
use input::{Failure, read_input, report};
use labels::{Both, CodePoints, LabelAlgebra, StyleMarks, Sum};
use rulebook::{Book, Ticket};
use script::{OWN, Script, read_script};
use std::io;

mod answers;
mod book;

// How many arrows each of the two books can take.
const PLACES: usize = 8_192;

// The number of the book that reduce fills.
const TARGET: u32 = 2;

// A ticket cannot be let go, so that of a book which is still open is spent.
fn spend(
    labels: &Sum<StyleMarks, CodePoints>,
    book: &mut Book<'_, Both<u64, u64>>,
    held: Option<Ticket>,
)
    requires { Held (view book.old) held }
{
    if let Some(ticket) = held {
        // Not `unwrap`: an error would hold the ticket, which may not be let go.
        match book.settle(labels, ticket) {
            Ok(_) => {}
            Err((_, _ticket)) => unreachable(),
        }
    }
}

fn carry_out(rt: &HostRuntime, script: &Script) -> io::Result<()> {
    let labels = Sum {
        left: StyleMarks,
        right: CodePoints { cuts: script.cuts },
    };
    let blank = Arrow {
        source: 0,
        label: labels.none(),
        target: 0,
    };
    // Arrays, so that no memory is asked for that a script does not need.
    let mut table = [blank; PLACES];
    let mut room = [blank; PLACES];
    let mut answers = vec![in rt.alloc(); Ok(Answer::Done); script.calls.len()]?;
    let mut rows = [0; 1024];
    let mut book = Book::new(&mut table, OWN);
    let mut target = Book::new(&mut room, TARGET);
    let mut scene = Scene {
        text: &script.symbols,
        words: &mut rows,
        book: &mut book,
        target: &mut target,
    };
    // On both ways a ticket may come back, which has to be spent before `?` may leave.
    match scene.replay(&labels, None, &script.calls, &mut answers) {
        Ok(held) => {
            let printed = print_answers(rt, &answers);
            let listed = print_book(rt, &book);
            spend(&labels, &mut book, held);
            printed?;
            listed
        }
        Err((refusal, held)) => {
            spend(&labels, &mut book, held);
            println!(rt; "declined,{}", refusal.number())
        }
    }
}

// As in `explain`, but that two of the three steps are other ones.
fn run(rt: &HostRuntime) -> Result<(), Failure> {
    let text = read_input(rt)?;
    let script = read_script(rt.alloc(), &text)?;
    carry_out(rt, &script)?;
    Ok(())
}

fn main(rt: HostRuntime) -> io::Result<()> {
    report(&rt, run(&rt))
}
