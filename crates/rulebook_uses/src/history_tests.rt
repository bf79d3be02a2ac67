// Lists of calls.

ghost use Rattle.std.specs.Prelude.{◌≡◌};
ghost use Rattle.rulebook.specs.View.{view};
ghost use Rattle.histories.specs.Held.{Held};

use crate::calls::*;
use automata::Mark;
use histories::{Answer, Call, Reduction, Scene};
use labels::StyleMarks;
use reduction::Counts;
use rulebook::{Book, Refusal, Ticket};

// Spends the book's ticket, if it is held.
fn spend(book: &mut Book<'_, u64>, held: Option<Ticket>)
    requires { Held (view book.old) held }
{
    if let Some(ticket) = held {
        settle(book, ticket);
    }
}

// Carries out the calls with no ticket held. A refusal is its number.
fn replay_all(
    scene: &mut Scene<'_, '_, '_, '_, '_, '_, u64, u8>,
    calls: &[Call<u64>],
    answers: &mut [Result<Answer, Refusal>],
) -> Result<(), u8> {
    match scene.replay(&StyleMarks, None, calls, answers) {
        Ok(held) => {
            spend(scene.book, held);
            Ok(())
        }
        Err((why, held)) => {
            spend(scene.book, held);
            Err(why.number())
        }
    }
}

#[test]
fn declined_calls_stand_among_the_others_and_change_nothing(rt: HostRuntime) {
    let calls = [
        Call::Open,
        Call::AddState {
            ticket: 7,
            mark: Mark::Initial,
        },
        Call::AddState {
            ticket: 8,
            mark: Mark::Both,
        },
        Call::Strike {
            ticket: 7,
            place: 0,
        },
        Call::Ask { lower: 0, upper: 0 },
        Call::Settle { ticket: 7 },
        Call::Ask { lower: 0, upper: 0 },
    ];
    let mut answers = [Ok(Answer::Done); 8];
    let mut none = [BLANK; 0];
    let mut book = Book::new(&mut none, 7);
    let mut rest = [BLANK; 0];
    let mut target = Book::new(&mut rest, 8);
    let mut scene = Scene {
        text: &[],
        words: &mut [],
        book: &mut book,
        target: &mut target,
    };
    let declined = replay_all(&mut scene, &calls, &mut answers);
    assert_eq!(rt; declined, Ok(()));
    assert_eq!(rt;
        (answers[0], answers[1]),
        (Ok(Answer::Ticket(7)), Ok(Answer::State(0)))
    );
    assert_eq!(rt;
        (answers[2], answers[3]),
        (Err(Refusal::ForeignTicket), Err(Refusal::NoSuchArrow))
    );
    assert_eq!(rt;
        (answers[4], answers[5]),
        (Err(Refusal::BookOpen), Ok(Answer::Pairs(1)))
    );
    assert_eq!(rt;
        (answers[6], answers[7]),
        (Ok(Answer::Kept(true)), Ok(Answer::Done))
    );
}

#[test]
fn words_rows_and_the_target_are_lent_beside_the_calls(rt: HostRuntime) {
    let calls = [
        Call::Open,
        Call::AddState {
            ticket: 7,
            mark: Mark::Both,
        },
        Call::Settle { ticket: 7 },
        Call::CopyRows { from: 1, to: 5 },
        Call::CopyRows { from: 2, to: 5 },
        Call::TestWord { from: 1, to: 1 },
        Call::TestWord { from: 0, to: 1 },
        Call::Reduce,
    ];
    let mut answers = [Ok(Answer::Done); 8];
    let mut words = [9; 6];
    let mut none = [BLANK; 0];
    let mut book = Book::new(&mut none, 7);
    let mut rest = [BLANK; 0];
    let mut target = Book::new(&mut rest, 8);
    let mut scene = Scene {
        text: &[0],
        words: &mut words,
        book: &mut book,
        target: &mut target,
    };
    let declined = replay_all(&mut scene, &calls, &mut answers);
    assert_eq!(rt; declined, Ok(()));
    assert_eq!(rt;
        (answers[3], answers[4]),
        (Ok(Answer::Done), Err(Refusal::TooSmall))
    );
    assert_eq!(rt;
        (answers[5], answers[6]),
        (Ok(Answer::Accepts(true)), Ok(Answer::Accepts(false)))
    );
    assert_eq!(rt;
        answers[7],
        Ok(Answer::Counts(Counts {
            states: 1,
            arrows: 0
        }))
    );
    assert_eq!(rt; (words[0], words[1], words[2], words[5]), (9, 1, 0, 9));
    assert_eq!(rt; ask(&target, 0, 0), Ok(true));
}

#[test]
fn with_too_few_places_for_the_answers_nothing_is_done(rt: HostRuntime) {
    let mut answers = [Ok(Answer::Done); 1];
    let mut none = [BLANK; 0];
    let mut book = Book::new(&mut none, 7);
    let mut rest = [BLANK; 0];
    let mut target = Book::new(&mut rest, 8);
    let calls = [Call::Open; 2];
    let mut scene = Scene {
        text: &[],
        words: &mut [],
        book: &mut book,
        target: &mut target,
    };
    let declined = replay_all(&mut scene, &calls, &mut answers);
    assert_eq!(rt; declined, Err(3));
    assert_eq!(rt; answers[0], Ok(Answer::Done));
    assert!(rt; !book.is_open());
}

#[test]
fn a_ticket_that_does_not_belong_to_the_book_is_handed_back(rt: HostRuntime) {
    let mut answers = [Ok(Answer::Done); 1];
    let mut none = [BLANK; 0];
    let mut book = Book::new(&mut none, 7);
    let mut rest = [BLANK; 0];
    let mut other = Book::new(&mut rest, 8);
    let mut last = [BLANK; 0];
    let mut target = Book::new(&mut last, 9);
    let ticket = open(&mut other);
    let mut scene = Scene {
        text: &[],
        words: &mut [],
        book: &mut book,
        target: &mut target,
    };
    let declined = match scene.replay(&StyleMarks, Some(ticket), &[Call::Open], &mut answers) {
        Ok(held) => {
            spend(&mut book, held);
            Ok(())
        }
        Err((why, held)) => {
            spend(&mut other, held);
            Err(why.number())
        }
    };
    assert_eq!(rt; declined, Err(8));
    assert_eq!(rt; answers[0], Ok(Answer::Done));
    assert!(rt; !book.is_open() && !other.is_open());
}

#[test]
fn a_history_is_reduced_at_its_end(rt: HostRuntime) {
    let calls = [
        Call::Open,
        Call::AddState {
            ticket: 7,
            mark: Mark::Both,
        },
        Call::AddState {
            ticket: 7,
            mark: Mark::Both,
        },
        Call::Settle { ticket: 7 },
    ];
    let mut answers = [Ok(Answer::Done); 4];
    let mut none = [BLANK; 0];
    let mut book = Book::new(&mut none, 7);
    let mut rest = [BLANK; 0];
    let mut target = Book::new(&mut rest, 8);
    let mut scene = Scene {
        text: &[],
        words: &mut [],
        book: &mut book,
        target: &mut target,
    };
    let answer = match scene.reduce_after(&StyleMarks, None, &calls, &mut answers) {
        Ok(Reduction { held, answer }) => {
            spend(&mut book, held);
            answer
        }
        Err((why, held)) => {
            spend(&mut book, held);
            Err(why)
        }
    };
    assert_eq!(rt; answers[3], Ok(Answer::Pairs(4)));
    assert_eq!(rt;
        answer,
        Ok(Answer::Counts(Counts {
            states: 1,
            arrows: 0
        }))
    );
    assert_eq!(rt; target.marks().len(), 1);
}
