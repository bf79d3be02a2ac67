// Kept pairs, rows, words, and reduction.

ghost use Rattle.std.specs.Prelude.{◌≡◌};
ghost use Rattle.rulebook.specs.declared.parts.Condition.TheVariants.{Settled};
ghost use Rattle.rulebook.specs.View.{view};

use crate::calls::*;
use automata::Mark;
use labels::StyleMarks;
use rulebook::Book;
use std::test::Fail;

#[test]
fn a_struck_loop_is_no_longer_asked_for(rt: HostRuntime) {
    let mut table = [BLANK; 1];
    let mut book = Book::new(&mut table, 7);
    let ticket = open(&mut book);
    let _ = add_states(&mut book, &ticket, 2);
    let _ = add_arrow(&mut book, &ticket, 0, 1, 0);
    assert_eq!(rt; settle(&mut book, ticket), 3);
    assert_eq!(rt; (ask(&book, 1, 0), ask(&book, 0, 1)), (Ok(true), Ok(false)));
    let ticket = open(&mut book);
    let _ = strike(&mut book, &ticket, 0);
    assert_eq!(rt; settle(&mut book, ticket), 4);
    assert_eq!(rt; (ask(&book, 1, 0), ask(&book, 0, 1)), (Ok(true), Ok(true)));
}

#[test]
fn copied_rows_leave_later_words_and_want_four_words_a_state(rt: HostRuntime) {
    let mut none = [BLANK; 0];
    let mut book = Book::new(&mut none, 7);
    let ticket = open(&mut book);
    let _ = add_state(&mut book, &ticket, Mark::Neither);
    let _ = add_state(&mut book, &ticket, Mark::Accepting);
    assert_eq!(rt; settle(&mut book, ticket), 3);
    let mut short = [9; 7];
    assert_eq!(rt; copy_rows(&book, &mut short), Err(3));
    assert_eq!(rt; (short[0], short[6]), (9, 9));
    let mut words = [9; 9];
    assert_eq!(rt; copy_rows(&book, &mut words), Ok(()));
    assert_eq!(rt; (words[0], words[1], words[4]), (0b11, 0, 0b10));
    assert_eq!(rt; (words[7], words[8]), (0, 9));
}

#[test]
fn words_are_tested_on_open_books_too(rt: HostRuntime) {
    let mut table = [BLANK; 1];
    let mut book = Book::new(&mut table, 7);
    let ticket = open(&mut book);
    let _ = add_state(&mut book, &ticket, Mark::Initial);
    let _ = add_state(&mut book, &ticket, Mark::Accepting);
    let _ = add_arrow(&mut book, &ticket, 0, 1, 1);
    let while_open = book.test_word(&StyleMarks, &[0]);
    settle(&mut book, ticket);
    assert!(rt; while_open && book.test_word(&StyleMarks, &[0]));
    assert!(rt; !book.test_word(&StyleMarks, &[1]) && !book.test_word(&StyleMarks, &[]));
}

// State 0 is initial, 1 and 2 accept, and mark 0 leads from 0 to each of them. Answers the number of kept pairs.
fn write_fork(book: &mut Book<'_, u64>) -> usize
    requires { (view book.old).condition ≡ Settled }
{
    let ticket = open(book);
    let _ = add_state(book, &ticket, Mark::Initial);
    let _ = add_state(book, &ticket, Mark::Accepting);
    let _ = add_state(book, &ticket, Mark::Accepting);
    let _ = add_arrow(book, &ticket, 0, 1, 1);
    let _ = add_arrow(book, &ticket, 0, 1, 2);
    settle(book, ticket)
}

#[test]
fn a_fork_is_reduced_to_two_states_and_one_arrow(rt: HostRuntime) {
    let mut table = [BLANK; 2];
    let mut book = Book::new(&mut table, 7);
    assert_eq!(rt; write_fork(&mut book), 5);
    let mut into = [BLANK; 1];
    let mut target = Book::new(&mut into, 8);
    assert_eq!(rt; reduce(&book, &mut target), Ok((2, 1)));
    assert_eq!(rt;
        (ask(&target, 0, 0), ask(&target, 0, 1)),
        (Ok(true), Ok(false))
    );
    assert_eq!(rt;
        (ask(&target, 1, 0), ask(&target, 1, 1)),
        (Ok(false), Ok(true))
    );
    assert!(rt; target.number() == 8 && !target.is_open());
    assert!(rt; target.test_word(&StyleMarks, &[0]) && !target.test_word(&StyleMarks, &[]));
}

#[test]
fn a_reduced_book_is_opened_and_edited_like_any_other(rt: HostRuntime) -> Result<(), Fail> {
    let mut table = [BLANK; 2];
    let mut book = Book::new(&mut table, 7);
    write_fork(&mut book);
    let mut into = [BLANK; 2];
    let mut target = Book::new(&mut into, 8);
    assert_eq!(rt; reduce(&book, &mut target), Ok((2, 1)));
    let ticket = try_open(&mut target)?;
    let state = add_state(&mut target, &ticket, Mark::Accepting);
    let place = add_arrow(&mut target, &ticket, 1, 1, 2);
    let pairs = settle(&mut target, ticket);
    assert_eq!(rt; (state, place), (Ok(2), Ok(1)));
    assert_eq!(rt; pairs, 4);
    assert!(rt; target.test_word(&StyleMarks, &[0, 0]));
    Ok(())
}
