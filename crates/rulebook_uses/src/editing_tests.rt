// States, arrows and tickets.

use crate::calls::*;
use automata::Mark;
use rulebook::Book;

#[test]
fn the_256th_state_is_number_255_and_the_next_is_declined_with_1(rt: HostRuntime) {
    let mut none = [BLANK; 0];
    let mut book = Book::new(&mut none, 7);
    let ticket = open(&mut book);
    let last = add_states(&mut book, &ticket, 256);
    let next = add_state(&mut book, &ticket, Mark::Both);
    let pairs = settle(&mut book, ticket);
    assert_eq!(rt; last, Ok(255));
    assert_eq!(rt; next, Err(1));
    assert_eq!(rt; book.marks().len(), 256);
    assert_eq!(rt; pairs, 65_536);
}

#[test]
fn the_room_of_a_struck_arrow_serves_again(rt: HostRuntime) {
    let mut table = [BLANK; 1];
    let mut book = Book::new(&mut table, 7);
    let ticket = open(&mut book);
    let _ = add_state(&mut book, &ticket, Mark::Both);
    let first = add_arrow(&mut book, &ticket, 0, 1, 0);
    let second = add_arrow(&mut book, &ticket, 0, 2, 0);
    let struck = strike(&mut book, &ticket, 0);
    let again = add_arrow(&mut book, &ticket, 0, 4, 0);
    settle(&mut book, ticket);
    assert_eq!(rt; (first, second), (Ok(0), Err(3)));
    assert_eq!(rt; struck, Ok(()));
    assert_eq!(rt; again, Ok(0));
    let arrows = book.arrows();
    assert!(rt; arrows.len() == 1);
    assert_eq!(rt; arrows[0].label, 4);
}

#[test]
fn arrows_after_a_struck_one_move_down(rt: HostRuntime) {
    let mut table = [BLANK; 3];
    let mut book = Book::new(&mut table, 7);
    let ticket = open(&mut book);
    let _ = add_state(&mut book, &ticket, Mark::Both);
    let _ = add_arrow(&mut book, &ticket, 0, 1, 0);
    let _ = add_arrow(&mut book, &ticket, 0, 2, 0);
    let _ = add_arrow(&mut book, &ticket, 0, 4, 0);
    let _ = strike(&mut book, &ticket, 0);
    settle(&mut book, ticket);
    let arrows = book.arrows();
    assert!(rt; arrows.len() == 2);
    assert_eq!(rt; (arrows[0].label, arrows[1].label), (2, 4));
}

#[test]
fn re_mark_answers_the_old_mark(rt: HostRuntime) {
    let mut none = [BLANK; 0];
    let mut book = Book::new(&mut none, 7);
    let ticket = open(&mut book);
    let _ = add_state(&mut book, &ticket, Mark::Initial);
    let first = re_mark(&mut book, &ticket, 0, Mark::Accepting);
    let second = re_mark(&mut book, &ticket, 0, Mark::Neither);
    settle(&mut book, ticket);
    assert_eq!(rt; first, Ok(Mark::Initial));
    assert_eq!(rt; second, Ok(Mark::Accepting));
    assert_eq!(rt; book.marks(), [Mark::Neither].as_slice());
}

#[test]
fn two_books_with_one_number_take_each_others_tickets(rt: HostRuntime) {
    let mut none = [BLANK; 0];
    let mut book = Book::new(&mut none, 7);
    let mut rest = [BLANK; 0];
    let mut other = Book::new(&mut rest, 7);
    let ticket = open(&mut book);
    let others = open(&mut other);
    let state = add_state(&mut book, &others, Mark::Both);
    let others_state = add_state(&mut other, &ticket, Mark::Both);
    let pairs = settle(&mut book, others);
    let others_pairs = settle(&mut other, ticket);
    assert_eq!(rt; (state, others_state), (Ok(0), Ok(0)));
    assert_eq!(rt; (pairs, others_pairs), (1, 1));
}
