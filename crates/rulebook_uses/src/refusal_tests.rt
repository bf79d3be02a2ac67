// What each call declines, by the number of the refusal and in the order in which the refusals are tried.

use crate::calls::*;
use automata::Mark;
use labels::StyleMarks;
use rulebook::{Book, Refusal};
use std::test::Fail;

#[test]
fn refusals_have_the_numbers_1_to_9(rt: HostRuntime) {
    let all = [
        Refusal::StatesFull,
        Refusal::NoSuchState,
        Refusal::TooSmall,
        Refusal::EmptyLabel,
        Refusal::NoSuchArrow,
        Refusal::BookOpen,
        Refusal::NotOpen,
        Refusal::ForeignTicket,
        Refusal::TargetTaken,
    ];
    for (i, refusal) in all.iter().enumerate() {
        assert_eq!(rt; usize::from(refusal.number()), i + 1);
    }
}

// What a settled book with the number `own` answers to each edit and to settle, under the ticket of another book.
fn under_the_ticket_of(
    own: u32,
    others: u32,
) -> (
    Result<u16, u8>,
    Result<Mark, u8>,
    Result<usize, u8>,
    Result<(), u8>,
    Result<usize, u8>,
) {
    let mut none = [BLANK; 0];
    let mut book = Book::new(&mut none, own);
    let mut rest = [BLANK; 0];
    let mut other = Book::new(&mut rest, others);
    let ticket = open(&mut other);
    let state = add_state(&mut book, &ticket, Mark::Both);
    let marked = re_mark(&mut book, &ticket, 9, Mark::Both);
    let arrow = add_arrow(&mut book, &ticket, 9, 0, 9);
    let struck = strike(&mut book, &ticket, 9);
    let settled = match book.settle(&StyleMarks, ticket) {
        Ok(pairs) => Ok(pairs),
        Err((why, ticket)) => {
            settle(&mut other, ticket);
            Err(why.number())
        }
    };
    (state, marked, arrow, struck, settled)
}

#[test]
fn a_foreign_ticket_is_declined_with_8_before_anything_else(rt: HostRuntime) {
    assert_eq!(rt;
        under_the_ticket_of(1, 2),
        (Err(8), Err(8), Err(8), Err(8), Err(8))
    );
}

#[test]
fn a_settled_book_declines_edits_with_7(rt: HostRuntime) {
    assert_eq!(rt;
        under_the_ticket_of(5, 5),
        (Err(7), Err(7), Err(7), Err(7), Err(7))
    );
}

#[test]
fn an_open_book_declines_opening_and_reading_with_6(rt: HostRuntime) {
    let mut none = [BLANK; 0];
    let mut book = Book::new(&mut none, 5);
    let mut rest = [BLANK; 0];
    let mut target = Book::new(&mut rest, 6);
    let ticket = open(&mut book);
    let asked = ask(&book, 9, 9);
    let copied = copy_rows(&book, &mut []);
    let reduced = reduce(&book, &mut target);
    let open = book.is_open();
    settle(&mut book, ticket);
    assert_eq!(rt; asked, Err(6));
    assert_eq!(rt; copied, Err(6));
    assert_eq!(rt; reduced, Err(6));
    assert!(rt; open && !book.is_open());
}

#[test]
fn a_book_is_not_opened_twice(rt: HostRuntime) {
    let mut none = [BLANK; 0];
    let mut book = Book::new(&mut none, 5);
    let ticket = open(&mut book);
    let again = book.open().unwrap_err();
    settle(&mut book, ticket);
    assert_eq!(rt; again.number(), 6);
}

#[test]
fn an_arrow_is_declined_by_its_ends_then_its_label_then_the_room(rt: HostRuntime) {
    let mut none = [BLANK; 0];
    let mut book = Book::new(&mut none, 5);
    let ticket = open(&mut book);
    let _ = add_state(&mut book, &ticket, Mark::Neither);
    let source = add_arrow(&mut book, &ticket, 1, 0, 0);
    let target = add_arrow(&mut book, &ticket, 0, 0, 1);
    let label = add_arrow(&mut book, &ticket, 0, 0, 0);
    let room = add_arrow(&mut book, &ticket, 0, 1, 0);
    settle(&mut book, ticket);
    assert_eq!(rt; (source, target), (Err(2), Err(2)));
    assert_eq!(rt; (label, room), (Err(4), Err(3)));
}

#[test]
fn what_is_not_there_is_declined_with_2_or_5(rt: HostRuntime) {
    let mut none = [BLANK; 0];
    let mut book = Book::new(&mut none, 5);
    let ticket = open(&mut book);
    let marked = re_mark(&mut book, &ticket, 0, Mark::Both);
    let struck = strike(&mut book, &ticket, 0);
    settle(&mut book, ticket);
    assert_eq!(rt; marked, Err(2));
    assert_eq!(rt; struck, Err(5));
    assert_eq!(rt; ask(&book, 0, 0), Err(2));
}

#[test]
fn reduce_declines_a_target_with_states_with_9_and_a_small_one_with_3(
    rt: HostRuntime,
) -> Result<(), Fail> {
    let mut table = [BLANK; 1];
    let mut book = Book::new(&mut table, 5);
    let ticket = open(&mut book);
    let _ = add_state(&mut book, &ticket, Mark::Both);
    let _ = add_arrow(&mut book, &ticket, 0, 1, 0);
    settle(&mut book, ticket);
    let mut none = [BLANK; 0];
    let mut small = Book::new(&mut none, 6);
    assert_eq!(rt; reduce(&book, &mut small), Err(3));
    let ticket = try_open(&mut small)?;
    let _ = add_state(&mut small, &ticket, Mark::Both);
    settle(&mut small, ticket);
    assert_eq!(rt; reduce(&book, &mut small), Err(9));
    Ok(())
}
