// What a book holds: its condition, its states, its arrows, and the kept pairs of a settled one.

use automata::Arrow;
use labels::Both;
use rulebook::Book;
use script::letter_of;
use std::io;

fn print_states(rt: &HostRuntime, book: &Book<'_, Both<u64, u64>>) -> io::Result<()> {
    for mark in book.marks() {
        println!(rt; "state,{}", letter_of(*mark))?;
    }
    Ok(())
}

fn print_arrows(rt: &HostRuntime, book: &Book<'_, Both<u64, u64>>) -> io::Result<()> {
    for arrow in book.arrows() {
        let Arrow {
            source,
            label: Both { left, right },
            target,
        } = *arrow;
        println!(rt; "arrow,{source},{target},{left:016x}{right:016x}")?;
    }
    Ok(())
}

// The states that `p` is kept below. A pair of numbers that are no states is declined.
fn print_above(rt: &HostRuntime, book: &Book<'_, Both<u64, u64>>, p: u16) -> io::Result<()> {
    print!(rt; "above,{p}")?;
    for q in 0..256 {
        if let Ok(true) = book.ask(p, q) {
            print!(rt; ",{q}")?;
        }
    }
    println!(rt; "")
}

// A line for each state of a settled book: of all numbers that a state can have, those that the book does not decline.
fn print_order(rt: &HostRuntime, book: &Book<'_, Both<u64, u64>>) -> io::Result<()> {
    for p in 0..256 {
        if book.ask(p, p).is_ok() {
            print_above(rt, book, p)?;
        }
    }
    Ok(())
}

pub(crate) fn print_book(rt: &HostRuntime, book: &Book<'_, Both<u64, u64>>) -> io::Result<()> {
    // A word at the one place that prints it: a `Display` would take a type of its own.
    let condition = if book.is_open() { "open" } else { "settled" };
    println!(rt; "{condition}")?;
    print_states(rt, book)?;
    print_arrows(rt, book)?;
    print_order(rt, book)
}
