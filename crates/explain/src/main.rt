// Tells an editor what the labels of a rule book hold of.
//
// Standard input is a list of labels; the program prints of each label its style marks, its code points and how many
// symbols these are. What is read and what is counted is proved in the crates `label_list` and `ranges`; the layout of
// the output is tested.
#![tactic(auto)]

use input::{Failure, read_input, report};
use label_list::{LabelList, read_list};
use labels::{Both, CodePoints, StyleMarks, Sum};
use ranges::{Range, Ranged, Runs, count};
use std::{fmt, io};

// A range of code points: its numbers, and its characters where both ends are plain.
#[derive(Clone, Copy)]
struct Points(Range);

impl fmt::Display for Points {
    fn fmt<W: fmt::Write>(&self, f: &mut fmt::Formatter<W>) -> fmt::Result {
        write!(f, "{}", self.0)?;
        let (Some(from), Some(to)) = (plain(self.0.first), plain(self.0.last)) else {
            return Ok(());
        };
        if from == to {
            write!(f, " ({from})")
        } else {
            write!(f, " ({from}-{to})")
        }
    }
}

// A code point that prints as itself on every screen.
fn plain(c: u32) -> Option<char> {
    char::from_u32(c).filter(|c| c.is_ascii_graphic())
}

// The symbols of one side of a label, range by range.
fn print_all<A: Ranged, T: fmt::Display + Drop, F: Fn(Range) -> T>(
    rt: &HostRuntime,
    side: &A,
    p: u64,
    show: F,
) -> io::Result<()>
    requires { F.IsAlwaysCallable show }
{
    let mut runs = Runs::new(side, p);
    let Some(first) = runs.next() else {
        return println!(rt; " none");
    };
    print!(rt; " {}", show(first))?;
    for range in runs {
        print!(rt; ", {}", show(range))?;
    }
    println!(rt; "")
}

fn print_label(
    rt: &HostRuntime,
    a: &Sum<StyleMarks, CodePoints>,
    n: usize,
    p: Both<u64, u64>,
) -> io::Result<()> {
    let left = p.left;
    let right = p.right;
    print!(rt; "label {n}: {left:016x}{right:016x}\n  style marks:")?;
    print_all(rt, &a.left, left, |range| range)?;
    print!(rt; "  code points:")?;
    print_all(rt, &a.right, right, Points)?;
    let symbols = count(a, p);
    println!(rt; "  symbols: {symbols}")
}

fn print_list(rt: &HostRuntime, list: &LabelList) -> io::Result<()> {
    let a = Sum {
        left: StyleMarks,
        right: CodePoints { cuts: list.cuts },
    };
    for (i, p) in list.labels.iter().enumerate() {
        print_label(rt, &a, i + 1, *p)?;
    }
    println!(rt; "explained {} labels", list.labels.len())
}

// As in `replay`, but that two of the three steps are other ones.
fn explain(rt: &HostRuntime) -> Result<(), Failure> {
    let text = read_input(rt)?;
    let list = read_list(rt.alloc(), &text)?;
    print_list(rt, &list)?;
    Ok(())
}

fn main(rt: HostRuntime) -> io::Result<()> {
    report(&rt, explain(&rt))
}
