// The calls that a line can state: by its first field, then by its count of fields, then by the fields.

ghost use Rattle.std.specs.Prelude.{◌≡◌};
ghost use Rattle.lines.specs.Fields.{fields};
ghost use Rattle.lines.specs.Texts.{over};
ghost use Rattle.script.specs.Lines.{call_of};
ghost use Rattle.script.specs.Reads.{kind_of_word, least, edits, takes, verb_says};

use crate::fields::{mark_at, number_at, ticket_at};
use histories::Call;
use label_list::read_label;
use lines::{Fault, Line};
use written::WrittenAlgebra;

// A call without a word.
#[derive(Clone, Copy, PartialEq, Eq, Debug)]
pub enum Verb {
    Open,
    State,
    Mark,
    Arrow,
    Strike,
    Settle,
    Ask,
    Rows,
    Reduce,
}

// What a line's first field says.
// `End` is one of the words: as `None` it could not be told from a word that is none of them.
#[derive(Clone, Copy, PartialEq, Eq, Debug)]
pub enum Kind {
    Call(Verb),
    Word,
    End,
}

pub(crate) fn kind_of(word: &[u8]) -> Option<Kind>
    ensures { result ≡ kind_of_word word.now }
{
    match word {
        b"open" => Some(Kind::Call(Verb::Open)),
        b"state" => Some(Kind::Call(Verb::State)),
        b"mark" => Some(Kind::Call(Verb::Mark)),
        b"arrow" => Some(Kind::Call(Verb::Arrow)),
        b"strike" => Some(Kind::Call(Verb::Strike)),
        b"settle" => Some(Kind::Call(Verb::Settle)),
        b"ask" => Some(Kind::Call(Verb::Ask)),
        b"rows" => Some(Kind::Call(Verb::Rows)),
        b"word" => Some(Kind::Word),
        b"reduce" => Some(Kind::Call(Verb::Reduce)),
        b"end" => Some(Kind::End),
        _ => None,
    }
}

// How many fields a line has at least.
// By the verb here, in `edits` and in `read_call`: a line's count is told wrong before any field of it is read.
fn least(verb: Verb) -> usize
    ensures { result ≡ least verb }
{
    match verb {
        Verb::Open | Verb::Settle | Verb::Rows | Verb::Reduce => 1,
        Verb::State | Verb::Strike => 2,
        Verb::Mark | Verb::Ask => 3,
        Verb::Arrow => 4,
    }
}

// Whether a ticket may be the last field.
fn edits(verb: Verb) -> bool
    ensures { result ≡ edits verb }
{
    matches!(
        verb,
        Verb::State | Verb::Mark | Verb::Arrow | Verb::Strike | Verb::Settle
    )
}

// Whether a line has a right count of fields.
pub(crate) fn takes(kind: Kind, count: usize) -> bool
    ensures { result ≡ takes kind count }
{
    match kind {
        Kind::Call(verb) => {
            let few = least(verb);
            few <= count && count <= few + usize::from(edits(verb))
        }
        Kind::Word => true,
        Kind::End => count == 1,
    }
}

// The call that a line with a right count of fields states.
pub(crate) fn read_call<L: WrittenAlgebra>(
    a: &L,
    verb: Verb,
    line: Line<'_>,
) -> Result<Call<L::Predicate>, Fault>
    ensures { result ≡ over call_of (verb_says (L.WrittenAlgebra.reads a.now) line.entry.at (fields line.entry.bytes.now) verb) }
{
    Ok(match verb {
        Verb::Open => Call::Open,
        Verb::State => Call::AddState {
            mark: mark_at(line, 1)?,
            ticket: ticket_at(line, 2)?,
        },
        Verb::Mark => Call::ReMark {
            state: number_at(line, 1)?,
            mark: mark_at(line, 2)?,
            ticket: ticket_at(line, 3)?,
        },
        Verb::Arrow => Call::AddArrow {
            source: number_at(line, 1)?,
            target: number_at(line, 2)?,
            label: read_label(a, line.field(3))?,
            ticket: ticket_at(line, 4)?,
        },
        Verb::Strike => Call::Strike {
            place: usize::from(number_at(line, 1)?),
            ticket: ticket_at(line, 2)?,
        },
        Verb::Settle => Call::Settle {
            ticket: ticket_at(line, 1)?,
        },
        Verb::Ask => Call::Ask {
            lower: number_at(line, 1)?,
            upper: number_at(line, 2)?,
        },
        Verb::Rows => Call::CopyRows { from: 0, to: 1024 },
        Verb::Reduce => Call::Reduce,
    })
}
