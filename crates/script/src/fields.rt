// The fields of a line by their places, and what each must hold. A field is looked up from the line's start, which costs
// no more than one pass over the line; the lines that are read so have at most five.

ghost use Rattle.std.specs.Prelude.{◌≡◌, [], ◌∷◌};
ghost use Rattle.lines.specs.Fields.{fields};
ghost use Rattle.lines.specs.Texts.{over};
ghost use Rattle.script.specs.Lines.{mark_text, own};
ghost use Rattle.script.specs.Reads.{mark_in, number_at, ticket_said_at, mark_at_place};

use automata::Mark;
use lines::{Fault, Line};

// The number of the book that a script is about, and so of its tickets.
pub const OWN: u32 = 1;

// The field behind `k` commas, as the number of a state or of an arrow's place.
pub(crate) fn number_at(line: Line<'_>, k: usize) -> Result<u16, Fault>
    ensures { result ≡ number_at 65535 line.entry.at (fields line.entry.bytes.now) k }
{
    // The most that is read fits; `try_from` would add a case that cannot be.
    Ok(line.field(k).number(65_535)? as u16)
}

// The same as a ticket's number; one that is left out is the book's own.
pub(crate) fn ticket_at(line: Line<'_>, k: usize) -> Result<u32, Fault>
    ensures { result ≡ over own (ticket_said_at line.entry.at (fields line.entry.bytes.now) k) }
{
    if line.count() <= k {
        Ok(OWN)
    } else {
        line.field(k).number(u32::MAX)
    }
}

// The letter that names a mark.
// Letters as cases, here and in `read_mark`. No `From`, since neither type is this crate's.
pub fn letter_of(mark: Mark) -> char
    ensures { mark_text mark ≡ result ∷ [] }
{
    match mark {
        Mark::Neither => 'n',
        Mark::Initial => 'i',
        Mark::Accepting => 'a',
        Mark::Both => 'b',
    }
}

// The mark that a field of one letter names.
fn read_mark(field: &[u8]) -> Option<Mark>
    ensures { result ≡ mark_in field.now }
{
    match field {
        [b'n'] => Some(Mark::Neither),
        [b'i'] => Some(Mark::Initial),
        [b'a'] => Some(Mark::Accepting),
        [b'b'] => Some(Mark::Both),
        _ => None,
    }
}

// The same as a mark.
pub(crate) fn mark_at(line: Line<'_>, k: usize) -> Result<Mark, Fault>
    ensures { result ≡ mark_at_place line.entry.at (fields line.entry.bytes.now) k }
{
    let field = line.field(k);
    read_mark(field.bytes).ok_or(Fault::Number(field.at))
}
