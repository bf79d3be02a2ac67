// Lists of labels: what the program `explain` reads.
//
// A list is read in one pass, line by line; the labels go into a `Vec`, so that nothing is said of a list before it was
// accepted whole.
#![tactic(auto)]

ghost use Rattle.std.specs.Prelude.{◌≡◌, List, length, Ok, MatchResult, ◌≢◌};
ghost use Rattle.std.specs.Option.{ok_or};
ghost use Rattle.labels.specs.CutLists.{cuts_of};
ghost use Rattle.lines.specs.Fields.{fields};
ghost use Rattle.lines.specs.Texts.{text_says, ByFault, Refuses};
ghost use Rattle.lines.specs.declared.Fault.TheVariants as fault;
ghost use Rattle.written.specs.Texts.{reads_whole};
ghost use Rattle.label_list.specs.Lists.{labels_text, list_text, NoList, line_says, list_says};

use header::read_cuts;
use labels::{Both, CodePoints, Cuts, LabelAlgebra, StyleMarks, Sum};
pub use lines::Refusal;
use lines::{Fault, Field, Line, Lines};
use std::alloc::Global;
use written::{WrittenAlgebra, read_whole};

// The cuts, and the labels in their order.
#[derive(Drop)]
pub struct LabelList {
    pub cuts: Cuts,
    pub labels: Vec<Both<u64, u64>>,
}

// The label in a field.
pub fn read_label<L: WrittenAlgebra>(a: &L, field: Field<'_>) -> Result<L::Predicate, Fault>
    ensures { result ≡ ok_or (reads_whole (L.WrittenAlgebra.reads a.now) field.entry.bytes.now) (fault.Label field.entry.at) }
{
    read_whole(a, field.bytes).ok_or(Fault::Label(field.at))
}

// The label that a line says, or none at the end, or the line's first fault.
fn read_line<L: WrittenAlgebra>(a: &L, line: Line<'_>) -> Result<Option<L::Predicate>, Fault>
    ensures { result ≡ line_says (L.WrittenAlgebra.reads a.now) line.entry.at (fields line.entry.bytes.now) }
{
    let word = line.field(0).bytes;
    let count = line.count();
    // Tried as a `match` on byte strings with guards: the proof of its arms did not close.
    if word == b"label".as_slice() {
        if count != 2 {
            return Err(Fault::Count(line.at));
        }
        Ok(Some(read_label(a, line.field(1))?))
    } else if word == b"end".as_slice() {
        if count != 1 {
            return Err(Fault::Count(line.at));
        }
        Ok(None)
    } else {
        Err(Fault::Word(line.at))
    }
}

// The labels of the lines that are left, up to the end.
fn read_labels<L: WrittenAlgebra>(
    a: &L,
    heap: Global,
    mut lines: Lines<'_>,
) -> Result<Vec<L::Predicate>, Refusal>
    ensures value { MatchResult result (λ v. text_says (line_says (L.WrittenAlgebra.reads a.now)) lines.entry.at lines.entry.left.now ≡ Ok v.items) (Refuses (text_says (line_says (L.WrittenAlgebra.reads a.now)) lines.entry.at lines.entry.left.now)) }
    ensures law { MatchResult result (λ v. lines.entry.left.now ≡ labels_text (L.WrittenAlgebra.text a.now) v.items) (ByFault (λ f. (labels : List L.Predicate) → lines.entry.left.now ≢ labels_text (L.WrittenAlgebra.text a.now) labels)) }
{
    let mut labels = Vec::new(heap);
    // No `for`: a text that stops before its last line is a fault, not an end.
    while let Some(p) = read_line(a, lines.next_line()?)? {
        labels.push(p)?;
    }
    lines.end()?;
    Ok(labels)
}

// The list that a text says, or its first fault.
pub fn read_list(heap: Global, text: &[u8]) -> Result<LabelList, Refusal>
    ensures value { MatchResult result (λ l. list_says text.now ≡ Ok (record { cuts = cuts_of l.cuts; labels = l.labels.items })) (Refuses (list_says text.now)) }
    ensures law { MatchResult result (λ l. text.now ≡ list_text (cuts_of l.cuts) l.labels.items) (ByFault (λ f. NoList text.now)) }
{
    let mut lines = Lines::of(text);
    let cuts = read_cuts(lines.next_line()?)?;
    let styled = Sum {
        left: StyleMarks,
        right: CodePoints { cuts },
    };
    let labels = read_labels(&styled, heap, lines)?;
    Ok(LabelList { cuts, labels })
}
