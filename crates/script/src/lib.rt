// Scripts: what the program `replay` reads.
//
// A script is cuts and a list of calls on a book. It is read line by line, from the first to the last; the calls, and the symbols of
// their words, go into `Vec`s, so that nothing is carried out of a script before it was accepted whole.
#![tactic(auto)]

ghost use Rattle.std.specs.Prelude.{◌≡◌, [], Ok, MatchResult};
ghost use Rattle.labels.specs.CutLists.{cuts_of};
ghost use Rattle.lines.specs.Fields.{fields};
ghost use Rattle.lines.specs.Texts.{over, text_says, ByFault, Refuses};
ghost use Rattle.script.specs.Reads.{line_says};
ghost use Rattle.script.specs.Scripts.{LineRead, told, script_says, Tells, NoLines, IsScript, NoScript};

mod fields;
mod verbs;
mod words;

pub use fields::{OWN, letter_of};
use header::read_cuts;
use histories::Call;
use labels::{Both, CodePoints, Cuts, Either, LabelAlgebra, StyleMarks, Sum};
pub use lines::Refusal;
use lines::{Fault, Line, Lines};
use std::alloc::Global;
use verbs::{Kind, kind_of, read_call, takes};
use words::read_word;
use written::WrittenAlgebra;

// The cuts, the calls in their order, and the symbols of all words, one after another.
#[derive(Drop)]
pub struct Script {
    pub cuts: Cuts,
    pub calls: Vec<Call<Both<u64, u64>>>,
    pub symbols: Vec<Either<u8, u32>>,
}

// The calls and symbols of the lines behind the cuts.
#[derive(Drop)]
struct Draft<P> {
    calls: Vec<Call<P>>,
    symbols: Vec<Either<u8, u32>>,
}

// The call that a line says, or none at the end, or the first fault. The symbols of a word are added.
fn read_line<L: WrittenAlgebra>(
    a: &L,
    line: Line<'_>,
    symbols: &mut Vec<Either<u8, u32>>,
) -> Result<Option<Call<L::Predicate>>, Refusal>
    ensures { MatchResult result (λ o. LineRead (line_says (L.WrittenAlgebra.reads a.now) line.entry.at (fields line.entry.bytes.now)) symbols.old.items o symbols.new.items) (Refuses (line_says (L.WrittenAlgebra.reads a.now) line.entry.at (fields line.entry.bytes.now))) }
{
    let kind = kind_of(line.field(0).bytes).ok_or(Fault::Word(line.at))?;
    if !takes(kind, line.count()) {
        return Err(Fault::Count(line.at).into());
    }
    match kind {
        Kind::Call(verb) => Ok(Some(read_call(a, verb, line)?)),
        Kind::Word => Ok(Some(read_word(line, symbols)?)),
        Kind::End => Ok(None),
    }
}

// The calls and symbols of the lines that are left, up to the end.
fn read_calls<L: WrittenAlgebra>(
    a: &L,
    heap: Global,
    mut lines: Lines<'_>,
) -> Result<Draft<L::Predicate>, Refusal>
    ensures value { MatchResult result (λ d. over (told [] []) (text_says (line_says (L.WrittenAlgebra.reads a.now)) lines.entry.at lines.entry.left.now) ≡ Ok (record { calls = d.calls.items; symbols = d.symbols.items })) (Refuses (text_says (line_says (L.WrittenAlgebra.reads a.now)) lines.entry.at lines.entry.left.now)) }
    ensures law { MatchResult result (λ d. Tells (L.WrittenAlgebra.text a.now) lines.entry.left.now (record { calls = d.calls.items; symbols = d.symbols.items })) (ByFault (λ f. NoLines (L.WrittenAlgebra.text a.now) lines.entry.left.now)) }
{
    let mut calls = Vec::new(heap);
    let mut symbols = Vec::new(heap);
    // No `for`: a text that stops before its last line is a fault, not an end.
    while let Some(call) = read_line(a, lines.next_line()?, &mut symbols)? {
        calls.push(call)?;
    }
    lines.end()?;
    Ok(Draft { calls, symbols })
}

// The script that a text says, or its first fault.
pub fn read_script(heap: Global, text: &[u8]) -> Result<Script, Refusal>
    ensures value { MatchResult result (λ s. script_says text.now ≡ Ok (record { cuts = cuts_of s.cuts; told = record { calls = s.calls.items; symbols = s.symbols.items } })) (Refuses (script_says text.now)) }
    ensures law { MatchResult result (λ s. IsScript text.now (cuts_of s.cuts) (record { calls = s.calls.items; symbols = s.symbols.items })) (ByFault (λ f. NoScript text.now)) }
{
    let mut lines = Lines::of(text);
    let cuts = read_cuts(lines.next_line()?)?;
    let styled = Sum {
        left: StyleMarks,
        right: CodePoints { cuts },
    };
    let Draft { calls, symbols } = read_calls(&styled, heap, lines)?;
    Ok(Script {
        cuts,
        calls,
        symbols,
    })
}
