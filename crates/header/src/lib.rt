// The first line of the programs' inputs, which says by what cuts the labels behind it are read.
#![tactic(auto)]

ghost use Rattle.std.specs.Prelude.{◌≡◌, ℕ, List, [], Ok, Err, MatchResult, ◌≢◌};
ghost use Rattle.labels.specs.CutLists.{cuts_of};
ghost use Rattle.labels.specs.Segments.{Rising};
ghost use Rattle.lines.specs.Fields.{left_fields};
ghost use Rattle.header.specs.CutLine.{cut_line_text, cut_fields, cut_line};

use labels::Cuts;
use lines::{Fault, Fields, Line};

// The cuts that the line says, or its first fault.
pub fn read_cuts(line: Line<'_>) -> Result<Cuts, Fault>
    ensures value { MatchResult result (λ c. cut_line line.entry.at line.entry.bytes.now ≡ Ok (cuts_of c)) (λ f. cut_line line.entry.at line.entry.bytes.now ≡ Err f) }
    ensures law { MatchResult result (λ c. line.entry.bytes.now ≡ cut_line_text (cuts_of c)) (λ f. (cuts : List ℕ) → Rising cuts → line.entry.bytes.now ≢ cut_line_text cuts) }
{
    let word = line.field(0).bytes;
    let count = line.count();
    if word != b"cuts".as_slice() {
        return Err(Fault::Word(line.at));
    }
    if count > 64 {
        return Err(Fault::Count(line.at));
    }
    read_fields(line.others())
}

// The cuts in the fields behind the first.
fn read_fields(fields: Fields<'_>) -> Result<Cuts, Fault>
    ensures { MatchResult result (λ c. cut_fields [] fields.entry.at (left_fields fields.entry.left) ≡ Ok (cuts_of c)) (λ f. cut_fields [] fields.entry.at (left_fields fields.entry.left) ≡ Err f) }
{
    let mut cuts = Cuts::none();
    for field in fields {
        let cut = field.number(1_114_111)?;
        cuts.push(cut).map_err(|_| Fault::Number(field.at))?;
    }
    Ok(cuts)
}
