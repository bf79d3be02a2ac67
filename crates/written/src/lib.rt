// Written algebras: label algebras whose labels have a text, as it stands in listings.
//
// A text can be told from whatever stands behind it and holds neither a comma nor byte 10, so a label is a field of a
// line. Code that only computes with labels asks for the smaller trait.
#![tactic(auto)]

ghost use Rattle.std.specs.Prelude.{◌≡◌, ℕ, ◌-◌, ◌^◌, min, List, ◌++◌, length, drop, Some, None, Option, MatchOption, ◌≢◌};
ghost use Rattle.written.specs.declared.Reading.{Reading};
ghost use Rattle.written.specs.Texts.{Wrote, Plain, reads_whole};

mod hex;
mod instances;

use labels::LabelAlgebra;

// A predicate that was read, and how many bytes its text took.
#[derive(Clone, Copy, PartialEq, Eq, Debug)]
pub struct Reading<P> {
    pub predicate: P,
    pub len: usize,
}

pub trait WrittenAlgebra: LabelAlgebra {
    // the text of a predicate
    ghost text: { Self → Self.Predicate → List ℕ };

    // what is read from the front of some bytes
    ghost reads: { Self → List ℕ → Option (Reading Self.Predicate) };

    // How long the text of `p` is; of a text longer than any buffer, the largest number.
    fn text_len(&self, p: Self::Predicate) -> usize
        ensures { result ≡ min (length (text self.now p)) (2 ^ 64 - 1) };

    // Writes the text of `p` to the front of `out` and answers its length; where it has no room, nothing is altered.
    fn write(&self, p: Self::Predicate, out: &mut [u8]) -> Option<usize>
        ensures { Wrote out.old out.new (text self.now p) result };

    // The predicate whose text these bytes begin with, and how many it took; or nothing, where they begin with none.
    fn read(&self, bytes: &[u8]) -> Option<Reading<Self::Predicate>>
        ensures { result ≡ reads self.now bytes.now };

    // a text, with any bytes behind it, is read whole, as a predicate that holds of the same symbols
    ghost back: { (a : Self) (p : Self.Predicate) (rest : List ℕ) → (q : Self.Predicate) × (reads a (text a p ++ rest) ≡ Some (record { predicate = q; len = length (text a p) })) × ((v : Self.Value) → Self.LabelAlgebra.holds a q v ≡ Self.LabelAlgebra.holds a p v) };

    // what was read has as its text the very bytes taken
    ghost exact: { (a : Self) (bytes : List ℕ) (got : Reading Self.Predicate) → reads a bytes ≡ Some got → (got.len ≡ length (text a got.predicate)) × (bytes ≡ text a got.predicate ++ drop got.len bytes) };

    // where reading fails, no predicate's text stands at the front
    ghost fails: { (a : Self) (bytes : List ℕ) → reads a bytes ≡ None → (p : Self.Predicate) (rest : List ℕ) → bytes ≢ text a p ++ rest };

    // a text can be a field of a line
    ghost plain: { (a : Self) (p : Self.Predicate) → Plain (text a p) };
}

// The predicate whose text the whole field is.
pub fn read_whole<L: WrittenAlgebra>(a: &L, field: &[u8]) -> Option<L::Predicate>
    ensures value { result ≡ reads_whole (L.WrittenAlgebra.reads a.now) field.now }
    ensures cases { MatchOption result ((p : L.Predicate) → field.now ≢ L.WrittenAlgebra.text a.now p) (λ p. field.now ≡ L.WrittenAlgebra.text a.now p) }
{
    let got = a.read(field)?;
    (got.len == field.len()).then_some(got.predicate)
}
