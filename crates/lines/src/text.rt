// The lines of a text, each of which a byte 10 ends.

ghost use Rattle.std.specs.Prelude.{◌≡◌, ◌+◌, ◌^◌, ◌<◌, ◌≤◌, [], length, Ok, Err, IfOk, OnErr, IfErr, MatchResult, slice_index_or, drop, Some};
ghost use Rattle.lines.specs.Fields.{Free, Parted, fields, split, above, left_fields, left_size};
ghost use Rattle.lines.specs.Places.{further, next, place_of};
ghost use Rattle.lines.specs.Texts.{closes};
ghost use Rattle.lines.specs.declared.Fault.TheVariants as fault;

use crate::fields::cut;
use crate::{Fault, Field, Fields, Place};

// A line, and where it begins.
#[derive(Clone, Copy, PartialEq, Eq, Debug)]
pub struct Line<'a> {
    pub bytes: &'a [u8],
    pub at: Place,
    ghost fits: { at.offset + length bytes.now < 2 ^ 63 },
}

impl<'a> Line<'a> {
    pub fn fields(&self) -> Fields<'a>
        ensures left { left_fields result.left ≡ fields self.now.bytes.now }
        ensures size { left_size result.left ≡ length self.now.bytes.now + 1 }
        ensures at { result.at ≡ self.now.at }
    {
        Fields {
            left: Some(self.bytes),
            at: self.at,
        }
    }

    // The fields behind the first.
    pub fn others(&self) -> Fields<'a>
        ensures left { left_fields result.left ≡ drop 1 (fields self.now.bytes.now) }
        ensures at { result.at ≡ further self.now.at (length (slice_index_or (fields self.now.bytes.now) 0 []) + 1) }
    {
        let mut fields = self.fields();
        let _first = fields.next();
        fields
    }

    // How many fields a line has: one more than it has commas.
    pub fn count(&self) -> usize
        ensures { result ≡ length (fields self.now.bytes.now) }
    {
        self.bytes.iter().filter(|b| **b == b',').count() + 1
    }

    // The field behind `k` commas, or an empty one behind the line where it has fewer.
    // No `Option`: a count is tested before its fields are read, so that each caller would have a case that cannot be.
    pub fn field(&self, k: usize) -> Field<'a>
        ensures bytes { result.bytes.now ≡ slice_index_or (fields self.now.bytes.now) k [] }
        ensures at { result.at ≡ place_of self.now.at (fields self.now.bytes.now) k }
    {
        let behind = self.at.further(self.bytes.len() + 1);
        self.fields().nth(k).unwrap_or(Field {
            bytes: b"",
            at: behind,
        })
    }
}

// What is left of a text, and where that begins.
#[derive(Clone, Copy, Debug)]
pub struct Lines<'a> {
    pub left: &'a [u8],
    pub at: Place,
    ghost fits: { at.offset + length left.now < 2 ^ 63 },
    ghost low: { at.line ≤ at.offset + 1 },
}

impl<'a> Lines<'a> {
    // All lines of a text.
    pub fn of(text: &'a [u8]) -> Lines<'a>
        ensures left { result.left.now ≡ text.now }
        ensures at { result.at ≡ record { line = 1; offset = 0 } }
    {
        Lines {
            left: text,
            at: Place { line: 1, offset: 0 },
        }
    }

    // Takes the first line. Where no byte 10 is left there is none, since only that byte ends a line.
    pub fn next_line(&mut self) -> Result<Line<'a>, Fault>
        ensures value { MatchResult result (λ l. split self.old.left.now ≡ above l.bytes.now (split self.new.left.now)) (λ _. split self.old.left.now ≡ record { whole = []; rest = self.old.left.now }) }
        ensures cases { MatchResult result (λ l. Parted 10 self.old.left.now l.bytes.now self.new.left.now) (λ _. Free 10 self.old.left.now) }
        ensures at { MatchResult result (λ l. l.at ≡ self.old.at) (λ f. f ≡ fault.Stop (further self.old.at (length self.old.left.now))) }
        ensures next { IfOk result (λ l. self.new.at ≡ next self.old.at l.bytes.now) }
        ensures same { OnErr result (self.new ≡ self.old) }
    {
        let at = self.at;
        let end = at.further(self.left.len());
        let (bytes, left) = cut(self.left, b'\n').ok_or(Fault::Stop(end))?;
        *self = Lines {
            left,
            at: Place {
                line: at.line + 1,
                offset: at.offset + bytes.len() + 1,
            },
        };
        Ok(Line { bytes, at })
    }

    // Nothing may be left behind the last line.
    pub fn end(&self) -> Result<(), Fault>
        ensures { result ≡ closes tt self.now.at (split self.now.left.now).whole (split self.now.left.now).rest }
    {
        if self.left.is_empty() {
            Ok(())
        } else {
            Err(Fault::Stop(self.at))
        }
    }
}
