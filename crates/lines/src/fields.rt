// The fields of a line, and their places in the text.

ghost use Rattle.std.specs.Prelude.{◌≡◌, ◌+◌, ◌^◌, ◌<◌, ◌≤◌, MatchOption, None, IfOk};
ghost use Rattle.std.specs.Option.{ok_or};
ghost use Rattle.std.specs.Iterator.{at_most};
ghost use Rattle.lines.specs.Fields.{Free, Parted, left_size};
ghost use Rattle.lines.specs.Numbers.{number_in};
ghost use Rattle.lines.specs.Places.{Passes};
ghost use Rattle.lines.specs.declared.Fault.TheVariants as fault;

use crate::{Fault, Place, read_number};

// A field, and where it begins.
#[derive(Clone, Copy, PartialEq, Eq, Debug)]
pub struct Field<'a> {
    pub bytes: &'a [u8],
    pub at: Place,
}

impl<'a> Field<'a> {
    // The number that the field writes, if it is at most `most`.
    pub fn number(&self, most: u32) -> Result<u32, Fault>
        ensures value { result ≡ ok_or (number_in most self.now.bytes.now) (fault.Number self.now.at) }
        ensures most { IfOk result (λ n. n ≤ most) }
    {
        read_number(self.bytes, most).ok_or(Fault::Number(self.at))
    }
}

// What stands before and behind the first `by`.
pub(crate) fn cut(text: &[u8], by: u8) -> Option<(&[u8], &[u8])>
    ensures { MatchOption result (Free by text.now) (λ p. Parted by text.now p.0.now p.1.now) }
{
    let i = text.iter().position(|b| *b == by)?;
    Some((&text[..i], &text[i + 1..]))
}

// The fields that are left of a line, first to last. Every line has one, which may be empty.
#[derive(Clone, Copy, Debug)]
pub struct Fields<'a> {
    // What stands behind the last comma that was passed.
    pub left: Option<&'a [u8]>,
    pub at: Place,
    ghost fits: { at.offset + left_size left ≤ 2 ^ 63 },
}

impl<'a> Iterator for Fields<'a> {
    type Item = Field<'a>;

    ghost next_gives = { λ s r t. MatchOption r (s.left ≡ None) (λ f. (f.at ≡ s.at) × Passes s.left s.at f.bytes.now t.left t.at) };

    ghost remaining = { λ s. at_most (left_size s.left) };

    fn next(&mut self) -> Option<Field<'a>> {
        let line = self.left?;
        let at = self.at;
        // Each arm makes the whole pair; `map_or` would only turn the two arms round.
        let (bytes, left) = match cut(line, b',') {
            Some((bytes, rest)) => (bytes, Some(rest)),
            None => (line, None),
        };
        *self = Fields {
            left,
            at: at.further(bytes.len() + 1),
        };
        Some(Field { bytes, at })
    }
}
