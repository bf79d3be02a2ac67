// The layer below every text format of this repository: the lines of a text, the fields of a line, decimal
// numbers, and the faults that name a place in a text. Nothing is copied: lines and fields are parts of the
// text that is passed, and each call costs no more than one pass over what it reads. What a line may say is
// left to the formats.
#![tactic(auto)]

ghost use Rattle.std.specs.Prelude.{◌≡◌, ◌+◌, ◌<◌, ◌^◌, ◌∷◌, ◌++◌, decimal, Some};
ghost use Rattle.lines.specs.Faults.{fault_number, fault_place, place_text, fault_text, fault_numbers};
ghost use Rattle.lines.specs.Places.{further};
ghost use Rattle.lines.specs.declared.Refusal.TheVariants.{Fault, Memory};

mod decimals;
mod fields;
mod text;

pub use decimals::read_number;
pub use fields::{Field, Fields};
use std::alloc::{AllocError, AllocFailed};
use std::fmt;
pub use text::{Line, Lines};

// A place in a text: its line, from 1, and its byte, from 0, both counted from the text's start.
#[derive(Clone, Copy, PartialEq, Eq, Debug)]
pub struct Place {
    pub line: usize,
    pub offset: usize,
}

impl Place {
    // The place `n` bytes further on in the same line.
    pub(crate) fn further(self, n: usize) -> Place
        requires { self.offset + n < 2 ^ 64 }
        ensures { result ≡ further self n }
    {
        Place {
            line: self.line,
            offset: self.offset + n,
        }
    }
}

impl fmt::Display for Place {
    ghost output = { λ p. Some (place_text p) };

    fn fmt<W: fmt::Write>(&self, f: &mut fmt::Formatter<W>) -> fmt::Result {
        let line = self.line;
        let offset = self.offset;
        write!(f, "{line},{offset}")
    }
}

// Why a text is not accepted.
#[derive(Clone, Copy, PartialEq, Eq, Debug)]
pub enum Fault {
    // A first field that is not due there.
    Word(Place),
    // A wrong count of fields.
    Count(Place),
    // A bad number or letter.
    Number(Place),
    // A field not wholly read as a label.
    Label(Place),
    // A text that stops before a line's end, or goes on after its last line.
    Stop(Place),
}

impl Fault {
    // The number by which the programs name the fault. A table, since a variant that holds a place cannot bear its
    // number as a plain one can.
    pub fn number(&self) -> u8
        ensures { result ≡ fault_number self.now }
    {
        match self {
            Fault::Word(_) => 10,
            Fault::Count(_) => 11,
            Fault::Number(_) => 12,
            Fault::Label(_) => 13,
            Fault::Stop(_) => 14,
        }
    }

    pub fn place(&self) -> Place
        ensures { result ≡ fault_place self.now }
    {
        match self {
            Fault::Word(place)
            | Fault::Count(place)
            | Fault::Number(place)
            | Fault::Label(place)
            | Fault::Stop(place) => *place,
        }
    }
}

impl fmt::Display for Fault {
    ghost output = { λ f. Some (fault_text f) };

    fn fmt<W: fmt::Write>(&self, f: &mut fmt::Formatter<W>) -> fmt::Result {
        let number = self.number();
        let place = self.place();
        write!(f, "{number},{place}")
    }
}

// Why nothing was read: a fault in the text, or want of memory.
#[derive(Clone, Copy, PartialEq, Eq, Debug)]
pub enum Refusal {
    Fault(Fault),
    Memory,
}

impl From<Fault> for Refusal {
    ghost from_gives = { λ f r. r ≡ Fault f };

    fn from(fault: Fault) -> Refusal {
        Refusal::Fault(fault)
    }
}

impl From<AllocError> for Refusal {
    ghost from_gives = { λ _ r. r ≡ Memory };

    fn from(_e: AllocError) -> Refusal {
        Refusal::Memory
    }
}

impl<T: Drop> From<AllocFailed<T>> for Refusal {
    ghost from_gives = { λ _ r. r ≡ Memory };

    fn from(_e: AllocFailed<T>) -> Refusal {
        Refusal::Memory
    }
}

// The number, line and offset of the fault of a text that was read; none where it was accepted.
pub fn fault_of<T: Drop>(read: Result<T, Refusal>) -> Result<Option<(u8, usize, usize)>, AllocError>
    ensures { result ≡ fault_numbers read }
{
    // All three ways end here, so there is no `?`; as numbers, since so the formats name a fault.
    match read {
        Ok(_) => Ok(None),
        Err(Refusal::Fault(fault)) => {
            let place = fault.place();
            Ok(Some((fault.number(), place.line, place.offset)))
        }
        Err(Refusal::Memory) => Err(AllocError),
    }
}

#[cfg(test)]
mod tests {
    use super::*;

    #[test]
    fn a_number_is_digits_without_leading_zeros(rt: HostRuntime) {
        assert_eq!(rt; read_number(b"0", 9), Some(0));
        assert_eq!(rt; read_number(b"00", 9), None);
        assert_eq!(rt; read_number(b"07", 9), None);
        assert_eq!(rt; read_number(b"", 9), None);
        assert_eq!(rt; read_number(b"1\xb2", 99), None);
    }

    #[test]
    fn a_number_is_at_most_the_most(rt: HostRuntime) {
        assert_eq!(rt; read_number(b"65535", 65535), Some(65535));
        assert_eq!(rt; read_number(b"65536", 65535), None);
        assert_eq!(rt; read_number(b"4294967295", u32::MAX), Some(u32::MAX));
        assert_eq!(rt; read_number(b"4294967296", u32::MAX), None);
        assert_eq!(rt; read_number(b"100000000000000000000000", u32::MAX), None);
    }

    #[test]
    fn only_a_byte_10_ends_a_line(rt: HostRuntime) {
        let mut lines = Lines::of(b"a,\xff\n\nb");
        let first = lines.next_line();
        assert_eq!(rt; first.map(|l| l.bytes), Ok(b"a,\xff".as_slice()));
        assert_eq!(rt; lines.left, b"\nb".as_slice());
        assert_eq!(rt;
            Lines::of(b"a,b\r").next_line().map(|l| l.bytes),
            Err(Fault::Stop(Place { line: 1, offset: 4 }))
        );
    }

    // The count of fields, the first field, and the second.
    fn parts(bytes: &[u8]) -> (usize, &[u8], Option<&[u8]>) {
        let line = Line {
            bytes,
            at: Place { line: 1, offset: 0 },
        };
        (
            line.count(),
            line.field(0).bytes,
            line.fields().nth(1).map(|f| f.bytes),
        )
    }

    // What is left behind the first field.
    fn behind_first(bytes: &[u8]) -> Option<&[u8]> {
        let line = Line {
            bytes,
            at: Place { line: 1, offset: 0 },
        };
        line.others().left
    }

    #[test]
    fn a_line_has_one_field_more_than_commas(rt: HostRuntime) {
        assert_eq!(rt; parts(b""), (1, b"".as_slice(), None));
        assert_eq!(rt; parts(b"arrow,,\x80").0, 3);
        assert_eq!(rt;
            parts(b",\x80,"),
            (3, b"".as_slice(), Some(b"\x80".as_slice()))
        );
        assert_eq!(rt; behind_first(b",\x80,"), Some(b"\x80,".as_slice()));
    }
}
