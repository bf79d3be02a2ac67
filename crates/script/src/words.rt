// Words: symbols, each in a field of its own.

ghost use Rattle.std.specs.Prelude.{◌≡◌, ◌+◌, ◌++◌, length, Ok, MatchResult, drop, slice_index_or, []};
ghost use Rattle.lines.specs.Fields.{fields, left_fields};
ghost use Rattle.lines.specs.Places.{further};
ghost use Rattle.lines.specs.Texts.{over, Refuses};
ghost use Rattle.script.specs.Reads.{symbol_of_letter, symbol_in, symbols_say};
ghost use Rattle.script.specs.Scripts.{WordRead};

use histories::Call;
use labels::Either;
use lines::{Fault, Fields, Line, Refusal, read_number};

// A style mark or a code point, or a number that is neither.
pub type Symbol = Either<u8, u32>;

// The symbol that a letter and a number name.
fn letter_symbol(letter: u8, digits: &[u8]) -> Option<Symbol>
    ensures { result ≡ symbol_of_letter letter digits.now }
{
    // The most that is read fits in a style mark; `try_from` would add a case that cannot be.
    match letter {
        b'm' => Some(Either::Left(read_number(digits, 255)? as u8)),
        b'c' => Some(Either::Right(read_number(digits, u32::MAX)?)),
        _ => None,
    }
}

// The symbol in a field.
fn read_symbol(field: &[u8]) -> Option<Symbol>
    ensures { result ≡ symbol_in field.now }
{
    let (letter, digits) = field.split_first()?;
    letter_symbol(*letter, digits)
}

// Adds the symbols in the fields.
fn read_symbols(fields: Fields<'_>, symbols: &mut Vec<Symbol>) -> Result<(), Refusal>
    ensures { MatchResult result (λ _. over (λ w. symbols.old.items ++ w) (symbols_say fields.entry.at (left_fields fields.entry.left)) ≡ Ok symbols.new.items) (Refuses (symbols_say fields.entry.at (left_fields fields.entry.left))) }
{
    for field in fields {
        let symbol = read_symbol(field.bytes).ok_or(Fault::Number(field.at))?;
        symbols.push(symbol)?;
    }
    Ok(())
}

// The word in the fields of a line behind the first.
pub(crate) fn read_word<P>(line: Line<'_>, symbols: &mut Vec<Symbol>) -> Result<Call<P>, Refusal>
    ensures { MatchResult result (λ call. WordRead (symbols_say (further line.entry.at (length (slice_index_or (fields line.entry.bytes.now) 0 []) + 1)) (drop 1 (fields line.entry.bytes.now))) symbols.old.items call symbols.new.items) (Refuses (symbols_say (further line.entry.at (length (slice_index_or (fields line.entry.bytes.now) 0 []) + 1)) (drop 1 (fields line.entry.bytes.now)))) }
{
    let from = symbols.len();
    read_symbols(line.others(), symbols)?;
    Ok(Call::TestWord {
        from,
        to: symbols.len(),
    })
}
