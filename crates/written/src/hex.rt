// Words of 16 hexadecimal digits.

ghost use Rattle.std.specs.Prelude.{◌≡◌, ◌^◌, ◌<◌};
ghost use Rattle.written.specs.Hex.{hex_digit, hex_value, hexes, hex_read};
ghost use Rattle.written.specs.Texts.{Wrote, reads_word};

use crate::Reading;

// Digits as cases: `from_digit` answers an option, and `to_digit` reads capital letters too.
fn digit(d: u8) -> u8
    requires { d < 16 }
    ensures { result ≡ hex_digit d }
{
    if d < 10 { b'0' + d } else { b'a' + (d - 10) }
}

fn value(b: u8) -> Option<u8>
    ensures { result ≡ hex_value b }
{
    match b {
        b'0'..=b'9' => Some(b - b'0'),
        b'a'..=b'f' => Some(b - b'a' + 10),
        _ => None,
    }
}

// Writes the 16 digits of `word` to the front of `out`, if there is room.
#[tactic(auto, using(crate::specs::Hexes::hex_lengths))]
pub(crate) fn write_word(word: u64, out: &mut [u8]) -> Option<usize>
    ensures { Wrote out.old out.new (hexes 16 word) result }
{
    // No `get_mut`: behind its `None` nothing says that `out` is as it was.
    if out.len() < 16 {
        return None;
    }
    let text = &mut out[..16];
    for (i, byte) in text.iter_mut().enumerate() {
        *byte = digit((word >> (60 - 4 * i) & 15) as u8);
    }
    Some(16)
}

// The word that the first 16 bytes make.
#[tactic(auto, using(crate::specs::Hexes::read_short, crate::specs::Hexes::read_all))]
pub(crate) fn read_word(bytes: &[u8]) -> Option<Reading<u64>>
    ensures { result ≡ reads_word (2 ^ 64) (hex_read 16 0 bytes.now) }
{
    let mut predicate: u64 = 0;
    // A `try_fold` would hide the early stop, and is no plainer.
    for byte in bytes.get(..16)? {
        predicate = predicate * 16 + u64::from(value(*byte)?);
    }
    Some(Reading { predicate, len: 16 })
}
