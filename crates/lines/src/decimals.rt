// The numbers that fields write.

ghost use Rattle.std.specs.Prelude.{◌≡◌, ℕ, ◌≤◌, ◌&&◌, decimal, MatchOption, ◌≢◌, nat_le};
ghost use Rattle.std.specs.Bool.{then_some};
ghost use Rattle.std.specs.Str.Parse.{digits_value};
ghost use Rattle.std.specs.Str.{all_ascii_digits};
ghost use Rattle.lines.specs.Numbers.{number_in};

// The value of a field of digits alone, if it is at most `most`.
fn read_digits(field: &[u8], most: u32) -> Option<u32>
    ensures { result ≡ then_some (all_ascii_digits field.now && nat_le (digits_value 10 field.now) most) (digits_value 10 field.now) }
{
    // A `try_fold` would hide the early stop, and is no plainer.
    let mut n: u64 = 0;
    for b in field {
        n = n * 10 + u64::from(char::from(*b).to_digit(10)?);
        // Stopping here keeps `n` small, however long the field is.
        if n > u64::from(most) {
            return None;
        }
    }
    Some(n as u32)
}

// The number whose decimal text, without leading zeros, the field is, if it is at most `most`.
pub fn read_number(field: &[u8], most: u32) -> Option<u32>
    ensures value { result ≡ number_in most field.now }
    ensures cases { MatchOption result ((n : ℕ) → n ≤ most → field.now ≢ decimal n) (λ n. (n ≤ most) × (field.now ≡ decimal n)) }
{
    match field {
        [] => None,
        [b'0', _, ..] => None,
        _ => read_digits(field, most),
    }
}
