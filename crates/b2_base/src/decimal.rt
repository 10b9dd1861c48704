//! Numbers as decimal digits.

ghost use Rattle.std.specs.Prelude.{◌≡◌, ◌≢◌, ◌<◌, ◌≤◌, ◌^◌, ◌↔◌, ℕ, true, false, EachIndex, slice_index, IsTrue, MatchOption, decimal};
ghost use Rattle.std.specs.Int.{IsInRange};
ghost use Rattle.std.specs.Str.Parse.{digits_value};
ghost use Rattle.b2_base.specs.Decimal.{has_digits, IsPlainNumeral};

/// The most digits whose every number has 64 bits: 10^19 is below 2^64.
pub const MOST_DIGITS: usize = 19;

fn is_digits(text: &[u8]) -> bool
    ensures { IsTrue result ↔ EachIndex text.now (λ i. IsInRange 48 57 (slice_index text.now i)) }
{
    text.iter().all(|byte| byte.is_ascii_digit())
}

fn has_digits(most: usize, text: &[u8]) -> bool
    ensures { result ≡ has_digits most text.now }
{
    let is_short = (1 <= text.len()) & (text.len() <= most);
    is_short & is_digits(text)
}

// Whether the text is decimal digits with no leading zero, but for `0` itself.
fn is_numeral(text: &[u8]) -> bool
    ensures { IsTrue result ↔ IsPlainNumeral text.now }
{
    let is_padded = text.len() > 1 && text[0] == b'0';
    !text.is_empty() && !is_padded && is_digits(text)
}

/// The number that is written so, in decimal with no sign and no leading zero.
pub fn read_decimal(text: &[u8]) -> Option<u64>
    ensures { MatchOption result
        ((n : ℕ) → n < 2 ^ 64 → text.now ≢ decimal n)
        (λ n. text.now ≡ decimal n) }
{
    if !is_numeral(text) {
        return None;
    }
    let Ok(text) = str::from_utf8(text) else {
        return None;
    };
    let Ok(number) = text.parse::<u64>() else {
        return None;
    };
    Some(number)
}

/// The number that at least one digit and at most so many write, leading zeros among them.
pub fn read_digits(text: &[u8], most: usize) -> Option<u64>
    requires { most ≤ MOST_DIGITS }
    ensures { MatchOption result
        (has_digits most text.now ≡ false)
        (λ n. (has_digits most text.now ≡ true) × (n ≡ digits_value 10 text.now)) }
{
    if !has_digits(most, text) {
        return None;
    }
    let Ok(text) = str::from_utf8(text) else {
        return None;
    };
    let Ok(number) = text.parse::<u64>() else {
        return None;
    };
    Some(number)
}
