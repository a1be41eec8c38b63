//! Decimal numbers as text.

ghost use Rattle.std.specs.Prelude.{◌≡◌, ◌≤◌, IfSome, min};
ghost use Rattle.std.specs.Char.{is_ascii_digit};
ghost use Rattle.std.specs.List.{list_all};
ghost use Rattle.dz_name.specs.Decimal.{value_of, is_decimal, number_of};

/// A number above every possible maximum.
const PAST: u128 = 1 << 64;

/// Reads a decimal number of at most `most`, without leading zeros; none for any other text.
pub fn read_number(most: u64, text: &[u8]) -> Option<u64>
    ensures value { result ≡ number_of most text.now }
    ensures within { IfSome result (λ number. number ≤ most) }
{
    let value = value_upto(text);
    if is_decimal(text) && value <= most as u128 {
        Some(value as u64)
    } else {
        None
    }
}

/// Whether a text is one or more digits without a leading zero.
fn is_decimal(text: &[u8]) -> bool
    ensures { result ≡ is_decimal text.now }
{
    match text.split_first() {
        None => false,
        Some((first, rest)) => { are_digits(text) && (*first != b'0' || rest.len() == 0) }
    }
}

/// Whether every octet is an ASCII digit.
fn are_digits(text: &[u8]) -> bool
    ensures { result ≡ list_all is_ascii_digit text.now }
{
    text.iter().all(|octet| octet.is_ascii_digit())
}

/// The value of decimal digits, or 2^64 where it is greater.
fn value_upto(text: &[u8]) -> u128
    ensures { result ≡ min (value_of text.now) PAST }
{
    let mut value: u128 = 0;
    'digits: for digit in text {
        value = (value * 10 + digit.saturating_sub(b'0') as u128).min(PAST);
    }
    value
}
