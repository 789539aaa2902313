//! Decimal numbers.

ghost use Rattle.std.specs.Prelude.{◌≡◌};
ghost use Rattle.std.specs.Char.{is_ascii_digit};
ghost use Rattle.std.specs.List.{list_all};
ghost use Rattle.turn_lines.specs.Number.{is_decimal, has_leading_zero, decimal_up_to};

use std::str;

/// The value of a decimal without leading zeros, or `None` if the text is not such a decimal or the value
/// is greater than `most`.
pub fn parse_decimal(text: &[u8], most: u64) -> Option<u64>
    ensures { result ≡ decimal_up_to most text.now }
{
    if !is_decimal(text) {
        return None;
    }
    let Ok(digits) = str::from_utf8(text) else {
        return None;
    };
    let Ok(number) = digits.parse::<u64>() else {
        return None;
    };
    if number <= most { Some(number) } else { None }
}

/// Whether the text has only digits, at least one, and no leading zero.
fn is_decimal(text: &[u8]) -> bool
    ensures { result ≡ is_decimal text.now }
{
    if text.is_empty() {
        return false;
    }
    if has_leading_zero(text) {
        return false;
    }
    are_digits(text)
}

fn has_leading_zero(text: &[u8]) -> bool
    ensures { result ≡ has_leading_zero text.now }
{
    text.len() > 1 && text[0] == b'0'
}

fn are_digits(text: &[u8]) -> bool
    ensures { result ≡ list_all is_ascii_digit text.now }
{
    text.iter().all(|byte| byte.is_ascii_digit())
}
