//! What several attributes have in common.

ghost use Rattle.std.specs.Prelude.{◌≡◌, ◌+◌, ◌<◌, length, IfSome};
ghost use Rattle.turn_stun.specs.Number.{u16_at};
ghost use Rattle.turn_types.specs.Values.{number_of, number_value, leading_byte, leading_value};

/// The number in a value of four bytes, or `None` if it has more or fewer.
pub(crate) fn u32_of(value: &[u8]) -> Option<u32>
    ensures number { result ≡ number_of value.now }
    ensures again { IfSome result (λ number. number_value number ≡ value.now) }
{
    match *value {
        [a, b, c, d] => Some(u32::from_be_bytes([a, b, c, d])),
        _ => None,
    }
}

/// The first byte of a value of four, if the other three are zero, and `None` for any other.
pub(crate) fn leading_byte(value: &[u8]) -> Option<u8>
    ensures byte { result ≡ leading_byte value.now }
    ensures again { IfSome result (λ byte. leading_value byte ≡ value.now) }
{
    match *value {
        [byte, 0, 0, 0] => Some(byte),
        _ => None,
    }
}
