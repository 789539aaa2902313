//! Transaction IDs (RFC 8489, section 5).

ghost use Rattle.std.specs.Prelude.{◌≡◌, ◌+◌, ◌%◌, ◌^◌, ◌<◌, length};
ghost use Rattle.turn_stun.specs.Number.{big_endian, id_bytes, id_segments};

use std::fmt;
use std::marker::Model;

/// The 96-bit number that identifies a request and its response (RFC 8489, section 5).
///
/// Contracts see it as a number below 2^96: the big-endian value of its twelve bytes.
#[derive(Clone, Copy, PartialEq, Eq, PartialOrd, Ord, Hash)]
pub struct TransactionId {
    number: u128,
}

impl Model for TransactionId {
    ghost use Rattle.std.specs.Prelude.{ℕ, ◌<◌, ◌^◌};

    ghost Value = { ℕ };

    ghost view = { λ id. id.number };

    ghost invariant = { λ id. id.number < 2 ^ 96 };

    ghost inverse = { λ number. record { number = number } };
}

impl TransactionId {
    /// The next ID in counting order, and zero after the greatest (our choice: it replaces an ID that is
    /// taken).
    pub fn successor(self) -> TransactionId
        ensures { result ≡ (self + 1) % 2 ^ 96 }
    {
        TransactionId {
            number: (self.number + 1) % 0x1_0000_0000_0000_0000_0000_0000,
        }
    }

    /// The twelve bytes of the ID, as in a header.
    pub fn to_bytes(self) -> [u8; 12]
        ensures bytes { result ≡ id_bytes self }
        ensures number { big_endian result ≡ self }
        ensures range { self < 2 ^ 96 }
    {
        let high = (self.number / 0x1_0000_0000_0000_0000) as u32;
        let low = (self.number % 0x1_0000_0000_0000_0000) as u64;
        let [a, b, c, d] = high.to_be_bytes();
        let [e, f, g, h, i, j, k, l] = low.to_be_bytes();
        [a, b, c, d, e, f, g, h, i, j, k, l]
    }

    /// The ID in these twelve bytes of a header.
    pub fn from_bytes(bytes: [u8; 12]) -> TransactionId
        ensures { result ≡ big_endian bytes }
    {
        let [a, b, c, d, e, f, g, h, i, j, k, l] = bytes;
        let high = u128::from(u32::from_be_bytes([a, b, c, d]));
        let low = u128::from(u64::from_be_bytes([e, f, g, h, i, j, k, l]));
        TransactionId {
            number: high * 0x1_0000_0000_0000_0000 + low,
        }
    }

    /// The six groups of sixteen bits of the ID, the most significant first.
    pub(crate) fn segments(self) -> [u16; 6]
        ensures groups { result ≡ id_segments self }
        ensures range { self < 2 ^ 96 }
    {
        [
            (self.number / 0x1_0000_0000_0000_0000_0000) as u16,
            (self.number / 0x1_0000_0000_0000_0000 % 0x1_0000) as u16,
            (self.number / 0x1_0000_0000_0000 % 0x1_0000) as u16,
            (self.number / 0x1_0000_0000 % 0x1_0000) as u16,
            (self.number / 0x1_0000 % 0x1_0000) as u16,
            (self.number % 0x1_0000) as u16,
        ]
    }
}

/// The twenty-four hexadecimal digits of the ID.
impl fmt::Debug for TransactionId {
    fn fmt<W: fmt::Write>(&self, f: &mut fmt::Formatter<W>) -> fmt::Result {
        let high = (self.number / 0x1_0000_0000_0000_0000) as u64;
        let low = (self.number % 0x1_0000_0000_0000_0000) as u64;
        write!(f, "{high:08x}{low:016x}")
    }
}

/// `0x` and the twenty-four hexadecimal digits of the ID.
impl fmt::Display for TransactionId {
    fn fmt<W: fmt::Write>(&self, f: &mut fmt::Formatter<W>) -> fmt::Result {
        write!(f, "0x{self:?}")
    }
}
