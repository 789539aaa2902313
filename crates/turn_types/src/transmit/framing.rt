//! Attributes and ChannelData messages, written in place.

ghost use Rattle.std.specs.Prelude.{◌≡◌, ◌+◌, ◌-◌, ◌^◌, ◌<◌, ◌≤◌, ◌++◌, length, replicate, OnOk};
ghost use Rattle.std.specs.Int.{w16, to_be_bytes};
ghost use Rattle.turn_stun.specs.Message.{padded_len};
ghost use Rattle.turn_stun.specs.Writer.{attribute_bytes};

use std::alloc::AllocError;

/// The least multiple of four that is not below `len`.
pub(super) fn padded_len(len: usize) -> usize
    requires { len < 2 ^ 16 }
    ensures { result ≡ padded_len len }
{
    (len + 3) / 4 * 4
}

/// A number and a length, which precede the value of an attribute and the payload of a ChannelData
/// message.
pub(super) fn header(number: u16, len: usize) -> [u8; 4]
    requires { len < 2 ^ 16 }
    ensures { result ≡ to_be_bytes w16 number ++ to_be_bytes w16 len }
{
    let [a, b] = number.to_be_bytes();
    let [c, d] = (len as u16).to_be_bytes();
    [a, b, c, d]
}

/// How many zeros follow a value of this length, up to a multiple of four bytes.
pub(super) fn padding_len(len: usize) -> usize
    requires { len < 2 ^ 16 }
    ensures { result ≡ padded_len len - len }
{
    padded_len(len) - len
}

/// Writes a number, the length of the value, the value, and zeros up to a multiple of four bytes.
/// The value is copied once.
// A header of four bytes costs less than a call.
#[inline(always)]
pub(super) fn write(place: &mut [u8], number: u16, value: &[u8])
    requires short { length value.now < 2 ^ 16 }
    requires whole { length place.old ≡ 4 + padded_len (length value.now) }
    ensures { place.new ≡ attribute_bytes number value.now }
{
    let (front, behind) = place.split_at_mut(4);
    front.copy_from_slice(&header(number, value.len()));
    let (middle, padding) = behind.split_at_mut(value.len());
    middle.copy_from_slice(value);
    padding.fill(0);
}

/// Appends what `write` writes. On an error `out` may have gained some of it.
#[tactic(auto, using(std::proofs::lemmas::List::append_assoc))]
pub(super) fn append(out: &mut Vec<u8>, number: u16, value: &[u8]) -> Result<(), AllocError>
    requires { length value.now < 2 ^ 16 }
    ensures { OnOk result (out.new.items ≡ out.old.items ++ attribute_bytes number value.now) }
{
    let header = header(number, value.len());
    out.extend_from_slice(&header)?;
    out.extend_from_slice(value)?;
    append_padding(out, padding_len(value.len()))
}

/// Appends up to three zeros.
fn append_padding(out: &mut Vec<u8>, len: usize) -> Result<(), AllocError>
    requires { len ≤ 3 }
    ensures { OnOk result (out.new.items ≡ out.old.items ++ replicate len 0) }
{
    let zeros = [0; 3];
    out.extend_from_slice(&zeros[..len])
}
