//! Assertions, IDs and attributes that the tests of more than one crate use.
//!
//! A proof follows each local of a test on each path out of it, and the text of each assertion again. So each
//! assertion is written once, here; rows are data; and a failed memory allocation ends the test.

ghost use Rattle.std.specs.Prelude.{◌≡◌};

use std::fmt::Debug;
use std::process::Abort;
use turn_stun::attribute::{AttributeType, RawAttribute};
use turn_stun::message::method::Method;

pub(crate) const ALLOCATE: Method = Method { value: 3 };

/// The first and the second transaction ID from ChaCha20 under a seed of zeros.
pub(crate) const FIRST_ID: [u8; 12] = *b"\x76\xb8\xe0\xad\xa0\xf1\x3d\x90\x40\x5d\x6a\xe5";

pub(crate) const SECOND_ID: [u8; 12] = *b"\x53\x86\xbd\x28\xbd\xd2\x19\xb8\xa0\x8d\xed\x1a";

/// Asserts that this holds.
pub(crate) fn check(rt: &impl Abort, holds: bool) {
    assert!(rt; holds);
}

/// Asserts that both values are equal.
pub(crate) fn same<T: PartialEq + Debug + Drop>(rt: &impl Abort, found: T, want: T) {
    assert_eq!(rt; found, want);
}

/// Asserts that both have the same bytes.
pub(crate) fn same_bytes(rt: &impl Abort, found: &[u8], want: &[u8]) {
    same(rt, found, want);
}

/// An attribute with this type and value.
pub(crate) fn raw(kind: u16, value: &[u8]) -> RawAttribute<'_>
    ensures { result.attribute_type.value ≡ kind }
{
    RawAttribute {
        attribute_type: AttributeType { value: kind },
        value,
    }
}
