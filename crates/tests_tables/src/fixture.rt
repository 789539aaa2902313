//! Assertions that the tests of more than one crate use.
//!
//! A proof follows each local of a test on each way out of it, and the text of each assertion again. So an
//! assertion is written once, here, and rows are data.

ghost use Rattle.std.specs.Prelude.{◌≡◌, true};

use std::fmt::Debug;
use std::process::Abort;

/// Asserts that the condition holds.
pub(crate) fn check(rt: &impl Abort, holds: bool)
    ensures { holds ≡ true }
{
    assert!(rt; holds);
}

/// Asserts that both are equal.
pub(crate) fn same<T: PartialEq + Debug + Drop>(rt: &impl Abort, found: T, want: T) {
    assert_eq!(rt; found, want);
}

/// Asserts that both have the same bytes.
pub(crate) fn same_bytes(rt: &impl Abort, found: &[u8], want: &[u8]) {
    same(rt, found, want);
}
