//! The caller's numbers of its errors.

/// The caller's number of an error of its system. The session returns it unchanged.
#[derive(Clone, Copy, Debug, PartialEq, Eq)]
pub struct Tag(pub u32);
