//! Methods (RFC 8489, section 5).

ghost use Rattle.std.specs.Prelude.{◌≡◌, ◌<◌};

/// The operation of a message, such as Binding or TURN's Allocate: a number of twelve bits.
///
/// The crates above name theirs by literals, as `Method { value: 3 }`.
#[derive(Clone, Copy, Debug, PartialEq, Eq)]
pub struct Method {
    /// The number of the method, below 4096.
    pub value: u16,
    ghost short: { value < 4096 },
}
