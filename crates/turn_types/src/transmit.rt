//! Packets that are built only when they are sent, so that a payload is copied once at most.

ghost use Rattle.std.specs.Prelude.{◌≡◌, ℕ, ◌↔◌, List, length, IsTrue, IfOk};

mod delayed_channel;
mod delayed_message;
mod framing;
mod transmit_build;

pub use delayed_channel::DelayedChannel;
pub use delayed_message::DelayedMessage;
use std::alloc::{AllocError, Global};
pub use transmit_build::TransmitBuild;

/// Bytes that are made when they are sent: as a vector, or in a slice of the caller's.
pub trait DelayedTransmitBuild {
    // The bytes that are made.
    ghost bytes: { Self → List ℕ };

    /// How many bytes are made. They are counted and not built.
    fn len(&self) -> usize
        ensures { result ≡ length (bytes self.now) };

    /// Whether no bytes are made.
    fn is_empty(&self) -> bool
        ensures { IsTrue result ↔ (length (bytes self.now) ≡ 0) }
    {
        self.len() == 0
    }

    /// The bytes, `len` of them.
    ///
    /// # Errors
    ///
    /// `AllocError` if memory allocation fails.
    fn build(self, alloc: Global) -> Result<Vec<u8>, AllocError>
        ensures { IfOk result (λ built. built.items ≡ bytes self) };

    /// Writes the bytes into a slice of exactly their length, `len`, and returns this length.
    fn write_into(self, place: &mut [u8]) -> usize
        requires { length place.old ≡ length (bytes self) }
        ensures written { place.new ≡ bytes self }
        ensures len { result ≡ length (bytes self) };
}
