//! Streams in other pieces, and the payloads that come of them.

ghost use Rattle.std.specs.Prelude.{◌≤◌};

use crate::draws::Draws;
use crate::fault::Fault;
use crate::world::number_of;
use std::alloc::Global;
use std::net::SocketAddr;

/// The pieces of a stream.
#[derive(Clone, Copy)]
pub enum Cut {
    /// As they were.
    Whole,
    /// Byte by byte.
    Bytes,
    /// At drawn places.
    Drawn,
}

/// Where a stream is cut.
#[derive(Drop)]
pub struct Cuts {
    cut: Cut,
    draws: Draws,
}

impl Cuts {
    /// The cuts of this seed.
    pub fn new(cut: Cut, seed: u64) -> Cuts {
        let draws = Draws::new(seed);
        Cuts { cut, draws }
    }

    /// The length of the next piece of so many bytes.
    pub fn next(&mut self, len: usize) -> usize
        ensures { result ≤ len }
    {
        match self.cut {
            Cut::Whole => len,
            Cut::Bytes => len.min(1),
            Cut::Drawn => len.min((self.draws.below(24) as usize).saturating_add(1)),
        }
    }
}

/// The payloads that were returned.
#[derive(Drop)]
pub struct Payloads {
    /// Whether the peers' bytes are streams too, so that payloads have no bounds.
    is_stream: bool,
    /// The payloads, each with its length before it, and before each byte the number of its peer.
    pub bytes: Vec<u8>,
}

impl Payloads {
    /// No payload.
    pub fn new(alloc: Global, is_stream: bool) -> Payloads {
        let bytes = Vec::new(alloc);
        Payloads { is_stream, bytes }
    }

    /// Keeps a payload of this peer.
    ///
    /// # Errors
    ///
    /// If memory allocation fails.
    pub fn note(&mut self, peer: SocketAddr, payload: &[u8]) -> Result<(), Fault> {
        if !self.is_stream {
            self.bytes.extend_from_slice(&payload.len().to_be_bytes())?;
        }
        let number = number_of(peer);
        for byte in payload {
            self.bytes.extend_from_slice(&[number, *byte])?;
        }
        Ok(())
    }
}
