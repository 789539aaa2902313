//! A packet that is built late, with its source and destination.

ghost use Rattle.std.specs.Prelude.{◌≡◌, length, IfOk};

use crate::transmit::DelayedTransmitBuild;
use std::alloc::{AllocError, Global};
use std::net::SocketAddr;
use turn_stun::data::Data;
use turn_stun::transport::{Transmit, TransportType};

/// A packet that is built when it is sent, with its source and destination.
#[derive(Debug, Drop)]
pub struct TransmitBuild<T> {
    /// What makes the bytes of the packet.
    pub payload: T,
    /// The transport of the packet.
    pub transport: TransportType,
    /// Its source.
    pub from: SocketAddr,
    /// Its destination.
    pub to: SocketAddr,
}

impl<T: DelayedTransmitBuild> TransmitBuild<T> {
    /// The packet with these bytes, source and destination.
    pub fn new(
        payload: T,
        transport: TransportType,
        from: SocketAddr,
        to: SocketAddr,
    ) -> TransmitBuild<T>
        ensures payload { result.payload ≡ payload }
        ensures transport { result.transport ≡ transport }
        ensures from { result.from ≡ from }
        ensures to { result.to ≡ to }
    {
        TransmitBuild {
            payload,
            transport,
            from,
            to,
        }
    }

    /// The packet with its bytes built.
    ///
    /// # Errors
    ///
    /// `AllocError` if memory allocation fails.
    pub fn build(self, alloc: Global) -> Result<Transmit<Data>, AllocError>
        ensures payload { IfOk result (λ packet. packet.payload ≡ T.bytes self.payload) }
        ensures transport { IfOk result (λ packet. packet.transport ≡ self.transport) }
        ensures from { IfOk result (λ packet. packet.from ≡ self.from) }
        ensures to { IfOk result (λ packet. packet.to ≡ self.to) }
    {
        let built = self.payload.build(alloc)?;
        let bytes = Data::from(built);
        Ok(Transmit::new(bytes, self.transport, self.from, self.to))
    }

    /// Writes the bytes of the packet into a slice of exactly their length, and returns this length. The
    /// caller reads source and destination from the fields before.
    // A call of its own would have all of the packet in memory first.
    #[inline(always)]
    pub fn write_into(self, place: &mut [u8]) -> usize
        requires { length place.old ≡ length (T.bytes self.payload) }
        ensures written { place.new ≡ T.bytes self.payload }
        ensures len { result ≡ length (T.bytes self.payload) }
    {
        self.payload.write_into(place)
    }
}
