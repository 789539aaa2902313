//! Data of a peer that was received over a stream.

ghost use Rattle.std.specs.Prelude.{◌≡◌, ◌<◌, length, IfOk, OnErr};
ghost use Rattle.turn_client_api.specs.Answers.{given_payload};
ghost use Rattle.turn_client_tcp.specs.StreamSteps.{received_payload};

use std::alloc::{AllocError, Global};
use std::convert::AsSlice;
use std::net::SocketAddr;
use turn_client_api::{DataRangeOrOwned, TurnPeerData};
use turn_stun::transport::TransportType;

/// Data of a peer that was received over a stream, as owned bytes.
#[derive(Debug, Drop)]
pub struct Received {
    /// The transport between the peer and the server.
    pub transport: TransportType,
    /// The peer that sent it.
    pub peer: SocketAddr,
    /// The bytes that the peer sent.
    pub bytes: Vec<u8>,
}

impl Received {
    /// The same data, as a client returns it for any type of buffer.
    pub fn into_data<T: AsSlice<u8>>(self) -> TurnPeerData<T>
        ensures { given_payload result ≡ received_payload self }
    {
        let Received {
            transport,
            peer,
            bytes,
        } = self;
        TurnPeerData::new(transport, peer, DataRangeOrOwned::Owned(bytes))
    }
}

/// A copy of the bytes, which allocates no memory if there are none.
///
/// # Errors
///
/// If memory allocation fails.
pub(crate) fn copy_of(alloc: Global, bytes: &[u8]) -> Result<Vec<u8>, AllocError>
    ensures items { IfOk result (λ copy. copy.items ≡ bytes.now) }
    ensures wanted { OnErr result (0 < length bytes.now) }
{
    if bytes.is_empty() {
        return Ok(Vec::new(alloc));
    }
    Vec::from_slice(alloc, bytes)
}
