//! What a client returns for received bytes.

ghost use Rattle.std.specs.Prelude.{◌≡◌, IfOk, IfErr, IsOk};
ghost use Rattle.turn_client_api.specs.PeerBytes.{held_bytes, held_in, payload_of, IsOwned};

mod data_range;

pub use data_range::DataRange;
use std::alloc::Global;
use std::convert::AsSlice;
use std::net::SocketAddr;
use std::ops::Range;
use turn_stun::transport::Transmit;
use turn_types::TransportType;

/// Bytes that are a range of what a caller passed in, or that are owned.
#[derive(Debug, Drop)]
pub enum DataRangeOrOwned<T: AsSlice<u8>> {
    /// A range of the bytes that the caller passed in.
    Range(DataRange<T>),
    /// Bytes of their own: joined from several pieces, from behind another frame, or copied.
    Owned(Vec<u8>),
}

impl<T: AsSlice<u8>> AsSlice<u8> for DataRangeOrOwned<T> {
    ghost items = { held_bytes };

    fn as_slice(&self) -> &[u8] {
        match self {
            DataRangeOrOwned::Range(range) => range.as_slice(),
            DataRangeOrOwned::Owned(bytes) => bytes.as_slice(),
        }
    }
}

impl<T: AsSlice<u8> + Drop> DataRangeOrOwned<T> {
    /// The bytes as a vector, which is a copy only if they are not owned. If memory allocation for
    /// it fails, this value is returned unchanged.
    fn into_bytes(self, alloc: Global) -> Result<Vec<u8>, DataRangeOrOwned<T>>
        ensures bytes { IfOk result (λ bytes. bytes.items ≡ held_bytes self) }
        ensures succeeds { IsOwned self → IsOk result }
        ensures handed_back { IfErr result (λ back. back ≡ self) }
    {
        let range = match self {
            DataRangeOrOwned::Owned(bytes) => return Ok(bytes),
            DataRangeOrOwned::Range(range) => range,
        };
        match Vec::from_slice(alloc, range.as_slice()) {
            Ok(bytes) => Ok(bytes),
            Err(_) => Err(DataRangeOrOwned::Range(range)),
        }
    }
}

/// Data that came from a peer.
#[derive(Debug, Drop)]
pub struct TurnPeerData<T: AsSlice<u8>> {
    data: DataRangeOrOwned<T>,
    /// The transport between the peer and the server.
    pub transport: TransportType,
    /// The peer that sent it.
    pub peer: SocketAddr,
}

impl<T: AsSlice<u8>> TurnPeerData<T> {
    ghost use Rattle.turn_client_api.specs.Answers.{place_in};

    /// These bytes, as data that this peer sent over this transport.
    pub fn new(
        transport: TransportType,
        peer: SocketAddr,
        data: DataRangeOrOwned<T>,
    ) -> TurnPeerData<T>
        ensures transport { result.transport ≡ transport }
        ensures peer { result.peer ≡ peer }
        ensures held { held_in result ≡ «data» }
    {
        TurnPeerData {
            data,
            transport,
            peer,
        }
    }

    /// The bytes that the peer sent.
    pub fn data(&self) -> &[u8]
        ensures { result.now ≡ payload_of self.now }
    {
        self.data.as_slice()
    }

    /// The range of these bytes in what the caller passed in, or `None` if they are owned.
    pub fn place(&self) -> Option<Range<usize>>
        ensures { result ≡ place_in (held_in self.now) }
    {
        match &self.data {
            DataRangeOrOwned::Range(range) => Some(range.range()),
            DataRangeOrOwned::Owned(_) => None,
        }
    }
}

impl<T: AsSlice<u8> + Drop> TurnPeerData<T> {
    /// The same data of the same peer, which holds nothing that the caller passed in. Data that is
    /// already owned is not copied, and allocates no memory.
    ///
    /// # Errors
    ///
    /// If memory allocation for a copy fails. This value is then returned unchanged.
    pub fn into_owned(self, alloc: Global) -> Result<TurnPeerData<Vec<u8>>, TurnPeerData<T>>
        ensures transport { IfOk result (λ owned. owned.transport ≡ self.transport) }
        ensures peer { IfOk result (λ owned. owned.peer ≡ self.peer) }
        ensures payload { IfOk result (λ owned. payload_of owned ≡ payload_of self) }
        ensures owned { IfOk result (λ owned. IsOwned (held_in owned)) }
        ensures succeeds { IsOwned (held_in self) → IsOk result }
        ensures handed_back { IfErr result (λ back. back ≡ self) }
    {
        let TurnPeerData {
            data,
            transport,
            peer,
        } = self;
        match data.into_bytes(alloc) {
            Ok(bytes) => Ok(TurnPeerData {
                data: DataRangeOrOwned::Owned(bytes),
                transport,
                peer,
            }),
            Err(data) => Err(TurnPeerData {
                data,
                transport,
                peer,
            }),
        }
    }
}

impl<T: AsSlice<u8>> AsSlice<u8> for TurnPeerData<T> {
    ghost items = { payload_of };

    fn as_slice(&self) -> &[u8] {
        self.data()
    }
}

/// What `recv` of a client did with its input.
#[derive(Debug, Drop)]
pub enum TurnRecvRet<T: AsSlice<u8>> {
    /// It was for the client, and is consumed. The calls that poll the client report its effects.
    Handled,
    /// It was not for the client, and is returned unchanged. If it came over a stream of the
    /// client, that is said of its first frame alone, and the client keeps what follows: do not
    /// process those bytes.
    Ignored(Transmit<T>),
    /// It carried data of a peer.
    PeerData(TurnPeerData<T>),
    /// It reported an ICMP packet that the server received for data sent to a peer (RFC 8656,
    /// section 11.6).
    PeerIcmp {
        /// The transport that the server relays over, between the relayed address and the peer.
        transport: TransportType,
        /// The peer to which the data was sent.
        peer: SocketAddr,
        /// The type of the ICMP packet.
        icmp_type: u8,
        /// The code of the ICMP packet.
        icmp_code: u8,
        /// The rest of the ICMP packet, whose meaning depends on its type and code (RFC 8656,
        /// section 18.13).
        icmp_data: u32,
    },
}
