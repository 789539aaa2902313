//! What a frame of a stream gave.

ghost use Rattle.std.specs.Prelude.{◌≡◌};
ghost use Rattle.turn_client_api.specs.Answers.{given_payload, outcome_of};
ghost use Rattle.turn_session.specs.Given.{given_data, given_outcome};

use std::convert::AsSlice;
use std::net::SocketAddr;
use turn_client_api::{DataRangeOrOwned, TurnPeerData, TurnRecvRet};
use turn_stun::transport::TransportType;

/// What a frame of a stream gave, apart from the bytes that it was received in.
#[derive(Debug, Drop)]
pub(crate) enum Given {
    /// The client has handled it.
    Handled,
    /// It was not for the client.
    Ignored,
    /// It carried data of a peer.
    PeerData(PeerBytes),
    /// It reported an ICMP packet.
    PeerIcmp(IcmpReport),
}

/// Data of a peer, as owned bytes.
#[derive(Debug, Drop)]
pub(crate) struct PeerBytes {
    /// The transport between the peer and the server.
    pub(crate) transport: TransportType,
    /// The peer that sent it.
    pub(crate) peer: SocketAddr,
    /// The bytes that the peer sent.
    pub(crate) bytes: Vec<u8>,
}

/// An ICMP packet that the server received for data sent to a peer (RFC 8656, section 11.6).
#[derive(Clone, Copy, Debug)]
pub(crate) struct IcmpReport {
    /// The transport that the server relays over.
    pub(crate) transport: TransportType,
    /// The peer to which the data was sent.
    pub(crate) peer: SocketAddr,
    /// The type of the ICMP packet.
    pub(crate) icmp_type: u8,
    /// The code of the ICMP packet.
    pub(crate) icmp_code: u8,
    /// The rest of the ICMP packet.
    pub(crate) icmp_data: u32,
}

impl PeerBytes {
    /// The same data, as a client returns it for any type of buffer.
    pub(crate) fn into_data<T: AsSlice<u8>>(self) -> TurnPeerData<T>
        ensures { given_payload result ≡ given_data self }
    {
        let PeerBytes {
            transport,
            peer,
            bytes,
        } = self;
        TurnPeerData::new(transport, peer, DataRangeOrOwned::Owned(bytes))
    }
}

impl IcmpReport {
    /// The same report, as a client returns it.
    pub(crate) fn into_answer<T: AsSlice<u8>>(self) -> TurnRecvRet<T>
        ensures { outcome_of result ≡ given_outcome (Given.PeerIcmp self) }
    {
        TurnRecvRet::PeerIcmp {
            transport: self.transport,
            peer: self.peer,
            icmp_type: self.icmp_type,
            icmp_code: self.icmp_code,
            icmp_data: self.icmp_data,
        }
    }
}
