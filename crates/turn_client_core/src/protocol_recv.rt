//! The result of processing a datagram of the server.

ghost use Rattle.std.specs.Prelude.{◌≡◌, ◌≤◌, length, slice_range};
ghost use Rattle.turn_client_api.specs.Answers.{HandsBack, outcome_of};
ghost use Rattle.turn_client_api.specs.Streams.{owned};
ghost use Rattle.turn_client_core.specs.ProtocolRecv.{IsRangeWithin, outcome_in};

use std::convert::AsSlice;
use std::net::SocketAddr;
use std::ops::Range;
use turn_client_api::{DataRange, DataRangeOrOwned, TurnPeerData, TurnRecvRet};
use turn_stun::transport::{Transmit, TransportType};
use turn_types::attribute::Icmp;

/// The result of processing a message of the server, or a ChannelData message.
#[derive(Debug, Drop)]
pub enum TurnProtocolRecv {
    /// It was for the client, which may now have a packet to send or an event to report.
    Handled,
    /// It was not for the client. Nothing changed, except that a request may no longer be outstanding.
    Ignored,
    /// Data of this peer, which its allocation relayed over this transport: this range of the received
    /// bytes (RFC 8656, sections 11.4, 11.6 and 12.6).
    PeerData(TransportType, SocketAddr, Range<usize>),
    /// An ICMP packet about data that was sent to this peer over this transport (RFC 8656, section 11.6).
    PeerIcmp(TransportType, SocketAddr, Icmp),
}

impl TurnProtocolRecv {
    /// The result for the caller that passed in the bytes: data is a range of them.
    pub fn lent<T: AsSlice<u8> + Drop>(self, transmit: Transmit<T>) -> TurnRecvRet<T>
        requires { IsRangeWithin (T.items transmit.payload) self }
        ensures outcome { outcome_of result ≡ outcome_in (T.items transmit.payload) self }
        ensures hands_back { HandsBack transmit result }
    {
        match self {
            TurnProtocolRecv::Handled => TurnRecvRet::Handled,
            TurnProtocolRecv::Ignored => TurnRecvRet::Ignored(transmit),
            TurnProtocolRecv::PeerData(transport, peer, place) => {
                let Transmit { payload, .. } = transmit;
                let part = DataRangeOrOwned::Range(DataRange::new(payload, place));
                TurnRecvRet::PeerData(TurnPeerData::new(transport, peer, part))
            }
            TurnProtocolRecv::PeerIcmp(transport, peer, icmp) => TurnRecvRet::PeerIcmp {
                transport,
                peer,
                icmp_type: icmp.icmp_type,
                icmp_code: icmp.code,
                icmp_data: icmp.data,
            },
        }
    }

    /// The result for the caller that passed in the last of these bytes: data is owned. Allocates no
    /// memory.
    pub fn owned<T: AsSlice<u8> + Drop>(
        self,
        bytes: Vec<u8>,
        transmit: Transmit<T>,
    ) -> TurnRecvRet<T>
        requires { IsRangeWithin bytes.items self }
        ensures outcome { outcome_of result ≡ owned (outcome_in bytes.items self) }
        ensures hands_back { HandsBack transmit result }
    {
        match self {
            TurnProtocolRecv::Handled => TurnRecvRet::Handled,
            TurnProtocolRecv::Ignored => TurnRecvRet::Ignored(transmit),
            TurnProtocolRecv::PeerData(transport, peer, place) => {
                let part = DataRangeOrOwned::Owned(part_of(bytes, &place));
                TurnRecvRet::PeerData(TurnPeerData::new(transport, peer, part))
            }
            TurnProtocolRecv::PeerIcmp(transport, peer, icmp) => TurnRecvRet::PeerIcmp {
                transport,
                peer,
                icmp_type: icmp.icmp_type,
                icmp_code: icmp.code,
                icmp_data: icmp.data,
            },
        }
    }
}

/// This range of the bytes. Allocates no memory.
fn part_of(mut bytes: Vec<u8>, place: &Range<usize>) -> Vec<u8>
    requires ordered { place.now.start ≤ place.now.end }
    requires inside { place.now.end ≤ length bytes.items }
    ensures { result.items ≡ slice_range bytes.items place.now.start place.now.end }
{
    bytes.rotate_left(place.start);
    bytes.truncate(place.end - place.start);
    bytes
}
