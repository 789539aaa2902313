//! Data of peers: Data indications and ChannelData messages (RFC 8656, sections 11.4, 11.6 and 12.6).

ghost use Rattle.std.specs.Prelude.{◌≡◌, ◌≤◌, ◌+◌, false, if◌then◌else◌, length, IfSome};
ghost use Rattle.std.specs.Net.Socket.{socket_ip};
ghost use Rattle.std.specs.Option.{option_map};
ghost use Rattle.turn_client_api.specs.Grants.{has_active_permission};
ghost use Rattle.turn_client_api.specs.Judgement.{has_unknown, last_in};
ghost use Rattle.turn_client_api.specs.Payloads.{Ignored, channel_sent, data_indicated, is_message};
ghost use Rattle.turn_client_api.specs.Requests.{icmp_kind};
ghost use Rattle.turn_client_core.specs.Indication.{icmp_of_peer, if_permitted};
ghost use Rattle.turn_client_core.specs.ProtocolRecv.{IsPart, outcome_in};
ghost use Rattle.turn_stun.specs.Iterator.{placed};
ghost use Rattle.turn_stun.specs.Message.{HoldsValue, IsWithin, id_of};
ghost use Rattle.turn_types.specs.Channel.{channel_data_at};
ghost use Rattle.turn_types.specs.Send.{data_kind, peer_kind};

use crate::indication::Indication;
use crate::protocol::TurnClientProtocol;
use crate::protocol_recv::TurnProtocolRecv;
use std::net::SocketAddr;
use turn_types::attribute::Icmp;
use turn_types::channel::ChannelData;

impl TurnClientProtocol {
    /// The result of the Data indication in these bytes, or `Ignored` if they are no message: data of a
    /// peer whose IP address has an active permission, whether or not its allocation is expired, or an
    /// ICMP error if there is no data. Allocates no memory.
    pub(crate) fn data_indicated(&self, bytes: &[u8]) -> TurnProtocolRecv
        ensures outcome { outcome_in bytes.now result ≡ (if is_message bytes.now then data_indicated self.now bytes.now else Ignored) }
        ensures part { IsPart bytes.now self.now self.now result }
    {
        match Indication::of(bytes) {
            Some(found) => self.found_indicated(bytes, &found),
            None => TurnProtocolRecv::Ignored,
        }
    }

    /// The result of the Data indication in these bytes, whose contents these are.
    fn found_indicated(&self, bytes: &[u8], found: &Indication<'_>) -> TurnProtocolRecv
        requires id { found.now.id ≡ id_of bytes.now }
        requires unknown { found.now.has_unknown ≡ has_unknown bytes.now }
        requires peer { has_unknown bytes.now ≡ false → option_map placed found.now.peer ≡ last_in peer_kind bytes.now }
        requires payload { has_unknown bytes.now ≡ false → option_map placed found.now.«data» ≡ last_in data_kind bytes.now }
        requires icmp { has_unknown bytes.now ≡ false → option_map placed found.now.icmp ≡ last_in icmp_kind bytes.now }
        requires within { IfSome (last_in data_kind bytes.now) (IsWithin 20 (length bytes.now)) }
        requires value { IfSome (last_in data_kind bytes.now) (HoldsValue bytes.now) }
        ensures outcome { outcome_in bytes.now result ≡ data_indicated self.now bytes.now }
        ensures part { IsPart bytes.now self.now self.now result }
    {
        if found.has_unknown {
            return TurnProtocolRecv::Ignored;
        }
        let Some(peer) = found.peer() else {
            return TurnProtocolRecv::Ignored;
        };
        match found.data_place(bytes) {
            Some(place) => {
                self.if_permitted(
                    peer,
                    TurnProtocolRecv::PeerData(self.ledger.transport(), peer, place),
                )
            }
            None => self.icmp_indicated(peer, &found.icmp()),
        }
    }

    /// The result of a Data indication without data.
    fn icmp_indicated(&self, peer: SocketAddr, icmp: &Option<Icmp>) -> TurnProtocolRecv
        ensures { result ≡ icmp_of_peer peer icmp.now self.now }
    {
        match icmp {
            Some(icmp) => {
                self.if_permitted(
                    peer,
                    TurnProtocolRecv::PeerIcmp(self.ledger.transport(), peer, *icmp),
                )
            }
            None => TurnProtocolRecv::Ignored,
        }
    }

    /// The result of the ChannelData message at the start of these bytes: data of the peer whose active
    /// channel has the number, in any phase. Allocates no memory.
    #[inline(always)]
    pub fn channel_sent(&self, bytes: &[u8], frame: &ChannelData<'_>) -> TurnProtocolRecv
        requires frame { frame.now ≡ channel_data_at bytes.now }
        requires whole { 4 + length frame.now.payload ≤ length bytes.now }
        ensures outcome { outcome_in bytes.now result ≡ channel_sent self.now bytes.now }
        ensures part { IsPart bytes.now self.now self.now result }
    {
        match self.ledger.table().channel_peer(frame.id()) {
            Some(peer) => TurnProtocolRecv::PeerData(
                self.ledger.transport(),
                *peer,
                4..4 + frame.data().len(),
            ),
            None => TurnProtocolRecv::Ignored,
        }
    }

    /// This result of an input from the peer, if the peer's IP address has an active permission, or
    /// else `Ignored`.
    fn if_permitted(&self, peer: SocketAddr, outcome: TurnProtocolRecv) -> TurnProtocolRecv
        ensures { result ≡ if_permitted (has_active_permission (socket_ip peer) self.now) outcome }
    {
        if self.is_permitted(peer) {
            return outcome;
        }
        TurnProtocolRecv::Ignored
    }
}
