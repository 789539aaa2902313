//! Data for a peer that may not be permitted yet.

ghost use Rattle.std.specs.Prelude.{◌≡◌, ◌≤◌, ◌^◌, length};
ghost use Rattle.turn_stun.specs.declared.transport.TransportType.TheVariants.{Udp};
ghost use Rattle.turn_session.specs.Giving.{Gives, GivesPacket, GivesPermitted, is_longer};

use crate::constants::{MAX_DATA, MAX_MESSAGE};
use crate::sent::{SendRefusal, Sent};
use crate::session::Session;
use std::convert::AsSlice;
use std::fmt::Debug;
use std::net::SocketAddr;
use turn_client_api::{DelayedMessageOrChannelSend, TransmitBuild, TurnClientApi};
use turn_session_book::keys::Key;
use turn_stun::instant::Instant;
use turn_stun::transport::TransportType;
use turn_types::transmit::DelayedTransmitBuild;

impl<C: TurnClientApi> Session<C> {
    /// The packet that carries the data to this peer, or, if the peer is not permitted, a request for its permission, as by `request`
    /// for data.
    ///
    /// # Errors
    ///
    /// `TooLong` if the message to the server would have more than 65,507 bytes with its header, the most that a datagram over IPv4
    /// carries and that common servers read from a stream. Data connections have no such limit. `Refused` as the client does. The
    /// client may have used a transaction ID then, and nothing else changes.
    pub fn send<T: AsSlice<u8> + Debug + Drop>(
        &mut self,
        transport: TransportType,
        to: SocketAddr,
        data: T,
        now: Instant,
    ) -> Result<Sent<T>, SendRefusal>
        requires now_in_range { now ≤ 2 ^ 62 }
        ensures { Gives transport to (T.items «data») now result self.old self.new }
    {
        if is_too_long(transport, MAX_DATA, data.as_slice().len()) {
            return Err(SendRefusal::TooLong);
        }
        if self.have_permission(transport, to.ip()) {
            return self.send_permitted(transport, to, data, now);
        }
        let answer = self.request(Key::Permission(to.ip()), true, now);
        Ok(Sent::Requested(answer))
    }
    /// The packet that carries the data to a peer that is permitted.
    ///
    /// # Errors
    ///
    /// As those of `send`.
    fn send_permitted<T: AsSlice<u8> + Debug + Drop>(
        &mut self,
        transport: TransportType,
        to: SocketAddr,
        data: T,
        now: Instant,
    ) -> Result<Sent<T>, SendRefusal>
        requires now_in_range { now ≤ 2 ^ 62 }
        requires short { self.old.noted.client.config.allocation_transport ≡ Udp → length (T.items «data») ≤ 65504 }
        ensures { GivesPermitted transport to (T.items «data») now result self.old self.new }
    {
        match self.noted.send_to(transport, to, data, now) {
            Ok(Some(packet)) => self.give(transport, to, packet, now),
            Ok(None) => unreachable!(),
            Err(refusal) => Err(SendRefusal::Refused(refusal)),
        }
    }

    /// This packet, unless it is too long.
    ///
    /// # Errors
    ///
    /// `TooLong`. Nothing changes then.
    fn give<T: AsSlice<u8> + Debug + Drop>(
        &mut self,
        transport: TransportType,
        to: SocketAddr,
        packet: TransmitBuild<DelayedMessageOrChannelSend<T>>,
        now: Instant,
    ) -> Result<Sent<T>, SendRefusal>
        ensures { GivesPacket transport to packet now result self.old self.new }
    {
        if is_too_long(transport, MAX_MESSAGE, packet.payload.len()) {
            return Err(SendRefusal::TooLong);
        }
        self.note_sending(to, now);
        Ok(Sent::Packet(packet))
    }
}

/// Whether a message to the server is longer than this. A data connection carries any length.
fn is_too_long(transport: TransportType, max: usize, len: usize) -> bool
    ensures { result ≡ is_longer transport max len }
{
    match transport {
        TransportType::Udp => len > max,
        TransportType::Tcp => false,
    }
}
