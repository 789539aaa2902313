//! Data for a peer (RFC 8656, sections 11.1 and 12.5; RFC 6062, section 4.3).

ghost use Rattle.std.specs.Prelude.{◌≡◌, ◌≤◌, ◌&&◌, Err, Ok, Some, filter_map, find, length, nat_le, nat_lt, slice_get, true, IfErr, IfSome};
ghost use Rattle.turn_client_api.specs.Answers.{IsNoWay, IsSent};
ghost use Rattle.turn_client_api.specs.Calls.{active_channel, as_indication, bound_to, on_channel, on_connection, send_to_step};
ghost use Rattle.turn_client_api.specs.Delayed.{delayed_send_bytes};
ghost use Rattle.turn_client_api.specs.Grants.{as_connection};
ghost use Rattle.turn_client_api.specs.Requests.{to_server};
ghost use Rattle.turn_client_core.specs.Sent.{in_frame, number_by};
ghost use Rattle.turn_stun.specs.declared.transport.TransportType.TheVariants.{Udp};

use crate::protocol::TurnClientProtocol;
use std::convert::AsSlice;
use std::fmt::Debug;
use std::net::SocketAddr;
use turn_client_api::{DelayedMessageOrChannelSend, SendError, TransmitBuild};
use turn_stun::instant::Instant;
use turn_stun::transport::TransportType;
use turn_types::transmit::{DelayedChannel, DelayedMessage};

impl TurnClientProtocol {
    /// Makes the packet that carries the data to this peer: over UDP a ChannelData message if the first
    /// active channel to the peer is not past its expiry, and else a Send indication (RFC 8656,
    /// sections 11.1 and 12.5); over TCP the data unchanged, on a data connection that is bound to the
    /// peer (RFC 6062, section 4.3). The result is always a packet, which is built when it is sent.
    /// Allocates no memory.
    ///
    /// # Errors
    ///
    /// In this order: `NoPermission` if the peer has none over this transport, or the allocation is
    /// marked as expired; `NoTcpSocket` if no data connection is bound to the peer. Nothing changes
    /// then.
    // As a result of its own, a packet of 160 bytes would be copied at each return on its way to the caller. So what
    // it calls is inlined too.
    #[inline(always)]
    pub fn send_to<T: AsSlice<u8> + Debug + Drop>(
        &mut self,
        transport: TransportType,
        to: SocketAddr,
        data: T,
        now: Instant,
    ) -> Result<Option<TransmitBuild<DelayedMessageOrChannelSend<T>>>, SendError>
        requires { self.old.config.allocation_transport ≡ Udp → length (T.items «data») ≤ 65504 }
        ensures named { IfErr result IsNoWay }
        ensures answer { IsSent result (send_to_step transport to (T.items «data») now self.old).0 }
        ensures after { self.new ≡ (send_to_step transport to (T.items «data») now self.old).1 }
    {
        if !self.have_permission(transport, to.ip()) {
            return Err(SendError::NoPermission);
        }
        match transport {
            TransportType::Udp => Ok(Some(self.send_over_udp(to, data, now))),
            TransportType::Tcp => self.send_over_tcp(to, data),
        }
    }

    /// A ChannelData message if the first active channel to the peer is not past its expiry, and else a
    /// Send indication.
    #[inline(always)]
    fn send_over_udp<T: AsSlice<u8> + Debug + Drop>(
        &mut self,
        to: SocketAddr,
        data: T,
        now: Instant,
    ) -> TransmitBuild<DelayedMessageOrChannelSend<T>>
        requires { length (T.items «data») ≤ 65504 }
        ensures answer { IsSent (Ok (Some result)) (on_channel (filter_map (active_channel to) self.old.grants) to (T.items «data») now self.old).0 }
        ensures after { self.new ≡ (on_channel (filter_map (active_channel to) self.old.grants) to (T.items «data») now self.old).1 }
    {
        match self.channel_to(to, now) {
            Some(number) => self.in_frame(number, data),
            None => self.in_indication(to, data),
        }
    }

    /// The data in a ChannelData message of this channel.
    #[inline(always)]
    fn in_frame<T: AsSlice<u8> + Debug + Drop>(
        &self,
        number: u16,
        data: T,
    ) -> TransmitBuild<DelayedMessageOrChannelSend<T>>
        requires numbered { (nat_le 0x4000 number && nat_lt number 0x5000) ≡ true }
        requires short { length (T.items «data») ≤ 65504 }
        ensures { IsSent (Ok (Some result)) (in_frame number (T.items «data») self.now) }
    {
        let frame = DelayedChannel::new(number, data);
        self.to_server(DelayedMessageOrChannelSend::Channel(frame))
    }

    /// The data in a Send indication, which takes a transaction ID.
    #[inline(always)]
    fn in_indication<T: AsSlice<u8> + Debug + Drop>(
        &mut self,
        to: SocketAddr,
        data: T,
    ) -> TransmitBuild<DelayedMessageOrChannelSend<T>>
        requires { length (T.items «data») ≤ 65504 }
        ensures answer { IsSent (Ok (Some result)) (as_indication to (T.items «data») self.old).0 }
        ensures after { self.new ≡ (as_indication to (T.items «data») self.old).1 }
    {
        let id = self.fresh_id();
        self.outbox.draw();
        let message = DelayedMessage::for_server(to, data, id);
        self.to_server(DelayedMessageOrChannelSend::Message(message))
    }

    /// The packet to the server over the control connection.
    #[inline(always)]
    fn to_server<T: AsSlice<u8> + Debug + Drop>(
        &self,
        payload: DelayedMessageOrChannelSend<T>,
    ) -> TransmitBuild<DelayedMessageOrChannelSend<T>>
        ensures { IsSent (Ok (Some result)) (Ok (to_server self.now self.now.local (delayed_send_bytes payload))) }
    {
        TransmitBuild::new(
            payload,
            self.transport(),
            self.local_addr(),
            self.remote_addr(),
        )
    }

    /// The data unchanged, on the first data connection that is bound to the peer.
    #[inline(always)]
    fn send_over_tcp<T: AsSlice<u8> + Debug + Drop>(
        &self,
        to: SocketAddr,
        data: T,
    ) -> Result<Option<TransmitBuild<DelayedMessageOrChannelSend<T>>>, SendError>
        ensures named { IfErr result IsNoWay }
        ensures answer { IsSent result (on_connection (find (bound_to to) (filter_map as_connection self.now.grants)) (T.items «data») self.now).0 }
    {
        match self.ledger.table().bound_connection(to) {
            Some(connection) => Ok(Some(TransmitBuild::new(
                DelayedMessageOrChannelSend::Data(data),
                TransportType::Tcp,
                connection.local,
                self.remote_addr(),
            ))),
            None => Err(SendError::NoTcpSocket),
        }
    }

    /// The number of the first active channel to the peer, if its expiry has not passed.
    #[inline(always)]
    fn channel_to(&self, peer: SocketAddr, now: Instant) -> Option<u16>
        ensures found { result ≡ number_by (slice_get (filter_map (active_channel peer) self.now.grants) 0) now }
        ensures numbered { IfSome result (λ number. (nat_le 0x4000 number && nat_lt number 0x5000) ≡ true) }
    {
        let Some(found) = self.ledger.table().active_channel(peer) else {
            return None;
        };
        if now <= found.1 {
            return Some(found.0);
        }
        None
    }
}
