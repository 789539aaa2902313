//! Data for peers.

ghost use Rattle.std.specs.Prelude.{◌≤◌, ◌<◌, ◌^◌, length};
ghost use Rattle.turn_relay.specs.Sending.{RequestsFor, Sends, SendsOver};

use crate::answer::RelaySent;
use crate::relay::Relay;
use std::alloc::AllocError;
use std::convert::AsSlice;
use std::fmt::Debug;
use std::net::SocketAddr;
use turn_client_api::TurnClientApi;
use turn_session::sent::{SendRefusal, Sent};
use turn_session_book::keys::Key;
use turn_stun::instant::Instant;
use turn_stun::transport::TransportType;

impl<C: TurnClientApi> Relay<C> {
    /// The packet that carries the data to this peer, or, if the peer is not permitted, a request for its permission, as by
    /// `request` for data.
    ///
    /// # Errors
    ///
    /// Those of `Session::send`, and `OutOfMemory` if memory allocation for the request fails.
    pub fn send<T: AsSlice<u8> + Debug + Drop>(
        &mut self,
        transport: TransportType,
        to: SocketAddr,
        data: T,
        now: Instant,
    ) -> Result<RelaySent<T>, RelaySendError>
        requires now_in_range { now ≤ 2 ^ 62 }
        ensures { Sends transport to (T.items «data») now result self.old self.new }
    {
        match self.open_place() {
            Some(place) => self.send_over(place, transport, to, data, now),
            None => Ok(RelaySent::NotUp),
        }
    }

    /// The same over the session at this place.
    fn send_over<T: AsSlice<u8> + Debug + Drop>(
        &mut self,
        place: usize,
        transport: TransportType,
        to: SocketAddr,
        data: T,
        now: Instant,
    ) -> Result<RelaySent<T>, RelaySendError>
        requires now_in_range { now ≤ 2 ^ 62 }
        requires within { place < length self.old.lives }
        ensures { SendsOver place transport to (T.items «data») now result self.old self.new }
    {
        let live = self.lives.at(place);
        let socket = live.link().socket;
        match live.touch().send(transport, to, data, now) {
            Ok(Sent::Packet(packet)) => Ok(RelaySent::Packet(socket, packet)),
            Ok(Sent::Requested(_)) => self.request_permission(to, now),
            Err(refusal) => Err(RelaySendError::Refused(refusal)),
        }
    }

    /// Requests the permission of this peer, for data.
    fn request_permission<T: AsSlice<u8>>(
        &mut self,
        to: SocketAddr,
        now: Instant,
    ) -> Result<RelaySent<T>, RelaySendError>
        ensures { RequestsFor to now result self.old self.new }
    {
        match self.request(Key::Permission(to.ip()), true, now) {
            Ok(answer) => Ok(RelaySent::Requested(answer)),
            Err(AllocError) => Err(RelaySendError::OutOfMemory),
        }
    }
}

/// Why data is not sent.
#[derive(Clone, Copy, Debug, PartialEq, Eq)]
pub enum RelaySendError {
    /// The session refuses it.
    Refused(SendRefusal),
    /// A memory allocation failed.
    OutOfMemory,
}
