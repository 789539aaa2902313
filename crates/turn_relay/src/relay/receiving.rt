//! What the servers sent.

ghost use Rattle.std.specs.Prelude.{◌≡◌, ◌≤◌, ◌^◌, true, option_map, None, IfOk, IsOk, OnErr};
ghost use Rattle.turn_client_api.specs.Answers.{HandsBack, given_payload, outcome_of};
ghost use Rattle.turn_client_api.specs.Payloads.{Ignored};
ghost use Rattle.turn_session.specs.Framing.{DataFails, PollsData, ReceivesBytes, ReceivingFails};
ghost use Rattle.turn_session.specs.Receiving.{is_channel_datagram};
ghost use Rattle.turn_relay.specs.Calls.{CallsOf};

use crate::relay::Relay;
use std::alloc::AllocError;
use std::convert::AsSlice;
use std::fmt::Debug;
use turn_client_api::{TurnClientApi, TurnPeerData, TurnRecvRet};
use turn_stun::instant::Instant;
use turn_stun::transport::Transmit;

impl<C: TurnClientApi> Relay<C> {
    /// Receives what came over the socket with this number, as `Session::recv` does. What came over another socket is ignored.
    ///
    /// # Errors
    ///
    /// If memory allocation fails, as that of `Session::recv`: the session has ended then. A datagram that begins as ChannelData
    /// does needs none (RFC 8656, section 12.4).
    pub fn recv<T: AsSlice<u8> + Debug + Drop>(
        &mut self,
        socket: u64,
        transmit: Transmit<T>,
        now: Instant,
    ) -> Result<TurnRecvRet<T>, AllocError>
        requires now_in_range { now ≤ 2 ^ 62 }
        ensures answer { IfOk result (λ answer. CallsOf socket (λ was s. ReceivesBytes transmit.transport transmit.from transmit.to
            (T.items transmit.payload) now was s (outcome_of answer)) (outcome_of answer ≡ Ignored) self.old self.new) }
        ensures hands_back { IfOk result (HandsBack transmit) }
        ensures no_memory { OnErr result (CallsOf socket (λ was s. ReceivingFails transmit.transport transmit.from transmit.to
            (T.items transmit.payload) now was s) ⊥ self.old self.new) }
        ensures free { is_channel_datagram transmit.transport (T.items transmit.payload) ≡ true → IsOk result }
    {
        match self.lives.place_of(socket) {
            Some(place) => self.lives.at(place).touch().recv(transmit, now),
            None => Ok(TurnRecvRet::Ignored(transmit)),
        }
    }

    /// The next data of a peer that came over the socket with this number, as `Session::poll_recv` returns it.
    ///
    /// # Errors
    ///
    /// If memory allocation fails, as that of `recv`.
    pub fn poll_recv(
        &mut self,
        socket: u64,
        now: Instant,
    ) -> Result<Option<TurnPeerData<Vec<u8>>>, AllocError>
        requires now_in_range { now ≤ 2 ^ 62 }
        ensures answer { IfOk result (λ given. CallsOf socket (λ was s. PollsData now was s (option_map given_payload given))
            (option_map given_payload given ≡ None) self.old self.new) }
        ensures no_memory { OnErr result (CallsOf socket (λ was s. DataFails now was s) ⊥ self.old self.new) }
    {
        match self.lives.place_of(socket) {
            Some(place) => self.lives.at(place).touch().poll_recv(now),
            None => Ok(None),
        }
    }
}
