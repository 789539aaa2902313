//! Data of peers, as the client carries it. The session notes nothing of it. What a stream still holds at the end can be taken after it.

ghost use Rattle.std.specs.Prelude.{◌≡◌, ◌≤◌, ◌^◌, ◌&&◌, not, length, option_map, All, IfOk, IsNone, OnErr, OnOk};
ghost use Rattle.turn_stun.specs.declared.transport.TransportType.TheVariants.{Udp};
ghost use Rattle.turn_client_api.specs.Answers.{EndsAfterSteps, IsSent, given_payload};
ghost use Rattle.turn_client_api.specs.Calls.{can_send_to};
ghost use Rattle.turn_client_api.specs.Streams.{HoldsLittle, poll_recv_step};
ghost use Rattle.turn_session_client.specs.Ending.{is_over};
ghost use Rattle.turn_session_client.specs.Receiving.{ended_with};
ghost use Rattle.turn_session_client.specs.Sending.{sent_step};

use crate::noted::NotedClient;
use std::alloc::AllocError;
use std::convert::AsSlice;
use std::fmt::Debug;
use std::net::{IpAddr, SocketAddr};
use turn_client_api::{
    DelayedMessageOrChannelSend, SendError, TransmitBuild, TurnClientApi, TurnPeerData,
};
use turn_session_book::causes::Why;
use turn_session_life::life::Phase;
use turn_stun::instant::Instant;
use turn_stun::transport::TransportType;

impl<C: TurnClientApi> NotedClient<C> {
    /// Whether this peer IP address has an active permission, as the client says. After the end there is none.
    pub fn have_permission(&self, transport: TransportType, to: IpAddr) -> bool
        ensures { result ≡ not (is_over self.now.life.phase) && can_send_to transport to self.now.client }
    {
        !matches!(self.life.phase, Phase::Over(_)) && self.client.have_permission(transport, to)
    }

    /// The packet that carries the data to this peer, as the client makes it.
    ///
    /// # Errors
    ///
    /// Those of the client's call, and `NoAllocation` after the end. Nothing changes then.
    pub fn send_to<T: AsSlice<u8> + Debug + Drop>(
        &mut self,
        transport: TransportType,
        to: SocketAddr,
        data: T,
        now: Instant,
    ) -> Result<Option<TransmitBuild<DelayedMessageOrChannelSend<T>>>, SendError>
        requires now_in_range { now ≤ 2 ^ 62 }
        requires short { self.old.client.config.allocation_transport ≡ Udp → length (T.items «data») ≤ 65504 }
        ensures answer { IsSent result (sent_step transport to (T.items «data») now self.old).0 }
        ensures after { self.new ≡ (sent_step transport to (T.items «data») now self.old).1 }
    {
        if matches!(self.life.phase, Phase::Over(_)) {
            return Err(SendError::NoAllocation);
        }
        self.client.send_to(transport, to, data, now)
    }

    /// The next payload of a peer in the client's streams, or none. `poll` notes what the client does meanwhile.
    ///
    /// # Errors
    ///
    /// If memory allocation fails. The client has ended then, as its `poll_recv` says, and the session with it.
    pub fn poll_recv(&mut self, now: Instant) -> Result<Option<TurnPeerData<Vec<u8>>>, AllocError>
        requires now_in_range { now ≤ 2 ^ 62 }
        ensures answer { IfOk result (λ given. option_map given_payload given ≡ (poll_recv_step now self.old.client).0) }
        ensures little { IfOk result (λ given. IsNone given → All HoldsLittle self.new.client.streams) }
        ensures after { OnOk result (self.new ≡ record self.old { client = (poll_recv_step now self.old.client).1 }) }
        ensures no_memory { OnErr result (EndsAfterSteps now self.old.client self.new.client) }
        ensures ended { OnErr result (self.new ≡ ended_with self.new.client self.old) }
    {
        match self.client.poll_recv(now) {
            Ok(given) => Ok(given),
            Err(error) => {
                self.life.end(Why::OutOfMemory);
                Err(error)
            }
        }
    }
}
