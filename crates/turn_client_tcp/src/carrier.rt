//! What differs between a client over UDP and one over TCP.

ghost use Rattle.std.specs.Borrow.{sem};
ghost use Rattle.std.specs.Prelude.{◌≡◌, true, All, IfOk, IsNone, IsOk, OnErr, OnOk, option_map};
ghost use Rattle.turn_client_api.specs.Answers.{EndsAfterSteps, HandsBack, RecvEnds, TakesSocket, given_payload, outcome_of, takes_no_memory};
ghost use Rattle.turn_client_api.specs.Calls.{allocated_tcp_socket_step};
ghost use Rattle.turn_client_api.specs.Receive.{is_from_server, recv_step};
ghost use Rattle.turn_client_api.specs.State.{State};
ghost use Rattle.turn_client_api.specs.Streams.{HoldsLittle, poll_recv_step};
ghost use Rattle.turn_client_core.specs.Apart.{with_streams_of};
ghost use Rattle.turn_client_tcp.specs.Over.{IsClientOver};
ghost use Rattle.turn_client_tcp.specs.Control.{LendsControl};
ghost use Rattle.turn_stun.specs.declared.transport.TransportType.{TransportType};

use std::alloc::AllocError;
use std::convert::AsSlice;
use std::fmt::Debug;
use std::net::SocketAddr;
use turn_client_api::{Socket5Tuple, TcpAllocateError, TurnPeerData, TurnRecvRet};
use turn_client_core::TurnClientProtocol;
use turn_stun::instant::Instant;
use turn_stun::transport::{Transmit, TransportType};

/// A control machine, and what brings it its messages: the datagrams of the server, or the streams of a client
/// over TCP. All that concerns no stream is asked of the control machine; the rest differs by the transport.
///
/// Contracts describe a carrier by the `State` of its client.
pub trait Carrier: Debug + Drop {
    /// The transport between the client and its server.
    ghost transport: { TransportType };

    /// The state of the client.
    ghost state: { Self → State };

    /// The carrier, with its control machine in this state.
    ghost with_control: { Self → State → Self };

    /// The control machine. It is the client without its streams.
    fn control(&self) -> &TurnClientProtocol
        ensures { with_streams_of (state self.now) result.now ≡ state self.now };

    /// The control machine, for a call that changes it. The streams stay as they are.
    fn control_mut(&mut self) -> &mut TurnClientProtocol
        ensures* writes_back { sem 𝓛 (LendsControl Self.row with_control self.entry result) }
        ensures value { with_streams_of (state self.old) result.now ≡ state self.old };

    /// Reports what became of a data connection that was offered, as
    /// [`TurnClientApi::allocated_tcp_socket`](turn_client_api::TurnClientApi::allocated_tcp_socket) does.
    ///
    /// # Errors
    ///
    /// As of that call.
    fn take_socket(
        &mut self,
        id: u32,
        five_tuple: Socket5Tuple,
        peer_addr: SocketAddr,
        local_addr: Option<SocketAddr>,
        now: Instant,
    ) -> Result<(), TcpAllocateError>
        requires fit { IsClientOver transport (state self.old) }
        ensures step { TakesSocket result (state self.old) (state self.new)
            (allocated_tcp_socket_step id five_tuple peer_addr local_addr now (state self.old)) };

    /// Processes a datagram or a piece of a stream, as [`TurnClientApi::recv`](turn_client_api::TurnClientApi::recv)
    /// does.
    ///
    /// # Errors
    ///
    /// As of that call.
    fn receive<T: AsSlice<u8> + Debug + Drop>(
        &mut self,
        transmit: Transmit<T>,
        now: Instant,
    ) -> Result<TurnRecvRet<T>, AllocError>
        requires fit { IsClientOver transport (state self.old) }
        ensures answer { IfOk result (λ answer. outcome_of answer
            ≡ (recv_step transmit.transport transmit.from transmit.to (T.items transmit.payload) now (state self.old)).0) }
        ensures hands_back { IfOk result (HandsBack transmit) }
        ensures after { OnOk result (state self.new
            ≡ (recv_step transmit.transport transmit.from transmit.to (T.items transmit.payload) now (state self.old)).1) }
        ensures no_memory { OnErr result (RecvEnds transmit.to (T.items transmit.payload) now (state self.old) (state self.new)) }
        ensures free { takes_no_memory transmit.transport transmit.from transmit.to (T.items transmit.payload) (state self.old) ≡ true → IsOk result };

    /// The next payload that the streams hold, as [`TurnClientApi::poll_recv`](turn_client_api::TurnClientApi::poll_recv)
    /// returns it.
    ///
    /// # Errors
    ///
    /// As of that call.
    fn next_payload(&mut self, now: Instant) -> Result<Option<TurnPeerData<Vec<u8>>>, AllocError>
        requires fit { IsClientOver transport (state self.old) }
        ensures answer { IfOk result (λ given. option_map given_payload given ≡ (poll_recv_step now (state self.old)).0) }
        ensures little { IfOk result (λ given. IsNone given → All HoldsLittle (state self.new).streams) }
        ensures after { OnOk result (state self.new ≡ (poll_recv_step now (state self.old)).1) }
        ensures no_memory { OnErr result (EndsAfterSteps now (state self.old) (state self.new)) };

    /// What the control machine becomes, the client becomes, apart from its streams.
    ghost controlled: { (carrier : Self) (s : State) → state (with_control carrier s) ≡ with_streams_of (state carrier) s };
}

/// Whether a packet from this address over this transport comes from the server of the client.
// Each packet asks this: where it is not inlined, the address is copied.
#[inline(always)]
pub fn is_from_server(
    control: &TurnClientProtocol,
    transport: TransportType,
    from: SocketAddr,
) -> bool
    ensures { result ≡ is_from_server transport from control.now }
{
    transport == control.transport() && from == control.remote_addr()
}
