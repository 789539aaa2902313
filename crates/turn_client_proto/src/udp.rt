//! A client that reaches its server over UDP.

ghost use Rattle.std.specs.Prelude.{◌≡◌, ◌≤◌, ◌&&◌, length, All, IfOk, IfSome, IsNone, IsOk, OnOk};
ghost use Rattle.turn_agent.specs.Agent.{same_address};
ghost use Rattle.turn_client_api.specs.Receive.{is_from_server};
ghost use Rattle.turn_client_api.specs.State.{initial};
ghost use Rattle.turn_client_api.specs.Streams.{HoldsLittle, poll_recv_step};
ghost use Rattle.turn_client_tcp.specs.Lent.{IsReadIfAny};
ghost use Rattle.turn_client_proto.specs.Channels.{BringsData, BringsNoFrame};

use crate::over::TurnClientOver;
use std::alloc::{AllocError, Global};
use std::convert::AsSlice;
use std::fmt::Debug;
use std::marker::Model;
use std::net::SocketAddr;
use std::ops::Range;
pub use turn_client_api::{
    BindChannelError, CreatePermissionError, DeleteError, KeepError, SendError, TcpAllocateError,
    TcpConnectError, TurnEvent, TurnPollRet, TurnRecvRet,
};
use turn_client_api::{Socket5Tuple, TurnConfig, TurnPeerData};
use turn_client_core::{TurnClientProtocol, TurnProtocolRecv};
use turn_client_tcp::{Carrier, is_from_server};
use turn_stun::instant::Instant;
use turn_stun::transport::{Transmit, TransportType};
use turn_types::channel::ChannelData;

/// A client that reaches its server over UDP. Contracts describe it by its `State`.
pub type TurnClientUdp = TurnClientOver<TurnClientUdpProtocol>;

/// The control machine of a client over UDP, which has no streams beside it. Contracts describe it by the
/// `State` of the client.
#[derive(Debug, Drop)]
pub struct TurnClientUdpProtocol {
    control: Box<TurnClientProtocol>,
}

impl Model for TurnClientUdpProtocol {
    ghost use Rattle.std.specs.Prelude.{[]};
    ghost use Rattle.turn_client_api.specs.State.{State};

    ghost Value = { State };

    ghost view = { λ c. record c.control.value { streams = [] } };
}

impl TurnClientUdp {
    /// A client that sends from `local` to the server at `remote`, and draws its transaction IDs from this
    /// seed. It has requested nothing yet: `poll_transmit` returns the first request.
    ///
    /// RFC 8489, section 5, requires IDs that cannot be guessed. They are as good as the seed is secret.
    /// The allocation relays over UDP, since an allocation over TCP needs a client over TCP (RFC 6062,
    /// section 4.1).
    ///
    /// # Errors
    ///
    /// If memory allocation fails.
    pub fn allocate(
        alloc: Global,
        local: SocketAddr,
        remote: SocketAddr,
        config: TurnConfig,
        seed: [u8; 32],
    ) -> Result<TurnClientUdp, AllocError>
        requires { config.allocation_transport ≡ TransportType.Udp }
        ensures { IfOk result (λ client. client ≡ initial TransportType.Udp local remote config seed) }
    {
        let control = TurnClientProtocol::boxed(
            alloc,
            TransportType::Udp,
            local,
            remote,
            config,
            seed,
        )?;
        Ok(TurnClientOver {
            carrier: TurnClientUdpProtocol { control },
        })
    }

    /// The data of a peer that this datagram carries, if the server sent it to the client and it is a ChannelData message
    /// of an active channel (RFC 8656, section 12.6): the transport and the peer, and where the data lies in the bytes.
    ///
    /// [`TurnClientApi::recv`](crate::api::TurnClientApi::recv) returns the same of it, and changes nothing. Ask this first to
    /// read the data where it lies, without handing the datagram over and back.
    // Each packet asks this: where it is not inlined, the address is copied.
    #[inline(always)]
    pub fn channel_data(
        &self,
        transport: TransportType,
        from: &SocketAddr,
        to: &SocketAddr,
        bytes: &[u8],
    ) -> Option<(TransportType, SocketAddr, Range<usize>)>
        ensures received { IfSome result (λ found. BringsData transport from.now to.now bytes.now self.now found.0 found.1 found.2) }
        // A ChannelData message of which it returns none is ignored.
        ensures others { IsNone result → BringsNoFrame transport from.now to.now bytes.now self.now }
        ensures within { IfSome result (λ found. (found.2.start ≤ found.2.end) × (found.2.end ≤ length bytes.now)) }
    {
        let Ok(frame) = ChannelData::parse(bytes) else {
            return None;
        };
        if !self.carrier.is_own(transport, *from, *to) {
            return None;
        }
        match self.carrier.control.channel_sent(bytes, &frame) {
            TurnProtocolRecv::PeerData(transport, peer, place) => Some((transport, peer, place)),
            _ => None,
        }
    }

    /// Returns none, and `read` is not called: a client over UDP has no streams. The method is here as
    /// [`TurnClientApi::poll_recv`](crate::api::TurnClientApi::poll_recv) is, for a caller of any client.
    ///
    /// # Errors
    ///
    /// None: no memory is allocated.
    pub fn poll_recv_with<R, F: FnOnce(TransportType, SocketAddr, &[u8]) -> R + Drop>(
        &mut self,
        _now: Instant,
        _read: F,
    ) -> Result<Option<R>, AllocError>
        requires callable { F.IsAlwaysCallable _read }
        ensures answer { IfOk result (IsReadIfAny (F.post _read) (poll_recv_step _now self.old).0) }
        ensures little { IfOk result (λ given. IsNone given → All HoldsLittle self.new.streams) }
        ensures after { OnOk result (self.new ≡ (poll_recv_step _now self.old).1) }
        ensures free { IsOk result }
    {
        let _ = &self.carrier;
        Ok(None)
    }
}

impl TurnClientUdpProtocol {
    /// Whether a packet with these addresses is a datagram of the server to the client.
    #[inline(always)]
    fn is_own(&self, transport: TransportType, from: SocketAddr, to: SocketAddr) -> bool
        ensures { result ≡ (is_from_server transport from self.now && same_address to self.now.local) }
    {
        is_from_server(&self.control, transport, from) && to == self.control.local_addr()
    }
}

impl Carrier for TurnClientUdpProtocol {
    ghost use Rattle.std.specs.Prelude.{refl};
    ghost use Rattle.turn_client_core.specs.Apart.{with_streams_of};
    ghost use Rattle.turn_stun.specs.declared.transport.TransportType.TheVariants.{Udp};

    ghost transport = { Udp };

    ghost state = { λ c. c };

    ghost with_control = { λ c s. with_streams_of c s };

    ghost controlled = { λ c s. refl };

    #[inline(always)]
    fn control(&self) -> &TurnClientProtocol {
        &self.control
    }

    #[inline(always)]
    fn control_mut(&mut self) -> &mut TurnClientProtocol {
        &mut self.control
    }

    fn take_socket(
        &mut self,
        _id: u32,
        _five_tuple: Socket5Tuple,
        _peer_addr: SocketAddr,
        _local_addr: Option<SocketAddr>,
        _now: Instant,
    ) -> Result<(), TcpAllocateError> {
        // The allocations of a client over UDP relay over UDP.
        Err(TcpAllocateError::NoAllocation)
    }

    fn receive<T: AsSlice<u8> + Debug + Drop>(
        &mut self,
        transmit: Transmit<T>,
        now: Instant,
    ) -> Result<TurnRecvRet<T>, AllocError> {
        if !self.is_own(transmit.transport, transmit.from, transmit.to) {
            return Ok(TurnRecvRet::Ignored(transmit));
        }
        match self.control.datagram(transmit.payload.as_slice(), now) {
            Ok(outcome) => Ok(outcome.lent(transmit)),
            Err(refusal) => Err(refusal),
        }
    }

    fn next_payload(&mut self, _now: Instant) -> Result<Option<TurnPeerData<Vec<u8>>>, AllocError> {
        // A client over UDP has no streams.
        Ok(None)
    }
}
