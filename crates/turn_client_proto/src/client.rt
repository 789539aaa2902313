//! A client over UDP or TCP.

ghost use Rattle.std.specs.Prelude.{◌≡◌, All, IfOk, IsNone, IsOk, OnErr, OnOk};
ghost use Rattle.turn_client_api.specs.Answers.{EndsAfterSteps};
ghost use Rattle.turn_client_api.specs.State.{initial};
ghost use Rattle.turn_client_api.specs.Streams.{HoldsLittle, poll_recv_step};
ghost use Rattle.turn_client_grants.specs.NextPermission.{next_permission};
ghost use Rattle.turn_client_tcp.specs.Lent.{IsLentInPlace, IsReadIfAny};
ghost use Rattle.turn_client_proto.specs.Client.{state_of};

use crate::tcp::TurnClientTcp;
use crate::udp::TurnClientUdp;
use std::alloc::{AllocError, Global};
use std::convert::AsSlice;
use std::fmt::Debug;
use std::net::{IpAddr, SocketAddr};
pub use turn_client_api::{
    BindChannelError, CreatePermissionError, DeleteError, KeepError, SendError, TcpAllocateError,
    TcpConnectError, TurnEvent, TurnPollRet, TurnRecvRet,
};
use turn_client_api::{
    DelayedMessageOrChannelSend, PermissionAddressesIter, RelayedAddressesIter, RequestView,
    Socket5Tuple, TransmitBuild, TurnClientApi, TurnConfig, TurnPeerData,
};
use turn_stun::data::Data;
use turn_stun::instant::Instant;
use turn_stun::transaction::TransactionId;
use turn_stun::transport::{Transmit, TransportType};

/// A client over UDP or TCP.
#[derive(Debug, Drop)]
pub enum TurnClient {
    /// It reaches its server over UDP.
    Udp(TurnClientUdp),
    /// It reaches its server over TCP.
    Tcp(TurnClientTcp),
}

impl TurnClient {
    /// A client that sends over this transport from `local` to the server at `remote`, and draws its
    /// transaction IDs from this seed. It has requested nothing yet: `poll_transmit` returns the first request.
    ///
    /// RFC 8489, section 5, requires IDs that cannot be guessed. They are as good as the seed is secret. An
    /// allocation over TCP needs a client over TCP (RFC 6062, section 4.1).
    ///
    /// # Errors
    ///
    /// If memory allocation fails.
    pub fn allocate(
        alloc: Global,
        transport: TransportType,
        local: SocketAddr,
        remote: SocketAddr,
        config: TurnConfig,
        seed: [u8; 32],
    ) -> Result<TurnClient, AllocError>
        requires allocation { transport ≡ TransportType.Udp → config.allocation_transport ≡ TransportType.Udp }
        ensures { IfOk result (λ client. state_of client ≡ initial transport local remote config seed) }
    {
        match transport {
            TransportType::Udp => {
                let client = TurnClientUdp::allocate(alloc, local, remote, config, seed)?;
                Ok(TurnClient::Udp(client))
            }
            TransportType::Tcp => {
                let client = TurnClientTcp::allocate(alloc, local, remote, config, seed)?;
                Ok(TurnClient::Tcp(client))
            }
        }
    }

    /// Lends the next payload of a peer that the streams hold to `read`, with its transport and its peer, and
    /// returns what `read` returns, as [`TurnClientTcp::poll_recv_with`] does. A client over UDP has no
    /// streams.
    ///
    /// # Errors
    ///
    /// As of [`TurnClientTcp::poll_recv_with`]. Over UDP none.
    pub fn poll_recv_with<R, F: FnOnce(TransportType, SocketAddr, &[u8]) -> R + Drop>(
        &mut self,
        now: Instant,
        read: F,
    ) -> Result<Option<R>, AllocError>
        requires callable { F.IsAlwaysCallable read }
        ensures answer { IfOk result (IsReadIfAny (F.post read) (poll_recv_step now (state_of self.old)).0) }
        ensures little { IfOk result (λ given. IsNone given → All HoldsLittle (state_of self.new).streams) }
        ensures after { OnOk result (state_of self.new ≡ (poll_recv_step now (state_of self.old)).1) }
        ensures no_memory { OnErr result (EndsAfterSteps now (state_of self.old) (state_of self.new)) }
        ensures free { IsLentInPlace (state_of self.old) → IsOk result }
    {
        match self {
            TurnClient::Udp(client) => client.poll_recv_with(now, read),
            TurnClient::Tcp(client) => client.poll_recv_with(now, read),
        }
    }

    /// The next permission from a position on, as
    /// [`TurnClientOver::next_permission`](crate::over::TurnClientOver::next_permission) says.
    pub fn next_permission(
        &self,
        transport: TransportType,
        relayed: SocketAddr,
        position: usize,
    ) -> Option<(IpAddr, usize)>
        ensures { result ≡ next_permission transport relayed position (state_of self.now) }
    {
        match self {
            TurnClient::Udp(client) => client.next_permission(transport, relayed, position),
            TurnClient::Tcp(client) => client.next_permission(transport, relayed, position),
        }
    }
}

impl From<TurnClientUdp> for TurnClient {
    ghost use Rattle.std.specs.Prelude.{◌≡◌};
    ghost use Rattle.turn_client_proto.specs.declared.client.TurnClient.{TurnClient};

    ghost from_gives = { λ client whole. whole ≡ TurnClient.Udp client };

    fn from(client: TurnClientUdp) -> TurnClient {
        TurnClient::Udp(client)
    }
}

impl From<TurnClientTcp> for TurnClient {
    ghost use Rattle.std.specs.Prelude.{◌≡◌};
    ghost use Rattle.turn_client_proto.specs.declared.client.TurnClient.{TurnClient};

    ghost from_gives = { λ client whole. whole ≡ TurnClient.Tcp client };

    fn from(client: TurnClientTcp) -> TurnClient {
        TurnClient::Tcp(client)
    }
}

impl TurnClientApi for TurnClient {
    ghost use Rattle.std.specs.Prelude.{◌≡◌, ◌≤◌, ◌^◌, IfOk, IsOk};
    ghost use Rattle.turn_client_api.specs.Alarm.{IsTimely};
    ghost use Rattle.turn_client_api.specs.Poll.{poll_step};
    ghost use Rattle.turn_client_proto.specs.Client.{state_of};

    ghost state = { state_of };

    fn transport(&self) -> TransportType {
        match self {
            TurnClient::Udp(client) => client.transport(),
            TurnClient::Tcp(client) => client.transport(),
        }
    }

    fn local_addr(&self) -> SocketAddr {
        match self {
            TurnClient::Udp(client) => client.local_addr(),
            TurnClient::Tcp(client) => client.local_addr(),
        }
    }

    fn remote_addr(&self) -> SocketAddr {
        match self {
            TurnClient::Udp(client) => client.remote_addr(),
            TurnClient::Tcp(client) => client.remote_addr(),
        }
    }

    fn relayed_addresses(&self) -> RelayedAddressesIter<'_> {
        match self {
            TurnClient::Udp(client) => client.relayed_addresses(),
            TurnClient::Tcp(client) => client.relayed_addresses(),
        }
    }

    fn permissions(
        &self,
        transport: TransportType,
        relayed: SocketAddr,
    ) -> PermissionAddressesIter<'_> {
        match self {
            TurnClient::Udp(client) => client.permissions(transport, relayed),
            TurnClient::Tcp(client) => client.permissions(transport, relayed),
        }
    }

    fn request_of(&self, id: TransactionId) -> RequestView {
        match self {
            TurnClient::Udp(client) => client.request_of(id),
            TurnClient::Tcp(client) => client.request_of(id),
        }
    }

    fn queued_requests(&self) -> usize {
        match self {
            TurnClient::Udp(client) => client.queued_requests(),
            TurnClient::Tcp(client) => client.queued_requests(),
        }
    }

    fn delete(&mut self, now: Instant) -> Result<(), DeleteError> {
        match self {
            TurnClient::Udp(client) => client.delete(now),
            TurnClient::Tcp(client) => client.delete(now),
        }
    }

    fn abandon(&mut self, now: Instant) -> Result<Option<Transmit<Data>>, AllocError> {
        match self {
            TurnClient::Udp(client) => client.abandon(now),
            TurnClient::Tcp(client) => client.abandon(now),
        }
    }

    fn create_permission(
        &mut self,
        transport: TransportType,
        peer_addr: IpAddr,
        now: Instant,
    ) -> Result<(), CreatePermissionError> {
        match self {
            TurnClient::Udp(client) => client.create_permission(transport, peer_addr, now),
            TurnClient::Tcp(client) => client.create_permission(transport, peer_addr, now),
        }
    }

    fn have_permission(&self, transport: TransportType, to: IpAddr) -> bool {
        match self {
            TurnClient::Udp(client) => client.have_permission(transport, to),
            TurnClient::Tcp(client) => client.have_permission(transport, to),
        }
    }

    fn bind_channel(
        &mut self,
        transport: TransportType,
        peer_addr: SocketAddr,
        now: Instant,
    ) -> Result<(), BindChannelError> {
        match self {
            TurnClient::Udp(client) => client.bind_channel(transport, peer_addr, now),
            TurnClient::Tcp(client) => client.bind_channel(transport, peer_addr, now),
        }
    }

    fn set_permission_kept(
        &mut self,
        transport: TransportType,
        peer_addr: IpAddr,
        is_kept: bool,
    ) -> Result<(), KeepError> {
        match self {
            TurnClient::Udp(client) => client.set_permission_kept(transport, peer_addr, is_kept),
            TurnClient::Tcp(client) => client.set_permission_kept(transport, peer_addr, is_kept),
        }
    }

    fn set_channel_kept(
        &mut self,
        transport: TransportType,
        peer_addr: SocketAddr,
        is_kept: bool,
    ) -> Result<(), KeepError> {
        match self {
            TurnClient::Udp(client) => client.set_channel_kept(transport, peer_addr, is_kept),
            TurnClient::Tcp(client) => client.set_channel_kept(transport, peer_addr, is_kept),
        }
    }

    fn tcp_connect(&mut self, peer_addr: SocketAddr, now: Instant) -> Result<(), TcpConnectError> {
        match self {
            TurnClient::Udp(client) => client.tcp_connect(peer_addr, now),
            TurnClient::Tcp(client) => client.tcp_connect(peer_addr, now),
        }
    }

    fn allocated_tcp_socket(
        &mut self,
        id: u32,
        five_tuple: Socket5Tuple,
        peer_addr: SocketAddr,
        local_addr: Option<SocketAddr>,
        now: Instant,
    ) -> Result<(), TcpAllocateError> {
        match self {
            TurnClient::Udp(client) => {
                client.allocated_tcp_socket(id, five_tuple, peer_addr, local_addr, now)
            }
            TurnClient::Tcp(client) => {
                client.allocated_tcp_socket(id, five_tuple, peer_addr, local_addr, now)
            }
        }
    }

    fn tcp_closed(&mut self, local_addr: SocketAddr, remote_addr: SocketAddr, now: Instant) {
        match self {
            TurnClient::Udp(client) => client.tcp_closed(local_addr, remote_addr, now),
            TurnClient::Tcp(client) => client.tcp_closed(local_addr, remote_addr, now),
        }
    }

    // The packet is not copied at each return on its way to the caller.
    #[inline(always)]
    fn send_to<T: AsSlice<u8> + Debug + Drop>(
        &mut self,
        transport: TransportType,
        to: SocketAddr,
        data: T,
        now: Instant,
    ) -> Result<Option<TransmitBuild<DelayedMessageOrChannelSend<T>>>, SendError> {
        match self {
            TurnClient::Udp(client) => client.send_to(transport, to, data, now),
            TurnClient::Tcp(client) => client.send_to(transport, to, data, now),
        }
    }

    fn recv<T: AsSlice<u8> + Debug + Drop>(
        &mut self,
        transmit: Transmit<T>,
        now: Instant,
    ) -> Result<TurnRecvRet<T>, AllocError> {
        match self {
            TurnClient::Udp(client) => client.recv(transmit, now),
            TurnClient::Tcp(client) => client.recv(transmit, now),
        }
    }

    fn poll_recv(&mut self, now: Instant) -> Result<Option<TurnPeerData<Vec<u8>>>, AllocError> {
        match self {
            TurnClient::Udp(client) => client.poll_recv(now),
            TurnClient::Tcp(client) => client.poll_recv(now),
        }
    }

    fn poll(&mut self, now: Instant) -> Result<TurnPollRet, AllocError>
        requires now_in_range { now ≤ 2 ^ 62 }
        ensures answer { IfOk result (λ answer. answer ≡ (poll_step now (state_of self.old)).0) }
        ensures after { state_of self.new ≡ (poll_step now (state_of self.old)).1 }
        ensures alarm { IfOk result (λ answer. IsTimely answer now (state_of self.old) (state_of self.new)) }
        ensures free { IsOk result }
    {
        match self {
            TurnClient::Udp(client) => client.poll(now),
            TurnClient::Tcp(client) => client.poll(now),
        }
    }

    fn poll_transmit(&mut self, now: Instant) -> Result<Option<Transmit<Data>>, AllocError> {
        match self {
            TurnClient::Udp(client) => client.poll_transmit(now),
            TurnClient::Tcp(client) => client.poll_transmit(now),
        }
    }

    fn poll_event(&mut self) -> Option<TurnEvent> {
        match self {
            TurnClient::Udp(client) => client.poll_event(),
            TurnClient::Tcp(client) => client.poll_event(),
        }
    }

    fn protocol_error(&mut self) -> Result<(), AllocError> {
        match self {
            TurnClient::Udp(client) => client.protocol_error(),
            TurnClient::Tcp(client) => client.protocol_error(),
        }
    }
}
