//! A client over UDP or TCP, whichever its carrier is.

ghost use Rattle.std.specs.Prelude.{◌≡◌, ◌≤◌, ◌^◌, IfOk, IsOk};
ghost use Rattle.turn_client_api.specs.Alarm.{IsTimely};
ghost use Rattle.turn_client_api.specs.Poll.{poll_step};

use std::alloc::AllocError;
use std::convert::AsSlice;
use std::fmt::Debug;
use std::marker::Model;
use std::net::{IpAddr, SocketAddr};
use turn_client_api::{
    BindChannelError, CreatePermissionError, DelayedMessageOrChannelSend, DeleteError, KeepError,
    PermissionAddressesIter, RelayedAddressesIter, RequestView, SendError, Socket5Tuple,
    TcpAllocateError, TcpConnectError, TransmitBuild, TurnClientApi, TurnEvent, TurnPeerData,
    TurnPollRet, TurnRecvRet,
};
use turn_client_tcp::Carrier;
use turn_stun::data::Data;
use turn_stun::instant::Instant;
use turn_stun::transaction::TransactionId;
use turn_stun::transport::{Transmit, TransportType};

/// A client that reaches its server by this carrier: [`TurnClientUdp`](crate::udp::TurnClientUdp) or
/// [`TurnClientTcp`](crate::tcp::TurnClientTcp). Contracts describe it by its `State`.
#[derive(Debug, Drop)]
pub struct TurnClientOver<C: Carrier> {
    pub(crate) carrier: C,
}

impl<C: Carrier> Model for TurnClientOver<C> {
    ghost use Rattle.turn_client_api.specs.State.{State};
    ghost use Rattle.turn_client_tcp.specs.Over.{IsClientOver};

    ghost Value = { State };

    ghost view = { λ client. C.state client.carrier };

    ghost invariant = { λ client. IsClientOver C.transport (C.state client.carrier) };
}

impl<C: Carrier> TurnClientOver<C> {
    ghost use Rattle.std.specs.Prelude.{◌≡◌};
    ghost use Rattle.turn_client_grants.specs.NextPermission.{next_permission};

    /// The first of the addresses of [`permissions`](TurnClientApi::permissions) that is granted at this position or
    /// behind it, and the position behind that grant, for a caller that lists them one at a time and keeps no
    /// iterator. It begins at position 0. A permission that is granted meanwhile is listed too; one that ends meanwhile
    /// shifts those behind it, of which as many may be passed over. Allocates no memory.
    pub fn next_permission(
        &self,
        transport: TransportType,
        relayed: SocketAddr,
        position: usize,
    ) -> Option<(IpAddr, usize)>
        ensures { result ≡ next_permission transport relayed position self.now }
    {
        self.carrier
            .control()
            .next_permission(transport, relayed, position)
    }
}

impl<C: Carrier> TurnClientApi for TurnClientOver<C> {
    ghost state = { λ client. client };

    fn transport(&self) -> TransportType {
        self.carrier.control().transport()
    }

    fn local_addr(&self) -> SocketAddr {
        self.carrier.control().local_addr()
    }

    fn remote_addr(&self) -> SocketAddr {
        self.carrier.control().remote_addr()
    }

    fn relayed_addresses(&self) -> RelayedAddressesIter<'_> {
        self.carrier.control().relayed_addresses()
    }

    fn permissions(
        &self,
        transport: TransportType,
        relayed: SocketAddr,
    ) -> PermissionAddressesIter<'_> {
        self.carrier.control().permissions(transport, relayed)
    }

    fn request_of(&self, id: TransactionId) -> RequestView {
        self.carrier.control().request_of(id)
    }

    fn queued_requests(&self) -> usize {
        self.carrier.control().queued_requests()
    }

    fn delete(&mut self, now: Instant) -> Result<(), DeleteError> {
        self.carrier.control_mut().delete(now)
    }

    fn abandon(&mut self, now: Instant) -> Result<Option<Transmit<Data>>, AllocError> {
        self.carrier.control_mut().abandon(now)
    }

    fn create_permission(
        &mut self,
        transport: TransportType,
        peer_addr: IpAddr,
        now: Instant,
    ) -> Result<(), CreatePermissionError> {
        self.carrier
            .control_mut()
            .create_permission(transport, peer_addr, now)
    }

    // Where it is not inlined, the address is passed on in parts.
    #[inline(always)]
    fn have_permission(&self, transport: TransportType, to: IpAddr) -> bool {
        self.carrier.control().have_permission(transport, to)
    }

    fn bind_channel(
        &mut self,
        transport: TransportType,
        peer_addr: SocketAddr,
        now: Instant,
    ) -> Result<(), BindChannelError> {
        self.carrier
            .control_mut()
            .bind_channel(transport, peer_addr, now)
    }

    fn set_permission_kept(
        &mut self,
        transport: TransportType,
        peer_addr: IpAddr,
        is_kept: bool,
    ) -> Result<(), KeepError> {
        self.carrier
            .control_mut()
            .set_permission_kept(transport, peer_addr, is_kept)
    }

    fn set_channel_kept(
        &mut self,
        transport: TransportType,
        peer_addr: SocketAddr,
        is_kept: bool,
    ) -> Result<(), KeepError> {
        self.carrier
            .control_mut()
            .set_channel_kept(transport, peer_addr, is_kept)
    }

    fn tcp_connect(&mut self, peer_addr: SocketAddr, now: Instant) -> Result<(), TcpConnectError> {
        self.carrier.control_mut().tcp_connect(peer_addr, now)
    }

    fn allocated_tcp_socket(
        &mut self,
        id: u32,
        five_tuple: Socket5Tuple,
        peer_addr: SocketAddr,
        local_addr: Option<SocketAddr>,
        now: Instant,
    ) -> Result<(), TcpAllocateError> {
        self.carrier
            .take_socket(id, five_tuple, peer_addr, local_addr, now)
    }

    fn tcp_closed(&mut self, local_addr: SocketAddr, remote_addr: SocketAddr, _now: Instant) {
        self.carrier
            .control_mut()
            .tcp_closed(local_addr, remote_addr)
    }

    #[inline(always)]
    fn send_to<T: AsSlice<u8> + Debug + Drop>(
        &mut self,
        transport: TransportType,
        to: SocketAddr,
        data: T,
        now: Instant,
    ) -> Result<Option<TransmitBuild<DelayedMessageOrChannelSend<T>>>, SendError> {
        self.carrier.control_mut().send_to(transport, to, data, now)
    }

    #[inline(always)]
    fn recv<T: AsSlice<u8> + Debug + Drop>(
        &mut self,
        transmit: Transmit<T>,
        now: Instant,
    ) -> Result<TurnRecvRet<T>, AllocError> {
        self.carrier.receive(transmit, now)
    }

    fn poll_recv(&mut self, now: Instant) -> Result<Option<TurnPeerData<Vec<u8>>>, AllocError> {
        self.carrier.next_payload(now)
    }

    fn poll(&mut self, now: Instant) -> Result<TurnPollRet, AllocError>
        requires now_in_range { now ≤ 2 ^ 62 }
        ensures answer { IfOk result (λ answer. answer ≡ (poll_step now self.old).0) }
        ensures after { self.new ≡ (poll_step now self.old).1 }
        ensures alarm { IfOk result (λ answer. IsTimely answer now self.old self.new) }
        ensures free { IsOk result }
    {
        Ok(self.carrier.control_mut().poll(now))
    }

    fn poll_transmit(&mut self, now: Instant) -> Result<Option<Transmit<Data>>, AllocError> {
        self.carrier.control_mut().poll_transmit(now)
    }

    fn poll_event(&mut self) -> Option<TurnEvent> {
        self.carrier.control_mut().poll_event()
    }

    fn protocol_error(&mut self) -> Result<(), AllocError> {
        self.carrier.control_mut().protocol_error()
    }
}
