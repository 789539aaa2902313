//! A client that has ended, to show that the contracts of every call can be met.

ghost use Rattle.turn_client_api.specs.ClosedClient.{closed_state};

use crate::addresses::{PermissionAddressesIter, RelayedAddressesIter};
use crate::client::TurnClientApi;
use crate::config::TurnConfig;
use crate::error::{
    BindChannelError, CreatePermissionError, DeleteError, KeepError, SendError, TcpAllocateError,
    TcpConnectError,
};
use crate::event::TurnEvent;
use crate::poll::{Socket5Tuple, TurnPollRet};
use crate::receive::{TurnPeerData, TurnRecvRet};
use crate::request::RequestView;
use crate::send::DelayedMessageOrChannelSend;
use std::alloc::AllocError;
use std::convert::AsSlice;
use std::fmt::Debug;
use std::net::{IpAddr, SocketAddr};
use turn_stun::data::Data;
use turn_stun::instant::Instant;
use turn_stun::transaction::TransactionId;
use turn_stun::transport::{Transmit, TransportType};
use turn_types::AddressFamily;
use turn_types::transmit::TransmitBuild;

/// A client in the phase `Closed`, with nothing queued, no grants and no streams. So `poll_recv`
/// has no stream to read, and may not return an allocation error.
#[derive(Debug, Drop)]
struct ClosedClient {
    config: TurnConfig,
    transport: TransportType,
    local_addr: SocketAddr,
    remote_addr: SocketAddr,
}

impl TurnClientApi for ClosedClient {
    ghost state = { closed_state };

    fn transport(&self) -> TransportType {
        self.transport
    }

    fn local_addr(&self) -> SocketAddr {
        self.local_addr
    }

    fn remote_addr(&self) -> SocketAddr {
        self.remote_addr
    }

    fn relayed_addresses(&self) -> RelayedAddressesIter<'_> {
        RelayedAddressesIter::new(self.config.allocation_transport(), &[])
    }

    fn permissions(
        &self,
        _transport: TransportType,
        _relayed: SocketAddr,
    ) -> PermissionAddressesIter<'_> {
        PermissionAddressesIter::new(AddressFamily::IPV4, &[])
    }

    fn request_of(&self, _id: TransactionId) -> RequestView {
        RequestView::none()
    }

    fn queued_requests(&self) -> usize {
        0
    }

    fn delete(&mut self, _now: Instant) -> Result<(), DeleteError> {
        Err(DeleteError::NoAllocation)
    }

    fn abandon(&mut self, _now: Instant) -> Result<Option<Transmit<Data>>, AllocError> {
        Ok(None)
    }

    fn create_permission(
        &mut self,
        _transport: TransportType,
        _peer_addr: IpAddr,
        _now: Instant,
    ) -> Result<(), CreatePermissionError> {
        Err(CreatePermissionError::NoAllocation)
    }

    fn have_permission(&self, _transport: TransportType, _to: IpAddr) -> bool {
        false
    }

    fn bind_channel(
        &mut self,
        _transport: TransportType,
        _peer_addr: SocketAddr,
        _now: Instant,
    ) -> Result<(), BindChannelError> {
        Err(BindChannelError::NoAllocation)
    }

    fn set_permission_kept(
        &mut self,
        _transport: TransportType,
        _peer_addr: IpAddr,
        _is_kept: bool,
    ) -> Result<(), KeepError> {
        Err(KeepError::NotGranted)
    }

    fn set_channel_kept(
        &mut self,
        _transport: TransportType,
        _peer_addr: SocketAddr,
        _is_kept: bool,
    ) -> Result<(), KeepError> {
        Err(KeepError::NotGranted)
    }

    fn tcp_connect(
        &mut self,
        _peer_addr: SocketAddr,
        _now: Instant,
    ) -> Result<(), TcpConnectError> {
        Err(TcpConnectError::NoAllocation)
    }

    fn allocated_tcp_socket(
        &mut self,
        _id: u32,
        _five_tuple: Socket5Tuple,
        _peer_addr: SocketAddr,
        _local_addr: Option<SocketAddr>,
        _now: Instant,
    ) -> Result<(), TcpAllocateError> {
        Err(TcpAllocateError::NoAllocation)
    }

    fn tcp_closed(&mut self, _local_addr: SocketAddr, _remote_addr: SocketAddr, _now: Instant) {}

    fn send_to<T: AsSlice<u8> + Debug + Drop>(
        &mut self,
        _transport: TransportType,
        _to: SocketAddr,
        _data: T,
        _now: Instant,
    ) -> Result<Option<TransmitBuild<DelayedMessageOrChannelSend<T>>>, SendError> {
        Err(SendError::NoPermission)
    }

    fn recv<T: AsSlice<u8> + Debug + Drop>(
        &mut self,
        transmit: Transmit<T>,
        _now: Instant,
    ) -> Result<TurnRecvRet<T>, AllocError> {
        Ok(TurnRecvRet::Ignored(transmit))
    }

    #[tactic(auto, unfolding(crate::specs::Streams::steps_until_payload))]
    fn poll_recv(&mut self, _now: Instant) -> Result<Option<TurnPeerData<Vec<u8>>>, AllocError> {
        Ok(None)
    }

    fn poll(&mut self, _now: Instant) -> Result<TurnPollRet, AllocError> {
        Ok(TurnPollRet::Closed)
    }

    fn poll_transmit(&mut self, _now: Instant) -> Result<Option<Transmit<Data>>, AllocError> {
        Ok(None)
    }

    fn poll_event(&mut self) -> Option<TurnEvent> {
        None
    }

    fn protocol_error(&mut self) -> Result<(), AllocError> {
        Ok(())
    }
}
