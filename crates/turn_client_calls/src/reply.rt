//! The result of a call as a value.

ghost use Rattle.std.specs.Prelude.{◌≡◌, ◌<◌, length, IfOk, OnErr};
ghost use Rattle.turn_client_api.specs.Answers.{given_payload};
ghost use Rattle.turn_client_calls.specs.Run.{peer_data};

use crate::{PermittedAddresses, RelayedAddresses};
use std::alloc::{AllocError, Global};
use std::convert::AsSlice;
use std::net::SocketAddr;
use turn_client_api::{
    BindChannelError, CreatePermissionError, DeleteError, KeepError, SendError, TcpAllocateError,
    TcpConnectError, TurnEvent, TurnPeerData, TurnPollRet,
};
use turn_stun::data::Data;
use turn_stun::transport::{Transmit, TransportType};

/// Data of a peer.
#[derive(Debug, Drop)]
pub struct PeerData {
    /// The transport between the peer and the server.
    pub transport: TransportType,
    /// The peer that sent it.
    pub peer: SocketAddr,
    /// The bytes that the peer sent.
    pub data: Data,
}

impl PeerData {
    /// What a client returned, with a copy of the bytes.
    ///
    /// # Errors
    ///
    /// If memory allocation for the copy fails. Data of no bytes need none.
    pub fn copy_of<T: AsSlice<u8>>(
        alloc: Global,
        given: &TurnPeerData<T>,
    ) -> Result<PeerData, AllocError>
        ensures copy { IfOk result (λ copy. copy ≡ peer_data (given_payload given.now)) }
        ensures wanted { OnErr result (0 < length (given_payload given.now).bytes) }
    {
        let bytes = copy_of(alloc, given.data())?;
        Ok(PeerData {
            transport: given.transport,
            peer: given.peer,
            data: Data::from(bytes),
        })
    }
}

/// The result of a [`Call`](crate::Call).
#[derive(Debug, Drop)]
pub enum Reply {
    /// `poll` returned this.
    Poll(TurnPollRet),
    /// `poll_transmit` returned this packet, or none.
    Transmit(Option<Transmit<Data>>),
    /// `poll_event` returned this event, or none.
    Event(Option<TurnEvent>),
    /// `recv` processed the packet.
    Handled,
    /// `recv` found that the packet, over TCP its first frame, was not for the client.
    Ignored,
    /// `recv` or `poll_recv` returned data of a peer.
    PeerData(PeerData),
    /// `recv` reported an ICMP packet for data sent to a peer (RFC 8656, section 11.6).
    PeerIcmp {
        /// The transport between the server and the peer.
        transport: TransportType,
        /// The peer to which the data was sent.
        peer: SocketAddr,
        /// The type of the ICMP packet.
        icmp_type: u8,
        /// The code of the ICMP packet.
        icmp_code: u8,
        /// The error data of the ICMP packet (RFC 8656, section 18.13).
        icmp_data: u32,
    },
    /// `poll_recv` had no data of a peer.
    NoData,
    /// `send_to` made this packet, built as it is sent, or returned an error.
    SendTo(Result<Transmit<Data>, SendError>),
    /// `create_permission` requested the permission, or returned an error.
    CreatePermission(Result<(), CreatePermissionError>),
    /// `bind_channel` requested the channel, or returned an error.
    BindChannel(Result<(), BindChannelError>),
    /// `tcp_connect` requested the connection, or returned an error.
    TcpConnect(Result<(), TcpConnectError>),
    /// `allocated_tcp_socket` accepted the connection, or returned an error.
    AllocatedTcpSocket(Result<(), TcpAllocateError>),
    /// `delete` requested that the allocations be deleted, or returned an error.
    Delete(Result<(), DeleteError>),
    /// `relayed_addresses` returned these addresses.
    RelayedAddresses(RelayedAddresses),
    /// `permissions` returned these addresses.
    Permissions(PermittedAddresses),
    /// `have_permission` found that the peer has a permission, or has none.
    HavePermission(bool),
    /// `set_permission_kept` found the permission, or returned an error.
    SetPermissionKept(Result<(), KeepError>),
    /// `set_channel_kept` found the channel, or returned an error.
    SetChannelKept(Result<(), KeepError>),
    /// `tcp_closed` was made, or `protocol_error` succeeded.
    Done,
}

/// A copy of the bytes, which allocates no memory if there are none.
fn copy_of(alloc: Global, bytes: &[u8]) -> Result<Vec<u8>, AllocError>
    ensures items { IfOk result (λ copy. copy.items ≡ bytes.now) }
    ensures wanted { OnErr result (0 < length bytes.now) }
{
    if bytes.is_empty() {
        return Ok(Vec::new(alloc));
    }
    Vec::from_slice(alloc, bytes)
}
