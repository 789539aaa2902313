//! What can be read from a client.

ghost use Rattle.std.specs.Net.Socket.{socket_ip};
ghost use Rattle.std.specs.Prelude.{◌≡◌, ◌||◌, option_copied};
ghost use Rattle.turn_client_api.specs.Addresses.{permitted_left, relayed_left};
ghost use Rattle.turn_client_api.specs.Calls.{can_send_to, permissions_of, relayed_addresses_of};
ghost use Rattle.turn_client_api.specs.Connections.{is_connected, is_connecting};
ghost use Rattle.turn_client_api.specs.Grants.{channel_peer, first_in, has_active_permission};
ghost use Rattle.turn_client_api.specs.RequestViews.{viewed_request};
ghost use Rattle.turn_client_grants.specs.NextPermission.{next_permission};

use crate::protocol::TurnClientProtocol;
use std::net::{IpAddr, SocketAddr};
use turn_client_api::{PermissionAddressesIter, RelayedAddressesIter, RequestView};
use turn_stun::transaction::TransactionId;
use turn_stun::transport::TransportType;

impl TurnClientProtocol {
    /// The transport between the client and its server.
    pub fn transport(&self) -> TransportType
        ensures { result ≡ self.now.transport }
    {
        self.outbox.agent().transport()
    }

    /// The client's address on the control connection.
    pub fn local_addr(&self) -> SocketAddr
        ensures { result ≡ self.now.local }
    {
        self.outbox.agent().local_addr()
    }

    /// The server's address.
    pub fn remote_addr(&self) -> SocketAddr
        ensures { result ≡ self.now.remote }
    {
        self.outbox.remote_addr()
    }

    /// What it knows of its request with this transaction ID.
    pub fn request_of(&self, id: TransactionId) -> RequestView
        ensures { result ≡ viewed_request id self.now }
    {
        let purposes = self.ledger.table().purposes_of(id);
        let resends = self.outbox.agent().resends(id);
        RequestView::new(purposes.first, purposes.second, resends)
    }

    /// The transport over which its allocations relay.
    pub fn allocation_transport(&self) -> TransportType
        ensures { result ≡ self.now.config.allocation_transport }
    {
        self.ledger.transport()
    }

    /// The peer of the active channel with this number, if there is one (RFC 8656, section 12.6).
    pub fn channel_peer(&self, number: u16) -> Option<&SocketAddr>
        ensures { option_copied result ≡ first_in (channel_peer number) self.now }
    {
        self.ledger.table().channel_peer(number)
    }

    /// The relayed addresses of the client with their transports, in the order in which the server
    /// granted them (RFC 8656, section 7.3). Allocations that are marked as expired are skipped.
    pub fn relayed_addresses(&self) -> RelayedAddressesIter<'_>
        ensures { relayed_left result ≡ relayed_addresses_of self.now }
    {
        self.ledger.relayed_addresses()
    }

    /// The peer IP addresses that have a permission in the allocation with this relayed address, in the
    /// order in which the server granted them (RFC 8656, section 9). None if no allocation over
    /// this transport has this relayed address, or if it is marked as expired.
    pub fn permissions(
        &self,
        transport: TransportType,
        relayed: SocketAddr,
    ) -> PermissionAddressesIter<'_>
        ensures { permitted_left result ≡ permissions_of transport relayed self.now }
    {
        self.ledger.permissions(transport, relayed)
    }

    /// The first of the [`permissions`](TurnClientProtocol::permissions) that is granted at this position among
    /// all grants or behind it, and the position behind that grant.
    pub fn next_permission(
        &self,
        transport: TransportType,
        relayed: SocketAddr,
        position: usize,
    ) -> Option<(IpAddr, usize)>
        ensures { result ≡ next_permission transport relayed position self.now }
    {
        self.ledger.next_permission(transport, relayed, position)
    }

    /// Whether this peer IP address has an active permission. Allocations that are marked as expired are
    /// skipped; expiries are not checked.
    #[inline(always)]
    pub fn have_permission(&self, transport: TransportType, to: IpAddr) -> bool
        ensures { result ≡ can_send_to transport to self.now }
    {
        self.ledger.can_send_to(transport, to)
    }
}

impl TurnClientProtocol {
    /// Whether the IP address of the peer has an active permission.
    pub(crate) fn is_permitted(&self, peer: SocketAddr) -> bool
        ensures { result ≡ has_active_permission (socket_ip peer) self.now }
    {
        self.ledger.table().has_active_permission(peer.ip())
    }

    /// Whether a data connection to the peer exists, is offered to the caller, or is pending.
    pub(crate) fn has_connection(&self, peer: SocketAddr) -> bool
        ensures { result ≡ (is_connected peer self.now || is_connecting peer self.now) }
    {
        self.ledger.table().is_connected(peer) || self.ledger.table().is_connecting(peer)
    }
}
