//! What is read of data connections, and of offers of them (RFC 6062).

ghost use Rattle.std.specs.Prelude.{◌≡◌, filter, filter_map, find, length, option_map, slice_get};
ghost use Rattle.std.specs.List.{list_any};
ghost use Rattle.turn_agent.specs.Agent.{same_address};
ghost use Rattle.turn_client_api.specs.Calls.{bound_to, is_offer_of};
ghost use Rattle.turn_client_api.specs.Connections.{is_connection_to, is_indicated};
ghost use Rattle.turn_client_api.specs.Grants.{as_connection, as_offer, is_connect_to, is_of_request};

use crate::kind::{is_connect_to, is_of_request, is_offer_of};
use crate::table::GrantTable;
use std::net::SocketAddr;
use turn_client_api::{DataConnection, Grant, Origin};
use turn_stun::transaction::TransactionId;

impl GrantTable {
    /// The data connection from this local address.
    pub fn connection_at(&self, local: SocketAddr) -> Option<DataConnection>
        ensures { result ≡ find (λ c. same_address c.local local) (filter_map as_connection self.now.grants) }
    {
        let grants = self.grants.as_slice();
        for grant in grants {
            if let Grant::Connection(connection) = grant {
                if connection.local == local {
                    return Some(*connection);
                }
            }
        }
        None
    }

    /// The first data connection to the peer that is bound (RFC 6062, section 4.3).
    pub fn bound_connection(&self, peer: SocketAddr) -> Option<DataConnection>
        ensures { result ≡ find (bound_to peer) (filter_map as_connection self.now.grants) }
    {
        let grants = self.grants.as_slice();
        for grant in grants {
            if let Grant::Connection(connection) = grant {
                if is_bound_to(peer, connection) {
                    return Some(*connection);
                }
            }
        }
        None
    }

    /// Whether a data connection to the peer exists, or is offered to the caller.
    pub fn is_connected(&self, peer: SocketAddr) -> bool
        ensures { result ≡ list_any (is_connection_to peer) self.now.grants }
    {
        self.grants
            .as_slice()
            .iter()
            .any(|grant| is_connection_to(peer, grant))
    }

    /// Whether a data connection to the peer is requested.
    pub fn is_connecting(&self, peer: SocketAddr) -> bool
        ensures { result ≡ list_any (is_connect_to peer) self.now.grants }
    {
        self.grants
            .as_slice()
            .iter()
            .any(|grant| is_connect_to(peer, grant))
    }

    /// The origin of the offer with this connection ID and this peer.
    pub fn offer_origin(&self, id: u32, peer: SocketAddr) -> Option<Origin>
        ensures { result ≡ option_map (λ offer. offer.origin) (slice_get (filter_map as_offer (filter (is_offer_of id peer) self.now.grants)) 0) }
    {
        let grants = self.grants.as_slice();
        for grant in grants {
            if let Grant::Offer(offer) = grant {
                if is_offer_of(id, peer, grant) {
                    return Some(offer.origin);
                }
            }
        }
        None
    }

    /// How many offers the server made by indications.
    pub fn indicated_count(&self) -> usize
        ensures { result ≡ length (filter is_indicated self.now.grants) }
    {
        self.grants
            .as_slice()
            .iter()
            .filter(|grant| is_indicated(grant))
            .count()
    }
}

/// Whether the connection is bound, and to this peer.
fn is_bound_to(peer: SocketAddr, connection: &DataConnection) -> bool
    ensures { result ≡ bound_to peer connection.now }
{
    connection.deadline.is_none() && connection.peer == peer
}

/// Whether the grant is a data connection to the peer, or an offer of one.
fn is_connection_to(peer: SocketAddr, grant: &Grant) -> bool
    ensures { result ≡ is_connection_to peer grant.now }
{
    match grant {
        Grant::Connection(connection) => connection.peer == peer,
        Grant::Offer(offer) => offer.peer == peer,
        _ => false,
    }
}

/// Whether the grant is an offer that the server made by an indication.
fn is_indicated(grant: &Grant) -> bool
    ensures { result ≡ is_indicated grant.now }
{
    match grant {
        Grant::Offer(offer) => matches!(offer.origin, Origin::ServerIndication),
        _ => false,
    }
}

/// Whether the server requested one of the data connections by a request with this ID.
pub(super) fn has_of_request(grants: &[Grant], id: TransactionId) -> bool
    ensures { result ≡ list_any (is_of_request id) grants.now }
{
    grants.iter().any(|grant| is_of_request(id, grant))
}
