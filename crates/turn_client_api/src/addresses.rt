//! Iterators over the relayed addresses of a client and over its permitted peers.

ghost use Rattle.std.specs.Prelude.{◌≡◌};
ghost use Rattle.std.specs.Iterator.{YieldsFirst, item_count};
ghost use Rattle.turn_client_api.specs.Addresses.{relayed_in_use, relayed_left, permitted_in_use, permitted_left};

use crate::grant::{Grant, Progress};
use std::net::{IpAddr, SocketAddr};
use turn_types::{AddressFamily, TransportType};

/// The relayed addresses of a client with their transports, in the order in which the server
/// granted them. Allocations that are marked as expired are skipped. Allocates no memory.
#[derive(Debug, Drop)]
pub struct RelayedAddressesIter<'a> {
    transport: TransportType,
    grants: &'a [Grant],
}

impl<'a> RelayedAddressesIter<'a> {
    /// The relayed addresses of those allocations among these grants that are not expired. They
    /// relay over this transport.
    pub fn new(transport: TransportType, grants: &'a [Grant]) -> RelayedAddressesIter<'a>
        ensures { relayed_left result ≡ relayed_in_use transport grants.now }
    {
        RelayedAddressesIter { transport, grants }
    }
}

impl<'a> Iterator for RelayedAddressesIter<'a> {
    type Item = (TransportType, SocketAddr);

    ghost next_gives = { YieldsFirst relayed_left };

    ghost remaining = { item_count relayed_left };

    fn next(&mut self) -> Option<(TransportType, SocketAddr)> {
        while let Some((grant, others)) = self.grants.split_first() {
            self.grants = others;
            if let Grant::Allocation(relay) = grant {
                if !relay.is_expired {
                    return Some((self.transport, relay.relayed));
                }
            }
        }
        None
    }
}

/// The peer IP addresses that have a permission, in the order in which the server granted them.
/// Allocates no memory.
#[derive(Debug, Drop)]
pub struct PermissionAddressesIter<'a> {
    family: AddressFamily,
    grants: &'a [Grant],
}

impl<'a> PermissionAddressesIter<'a> {
    /// The IP addresses of this family that have an active permission among these grants. Pending
    /// permissions are skipped.
    pub fn new(family: AddressFamily, grants: &'a [Grant]) -> PermissionAddressesIter<'a>
        ensures { permitted_left result ≡ permitted_in_use family grants.now }
    {
        PermissionAddressesIter { family, grants }
    }
}

impl<'a> Iterator for PermissionAddressesIter<'a> {
    type Item = IpAddr;

    ghost next_gives = { YieldsFirst permitted_left };

    ghost remaining = { item_count permitted_left };

    fn next(&mut self) -> Option<IpAddr> {
        while let Some((grant, others)) = self.grants.split_first() {
            self.grants = others;
            if let Grant::Permission(ip, Progress::Active(_)) = grant {
                let family = match ip {
                    IpAddr::V4(_) => AddressFamily::IPV4,
                    IpAddr::V6(_) => AddressFamily::IPV6,
                };
                if family == self.family {
                    return Some(*ip);
                }
            }
        }
        None
    }
}
