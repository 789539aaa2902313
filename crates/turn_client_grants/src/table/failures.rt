//! The events of grants that are removed or refused.

ghost use Rattle.std.specs.Prelude.{◌≡◌, ◌+◌, ◌≤◌, ◌++◌, filter_map, length, reverse};
ghost use Rattle.std.specs.VecDeque.{deque_capacity, deque_len};
ghost use Rattle.turn_client_api.specs.Grants.{failure_of};
ghost use Rattle.turn_client_grants.specs.Failures.{close_in, failure_in};

use crate::grant_filter::GrantFilter;
use crate::table::GrantTable;
use std::collections::VecDeque;
use std::net::SocketAddr;
use turn_client_api::{Grant, TurnEvent};
use turn_stun::transport::TransportType;

impl GrantTable {
    /// Queues the failures of these grants after the queued events.
    pub(crate) fn failures_back(
        &self,
        events: &mut VecDeque<TurnEvent>,
        transport: TransportType,
        which: &GrantFilter,
    )
        requires { deque_len events.old + length (filter_map (failure_in transport which.now) self.now.grants) ≤ deque_capacity events.old }
        ensures items { events.new.items ≡ events.old.items ++ filter_map (failure_in transport which.now) self.now.grants }
        ensures capacity { deque_capacity events.new ≡ deque_capacity events.old }
        ensures len { deque_len events.new ≡ deque_len events.old + length (filter_map (failure_in transport which.now) self.now.grants) }
    {
        let grants = self.grants.as_slice();
        for grant in grants {
            if let Some(event) = failure_in(transport, which, grant) {
                events.push_back_reserved(event);
            }
        }
    }

    /// Queues the failures of these grants before the queued events, the last of them first.
    pub(crate) fn failures_front(
        &self,
        events: &mut VecDeque<TurnEvent>,
        transport: TransportType,
        which: &GrantFilter,
    )
        requires { deque_len events.old + length (filter_map (failure_in transport which.now) self.now.grants) ≤ deque_capacity events.old }
        ensures items { events.new.items ≡ reverse (filter_map (failure_in transport which.now) self.now.grants) ++ events.old.items }
        ensures capacity { deque_capacity events.new ≡ deque_capacity events.old }
        ensures len { deque_len events.new ≡ deque_len events.old + length (filter_map (failure_in transport which.now) self.now.grants) }
    {
        let grants = self.grants.as_slice();
        for grant in grants {
            if let Some(event) = failure_in(transport, which, grant) {
                events.push_front_reserved(event);
            }
        }
    }

    /// Queues the local addresses of the data connections among these grants after those to be closed
    /// already.
    pub(crate) fn closes_back(&self, closes: &mut VecDeque<SocketAddr>, which: &GrantFilter)
        requires { deque_len closes.old + length (filter_map (close_in which.now) self.now.grants) ≤ deque_capacity closes.old }
        ensures items { closes.new.items ≡ closes.old.items ++ filter_map (close_in which.now) self.now.grants }
        ensures capacity { deque_capacity closes.new ≡ deque_capacity closes.old }
        ensures len { deque_len closes.new ≡ deque_len closes.old + length (filter_map (close_in which.now) self.now.grants) }
    {
        let grants = self.grants.as_slice();
        for grant in grants {
            if let Some(local) = close_in(which, grant) {
                closes.push_back_reserved(local);
            }
        }
    }
}

/// The event of the grant when it is removed or refused.
fn failure_of(transport: TransportType, grant: &Grant) -> Option<TurnEvent>
    ensures { result ≡ failure_of transport grant.now }
{
    match grant {
        Grant::Allocation(_) => None,
        Grant::Permission(ip, _) => Some(TurnEvent::PermissionCreateFailed(transport, *ip)),
        Grant::Channel(_, peer, _) => Some(TurnEvent::ChannelCreateFailed(transport, *peer)),
        Grant::Connect(peer) => Some(TurnEvent::TcpConnectFailed(*peer)),
        Grant::Offer(offer) => Some(TurnEvent::TcpConnectFailed(offer.peer)),
        Grant::Connection(connection) => Some(TurnEvent::TcpConnectFailed(connection.peer)),
    }
}

/// The event of the grant, if it is one of these.
#[tactic(auto, unfolding(crate::specs::Failures::failure_in))]
fn failure_in(transport: TransportType, which: &GrantFilter, grant: &Grant) -> Option<TurnEvent>
    ensures { result ≡ failure_in transport which.now grant.now }
{
    if which.holds(grant) {
        return failure_of(transport, grant);
    }
    None
}

/// The local address of the grant, if it is one of these and a data connection.
#[tactic(auto, unfolding(crate::specs::Failures::close_in))]
fn close_in(which: &GrantFilter, grant: &Grant) -> Option<SocketAddr>
    ensures { result ≡ close_in which.now grant.now }
{
    if !which.holds(grant) {
        return None;
    }
    match grant {
        Grant::Connection(connection) => Some(connection.local),
        _ => None,
    }
}
