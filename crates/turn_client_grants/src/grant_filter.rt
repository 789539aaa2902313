//! Which grants a change applies to.

ghost use Rattle.std.specs.Prelude.{◌≡◌};
ghost use Rattle.turn_client_grants.specs.Found.{lookup_key};
ghost use Rattle.turn_client_grants.specs.GrantFilter.{holds};

use crate::key::{Key, is_open_to};
use crate::kind::{
    is_active, is_allocation, is_channel_of, is_connect, is_connect_to, is_connection_from, is_of,
    is_pending_channel, is_pending_permission, is_permission_of,
};
use crate::past_expiry::{is_expired_permission, is_over, is_timed_out_offer, is_unbound};
use crate::purposes::Purposes;
use std::net::{IpAddr, SocketAddr};
use turn_client_api::Grant;
use turn_stun::instant::Instant;
use turn_stun::transaction::TransactionId;
use turn_types::AddressFamily;

/// Which grants a change applies to.
#[derive(Clone, Copy, Debug, PartialEq, Eq)]
pub enum GrantFilter {
    /// All grants.
    All,
    /// The allocation of this family, and the grants in it.
    OfFamily(AddressFamily),
    /// The allocation of this family, without the grants in it.
    AllocationOf(AddressFamily),
    /// Permissions and channels that are active.
    Active,
    /// The permission for this IP address, whatever the port (RFC 8656, section 9).
    PermissionOf(IpAddr),
    /// The channel with this number.
    ChannelOf(u16),
    /// The channel to this peer that is pending or active.
    OpenTo(SocketAddr),
    /// The pending CONNECT to this peer (RFC 6062, section 4.3).
    ConnectTo(SocketAddr),
    /// The data connection from this local address.
    ConnectionFrom(SocketAddr),
    /// Active permissions of this family whose expiry is this time or earlier.
    ExpiredPermissions(AddressFamily, Instant),
    /// Channels of this family that were reserved until a time before this one.
    FreedChannels(AddressFamily, Instant),
    /// Pending permissions for which a request with these purposes was made.
    PendingPermissionsOf(Purposes),
    /// Pending permissions of this family for which a request with these purposes was made.
    PendingPermissionsIn(AddressFamily, Purposes),
    /// Pending channels of this family for which a request with these purposes was made.
    PendingChannelsIn(AddressFamily, Purposes),
    /// Pending CONNECTs of this family for which a request with these purposes was made.
    ConnectsIn(AddressFamily, Purposes),
    /// Data connections of this family that are not bound, and either have a deadline at this time
    /// or earlier, or have a CONNECTION_BIND with these purposes (RFC 6062, section 4.3).
    UnboundIn(AddressFamily, Instant, Purposes),
    /// Offers of this family that the server made by the request with this ID.
    OffersIn(AddressFamily, Option<TransactionId>),
    /// Grants of this family for which a request with these purposes was made.
    AskedIn(AddressFamily, Purposes),
}

impl GrantFilter {
    /// Whether the grant is one of these.
    #[tactic(auto, unfolding(crate::specs::GrantFilter::holds))]
    pub(crate) fn holds(&self, grant: &Grant) -> bool
        ensures { result ≡ holds self.now grant.now }
    {
        match self {
            GrantFilter::All => true,
            GrantFilter::OfFamily(family) => is_of(*family, grant),
            GrantFilter::AllocationOf(family) => is_allocation(grant) && is_of(*family, grant),
            GrantFilter::Active => is_active(grant),
            GrantFilter::PermissionOf(ip) => is_permission_of(*ip, grant),
            GrantFilter::ChannelOf(number) => is_channel_of(*number, grant),
            GrantFilter::OpenTo(peer) => is_open_to(*peer, grant),
            GrantFilter::ConnectTo(peer) => is_connect_to(*peer, grant),
            GrantFilter::ConnectionFrom(local) => is_connection_from(*local, grant),
            GrantFilter::ExpiredPermissions(family, now) => {
                is_of(*family, grant) && is_expired_permission(*now, grant)
            }
            GrantFilter::FreedChannels(family, now) => is_of(*family, grant)
                && is_over(*now, grant),
            GrantFilter::PendingPermissionsOf(purposes) => {
                is_pending_permission(grant) && purposes.are_for(grant)
            }
            GrantFilter::PendingPermissionsIn(family, purposes) => {
                is_of(*family, grant) && is_pending_permission(grant) && purposes.are_for(grant)
            }
            GrantFilter::PendingChannelsIn(family, purposes) => {
                is_of(*family, grant) && is_pending_channel(grant) && purposes.are_for(grant)
            }
            GrantFilter::ConnectsIn(family, purposes) => {
                is_of(*family, grant) && is_connect(grant) && purposes.are_for(grant)
            }
            GrantFilter::UnboundIn(family, now, purposes) => {
                is_of(*family, grant) && is_unbound(*now, purposes, grant)
            }
            GrantFilter::OffersIn(family, given) => is_of(*family, grant)
                && is_timed_out_offer(given, grant),
            GrantFilter::AskedIn(family, purposes) => is_of(*family, grant)
                && purposes.are_for(grant),
        }
    }

    /// The key that finds just these grants, if there is one.
    pub(crate) fn key(&self) -> Option<Key>
        ensures { result ≡ lookup_key self.now }
    {
        match self {
            GrantFilter::PermissionOf(ip) => Some(Key::Ip(*ip)),
            GrantFilter::ChannelOf(number) => Some(Key::Number(*number)),
            GrantFilter::OpenTo(peer) => Some(Key::Peer(*peer)),
            _ => None,
        }
    }
}
