//! The allocation in which a call requests something.

ghost use Rattle.std.specs.Prelude.{◌≡◌};
ghost use Rattle.turn_client_api.specs.Grants.{find_allocation_to};
ghost use Rattle.turn_client_core.specs.Usable.{is_usable, with_past_expired};

use crate::protocol::TurnClientProtocol;
use std::net::IpAddr;
use turn_client_grants::family_of_ip;
use turn_stun::instant::Instant;
use turn_stun::transport::TransportType;

impl TurnClientProtocol {
    /// Whether an allocation relays over this transport to this IP address, and its expiry has not passed.
    /// If it has, the allocation is marked as expired, so that it is no longer used for sending.
    // Where it is not inlined, the IP address is copied.
    #[inline(always)]
    pub(crate) fn has_usable_allocation(
        &mut self,
        transport: TransportType,
        ip: IpAddr,
        now: Instant,
    ) -> bool
        ensures usable { result ≡ is_usable now (find_allocation_to transport ip self.old) }
        ensures after { self.new ≡ with_past_expired (find_allocation_to transport ip self.old) ip now self.old }
    {
        let Some(relay) = self.ledger.find_allocation_to(transport, ip) else {
            return false;
        };
        if relay.expiry <= now {
            self.ledger.expire(family_of_ip(ip));
            return false;
        }
        true
    }
}
