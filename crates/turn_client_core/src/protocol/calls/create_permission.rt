//! Permissions (RFC 8656, section 9).

ghost use Rattle.turn_client_api.specs.Answers.{CreatesPermission};
ghost use Rattle.turn_client_api.specs.Calls.{create_permission_step, permission_step};

use crate::protocol::TurnClientProtocol;
use std::net::IpAddr;
use turn_client_api::{CreatePermissionError, Grant, Progress, Purpose};
use turn_client_grants::Purposes;
use turn_stun::instant::Instant;
use turn_stun::transport::TransportType;

impl TurnClientProtocol {
    /// Requests a permission for the IP address of this peer, whatever the port: queues a
    /// CREATE_PERMISSION (RFC 8656, section 10.1). `poll_event` reports the result.
    ///
    /// # Errors
    ///
    /// In this order: `NoAllocation` if no allocation relays over this transport to addresses of this
    /// IP version, or if its expiry has passed (it is marked as expired then); `AlreadyExists` if the
    /// permission is active or pending; `NoAllocation` if the client has ended; `OutOfMemory`. Nothing
    /// else changes then.
    pub fn create_permission(
        &mut self,
        transport: TransportType,
        peer_addr: IpAddr,
        now: Instant,
    ) -> Result<(), CreatePermissionError>
        ensures step { CreatesPermission result self.old self.new (create_permission_step transport peer_addr now self.old) }
    {
        if !self.has_usable_allocation(transport, peer_addr, now) {
            return Err(CreatePermissionError::NoAllocation);
        }
        self.ask_permission(peer_addr, now)
    }

    /// The same, in an allocation that can be used.
    fn ask_permission(&mut self, ip: IpAddr, now: Instant) -> Result<(), CreatePermissionError>
        ensures step { CreatesPermission result self.old self.new (permission_step ip now self.old) }
    {
        if self.ledger.table().permission_state(ip).is_some() {
            return Err(CreatePermissionError::AlreadyExists);
        }
        if !self.is_allocated() {
            return Err(CreatePermissionError::NoAllocation);
        }
        let purpose = Purpose::ForPermission(ip);
        let grants = [Grant::Permission(ip, Progress::Pending(true))];
        match self.ask(&purpose, &Purposes::one(purpose), &grants, now) {
            Ok(()) => Ok(()),
            Err(_) => Err(CreatePermissionError::OutOfMemory),
        }
    }
}
