//! Which grants are refreshed (our choice: one that is not ends by itself, RFC 8656, sections 9 and 12).

ghost use Rattle.std.specs.Prelude.{◌≡◌};
ghost use Rattle.turn_client_api.specs.Calls.{channel_kept_step, permission_kept_step};

use crate::protocol::TurnClientProtocol;
use std::net::{IpAddr, SocketAddr};
use turn_client_api::KeepError;
use turn_stun::transport::TransportType;

impl TurnClientProtocol {
    /// Says whether the permission for this IP address is kept, which means refreshed. One that is not
    /// kept is used until it expires, and ends as any other.
    ///
    /// # Errors
    ///
    /// `NotGranted` if the allocations do not relay over this transport, or if no permission for this
    /// address is active or pending. Nothing changes then.
    pub fn set_permission_kept(
        &mut self,
        transport: TransportType,
        peer_addr: IpAddr,
        is_kept: bool,
    ) -> Result<(), KeepError>
        ensures step { (result, self.new) ≡ permission_kept_step transport peer_addr is_kept self.old }
    {
        self.ledger
            .set_permission_kept(transport, peer_addr, is_kept)
    }

    /// Says whether the channel to this peer is kept, as `set_permission_kept` does for a permission.
    ///
    /// # Errors
    ///
    /// `NotGranted` if the allocations do not relay over this transport, or if no channel to this peer
    /// is active or pending. Nothing changes then.
    pub fn set_channel_kept(
        &mut self,
        transport: TransportType,
        peer_addr: SocketAddr,
        is_kept: bool,
    ) -> Result<(), KeepError>
        ensures step { (result, self.new) ≡ channel_kept_step transport peer_addr is_kept self.old }
    {
        self.ledger.set_channel_kept(transport, peer_addr, is_kept)
    }
}
