//! What the caller keeps, and what it lets go.

ghost use Rattle.std.specs.Prelude.{◌≡◌};
ghost use Rattle.turn_client_api.specs.Calls.{channel_kept_step, keep_step, permission_kept_step};
ghost use Rattle.turn_client_api.specs.State.{State};
ghost use Rattle.turn_client_grants.specs.GrantFilter.{holds};
ghost use Rattle.turn_client_grants.specs.Ledger.{SameRoomBut, changed_by, with_ledger};
ghost use Rattle.turn_client_grants.specs.declared.changes.Change.TheVariants.{Keep};

use crate::changes::{Change, has_any};
use crate::grant_filter::GrantFilter;
use crate::kind::is_same_transport;
use crate::ledger::GrantLedger;
use std::net::{IpAddr, SocketAddr};
use turn_client_api::KeepError;
use turn_stun::transport::TransportType;

impl GrantLedger {
    /// Says whether the permission for this IP address is refreshed from now on.
    ///
    /// # Errors
    ///
    /// `NotGranted` if there is none that is pending or active, or if the allocations do not relay over
    /// this transport. Nothing changes then.
    #[tactic(auto, unfolding(crate::specs::GrantFilter::holds))]
    pub fn set_permission_kept(
        &mut self,
        transport: TransportType,
        ip: IpAddr,
        is_kept: bool,
    ) -> Result<(), KeepError>
        ensures state { (s : State) → (result, with_ledger self.new s) ≡ permission_kept_step transport ip is_kept (with_ledger self.old s) }
        ensures room { SameRoomBut 0 0 self.old self.new }
    {
        self.set_kept(transport, &GrantFilter::PermissionOf(ip), is_kept)
    }

    /// Says whether the channel to this peer is refreshed from now on.
    ///
    /// # Errors
    ///
    /// `NotGranted` if there is none that is pending or active, or if the allocations do not relay over
    /// this transport. Nothing changes then.
    #[tactic(auto, unfolding(crate::specs::GrantFilter::holds))]
    pub fn set_channel_kept(
        &mut self,
        transport: TransportType,
        peer: SocketAddr,
        is_kept: bool,
    ) -> Result<(), KeepError>
        ensures state { (s : State) → (result, with_ledger self.new s) ≡ channel_kept_step transport peer is_kept (with_ledger self.old s) }
        ensures room { SameRoomBut 0 0 self.old self.new }
    {
        self.set_kept(transport, &GrantFilter::OpenTo(peer), is_kept)
    }

    /// Says whether these grants are refreshed from now on.
    fn set_kept(
        &mut self,
        transport: TransportType,
        which: &GrantFilter,
        is_kept: bool,
    ) -> Result<(), KeepError>
        ensures state { (s : State) → (result, with_ledger self.new s) ≡ keep_step transport (holds which.now) is_kept (with_ledger self.old s) }
        ensures room { SameRoomBut 0 0 self.old self.new }
    {
        let is_relayed = is_same_transport(transport, self.transport);
        let is_there = has_any(self.table.grants(), which);
        if is_relayed && is_there {
            self.mark_kept(which, is_kept);
            return Ok(());
        }
        Err(KeepError::NotGranted)
    }

    /// Marks these grants: whether they are refreshed from now on.
    fn mark_kept(&mut self, which: &GrantFilter, is_kept: bool)
        ensures state { (s : State) → with_ledger self.new s ≡ changed_by (Keep which.now is_kept) (with_ledger self.old s) }
        ensures room { SameRoomBut 0 0 self.old self.new }
    {
        self.table.change(&Change::Keep(*which, is_kept));
    }
}
