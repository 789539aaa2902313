//! How a client deletes its allocations (RFC 8656, section 8).

ghost use Rattle.std.specs.Prelude.{◌≡◌, IsSome, OnErr, OnOk};
ghost use Rattle.turn_client_api.specs.Answers.{Deletes};
ghost use Rattle.turn_client_api.specs.Calls.{delete_step, deleted};

use crate::protocol::TurnClientProtocol;
use std::alloc::AllocError;
use turn_client_api::DeleteError;
use turn_client_requests::delete_request;
use turn_stun::instant::Instant;

impl TurnClientProtocol {
    /// Deletes all allocations: queues a REFRESH with lifetime 0 (RFC 8656, section 8.1). Permissions
    /// and channels are removed at once. Pending grants may still be granted.
    ///
    /// # Errors
    ///
    /// `NoAllocation` if the server has not granted an allocation yet, or if the client has ended
    /// other than by the expiry of its allocations. `OutOfMemory`. Nothing changes then.
    pub fn delete(&mut self, now: Instant) -> Result<(), DeleteError>
        ensures step { Deletes result self.old self.new (delete_step now self.old) }
    {
        if !self.is_allocated() {
            return Err(DeleteError::NoAllocation);
        }
        match self.queue_delete(now) {
            Ok(()) => Ok(()),
            Err(_) => Err(DeleteError::OutOfMemory),
        }
    }

    /// Queues one REFRESH that deletes all allocations.
    ///
    /// # Errors
    ///
    /// `AllocError` if memory allocation fails. Nothing changes then.
    fn queue_delete(&mut self, now: Instant) -> Result<(), AllocError>
        requires { IsSome self.old.held }
        ensures ok { OnOk result (self.new ≡ deleted now self.old) }
        ensures err { OnErr result (self.new ≡ self.old) }
    {
        let id = self.fresh_id();
        let from = self.local_addr();
        let waits_from = self.waits_from(now);
        let text = delete_request(self.alloc, &self.auth, id)?;
        self.ledger.reserve(0, 2, 0, 0)?;
        self.outbox.ask(id, text, from, waits_from)?;
        self.ledger.queue_delete(id, now);
        Ok(())
    }
}
