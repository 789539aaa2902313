//! How a client is given up at once (RFC 8656, section 8.1).

ghost use Rattle.std.specs.Prelude.{◌≡◌, IfOk, OnErr, OnOk};
ghost use Rattle.turn_client_api.specs.Abandon.{abandon_step, abandoned};

use crate::protocol::TurnClientProtocol;
use std::alloc::AllocError;
use turn_client_api::Phase;
use turn_client_requests::delete_request;
use turn_stun::data::Data;
use turn_stun::instant::Instant;
use turn_stun::transport::Transmit;

impl TurnClientProtocol {
    /// Gives the client up: returns the REFRESH with lifetime 0 that deletes all allocations, if the server
    /// has granted one. It waits for nothing, and nobody awaits its response. The client has ended then.
    ///
    /// # Errors
    ///
    /// If memory allocation fails. Nothing changes then.
    pub fn abandon(&mut self, now: Instant) -> Result<Option<Transmit<Data>>, AllocError>
        ensures answer { IfOk result (λ packet. packet ≡ (abandon_step now self.old).0) }
        ensures after { OnOk result (self.new ≡ (abandon_step now self.old).1) }
        ensures no_memory { OnErr result (self.new ≡ self.old) }
        ensures free { OnErr result (self.old.phase ≡ Phase.Allocated) }
    {
        if !self.is_allocated() {
            self.end_at_once();
            return Ok(None);
        }
        let id = self.fresh_id();
        let text = delete_request(self.alloc, &self.auth, id)?;
        let packet = self.outbox.packet(text);
        self.outbox.draw();
        self.end_at_once();
        self.outbox.note_sent(now);
        Ok(Some(packet))
    }

    /// Ends the client without its grants, its requests and what is queued.
    fn end_at_once(&mut self)
        ensures { self.new ≡ abandoned self.old }
    {
        self.phase = Phase::Closed;
        self.ledger.forget(self.alloc);
        self.outbox.end_all();
    }
}
