//! Events for the caller, and the end of a client.

ghost use Rattle.std.specs.Prelude.{◌≡◌, [], IsOk, OnOk, OnErr};
ghost use Rattle.turn_client_api.specs.Answers.{event_step};
ghost use Rattle.turn_client_api.specs.Calls.{FailsFamilies, is_closed, protocol_error_step};
ghost use Rattle.turn_client_api.specs.Effect.{closed, fail_all};

use crate::protocol::TurnClientProtocol;
use std::alloc::AllocError;
use turn_client_api::{Phase, TurnEvent};

impl TurnClientProtocol {
    /// The next event, or none. Allocates no memory.
    pub fn poll_event(&mut self) -> Option<TurnEvent>
        ensures answer { result ≡ (event_step self.old).0 }
        ensures after { self.new ≡ (event_step self.old).1 }
    {
        self.ledger.next_event()
    }

    /// Reports that the control connection failed: each address family that is still requested fails,
    /// and the client has ended.
    ///
    /// # Errors
    ///
    /// If memory allocation for the events fails. The client has ended all the same. If no family is
    /// requested, or the client had ended, there is no event, and no memory is allocated.
    pub fn protocol_error(&mut self) -> Result<(), AllocError>
        ensures ok { OnOk result (self.new ≡ protocol_error_step self.old) }
        ensures err { OnErr result (self.new ≡ closed self.old) }
        ensures free { OnErr result (FailsFamilies self.old) }
    {
        if self.is_closed() {
            return Ok(());
        }
        self.close_failing()
    }

    /// Whether the client has ended.
    fn is_closed(&self) -> bool
        ensures { result ≡ is_closed self.now.phase }
    {
        self.phase == Phase::Closed
    }

    /// Queues a failure event for each family that is still requested, and ends the client.
    ///
    /// # Errors
    ///
    /// If memory allocation for the events fails. The client has ended all the same.
    pub(crate) fn close_failing(&mut self) -> Result<(), AllocError>
        ensures ok { OnOk result (self.new ≡ closed (fail_all self.old)) }
        ensures err { OnErr result (self.new ≡ closed self.old) }
        ensures free { self.old.families ≡ [] → IsOk result }
    {
        let failed = self.fail_all();
        self.close();
        failed
    }

    /// Queues a failure event for each family that is still requested, and requests none any more.
    ///
    /// # Errors
    ///
    /// If memory allocation for the events fails. Nothing changes then. If no family is requested, no
    /// memory is allocated.
    pub(crate) fn fail_all(&mut self) -> Result<(), AllocError>
        ensures ok { OnOk result (self.new ≡ fail_all self.old) }
        ensures err { OnErr result (self.new ≡ self.old) }
        ensures free { self.old.families ≡ [] → IsOk result }
    {
        if self.families.as_slice().is_empty() {
            return Ok(());
        }
        self.ledger.reserve(0, 0, self.families.len(), 0)?;
        self.ledger.fail_families(self.families.as_slice());
        self.families.clear();
        Ok(())
    }

    /// Ends the client: no response to an ALLOCATE is awaited any more.
    pub fn close(&mut self)
        ensures { self.new ≡ closed self.old }
    {
        self.phase = Phase::Closed;
        self.ledger.unlist_allocates();
    }
}
