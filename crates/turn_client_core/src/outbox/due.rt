//! When a request is to be sent, retransmitted or timed out (RFC 8489, section 6.2).

ghost use Rattle.std.specs.Duration.{as_nanos};
ghost use Rattle.std.specs.Option.{option_map_or};
ghost use Rattle.std.specs.Prelude.{◌≡◌};
ghost use Rattle.turn_client_api.specs.State.{later_by};
ghost use Rattle.turn_client_core.specs.Sending.{give_up_step};

use crate::outbox::Outbox;
use std::time::Duration;
use turn_agent::agent::StunAgentPollRet;
use turn_stun::instant::Instant;
use turn_stun::transaction::TransactionId;

impl Outbox {
    /// The time so long after the last packet that started a pause.
    pub(crate) fn after_last(&self, wait: Duration) -> Instant
        ensures { result ≡ option_map_or (later_by (as_nanos wait)) self.now.last_send 0 }
    {
        match self.last_send {
            Some(time) => time.plus(wait),
            None => Instant::ZERO,
        }
    }

    /// Times out the oldest request whose last wait has ended, if there is one. It is no longer
    /// outstanding.
    pub(crate) fn give_up(&mut self, now: Instant) -> Option<TransactionId>
        ensures { (result, self.new) ≡ give_up_step now self.old }
    {
        match self.agent.poll(now) {
            StunAgentPollRet::WaitUntil(_time) => None,
            StunAgentPollRet::TransactionTimedOut(id) => Some(id),
        }
    }
}
