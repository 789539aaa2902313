//! Requests that await their responses.

ghost use Rattle.std.specs.Prelude.{◌≡◌, ◌+◌, ◌^◌, ◌<◌, IfOk, OnErr};
ghost use Rattle.turn_agent.specs.Agent.{transaction_timeout, sent_again};

use crate::schedule::Schedule;
use std::alloc::{AllocError, Global};
use std::net::SocketAddr;
use turn_stun::data::Data;
use turn_stun::instant::Instant;
use turn_stun::transaction::TransactionId;

/// A request that awaits its response: a transaction of RFC 8489, section 6.
///
/// An agent keeps them and returns none to its caller. Contracts name their fields.
#[derive(Debug, Drop)]
pub struct Transaction {
    /// The ID of the request. No other outstanding request has it.
    pub id: TransactionId,
    /// The address to which the request is sent. A response from another address is not accepted.
    pub to: SocketAddr,
    /// How often the request was retransmitted.
    pub resends: u32,
    /// When it was last sent.
    pub last_send: Instant,
    /// The request, kept for retransmissions.
    pub request: Data,
}

impl Transaction {
    /// When the request is retransmitted or times out.
    pub(crate) fn transaction_timeout(&self, schedule: &Schedule) -> Instant
        ensures { result ≡ transaction_timeout schedule.now.timers schedule.now.transport self.now }
    {
        schedule.end_of_wait(self.last_send, self.resends)
    }

    /// Counts one more send, and returns the bytes of the request.
    pub(crate) fn send_again(&mut self, alloc: Global, now: Instant) -> Result<Data, AllocError>
        requires { self.old.resends + 1 < 2 ^ 32 }
        ensures ok { IfOk result (λ bytes. (bytes ≡ self.old.request) × (self.new ≡ sent_again now self.old)) }
        ensures err { OnErr result (self.new ≡ self.old) }
    {
        let bytes = self.request.as_bytes().to_vec(alloc)?;
        self.resends += 1;
        self.last_send = now;
        Ok(Data::from(bytes))
    }
}
