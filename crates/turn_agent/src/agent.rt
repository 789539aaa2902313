//! Requests from first send to response.

ghost use Rattle.std.specs.Prelude.{◌≡◌, ◌<◌, ◌==◌, false, [], None, Some, IsTrue, OnOk, IfOk, IfSome, OnErr, IsOk, length, slice_get};
ghost use Rattle.turn_stun.specs.Message.{type_of, id_of};
ghost use Rattle.turn_stun.specs.MessageType.{class_of, IsResponse};
ghost use Rattle.turn_agent.specs.Schedule.{wait_of, default_timers};
ghost use Rattle.turn_agent.specs.Agent.{Agent, is_outstanding, resends_made, request_sent, due, answers, agent_poll_step, agent_transmit_step, handle_step, IsEnded};
ghost use Rattle.turn_agent.specs.Agent.{IsSilentUntil, HasRequestDue, IsQuietUntil, earliest, transaction_begun, transaction_removed};
ghost use Rattle.std.specs.List.{position};

use crate::front::{Front, first_due};
use crate::ids::{FEW, add_id, remove_id, reserve_one};
use crate::schedule::{RequestTimers, Schedule};
use crate::search::{
    Progress, answered, has_id, least_with, place_of, progress_of, resends_made, soonest_of,
};
use crate::transaction::Transaction;
use std::alloc::{AllocError, Global};
use std::collections::HashSet;
use std::convert::AsSlice;
use std::marker::Model;
use std::net::SocketAddr;
use std::time::Duration;
use turn_stun::data::Data;
use turn_stun::instant::Instant;
use turn_stun::message::Message;
use turn_stun::transaction::TransactionId;
pub use turn_stun::transport::Transmit;
use turn_stun::transport::TransportType;

/// How long the caller of an agent with nothing outstanding waits, in seconds (our choice).
const IDLE_SECONDS: u64 = 9_999;

/// What the caller of an agent is to do next.
#[derive(Clone, Copy, Debug, PartialEq, Eq)]
pub enum StunAgentPollRet {
    /// Nothing is due before this time. If it is not later than now, a request is to be retransmitted
    /// now, unless now is the greatest time, 2^63 - 1 ns.
    WaitUntil(Instant),
    /// The last wait of the request with this ID has ended, and no response was accepted. It is no
    /// longer outstanding.
    TransactionTimedOut(TransactionId),
}

/// The settings of an agent. Contracts describe them by the agent that they make.
#[derive(Debug, Drop)]
pub struct StunAgentBuilder {
    alloc: Global,
    transport: TransportType,
    local_addr: SocketAddr,
    remote_addr: Option<SocketAddr>,
    timers: RequestTimers,
}

impl Model for StunAgentBuilder {
    ghost use Rattle.std.specs.Prelude.{[]};
    ghost use Rattle.turn_agent.specs.Agent.{Agent};

    ghost Value = { Agent };

    ghost view = { λ b. record {
      transport = b.transport;
      local = b.local_addr;
      remote = b.remote_addr;
      timers = b.timers;
      transactions = [];
    } };
}

impl StunAgentBuilder {
    /// Names the server that the agent is for.
    pub fn remote_addr(mut self, addr: SocketAddr) -> StunAgentBuilder
        ensures { result ≡ record self { remote = Some addr } }
    {
        self.remote_addr = Some(addr);
        self
    }

    /// Sets how often a request is sent, and how long a response is awaited: `RequestTimers::new`
    /// describes each of these values.
    pub fn request_retransmits(
        self,
        initial: Duration,
        max: Duration,
        retransmits: u32,
        final_retransmit_timeout: Duration,
    ) -> StunAgentBuilder
        ensures { result ≡ record self {
          timers = record {
            initial = wait_of initial;
            max = wait_of max;
            transmissions = retransmits;
            last = wait_of final_retransmit_timeout;
          };
        } }
    {
        self.request_timers(RequestTimers::new(initial, max, retransmits, final_retransmit_timeout))
    }

    /// Sets how often a request is sent, and how long a response is awaited.
    pub fn request_timers(mut self, timers: RequestTimers) -> StunAgentBuilder
        ensures { result ≡ record self { timers = timers } }
    {
        self.timers = timers;
        self
    }

    /// The agent, with nothing outstanding.
    pub fn build(self) -> StunAgent
        ensures { result ≡ self }
    {
        StunAgent {
            alloc: self.alloc,
            local_addr: self.local_addr,
            remote_addr: self.remote_addr,
            schedule: Schedule::new(self.transport, self.timers),
            transactions: Vec::new(self.alloc),
            ids: HashSet::new(self.alloc),
            front: Front::none(),
            soonest: None,
        }
    }
}

/// Retransmits requests until a response is received or the last wait has ended.
///
/// Many requests may be outstanding at once. Contracts describe the agent by the record `Agent`.
#[derive(Debug, Drop)]
pub struct StunAgent {
    alloc: Global,
    local_addr: SocketAddr,
    remote_addr: Option<SocketAddr>,
    schedule: Schedule,
    transactions: Vec<Transaction>,
    // The IDs of the transactions, if there are more than a few: an ID that is none of them is
    // recognized without a scan.
    ids: HashSet<TransactionId>,
    // The oldest transactions that the search for the next retransmission may leave out.
    front: Front,
    // The earliest time at which a wait ends, if it is known: kept, since computing it goes over
    // all transactions. Each change of a transaction clears it.
    soonest: Option<Instant>,
}

impl Model for StunAgent {
    ghost use Rattle.std.specs.HashSet.{contains};
    ghost use Rattle.std.specs.Prelude.{nat_eq};
    ghost use Rattle.turn_agent.specs.Agent.{Agent};
    ghost use Rattle.turn_agent.specs.Kept.{AreKept};

    ghost Value = { Agent };

    ghost view = { λ a. record {
      transport = a.schedule.transport;
      local = a.local_addr;
      remote = a.remote_addr;
      timers = a.schedule.timers;
      transactions = a.transactions.items;
    } };

    ghost invariant = { λ a. AreKept a.schedule.timers a.schedule.transport a.transactions.items (contains nat_eq a.ids) a.front a.soonest };
}

impl StunAgent {
    /// The settings of an agent over this transport that sends from this address, with the timers of
    /// RFC 8489, section 6.2.1, and with no server named.
    pub fn builder(
        alloc: Global,
        transport: TransportType,
        local_addr: SocketAddr,
    ) -> StunAgentBuilder
        ensures { result ≡ record {
          transport = transport;
          local = local_addr;
          remote = None;
          timers = default_timers;
          transactions = [];
        } }
    {
        StunAgentBuilder {
            alloc,
            transport,
            local_addr,
            remote_addr: None,
            timers: RequestTimers::default(),
        }
    }

    /// The address from which the agent sends.
    pub fn local_addr(&self) -> SocketAddr
        ensures { result ≡ self.now.local }
    {
        self.local_addr
    }

    /// The server that the agent was made for, if one was named.
    pub fn remote_addr(&self) -> Option<SocketAddr>
        ensures { result ≡ self.now.remote }
    {
        self.remote_addr
    }

    /// The transport of the agent's packets.
    pub fn transport(&self) -> TransportType
        ensures { result ≡ self.now.transport }
    {
        self.schedule.transport
    }

    /// Whether a request with this ID awaits its response.
    pub fn is_outstanding(&self, id: TransactionId) -> bool
        ensures { result ≡ is_outstanding id self.now.transactions }
    {
        if self.transactions.len() <= FEW {
            return has_id(&self.transactions, id);
        }
        self.ids.contains(&id)
    }

    /// How often the request with this ID was retransmitted, or `None` if it does not await its response.
    pub fn resends(&self, id: TransactionId) -> Option<u32>
        ensures { result ≡ resends_made id self.now.transactions }
    {
        resends_made(&self.transactions, id)
    }

    /// How many requests await their responses.
    pub fn outstanding(&self) -> usize
        ensures { result ≡ length self.now.transactions }
    {
        self.transactions.len()
    }

    /// The earlier of this time and the earliest time at which a wait ends: when to call `poll`
    /// again, for a caller that itself has something to do at `time`.
    pub fn earliest(&self, time: Instant) -> Instant
        ensures { result ≡ earliest self.now time }
    {
        match self.soonest {
            Some(soonest) => time.min(soonest),
            None => least_with(time, &self.transactions, &self.schedule),
        }
    }

    /// Counts the first send of a request at `now`, and returns its bytes as the packet.
    ///
    /// One copy of the bytes is kept, for retransmissions. The caller ensures that they are a request
    /// with this ID.
    ///
    /// # Errors
    ///
    /// If memory allocation fails, for the copy or for its place among the requests. Nothing changes
    /// then.
    pub fn send_request<T: AsSlice<u8> + Drop>(
        &mut self,
        id: TransactionId,
        bytes: T,
        to: SocketAddr,
        now: Instant,
    ) -> Result<Transmit<T>, AllocError>
        requires fresh { is_outstanding id self.old.transactions ≡ false }
        ensures packet { IfOk result (λ packet. packet ≡ record {
          payload = bytes;
          transport = self.old.transport;
          from = self.old.local;
          to = to;
        }) }
        ensures ok { OnOk result (self.new ≡ request_sent self.old id to now (T.items bytes)) }
        ensures err { OnErr result (self.new ≡ self.old) }
    {
        let kept = bytes.as_slice().to_vec(self.alloc)?;
        reserve_one(&mut self.transactions)?;
        add_id(&mut self.ids, &self.transactions, id)?;
        self.transactions.push_reserved(Transaction {
            id,
            to,
            resends: 0,
            last_send: now,
            request: Data::from(kept),
        });
        self.soonest = None;
        Ok(Transmit::new(bytes, self.schedule.transport, self.local_addr, to))
    }

    /// Begins the waits of the request with this ID at `now`: its first copy is sent then, for a caller
    /// that counted the first send at a later time. Without such a request nothing changes.
    pub fn begin_waits(&mut self, id: TransactionId, now: Instant)
        ensures { self.new ≡ transaction_begun id now self.old }
    {
        if let Some(place) = self.place_of(id) {
            self.transactions[place].last_send = now;
            self.soonest = None;
            self.front = Front::none();
        }
    }

    /// Processes a message received from this address, and returns whether it is accepted: a response is,
    /// once, if its ID is outstanding (RFC 8489, section 6.3) and it came from the address to which the
    /// request was sent (our choice).
    ///
    /// It ends its transaction, so no copy of it is accepted. Requests and indications are always
    /// accepted.
    pub fn handle_stun_message(&mut self, message: &Message<'_>, from: SocketAddr) -> bool
        ensures step { (result, self.new) ≡ handle_step self.old message.now from }
        ensures ended { IsTrue result → IsResponse (class_of (type_of message.now))
            → is_outstanding (id_of message.now) self.new.transactions ≡ false }
    {
        if !message.is_response() {
            return true;
        }
        let id = message.transaction_id();
        match self.answered(id, from) {
            Some(place) => {
                let _answered = self.take_out(place);
                true
            }
            None => false,
        }
    }

    /// Ends the transaction with this ID, whatever the source of its response, and returns whether
    /// there was one. The request is not retransmitted, and nothing is accepted as its response.
    pub fn end(&mut self, id: TransactionId) -> bool
        ensures was { result ≡ is_outstanding id self.old.transactions }
        ensures after { self.new ≡ transaction_removed id self.old }
    {
        match self.place_of(id) {
            Some(place) => {
                let _ended = self.take_out(place);
                true
            }
            None => false,
        }
    }

    /// Ends all transactions: nothing is retransmitted, and nothing is accepted as a response.
    pub fn end_all(&mut self)
        ensures { self.new ≡ record self.old { transactions = [] } }
    {
        self.transactions = Vec::new(self.alloc);
        self.ids = HashSet::new(self.alloc);
        self.front = Front::none();
        self.soonest = None;
    }

    /// Times out one request, or returns the next deadline.
    ///
    /// The oldest request whose last wait has ended times out, one in each call. If there is none, the
    /// result is the earliest time at which a wait ends, or 9999 s from now if nothing is
    /// outstanding (our choice). Before that time `poll_transmit` returns none.
    pub fn poll(&mut self, now: Instant) -> StunAgentPollRet
        ensures step { (result, self.new) ≡ agent_poll_step self.old now }
        ensures ended { IsEnded result self.new }
        // Nothing is due before the returned time. A request is due if that is not later than now,
        // and now is not the greatest time.
        ensures alarm { IsSilentUntil result self.new }
        ensures busy { HasRequestDue result self.new now }
    {
        if let Some(time) = self.quiet_until(now) {
            return StunAgentPollRet::WaitUntil(time);
        }
        // The oldest first, one a call (our choice): in the order in which the caller made its requests.
        match progress_of(&self.transactions, &self.schedule, now) {
            Progress::Over(place) => {
                let given_up = self.take_out(place);
                StunAgentPollRet::TransactionTimedOut(given_up.id)
            }
            Progress::Waiting(time) => {
                self.soonest = Some(time);
                StunAgentPollRet::WaitUntil(time)
            }
            Progress::Idle => {
                StunAgentPollRet::WaitUntil(now.plus(Duration::from_secs(IDLE_SECONDS)))
            }
        }
    }

    /// The oldest request that is due for retransmission: counted as sent at `now`.
    ///
    /// # Errors
    ///
    /// If memory allocation for its bytes fails. The request is still due.
    pub fn poll_transmit(&mut self, now: Instant) -> Result<Option<Transmit<Data>>, AllocError>
        ensures step { IfOk result (λ packet. (packet, self.new) ≡ agent_transmit_step self.old now) }
        ensures err { OnErr result (self.new ≡ self.old) }
        // If nothing is due, no memory is allocated.
        ensures none { due self.old now ≡ None → IsOk result }
    {
        if self.is_quiet(now) {
            return Ok(None);
        }
        let (found, front) = first_due(&self.transactions, &self.schedule, self.front, now);
        self.front = front;
        let Some(place) = found else {
            self.soonest = soonest_of(&self.transactions, &self.schedule);
            return Ok(None);
        };
        let transaction = &mut self.transactions[place];
        // The next wait begins now, not when this one ended (our choice): a late caller does not shorten it.
        let payload = transaction.send_again(self.alloc, now)?;
        let to = transaction.to;
        self.soonest = None;
        Ok(Some(Transmit::new(payload, self.schedule.transport, self.local_addr, to)))
    }

    /// The time before which nothing is due, if it is known and in the future.
    fn quiet_until(&self, now: Instant) -> Option<Instant>
        ensures { IfSome result (IsQuietUntil self.now now) }
    {
        match self.soonest {
            Some(soonest) if now < soonest => Some(soonest),
            _ => None,
        }
    }

    /// Whether it is known that nothing is due now.
    fn is_quiet(&self, now: Instant) -> bool
        ensures { IsTrue result → due self.now now ≡ None }
    {
        match self.quiet_until(now) {
            Some(_time) => true,
            None => false,
        }
    }

    /// Removes the transaction at this place.
    fn take_out(&mut self, place: usize) -> Transaction
        requires { place < length self.old.transactions }
        ensures taken { slice_get self.old.transactions place ≡ Some result }
        ensures after { self.new ≡ transaction_removed result.id self.old }
    {
        self.soonest = None;
        self.front = self.front.without_one();
        let taken = self.transactions.remove(place);
        remove_id(self.alloc, &mut self.ids, self.transactions.len(), taken.id);
        taken
    }

    /// The place of the transaction with this ID.
    fn place_of(&self, id: TransactionId) -> Option<usize>
        ensures { result ≡ position (λ t. t.id == id) self.now.transactions }
    {
        if self.is_stray(id) {
            return None;
        }
        place_of(&self.transactions, id)
    }

    /// The place of the transaction that a response with this ID from this address answers.
    fn answered(&self, id: TransactionId, from: SocketAddr) -> Option<usize>
        ensures { result ≡ position (answers id from) self.now.transactions }
    {
        if self.is_stray(id) {
            return None;
        }
        answered(&self.transactions, id, from)
    }

    /// Whether the set of IDs shows that this is none of them. It is not read for few transactions.
    fn is_stray(&self, id: TransactionId) -> bool
        ensures { IsTrue result → is_outstanding id self.now.transactions ≡ false }
    {
        self.transactions.len() > FEW && !self.ids.contains(&id)
    }
}
