//! What a client sends next (RFC 8489, section 6.2; RFC 8656, sections 7 to 12).

ghost use Rattle.std.specs.List.{list_any};
ghost use Rattle.std.specs.Prelude.{◌≡◌, ◌≤◌, ◌^◌, ◌==◌, false, nat_le, IfOk, None, IsSome, is_some, OnErr, OnOk, Some};
ghost use Rattle.turn_agent.specs.Agent.{is_outstanding};
ghost use Rattle.turn_client_api.specs.Due.{is_paused, keepalive_times};
ghost use Rattle.turn_client_api.specs.Effect.{closed};
ghost use Rattle.turn_client_api.specs.Requests.{fresh_id};
ghost use Rattle.turn_client_api.specs.Transmit.{idle_step, keepalive_step, next_queued, next_refresh, next_transmit, queue_step, refresh_step, refreshes_first, sent_at_once};
ghost use Rattle.turn_client_api.specs.Transmit.{transmit_step};
ghost use Rattle.turn_client_core.specs.Sending.{placed_step, waiting_step};
ghost use Rattle.turn_client_core.specs.Wanted.{SendWantsMemory};

use crate::protocol::TurnClientProtocol;
use std::alloc::AllocError;
use turn_client_api::{Phase, Purpose};
use turn_client_grants::Purposes;
use turn_client_requests::{binding_indication, first_allocate};
use turn_stun::data::Data;
use turn_stun::instant::Instant;
use turn_stun::transaction::TransactionId;
use turn_stun::transport::Transmit;

impl TurnClientProtocol {
    /// The next packet to send, or none. Call it until it returns none.
    ///
    /// # Errors
    ///
    /// If memory allocation fails. The client has ended then, and nothing else has changed. A queued packet
    /// is moved out, which allocates none.
    pub fn poll_transmit(&mut self, now: Instant) -> Result<Option<Transmit<Data>>, AllocError>
        requires now_in_range { now ≤ 2 ^ 62 }
        ensures answer { IfOk result (λ packet. packet ≡ (transmit_step now self.old).0) }
        ensures after { OnOk result (self.new ≡ (transmit_step now self.old).1) }
        ensures no_memory { OnErr result (self.new ≡ closed self.old) }
        // Memory is needed only for a packet that is due, and was not queued.
        ensures free { OnErr result (IsSome (next_transmit now self.old)) }
        ensures wanted { OnErr result (SendWantsMemory now self.old) }
    {
        match self.next_packet(now) {
            Ok(packet) => Ok(packet),
            Err(refusal) => {
                self.close();
                Err(refusal)
            }
        }
    }

    /// A retransmission that is due, a queued packet, or the next request that the client has to make.
    fn next_packet(&mut self, now: Instant) -> Result<Option<Transmit<Data>>, AllocError>
        ensures step { IfOk result (λ packet. (packet, self.new) ≡ transmit_step now self.old) }
        ensures err { OnErr result (self.new ≡ self.old) }
        ensures free { OnErr result (IsSome (transmit_step now self.old).0) }
        ensures wanted { OnErr result (SendWantsMemory now self.old) }
    {
        match self.outbox.resend(now)? {
            Some(packet) => Ok(Some(packet)),
            None => self.send_waiting(now),
        }
    }

    /// If no retransmission is due: within the pause only a reply, and else the next packet.
    fn send_waiting(&mut self, now: Instant) -> Result<Option<Transmit<Data>>, AllocError>
        ensures step { IfOk result (λ packet. (packet, self.new) ≡ waiting_step now self.old) }
        ensures err { OnErr result (self.new ≡ self.old) }
        ensures free { OnErr result (IsSome (waiting_step now self.old).0) }
        ensures running { OnErr result (is_paused now self.old ≡ false) }
        ensures wanted { OnErr result (next_queued now self.old ≡ None) }
    {
        let is_paused = self.is_paused(now);
        if is_paused {
            return Ok(self.outbox.take_reply());
        }
        self.send_next(now)
    }

    /// Outside the pause: a refresh that goes before what is queued, the first queued packet that has not ended, or
    /// the next request that the client has to make.
    fn send_next(&mut self, now: Instant) -> Result<Option<Transmit<Data>>, AllocError>
        ensures step { IfOk result (λ packet. (packet, self.new) ≡ queue_step now self.old) }
        ensures err { OnErr result (self.new ≡ self.old) }
        ensures free { OnErr result (IsSome (queue_step now self.old).0) }
        ensures wanted { OnErr result (next_queued now self.old ≡ None) }
    {
        let refreshes_first = self.refreshes_first(now);
        if refreshes_first {
            return self.send_asked(now);
        }
        match self.next_place() {
            Some(place) => Ok(self.send_queued(place, now)),
            None => self.send_asked(now),
        }
    }

    /// The queued packet at this place. Those before it, which have ended, are dropped.
    fn send_queued(&mut self, place: usize, now: Instant) -> Option<Transmit<Data>>
        ensures { (result, self.new) ≡ placed_step place now self.old }
    {
        let timed_from_send = self.config.requests_timed_from_send();
        self.outbox.drop_front(place);
        self.outbox.take_front(timed_from_send, now)
    }

    /// Whether a refresh is due that goes before what is queued: so it does if requests are timed from when they
    /// are sent, since a burst of them may take longer than the grant lasts.
    fn refreshes_first(&self, now: Instant) -> bool
        ensures { result ≡ refreshes_first now self.now }
    {
        self.config.requests_timed_from_send() && self.is_allocated() && self.is_refresh_due(now)
    }

    /// Whether the time to refresh a grant has come.
    fn is_refresh_due(&self, now: Instant) -> bool
        ensures { result ≡ is_some (next_refresh now self.now) }
    {
        let early = self.config.refresh_ahead();
        self.ledger.table().first_refresh(now, early).is_some()
    }

    /// The next request that the client has to make: a new client sends the first ALLOCATE, and one
    /// with allocations keeps them.
    fn send_asked(&mut self, now: Instant) -> Result<Option<Transmit<Data>>, AllocError>
        ensures step { IfOk result (λ packet. (packet, self.new) ≡ idle_step self.old.phase now self.old) }
        ensures err { OnErr result (self.new ≡ self.old) }
        ensures free { OnErr result (IsSome (idle_step self.old.phase now self.old).0) }
    {
        match self.phase {
            Phase::New => self.send_first(now),
            Phase::Allocated => self.refresh(now),
            Phase::Requesting => Ok(None),
            Phase::Authenticating => Ok(None),
            Phase::Closed => Ok(None),
        }
    }

    /// The first ALLOCATE, which is not signed. Reserves the room for its failure events too, so that
    /// `poll` allocates no memory while this request awaits its response.
    fn send_first(&mut self, now: Instant) -> Result<Option<Transmit<Data>>, AllocError>
        ensures step { IfOk result (λ packet. (packet, self.new) ≡ idle_step Phase.New now self.old) }
        ensures err { OnErr result (self.new ≡ self.old) }
    {
        let id = self.fresh_id();
        let text = first_allocate(
            self.alloc,
            self.ledger.transport(),
            self.families.as_slice(),
            id,
        )?;
        let from = self.local_addr();
        // Room for its failure events too (our choice): a stray packet ends no client that is short of memory.
        self.ledger.reserve(0, 2, self.families.len(), 0)?;
        let packet = self.outbox.begin(id, text, from, now)?;
        // Drawn once the rest has succeeded (our choice): a refusal leaves the source of IDs too.
        self.outbox.draw();
        self.outbox.note_sent(now);
        self.ledger
            .ask(id, &[], &Purposes::one(Purpose::ForAllocation));
        self.phase = Phase::Requesting;
        Ok(Some(packet))
    }

    /// The request for the first grant that is due for a refresh, and if none is, what keeps the path to
    /// the server alive.
    fn refresh(&mut self, now: Instant) -> Result<Option<Transmit<Data>>, AllocError>
        requires { self.old.phase ≡ Phase.Allocated }
        ensures step { IfOk result (λ packet. (packet, self.new) ≡ refresh_step now self.old) }
        ensures err { OnErr result (self.new ≡ self.old) }
        ensures free { OnErr result (IsSome (refresh_step now self.old).0) }
    {
        let ahead = self.config.refresh_ahead();
        let Some(purpose) = self.ledger.table().first_refresh(now, ahead) else {
            return self.keep_alive(now);
        };
        let id = self.fresh_id();
        let text = self.text_for(&purpose, id)?;
        let packet = self.send_at_once(id, text, &purpose, now)?;
        Ok(Some(packet))
    }

    /// The indication that keeps the path to the server alive, if its time has come.
    fn keep_alive(&mut self, now: Instant) -> Result<Option<Transmit<Data>>, AllocError>
        ensures step { IfOk result (λ packet. (packet, self.new) ≡ keepalive_step now self.old) }
        ensures err { OnErr result (self.new ≡ self.old) }
        ensures free { OnErr result (IsSome (keepalive_step now self.old).0) }
    {
        if !self.is_keepalive_due(now) {
            return Ok(None);
        }
        let id = self.fresh_id();
        let text = binding_indication(self.alloc, id)?;
        self.outbox.draw();
        self.outbox.note_sent(now);
        Ok(Some(self.outbox.packet(text)))
    }

    /// Whether the time to keep the path to the server alive has come.
    fn is_keepalive_due(&self, now: Instant) -> bool
        ensures { result ≡ list_any (λ time. nat_le time now) (keepalive_times self.now) }
    {
        match self.keepalive_time() {
            Some(time) => time <= now,
            None => false,
        }
    }

    /// Makes a request with this ID, the next one, for this purpose, which is sent at once.
    ///
    /// # Errors
    ///
    /// `AllocError` if memory allocation fails. Nothing changes then.
    fn send_at_once(
        &mut self,
        id: TransactionId,
        text: Data,
        purpose: &Purpose,
        now: Instant,
    ) -> Result<Transmit<Data>, AllocError>
        requires fresh { id ≡ fresh_id self.old }
        requires unsent { is_outstanding id self.old.transactions ≡ false }
        requires unlisted { list_any (λ l. l.id == id) self.old.listed ≡ false }
        ensures step { IfOk result (λ packet. (Some packet, self.new) ≡ sent_at_once text purpose.now now self.old) }
        ensures err { OnErr result (self.new ≡ self.old) }
    {
        let from = self.local_addr();
        self.ledger.reserve(0, 2, 0, 0)?;
        let packet = self.outbox.begin(id, text, from, now)?;
        self.outbox.draw();
        self.outbox.note_sent(now);
        self.ledger.ask(id, &[], &Purposes::one(*purpose));
        Ok(packet)
    }
}
