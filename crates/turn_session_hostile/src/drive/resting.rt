//! What is due, and the times at which nothing is.

use super::Drive;
use crate::answered::Answered;
use turn_client_api::TurnClientApi;
use turn_hostile_net::facts::Fact;
use turn_hostile_net::fault::{Fault, expect};
use turn_session::session::Session;
use turn_session_book::held::HeldGrant;
use turn_session_book::keys::{Key, permission_for};

/// So often a session is polled at one time at most: it notes what has ended one after the other.
const POLLS: u32 = 200;

/// More keys than the caller speaks of.
const KEYS: usize = 64;

impl Drive {
    /// Polls, reports and sends until nothing is due, and goes on to the time at which something is due or arrives.
    ///
    /// # Errors
    ///
    /// `Wrong` if the session does what it may not do, and `OutOfMemory` if memory allocation fails.
    pub fn settle<C: TurnClientApi>(&mut self, session: &mut Session<C>) -> Result<(), Fault> {
        for _ in 0..POLLS {
            if self.poll(session)? {
                return self.rest(session);
            }
        }
        Err(Fault::Wrong("a session is polled without an end at one time"))
    }

    /// Polls, takes all events, and sends what is due. Returns whether nothing more is due now.
    fn poll<C: TurnClientApi>(&mut self, session: &mut Session<C>) -> Result<bool, Fault> {
        let answered = match self.make(session, "poll") {
            Ok(answered) => answered,
            Err(fault) => return Err(fault),
        };
        match &answered {
            Answered::Open(id, peer) => self.offer(session, *id, *peer)?,
            Answered::Close(end) => expect(
                self.model.offers.peer_at(*end).is_some(),
                "a connection is to be closed that was not opened",
            )?,
            _ => {}
        }
        self.take_events(session)?;
        let is_sent = self.transmit(session)?;
        match &answered {
            Answered::Wait(until) => {
                self.until = *until;
                Ok(*until > self.now && !is_sent)
            }
            Answered::Over => {
                self.until = u64::MAX;
                expect(
                    self.ending.is_over(),
                    "a session has ended without an event",
                )?;
                Ok(true)
            }
            _ => Ok(false),
        }
    }

    /// Nothing is due now: what should have happened by now has happened. Time goes on.
    fn rest<C: TurnClientApi>(&mut self, session: &mut Session<C>) -> Result<(), Fault> {
        self.model.facts.sweep(self.now);
        if !self.ending.is_over() {
            expect(
                !self.ending.is_late(self.now),
                "a session that leaves has not ended in time",
            )?;
            expect(
                !self.tickets.has_late_check(self.now),
                "a check has no result in time",
            )?;
            expect(
                !self.tickets.has_twins(),
                "a key has two requests at a time",
            )?;
            self.check_tickets(session)?;
            self.check_grants(session)?;
        }
        self.sleep()
    }

    /// Each request without an outcome is queued, awaited, or waits for a data connection that the caller is to open.
    fn check_tickets<C: TurnClientApi>(&self, session: &Session<C>) -> Result<(), Fault> {
        if session.client().queued_requests() > 0 {
            return Ok(());
        }
        for ticket in self.tickets.open() {
            expect(
                self.sends.is_awaited(ticket.key, self.now) || self.is_offered(ticket.key),
                "a request has no outcome when its waits are over",
            )?;
        }
        Ok(())
    }

    /// What is listed is active, and what was reported to be granted is listed.
    fn check_grants<C: TurnClientApi>(&mut self, session: &Session<C>) -> Result<(), Fault> {
        if self.ending.is_leaving() {
            return Ok(());
        }
        let listed = session.grants();
        for grant in listed {
            let is_active = match grant.key {
                Key::Permission(ip) => session.have_permission(self.kind.relays, ip),
                Key::Channel(peer) => self.model.facts.expiry(Fact::ChannelTo(peer)) > self.now,
                Key::Connect(_) => false,
            };
            expect(is_active, "what is listed is not active")?;
        }
        self.forget_marks(listed);
        self.grants.settle(listed)
    }

    /// What the caller has said of a key counts no more if that is neither listed nor requested.
    fn forget_marks(&mut self, listed: &[HeldGrant]) {
        for place in 0..KEYS {
            if let Some(key) = self.grants.marked(KEYS.saturating_sub(place)) {
                if !self.is_known(listed, key) {
                    self.grants.forget(key);
                }
            }
        }
    }

    /// Whether this key is listed, or requested for itself or for another.
    fn is_known(&self, listed: &[HeldGrant], key: Key) -> bool {
        for ticket in self.tickets.open() {
            if ticket.key == key || permission_for(ticket.key) == key {
                return true;
            }
        }
        for grant in listed {
            if grant.key == key {
                return true;
            }
        }
        false
    }

    /// Goes on to the time at which something is due or arrives, mostly. A session that is polled before says the same again.
    fn sleep(&mut self) -> Result<(), Fault> {
        if !self.draws.percent(90) {
            return Ok(());
        }
        let due = self.network.wire.next_due();
        let next = self.until.min(due).max(self.now);
        if next == u64::MAX {
            return Ok(());
        }
        let early = self
            .now
            .saturating_add(self.draws.below(next.saturating_sub(self.now)));
        if early < next && !self.ending.is_over() {
            self.trace.rest(early, self.until)?;
        }
        self.now = next;
        Ok(())
    }
}
