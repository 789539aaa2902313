//! What the caller calls, and what it is answered.

use super::Drive;
use crate::acts::{Act, LastAct, act_of};
use crate::answered::Answered;
use std::net::SocketAddr;
use turn_client_api::TurnClientApi;
use turn_hostile_net::facts::Fact;
use turn_hostile_net::fault::{Fault, expect};
use turn_hostile_net::world::{data_end, server};
use turn_session::session::Session;
use turn_session_book::answers::{Answer, Outcome};
use turn_session_book::events::Event;
use turn_session_book::keys::Key;

/// So many requests of the client may be queued: a further one of the caller waits in the session.
const MAX_QUEUED: usize = 8;

impl Drive {
    /// Makes a drawn call of the caller.
    ///
    /// # Errors
    ///
    /// `Wrong` if the session does what it may not do, and `OutOfMemory` if memory allocation fails.
    pub fn act<C: TurnClientApi>(&mut self, session: &mut Session<C>) -> Result<(), Fault> {
        let act = self.drawn_act();
        if !self.ending.is_up() && self.draws.percent(80) {
            return Ok(());
        }
        let queued = session.client().queued_requests();
        let answered = match self.call(session, act) {
            Ok(answered) => answered,
            Err(fault) => return Err(fault),
        };
        if queued >= MAX_QUEUED {
            expect(
                session.client().queued_requests() <= queued,
                "more than eight requests of the caller are queued",
            )?;
        }
        self.note(act, answered)
    }

    /// A drawn call. A data connection is closed to its own peer, if it was opened.
    fn drawn_act(&mut self) -> Act {
        match act_of(&mut self.draws, self.kind, self.ends) {
            Act::Close(end, peer) => {
                Act::Close(end, self.model.offers.peer_at(end).unwrap_or(peer))
            }
            act => act,
        }
    }

    /// Makes this call.
    fn call<C: TurnClientApi>(
        &mut self,
        session: &mut Session<C>,
        act: Act,
    ) -> Result<Answered, Fault> {
        let words = format!(in self.alloc; "{act}")?;
        self.make(session, words.as_str())
    }

    /// Notes what a call of the caller was answered.
    fn note(&mut self, act: Act, answered: Answered) -> Result<(), Fault> {
        match (act, answered) {
            (Act::Request(key, _), Answered::Answer(answer)) => self.note_request(key, answer),
            (Act::Send(_, peer, _), Answered::Answer(answer)) => {
                self.note_request(Key::Permission(peer.ip()), answer)
            }
            (Act::Send(_, peer, _), Answered::Packet(_, to)) => {
                expect(to == server(), "data is sent elsewhere")?;
                expect(
                    self.model.facts.has(Fact::Permitted(peer.ip())),
                    "data is sent to a peer that is not permitted",
                )
            }
            (Act::Look(key), Answered::Answer(Answer::Granted)) => self.expect_granted(key),
            (Act::Have(_, ip), Answered::Yes) => self.expect_granted(Key::Permission(ip)),
            (Act::Keep(key, is_kept), Answered::Yes) => self.grants.mark(key, is_kept),
            (Act::Check, Answered::Answer(Answer::Ticket(number))) => {
                self.tickets.give_check(number, self.now)
            }
            (Act::Last(last), _) => {
                self.note_last(last);
                Ok(())
            }
            _ => Ok(()),
        }
    }

    /// Notes what a request for this key was answered.
    fn note_request(&mut self, key: Key, answer: Answer) -> Result<(), Fault> {
        if !matches!(answer, Answer::Ended(_)) {
            self.grants.mark(key, true)?;
        }
        match answer {
            Answer::Granted => {
                self.expect_granted(key)?;
                self.grants.grant(key)
            }
            Answer::Ticket(number) => self.tickets.give(number, key),
            _ => Ok(()),
        }
    }

    /// The session ends after this.
    fn note_last(&mut self, last: LastAct) {
        match last {
            LastAct::Noise => {}
            _ => self.ending.leave(self.now),
        }
    }

    /// The server has granted this key.
    fn expect_granted(&self, key: Key) -> Result<(), Fault> {
        expect(
            self.model.facts.has(fact_of(key)),
            "something is granted that the server has not granted",
        )
    }

    /// Notes an event.
    ///
    /// # Errors
    ///
    /// `Wrong` if it may not come, and `OutOfMemory` if memory allocation fails.
    pub fn note_event(&mut self, event: &Event) -> Result<(), Fault> {
        self.ending.report(*event, self.now)?;
        match event {
            Event::Outcome(number, key, outcome) => self.note_outcome(*number, *key, outcome),
            Event::Lost(key, _) => self.note_end(*key, true),
            Event::Expired(key) => self.note_end(*key, false),
            Event::Refreshed(key) => self.expect_refreshed(*key),
            Event::Checked(number, ..) => self.tickets.settle_check(*number),
            Event::Up(relayed, _) => self.expect_relayed(*relayed),
            Event::Also(relayed) => self.expect_relayed(*relayed),
            Event::Over(_) => expect(
                self.tickets.is_empty(),
                "a request has no outcome at the end",
            ),
            _ => Ok(()),
        }
    }

    /// A grant was refreshed, or the allocation.
    fn expect_refreshed(&self, key: Option<Key>) -> Result<(), Fault> {
        match key {
            Some(key) => self.expect_granted(key),
            None => Ok(()),
        }
    }

    /// The server has granted this relayed address.
    fn expect_relayed(&self, relayed: SocketAddr) -> Result<(), Fault> {
        expect(
            self.model.facts.has(Fact::Relayed(relayed)),
            "a relayed address was not granted",
        )
    }

    fn note_outcome(&mut self, number: u32, key: Key, outcome: &Outcome) -> Result<(), Fault> {
        self.tickets.settle(number, key)?;
        if !matches!(outcome, Outcome::Granted) {
            return Ok(());
        }
        self.expect_granted(key)?;
        match key {
            Key::Connect(_) => Ok(()),
            _ => self.grants.grant(key),
        }
    }

    /// A grant has ended, which the caller has kept or let go. The server had granted it.
    fn note_end(&mut self, key: Key, was_kept: bool) -> Result<(), Fault> {
        expect(
            self.model.facts.was_granted(fact_of(key)),
            "something has ended that was never granted",
        )?;
        self.grants.end(key, was_kept)
    }

    /// Opens the first data connection that is offered, or fails to.
    ///
    /// # Errors
    ///
    /// `Wrong` if the session does what it may not do, and `OutOfMemory` if memory allocation fails.
    pub fn open_next<C: TurnClientApi>(&mut self, session: &mut Session<C>) -> Result<(), Fault> {
        if self.offered.is_empty() {
            return Ok(());
        }
        let (id, peer) = self.offered.remove(0);
        self.open(session, id, peer)
    }

    /// A data connection is to be opened: the caller opens it now or later, or fails to.
    ///
    /// # Errors
    ///
    /// `Wrong` if it was not offered, or the session does what it may not do, and `OutOfMemory` if memory allocation fails.
    pub fn offer<C: TurnClientApi>(
        &mut self,
        session: &mut Session<C>,
        id: u32,
        peer: SocketAddr,
    ) -> Result<(), Fault> {
        if self.draws.percent(20) {
            return Ok(self.offered.push((id, peer))?);
        }
        self.open(session, id, peer)
    }

    fn open<C: TurnClientApi>(
        &mut self,
        session: &mut Session<C>,
        id: u32,
        peer: SocketAddr,
    ) -> Result<(), Fault> {
        let end = if self.draws.percent(20) {
            None
        } else {
            Some(data_end(self.ends))
        };
        self.ends = self.ends.saturating_add(1);
        expect(
            self.model.offers.take(id, peer, end),
            "a data connection was not offered",
        )?;
        match self.call(session, Act::Socket(id, peer, end)) {
            Ok(_) => Ok(()),
            Err(fault) => Err(fault),
        }
    }

    /// Whether the caller is to open a data connection to this key's peer.
    pub fn is_offered(&self, key: Key) -> bool {
        let Key::Connect(to) = key else {
            return false;
        };
        for (_, peer) in self.offered.iter() {
            if *peer == to {
                return true;
            }
        }
        false
    }
}

/// What the server grants for this key.
fn fact_of(key: Key) -> Fact {
    match key {
        Key::Permission(ip) => Fact::Permitted(ip),
        Key::Channel(peer) => Fact::ChannelTo(peer),
        Key::Connect(peer) => Fact::ConnectionTo(peer),
    }
}
