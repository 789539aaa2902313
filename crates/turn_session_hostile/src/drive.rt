//! One drawn run: the caller, whose calls and their answers are checked, each one.

mod acting;
mod receiving;
mod resting;

use crate::answered::Answered;
use crate::counts::Counts;
use crate::ending::Ending;
use crate::grants::Grants;
use crate::own::own_request_in;
use crate::sends::Sends;
use crate::server::Server;
use crate::setup::Setup;
use crate::tickets::Tickets;
use crate::trace::Trace;
use std::alloc::Global;
use std::net::SocketAddr;
use turn_client_api::TurnClientApi;
use turn_hostile_net::draws::Draws;
use turn_hostile_net::fault::{Fault, expect};
use turn_hostile_net::model::Model;
use turn_hostile_net::network::Network;
use turn_hostile_net::request::request_in;
use turn_hostile_net::world::{Kind, MS, SECOND, server};
use turn_session::session::Session;
use turn_session_book::answers::Answer;
use turn_types::TransportType;

/// More than a session ever sends or reports at once here.
const MANY: u32 = 4_096;

/// So much is done after the end of a session.
const AFTER_END: u32 = 24;

/// A caller, its network and server, and what is known of the session.
#[derive(Drop)]
pub struct Drive {
    alloc: Global,
    kind: Kind,
    draws: Draws,
    /// What was called and what was answered.
    pub trace: Trace,
    network: Network,
    server: Server,
    /// What the server has granted.
    model: Model,
    tickets: Tickets,
    sends: Sends,
    grants: Grants,
    ending: Ending,
    /// What happened.
    pub counts: Counts,
    /// The time, in nanoseconds.
    now: u64,
    /// The time until which the session last said that nothing is due.
    until: u64,
    /// How many data connections were offered.
    ends: u16,
    /// Data connections that the caller is to open.
    offered: Vec<(u32, SocketAddr)>,
    /// How much was done since the session has ended.
    after_end: u32,
}

impl Drive {
    /// The caller of a new session of this kind, and all that is drawn for it.
    ///
    /// # Errors
    ///
    /// If memory allocation fails.
    pub fn new(alloc: Global, kind: Kind, setup: Setup, seed: u64) -> Result<Drive, Fault> {
        let mut draws = Draws::new(seed.saturating_add(1_000_000));
        Ok(Drive {
            alloc,
            kind,
            trace: Trace::new(alloc, kind.relays == TransportType::Tcp),
            network: Network::new(alloc, seed),
            server: Server::new(&mut draws),
            draws,
            model: Model::new(alloc, kind)?,
            tickets: Tickets::new(alloc),
            sends: Sends::new(alloc, kind.transport),
            grants: Grants::new(alloc),
            ending: Ending::new(setup.leave_wait),
            counts: Counts::default(),
            now: SECOND,
            until: SECOND,
            ends: 0,
            offered: Vec::new(alloc),
            after_end: 0,
        })
    }

    /// Does one drawn thing.
    ///
    /// # Errors
    ///
    /// `Wrong` if the session does what it may not do, and `OutOfMemory` if memory allocation fails.
    pub fn step<C: TurnClientApi>(&mut self, session: &mut Session<C>) -> Result<(), Fault> {
        self.count_after_end();
        match self.draws.below(100) {
            0..=27 => self.settle(session),
            28..=53 => self.arrive(session),
            54..=74 => self.act(session),
            75..=89 => {
                let facts = &self.model.facts;
                self.network.stray(self.alloc, self.kind, facts, self.now)
            }
            90..=92 => {
                self.jump();
                Ok(())
            }
            93 => {
                self.server.change(&mut self.draws, self.now);
                Ok(())
            }
            94 | 95 => self.open_next(session),
            96 | 97 => self.transmit_next(session),
            _ => self.take_events(session),
        }
    }

    /// Whether the run is over: the session has ended a while ago.
    pub fn is_done(&self) -> bool {
        self.after_end >= AFTER_END
    }

    fn count_after_end(&mut self) {
        if self.ending.is_over() {
            self.after_end = self.after_end.saturating_add(1);
        }
    }

    /// Time passes while the caller is busy.
    fn jump(&mut self) {
        let some = self.draws.below(10_000).saturating_mul(MS);
        let long = match self.draws.below(8) {
            0 => some.saturating_mul(20),
            1 | 2 => some,
            _ => some / 10,
        };
        self.now = self.now.saturating_add(long);
    }

    /// Makes this call now, and checks what it is answered.
    fn make<C: TurnClientApi>(
        &mut self,
        session: &mut Session<C>,
        words: &str,
    ) -> Result<Answered, Fault> {
        let answered = match self.trace.make(session, self.now, words) {
            Ok(answered) => answered,
            Err(fault) => return Err(fault),
        };
        expect(
            self.ending.permits(&answered),
            "something is reported after the end",
        )?;
        match &answered {
            Answered::Event(event) => {
                self.counts.count(*event);
                self.note_event(event)?;
            }
            Answered::Answer(Answer::Ended(why)) => self.ending.name(*why)?,
            _ => {}
        }
        Ok(answered)
    }

    /// Takes all events.
    fn take_events<C: TurnClientApi>(&mut self, session: &mut Session<C>) -> Result<(), Fault> {
        for _ in 0..MANY {
            match self.make(session, "event") {
                Ok(Answered::Event(_)) => {}
                Ok(_) => break,
                Err(fault) => return Err(fault),
            }
        }
        Ok(())
    }

    /// Sends what is due. Returns whether there was something.
    fn transmit<C: TurnClientApi>(&mut self, session: &mut Session<C>) -> Result<bool, Fault> {
        for count in 0..MANY {
            if !self.transmit_one(session)? {
                return Ok(count > 0);
            }
        }
        Ok(true)
    }

    /// Sends the next packet, if one is due.
    fn transmit_next<C: TurnClientApi>(&mut self, session: &mut Session<C>) -> Result<(), Fault> {
        self.transmit_one(session)?;
        Ok(())
    }

    /// Sends the next packet. Returns whether there was one.
    fn transmit_one<C: TurnClientApi>(&mut self, session: &mut Session<C>) -> Result<bool, Fault> {
        match self.make(session, "transmit") {
            Ok(Answered::Packet(from, to)) => {
                self.send(from, to)?;
                Ok(true)
            }
            Ok(_) => Ok(false),
            Err(fault) => Err(fault),
        }
    }

    /// Takes a packet to the server.
    fn send(&mut self, from: SocketAddr, to: SocketAddr) -> Result<(), Fault> {
        expect(to == server(), "a request is sent elsewhere")?;
        if let Some(request) = own_request_in(self.trace.bytes.as_slice()) {
            let is_lost = self.server.is_silent(self.now) || self.draws.percent(10);
            if is_lost || (request.is_binding() && !self.server.answers_binding) {
                return Ok(());
            }
            let due = self.now.saturating_add(self.draws.below(100 * MS));
            let response = request.response(self.alloc, self.server.mapped, due)?;
            return self.network.wire.send(response);
        }
        let request = request_in(self.alloc, from, self.trace.bytes.as_slice())?;
        self.sends.send(request, self.now)?;
        match self
            .server
            .response_to(&mut self.draws, self.kind, request, self.now)
        {
            Some(response) => {
                self.network
                    .answer_by(self.alloc, self.kind, request, response, self.now)
            }
            None => Ok(()),
        }
    }
}
