//! One drawn run: the caller, whose calls are checked against the model, each one.

mod ending;

use crate::acts::{Act, act_of};
use crate::looks::{first_expiry, is_idle};
use crate::numbers::are_distinct;
use crate::outcome::{Outcome, learn};
use crate::session::Session;
use std::alloc::Global;
use std::net::SocketAddr;
use turn_client_api::{TurnClientApi, TurnEvent};
use turn_hostile_net::draws::Draws;
use turn_hostile_net::fault::{Fault, expect};
use turn_hostile_net::marks::{Kept, kept_by};
use turn_hostile_net::model::Model;
use turn_hostile_net::network::Network;
use turn_hostile_net::packet::Packet;
use turn_hostile_net::request::{Purpose, request_in};
use turn_hostile_net::strays::are_of;
use turn_hostile_net::words::recv_words;
use turn_hostile_net::world::{Kind, MS, SECOND, data_end, server};
use turn_types::TransportType;

/// More than a client ever sends, reports or holds at once here.
const MANY: u32 = 4_096;

/// A caller, its network, and the model of what may be active.
#[derive(Drop)]
pub struct Drive {
    alloc: Global,
    kind: Kind,
    draws: Draws,
    /// What was called and what was answered.
    pub session: Session,
    /// The network.
    pub network: Network,
    /// What the client may hold.
    pub model: Model,
    /// The time, in nanoseconds.
    now: u64,
    /// The latest time of a call so far.
    latest: u64,
    /// The time until which the client last said that nothing is due.
    until: u64,
    /// How many data connections were offered.
    ends: u16,
    /// How many payloads of peers were received.
    pub payloads: u64,
}

impl Drive {
    /// The caller of a new client of this kind, and all that is drawn for it.
    ///
    /// # Errors
    ///
    /// If memory allocation fails.
    pub fn new(alloc: Global, kind: Kind, seed: u64) -> Result<Drive, Fault> {
        let model = Model::new(alloc, kind)?;
        Ok(Drive {
            alloc,
            kind,
            draws: Draws::new(seed.saturating_add(1_000_000)),
            session: Session::new(alloc),
            network: Network::new(alloc, seed),
            model,
            now: SECOND,
            latest: SECOND,
            until: SECOND,
            ends: 0,
            payloads: 0,
        })
    }

    /// Does one drawn thing.
    ///
    /// # Errors
    ///
    /// `Wrong` if the client does what it may not do, and `OutOfMemory` if memory allocation fails.
    pub fn step<C: TurnClientApi>(&mut self, client: &mut C) -> Result<(), Fault> {
        match self.draws.below(100) {
            0..=29 => self.settle(client),
            30..=54 => self.arrive(client),
            55..=79 => self.act(client),
            80..=94 => {
                let facts = &self.model.facts;
                self.network.stray(self.alloc, self.kind, facts, self.now)
            }
            95 | 96 => {
                self.now = jump_from(&mut self.draws, self.now);
                Ok(())
            }
            97 => self.transmit(client),
            _ => self.events(client),
        }
    }

    /// Makes this call now, and looks at what is active after it.
    fn make<C: TurnClientApi>(&mut self, client: &mut C, words: &str) -> Result<Outcome, Fault> {
        self.latest = self.latest.max(self.now);
        let outcome = self.session.make(client, self.now, words)?;
        expect(
            first_expiry(client, &self.model.facts, self.kind.relays) > 0,
            "something is active that was not granted",
        )?;
        let (session, facts) = (&mut self.session, &self.model.facts);
        are_distinct(self.alloc, client, session, facts, self.kind, self.now)?;
        Ok(outcome)
    }

    /// Makes a drawn call of the caller.
    fn act<C: TurnClientApi>(&mut self, client: &mut C) -> Result<(), Fault> {
        let act = act_of(&mut self.draws, self.kind, self.ends);
        let words = format!(in self.alloc; "{act}")?;
        let outcome = self.make(client, words.as_str())?;
        if let (Act::Keep(relays, Kept::Permission(ip), _), Outcome::Other) = (act, outcome) {
            expect(
                !client.have_permission(relays, ip),
                "a permission in use is neither kept nor let go",
            )?;
        }
        let bytes = self.session.bytes.as_slice();
        learn(&mut self.model, act, outcome, bytes, self.now)
    }

    /// Polls, sends what is due, and goes on to the time at which something is due or arrives.
    fn settle<C: TurnClientApi>(&mut self, client: &mut C) -> Result<(), Fault> {
        self.poll(client)?;
        if self.until <= self.now {
            if self.draws.percent(90) {
                self.events(client)?;
            }
            self.transmit(client)?;
            self.poll(client)?;
        }
        if self.until > self.now && self.draws.percent(90) {
            let due = self.network.wire.next_due();
            self.now = self.until.min(due).max(self.now);
        }
        Ok(())
    }

    /// Polls, and does what the client expects of its caller.
    fn poll<C: TurnClientApi>(&mut self, client: &mut C) -> Result<(), Fault> {
        match self.make(client, "poll")? {
            Outcome::Wait(until) => {
                self.until = until;
                self.check_rest(client)
            }
            Outcome::Open(id, peer) => self.open(client, id, peer),
            Outcome::Close(end) => expect(
                self.model.offers.peer_at(end).is_some(),
                "a connection is to be closed that was not opened",
            ),
            _ => Ok(()),
        }
    }

    /// Opens an offered data connection, or fails to, or never reports it.
    fn open<C: TurnClientApi>(
        &mut self,
        client: &mut C,
        id: u32,
        peer: SocketAddr,
    ) -> Result<(), Fault> {
        let draw = self.draws.below(10);
        let end = if draw < 2 {
            None
        } else {
            Some(data_end(self.ends))
        };
        self.ends = self.ends.saturating_add(1);
        let is_offered = self.model.offers.take(id, peer, end);
        expect(is_offered, "a data connection was not offered")?;
        self.model.events.allow(TurnEvent::TcpConnectFailed(peer))?;
        if draw > 0 {
            let act = Act::Socket(id, peer, end);
            let words = format!(in self.alloc; "{act}")?;
            self.make(client, words.as_str())?;
        }
        Ok(())
    }

    /// The client has reported until when nothing is due. If that is later than now, what has expired by now is gone,
    /// nothing expires before, and nothing is to be sent before.
    fn check_rest<C: TurnClientApi>(&mut self, client: &mut C) -> Result<(), Fault> {
        if self.until <= self.now {
            return Ok(());
        }
        self.model.facts.sweep(self.now);
        expect(
            first_expiry(client, &self.model.facts, self.kind.relays) >= self.until,
            "something expires before the wake-up time",
        )?;
        expect(
            is_idle(client, self.now, self.until)?,
            "a packet is due before the wake-up time",
        )
    }

    /// Sends what is due.
    fn transmit<C: TurnClientApi>(&mut self, client: &mut C) -> Result<(), Fault> {
        for _ in 0..MANY {
            match self.make(client, "transmit")? {
                Outcome::Packet(from, to) => self.send(from, to)?,
                _ => break,
            }
        }
        Ok(())
    }

    /// Takes a request to the server.
    fn send(&mut self, from: SocketAddr, to: SocketAddr) -> Result<(), Fault> {
        expect(to == server(), "a request is sent elsewhere")?;
        let request = request_in(self.alloc, from, self.session.bytes.as_slice())?;
        if let Purpose::Bind(number, peer) = request.purpose {
            expect(
                self.model.name(number, peer, self.now, self.latest)?,
                "a channel number names two peers",
            )?;
        }
        if let Some(what) = kept_by(request.purpose) {
            expect(
                self.model.marks.send(request.id, what)?,
                "what was let go is refreshed",
            )?;
        }
        self.network
            .answer(self.alloc, self.kind, request, self.now)
    }

    /// Takes all events.
    fn events<C: TurnClientApi>(&mut self, client: &mut C) -> Result<(), Fault> {
        for _ in 0..MANY {
            match self.make(client, "event")? {
                Outcome::Event(event) => {
                    expect(self.model.events.report(event), "an event has no cause")?
                }
                _ => break,
            }
        }
        Ok(())
    }

    /// Passes in the next packet, if it comes within twenty seconds.
    fn arrive<C: TurnClientApi>(&mut self, client: &mut C) -> Result<(), Fault> {
        let due = self.network.wire.next_due();
        if due > self.now.saturating_add(20 * SECOND) {
            return Ok(());
        }
        self.now = self.now.max(due);
        match self.network.wire.take(due) {
            Some(packet) => {
                self.pass_in(client, &packet)?;
                self.network.keep(packet)
            }
            None => Ok(()),
        }
    }

    /// Passes in a packet, and takes all payloads that the client then holds. Only the first response to a request may
    /// count.
    fn pass_in<C: TurnClientApi>(&mut self, client: &mut C, packet: &Packet) -> Result<(), Fault> {
        let may_count = self.model.believe(self.kind, packet.truth, self.now)?;
        let transport = self.kind.transport;
        let words = words_of(self.alloc, transport, packet)?;
        let outcome = self.receive(client, words.as_str())?;
        if matches!(outcome, Outcome::Handled) {
            expect(may_count, "a response counts twice")?;
            self.model.settle(packet.truth, self.now);
        }
        if transport == TransportType::Tcp {
            self.drain(client)?;
        }
        Ok(())
    }

    /// Takes all payloads that the client holds.
    fn drain<C: TurnClientApi>(&mut self, client: &mut C) -> Result<(), Fault> {
        for _ in 0..MANY {
            if !matches!(self.receive(client, "poll_recv")?, Outcome::Payload(_)) {
                break;
            }
        }
        Ok(())
    }

    /// Makes a call that may return a payload. Its peer has to be permitted, and to have sent it.
    fn receive<C: TurnClientApi>(&mut self, client: &mut C, words: &str) -> Result<Outcome, Fault> {
        let outcome = self.make(client, words)?;
        if let Outcome::Payload(peer) = outcome {
            let facts = &self.model.facts;
            let bytes = self.session.bytes.as_slice();
            expect(
                facts.may_receive(peer),
                "data of a peer that is not permitted",
            )?;
            expect(are_of(bytes, peer, facts), "data of another peer")?;
            self.payloads = self.payloads.saturating_add(1);
        }
        Ok(outcome)
    }
}

/// The words of the call that passes in a packet.
fn words_of(alloc: Global, transport: TransportType, packet: &Packet) -> Result<String, Fault> {
    let bytes = packet.bytes.as_slice();
    Ok(recv_words(alloc, transport, packet.from, packet.to, bytes)?)
}

/// The time after a jump, which may go back.
fn jump_from(draws: &mut Draws, now: u64) -> u64 {
    let some = draws.below(10_000).saturating_mul(MS);
    match draws.below(8) {
        0 | 1 => now.saturating_sub(some),
        2 => now.saturating_add(some.saturating_mul(10)),
        _ => now.saturating_add(some / 10),
    }
}
