//! The server, and a hostile network between it and the client.

use crate::draws::Draws;
use crate::facts::Facts;
use crate::fault::Fault;
use crate::forge::{challenge_of, forgery_of, grant_of, refusal_of};
use crate::packet::{Effect, Packet, Truth, Wire};
use crate::request::{Purpose, Request};
use crate::response::{Response, packet_of, signed};
use crate::strays::stray_of;
use crate::world::{Kind, MS, local};
use std::alloc::Global;

/// The server and the network of a run.
#[derive(Drop)]
pub struct Network {
    draws: Draws,
    /// What is on its way to the client.
    pub wire: Wire,
    /// Signed responses that have arrived, and may arrive again.
    old: Wire,
    /// How many there are.
    kept: u64,
    /// How hostile the network is, in percent.
    hostility: u64,
    /// How many responses were forged, repeated or spoilt.
    pub forged: u64,
}

impl Network {
    /// A network whose draws are those of this seed.
    pub fn new(alloc: Global, seed: u64) -> Network {
        let mut draws = Draws::new(seed);
        let hostility = draws.below(4).saturating_mul(20).saturating_add(10);
        Network {
            draws,
            wire: Wire::new(alloc),
            old: Wire::new(alloc),
            kept: 0,
            hostility,
            forged: 0,
        }
    }

    /// Keeps a packet that has arrived, if it may arrive again.
    ///
    /// # Errors
    ///
    /// If memory allocation fails.
    pub fn keep(&mut self, packet: Packet) -> Result<(), Fault> {
        if matches!(packet.truth, Truth::Answers(_)) && packet.to == local() {
            self.kept = self.kept.saturating_add(1);
            self.old.send(packet)?;
        }
        Ok(())
    }

    /// The server answers a request, as far as the network lets it.
    ///
    /// # Errors
    ///
    /// If memory allocation fails.
    pub fn answer(
        &mut self,
        alloc: Global,
        kind: Kind,
        request: Request,
        now: u64,
    ) -> Result<(), Fault> {
        if self.forges_before(alloc, kind, request, now)? {
            return Ok(());
        }
        let hostility = hostility_to(self.hostility, request.purpose);
        if !request.is_signed || self.draws.percent(hostility / 8) {
            let response = challenge_of(&mut self.draws, request);
            return self.post(alloc, kind, response, now);
        }
        let response = answer_of(&mut self.draws, kind, request, hostility);
        self.carry_signed(alloc, kind, request, response, now)
    }

    /// A server answers a request by this response, as far as the network lets it.
    ///
    /// # Errors
    ///
    /// If memory allocation fails.
    pub fn answer_by(
        &mut self,
        alloc: Global,
        kind: Kind,
        request: Request,
        response: Response,
        now: u64,
    ) -> Result<(), Fault> {
        if self.forges_before(alloc, kind, request, now)? {
            return Ok(());
        }
        match response.effect {
            Effect::Challenged(..) => self.post(alloc, kind, response, now),
            _ => self.carry_signed(alloc, kind, request, response, now),
        }
    }

    /// Somebody may answer before the server does. Returns whether the server is not to answer then: what follows on the
    /// stream of a data connection would be taken for data of the peer.
    fn forges_before(
        &mut self,
        alloc: Global,
        kind: Kind,
        request: Request,
        now: u64,
    ) -> Result<bool, Fault> {
        let hostility = hostility_to(self.hostility, request.purpose);
        if !self.draws.percent(hostility / 2) {
            return Ok(false);
        }
        self.forge(alloc, kind, request, now)?;
        Ok(request.end != local())
    }

    /// Takes a signed response of the server along. Somebody may answer after it.
    fn carry_signed(
        &mut self,
        alloc: Global,
        kind: Kind,
        request: Request,
        response: Response,
        now: u64,
    ) -> Result<(), Fault> {
        if request.end != local() {
            return self.wire.send(packet_of(alloc, kind, response, now)?);
        }
        let hostility = hostility_to(self.hostility, request.purpose);
        self.carry(alloc, kind, response, hostility, now)?;
        if self.draws.percent(hostility) {
            self.forge(alloc, kind, request, now)?;
        }
        Ok(())
    }

    /// Somebody answers in place of the server.
    fn forge(
        &mut self,
        alloc: Global,
        kind: Kind,
        request: Request,
        now: u64,
    ) -> Result<(), Fault> {
        self.forged = self.forged.saturating_add(1);
        let response = forgery_of(&mut self.draws, request);
        self.post(alloc, kind, response, now)
    }

    /// Sends a response off.
    fn post(
        &mut self,
        alloc: Global,
        kind: Kind,
        response: Response,
        now: u64,
    ) -> Result<(), Fault> {
        let due = now.saturating_add(self.draws.below(100 * MS));
        self.wire.send(packet_of(alloc, kind, response, due)?)
    }

    /// Takes a response of the server along: late, never or more than once.
    fn carry(
        &mut self,
        alloc: Global,
        kind: Kind,
        response: Response,
        hostility: u64,
        now: u64,
    ) -> Result<(), Fault> {
        let copies = copies(&mut self.draws, hostility);
        if copies > 1 {
            self.forged = self.forged.saturating_add(1);
        }
        for _ in 0..copies {
            let due = now.saturating_add(delay(&mut self.draws, hostility));
            self.wire.send(packet_of(alloc, kind, response, due)?)?;
        }
        Ok(())
    }

    /// Sends off a packet that answers no request, or a response that has arrived before.
    ///
    /// # Errors
    ///
    /// If memory allocation fails.
    pub fn stray(
        &mut self,
        alloc: Global,
        kind: Kind,
        facts: &Facts,
        now: u64,
    ) -> Result<(), Fault> {
        let due = now.saturating_add(self.draws.below(50 * MS));
        if self.draws.percent(20) {
            let place = self.draws.below(self.kept);
            let Some(packet) = self.old.copy_of(alloc, place, due)? else {
                return Ok(());
            };
            self.forged = self.forged.saturating_add(1);
            return self.wire.send(packet);
        }
        let packet = stray_of(alloc, &mut self.draws, kind, facts, due)?;
        self.wire.send(packet)
    }
}

/// A client that has no allocation yet ends by a forged response, so that most of these come later.
fn hostility_to(hostility: u64, purpose: Purpose) -> u64 {
    match purpose {
        Purpose::Allocate => hostility / 16,
        Purpose::BindConnection(_) => hostility / 4,
        _ => hostility,
    }
}

/// The server grants what is requested, or refuses it. A single allocation is not refused.
fn answer_of(draws: &mut Draws, kind: Kind, request: Request, hostility: u64) -> Response {
    let may_refuse = kind.second.is_some() || !matches!(request.purpose, Purpose::Allocate);
    let effect = if may_refuse && draws.percent(6) {
        refusal_of(request.purpose)
    } else {
        grant_of(draws, request)
    };
    Response {
        has_tail: draws.percent(hostility),
        ..signed(request, effect)
    }
}

/// How often a packet arrives.
fn copies(draws: &mut Draws, hostility: u64) -> u64 {
    if draws.percent(hostility / 4) {
        return 0;
    }
    if draws.percent(hostility / 2) {
        return draws.below(3).saturating_add(2);
    }
    1
}

/// How long a packet is on its way.
fn delay(draws: &mut Draws, hostility: u64) -> u64 {
    let usual = draws.below(100 * MS);
    if draws.percent(hostility / 4) {
        return usual.saturating_add(draws.below(60_000 * MS));
    }
    usual
}
