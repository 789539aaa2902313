//! The end of a run whose lines are printed: the server grants nothing more. Either whatever is sent is challenged, or time
//! passes in silence, until permissions are over.

use super::{Drive, MANY, words_of};
use crate::acts::Act;
use crate::outcome::Outcome;
use std::net::SocketAddr;
use turn_client_api::TurnClientApi;
use turn_hostile_net::fault::Fault;
use turn_hostile_net::forge::{challenge_of, forgery_of};
use turn_hostile_net::message::{Part, Signer, Title, message};
use turn_hostile_net::packet::{Packet, Truth};
use turn_hostile_net::request::{Request, request_in};
use turn_hostile_net::response::packet_of;
use turn_hostile_net::world::{FRIENDS, MS, PEERS, SECOND, local, peer, server};
use turn_stun::message::header::MessageClass;
use turn_types::TransportType;
use turn_types::message::DATA;

/// How often something may be sent: more challenges than a client answers.
const TIMES: u32 = 24;

/// How long the caller waits in between.
const PAUSE: u64 = 200 * MS;

/// How often the caller calls in silence.
const SILENT_TIMES: u32 = 8;

/// How long nobody answers before it calls again: in all longer than a permission lasts (RFC 8656, section 9).
const SILENCE: u64 = 50 * SECOND;

impl Drive {
    /// Ends the run. Nothing is judged here.
    ///
    /// # Errors
    ///
    /// `Wrong` if what is sent is no request, and `OutOfMemory` if memory allocation fails.
    pub fn end<C: TurnClientApi>(&mut self, client: &mut C) -> Result<(), Fault> {
        if self.draws.percent(50) {
            self.flood(client)
        } else {
            self.fall_silent(client)
        }
    }

    /// Polls, reports and sends as time passes. What is sent is lost.
    fn fall_silent<C: TurnClientApi>(&mut self, client: &mut C) -> Result<(), Fault> {
        for _ in 0..SILENT_TIMES {
            self.now = self.now.saturating_add(SILENCE);
            self.call_while(client, "event")?;
            self.call_while(client, "transmit")?;
            self.session.make(client, self.now, "poll")?;
        }
        Ok(())
    }

    /// Polls, and makes this call until it has nothing more to tell.
    fn call_while<C: TurnClientApi>(&mut self, client: &mut C, words: &str) -> Result<(), Fault> {
        self.session.make(client, self.now, "poll")?;
        for _ in 0..MANY {
            let outcome = self.session.make(client, self.now, words)?;
            if !matches!(outcome, Outcome::Event(_) | Outcome::Packet(..)) {
                break;
            }
        }
        Ok(())
    }

    /// Requests a permission and a channel for each peer, and challenges what is sent then. What strangers send, what has
    /// arrived before and what is forged comes too.
    fn flood<C: TurnClientApi>(&mut self, client: &mut C) -> Result<(), Fault> {
        for friend in 0..FRIENDS {
            let to = peer(friend);
            self.ask(client, Act::Permit(self.kind.relays, to.ip()))?;
            self.ask(client, Act::Bind(self.kind.relays, to))?;
        }
        for _ in 0..TIMES {
            self.now = self.now.saturating_add(PAUSE);
            self.challenge_next(client)?;
            self.bring_strays(client)?;
        }
        Ok(())
    }

    fn ask<C: TurnClientApi>(&mut self, client: &mut C, act: Act) -> Result<(), Fault> {
        let words = format!(in self.alloc; "{act}")?;
        self.session.make(client, self.now, words.as_str())?;
        Ok(())
    }

    /// Sends the next packet, which is answered by a forgery or a challenge of another realm, and by a challenge.
    fn challenge_next<C: TurnClientApi>(&mut self, client: &mut C) -> Result<(), Fault> {
        self.session.make(client, self.now, "poll")?;
        self.session.make(client, self.now, "event")?;
        let Outcome::Packet(from, _) = self.session.make(client, self.now, "transmit")? else {
            return Ok(());
        };
        let request = request_in(self.alloc, from, self.session.bytes.as_slice())?;
        let before = match self.draws.below(3) {
            0 => self.of_another_realm(request)?,
            _ => {
                let forgery = forgery_of(&mut self.draws, request);
                packet_of(self.alloc, self.kind, forgery, self.now)?
            }
        };
        self.hand_in(client, &before)?;
        let challenge = challenge_of(&mut self.draws, request);
        let packet = packet_of(self.alloc, self.kind, challenge, self.now)?;
        self.hand_in(client, &packet)
    }

    /// A challenge of a realm that is not the server's.
    fn of_another_realm(&mut self, request: Request) -> Result<Packet, Fault> {
        let id = request.id;
        let title = Title {
            method: request.method,
            class: MessageClass::Error,
            id,
        };
        let nonce = Part::Nonce(self.draws.number());
        let parts = [Part::Error(438), Part::OtherRealm, nonce];
        let bytes = message(self.alloc, title, &parts, Signer::Nobody, &[])?;
        Ok(packet_to(request.end, bytes, self.now))
    }

    /// An ICMP report about a drawn peer (RFC 8656, section 11.6).
    fn icmp_report(&mut self) -> Result<Packet, Fault> {
        let id = self.draws.id();
        let title = Title {
            method: DATA,
            class: MessageClass::Indication,
            id,
        };
        let parts = [Part::Peer(peer(self.draws.below(PEERS))), Part::Icmp];
        let bytes = message(self.alloc, title, &parts, Signer::Nobody, &[])?;
        Ok(packet_to(local(), bytes, self.now))
    }

    /// Brings an ICMP report and a packet that answers no request, and passes in what has arrived by now.
    fn bring_strays<C: TurnClientApi>(&mut self, client: &mut C) -> Result<(), Fault> {
        let report = self.icmp_report()?;
        self.hand_in(client, &report)?;
        let facts = &self.model.facts;
        self.network.stray(self.alloc, self.kind, facts, self.now)?;
        for _ in 0..MANY {
            let due = self.network.wire.next_due();
            if due > self.now {
                break;
            }
            let Some(packet) = self.network.wire.take(due) else {
                break;
            };
            self.hand_in(client, &packet)?;
        }
        Ok(())
    }

    /// Passes in a packet, and takes all payloads that the client then holds.
    fn hand_in<C: TurnClientApi>(&mut self, client: &mut C, packet: &Packet) -> Result<(), Fault> {
        let transport = self.kind.transport;
        let words = words_of(self.alloc, transport, packet)?;
        self.session.make(client, self.now, words.as_str())?;
        if transport == TransportType::Udp {
            return Ok(());
        }
        for _ in 0..MANY {
            let outcome = self.session.make(client, self.now, "poll_recv")?;
            if !matches!(outcome, Outcome::Payload(_)) {
                break;
            }
        }
        Ok(())
    }
}

/// Bytes of the server to this end, of which the client may believe nothing.
fn packet_to(to: SocketAddr, bytes: Vec<u8>, due: u64) -> Packet {
    Packet {
        due,
        from: server(),
        to,
        bytes,
        truth: Truth::Nothing,
    }
}
