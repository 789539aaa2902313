//! What arrives, and the data of peers that it carries.

use super::{Drive, MANY};
use crate::answered::Answered;
use crate::own::{ResponseTo, response_in};
use std::net::SocketAddr;
use turn_client_api::TurnClientApi;
use turn_hostile_net::facts::Fact;
use turn_hostile_net::fault::{Fault, expect};
use turn_hostile_net::packet::{Packet, Truth};
use turn_hostile_net::strays::are_of;
use turn_hostile_net::words::recv_words;
use turn_hostile_net::world::{SECOND, local, server};
use turn_session::session::Session;
use turn_stun::message::Message;
use turn_types::TransportType;
use turn_types::attribute::{Data, XorPeerAddress};
use turn_types::channel::ChannelData;
use turn_types::message::DATA;

impl Drive {
    /// Passes in the next packet, if it comes within twenty seconds.
    ///
    /// # Errors
    ///
    /// `Wrong` if the session does what it may not do, and `OutOfMemory` if memory allocation fails.
    pub fn arrive<C: TurnClientApi>(&mut self, session: &mut Session<C>) -> Result<(), Fault> {
        let due = self.network.wire.next_due();
        if due > self.now.saturating_add(20 * SECOND) {
            return Ok(());
        }
        self.now = self.now.max(due);
        match self.network.wire.take(due) {
            Some(packet) => {
                self.pass_in(session, &packet)?;
                self.network.keep(packet)
            }
            None => Ok(()),
        }
    }

    /// Passes in a packet, and takes all payloads that the session then holds. Only the first response to a request may
    /// count, and none that has another method.
    fn pass_in<C: TurnClientApi>(
        &mut self,
        session: &mut Session<C>,
        packet: &Packet,
    ) -> Result<(), Fault> {
        let response = response_in(packet.bytes.as_slice());
        let is_foreign = self.is_foreign(packet, response);
        let truth = if is_foreign {
            Truth::Nothing
        } else {
            packet.truth
        };
        let may_count = self.model.believe(self.kind, truth, self.now)?;
        let is_certain = self.is_certain(session, packet);
        let answered = match self.receive_packet(session, packet) {
            Ok(answered) => answered,
            Err(fault) => return Err(fault),
        };
        let is_given = matches!(&answered, Answered::Payload(_));
        expect(
            is_given || !is_certain,
            "data of a permitted peer is dropped",
        )?;
        if matches!(&answered, Answered::Handled) {
            expect(may_count, "a response counts twice")?;
            expect(!is_foreign, "a response of another method counts")?;
            self.model.settle(truth, self.now);
            self.note_answer(packet, response);
        }
        if self.kind.transport == TransportType::Tcp {
            self.drain(session)?;
        }
        Ok(())
    }

    /// A response that the session has taken ends its request. On a data connection what is not signed ends nothing: whatever
    /// comes there is taken.
    fn note_answer(&mut self, packet: &Packet, response: Option<ResponseTo>) {
        let is_signed = matches!(packet.truth, Truth::Answers(_));
        if let Some(response) = response {
            if packet.to == local() || is_signed {
                self.sends.answer(response.id);
            }
        }
    }

    /// Whether a packet answers nothing, since it has another method than the request with its ID. A session that leaves notes
    /// nothing, so that the client alone judges it.
    fn is_foreign(&self, packet: &Packet, response: Option<ResponseTo>) -> bool {
        match response {
            Some(response) => {
                packet.to == local()
                    && !self.ending.is_leaving()
                    && self.sends.has_other_method(response.id, response.method)
            }
            None => false,
        }
    }

    /// Makes the call that passes in a packet.
    fn receive_packet<C: TurnClientApi>(
        &mut self,
        session: &mut Session<C>,
        packet: &Packet,
    ) -> Result<Answered, Fault> {
        let transport = self.transport_to(packet.to);
        let bytes = packet.bytes.as_slice();
        let words = recv_words(self.alloc, transport, packet.from, packet.to, bytes)?;
        self.receive(session, words.as_str(), Some(packet))
    }

    /// The transport over which something comes to this end.
    fn transport_to(&self, end: SocketAddr) -> TransportType {
        if end == local() {
            self.kind.transport
        } else {
            TransportType::Tcp
        }
    }

    /// Takes all payloads that the session holds.
    fn drain<C: TurnClientApi>(&mut self, session: &mut Session<C>) -> Result<(), Fault> {
        for _ in 0..MANY {
            match self.receive(session, "poll_recv", None) {
                Ok(Answered::Payload(_)) => {}
                Ok(_) => break,
                Err(fault) => return Err(fault),
            }
        }
        Ok(())
    }

    /// Makes a call that may return a payload. Its peer has to be permitted, and to have sent it, in this packet if there is
    /// one.
    fn receive<C: TurnClientApi>(
        &mut self,
        session: &mut Session<C>,
        words: &str,
        packet: Option<&Packet>,
    ) -> Result<Answered, Fault> {
        let answered = match self.make(session, words) {
            Ok(answered) => answered,
            Err(fault) => return Err(fault),
        };
        if let Answered::Payload(peer) = &answered {
            let peer = *peer;
            self.counts.payloads = self.counts.payloads.saturating_add(1);
            let facts = &self.model.facts;
            let bytes = self.trace.bytes.as_slice();
            expect(
                facts.may_receive(peer),
                "data of a peer that is not permitted",
            )?;
            expect(are_of(bytes, peer, facts), "data of another peer")?;
            if let Some(packet) = packet {
                expect(
                    packet.to != local() || carries(packet.bytes.as_slice(), bytes),
                    "data is not what the packet carries",
                )?;
            }
        }
        Ok(answered)
    }

    /// Whether this packet has data that the session is to return: that of a peer which it says to be permitted, before the
    /// time at which something may expire.
    fn is_certain<C: TurnClientApi>(&self, session: &Session<C>, packet: &Packet) -> bool {
        let is_of_server = packet.from == server() && packet.to == local();
        match indicated_in(packet.bytes.as_slice()) {
            Some(peer) => {
                is_of_server
                    && self.now < self.until
                    && self.kind.relays == TransportType::Udp
                    && self.model.facts.has(Fact::Permitted(peer.ip()))
                    && session.have_permission(TransportType::Udp, peer.ip())
            }
            None => false,
        }
    }
}

/// The peer whose data these bytes indicate, if they are a Data indication (RFC 8656, section 11.4).
fn indicated_in(bytes: &[u8]) -> Option<SocketAddr> {
    let message = Message::from_bytes(bytes).ok()?;
    if message.method() != DATA {
        return None;
    }
    let peer: XorPeerAddress = message.attribute().ok()?;
    let _data: Data<'_> = message.attribute().ok()?;
    Some(peer.addr())
}

/// Whether these bytes carry this data: in a ChannelData message, or else in a Data indication.
fn carries(bytes: &[u8], carried: &[u8]) -> bool {
    if let Ok(frame) = ChannelData::parse(bytes) {
        return frame.data() == carried;
    }
    match indicated_data_in(bytes) {
        Some(data) => data == carried,
        None => false,
    }
}

/// The data in these bytes, if they are a message with data.
fn indicated_data_in(bytes: &[u8]) -> Option<&[u8]> {
    let message = Message::from_bytes(bytes).ok()?;
    let data: Data<'_> = message.attribute().ok()?;
    Some(data.data())
}
