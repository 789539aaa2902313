//! A datagram of the server (RFC 8656, sections 3.1 and 12.6).

ghost use Rattle.std.specs.Prelude.{◌≡◌, [], if◌then◌else◌, IfOk, IsOk, None, OnErr, OnOk, true};
ghost use Rattle.turn_client_api.specs.Answers.{datagram_takes_none, is_data_indication};
ghost use Rattle.turn_client_api.specs.Effect.{closed};
ghost use Rattle.turn_client_api.specs.Judgement.{class_in, method_in};
ghost use Rattle.turn_client_api.specs.Memory.{message_takes_memory, packet_takes_memory};
ghost use Rattle.turn_client_api.specs.Payloads.{Ignored, channel_sent, datagram_step, is_channel_frame, message_step};
ghost use Rattle.turn_client_core.specs.ProtocolRecv.{IsPart, outcome_in};
ghost use Rattle.turn_stun.specs.Message.{header_fault_of, id_of};

use crate::protocol::TurnClientProtocol;
use crate::protocol_recv::TurnProtocolRecv;
use std::alloc::AllocError;
use turn_client_api::Phase;
use turn_stun::instant::Instant;
use turn_stun::message::Message;
use turn_stun::message::header::MessageHeader;
use turn_types::channel::ChannelData;

impl TurnClientProtocol {
    /// Processes a datagram received from the server at the client's address: a STUN message, or else a
    /// ChannelData message at its start. Anything else is not for the client.
    ///
    /// # Errors
    ///
    /// If memory allocation fails for an action that a message requires. The client has ended then, and
    /// nothing else has changed. A ChannelData message and a Data indication allocate no memory, nor
    /// does a message that requires no action.
    pub fn datagram(&mut self, bytes: &[u8], now: Instant) -> Result<TurnProtocolRecv, AllocError>
        requires before { self.old.phase ≡ Phase.Authenticating → self.old.grants ≡ [] }
        ensures answer { IfOk result (λ outcome. outcome_in bytes.now outcome ≡ (datagram_step bytes.now now self.old).0) }
        ensures part { IfOk result (IsPart bytes.now self.old self.new) }
        ensures after { OnOk result (self.new ≡ (datagram_step bytes.now now self.old).1) }
        ensures no_memory { OnErr result (self.new ≡ closed self.old) }
        ensures free { datagram_takes_none bytes.now ≡ true → IsOk result }
        // Only messages allocate memory, and only those that require an action.
        ensures wanted { OnErr result (packet_takes_memory bytes.now self.old ≡ true) }
    {
        match MessageHeader::from_bytes(bytes) {
            Ok(header) => self.headed(&header, bytes, now),
            Err(_) => Ok(self.frame_sent(bytes)),
        }
    }

    /// Processes a datagram with this header of a STUN message. If it is not a whole message, it is not
    /// for the client.
    ///
    /// # Errors
    ///
    /// If memory allocation fails. The client has ended then, and nothing else has changed.
    fn headed(
        &mut self,
        header: &MessageHeader,
        bytes: &[u8],
        now: Instant,
    ) -> Result<TurnProtocolRecv, AllocError>
        requires headed { header_fault_of bytes.now ≡ None }
        requires class { header.now.message_type.class ≡ class_in bytes.now }
        requires method { header.now.message_type.method.value ≡ method_in bytes.now }
        requires id { header.now.transaction_id ≡ id_of bytes.now }
        requires before { self.old.phase ≡ Phase.Authenticating → self.old.grants ≡ [] }
        ensures answer { IfOk result (λ outcome. outcome_in bytes.now outcome ≡ (datagram_step bytes.now now self.old).0) }
        ensures part { IfOk result (IsPart bytes.now self.old self.new) }
        ensures after { OnOk result (self.new ≡ (datagram_step bytes.now now self.old).1) }
        ensures no_memory { OnErr result (self.new ≡ closed self.old) }
        ensures free { datagram_takes_none bytes.now ≡ true → IsOk result }
        ensures wanted { OnErr result (packet_takes_memory bytes.now self.old ≡ true) }
    {
        if self.is_ignored_unread(header.message_type, header.transaction_id) {
            return Ok(TurnProtocolRecv::Ignored);
        }
        if self.is_sent_data(header.message_type) {
            return Ok(self.data_indicated(bytes));
        }
        match Message::from_bytes(bytes) {
            Ok(message) => self.message_or_end(&message, now),
            Err(_) => Ok(TurnProtocolRecv::Ignored),
        }
    }

    /// Processes a message, and ends the client if memory allocation for it fails.
    ///
    /// # Errors
    ///
    /// If memory allocation fails. The client has ended then, and nothing else has changed.
    fn message_or_end(
        &mut self,
        message: &Message<'_>,
        now: Instant,
    ) -> Result<TurnProtocolRecv, AllocError>
        requires before { self.old.phase ≡ Phase.Authenticating → self.old.grants ≡ [] }
        ensures answer { IfOk result (λ outcome. outcome_in message.now outcome ≡ (message_step message.now now self.old).0) }
        ensures part { IfOk result (IsPart message.now self.old self.new) }
        ensures after { OnOk result (self.new ≡ (message_step message.now now self.old).1) }
        ensures no_memory { OnErr result (self.new ≡ closed self.old) }
        ensures free { is_data_indication message.now ≡ true → IsOk result }
        ensures wanted { OnErr result (message_takes_memory message.now self.old ≡ true) }
    {
        match self.message(message, now) {
            Ok(outcome) => Ok(outcome),
            Err(refusal) => {
                self.close();
                Err(refusal)
            }
        }
    }

    /// The result of the ChannelData message at the start of the bytes, if there is one: data of a
    /// peer. Allocates no memory.
    fn frame_sent(&self, bytes: &[u8]) -> TurnProtocolRecv
        ensures outcome { outcome_in bytes.now result ≡ (if is_channel_frame bytes.now then channel_sent self.now bytes.now else Ignored) }
        ensures part { IsPart bytes.now self.now self.now result }
    {
        match ChannelData::parse(bytes) {
            Ok(frame) => self.channel_sent(bytes, &frame),
            Err(_) => TurnProtocolRecv::Ignored,
        }
    }
}
