//! ChannelData messages (RFC 8656, section 12.4).

ghost use Rattle.std.specs.Prelude.{◌≡◌, ℕ, ◌+◌, ◌^◌, ◌<◌, ◌≤◌, List, length, drop, IfOk, IfErr, IsOkAnd, Some};
ghost use Rattle.turn_stun.specs.Number.{u16_at};
ghost use Rattle.turn_types.specs.Channel.{IsChannel, channel_data_at, channel_fault_of};

use crate::error::ChannelParseError;
use std::marker::Model;

/// A ChannelData message (RFC 8656, section 12.4): the number of a channel, and data to or from its peer.
/// Contracts see it as these two.
#[derive(Debug, Drop)]
pub struct ChannelData<'a> {
    id: u16,
    data: &'a [u8],
}

impl<'a> Model for ChannelData<'a> {
    ghost use Rattle.std.specs.Prelude.{◌≤◌, ◌<◌, ◌^◌, length};
    ghost use Rattle.turn_types.specs.Channel.{Channel, IsHeldChannel};

    ghost Value = { Channel };

    ghost view = { λ frame. record { id = frame.id; payload = frame.«data».now } };

    ghost invariant = { λ frame. IsHeldChannel frame.id frame.«data».now };
}

impl<'a> ChannelData<'a> {
    /// The ChannelData message at the start of the bytes, which it borrows. Bytes after it are unread: in
    /// a datagram it need not be padded (RFC 8656, section 12.5). Allocates no memory.
    ///
    /// # Errors
    ///
    /// The first of `Short`, `NotChannel` and `Length` that holds: `ChannelParseError` says when.
    pub fn parse(bytes: &'a [u8]) -> Result<ChannelData<'a>, ChannelParseError>
        // What is accepted begins with a ChannelData message.
        ensures found { IfOk result (λ frame. IsChannel bytes.now frame.id frame.payload (drop (4 + length frame.payload) bytes.now)) }
        ensures front { IfOk result (λ frame. frame ≡ channel_data_at bytes.now) }
        // What begins with a ChannelData message is accepted, and has no other channel or data.
        ensures only { (id : ℕ) (payload rest : List ℕ) → IsChannel bytes.now id payload rest
            → IsOkAnd result (λ frame. (frame.id ≡ id) × (frame.payload ≡ payload)) }
        // Which error it is.
        ensures fault { IfErr result (λ fault. channel_fault_of bytes.now ≡ Some fault) }
    {
        match fault_in(bytes) {
            Some(fault) => Err(fault),
            None => Ok(ChannelData::at_front(bytes)),
        }
    }

    /// The message at the start of bytes that hold the whole of it.
    fn at_front(bytes: &'a [u8]) -> ChannelData<'a>
        requires whole { 4 + u16_at bytes.now 2 ≤ length bytes.now }
        requires least { 0x4000 ≤ u16_at bytes.now 0 }
        requires most { u16_at bytes.now 0 < 0x8000 }
        ensures { result ≡ channel_data_at bytes.now }
    {
        let len = usize::from(u16::from_be_bytes([bytes[2], bytes[3]]));
        ChannelData {
            id: u16::from_be_bytes([bytes[0], bytes[1]]),
            data: &bytes[4..4 + len],
        }
    }

    /// The number of the channel, from 0x4000 to 0x7fff.
    pub fn id(&self) -> u16
        ensures id { result ≡ self.now.id }
        ensures least { 0x4000 ≤ result }
        ensures most { result < 0x8000 }
    {
        self.id
    }

    /// The data to or from the peer: at most 65,535 bytes, without padding.
    pub fn data(&self) -> &'a [u8]
        ensures payload { result.now ≡ self.now.payload }
        ensures short { length result.now < 2 ^ 16 }
    {
        self.data
    }
}

/// The first fault that keeps the bytes from beginning with a ChannelData message.
#[tactic(auto, unfolding(crate::specs::Channel::channel_fault_of))]
fn fault_in(bytes: &[u8]) -> Option<ChannelParseError>
    ensures { result ≡ channel_fault_of bytes.now }
{
    if bytes.len() < 4 {
        return Some(ChannelParseError::Short);
    }
    let id = u16::from_be_bytes([bytes[0], bytes[1]]);
    if !(0x4000..0x8000).contains(&id) {
        return Some(ChannelParseError::NotChannel);
    }
    let len = usize::from(u16::from_be_bytes([bytes[2], bytes[3]]));
    if bytes.len() < 4 + len {
        return Some(ChannelParseError::Length);
    }
    None
}
