//! A ChannelData message that is built late (RFC 8656, section 12.5).

ghost use Rattle.std.specs.Prelude.{◌≡◌, ◌-◌, ◌^◌, ◌<◌, ◌≤◌, ◌++◌, length, replicate};

use crate::transmit::{DelayedTransmitBuild, framing};
use std::alloc::{AllocError, Global};
use std::convert::AsSlice;

/// A ChannelData message that is built when it is sent: a number, and a payload that is borrowed or
/// owned.
///
/// It is padded with zeros to a multiple of four bytes, over a datagram too, where padding is optional
/// (RFC 8656, section 12.5).
#[derive(Debug, Drop)]
pub struct DelayedChannel<T: AsSlice<u8>> {
    id: u16,
    payload: T,
    ghost least: { 0x4000 ≤ id },
    ghost most: { id < 0x8000 },
    ghost short: { length (T.items payload) < 2 ^ 16 },
}

impl<T: AsSlice<u8>> DelayedChannel<T> {
    ghost use Rattle.turn_stun.specs.Message.{padded_len};
    ghost use Rattle.turn_types.specs.Channel.{IsChannel, channel_frame};
    ghost use Rattle.turn_types.specs.Delayed.{delayed_channel_bytes, delayed_channel_head, delayed_channel_payload};

    /// The message that carries this payload, of at most 65,535 bytes, over the channel with this number,
    /// from 0x4000 to 0x7fff.
    pub fn new(id: u16, payload: T) -> DelayedChannel<T>
        requires least { 0x4000 ≤ id }
        requires most { id < 0x8000 }
        requires short { length (T.items payload) < 2 ^ 16 }
        ensures bytes { delayed_channel_bytes result ≡ channel_frame id (T.items payload) }
        ensures frame { IsChannel (delayed_channel_bytes result) id (T.items payload)
            (replicate (padded_len (length (T.items payload)) - length (T.items payload)) 0) }
    {
        DelayedChannel { id, payload }
    }

    /// The payload.
    pub fn payload(&self) -> &[u8]
        ensures { result.now ≡ delayed_channel_payload self.now }
    {
        self.payload.as_slice()
    }

    /// Writes what precedes the payload in the message: the number and the length of the payload, in four bytes.
    pub fn write_head(&self, place: &mut [u8])
        requires { length place.old ≡ 4 }
        ensures { place.new ≡ delayed_channel_head self.now }
    {
        place.copy_from_slice(&framing::header(self.id, self.payload.as_slice().len()));
    }

    /// How many zeros follow the payload: up to three.
    pub fn padding_len(&self) -> usize
        ensures { delayed_channel_bytes self.now ≡ delayed_channel_head self.now ++ delayed_channel_payload self.now ++ replicate result 0 }
    {
        framing::padding_len(self.payload.as_slice().len())
    }
}

impl<T: AsSlice<u8> + Drop> DelayedTransmitBuild for DelayedChannel<T> {
    ghost use Rattle.turn_types.specs.Delayed.{delayed_channel_bytes};

    ghost bytes = { delayed_channel_bytes };

    fn len(&self) -> usize {
        // Padded over datagrams too (our choice, which RFC 8656, section 12.5, allows): one form serves both.
        4 + framing::padded_len(self.payload.as_slice().len())
    }

    fn build(self, alloc: Global) -> Result<Vec<u8>, AllocError> {
        let mut built = Vec::with_capacity(alloc, self.len())?;
        framing::append(&mut built, self.id, self.payload.as_slice())?;
        Ok(built)
    }

    #[inline(always)]
    fn write_into(self, place: &mut [u8]) -> usize {
        framing::write(place, self.id, self.payload.as_slice());
        place.len()
    }
}
