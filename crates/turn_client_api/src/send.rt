//! Packets for a peer, built when they are sent.

ghost use Rattle.std.specs.Prelude.{◌≡◌, ◌≤◌, ◌++◌, length, replicate, slice_range};
ghost use Rattle.turn_client_api.specs.Range.{part_of};
ghost use Rattle.turn_client_api.specs.Delayed.{delayed_part, delayed_send_bytes};

use crate::receive::DataRange;
use std::alloc::{AllocError, Global};
use std::convert::AsSlice;
use std::ops::Range;
use turn_types::transmit::{DelayedChannel, DelayedMessage, DelayedTransmitBuild};

/// A range of some bytes, which is sent unchanged. It is copied when it is sent.
#[derive(Debug, Drop)]
pub struct DelayedTransmit<T: AsSlice<u8>> {
    part: DataRange<T>,
}

impl<T: AsSlice<u8>> DelayedTransmit<T> {
    /// This range of these bytes, inside which it lies.
    pub fn new(data: T, range: Range<usize>) -> DelayedTransmit<T>
        requires ordered { range.start ≤ range.end }
        requires inside { range.end ≤ length (T.items «data») }
        ensures { delayed_part result ≡ slice_range (T.items «data») range.start range.end }
    {
        DelayedTransmit {
            part: DataRange::new(data, range),
        }
    }
}

impl<T: AsSlice<u8> + Drop> DelayedTransmitBuild for DelayedTransmit<T> {
    ghost bytes = { delayed_part };

    fn len(&self) -> usize {
        self.part.as_slice().len()
    }

    fn build(self, alloc: Global) -> Result<Vec<u8>, AllocError> {
        Vec::from_slice(alloc, self.part.as_slice())
    }

    fn write_into(self, place: &mut [u8]) -> usize {
        place.copy_from_slice(self.part.as_slice());
        place.len()
    }
}

/// What `send_to` of a client makes of data for a peer: a packet for the server, which is built
/// when it is sent.
#[derive(Debug, Drop)]
pub enum DelayedMessageOrChannelSend<T: AsSlice<u8>> {
    /// Over the channel of the peer (RFC 8656, section 12.5).
    Channel(DelayedChannel<T>),
    /// As a Send indication (RFC 8656, section 11.1).
    Message(DelayedMessage<T>),
    /// The data unchanged, for a data connection (RFC 6062, section 4.3).
    Data(T),
    /// Bytes that are already built.
    OwnedData(Vec<u8>),
}

impl<T: AsSlice<u8>> DelayedMessageOrChannelSend<T> {
    ghost use Rattle.turn_client_api.specs.Delayed.{delayed_send_head, delayed_send_payload};

    /// The data, which is sent behind the head and before the padding.
    pub fn payload(&self) -> &[u8]
        ensures { result.now ≡ delayed_send_payload self.now }
    {
        match self {
            DelayedMessageOrChannelSend::Channel(channel) => channel.payload(),
            DelayedMessageOrChannelSend::Message(message) => message.payload(),
            DelayedMessageOrChannelSend::Data(data) => data.as_slice(),
            DelayedMessageOrChannelSend::OwnedData(bytes) => bytes.as_slice(),
        }
    }

    /// How many bytes precede the data in the packet: 4 over a channel, 36 or 48 in a Send indication to a
    /// peer of IPv4 or IPv6, and else none.
    pub fn head_len(&self) -> usize
        ensures { result ≡ length (delayed_send_head self.now) }
    {
        match self {
            DelayedMessageOrChannelSend::Channel(_) => 4,
            DelayedMessageOrChannelSend::Message(message) => message.head_len(),
            DelayedMessageOrChannelSend::Data(_) | DelayedMessageOrChannelSend::OwnedData(_) => 0,
        }
    }

    /// Writes what precedes the data in the packet into a slice of exactly its length, `head_len`. Who sends
    /// the head, the data from where it lies, and `padding_len` zeros as one packet, as by `sendmsg`, copies
    /// no data.
    pub fn write_head(&self, place: &mut [u8])
        requires { length place.old ≡ length (delayed_send_head self.now) }
        ensures { place.new ≡ delayed_send_head self.now }
    {
        match self {
            DelayedMessageOrChannelSend::Channel(channel) => channel.write_head(place),
            DelayedMessageOrChannelSend::Message(message) => message.write_head(place),
            DelayedMessageOrChannelSend::Data(_) | DelayedMessageOrChannelSend::OwnedData(_) => {}
        }
    }

    /// How many zeros follow the data in the packet, up to three: head, data and padding are the bytes that
    /// `write_into` writes.
    pub fn padding_len(&self) -> usize
        ensures { delayed_send_bytes self.now ≡ delayed_send_head self.now ++ delayed_send_payload self.now ++ replicate result 0 }
    {
        match self {
            DelayedMessageOrChannelSend::Channel(channel) => channel.padding_len(),
            DelayedMessageOrChannelSend::Message(message) => message.padding_len(),
            DelayedMessageOrChannelSend::Data(_) | DelayedMessageOrChannelSend::OwnedData(_) => 0,
        }
    }
}

impl<T: AsSlice<u8> + Drop> DelayedTransmitBuild for DelayedMessageOrChannelSend<T> {
    ghost bytes = { delayed_send_bytes };

    fn len(&self) -> usize {
        match self {
            DelayedMessageOrChannelSend::Channel(channel) => channel.len(),
            DelayedMessageOrChannelSend::Message(message) => message.len(),
            DelayedMessageOrChannelSend::Data(data) => data.as_slice().len(),
            DelayedMessageOrChannelSend::OwnedData(bytes) => bytes.len(),
        }
    }

    fn build(self, alloc: Global) -> Result<Vec<u8>, AllocError> {
        match self {
            DelayedMessageOrChannelSend::Channel(channel) => channel.build(alloc),
            DelayedMessageOrChannelSend::Message(message) => message.build(alloc),
            DelayedMessageOrChannelSend::Data(data) => Vec::from_slice(alloc, data.as_slice()),
            DelayedMessageOrChannelSend::OwnedData(bytes) => Ok(bytes),
        }
    }

    // As `TransmitBuild::write_into`, which calls it.
    #[inline(always)]
    fn write_into(self, place: &mut [u8]) -> usize {
        match self {
            DelayedMessageOrChannelSend::Channel(channel) => channel.write_into(place),
            DelayedMessageOrChannelSend::Message(message) => message.write_into(place),
            DelayedMessageOrChannelSend::Data(data) => copied(data.as_slice(), place),
            DelayedMessageOrChannelSend::OwnedData(bytes) => copied(bytes.as_slice(), place),
        }
    }
}

/// Copies the bytes into a slice of exactly their length, and returns this length.
fn copied(bytes: &[u8], place: &mut [u8]) -> usize
    requires { length place.old ≡ length bytes.now }
    ensures copied { place.new ≡ bytes.now }
    ensures len { result ≡ length bytes.now }
{
    place.copy_from_slice(bytes);
    bytes.len()
}
