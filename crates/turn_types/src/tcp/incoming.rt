//! The frames that a buffer returns.

use std::ops::Range;
use turn_stun::transport::Transmit;

/// A frame that is whole with a piece of a stream: a STUN message or a ChannelData message with its
/// padding. It is `Complete` if the buffer was empty, and then a range of the piece; else it is `Stored`
/// and owned. The piece is returned with it.
#[derive(Debug, Drop)]
pub enum IncomingTcp<T> {
    /// A message in the piece.
    CompleteMessage(Transmit<T>, Range<usize>),
    /// A ChannelData message in the piece.
    CompleteChannel(Transmit<T>, Range<usize>),
    /// A message that began before the piece.
    StoredMessage(Vec<u8>, Transmit<T>),
    /// A ChannelData message that began before the piece.
    StoredChannel(Vec<u8>, Transmit<T>),
}

/// A buffered frame: a whole STUN message, or a whole ChannelData message with its padding.
#[derive(Debug, Drop)]
pub enum StoredTcp {
    /// A message.
    Message(Vec<u8>),
    /// A ChannelData message.
    Channel(Vec<u8>),
}
