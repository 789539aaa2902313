//! The first frame of a datagram or of a stream.

ghost use Rattle.std.specs.Prelude.{◌≡◌, true, false, List, IsOk, length, take, Option, Some, None};
ghost use Rattle.turn_stun.specs.Message.{Attribute, IsMessage};
ghost use Rattle.turn_types.specs.Channel.{IsChannel};
ghost use Rattle.turn_types.specs.Frames.{begins_no_frame, frame_len};
ghost use Rattle.turn_hints.specs.First.{IsFirst, IsFirstOfStream, IsDatagram};

use turn_stun::message::Message;
use turn_stun::transport::TransportType;
use turn_types::channel::ChannelData;

/// What bytes begin with.
#[derive(Debug, Drop)]
pub enum FirstFrame<'a> {
    /// A STUN message (RFC 8489, section 5).
    Message(Message<'a>),
    /// A ChannelData message (RFC 8656, section 12.4) of so many bytes, with its padding over a stream.
    ChannelData(ChannelData<'a>, usize),
    /// Less than a frame of a stream: more bytes are needed.
    Part,
    /// Neither.
    NoFrame,
}

/// The first frame of these bytes: a datagram, or what a stream has brought so far. A STUN message over UDP is the whole
/// datagram, and what follows ChannelData there is unread (RFC 8656, section 12.5). Allocates no memory.
pub fn first_frame<'a>(transport: TransportType, bytes: &'a [u8]) -> FirstFrame<'a>
    ensures { IsFirst transport bytes.now result }
{
    match transport {
        TransportType::Udp => datagram(bytes),
        TransportType::Tcp => first_of_stream(bytes),
    }
}

fn datagram<'a>(bytes: &'a [u8]) -> FirstFrame<'a>
    ensures { IsDatagram bytes.now result }
{
    match Message::from_bytes(bytes) {
        Ok(message) => FirstFrame::Message(message),
        Err(_) => match ChannelData::parse(bytes) {
            Ok(channel) => {
                let len = 4 + channel.data().len();
                FirstFrame::ChannelData(channel, len)
            }
            Err(_) => FirstFrame::NoFrame,
        },
    }
}

fn first_of_stream<'a>(bytes: &'a [u8]) -> FirstFrame<'a>
    ensures { IsFirstOfStream bytes.now result }
{
    match frame_len(bytes) {
        None if begins_no_frame(bytes) => FirstFrame::NoFrame,
        None => FirstFrame::Part,
        Some(len) if bytes[0] < 0x40 => match Message::from_bytes(&bytes[..len]) {
            Ok(message) => FirstFrame::Message(message),
            Err(_) => FirstFrame::NoFrame,
        },
        Some(len) => match ChannelData::parse(bytes) {
            Ok(channel) => FirstFrame::ChannelData(channel, len),
            Err(_) => unreachable!(),
        },
    }
}

/// How many bytes the first frame of a stream has, if the whole of it is present.
fn frame_len(bytes: &[u8]) -> Option<usize>
    ensures { result ≡ frame_len bytes.now }
{
    let [first, _, high, low, ..] = bytes else {
        return None;
    };
    if *first >= 0x80 {
        return None;
    }
    let len = usize::from(u16::from_be_bytes([*high, *low]));
    let size = if *first < 0x40 {
        20 + len
    } else {
        4 + len.next_multiple_of(4)
    };
    if bytes.len() < size { None } else { Some(size) }
}

/// Whether the first two bits are 10 or 11, with which no frame begins. The first byte is enough.
fn begins_no_frame(bytes: &[u8]) -> bool
    ensures { result ≡ begins_no_frame bytes.now }
{
    bytes.first().is_some_and(|first| *first >= 0x80)
}
