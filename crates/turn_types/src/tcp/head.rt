//! What a stream begins with.

ghost use Rattle.std.specs.Prelude.{◌≡◌, ◌^◌, ◌<◌, ◌≤◌, length};
ghost use Rattle.turn_types.specs.Frames.{begins_no_frame};
ghost use Rattle.turn_types.specs.Heads.{IsHead};

/// The bytes of a message's header (RFC 8489, section 5).
const MESSAGE_HEADER_LEN: usize = 20;

/// The bytes of a ChannelData message's header (RFC 8656, section 12.4).
const CHANNEL_HEADER_LEN: usize = 4;

/// What a stream begins with: `Message` and `Channel` are a whole frame of so many bytes.
pub(super) enum Head {
    /// Less than a frame.
    Partial,
    /// Bytes that no frame begins with.
    NoFrame,
    /// A message.
    Message(usize),
    /// A ChannelData message with its padding.
    Channel(usize),
}

/// What these bytes begin with, by their header alone: a message's cookie is not checked (our choice: a
/// message that does not parse is whole all the same).
pub(super) fn head_of(bytes: &[u8]) -> Head
    ensures { IsHead bytes.now result }
{
    if begins_no_frame(bytes) {
        return Head::NoFrame;
    }
    let [first, _, high, low, ..] = bytes else {
        return Head::Partial;
    };
    let len = usize::from(u16::from_be_bytes([*high, *low]));
    if *first < 0x40 {
        let size = MESSAGE_HEADER_LEN + len;
        if bytes.len() < size {
            return Head::Partial;
        }
        Head::Message(size)
    } else {
        let size = CHANNEL_HEADER_LEN + len.next_multiple_of(4);
        if bytes.len() < size {
            return Head::Partial;
        }
        Head::Channel(size)
    }
}

/// Whether the first two bits are 10 or 11, with which no frame begins. The first byte is enough.
pub(super) fn begins_no_frame(bytes: &[u8]) -> bool
    ensures { result ≡ begins_no_frame bytes.now }
{
    bytes.first().is_some_and(|first| *first >= 0x80)
}
