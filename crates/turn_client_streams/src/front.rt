//! What a stream of frames begins with (RFC 8656, section 12).

ghost use Rattle.std.specs.Prelude.{◌≡◌, false};
ghost use Rattle.turn_client_api.specs.Streams.{HoldsLittle, is_ready};
ghost use Rattle.turn_client_streams.specs.Front.{HasFront};

use crate::buffered::BufferedStream;
use turn_client_api::Mode;

/// What a frame is, as its first two bits say.
#[derive(Clone, Copy, Debug, PartialEq, Eq)]
pub enum FrameKind {
    /// A STUN message.
    Message,
    /// A ChannelData message with its padding.
    Channel,
}

/// What the buffered bytes of a stream of frames begin with.
#[derive(Debug, Drop)]
pub enum Front<'a> {
    /// A whole frame of this kind, borrowed from the buffer.
    Frame(FrameKind, &'a [u8]),
    /// Less than a frame: the stream has to wait for more bytes.
    Partial,
    /// The bits 10 or 11, with which no frame begins. A stream breaks when it is processed then.
    Stuck,
}

impl BufferedStream {
    /// Whether it can be processed: it begins with a whole frame, with bytes that no frame begins with,
    /// or with data of its peer.
    pub fn is_ready(&self) -> bool
        ensures exact { result ≡ is_ready self.now }
        ensures little { result ≡ false → HoldsLittle self.now }
    {
        match self.mode {
            Mode::Control | Mode::Waiting => match self.front() {
                Front::Frame(_, _) | Front::Stuck => true,
                Front::Partial => false,
            },
            Mode::Bound(_) => !self.buffer.is_empty(),
            Mode::Broken => false,
        }
    }

    /// What the buffered bytes begin with, if they are frames.
    pub fn front(&self) -> Front<'_>
        ensures { HasFront self.now result }
    {
        match self.buffer.front() {
            Some(frame) => {
                // The first two bits say what it is.
                if frame[0] < 0x40 {
                    Front::Frame(FrameKind::Message, frame)
                } else {
                    Front::Frame(FrameKind::Channel, frame)
                }
            }
            None => {
                if self.buffer.is_stuck() {
                    Front::Stuck
                } else {
                    Front::Partial
                }
            }
        }
    }
}
