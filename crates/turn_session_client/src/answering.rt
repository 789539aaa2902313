//! What an error response says.

ghost use Rattle.std.specs.Prelude.{◌≡◌};
ghost use Rattle.turn_session_client.specs.Answering.{IsReply, is_channel_data, reason_in};
ghost use Rattle.std.specs.Prelude.{take};
ghost use Rattle.turn_session_book.specs.Replies.{text_of};

use turn_hints::{alternate_server_of, code_of, reason_place_of};
use turn_session_book::replies::{ErrorReply, Phrase};
use turn_stun::message::Message;

/// Whether these bytes begin with ChannelData or nothing known, and not with a message (RFC 8656, section 12).
#[inline(always)]
pub fn is_channel_data(bytes: &[u8]) -> bool
    ensures { result ≡ is_channel_data bytes.now }
{
    match bytes.first() {
        Some(first) => 64 <= *first && *first < 128,
        None => false,
    }
}

/// What an error response says, once the client has accepted it.
pub(crate) fn reply_of(message: &Message<'_>) -> ErrorReply
    ensures { IsReply message.now result }
{
    ErrorReply {
        code: code_of(message),
        is_taken: true,
        phrase: phrase_of(message),
        alternate: alternate_server_of(message),
    }
}

/// Its reason phrase.
fn phrase_of(message: &Message<'_>) -> Phrase
    ensures { text_of result ≡ take 127 (reason_in message.now) }
{
    match reason_place_of(message) {
        Some(place) => Phrase::new(&message.as_bytes()[place]),
        None => Phrase::new(&[]),
    }
}
