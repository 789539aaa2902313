//! Error responses of the server, as a session reports them.

ghost use Rattle.std.specs.Prelude.{◌≡◌, ◌≤◌, take};

use std::net::SocketAddr;

/// The bytes of a reason phrase that are kept. RFC 8489, section 14.8, permits fewer than 128 characters: a phrase in
/// ASCII is kept whole.
pub const MAX_PHRASE: usize = 127;

/// The reason phrase of an error response: its first 127 bytes (RFC 8489, section 14.8).
///
/// They need not be UTF-8 or printable, and a longer phrase may be cut within a character.
#[derive(Clone, Copy, Debug, PartialEq, Eq)]
pub struct Phrase {
    bytes: [u8; MAX_PHRASE],
    len: usize,
    ghost within: { len ≤ 127 },
}

impl Phrase {
    ghost use Rattle.turn_session_book.specs.Replies.{IsPadded, text_of};

    /// The phrase with these bytes, of which the first 127 are kept.
    pub fn new(text: &[u8]) -> Phrase
        ensures text { text_of result ≡ take 127 text.now }
        ensures padding { IsPadded result }
    {
        let len = MAX_PHRASE.min(text.len());
        let mut bytes = [0; MAX_PHRASE];
        bytes[..len].copy_from_slice(&text[..len]);
        Phrase { bytes, len }
    }

    /// Its bytes, at most 127.
    pub fn as_bytes(&self) -> &[u8]
        ensures { result.now ≡ text_of self.now }
    {
        &self.bytes[..self.len]
    }
}

/// An error response, as far as a session reports it.
#[derive(Clone, Copy, Debug, PartialEq, Eq)]
pub struct ErrorReply {
    /// Its code, from 300 to 699, or `None` if it has no valid ERROR-CODE (RFC 8489, section 14.8).
    pub code: Option<u16>,
    /// Whether the client accepted the response. With an allocation that means that its signature is valid; otherwise the
    /// code is a hint, which anyone who can reach the socket may have sent.
    pub is_taken: bool,
    /// Its reason phrase.
    pub phrase: Phrase,
    /// The server that it names to be used instead (RFC 8489, section 10).
    pub alternate: Option<SocketAddr>,
}
