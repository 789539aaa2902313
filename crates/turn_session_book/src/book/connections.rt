//! What becomes of data connections (RFC 6062, section 4.3). Of those that the peer has requested nothing is noted.

ghost use Rattle.std.specs.Prelude.{◌≡◌, OnErr, OnOk};
ghost use Rattle.turn_session_book.specs.Book.{after_connection, after_disconnection, after_opening_failed};

use crate::answers::Outcome;
use crate::book::Book;
use crate::keys::Key;
use crate::replies::ErrorReply;
use crate::tags::Tag;
use std::alloc::AllocError;
use turn_stun::instant::Instant;

impl Book {
    /// The data connection for this key is bound: its request has its outcome, and its rest is forgotten. Nothing is renewed for
    /// it. If the client was not asked for it, the peer has requested it, and nothing changes.
    ///
    /// # Errors
    ///
    /// If memory allocation fails. Nothing changes then.
    pub fn connected(&mut self, key: Key) -> Result<(), AllocError>
        ensures ok { OnOk result (self.new ≡ after_connection key self.old) }
        ensures err { OnErr result (self.new ≡ self.old) }
    {
        if !self.requests.is_clients(key) {
            return Ok(());
        }
        self.settled(key, Outcome::Granted)?;
        self.rests.forgive(key);
        Ok(())
    }

    /// The data connection for this key was refused, or not bound. If the client was not asked for it, the peer has requested it,
    /// and nothing changes.
    ///
    /// # Errors
    ///
    /// If memory allocation fails. Nothing changes then.
    pub fn disconnected(
        &mut self,
        key: Key,
        error: Option<ErrorReply>,
        now: Instant,
    ) -> Result<(), AllocError>
        ensures ok { OnOk result (self.new ≡ after_disconnection key error now self.old) }
        ensures err { OnErr result (self.new ≡ self.old) }
    {
        if !self.requests.is_clients(key) {
            return Ok(());
        }
        self.failed(key, error, now)
    }

    /// The caller could not open the data connection for this key, or it was closed before the server had bound it: that is the
    /// outcome of its request. If the client was not asked for it, the peer has requested it, and nothing changes.
    ///
    /// # Errors
    ///
    /// If memory allocation fails. Nothing changes then.
    pub fn not_opened(&mut self, key: Key, tag: Tag) -> Result<(), AllocError>
        ensures ok { OnOk result (self.new ≡ after_opening_failed key tag self.old) }
        ensures err { OnErr result (self.new ≡ self.old) }
    {
        if !self.requests.is_clients(key) {
            return Ok(());
        }
        self.settled(key, Outcome::NotOpened(tag))
    }
}
