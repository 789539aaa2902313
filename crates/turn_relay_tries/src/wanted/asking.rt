//! What a session is asked for, and in which order.

ghost use Rattle.std.specs.Prelude.{◌≡◌};
ghost use Rattle.std.specs.List.{list_any, position};
ghost use Rattle.turn_relay_tries.specs.Wanted.{after_asking, anew, is_doubted_in, is_due_in, is_open_channel_in, is_restored, is_wanted_again, next_key};
ghost use Rattle.turn_relay_tries.specs.Wanted.{waits_for_channels};

use crate::wanted::{Wanted, WantedKey};
use turn_session_book::keys::Key;

impl Wanted {
    /// Another session begins, which is asked for all that is wanted.
    pub fn begin(&mut self)
        ensures { self.new ≡ anew self.old }
    {
        self.session = self.session.saturating_add(1);
    }

    /// The key that the session is to be asked for next: channels first, and the others when there is an answer for each of these, since
    /// a channel brings the permission of its IP address (RFC 8656, section 12).
    pub fn next_key(&self) -> Option<Key>
        ensures { result ≡ next_key self.now }
    {
        match self.due_place() {
            Some(place) => Some(self.keys[place].key),
            None => None,
        }
    }

    /// The session was asked for this key.
    pub fn asked(&mut self, key: Key)
        ensures { self.new ≡ after_asking key self.old }
    {
        if let Some(place) = self.place_of(key) {
            let row = self.keys[place];
            self.keys[place] = WantedKey {
                asked: self.session,
                ..row
            };
        }
    }

    /// Whether this session has had an answer for each key that one before it had.
    pub fn is_restored(&self) -> bool
        ensures { result ≡ is_restored self.now }
    {
        !self.has_open()
    }

    /// Whether this session has no answer for some key that one before it had.
    fn has_open(&self) -> bool
        ensures { result ≡ list_any (is_wanted_again self.now.session) self.now.keys }
    {
        let session = self.session;
        self.keys.iter().any(|row| is_wanted_again(row, session))
    }

    /// Whether keys wait for a channel.
    fn waits_for_channels(&self) -> bool
        ensures { result ≡ list_any (is_open_channel_in self.now.session) self.now.keys }
    {
        let session = self.session;
        self.keys
            .iter()
            .any(|row| row.is_channel && !is_doubted(row, session))
    }

    /// The place of the first key that waits for nothing.
    fn due_place(&self) -> Option<usize>
        ensures { result ≡ position (is_due_in (waits_for_channels self.now) self.now.session) self.now.keys }
    {
        let waits = self.waits_for_channels();
        let session = self.session;
        self.keys
            .iter()
            .position(|row| row.asked < session && (row.is_channel || !waits))
    }
}

/// Whether this session has no answer for the key, which one before it had.
fn is_wanted_again(row: &WantedKey, session: u64) -> bool
    ensures { result ≡ is_wanted_again session row.now }
{
    match row.ticket {
        Some(_ticket) => false,
        None => !is_doubted(row, session),
    }
}

/// Whether the answer of this session for the key is in doubt.
fn is_doubted(row: &WantedKey, session: u64) -> bool
    ensures { result ≡ is_doubted_in session row.now }
{
    match row.doubt {
        Some(doubt) => doubt.session == session,
        None => false,
    }
}
