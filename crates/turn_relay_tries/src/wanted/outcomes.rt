//! What becomes of the keys that a session was asked for.

ghost use Rattle.std.specs.Prelude.{◌≡◌};
ghost use Rattle.std.specs.List.{position};
ghost use Rattle.turn_relay_tries.specs.Wanted.{after_answer, after_doubt, begins_to_count, counts_at, due_in, row_of, sooner_doubt};

use crate::tasks::sooner_of;
use crate::wanted::{Doubt, Unsure, Wanted, WantedKey};
use turn_session_book::keys::Key;
use turn_stun::instant::Instant;

impl Wanted {
    /// There is an outcome for this key, which is no longer wanted. Returns what was.
    pub fn settled(&mut self, key: Key) -> Option<WantedKey>
        ensures row { result ≡ row_of key self.old }
        ensures after { self.new ≡ after_answer key self.old }
    {
        let row = self.row_of(key);
        if let Some(place) = self.place_of(key) {
            let _settled = self.keys.remove(place);
        }
        row
    }

    /// The server has given this answer for this key, as one does that has forgotten the allocation. It counts from this time on, unless
    /// the session has ended by then: the next one is asked again.
    pub fn unsure(&mut self, key: Key, answer: Unsure, until: Instant)
        ensures { self.new ≡ after_doubt key answer until self.old }
    {
        if let Some(place) = self.place_of(key) {
            let row = self.keys[place];
            self.keys[place] = WantedKey {
                doubt: Some(Doubt {
                    session: self.session,
                    until,
                    answer,
                }),
                ..row
            };
        }
    }

    /// The first answer in doubt that counts now, since the session goes on, and its key.
    pub fn counts(&self, now: Instant) -> Option<WantedKey>
        ensures { result ≡ counts_at now self.now }
    {
        match self.counting_place(now) {
            Some(place) => Some(self.keys[place]),
            None => None,
        }
    }

    /// When the next answer in doubt counts.
    pub fn due(&self) -> Option<Instant>
        ensures { result ≡ due_in self.now.session self.now.keys }
    {
        let session = self.session;
        self.keys
            .iter()
            .fold(None, |due, row| sooner_doubt(due, row, session))
    }

    /// The place of the first answer in doubt that counts now.
    fn counting_place(&self, now: Instant) -> Option<usize>
        ensures { result ≡ position (begins_to_count now self.now.session) self.now.keys }
    {
        let session = self.session;
        self.keys
            .iter()
            .position(|row| counts_now(row, session, now))
    }
}

/// Whether the answer of this session for the key is in doubt, and counts now.
fn counts_now(row: &WantedKey, session: u64, now: Instant) -> bool
    ensures { result ≡ begins_to_count now session row.now }
{
    match row.doubt {
        Some(doubt) => doubt.session == session && doubt.until <= now,
        None => false,
    }
}

/// The sooner of a time, if there is one, and of that at which the answer of this session for the key counts, if it is in doubt.
fn sooner_doubt(due: Option<Instant>, row: &WantedKey, session: u64) -> Option<Instant>
    ensures { result ≡ sooner_doubt session due row.now }
{
    match row.doubt {
        Some(doubt) if doubt.session == session => sooner_of(due, doubt.until),
        _ => due,
    }
}
