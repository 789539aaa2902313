//! How soon a key that the server refused is requested again.

ghost use Rattle.std.specs.Prelude.{◌≡◌, [], IsOk, IsSome, OnErr, OnOk, length};
ghost use Rattle.std.specs.List.{position};
ghost use Rattle.turn_session_book.specs.Keys.{same_key};
ghost use Rattle.turn_session_book.specs.Once.{StandOnce, rest_key};
ghost use Rattle.turn_session_book.specs.Rests.{after_refusal, rest_in_force, rest_with, without_rest};

use crate::constants::{FIRST_REST, LAST_REST, MAX_RESTS};
use crate::keys::Key;
use crate::replies::ErrorReply;
use std::alloc::{AllocError, Global};
use std::marker::Model;
use std::time::Duration;
use turn_stun::instant::Instant;

/// A key that the server refused, and that is not requested for data again before a time.
#[derive(Clone, Copy, Debug)]
pub struct Rest {
    /// What was refused.
    pub key: Key,
    /// For how long it rests, in nanoseconds.
    pub wait: u64,
    /// When the rest ends.
    pub until: Instant,
    /// The server's error, or `None` if there was no response.
    pub error: Option<ErrorReply>,
}

/// The keys that the server refused last, at most 4,096 and each once, the oldest first. Contracts describe them by a list.
#[derive(Debug, Drop)]
pub struct Rests {
    rests: Vec<Rest>,
}

impl Model for Rests {
    ghost use Rattle.std.specs.Prelude.{List};
    ghost use Rattle.turn_session_book.specs.Once.{AreRests};
    ghost use Rattle.turn_session_book.specs.declared.rests.Rest.{Rest};

    ghost Value = { List Rest };

    ghost view = { λ r. r.rests.items };

    ghost invariant = { λ r. AreRests r.rests.items };
}

impl Rests {
    /// No key rests.
    pub fn new(alloc: Global) -> Rests
        ensures { result ≡ [] }
    {
        Rests {
            rests: Vec::new(alloc),
        }
    }

    /// Makes room for so many more rests, as far as there may be so many.
    ///
    /// # Errors
    ///
    /// If memory allocation fails.
    pub fn make_room(&mut self, count: usize) -> Result<(), AllocError>
        ensures { self.new ≡ self.old }
    {
        let left = MAX_RESTS.saturating_sub(self.rests.len());
        self.rests.reserve(count.min(left))
    }

    /// The rest of this key, if it has not ended: it ends at its time.
    pub fn rest_of(&self, key: Key, now: Instant) -> Option<Rest>
        ensures { result ≡ rest_in_force key now self.now }
    {
        match self.place_of(key) {
            Some(place) => {
                let rest = self.rests[place];
                if now < rest.until { Some(rest) } else { None }
            }
            None => None,
        }
    }

    /// The server refused this key: it rests for 5 s, and after each further refusal for twice as long, to 80 s. If more
    /// than 4,096 keys rest, the one that was refused first is forgotten.
    ///
    /// # Errors
    ///
    /// If memory allocation fails. Nothing changes then. No memory is needed for a key that was refused before, nor if 4,096
    /// are remembered.
    pub fn refused(
        &mut self,
        key: Key,
        error: Option<ErrorReply>,
        now: Instant,
    ) -> Result<(), AllocError>
        ensures ok { OnOk result (self.new ≡ after_refusal key error now self.old) }
        ensures err { OnErr result (self.new ≡ self.old) }
        ensures free_again { IsSome (rest_with key self.old) → IsOk result }
        ensures free_full { length self.old ≡ 4096 → IsOk result }
        ensures once { StandOnce rest_key self.new }
    {
        let wait = match self.place_of(key) {
            Some(place) => {
                let before = self.rests.remove(place);
                before.wait.saturating_mul(2).min(LAST_REST)
            }
            None => {
                if self.rests.len() < MAX_RESTS {
                    self.rests.reserve(1)?;
                } else {
                    let _oldest = self.rests.remove(0);
                }
                FIRST_REST
            }
        };
        self.rests.push_reserved(Rest {
            key,
            wait,
            until: now.plus(Duration::from_nanos(wait)),
            error,
        });
        Ok(())
    }

    /// The server granted this key: its rest is forgotten.
    pub fn forgive(&mut self, key: Key)
        ensures after { self.new ≡ without_rest key self.old }
        ensures once { StandOnce rest_key self.new }
    {
        if let Some(place) = self.place_of(key) {
            let _forgiven = self.rests.remove(place);
        }
    }

    /// The place of the rest of this key.
    fn place_of(&self, key: Key) -> Option<usize>
        ensures { result ≡ position (λ r. same_key r.key key) self.now }
    {
        self.rests.iter().position(|rest| rest.key == key)
    }
}
