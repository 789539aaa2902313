//! What a session of a relay is asked for: what the one before it had, and what the caller requests.

ghost use Rattle.std.specs.Prelude.{◌≡◌, ℕ, take, slice_get, None, IfOk, OnErr, OnOk};
ghost use Rattle.std.specs.List.{list_any, position};
ghost use Rattle.turn_relay_tries.specs.Wanted.{added, after_request, behind_ticket, is_channel_in, is_wanted, next_of, nothing_wanted, of_key, outcome_of, row_of, ticket_for, ticketed};
ghost use Rattle.turn_relay_tries.specs.Wanted.{wanted_all, wanted_if_kept, wanted_too, with_ticket};

mod asking;
mod outcomes;

use std::alloc::{AllocError, Global};
use std::marker::Model;
use turn_session_book::answers::Outcome;
use turn_session_book::held::HeldGrant;
use turn_session_book::keys::Key;
use turn_session_book::replies::ErrorReply;
use turn_stun::instant::Instant;

/// A key that is wanted. Sessions are numbered from 1 on.
#[derive(Clone, Copy, Debug, PartialEq, Eq)]
pub struct WantedKey {
    /// What is wanted.
    pub key: Key,
    /// Whether it is a channel.
    pub is_channel: bool,
    /// The ticket under which the caller awaits its outcome, or `None` if a session had it before.
    pub ticket: Option<u32>,
    /// The number of the last session that was asked for it, or 0.
    pub asked: u64,
    /// The last answer to it that is in doubt.
    pub doubt: Option<Doubt>,
}

/// The answer of a server that may have forgotten the allocation.
#[derive(Clone, Copy, Debug, PartialEq, Eq)]
pub struct Doubt {
    /// The number of the session that was asked.
    pub session: u64,
    /// When the answer counts, if the session has not ended before.
    pub until: Instant,
    /// The answer.
    pub answer: Unsure,
}

/// An answer to a request that a server gives, too, that has forgotten the allocation.
#[derive(Clone, Copy, Debug, PartialEq, Eq)]
pub enum Unsure {
    /// It refused the request.
    Refused(ErrorReply),
    /// No response was accepted in time. The error is that of the last response that was ignored.
    TimedOut(Option<ErrorReply>),
}

impl Unsure {
    /// The outcome of the request, once the answer counts.
    pub fn outcome(self) -> Outcome
        ensures { result ≡ outcome_of self }
    {
        match self {
            Unsure::Refused(error) => Outcome::Refused(error),
            Unsure::TimedOut(error) => Outcome::TimedOut(error),
        }
    }
}

/// The keys that a session of a relay is asked for, since the one before it had them, or since the caller requests them, in the order
/// in which they were lost and requested. Each key is wanted once.
#[derive(Debug, Drop)]
pub struct Wanted {
    keys: Vec<WantedKey>,
    session: u64,
    next_ticket: u32,
}

impl Model for Wanted {
    ghost use Rattle.turn_relay_tries.specs.WantedState.{WantedState};

    ghost Value = { WantedState };

    ghost view = { λ w. record { keys = w.keys.items; session = w.session; next_ticket = w.next_ticket } };
}

impl Wanted {
    /// Nothing is wanted. The first session is the one that begins next, and the first ticket is 1.
    pub fn new(alloc: Global) -> Wanted
        ensures { result ≡ nothing_wanted }
    {
        Wanted {
            keys: Vec::new(alloc),
            session: 0,
            next_ticket: 1,
        }
    }

    /// The session has lost this key: it is wanted again.
    ///
    /// # Errors
    ///
    /// If memory allocation fails. Nothing changes then.
    pub fn want(&mut self, key: Key) -> Result<(), AllocError>
        ensures ok { OnOk result (self.new ≡ wanted_too key self.old) }
        ensures err { OnErr result (self.new ≡ self.old) }
    {
        if self.is_wanted(key) {
            return Ok(());
        }
        self.keys.reserve(1)?;
        self.keys.push_reserved(WantedKey {
            key,
            is_channel: is_channel(key),
            ticket: None,
            asked: 0,
            doubt: None,
        });
        Ok(())
    }

    /// The session ends that had these grants: those that its caller keeps are wanted again.
    ///
    /// # Errors
    ///
    /// If memory allocation fails. The first of them are wanted then: call it again.
    pub fn want_all(&mut self, grants: &[HeldGrant]) -> Result<(), AllocError>
        ensures ok { OnOk result (self.new ≡ wanted_all grants.now self.old) }
        ensures err { OnErr result ((few : ℕ) × (self.new ≡ wanted_all (take few grants.now) self.old)) }
    {
        for grant in grants {
            self.want_if_kept(grant)?;
        }
        Ok(())
    }

    /// The caller requests this key. Returns the ticket under which it awaits the outcome: that of an earlier request for the key, if
    /// that has no outcome yet.
    ///
    /// # Errors
    ///
    /// If memory allocation fails. Nothing changes then.
    pub fn request(&mut self, key: Key) -> Result<u32, AllocError>
        ensures ticket { IfOk result (λ ticket. ticket ≡ ticket_for key self.old) }
        ensures ok { OnOk result (self.new ≡ after_request key self.old) }
        ensures err { OnErr result (self.new ≡ self.old) }
    {
        match self.row_of(key) {
            Some(row) => Ok(self.ticket_of(row)),
            None => self.add(key),
        }
    }

    /// Whether this key is wanted.
    pub fn is_wanted(&self, key: Key) -> bool
        ensures { result ≡ is_wanted key self.now }
    {
        self.keys.iter().any(|row| row.key == key)
    }

    /// The first key that is wanted.
    pub fn first(&self) -> Option<WantedKey>
        ensures { result ≡ slice_get self.now.keys 0 }
    {
        match self.keys.first() {
            Some(row) => Some(*row),
            None => None,
        }
    }

    /// A session ends that had this grant.
    fn want_if_kept(&mut self, grant: &HeldGrant) -> Result<(), AllocError>
        ensures ok { OnOk result (self.new ≡ wanted_if_kept self.old grant.now) }
        ensures err { OnErr result (self.new ≡ self.old) }
    {
        if grant.is_kept {
            self.want(grant.key)
        } else {
            Ok(())
        }
    }

    /// The ticket of this row, which has one from now on.
    fn ticket_of(&mut self, row: WantedKey) -> u32
        ensures ticket { result ≡ next_of row self.old }
        ensures after { self.new ≡ with_ticket row self.old }
    {
        match row.ticket {
            Some(ticket) => ticket,
            None => {
                let ticket = self.take_ticket();
                self.set_ticket(row.key, ticket);
                ticket
            }
        }
    }

    /// The caller awaits the outcome for this key under this ticket.
    fn set_ticket(&mut self, key: Key, ticket: u32)
        ensures { self.new ≡ ticketed key ticket self.old }
    {
        if let Some(place) = self.place_of(key) {
            let row = self.keys[place];
            self.keys[place] = WantedKey {
                ticket: Some(ticket),
                ..row
            };
        }
    }

    /// The caller requests a key that is not wanted yet.
    fn add(&mut self, key: Key) -> Result<u32, AllocError>
        ensures ticket { IfOk result (λ ticket. ticket ≡ self.old.next_ticket) }
        ensures ok { OnOk result (self.new ≡ added key self.old) }
        ensures err { OnErr result (self.new ≡ self.old) }
    {
        self.keys.reserve(1)?;
        self.keys.push_reserved(WantedKey {
            key,
            is_channel: is_channel(key),
            ticket: Some(self.next_ticket),
            asked: 0,
            doubt: None,
        });
        Ok(self.take_ticket())
    }

    /// The next ticket.
    fn take_ticket(&mut self) -> u32
        ensures ticket { result ≡ self.old.next_ticket }
        ensures after { self.new ≡ behind_ticket self.old }
    {
        let ticket = self.next_ticket;
        self.next_ticket = ticket.wrapping_add(1);
        ticket
    }

    /// What is wanted of this key.
    pub(crate) fn row_of(&self, key: Key) -> Option<WantedKey>
        ensures { result ≡ row_of key self.now }
    {
        match self.place_of(key) {
            Some(place) => Some(self.keys[place]),
            None => None,
        }
    }

    /// The place of this key.
    pub(crate) fn place_of(&self, key: Key) -> Option<usize>
        ensures { result ≡ position (of_key key) self.now.keys }
    {
        self.keys.iter().position(|row| row.key == key)
    }
}

/// Whether this key is a channel.
fn is_channel(key: Key) -> bool
    ensures { result ≡ is_channel_in key }
{
    matches!(key, Key::Channel(_))
}
