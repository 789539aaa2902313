//! What a session notes of its requests and of what was granted.

ghost use Rattle.std.specs.Prelude.{◌≡◌, OnErr, OnOk};
ghost use Rattle.turn_session_book.specs.Book.{after_binding, after_denial, after_failure, after_grant, after_report};
ghost use Rattle.turn_session_book.specs.Book.{after_settlement, new_book, relayed_event};

mod connections;
mod reports;
mod rows;

use crate::answers::Outcome;
use crate::book::reports::{
    failure_outcome, report, report_end, report_failure, report_outcome, rest,
};
use crate::events::Event;
use crate::held::Held;
use crate::keys::{Key, permission_for};
use crate::open_requests::{OpenRequest, OpenRequests, Progress};
use crate::replies::ErrorReply;
use crate::rests::Rests;
use std::alloc::{AllocError, Global};
use std::collections::VecDeque;
use std::marker::Model;
use std::net::SocketAddr;
use turn_stun::instant::Instant;
use turn_types::AddressFamily;

/// The requests that have no outcome yet, what was granted, what rests, and the events that the caller has not polled.
#[derive(Debug, Drop)]
pub struct Book {
    requests: OpenRequests,
    held: Held,
    rests: Rests,
    events: VecDeque<Event>,
}

impl Model for Book {
    ghost use Rattle.turn_session_book.specs.BookState.{BookState};

    ghost Value = { BookState };

    ghost view = { λ b. record { requests = b.requests; held = b.held; rests = b.rests; events = b.events.items } };
}

impl Book {
    /// Nothing was requested.
    pub fn new(alloc: Global) -> Book
        ensures { result ≡ new_book }
    {
        Book {
            requests: OpenRequests::new(alloc),
            held: Held::new(alloc),
            rests: Rests::new(alloc),
            events: VecDeque::new(alloc),
        }
    }

    /// The request for this key, if there is one, has this outcome.
    ///
    /// # Errors
    ///
    /// If memory allocation fails. Nothing changes then.
    pub fn settled(&mut self, key: Key, outcome: Outcome) -> Result<(), AllocError>
        ensures ok { OnOk result (self.new ≡ after_settlement key outcome self.old) }
        ensures err { OnErr result (self.new ≡ self.old) }
    {
        self.events.reserve(1)?;
        let request = self.requests.settle(key);
        report_outcome(&mut self.events, request, key, outcome);
        Ok(())
    }

    /// The server granted this key: its request has its outcome, one that awaits it goes on, and its rest is forgotten. The grant
    /// is kept, unless it was let go before.
    ///
    /// # Errors
    ///
    /// If memory allocation fails. Nothing changes then.
    pub fn granted(&mut self, key: Key) -> Result<(), AllocError>
        ensures ok { OnOk result (self.new ≡ after_grant key self.old) }
        ensures err { OnErr result (self.new ≡ self.old) }
    {
        self.events.reserve(1)?;
        let is_kept = self.is_kept_after(key);
        self.held.granted(key, is_kept)?;
        let request = self.requests.settle(key);
        report_outcome(&mut self.events, request, key, Outcome::Granted);
        self.requests.resume(key);
        self.rests.forgive(key);
        Ok(())
    }

    /// The server has bound the channel to this peer. If it was requested and the peer's IP address is permitted, the request has
    /// its outcome; if that is not permitted, the permission is to be requested for it.
    ///
    /// # Errors
    ///
    /// If memory allocation fails. Nothing changes then.
    pub fn bound(&mut self, peer: SocketAddr) -> Result<(), AllocError>
        ensures ok { OnOk result (self.new ≡ after_binding peer self.old) }
        ensures err { OnErr result (self.new ≡ self.old) }
    {
        let key = Key::Channel(peer);
        if self.held.is_held(permission_for(key)) {
            return self.granted(key);
        }
        let is_kept = self.is_kept_after(key);
        self.held.granted(key, is_kept)?;
        self.requests.advance(key, Progress::Unpermitted);
        self.rests.forgive(key);
        Ok(())
    }

    /// The server refused this key, by this error, or with `None` it did not answer in time. A grant of it has ended, a request for
    /// it has its outcome, those that depend on it are denied, and what was requested rests.
    ///
    /// # Errors
    ///
    /// If memory allocation fails. Nothing changes then.
    pub fn failed(
        &mut self,
        key: Key,
        error: Option<ErrorReply>,
        now: Instant,
    ) -> Result<(), AllocError>
        ensures ok { OnOk result (self.new ≡ after_failure key error now self.old) }
        ensures err { OnErr result (self.new ≡ self.old) }
    {
        self.events.reserve(2)?;
        let requested = self.is_requested(key);
        rest(&mut self.rests, requested, key, error, now)?;
        let kept = self.held.ended(key);
        report_end(&mut self.events, kept, key, error);
        let request = self.requests.settle(key);
        report_failure(&mut self.events, request, key, error);
        self.requests.deny(key, error);
        Ok(())
    }

    /// The permission for this request was refused, which is its outcome, and its key rests. A channel stays bound.
    ///
    /// # Errors
    ///
    /// If memory allocation fails. Nothing changes then.
    pub fn denied(&mut self, request: OpenRequest, now: Instant) -> Result<(), AllocError>
        ensures ok { OnOk result (self.new ≡ after_denial request now self.old) }
        ensures err { OnErr result (self.new ≡ self.old) }
    {
        self.events.reserve(1)?;
        rest(&mut self.rests, true, request.key, request.error, now)?;
        let settled = self.requests.settle(request.key);
        let outcome = failure_outcome(request.error, None);
        report_outcome(&mut self.events, settled, request.key, outcome);
        Ok(())
    }

    /// The server granted this relayed address. The first one opens the relay, with this client's address as the server sees it.
    ///
    /// # Errors
    ///
    /// If memory allocation fails. Nothing changes then.
    pub fn opened(
        &mut self,
        relayed: SocketAddr,
        mapped: Option<SocketAddr>,
        is_first: bool,
    ) -> Result<(), AllocError>
        ensures ok { OnOk result (self.new ≡ after_report (relayed_event relayed mapped is_first) self.old) }
        ensures err { OnErr result (self.new ≡ self.old) }
    {
        self.events.reserve(1)?;
        report(&mut self.events, relayed_event(relayed, mapped, is_first));
        Ok(())
    }

    /// There is no relayed address of this family, by this error of the server.
    ///
    /// # Errors
    ///
    /// If memory allocation fails. Nothing changes then.
    pub fn family_failed(
        &mut self,
        family: AddressFamily,
        error: Option<ErrorReply>,
    ) -> Result<(), AllocError>
        ensures ok { OnOk result (self.new ≡ after_report (Event.FamilyFailed family error) self.old) }
        ensures err { OnErr result (self.new ≡ self.old) }
    {
        self.events.reserve(1)?;
        report(&mut self.events, Event::FamilyFailed(family, error));
        Ok(())
    }
}

/// The event that reports a relayed address, which may be the first one.
fn relayed_event(relayed: SocketAddr, mapped: Option<SocketAddr>, is_first: bool) -> Event
    ensures { result ≡ relayed_event relayed mapped is_first }
{
    if is_first {
        return Event::Up(relayed, mapped);
    }
    Event::Also(relayed)
}
