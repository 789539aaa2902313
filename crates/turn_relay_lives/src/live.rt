//! A session of a relay.

ghost use Rattle.std.specs.Borrow.{sem};
ghost use Rattle.std.specs.Prelude.{◌≡◌, ◌≤◌, ◌^◌, IfOk, OnErr};
ghost use Rattle.turn_relay_lives.specs.LiveState.{chosen, due_after, is_due, is_used, left, new_live};
ghost use Rattle.turn_relay_lives.specs.LifeSteps.{LiveFails, LiveNext};

use crate::link::{Link, Role};
use std::alloc::AllocError;
use std::marker::Model;
use turn_client_api::TurnClientApi;
use turn_relay_tries::tasks::Attempt;
use turn_session::due::Due;
use turn_session::session::Session;
use turn_stun::instant::Instant;

/// A session of a relay, with its socket.
///
/// Contracts describe it by its `LiveState`.
#[derive(Debug, Drop)]
pub struct Live<C: TurnClientApi> {
    link: Link,
    /// It has nothing to do before this time.
    due: Instant,
    session: Session<C>,
}

impl<C: TurnClientApi> Model for Live<C> {
    ghost use Rattle.turn_relay_lives.specs.LiveState.{LiveState};

    ghost Value = { LiveState };

    ghost view = { λ l. record { link = l.link; due = l.due; session = l.session } };
}

impl<C: TurnClientApi> Live<C> {
    ghost use Rattle.turn_relay_lives.specs.Lending.{lends_session};

    /// A session over the socket of this number, which was opened for this attempt. It tries to get an address.
    pub fn new(socket: u64, attempt: Attempt, session: Session<C>) -> Live<C>
        ensures { result ≡ new_live socket attempt session }
    {
        Live {
            link: Link {
                socket,
                attempt,
                role: Role::Trying,
            },
            due: Instant::ZERO,
            session,
        }
    }

    /// Its socket, and what it is for.
    pub fn link(&self) -> Link
        ensures { result ≡ self.now.link }
    {
        self.link
    }

    /// Whether the relay uses it.
    pub fn is_used(&self) -> bool
        ensures { result ≡ is_used self.now }
    {
        matches!(self.link.role, Role::InUse)
    }

    /// The session.
    pub fn session(&self) -> &Session<C>
        ensures { result.now ≡ self.now.session }
    {
        &self.session
    }

    /// It has nothing to do before this time.
    pub fn due(&self) -> Instant
        ensures { result ≡ self.now.due }
    {
        self.due
    }

    /// Whether it may have something to do.
    pub fn is_due(&self, now: Instant) -> bool
        ensures { result ≡ is_due now self.now }
    {
        self.due <= now
    }

    /// It leaves: its allocation is deleted, and it ends, as `Session::leave` says. One that leaves goes on with that.
    pub fn leave(&mut self, now: Instant)
        ensures { self.new ≡ left now self.old }
    {
        self.link.role = Role::Leaving;
        self.due = Instant::ZERO;
        self.session.leave(now);
    }

    /// The session of this socket is used, and the others that try leave.
    pub fn choose(&mut self, socket: u64, now: Instant)
        ensures { self.new ≡ chosen socket now self.old }
    {
        if self.link.socket == socket {
            self.link.role = Role::InUse;
        } else if matches!(self.link.role, Role::Trying) {
            self.leave(now);
        }
    }

    /// Does what is due in the session.
    ///
    /// # Errors
    ///
    /// If memory allocation fails for a packet, as that of `Session::next`. Call it again.
    pub fn next(&mut self, now: Instant) -> Result<Due, AllocError>
        requires now_in_range { now ≤ 2 ^ 62 }
        ensures due { IfOk result (λ due. LiveNext now self.old self.new due) }
        ensures no_memory { OnErr result (LiveFails now self.old self.new) }
    {
        let due = self.session.next(now)?;
        self.due = due_after(&due, self.due);
        Ok(due)
    }

    /// The session, for a call that may give it something to do.
    pub fn touch(&mut self) -> &mut Session<C>
        ensures* writes_back { sem 𝓛 (lends_session C.row C.Debug C.TurnClientApi.own self.entry result) }
        ensures value { result.now ≡ self.old.session }
    {
        self.due = Instant::ZERO;
        &mut self.session
    }
}

/// When a session has something to do again, which had this to do, and had something to do at this time.
fn due_after(due: &Due, time: Instant) -> Instant
    ensures { result ≡ due_after due.now time }
{
    match due {
        Due::Wait(later) => *later,
        Due::Connection(_) | Due::Packet(_) | Due::Event(_) | Due::Over => time,
    }
}
