//! The sessions of a relay.

ghost use Rattle.std.specs.Borrow.{sem};
ghost use Rattle.std.specs.Prelude.{◌≡◌, ◌≤◌, ◌<◌, ◌^◌, ◌++◌, ◌∷◌, [], length, map, slice_get, IfOk, OnErr, OnOk, Some};
ghost use Rattle.std.specs.List.{position};
ghost use Rattle.std.specs.Option.{option_copied};
ghost use Rattle.turn_relay_lives.specs.LiveState.{chosen, is_socket, is_used, left};
ghost use Rattle.turn_relay_lives.specs.Lives.{is_none_left, live_of, next_due, used_live};
ghost use Rattle.turn_session_book.specs.First.{with_first};

mod stepping;

use crate::live::Live;
use std::alloc::{AllocError, Global};
use std::marker::Model;
use turn_client_api::TurnClientApi;
use turn_relay_tries::tasks::sooner_of;
use turn_stun::instant::Instant;

/// The sessions of a relay, in the order in which their sockets were opened.
///
/// Contracts describe them by a list of `LiveState`.
#[derive(Debug, Drop)]
pub struct Lives<C: TurnClientApi> {
    rows: Vec<Live<C>>,
}

impl<C: TurnClientApi> Model for Lives<C> {
    ghost use Rattle.std.specs.Prelude.{List};
    ghost use Rattle.turn_relay_lives.specs.LiveState.{LiveState};

    ghost Value = { List LiveState };

    ghost view = { λ l. l.rows.items };
}

impl<C: TurnClientApi> Lives<C> {
    ghost use Rattle.turn_relay_lives.specs.Lending.{lends_live};

    /// No sessions.
    pub fn new(alloc: Global) -> Lives<C>
        ensures { result ≡ [] }
    {
        Lives {
            rows: Vec::new(alloc),
        }
    }

    /// One more session.
    ///
    /// # Errors
    ///
    /// If memory allocation fails. The session is dropped, and nothing changes.
    pub fn add(&mut self, live: Live<C>) -> Result<(), AllocError>
        ensures ok { OnOk result (self.new ≡ self.old ++ live ∷ []) }
        ensures err { OnErr result (self.new ≡ self.old) }
    {
        self.rows.reserve(1)?;
        self.rows.push_reserved(live);
        Ok(())
    }

    /// Whether there is none.
    pub fn is_empty(&self) -> bool
        ensures { result ≡ is_none_left self.now }
    {
        self.rows.is_empty()
    }

    /// The session of this socket.
    pub fn get(&self, socket: u64) -> Option<&Live<C>>
        ensures { option_copied result ≡ live_of socket self.now }
    {
        match self.place_of(socket) {
            Some(place) => Some(&self.rows[place]),
            None => None,
        }
    }

    /// The session that is used.
    pub fn in_use(&self) -> Option<&Live<C>>
        ensures { option_copied result ≡ used_live self.now }
    {
        match self.used_place() {
            Some(place) => Some(&self.rows[place]),
            None => None,
        }
    }

    /// The place of the session of this socket.
    pub fn place_of(&self, socket: u64) -> Option<usize>
        ensures { result ≡ position (is_socket socket) self.now }
    {
        self.rows
            .iter()
            .position(|live| live.link().socket == socket)
    }

    /// The place of the session that is used.
    pub fn used_place(&self) -> Option<usize>
        ensures { result ≡ position is_used self.now }
    {
        self.rows.iter().position(|live| live.is_used())
    }

    /// The session at this place, for a call that may give it something to do.
    pub fn at(&mut self, place: usize) -> &mut Live<C>
        requires within { place < length self.old }
        ensures* writes_back { sem 𝓛 (lends_live C.row C.Debug C.TurnClientApi.own place self.entry result) }
        ensures value { Some result.now ≡ slice_get self.old place }
    {
        &mut self.rows[place]
    }

    /// The session of this socket, whose server responded first, is used. The others that try leave.
    pub fn choose(&mut self, socket: u64, now: Instant)
        ensures { self.new ≡ map (chosen socket now) self.old }
    {
        choose(&mut self.rows, socket, now);
    }

    /// The session of this socket leaves.
    pub fn leave(&mut self, socket: u64, now: Instant)
        ensures { self.new ≡ with_first (is_socket socket) (left now) self.old }
    {
        if let Some(place) = self.place_of(socket) {
            let live = &mut self.rows[place];
            live.leave(now);
        }
    }

    /// All sessions leave.
    pub fn leave_all(&mut self, now: Instant)
        ensures { self.new ≡ map (left now) self.old }
    {
        leave(&mut self.rows, now);
    }

    /// The soonest time at which a session may have something to do.
    pub fn due(&self) -> Option<Instant>
        ensures { result ≡ next_due self.now }
    {
        self.rows
            .iter()
            .fold(None, |due, live| sooner_of(due, live.due()))
    }
}

/// The session of this socket is used, and the others that try leave.
fn choose<C: TurnClientApi>(rows: &mut Vec<Live<C>>, socket: u64, now: Instant)
    ensures { rows.new.items ≡ map (chosen socket now) rows.old.items }
{
    let all = rows.as_mut_slice();
    for live in all.iter_mut() {
        live.choose(socket, now);
    }
}

/// All these sessions leave.
fn leave<C: TurnClientApi>(rows: &mut Vec<Live<C>>, now: Instant)
    ensures { rows.new.items ≡ map (left now) rows.old.items }
{
    let all = rows.as_mut_slice();
    for live in all.iter_mut() {
        live.leave(now);
    }
}
