//! A client with what is noted of it.

ghost use Rattle.std.specs.Prelude.{◌≡◌};
ghost use Rattle.std.specs.Duration.{as_nanos};
ghost use Rattle.turn_session_client.specs.Ending.{is_open, is_over};
ghost use Rattle.turn_session_client.specs.NotedState.{new_noted};
ghost use Rattle.turn_session_life.specs.Life.{cause_in};

mod asking;
mod channel_data;
mod data;
pub mod doubting;
mod draining;
mod ending;
mod expiring;
mod keeping;
mod leaving;
mod permitting;
mod polling;
mod receiving;
mod reporting;
mod sockets;
mod waiting;

use crate::notes::Notes;
use std::alloc::Global;
use std::marker::Model;
use std::net::SocketAddr;
use std::time::Duration;
use turn_client_api::{TurnClientApi, TurnEvent};
use turn_session_book::causes::Why;
use turn_session_life::doubts::Doubts;
use turn_session_life::heard::Heard;
use turn_session_life::life::{Life, Phase};
use turn_session_life::verdict::Verdict;
use turn_stun::instant::Instant;
use turn_types::TransportType;

/// A client from its first request to its end, and what is noted of it: the requests of the caller, which have one outcome each, what
/// was granted, what the server has said of the allocation, whether that is in doubt, and why the session ends.
///
/// Contracts describe it by its client's `State` and the notes.
#[derive(Debug, Drop)]
pub struct NotedClient<C: TurnClientApi> {
    client: C,
    notes: Notes,
    taken: Option<TurnEvent>,
    next_ticket: u32,
    heard: Heard,
    verdict: Verdict,
    life: Life,
    doubts: Doubts,
    leave_wait: Duration,
    written: Option<Instant>,
}

impl<C: TurnClientApi> Model for NotedClient<C> {
    ghost use Rattle.std.specs.Duration.{as_nanos};
    ghost use Rattle.turn_session_client.specs.NotedState.{NotedState};

    ghost Value = { NotedState };

    ghost view = { λ s. record {
      client = C.state s.client;
      notes = s.notes;
      taken = s.taken;
      next_ticket = s.next_ticket;
      heard = s.heard;
      verdict = s.verdict;
      life = s.life;
      doubts = s.doubts;
      leave_wait = as_nanos s.leave_wait;
      written = s.written;
    } };
}

impl<C: TurnClientApi> NotedClient<C> {
    /// This client, which was not called yet: it is called from now on. The allocation is in doubt after errors and silence or not,
    /// and leaving takes so long at most.
    pub fn new(
        alloc: Global,
        client: C,
        checks_allocation: bool,
        leave_wait: Duration,
        now: Instant,
    ) -> NotedClient<C>
        ensures { result ≡ new_noted checks_allocation (as_nanos leave_wait) now (C.state client) }
    {
        let is_stream = matches!(client.transport(), TransportType::Tcp);
        NotedClient {
            client,
            notes: Notes::new(alloc),
            taken: None,
            next_ticket: 1,
            heard: Heard::new(now),
            verdict: Verdict::new(),
            life: Life::new(is_stream),
            doubts: Doubts::new(checks_allocation),
            leave_wait,
            written: None,
        }
    }

    /// Whether the server has granted an address, and the session neither leaves nor has ended.
    pub fn is_open(&self) -> bool
        ensures { result ≡ is_open self.now.life.phase }
    {
        matches!(self.life.phase, Phase::Open)
    }

    /// Whether the session has ended.
    pub fn is_over(&self) -> bool
        ensures { result ≡ is_over self.now.life.phase }
    {
        matches!(self.life.phase, Phase::Over(_))
    }

    /// Why the session leaves or has ended, or `None` if it does neither.
    pub fn cause(&self) -> Option<Why>
        ensures { result ≡ cause_in self.now.life.phase }
    {
        self.life.cause()
    }

    /// This client's address, as the server sees it, by the response that granted the allocation.
    pub fn mapped(&self) -> Option<SocketAddr>
        ensures { result ≡ self.now.notes.mapped }
    {
        self.notes.mapped
    }

    /// The client.
    pub fn client(&self) -> &C
        ensures { C.state result.now ≡ self.now.client }
    {
        &self.client
    }
}
