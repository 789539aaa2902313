//! A client, independent of its transport.
//!
//! Its methods stand in three rooms. A datagram, or a message that was cut out of a stream, goes to
//! `incoming`: `judge` decides what it is and whether its signature counts, and then `response`,
//! `challenge`, `peer_data`, `connection_attempt` or `connection_bind` changes the client. `calls` has what
//! the caller requests, and `time` what is due: `poll`, the next wake-up time and the next packet.

mod calls;
mod incoming;
mod new;
mod time;

use crate::outbox::Outbox;
use smallvec::SmallVec;
use std::alloc::Global;
use std::marker::Model;
use turn_auth::long_term::LongTermClientAuth;
use turn_client_api::{Phase, TurnConfig};
use turn_client_grants::GrantLedger;
use turn_types::AddressFamily;

/// A client, independent of its transport: it processes whole messages, and returns packets, events and the
/// next wake-up time. Contracts describe it by its `State`, which has no streams: who reads a client's
/// streams holds them beside it.
#[derive(Debug, Drop)]
pub struct TurnClientProtocol {
    alloc: Global,
    config: TurnConfig,
    phase: Phase,
    /// The families of which a relayed address is still requested.
    families: SmallVec<AddressFamily, 2>,
    auth: LongTermClientAuth,
    ledger: GrantLedger,
    outbox: Outbox,
    /// Challenges answered since a signed reply last reset the count. It stops a server that always
    /// challenges.
    challenges: u32,
}

impl Model for TurnClientProtocol {
    ghost use Rattle.std.specs.Prelude.{[]};
    ghost use Rattle.turn_client_api.specs.State.{State};
    ghost use Rattle.turn_client_core.specs.Kept.{IsWhole};

    ghost Value = { State };

    ghost view = { λ c. record {
      config = record c.config { allocation_transport = c.ledger.transport };
      transport = c.outbox.transport;
      local = c.outbox.local;
      remote = c.outbox.remote;
      ids = c.outbox.ids;
      phase = c.phase;
      families = c.families.items;
      held = c.auth.held;
      grants = c.ledger.grants;
      listed = c.ledger.listed;
      transactions = c.outbox.transactions;
      queue = c.outbox.queue;
      last_send = c.outbox.last_send;
      challenges = c.challenges;
      events = c.ledger.events;
      closes = c.ledger.closes;
      streams = [];
    } };

    ghost invariant = { λ c. IsWhole c.config c.auth c.outbox.timers c.phase c.families.items c.ledger.event_room };
}
