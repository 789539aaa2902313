//! A relay that comes back.

ghost use Rattle.std.specs.Prelude.{◌≡◌};
ghost use Rattle.std.specs.Option.{option_copied};
ghost use Rattle.turn_relay.specs.RelayState.{is_open_in, new_relay, open_live, open_place, relayed_of};

mod answering;
mod asking;
mod connecting;
pub mod data;
mod ending;
mod leaving;
mod next;
mod receiving;
mod reporting;
mod restoring;
mod taking;

use crate::events::{Addresses, RelayEvent};
use crate::job::Job;
use crate::settings::RelaySettings;
use std::alloc::Global;
use std::marker::Model;
use std::net::SocketAddr;
use turn_client_api::TurnClientApi;
use turn_relay_course::course::Phase;
use turn_relay_lives::live::Live;
use turn_relay_lives::lives::Lives;
use turn_relay_plan::plan::Plan;
use turn_relay_tries::redirects::Redirects;
use turn_relay_tries::wanted::Wanted;

/// A relayed address that comes back after an outage, of one of several servers: the tries, the sessions, of which one is used at a
/// time, the requests of the caller, which have one outcome each whatever becomes of a session, and why the relay is over.
///
/// Contracts describe it by its `RelayState`.
#[derive(Debug, Drop)]
pub struct Relay<C: TurnClientApi> {
    alloc: Global,
    settings: RelaySettings,
    plan: Plan,
    lives: Lives<C>,
    wanted: Wanted,
    redirects: Redirects,
    /// What an event has led to, and is not done yet.
    job: Option<Job>,
    /// What a call of the caller has led to, and is not reported yet.
    report: Option<RelayEvent>,
    /// The addresses of the session that is used.
    addresses: Option<Addresses>,
    /// The relayed address when the relay was last up.
    last: Option<SocketAddr>,
    /// Whether the last event was returned.
    has_ended: bool,
}

impl<C: TurnClientApi> Model for Relay<C> {
    ghost use Rattle.turn_relay.specs.RelayState.{RelayState};

    ghost Value = { RelayState };

    ghost view = { λ r. record {
      settings = r.settings;
      plan = r.plan;
      lives = r.lives;
      wanted = r.wanted;
      redirects = r.redirects.left;
      asked = r.redirects.asked.items;
      job = r.job;
      report = r.report;
      addresses = r.addresses;
      last = r.last;
      has_ended = r.has_ended;
    } };
}

impl<C: TurnClientApi> Relay<C> {
    /// A relay with so many servers, of which the first is tried at once. From the seed come the random parts of its waits: it is
    /// to be its own.
    pub fn new(alloc: Global, settings: RelaySettings, servers: usize, seed: [u8; 32]) -> Relay<C>
        ensures { result ≡ new_relay settings servers seed }
    {
        Relay {
            alloc,
            settings,
            plan: Plan::new(alloc, settings.reopen, servers, settings.backoff, seed),
            lives: Lives::new(alloc),
            wanted: Wanted::new(alloc),
            redirects: Redirects::new(settings.redirects, alloc),
            job: None,
            report: None,
            addresses: None,
            last: None,
            has_ended: false,
        }
    }

    /// How far it has come.
    pub fn phase(&self) -> Phase
        ensures { result ≡ self.now.plan.course.phase }
    {
        self.plan.phase()
    }

    /// Its relayed address, if it is up.
    pub fn relayed(&self) -> Option<SocketAddr>
        ensures { result ≡ relayed_of self.now }
    {
        match (self.plan.phase(), self.addresses) {
            (Phase::Up(_), Some(addresses)) => Some(addresses.relayed),
            _ => None,
        }
    }

    /// Whether it has an allocation.
    pub(crate) fn is_open(&self) -> bool
        ensures { result ≡ is_open_in self.now.plan.course.phase }
    {
        matches!(self.plan.phase(), Phase::Restoring | Phase::Up(_))
    }

    /// The session that has an allocation, or none.
    pub(crate) fn open_live(&self) -> Option<&Live<C>>
        ensures { option_copied result ≡ open_live self.now }
    {
        if self.is_open() {
            self.lives.in_use()
        } else {
            None
        }
    }

    /// The place of that session.
    pub(crate) fn open_place(&self) -> Option<usize>
        ensures { result ≡ open_place self.now }
    {
        if self.is_open() {
            self.lives.used_place()
        } else {
            None
        }
    }
}
