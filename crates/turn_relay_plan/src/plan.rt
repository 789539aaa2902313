//! The plan of a relay.

ghost use Rattle.std.specs.Prelude.{◌≡◌};
ghost use Rattle.turn_relay_plan.specs.PlanState.{new_plan};

mod answering;
mod attempting;
mod failing;
mod polling;
mod progress;

use std::alloc::Global;
use std::marker::Model;
use std::net::SocketAddr;
use turn_relay_course::course::{Course, Phase};
use turn_relay_course::reopen::Reopen;
use turn_relay_tries::addresses::Addresses;
use turn_relay_tries::attempts::Attempts;
use turn_relay_tries::backoff::Backoff;
use turn_relay_tries::tasks::Tasks;
use turn_stun::instant::Instant;

/// What a relay does next that needs no session: the tasks of the caller, the attempts with the addresses of a server, and the course
/// of the relay.
///
/// Contracts describe it by its `PlanState`.
#[derive(Debug, Drop)]
pub struct Plan {
    course: Course,
    tasks: Tasks,
    /// Those of the server that were not attempted, behind the next one.
    addresses: Addresses,
    /// The address that is attempted next.
    next: Option<SocketAddr>,
    attempts: Attempts,
}

impl Model for Plan {
    ghost use Rattle.turn_relay_plan.specs.PlanState.{PlanState};

    ghost Value = { PlanState };

    ghost view = { λ p. record {
      course = p.course;
      tasks = p.tasks;
      addresses = p.addresses;
      next = p.next;
      attempts = p.attempts;
    } };
}

impl Plan {
    /// The plan of a relay with so many servers, of which the first is tried at once. From the seed come the random parts of its
    /// waits: it is to be its own.
    pub fn new(
        alloc: Global,
        reopen: Reopen,
        servers: usize,
        backoff: Backoff,
        seed: [u8; 32],
    ) -> Plan
        ensures { result ≡ new_plan reopen servers backoff seed }
    {
        Plan {
            course: Course::new(reopen, servers, backoff, seed),
            tasks: Tasks::new(alloc),
            addresses: Addresses::new(alloc),
            next: None,
            attempts: Attempts::new(0),
        }
    }

    /// How far the relay has come.
    pub fn phase(&self) -> Phase
        ensures { result ≡ self.now.course.phase }
    {
        self.course.phase
    }

    /// Whether it is opened again.
    pub fn reopen(&self) -> Reopen
        ensures { result ≡ self.now.course.reopen }
    {
        self.course.reopen
    }

    /// When the next try is due, if none is under way.
    pub fn next_try(&self) -> Instant
        ensures { result ≡ self.now.course.tries.due }
    {
        self.course.tries.due
    }
}
