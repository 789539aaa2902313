//! Attempts with the addresses of a server.

ghost use Rattle.std.specs.Prelude.{◌≡◌, IfOk, OnErr, OnOk};
ghost use Rattle.turn_relay_plan.specs.declared.step.PlanStep.TheVariants.{Again};
ghost use Rattle.turn_relay_plan.specs.Attempting.{attempt_step, attempt_to, attempted, socket_end, task_end};

use crate::constants::TASK_WAIT;
use crate::plan::Plan;
use crate::step::PlanStep;
use std::alloc::AllocError;
use std::net::SocketAddr;
use std::time::Duration;
use turn_relay_course::course::Phase;
use turn_relay_tries::attempts::{AttemptStep, Attempts};
use turn_relay_tries::tasks::{Attempt, Work};
use turn_session_path::path::sooner;
use turn_stun::instant::Instant;

impl Plan {
    /// Attempts the next address, if there is one and it is due.
    ///
    /// # Errors
    ///
    /// If memory allocation for the task fails. Nothing changes then.
    pub(crate) fn attempt(&mut self, now: Instant) -> Result<PlanStep, AllocError>
        ensures step { IfOk result (λ step. step ≡ (attempt_step now self.old).0) }
        ensures after { OnOk result (self.new ≡ (attempt_step now self.old).1) }
        ensures no_memory { OnErr result (self.new ≡ self.old) }
    {
        match self.next {
            Some(to) => self.attempt_to(to, now),
            None => Ok(PlanStep::Wait(self.due())),
        }
    }

    /// Attempts this address, if it is due.
    ///
    /// # Errors
    ///
    /// If memory allocation for the task fails. Nothing changes then.
    fn attempt_to(&mut self, to: SocketAddr, now: Instant) -> Result<PlanStep, AllocError>
        ensures step { IfOk result (λ step. step ≡ (attempt_to to now self.old).0) }
        ensures after { OnOk result (self.new ≡ (attempt_to to now self.old).1) }
        ensures no_memory { OnErr result (self.new ≡ self.old) }
    {
        let mut attempts = self.attempts;
        match attempts.poll(now) {
            AttemptStep::Begin(place) => self.begin_attempt(place, to, attempts, now),
            AttemptStep::WaitUntil(time) => Ok(PlanStep::Wait(sooner(self.due(), Some(time)))),
            AttemptStep::Idle => Ok(PlanStep::Wait(self.due())),
        }
    }

    /// The attempt with this address begins: the caller is to open a socket.
    ///
    /// # Errors
    ///
    /// If memory allocation for the task fails. Nothing changes then.
    fn begin_attempt(
        &mut self,
        place: usize,
        to: SocketAddr,
        attempts: Attempts,
        now: Instant,
    ) -> Result<PlanStep, AllocError>
        ensures step { IfOk result (λ step. step ≡ Again) }
        ensures after { OnOk result (self.new ≡ attempted place to attempts now self.old) }
        ensures no_memory { OnErr result (self.new ≡ self.old) }
    {
        let attempt = Attempt {
            server: self.course.server,
            place,
            to,
        };
        let until = self.socket_end(now);
        let _number = self.tasks.add(Work::Socket(attempt), until)?;
        self.next = self.addresses.take_next();
        self.attempts = attempts;
        Ok(PlanStep::Again)
    }

    /// By when a socket for the try is to be open.
    fn socket_end(&self, now: Instant) -> Instant
        ensures { result ≡ socket_end now self.now.course.phase }
    {
        match self.course.phase {
            Phase::Trying(until) => task_end(until, now),
            _ => task_end(None, now),
        }
    }
}

/// By when a task that is set now is to be done, in a try that ends at this time or has no end of its own.
pub(crate) fn task_end(until: Option<Instant>, now: Instant) -> Instant
    ensures { result ≡ task_end now until }
{
    match until {
        Some(until) => until,
        None => now.plus(Duration::from_nanos(TASK_WAIT)),
    }
}
