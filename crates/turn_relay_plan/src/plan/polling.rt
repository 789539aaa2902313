//! What is due next.

ghost use Rattle.std.specs.Prelude.{◌≡◌, IfOk, OnErr, OnOk};
ghost use Rattle.turn_relay_tries.specs.Tasks.{after_giving, next_task};
ghost use Rattle.turn_relay_plan.specs.declared.step.PlanStep.TheVariants.{Again};
ghost use Rattle.turn_relay_plan.specs.Attempting.{plan_due};
ghost use Rattle.turn_relay_plan.specs.Polling.{begun, plan_step, too_slow};

use crate::constants::TASK_WAIT;
use crate::plan::Plan;
use crate::step::PlanStep;
use std::alloc::AllocError;
use std::time::Duration;
use turn_relay_tries::causes::Cause;
use turn_relay_tries::tasks::{Task, Work};
use turn_session_path::path::sooner;
use turn_stun::instant::Instant;

impl Plan {
    /// Does what is due first: a try begins or has had its time, a task is late, or the next address is attempted. That is 250 ms after
    /// the attempt before it began, or when that one has failed (RFC 8305, section 5).
    ///
    /// # Errors
    ///
    /// If memory allocation for a task fails. Nothing changes then: poll it again later.
    pub fn poll(&mut self, now: Instant) -> Result<PlanStep, AllocError>
        ensures step { IfOk result (λ step. step ≡ (plan_step now self.old).0) }
        ensures after { OnOk result (self.new ≡ (plan_step now self.old).1) }
        ensures no_memory { OnErr result (self.new ≡ self.old) }
    {
        if self.course.is_due(now) {
            return self.begin(now);
        }
        if self.course.is_late(now) {
            return Ok(self.too_slow(now));
        }
        match self.tasks.late(now) {
            Some(late) => Ok(self.fail_by(Cause::NotDone(late.work), now)),
            None => self.attempt(now),
        }
    }

    /// The oldest task that was not given to the caller. It is given now.
    pub fn give_task(&mut self) -> Option<Task>
        ensures task { result ≡ next_task self.old.tasks }
        ensures after { self.new ≡ record self.old { tasks = after_giving self.old.tasks } }
    {
        self.tasks.give()
    }

    /// A try begins: the caller is asked for user name and password.
    ///
    /// # Errors
    ///
    /// If memory allocation for the task fails. Nothing changes then.
    fn begin(&mut self, now: Instant) -> Result<PlanStep, AllocError>
        ensures step { IfOk result (λ step. step ≡ Again) }
        ensures after { OnOk result (self.new ≡ begun now self.old) }
        ensures no_memory { OnErr result (self.new ≡ self.old) }
    {
        let until = now.plus(Duration::from_nanos(TASK_WAIT));
        let _number = self.tasks.add(Work::Credentials, until)?;
        let _is_begun = self.course.begin(now);
        Ok(PlanStep::Again)
    }

    /// The try has had its time.
    fn too_slow(&mut self, now: Instant) -> PlanStep
        ensures { (result, self.new) ≡ too_slow now self.old }
    {
        let time = self.course.tries.length;
        self.fail_by(Cause::TooSlow(time), now)
    }

    /// When something is due, if nothing is reported before, and no address is attempted.
    pub(crate) fn due(&self) -> Option<Instant>
        ensures { result ≡ plan_due self.now }
    {
        sooner(self.course.due(), self.tasks.due())
    }
}
