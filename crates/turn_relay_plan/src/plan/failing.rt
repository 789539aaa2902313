//! What has failed.

ghost use Rattle.std.specs.Prelude.{◌≡◌};
ghost use Rattle.turn_relay_plan.specs.Failing.{after_failure, allocation_left, attempt_failed, failed_step, left, stopped};

use crate::plan::Plan;
use crate::step::PlanStep;
use turn_relay_tries::attempts::Attempts;
use turn_relay_tries::causes::Cause;
use turn_stun::instant::Instant;

impl Plan {
    /// The try has failed, or the relay is down, for this cause: its tasks are withdrawn. Another try follows when it is due, or the
    /// relay is over, as `Course::failed` says.
    pub fn fail(&mut self, cause: Cause, now: Instant)
        ensures { self.new ≡ after_failure cause now self.old }
    {
        self.course.failed(cause, now);
        self.stop();
    }

    /// The attempt with the address at this place has failed. If it was the last that had begun, the next one begins at once. Returns
    /// whether all addresses have failed: the try has then failed for this cause.
    pub fn attempt_failed(&mut self, place: usize, cause: Cause, now: Instant) -> bool
        ensures { (result, self.new) ≡ attempt_failed place cause now self.old }
    {
        let has_failed = self.attempts.failed(place);
        if has_failed {
            self.fail(cause, now);
        }
        has_failed
    }

    /// The server may keep an allocation that the relay had until this time. While it does, it refuses no other one for a quota for
    /// good.
    pub fn left(&mut self, until: Instant)
        ensures { self.new ≡ allocation_left until self.old }
    {
        self.course.failures.left(until);
    }

    /// The caller leaves: no other try is made, and its tasks are withdrawn.
    pub fn leave(&mut self)
        ensures { self.new ≡ left self.old }
    {
        self.course.leave();
        self.stop();
    }

    /// The try has failed, as a step of `poll`.
    pub(crate) fn fail_by(&mut self, cause: Cause, now: Instant) -> PlanStep
        ensures { (result, self.new) ≡ failed_step cause now self.old }
    {
        self.fail(cause, now);
        PlanStep::Failed(cause)
    }

    /// No further address is attempted, and the tasks are withdrawn.
    pub(crate) fn stop(&mut self)
        ensures { self.new ≡ stopped self.old }
    {
        self.tasks.withdraw();
        self.addresses.clear();
        self.next = None;
        self.attempts = Attempts::new(0);
    }
}
