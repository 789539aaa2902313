//! What is due next.

ghost use Rattle.std.specs.Prelude.{◌≡◌, ◌≤◌, ◌^◌, IfOk, OnErr};
ghost use Rattle.turn_relay.specs.Finishing.{finish_step};
ghost use Rattle.turn_relay.specs.Next.{JobFails, LivesLead, LivesLeadFails, NextFails, Nexts, OpenFails, OpenNext};
ghost use Rattle.turn_relay.specs.Next.{OwnFailsIn, OwnNext, job_step, plan_next};

use crate::due::RelayDue;
use crate::events::RelayEvent;
use crate::job::Job;
use crate::relay::Relay;
use std::alloc::AllocError;
use turn_client_api::TurnClientApi;
use turn_relay_course::course::Phase;
use turn_relay_lives::step::LifeStep;
use turn_relay_plan::step::PlanStep;
use turn_relay_tries::causes::Cause;
use turn_session_path::path::sooner;
use turn_stun::instant::Instant;

impl<C: TurnClientApi> Relay<C> {
    /// Does one step that is due, and returns what the caller is to do: a packet, an event, a task, or a time. Call it after any
    /// other call, until it returns a time in the future, nothing to wait for, or `Over`, and again at that time.
    ///
    /// # Errors
    ///
    /// If memory allocation fails. Nothing is lost, but if it failed for a packet of a client, that has ended, and its session with
    /// it. Call it again, as after 100 ms.
    pub fn next(&mut self, now: Instant) -> Result<RelayDue, AllocError>
        requires now_in_range { now ≤ 2 ^ 62 }
        ensures due { IfOk result (λ due. Nexts now self.old self.new due) }
        ensures no_memory { OnErr result (NextFails now self.old self.new) }
    {
        if let Some(event) = self.report {
            self.report = None;
            return Ok(RelayDue::Event(event));
        }
        match self.job {
            Some(job) => self.do_job(job, now),
            None => self.next_of_lives(now),
        }
    }

    /// Does what an event has led to.
    fn do_job(&mut self, job: Job, now: Instant) -> Result<RelayDue, AllocError>
        ensures due { IfOk result (λ due. (due, self.new) ≡ job_step job now self.old) }
        ensures no_memory { OnErr result (JobFails job self.old self.new) }
    {
        match job {
            Job::End(link, why) => self.end(link, why, now),
            Job::WantAgain(key) => self.want_again(key, now),
        }
    }

    /// What is due in the sessions, or else in the relay itself.
    fn next_of_lives(&mut self, now: Instant) -> Result<RelayDue, AllocError>
        requires now_in_range { now ≤ 2 ^ 62 }
        ensures due { IfOk result (λ due. LivesLead now self.old self.new due) }
        ensures no_memory { OnErr result (LivesLeadFails now self.old self.new) }
    {
        match self.lives.next(now)? {
            LifeStep::Wait(time) => self.next_of_own(time, now),
            step => Ok(self.take_step(step, now)),
        }
    }

    /// What is due in the relay itself. Its sessions have nothing to do before this time.
    fn next_of_own(&mut self, lives: Option<Instant>, now: Instant) -> Result<RelayDue, AllocError>
        requires now_in_range { now ≤ 2 ^ 62 }
        ensures due { IfOk result (λ due. OwnNext lives now self.old self.new due) }
        ensures no_memory { OnErr result (OwnFailsIn self.old.plan.course.phase now self.old self.new) }
    {
        if let Phase::Over(cause) = self.plan.phase() {
            return Ok(self.finish(cause, lives, now));
        }
        if self.is_open() {
            self.next_of_open(lives, now)
        } else {
            self.next_of_plan(lives, now)
        }
    }

    /// What is due in a relay that has an address.
    fn next_of_open(&mut self, lives: Option<Instant>, now: Instant) -> Result<RelayDue, AllocError>
        requires now_in_range { now ≤ 2 ^ 62 }
        ensures due { IfOk result (λ due. OpenNext lives now self.old self.new due) }
        ensures no_memory { OnErr result (OpenFails now self.old self.new) }
    {
        match self.restore(now)? {
            Some(due) => Ok(due),
            None => {
                let requests = self.wanted.due();
                self.next_of_plan(sooner(lives, requests), now)
            }
        }
    }

    /// A task, or else what the plan says.
    fn next_of_plan(
        &mut self,
        others: Option<Instant>,
        now: Instant,
    ) -> Result<RelayDue, AllocError>
        ensures due { IfOk result (λ due. (due, self.new) ≡ plan_next others now self.old) }
        ensures no_memory { OnErr result (self.new ≡ self.old) }
    {
        if let Some(task) = self.plan.give_task() {
            return Ok(RelayDue::Task(task));
        }
        match self.plan.poll(now)? {
            PlanStep::Again => Ok(RelayDue::Wait(Some(now))),
            PlanStep::Failed(cause) => Ok(self.give_up(cause, now)),
            PlanStep::Wait(time) => Ok(RelayDue::Wait(sooner(others, time))),
        }
    }

    /// What is left to do in a relay that is over for this cause: each request without an outcome is reported, and when its
    /// sessions have ended, that it is over.
    fn finish(&mut self, cause: Cause, lives: Option<Instant>, now: Instant) -> RelayDue
        ensures { (result, self.new) ≡ finish_step cause lives now self.old }
    {
        if let Some(row) = self.wanted.first() {
            let _unanswered = self.wanted.settled(row.key);
            return match row.ticket {
                Some(ticket) => RelayDue::Event(RelayEvent::Unanswered(ticket, row.key)),
                None => RelayDue::Wait(Some(now)),
            };
        }
        if !self.lives.is_empty() {
            return RelayDue::Wait(lives);
        }
        if self.has_ended {
            return RelayDue::Over;
        }
        self.has_ended = true;
        RelayDue::Event(RelayEvent::Over(cause))
    }
}
