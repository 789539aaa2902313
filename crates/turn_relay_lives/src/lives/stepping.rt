//! What is due next in the sessions of a relay.

ghost use Rattle.std.specs.Prelude.{◌≡◌, ◌≤◌, ◌<◌, ◌^◌, length, IfOk, OnErr};
ghost use Rattle.std.specs.List.{position};
ghost use Rattle.turn_relay_lives.specs.LifeSteps.{LivesFail, LivesNext, StepFailsAt, StepsAt, after_due, step_of};
ghost use Rattle.turn_relay_lives.specs.LiveState.{is_due};

use crate::link::Link;
use crate::lives::Lives;
use crate::step::LifeStep;
use std::alloc::AllocError;
use turn_client_api::TurnClientApi;
use turn_session::due::Due;
use turn_stun::instant::Instant;

impl<C: TurnClientApi> Lives<C> {
    /// Does what is due in the first session that may have something to do. One that has ended is removed.
    ///
    /// # Errors
    ///
    /// If memory allocation fails for a packet, as that of `Session::next`. Call it again.
    pub fn next(&mut self, now: Instant) -> Result<LifeStep, AllocError>
        requires now_in_range { now ≤ 2 ^ 62 }
        ensures step { IfOk result (λ step. LivesNext now self.old self.new step) }
        ensures no_memory { OnErr result (LivesFail now self.old self.new) }
    {
        match self.due_place(now) {
            Some(place) => self.step(place, now),
            None => Ok(LifeStep::Wait(self.due())),
        }
    }

    /// Does what is due in the session at this place.
    ///
    /// # Errors
    ///
    /// If memory allocation fails for a packet.
    fn step(&mut self, place: usize, now: Instant) -> Result<LifeStep, AllocError>
        requires now_in_range { now ≤ 2 ^ 62 }
        requires within { place < length self.old }
        ensures step { IfOk result (λ step. StepsAt place now self.old self.new step) }
        ensures no_memory { OnErr result (StepFailsAt place now self.old self.new) }
    {
        let live = &mut self.rows[place];
        let link = live.link();
        let due = live.next(now)?;
        Ok(self.after(place, link, due))
    }

    /// What this session, which stands at this place, does next. One that has ended is removed.
    fn after(&mut self, place: usize, link: Link, due: Due) -> LifeStep
        requires within { place < length self.old }
        ensures step { result ≡ step_of link due }
        ensures rows { self.new ≡ after_due place due self.old }
    {
        match due {
            Due::Connection(answer) => LifeStep::Connection(link, answer),
            Due::Packet(packet) => LifeStep::Packet(link, packet),
            Due::Event(event) => LifeStep::Event(link, event),
            Due::Wait(_) => LifeStep::Again,
            Due::Over => {
                let _ended = self.rows.remove(place);
                LifeStep::Closed(link)
            }
        }
    }

    /// The place of the first session that may have something to do.
    fn due_place(&self, now: Instant) -> Option<usize>
        ensures { result ≡ position (is_due now) self.now }
    {
        self.rows.iter().position(|live| live.is_due(now))
    }
}
