//! What the steps of the sessions lead to.

ghost use Rattle.std.specs.Prelude.{◌≡◌};
ghost use Rattle.turn_relay.specs.Taking.{attempt_lost, event_step, leaving_due, opened, sign_step, taken_step, used_step};

use crate::due::RelayDue;
use crate::events::{Addresses, RelayEvent};
use crate::job::Job;
use crate::relay::Relay;
use std::net::SocketAddr;
use turn_client_api::TurnClientApi;
use turn_relay_lives::link::{Link, Role};
use turn_relay_lives::step::LifeStep;
use turn_relay_tries::causes::Cause;
use turn_relay_tries::tasks::{Task, Work};
use turn_session_book::causes::Why;
use turn_session_book::events::Event;
use turn_stun::instant::Instant;

impl<C: TurnClientApi> Relay<C> {
    /// What this step of the sessions leads to.
    pub(crate) fn take_step(&mut self, step: LifeStep, now: Instant) -> RelayDue
        ensures { (result, self.new) ≡ taken_step step now self.old }
    {
        match step {
            LifeStep::Connection(link, answer) => RelayDue::Connection(link.socket, answer),
            LifeStep::Packet(link, packet) => RelayDue::Packet(link.socket, packet),
            LifeStep::Event(link, event) => self.take_event(link, event, now),
            LifeStep::Again => RelayDue::Wait(Some(now)),
            LifeStep::Closed(link) => RelayDue::Task(Task {
                number: link.socket,
                work: Work::Close,
            }),
            LifeStep::Wait(time) => RelayDue::Wait(time),
        }
    }

    /// What this event of a session leads to.
    fn take_event(&mut self, link: Link, event: Event, now: Instant) -> RelayDue
        ensures { (result, self.new) ≡ event_step link event now self.old }
    {
        match link.role {
            Role::Trying => self.take_sign(link, event, now),
            Role::InUse => self.take_used(link, event, now),
            Role::Leaving => leaving_due(event, now),
        }
    }

    /// What an event of a session leads to whose server has not responded. The first that does is used.
    fn take_sign(&mut self, link: Link, event: Event, now: Instant) -> RelayDue
        ensures { (result, self.new) ≡ sign_step link event now self.old }
    {
        match event {
            Event::Heard => {
                self.lives.choose(link.socket, now);
                self.plan.responded();
                RelayDue::Event(RelayEvent::Session(event))
            }
            Event::Ending(why) | Event::Over(why) => self.attempt_failed(link, why, now),
            _ => RelayDue::Wait(Some(now)),
        }
    }

    /// An attempt has failed. With the last one the try has.
    fn attempt_failed(&mut self, link: Link, why: Why, now: Instant) -> RelayDue
        ensures { (result, self.new) ≡ attempt_lost link why now self.old }
    {
        self.lives.leave(link.socket, now);
        let cause = Cause::Life(why);
        if self.plan.attempt_failed(link.attempt.place, cause, now) {
            self.failed_due(false, cause, now)
        } else {
            RelayDue::Wait(Some(now))
        }
    }

    /// What an event of the session that is used leads to.
    fn take_used(&mut self, link: Link, event: Event, now: Instant) -> RelayDue
        ensures { (result, self.new) ≡ used_step link event now self.old }
    {
        match event {
            Event::Up(relayed, mapped) => self.open(relayed, mapped, now),
            Event::Outcome(_, key, outcome) => self.take_outcome(key, outcome, now),
            Event::Lost(key, outcome) => {
                self.job = Some(Job::WantAgain(key));
                RelayDue::Event(RelayEvent::Lost(key, outcome))
            }
            Event::Ending(why) | Event::Over(why) => {
                self.job = Some(Job::End(link, why));
                RelayDue::Wait(Some(now))
            }
            _ => RelayDue::Event(RelayEvent::Session(event)),
        }
    }

    /// There is an address: what the session before had is requested again.
    fn open(&mut self, relayed: SocketAddr, mapped: Option<SocketAddr>, now: Instant) -> RelayDue
        ensures { (result, self.new) ≡ opened relayed mapped now self.old }
    {
        self.plan.opened();
        self.wanted.begin();
        self.addresses = Some(Addresses {
            relayed,
            mapped,
            before: self.last,
        });
        RelayDue::Wait(Some(now))
    }
}

/// What an event of a session leads to that leaves: only the result of a check is reported.
fn leaving_due(event: Event, now: Instant) -> RelayDue
    ensures { result ≡ leaving_due event now }
{
    match event {
        Event::Checked(..) => RelayDue::Event(RelayEvent::Session(event)),
        _ => RelayDue::Wait(Some(now)),
    }
}
