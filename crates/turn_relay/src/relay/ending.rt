//! The end of a session, and of a try.

ghost use Rattle.std.specs.Prelude.{◌≡◌, IfOk, OnErr, OnOk};
ghost use Rattle.turn_relay_lives.specs.Lives.{live_of};
ghost use Rattle.turn_relay.specs.Ending.{EndsLater, RedirectsLater, TakesOverLater, alternate_in, asked_too, end_step};
ghost use Rattle.turn_relay.specs.Ending.{failed_step, failure_event, followed, given_up, gone_down, taken_over, wanted_again};

use crate::due::RelayDue;
use crate::events::RelayEvent;
use crate::relay::Relay;
use std::alloc::AllocError;
use std::net::SocketAddr;
use turn_client_api::TurnClientApi;
use turn_relay_course::course::Phase;
use turn_relay_lives::link::Link;
use turn_relay_tries::causes::Cause;
use turn_relay_tries::constants::TRY_ALTERNATE;
use turn_relay_tries::redirects::Redirects;
use turn_session_book::causes::Why;
use turn_session_book::keys::Key;
use turn_stun::instant::Instant;

impl<C: TurnClientApi> Relay<C> {
    /// The session that was used ends for this cause. What its caller keeps is wanted again, and the relay is down, or the try has
    /// failed, unless the server has named another one that is asked now.
    ///
    /// # Errors
    ///
    /// If memory allocation fails. The job is still to be done.
    pub(crate) fn end(&mut self, link: Link, why: Why, now: Instant) -> Result<RelayDue, AllocError>
        ensures due { IfOk result (λ due. (due, self.new) ≡ end_step link why now self.old) }
        ensures no_memory { OnErr result (EndsLater link why self.old self.new) }
    {
        match alternate_in(why) {
            Some(to) => self.redirect(link, why, to, now),
            None => self.go_down(link, why, now),
        }
    }

    /// The server names this one to be used instead. It is asked within the same try, unless it was asked before or the try was
    /// redirected often enough.
    fn redirect(
        &mut self,
        link: Link,
        why: Why,
        to: SocketAddr,
        now: Instant,
    ) -> Result<RelayDue, AllocError>
        ensures due { IfOk result (λ due. (due, self.new) ≡ followed link why to now (asked_too link self.old)) }
        ensures no_memory { OnErr result (RedirectsLater link to self.old self.new) }
    {
        self.redirects.ask(link.attempt.to)?;
        if !self.redirects.follow(to) {
            return self.go_down(link, why, now);
        }
        self.job = None;
        self.lives.leave(link.socket, now);
        self.plan.redirected(to);
        Ok(RelayDue::Event(RelayEvent::Redirected(to)))
    }

    /// The session that was used ends, and the relay is down, or the try has failed.
    fn go_down(&mut self, link: Link, why: Why, now: Instant) -> Result<RelayDue, AllocError>
        ensures due { IfOk result (λ due. (due, self.new) ≡ gone_down link why now self.old) }
        ensures no_memory { OnErr result (TakesOverLater link.socket self.old self.new) }
    {
        let was_up = matches!(self.plan.phase(), Phase::Up(_));
        self.take_over(link.socket)?;
        let cause = Cause::Life(why);
        self.job = None;
        self.lives.leave(link.socket, now);
        self.plan.fail(cause, now);
        Ok(self.failed_due(was_up, cause, now))
    }

    /// What the caller keeps of the session of this socket is wanted again. Its server may keep the allocation.
    ///
    /// # Errors
    ///
    /// If memory allocation fails. The first grants are wanted again then.
    fn take_over(&mut self, socket: u64) -> Result<(), AllocError>
        ensures ok { OnOk result (self.new ≡ taken_over (live_of socket self.old.lives) self.old) }
        ensures no_memory { OnErr result (TakesOverLater socket self.old self.new) }
    {
        let Some(live) = self.lives.get(socket) else {
            return Ok(());
        };
        self.wanted.want_all(live.session().grants())?;
        if let Some(until) = live.session().may_be_kept_until() {
            self.plan.left(until);
        }
        Ok(())
    }

    /// The session has lost this key, which is wanted again.
    ///
    /// # Errors
    ///
    /// If memory allocation fails. The job is still to be done.
    pub(crate) fn want_again(&mut self, key: Key, now: Instant) -> Result<RelayDue, AllocError>
        ensures due { IfOk result (λ due. (due, self.new) ≡ wanted_again key now self.old) }
        ensures no_memory { OnErr result (self.new ≡ self.old) }
    {
        self.wanted.want(key)?;
        self.job = None;
        Ok(RelayDue::Wait(Some(now)))
    }

    /// The try has failed in the plan: its sessions leave.
    pub(crate) fn give_up(&mut self, cause: Cause, now: Instant) -> RelayDue
        ensures { (result, self.new) ≡ given_up cause now self.old }
    {
        self.lives.leave_all(now);
        self.failed_due(false, cause, now)
    }

    /// What is reported of a failure for this cause, of a relay that was up or was not. The next try may be redirected anew.
    pub(crate) fn failed_due(&mut self, was_up: bool, cause: Cause, now: Instant) -> RelayDue
        ensures { (result, self.new) ≡ failed_step was_up cause now self.old }
    {
        self.redirects = Redirects::new(self.settings.redirects, self.alloc);
        match self.failure_event(was_up, cause) {
            Some(event) => RelayDue::Event(event),
            None => RelayDue::Wait(Some(now)),
        }
    }

    /// The event that reports a failure. A try that is the last has none: `Over` follows.
    pub(crate) fn failure_event(&self, was_up: bool, cause: Cause) -> Option<RelayEvent>
        ensures { result ≡ failure_event was_up cause self.now.plan }
    {
        if was_up {
            return Some(RelayEvent::Down(cause));
        }
        match self.plan.phase() {
            Phase::Over(_) => None,
            _ => Some(RelayEvent::Trying(cause, self.plan.next_try())),
        }
    }
}

/// The server that is named in the place of one that refused the ALLOCATE (RFC 8489, section 10).
fn alternate_in(why: Why) -> Option<SocketAddr>
    ensures { result ≡ alternate_in why }
{
    match why {
        Why::Refused(error) => match error.code {
            Some(code) if code == TRY_ALTERNATE => error.alternate,
            _ => None,
        },
        _ => None,
    }
}
