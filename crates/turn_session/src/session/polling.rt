//! What is due.

ghost use Rattle.std.specs.Prelude.{◌≡◌, ◌≤◌, ◌^◌};
ghost use Rattle.turn_client_api.specs.declared.poll.TurnPollRet.TheVariants.{WaitUntil};
ghost use Rattle.turn_session_client.specs.Keeping.{kept_while_running};
ghost use Rattle.turn_session_client.specs.Leaving.{shortage_end};
ghost use Rattle.turn_session.specs.Polling.{DoubtsLead, IdleLeads, PollsBoth, PollsDoubts, PollsIdle, PollsOpen, Polls, PollsUnopened};
ghost use Rattle.turn_session.specs.Polling.{begun, capped};
ghost use Rattle.turn_session.specs.SessionState.{with_noted};

use crate::session::Session;
use std::time::Duration;
use turn_client_api::{TurnClientApi, TurnPollRet};
use turn_session_book::keys::Key;
use turn_session_client::constants::SHORTAGE;
use turn_session_client::noted::doubting::DoubtsPoll;
use turn_session_idle::peers::IdleStep;
use turn_session_life::watch::WatchStep;
use turn_session_path::path::sooner;
use turn_stun::instant::Instant;

impl<C: TurnClientApi> Session<C> {
    /// Does what is due: notes what has happened in the client, makes a request that waits, checks path and allocation, lets go what
    /// idle peers were granted, or keeps it again, and polls the client. If the time that it returns is not in the future, call it
    /// again, and `poll_event` and `poll_transmit` before. It returns `Closed` when the session has ended, and an event says why.
    ///
    /// If memory allocation fails for what is noted or made, nothing is lost, and the next call is asked for after 100 ms. If it
    /// fails in the client, the client has ended, and the session with it.
    pub fn poll(&mut self, now: Instant) -> TurnPollRet
        requires now_in_range { now ≤ 2 ^ 62 }
        ensures { Polls now self.old self.new result }
    {
        if self.noted.is_open() {
            self.poll_open(now)
        } else {
            self.poll_unopened(now)
        }
    }

    /// Polls a client that is not open. One that opens is to be polled again.
    fn poll_unopened(&mut self, now: Instant) -> TurnPollRet
        requires now_in_range { now ≤ 2 ^ 62 }
        ensures { PollsUnopened now self.old self.new result }
    {
        let answer = self.noted.poll(now);
        if self.noted.is_open() {
            return capped(Some(now), answer);
        }
        answer
    }

    /// Polls the path of an open session, and then its client.
    fn poll_open(&mut self, now: Instant) -> TurnPollRet
        requires now_in_range { now ≤ 2 ^ 62 }
        ensures { PollsOpen now self.old self.new result }
    {
        self.begin(now);
        match self.watch.poll(now) {
            WatchStep::Now => self.poll_both(Some(now), now),
            WatchStep::WaitUntil(time) => self.poll_doubts(Some(time), now),
            WatchStep::Idle => self.poll_doubts(None, now),
            WatchStep::Doubt => {
                self.noted.doubt();
                TurnPollRet::WaitUntil(now)
            }
            WatchStep::Moved => {
                self.noted.moved();
                TurnPollRet::WaitUntil(now)
            }
            WatchStep::End(why) => {
                self.noted.end_soon(why, now);
                TurnPollRet::WaitUntil(now)
            }
        }
    }

    /// The path of a session that has opened is probed from now on, and learns what was received.
    fn begin(&mut self, now: Instant)
        ensures { self.new ≡ begun now self.old }
    {
        if !self.is_watching {
            self.is_watching = true;
            let mapped = self.noted.mapped();
            self.watch.open(self.probe, mapped, now);
        }
        self.tell_path();
    }

    /// Polls the doubts of the allocation, and then the client. The path has nothing to do before this time.
    fn poll_doubts(&mut self, path: Option<Instant>, now: Instant) -> TurnPollRet
        requires now_in_range { now ≤ 2 ^ 62 }
        ensures { PollsDoubts path now self.old self.new result }
    {
        let said = self.noted.poll_doubts(now);
        self.go_on(said, path, now)
    }

    /// Polls the client, unless the doubts of the allocation have just led to something.
    fn go_on(&mut self, said: DoubtsPoll, path: Option<Instant>, now: Instant) -> TurnPollRet
        requires now_in_range { now ≤ 2 ^ 62 }
        ensures { DoubtsLead path now said self.old self.new result }
    {
        match said {
            DoubtsPoll::Now => TurnPollRet::WaitUntil(now),
            DoubtsPoll::WaitUntil(time) => self.poll_idle(sooner(path, Some(time)), now),
            DoubtsPoll::Idle => self.poll_idle(path, now),
            DoubtsPoll::NoMemory => self.poll_idle(sooner(path, Some(shortage_end(now))), now),
        }
    }

    /// Looks for idle peers, and polls the client, unless a grant is to be let go or kept again. Path and doubts have nothing to do
    /// before this time.
    fn poll_idle(&mut self, own: Option<Instant>, now: Instant) -> TurnPollRet
        requires now_in_range { now ≤ 2 ^ 62 }
        ensures { PollsIdle own now self.old self.new result }
    {
        match self.idle.poll(self.noted.grants(), now) {
            Ok(step) => self.carry_out(step, own, now),
            Err(_) => self.poll_both(sooner(own, Some(shortage_end(now))), now),
        }
    }

    /// Does what is to be done about idle peers, one grant at a time.
    fn carry_out(&mut self, step: IdleStep, own: Option<Instant>, now: Instant) -> TurnPollRet
        requires now_in_range { now ≤ 2 ^ 62 }
        ensures { IdleLeads own now (step, self.old.idle) self.old self.new result }
    {
        match step {
            IdleStep::Keep(key) => self.keep_until_polled(key, true, now),
            IdleStep::Release(key) => self.keep_until_polled(key, false, now),
            IdleStep::WaitUntil(time) => self.poll_both(sooner(own, Some(time)), now),
            IdleStep::Off => self.poll_both(own, now),
        }
    }

    /// Keeps this grant, or lets it go. The session is to be polled again.
    fn keep_until_polled(&mut self, key: Key, is_kept: bool, now: Instant) -> TurnPollRet
        ensures answer { result ≡ WaitUntil now }
        ensures after { self.new ≡ with_noted (kept_while_running key is_kept self.old.noted).1 self.old }
    {
        let _known = self.noted.set_kept(key, is_kept);
        TurnPollRet::WaitUntil(now)
    }

    /// Polls the client, and waits no longer than for this time.
    fn poll_both(&mut self, own: Option<Instant>, now: Instant) -> TurnPollRet
        requires now_in_range { now ≤ 2 ^ 62 }
        ensures { PollsBoth own now self.old self.new result }
    {
        let answer = self.noted.poll(now);
        capped(own, answer)
    }
}

/// When a call that found no memory is to be repeated.
fn shortage_end(now: Instant) -> Instant
    ensures { result ≡ shortage_end now }
{
    now.plus(Duration::from_nanos(SHORTAGE))
}

/// The answer of the client, with the sooner of two times if it waits.
fn capped(own: Option<Instant>, answer: TurnPollRet) -> TurnPollRet
    ensures { result ≡ capped own answer }
{
    match answer {
        TurnPollRet::WaitUntil(time) => TurnPollRet::WaitUntil(match own {
            Some(own) => own.min(time),
            None => time,
        }),
        _ => answer,
    }
}
