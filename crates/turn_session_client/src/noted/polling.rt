//! The calls that poll the client.

ghost use Rattle.std.specs.Prelude.{◌≡◌, ◌≤◌, ◌^◌, IfOk, IsSome, OnErr, OnOk};
ghost use Rattle.turn_client_api.specs.Effect.{closed};
ghost use Rattle.turn_client_api.specs.Transmit.{next_transmit};
ghost use Rattle.turn_session_client.specs.Drain.{DrainsSome};
ghost use Rattle.turn_session_client.specs.Ending.{ended};
ghost use Rattle.turn_session_client.specs.Polling.{AfterPoll, Closes, ExpiresOrGoesOn, IsCause, MakesOrPolls, Polls};
ghost use Rattle.turn_session_client.specs.Polling.{PollsClient, PollsRunning, cause_noted, next_time, opened, prepared};
ghost use Rattle.turn_session_client.specs.Polling.{silent_grant, sooner, transmitted, waiting};

use crate::noted::NotedClient;
use crate::noted::leaving::shortage_end;
use std::alloc::AllocError;
use turn_client_api::{TurnClientApi, TurnPollRet};
use turn_session_book::causes::Why;
use turn_session_book::keys::Key;
use turn_session_life::life::Phase;
use turn_session_life::verdict::VerdictStep;
use turn_stun::data::Data;
use turn_stun::instant::Instant;
use turn_stun::transport::Transmit;
use turn_types::TransportType;

impl<C: TurnClientApi> NotedClient<C> {
    /// Notes what has happened in the client, makes a request that waits, and polls the client. If the time that it returns is not in
    /// the future, call it again, and `poll_event` and `poll_transmit` before. It returns `Closed` when the session has ended, and an
    /// event says why.
    ///
    /// If memory allocation fails for what is noted or made, nothing is lost, and the next call is asked for after 100 ms. If it
    /// fails in the client, the client has ended, and the session with it.
    pub fn poll(&mut self, now: Instant) -> TurnPollRet
        requires now_in_range { now ≤ 2 ^ 62 }
        ensures { Polls now self.old self.new result }
    {
        match self.life.phase {
            Phase::Over(_) => TurnPollRet::Closed,
            Phase::Leaving(leave) => self.poll_leaving(leave, now),
            _ => self.poll_running(now),
        }
    }

    /// Polls a session that neither leaves nor has ended.
    fn poll_running(&mut self, now: Instant) -> TurnPollRet
        requires now_in_range { now ≤ 2 ^ 62 }
        ensures { PollsRunning now self.old self.new result }
    {
        match self.prepare(now) {
            Ok(false) => self.poll_prepared(now),
            Ok(true) => TurnPollRet::WaitUntil(now),
            Err(_) => TurnPollRet::WaitUntil(shortage_end(now)),
        }
    }

    /// Notes what has happened, and ends the session if it has a cause to end by itself. Returns whether it has one.
    ///
    /// # Errors
    ///
    /// If memory allocation fails. Nothing is lost: what is left is noted by the next call.
    fn prepare(&mut self, now: Instant) -> Result<bool, AllocError>
        ensures ok { IfOk result (λ is_ending. (is_ending, self.new) ≡ prepared now self.old) }
        ensures err { OnErr result (DrainsSome now self.old self.new) }
    {
        self.drain(now)?;
        self.note_opening();
        Ok(self.note_cause(now))
    }

    /// Notes what has ended with its allocation or its data connection, one after the other, and goes on then.
    fn poll_prepared(&mut self, now: Instant) -> TurnPollRet
        requires now_in_range { now ≤ 2 ^ 62 }
        ensures { ExpiresOrGoesOn now self.old self.new result }
    {
        match self.note_expiry(now) {
            Ok(false) => self.make_or_poll(now),
            Ok(true) => TurnPollRet::WaitUntil(now),
            Err(_) => TurnPollRet::WaitUntil(shortage_end(now)),
        }
    }

    /// Makes a request that waits, or polls the client.
    fn make_or_poll(&mut self, now: Instant) -> TurnPollRet
        requires now_in_range { now ≤ 2 ^ 62 }
        ensures { MakesOrPolls now self.old self.new result }
    {
        match self.make_next(now) {
            Ok(false) => self.poll_client(now),
            Ok(true) => TurnPollRet::WaitUntil(now),
            Err(_) => TurnPollRet::WaitUntil(shortage_end(now)),
        }
    }

    /// The session is open once the server has granted an address, and no error belongs to events that are still to come.
    fn note_opening(&mut self)
        ensures { self.new ≡ opened self.old }
    {
        self.notes.reply = None;
        if self.notes.relays.is_some() {
            self.life.opened();
        }
    }

    /// Ends the session if it has a cause to end by itself. Returns whether it has one.
    fn note_cause(&mut self, now: Instant) -> bool
        ensures { (result, self.new) ≡ cause_noted now self.old }
    {
        if let Some(key) = self.silent_grant() {
            self.life.end(Why::GrantSilent(key));
            return true;
        }
        if !matches!(self.life.phase, Phase::Opening) {
            return false;
        }
        match self.verdict.poll(now) {
            VerdictStep::Ended(why) => {
                self.end_soon(why, now);
                true
            }
            _ => false,
        }
    }

    /// Over a stream: a kept grant whose renewal had no response.
    fn silent_grant(&self) -> Option<Key>
        ensures { result ≡ silent_grant self.now }
    {
        match self.client.transport() {
            TransportType::Udp => None,
            TransportType::Tcp => self.notes.silent,
        }
    }

    /// Polls the client.
    fn poll_client(&mut self, now: Instant) -> TurnPollRet
        requires now_in_range { now ≤ 2 ^ 62 }
        ensures { PollsClient now self.old self.new result }
    {
        match self.client.poll(now) {
            Ok(answer) => self.after_poll(answer, now),
            Err(_) => {
                self.life.end(Why::OutOfMemory);
                TurnPollRet::Closed
            }
        }
    }

    /// What the client's answer means for the session.
    fn after_poll(&mut self, answer: TurnPollRet, now: Instant) -> TurnPollRet
        ensures { AfterPoll now answer self.old self.new result }
    {
        match answer {
            TurnPollRet::Closed => self.close(now),
            TurnPollRet::WaitUntil(time) => {
                self.settle(time, now);
                TurnPollRet::WaitUntil(self.next_time(time, now))
            }
            TurnPollRet::TcpClose { local_addr, .. } => {
                self.notes.book.close(local_addr);
                answer
            }
            _ => answer,
        }
    }

    /// A client that waits until this time has not ended by a challenge.
    fn settle(&mut self, time: Instant, now: Instant)
        ensures { self.new ≡ waiting time now self.old }
    {
        if now < time {
            self.heard.settle();
        }
    }

    /// When to poll again a client that waits until this time: now, if something has ended with its allocation.
    fn next_time(&self, time: Instant, now: Instant) -> Instant
        ensures { result ≡ next_time time now self.now }
    {
        match self.first_expired() {
            Some(_key) => now,
            None => self.sooner(time),
        }
    }

    /// The sooner of this time and that of the verdict, if there is one.
    fn sooner(&self, time: Instant) -> Instant
        ensures { result ≡ sooner time self.now }
    {
        match (self.life.phase, self.verdict.blame) {
            (Phase::Opening, Some(blame)) => time.min(blame.until),
            _ => time,
        }
    }

    /// The client has ended: notes its last events, and ends the session for the cause that is known.
    fn close(&mut self, now: Instant) -> TurnPollRet
        ensures { Closes now self.old self.new result }
    {
        if self.drain(now).is_err() {
            return TurnPollRet::WaitUntil(shortage_end(now));
        }
        let why = self.cause_of_end(now);
        self.life.end(why);
        TurnPollRet::Closed
    }

    /// Why the client has ended.
    fn cause_of_end(&self, now: Instant) -> Why
        ensures { IsCause now self.now result }
    {
        match self.life.phase {
            Phase::Opening => self.heard.no_address(now),
            _ => self.heard.end(),
        }
    }

    /// The next packet to send, or none, as the client returns it. Call it until it returns none. After the end there is none.
    ///
    /// # Errors
    ///
    /// If memory allocation fails. The client has ended then, and the session with it.
    pub fn poll_transmit(&mut self, now: Instant) -> Result<Option<Transmit<Data>>, AllocError>
        requires now_in_range { now ≤ 2 ^ 62 }
        ensures answer { IfOk result (λ packet. packet ≡ (transmitted now self.old).0) }
        ensures after { OnOk result (self.new ≡ (transmitted now self.old).1) }
        ensures no_memory { OnErr result (self.new ≡ ended Why.OutOfMemory (record self.old { client = closed self.old.client })) }
        // Memory is needed only for a packet that is due.
        ensures free { OnErr result (IsSome (next_transmit now self.old.client)) }
    {
        if matches!(self.life.phase, Phase::Over(_)) {
            return Ok(None);
        }
        match self.client.poll_transmit(now) {
            Ok(packet) => Ok(packet),
            Err(error) => {
                self.life.end(Why::OutOfMemory);
                Err(error)
            }
        }
    }
}
