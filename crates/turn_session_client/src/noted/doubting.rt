//! Whether the server still knows the allocation: it is asked in doubt.

ghost use Rattle.std.specs.Prelude.{◌≡◌, ◌≤◌, ◌^◌};
ghost use Rattle.turn_session_client.specs.Doubting.{AsksNew, AsksNext, PollsDoubts, after_doubt, after_move, doubts_ended};
ghost use Rattle.turn_session_client.specs.Doubting.{noted_doubts, told_step, with_question};

use crate::noted::NotedClient;
use crate::question::{ask, question_ip};
use std::net::IpAddr;
use turn_client_api::TurnClientApi;
use turn_session_book::causes::Why;
use turn_session_book::keys::Key;
use turn_session_life::doubts::{Asking, DoubtsStep};
use turn_session_life::life::Phase;
use turn_session_life::responses::Response;
use turn_stun::instant::Instant;
use turn_types::TransportType;

/// What the doubts of an allocation lead to.
#[derive(Clone, Copy, Debug, PartialEq, Eq)]
pub enum DoubtsPoll {
    /// Something was done. Poll again.
    Now,
    /// Nothing before this time.
    WaitUntil(Instant),
    /// There is no doubt.
    Idle,
    /// A memory allocation failed. Nothing has changed: poll again later.
    NoMemory,
}

impl<C: TurnClientApi> NotedClient<C> {
    /// There was a check of the path without a response: the allocation is in doubt, if errors and silence lead to doubts.
    pub fn doubt(&mut self)
        ensures { self.new ≡ after_doubt self.old }
    {
        self.doubts.doubt();
    }

    /// The server sees another address of this client than before: the allocation is in doubt.
    pub fn moved(&mut self)
        ensures { self.new ≡ after_move self.old }
    {
        self.doubts.moved();
    }

    /// What the doubts of an open session lead to. The server is asked by a request for a permission of an address that no host has,
    /// which is not kept. By its error the session may be to end.
    pub fn poll_doubts(&mut self, now: Instant) -> DoubtsPoll
        requires now_in_range { now ≤ 2 ^ 62 }
        ensures { PollsDoubts now self.old self.new result }
    {
        if !matches!(self.life.phase, Phase::Open) {
            return DoubtsPoll::Idle;
        }
        if self.take_told(now) {
            return DoubtsPoll::Now;
        }
        match self.doubts.poll(now) {
            DoubtsStep::Ask => self.ask_next(now),
            DoubtsStep::WaitUntil(time) => DoubtsPoll::WaitUntil(time),
            DoubtsStep::Idle => DoubtsPoll::Idle,
            DoubtsStep::End(why) => self.end_in_doubt(why, now),
        }
    }

    /// Ends the session for this cause, after it has deleted its allocation.
    fn end_in_doubt(&mut self, why: Why, now: Instant) -> DoubtsPoll
        ensures { (result, self.new) ≡ doubts_ended why now self.old }
    {
        self.end_soon(why, now);
        DoubtsPoll::Now
    }

    /// Uses what the server has said to a question. Returns whether the session has ended by it.
    fn take_told(&mut self, now: Instant) -> bool
        ensures { (result, self.new) ≡ told_step now self.old }
    {
        let Some(told) = self.notes.told else {
            return false;
        };
        self.notes.told = None;
        match self.doubts.told(told.error, now) {
            Some(why) => {
                self.life.end(why);
                true
            }
            None => false,
        }
    }

    /// Asks the server for the address with the next number.
    fn ask_next(&mut self, now: Instant) -> DoubtsPoll
        requires now_in_range { now ≤ 2 ^ 62 }
        ensures { AsksNext now self.old self.new result }
    {
        let Some(relays) = self.notes.relays else {
            return DoubtsPoll::Idle;
        };
        let ip = question_ip(self.doubts.is_ipv6, self.doubts.number);
        if self.notes.is_asked(Key::Permission(ip)) {
            self.doubts.asked(Asking::Taken);
            return DoubtsPoll::Now;
        }
        if self.notes.shelve_question().is_err() {
            return DoubtsPoll::NoMemory;
        }
        self.ask_new(relays, ip, now)
    }

    /// Asks the server for this address, which is the last question then.
    fn ask_new(&mut self, relays: TransportType, ip: IpAddr, now: Instant) -> DoubtsPoll
        requires now_in_range { now ≤ 2 ^ 62 }
        ensures { AsksNew relays ip now self.old self.new result }
    {
        match ask(&mut self.client, relays, ip, now) {
            Some(asking) => {
                self.note_question(asking, ip);
                DoubtsPoll::Now
            }
            None => DoubtsPoll::NoMemory,
        }
    }

    /// Notes what became of a question for this address.
    fn note_question(&mut self, asking: Asking, ip: IpAddr)
        ensures { self.new ≡ with_question asking ip self.old }
    {
        self.doubts.asked(asking);
        if matches!(asking, Asking::Asked) {
            self.notes.question = Some(Key::Permission(ip));
        }
    }

    /// Notes a response that says something of the allocation.
    pub(crate) fn note_doubts(&mut self, response: Response, now: Instant)
        ensures { self.new ≡ noted_doubts response now self.old }
    {
        if matches!(self.life.phase, Phase::Open) {
            self.doubts.answered(response, now);
        }
    }
}
