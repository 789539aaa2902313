//! Whether the server still knows the allocation and accepts user name and password: the doubts of both, and what they lead to.

ghost use Rattle.std.specs.Prelude.{◌≡◌};
ghost use Rattle.turn_session_life.specs.Doubts.{after_asking, after_denial, after_doubt, after_move, after_refusal, after_response};
ghost use Rattle.turn_session_life.specs.Doubts.{after_told, cause_told, doubts_step, no_doubts, number_after, suspicion_polled, later_step};
ghost use Rattle.turn_session_life.specs.Heard.{has_code};

use crate::heard::is_challenge;
use crate::responses::{Response, Said};
use turn_session_book::causes::Why;
use turn_session_book::replies::ErrorReply;
use turn_session_path::constants::RUN;
use turn_session_path::credentials::{Credentials, CredentialsStep};
use turn_session_path::path::sooner;
use turn_session_path::suspicion::{DoubtStep, Suspicion, is_forgotten};
use turn_stun::attribute::error_code::ErrorCode;
use turn_stun::instant::Instant;

/// The number of the last address that is asked for.
const LAST_NUMBER: u8 = 254;

/// What the doubts lead to.
#[derive(Clone, Copy, Debug)]
pub enum DoubtsStep {
    /// The server is to be asked now, by a request for a permission of an address that no host has.
    Ask,
    /// Nothing before this time.
    WaitUntil(Instant),
    /// There is no doubt.
    Idle,
    /// The session is to end.
    End(Why),
}

/// What became of a request for an address that no host has.
#[derive(Clone, Copy, Debug, PartialEq, Eq)]
pub enum Asking {
    /// It is on its way.
    Asked,
    /// That address is in use.
    Taken,
    /// There is no allocation of its family.
    NoAllocation,
}

/// The doubts of an open session.
#[derive(Clone, Copy, Debug)]
pub struct Doubts {
    /// Whether errors and silence lead to doubts. Another address of this client always does.
    pub checks: bool,
    /// The doubts of the allocation.
    pub suspicion: Suspicion,
    /// Those of user name and password.
    pub credentials: Credentials,
    /// Whether the server is to be asked now.
    pub is_asking: bool,
    /// The number of the address that is asked for next, from 1 to 254.
    pub number: u8,
    /// Whether that is an IPv6 address.
    pub is_ipv6: bool,
}

impl Doubts {
    /// No doubt. Errors and silence lead to doubts or not.
    pub fn new(checks: bool) -> Doubts
        ensures { result ≡ no_doubts checks }
    {
        Doubts {
            checks,
            suspicion: Suspicion::new(),
            credentials: Credentials::new(),
            is_asking: false,
            number: 1,
            is_ipv6: false,
        }
    }

    /// A response to a request was received. What is signed ends a doubt of user name and password.
    pub fn answered(&mut self, response: Response, now: Instant)
        ensures { self.new ≡ after_response response now self.old }
    {
        match response.said {
            Said::Granted(_) => self.credentials.signed(),
            Said::Denied(error) => self.denied(error, now),
            Said::Nothing => {}
        }
    }

    /// There was an error of the socket, or a check without a response: the allocation is in doubt, if errors and silence lead to
    /// doubts.
    pub fn doubt(&mut self)
        ensures { self.new ≡ after_doubt self.old }
    {
        if self.checks {
            self.suspicion.doubt();
        }
    }

    /// The server sees another address of this client than before.
    pub fn moved(&mut self)
        ensures { self.new ≡ after_move self.old }
    {
        self.suspicion.moved();
    }

    /// The server has answered what it was asked, by this error or with `None` by granting it. Returns why the session is to end, if
    /// it no longer knows the allocation.
    pub fn told(&mut self, error: Option<ErrorReply>, now: Instant) -> Option<Why>
        ensures why { result ≡ cause_told error }
        ensures after { self.new ≡ after_told error now self.old }
    {
        if let Some(error) = error {
            if self.suspicion.answered(error.code, now) {
                return Some(Why::Forgotten(error));
            }
        } else {
            let _forgotten = self.suspicion.answered(None, now);
        }
        None
    }

    /// What is to be done now. Call `asked` when the server was asked.
    pub fn poll(&mut self, now: Instant) -> DoubtsStep
        ensures { (result, self.new) ≡ doubts_step now self.old }
    {
        if self.is_asking {
            return DoubtsStep::Ask;
        }
        match self.credentials.poll(now) {
            CredentialsStep::Refused => DoubtsStep::End(Why::CredentialsRefused),
            CredentialsStep::WaitUntil(time) => self.poll_suspicion(Some(time), now),
            CredentialsStep::Idle => self.poll_suspicion(None, now),
        }
    }

    /// What became of the request for the address with the next number. If that is in use, the one after it is to be asked for, up to
    /// the last, and if there is no IPv4 allocation, an IPv6 address is.
    pub fn asked(&mut self, asking: Asking)
        ensures { self.new ≡ after_asking asking self.old }
    {
        match asking {
            Asking::Asked => {
                self.is_asking = false;
                self.number = number_after(self.number);
            }
            Asking::Taken => {
                self.is_asking = self.number < LAST_NUMBER;
                self.number = number_after(self.number);
            }
            Asking::NoAllocation => {
                self.is_asking = !self.is_ipv6;
                self.is_ipv6 = !self.is_ipv6;
            }
        }
    }

    /// An error, which a server that no longer knows the allocation may have sent, signed or not.
    fn denied(&mut self, error: ErrorReply, now: Instant)
        ensures { self.new ≡ after_denial error now self.old }
    {
        if error.is_taken {
            if !is_challenge(&error) {
                self.credentials.signed();
            }
        } else if is_unauthorized(&error) {
            self.refused(now);
        }
        if is_forgotten(error.code) {
            self.doubt();
        }
    }

    /// A 401 that nobody signed: the first one to a signed request is a doubt.
    fn refused(&mut self, now: Instant)
        ensures { self.new ≡ after_refusal now self.old }
    {
        if self.checks && self.credentials.refused(now) {
            self.suspicion.doubt();
        }
    }

    /// What the doubts of the allocation lead to, beside this time of those of user name and password.
    fn poll_suspicion(&mut self, grace: Option<Instant>, now: Instant) -> DoubtsStep
        ensures { (result, self.new) ≡ suspicion_polled grace now self.old }
    {
        match self.suspicion.poll(now) {
            DoubtStep::Ask => {
                self.is_asking = true;
                DoubtsStep::Ask
            }
            DoubtStep::WaitUntil(time) => later_step(grace, Some(time)),
            DoubtStep::Idle => later_step(grace, None),
            DoubtStep::Unanswered => DoubtsStep::End(Why::Unanswered(RUN)),
        }
    }
}

/// Whether the error says that a request is not signed as the server requires.
fn is_unauthorized(error: &ErrorReply) -> bool
    ensures { result ≡ has_code 401 error.now }
{
    match error.code {
        Some(code) => code == ErrorCode::UNAUTHORIZED,
        None => false,
    }
}

/// Nothing before the sooner of two times, of which each may be missing.
fn later_step(grace: Option<Instant>, time: Option<Instant>) -> DoubtsStep
    ensures { result ≡ later_step grace time }
{
    match sooner(grace, time) {
        Some(first) => DoubtsStep::WaitUntil(first),
        None => DoubtsStep::Idle,
    }
}

/// The number after this one, from 1 to 254 and again.
fn number_after(number: u8) -> u8
    ensures { result ≡ number_after number }
{
    if number < LAST_NUMBER { number + 1 } else { 1 }
}
