//! Errors of a socket over UDP: one may pass, but several seconds with one in each, and nothing received, end a session.

ghost use Rattle.std.specs.Prelude.{◌≡◌, is_none, None};
ghost use Rattle.turn_session_path.specs.SocketErrors.{after_error, errors_step, run_until, second_after};

use crate::constants::{PAUSE, RUN};
use std::time::Duration;
use turn_session_book::tags::Tag;
use turn_stun::instant::Instant;

/// What errors of the socket lead to.
#[derive(Clone, Copy, Debug, PartialEq, Eq)]
pub enum ErrorStep {
    /// A Binding request is to be sent: its error, or its response, shows whether the path still carries packets.
    SendBinding,
    /// Nothing before this time.
    WaitUntil(Instant),
    /// There is no error to follow.
    Idle,
    /// There were errors in three seconds in a row, of which this was the first.
    Ended(Tag),
}

/// The errors of a socket since something was received.
#[derive(Clone, Copy, Debug)]
pub struct ErrorRun {
    /// The first error.
    pub tag: Tag,
    /// The seconds before this one, each of which had an error.
    pub seconds: u8,
    /// When this second ends.
    pub until: Instant,
    /// Whether this second has had an error.
    pub is_again: bool,
}

/// The errors of a socket.
#[derive(Clone, Copy, Debug)]
pub struct SocketErrors {
    /// Those that are followed, if there are any.
    pub run: Option<ErrorRun>,
}

impl SocketErrors {
    /// No errors.
    pub fn new() -> SocketErrors
        ensures { result.run ≡ None }
    {
        SocketErrors { run: None }
    }

    /// The socket reported an error. The first one begins a second: it returns whether a Binding request is to be sent now, whose
    /// response or error shows whether the path still carries packets.
    pub fn failed(&mut self, tag: Tag, now: Instant) -> bool
        ensures sends { result ≡ is_none self.old.run }
        ensures after { self.new.run ≡ after_error tag now self.old.run }
    {
        match self.run {
            Some(run) => {
                self.run = Some(ErrorRun {
                    is_again: true,
                    ..run
                });
                false
            }
            None => {
                self.run = Some(ErrorRun {
                    tag,
                    seconds: 0,
                    until: second_after(now),
                    is_again: false,
                });
                true
            }
        }
    }

    /// Something was received from the server: the errors are forgotten.
    pub fn received(&mut self)
        ensures { self.new.run ≡ None }
    {
        self.run = None;
    }

    /// When this second ends, if errors are followed.
    pub fn until(&self) -> Option<Instant>
        ensures { result ≡ run_until self.now.run }
    {
        match self.run {
            Some(run) => Some(run.until),
            None => None,
        }
    }

    /// What is to be done now. A second without a further error ends the run, and the third with one the session.
    pub fn poll(&mut self, now: Instant) -> ErrorStep
        ensures { (result, self.new.run) ≡ errors_step now self.old.run }
    {
        let Some(run) = self.run else {
            return ErrorStep::Idle;
        };
        if now < run.until {
            return ErrorStep::WaitUntil(run.until);
        }
        if !run.is_again {
            self.run = None;
            return ErrorStep::Idle;
        }
        if run.seconds >= RUN - 1 {
            return ErrorStep::Ended(run.tag);
        }
        self.run = Some(ErrorRun {
            tag: run.tag,
            seconds: run.seconds + 1,
            until: second_after(now),
            is_again: false,
        });
        ErrorStep::SendBinding
    }
}

/// A second later.
fn second_after(now: Instant) -> Instant
    ensures { result ≡ second_after now }
{
    now.plus(Duration::from_nanos(PAUSE))
}
