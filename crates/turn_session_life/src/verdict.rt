//! What refuses an allocation that is still requested, before anything signed does.

ghost use Rattle.std.specs.Prelude.{◌≡◌, None};
ghost use Rattle.turn_session_life.specs.Verdict.{after_failure, after_refusal, after_response, verdict_step, first_verdict};

use std::time::Duration;
use turn_session_book::causes::Why;
use turn_session_book::tags::Tag;
use turn_session_path::constants::GRACE;
use turn_stun::instant::Instant;

/// An error that ends the session at its time, unless the server grants an address before.
#[derive(Clone, Copy, Debug)]
pub struct Blame {
    /// When it ends the session.
    pub until: Instant,
    /// The cause of the end.
    pub why: Why,
}

/// What a verdict leads to.
#[derive(Clone, Copy, Debug)]
pub enum VerdictStep {
    /// Nothing before this time.
    WaitUntil(Instant),
    /// There is no error.
    Idle,
    /// The session is to end for this cause.
    Ended(Why),
}

/// The first error that nobody signed, while the allocation is requested: an error response to the signed ALLOCATE, or an error of
/// the socket. Anyone may have sent it, so a signed response has 1 s left.
#[derive(Clone, Copy, Debug)]
pub struct Verdict {
    /// The error.
    pub blame: Option<Blame>,
}

impl Verdict {
    /// No error.
    pub fn new() -> Verdict
        ensures { result.blame ≡ None }
    {
        Verdict { blame: None }
    }

    /// The server refused the ALLOCATE, for this cause, by an error that is not signed. The first error sets time and cause.
    pub fn refused(&mut self, why: Why, now: Instant)
        ensures { self.new.blame ≡ after_refusal why now self.old.blame }
    {
        match self.blame {
            Some(_blame) => {}
            None => self.blame = Some(first_verdict(why, now)),
        }
    }

    /// The socket reported an error.
    pub fn failed(&mut self, tag: Tag, now: Instant)
        ensures { self.new.blame ≡ after_failure tag now self.old.blame }
    {
        self.refused(Why::SocketErrors(tag), now);
    }

    /// A response to a request was received: an error of the socket was none of the server.
    pub fn answered(&mut self)
        ensures { self.new.blame ≡ after_response self.old.blame }
    {
        let Some(blame) = self.blame else {
            return;
        };
        if matches!(blame.why, Why::SocketErrors(_)) {
            self.blame = None;
        }
    }

    /// Whether the session is to end.
    pub fn poll(&self, now: Instant) -> VerdictStep
        ensures { result ≡ verdict_step now self.now.blame }
    {
        let Some(blame) = self.blame else {
            return VerdictStep::Idle;
        };
        if now < blame.until {
            return VerdictStep::WaitUntil(blame.until);
        }
        VerdictStep::Ended(blame.why)
    }
}

/// The error that is the first.
fn first_verdict(why: Why, now: Instant) -> Blame
    ensures { result ≡ first_verdict why now }
{
    Blame {
        until: now.plus(Duration::from_nanos(GRACE)),
        why,
    }
}
