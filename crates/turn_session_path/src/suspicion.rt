//! Whether the server still knows the allocation: a signed request asks it when there is a doubt.

ghost use Rattle.std.specs.Prelude.{◌≡◌};
ghost use Rattle.turn_session_path.specs.Suspicion.{after_answer, after_doubt, after_move, begin_step, check_deadline, check_time};
ghost use Rattle.turn_session_path.specs.Suspicion.{is_forgotten, no_doubt, pause_after, suspicion_step};

use crate::constants::{
    ALLOCATION_CHECK, ALLOCATION_PAUSE_ENDS, FIRST_ALLOCATION_PAUSE, LAST_ALLOCATION_PAUSE, RUN,
    WRONG_CREDENTIALS,
};
use std::time::Duration;
use turn_stun::attribute::error_code::ErrorCode;
use turn_stun::instant::Instant;

/// What a doubt of the allocation leads to.
#[derive(Clone, Copy, Debug, PartialEq, Eq)]
pub enum DoubtStep {
    /// A permission is to be requested for an address that no host has. Only a server that knows the allocation grants or
    /// denies it.
    Ask,
    /// Nothing before this time.
    WaitUntil(Instant),
    /// There is no doubt.
    Idle,
    /// The server answered none of three such requests.
    Unanswered,
}

/// The doubts of an allocation.
#[derive(Clone, Copy, Debug)]
pub struct Suspicion {
    /// Whether there is a doubt that no check has begun for.
    pub is_due: bool,
    /// When the check under way has waited long enough.
    pub deadline: Option<Instant>,
    /// The checks in a row without an answer.
    pub unanswered: u8,
    /// The pause after the last check that was answered, in nanoseconds.
    pub pause: u64,
    /// When that was.
    pub answered: Option<Instant>,
}

impl Suspicion {
    /// No doubt.
    pub fn new() -> Suspicion
        ensures { result ≡ no_doubt }
    {
        Suspicion {
            is_due: false,
            deadline: None,
            unanswered: 0,
            pause: 0,
            answered: None,
        }
    }

    /// The allocation is in doubt: it is checked after the pause.
    pub fn doubt(&mut self)
        ensures { self.new ≡ after_doubt self.old }
    {
        self.is_due = true;
    }

    /// The server sees another address of this client than before: the allocation is checked at once.
    pub fn moved(&mut self)
        ensures { self.new ≡ after_move self.old }
    {
        self.is_due = true;
        self.answered = None;
    }

    /// The server answered a check, by this error code or with `None` by granting it: returns whether it has forgotten the
    /// allocation. Otherwise a pause begins.
    pub fn answered(&mut self, code: Option<u16>, now: Instant) -> bool
        ensures forgotten { result ≡ is_forgotten code }
        ensures after { self.new ≡ after_answer code now self.old }
    {
        if is_forgotten(code) {
            return true;
        }
        self.pause = self.pause_after(now);
        self.answered = Some(now);
        self.deadline = None;
        self.unanswered = 0;
        false
    }

    /// What is to be done now: a check begins after the pause, and waits for 3 s. The next one begins at once if it had no answer,
    /// and the third without an answer ends the session.
    pub fn poll(&mut self, now: Instant) -> DoubtStep
        ensures { (result, self.new) ≡ suspicion_step now self.old }
    {
        let Some(deadline) = self.deadline else {
            return self.begin(now);
        };
        if now < deadline {
            return DoubtStep::WaitUntil(deadline);
        }
        if self.unanswered >= RUN - 1 {
            return DoubtStep::Unanswered;
        }
        self.unanswered += 1;
        self.deadline = Some(check_deadline(now));
        DoubtStep::Ask
    }

    /// Begins a check if there is a doubt, unless the pause lasts.
    fn begin(&mut self, now: Instant) -> DoubtStep
        ensures { (result, self.new) ≡ begin_step now self.old }
    {
        if !self.is_due {
            return DoubtStep::Idle;
        }
        let due = self.check_time();
        if now < due {
            return DoubtStep::WaitUntil(due);
        }
        self.is_due = false;
        self.unanswered = 0;
        self.deadline = Some(check_deadline(now));
        DoubtStep::Ask
    }

    /// When the next check may begin.
    fn check_time(&self) -> Instant
        ensures { result ≡ check_time self.now }
    {
        match self.answered {
            Some(answered) => answered.plus(Duration::from_nanos(self.pause)),
            None => Instant::ZERO,
        }
    }

    /// The pause after an answer at this time.
    fn pause_after(&self, now: Instant) -> u64
        ensures { result ≡ pause_after now self.now }
    {
        let Some(answered) = self.answered else {
            return FIRST_ALLOCATION_PAUSE;
        };
        if now < answered.plus(Duration::from_nanos(ALLOCATION_PAUSE_ENDS)) {
            self.pause.saturating_mul(2).min(LAST_ALLOCATION_PAUSE)
        } else {
            FIRST_ALLOCATION_PAUSE
        }
    }
}

/// When a check that begins now has waited long enough.
fn check_deadline(now: Instant) -> Instant
    ensures { result ≡ check_deadline now }
{
    now.plus(Duration::from_nanos(ALLOCATION_CHECK))
}

/// Whether a server that answers by this error code no longer knows the allocation.
pub fn is_forgotten(code: Option<u16>) -> bool
    ensures { result ≡ is_forgotten code }
{
    match code {
        Some(code) => {
            code == ErrorCode::BAD_REQUEST
                || code == ErrorCode::ALLOCATION_MISMATCH
                || code == WRONG_CREDENTIALS
        }
        None => false,
    }
}
