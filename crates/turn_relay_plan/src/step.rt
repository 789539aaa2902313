//! What a plan has done.

use turn_relay_tries::causes::Cause;
use turn_stun::instant::Instant;

/// What a plan has done.
#[derive(Clone, Copy, Debug, PartialEq, Eq)]
pub enum PlanStep {
    /// It has set a task. Poll it again.
    Again,
    /// The try has failed for this cause. Poll it again.
    Failed(Cause),
    /// Nothing before this time, or with `None` nothing until the caller reports something.
    Wait(Option<Instant>),
}
