//! When the peer of a grant was last used.

ghost use Rattle.std.specs.Prelude.{◌≡◌};
ghost use Rattle.turn_session_idle.specs.Usage.{carried_out, is_due, is_used_with, looked_at, new_usage, phase_at};
ghost use Rattle.turn_session_idle.specs.Usage.{phase_carried_out, phase_used, used};

use std::time::Duration;
use turn_session_book::keys::{Key, permission_for};
use turn_stun::instant::Instant;

/// Whether a grant is released because its peer is idle.
#[derive(Clone, Copy, Debug, PartialEq, Eq)]
pub enum UsePhase {
    /// It is not: the caller says whether it is kept.
    InUse,
    /// Its peer is idle, and it is to be released.
    Idle,
    /// It was released.
    Released,
    /// It was released, its peer is used again, and it is to be kept again.
    UsedAgain,
}

impl UsePhase {
    /// This phase once the peer is used.
    pub(crate) fn used(self) -> UsePhase
        ensures { result ≡ phase_used self }
    {
        match self {
            UsePhase::InUse | UsePhase::Idle => UsePhase::InUse,
            UsePhase::Released | UsePhase::UsedAgain => UsePhase::UsedAgain,
        }
    }

    /// This phase once the grant was released, or kept again.
    pub(crate) fn carried_out(self) -> UsePhase
        ensures { result ≡ phase_carried_out self }
    {
        match self {
            UsePhase::Idle | UsePhase::Released => UsePhase::Released,
            UsePhase::UsedAgain | UsePhase::InUse => UsePhase::InUse,
        }
    }
}

/// A grant, and when its peer was last used.
#[derive(Clone, Copy, Debug, PartialEq, Eq)]
pub struct Usage {
    /// What was granted.
    pub key: Key,
    /// When data of the peer last came or went, or the grant was requested.
    pub last: Instant,
    /// Whether it is released because the peer is idle.
    pub phase: UsePhase,
}

impl Usage {
    /// A grant whose peer is used now.
    pub(crate) fn new(key: Key, now: Instant) -> Usage
        ensures { result ≡ new_usage key now }
    {
        Usage {
            key,
            last: now,
            phase: UsePhase::InUse,
        }
    }

    /// Whether the grant is used together with this key: with its own, and a permission with each channel and each data
    /// connection to a port of its IP address.
    pub(crate) fn is_used_with(&self, key: Key) -> bool
        ensures { result ≡ is_used_with key self.now }
    {
        self.key == key || self.key == permission_for(key)
    }

    /// The grant after a use of its peer.
    pub(crate) fn used(self, now: Instant) -> Usage
        ensures { result ≡ used now self }
    {
        Usage {
            key: self.key,
            last: now,
            phase: self.phase.used(),
        }
    }

    /// The grant after a look at its peer, which is idle if it was not used for this time, in nanoseconds. What the caller has
    /// released stays as it is.
    pub(crate) fn looked_at(self, is_kept: bool, idle: u64, now: Instant) -> Usage
        ensures { result ≡ looked_at is_kept idle now self }
    {
        if !is_kept {
            return self;
        }
        Usage {
            key: self.key,
            last: self.last,
            phase: self.phase_at(idle, now),
        }
    }

    /// The phase of a grant that is kept.
    fn phase_at(&self, idle: u64, now: Instant) -> UsePhase
        ensures { result ≡ phase_at idle now self.now.last }
    {
        if now < self.last.plus(Duration::from_nanos(idle)) {
            UsePhase::InUse
        } else {
            UsePhase::Idle
        }
    }

    /// Whether it is to be released, or to be kept again.
    pub(crate) fn is_due(&self) -> bool
        ensures { result ≡ is_due self.now }
    {
        matches!(self.phase, UsePhase::Idle | UsePhase::UsedAgain)
    }

    /// The grant once it was released, or kept again.
    pub(crate) fn carried_out(&self) -> Usage
        ensures { result ≡ carried_out self.now }
    {
        Usage {
            key: self.key,
            last: self.last,
            phase: self.phase.carried_out(),
        }
    }
}
