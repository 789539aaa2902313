//! Times on the caller's clock.

ghost use Rattle.std.specs.Prelude.{◌≡◌, ◌+◌, ◌-◌, ◌^◌, ◌<◌, min};
ghost use Rattle.std.specs.Duration.{as_nanos};

use std::fmt;
use std::marker::Model;
use std::time::Duration;

/// The greatest time, in nanoseconds: 2^63 - 1, some 292 years after the start.
const GREATEST_NANOS: u64 = 0x7fff_ffff_ffff_ffff;

const NANOS_PER_SECOND: u64 = 1_000_000_000;

/// A time: the nanoseconds since a start that the caller chose.
///
/// Nothing in this crate reads a clock. The greatest time is 2^63 - 1 ns: sums stop there, and
/// differences stop at zero, so that no call has to refuse a time (our choice).
#[derive(Clone, Copy, Debug, PartialEq, Eq, PartialOrd, Ord)]
pub struct Instant {
    nanos: u64,
}

impl Model for Instant {
    ghost use Rattle.std.specs.Prelude.{ℕ, ◌<◌, ◌^◌};

    ghost Value = { ℕ };

    ghost view = { λ time. time.nanos };

    ghost invariant = { λ time. time.nanos < 2 ^ 63 };

    ghost inverse = { λ nanos. record { nanos = nanos } };
}

impl Instant {
    /// The start of the caller's clock.
    pub const ZERO: Instant = Instant { nanos: 0 };

    /// The time that many nanoseconds after the start, or the greatest time if that is earlier.
    pub fn from_nanos(nanos: u64) -> Instant
        ensures { result ≡ min nanos (2 ^ 63 - 1) }
    {
        Instant {
            nanos: nanos.min(GREATEST_NANOS),
        }
    }

    /// The nanoseconds since the start, below 2^63.
    pub fn as_nanos(self) -> u64
        ensures value { result ≡ self }
        ensures range { result < 2 ^ 63 }
    {
        self.nanos
    }

    /// The time that much later, or the greatest time if that is earlier.
    pub fn plus(self, duration: Duration) -> Instant
        ensures { result ≡ min (self + as_nanos duration) (2 ^ 63 - 1) }
    {
        let later = u128::from(self.nanos) + duration.as_nanos();
        let nanos = later.min(u128::from(GREATEST_NANOS));
        Instant {
            nanos: nanos as u64,
        }
    }

    /// How long after `earlier` this time is, or zero if it is before it.
    pub fn since(self, earlier: Instant) -> Duration
        ensures { as_nanos result ≡ self - earlier }
    {
        Duration::from_nanos(self.nanos.saturating_sub(earlier.nanos))
    }
}

/// Seconds, a point, nine digits and an `s`, as in `900.000000000s`.
impl fmt::Display for Instant {
    fn fmt<W: fmt::Write>(&self, f: &mut fmt::Formatter<W>) -> fmt::Result {
        let seconds = self.nanos / NANOS_PER_SECOND;
        let nanos = self.nanos % NANOS_PER_SECOND;
        write!(f, "{seconds}.{nanos:09}s")
    }
}
