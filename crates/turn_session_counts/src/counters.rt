//! Numbers of requests, and the round trip.

ghost use Rattle.std.specs.Prelude.{◌≡◌, Some};
ghost use Rattle.turn_session_counts.specs.Counters.{mean_after, measured, requested, retransmitted};

/// The requests of a client to its server, in numbers.
#[derive(Clone, Copy, Debug, PartialEq, Eq)]
pub struct Counters {
    /// How many requests were sent, each once. It stops at 2^64 - 1.
    pub requests: u64,
    /// How often requests were sent again. It stops at 2^64 - 1.
    pub retransmissions: u64,
    /// How long the server takes for an answer, in nanoseconds: a mean in which the last answers count most, or `None` before the
    /// first one.
    pub round_trip: Option<u64>,
}

impl Counters {
    /// The counters after a request that is sent for the first time.
    pub(crate) fn requested(self) -> Counters
        ensures { result ≡ requested self }
    {
        Counters {
            requests: self.requests.saturating_add(1),
            ..self
        }
    }

    /// The counters after a request that is sent again.
    pub(crate) fn retransmitted(self) -> Counters
        ensures { result ≡ retransmitted self }
    {
        Counters {
            retransmissions: self.retransmissions.saturating_add(1),
            ..self
        }
    }

    /// The counters after an answer that took this long, in nanoseconds. It goes into the mean by an eighth (RFC 6298, section 2).
    pub(crate) fn measured(self, nanos: u64) -> Counters
        ensures { result ≡ measured nanos self }
    {
        let round_trip = match self.round_trip {
            Some(mean) => mean_after(nanos, mean),
            None => nanos,
        };
        Counters {
            round_trip: Some(round_trip),
            ..self
        }
    }
}

/// Seven eighths of the mean and one of this time, rounded down.
fn mean_after(nanos: u64, mean: u64) -> u64
    ensures { result ≡ mean_after nanos mean }
{
    let sum = u128::from(mean) * 7 + u128::from(nanos);
    (sum / 8) as u64
}
