//! When a request is retransmitted, and when it times out (RFC 8489, section 6.2).

ghost use Rattle.std.specs.Prelude.{◌≡◌, ◌+◌, ◌-◌, ◌^◌, ◌<◌, min, sum};
ghost use Rattle.turn_agent.specs.Schedule.{wait_of, udp_resends, udp_wait_at, schedule, resends_of, wait_at, doubled_wait, doubled_sum};

use std::marker::Model;
use std::time::Duration;
use turn_stun::instant::Instant;
use turn_stun::transport::TransportType;

/// A request is sent only once if the initial wait is no longer than this (our choice).
const SHORTEST_INITIAL_NANOS: u64 = 1_000_000;

/// The longest wait that can be distinguished from a longer one: all sums of times saturate there.
const GREATEST_WAIT: u128 = 0x7fff_ffff_ffff_ffff;

/// How often a request is sent over UDP, and how long a response is awaited after each send (RFC
/// 8489, section 6.2.1). Over TCP it is sent once, and awaited for the sum of the waits (6.2.2).
///
/// A wait of 2^64 ns or more is kept as 2^64 - 1 ns. No `Instant` is so far ahead, so no call can
/// distinguish them (our choice).
#[derive(Clone, Copy, Debug, PartialEq, Eq)]
pub struct RequestTimers {
    initial: u64,
    max: u64,
    transmissions: u32,
    last: u64,
}

impl Model for RequestTimers {
    ghost use Rattle.turn_agent.specs.Schedule.{Timers};

    ghost Value = { Timers };

    ghost view = { λ t. record { initial = t.initial; max = t.max; transmissions = t.transmissions; last = t.last } };

    ghost inverse = { λ t. record { initial = t.initial; max = t.max; transmissions = t.transmissions; last = t.last } };
}

impl RequestTimers {
    /// The timers with this wait after the first send, which doubles from send to send up to `max`,
    /// so many transmissions in all, and this wait after the last of them.
    ///
    /// A request is sent only once if `retransmits` is 0 or 1, or if `initial` is at most 1 ms (our
    /// choice).
    pub fn new(
        initial: Duration,
        max: Duration,
        retransmits: u32,
        final_wait: Duration,
    ) -> RequestTimers
        ensures { result ≡ record {
          initial = wait_of initial;
          max = wait_of max;
          transmissions = retransmits;
          last = wait_of final_wait;
        } }
    {
        RequestTimers {
            initial: nanos_of(initial),
            max: nanos_of(max),
            transmissions: retransmits,
            last: nanos_of(final_wait),
        }
    }

    /// How often a request is retransmitted over UDP.
    fn udp_resends(self) -> u32
        ensures { result ≡ udp_resends self }
    {
        if self.transmissions <= 1 || self.initial <= SHORTEST_INITIAL_NANOS {
            0
        } else {
            self.transmissions - 1
        }
    }

    /// The wait after the send at this place over UDP, in nanoseconds.
    fn udp_wait(self, place: u32) -> u64
        ensures { result ≡ udp_wait_at self place }
    {
        if place < self.udp_resends() {
            doubled_wait(self.initial, self.max, place)
        } else {
            self.last
        }
    }

    /// The sum of all waits over UDP, in nanoseconds, or the longest wait if that is less.
    fn whole_wait(self) -> u64
        ensures { result ≡ min (sum (schedule self)) (2 ^ 63 - 1) }
    {
        let before_last = sum_of_doubled(self.initial, self.max, self.udp_resends());
        let whole = before_last + u128::from(self.last);
        whole.min(GREATEST_WAIT) as u64
    }
}

/// Half a second, doubled from send to send, seven sends, and 8 s after the last (RFC 8489, section
/// 6.2.1).
impl Default for RequestTimers {
    ghost use Rattle.std.specs.Prelude.{◌≡◌};
    ghost use Rattle.turn_agent.specs.Schedule.{default_timers};

    ghost is_default = { λ timers. timers ≡ default_timers };

    fn default() -> RequestTimers {
        RequestTimers {
            initial: 500_000_000,
            max: u64::MAX,
            transmissions: 7,
            last: 8_000_000_000,
        }
    }
}

/// The timers of an agent over its transport.
#[derive(Debug, Drop)]
pub(crate) struct Schedule {
    /// The transport of the requests.
    pub(crate) transport: TransportType,
    /// How often a request is sent over UDP, and how long a response is awaited.
    pub(crate) timers: RequestTimers,
    // Kept, since its sum takes up to 64 iterations.
    whole_wait: u64,
    ghost whole: { whole_wait ≡ min (sum (schedule timers)) (2 ^ 63 - 1) },
}

impl Schedule {
    /// The schedule of these timers over this transport.
    pub(crate) fn new(transport: TransportType, timers: RequestTimers) -> Schedule
        ensures transport { result.transport ≡ transport }
        ensures timers { result.timers ≡ timers }
    {
        Schedule {
            transport,
            timers,
            whole_wait: timers.whole_wait(),
        }
    }

    /// How often a request is retransmitted.
    pub(crate) fn resends(&self) -> u32
        ensures { result ≡ resends_of self.now.timers self.now.transport }
    {
        match self.transport {
            TransportType::Udp => self.timers.udp_resends(),
            TransportType::Tcp => 0,
        }
    }

    /// When the wait after the send at this place ends, the first send being at place 0.
    pub(crate) fn end_of_wait(&self, send: Instant, place: u32) -> Instant
        ensures { result ≡ min (send + wait_at self.now.timers self.now.transport place) (2 ^ 63 - 1) }
    {
        let wait = match self.transport {
            TransportType::Udp => self.timers.udp_wait(place),
            TransportType::Tcp => self.whole_wait,
        };
        Instant::from_nanos(send.as_nanos().saturating_add(wait))
    }
}

/// The nanoseconds of a wait, at most 2^64 - 1.
fn nanos_of(wait: Duration) -> u64
    ensures { result ≡ wait_of wait }
{
    u64::try_from(wait.as_nanos()).unwrap_or(u64::MAX)
}

/// The first wait, doubled so often, and at most the greatest wait.
fn doubled_wait(first: u64, greatest: u64, place: u32) -> u64
    requires { 0 < first }
    ensures { result ≡ doubled_wait first greatest place }
{
    // A wait doubled so often is longer than the greatest possible one.
    if place >= 64 {
        return greatest;
    }
    let doubled = u128::from(first) << place;
    doubled.min(u128::from(greatest)) as u64
}

/// The sum of so many of the doubled waits, from the first one on.
///
/// It takes at most 64 iterations, whatever the count: after them every wait is the greatest.
fn sum_of_doubled(first: u64, greatest: u64, count: u32) -> u128
    requires { 0 < count → 0 < first }
    ensures sum { result ≡ doubled_sum first greatest 0 count }
    ensures range { result < 2 ^ 96 }
{
    let greatest = u128::from(greatest);
    let mut wait = u128::from(first);
    let mut left = count;
    let mut sum = 0;
    for _round in 0u32..64 {
        if left == 0 || wait >= greatest {
            break;
        }
        sum += wait;
        wait *= 2;
        left -= 1;
    }
    sum + u128::from(left) * greatest
}
