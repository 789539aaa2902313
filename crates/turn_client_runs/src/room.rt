//! How many grants a client keeps, by the premise under which none is lost.

ghost use Rattle.std.specs.Duration.{as_nanos};
ghost use Rattle.std.specs.Prelude.{ℕ, ◌+◌, ◌^◌, ◌≡◌, ◌↔◌, ◌<◌, ◌≤◌, IfSome, IsSome, IsSomeAnd};
ghost use Rattle.turn_client_runs.specs.Room.{HasRoomFor};

use std::time::Duration;

/// What takes time before the expiry of grants that are all to be refreshed at one time, apart from their refreshes
/// (`grants_last_while_the_server_answers`, `behind`).
#[derive(Clone, Copy, Debug)]
pub struct Load {
    /// How many packets are queued at most; 0 if requests are timed from their first copies, since refreshes leave before them.
    pub slots: u32,
    /// How many packets are extra within the time ahead, at most: retransmissions, and requests that are made again.
    pub extras: u32,
    /// How long a packet waits for the caller at most: how much too late a timer wakes it up.
    pub late: Duration,
    /// How long the server's success takes at most, from when a request was first made.
    pub delay: Duration,
}

impl Load {
    /// How many nanoseconds of this time ahead are left for packets, but for the last one. `None` if not one is.
    fn rest(self, ahead: Duration) -> Option<u128>
        ensures some { IfSome result (λ rest. rest + as_nanos self.delay + as_nanos self.late + 1 ≡ as_nanos ahead) }
        ensures variant { IsSome result ↔ (as_nanos self.delay + as_nanos self.late < as_nanos ahead) }
    {
        let taken = self.delay.as_nanos() + self.late.as_nanos() + 1;
        ahead.as_nanos().checked_sub(taken)
    }
}

/// How many grants are kept beside this load, if one packet is sent in each `cadence` (`TurnConfig::request_cadence`) and each
/// grant is refreshed so long `ahead` of its expiry: by `TurnConfig::refresh_ahead`, or half of its lifetime if that is less. None
/// of so many is lost, and one more may be. It is 0 if there is room for none, and `u64::MAX` if no packet takes any time.
pub fn kept_grants(load: Load, cadence: Duration, ahead: Duration) -> u64
    ensures room { (count : ℕ) → 1 ≤ count → count < 2 ^ 64 → (count ≤ result) ↔ HasRoomFor count load (as_nanos cadence) (as_nanos ahead) }
{
    let Some(rest) = load.rest(ahead) else {
        return 0;
    };
    let pace = cadence.as_nanos() + load.late.as_nanos();
    if pace == 0 {
        return u64::MAX;
    }
    let others = u128::from(load.slots) + u128::from(load.extras);
    let count = (rest / pace).saturating_sub(others);
    count.min(u128::from(u64::MAX)) as u64
}

/// The longest pause between two requests at which so many grants are kept beside this load, each refreshed so long `ahead` of
/// its expiry. `None` if they are too many for any.
pub fn longest_cadence(load: Load, count: u64, ahead: Duration) -> Option<Duration>
    requires { 1 ≤ count }
    ensures room { (cadence : ℕ) → IsSomeAnd result (λ longest. cadence ≤ as_nanos longest) ↔ HasRoomFor count load cadence (as_nanos ahead) }
{
    let rest = load.rest(ahead)?;
    let packets = u128::from(count) + u128::from(load.slots) + u128::from(load.extras);
    let nanos = (rest / packets).checked_sub(load.late.as_nanos())?;
    Some(Duration::from_nanos_u128(nanos))
}
