//! How long lies between the tries of a relay.

ghost use Rattle.std.specs.Prelude.{◌≡◌};
ghost use Rattle.turn_relay_tries.specs.Backoff.{IsLeast, default_backoff, drawn_wait, lot_of, next_wait};

use turn_stun::transaction::TransactionId;

/// How long lies between the beginnings of two tries. The first try is made at once.
#[derive(Clone, Copy, Debug, PartialEq, Eq)]
pub struct Backoff {
    /// Before the second try, in nanoseconds. It doubles with each further one.
    pub first: u64,
    /// The longest wait, in nanoseconds.
    pub longest: u64,
    /// The part of each wait that is random, in thousandths, at most 1,000: with 500 a wait is half of its time to all of it, so that
    /// the clients of a server that was restarted do not all come back at one time.
    pub jitter: u16,
}

impl Backoff {
    /// Half a second, doubling to 4 s, half of each random.
    pub fn new() -> Backoff
        ensures { result ≡ default_backoff }
    {
        Backoff {
            first: 500_000_000,
            longest: 4_000_000_000,
            jitter: 500,
        }
    }

    /// The wait of this many nanoseconds, less its random part. The number, which decides on it, is one of the relay's own.
    pub fn drawn(self, wait: u64, number: TransactionId) -> u64
        ensures value { result ≡ drawn_wait self wait (lot_of number) }
        ensures least { IsLeast self wait result }
    {
        let random = u128::from(wait)
            * u128::from(self.jitter.min(1_000))
            * u128::from(lot_of(number))
            / LOTS;
        u128::from(wait).saturating_sub(random) as u64
    }

    /// The wait behind this one.
    pub fn after(self, wait: u64) -> u64
        ensures { result ≡ next_wait self wait }
    {
        wait.saturating_mul(2).min(self.longest)
    }
}

/// A thousand times as many as there are lots.
const LOTS: u128 = 4_294_967_296_000;

/// The lot that a number decides on: its last four bytes.
fn lot_of(number: TransactionId) -> u32
    ensures { result ≡ lot_of number }
{
    let [_, _, _, _, _, _, _, _, a, b, c, d] = number.to_bytes();
    u32::from_be_bytes([a, b, c, d])
}
