//! How many grants a client keeps, by the numbers of its settings. No client is needed.

ghost use Rattle.std.specs.Prelude.{ℕ, ◌+◌, ◌-◌, ◌/◌, ◌^◌, ◌≡◌, ◌↔◌, ◌≤◌, ◌<◌, max, Some, IfSome, IsSome, IsSomeAnd};
ghost use Rattle.turn_c_calls.specs.Room.{HasRoomWith, ahead_by, cadence_by, longest_in};

use crate::code::NO_PAUSE;

/// The pause between two requests unless another one is set, in nanoseconds.
const DEFAULT_CADENCE: u64 = 50_000_000;

/// How long before its expiry a grant is refreshed unless it is set, in nanoseconds.
const DEFAULT_AHEAD: u64 = 60_000_000_000;

/// The least time before its expiry at which a grant is refreshed, in nanoseconds.
const LEAST_AHEAD: u64 = 1_000_000_000;

/// Half of a permission's lifetime, before which none is refreshed (RFC 8656, section 9), in nanoseconds.
const MOST_AHEAD: u64 = 150_000_000_000;

/// What takes time before the expiry of grants that are all to be refreshed at one time, apart from their refreshes.
#[derive(Clone, Copy, Debug, PartialEq, Eq)]
#[repr(C)]
pub struct Load {
    /// How long a packet waits for the caller at most, in nanoseconds: how much too late a timer wakes it up.
    pub late: u64,
    /// How long the server's success takes at most, from when a request was first made, in nanoseconds.
    pub delay: u64,
    /// How many packets are queued at most.
    pub slots: u32,
    /// How many packets are extra within the time ahead, at most: retransmissions, and requests that are made again.
    pub extras: u32,
}

impl Load {
    ghost use Rattle.std.specs.Prelude.{◌+◌, ◌≡◌, ◌↔◌, ◌<◌, IfSome, IsSome};

    /// How many nanoseconds of this time ahead are left for packets, but for the last one. `None` if not one is.
    fn rest(&self, ahead: u64) -> Option<u64>
        ensures some { IfSome result (λ rest. rest + self.now.delay + self.now.late + 1 ≡ ahead) }
        ensures variant { IsSome result ↔ (self.now.delay + self.now.late < ahead) }
    {
        let behind = ahead.checked_sub(self.delay)?;
        behind.checked_sub(self.late)?.checked_sub(1)
    }

    /// How many packets there are beside refreshes.
    fn others(&self) -> u64
        ensures { result ≡ self.now.slots + self.now.extras }
    {
        u64::from(self.slots) + u64::from(self.extras)
    }
}

/// The pause between two requests by this setting, in nanoseconds.
fn cadence_by(setting: u64) -> u64
    ensures { result ≡ cadence_by setting }
{
    match setting {
        NO_PAUSE => 0,
        0 => DEFAULT_CADENCE,
        nanos => nanos,
    }
}

/// How long before its expiry a permission is refreshed by this setting, in nanoseconds.
fn ahead_by(setting: u64) -> u64
    ensures value { result ≡ ahead_by setting }
    ensures short { result ≤ 150_000_000_000 }
{
    let nanos = if setting == 0 { DEFAULT_AHEAD } else { setting };
    nanos.max(LEAST_AHEAD).min(MOST_AHEAD)
}

/// The quotient of a number and a sum, which may have over 64 bits.
// No number of 128 bits is divided, which would need a function of the compiler's library.
fn divided(number: u64, one: u64, other: u64) -> u64
    requires { 0 < one + other }
    ensures value { result ≡ number / (one + other) }
    ensures within { result ≤ number }
{
    match one.checked_add(other) {
        Some(sum) => number / sum,
        None => 0,
    }
}

/// How many grants are kept beside this load by a client with these settings, of which none lasts less than a permission: none of so
/// many is lost, and one more may be. It is 0 if there is room for none, and `u64::MAX` if no packet takes any time.
pub fn kept_grants(load: &Load, request_cadence: u64, refresh_ahead: u64) -> u64
    ensures { (count : ℕ) → 1 ≤ count → count < 2 ^ 64
        → (count ≤ result) ↔ HasRoomWith count load.now (cadence_by request_cadence) (ahead_by refresh_ahead) }
{
    let Some(rest) = load.rest(ahead_by(refresh_ahead)) else {
        return 0;
    };
    let cadence = cadence_by(request_cadence);
    if cadence == 0 && load.late == 0 {
        return u64::MAX;
    }
    divided(rest, cadence, load.late).saturating_sub(load.others())
}

/// The longest pause between two requests at which so many grants are kept beside this load, as a setting: [`NO_PAUSE`] if they
/// are kept without a pause alone, and 0 if they are too many for any. No grant is taken as one.
pub fn longest_cadence(load: &Load, count: u64, refresh_ahead: u64) -> u64
    ensures { (cadence : ℕ) → IsSomeAnd (longest_in result) (λ longest. cadence ≤ longest)
        ↔ HasRoomWith (max 1 count) load.now cadence (ahead_by refresh_ahead) }
{
    let Some(rest) = load.rest(ahead_by(refresh_ahead)) else {
        return 0;
    };
    match divided(rest, count.max(1), load.others()).checked_sub(load.late) {
        None => 0,
        Some(longest) => setting_of(longest),
    }
}

/// The setting for this pause, in nanoseconds.
fn setting_of(cadence: u64) -> u64
    requires { cadence < 2 ^ 64 - 1 }
    ensures { longest_in result ≡ Some cadence }
{
    if cadence == 0 { NO_PAUSE } else { cadence }
}
