//! What is looked at after a call, by calls that change nothing.

ghost use Rattle.std.specs.Prelude.{◌≤◌, ◌^◌};

use turn_client_api::TurnClientApi;
use turn_hostile_net::facts::{Fact, Facts};
use turn_hostile_net::fault::Fault;
use turn_stun::instant::Instant;
use turn_types::TransportType;

/// At how many times before its wake-up time a client must send nothing.
const TIMES: u64 = 20;

/// The latest time of a call, in nanoseconds: 2^62.
const LAST_TIME: u64 = 0x4000_0000_0000_0000;

/// The first expiry of the relayed addresses and permissions in use, or 0 if one was not granted.
pub fn first_expiry<C: TurnClientApi>(client: &C, facts: &Facts, relays: TransportType) -> u64 {
    let mut first = u64::MAX;
    for (transport, address) in client.relayed_addresses() {
        if transport != relays {
            return 0;
        }
        first = first.min(facts.expiry(Fact::Relayed(address)));
        for ip in client.permissions(transport, address) {
            first = first.min(facts.expiry(Fact::Permitted(ip)));
        }
    }
    first
}

/// Whether the client sends nothing at twenty times from now on, before the time until which nothing is due.
///
/// # Errors
///
/// If memory allocation fails.
pub fn is_idle<C: TurnClientApi>(client: &mut C, now: u64, until: u64) -> Result<bool, Fault> {
    let step = until.saturating_sub(now) / TIMES;
    for count in 0..TIMES {
        let time = now.saturating_add(step.saturating_mul(count));
        if client.poll_transmit(called_at(time))?.is_some() {
            return Ok(false);
        }
    }
    Ok(true)
}

/// This time, or the latest at which a client may be called.
pub fn called_at(time: u64) -> Instant
    ensures { result ≤ 2 ^ 62 }
{
    Instant::from_nanos(time.min(LAST_TIME))
}
