//! What the time means that `poll` returns.

ghost use Rattle.std.specs.Prelude.{ℕ, ◌≤◌, ◌^◌};
ghost use Rattle.turn_client_api.specs.State.{State};
ghost use Rattle.turn_client_api.specs.Poll.{poll_step};
ghost use Rattle.turn_client_api.specs.Alarm.{AllHaveAllocation, FitsPhaseForPoll, IsTimely};

/// A caller that sleeps until the time that `poll` returns misses no deadline: if it is later than now,
/// then before it `poll_transmit` returns no packet and changes nothing, no transaction ends, no event,
/// offer or close is pending, and no grant expires.
/// If it is not later, an event is pending, a packet is due, or this call timed a transaction out. That
/// holds for a `poll` at up to 2^62 ns, whatever the times of earlier calls were (our choice: RFC 8489,
/// section 6.2, has timers).
pub fn no_deadline_is_missed()
    ensures { (now : ℕ) (s : State) → FitsPhaseForPoll s → AllHaveAllocation s → now ≤ 2 ^ 62 → IsTimely (poll_step now s).0 now s (poll_step now s).1 }
{}
