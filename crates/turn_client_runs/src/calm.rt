//! What data of peers makes due.

ghost use Rattle.std.specs.Prelude.{◌≡◌, None};
ghost use Rattle.turn_client_api.specs.Poll.{poll_step};
ghost use Rattle.turn_client_api.specs.State.{State};
ghost use Rattle.turn_client_api.specs.Transmit.{next_transmit};
ghost use Rattle.turn_client_api.specs.declared.poll.TurnPollRet.TheVariants.{WaitUntil};
ghost use Rattle.turn_client_runs.specs.Calm.{TrafficIsCalm};
ghost use Rattle.turn_client_runs.specs.CalmRows.{asking, with_traffic};
ghost use Rattle.turn_client_runs.specs.Holds.{HoldsOfRuns};

/// Whatever was called, once `poll` has returned a later time, nothing is due before it after any calls that send data to
/// peers, receive it, or look: no packet, no event, offer or close, no time-out and no expiry. A received packet counts if
/// it returned data or an ICMP report of a peer; over TCP nothing else may be processed with it. So a caller that only sends
/// and receives data need not call `poll` again before that time.
pub fn traffic_is_calm()
    ensures { HoldsOfRuns TrafficIsCalm }
{}

/// A request that waits for the pause after the one before waits as long after data was sent and received, so that the
/// check computes the definitions.
pub fn traffic_is_worked()
    ensures before { (s : State) → (poll_step 60_000_000 (asking s)).0 ≡ WaitUntil 100_000_000 }
    ensures after { (s : State) → (poll_step 60_000_000 (with_traffic s)).0 ≡ WaitUntil 100_000_000 }
    ensures silent { (s : State) → next_transmit 99_999_999 (with_traffic s) ≡ None }
{}
