//! How often a request is tried.

ghost use Rattle.std.specs.Prelude.{◌≡◌, ℕ, List, None, Some};
ghost use Rattle.turn_agent.specs.Agent.{timed_out_transaction};
ghost use Rattle.turn_client_api.specs.State.{State, agent_of};
ghost use Rattle.turn_client_api.specs.Transmit.{next_transmit};
ghost use Rattle.turn_client_runs.specs.Holds.{HoldsOfRuns};
ghost use Rattle.turn_client_runs.specs.Tried.{RequestsAreTried, copy_of};
ghost use Rattle.turn_client_runs.specs.TriedRows.{asked_once, asked_seven_times, first_try, last_try};

/// A request times out only at a `poll` before which `poll_transmit` gave as many copies of it as the configuration
/// names, each once the wait that follows the one before was over, and after the last wait (RFC 8489, section
/// 6.2.1). While the wait of an outstanding request is over, each `poll_transmit` gives another copy of such a one;
/// while the last wait of one is over, each `poll` gives such a one up, once all events, replies and offers are taken.
pub fn requests_are_tried()
    ensures tried { HoldsOfRuns RequestsAreTried }
{}

/// A worked request, with the times of RFC 8489, so that the check computes them: it leaves again after 500 ms, not before,
/// and is not given up then. After its seventh copy at 31.5 s it is given up at 39.5 s, and not before.
pub fn tries_are_worked()
    ensures early { (text : List ℕ) (s : State) → next_transmit 499_999_999 (asked_once text s) ≡ None }
    ensures again { (text : List ℕ) (s : State) → next_transmit 500_000_000 (asked_once text s) ≡ Some (copy_of (asked_once text s) (first_try text s)) }
    ensures kept { (text : List ℕ) (s : State) → timed_out_transaction (agent_of (asked_once text s)) 500_000_000 ≡ None }
    ensures waits { (text : List ℕ) (s : State) → timed_out_transaction (agent_of (asked_seven_times text s)) 39_499_999_999 ≡ None }
    ensures over { (text : List ℕ) (s : State) → timed_out_transaction (agent_of (asked_seven_times text s)) 39_500_000_000 ≡ Some (last_try text s) }
{}
