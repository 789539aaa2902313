//! Worked runs of refusals, and of an allocation that expires.

ghost use Rattle.turn_session_client.specs.ExpiryRows.{ExpiriesAreReported};
ghost use Rattle.turn_session_client.specs.Rows.{RefusalsAreReported};

/// The server refuses a permission that was requested, by an error that was received: that is the outcome of the request, once, and
/// the key rests for 5 s. If it was granted first, the grant is lost, and the key does not rest. If the client has ignored the error,
/// since nobody signed it, the request times out, and its outcome has that error.
pub fn refusals_are_reported()
    ensures { RefusalsAreReported }
{}

/// Of two allocations one expires, and the client reports nothing of it: what was kept in it is lost, and what was requested in it has
/// timed out.
pub fn expiries_are_reported()
    ensures { ExpiriesAreReported }
{}
