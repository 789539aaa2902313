//! A configuration with which a caller is not told to wait.

ghost use Rattle.turn_client_runs.specs.Busy.{IsBusyForEver};

/// With a cadence of 0 and times of retransmission that are all 0, a refresh that is due times out as soon as it was sent, and
/// is due again: a caller that sends what is due is never told to wait, and sends requests without end. Set one of them to
/// more than 0 (RFC 8489, section 6.2.1: the first wait is to be at least 500 ms).
pub fn without_waits_a_client_is_busy_for_ever()
    ensures busy { IsBusyForEver }
{}
