//! A client whose server does not answer.

ghost use Rattle.turn_client_runs.specs.Silence.{GivesUpInSilence};

/// A new client whose server does not answer has ended once the waits after all sends of its first request
/// have passed (RFC 8489, section 6.2), over UDP and TCP and whatever its configuration: when it is polled
/// then, with nothing to send. Assumed of the caller: it takes each packet as soon as the client has one,
/// and makes no call that changes anything but `poll`, `poll_transmit` and `poll_event`. Of the network:
/// what is received changes nothing. Times are at most 2^62 ns.
pub fn silence_ends_a_client()
    ensures ends { GivesUpInSilence }
{}
