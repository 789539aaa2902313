//! A client whose server answers its first requests.

ghost use Rattle.turn_client_runs.specs.Handshake.{HandshakeEndsSteadily, HandshakeSucceeds};
ghost use Rattle.turn_client_runs.specs.HandshakeRows.{HandshakeIsWorked, PausedHandshakeIsWorked};

/// A new client over UDP has an allocation at any time that is later than twice the delay within which its
/// server answers (RFC 8489, section 9.2; RFC 8656, section 7). Assumed of the server: it answers the first
/// request with a challenge that can be answered, and the second with a signed success that has a lifetime
/// and an address of a requested family, each within the delay, which is less than the wait before a
/// retransmission. By default the second delay counts from when the challenge came, and so includes what is
/// left of the pause after the first request. If requests are timed from their first copies
/// (`set_requests_timed_from_send`), it counts from when the second request was given out: then, if the pause is
/// longer than the delay, the client has an allocation at any time that is later than the pause and the delay.
/// Of the caller: it takes each packet as soon as the client has one, and allows one challenge. What strangers
/// send may come in between, as long as it changes nothing. Just after the success, if the lifetime is 600 s or
/// more, the client is in a state from which no grant is lost (`grants_last_while_the_server_answers`).
pub fn handshakes_succeed()
    ensures succeeds { HandshakeSucceeds }
    ensures steady { HandshakeEndsSteadily }
{}

/// A handshake that keeps all premises of `handshakes_succeed`, of any client over UDP that requests an address over IPv4, with the
/// default times: the challenge comes 100 ms after the first request, and the success 100 ms after the second. The client
/// then has its allocation, and is in a state from which no grant is lost. So these premises can be met. With requests that are
/// timed from their first copies, and a delay of 20 ms, the second request is sent at the end of the pause of 50 ms, and the
/// client has no allocation before its success comes at 70 ms, though that is later than twice the delay.
pub fn a_handshake_succeeds()
    ensures worked { HandshakeIsWorked }
    ensures paused { PausedHandshakeIsWorked }
{}
