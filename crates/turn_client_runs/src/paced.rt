//! Requests that are timed from when they are sent.

ghost use Rattle.turn_client_runs.specs.Drains.{QueuesDrain};
ghost use Rattle.turn_client_runs.specs.Holds.{HoldsOfRuns};
ghost use Rattle.turn_client_api.specs.State.{State};
ghost use Rattle.turn_client_runs.specs.Paced.{RequestsAreNamed, RequestsArePaced};
ghost use Rattle.turn_client_runs.specs.PacedRows.{LeavesInTurn};

/// If a client's requests are timed from their first copies, no first copy leaves within the pause after another
/// packet, nor as a retransmission, and no request times out before its first copy has left (RFC 8489, section
/// 6.2.1; `set_requests_timed_from_send`). What leaves within the pause is a retransmission of an outstanding request, of
/// which a copy left before, or a reply to a request of the server, which begins no pause either. A first copy of a queued
/// request leaves only while that awaits its response, and something is left that it was made for. Times are at
/// most 2^62 ns, and where a call is made at an earlier time than the packet before, that pause does not count.
pub fn first_copies_are_paced()
    ensures paced { HoldsOfRuns RequestsArePaced }
{}

/// Two requests of such a client that are queued at one time, so that the check computes the definitions: each leaves
/// 50 ms after the packet before it, and not a nanosecond earlier; and one that awaits no response does not leave.
pub fn first_copies_are_worked()
    ensures worked { (s : State) → LeavesInTurn s }
{}

/// The bytes of each request that a client makes hold its transaction ID in their header (RFC 8489, section 5), if that
/// is less than 2^96, as all are that a message can carry. By it a client knows a queued request again: so its waits
/// begin as it is given out, and it is dropped once it has ended.
pub fn requests_name_themselves()
    ensures named { RequestsAreNamed }
{}

/// While a packet is queued that is still to be sent, a caller that is on time is given a packet at the end of each pause
/// at the latest: so many calls take no longer than a pause for each packet that they give. So a queued request leaves
/// after one pause for each packet that leaves before it: those that were queued before, and retransmissions; and
/// refreshes, if requests are timed from their first copies.
pub fn queues_drain()
    ensures drains { QueuesDrain }
{}
