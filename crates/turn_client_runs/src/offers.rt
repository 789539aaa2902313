//! How the connections came about that a run bound.

ghost use Rattle.turn_client_runs.specs.Holds.{HoldsOfRuns};
ghost use Rattle.turn_client_runs.specs.Offers.{BoundAreOffered};
ghost use Rattle.turn_client_runs.specs.Promises.{AfterEach};

/// Each data connection and each stream that is bound after any calls of a run was opened for an offer: by an
/// `allocated_tcp_socket` that was accepted, in a call before the one whose input bound it. The CONNECTION_BIND
/// that was answered has the ID of that offer, and the offer had the peer of the connection. The call took the
/// first offer with this ID and this peer, of which there may be several, and no other.
///
/// The offer had been made before, in the run, and stood since: by the signed success to a CONNECT to this peer,
/// which an accepted `tcp_connect` had asked for (RFC 6062, section 4.3), or by a ConnectionAttempt of the server
/// for this peer (RFC 6062, section 4.4), an indication while the peer's IP address had a permission, or a signed
/// request. The success, or the attempt, has the ID of the offer as its CONNECTION-ID.
pub fn bound_connections_have_their_offers()
    ensures { HoldsOfRuns (AfterEach BoundAreOffered) }
{}
