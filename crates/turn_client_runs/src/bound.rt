//! What a run bound.

ghost use Rattle.turn_client_runs.specs.Bound.{BoundConnectionsHaveSuccess, BoundStreamsHaveSuccess, StreamsAreBoundBefore};
ghost use Rattle.turn_client_runs.specs.Holds.{HoldsOfRuns};

/// Each stream that is bound after a run was bound by an input of the run: a whole message on the
/// connection itself, which waited to be bound. The message is a success that is signed with the client's
/// credentials under the realm held then, and answers the outstanding CONNECTION_BIND that was made for the
/// connection (RFC 6062, section 4.3), for the peer for which the caller opened it. That request is no longer
/// outstanding after the input. The same holds for
/// each stream that is bound when an input is processed: an earlier input bound it.
pub fn bound_streams_have_their_success()
    ensures after { HoldsOfRuns BoundStreamsHaveSuccess }
    ensures before { HoldsOfRuns StreamsAreBoundBefore }
{}

/// Each data connection that is bound after a run, among what the server granted, was bound to its peer by such
/// an input of the run (RFC 6062, section 4.3).
pub fn bound_connections_have_their_success()
    ensures { HoldsOfRuns BoundConnectionsHaveSuccess }
{}
