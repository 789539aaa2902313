//! The client of a session makes a run of its own.

ghost use Rattle.turn_session_laws.specs.RunLaws.{SessionsAreRuns};

/// Whatever the caller of a session does, its client is as after some calls of `TurnClientApi`, so each theorem of `turn_client_proto`'s
/// `replay` holds of it. Where memory allocation fails in the client, that has ended besides. `abandon`, which ends the session, makes a
/// call of the client's that is no part of a run.
pub fn sessions_are_runs()
    ensures { SessionsAreRuns }
{}
