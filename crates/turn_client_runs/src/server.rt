//! A server that grants what is requested.

ghost use Rattle.turn_client_runs.specs.Server.{RequestsCanBeGranted};

/// Whatever a client with a challenge requests over UDP, a server that knows the password can grant it so that no grant
/// is lost: its signed success, with a lifetime of 600 s, is what `grants_last_while_the_server_answers` assumes of
/// each reply (RFC 8489, section 9.2.4).
pub fn requests_can_be_granted()
    ensures granted { RequestsCanBeGranted }
{}
