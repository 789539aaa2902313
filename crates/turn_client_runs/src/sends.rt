//! When a run sends data for a peer.

ghost use Rattle.std.specs.Prelude.{◌≡◌, true, [], Ok, Err};
ghost use Rattle.turn_stun.specs.declared.transport.TransportType.TheVariants.{Udp, Tcp};
ghost use Rattle.turn_client_api.specs.Calls.{can_send_to, send_to_step};
ghost use Rattle.turn_client_api.specs.State.{State, seconds};
ghost use Rattle.turn_client_api.specs.declared.error.SendError.TheVariants.{NoPermission, NoTcpSocket};
ghost use Rattle.turn_client_laws.specs.LawsReceived.{abc, over_tcp, with_channel};
ghost use Rattle.turn_client_laws.specs.LawsRows.{ip_of_peer, peer};
ghost use Rattle.turn_client_runs.specs.Holds.{HoldsOfRuns};
ghost use Rattle.turn_client_runs.specs.Sends.{SendsToReachable, TellsWhoIsReachable};
ghost use Rattle.turn_client_runs.specs.SendsRows.{abc_joined, abc_over, relaying_tcp, with_channel_in_expired, with_joined_peer};
ghost use Rattle.turn_client_runs.specs.SentRows.{abc_frame_sent};

/// Whatever is called, `send_to` gives a packet with the data for the peer (`packets_go_out` says which) while an
/// allocation relays over the transport to the peer's IP address, is not marked as expired, and the IP address has an
/// active permission; over TCP a data connection to the peer is bound, too. Otherwise it refuses, with `NoTcpSocket`
/// if only that connection is missing. It changes no more than which transaction ID is next. `have_permission` is true
/// of exactly these IP addresses (RFC 8656, sections 9 and 11.1; RFC 6062, section 4.3).
pub fn reachable_peers_are_sent_to()
    ensures sends { HoldsOfRuns SendsToReachable }
    ensures tells { HoldsOfRuns TellsWhoIsReachable }
{}

/// What `send_to` gives for a peer, so that the check computes the definitions: its channel carries the data, or its
/// data connection. Without the permission, the connection or an allocation that is in use the data is refused.
pub fn refusals_are_worked()
    ensures told { (s : State) → can_send_to Udp ip_of_peer (with_channel s) ≡ true }
    ensures channel { (s : State) → send_to_step Udp peer abc (seconds 1) (with_channel s) ≡ (Ok abc_frame_sent, with_channel s) }
    ensures connection { (s : State) → abc_over Tcp (with_joined_peer s) ≡ Ok abc_joined }
    ensures unpermitted { (s : State) → abc_over Udp (over_tcp [] [] s) ≡ Err NoPermission }
    ensures unjoined { (s : State) → abc_over Tcp (relaying_tcp [] s) ≡ Err NoTcpSocket }
    ensures expired { (s : State) → abc_over Udp (with_channel_in_expired s) ≡ Err NoPermission }
    ensures relayed { (s : State) → abc_over Udp (with_joined_peer s) ≡ Err NoPermission }
{}
