//! No cause is reported twice.

ghost use Rattle.std.specs.Prelude.{◌≡◌, ◌∷◌, [], ℕ, List};
ghost use Rattle.std.specs.declared.net.socket_addr.SocketAddr.{SocketAddr};
ghost use Rattle.turn_stun.specs.declared.transport.TransportType.{TransportType};
ghost use Rattle.turn_stun.specs.declared.transport.TransportType.TheVariants.{Udp};
ghost use Rattle.turn_types.specs.declared.family.AddressFamily.TheVariants.{IPV4};
ghost use Rattle.turn_client_api.specs.Config.{Config};
ghost use Rattle.turn_client_api.specs.State.{State, initial};
ghost use Rattle.turn_client_api.specs.Steps.{state_after_all};
ghost use Rattle.turn_client_api.specs.declared.event.TurnEvent.TheVariants.{AllocationCreateFailed, PermissionCreateFailed};
ghost use Rattle.turn_client_api.specs.declared.event.TurnEvent.TheVariants.{TcpConnected, TcpConnectFailed};
ghost use Rattle.turn_client_laws.specs.LawsRows.{ip_of_peer, peer};
ghost use Rattle.turn_client_runs.specs.Holds.{HoldsOfRuns};
ghost use Rattle.turn_client_runs.specs.Reported.{CausesAreReportedOnce, caused_by, due_of, in_calls, reported_by};
ghost use Rattle.turn_client_runs.specs.ReportedRows.{attempted_twice, awaiting_peer, ended_twice, joined_peer, joining, lost_and_requested, never_bound, permitting_peer};

/// In each part of a run of a new client no cause is reported twice, if no memory allocation fails (RFC 8656,
/// sections 7, 9 and 12; RFC 6062, sections 4.3 and 4.4). Of each requested address family at most one event
/// tells that it was allocated or that it failed. Of each permission and each channel at most one event tells
/// that it was created, and at most one that it failed, for each request of the caller that found no such grant:
/// so it was lost, whatever the cause, between two events that tell that it was created. Of the data connections
/// to a peer at most one event, either that one is bound or that it failed, answers each `tcp_connect` of the
/// caller that found none, and each attempt of the server that the client accepted.
pub fn causes_are_reported_once()
    ensures { HoldsOfRuns CausesAreReportedOnce }
{}

/// Worked runs in which events are reported, and counted.
pub fn events_are_counted()
    // A new client is ended twice: that its address family failed is reported once.
    ensures ended { (transport : TransportType) (local remote : SocketAddr) (config : Config) (seed : List ℕ) → config.address_families ≡ IPV4 ∷ []
        → in_calls (reported_by (AllocationCreateFailed IPV4)) (initial transport local remote config seed) ended_twice ≡ 1 }
    // The failure of a permission that is granted is reported once; the caller requests it once more, so it may be reported once more.
    ensures before { (s : State) → due_of (PermissionCreateFailed Udp ip_of_peer) (permitting_peer s) ≡ 1 }
    ensures reported { (s : State) → in_calls (reported_by (PermissionCreateFailed Udp ip_of_peer)) (permitting_peer s) lost_and_requested ≡ 1 }
    ensures requested { (s : State) → in_calls (caused_by (PermissionCreateFailed Udp ip_of_peer)) (permitting_peer s) lost_and_requested ≡ 1 }
    ensures after { (s : State)
        → due_of (PermissionCreateFailed Udp ip_of_peer) (state_after_all (permitting_peer s) lost_and_requested) ≡ 1 }
    // That a data connection is not bound in time is reported once; of a bound one nothing is reported.
    ensures joining { (s : State) → due_of (TcpConnectFailed peer) (joining s) ≡ 1 }
    ensures failed { (s : State) → in_calls (reported_by (TcpConnectFailed peer)) (joining s) never_bound ≡ 1 }
    ensures over { (s : State) → due_of (TcpConnectFailed peer) (state_after_all (joining s) never_bound) ≡ 0 }
    ensures joined { (s : State) → due_of (TcpConnected peer) (joined_peer s) ≡ 0 }
    // The server tells of an attempt twice: it is accepted once, so one event may come of it.
    ensures attempt { (s : State) → in_calls (caused_by (TcpConnected peer)) (awaiting_peer s) attempted_twice ≡ 1 }
    ensures offered { (s : State) → due_of (TcpConnected peer) (state_after_all (awaiting_peer s) attempted_twice) ≡ 1 }
{}
