//! What a caller lets go is not refreshed, and otherwise as before.

ghost use Rattle.std.specs.Prelude.{◌≡◌, ◌∷◌, [], ℕ, Bool, true, false, map, None, Err, Result};
ghost use Rattle.std.specs.declared.net.ip_addr.IpAddr.{IpAddr};
ghost use Rattle.std.specs.declared.net.socket_addr.SocketAddr.{SocketAddr};
ghost use Rattle.turn_stun.specs.declared.transport.TransportType.{TransportType};
ghost use Rattle.turn_stun.specs.declared.transport.TransportType.TheVariants.{Udp, Tcp};
ghost use Rattle.turn_client_api.specs.State.{State};
ghost use Rattle.turn_client_api.specs.declared.grant.Grant.{Grant};
ghost use Rattle.turn_client_api.specs.declared.grant.Grant.TheVariants.{Channel, Permission};
ghost use Rattle.turn_client_api.specs.declared.grant.Progress.TheVariants.{Pending, Reserved};
ghost use Rattle.turn_client_api.specs.declared.grant.Purpose.TheVariants.{ForPermission};
ghost use Rattle.turn_client_api.specs.declared.error.KeepError.TheVariants.{NotGranted};
ghost use Rattle.turn_client_api.specs.declared.event.TurnEvent.TheVariants.{PermissionCreateFailed};
ghost use Rattle.turn_client_api.specs.declared.poll.TurnPollRet.TheVariants as Do;
ghost use Rattle.turn_client_api.specs.Calls.{channel_kept_step, create_permission_step, marked, permission_kept_step};
ghost use Rattle.turn_client_api.specs.Due.{is_kept, refresh_time};
ghost use Rattle.turn_client_api.specs.Effect.{granted_until, lasting, new_allocation, permission_answered};
ghost use Rattle.turn_client_api.specs.Poll.{poll_step};
ghost use Rattle.turn_client_api.specs.Transmit.{next_transmit, transmit_step};
ghost use Rattle.turn_client_laws.specs.LawsKept.{IsSameButKept, KeepsAll, with_permission_kept, without_channel_kept, without_permission_kept};
ghost use Rattle.turn_client_laws.specs.LawsRows.{asking_at_60_ms, granted_at, ip_of_peer, peer, relayed_v4, with_all, with_permission};

/// A permission or a channel that is not kept is not refreshed, and is otherwise as it was.
pub fn unkept_grants_are_not_refreshed()
    ensures never { (s : State) (g : Grant) → is_kept g ≡ false → refresh_time s g ≡ None }
    ensures same { (kept : Bool) (g : Grant) → IsSameButKept g (marked kept g) }
    // Kept again, all is as before.
    ensures permission { (transport : TransportType) (ip : IpAddr) (s : State) → KeepsAll s
        → (permission_kept_step transport ip true (permission_kept_step transport ip false s).1).1 ≡ s }
    ensures channel { (transport : TransportType) (to : SocketAddr) (s : State) → KeepsAll s
        → (channel_kept_step transport to true (channel_kept_step transport to false s).1).1 ≡ s }
    // A success does not change what is kept.
    ensures success { (expiry : ℕ) (g : Grant) → is_kept (lasting expiry g) ≡ is_kept g }
{}

/// What a caller lets go, in worked states.
pub fn grants_are_let_go()
    // A permission that was granted at 100 ms is not refreshed a minute before it expires: `poll` tells its expiry.
    ensures reported { (s : State) → (poll_step 100_000_000 (without_permission_kept (with_permission 50_000_000 s))).0 ≡ Do.WaitUntil 300_100_000_000 }
    ensures silent { (s : State) → next_transmit 240_100_000_000 (without_permission_kept (with_permission 50_000_000 s)) ≡ None }
    // It ends as any other.
    ensures ends { (s : State) → (poll_step 300_100_000_000 (without_permission_kept (with_permission 50_000_000 s))).1.events
        ≡ PermissionCreateFailed Udp ip_of_peer ∷ [] }
    // Kept again when its refresh is late, it is refreshed at once.
    ensures again { (s : State)
        → map (λ l. l.purpose) (transmit_step 250_000_000_000 (with_permission_kept (without_permission_kept (with_permission 50_000_000 s)))).1.listed
        ≡ ForPermission ip_of_peer ∷ [] }
    // One that is pending is granted, and not kept then.
    ensures pending { (s : State) → (permission_answered ip_of_peer true 100_000_000 (without_permission_kept (asking_at_60_ms s))).grants
        ≡ new_allocation 1800 50_000_000 relayed_v4 ∷ Permission ip_of_peer (granted_until 300_100_000_000 false) ∷ [] }
    // A channel alone: the permission of its peer is kept.
    ensures channel { (s : State) → (without_channel_kept (with_all 1800 s)).grants
        ≡ new_allocation 1800 50_000_000 relayed_v4
        ∷ Channel 0x4000 peer (granted_until 600_100_000_000 false)
        ∷ Permission ip_of_peer (granted_until 300_100_000_000 true)
        ∷ [] }
    // There is none, or it is reserved, or the allocations relay over another transport.
    ensures none { (s : State) → permission_kept_step Udp ip_of_peer false (granted_at 0 [] s) ≡ (Err NotGranted, granted_at 0 [] s) }
    ensures reserved { (s : State)
        → (channel_kept_step Udp peer false (granted_at 0 (Channel 0x4000 peer (Reserved 900_000_000_000) ∷ []) s)).0 ≡ Err NotGranted }
    ensures other { (s : State) → (permission_kept_step Tcp ip_of_peer false (with_permission 50_000_000 s)).0 ≡ Err NotGranted }
    // The next permission is kept.
    ensures anew { (s : State)
        → (create_permission_step Udp ip_of_peer 300_200_000_000
        (poll_step 300_100_000_000 (without_permission_kept (with_permission 50_000_000 s))).1).1.grants
        ≡ new_allocation 1800 50_000_000 relayed_v4 ∷ Permission ip_of_peer (Pending true) ∷ [] }
{}
