//! Worked states.

ghost use Rattle.std.specs.Prelude.{◌≡◌, ◌∷◌, true, map, ℕ, List, [], Some, None, IsSome, ◌-◌, ◌+◌, ◌/◌, ◌≤◌, ◌^◌, nat_le, if◌then◌else◌};
ghost use Rattle.std.specs.declared.net.socket_addr.SocketAddr.{SocketAddr};
ghost use Rattle.turn_stun.specs.declared.transport.TransportType.TheVariants.{Udp, Tcp};
ghost use Rattle.turn_types.specs.declared.family.AddressFamily.TheVariants.{IPV4, IPV6};
ghost use Rattle.turn_auth.specs.LongTerm.{Challenge};
ghost use Rattle.turn_agent.specs.TransactionIds.{behind_id};
ghost use Rattle.turn_client_api.specs.State.{State, later_by, seconds};
ghost use Rattle.turn_client_api.specs.Config.{default_refresh_ahead};
ghost use Rattle.turn_client_api.specs.Due.{refresh_time_by_kind, refresh_time_of};
ghost use Rattle.turn_client_api.specs.Effect.{min_lifetime};
ghost use Rattle.turn_client_api.specs.declared.grant.Relay.{Relay};
ghost use Rattle.std.specs.declared.net.ip_addr.IpAddr.{IpAddr};
ghost use Rattle.turn_client_api.specs.declared.grant.Grant.TheVariants.{Channel, Permission};
ghost use Rattle.turn_client_api.specs.declared.grant.Purpose.TheVariants.{ForPermission, ForRefresh};
ghost use Rattle.turn_client_api.specs.declared.grant.Progress.TheVariants.{Pending};
ghost use Rattle.turn_client_api.specs.Effect.{granted_until};
ghost use Rattle.turn_client_api.specs.Calls.{free_number, relayed_addresses_of};
ghost use Rattle.turn_client_api.specs.Poll.{poll_step};
ghost use Rattle.turn_client_api.specs.Requests.{fresh_id, to_server};
ghost use Rattle.turn_client_api.specs.Transmit.{next_transmit, transmit_step};
ghost use Rattle.turn_client_laws.specs.LawsRows.{refreshing_ahead, with_all};
ghost use Rattle.turn_client_laws.specs.LawsRows.{IsFirstAllocate, WaitsInSilence, WhenGivenUp, asking_at_60_ms, challenged_once, deleted_in_silence};
ghost use Rattle.turn_client_laws.specs.LawsRows.{giving_back, granted_at, indication_bytes, ip_of_peer, keeping_alive, kept_alive, pausing, peer};
ghost use Rattle.turn_client_laws.specs.LawsRows.{short_timers, with_both_families, with_permission};
ghost use Rattle.turn_client_api.specs.declared.event.TurnEvent.TheVariants.{ChannelCreateFailed, PermissionCreateFailed};
ghost use Rattle.turn_client_api.specs.declared.poll.TurnPollRet.TheVariants as Do;

/// The bytes of the first ALLOCATE that requests a relay over UDP (RFC 8656, sections 7.1 and 18): for IPv4
/// no family is named, for both the additional one is, and for IPv6 alone the requested one.
pub fn first_allocate_is_spelled()
    ensures ipv4 { IsFirstAllocate (IPV4 ∷ []) 0x14 [] }
    ensures both { IsFirstAllocate (IPV4 ∷ IPV6 ∷ []) 0x1c (0x80 ∷ 0x00 ∷ 0x00 ∷ 0x04 ∷ 0x02 ∷ 0x00 ∷ 0x00 ∷ 0x00 ∷ []) }
    ensures ipv6 { IsFirstAllocate (IPV6 ∷ []) 0x1c (0x00 ∷ 0x17 ∷ 0x00 ∷ 0x04 ∷ 0x02 ∷ 0x00 ∷ 0x00 ∷ 0x00 ∷ []) }
{}

/// Channel numbers are assigned from 0x4000 on (RFC 8656, section 12), each also while the one before is
/// only pending.
pub fn channel_numbers_count_up()
    ensures first { (s : State) → free_number (granted_at 0 [] s) ≡ Some 0x4000 }
    ensures second { (s : State) → free_number (granted_at 0 (Channel 0x4000 peer (Pending true) ∷ []) s) ≡ Some 0x4001 }
{}

/// The time at which a caller is to call `poll` again.
pub fn wakeups_are_reported()
    // A challenge that is answered at 10 ms, after a first ALLOCATE at 0: the end of the pause.
    ensures retry { (text : List ℕ) (challenge : Challenge) (s : State)
        → (poll_step 10_000_000 (challenged_once text challenge s)).0 ≡ Do.WaitUntil 50_000_000 }
    // Two allocations of 1000 s that were granted at 50 ms: a minute before they expire.
    ensures allocations { (s : State) → (poll_step 50_000_000 (with_both_families s)).0 ≡ Do.WaitUntil 940_050_000_000 }
    // A permission that was granted at 100 ms: a minute before it expires.
    ensures permission { (s : State) → (poll_step 100_000_000 (with_permission 50_000_000 s)).0 ≡ Do.WaitUntil 240_100_000_000 }
    // A permission that expires at 300.1 s, before the pause ends at 300.12 s: its expiry.
    ensures expiry { (s : State) → (poll_step 300_080_000_000 (with_permission 300_070_000_000 s)).0 ≡ Do.WaitUntil 300_100_000_000 }
    // A permission that is requested at 60 ms, 10 ms after the last request: the end of the pause.
    ensures queued { (s : State) → (poll_step 60_000_000 (asking_at_60_ms s)).0 ≡ Do.WaitUntil 100_000_000 }
    ensures paused { (s : State) → next_transmit 99_999_999 (asking_at_60_ms s) ≡ None }
    // The same with a pause of 300 ms, of 1 ms, which has ended, and of none.
    ensures longer { (s : State) → (poll_step 60_000_000 (pausing 300_000_000 (asking_at_60_ms s))).0 ≡ Do.WaitUntil 350_000_000 }
    ensures silent { (s : State) → next_transmit 349_999_999 (pausing 300_000_000 (asking_at_60_ms s)) ≡ None }
    ensures shorter { (s : State) → IsSome (next_transmit 60_000_000 (pausing 1_000_000 (asking_at_60_ms s))) }
    ensures at_once { (s : State) → IsSome (next_transmit 50_000_000 (pausing 0 (asking_at_60_ms s))) }
{}

/// A client keeps its path to the server alive by Binding indications (RFC 8489, section 5).
pub fn paths_are_kept_alive()
    // `poll` tells when: 15 s after the last packet. None is sent before.
    ensures reported { (s : State) → (poll_step 100_000_000 (kept_alive s)).0 ≡ Do.WaitUntil 15_100_000_000 }
    ensures early { (s : State) → next_transmit 15_099_999_999 (kept_alive s) ≡ None }
    // It goes to the server under the next ID, which is used then. Nothing is requested.
    ensures bytes { (s : State) → next_transmit 15_100_000_000 (kept_alive s)
        ≡ Some (to_server (kept_alive s) s.local (indication_bytes (fresh_id (kept_alive s)))) }
    ensures after { (s : State) → (transmit_step 15_100_000_000 (kept_alive s)).1
        ≡ record (kept_alive s) { ids = behind_id s.ids; last_send = Some 15_100_000_000 } }
    // The next one is due after as long again, and within the pause none is sent.
    ensures next { (s : State) → (poll_step 15_100_000_000 (transmit_step 15_100_000_000 (kept_alive s)).1).0 ≡ Do.WaitUntil 30_100_000_000 }
    ensures paused { (s : State) → next_transmit 15_100_000_000 (pausing 20_000_000_000 (kept_alive s)) ≡ None }
    // A refresh that is due goes first: of the permission, a minute before it expires.
    ensures refresh { (s : State) → map (λ l. l.purpose) (transmit_step 240_100_000_000 (kept_alive s)).1.listed ≡ ForPermission ip_of_peer ∷ [] }
    // Without an allocation there is none, nor if it is not configured.
    ensures unallocated { (s : State) → next_transmit 15_100_000_000 (keeping_alive 15_000_000_000 (granted_at 100_000_000 [] s)) ≡ None }
    ensures default { (s : State) → next_transmit 200_000_000_000 (with_permission 100_000_000 s) ≡ None }
{}

/// A grant is refreshed so long before its expiry as was configured, but not before half of its lifetime is
/// over (our choice; RFC 8656, section 8, suggests about a minute).
pub fn refreshes_are_ahead()
    // By default by a minute, or half of the first lifetime of an allocation of at most two minutes.
    ensures default { (a : Relay) → refresh_time_of default_refresh_ahead a
        ≡ (if nat_le a.first_lifetime (seconds 120) then a.expiry - a.first_lifetime / 2 else a.expiry - seconds 60) }
    ensures default_permission { (ip : IpAddr) (expiry : ℕ) → refresh_time_by_kind default_refresh_ahead (Permission ip (granted_until expiry true))
        ≡ Some (expiry - seconds 60) }
    ensures default_channel { (number expiry : ℕ)
        → refresh_time_by_kind default_refresh_ahead (Channel number peer (granted_until expiry true)) ≡ Some (expiry - seconds 60) }
    // Two minutes ahead: `poll` tells the time of the permission, the first to expire, and it is refreshed then.
    ensures reported { (s : State) → (poll_step 100_000_000 (refreshing_ahead (seconds 120) (with_all 1800 s))).0 ≡ Do.WaitUntil 180_100_000_000 }
    ensures early { (s : State) → next_transmit 180_099_999_999 (refreshing_ahead (seconds 120) (with_all 1800 s)) ≡ None }
    ensures refresh { (s : State) → map (λ l. l.purpose) (transmit_step 180_100_000_000 (refreshing_ahead (seconds 120) (with_all 1800 s))).1.listed
        ≡ ForPermission ip_of_peer ∷ [] }
    // An allocation of 200 s goes before it, at half of its lifetime.
    ensures short { (s : State) → (poll_step 100_000_000 (refreshing_ahead (seconds 120) (with_all 200 s))).0 ≡ Do.WaitUntil 100_050_000_000 }
    // 400 s ahead is too much for each: half of the lifetime.
    ensures permission { (ip : IpAddr) → refresh_time_by_kind (seconds 400) (Permission ip (granted_until (seconds 1000) true)) ≡ Some (seconds 850) }
    ensures channel { (number : ℕ) → refresh_time_by_kind (seconds 400) (Channel number peer (granted_until (seconds 1000) true)) ≡ Some (seconds 700) }
    ensures allocation { (s : State) → (poll_step 50_000_000 (refreshing_ahead (seconds 400) (with_both_families s))).0 ≡ Do.WaitUntil 700_050_000_000 }
    // However long ahead, a refresh that is granted for the default of 600 s or more is not due again for 300 s.
    ensures granted { (ahead now lifetime : ℕ) (a : Relay) → now ≤ 2 ^ 62 → min_lifetime ≤ lifetime
        → now + seconds 300 ≤ refresh_time_of ahead (record a { expiry = later_by (seconds lifetime) now }) }
{}

/// A first ALLOCATE that was sent at time 0 and gets no response (RFC 8489, sections 6.2.1 and 6.2.2): the
/// times that `poll` returns to a caller that calls it at each of them, and sends what is due.
pub fn silence_is_timed()
    // By default it is sent at 0, 0.5, 1.5, 3.5, 7.5, 15.5 and 31.5 s, and times out at 39.5 s.
    ensures default { WaitsInSilence None Udp (500 ∷ 1_500 ∷ 3_500 ∷ 7_500 ∷ 15_500 ∷ 31_500 ∷ 39_500 ∷ []) }
    // With 600 ms after the first send, at most 1 s after others, three sends, and 3 s after the last.
    ensures set { WaitsInSilence (Some short_timers) Udp (600 ∷ 1_600 ∷ 4_600 ∷ []) }
    // Over TCP it is sent once.
    ensures tcp { WaitsInSilence None Tcp (39_500 ∷ []) }
    ensures tcp_set { WaitsInSilence (Some short_timers) Tcp (4_600 ∷ []) }
{}

/// `delete` with two allocations (RFC 8656, section 8.1): one REFRESH deletes both, and neither is used
/// from then on. Without a response, the client waits for 39.5 s from the first send, and then has ended.
pub fn delete_is_one_request()
    ensures one { (s : State) → map (λ q. q.is_request) (giving_back s).queue ≡ true ∷ [] }
    ensures purposes { (s : State) → map (λ l. l.purpose) (giving_back s).listed ≡ ForRefresh IPV4 0 ∷ ForRefresh IPV6 0 ∷ [] }
    ensures unused { (s : State) → relayed_addresses_of (giving_back s) ≡ [] }
    ensures waits { (to : SocketAddr) (text : List ℕ) (s : State) → (poll_step 33_000_000_000 (deleted_in_silence to text s)).0 ≡ Do.WaitUntil 40_500_000_000 }
    ensures ends { (to : SocketAddr) (text : List ℕ) (s : State) → (poll_step 40_500_000_000 (deleted_in_silence to text s)).0 ≡ Do.Closed }
    ensures empty { (to : SocketAddr) (text : List ℕ) (s : State) → (poll_step 40_500_000_000 (deleted_in_silence to text s)).1.grants ≡ [] }
{}

/// Of failures that the client detects by itself the later one goes first (our choice): of a channel and
/// the permission requested with it, whose request got no response, the failure of the permission is first,
/// and the time that `poll` returns is not in the future, since both are pending.
pub fn failures_jump()
    ensures events { WhenGivenUp (λ r. r.1.events ≡ PermissionCreateFailed Udp ip_of_peer ∷ ChannelCreateFailed Udp peer ∷ []) }
    ensures now { WhenGivenUp (λ r. r.0 ≡ Do.WaitUntil 40_500_000_000) }
{}
