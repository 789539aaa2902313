//! Worked messages of the server.

ghost use Rattle.std.specs.Prelude.{true, ◌≡◌, ◌∷◌, List, [], ℕ, map, Some};
ghost use Rattle.std.specs.declared.net.socket_addr.SocketAddr.{SocketAddr};
ghost use Rattle.turn_stun.specs.declared.transport.TransportType.TheVariants.{Udp};
ghost use Rattle.turn_types.specs.declared.family.AddressFamily.TheVariants.{IPV4, IPV6};
ghost use Rattle.turn_client_api.specs.State.{State};
ghost use Rattle.turn_client_api.specs.declared.state.Phase.TheVariants.{Authenticating, Allocated, Closed};
ghost use Rattle.turn_client_api.specs.declared.grant.Origin.TheVariants.{OwnConnect};
ghost use Rattle.turn_client_api.specs.declared.event.TurnEvent.TheVariants.{AllocationCreated, AllocationCreateFailed, ChannelCreated, ChannelCreateFailed};
ghost use Rattle.turn_client_api.specs.declared.event.TurnEvent.TheVariants.{PermissionCreated, PermissionCreateFailed, TcpConnectFailed};
ghost use Rattle.turn_client_api.specs.Payloads.{Handled};
ghost use Rattle.turn_client_laws.specs.LawsRows.{peer, ip_of_peer, relayed_v4, relayed_v6};
ghost use Rattle.turn_client_laws.specs.LawsMessages.{IgnoresCopy, IgnoresUnsigned, Ignores, WhenSigned, after_message, allocating, allocation_of_v4};
ghost use Rattle.turn_client_laws.specs.LawsMessages.{allowing, asking_channel, asking_connection};
ghost use Rattle.turn_client_laws.specs.LawsMessages.{asking_first, asking_permission, bad_request_reply, both_allocated};
ghost use Rattle.turn_client_laws.specs.LawsMessages.{challenged, channel_bound, channel_not_bound};
ghost use Rattle.turn_client_laws.specs.LawsMessages.{connected, granted_channel, granted_permission, granted_v4, granted_v6, held_by_it, lasting_600_s};
ghost use Rattle.turn_client_laws.specs.LawsMessages.{lifetime_behind, mismatched, not_connected, offer_of, one_allocated, one_family_alone};
ghost use Rattle.turn_client_laws.specs.LawsMessages.{permission_for_300_s, permitted, refreshed_for, refreshing, stale, unauthorized};

/// The effects of replies to a signed ALLOCATE for both families (RFC 8656, sections 7.3 and 7.4).
pub fn allocations_are_answered()
    // The addresses in the order in which they are written, each for 1000 s from the time of the reply.
    ensures created { WhenSigned both_allocated allocating (λ r. r.1.events ≡ AllocationCreated Udp relayed_v6 ∷ AllocationCreated Udp relayed_v4 ∷ []) }
    ensures grants { WhenSigned both_allocated allocating (λ r. r.1.grants ≡ granted_v6 ∷ granted_v4 ∷ []) }
    ensures phase { WhenSigned both_allocated allocating (λ r. r.1.phase ≡ Allocated) }
    // Attributes after the integrity are ignored: neither an address nor a lifetime counts.
    ensures one { WhenSigned one_allocated allocating (λ r. r.1.events ≡ AllocationCreated Udp relayed_v4 ∷ AllocationCreateFailed IPV6 ∷ []) }
    ensures none { WhenSigned lifetime_behind allocating (λ r. r.1.events ≡ AllocationCreateFailed IPV4 ∷ AllocationCreateFailed IPV6 ∷ []) }
    ensures closed { WhenSigned lifetime_behind allocating (λ r. r.1.phase ≡ Closed) }
    // With 440 the client stops requesting IPv4, and makes one more request.
    ensures denied { WhenSigned one_family_alone allocating (λ r. r.1.events ≡ AllocationCreateFailed IPV4 ∷ []) }
    ensures families { WhenSigned one_family_alone allocating (λ r. r.1.families ≡ IPV6 ∷ []) }
    ensures queued { WhenSigned one_family_alone allocating (λ r. map (λ q. q.is_request) r.1.queue ≡ true ∷ []) }
    // An unsigned reply changes nothing.
    ensures unsigned { IgnoresUnsigned both_allocated allocating }
{}

/// The effects of replies to CREATE_PERMISSION and CHANNEL_BIND (RFC 8656, sections 10.3 and 12.3), whose
/// grants last for 300 and 600 s from the time of the reply.
pub fn grants_are_answered()
    ensures permitted { WhenSigned permitted asking_permission (λ r. r.1.grants ≡ allocation_of_v4 ∷ granted_permission ∷ []) }
    ensures permission_reported { WhenSigned permitted asking_permission (λ r. r.1.events ≡ PermissionCreated Udp ip_of_peer ∷ []) }
    ensures unsigned { IgnoresUnsigned permitted asking_permission }
    // A second copy changes nothing.
    ensures copy { IgnoresCopy permitted asking_permission }
    // The permission of a channel is granted before it.
    ensures bound { WhenSigned channel_bound asking_channel (λ r. r.1.grants ≡ allocation_of_v4 ∷ granted_permission ∷ granted_channel ∷ []) }
    ensures channel_reported { WhenSigned channel_bound asking_channel (λ r. r.1.events ≡ PermissionCreated Udp ip_of_peer ∷ ChannelCreated Udp peer ∷ []) }
    // A refusal removes the permission that was requested with the channel.
    ensures refused { WhenSigned channel_not_bound asking_channel (λ r. r.1.grants ≡ allocation_of_v4 ∷ []) }
    ensures refusals { WhenSigned channel_not_bound asking_channel
        (λ r. r.1.events ≡ ChannelCreateFailed Udp peer ∷ PermissionCreateFailed Udp ip_of_peer ∷ []) }
{}

/// The effects of replies to REFRESH (RFC 8656, section 8.3).
pub fn refreshes_are_answered()
    // A lifetime of at least 600 s counts from the time of the reply, and one of 599 s does not.
    ensures longer { WhenSigned (refreshed_for 0x02 0x58) (refreshing 1800) (λ r. r.1.grants ≡ lasting_600_s ∷ []) }
    ensures shorter { WhenSigned (refreshed_for 0x02 0x57) (refreshing 1800) (λ r. (r.0 ≡ Handled) × (r.1.grants ≡ allocation_of_v4 ∷ [])) }
    // What was to be deleted is removed, also if the server does not know it.
    ensures deleted { WhenSigned (refreshed_for 0x00 0x00) (refreshing 0) (λ r. (r.1.phase ≡ Closed) × (r.1.grants ≡ [])) }
    ensures mismatch { WhenSigned mismatched (refreshing 0) (λ r. (r.1.phase ≡ Closed) × (r.1.grants ≡ [])) }
    ensures kept { WhenSigned mismatched (refreshing 1800) (λ r. (r.0 ≡ Handled) × (r.1.grants ≡ allocation_of_v4 ∷ [])) }
{}

/// The effects of replies to CONNECT (RFC 6062, section 4.3).
pub fn connects_are_answered()
    // The caller is to open the connection that the server reports.
    ensures offered { WhenSigned connected asking_connection (λ r. r.1.grants ≡ allocation_of_v4 ∷ permission_for_300_s ∷ offer_of OwnConnect ∷ []) }
    // A refusal counts, whatever else it contains.
    ensures refused { WhenSigned not_connected asking_connection (λ r. r.1.grants ≡ allocation_of_v4 ∷ permission_for_300_s ∷ []) }
    ensures reported { WhenSigned not_connected asking_connection (λ r. r.1.events ≡ TcpConnectFailed peer ∷ []) }
{}

/// The effects of challenges (RFC 8489, sections 9.2.3 to 9.2.5).
pub fn challenges_are_answered()
    // The first one sets realm, nonce and algorithm, and the request is made again.
    ensures handled { (text : List ℕ) (s : State) → (after_message unauthorized (asking_first text s)).0 ≡ Handled }
    ensures phase { (text : List ℕ) (s : State) → (after_message unauthorized (asking_first text s)).1.phase ≡ Authenticating }
    ensures held { (text : List ℕ) (s : State) → (after_message unauthorized (asking_first text s)).1.held ≡ Some held_by_it }
    ensures queued { (text : List ℕ) (s : State) → map (λ q. q.is_request) (after_message unauthorized (asking_first text s)).1.queue ≡ true ∷ [] }
    // It changes nothing if its request is not outstanding, and any other reply before it ends the client.
    ensures unasked { (text : List ℕ) (s : State) → Ignores unauthorized (record (asking_first text s) { transactions = [] }) }
    ensures refused { (text : List ℕ) (s : State) → (after_message bad_request_reply (asking_first text s)).1.phase ≡ Closed }
    ensures reported { (text : List ℕ) (s : State) → (after_message bad_request_reply (asking_first text s)).1.events ≡ AllocationCreateFailed IPV4 ∷ [] }
    // By default nine in sequence are answered, and the tenth ends the client.
    ensures ninth { (to : SocketAddr) (text : List ℕ) (s : State) → (after_message stale (challenged 8 to text s)).1.challenges ≡ 9 }
    ensures still { (to : SocketAddr) (text : List ℕ) (s : State) → (after_message stale (challenged 8 to text s)).1.phase ≡ Allocated }
    ensures tenth { (to : SocketAddr) (text : List ℕ) (s : State) → (after_message stale (challenged 9 to text s)).1.phase ≡ Closed }
    // Where ten may be, the tenth is answered, and the eleventh ends the client; so does the second where one may be.
    ensures more { (to : SocketAddr) (text : List ℕ) (s : State) → (after_message stale (allowing 10 (challenged 9 to text s))).1.challenges ≡ 10 }
    ensures eleventh { (to : SocketAddr) (text : List ℕ) (s : State) → (after_message stale (allowing 10 (challenged 10 to text s))).1.phase ≡ Closed }
    ensures second { (to : SocketAddr) (text : List ℕ) (s : State) → (after_message stale (allowing 1 (challenged 1 to text s))).1.phase ≡ Closed }
{}
