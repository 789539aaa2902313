//! What only the server grants.

ghost use Rattle.std.specs.List.{Contains};
ghost use Rattle.turn_client_api.specs.State.{State};
ghost use Rattle.turn_client_api.specs.declared.grant.Grant.{Grant};
ghost use Rattle.turn_client_api.specs.Steps.{Leaves};
ghost use Rattle.turn_client_api.specs.declared.call.Call.{Call};
ghost use Rattle.turn_client_laws.specs.LawsGranted.{GrantsToPeers, HasCause, IsActiveGrant};
ghost use Rattle.turn_client_laws.specs.LawsNumbers.{HasDistinctNumbers};
ghost use Rattle.turn_client_laws.specs.LawsStates.{HasGrantsAsked};

/// An allocation, an active permission or channel, or a bound data connection is granted, or gets another
/// expiry, only by an input that the call processes, even if memory allocation fails: a whole message, in a
/// datagram of the server or a frame of the control connection, and for a data connection in a frame of
/// that connection itself. The message is a success that is signed with the client's credentials under the
/// realm that it holds (RFC 8489, section 9.2.5), and answers an outstanding request that was made for the
/// grant. Its expiry is exactly the time of that input plus the lifetime, or 2^63 - 1 ns if that is less:
/// 300 s for a permission, 600 s for a channel, and for an allocation the first LIFETIME that is seen (RFC
/// 8656, sections 7.3, 9 and 12); a new allocation is of a requested family. Else the grant was active
/// before with the same expiry, or `delete` deleted the allocation, which expires now. A channel is granted
/// to the peer of the CHANNEL_BIND that is answered, since each pending request has its grant and no two
/// channels have one number (`listings_have_grants`, `numbers_are_distinct`).
pub fn only_a_signed_success_grants()
    ensures cause { (call : Call) (s t : State) (g : Grant) → Leaves call s t → Contains t.grants g → IsActiveGrant g → HasCause call s g }
    ensures channel { (call : Call) (s t : State) → Leaves call s t → HasGrantsAsked s → HasDistinctNumbers s → GrantsToPeers call s t }
{}
