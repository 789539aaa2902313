//! Which call removes a grant.

ghost use Rattle.std.specs.Prelude.{◌⊎◌, ℕ};
ghost use Rattle.std.specs.List.{Contains};
ghost use Rattle.turn_client_api.specs.State.{State};
ghost use Rattle.turn_client_api.specs.declared.grant.Grant.{Grant};
ghost use Rattle.turn_client_api.specs.Steps.{Leaves};
ghost use Rattle.turn_client_api.specs.declared.call.Call.{Call};
ghost use Rattle.turn_client_api.specs.declared.call.Call.TheVariants.{Poll};
ghost use Rattle.turn_client_laws.specs.LawsGone.{IsStillThere, IsTakenBy, IsThereOrOver};
ghost use Rattle.turn_client_laws.specs.LawsNumbers.{HasDistinctNumbers};

/// Each grant exists after a call too, as far as it was (pending, active or reserved, a data connection bound or
/// not), or the call took it, by its kind: `delete` removes active permissions and channels (RFC 8656, section 8),
/// `allocated_tcp_socket` the offer that it names, `tcp_closed` and the end of a stream the connection from that
/// local address (RFC 6062, section 4.3). In `recv` and `poll_recv` a signed reply to an outstanding request
/// removes what this was made for, or all grants if it answers a request to delete the allocations, and a message
/// of a connection that waits to be bound removes that connection. A `poll` removes some only if it times a
/// transaction out or the earliest expiry has come, and only those that have expired: an active permission at its
/// expiry, a channel after it was reserved for 300 s (an active one is reserved at its expiry), a connection that
/// was not bound in time, what was requested by the transaction that timed out, an offer by a request of the server
/// with the ID of that transaction, and all grants in an allocation whose expiry has passed. No other call removes
/// any, and no call removes more if memory allocation fails.
pub fn grants_go_by_kind()
    ensures call { (call : Call) (s t : State) (g : Grant) → Leaves call s t → Contains s.grants g → IsStillThere t g ⊎ IsTakenBy call s g }
    ensures poll { (now : ℕ) (s t : State) (g : Grant) → Leaves (Poll now) s t → HasDistinctNumbers s → Contains s.grants g → IsThereOrOver now s t g }
{}
