//! Which grants are unique.

ghost use Rattle.turn_client_api.specs.State.{State};
ghost use Rattle.turn_client_api.specs.Steps.{Leaves};
ghost use Rattle.turn_client_api.specs.declared.call.Call.{Call};
ghost use Rattle.turn_client_laws.specs.LawsOrder.{FitsPhase};
ghost use Rattle.turn_client_laws.specs.LawsDoubles.{HasNoDoubles};
ghost use Rattle.turn_client_laws.specs.LawsStates.{HoldsAtFirst};

/// A client has at most one allocation of a family (RFC 8656, section 7.1), one permission for an IP
/// address, whatever the port (section 9), one channel of a number (section 12), one CONNECT to a peer (RFC
/// 6062, section 4.3), and one data connection from a local address. This holds for a new client and after
/// every call, even if memory allocation fails.
pub fn grants_are_distinct()
    ensures initial { HoldsAtFirst HasNoDoubles }
    ensures kept { (call : Call) (s t : State) → Leaves call s t → FitsPhase s → HasNoDoubles s → HasNoDoubles t }
{}
