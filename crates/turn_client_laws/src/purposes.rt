//! How many purposes a request has.

ghost use Rattle.turn_client_api.specs.State.{State};
ghost use Rattle.turn_client_api.specs.declared.call.Call.{Call};
ghost use Rattle.turn_client_laws.specs.LawsPurposes.{HasTwoPurposes, KeepsTwoPurposes};
ghost use Rattle.turn_client_laws.specs.LawsStates.{HoldsAtFirst};

/// No request is listed for more than two purposes: a channel is requested with a permission (RFC 8656,
/// section 12.1), one REFRESH deletes the allocations of both families (section 8), and a request that is
/// made again has no more purposes than before. This holds for a new client and after every call, even if
/// memory allocation fails.
pub fn requests_have_two_purposes()
    ensures initial { HoldsAtFirst HasTwoPurposes }
    ensures kept { (call : Call) (s t : State) → KeepsTwoPurposes call s t }
{}
