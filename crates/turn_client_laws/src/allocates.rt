//! Which families an ALLOCATE requests.

ghost use Rattle.turn_client_api.specs.State.{State};
ghost use Rattle.turn_client_api.specs.Steps.{Leaves};
ghost use Rattle.turn_client_api.specs.declared.call.Call.{Call};
ghost use Rattle.turn_client_laws.specs.LawsAllocates.{AllocatesAsAsked, AllocatesInOrder};
ghost use Rattle.turn_client_laws.specs.LawsStates.{HoldsAtFirst, StaysInCalls};

/// If an ALLOCATE is listed and outstanding, a request with its ID is for the families of which the client
/// still requests an address: those that are configured, or IPv6 alone if both are (RFC 8656, sections 7.1
/// and 7.4). Until the allocation nothing else is listed, and after it no ALLOCATE. This holds for a new
/// client and after every call, even if memory allocation fails. So an address that is allocated in
/// response to an ALLOCATE is of a family for which such a request was written.
pub fn allocates_ask_for_families()
    ensures initial { HoldsAtFirst AllocatesInOrder }
    ensures kept { StaysInCalls AllocatesInOrder }
    ensures granted { (call : Call) (s t : State) → Leaves call s t → AllocatesInOrder s → AllocatesAsAsked call s t }
{}
