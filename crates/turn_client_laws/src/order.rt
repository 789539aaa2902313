//! What holds for every client.

ghost use Rattle.turn_client_api.specs.State.{State};
ghost use Rattle.turn_client_api.specs.Alarm.{FitsPhaseForPoll};
ghost use Rattle.turn_client_laws.specs.LawsOrder.{FitsPhase};
ghost use Rattle.turn_client_laws.specs.LawsStates.{HoldsAtFirst, StaysInCalls};

/// A client's state fits its phase: the pause between requests begins with the first packet, and no grant
/// exists before the server allocated (RFC 8656, section 7.3). This holds for a new client and after every
/// call, even if memory allocation fails.
pub fn clients_fit_their_phase()
    ensures initial { HoldsAtFirst FitsPhase }
    ensures kept { StaysInCalls FitsPhase }
    ensures orderly { (s : State) → FitsPhase s → FitsPhaseForPoll s }
{}
