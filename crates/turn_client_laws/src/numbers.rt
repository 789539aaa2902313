//! The numbers of channels.

ghost use Rattle.turn_client_laws.specs.LawsNumbers.{HasDistinctNumbers};
ghost use Rattle.turn_client_laws.specs.LawsStates.{HoldsAtFirst, StaysInCalls};

/// No channel number names two peers at a time, whether its channel is pending, active or reserved (RFC
/// 8656, section 12). This holds for a new client and after every call, even if memory allocation fails.
pub fn numbers_are_distinct()
    ensures initial { HoldsAtFirst HasDistinctNumbers }
    ensures kept { StaysInCalls HasDistinctNumbers }
{}
