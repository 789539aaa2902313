//! The allocation that each grant belongs to.

ghost use Rattle.turn_client_api.specs.State.{State};
ghost use Rattle.turn_client_api.specs.Alarm.{AllHaveAllocation};
ghost use Rattle.turn_client_laws.specs.LawsGrantAllocations.{GrantsHaveAllocations};
ghost use Rattle.turn_client_laws.specs.LawsStates.{HoldsAtFirst, StaysInCalls};

/// A grant is made in an allocation of its address's family, and is removed with it (RFC 8656, sections
/// 7.3, 9 and 12). A channel or a connection is a grant from its request on, so that the reply finds an
/// allocation too. This holds for a new client and after every call, even if memory allocation fails: with
/// `clients_fit_their_phase`, `no_deadline_is_missed` holds for every client.
pub fn grants_have_allocations()
    ensures initial { HoldsAtFirst GrantsHaveAllocations }
    ensures kept { StaysInCalls GrantsHaveAllocations }
    ensures stands { (s : State) → GrantsHaveAllocations s → AllHaveAllocation s }
{}
