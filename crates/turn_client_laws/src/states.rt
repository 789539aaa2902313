//! Which states a client can be in.

ghost use Rattle.turn_client_laws.specs.LawsStates.{AsksServer, HasFewIndicated, HasGrantsAsked, HasNumbersInRange, HoldsAtFirst, HoldsChallenge, StaysInCalls};

/// Each channel has a number of 0x4000 to 0x4FFF (RFC 8656, section 12), whether it is pending, active or
/// reserved. This holds for a new client and after every call, even if memory allocation fails.
pub fn channel_numbers_are_in_range()
    ensures initial { HoldsAtFirst HasNumbersInRange }
    ensures kept { StaysInCalls HasNumbersInRange }
{}

/// In `Authenticating` and `Allocated` a challenge is held, so that requests are signed (RFC 8489, section
/// 9.2.5). This holds for a new client and after every call, even if memory allocation fails.
pub fn challenges_are_held()
    ensures initial { HoldsAtFirst HoldsChallenge }
    ensures kept { StaysInCalls HoldsChallenge }
{}

/// Each outstanding request was sent to the server. This holds for a new client and after every call, even
/// if memory allocation fails.
pub fn requests_go_to_the_server()
    ensures initial { HoldsAtFirst AsksServer }
    ensures kept { StaysInCalls AsksServer }
{}

/// Each purpose that a request is listed for, except an ALLOCATE, has its grant, a channel with the
/// requested number and peer, and a data connection with its local address and the peer for which the
/// caller opened it: with the grant the listing is removed too. This holds for a new client and
/// after every call, even if memory allocation fails.
pub fn listings_have_grants()
    ensures initial { HoldsAtFirst HasGrantsAsked }
    ensures kept { StaysInCalls HasGrantsAsked }
{}

/// At most 64 data connections are offered by indications, which are not signed (RFC 6062, section 4.4).
/// This holds for a new client and after every call, even if memory allocation fails.
pub fn indicated_offers_are_few()
    ensures initial { HoldsAtFirst HasFewIndicated }
    ensures kept { StaysInCalls HasFewIndicated }
{}
