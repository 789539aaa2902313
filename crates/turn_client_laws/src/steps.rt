//! What every call keeps, even if memory allocation fails.

ghost use Rattle.std.specs.Prelude.{◌≡◌, ◌<◌, ℕ, false, List, [], Some};
ghost use Rattle.turn_client_api.specs.State.{State};
ghost use Rattle.turn_client_api.specs.declared.state.Phase.TheVariants.{Closed};
ghost use Rattle.turn_client_api.specs.Due.{has_reply};
ghost use Rattle.turn_client_api.specs.Poll.{poll_step};
ghost use Rattle.turn_client_api.specs.Steps.{Leaves};
ghost use Rattle.turn_client_api.specs.declared.call.Call.{Call};
ghost use Rattle.turn_client_laws.specs.LawsInputs.{IsBroughtBy};
ghost use Rattle.turn_client_laws.specs.LawsReplies.{IsReplyAccepted};
ghost use Rattle.turn_client_laws.specs.LawsSteps.{StaysClosed, KeepsChallengeLimit, KeepsRealm, CountsChallenge, GoesOn};
ghost use Rattle.turn_client_api.specs.declared.poll.TurnPollRet.TheVariants as Do;

/// A client that has ended stays ended after every call, even if memory allocation fails. Once no event and
/// no reply is queued, `poll` reports that it has ended (our choice).
pub fn stays_closed()
    ensures stays { (call : Call) (s t : State) → Leaves call s t → StaysClosed s t }
    ensures reported { (now : ℕ) (s : State) → s.phase ≡ Closed → s.events ≡ [] → has_reply s ≡ false → (poll_step now s).0 ≡ Do.Closed }
{}

/// In sequence at most as many challenges are answered as the configuration says, which no call changes,
/// except those to a CONNECTION_BIND (our choice: RFC 8489, section 9.2.5, sets no limit): each answer is
/// counted, and the count falls only by a message that the call processes, a signed reply to an outstanding
/// request that answers something that this was made for.
pub fn challenges_are_counted()
    ensures configured { (call : Call) (s t : State) → Leaves call s t → t.config ≡ s.config }
    ensures stays { (call : Call) (s t : State) → Leaves call s t → KeepsChallengeLimit s t }
    ensures each { (message : List ℕ) (now : ℕ) (s : State) → CountsChallenge message now s }
    ensures falls { (call : Call) (s t : State) → Leaves call s t → t.challenges < s.challenges → IsBroughtBy IsReplyAccepted call s }
{}

/// Realm and algorithm, once held, never change (RFC 8489, section 9.2.5: a later challenge brings a
/// nonce).
pub fn realm_stays()
    ensures { (call : Call) (s t : State) → Leaves call s t → KeepsRealm s t }
{}

/// A client advances from phase to phase and never back: new, requesting, authenticating, allocated and
/// closed. Once it has sent a packet, the time of the last one is known.
pub fn phases_go_on()
    ensures { (call : Call) (s t : State) → Leaves call s t → GoesOn s t }
{}
