//! What a client holds of challenges in a run, and how many are answered.

ghost use Rattle.std.specs.Prelude.{List};
ghost use Rattle.turn_client_api.specs.State.{State};
ghost use Rattle.turn_client_laws.specs.LawsSteps.{KeepsRealm};
ghost use Rattle.turn_client_api.specs.declared.call.Call.{Call};
ghost use Rattle.turn_client_runs.specs.Challenges.{AnswersFew, CountsAll, IsWithinChallengeLimit};
ghost use Rattle.turn_client_runs.specs.Holds.{HoldsInAnyRun, HoldsInRuns, Reaches};

/// In sequence at most as many challenges are answered as the configuration says, except those to a
/// CONNECTION_BIND (our choice: RFC 8489, section 9.2.5, sets no limit): the count of the state is at most
/// that after every run, even if some memory allocations failed. Each challenge of a run is counted if it is
/// answered. From any state of a run on, further calls answer at most so many, unless one of them resets the
/// count: then a signed reply to an outstanding request is received, and challenges are counted anew.
pub fn few_challenges_are_answered()
    ensures found { HoldsInRuns IsWithinChallengeLimit }
    ensures any { HoldsInAnyRun IsWithinChallengeLimit }
    ensures each { (s : State) (calls : List Call) → CountsAll s calls }
    ensures few { (s : State) (calls : List Call) → IsWithinChallengeLimit s → AnswersFew s calls }
{}

/// Realm and algorithm, once held, never change, whatever is called after that, even if some memory
/// allocations fail (RFC 8489, section 9.2.5: a later challenge brings a nonce).
pub fn realm_stays_in_runs()
    ensures { (s : State) (calls : List Call) (t : State) → Reaches s calls t → KeepsRealm s t }
{}
