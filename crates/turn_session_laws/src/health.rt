//! Laws of checks.

ghost use Rattle.std.specs.Prelude.{◌≡◌, ◌∷◌, Some, None};
ghost use Rattle.turn_agent.specs.TransactionIds.{Source};
ghost use Rattle.turn_session_book.specs.declared.causes.Why.TheVariants.{Unanswered};
ghost use Rattle.turn_session_path.specs.PathPoll.{path_step};
ghost use Rattle.turn_session_path.specs.declared.path.PathTask.TheVariants.{End};
ghost use Rattle.turn_session_life.specs.Doubts.{doubts_step};
ghost use Rattle.turn_session_life.specs.declared.doubts.DoubtsStep.TheVariants as DoubtsStep;
ghost use Rattle.turn_session_laws.specs.DoubtRuns.DoubtCall.{Told};
ghost use Rattle.turn_session_laws.specs.HealthLaws.{HealthyPathsStay, checked_doubts, probed_path, third_check, third_probe};
ghost use Rattle.turn_session_laws.specs.PathRuns.PathCall.{Received};

/// A path that carries packets ends no session. Whatever was called before, a path is to end only if three of its probes in a row
/// had no response within 3.5 s and nothing else was received since the first of them, if an error of the socket was followed by
/// three more and nothing was received for 3 s since the first, or if a stream was full and nothing was received for 60 s. Doubts
/// of the allocation are to end only if three checks of it in a row were not answered within 3 s each by a server that knows it, or
/// if a second 401 that nobody signed was followed by no signed response for 1 s. The latest time is 2^63 - 1 ns.
pub fn healthy_paths_stay()
    ensures { HealthyPathsStay }
{}

/// Runs, so that the check computes the definitions: the third probe without a response ends a path, and not one in which something
/// is received; and so does the third check of an allocation, and not one that is answered.
pub fn healthy_paths_are_worked()
    ensures silent { (ids : Source) → (path_step 48_500_000_000 (probed_path ids third_probe)).0 ≡ Some (End (Unanswered 3)) }
    ensures received { (ids : Source)
        → (path_step 48_500_000_000 (probed_path ids (Received 47_000_000_000 ∷ third_probe))).0 ≡ None }
    ensures unanswered { (doubts_step 9_000_000_000 (checked_doubts third_check)).0 ≡ DoubtsStep.End (Unanswered 3) }
    ensures answered { (doubts_step 9_000_000_000 (checked_doubts (Told None 8_000_000_000 ∷ third_check))).0 ≡ DoubtsStep.Idle }
{}
