//! What the times mean that `poll` returns in a run.

ghost use Rattle.std.specs.Prelude.{◌≡◌};
ghost use Rattle.turn_client_api.specs.Poll.{poll_step};
ghost use Rattle.turn_client_api.specs.State.{State};
ghost use Rattle.turn_client_api.specs.declared.poll.TurnPollRet.TheVariants.{WaitUntil};
ghost use Rattle.turn_client_laws.specs.LawsMessages.{ms};
ghost use Rattle.turn_client_runs.specs.Holds.{HoldsInAnyRun, HoldsOfRuns};
ghost use Rattle.turn_client_runs.specs.Sleeps.{SleepsInTime, ReportsTimelyNext, with_marked};

/// A caller that sleeps until the time that each `poll` of a run returns misses no deadline: if it is after
/// now, no packet is due before it, nothing ends and nothing is pending. If it is not after now there is
/// something to do (our choice: RFC 8489, section 6.2, has timers). No allocation expires between now and that time,
/// whether or not it is marked as expired. That holds after any list of calls, whatever their times, as long as the
/// client is polled at times up to 2^62 nanoseconds. It also holds for a `poll` after calls of which some had a
/// failed memory allocation.
pub fn runs_miss_no_deadline()
    ensures found { HoldsOfRuns SleepsInTime }
    ensures any { HoldsInAnyRun ReportsTimelyNext }
    // An allocation that is marked as expired, and lasts for 1000 s.
    ensures marked { (s : State) → (poll_step (ms 100) (with_marked s)).0 ≡ WaitUntil (ms 1_000_050) }
{}
