//! When a caller is to call again.

ghost use Rattle.std.specs.Prelude.{◌≡◌, ◌≢◌, ℕ, max, Bool, true, false, []};
ghost use Rattle.turn_client_api.specs.State.{State};
ghost use Rattle.turn_client_api.specs.declared.state.Phase.TheVariants.{New, Allocated};
ghost use Rattle.turn_client_api.specs.Due.{due_times, has_reply, least_due, next_wakeup};
ghost use Rattle.turn_client_laws.specs.LawsWakeup.{IsLeast};

/// The time that `poll` returns (our choice) is now if nothing was sent yet, an event or a reply is queued,
/// or the call timed a transaction out. Else it is the earliest time at which something is due, but for a
/// client with allocations none in the past.
pub fn wakeup_is_the_least_time()
    ensures new { (has_given_up : Bool) (now : ℕ) (s : State) → s.phase ≡ New → next_wakeup has_given_up now s ≡ now }
    ensures event { (has_given_up : Bool) (now : ℕ) (s : State) → s.events ≢ [] → next_wakeup has_given_up now s ≡ now }
    ensures reply { (has_given_up : Bool) (now : ℕ) (s : State) → has_reply s ≡ true → next_wakeup has_given_up now s ≡ now }
    ensures given_up { (now : ℕ) (s : State) → next_wakeup true now s ≡ now }

    ensures least { (now : ℕ) (s : State) → IsLeast (least_due now s) (due_times now s) }
    ensures allocated { (now : ℕ) (s : State) → s.phase ≡ Allocated → s.events ≡ [] → has_reply s ≡ false
        → next_wakeup false now s ≡ max now (least_due now s) }
    ensures others { (now : ℕ) (s : State) → s.phase ≢ New → s.phase ≢ Allocated → s.events ≡ [] → has_reply s ≡ false
        → next_wakeup false now s ≡ least_due now s }
{}
