//! Laws of sleep.

ghost use Rattle.std.specs.Prelude.{◌≡◌, Some};
ghost use Rattle.turn_agent.specs.TransactionIds.{Source};
ghost use Rattle.turn_client_api.specs.State.{State};
ghost use Rattle.turn_session_life.specs.Doubts.{doubts_step};
ghost use Rattle.turn_session_life.specs.Watch.{watch_step};
ghost use Rattle.turn_session_laws.specs.HealthLaws.{checked_doubts, third_check};
ghost use Rattle.turn_session_laws.specs.SleepLaws.{SleepsThroughNothing, WaitsLong, doubts_wait, path_waits, probed_watch};

/// Who calls again at the time that `poll` has told, and calls nothing else meanwhile, misses nothing. An open session tells the
/// soonest of the times of its path, of the doubts of its allocation, of its idle peers and of its client, and another one that of
/// its client. Path, doubts and idle peers that are polled before their time do nothing and tell it again; idle peers for whose look
/// memory was wanted are polled again after 100 ms. A client that tells a later time had nothing to note
/// and no request to make; or it wants memory, and then the time is 100 ms from the call. Otherwise nothing of it is due before
/// that time, if it keeps what `TurnClientApi::poll` promises: no verdict on a session that opens comes, nothing has ended with its
/// allocation, and while the path waits too no packet is to be sent.
pub fn sleeps_through_nothing()
    ensures { SleepsThroughNothing }
{}

/// Parts that wait, so that the check computes the definitions: a path that is probed each 15 s, doubts whose check was made 6 s
/// from the beginning, and a client that awaits nothing.
pub fn sleep_is_worked()
    ensures path { (ids : Source) → watch_step 14_999_999_999 (probed_watch ids)
        ≡ (path_waits (Some 15_000_000_000), probed_watch ids) }
    ensures doubts { doubts_step 8_999_999_999 (checked_doubts third_check)
        ≡ (doubts_wait (Some 9_000_000_000), checked_doubts third_check) }
    ensures client { (s : State) → WaitsLong s }
{}
