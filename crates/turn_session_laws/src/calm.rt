//! Laws of data that makes nothing due.

ghost use Rattle.std.specs.Prelude.{◌≡◌, Some};
ghost use Rattle.turn_agent.specs.TransactionIds.{Source};
ghost use Rattle.turn_session_path.specs.PathDue.{path_due};
ghost use Rattle.turn_session_path.specs.PathResponses.{after_received};
ghost use Rattle.turn_session_laws.specs.CalmLaws.{DataMakesNothingDue, busy_path};

/// Data of peers makes nothing due before the time that `poll` has told. From such a poll on the path of an open session has
/// nothing to do before that time, also after data was sent and received, in the order of their times; unless a probe is under way
/// and the next one is due before that time, since what is received ends the one. Of the client this is its own law,
/// `turn_client_runs::traffic_is_calm`. By [`data_is_the_clients`](crate::data_is_the_clients) nothing else is noted of data but the
/// use of the peer, and that only if peers may be idle, by the settings: then data may keep again what an idle peer was granted.
pub fn data_makes_nothing_due()
    ensures { DataMakesNothingDue }
{}

/// A path that is probed each second, so that the check computes the definitions: while a probe is under way its third request is
/// due at 2.5 s, and once something was received at 1.6 s, which ends it, the next probe at 2 s.
pub fn probes_in_quick_succession_are_due_earlier()
    ensures before { (ids : Source) → path_due (busy_path ids) ≡ Some 2_500_000_000 }
    ensures after { (ids : Source) → path_due (after_received 1_600_000_000 (busy_path ids)) ≡ Some 2_000_000_000 }
{}
