//! Laws of the end.

ghost use Rattle.turn_session_laws.specs.EndLaws.{LeavesInTime, NothingFollows, OverIsLast};

/// A session that the caller leaves, or that leaves by itself, has ended at once, or by the first poll at or after its wait from then.
pub fn leaves_in_time()
    ensures { LeavesInTime }
{}

/// After the report of the end there is none. The premise is that every event of the book was reported before: the end comes last.
pub fn over_is_last()
    ensures { OverIsLast }
{}

/// No call changes a session that has ended: nothing is requested, kept, received, sent or begun any more, and its cause stays.
pub fn nothing_follows_the_end()
    ensures { NothingFollows }
{}
