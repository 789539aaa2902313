//! Laws of a course. They are statements: no function here does anything.

ghost use Rattle.turn_relay_course.specs.Laws.{EachServerOnce, NextTryComes, OneFailureEndsNothing, SleepsThroughNothing, TriesAreSpaced};

/// Whatever the caller of a relay that comes back does, and whenever: between the beginnings of two tries lies the wait of the
/// back-off, less its random part, which doubles up to the longest, and 0.2 s between the end of a try and the next. Only a relay that
/// was up for 60 s begins anew.
pub fn tries_are_spaced()
    ensures { TriesAreSpaced }
{}

/// Whatever the caller of a relay of one life does: each of its servers is tried at most once, although one follows the other at once.
pub fn each_server_is_tried_once()
    ensures { EachServerOnce }
{}

/// The next try is due when the longest wait has passed since the beginning of the one before it, and 0.2 s since its end, at the
/// latest.
pub fn next_try_comes()
    ensures { NextTryComes }
{}

/// Before the time that `due` returns a course has nothing to do, and nothing at all without a time, unless something happens.
pub fn course_sleeps_through_nothing()
    ensures { SleepsThroughNothing }
{}

/// A relay that is to come back, and that was up or has begun, is not ended by a single failure, whatever the server has said, or
/// someone in its name: only by an error of the caller's own.
pub fn one_failure_ends_nothing()
    ensures { OneFailureEndsNothing }
{}
