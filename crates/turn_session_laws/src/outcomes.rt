//! Laws of outcomes.

ghost use Rattle.turn_session_laws.specs.OutcomeLaws.{OneOutcome};

/// Each request has one outcome. A ticket is owed one from the request that is noted under it until it is reported: whatever the
/// client reports, what expires, is closed or needs a permission without a report of it, and what fails or is settled otherwise,
/// leaves the number of requests without an outcome and of outcomes to report under this ticket as it was. When the end is reported,
/// after every event of the book, no outcome is owed any more. Tickets are numbered modulo 2^32.
pub fn one_outcome()
    ensures { OneOutcome }
{}
