//! How far a session has come, from its opening to its end, and what of that is to be reported.

ghost use Rattle.std.specs.Prelude.{◌≡◌};
ghost use Rattle.std.specs.Duration.{as_nanos};
ghost use Rattle.turn_session_life.specs.Life.{after_deletion, after_end, after_ending, after_heard, after_leave, after_opening, after_over};
ghost use Rattle.turn_session_life.specs.Life.{ending_report, is_due, left_until};
ghost use Rattle.turn_session_life.specs.Life.{cause_in, is_running, new_life, over_report, reported};

use std::time::Duration;
use turn_session_book::causes::Why;
use turn_stun::instant::Instant;

/// How far a session has come.
#[derive(Clone, Copy, Debug)]
pub enum Phase {
    /// The allocation is requested.
    Opening,
    /// The server has granted a relayed address.
    Open,
    /// The session deletes its allocation, and ends then.
    Leaving(Leave),
    /// It has ended for this cause.
    Over(Why),
}

/// A session that deletes its allocation.
#[derive(Clone, Copy, Debug)]
pub struct Leave {
    /// When the deletion is requested at the latest: it may wait for bytes that are on their way to a peer.
    pub delete_by: Instant,
    /// When it ends at the latest.
    pub until: Instant,
    /// Why it ends.
    pub why: Why,
    /// Whether the deletion was requested. An allocation that the server grants late is deleted then.
    pub is_deleted: bool,
}

/// Whether something is to be reported, or was.
#[derive(Clone, Copy, Debug, PartialEq, Eq)]
pub enum Report {
    /// It has not happened.
    NotYet,
    /// It is to be reported.
    Due,
    /// It was reported.
    Done,
}

/// The life of a session.
#[derive(Clone, Copy, Debug)]
pub struct Life {
    /// How far it has come.
    pub phase: Phase,
    /// That the server was heard.
    pub heard: Report,
    /// That the session is about to end.
    pub ending: Report,
    /// That it has ended.
    pub over: Report,
}

impl Life {
    /// The allocation is requested. Over a stream the server is heard: it has accepted the connection.
    pub fn new(is_stream: bool) -> Life
        ensures { result ≡ new_life is_stream }
    {
        Life {
            phase: Phase::Opening,
            heard: if is_stream {
                Report::Due
            } else {
                Report::NotYet
            },
            ending: Report::NotYet,
            over: Report::NotYet,
        }
    }

    /// Whether it neither leaves nor has ended.
    pub fn is_running(&self) -> bool
        ensures { result ≡ is_running self.now.phase }
    {
        matches!(self.phase, Phase::Opening | Phase::Open)
    }

    /// Why it leaves or has ended, or `None` if it does neither.
    pub fn cause(&self) -> Option<Why>
        ensures { result ≡ cause_in self.now.phase }
    {
        match self.phase {
            Phase::Leaving(leave) => Some(leave.why),
            Phase::Over(why) => Some(why),
            _ => None,
        }
    }

    /// A response of the server was received.
    pub fn heard(&mut self)
        ensures { self.new ≡ after_heard self.old }
    {
        if matches!(self.heard, Report::NotYet) {
            self.heard = Report::Due;
        }
    }

    /// The server has granted a relayed address. After the opening nothing changes.
    pub fn opened(&mut self)
        ensures { self.new ≡ after_opening self.old }
    {
        if matches!(self.phase, Phase::Opening) {
            self.phase = Phase::Open;
        }
    }

    /// The caller leaves: the allocation is deleted within this time, of which the first half may pass before the deletion is
    /// requested. A session that leaves or has ended goes on with that.
    pub fn leave(&mut self, wait: Duration, now: Instant)
        ensures { self.new ≡ after_leave (as_nanos wait) now self.old }
    {
        if self.is_running() {
            self.phase = left_until(Why::Closed, now.plus(wait / 2), wait, now);
        }
    }

    /// The session ends for this cause after it has deleted its allocation, within this time. The deletion is requested at once. A
    /// session that leaves or has ended goes on with that.
    pub fn end_soon(&mut self, why: Why, wait: Duration, now: Instant)
        ensures { self.new ≡ after_ending why (as_nanos wait) now self.old }
    {
        if self.is_running() {
            self.phase = left_until(why, now, wait, now);
            self.ending = Report::Due;
        }
    }

    /// The deletion was requested, if the session leaves.
    pub fn deleted(&mut self)
        ensures { self.new ≡ after_deletion self.old }
    {
        if let Phase::Leaving(leave) = self.phase {
            self.phase = Phase::Leaving(Leave {
                is_deleted: true,
                ..leave
            });
        }
    }

    /// The session has ended for this cause, or for that for which it left. A session that had ended keeps its cause.
    pub fn end(&mut self, why: Why)
        ensures { self.new ≡ after_end why self.old }
    {
        match self.phase {
            Phase::Leaving(leave) => self.finish(leave.why),
            Phase::Over(_why) => {}
            _ => self.finish(why),
        }
    }

    /// Whether it is to be reported that the server was heard, which comes before all other reports. It is from now on.
    pub fn report_heard(&mut self) -> bool
        ensures is_due { result ≡ is_due self.old.heard }
        ensures after { self.new ≡ record self.old { heard = reported self.old.heard } }
    {
        take_report(&mut self.heard)
    }

    /// The cause for which the session is about to end, if it is to be reported. It is from now on.
    pub fn report_ending(&mut self) -> Option<Why>
        ensures { (result, self.new) ≡ ending_report self.old }
    {
        let why = self.cause()?;
        if take_report(&mut self.ending) {
            return Some(why);
        }
        None
    }

    /// The cause for which the session has ended, if it is to be reported: after it nothing is. It is from now on.
    pub fn report_over(&mut self) -> Option<Why>
        ensures { (result, self.new) ≡ over_report self.old }
    {
        let why = self.cause()?;
        if take_report(&mut self.over) {
            return Some(why);
        }
        None
    }

    /// It has ended for this cause.
    fn finish(&mut self, why: Why)
        ensures { self.new ≡ after_over why self.old }
    {
        self.phase = Phase::Over(why);
        self.over = Report::Due;
    }
}

/// The phase of a session that leaves now, for this cause, and whose deletion is requested by this time.
fn left_until(why: Why, delete_by: Instant, wait: Duration, now: Instant) -> Phase
    ensures { result ≡ left_until why delete_by (as_nanos wait) now }
{
    Phase::Leaving(Leave {
        delete_by,
        until: now.plus(wait),
        why,
        is_deleted: false,
    })
}

/// Whether it is to be reported. It is from now on.
fn take_report(what: &mut Report) -> bool
    ensures is_due { result ≡ is_due what.old }
    ensures after { what.new ≡ reported what.old }
{
    if matches!(*what, Report::Due) {
        *what = Report::Done;
        return true;
    }
    false
}
