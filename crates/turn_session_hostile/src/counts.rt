//! What the runs of one kind did.

use std::fmt;
use turn_session_book::answers::Outcome;
use turn_session_book::causes::Why;
use turn_session_book::events::Event;

/// What the runs of one kind did.
#[derive(Clone, Copy, Default)]
pub struct Counts {
    /// The runs.
    pub runs: u64,
    /// The calls in them, without those that are repeated.
    pub calls: u64,
    /// The payloads of peers that were received.
    pub payloads: u64,
    granted: u64,
    refused: u64,
    timed_out: u64,
    not_made: u64,
    not_opened: u64,
    not_bound: u64,
    ended: u64,
    lost: u64,
    expired: u64,
    checked: u64,
    moved: u64,
    closed: u64,
    silent: u64,
    denied: u64,
    forgotten: u64,
    broken: u64,
}

impl Counts {
    /// The sum of both.
    pub fn plus(self, other: Counts) -> Counts {
        Counts {
            runs: self.runs.saturating_add(other.runs),
            calls: self.calls.saturating_add(other.calls),
            payloads: self.payloads.saturating_add(other.payloads),
            granted: self.granted.saturating_add(other.granted),
            refused: self.refused.saturating_add(other.refused),
            timed_out: self.timed_out.saturating_add(other.timed_out),
            not_made: self.not_made.saturating_add(other.not_made),
            not_opened: self.not_opened.saturating_add(other.not_opened),
            not_bound: self.not_bound.saturating_add(other.not_bound),
            ended: self.ended.saturating_add(other.ended),
            lost: self.lost.saturating_add(other.lost),
            expired: self.expired.saturating_add(other.expired),
            checked: self.checked.saturating_add(other.checked),
            moved: self.moved.saturating_add(other.moved),
            closed: self.closed.saturating_add(other.closed),
            silent: self.silent.saturating_add(other.silent),
            denied: self.denied.saturating_add(other.denied),
            forgotten: self.forgotten.saturating_add(other.forgotten),
            broken: self.broken.saturating_add(other.broken),
        }
    }

    /// Counts an event.
    pub fn count(&mut self, event: Event) {
        let one = Counts::default();
        let more = match event {
            Event::Outcome(_, _, outcome) => of_outcome(outcome),
            Event::Lost(..) => Counts { lost: 1, ..one },
            Event::Expired(_) => Counts { expired: 1, ..one },
            Event::Checked(..) => Counts { checked: 1, ..one },
            Event::Moved(_) => Counts { moved: 1, ..one },
            Event::Over(why) => of_cause(why),
            _ => one,
        };
        *self = self.plus(more);
    }
}

fn of_outcome(outcome: Outcome) -> Counts {
    let one = Counts::default();
    match outcome {
        Outcome::Granted => Counts { granted: 1, ..one },
        Outcome::Refused(_) => Counts { refused: 1, ..one },
        Outcome::TimedOut(_) => Counts {
            timed_out: 1,
            ..one
        },
        Outcome::NotMade(_) => Counts { not_made: 1, ..one },
        Outcome::NotOpened(_) => Counts {
            not_opened: 1,
            ..one
        },
        Outcome::NotBound => Counts {
            not_bound: 1,
            ..one
        },
        Outcome::Ended(_) => Counts { ended: 1, ..one },
    }
}

/// An end with this cause.
fn of_cause(why: Why) -> Counts {
    let one = Counts::default();
    match why {
        Why::Closed => Counts { closed: 1, ..one },
        Why::Silent(_) | Why::RenewalSilent | Why::GrantSilent(_) | Why::Unanswered(_) => Counts {
            silent: 1,
            ..one
        },
        Why::Forgotten(_) => Counts {
            forgotten: 1,
            ..one
        },
        Why::SocketErrors(_)
        | Why::SocketEnded(_)
        | Why::StreamFull
        | Why::NotAStream
        | Why::NoRoute(_)
        | Why::HostMoved(_) => Counts { broken: 1, ..one },
        _ => Counts { denied: 1, ..one },
    }
}

/// The outcomes by their kinds, the other events, and the causes of ends by their kinds.
impl fmt::Display for Counts {
    fn fmt<W: fmt::Write>(&self, f: &mut fmt::Formatter<W>) -> fmt::Result {
        write_outcomes(f, *self)?;
        write_events(f, *self)?;
        write_ends(f, *self)?;
        let Counts {
            runs,
            calls,
            payloads,
            ..
        } = *self;
        write!(f, "{runs} runs, {calls} calls, {payloads} payloads")
    }
}

fn write_outcomes<W: fmt::Write>(f: &mut fmt::Formatter<W>, counts: Counts) -> fmt::Result {
    let Counts {
        granted,
        refused,
        timed_out,
        not_made,
        not_opened,
        not_bound,
        ended,
        ..
    } = counts;
    write!(
        f,
        "outcomes: {granted} granted, {refused} refused, {timed_out} timed out, "
    )?;
    write!(
        f,
        "{not_made} not made, {not_opened} not opened, {not_bound} not bound, {ended} ended; "
    )
}

fn write_events<W: fmt::Write>(f: &mut fmt::Formatter<W>, counts: Counts) -> fmt::Result {
    let Counts {
        lost,
        expired,
        checked,
        moved,
        ..
    } = counts;
    write!(
        f,
        "events: {lost} lost, {expired} expired, {checked} checked, {moved} moved; "
    )
}

fn write_ends<W: fmt::Write>(f: &mut fmt::Formatter<W>, counts: Counts) -> fmt::Result {
    let Counts {
        closed,
        silent,
        denied,
        forgotten,
        broken,
        ..
    } = counts;
    write!(
        f,
        "ends: {closed} left, {silent} silent, {denied} denied, {forgotten} forgotten, {broken} broken; "
    )
}
