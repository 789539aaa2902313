//! The end of a session: it comes once, has one cause, and nothing follows.

use crate::answered::Answered;
use turn_hostile_net::fault::{Fault, expect};
use turn_session_book::answers::Answer;
use turn_session_book::causes::Why;
use turn_session_book::events::Event;

/// What is known of the end of a session.
#[derive(Clone, Copy)]
pub struct Ending {
    /// How long leaving takes at most, in nanoseconds.
    leave_wait: u64,
    /// By this time the session has ended.
    until: Option<u64>,
    /// Why it leaves or has ended, as an event or an answer has said.
    cause: Option<Why>,
    /// Whether an event has said that it is about to end.
    is_announced: bool,
    /// Why it has ended, as an event has said.
    over: Option<Why>,
    /// Whether the first response was reported, and that the relay is up.
    is_answered: bool,
    is_up: bool,
}

impl Ending {
    /// A session that has just begun, and that leaves within so many nanoseconds.
    pub fn new(leave_wait: u64) -> Ending {
        Ending {
            leave_wait,
            until: None,
            cause: None,
            is_announced: false,
            over: None,
            is_answered: false,
            is_up: false,
        }
    }

    /// Whether the session has ended, as an event has said.
    pub fn is_over(&self) -> bool {
        self.over.is_some()
    }

    /// Whether the relay was up, as an event has said.
    pub fn is_up(&self) -> bool {
        self.is_up
    }

    /// Whether the session leaves or has ended.
    pub fn is_leaving(&self) -> bool {
        self.until.is_some() || self.over.is_some()
    }

    /// The session leaves from now on.
    pub fn leave(&mut self, now: u64) {
        if self.until.is_none() {
            self.until = Some(now.saturating_add(self.leave_wait));
        }
    }

    /// Whether it should have ended by this time.
    pub fn is_late(&self, now: u64) -> bool {
        self.over.is_none() && self.until.unwrap_or(u64::MAX) <= now
    }

    /// An event is reported now.
    ///
    /// # Errors
    ///
    /// `Wrong` if it may not come, or not a second time.
    pub fn report(&mut self, event: Event, now: u64) -> Result<(), Fault> {
        expect(self.over.is_none(), "an event follows the end")?;
        match event {
            Event::Heard => {
                expect(!self.is_answered, "the first response is reported twice")?;
                self.is_answered = true;
                Ok(())
            }
            Event::Up(..) => {
                expect(!self.is_up, "the relay is up twice")?;
                self.is_up = true;
                Ok(())
            }
            Event::Also(_) => expect(self.is_up, "a further address comes first"),
            Event::Ending(why) => {
                expect(!self.is_announced, "the end is announced twice")?;
                self.is_announced = true;
                self.leave(now);
                self.name(why)
            }
            Event::Over(why) => {
                self.over = Some(why);
                self.name(why)
            }
            _ => Ok(()),
        }
    }

    /// This is named as the cause of the end. There is one cause.
    ///
    /// # Errors
    ///
    /// `Wrong` if another one was named.
    pub fn name(&mut self, why: Why) -> Result<(), Fault> {
        let before = self.cause.unwrap_or(why);
        self.cause = Some(why);
        expect(before == why, "the end has two causes")
    }

    /// Whether this may be answered: after the end there is nothing but that it has ended.
    pub fn permits(&self, answered: &Answered) -> bool {
        let Some(why) = self.over else {
            return true;
        };
        match answered {
            Answered::Answer(Answer::Ended(other)) => *other == why,
            Answered::Over | Answered::No | Answered::Nothing | Answered::Other => true,
            _ => false,
        }
    }
}
