//! The tickets that the caller was given: each has one outcome.

use std::alloc::Global;
use turn_hostile_net::fault::{Fault, expect};
use turn_session_book::keys::Key;

/// A ticket of a request.
#[derive(Clone, Copy)]
pub struct Ticket {
    /// Its number.
    pub number: u32,
    /// What was requested.
    pub key: Key,
}

/// A ticket of a check of the path.
#[derive(Clone, Copy)]
struct Check {
    number: u32,
    /// By this time it has a result, in nanoseconds.
    until: u64,
}

/// The tickets without an outcome.
#[derive(Drop)]
pub struct Tickets {
    open: Vec<Ticket>,
    checks: Vec<Check>,
    /// The last ticket of a request.
    last: u32,
    /// The last ticket of a check.
    last_check: u32,
}

/// A check has its result after so long (RFC 8489, section 6.2.1: waits of 0.5, 1 and 2 s).
const CHECK: u64 = 3_500_000_000;

impl Tickets {
    /// No ticket.
    pub fn new(alloc: Global) -> Tickets {
        Tickets {
            open: Vec::new(alloc),
            checks: Vec::new(alloc),
            last: 0,
            last_check: 0,
        }
    }

    /// The tickets of requests.
    pub fn open(&self) -> &[Ticket] {
        self.open.as_slice()
    }

    /// A request for this key was given this ticket: that of the request of the same key under way, or else a new one. An
    /// outcome of the one before may not be reported yet.
    ///
    /// # Errors
    ///
    /// `Wrong` if it is another one, and `OutOfMemory` if memory allocation fails.
    pub fn give(&mut self, number: u32, key: Key) -> Result<(), Fault> {
        for ticket in self.open.iter() {
            if ticket.number == number {
                return expect(ticket.key == key, "a ticket has two keys");
            }
        }
        expect(number > self.last, "a ticket is given twice")?;
        self.last = number;
        Ok(self.open.push(Ticket { number, key })?)
    }

    /// The request with this ticket has an outcome. It had none before.
    ///
    /// # Errors
    ///
    /// `Wrong` if no such ticket is without an outcome.
    pub fn settle(&mut self, number: u32, key: Key) -> Result<(), Fault> {
        let mut found = None;
        for (place, ticket) in self.open.iter().enumerate() {
            if ticket.number == number && ticket.key == key {
                found = Some(place);
            }
        }
        match found {
            Some(place) if place < self.open.len() => {
                self.open.remove(place);
                Ok(())
            }
            _ => Err(Fault::Wrong("an outcome has no ticket, or is the second one")),
        }
    }

    /// A check was given this ticket now: that of the check under way, or else a new one.
    ///
    /// # Errors
    ///
    /// `Wrong` if it is another one, and `OutOfMemory` if memory allocation fails.
    pub fn give_check(&mut self, number: u32, now: u64) -> Result<(), Fault> {
        for check in self.checks.iter() {
            if check.number == number {
                return Ok(());
            }
        }
        expect(self.checks.is_empty(), "two checks are under way")?;
        expect(
            number > self.last_check,
            "a ticket of a check is given twice",
        )?;
        self.last_check = number;
        let until = now.saturating_add(CHECK);
        Ok(self.checks.push(Check { number, until })?)
    }

    /// The check with this ticket has a result. It had none before.
    ///
    /// # Errors
    ///
    /// `Wrong` if no such check is under way.
    pub fn settle_check(&mut self, number: u32) -> Result<(), Fault> {
        match self.checks.pop() {
            Some(check) => expect(check.number == number, "a result is that of another check"),
            None => Err(Fault::Wrong("a result has no check, or is the second one")),
        }
    }

    /// Whether a check should have had its result by this time.
    pub fn has_late_check(&self, now: u64) -> bool {
        for check in self.checks.iter() {
            if check.until <= now {
                return true;
            }
        }
        false
    }

    /// Whether two requests of the same key have no outcome.
    pub fn has_twins(&self) -> bool {
        for ticket in self.open.iter() {
            for other in self.open.iter() {
                if ticket.key == other.key && ticket.number != other.number {
                    return true;
                }
            }
        }
        false
    }

    /// Whether all have an outcome.
    pub fn is_empty(&self) -> bool {
        self.open.is_empty() && self.checks.is_empty()
    }
}
