//! What expires as time passes, on plain lists.

use crate::grants::plain::{
    Kind, Plain, Reason, Reported, Row, Stage, TRANSPORT, address, byte_of, drop_listed, is_ipv6,
};
use std::alloc::AllocError;
use turn_client_api::TurnEvent;

/// The purposes of one request.
#[derive(Clone, Copy)]
pub(crate) struct Given {
    pub(crate) id: Option<u8>,
    pub(crate) first: Row,
    pub(crate) second: Row,
}

impl Given {
    /// A request for nothing.
    fn none(id: Option<u8>) -> Given {
        Given {
            id,
            first: Row::new(Kind::Allocate, 0, 0),
            second: Row::new(Kind::Allocate, 0, 0),
        }
    }

    /// Whether the request was made for the row.
    pub(crate) fn names(&self, row: &Row) -> bool {
        row.is(self.first.kind, self.first.key) || row.is(self.second.kind, self.second.key)
    }

    /// Whether the row is an offer that the server made by this request.
    fn offers(&self, row: &Row) -> bool {
        match (self.id, row.reason) {
            (Some(id), Reason::Request(request)) => row.kind == Kind::Offer && id == request,
            _ => false,
        }
    }
}

/// One of the steps by which rows of one family expire.
#[derive(Clone, Copy, PartialEq, Eq)]
enum Step {
    All,
    InVain(Kind),
    Expired,
    Unbound,
    Unanswered,
    Free,
}

impl Plain {
    /// The purposes of the request with this ID.
    pub(crate) fn asked_by(&self, id: u8) -> Given {
        let mut given = Given::none(Some(id % 16));
        let mut is_first = true;
        for asked in &self.asked {
            if asked.id == id % 16 {
                if is_first {
                    given.first = Row::new(asked.kind, asked.key, 0);
                } else {
                    given.second = Row::new(asked.kind, asked.key, 0);
                }
                is_first = false;
            }
        }
        given
    }

    /// All that expires by this time, and what the request that timed out was made for.
    pub(crate) fn expire_grants(
        &mut self,
        timed_from_send: bool,
        id: Option<u8>,
        now: u64,
    ) -> Result<(), AllocError> {
        let given = match id {
            Some(id) => self.asked_by(id),
            None => Given::none(None),
        };
        let first = self.first_allocation();
        let Some(first) = first else {
            return Ok(());
        };
        let second = self.find(Kind::Allocation, 1 - first.key.min(1));
        self.expire_one(&first, timed_from_send, &given, now)?;
        match second {
            Some(second) => self.expire_one(&second, timed_from_send, &given, now),
            None => Ok(()),
        }
    }

    /// The allocation that came first.
    pub(crate) fn first_allocation(&self) -> Option<Row> {
        for row in &self.rows {
            if row.kind == Kind::Allocation {
                return Some(*row);
            }
        }
        None
    }

    /// Whether a request for the row is listed.
    pub(crate) fn has_request(&self, row: &Row) -> bool {
        self.asked.iter().any(|asked| row.is(asked.kind, asked.key))
    }

    /// Removes the allocation with all that is in it, or what expires in it.
    fn expire_one(
        &mut self,
        relay: &Row,
        timed_from_send: bool,
        given: &Given,
        now: u64,
    ) -> Result<(), AllocError> {
        let is_given_up = timed_from_send && relay.final_expiry() <= now;
        let is_awaited = self.has_request(relay) && !given.names(relay) && !is_given_up;
        let is_kept = relay.is_marked && is_awaited;
        if relay.until <= now && !is_kept {
            return self.step(relay, Step::All, given, now, Reported::Never);
        }
        self.step(
            relay,
            Step::InVain(Kind::Channel),
            given,
            now,
            Reported::First,
        )?;
        self.step(
            relay,
            Step::InVain(Kind::Permission),
            given,
            now,
            Reported::First,
        )?;
        self.expire_channel(relay, now)?;
        self.step(relay, Step::Expired, given, now, Reported::First)?;
        self.step(
            relay,
            Step::InVain(Kind::Connect),
            given,
            now,
            Reported::First,
        )?;
        self.close_unbound(relay, given, now)?;
        self.step(relay, Step::Unbound, given, now, Reported::First)?;
        self.step(relay, Step::Unanswered, given, now, Reported::First)?;
        self.unlist_given(relay, given);
        self.step(relay, Step::Free, given, now, Reported::Never)
    }

    /// Removes the rows of the allocation that expire in this step.
    fn step(
        &mut self,
        relay: &Row,
        step: Step,
        given: &Given,
        now: u64,
        reported: Reported,
    ) -> Result<(), AllocError> {
        for row in self.rows.iter_mut() {
            row.goes = is_in(relay, row) && ends(row, step, given, now);
        }
        self.sweep(reported)
    }

    /// The last channel of the allocation whose expiry has passed is reserved.
    fn expire_channel(&mut self, relay: &Row, now: u64) -> Result<(), AllocError> {
        let mut last = None;
        for row in &self.rows {
            if row.is_at(Kind::Channel, Stage::Active) && is_in(relay, row) && row.until <= now {
                last = Some(*row);
            }
        }
        let Some(row) = last else {
            return Ok(());
        };
        self.reserves(&row)?;
        let failure = TurnEvent::ChannelCreateFailed(TRANSPORT, address(row.peer));
        self.jump(failure)
    }

    /// The connections of the allocation that are not bound are to be closed.
    fn close_unbound(&mut self, relay: &Row, given: &Given, now: u64) -> Result<(), AllocError> {
        for row in &self.rows {
            if is_in(relay, row) && ends(row, Step::Unbound, given, now) {
                self.closes.push_back(address(byte_of(row.key)))?;
            }
        }
        Ok(())
    }

    /// Removes the listings for what is in the allocation and was requested by the request, so that
    /// it may be requested again.
    fn unlist_given(&mut self, relay: &Row, given: &Given) {
        for row in &self.rows {
            if is_in(relay, row) && given.names(row) {
                drop_listed(&mut self.asked, row);
            }
        }
    }
}

/// Whether the row is in the allocation, or is it.
pub(crate) fn is_in(relay: &Row, row: &Row) -> bool {
    is_ipv6(row.peer) == is_ipv6(relay.peer)
}

/// Whether the row expires in this step.
fn ends(row: &Row, step: Step, given: &Given, now: u64) -> bool {
    match step {
        Step::All => true,
        Step::InVain(Kind::Connect) => row.kind == Kind::Connect && given.names(row),
        Step::InVain(kind) => row.is_at(kind, Stage::Pending) && given.names(row),
        Step::Expired => row.is_at(Kind::Permission, Stage::Active) && row.until <= now,
        Step::Unbound => {
            row.is_at(Kind::Connection, Stage::Pending) && (row.until <= now || given.names(row))
        }
        Step::Unanswered => given.offers(row),
        Step::Free => row.is_at(Kind::Channel, Stage::Reserved) && row.until < now,
    }
}
