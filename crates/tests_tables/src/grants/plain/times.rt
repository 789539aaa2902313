//! When rows are refreshed, and what is refreshed first, on plain lists.

use crate::grants::plain::expiries::is_in;
use crate::grants::plain::{Kind, Plain, Row, SECOND, Stage, address, family, is_ipv6, number_of};
use turn_client_api::Purpose;

impl Row {
    /// Whether the row is one that is refreshed: an allocation, or what is active in one.
    fn is_refreshed(&self) -> bool {
        self.kind == Kind::Allocation
            || self.is_at(Kind::Permission, Stage::Active)
            || self.is_at(Kind::Channel, Stage::Active)
    }

    /// How long before its expiry the row is refreshed: 60 s, or half of the first lifetime of an allocation
    /// if that is at most 120 s.
    fn ahead(&self) -> u64 {
        if self.kind == Kind::Allocation && self.lifetime <= 120 * SECOND {
            return self.lifetime / 2;
        }
        60 * SECOND
    }

    /// When the allocation ends at the latest if requests are timed from when they are sent: its first lifetime after its
    /// expiry, or 600 s after it.
    pub(crate) fn final_expiry(&self) -> u64 {
        self.until
            .saturating_add(self.lifetime.max(600 * SECOND))
            .min((1 << 63) - 1)
    }

    /// The expiry or the deadline to wait for. The past expiry of an allocation is none.
    fn end(&self, now: u64) -> Option<u64> {
        let is_awaited = match self.kind {
            Kind::Allocation => now < self.until,
            Kind::Permission | Kind::Channel => self.stage == Stage::Active,
            Kind::Connection => self.stage == Stage::Pending,
            Kind::Allocate | Kind::Connect | Kind::Offer => false,
        };
        if is_awaited { Some(self.until) } else { None }
    }

    /// The purpose of a refresh, if the expiry is not past.
    fn refresh(&self, now: u64) -> Option<Purpose> {
        match self.kind {
            Kind::Allocation if now <= self.until => {
                Some(Purpose::ForRefresh(family(self.peer), 1_800))
            }
            Kind::Channel if now < self.until => {
                Some(Purpose::ForChannel(number_of(self.key), address(self.peer)))
            }
            Kind::Permission if now < self.until => {
                Some(Purpose::ForPermission(address(self.peer).ip()))
            }
            _ => None,
        }
    }
}

impl Plain {
    /// When the row is to be refreshed: never while it is let go or a request for it is listed, or once its allocation is
    /// expired.
    fn refresh_time(&self, row: &Row) -> Option<u64> {
        let relay = self.find(Kind::Allocation, u32::from(is_ipv6(row.peer)));
        let is_in_use = relay.is_some_and(|relay| !relay.is_marked);
        if row.is_refreshed() && row.is_kept && is_in_use && !self.has_request(row) {
            return Some(row.until.saturating_sub(row.ahead()));
        }
        None
    }

    /// The earliest of the limit and the times at which a row expires or is refreshed, which is not before
    /// the pause ends.
    pub(crate) fn soonest(&self, limit: u64, now: u64, pause: u64) -> u64 {
        let mut least = limit;
        for row in &self.rows {
            if let Some(end) = row.end(now) {
                least = least.min(end);
            }
            if let Some(time) = self.refresh_time(row) {
                least = least.min(time.max(pause));
            }
        }
        least
    }

    /// The purpose of the first refresh that is due: allocation by allocation, and in each the allocation
    /// itself first, then its channels, then its permissions.
    pub(crate) fn first_refresh(&self, now: u64) -> Option<Purpose> {
        for relay in &self.rows {
            if relay.kind == Kind::Allocation && now <= relay.until {
                for kind in [Kind::Allocation, Kind::Channel, Kind::Permission] {
                    if let Some(purpose) = self.first_of(kind, relay, now) {
                        return Some(purpose);
                    }
                }
            }
        }
        None
    }

    /// The purpose of the first refresh of a row of this kind in the allocation.
    fn first_of(&self, kind: Kind, relay: &Row, now: u64) -> Option<Purpose> {
        for row in &self.rows {
            if row.kind == kind && is_in(relay, row) && self.is_due(row, now) {
                if let Some(purpose) = row.refresh(now) {
                    return Some(purpose);
                }
            }
        }
        None
    }

    /// Whether the row is to be refreshed at this time or was to be earlier.
    fn is_due(&self, row: &Row, now: u64) -> bool {
        self.refresh_time(row).is_some_and(|time| time <= now)
    }
}
