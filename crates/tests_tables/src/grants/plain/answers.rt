//! What the server answers, and what the caller does, on plain lists.

use crate::grants::plain::{
    Asked, Kind, Plain, Reason, Reported, Row, SECOND, Stage, TRANSPORT, address, byte_of, family,
    is_ipv6,
};
use std::alloc::AllocError;
use turn_client_api::{Purpose, TurnEvent};

impl Plain {
    /// The server allocated this address, of two requested families.
    pub(crate) fn allocated(&mut self, n: u8, secs: u32, now: u64) -> Result<(), AllocError> {
        let mut row = Row::new(Kind::Allocation, u32::from(is_ipv6(n)), n);
        row.until = later(now, u64::from(secs));
        row.lifetime = u64::from(secs).saturating_mul(SECOND);
        self.unlist(Kind::Allocate, 0);
        self.add(&row)?;
        self.wait(TurnEvent::AllocationCreated(TRANSPORT, address(n)))?;
        self.wait(TurnEvent::AllocationCreateFailed(family(n.wrapping_add(4))))
    }

    /// The server answered for the permission of this peer.
    pub(crate) fn permission_answered(
        &mut self,
        peer: u8,
        is_granted: bool,
        now: u64,
    ) -> Result<(), AllocError> {
        let Some(row) = self.find(Kind::Permission, u32::from(peer)) else {
            return Ok(());
        };
        match row.stage {
            Stage::Pending if is_granted => {
                self.stands(&row, later(now, 300))?;
                self.wait(TurnEvent::PermissionCreated(TRANSPORT, address(peer).ip()))
            }
            Stage::Pending => self.drop_row(row.kind, row.key, Reported::Last),
            _ if is_granted => Ok(self.lasts(&row, later(now, 300))),
            _ => self.drop_row(row.kind, row.key, Reported::First),
        }
    }

    /// The pending row is moved to the end, and is active.
    fn stands(&mut self, row: &Row, until: u64) -> Result<(), AllocError> {
        let mut granted = *row;
        granted.stage = Stage::Active;
        granted.until = until;
        self.drop_row(row.kind, row.key, Reported::Never)?;
        self.add(&granted)
    }

    /// The row has a later expiry, and no request is listed for it any more.
    fn lasts(&mut self, row: &Row, until: u64) {
        let mut longer = *row;
        longer.until = until;
        self.unlist(row.kind, row.key);
        self.put(&longer);
    }

    /// The server answered for the channel with this number, in reply to a request with this ID.
    pub(crate) fn channel_answered(
        &mut self,
        number: u16,
        id: u8,
        is_granted: bool,
        now: u64,
    ) -> Result<(), AllocError> {
        let Some(row) = self.find(Kind::Channel, u32::from(number)) else {
            return Ok(());
        };
        match row.stage {
            Stage::Pending if is_granted => self.channel_granted(&row, id, now),
            Stage::Pending => self.channel_refused(&row, id),
            Stage::Active if is_granted => Ok(self.lasts(&row, later(now, 600))),
            Stage::Active => {
                self.reserves(&row)?;
                self.wait(TurnEvent::ChannelCreateFailed(TRANSPORT, address(row.peer)))
            }
            Stage::Reserved => Ok(()),
        }
    }

    /// The permissions of the same request are granted with the channel.
    fn channel_granted(&mut self, row: &Row, id: u8, now: u64) -> Result<(), AllocError> {
        let given = self.asked_by(id);
        if given.first.kind == Kind::Permission {
            self.permission_answered(byte_of(given.first.key), true, now)?;
        }
        if given.second.kind == Kind::Permission {
            self.permission_answered(byte_of(given.second.key), true, now)?;
        }
        self.stands(row, later(now, 600))?;
        self.wait(TurnEvent::ChannelCreated(TRANSPORT, address(row.peer)))
    }

    /// The pending permissions of the same request are removed with the channel.
    fn channel_refused(&mut self, row: &Row, id: u8) -> Result<(), AllocError> {
        let given = self.asked_by(id);
        self.drop_row(row.kind, row.key, Reported::Last)?;
        for other in self.rows.iter_mut() {
            other.goes = other.is_at(Kind::Permission, Stage::Pending) && given.names(other);
        }
        self.sweep(Reported::Last)
    }

    /// Neither the number nor the peer of an expired channel is bound for a while.
    pub(crate) fn reserves(&mut self, row: &Row) -> Result<(), AllocError> {
        let mut kept = *row;
        kept.stage = Stage::Reserved;
        kept.until = later(row.until, 300);
        self.drop_row(row.kind, row.key, Reported::Never)?;
        self.add(&kept)
    }

    /// The server answered the CONNECT to this peer, with a connection ID or an error.
    pub(crate) fn connect_answered(
        &mut self,
        peer: u8,
        number: Option<u32>,
    ) -> Result<(), AllocError> {
        self.drop_row(Kind::Connect, u32::from(peer), Reported::Never)?;
        match number {
            Some(number) => self.offered(number, peer, Reason::Own),
            None => self.wait(TurnEvent::TcpConnectFailed(address(peer))),
        }
    }

    /// Offers a data connection to the caller.
    pub(crate) fn offered(
        &mut self,
        number: u32,
        peer: u8,
        reason: Reason,
    ) -> Result<(), AllocError> {
        let mut row = Row::new(Kind::Offer, offer_key(number, peer), peer);
        row.reason = reason;
        self.add(&row)
    }

    /// Removes the first offer with this connection ID and peer.
    pub(crate) fn offer_taken(&mut self, number: u32, peer: u8) -> Result<(), AllocError> {
        let key = offer_key(number, peer);
        let mut is_taken = false;
        for row in self.rows.iter_mut() {
            row.goes = !is_taken && row.is(Kind::Offer, key);
            is_taken = is_taken || row.goes;
        }
        self.sweep(Reported::Never)
    }

    /// The caller opened a connection, which a request with this ID is to bind.
    pub(crate) fn opened(
        &mut self,
        number: u32,
        peer: u8,
        local: u8,
        id: u8,
        now: u64,
    ) -> Result<(), AllocError> {
        self.offer_taken(number, peer)?;
        let mut row = Row::new(Kind::Connection, u32::from(local), peer);
        row.until = now.saturating_add(39_500_000_000);
        self.add(&row)?;
        let purpose = Purpose::ForBind(address(local), address(peer), number);
        self.list(id, &row, purpose)
    }

    /// The server bound the connection from this local address.
    pub(crate) fn bound(&mut self, local: u8) -> Result<(), AllocError> {
        let Some(row) = self.find(Kind::Connection, u32::from(local)) else {
            return Ok(());
        };
        let mut bound = row;
        bound.stage = Stage::Active;
        self.unlist(row.kind, row.key);
        self.put(&bound);
        self.wait(TurnEvent::TcpConnected(address(row.peer)))
    }

    /// The server did not bind the connection, and the caller is to close its end.
    pub(crate) fn not_bound(&mut self, local: u8) -> Result<(), AllocError> {
        self.closes.push_back(address(local))?;
        self.drop_row(Kind::Connection, u32::from(local), Reported::Last)
    }

    /// The server is to bind the connection by a request with another ID.
    pub(crate) fn bound_again(
        &mut self,
        local: u8,
        id: u8,
        purpose: Purpose,
        now: u64,
    ) -> Result<(), AllocError> {
        let Some(row) = self.find(Kind::Connection, u32::from(local)) else {
            return Ok(());
        };
        let mut waits = row;
        waits.stage = Stage::Pending;
        waits.until = now.saturating_add(39_500_000_000);
        self.unlist(row.kind, row.key);
        self.put(&waits);
        self.list(id, &row, purpose)
    }

    /// Removes the connection from this local address, if there is one.
    pub(crate) fn gone(&mut self, local: u8) -> Result<(), AllocError> {
        if self.find(Kind::Connection, u32::from(local)).is_none() {
            return Ok(());
        }
        self.closes.push_front(address(local))?;
        self.drop_row(Kind::Connection, u32::from(local), Reported::Never)
    }

    /// The allocation of this family expires so many seconds from now.
    pub(crate) fn prolonged(&mut self, n: u8, secs: u32, now: u64) {
        if let Some(row) = self.find(Kind::Allocation, u32::from(is_ipv6(n))) {
            self.lasts(&row, later(now, u64::from(secs)));
        }
    }

    /// The allocation of this family is used no more.
    pub(crate) fn expired(&mut self, n: u8) {
        if let Some(row) = self.find(Kind::Allocation, u32::from(is_ipv6(n))) {
            let mut unused = row;
            unused.is_marked = true;
            self.put(&unused);
        }
    }

    /// A request with this ID deletes all allocations.
    pub(crate) fn delete_answered(&mut self, id: u8, now: u64) -> Result<(), AllocError> {
        for row in self.rows.iter_mut() {
            row.goes = row.is_at(Kind::Permission, Stage::Active)
                || row.is_at(Kind::Channel, Stage::Active);
        }
        self.sweep(Reported::Never)?;
        for row in self.rows.iter_mut() {
            if row.kind == Kind::Allocation {
                row.until = now;
                row.is_marked = true;
                self.asked.push(Asked {
                    id: id % 16,
                    kind: row.kind,
                    key: row.key,
                    purpose: Purpose::ForRefresh(family(row.peer), 0),
                })?;
            }
        }
        Ok(())
    }

    /// All that is listed for the first ID is listed for the second too.
    pub(crate) fn asked_again(&mut self, id: u8, fresh: u8) -> Result<(), AllocError> {
        let count = self.asked.len();
        for place in 0..count {
            let Some(asked) = self.asked.get(place) else {
                return Ok(());
            };
            let mut again = *asked;
            if again.id == id % 16 {
                again.id = fresh % 16;
                self.asked.push(again)?;
            }
        }
        Ok(())
    }
}

/// The time so many seconds later.
pub(crate) fn later(now: u64, secs: u64) -> u64 {
    now.saturating_add(secs.saturating_mul(SECOND))
}

/// What identifies an offer.
pub(crate) fn offer_key(number: u32, peer: u8) -> u32 {
    number.wrapping_mul(8).wrapping_add(u32::from(peer))
}
