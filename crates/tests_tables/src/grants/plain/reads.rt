//! What is read from plain lists.

use crate::grants::plain::answers::offer_key;
use crate::grants::plain::{
    Kind, Plain, Reason, Row, Stage, address, at, byte_of, id, is_ipv6, number_of,
};
use std::net::SocketAddr;
use turn_client_api::{DataConnection, DataOffer, Grant, Lease, Origin, Progress, Purpose, Relay};
use turn_stun::instant::Instant;

impl Row {
    /// The progress of the row.
    fn progress(&self) -> Progress {
        match self.stage {
            Stage::Pending => Progress::Pending(self.is_kept),
            Stage::Active => Progress::Active(Lease {
                expiry: at(self.until),
                is_kept: self.is_kept,
            }),
            Stage::Reserved => Progress::Reserved(at(self.until)),
        }
    }

    /// The allocation that the row is.
    pub(crate) fn relay(&self) -> Relay {
        Relay {
            relayed: address(self.peer),
            first_lifetime: self.lifetime,
            expiry: at(self.until),
            is_expired: self.is_marked,
        }
    }

    /// The data connection that the row is.
    fn connection(&self) -> DataConnection {
        let deadline = match self.stage {
            Stage::Pending => Some(at(self.until)),
            _ => None,
        };
        DataConnection {
            local: address(byte_of(self.key)),
            peer: address(self.peer),
            deadline,
        }
    }

    /// The origin of the offer that the row is.
    fn origin(&self) -> Origin {
        match self.reason {
            Reason::Own => Origin::OwnConnect,
            Reason::Request(request) => Origin::ServerRequest(id(request)),
            Reason::Indication => Origin::ServerIndication,
        }
    }

    /// The grant that the row is.
    pub(crate) fn grant(&self) -> Grant {
        let peer = address(self.peer);
        match self.kind {
            Kind::Allocate | Kind::Allocation => Grant::Allocation(self.relay()),
            Kind::Permission => Grant::Permission(peer.ip(), self.progress()),
            Kind::Channel => Grant::Channel(number_of(self.key), peer, self.progress()),
            Kind::Connect => Grant::Connect(peer),
            Kind::Offer => Grant::Offer(offer_of(self)),
            Kind::Connection => Grant::Connection(self.connection()),
        }
    }

    /// Whether the row is an allocation that is not expired.
    pub(crate) fn is_relay(&self) -> bool {
        self.kind == Kind::Allocation && !self.is_marked
    }

    /// Whether the row is an active permission for a peer over IPv6, or over IPv4.
    pub(crate) fn permits(&self, over_ipv6: bool) -> bool {
        self.is_at(Kind::Permission, Stage::Active) && is_ipv6(self.peer) == over_ipv6
    }

    /// Whether the row has this kind and this peer.
    pub(crate) fn is_to(&self, kind: Kind, peer: u8) -> bool {
        self.kind == kind && self.peer == peer
    }
}

impl Plain {
    /// The row at this place, modulo the number of rows.
    pub(crate) fn row_of(&self, n: u8) -> Option<Row> {
        let count = self.rows.len();
        if count == 0 {
            return None;
        }
        self.rows.get(usize::from(n) % count).map(|row| *row)
    }

    /// Whether there are few offers, so that the test takes no longer than it has to.
    pub(crate) fn has_few_offers(&self) -> bool {
        let mut count = 0usize;
        for row in &self.rows {
            if row.kind == Kind::Offer {
                count = count.saturating_add(1);
            }
        }
        count < 4
    }

    /// Whether an allocation that is not expired has this address.
    pub(crate) fn has_relayed(&self, n: u8) -> bool {
        self.rows
            .iter()
            .any(|row| row.is_to(Kind::Allocation, n) && !row.is_marked)
    }

    pub(crate) fn relay(&self, n: u8) -> Option<Relay> {
        self.find(Kind::Allocation, u32::from(is_ipv6(n)))
            .map(|row| row.relay())
    }

    pub(crate) fn permission(&self, peer: u8) -> Option<Progress> {
        self.find(Kind::Permission, u32::from(peer))
            .map(|row| row.progress())
    }

    /// Whether the peer has an active permission.
    pub(crate) fn has_active_permission(&self, peer: u8) -> bool {
        self.find(Kind::Permission, u32::from(peer))
            .is_some_and(|row| row.stage == Stage::Active)
    }

    /// Whether the peer has an active permission in an allocation that is not expired.
    pub(crate) fn may_send(&self, peer: u8) -> bool {
        self.has_active_permission(peer)
            && self
                .find(Kind::Allocation, u32::from(is_ipv6(peer)))
                .is_some_and(|row| !row.is_marked)
    }

    /// The allocation at this place of the two.
    pub(crate) fn nth_allocation(&self, place: usize) -> Option<Relay> {
        let mut left = place;
        for row in &self.rows {
            if row.kind == Kind::Allocation {
                if left == 0 {
                    return Some(row.relay());
                }
                left = left.saturating_sub(1);
            }
        }
        None
    }

    /// The peer of the channel with this number.
    pub(crate) fn owner(&self, number: u16) -> Option<SocketAddr> {
        self.find(Kind::Channel, u32::from(number))
            .map(|row| address(row.peer))
    }

    /// The peer of the active channel with this number.
    pub(crate) fn active_owner(&self, number: u16) -> Option<SocketAddr> {
        match self.find(Kind::Channel, u32::from(number)) {
            Some(row) if row.stage == Stage::Active => Some(address(row.peer)),
            _ => None,
        }
    }

    pub(crate) fn channel(&self, number: u16) -> Option<Progress> {
        self.find(Kind::Channel, u32::from(number))
            .map(|row| row.progress())
    }

    /// Whether a channel to the peer is pending or active.
    pub(crate) fn has_channel(&self, peer: u8) -> bool {
        self.rows.iter().any(|row| row.is_to(Kind::Channel, peer) && row.stage != Stage::Reserved)
    }

    /// The number of the first active channel to the peer, and its expiry.
    pub(crate) fn active_channel(&self, peer: u8) -> Option<(u16, Instant)> {
        for row in &self.rows {
            if row.is_to(Kind::Channel, peer) && row.stage == Stage::Active {
                return Some((number_of(row.key), at(row.until)));
            }
        }
        None
    }

    /// Until when a reserved channel keeps the peer from being bound.
    pub(crate) fn reserved_until(&self, peer: u8, now: u64) -> Option<Instant> {
        for row in &self.rows {
            if row.is_to(Kind::Channel, peer) && row.stage == Stage::Reserved && now <= row.until {
                return Some(at(row.until));
            }
        }
        None
    }

    /// The least number that no channel has.
    pub(crate) fn free_number(&self) -> Option<u16> {
        for number in 0x4000..0x5000u16 {
            if self.find(Kind::Channel, u32::from(number)).is_none() {
                return Some(number);
            }
        }
        None
    }

    pub(crate) fn connection(&self, local: u8) -> Option<DataConnection> {
        self.find(Kind::Connection, u32::from(local))
            .map(|row| row.connection())
    }

    /// The first connection to the peer that is bound.
    pub(crate) fn bound_connection(&self, peer: u8) -> Option<DataConnection> {
        for row in &self.rows {
            if row.is_to(Kind::Connection, peer) && row.stage == Stage::Active {
                return Some(row.connection());
            }
        }
        None
    }

    pub(crate) fn is_connected(&self, peer: u8) -> bool {
        self.rows.iter().any(|row| row.is_to(Kind::Connection, peer)
            || row.is_to(Kind::Offer, peer))
    }

    pub(crate) fn is_connecting(&self, peer: u8) -> bool {
        self.find(Kind::Connect, u32::from(peer)).is_some()
    }

    pub(crate) fn origin(&self, number: u32, peer: u8) -> Option<Origin> {
        self.find(Kind::Offer, offer_key(number, peer))
            .map(|row| row.origin())
    }

    /// The offer that is reported next.
    pub(crate) fn next_offer(&self) -> Option<Row> {
        let Some(first) = self.first_allocation() else {
            return None;
        };
        if let Some(offer) = self.unreported(is_ipv6(first.peer)) {
            return Some(offer);
        }
        if self.find(Kind::Allocation, 1 - first.key.min(1)).is_none() {
            return None;
        }
        self.unreported(!is_ipv6(first.peer))
    }

    /// The first offer over IPv6, or over IPv4, that was not reported.
    fn unreported(&self, over_ipv6: bool) -> Option<Row> {
        for row in &self.rows {
            if row.kind == Kind::Offer && !row.is_marked && is_ipv6(row.peer) == over_ipv6 {
                return Some(*row);
            }
        }
        None
    }

    /// Marks the next offer as reported.
    pub(crate) fn reported(&mut self) {
        let Some(next) = self.next_offer() else {
            return;
        };
        let mut is_reported = false;
        for row in self.rows.iter_mut() {
            if !is_reported && !row.is_marked && row.is(Kind::Offer, next.key) {
                row.is_marked = true;
                is_reported = true;
            }
        }
    }

    pub(crate) fn indicated_count(&self) -> usize {
        let mut count = 0usize;
        for row in &self.rows {
            if row.kind == Kind::Offer && row.reason == Reason::Indication {
                count = count.saturating_add(1);
            }
        }
        count
    }

    /// Whether a request with this ID is listed.
    pub(crate) fn is_asked(&self, id: u8) -> bool {
        self.asked.iter().any(|asked| asked.id == id % 16)
    }

    /// The ID of the first request that is to bind the connection from this local address.
    pub(crate) fn binds_by(&self, local: u8) -> Option<u8> {
        for asked in &self.asked {
            if asked.kind == Kind::Connection && asked.key == u32::from(local) {
                return Some(asked.id);
            }
        }
        None
    }

    /// Whether a request with this ID is listed, or the server made an offer by one with this ID.
    pub(crate) fn is_listed(&self, id: u8) -> bool {
        self.is_asked(id)
            || self.rows.iter().any(|row| row.kind == Kind::Offer
                && row.reason == Reason::Request(id % 16))
    }

    /// The purpose of the request with this ID to bind the connection from this local address.
    pub(crate) fn bind_purpose(&self, id: u8, local: u8) -> Option<Purpose> {
        for asked in &self.asked {
            let is_bind = asked.kind == Kind::Connection && asked.key == u32::from(local);
            if is_bind && asked.id == id % 16 {
                return Some(asked.purpose);
            }
        }
        None
    }

    /// The purpose at this place of those that the request with this ID was made for.
    pub(crate) fn purpose(&self, id: u8, place: usize) -> Option<Purpose> {
        let mut left = place;
        for asked in &self.asked {
            if asked.id == id % 16 {
                if left == 0 {
                    return Some(asked.purpose);
                }
                left = left.saturating_sub(1);
            }
        }
        None
    }
}

/// The offer that the row is.
pub(crate) fn offer_of(row: &Row) -> DataOffer {
    DataOffer {
        connection_id: row.key / 8,
        peer: address(row.peer),
        is_reported: row.is_marked,
        origin: row.origin(),
    }
}
