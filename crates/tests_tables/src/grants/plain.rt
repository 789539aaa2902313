//! What a ledger should hold, as plain lists that are kept by hand.

pub(crate) mod answers;
pub(crate) mod expiries;
pub(crate) mod reads;
pub(crate) mod times;

use crate::grants::random::Draw;
use std::alloc::{AllocError, Global};
use std::collections::VecDeque;
use std::net::{IpAddr, Ipv4Addr, Ipv6Addr, SocketAddr};
use turn_client_api::{Purpose, TurnEvent};
use turn_stun::instant::Instant;
use turn_stun::transaction::TransactionId;
use turn_stun::transport::TransportType;
use turn_types::AddressFamily;

/// The transport over which the ledger of the test relays.
pub(crate) const TRANSPORT: TransportType = TransportType::Tcp;

/// The number of nanoseconds in a second.
pub(crate) const SECOND: u64 = 1_000_000_000;

/// One of eight addresses, the first four of IPv4.
pub(crate) fn address(n: u8) -> SocketAddr {
    let ip = if is_ipv6(n) {
        IpAddr::V6(Ipv6Addr::new(0x2001, 0xdb8, 0, 0, 0, 0, 0, u16::from(n)))
    } else {
        IpAddr::V4(Ipv4Addr::new(192, 0, 2, n))
    };
    SocketAddr::new(ip, 4_000)
}

/// Whether the address of this number is one of IPv6.
pub(crate) fn is_ipv6(n: u8) -> bool {
    n % 8 >= 4
}

/// The family of the address of this number.
pub(crate) fn family(n: u8) -> AddressFamily {
    if is_ipv6(n) {
        AddressFamily::IPV6
    } else {
        AddressFamily::IPV4
    }
}

/// The number of the address that identifies a row.
pub(crate) fn byte_of(key: u32) -> u8 {
    (key % 256) as u8
}

/// The channel number that identifies a row.
pub(crate) fn number_of(key: u32) -> u16 {
    (key % 0x1_0000) as u16
}

/// One of 16 transaction IDs.
pub(crate) fn id(n: u8) -> TransactionId {
    TransactionId::from_bytes([n % 16; 12])
}

/// So many nanoseconds after time zero.
pub(crate) fn at(nanos: u64) -> Instant {
    Instant::from_nanos(nanos)
}

/// What a row is, or what a request is for.
#[derive(Clone, Copy, PartialEq, Eq)]
pub(crate) enum Kind {
    Allocate,
    Allocation,
    Permission,
    Channel,
    Connect,
    Offer,
    Connection,
}

/// The progress of a row. A connection that waits to be bound is pending.
#[derive(Clone, Copy, PartialEq, Eq)]
pub(crate) enum Stage {
    Pending,
    Active,
    Reserved,
}

/// The origin of an offer.
#[derive(Clone, Copy, PartialEq, Eq)]
pub(crate) enum Reason {
    Own,
    Request(u8),
    Indication,
}

/// One grant. Addresses are numbers, times nanoseconds; a field that a kind does not use keeps its first
/// value.
#[derive(Clone, Copy)]
pub(crate) struct Row {
    pub(crate) kind: Kind,
    /// What identifies the row among those of its kind.
    pub(crate) key: u32,
    /// The peer, or the relayed address.
    pub(crate) peer: u8,
    pub(crate) stage: Stage,
    pub(crate) until: u64,
    /// The first lifetime of an allocation.
    pub(crate) lifetime: u64,
    /// An allocation is marked as expired, an offer as reported.
    pub(crate) is_marked: bool,
    pub(crate) reason: Reason,
    /// A permission or a channel was not let go.
    pub(crate) is_kept: bool,
    /// It is to be removed.
    pub(crate) goes: bool,
}

impl Row {
    /// A row that was just requested.
    pub(crate) fn new(kind: Kind, key: u32, peer: u8) -> Row {
        Row {
            kind,
            key,
            peer,
            stage: Stage::Pending,
            until: 0,
            lifetime: 0,
            is_marked: false,
            reason: Reason::Own,
            is_kept: true,
            goes: false,
        }
    }

    /// Whether the row has this kind and key.
    pub(crate) fn is(&self, kind: Kind, key: u32) -> bool {
        self.kind == kind && self.key == key
    }

    /// Whether the row has this kind and stage.
    pub(crate) fn is_at(&self, kind: Kind, stage: Stage) -> bool {
        self.kind == kind && self.stage == stage
    }
}

/// What one request is for, with the kind and key of the row.
#[derive(Clone, Copy)]
pub(crate) struct Asked {
    pub(crate) id: u8,
    pub(crate) kind: Kind,
    pub(crate) key: u32,
    pub(crate) purpose: Purpose,
}

/// Where the event of a failure is queued, if it is.
#[derive(Clone, Copy, PartialEq, Eq)]
pub(crate) enum Reported {
    First,
    Last,
    Never,
}

/// The lists, each in the order of the ledger.
#[derive(Drop)]
pub(crate) struct Plain {
    pub(crate) rows: Vec<Row>,
    pub(crate) asked: Vec<Asked>,
    pub(crate) events: VecDeque<TurnEvent>,
    pub(crate) closes: VecDeque<SocketAddr>,
}

impl Plain {
    pub(crate) fn new(alloc: Global) -> Plain {
        Plain {
            rows: Vec::new(alloc),
            asked: Vec::new(alloc),
            events: VecDeque::new(alloc),
            closes: VecDeque::new(alloc),
        }
    }

    /// The first row of this kind and key.
    pub(crate) fn find(&self, kind: Kind, key: u32) -> Option<Row> {
        for row in &self.rows {
            if row.is(kind, key) {
                return Some(*row);
            }
        }
        None
    }

    /// Lists a request with this ID for the row.
    pub(crate) fn list(&mut self, id: u8, row: &Row, purpose: Purpose) -> Result<(), AllocError> {
        self.asked.push(Asked {
            id: id % 16,
            kind: row.kind,
            key: row.key,
            purpose,
        })?;
        Ok(())
    }

    /// Removes the listings for the row.
    pub(crate) fn unlist(&mut self, kind: Kind, key: u32) {
        drop_listed(&mut self.asked, &Row::new(kind, key, 0));
    }

    /// Adds a pending grant, and lists the request of this draw for it.
    pub(crate) fn asks(
        &mut self,
        kind: Kind,
        key: u32,
        draw: &Draw,
        purpose: Purpose,
    ) -> Result<(), AllocError> {
        let row = Row::new(kind, key, draw.n % 8);
        self.add(&row)?;
        self.list(draw.m, &row, purpose)
    }

    /// The permission for this peer, or a channel that is not reserved, is kept or let go. Returns whether there is one.
    pub(crate) fn keeps(&mut self, kind: Kind, peer: u8, is_kept: bool) -> bool {
        let mut is_there = false;
        for row in self.rows.iter_mut() {
            if row.is_to(kind, peer) && row.stage != Stage::Reserved {
                row.is_kept = is_kept;
                is_there = true;
            }
        }
        is_there
    }

    /// Replaces the row of this kind and key by this one, in its place.
    pub(crate) fn put(&mut self, changed: &Row) {
        for row in self.rows.iter_mut() {
            if row.is(changed.kind, changed.key) {
                *row = *changed;
            }
        }
    }

    /// Queues an event after all others.
    pub(crate) fn wait(&mut self, event: TurnEvent) -> Result<(), AllocError> {
        self.events.push_back(event)?;
        Ok(())
    }

    /// Queues an event before all others.
    pub(crate) fn jump(&mut self, event: TurnEvent) -> Result<(), AllocError> {
        self.events.push_front(event)?;
        Ok(())
    }

    /// Adds a row after all others.
    pub(crate) fn add(&mut self, row: &Row) -> Result<(), AllocError> {
        self.rows.push(*row)?;
        Ok(())
    }

    /// Removes the rows that are marked for it, and what is listed for them.
    pub(crate) fn sweep(&mut self, reported: Reported) -> Result<(), AllocError> {
        for row in &self.rows {
            if row.goes {
                drop_listed(&mut self.asked, row);
                report_failure(&mut self.events, row, reported)?;
            }
        }
        self.rows.retain(|row| !row.goes);
        Ok(())
    }

    /// Removes all rows, without an event.
    pub(crate) fn clear(&mut self) -> Result<(), AllocError> {
        for row in self.rows.iter_mut() {
            row.goes = true;
        }
        self.sweep(Reported::Never)
    }

    /// Removes the row of this kind and key.
    pub(crate) fn drop_row(
        &mut self,
        kind: Kind,
        key: u32,
        reported: Reported,
    ) -> Result<(), AllocError> {
        for row in self.rows.iter_mut() {
            row.goes = row.is(kind, key);
        }
        self.sweep(reported)
    }
}

/// Removes the listings for the row.
pub(crate) fn drop_listed(asked: &mut Vec<Asked>, row: &Row) {
    asked.retain(|one| !row.is(one.kind, one.key));
}

/// Queues the failure of the row, if there is one.
fn report_failure(
    events: &mut VecDeque<TurnEvent>,
    row: &Row,
    reported: Reported,
) -> Result<(), AllocError> {
    let Some(event) = failure(row) else {
        return Ok(());
    };
    match reported {
        Reported::First => events.push_front(event)?,
        Reported::Last => events.push_back(event)?,
        Reported::Never => {}
    }
    Ok(())
}

/// The event of a row that failed.
fn failure(row: &Row) -> Option<TurnEvent> {
    let peer = address(row.peer);
    match row.kind {
        Kind::Allocate | Kind::Allocation => None,
        Kind::Permission => Some(TurnEvent::PermissionCreateFailed(TRANSPORT, peer.ip())),
        Kind::Channel => Some(TurnEvent::ChannelCreateFailed(TRANSPORT, peer)),
        Kind::Connect | Kind::Offer | Kind::Connection => Some(TurnEvent::TcpConnectFailed(peer)),
    }
}
