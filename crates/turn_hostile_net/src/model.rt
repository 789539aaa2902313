//! What the client may hold, by the signed responses that came through, and nothing else.

use crate::events::Events;
use crate::facts::{Fact, Facts};
use crate::fault::Fault;
use crate::marks::{Kept, Marks};
use crate::numbers::{KEPT, Numbers, PENDING};
use crate::offers::Offers;
use crate::packet::{Answer, Effect, Truth};
use crate::world::{Kind, SECOND, relayed};
use std::alloc::Global;
use std::net::{IpAddr, SocketAddr};
use turn_client_api::TurnEvent;
use turn_types::TransportType;

/// How long a permission lasts (RFC 8656, section 9).
const PERMISSION: u64 = 300 * SECOND;

/// How long a channel lasts (RFC 8656, section 12).
const CHANNEL: u64 = 600 * SECOND;

/// The least lifetime that a REFRESH is to bring, in seconds.
const MIN_LIFETIME: u32 = 600;

/// What the client may hold.
#[derive(Drop)]
pub struct Model {
    /// What was granted.
    pub facts: Facts,
    /// The events that may come.
    pub events: Events,
    /// The channel numbers that were requested.
    pub numbers: Numbers,
    /// What the caller keeps, and has let go.
    pub marks: Marks,
    /// The data connections that were offered.
    pub offers: Offers,
    /// The requests to which a signed response came through.
    answered: Vec<[u8; 12]>,
    /// The allocations are active at least until then, unless they are deleted; 0 if there are none.
    pub allocated: u64,
    /// How many signed successes came through.
    pub grants: u64,
}

impl Model {
    /// The model of a new client.
    ///
    /// # Errors
    ///
    /// If memory allocation fails.
    pub fn new(alloc: Global, kind: Kind) -> Result<Model, Fault> {
        Ok(Model {
            events: first_events(alloc, kind)?,
            facts: Facts::new(alloc),
            numbers: Numbers::new(alloc),
            marks: Marks::new(alloc),
            offers: Offers::new(alloc),
            answered: Vec::new(alloc),
            allocated: 0,
            grants: 0,
        })
    }

    /// A packet arrives now. Returns whether the client may process it.
    ///
    /// # Errors
    ///
    /// If memory allocation fails.
    pub fn believe(&mut self, kind: Kind, truth: Truth, now: u64) -> Result<bool, Fault> {
        match truth {
            Truth::Nothing => Ok(true),
            Truth::Offers(id, peer) => {
                if self.facts.has(Fact::Permitted(peer.ip())) {
                    self.offers.add(id, peer)?;
                }
                Ok(true)
            }
            Truth::Answers(answer) => {
                let is_first = self.deliver(kind, answer, now)?;
                Ok(is_first || !answer.counts_once)
            }
        }
    }

    /// The client has processed a packet. If that grants a channel, its number is the peer's for as long as the channel
    /// lasts, and five minutes more.
    pub fn settle(&mut self, truth: Truth, now: u64) {
        if let Truth::Answers(answer) = truth {
            self.marks.answer(answer.id);
            if let Effect::Bound(number, peer) = answer.effect {
                let until = now.saturating_add(KEPT).min(self.allocated);
                self.numbers.settle(number, peer, until);
            }
        }
    }

    /// A request that is sent now names this channel number and this peer. No call was later than `latest`. Returns whether
    /// the number may name the peer.
    ///
    /// # Errors
    ///
    /// If memory allocation fails.
    pub fn name(
        &mut self,
        number: u16,
        peer: SocketAddr,
        now: u64,
        latest: u64,
    ) -> Result<bool, Fault> {
        // Time may have gone back since the channel was requested.
        let until = self.allocated.min(now.saturating_add(PENDING));
        self.numbers.name(number, peer, latest, until)
    }

    /// A signed response comes through now. Returns whether it is the first one to its request: no other one counts.
    ///
    /// # Errors
    ///
    /// If memory allocation fails.
    fn deliver(&mut self, kind: Kind, answer: Answer, now: u64) -> Result<bool, Fault> {
        let id = answer.id;
        if is_listed(self.answered.as_slice(), id) {
            return Ok(false);
        }
        self.answered.push(id)?;
        if is_grant(answer.effect) {
            self.grants = self.grants.saturating_add(1);
        }
        self.apply(kind, answer.effect, now)?;
        Ok(true)
    }

    fn apply(&mut self, kind: Kind, effect: Effect, now: u64) -> Result<(), Fault> {
        match effect {
            Effect::Refused | Effect::Denied(_) | Effect::Challenged(..) => Ok(()),
            Effect::Allocated(seconds) => {
                let until = lasting(now, seconds);
                self.allocated = first_end(self.allocated, until);
                allocate(&mut self.facts, &mut self.events, kind, until)
            }
            Effect::Refreshed(seconds) => {
                if seconds >= MIN_LIFETIME {
                    self.refresh(lasting(now, seconds));
                }
                Ok(())
            }
            Effect::Permitted(ip) => {
                permit(&mut self.facts, &mut self.events, kind.relays, ip, now)
            }
            Effect::Bound(number, peer) => {
                bind(&mut self.facts, number, peer, now)?;
                self.events
                    .allow(TurnEvent::ChannelCreated(kind.relays, peer))?;
                permit(
                    &mut self.facts,
                    &mut self.events,
                    kind.relays,
                    peer.ip(),
                    now,
                )
            }
            Effect::ChannelRefused(number, peer) => {
                self.numbers.settle(number, peer, 0);
                Ok(())
            }
            Effect::Connected(id, peer) => self.offers.add(id, peer),
            Effect::ConnectionBound(end) => self.connect(end),
        }
    }

    fn refresh(&mut self, until: u64) {
        self.allocated = self.allocated.min(until);
        self.facts.prolong(until);
        self.numbers.shorten(until);
    }

    fn connect(&mut self, end: SocketAddr) -> Result<(), Fault> {
        let Some(peer) = self.offers.peer_at(end) else {
            return Ok(());
        };
        self.facts.add(Fact::Connection(end, peer), u64::MAX)?;
        self.facts.add(Fact::ConnectionTo(peer), u64::MAX)?;
        self.events.allow(TurnEvent::TcpConnected(peer))
    }

    /// A permission is requested, which may fail.
    ///
    /// # Errors
    ///
    /// If memory allocation fails.
    pub fn request_permission(&mut self, relays: TransportType, ip: IpAddr) -> Result<(), Fault> {
        self.marks.request(Kept::Permission(ip), 1)?;
        self.events
            .allow(TurnEvent::PermissionCreateFailed(relays, ip))
    }

    /// A channel is requested, and perhaps a permission with it: either may fail.
    ///
    /// # Errors
    ///
    /// If memory allocation fails.
    pub fn request_channel(
        &mut self,
        relays: TransportType,
        peer: SocketAddr,
        now: u64,
    ) -> Result<(), Fault> {
        self.numbers.request(peer, now)?;
        self.marks.request(Kept::Channel(peer), 1)?;
        self.marks.request(Kept::Permission(peer.ip()), 0)?;
        self.events
            .allow(TurnEvent::PermissionCreateFailed(relays, peer.ip()))?;
        self.events
            .allow(TurnEvent::ChannelCreateFailed(relays, peer))
    }

    /// The allocations were deleted. Channels that are pending may still be granted.
    pub fn delete(&mut self) {
        self.facts.clear();
        self.numbers.shorten(0);
        self.allocated = 0;
    }
}

/// The events of a client without any allocation.
fn first_events(alloc: Global, kind: Kind) -> Result<Events, Fault> {
    let mut events = Events::new(alloc);
    events.allow(TurnEvent::AllocationCreateFailed(kind.first))?;
    if let Some(family) = kind.second {
        events.allow(TurnEvent::AllocationCreateFailed(family))?;
    }
    Ok(events)
}

/// Whether a response with this effect is a success.
fn is_grant(effect: Effect) -> bool {
    !matches!(
        effect,
        Effect::Refused | Effect::Denied(_) | Effect::ChannelRefused(..)
    )
}

fn is_listed(ids: &[[u8; 12]], id: [u8; 12]) -> bool {
    for listed in ids {
        if *listed == id {
            return true;
        }
    }
    false
}

/// Until when allocations are active at least that are granted until then, after those before.
fn first_end(before: u64, until: u64) -> u64 {
    match before {
        0 => until,
        _ => before.min(until),
    }
}

fn allocate(facts: &mut Facts, events: &mut Events, kind: Kind, until: u64) -> Result<(), Fault> {
    let first = relayed(kind.first, 1);
    facts.add(Fact::Relayed(first), until)?;
    events.allow(TurnEvent::AllocationCreated(kind.relays, first))?;
    let Some(family) = kind.second else {
        return Ok(());
    };
    let second = relayed(family, 1);
    facts.add(Fact::Relayed(second), until)?;
    events.allow(TurnEvent::AllocationCreated(kind.relays, second))
}

fn permit(
    facts: &mut Facts,
    events: &mut Events,
    relays: TransportType,
    ip: IpAddr,
    now: u64,
) -> Result<(), Fault> {
    facts.add(Fact::Permitted(ip), now.saturating_add(PERMISSION))?;
    events.allow(TurnEvent::PermissionCreated(relays, ip))
}

fn bind(facts: &mut Facts, number: u16, peer: SocketAddr, now: u64) -> Result<(), Fault> {
    let until = now.saturating_add(CHANNEL);
    facts.add(Fact::Channel(number, peer), until)?;
    facts.add(Fact::ChannelTo(peer), until)
}

/// The time so many seconds from now.
fn lasting(now: u64, seconds: u32) -> u64 {
    now.saturating_add(u64::from(seconds).saturating_mul(SECOND))
}
