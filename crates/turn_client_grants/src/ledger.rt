//! The grants, with the events and the closes that result from them.

ghost use Rattle.std.specs.List.{list_any};
ghost use Rattle.std.specs.Prelude.{◌≡◌, ◌≤◌, ◌<◌, ◌+◌, ◌&&◌, ◌∷◌, ◌++◌, [], true, OnOk};
ghost use Rattle.turn_client_api.specs.Effect.{renewed};
ghost use Rattle.turn_client_api.specs.Grants.{find_allocation_to, failures_among, jump, unlisted, wait, with_grant, without_grants};
ghost use Rattle.turn_client_api.specs.Poll.{failed};
ghost use Rattle.turn_client_api.specs.State.{State, later_by, seconds};
ghost use Rattle.turn_client_grants.specs.Failures.{RoomIsEnough, SparesReserved};
ghost use Rattle.turn_client_grants.specs.Keys.{is_found_by};
ghost use Rattle.turn_client_grants.specs.declared.key.Key.{Key};
ghost use Rattle.turn_client_grants.specs.Ledger.{IsApart, SameRoomBut, with_ledger};
ghost use Rattle.turn_client_grants.specs.Table.{is_numbered};
ghost use Rattle.turn_client_grants.specs.GrantFilter.{holds};

use crate::grant_filter::GrantFilter;
use crate::key::Key;
use crate::kind::{family_of_ip, is_same_transport};
use crate::reads::connection_count;
use crate::room;
use crate::table::GrantTable;
use crate::time::later;
use std::alloc::{AllocError, Global};
use std::collections::VecDeque;
use std::marker::Model;
use std::net::{IpAddr, SocketAddr};
use turn_client_api::{Grant, Relay, TurnEvent};
use turn_stun::instant::Instant;
use turn_stun::transport::TransportType;

mod allocate;
mod answer;
mod ask;
mod connect;
mod data;
mod expiry;
mod keep;
mod poll;
mod read;

/// The grants of a client, what its requests were made for, the events that are queued, and the local
/// addresses of the data connections that the caller is to close.
///
/// Room for the events and closes that may yet result from a grant is reserved when the grant is added,
/// so that no expiry allocates memory.
#[derive(Debug, Drop)]
pub struct GrantLedger {
    transport: TransportType,
    table: GrantTable,
    events: VecDeque<TurnEvent>,
    closes: VecDeque<SocketAddr>,
}

impl Model for GrantLedger {
    ghost use Rattle.std.specs.Prelude.{◌+◌, ◌-◌, ◌≤◌};
    ghost use Rattle.std.specs.VecDeque.{deque_capacity, deque_len};
    ghost use Rattle.turn_client_grants.specs.Failures.{HasRoomFor, close_room_for, event_room_for};
    ghost use Rattle.turn_client_grants.specs.Ledger.{Ledger};

    ghost Value = { Ledger };

    ghost view = { λ l. record {
      transport = l.transport;
      grants = l.table.grants;
      listed = l.table.listed;
      events = l.events.items;
      closes = l.closes.items;
      grant_room = l.table.grant_room;
      listing_room = l.table.listing_room;
      event_room = deque_capacity l.events - (deque_len l.events + event_room_for l.table.grants);
      close_room = deque_capacity l.closes - (deque_len l.closes + close_room_for l.table.grants);
    } };

    ghost invariant = { λ l. HasRoomFor l.table.grants (deque_len l.events) (deque_capacity l.events) (deque_len l.closes) (deque_capacity l.closes) };
}

impl GrantLedger {
    /// An empty ledger. `transport` is the transport over which the server relays.
    pub fn new(transport: TransportType, alloc: Global) -> GrantLedger
        ensures transport { result.transport ≡ transport }
        ensures grants { result.grants ≡ [] }
        ensures listed { result.listed ≡ [] }
        ensures events { result.events ≡ [] }
        ensures closes { result.closes ≡ [] }
    {
        GrantLedger {
            transport,
            table: GrantTable::new(alloc),
            events: VecDeque::new(alloc),
            closes: VecDeque::new(alloc),
        }
    }

    /// The transport over which the server relays, between a relayed address and the peers.
    pub fn transport(&self) -> TransportType
        ensures { result ≡ self.now.transport }
    {
        self.transport
    }

    /// The allocation that relays over this transport to this IP address, expired or not.
    #[inline(always)]
    pub fn find_allocation_to(&self, transport: TransportType, ip: IpAddr) -> Option<Relay>
        ensures { (s : State) → result ≡ find_allocation_to transport ip (with_ledger self.now s) }
    {
        let is_relayed = is_same_transport(transport, self.transport);
        if is_relayed {
            return self.table.find_allocation(family_of_ip(ip));
        }
        None
    }

    /// The grants and the requests, for reading.
    pub fn table(&self) -> &GrantTable
        ensures grants { result.now.grants ≡ self.now.grants }
        ensures listed { result.now.listed ≡ self.now.listed }
    {
        &self.table
    }

    /// Makes room for so many grants, for so many listings, for so many events beside those that may result from the grants,
    /// and for so many closes: one for each data connection among the grants.
    ///
    /// # Errors
    ///
    /// `AllocError` if memory allocation fails. The contents are unchanged then, and no room is lost.
    pub fn reserve(
        &mut self,
        grants: usize,
        listings: usize,
        events: usize,
        closes: usize,
    ) -> Result<(), AllocError>
        ensures same { (s : State) → with_ledger self.new s ≡ with_ledger self.old s }
        ensures grant_room { OnOk result (grants ≤ self.new.grant_room) }
        ensures listing_room { OnOk result (listings ≤ self.new.listing_room) }
        ensures event_room { OnOk result (grants + events ≤ self.new.event_room) }
        ensures close_room { OnOk result (closes ≤ self.new.close_room) }
        ensures room { SameRoomBut 0 0 self.old self.new }
    {
        let Some(all) = self.table.count().checked_add(grants) else {
            return Err(AllocError);
        };
        let Some(all_events) = all.checked_add(events) else {
            return Err(AllocError);
        };
        self.table.reserve(grants, listings)?;
        room::reserve_queue(&mut self.events, all_events)?;
        if closes == 0 {
            return Ok(());
        }
        let Some(all_closes) = connection_count(self.table.grants()).checked_add(closes) else {
            return Err(AllocError);
        };
        room::reserve_queue(&mut self.closes, all_closes)
    }

    /// Gives back the room for listings, if no request is listed. Allocates no memory.
    pub fn give_back(&mut self)
        ensures state { (s : State) → with_ledger self.new s ≡ with_ledger self.old s }
        ensures given_back { self.old.listed ≡ [] → self.new.listing_room ≡ 0 }
        ensures grant_room { self.new.grant_room ≡ self.old.grant_room }
        ensures event_room { self.new.event_room ≡ self.old.event_room }
        ensures close_room { self.new.close_room ≡ self.old.close_room }
    {
        let is_idle = self.table.listed().is_empty();
        if is_idle {
            self.table.give_back();
        }
    }
}

impl GrantLedger {
    /// Queues this event after all others.
    pub fn push_event(&mut self, event: TurnEvent)
        requires { 0 < self.old.event_room }
        ensures state { (s : State) → with_ledger self.new s ≡ wait (event ∷ []) (with_ledger self.old s) }
        ensures room { SameRoomBut 0 1 self.old self.new }
    {
        self.events.push_back_reserved(event);
    }

    /// Queues this event before all others.
    pub fn push_event_front(&mut self, event: TurnEvent)
        requires { 0 < self.old.event_room }
        ensures state { (s : State) → with_ledger self.new s ≡ jump (event ∷ []) (with_ledger self.old s) }
        ensures room { SameRoomBut 0 1 self.old self.new }
    {
        // Of several, the last is polled first (our choice): one rule serves one event and several.
        self.events.push_front_reserved(event);
    }

    /// Removes these grants, without an event.
    fn remove(&mut self, which: &GrantFilter)
        ensures state { (s : State) → with_ledger self.new s ≡ without_grants (holds which.now) (with_ledger self.old s) }
        ensures room { SameRoomBut 0 0 self.old self.new }
    {
        self.table.remove(which);
    }

    /// Removes these grants, and queues their failures after all events.
    fn fail_back(&mut self, which: &GrantFilter)
        requires { SparesReserved which.now }
        ensures state { (s : State) → with_ledger self.new s
            ≡ wait (failures_among (holds which.now) (with_ledger self.old s)) (without_grants (holds which.now) (with_ledger self.old s)) }
        ensures room { SameRoomBut 0 0 self.old self.new }
    {
        self.table
            .failures_back(&mut self.events, self.transport, which);
        self.table.remove(which);
    }

    /// Removes these grants, and queues their failures before all events, each before the previous one.
    fn fail_front(&mut self, which: &GrantFilter)
        requires { SparesReserved which.now }
        ensures state { (s : State) → with_ledger self.new s ≡ failed (holds which.now) (with_ledger self.old s) }
        ensures room { SameRoomBut 0 0 self.old self.new }
    {
        self.table
            .failures_front(&mut self.events, self.transport, which);
        self.table.remove(which);
    }

    /// The active ones of these grants last so many seconds from now on, and no request is listed for
    /// them any more.
    fn renew(&mut self, which: &GrantFilter, secs: u64, now: Instant)
        ensures state { (s : State) → with_ledger self.new s
            ≡ renewed (holds which.now) (later_by (seconds secs) now) (unlisted (holds which.now) (with_ledger self.old s)) }
        ensures room { SameRoomBut 0 0 self.old self.new }
    {
        self.table.renew(which, later(now, secs));
    }

    /// Replaces the grant that this key finds by another one, after all others, and queues this event
    /// after all others. It uses no room for grants, and the room for events that may result from the old
    /// grant is left to the new one.
    fn replace(&mut self, key: &Key, grant: &Grant, event: TurnEvent)
        requires numbered { is_numbered grant.now ≡ true }
        requires apart { IsApart grant.now }
        requires there { list_any (is_found_by key.now) self.old.grants ≡ true }
        // Each key that finds the new grant finds the old one.
        requires keyed { (k : Key) → is_found_by k grant.now ≡ true → list_any (λ g. is_found_by key.now g && is_found_by k g) self.old.grants ≡ true }
        requires weighs { RoomIsEnough (is_found_by key.now) self.old.grants grant.now }
        requires event_room { 1 ≤ self.old.event_room }
        ensures state { (s : State) → with_ledger self.new s
            ≡ wait (event ∷ []) (with_grant grant.now (without_grants (is_found_by key.now) (with_ledger self.old s))) }
        ensures room { SameRoomBut 0 1 self.old self.new }
    {
        self.table.replace(key, grant);
        self.push_event(event);
    }
}
