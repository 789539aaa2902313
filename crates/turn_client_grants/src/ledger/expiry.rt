//! What expires as time passes (RFC 8656, sections 8 to 12; RFC 6062, section 4.3). It allocates no
//! memory.

ghost use Rattle.std.specs.List.{list_any};
ghost use Rattle.std.specs.Prelude.{◌≡◌, ◌≤◌, ◌<◌, ◌+◌, None, filter, fold, length, not, option_to_list, true};
ghost use Rattle.turn_client_api.specs.Grants.{is_channel_of};
ghost use Rattle.turn_client_api.specs.Poll.{timed_out_purposes, allocation_expires, expired_at, expired_allocation, expired_in, last_channel_expired, refreshes_timed_out, set_free, unbound};
ghost use Rattle.turn_client_api.specs.State.{State};
ghost use Rattle.turn_client_grants.specs.Failures.{SparesReserved, event_room_for};
ghost use Rattle.turn_client_grants.specs.Expiry.{Becomes, channel_ended, expired_each};
ghost use Rattle.turn_client_grants.specs.Ledger.{SameRoomBut, with_ledger};
ghost use Rattle.turn_client_grants.specs.Table.{is_numbered};
ghost use Rattle.turn_client_grants.specs.GrantFilter.{holds, purposes_in};

use crate::due::final_expiry;
use crate::grant_filter::GrantFilter;
use crate::key::Key;
use crate::kind::family_of;
use crate::ledger::GrantLedger;
use crate::ledger::answer::RESERVED_SECONDS;
use crate::listed::has_request;
use crate::purposes::Purposes;
use crate::time::later;
use std::net::SocketAddr;
use turn_client_api::{Grant, Progress, Relay, TurnEvent};
use turn_stun::instant::Instant;
use turn_stun::transaction::TransactionId;
use turn_types::AddressFamily;

impl GrantLedger {
    /// Processes all that expires at this time or earlier, allocation by allocation in the order in which
    /// the server granted them, and the time-out of this request, if there is one.
    pub fn expire_grants(
        &mut self,
        timed_from_send: bool,
        timed_out: Option<TransactionId>,
        now: Instant,
    )
        ensures state { Becomes timed_from_send self.old self.new (expired_at timed_out now) }
        ensures room { SameRoomBut 0 0 self.old self.new }
    {
        match timed_out {
            Some(_) => self.expire_each(timed_from_send, timed_out, now),
            None => self.expire_by_time(timed_from_send, now),
        }
    }

    /// Processes all that expires at this time or earlier, if no request timed out. Before the earliest
    /// time at which a grant expires that is nothing.
    fn expire_by_time(&mut self, timed_from_send: bool, now: Instant)
        ensures state { Becomes timed_from_send self.old self.new (expired_at None now) }
        ensures room { SameRoomBut 0 0 self.old self.new }
    {
        let is_early = self.table.is_early(now);
        if is_early {
            return;
        }
        self.expire_each(timed_from_send, None, now);
    }

    /// The same, whether or not something is due.
    fn expire_each(&mut self, timed_from_send: bool, timed_out: Option<TransactionId>, now: Instant)
        ensures state { Becomes timed_from_send self.old self.new (expired_at timed_out now) }
        ensures room { SameRoomBut 0 0 self.old self.new }
    {
        let purposes = self.timed_out_purposes(&timed_out);
        let first = self.table.nth_allocation(0);
        let second = self.table.nth_allocation(1);
        self.expire_one(&first, timed_from_send, &timed_out, &purposes, now);
        self.expire_one(&second, timed_from_send, &timed_out, &purposes, now);
    }

    /// The purposes of the request that timed out, if there is one.
    fn timed_out_purposes(&self, timed_out: &Option<TransactionId>) -> Purposes
        ensures { (s : State) → purposes_in result ≡ timed_out_purposes timed_out.now (with_ledger self.now s) }
    {
        match timed_out {
            Some(id) => self.table.purposes_of(*id),
            None => Purposes::none(),
        }
    }

    /// Processes what expires in the allocation, if there is one.
    fn expire_one(
        &mut self,
        relay: &Option<Relay>,
        timed_from_send: bool,
        timed_out: &Option<TransactionId>,
        purposes: &Purposes,
        now: Instant,
    )
        ensures state { Becomes timed_from_send self.old self.new
            (λ s. expired_each timed_out.now (purposes_in purposes.now) now s (option_to_list relay.now)) }
        ensures room { SameRoomBut 0 0 self.old self.new }
    {
        match relay {
            Some(relay) => {
                self.expire_allocation(relay, timed_from_send, timed_out, purposes, now)
            }
            None => {}
        }
    }

    /// Removes the allocation with all grants in it, or processes what expires in it.
    fn expire_allocation(
        &mut self,
        relay: &Relay,
        timed_from_send: bool,
        timed_out: &Option<TransactionId>,
        purposes: &Purposes,
        now: Instant,
    )
        ensures state { Becomes timed_from_send self.old self.new
            (λ s. expired_allocation timed_out.now (purposes_in purposes.now) now s relay.now) }
        ensures room { SameRoomBut 0 0 self.old self.new }
    {
        let goes = self.allocation_expires(relay, timed_from_send, purposes, now);
        if goes {
            return self.remove(&GrantFilter::OfFamily(family_of(relay.relayed)));
        }
        self.expire_in(family_of(relay.relayed), timed_out, purposes, now);
    }

    /// Whether the allocation is removed: at its expiry, unless it is marked as expired and a request for
    /// it still awaits its response. If requests are timed from when they are sent, none is awaited past the final expiry: the
    /// caller may never take the request.
    fn allocation_expires(
        &self,
        relay: &Relay,
        timed_from_send: bool,
        purposes: &Purposes,
        now: Instant,
    ) -> bool
        ensures { (s : State) → s.config.timed_from_send ≡ timed_from_send
            → result ≡ allocation_expires (purposes_in purposes.now) now (with_ledger self.now s) relay.now }
    {
        let grant = Grant::Allocation(*relay);
        relay.expiry <= now
            && (purposes.are_for(&grant)
                || !has_request(self.table.listed(), &grant)
                || !relay.is_expired
                || final_expiry(relay) <= now && timed_from_send)
    }

    /// Processes what expires in the allocation of this family, which stays, from the inside out.
    fn expire_in(
        &mut self,
        family: AddressFamily,
        timed_out: &Option<TransactionId>,
        purposes: &Purposes,
        now: Instant,
    )
        ensures state { (s : State) → with_ledger self.new s ≡ expired_in family timed_out.now (purposes_in purposes.now) now (with_ledger self.old s) }
        ensures room { SameRoomBut 0 0 self.old self.new }
    {
        self.fail_front(&GrantFilter::PendingChannelsIn(family, *purposes));
        self.fail_front(&GrantFilter::PendingPermissionsIn(family, *purposes));
        self.expire_channel(family, now);
        self.fail_front(&GrantFilter::ExpiredPermissions(family, now));
        self.fail_front(&GrantFilter::ConnectsIn(family, *purposes));
        self.unbind(&GrantFilter::UnboundIn(family, now, *purposes));
        self.fail_front(&GrantFilter::OffersIn(family, *timed_out));
        self.set_free(family, purposes, now);
    }

    /// Removes the listings of the refreshes that timed out in the allocation of this family, so that they may be requested
    /// again, and the channels that are reserved no more.
    fn set_free(&mut self, family: AddressFamily, purposes: &Purposes, now: Instant)
        ensures state { (s : State) → with_ledger self.new s
            ≡ set_free family now (refreshes_timed_out family (purposes_in purposes.now) (with_ledger self.old s)) }
        ensures room { SameRoomBut 0 0 self.old self.new }
    {
        self.table.unlist(&GrantFilter::AskedIn(family, *purposes));
        self.table.remove(&GrantFilter::FreedChannels(family, now));
    }

    /// Ends the last channel of this family that expires at this time or earlier, one in each call: its
    /// failure is queued before all events, and its number and peer are reserved (RFC 8656, section 12).
    fn expire_channel(&mut self, family: AddressFamily, now: Instant)
        ensures state { (s : State) → with_ledger self.new s ≡ last_channel_expired family now (with_ledger self.old s) }
        ensures room { SameRoomBut 0 0 self.old self.new }
    {
        let Some(found) = self.table.last_expired_channel(family, now) else {
            return;
        };
        match &found {
            Grant::Channel(number, peer, progress) => match progress {
                Progress::Active(lease) => self.end_channel(*number, *peer, lease.expiry),
                Progress::Pending(_) => {}
                Progress::Reserved(_) => {}
            },
            Grant::Allocation(_) => {}
            Grant::Permission(_, _) => {}
            Grant::Connect(_) => {}
            Grant::Offer(_) => {}
            Grant::Connection(_) => {}
        }
    }

    /// Ends an existing active channel, and uses only its own room.
    fn end_channel(&mut self, number: u16, peer: SocketAddr, expiry: Instant)
        requires numbered { is_numbered (Grant.Channel number peer (Progress.Pending true)) ≡ true }
        requires there { list_any (is_channel_of number) self.old.grants ≡ true }
        requires fewer { length (filter (λ g. not (is_channel_of number g)) self.old.grants) < length self.old.grants }
        requires aside { event_room_for (filter (λ g. not (is_channel_of number g)) self.old.grants) + 1 ≤ event_room_for self.old.grants }
        ensures state { (s : State) → with_ledger self.new s ≡ channel_ended number peer expiry (with_ledger self.old s) }
        ensures room { SameRoomBut 0 0 self.old self.new }
    {
        let transport = self.transport();
        let until = later(expiry, RESERVED_SECONDS);
        self.table.replace(
            &Key::Number(number),
            &Grant::Channel(number, peer, Progress::Reserved(until)),
        );
        self.events
            .push_front_reserved(TurnEvent::ChannelCreateFailed(transport, peer));
    }

    /// Removes data connections that are not bound: their failures are queued before all events, and the
    /// caller is to close them after all others that it is to close.
    fn unbind(&mut self, which: &GrantFilter)
        requires { SparesReserved which.now }
        ensures state { (s : State) → with_ledger self.new s ≡ unbound (holds which.now) (with_ledger self.old s) }
        ensures room { SameRoomBut 0 0 self.old self.new }
    {
        self.table.closes_back(&mut self.closes, which);
        self.table
            .failures_front(&mut self.events, self.transport, which);
        self.table.remove(which);
    }
}
