//! The changes by the server's signed reply to a request (RFC 8656, sections 8.3, 10.3 and 12.3; RFC
//! 6062, section 4.3).

ghost use Rattle.std.specs.List.{list_any};
ghost use Rattle.std.specs.Prelude.{ℕ, ◌≡◌, ◌≤◌, ◌&&◌, false, fold, option_to_list, true, Bool};
ghost use Rattle.turn_client_api.specs.Effect.{active_channel_answered, active_permission_answered, channel_answered, connect_answered};
ghost use Rattle.turn_client_api.specs.Effect.{pending_channel_answered, pending_permission_answered, permission_answered, permission_answered_for};
ghost use Rattle.turn_client_api.specs.Effect.{listed_permissions_answered};
ghost use Rattle.turn_client_api.specs.Grants.{is_channel_of, is_permission_of};
ghost use Rattle.turn_client_api.specs.State.{State};
ghost use Rattle.turn_client_grants.specs.Answered.{permission_granted};
ghost use Rattle.turn_client_grants.specs.Keys.{is_open_to};
ghost use Rattle.turn_client_grants.specs.Ledger.{SameRoomBut, with_ledger};
ghost use Rattle.turn_client_grants.specs.Table.{is_numbered};

use crate::grant_filter::GrantFilter;
use crate::key::Key;
use crate::ledger::GrantLedger;
use crate::time::later;
use std::net::{IpAddr, SocketAddr};
use turn_client_api::{Grant, Lease, Progress, Purpose, TurnEvent};
use turn_stun::instant::Instant;
use turn_stun::transaction::TransactionId;

/// The lifetime of a permission, in seconds (RFC 8656, section 9).
const PERMISSION_SECONDS: u64 = 300;

/// The lifetime of a channel, in seconds (RFC 8656, section 12).
const CHANNEL_SECONDS: u64 = 600;

/// How long neither the number nor the peer of an expired channel is bound again, in seconds (RFC 8656,
/// section 12).
pub(crate) const RESERVED_SECONDS: u64 = 300;

impl GrantLedger {
    /// The server answered for the permission for this IP address. `reserve` makes room for the event:
    /// what is granted replaces what was pending.
    pub fn permission_answered(&mut self, ip: IpAddr, is_granted: bool, now: Instant)
        requires { 1 ≤ self.old.event_room }
        ensures state { (s : State) → with_ledger self.new s ≡ permission_answered ip is_granted now (with_ledger self.old s) }
        ensures room { SameRoomBut 0 1 self.old self.new }
    {
        let Some(progress) = self.table.permission_state(ip) else {
            return;
        };
        match progress {
            Progress::Pending(is_kept) => {
                self.pending_permission_answered(ip, is_kept, is_granted, now)
            }
            Progress::Active(_) => self.active_permission_answered(ip, is_granted, now),
            Progress::Reserved(_) => {}
        }
    }

    /// The server answered for a pending permission.
    fn pending_permission_answered(
        &mut self,
        ip: IpAddr,
        is_kept: bool,
        is_granted: bool,
        now: Instant,
    )
        requires there { list_any (is_permission_of ip) self.old.grants ≡ true }
        requires event_room { 1 ≤ self.old.event_room }
        ensures state { (s : State) → with_ledger self.new s ≡ pending_permission_answered ip is_kept is_granted now (with_ledger self.old s) }
        ensures room { SameRoomBut 0 1 self.old self.new }
    {
        let transport = self.transport();
        if is_granted {
            return self.permission_granted(ip, later(now, PERMISSION_SECONDS), is_kept);
        }
        self.remove(&GrantFilter::PermissionOf(ip));
        self.push_event(TurnEvent::PermissionCreateFailed(transport, ip));
    }

    /// A pending permission is active from now on, after all other grants.
    fn permission_granted(&mut self, ip: IpAddr, expiry: Instant, is_kept: bool)
        requires there { list_any (is_permission_of ip) self.old.grants ≡ true }
        requires event_room { 1 ≤ self.old.event_room }
        ensures state { (s : State) → with_ledger self.new s ≡ permission_granted ip expiry is_kept (with_ledger self.old s) }
        ensures room { SameRoomBut 0 1 self.old self.new }
    {
        let transport = self.transport();
        self.replace(
            &Key::Ip(ip),
            &Grant::Permission(ip, Progress::Active(Lease { expiry, is_kept })),
            TurnEvent::PermissionCreated(transport, ip),
        );
    }

    /// The server answered for an active permission that is refreshed.
    fn active_permission_answered(&mut self, ip: IpAddr, is_granted: bool, now: Instant)
        requires { 1 ≤ self.old.event_room }
        ensures state { (s : State) → with_ledger self.new s ≡ active_permission_answered ip is_granted now (with_ledger self.old s) }
        ensures room { SameRoomBut 0 1 self.old self.new }
    {
        let transport = self.transport();
        if is_granted {
            return self.renew(&GrantFilter::PermissionOf(ip), PERMISSION_SECONDS, now);
        }
        self.remove(&GrantFilter::PermissionOf(ip));
        self.push_event_front(TurnEvent::PermissionCreateFailed(transport, ip));
    }

    /// The server answered for the permission that the purpose names, if it names one.
    fn permission_answered_for(&mut self, purpose: &Purpose, is_granted: bool, now: Instant)
        requires { 1 ≤ self.old.event_room }
        ensures state { (s : State) → with_ledger self.new s ≡ permission_answered_for is_granted now (with_ledger self.old s) purpose.now }
        ensures room { SameRoomBut 0 1 self.old self.new }
    {
        match purpose {
            Purpose::ForPermission(ip) => self.permission_answered(*ip, is_granted, now),
            Purpose::ForAllocation => {}
            Purpose::ForRefresh(_, _) => {}
            Purpose::ForChannel(_, _) => {}
            Purpose::ForConnect(_) => {}
            Purpose::ForBind(_, _, _) => {}
        }
    }

    /// The server answered for the permission that the purpose names, if there is a purpose.
    fn permission_answered_for_one(
        &mut self,
        purpose: &Option<Purpose>,
        is_granted: bool,
        now: Instant,
    )
        requires { 1 ≤ self.old.event_room }
        ensures state { (s : State) → with_ledger self.new s
            ≡ fold (permission_answered_for is_granted now) (with_ledger self.old s) (option_to_list purpose.now) }
        ensures room { SameRoomBut 0 1 self.old self.new }
    {
        match purpose {
            Some(purpose) => self.permission_answered_for(purpose, is_granted, now),
            None => {}
        }
    }

    /// The server answered for the permissions that the request with this ID was made for.
    fn permissions_answered(&mut self, id: TransactionId, is_granted: bool, now: Instant)
        requires { 2 ≤ self.old.event_room }
        ensures state { (s : State) → with_ledger self.new s ≡ listed_permissions_answered id is_granted now (with_ledger self.old s) }
        ensures room { SameRoomBut 0 2 self.old self.new }
    {
        let purposes = self.table.purposes_of(id);
        self.permission_answered_for_one(&purposes.first, is_granted, now);
        self.permission_answered_for_one(&purposes.second, is_granted, now);
    }

    /// The server answered for the channel with this number, in reply to a request with this ID. The
    /// binding grants a permission too, if one was requested with it (RFC 8656, section 12.2), and the
    /// refusal of a pending channel removes it.
    pub fn channel_answered(
        &mut self,
        number: u16,
        id: TransactionId,
        is_granted: bool,
        now: Instant,
    )
        requires { 3 ≤ self.old.event_room }
        ensures state { (s : State) → with_ledger self.new s ≡ channel_answered number id is_granted now (with_ledger self.old s) }
        ensures room { SameRoomBut 0 3 self.old self.new }
    {
        let Some(peer) = self.table.channel_owner(number) else {
            return;
        };
        let Some(progress) = self.table.channel_progress(number) else {
            return;
        };
        match progress {
            Progress::Pending(is_kept) => {
                self.pending_channel_answered(number, peer, is_kept, id, is_granted, now)
            }
            Progress::Active(lease) => {
                self.active_channel_answered(number, peer, lease.expiry, is_granted, now)
            }
            Progress::Reserved(_) => {}
        }
    }

    /// The server answered for a pending channel to the peer.
    fn pending_channel_answered(
        &mut self,
        number: u16,
        peer: SocketAddr,
        is_kept: bool,
        id: TransactionId,
        is_granted: bool,
        now: Instant,
    )
        requires there { list_any (λ g. is_channel_of number g && is_open_to peer g) self.old.grants ≡ true }
        requires numbered { is_numbered (Grant.Channel number peer (Progress.Pending true)) ≡ true }
        requires event_room { 3 ≤ self.old.event_room }
        ensures state { (s : State) → with_ledger self.new s ≡ pending_channel_answered number peer is_kept id is_granted now (with_ledger self.old s) }
        ensures room { SameRoomBut 0 3 self.old self.new }
    {
        if is_granted {
            return self.channel_granted(number, peer, is_kept, id, now);
        }
        self.channel_refused(number, peer, id);
    }

    /// A pending channel is active from now on, after all other grants, and its permission too.
    fn channel_granted(
        &mut self,
        number: u16,
        peer: SocketAddr,
        is_kept: bool,
        id: TransactionId,
        now: Instant,
    )
        requires there { list_any (λ g. is_channel_of number g && is_open_to peer g) self.old.grants ≡ true }
        requires numbered { is_numbered (Grant.Channel number peer (Progress.Pending true)) ≡ true }
        requires event_room { 3 ≤ self.old.event_room }
        ensures state { (s : State) → with_ledger self.new s ≡ pending_channel_answered number peer is_kept id true now (with_ledger self.old s) }
        ensures room { SameRoomBut 0 3 self.old self.new }
    {
        let transport = self.transport();
        self.permissions_answered(id, true, now);
        self.replace(
            &Key::Number(number),
            &Grant::Channel(
                number,
                peer,
                Progress::Active(Lease {
                    expiry: later(now, CHANNEL_SECONDS),
                    is_kept,
                }),
            ),
            TurnEvent::ChannelCreated(transport, peer),
        );
    }

    /// A pending channel is refused, and so is the permission that was requested with it.
    fn channel_refused(&mut self, number: u16, peer: SocketAddr, id: TransactionId)
        requires { 3 ≤ self.old.event_room }
        ensures state { (s : State) (is_kept : Bool) (now : ℕ)
            → with_ledger self.new s ≡ pending_channel_answered number peer is_kept id false now (with_ledger self.old s) }
        ensures room { SameRoomBut 0 3 self.old self.new }
    {
        let transport = self.transport();
        let purposes = self.table.purposes_of(id);
        self.remove(&GrantFilter::ChannelOf(number));
        self.push_event(TurnEvent::ChannelCreateFailed(transport, peer));
        // Its pending permission goes too (our choice): no other response would answer it.
        self.fail_back(&GrantFilter::PendingPermissionsOf(purposes));
    }

    /// The server answered for an active channel to the peer that is refreshed.
    fn active_channel_answered(
        &mut self,
        number: u16,
        peer: SocketAddr,
        expiry: Instant,
        is_granted: bool,
        now: Instant,
    )
        requires there { list_any (is_channel_of number) self.old.grants ≡ true }
        requires numbered { is_numbered (Grant.Channel number peer (Progress.Pending true)) ≡ true }
        requires event_room { 3 ≤ self.old.event_room }
        ensures state { (s : State) → with_ledger self.new s ≡ active_channel_answered number peer expiry is_granted now (with_ledger self.old s) }
        ensures room { SameRoomBut 0 3 self.old self.new }
    {
        let transport = self.transport();
        if is_granted {
            return self.renew(&GrantFilter::ChannelOf(number), CHANNEL_SECONDS, now);
        }
        // Reserved as after its expiry (our choice): the server may keep the binding so long.
        self.replace(
            &Key::Number(number),
            &Grant::Channel(
                number,
                peer,
                Progress::Reserved(later(expiry, RESERVED_SECONDS)),
            ),
            TurnEvent::ChannelCreateFailed(transport, peer),
        );
    }
}
