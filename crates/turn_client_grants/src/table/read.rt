//! What is read from a table.

ghost use Rattle.std.specs.Prelude.{◌≡◌, ℕ, ◌==◌, ◌<◌, ◌&&◌, ◌||◌, All, map, filter, filter_map, find, fold, length, min, nat_le, nat_lt, not, option_map};
ghost use Rattle.std.specs.Prelude.{option_copied, option_to_list, reverse, slice_get, false, true, IfSome};
ghost use Rattle.std.specs.Duration.{as_nanos};
ghost use Rattle.std.specs.List.{list_all, list_any};
ghost use Rattle.turn_agent.specs.Agent.{same_address};
ghost use Rattle.turn_client_api.specs.Addresses.{permitted_left, permitted_in_use};
ghost use Rattle.turn_client_api.specs.Calls.{active_channel, is_in_progress, is_open_to, progress_to, reserved_from};
ghost use Rattle.turn_client_api.specs.Grants.{find_allocation, allocations, channel_at, channel_peer, as_allocation, first_in};
ghost use Rattle.turn_client_api.specs.Grants.{is_channel_of, is_of, is_of_family, is_of_request, is_permission_of, has_active_permission, permission_progress};
ghost use Rattle.turn_client_api.specs.Judgement.{is_bind_of};
ghost use Rattle.turn_client_api.specs.Poll.{is_expired_channel, next_offer};
ghost use Rattle.turn_client_api.specs.State.{State};
ghost use Rattle.turn_client_api.specs.declared.grant.Grant.TheVariants.{Channel};
ghost use Rattle.turn_client_api.specs.declared.grant.Progress.TheVariants.{Pending};
ghost use Rattle.turn_client_api.specs.declared.state.Phase.TheVariants.{Allocated};
ghost use Rattle.turn_client_grants.specs.Due.{all_times, relay_ends};
ghost use Rattle.turn_client_api.specs.Due.{expiry_times, final_times};
ghost use Rattle.turn_client_grants.specs.Lists.{both_of, first_among, with_ahead};
ghost use Rattle.turn_client_grants.specs.NextPermission.{next_permitted};
ghost use Rattle.turn_client_grants.specs.Refresh.{first_refresh};
ghost use Rattle.turn_client_grants.specs.Table.{is_numbered, with_table};
ghost use Rattle.turn_client_grants.specs.GrantFilter.{purposes_in};

use crate::due::{after_pause, final_expiry, least};
use crate::index::FEW;
use crate::key::Key;
use crate::kind::{is_of, is_of_family};
use crate::past_expiry::is_expired_channel;
use crate::purposes::Purposes;
use crate::summary::refresh_of;
use crate::table::GrantTable;
use crate::table::connections::has_of_request;
use crate::{offers, reads, refresh};
use std::net::{IpAddr, SocketAddr};
use std::time::Duration;
use turn_client_api::{
    DataOffer, Grant, Listing, PermissionAddressesIter, Progress, Purpose, Relay,
};
use turn_stun::instant::Instant;
use turn_stun::transaction::TransactionId;
use turn_types::AddressFamily;

impl GrantTable {
    /// The grants in their order.
    pub(crate) fn grants(&self) -> &[Grant]
        ensures { result.now ≡ self.now.grants }
    {
        self.grants.as_slice()
    }

    /// What the requests were made for, in the order of the requests.
    pub(crate) fn listed(&self) -> &[Listing]
        ensures { result.now ≡ self.now.listed }
    {
        self.listed.as_slice()
    }

    /// The allocation of this family, whether or not it is expired.
    #[inline(always)]
    pub fn find_allocation(&self, family: AddressFamily) -> Option<Relay>
        ensures { (s : State) → result ≡ find_allocation family (with_table self.now s) }
    {
        match relay_of(&self.summary.first, family) {
            Some(relay) => Some(relay),
            None => relay_of(&self.summary.second, family),
        }
    }

    /// The allocation at this place, 0 or 1, in the order in which the server granted them. There are at
    /// most two, one of each address family.
    pub fn nth_allocation(&self, place: usize) -> Option<Relay>
        ensures found { result ≡ slice_get (filter_map as_allocation self.now.grants) place }
        ensures both { filter_map as_allocation self.now.grants ≡ both_of (filter_map as_allocation self.now.grants) }
    {
        match place {
            0 => self.summary.first,
            1 => self.summary.second,
            _ => reads::nth_allocation(self.grants.as_slice(), place),
        }
    }

    /// Whether an allocation that is not expired has this relayed address.
    pub fn has_relayed(&self, relayed: SocketAddr) -> bool
        ensures { result ≡ list_any (λ a. same_address a.relayed relayed) (filter (λ a. not a.is_expired) (filter_map as_allocation self.now.grants)) }
    {
        let grants = self.grants.as_slice();
        for grant in grants {
            if let Grant::Allocation(relay) = grant {
                if !relay.is_expired && relay.relayed == relayed {
                    return true;
                }
            }
        }
        false
    }

    /// The last channel of this family that is active and expires at this time or earlier.
    pub(crate) fn last_expired_channel(&self, family: AddressFamily, now: Instant) -> Option<Grant>
        ensures found { result ≡ find (λ g. is_of family g && is_expired_channel now g) (reverse self.now.grants) }
        ensures numbers { list_all is_numbered self.now.grants ≡ true }
    {
        let grants = self.grants.as_slice();
        let mut last = None;
        for grant in grants {
            if is_expired_in(grant, family, now) {
                last = Some(*grant);
            }
        }
        last
    }

    /// The IP addresses of this family with an active permission, in the order in which the server
    /// granted them (RFC 8656, section 9).
    pub fn permitted_addresses(&self, family: AddressFamily) -> PermissionAddressesIter<'_>
        ensures { permitted_left result ≡ permitted_in_use family self.now.grants }
    {
        PermissionAddressesIter::new(family, self.grants.as_slice())
    }

    /// The first of these addresses that is granted at this position among all grants or behind it, and the
    /// position behind that grant.
    pub fn next_permitted(&self, family: AddressFamily, position: usize) -> Option<(IpAddr, usize)>
        ensures { result ≡ next_permitted family position self.now.grants }
    {
        reads::next_permitted(self.grants.as_slice(), family, position)
    }

    /// How many grants there are.
    pub fn count(&self) -> usize
        ensures { result ≡ length self.now.grants }
    {
        self.grants.len()
    }

    /// The progress of the permission for this IP address.
    // Each packet asks this: as the argument of a call, the address would be copied.
    #[inline(always)]
    pub fn permission_state(&self, ip: IpAddr) -> Option<Progress>
        ensures { result ≡ first_among (permission_progress ip) self.now.grants }
    {
        if self.grants.len() <= FEW {
            return reads::permission_state(self.grants.as_slice(), ip);
        }
        let key = Key::Ip(ip);
        match self.index.lead(self.grants.as_slice(), &key) {
            Some(grant) => progress_of(grant),
            None => None,
        }
    }

    /// Whether this IP address is permitted: it has an active permission (RFC 8656, section 9).
    #[inline(always)]
    pub fn has_active_permission(&self, ip: IpAddr) -> bool
        ensures { (s : State) → result ≡ has_active_permission ip (with_table self.now s) }
    {
        match self.permission_state(ip) {
            Some(Progress::Active(_)) => true,
            Some(Progress::Pending(_) | Progress::Reserved(_)) | None => false,
        }
    }

    /// The peer of the channel with this number, whatever its progress. The number is one that a client
    /// may bind (RFC 8656, section 12).
    pub fn channel_owner(&self, number: u16) -> Option<SocketAddr>
        ensures found { result ≡ option_map (λ found. found.0) (first_among (channel_at number) self.now.grants) }
        ensures numbered { IfSome result (λ peer. is_numbered (Channel number peer (Pending true)) ≡ true) }
    {
        let key = Key::Number(number);
        match self.index.find(self.grants.as_slice(), &key) {
            Some(grant) => owner_in(number, &grant),
            None => None,
        }
    }

    /// The progress of the channel with this number.
    pub fn channel_progress(&self, number: u16) -> Option<Progress>
        ensures { result ≡ option_map (λ found. found.1) (first_among (channel_at number) self.now.grants) }
    {
        let key = Key::Number(number);
        match self.index.find(self.grants.as_slice(), &key) {
            Some(grant) => progress_in(number, &grant),
            None => None,
        }
    }

    /// The peer of the active channel with this number.
    #[inline(always)]
    pub fn channel_peer(&self, number: u16) -> Option<&SocketAddr>
        ensures { (s : State) → option_copied result ≡ first_in (channel_peer number) (with_table self.now s) }
    {
        if self.grants.len() <= FEW {
            return reads::channel_peer(self.grants.as_slice(), number);
        }
        let key = Key::Number(number);
        match self.index.lead(self.grants.as_slice(), &key) {
            Some(grant) => active_peer_of(grant),
            None => None,
        }
    }

    /// The number and the expiry of the first active channel to the peer. The number is one that a
    /// client may bind (RFC 8656, section 12).
    #[inline(always)]
    pub fn active_channel(&self, peer: SocketAddr) -> Option<(u16, Instant)>
        ensures found { result ≡ first_among (active_channel peer) self.now.grants }
        ensures numbered { IfSome result (λ found. (nat_le 0x4000 found.0 && nat_lt found.0 0x5000) ≡ true) }
    {
        if self.grants.len() <= FEW {
            return reads::active_channel(self.grants.as_slice(), peer);
        }
        let key = Key::Peer(peer);
        match self.index.lead(self.grants.as_slice(), &key) {
            Some(grant) => active_number_of(grant),
            None => None,
        }
    }

    /// Whether a channel to the peer is pending or active.
    pub fn has_channel(&self, peer: SocketAddr) -> bool
        ensures { result ≡ list_any is_in_progress (filter_map (progress_to peer) self.now.grants) }
    {
        if self.grants.len() <= FEW {
            return reads::has_channel(self.grants.as_slice(), peer);
        }
        let key = Key::Peer(peer);
        match self.index.lead(self.grants.as_slice(), &key) {
            Some(_) => true,
            None => false,
        }
    }

    /// Until when a reserved channel keeps the peer from being bound, if that is now or later. Of several
    /// it is the first in the table.
    pub fn reserved_until(&self, peer: SocketAddr, now: Instant) -> Option<Instant>
        ensures { result ≡ slice_get (filter_map (reserved_from now) (filter_map (progress_to peer) self.now.grants)) 0 }
    {
        let has_reserved = self.summary.has_reserved;
        if has_reserved {
            return reads::reserved_until(self.grants.as_slice(), peer, now);
        }
        None
    }

    /// The offer that is reported next, allocation by allocation in the order in which the server granted
    /// them.
    pub fn next_offer(&self) -> Option<DataOffer>
        ensures { (s : State) → result ≡ next_offer (with_table self.now (record s { phase = Allocated })) }
    {
        let has_unreported = self.summary.has_unreported;
        if has_unreported {
            return offers::next_offer(self.grants.as_slice());
        }
        None
    }

    /// The purpose of the request with this ID to bind the data connection from this local address, if it
    /// was made for that.
    pub fn bind_purpose(&self, id: TransactionId, local: SocketAddr) -> Option<Purpose>
        ensures { result ≡ find (is_bind_of local) (map (λ l. l.purpose) (filter (λ l. l.id == id) self.now.listed)) }
    {
        self.purposes_of(id).bind_of(local)
    }

    /// The purposes of the request with this ID.
    pub fn purposes_of(&self, id: TransactionId) -> Purposes
        ensures { purposes_in result ≡ map (λ l. l.purpose) (filter (λ l. l.id == id) self.now.listed) }
    {
        let mut purposes = Purposes::none();
        let listings = self.listed.as_slice();
        for listing in listings {
            if listing.id == id {
                purposes = purposes.and(listing.purpose);
            }
        }
        purposes
    }

    /// How many purposes are listed. With the outstanding requests and the grants they bound how many
    /// transaction IDs are taken.
    pub fn listing_count(&self) -> usize
        ensures { result ≡ length self.now.listed }
    {
        self.listed.len()
    }

    /// Whether a request with this ID is listed, or one of the server that is to be answered has this ID.
    pub fn is_listed(&self, id: TransactionId) -> bool
        ensures { result ≡ (list_any (λ l. l.id == id) self.now.listed || list_any (is_of_request id) self.now.grants) }
    {
        let is_own = self.listed.has_id(id);
        let has_requested = self.summary.has_requested;
        if has_requested {
            return is_own || has_of_request(self.grants.as_slice(), id);
        }
        is_own
    }

    /// The earliest of the time and those at which a grant expires or is to be refreshed so long ahead,
    /// where no request is sent before the pause ends.
    pub fn soonest(&self, time: Instant, now: Instant, pause: Instant, ahead: Duration) -> Instant
        ensures { (s : State) → result ≡ fold min time (all_times now pause (with_ahead (as_nanos ahead) (with_table self.now s))) }
    {
        let _time = time.as_nanos();
        let _pause = pause.as_nanos();
        let ends = least(time, Some(self.summary.end));
        let first_end = relay_end(&self.summary.first, now);
        let first = least(ends, first_end);
        let second_end = relay_end(&self.summary.second, now);
        let second = least(first, second_end);
        let later = after_pause(pause, Some(refresh_of(&self.summary, ahead)));
        least(second, later)
    }

    /// The earliest of the time and those at which an allocation that is marked as expired ends at the latest, if a response is
    /// not awaited for ever. A past one is not waited for.
    pub fn before_final(&self, time: Instant, now: Instant) -> Instant
        ensures { result ≡ fold min time (final_times now (filter_map as_allocation self.now.grants)) }
    {
        let first = sooner_final(time, &self.summary.first, now);
        sooner_final(first, &self.summary.second, now)
    }

    /// The purpose of the first refresh, if grants are refreshed so long ahead.
    pub fn first_refresh(&self, now: Instant, ahead: Duration) -> Option<Purpose>
        ensures { (s : State) → result
            ≡ slice_get (filter_map (first_refresh now (with_ahead (as_nanos ahead) (with_table self.now s))) (allocations (with_table self.now s))) 0 }
    {
        let first = refresh_of(&self.summary, ahead);
        let is_early = now < first;
        if is_early {
            return None;
        }
        refresh::first_refresh(ahead, self.grants.as_slice(), self.listed.as_slice(), now)
    }

    /// Whether nothing expires at this time or earlier.
    pub(crate) fn is_early(&self, now: Instant) -> bool
        ensures { (s : State) → result ≡ true → All (λ time. now < time) (expiry_times (with_table self.now s)) }
    {
        now.as_nanos() < self.summary.next_expiry
    }
}

/// The progress of the grant, if it is a permission.
#[inline(always)]
fn progress_of(grant: &Grant) -> Option<Progress>
    ensures { (ip : IpAddr) → is_permission_of ip grant.now ≡ true → result ≡ permission_progress ip grant.now }
{
    match grant {
        Grant::Permission(_, progress) => Some(*progress),
        _ => None,
    }
}

/// The peer of the grant, if it is the channel with this number.
fn owner_in(number: u16, grant: &Grant) -> Option<SocketAddr>
    ensures { result ≡ option_map (λ found. found.0) (channel_at number grant.now) }
{
    match grant {
        Grant::Channel(other, peer, _) if *other == number => Some(*peer),
        _ => None,
    }
}

/// The progress of the grant, if it is the channel with this number.
fn progress_in(number: u16, grant: &Grant) -> Option<Progress>
    ensures { result ≡ option_map (λ found. found.1) (channel_at number grant.now) }
{
    match grant {
        Grant::Channel(other, _, progress) if *other == number => Some(*progress),
        _ => None,
    }
}

/// The peer of the grant, if it is an active channel.
#[inline(always)]
fn active_peer_of(grant: &Grant) -> Option<&SocketAddr>
    ensures { (number : ℕ) → is_channel_of number grant.now ≡ true → option_copied result ≡ channel_peer number grant.now }
{
    match grant {
        Grant::Channel(_, peer, Progress::Active(_)) => Some(peer),
        _ => None,
    }
}

/// The number and the expiry of the grant, if it is an active channel.
#[inline(always)]
fn active_number_of(grant: &Grant) -> Option<(u16, Instant)>
    ensures { (peer : SocketAddr) → is_open_to peer grant.now ≡ true → result ≡ active_channel peer grant.now }
{
    match grant {
        Grant::Channel(number, _, Progress::Active(lease)) => Some((*number, lease.expiry)),
        _ => None,
    }
}

/// The allocation, if it is of this family.
#[inline(always)]
fn relay_of(relay: &Option<Relay>, family: AddressFamily) -> Option<Relay>
    ensures { result ≡ find (λ a. is_of_family family a.relayed) (option_to_list relay.now) }
{
    match relay {
        Some(relay) => {
            if is_of_family(family, relay.relayed) {
                return Some(*relay);
            }
            None
        }
        None => None,
    }
}

/// The expiry of the allocation, if it is to be waited for.
fn relay_end(relay: &Option<Relay>, now: Instant) -> Option<Instant>
    ensures { option_to_list result ≡ relay_ends now (option_to_list relay.now) }
{
    match relay {
        Some(relay) if now < relay.expiry => Some(relay.expiry),
        _ => None,
    }
}

/// The earlier of the time and the final expiry of the allocation, if that is to be waited for.
fn sooner_final(time: Instant, relay: &Option<Relay>, now: Instant) -> Instant
    ensures { result ≡ fold min time (final_times now (option_to_list relay.now)) }
{
    match relay {
        Some(relay) if relay.is_expired && now < final_expiry(relay) => {
            time.min(final_expiry(relay))
        }
        _ => time,
    }
}

/// Whether the grant is a channel of this family that is active and expires at this time or earlier.
fn is_expired_in(grant: &Grant, family: AddressFamily, now: Instant) -> bool
    ensures { result ≡ (is_of family grant.now && is_expired_channel now grant.now) }
{
    is_of(family, grant) && is_expired_channel(now, grant)
}
