//! The table of grants.
//!
//! The grants are a list, in their order, which is scanned while they are few. Of more, a channel and a
//! permission are found by a hash, which leads from a channel's number, from the peer of a channel that is
//! pending or active, and from the IP address of a permission to places in the list. What is read from all
//! grants at once, such as the next expiry and the next refresh, is a summary. It is computed anew only by a
//! change after which it may be another one.

ghost use Rattle.std.specs.Prelude.{◌≡◌, ◌≤◌, ◌<◌, ◌+◌, ◌++◌, ◌∷◌, ◌==◌, ◌&&◌, [], false, true, None, filter, length, map, not, OnOk};
ghost use Rattle.std.specs.List.{list_all, list_any};
ghost use Rattle.turn_client_api.specs.Calls.{is_offer_of, without_first};
ghost use Rattle.turn_client_api.specs.Effect.{new_allocation};
ghost use Rattle.turn_client_api.specs.Grants.{as_allocation, is_for_allocation};
ghost use Rattle.turn_client_api.specs.Poll.{first_reported};
ghost use Rattle.turn_client_api.specs.Requests.{listings};
ghost use Rattle.turn_client_grants.specs.Found.{LeavesOthers};
ghost use Rattle.turn_client_grants.specs.Keys.{is_found_by};
ghost use Rattle.turn_client_grants.specs.declared.changes.Change.TheVariants.{Renew};
ghost use Rattle.turn_client_grants.specs.declared.key.Key.{Key};
ghost use Rattle.turn_client_grants.specs.Table.{are_new, changed, has_no_double, is_numbered, unlisted_in};
ghost use Rattle.turn_client_grants.specs.GrantFilter.{holds, purposes_in};

use crate::changes::{self, Change};
use crate::grant_filter::GrantFilter;
use crate::index::Index;
use crate::key::Key;
use crate::kind::is_pending;
use crate::listings::Listings;
use crate::purposes::Purposes;
use crate::summary::{Summary, kept_unless, summary_of, summary_with};
use crate::{offers, room};
use std::alloc::{AllocError, Global};
use std::marker::Model;
use std::net::SocketAddr;
use turn_client_api::Grant;
use turn_stun::instant::Instant;
use turn_stun::transaction::TransactionId;
use turn_types::AddressFamily;

mod connections;
mod failures;
mod found;
mod numbers;
mod read;

/// The grants of a client, in the order in which they were requested or granted, and what the requests
/// that await their responses were made for.
///
/// A channel's number is from 4000 to 4FFF hexadecimal, there is at most one allocation of each address
/// family, and a request is listed for at most two purposes. A change allocates no memory: `reserve`
/// makes room for it first.
#[derive(Debug, Drop)]
pub struct GrantTable {
    grants: Vec<Grant>,
    listed: Listings,
    index: Index,
    summary: Summary,
}

impl Model for GrantTable {
    ghost use Rattle.std.specs.Prelude.{◌-◌, min, vec_capacity, vec_len};
    ghost use Rattle.turn_client_grants.specs.Kept.{IsIndexed, index_room, links_room};
    ghost use Rattle.turn_client_grants.specs.Table.{Table};

    ghost Value = { Table };

    ghost view = { λ t. record {
      grants = t.grants.items;
      listed = t.listed.items;
      grant_room = min (vec_capacity t.grants - vec_len t.grants) (index_room t.index.is_made (vec_len t.grants) (links_room t.index));
      listing_room = t.listed.room;
    } };

    ghost invariant = { λ t. IsIndexed t.grants.items t.listed.items t.index t.summary };
}

impl GrantTable {
    /// An empty table. Allocates no memory yet.
    pub(crate) fn new(alloc: Global) -> GrantTable
        ensures grants { result.grants ≡ [] }
        ensures listed { result.listed ≡ [] }
    {
        GrantTable {
            grants: Vec::new(alloc),
            listed: Listings::new(alloc),
            index: Index::new(alloc),
            summary: summary_of(&[], &[]),
        }
    }

    /// Makes room for so many more grants and listings.
    ///
    /// # Errors
    ///
    /// `AllocError` if memory allocation fails. The contents are unchanged then, and no room is lost.
    pub(crate) fn reserve(&mut self, grants: usize, listings: usize) -> Result<(), AllocError>
        ensures grants { self.new.grants ≡ self.old.grants }
        ensures listed { self.new.listed ≡ self.old.listed }
        ensures grant_room { OnOk result (grants ≤ self.new.grant_room) }
        ensures listing_room { OnOk result (listings ≤ self.new.listing_room) }
        ensures grants_left { self.old.grant_room ≤ self.new.grant_room }
        ensures listings_left { self.old.listing_room ≤ self.new.listing_room }
    {
        room::reserve(&mut self.grants, grants)?;
        self.listed.reserve(listings)?;
        self.index.reserve(self.grants.as_slice(), grants)
    }

    /// Gives back the room for listings, if there are none. Allocates no memory.
    pub(crate) fn give_back(&mut self)
        ensures grants { self.new.grants ≡ self.old.grants }
        ensures listed { self.new.listed ≡ self.old.listed }
        ensures grant_room { self.new.grant_room ≡ self.old.grant_room }
        ensures given_back { self.old.listed ≡ [] → self.new.listing_room ≡ 0 }
    {
        self.listed.give_back();
    }

    /// Adds a grant, which must be new (`has_no_double`), after all others.
    pub(crate) fn push(&mut self, grant: &Grant)
        requires room { 0 < self.old.grant_room }
        requires numbered { is_numbered grant.now ≡ true }
        requires new { has_no_double self.old.grants grant.now ≡ true }
        ensures grants { self.new.grants ≡ self.old.grants ++ grant.now ∷ [] }
        ensures listed { self.new.listed ≡ self.old.listed }
        ensures grant_room { self.old.grant_room ≤ self.new.grant_room + 1 }
        ensures listing_room { self.new.listing_room ≡ self.old.listing_room }
    {
        changes::add(&mut self.grants, grant);
        self.index.add(grant);
        self.summary = summary_with(
            &self.summary,
            self.grants.as_slice(),
            self.listed.as_slice(),
            &[*grant],
        );
    }

    /// Adds grants, which must be new and differ (`are_new`), after all others.
    pub(crate) fn push_all(&mut self, more: &[Grant])
        requires room { length more.now ≤ self.old.grant_room }
        requires numbered { list_all is_numbered more.now ≡ true }
        requires new { are_new self.old.grants more.now ≡ true }
        ensures grants { self.new.grants ≡ self.old.grants ++ more.now }
        ensures listed { self.new.listed ≡ self.old.listed }
        ensures grant_room { self.old.grant_room ≤ self.new.grant_room + length more.now }
        ensures listing_room { self.new.listing_room ≡ self.old.listing_room }
    {
        let count = self.grants.len();
        changes::add_all(&mut self.grants, more);
        self.index.extend(self.grants.as_slice(), count);
        self.summary = summary_with(
            &self.summary,
            self.grants.as_slice(),
            self.listed.as_slice(),
            more,
        );
    }

    /// Adds the allocations with these relayed addresses, after all other grants, for so many seconds
    /// from now on.
    pub(crate) fn push_allocations(&mut self, addresses: &[SocketAddr], lifetime: u32, now: Instant)
        requires room { length addresses.now ≤ self.old.grant_room }
        requires new { are_new self.old.grants (map (new_allocation lifetime now) addresses.now) ≡ true }
        ensures grants { self.new.grants ≡ self.old.grants ++ map (new_allocation lifetime now) addresses.now }
        ensures listed { self.new.listed ≡ self.old.listed }
        ensures grant_room { self.old.grant_room ≤ self.new.grant_room + length addresses.now }
        ensures listing_room { self.new.listing_room ≡ self.old.listing_room }
    {
        let count = self.grants.len();
        changes::add_allocations(&mut self.grants, addresses, lifetime, now);
        self.index.extend(self.grants.as_slice(), count);
        self.summary = summary_of(self.grants.as_slice(), self.listed.as_slice());
    }

    /// Lists a new request, after all others, that was made for these purposes.
    pub(crate) fn list(&mut self, id: TransactionId, purposes: &Purposes)
        requires room { 2 ≤ self.old.listing_room }
        requires new { list_any (λ l. l.id == id) self.old.listed ≡ false }
        ensures grants { self.new.grants ≡ self.old.grants }
        ensures listed { self.new.listed ≡ self.old.listed ++ listings id (purposes_in purposes.now) }
        ensures grant_room { self.new.grant_room ≡ self.old.grant_room }
        ensures listing_room { self.old.listing_room ≤ self.new.listing_room + 2 }
    {
        let is_refresh = self.are_for_refreshed(purposes);
        self.listed.list(id, purposes);
        self.summary = kept_unless(
            is_refresh,
            &self.summary,
            self.grants.as_slice(),
            self.listed.as_slice(),
        );
    }

    /// Removes the listings for these grants.
    pub(crate) fn unlist(&mut self, which: &GrantFilter)
        ensures grants { self.new.grants ≡ self.old.grants }
        ensures listed { self.new.listed ≡ unlisted_in (holds which.now) self.old.grants self.old.listed }
        ensures grant_room { self.new.grant_room ≡ self.old.grant_room }
        ensures listing_room { self.old.listing_room ≤ self.new.listing_room }
    {
        let are_absent = changes::are_absent(self.grants.as_slice(), which);
        if are_absent {
            return;
        }
        self.listed.unlist(self.grants.as_slice(), which);
        self.summary = summary_of(self.grants.as_slice(), self.listed.as_slice());
    }

    /// Removes the listings for an ALLOCATE.
    pub(crate) fn unlist_allocates(&mut self)
        ensures grants { self.new.grants ≡ self.old.grants }
        ensures listed { self.new.listed ≡ filter (λ l. not (is_for_allocation l.purpose)) self.old.listed }
        ensures grant_room { self.new.grant_room ≡ self.old.grant_room }
        ensures listing_room { self.old.listing_room ≤ self.new.listing_room }
    {
        self.listed.unlist_allocates();
        self.summary = summary_of(self.grants.as_slice(), self.listed.as_slice());
    }

    /// Removes these grants, and the listings for them.
    pub(crate) fn remove(&mut self, which: &GrantFilter)
        ensures grants { self.new.grants ≡ filter (λ g. not (holds which.now g)) self.old.grants }
        ensures listed { self.new.listed ≡ unlisted_in (holds which.now) self.old.grants self.old.listed }
        ensures grant_room { self.old.grant_room ≤ self.new.grant_room }
        ensures listing_room { self.old.listing_room ≤ self.new.listing_room }
    {
        let are_absent = changes::are_absent(self.grants.as_slice(), which);
        if are_absent {
            return;
        }
        self.listed.unlist(self.grants.as_slice(), which);
        let count = changes::count_before(self.grants.as_slice(), which);
        self.index.cut(self.grants.as_slice(), count);
        changes::remove(&mut self.grants, which);
        self.index.extend(self.grants.as_slice(), count);
        self.summary = summary_of(self.grants.as_slice(), self.listed.as_slice());
    }

    /// Marks the first unreported offer of this family as reported.
    pub(crate) fn report_offer(&mut self, family: AddressFamily)
        ensures grants { self.new.grants ≡ first_reported family self.old.grants }
        ensures listed { self.new.listed ≡ self.old.listed }
        ensures grant_room { self.new.grant_room ≡ self.old.grant_room }
        ensures listing_room { self.new.listing_room ≡ self.old.listing_room }
    {
        offers::report_first(&mut self.grants, family);
        self.summary = summary_of(self.grants.as_slice(), self.listed.as_slice());
    }

    /// Removes the first offer with this connection ID and this peer.
    pub(crate) fn take_offer(&mut self, id: u32, peer: SocketAddr)
        ensures grants { self.new.grants ≡ without_first (is_offer_of id peer) self.old.grants }
        ensures listed { self.new.listed ≡ self.old.listed }
        ensures grant_room { self.old.grant_room ≤ self.new.grant_room }
        ensures listing_room { self.new.listing_room ≡ self.old.listing_room }
    {
        offers::take(&mut self.grants, id, peer);
        self.index.remake(self.grants.as_slice());
        self.summary = summary_of(self.grants.as_slice(), self.listed.as_slice());
    }

    /// Replaces the grant that this key finds by another one, which is no allocation, after all others.
    pub(crate) fn replace(&mut self, key: &Key, grant: &Grant)
        requires numbered { is_numbered grant.now ≡ true }
        requires apart { as_allocation grant.now ≡ None }
        requires there { list_any (is_found_by key.now) self.old.grants ≡ true }
        // Each key that finds the new grant finds the old one.
        requires keyed { (k : Key) → is_found_by k grant.now ≡ true → list_any (λ g. is_found_by key.now g && is_found_by k g) self.old.grants ≡ true }
        ensures grants { self.new.grants ≡ filter (λ g. not (is_found_by key.now g)) self.old.grants ++ grant.now ∷ [] }
        ensures listed { self.new.listed ≡ unlisted_in (is_found_by key.now) self.old.grants self.old.listed }
        ensures grant_room { self.old.grant_room ≤ self.new.grant_room }
        ensures fewer { length self.new.grants ≤ length self.old.grants }
        ensures listing_room { self.old.listing_room ≤ self.new.listing_room }
    {
        let Some(old) = self.index.find(self.grants.as_slice(), key) else {
            return;
        };
        self.listed.unlist_one(&old);
        let count = changes::count_before_found(self.grants.as_slice(), key);
        self.index.cut(self.grants.as_slice(), count);
        changes::remove_at(&mut self.grants, count);
        let summary = kept_unless(
            !is_pending(&old),
            &self.summary,
            self.grants.as_slice(),
            self.listed.as_slice(),
        );
        changes::add(&mut self.grants, grant);
        self.summary = summary_with(
            &summary,
            self.grants.as_slice(),
            self.listed.as_slice(),
            &[*grant],
        );
        self.index.extend(self.grants.as_slice(), count);
    }

    /// The active ones of these grants expire at this time, and no request is listed for them any more.
    pub(crate) fn renew(&mut self, which: &GrantFilter, expiry: Instant)
        ensures grants { self.new.grants ≡ map (changed (Renew which.now expiry)) self.old.grants }
        ensures listed { self.new.listed ≡ unlisted_in (holds which.now) self.old.grants self.old.listed }
        ensures grant_room { self.old.grant_room ≤ self.new.grant_room }
        ensures listing_room { self.old.listing_room ≤ self.new.listing_room }
    {
        let change = Change::Renew(*which, expiry);
        match which.key() {
            Some(key) => self.change_one(&key, &change),
            None => {
                self.unlist(which);
                self.change(&change);
            }
        }
    }

    /// Changes the grant that the key finds, and removes the listings for it.
    fn change_one(&mut self, key: &Key, change: &Change)
        requires { LeavesOthers key.now change.now }
        ensures grants { self.new.grants ≡ map (changed change.now) self.old.grants }
        ensures listed { self.new.listed ≡ unlisted_in (is_found_by key.now) self.old.grants self.old.listed }
        ensures grant_room { self.old.grant_room ≤ self.new.grant_room }
        ensures listing_room { self.old.listing_room ≤ self.new.listing_room }
    {
        let Some(old) = self.index.find(self.grants.as_slice(), key) else {
            return;
        };
        self.listed.unlist_one(&old);
        changes::apply_to(&mut self.grants, key, change);
        self.summary = summary_of(self.grants.as_slice(), self.listed.as_slice());
    }

    /// Changes grants that keep their places.
    pub(crate) fn change(&mut self, change: &Change)
        ensures grants { self.new.grants ≡ map (changed change.now) self.old.grants }
        ensures listed { self.new.listed ≡ self.old.listed }
        ensures grant_room { self.old.grant_room ≤ self.new.grant_room }
        ensures listing_room { self.new.listing_room ≡ self.old.listing_room }
    {
        changes::apply(&mut self.grants, change);
        self.summary = summary_of(self.grants.as_slice(), self.listed.as_slice());
    }
}
