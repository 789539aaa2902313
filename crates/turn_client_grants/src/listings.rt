//! What the outstanding requests were made for, in their order and by their IDs.

ghost use Rattle.std.specs.Prelude.{◌≡◌, ◌==◌, ◌≤◌, ◌+◌, ◌++◌, [], false, filter, length, map, not, option_to_list, vec_capacity, vec_len, OnOk};
ghost use Rattle.std.specs.List.{list_any};
ghost use Rattle.turn_client_api.specs.Grants.{is_for, is_for_allocation};
ghost use Rattle.turn_client_api.specs.Requests.{listings};
ghost use Rattle.turn_client_grants.specs.Table.{unlisted_in};
ghost use Rattle.turn_client_grants.specs.GrantFilter.{holds, purposes_in};

use crate::grant_filter::GrantFilter;
use crate::kind::{is_for, is_for_allocation};
use crate::listed::is_for_one;
use crate::purposes::Purposes;
use crate::room;
use std::alloc::{AllocError, Global};
use std::marker::Model;
use turn_client_api::{Grant, Listing, Purpose};
use turn_stun::transaction::TransactionId;

/// What the requests that await their responses were made for, in the order of the requests. A request is listed for at
/// most two purposes.
// They are scanned: each change goes over all of them in any case, and the pause between two requests keeps them few.
#[derive(Debug, Drop)]
pub(crate) struct Listings {
    items: Vec<Listing>,
}

impl Model for Listings {
    ghost use Rattle.std.specs.Prelude.{◌-◌, vec_capacity, vec_len};
    ghost use Rattle.turn_client_grants.specs.Listed.{AreForTwo, Requests};

    ghost Value = { Requests };

    ghost view = { λ l. record { items = l.items.items; room = vec_capacity l.items - vec_len l.items } };

    ghost invariant = { λ l. AreForTwo l.items.items };
}

impl Listings {
    /// No listings. Allocates no memory yet.
    pub(crate) fn new(alloc: Global) -> Listings
        ensures items { result.items ≡ [] }
    {
        Listings {
            items: Vec::new(alloc),
        }
    }

    /// Makes room for so many more listings.
    ///
    /// # Errors
    ///
    /// `AllocError` if memory allocation fails. The listings are unchanged then, and no room is lost.
    pub(crate) fn reserve(&mut self, additional: usize) -> Result<(), AllocError>
        ensures items { self.new.items ≡ self.old.items }
        ensures ok { OnOk result (additional ≤ self.new.room) }
        ensures left { self.old.room ≤ self.new.room }
    {
        room::reserve(&mut self.items, additional)
    }

    /// Gives back the room, if there are no listings. Allocates no memory.
    pub(crate) fn give_back(&mut self)
        ensures items { self.new.items ≡ self.old.items }
        ensures given_back { self.old.items ≡ [] → self.new.room ≡ 0 }
    {
        if self.items.is_empty() {
            self.items.shrink_to_fit();
        }
    }

    /// The listings in their order.
    pub(crate) fn as_slice(&self) -> &[Listing]
        ensures value { result.now ≡ self.now.items }
    {
        self.items.as_slice()
    }

    /// How many listings there are.
    pub(crate) fn len(&self) -> usize
        ensures { result ≡ length self.now.items }
    {
        self.items.len()
    }

    /// Whether a request with this ID is listed.
    pub(crate) fn has_id(&self, id: TransactionId) -> bool
        ensures { result ≡ list_any (λ l. l.id == id) self.now.items }
    {
        self.items.iter().any(|listing| listing.id == id)
    }

    /// Lists a new request, after all others, that is made for these purposes.
    pub(crate) fn list(&mut self, id: TransactionId, purposes: &Purposes)
        requires room { 2 ≤ self.old.room }
        requires new { list_any (λ l. l.id == id) self.old.items ≡ false }
        ensures items { self.new.items ≡ self.old.items ++ listings id (purposes_in purposes.now) }
        ensures room { self.old.room ≤ self.new.room + 2 }
    {
        list_one(&mut self.items, id, &purposes.first);
        list_one(&mut self.items, id, &purposes.second);
    }

    /// Removes the listings for these grants.
    pub(crate) fn unlist(&mut self, grants: &[Grant], which: &GrantFilter)
        ensures items { self.new.items ≡ unlisted_in (holds which.now) grants.now self.old.items }
        ensures room { self.old.room ≤ self.new.room }
    {
        self.items
            .retain(|listing| !is_for_one(&listing.purpose, grants, which));
    }

    /// Removes the listings for this grant.
    pub(crate) fn unlist_one(&mut self, grant: &Grant)
        ensures items { self.new.items ≡ filter (λ l. not (is_for l.purpose grant.now)) self.old.items }
        ensures room { self.old.room ≤ self.new.room }
    {
        self.items
            .retain(|listing| !is_for(&listing.purpose, grant));
    }

    /// Removes the listings for an ALLOCATE.
    pub(crate) fn unlist_allocates(&mut self)
        ensures items { self.new.items ≡ filter (λ l. not (is_for_allocation l.purpose)) self.old.items }
        ensures room { self.old.room ≤ self.new.room }
    {
        self.items
            .retain(|listing| !is_for_allocation(&listing.purpose));
    }
}

/// Lists a purpose, if there is one.
fn list_one(listed: &mut Vec<Listing>, id: TransactionId, purpose: &Option<Purpose>)
    requires { vec_len listed.old + length (option_to_list purpose.now) ≤ vec_capacity listed.old }
    ensures items { listed.new.items ≡ listed.old.items ++ listings id (option_to_list purpose.now) }
    ensures capacity { vec_capacity listed.new ≡ vec_capacity listed.old }
{
    if let Some(purpose) = purpose {
        listed.push_reserved(Listing {
            id,
            purpose: *purpose,
        });
    }
}
