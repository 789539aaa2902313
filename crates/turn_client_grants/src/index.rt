//! How grants are found by their keys, which a table of few grants does without.

ghost use Rattle.std.specs.Prelude.{◌≡◌, ◌<◌, ◌≤◌, ◌+◌, ◌++◌, ◌∷◌, [], List, false, find, length, option_copied, take, true, OnErr, OnOk};
ghost use Rattle.turn_client_api.specs.declared.grant.Grant.{Grant};
ghost use Rattle.turn_client_grants.specs.Kept.{AreAlone, IsLed, IsPlaced, IsReady, index_room, links_room};
ghost use Rattle.turn_client_grants.specs.Keys.{is_found_by};

use crate::chains::{Chains, buckets};
use crate::key::{Key, name_of, peer_of};
use crate::reads::first_found;
use std::alloc::{AllocError, Global};
use turn_client_api::Grant;

/// A table of so few grants is scanned: hashing an address takes as long as scanning ten of them.
pub(crate) const FEW: usize = 8;

/// What leads from keys to the places of grants. It is made when room is reserved for more grants than are scanned.
#[derive(Debug, Drop)]
pub(crate) struct Index {
    /// By the number of a channel, and by the IP address of a permission.
    pub(crate) names: Chains,
    /// By the peer of a channel that is pending or active.
    pub(crate) peers: Chains,
    pub(crate) is_made: bool,
    alloc: Global,
}

impl Index {
    /// No chains yet. Allocates no memory.
    pub(crate) fn new(alloc: Global) -> Index
        ensures { result.is_made ≡ false }
    {
        Index {
            names: Chains::new(alloc),
            peers: Chains::new(alloc),
            is_made: false,
            alloc,
        }
    }

    /// Makes room for so many grants beside these.
    ///
    /// # Errors
    ///
    /// `AllocError` if memory allocation fails. The grants are found as before then, and no room is lost.
    pub(crate) fn reserve(&mut self, grants: &[Grant], additional: usize) -> Result<(), AllocError>
        requires { IsLed self.old grants.now }
        ensures led { IsLed self.new grants.now }
        ensures ok { OnOk result (additional ≤ index_room self.new.is_made (length grants.now) (links_room self.new)) }
        ensures left { let count = length grants.now in
            index_room self.old.is_made count (links_room self.old) ≤ index_room self.new.is_made count (links_room self.new) }
        ensures made { self.new.is_made ≡ false → self.old.is_made ≡ false }
    {
        let Some(all) = grants.len().checked_add(additional) else {
            return Err(AllocError);
        };
        if !self.is_made && all <= FEW {
            return Ok(());
        }
        self.names.reserve(all)?;
        self.peers.reserve(all)?;
        if self.is_made && all <= self.names.heads.len() {
            return Ok(());
        }
        self.make(grants, all)
    }

    /// Makes the chains of these grants, with a bucket for each of so many or more. There is room for the links.
    fn make(&mut self, grants: &[Grant], all: usize) -> Result<(), AllocError>
        requires { (length grants.now ≤ all) × (all ≤ links_room self.old) }
        ensures ok { OnOk result (IsPlaced self.new grants.now) }
        ensures made { OnOk result (self.new.is_made ≡ true) }
        ensures err { OnErr result (self.new ≡ self.old) }
        ensures room { links_room self.old ≤ links_room self.new }
    {
        let Some(count) = all.checked_next_power_of_two() else {
            return Err(AllocError);
        };
        let names = buckets(self.alloc, count)?;
        let peers = buckets(self.alloc, count)?;
        self.names.heads = names;
        self.peers.heads = peers;
        self.is_made = true;
        self.remake(grants);
        Ok(())
    }

    /// The grant that the key finds among these.
    pub(crate) fn find(&self, grants: &[Grant], key: &Key) -> Option<Grant>
        requires led { IsLed self.now grants.now }
        requires alone { AreAlone grants.now }
        ensures { result ≡ find (is_found_by key.now) grants.now }
    {
        if !self.is_made {
            return first_found(grants, key);
        }
        match self.lead(grants, key) {
            Some(grant) => Some(*grant),
            None => None,
        }
    }

    /// The same, where the chains are made.
    #[inline(always)]
    pub(crate) fn lead<'a>(&self, grants: &'a [Grant], key: &Key) -> Option<&'a Grant>
        requires placed { IsPlaced self.now grants.now }
        requires alone { AreAlone grants.now }
        ensures { option_copied result ≡ find (is_found_by key.now) grants.now }
    {
        match key {
            Key::Peer(_) => self.peers.find(grants, key),
            Key::Number(_) => self.names.find(grants, key),
            Key::Ip(_) => self.names.find(grants, key),
        }
    }

    /// The grant, the next one, is found by its keys from now on.
    pub(crate) fn add(&mut self, grant: &Grant)
        requires { self.old.is_made ≡ true → IsReady 1 self.old }
        ensures placed { (rows : List Grant) → IsLed self.old rows → IsLed self.new (rows ++ grant.now ∷ []) }
        ensures made { self.new.is_made ≡ self.old.is_made }
        ensures room { links_room self.old ≤ links_room self.new }
    {
        if !self.is_made {
            return;
        }
        self.names.push(&name_of(grant));
        self.peers.push(&peer_of(grant));
    }

    /// These grants are found by their keys, of which so many first ones were before.
    pub(crate) fn extend(&mut self, grants: &[Grant], from: usize)
        requires from { from ≤ length grants.now }
        requires led { IsLed self.old (take from grants.now) }
        requires room { self.old.is_made ≡ true → length grants.now ≤ links_room self.old }
        ensures led { IsLed self.new grants.now }
        ensures made { self.new.is_made ≡ self.old.is_made }
        ensures room { links_room self.old ≤ links_room self.new }
    {
        'rows: for place in from..grants.len() {
            self.add(&grants[place]);
        }
    }

    /// Of these grants, so many first ones are found by their keys from now on.
    pub(crate) fn cut(&mut self, grants: &[Grant], from: usize)
        requires from { from ≤ length grants.now }
        requires led { IsLed self.old grants.now }
        ensures led { IsLed self.new (take from grants.now) }
        ensures made { self.new.is_made ≡ self.old.is_made }
        ensures room { links_room self.old ≤ links_room self.new }
    {
        if !self.is_made {
            return;
        }
        let mut place = grants.len();
        'rows: while from < place {
            place -= 1;
            let grant = &grants[place];
            self.names.pop(&name_of(grant));
            self.peers.pop(&peer_of(grant));
        }
    }

    /// Makes the chains anew: they are those of these grants, for which there is room.
    pub(crate) fn remake(&mut self, grants: &[Grant])
        requires some { self.old.is_made ≡ true → (0 < length self.old.names.heads.items) × (0 < length self.old.peers.heads.items) }
        requires room { self.old.is_made ≡ true → length grants.now ≤ links_room self.old }
        ensures led { IsLed self.new grants.now }
        ensures made { self.new.is_made ≡ self.old.is_made }
        ensures room { links_room self.old ≤ links_room self.new }
    {
        if !self.is_made {
            return;
        }
        self.names.clear();
        self.peers.clear();
        self.extend(grants, 0);
    }
}
