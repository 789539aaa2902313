//! What the server has granted to the session.

ghost use Rattle.std.specs.Prelude.{◌≡◌, [], OnErr, OnOk};
ghost use Rattle.std.specs.List.{position};
ghost use Rattle.turn_session_book.specs.Held.{after_grant, first_held, is_held, is_held_in, is_kept_held, is_kept_in, is_of};
ghost use Rattle.turn_session_book.specs.Held.{with_mark, without_grant};

use crate::keys::{Key, is_in};
use std::alloc::{AllocError, Global};
use std::marker::Model;
use turn_types::AddressFamily;

/// A key that the server has granted.
#[derive(Clone, Copy, Debug, PartialEq, Eq)]
pub struct HeldGrant {
    /// What was granted.
    pub key: Key,
    /// Whether the caller keeps it, so that it is refreshed.
    pub is_kept: bool,
}

/// The keys that the server has granted, in the order in which it did. Contracts describe them by a list.
#[derive(Debug, Drop)]
pub struct Held {
    grants: Vec<HeldGrant>,
}

impl Model for Held {
    ghost use Rattle.std.specs.Prelude.{List};
    ghost use Rattle.turn_session_book.specs.declared.held.HeldGrant.{HeldGrant};

    ghost Value = { List HeldGrant };

    ghost view = { λ h. h.grants.items };
}

impl Held {
    /// Nothing was granted.
    pub fn new(alloc: Global) -> Held
        ensures { result ≡ [] }
    {
        Held {
            grants: Vec::new(alloc),
        }
    }

    /// What was granted, in the order in which it was.
    pub fn as_slice(&self) -> &[HeldGrant]
        ensures { result.now ≡ self.now }
    {
        &self.grants
    }

    /// Whether this key was granted.
    pub fn is_held(&self, key: Key) -> bool
        ensures { result ≡ is_held key self.now }
    {
        self.grants.iter().any(|grant| grant.key == key)
    }

    /// Whether this key was granted, and the caller keeps it.
    pub fn is_kept(&self, key: Key) -> bool
        ensures { result ≡ is_kept_held key self.now }
    {
        match self.place_of(key) {
            Some(place) => self.grants[place].is_kept,
            None => false,
        }
    }

    /// Makes room for so many more grants.
    ///
    /// # Errors
    ///
    /// If memory allocation fails.
    pub fn make_room(&mut self, count: usize) -> Result<(), AllocError>
        ensures { self.new ≡ self.old }
    {
        self.grants.reserve(count)
    }

    /// The server has granted this key, which the caller keeps or has let go. One that was granted before stays as it is.
    ///
    /// # Errors
    ///
    /// If memory allocation fails. Nothing changes then.
    pub fn granted(&mut self, key: Key, is_kept: bool) -> Result<(), AllocError>
        ensures ok { OnOk result (self.new ≡ after_grant key is_kept self.old) }
        ensures err { OnErr result (self.new ≡ self.old) }
    {
        if self.is_held(key) {
            return Ok(());
        }
        self.grants.reserve(1)?;
        self.grants.push_reserved(HeldGrant { key, is_kept });
        Ok(())
    }

    /// The caller keeps this key, or lets it go.
    pub fn mark(&mut self, key: Key, is_kept: bool)
        ensures { self.new ≡ with_mark key is_kept self.old }
    {
        if let Some(place) = self.place_of(key) {
            self.grants[place] = HeldGrant {
                key: self.grants[place].key,
                is_kept,
            };
        }
    }

    /// The grant of this key has ended: returns whether it was kept, or `None` if there was none.
    pub fn ended(&mut self, key: Key) -> Option<bool>
        ensures kept { result ≡ is_kept_in key self.old }
        ensures after { self.new ≡ without_grant key self.old }
    {
        match self.place_of(key) {
            Some(place) => {
                let ended = self.grants.remove(place);
                Some(ended.is_kept)
            }
            None => None,
        }
    }

    /// The first grant in an allocation of this family.
    pub fn first_held(&self, family: AddressFamily) -> Option<HeldGrant>
        ensures { result ≡ first_held family self.now }
    {
        match self.held_place(family) {
            Some(place) => Some(self.grants[place]),
            None => None,
        }
    }

    /// The place of the first grant in an allocation of this family.
    fn held_place(&self, family: AddressFamily) -> Option<usize>
        ensures { result ≡ position (is_held_in family) self.now }
    {
        self.grants
            .iter()
            .position(|grant| is_in(family, grant.key))
    }

    /// The place of the grant of this key.
    fn place_of(&self, key: Key) -> Option<usize>
        ensures { result ≡ position (is_of key) self.now }
    {
        self.grants.iter().position(|grant| grant.key == key)
    }
}
