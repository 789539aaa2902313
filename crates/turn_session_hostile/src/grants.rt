//! What the session has reported of grants, and what the caller has said of them.

use std::alloc::Global;
use turn_hostile_net::fault::{Fault, expect};
use turn_session_book::held::HeldGrant;
use turn_session_book::keys::Key;

/// What the caller has said of a key last.
#[derive(Clone, Copy)]
struct Mark {
    key: Key,
    is_kept: bool,
    /// Whether it has said it since the last time at which nothing was due. An end before may be reported after.
    is_new: bool,
}

/// What the session has reported of grants, and what the caller has said of them.
#[derive(Drop)]
pub struct Grants {
    /// What was reported to be granted, and not to have ended.
    reported: Vec<Key>,
    marks: Vec<Mark>,
}

impl Grants {
    /// Nothing was reported.
    pub fn new(alloc: Global) -> Grants {
        Grants {
            reported: Vec::new(alloc),
            marks: Vec::new(alloc),
        }
    }

    /// The session has reported that this key is granted.
    ///
    /// # Errors
    ///
    /// If memory allocation fails.
    pub fn grant(&mut self, key: Key) -> Result<(), Fault> {
        if self.reported.as_slice().contains(&key) {
            return Ok(());
        }
        Ok(self.reported.push(key)?)
    }

    /// The caller says whether this key is kept.
    ///
    /// # Errors
    ///
    /// If memory allocation fails.
    pub fn mark(&mut self, key: Key, is_kept: bool) -> Result<(), Fault> {
        self.forget(key);
        let is_new = true;
        Ok(
            self.marks.push(Mark {
                key,
                is_kept,
                is_new,
            })?,
        )
    }

    /// The session has reported that this key has ended, which the caller has kept or let go.
    ///
    /// # Errors
    ///
    /// `Wrong` if the caller has said otherwise.
    pub fn end(&mut self, key: Key, was_kept: bool) -> Result<(), Fault> {
        let mut is_right = was_kept;
        for mark in self.marks.iter() {
            if mark.key == key {
                is_right = mark.is_new || mark.is_kept == was_kept;
            }
        }
        self.forget(key);
        let place = self.reported.iter().position(|reported| *reported == key);
        if let Some(place) = place {
            if place < self.reported.len() {
                self.reported.remove(place);
            }
        }
        expect(
            is_right,
            "what was kept has expired, or what was let go is lost",
        )
    }

    /// Nothing is due. What was reported to be granted is listed, and what the caller has said of a key counts as long as that
    /// is listed or requested.
    ///
    /// # Errors
    ///
    /// `Wrong` if something is not listed that was granted.
    pub fn settle(&mut self, listed: &[HeldGrant]) -> Result<(), Fault> {
        for key in self.reported.iter() {
            expect(
                is_listed(listed, *key),
                "what was granted is neither listed nor reported to have ended",
            )?;
        }
        for mark in self.marks.iter_mut() {
            mark.is_new = false;
        }
        Ok(())
    }

    /// What the caller has said of this key counts no more: it is neither granted nor requested.
    pub fn forget(&mut self, key: Key) {
        let place = self.marks.iter().position(|mark| mark.key == key);
        if let Some(place) = place {
            if place < self.marks.len() {
                self.marks.remove(place);
            }
        }
    }

    /// A key of which the caller has said something, at this place.
    pub fn marked(&self, place: usize) -> Option<Key> {
        let mark = self.marks.as_slice().get(place)?;
        Some(mark.key)
    }
}

/// Whether this key is listed.
pub fn is_listed(listed: &[HeldGrant], key: Key) -> bool {
    for grant in listed {
        if grant.key == key {
            return true;
        }
    }
    false
}
