//! Chains of rows: each row leads to the one before it whose key is in the same bucket of a hash.
//!
//! A chain holds places, and what is looked for is compared with the rows themselves, so no row and no key is
//! held twice. Rows are added at the end, and taken out there. Where another one goes, those behind it move: they
//! are taken out of the chains first, and added again.

ghost use Rattle.std.specs.Prelude.{◌≡◌, ◌<◌, ◌≤◌, ◌+◌, ◌++◌, ◌∷◌, [], List, Option, IfOk, OnErr, OnOk, find, filter, length, map, option_copied, option_to_list};
ghost use Rattle.std.specs.Prelude.{replicate, slice_index, slice_set, vec_capacity, vec_len};
ghost use Rattle.turn_client_grants.specs.Chains.{IsChained, bucket_of, key_hash};
ghost use Rattle.turn_client_grants.specs.Keys.{is_found_by, key_like};

use crate::key::Key;
use crate::room;
use std::alloc::{AllocError, Global};
use std::hash::{FoldHasher, Hash, Hasher};
use turn_client_api::Grant;

/// The chains of rows that have keys.
#[derive(Debug, Drop)]
pub(crate) struct Chains {
    /// For each bucket the last row in it, counted from one: zero if there is none.
    pub(crate) heads: Vec<usize>,
    /// For each row the one before it in its bucket, likewise.
    pub(crate) links: Vec<usize>,
}

impl Chains {
    /// No buckets yet. Allocates no memory.
    pub(crate) fn new(alloc: Global) -> Chains {
        Chains {
            heads: Vec::new(alloc),
            links: Vec::new(alloc),
        }
    }

    /// Makes room for the links of so many rows in all.
    ///
    /// # Errors
    ///
    /// `AllocError` if memory allocation fails. No room is lost then.
    pub(crate) fn reserve(&mut self, all: usize) -> Result<(), AllocError>
        ensures heads { self.new.heads.items ≡ self.old.heads.items }
        ensures links { self.new.links.items ≡ self.old.links.items }
        ensures ok { OnOk result (all ≤ vec_capacity self.new.links) }
        ensures left { vec_capacity self.old.links ≤ vec_capacity self.new.links }
    {
        let additional = all.saturating_sub(self.links.len());
        room::reserve(&mut self.links, additional)
    }

    /// No rows.
    pub(crate) fn clear(&mut self)
        ensures heads { self.new.heads.items ≡ replicate (length self.old.heads.items) 0 }
        ensures links { self.new.links.items ≡ [] }
        ensures len { vec_len self.new.links ≡ 0 }
        ensures capacity { vec_capacity self.new.links ≡ vec_capacity self.old.links }
    {
        self.heads.as_mut_slice().fill(0);
        self.links.clear();
    }

    /// Adds a row with this key, or with none.
    pub(crate) fn push(&mut self, key: &Option<Key>)
        requires some { 0 < length self.old.heads.items }
        requires room { vec_len self.old.links < vec_capacity self.old.links }
        ensures chained { (keys : List (Option Key)) → IsChained self.old.heads.items self.old.links.items keys
            → IsChained self.new.heads.items self.new.links.items (keys ++ key.now ∷ []) }
        ensures heads { length self.new.heads.items ≡ length self.old.heads.items }
        ensures len { vec_len self.new.links ≡ vec_len self.old.links + 1 }
        ensures capacity { vec_capacity self.old.links ≤ vec_capacity self.new.links }
    {
        let before = match key {
            Some(key) => self.lead(key),
            None => 0,
        };
        let _ = self.links.extend_from_slice(&[before]);
    }

    /// Takes out the last row, which has this key, or none.
    pub(crate) fn pop(&mut self, key: &Option<Key>)
        requires { 0 < length self.old.heads.items }
        ensures chained { (keys : List (Option Key)) → IsChained self.old.heads.items self.old.links.items (keys ++ key.now ∷ [])
            → IsChained self.new.heads.items self.new.links.items keys }
        ensures heads { length self.new.heads.items ≡ length self.old.heads.items }
        ensures capacity { vec_capacity self.new.links ≡ vec_capacity self.old.links }
    {
        let Some(before) = self.links.pop() else {
            return;
        };
        let Some(key) = key else {
            return;
        };
        let bucket = bucket_of(key, self.heads.len());
        self.heads[bucket] = before;
    }

    /// The last row in the bucket of the key, which the next row is from now on.
    fn lead(&mut self, key: &Key) -> usize
        requires { 0 < length self.old.heads.items }
        ensures value { result ≡ slice_index self.old.heads.items (bucket_of (length self.old.heads.items) key.now) }
        ensures heads { self.new.heads.items ≡ slice_set self.old.heads.items (bucket_of (length self.old.heads.items) key.now) (vec_len self.old.links + 1) }
        ensures links { self.new.links ≡ self.old.links }
        ensures within { bucket_of (length self.old.heads.items) key.now < length self.old.heads.items }
    {
        let bucket = bucket_of(key, self.heads.len());
        let before = self.heads[bucket];
        self.heads[bucket] = self.links.len() + 1;
        before
    }

    /// The row that the key finds among these, whose chains they are. It finds at most one.
    #[inline(always)]
    pub(crate) fn find<'a>(&self, grants: &'a [Grant], key: &Key) -> Option<&'a Grant>
        requires chained { IsChained self.now.heads.items self.now.links.items (map (key_like key.now) grants.now) }
        requires alone { filter (is_found_by key.now) grants.now ≡ option_to_list (find (is_found_by key.now) grants.now) }
        ensures { option_copied result ≡ find (is_found_by key.now) grants.now }
    {
        let mut at = self.heads[bucket_of(key, self.heads.len())];
        'rows: while at != 0 {
            let grant = &grants[at - 1];
            if key.finds(grant) {
                return Some(grant);
            }
            at = self.links[at - 1];
        }
        None
    }
}

/// So many empty buckets.
///
/// # Errors
///
/// `AllocError` if memory allocation fails.
pub(crate) fn buckets(alloc: Global, count: usize) -> Result<Vec<usize>, AllocError>
    ensures { IfOk result (λ v. v.items ≡ replicate count 0) }
{
    let mut heads = Vec::with_capacity(alloc, count)?;
    heads.resize(count, 0)?;
    Ok(heads)
}

/// In which of so many buckets the key is. They are a power of two, so that each is as likely.
#[inline(always)]
#[tactic(auto, unfolding(crate::specs::Chains::bucket_of))]
fn bucket_of(key: &Key, count: usize) -> usize
    requires { 0 < count }
    ensures value { result ≡ bucket_of count key.now }
    ensures within { result < count }
{
    hash_of(key) as usize & (count - 1)
}

/// What a hasher makes of the key.
#[inline(always)]
#[tactic(auto, unfolding(crate::specs::Chains::key_hash))]
fn hash_of(key: &Key) -> u64
    ensures { result ≡ key_hash key.now }
{
    let mut state = FoldHasher::default();
    key.hash(&mut state);
    state.finish()
}
