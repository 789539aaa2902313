//! The uses of all grants.

ghost use Rattle.std.specs.Prelude.{◌≡◌, map, IfOk};
ghost use Rattle.std.specs.List.{position};
ghost use Rattle.turn_session_idle.specs.Usage.{used_with};
ghost use Rattle.turn_session_idle.specs.Usages.{grant_at, is_usage_of, usage_of};

use crate::usage::Usage;
use std::alloc::{AllocError, Global};
use turn_session_book::held::HeldGrant;
use turn_session_book::keys::Key;
use turn_stun::instant::Instant;

/// The place of the grant of this key.
pub(crate) fn place_of(usages: &[Usage], key: Key) -> Option<usize>
    ensures { result ≡ position (is_usage_of key) usages.now }
{
    usages.iter().position(|usage| usage.key == key)
}

/// The grant of this key. One that is not known yet is used now.
fn usage_of(usages: &[Usage], key: Key, now: Instant) -> Usage
    ensures { result ≡ usage_of key now usages.now }
{
    match place_of(usages, key) {
        Some(place) => usages[place],
        None => Usage::new(key, now),
    }
}

/// All that is used with this key is used now.
pub(crate) fn use_all(usages: &mut Vec<Usage>, key: Key, now: Instant)
    ensures { usages.new.items ≡ map (used_with key now) usages.old.items }
{
    let all = usages.as_mut_slice();
    for usage in all.iter_mut() {
        *usage = used_with(usage, key, now);
    }
}

/// This grant after a use of this key.
fn used_with(usage: &Usage, key: Key, now: Instant) -> Usage
    ensures { result ≡ used_with key now usage.now }
{
    if usage.is_used_with(key) {
        usage.used(now)
    } else {
        *usage
    }
}

/// What is granted, after a look at each peer. One is idle if it was not used for this time, in nanoseconds.
///
/// # Errors
///
/// If memory allocation fails.
pub(crate) fn usages_at(
    alloc: Global,
    usages: &[Usage],
    grants: &[HeldGrant],
    idle: u64,
    now: Instant,
) -> Result<Vec<Usage>, AllocError>
    ensures { IfOk result (λ all. all.items ≡ map (grant_at idle now usages.now) grants.now) }
{
    let mut all = Vec::with_capacity(alloc, grants.len())?;
    for grant in grants {
        all.push_reserved(grant_at(usages, grant, idle, now));
    }
    Ok(all)
}

/// A grant after a look at its peer.
fn grant_at(usages: &[Usage], grant: &HeldGrant, idle: u64, now: Instant) -> Usage
    ensures { result ≡ grant_at idle now usages.now grant.now }
{
    usage_of(usages, grant.key, now).looked_at(grant.is_kept, idle, now)
}
