//! Idle peers whose last use is noted apart, so that data of the same peer again costs a compare and a store.

ghost use Rattle.std.specs.Prelude.{◌≡◌, is_some, true, IfOk, OnErr, Some};
ghost use Rattle.std.specs.Option.{option_eq};
ghost use Rattle.turn_session_book.specs.Keys.{same_key};
ghost use Rattle.turn_session_idle.specs.IdlePeers.{after_decision, after_use, idle_step, looks_now, no_peers};
ghost use Rattle.turn_session_idle.specs.Used.{after_last_use};

use crate::peers::{IdlePeers, IdleStep};
use std::alloc::{AllocError, Global};
use std::marker::Model;
use turn_session_book::held::HeldGrant;
use turn_session_book::keys::Key;
use turn_stun::instant::Instant;

/// When the peers of a session were used last, and which of their grants are released because they are idle.
///
/// Contracts describe it as `IdlePeers`, with the last use among the others.
#[derive(Debug, Drop)]
pub struct UsedPeers {
    peers: IdlePeers,
    /// What was used last, unless the peers know of that.
    last: Option<Key>,
    /// When that was.
    at: Instant,
}

impl Model for UsedPeers {
    ghost use Rattle.turn_session_idle.specs.IdleState.{IdleState};
    ghost use Rattle.turn_session_idle.specs.Used.{after_last_use};

    ghost Value = { IdleState };

    ghost view = { λ u. after_last_use u.last u.at u.peers };
}

impl UsedPeers {
    /// No peer was used. One is idle if it is not used for this time, in nanoseconds, or with `None` it never is. It is looked
    /// for idle peers by the first `poll` from now on, and then four times in that time.
    pub fn new(alloc: Global, idle: Option<u64>, now: Instant) -> UsedPeers
        ensures { result ≡ no_peers idle now }
    {
        UsedPeers {
            peers: IdlePeers::new(alloc, idle, now),
            last: None,
            at: now,
        }
    }

    /// Whether a peer may be idle. If none may, `used` changes nothing.
    #[tactic(auto, using(crate::proofs::UsedLemmas::last_keeps))]
    #[inline(always)]
    pub fn is_on(&self) -> bool
        ensures { result ≡ is_some self.now.idle }
    {
        self.peers.is_on()
    }

    /// The peer of this key is used: it is requested, or data came from this peer or is sent to it. With a channel or a data
    /// connection the permission of its IP address is used too. What was released is to be kept again by `poll`.
    // Each packet of a peer asks this: where it is not inlined, the key is copied.
    #[inline(always)]
    pub fn used(&mut self, key: Key, now: Instant)
        ensures { self.new ≡ after_use key now self.old }
    {
        if !self.peers.is_on() {
            return;
        }
        if is_last(self.last, key) {
            self.at = now;
        } else {
            self.note_other(key, now);
        }
    }

    /// Notes the use of another peer than the last one.
    fn note_other(&mut self, key: Key, now: Instant)
        ensures { self.new ≡ after_use key now self.old }
    {
        tell(&mut self.peers, self.last, self.at);
        self.last = Some(key);
        self.at = now;
    }

    /// The caller says whether it keeps this key. Its peer is taken as used by the next look, and what the caller has released
    /// stays so when the peer is used.
    pub fn decided(&mut self, key: Key)
        ensures { self.new ≡ after_decision key self.old }
    {
        tell(&mut self.peers, self.last, self.at);
        self.last = None;
        self.peers.decided(key);
    }

    /// What is to be done next, as the caller is to do then. `granted` is all that is granted. If it is time for a look, what
    /// is kept of idle peers is to be released, one grant by each call.
    ///
    /// # Errors
    ///
    /// If memory allocation fails, which only a look can meet. Nothing changes then.
    pub fn poll(&mut self, granted: &[HeldGrant], now: Instant) -> Result<IdleStep, AllocError>
        ensures ok { IfOk result (λ step. (step, self.new) ≡ idle_step granted.now now self.old) }
        ensures err { OnErr result (self.new ≡ self.old) }
        ensures due { OnErr result (looks_now now self.old ≡ true) }
    {
        tell(&mut self.peers, self.last, self.at);
        self.last = None;
        self.peers.poll(granted, now)
    }
}

/// Whether this is the key of the last use.
#[inline(always)]
fn is_last(last: Option<Key>, key: Key) -> bool
    ensures { result ≡ option_eq same_key last (Some key) }
{
    match last {
        Some(last) => last == key,
        None => false,
    }
}

/// Tells these peers of the last use.
fn tell(peers: &mut IdlePeers, last: Option<Key>, at: Instant)
    ensures { peers.new ≡ after_last_use last at peers.old }
{
    if let Some(key) = last {
        peers.used(key, at);
    }
}
