//! Idle peers.

ghost use Rattle.std.specs.Prelude.{◌≡◌, is_some, nat_lt, false, true, IfOk, OnErr, OnOk};
ghost use Rattle.std.specs.List.{position};
ghost use Rattle.turn_session_idle.specs.IdlePeers.{after_decision, after_look, after_use, done_state, due_step, idle_step};
ghost use Rattle.turn_session_idle.specs.IdlePeers.{look_pause, looks_now, no_peers, step_of};
ghost use Rattle.turn_session_idle.specs.Usage.{is_due};

use crate::usage::{Usage, UsePhase};
use crate::usages::{place_of, usages_at, use_all};
use std::alloc::{AllocError, Global};
use std::marker::Model;
use std::time::Duration;
use turn_session_book::held::HeldGrant;
use turn_session_book::keys::Key;
use turn_stun::instant::Instant;

/// So often it is looked for idle peers in the time after which a peer is idle.
const LOOKS: u64 = 4;

/// What is to be done about idle peers.
#[derive(Clone, Copy, Debug, PartialEq, Eq)]
pub enum IdleStep {
    /// This grant is to be kept again, since its peer is used again.
    Keep(Key),
    /// This grant is to be released, since its peer is idle.
    Release(Key),
    /// Nothing before this time.
    WaitUntil(Instant),
    /// Nothing ever: no peer is idle.
    Off,
}

/// When the peers of a session were used last, and which of their grants are released because they are idle.
#[derive(Debug, Drop)]
pub struct IdlePeers {
    alloc: Global,
    /// A peer that is not used for so long is idle, in nanoseconds.
    idle: Option<u64>,
    /// When it is looked for idle peers next.
    look: Instant,
    usages: Vec<Usage>,
}

impl Model for IdlePeers {
    ghost use Rattle.turn_session_idle.specs.IdleState.{IdleState};

    ghost Value = { IdleState };

    ghost view = { λ p. record { idle = p.idle; look = p.look; usages = p.usages.items } };
}

impl IdlePeers {
    /// No peer was used. One is idle if it is not used for this time, in nanoseconds, or with `None` it never is. It is looked
    /// for idle peers by the first `poll` from now on, and then four times in that time.
    pub fn new(alloc: Global, idle: Option<u64>, now: Instant) -> IdlePeers
        ensures { result ≡ no_peers idle now }
    {
        IdlePeers {
            alloc,
            idle,
            look: now,
            usages: Vec::new(alloc),
        }
    }

    /// Whether a peer may be idle.
    pub fn is_on(&self) -> bool
        ensures { result ≡ is_some self.now.idle }
    {
        self.idle.is_some()
    }

    /// The peer of this key is used: it is requested, or data came from this peer or is sent to it. With a channel or a data
    /// connection the permission of its IP address is used too. What was released is to be kept again by `poll`.
    pub fn used(&mut self, key: Key, now: Instant)
        ensures { self.new ≡ after_use key now self.old }
    {
        match self.idle {
            Some(_idle) => use_all(&mut self.usages, key, now),
            None => {}
        }
    }

    /// The caller says whether it keeps this key. Its peer is taken as used by the next look, and what the caller has released
    /// stays so when the peer is used.
    pub fn decided(&mut self, key: Key)
        ensures { self.new ≡ after_decision key self.old }
    {
        if let Some(place) = place_of(&self.usages, key) {
            let _forgotten = self.usages.remove(place);
        }
    }

    /// What is to be done next, as the caller is to do then. `granted` is all that is granted. If it is time for a look, what
    /// is kept of idle peers is to be released, one grant by each call.
    ///
    /// # Errors
    ///
    /// If memory allocation fails, which only a look can meet. Nothing changes then.
    pub fn poll(&mut self, granted: &[HeldGrant], now: Instant) -> Result<IdleStep, AllocError>
        ensures ok { IfOk result (λ step. (step, self.new) ≡ idle_step granted.now now self.old) }
        ensures err { OnErr result (self.new ≡ self.old) }
        ensures due { OnErr result (looks_now now self.old ≡ true) }
    {
        let Some(idle) = self.idle else {
            return Ok(IdleStep::Off);
        };
        self.look(granted, idle, now)?;
        Ok(self.take_due())
    }

    /// Looks at all peers, if it is time.
    ///
    /// # Errors
    ///
    /// If memory allocation fails. Nothing changes then.
    fn look(&mut self, granted: &[HeldGrant], idle: u64, now: Instant) -> Result<(), AllocError>
        ensures ok { OnOk result (self.new ≡ after_look granted.now idle now self.old) }
        ensures err { OnErr result (self.new ≡ self.old) }
        ensures due { OnErr result (nat_lt now self.old.look ≡ false) }
    {
        if now < self.look {
            return Ok(());
        }
        self.usages = usages_at(self.alloc, &self.usages, granted, idle, now)?;
        self.look = now.plus(Duration::from_nanos(look_pause(idle)));
        Ok(())
    }

    /// The first grant that is to be released or kept again, or else when to look next.
    fn take_due(&mut self) -> IdleStep
        ensures step { result ≡ due_step self.old }
        ensures after { self.new ≡ done_state self.old }
    {
        match self.due_place() {
            Some(place) => {
                let usage = self.usages[place];
                self.usages[place] = usage.carried_out();
                step_of(&usage)
            }
            None => IdleStep::WaitUntil(self.look),
        }
    }

    /// The place of the first grant that is to be released or kept again.
    fn due_place(&self) -> Option<usize>
        ensures { result ≡ position is_due self.now.usages }
    {
        self.usages.iter().position(|usage| usage.is_due())
    }
}

/// What is to be done about a grant that is to be released or kept again.
fn step_of(usage: &Usage) -> IdleStep
    ensures { result ≡ step_of usage.now }
{
    match usage.phase {
        UsePhase::UsedAgain => IdleStep::Keep(usage.key),
        _ => IdleStep::Release(usage.key),
    }
}

/// The time between two looks, in nanoseconds.
fn look_pause(idle: u64) -> u64
    ensures { result ≡ look_pause idle }
{
    (idle / LOOKS).max(1)
}
