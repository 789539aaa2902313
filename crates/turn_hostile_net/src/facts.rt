//! What was granted, and until when.

use crate::fault::Fault;
use std::alloc::Global;
use std::net::{IpAddr, SocketAddr};

/// Something that the server grants.
#[derive(Clone, Copy, PartialEq)]
pub enum Fact {
    /// This relayed address.
    Relayed(SocketAddr),
    /// A permission for this IP address.
    Permitted(IpAddr),
    /// This channel to this peer.
    Channel(u16, SocketAddr),
    /// The data connection with this end at the client, to this peer.
    Connection(SocketAddr, SocketAddr),
    /// A channel to this peer.
    ChannelTo(SocketAddr),
    /// A data connection to this peer.
    ConnectionTo(SocketAddr),
}

/// A fact, and when it has expired at the latest.
#[derive(Clone, Copy)]
pub struct Grant {
    /// What was granted.
    pub fact: Fact,
    /// The expiry, in nanoseconds, or `None` if it has expired.
    pub until: Option<u64>,
}

/// All that was granted.
#[derive(Drop)]
pub struct Facts {
    grants: Vec<Grant>,
}

impl Facts {
    /// Nothing.
    pub fn new(alloc: Global) -> Facts {
        Facts {
            grants: Vec::new(alloc),
        }
    }

    /// Adds a fact, or prolongs it.
    ///
    /// # Errors
    ///
    /// If memory allocation fails.
    pub fn add(&mut self, fact: Fact, until: u64) -> Result<(), Fault> {
        for grant in self.grants.iter_mut() {
            if grant.fact == fact {
                grant.until = Some(until.max(grant.until.unwrap_or(0)));
                return Ok(());
            }
        }
        let until = Some(until);
        Ok(self.grants.push(Grant { fact, until })?)
    }

    /// The expiry of a fact, if it may still hold.
    pub fn until(&self, fact: Fact) -> Option<u64> {
        for grant in self.grants.iter() {
            if grant.fact == fact {
                return grant.until;
            }
        }
        None
    }

    /// The expiry of a fact, or 0 if it does not hold.
    pub fn expiry(&self, fact: Fact) -> u64 {
        self.until(fact).unwrap_or(0)
    }

    /// Whether a fact may still hold.
    pub fn has(&self, fact: Fact) -> bool {
        self.until(fact).is_some()
    }

    /// Whether a fact was ever granted.
    pub fn was_granted(&self, fact: Fact) -> bool {
        for grant in self.grants.iter() {
            if grant.fact == fact {
                return true;
            }
        }
        false
    }

    /// Whether data of this peer may be received.
    pub fn may_receive(&self, peer: SocketAddr) -> bool {
        self.has(Fact::Permitted(peer.ip()))
            || self.has(Fact::ChannelTo(peer))
            || self.has(Fact::ConnectionTo(peer))
    }

    /// The fact at this place of the list, if there is one and it may still hold.
    pub fn fact_at(&self, place: usize) -> Option<Fact> {
        let grant = self.grants.as_slice().get(place)?;
        grant.until.and(Some(grant.fact))
    }

    /// Drops each permission and channel that has expired by now. An allocation may be waiting for its last refresh.
    pub fn sweep(&mut self, now: u64) {
        for grant in self.grants.iter_mut() {
            let may_wait = matches!(grant.fact, Fact::Relayed(_));
            if !may_wait && grant.until.unwrap_or(u64::MAX) <= now {
                grant.until = None;
            }
        }
    }

    /// Prolongs all relayed addresses that may still be active.
    pub fn prolong(&mut self, until: u64) {
        for grant in self.grants.iter_mut() {
            if let (Fact::Relayed(_), Some(before)) = (grant.fact, grant.until) {
                grant.until = Some(until.max(before));
            }
        }
    }

    /// Drops all but data connections.
    pub fn clear(&mut self) {
        for grant in self.grants.iter_mut() {
            if !matches!(grant.fact, Fact::Connection(..) | Fact::ConnectionTo(_)) {
                grant.until = None;
            }
        }
    }
}
