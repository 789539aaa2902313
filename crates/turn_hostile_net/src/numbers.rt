//! The numbers of channels: each names one peer for as long as it is kept from others (RFC 8656, section 12).

use crate::fault::Fault;
use crate::world::{MS, SECOND};
use std::alloc::Global;
use std::net::SocketAddr;

/// How long a client waits for a response (RFC 8489, section 6.2.1).
pub const PENDING: u64 = 39_500 * MS;

/// How long a channel lasts, and its number is kept from other peers after that (RFC 8656, section 12).
pub const KEPT: u64 = 900 * SECOND;

/// A request of the caller for a channel.
#[derive(Clone, Copy)]
struct Bind {
    peer: SocketAddr,
    /// The request is pending at least until then, if nothing answers it.
    until: u64,
    /// Whether it was sent.
    is_sent: bool,
}

/// A number, and the one peer that it may name.
#[derive(Clone, Copy)]
struct Claim {
    number: u16,
    peer: SocketAddr,
    /// The number is this peer's alone at least until then.
    until: u64,
}

/// The numbers that were requested.
#[derive(Drop)]
pub struct Numbers {
    binds: Vec<Bind>,
    claims: Vec<Claim>,
}

impl Numbers {
    /// No number.
    pub fn new(alloc: Global) -> Numbers {
        Numbers {
            binds: Vec::new(alloc),
            claims: Vec::new(alloc),
        }
    }

    /// The caller requests a channel.
    ///
    /// # Errors
    ///
    /// If memory allocation fails.
    pub fn request(&mut self, peer: SocketAddr, now: u64) -> Result<(), Fault> {
        let until = now.saturating_add(PENDING);
        let is_sent = false;
        Ok(
            self.binds.push(Bind {
                peer,
                until,
                is_sent,
            })?,
        )
    }

    /// Until when the first request for a channel to this peer that was not sent before is pending at least, or 0. It is
    /// sent now: requests are sent in order, and one that has timed out before it was sent is still sent.
    fn send_first(&mut self, peer: SocketAddr) -> u64 {
        for bind in self.binds.iter_mut() {
            if bind.peer == peer && !bind.is_sent {
                bind.is_sent = true;
                return bind.until;
            }
        }
        0
    }

    /// A request names this number and this peer. No call was later than `latest`, and the allocations are active and
    /// the request pending at least until `allocated`. Returns whether the number may name the peer.
    ///
    /// # Errors
    ///
    /// If memory allocation fails.
    pub fn name(
        &mut self,
        number: u16,
        peer: SocketAddr,
        latest: u64,
        allocated: u64,
    ) -> Result<bool, Fault> {
        let mut is_known = false;
        for claim in self.claims.iter() {
            if claim.number == number {
                if claim.peer == peer {
                    is_known = true;
                } else if claim.until > latest {
                    return Ok(false);
                }
            }
        }
        if !is_known {
            let until = self.send_first(peer).min(allocated);
            self.claims.push(Claim {
                number,
                peer,
                until,
            })?;
        }
        Ok(true)
    }

    /// The number is the peer's alone until then, and no longer.
    pub fn settle(&mut self, number: u16, peer: SocketAddr, until: u64) {
        for claim in self.claims.iter_mut() {
            if claim.number == number && claim.peer == peer {
                claim.until = until;
            }
        }
    }

    /// The allocations end then, and all numbers with them.
    pub fn shorten(&mut self, until: u64) {
        for claim in self.claims.iter_mut() {
            claim.until = claim.until.min(until);
        }
    }
}
