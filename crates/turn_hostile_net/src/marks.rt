//! What the caller keeps: no refresh begins of a permission or a channel that it has let go.

use crate::fault::Fault;
use crate::request::Purpose;
use std::alloc::Global;
use std::net::{IpAddr, SocketAddr};

/// What the caller keeps, or lets go.
#[derive(Clone, Copy, PartialEq)]
pub enum Kept {
    /// The permission for this IP address.
    Permission(IpAddr),
    /// The channel to this peer.
    Channel(SocketAddr),
}

/// What the caller said of a permission or a channel last.
#[derive(Clone, Copy)]
struct Mark {
    what: Kept,
    is_kept: bool,
    /// How many requests of the caller for it were not sent yet.
    queued: u32,
}

/// A request that was sent for a permission or a channel.
#[derive(Clone, Copy)]
struct Sent {
    id: [u8; 12],
    what: Kept,
    /// Whether a signed response to it was processed.
    is_answered: bool,
}

/// What the caller said of all that it has requested.
#[derive(Drop)]
pub struct Marks {
    marks: Vec<Mark>,
    sent: Vec<Sent>,
}

impl Marks {
    /// Nothing was requested.
    pub fn new(alloc: Global) -> Marks {
        Marks {
            marks: Vec::new(alloc),
            sent: Vec::new(alloc),
        }
    }

    /// The caller requests it, by so many requests for it alone. It is kept, if it is a new grant.
    ///
    /// # Errors
    ///
    /// If memory allocation fails.
    pub fn request(&mut self, what: Kept, requests: u32) -> Result<(), Fault> {
        for mark in self.marks.iter_mut() {
            if mark.what == what {
                mark.is_kept = true;
                mark.queued = mark.queued.saturating_add(requests);
                return Ok(());
            }
        }
        Ok(
            self.marks.push(Mark {
                what,
                is_kept: true,
                queued: requests,
            })?,
        )
    }

    /// The client has accepted that it is kept, or not. Returns whether it was ever requested.
    pub fn say(&mut self, what: Kept, is_kept: bool) -> bool {
        for mark in self.marks.iter_mut() {
            if mark.what == what {
                mark.is_kept = is_kept;
                return true;
            }
        }
        false
    }

    /// A request with this ID is sent for it. Returns whether it may be: it was sent before, the caller requested it,
    /// it is kept, or another request for it is pending, to which the server may want another nonce.
    ///
    /// # Errors
    ///
    /// If memory allocation fails.
    pub fn send(&mut self, id: [u8; 12], what: Kept) -> Result<bool, Fault> {
        let mut is_pending = false;
        for sent in self.sent.iter() {
            if sent.id == id {
                return Ok(true);
            }
            is_pending = is_pending || (sent.what == what && !sent.is_answered);
        }
        self.sent.push(Sent {
            id,
            what,
            is_answered: false,
        })?;
        Ok(self.take_queued(what) || is_pending)
    }

    /// Whether it is kept, or a request of the caller for it was not sent yet, which is sent now.
    fn take_queued(&mut self, what: Kept) -> bool {
        for mark in self.marks.iter_mut() {
            if mark.what == what {
                let may_be_sent = mark.is_kept || mark.queued > 0;
                mark.queued = mark.queued.saturating_sub(1);
                return may_be_sent;
            }
        }
        false
    }

    /// The client has processed a signed response to the request with this ID.
    pub fn answer(&mut self, id: [u8; 12]) {
        for sent in self.sent.iter_mut() {
            if sent.id == id {
                sent.is_answered = true;
            }
        }
    }
}

/// The permission or the channel that a request is for.
pub fn kept_by(purpose: Purpose) -> Option<Kept> {
    match purpose {
        Purpose::Permit(peer) => Some(Kept::Permission(peer.ip())),
        Purpose::Bind(_, peer) => Some(Kept::Channel(peer)),
        _ => None,
    }
}
