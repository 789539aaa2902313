//! Data connections that the server offers (RFC 6062, sections 4.3 and 4.4).

use crate::fault::Fault;
use std::alloc::Global;
use std::net::SocketAddr;

/// The offer of a data connection.
#[derive(Clone, Copy)]
struct Offer {
    /// The number of the connection.
    id: u32,
    peer: SocketAddr,
    /// The end of the client, once the connection is opened.
    end: Option<SocketAddr>,
    /// Whether the client has passed the offer on to its caller.
    is_taken: bool,
}

/// All offers.
#[derive(Drop)]
pub struct Offers {
    offers: Vec<Offer>,
}

impl Offers {
    /// No offer.
    pub fn new(alloc: Global) -> Offers {
        Offers {
            offers: Vec::new(alloc),
        }
    }

    /// The server offers the connection with this number to this peer.
    ///
    /// # Errors
    ///
    /// If memory allocation fails.
    pub fn add(&mut self, id: u32, peer: SocketAddr) -> Result<(), Fault> {
        let offer = Offer {
            id,
            peer,
            end: None,
            is_taken: false,
        };
        Ok(self.offers.push(offer)?)
    }

    /// The client passes an offer on to its caller, who opens the connection from this end, or does not. Returns whether
    /// it was offered, and is passed on only now.
    pub fn take(&mut self, id: u32, peer: SocketAddr, end: Option<SocketAddr>) -> bool {
        for offer in self.offers.iter_mut() {
            if offer.id == id && offer.peer == peer && !offer.is_taken {
                offer.is_taken = true;
                offer.end = end;
                return true;
            }
        }
        false
    }

    /// The peer of the data connection from this end, if it was opened.
    pub fn peer_at(&self, end: SocketAddr) -> Option<SocketAddr> {
        for offer in self.offers.iter() {
            if offer.end == Some(end) {
                return Some(offer.peer);
            }
        }
        None
    }
}
