//! Packets on their way to the client.

use crate::fault::Fault;
use std::alloc::Global;
use std::net::{IpAddr, SocketAddr};

/// What a response does.
#[derive(Clone, Copy)]
pub enum Effect {
    /// It grants nothing.
    Refused,
    /// It grants nothing, whatever is requested, and has this error code.
    Denied(u16),
    /// It grants nothing, and has this error code, a realm and this nonce: the request is to be made again.
    Challenged(u16, u32),
    /// The relayed addresses are granted for so many seconds.
    Allocated(u32),
    /// They are granted for so many seconds from now on; 0 deletes them.
    Refreshed(u32),
    /// Peers of this IP address are permitted.
    Permitted(IpAddr),
    /// This channel goes to this peer, which is permitted too.
    Bound(u16, SocketAddr),
    /// This channel does not go to this peer.
    ChannelRefused(u16, SocketAddr),
    /// The connection with this number goes to this peer.
    Connected(u32, SocketAddr),
    /// The data connection with this end at the client is bound to its peer.
    ConnectionBound(SocketAddr),
}

/// A signed response of the server.
#[derive(Clone, Copy)]
pub struct Answer {
    /// The transaction ID of the request.
    pub id: [u8; 12],
    /// What it does, the first time.
    pub effect: Effect,
    /// Whether the client has to drop it the second time.
    pub counts_once: bool,
}

/// What a client may believe of a packet.
#[derive(Clone, Copy)]
pub enum Truth {
    /// Nothing that grants anything.
    Nothing,
    /// It is a signed response.
    Answers(Answer),
    /// It offers the connection with this number to this peer (RFC 6062, section 4.4).
    Offers(u32, SocketAddr),
}

/// A packet on its way to the client.
#[derive(Drop)]
pub struct Packet {
    /// When it arrives, in nanoseconds.
    pub due: u64,
    /// Where it comes from.
    pub from: SocketAddr,
    /// The end of the client to which it goes.
    pub to: SocketAddr,
    /// Its bytes.
    pub bytes: Vec<u8>,
    /// What the client may believe of it.
    pub truth: Truth,
}

impl Packet {
    /// The same packet, which arrives then.
    ///
    /// # Errors
    ///
    /// If memory allocation fails.
    pub fn copy(&self, alloc: Global, due: u64) -> Result<Packet, Fault> {
        let bytes = Vec::from_slice(alloc, self.bytes.as_slice())?;
        Ok(Packet {
            due,
            from: self.from,
            to: self.to,
            bytes,
            truth: self.truth,
        })
    }
}

/// The packets that are on their way.
#[derive(Drop)]
pub struct Wire {
    packets: Vec<Packet>,
}

impl Wire {
    /// No packet.
    pub fn new(alloc: Global) -> Wire {
        Wire {
            packets: Vec::new(alloc),
        }
    }

    /// Sends a packet off.
    ///
    /// # Errors
    ///
    /// If memory allocation fails.
    pub fn send(&mut self, packet: Packet) -> Result<(), Fault> {
        Ok(self.packets.push(packet)?)
    }

    /// A copy of the packet at this place, which arrives then.
    ///
    /// # Errors
    ///
    /// If memory allocation fails.
    pub fn copy_of(&self, alloc: Global, place: u64, due: u64) -> Result<Option<Packet>, Fault> {
        match self.packets.as_slice().get(place as usize) {
            Some(packet) => Ok(Some(packet.copy(alloc, due)?)),
            None => Ok(None),
        }
    }

    /// When the next packet arrives.
    pub fn next_due(&self) -> u64 {
        let mut least = u64::MAX;
        for packet in self.packets.iter() {
            least = least.min(packet.due);
        }
        least
    }

    /// Takes a packet that arrives at this time.
    pub fn take(&mut self, due: u64) -> Option<Packet> {
        let place = place_of(self.packets.as_slice(), due)?;
        if place < self.packets.len() {
            Some(self.packets.remove(place))
        } else {
            None
        }
    }
}

/// The place of the first packet that arrives at this time.
fn place_of(packets: &[Packet], due: u64) -> Option<usize> {
    for (place, packet) in packets.iter().enumerate() {
        if packet.due == due {
            return Some(place);
        }
    }
    None
}
