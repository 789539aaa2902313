//! The program around a client, as the samples see it: counters in place of sockets.

use std::alloc::{AllocError, Global};
use std::net::{IpAddr, Ipv4Addr, SocketAddr};
use turn_client_api::TurnEvent;
use turn_stun::data::Data;
use turn_stun::transport::Transmit;

/// This port of the client's host.
pub fn local(port: u16) -> SocketAddr {
    SocketAddr::new(IpAddr::V4(Ipv4Addr::new(192, 168, 0, 1)), port)
}

pub fn server() -> SocketAddr {
    SocketAddr::new(IpAddr::V4(Ipv4Addr::new(10, 0, 0, 2)), 2_000)
}

pub fn peer() -> SocketAddr {
    SocketAddr::new(IpAddr::V4(Ipv4Addr::new(10, 0, 0, 3)), 9_000)
}

/// What came of the tasks of a client.
#[derive(Drop)]
pub struct Program {
    pub alloc: Global,
    /// How many packets were sent to the server.
    pub sent: u32,
    /// The last event.
    pub event: Option<TurnEvent>,
    /// The data of the peer, joined.
    pub heard: Vec<u8>,
    /// How many data connections are open.
    pub open: u32,
}

impl Program {
    pub fn new(alloc: Global) -> Program {
        Program {
            alloc,
            sent: 0,
            event: None,
            heard: Vec::new(alloc),
            open: 0,
        }
    }

    pub fn send(&mut self, packet: &Transmit<Data>) {
        if packet.to == server() {
            self.sent = self.sent.saturating_add(1);
        }
    }

    /// Keeps the data if it is of the one peer here.
    pub fn deliver(&mut self, from: SocketAddr, data: &[u8]) -> Result<(), AllocError> {
        if from == peer() {
            self.heard.extend_from_slice(data)?;
        }
        Ok(())
    }

    pub fn note(&mut self, event: TurnEvent) {
        self.event = Some(event);
    }

    /// Connects to the server, and returns the local address, or none if that failed.
    pub fn connect(&mut self, to: SocketAddr) -> Option<SocketAddr> {
        if to != server() {
            return None;
        }
        self.open = self.open.saturating_add(1);
        Some(local(1_001))
    }

    pub fn close(&mut self, at: SocketAddr) {
        if at == local(1_001) {
            self.open = self.open.saturating_sub(1);
        }
    }
}
