//! The words of a call's line that clients and sessions have in common (`docs/rattle/LINES.md`).

use crate::world::{local, server};
use std::alloc::{AllocError, Global};
use std::fmt;
use std::net::{IpAddr, SocketAddr};
use turn_types::TransportType;

/// An IP address, as a line has it.
#[derive(Clone, Copy)]
pub struct Ip(pub IpAddr);

impl fmt::Display for Ip {
    fn fmt<W: fmt::Write>(&self, f: &mut fmt::Formatter<W>) -> fmt::Result {
        match self.0 {
            IpAddr::V4(ip) => write!(f, "{ip}"),
            IpAddr::V6(ip) => {
                let bits = ip.to_bits();
                write!(f, "[{bits:032x}]")
            }
        }
    }
}

/// An address, as a line has it.
#[derive(Clone, Copy)]
pub struct Address(pub SocketAddr);

impl fmt::Display for Address {
    fn fmt<W: fmt::Write>(&self, f: &mut fmt::Formatter<W>) -> fmt::Result {
        let ip = Ip(self.0.ip());
        let port = self.0.port();
        write!(f, "{ip}:{port}")
    }
}

/// Bytes, as a line has them.
#[derive(Clone, Copy)]
pub struct Bytes<'a>(pub &'a [u8]);

impl fmt::Display for Bytes<'_> {
    fn fmt<W: fmt::Write>(&self, f: &mut fmt::Formatter<W>) -> fmt::Result {
        if self.0.is_empty() {
            return write!(f, "-");
        }
        for byte in self.0 {
            write!(f, "{byte:02x}")?;
        }
        Ok(())
    }
}

/// The word for a transport.
pub fn transport_word(transport: TransportType) -> &'static str {
    match transport {
        TransportType::Udp => "udp",
        TransportType::Tcp => "tcp",
    }
}

/// The words of the call that passes in bytes over this transport, from the first address to the second.
///
/// # Errors
///
/// If memory allocation fails.
pub fn recv_words(
    alloc: Global,
    transport: TransportType,
    from: SocketAddr,
    to: SocketAddr,
    bytes: &[u8],
) -> Result<String, AllocError> {
    let (transport, bytes) = (transport_word(transport), Bytes(bytes));
    let (from, to) = (Address(from), Address(to));
    format!(in alloc; "recv {transport} {from} {to} {bytes}")
}

/// Writes the words of the call that says from which end the data connection with this number to this peer was opened, or that
/// it could not be.
///
/// # Errors
///
/// If the writer fails.
pub fn write_socket<W: fmt::Write>(
    f: &mut fmt::Formatter<W>,
    id: u32,
    peer: SocketAddr,
    end: Option<SocketAddr>,
) -> fmt::Result {
    let (local, server, peer) = (Address(local()), Address(server()), Address(peer));
    write!(f, "socket {id} tcp {local} {server} {peer} ")?;
    match end {
        Some(end) => {
            let end = Address(end);
            write!(f, "{end}")
        }
        None => write!(f, "-"),
    }
}
