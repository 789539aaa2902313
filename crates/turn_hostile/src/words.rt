//! The words of a call's line (`docs/rattle/LINES.md`).

use crate::acts::Act;
use std::alloc::{AllocError, Global};
use std::fmt;
use std::net::{IpAddr, SocketAddr};
use turn_hostile_net::marks::Kept;
use turn_hostile_net::words::{Address, Ip, transport_word, write_socket};
use turn_hostile_net::world::{local, server};
use turn_types::TransportType;

fn keep_word(is_kept: bool) -> &'static str {
    if is_kept { "keep" } else { "release" }
}

/// The words of the call, without its time.
impl fmt::Display for Act {
    fn fmt<W: fmt::Write>(&self, f: &mut fmt::Formatter<W>) -> fmt::Result {
        match *self {
            Act::Relayed => write!(f, "relayed"),
            Act::Delete => write!(f, "delete"),
            Act::Lose => write!(f, "error"),
            Act::Permit(relays, ip) => write_with_ip(f, "permit", relays, ip),
            Act::Have(relays, ip) => write_with_ip(f, "have", relays, ip),
            Act::Keep(relays, Kept::Permission(ip), is_kept) => {
                write_with_ip(f, keep_word(is_kept), relays, ip)
            }
            Act::Keep(relays, Kept::Channel(peer), is_kept) => {
                write_with_address(f, keep_word(is_kept), relays, peer)
            }
            Act::Bind(relays, peer) => write_with_address(f, "bind", relays, peer),
            Act::Connect(peer) => {
                let peer = Address(peer);
                write!(f, "connect {peer}")
            }
            Act::Send(relays, peer, data) => {
                write_with_address(f, "send", relays, peer)?;
                write!(f, " {data:016x}")
            }
            Act::Close(end) => {
                let (end, server) = (Address(end), Address(server()));
                write!(f, "closed {end} {server}")
            }
            Act::Break(end) => {
                let (server, end) = (Address(server()), Address(end));
                write!(f, "recv tcp {server} {end} -")
            }
            Act::Socket(id, peer, end) => write_socket(f, id, peer, end),
        }
    }
}

/// The words of the call that lists the permissions of this relayed address.
///
/// # Errors
///
/// If memory allocation fails.
pub fn permissions_words(
    alloc: Global,
    transport: TransportType,
    relayed: SocketAddr,
) -> Result<String, AllocError> {
    let (transport, relayed) = (transport_word(transport), Address(relayed));
    format!(in alloc; "permissions {transport} {relayed}")
}

fn write_with_ip<W: fmt::Write>(
    f: &mut fmt::Formatter<W>,
    name: &str,
    relays: TransportType,
    ip: IpAddr,
) -> fmt::Result {
    let (relays, ip) = (transport_word(relays), Ip(ip));
    write!(f, "{name} {relays} {ip}")
}

fn write_with_address<W: fmt::Write>(
    f: &mut fmt::Formatter<W>,
    name: &str,
    relays: TransportType,
    address: SocketAddr,
) -> fmt::Result {
    let (relays, address) = (transport_word(relays), Address(address));
    write!(f, "{name} {relays} {address}")
}
