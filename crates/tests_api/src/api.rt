//! What no clause says: external values, printed texts, and that each call succeeds while memory allocation
//! does.

mod addresses;
mod configuration;
mod memory;
mod payloads;
mod texts;

use crate::fixture::{config, peer, same, same_bytes};
use std::alloc::{AllocError, Global};
use std::convert::AsSlice;
use std::net::{IpAddr, Ipv4Addr, Ipv6Addr, SocketAddr};
use std::process::Abort;
use turn_auth::credentials::CredentialsError;
use turn_client_api::{TurnConfig, TurnPeerData};
use turn_types::TransportType;

/// A Data indication from 10.0.0.3:9000 (RFC 8656, section 11.4): `hello` is at bytes 36 to 41.
const HELLO: [u8; 44] = [
    0x00, 0x17, 0x00, 0x18, 0x21, 0x12, 0xa4, 0x42, 0, 0, 0, 0, 0, 0, 0, 0, 0, 0, 0, 1, 0x00, 0x12,
    0x00, 0x08, 0x00, 0x01, 0x02, 0x3a, 0x2b, 0x12, 0xa4, 0x41, 0x00, 0x13, 0x00, 0x05, 0x68, 0x65,
    0x6c, 0x6c, 0x6f, 0x00, 0x00, 0x00,
];

/// 10.0.0.4:40000.
fn relayed() -> SocketAddr {
    SocketAddr::new(IpAddr::V4(Ipv4Addr::new(10, 0, 0, 4)), 40000)
}

/// [::1]:40000.
fn relayed_ipv6() -> SocketAddr {
    let ip = Ipv6Addr::new(0, 0, 0, 0, 0, 0, 0, 1);
    SocketAddr::new(IpAddr::V6(ip), 40000)
}

// Configurations are boxed: a function that owns one directly costs far more to prove, since a proof opens all
// values that are dropped at its end.

fn boxed(alloc: Global, config: TurnConfig) -> Result<Box<TurnConfig>, AllocError> {
    Ok(Box::new(alloc, config)?)
}

/// The configuration of `user` with the password `pass`.
fn boxed_config(alloc: Global) -> Result<Box<TurnConfig>, CredentialsError> {
    Ok(boxed(alloc, config(alloc)?)?)
}

/// Compares a payload with `hello` from the peer.
fn is_hello<T: AsSlice<u8>>(rt: &impl Abort, payload: &TurnPeerData<T>, transport: TransportType) {
    same_bytes(rt, payload.data(), b"hello");
    same_bytes(rt, payload.as_slice(), b"hello");
    same(rt, (payload.transport, payload.peer), (transport, peer()));
}
