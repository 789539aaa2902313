//! Assertions, a configuration and an address that the tests of more than one crate use.
//!
//! A proof follows each local of a test on each path out of it, and the text of each assertion again. So each
//! assertion is written once, here; rows are data; and a failed memory allocation ends most tests.

ghost use Rattle.std.specs.Prelude.{◌≡◌, IfOk};

use std::alloc::Global;
use std::fmt::Debug;
use std::net::{IpAddr, Ipv4Addr, SocketAddr};
use std::process::Abort;
use turn_auth::credentials::{CredentialsError, TurnCredentials};
use turn_client_api::TurnConfig;
use turn_stun::transport::TransportType;

/// Asserts that this holds.
pub(crate) fn check(rt: &impl Abort, holds: bool) {
    assert!(rt; holds);
}

/// Asserts that both values are equal.
pub(crate) fn same<T: PartialEq + Debug + Drop>(rt: &impl Abort, found: T, want: T) {
    assert_eq!(rt; found, want);
}

/// Asserts that both have the same bytes.
pub(crate) fn same_bytes(rt: &impl Abort, found: &[u8], want: &[u8]) {
    same(rt, found, want);
}

/// 10.0.0.3:9000.
pub(crate) fn peer() -> SocketAddr {
    SocketAddr::new(IpAddr::V4(Ipv4Addr::new(10, 0, 0, 3)), 9000)
}

/// The configuration of `user` with the password `pass`, for an IPv4 allocation over UDP.
pub(crate) fn config(alloc: Global) -> Result<TurnConfig, CredentialsError>
    ensures { IfOk result (λ config. config.allocation_transport ≡ TransportType.Udp) }
{
    let credentials = TurnCredentials::new(alloc, b"user", b"pass")?;
    Ok(TurnConfig::new(alloc, credentials))
}
