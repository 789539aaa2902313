//! A new client, its server, and the peers.

ghost use Rattle.std.specs.Prelude.{◌≡◌, ◌≤◌, ◌*◌, ◌^◌, IfOk};

use std::alloc::Global;
use std::net::{IpAddr, Ipv4Addr, SocketAddr};
use std::num::NonZeroU16;
use std::process::Abort;
use std::time::Duration;
use turn_auth::credentials::{CredentialsError, TurnCredentials};
use turn_client_api::TurnConfig;
use turn_client_proto::client::TurnClient;
use turn_client_proto::tcp::TurnClientTcp;
use turn_client_proto::udp::TurnClientUdp;
use turn_stun::instant::Instant;
use turn_stun::transport::TransportType;

pub(crate) fn local() -> SocketAddr {
    SocketAddr::new(IpAddr::V4(Ipv4Addr::new(192, 168, 0, 1)), 1_000)
}

pub(crate) fn server() -> SocketAddr {
    SocketAddr::new(IpAddr::V4(Ipv4Addr::new(10, 0, 0, 2)), 2_000)
}

/// The client's end of a data connection.
pub(crate) fn data_end() -> SocketAddr {
    SocketAddr::new(IpAddr::V4(Ipv4Addr::new(192, 168, 0, 1)), 1_001)
}

/// This many milliseconds after the start.
pub(crate) fn at(millis: u32) -> Instant
    ensures { result ≤ 2 ^ 62 }
{
    Instant::from_nanos(u64::from(millis) * 1_000_000)
}

/// A peer, or a relayed address: the last number of an address `10.0.0.x`, and a port.
#[derive(Clone, Copy)]
pub(crate) struct Place(pub(crate) u8, pub(crate) u16);

impl Place {
    pub(crate) fn ip(self) -> IpAddr {
        IpAddr::V4(Ipv4Addr::new(10, 0, 0, self.0))
    }

    pub(crate) fn address(self) -> SocketAddr {
        SocketAddr::new(self.ip(), self.1)
    }
}

/// The configuration of `user` with the password `pass`.
fn config(alloc: Global) -> Result<TurnConfig, CredentialsError>
    ensures { IfOk result (λ config. config.allocation_transport ≡ TransportType.Udp) }
{
    let credentials = TurnCredentials::new(alloc, b"user", b"pass")?;
    Ok(TurnConfig::new(alloc, credentials))
}

/// A new client over UDP of the seed of zeros.
pub(crate) fn client_over_udp(alloc: Global) -> Result<TurnClientUdp, CredentialsError> {
    let config = config(alloc)?;
    Ok(TurnClientUdp::allocate(alloc, local(), server(), config, [0; 32])?)
}

/// The same as either of the two clients.
pub(crate) fn either_over_udp(alloc: Global) -> Result<TurnClient, CredentialsError> {
    Ok(TurnClient::from(client_over_udp(alloc)?))
}

/// A new client over UDP that answers so many challenges in a row.
pub(crate) fn client_with_limit(
    alloc: Global,
    max_stale_nonces: NonZeroU16,
) -> Result<TurnClientUdp, CredentialsError> {
    let mut config = config(alloc)?;
    config.set_max_stale_nonces(max_stale_nonces);
    Ok(TurnClientUdp::allocate(alloc, local(), server(), config, [0; 32])?)
}

/// A new client over UDP, whose requests wait for their responses from when they are sent, or else from when they are made.
pub(crate) fn client_by_send(
    alloc: Global,
    timed_from_send: bool,
) -> Result<TurnClientUdp, CredentialsError> {
    let mut config = config(alloc)?;
    config.set_requests_timed_from_send(timed_from_send);
    Ok(TurnClientUdp::allocate(alloc, local(), server(), config, [0; 32])?)
}

/// A new client over UDP for a slow link: it waits for 3 s before it sends a request again, and answers so many challenges in a row.
pub(crate) fn client_over_slow_link(
    alloc: Global,
    max_stale_nonces: NonZeroU16,
) -> Result<TurnClientUdp, CredentialsError> {
    let mut config = config(alloc)?;
    let wait = Duration::from_secs(3);
    config.set_request_retransmits(wait, wait, 7, wait);
    config.set_max_stale_nonces(max_stale_nonces);
    Ok(TurnClientUdp::allocate(alloc, local(), server(), config, [0; 32])?)
}

/// The times that a caller sets, in milliseconds.
#[derive(Clone, Copy)]
pub(crate) struct Times {
    /// The pause between two requests.
    pub(crate) cadence: u32,
    /// After how long without a packet the path to the server is kept alive, if ever.
    pub(crate) keepalive: Option<u32>,
    /// How long before its expiry a grant is refreshed.
    pub(crate) ahead: u32,
}

/// A new client over UDP with these times, which waits for 3 s before it sends a request again.
pub(crate) fn client_with_times(
    alloc: Global,
    times: Times,
) -> Result<TurnClientUdp, CredentialsError> {
    let mut config = config(alloc)?;
    let wait = Duration::from_secs(3);
    config.set_request_retransmits(wait, wait, 7, wait);
    config.set_request_cadence(millis(times.cadence));
    config.set_keepalive(times.keepalive.map(millis));
    config.set_refresh_ahead(millis(times.ahead));
    Ok(TurnClientUdp::allocate(alloc, local(), server(), config, [0; 32])?)
}

fn millis(count: u32) -> Duration {
    Duration::from_millis(u64::from(count))
}

/// A new client over TCP of the seed of zeros.
pub(crate) fn client_over_tcp(alloc: Global) -> Result<TurnClientTcp, CredentialsError> {
    let config = config(alloc)?;
    Ok(TurnClientTcp::allocate(alloc, local(), server(), config, [0; 32])?)
}

/// The same as either of the two clients.
pub(crate) fn either_over_tcp(alloc: Global) -> Result<TurnClient, CredentialsError> {
    Ok(TurnClient::from(client_over_tcp(alloc)?))
}

/// A new client over TCP, with an allocation for TCP connections of its peers (RFC 6062, section 4.1).
pub(crate) fn client_with_connections(alloc: Global) -> Result<TurnClientTcp, CredentialsError> {
    let mut config = config(alloc)?;
    config.set_allocation_transport(TransportType::Tcp);
    Ok(TurnClientTcp::allocate(alloc, local(), server(), config, [0; 32])?)
}

/// Asserts that this case holds.
pub(crate) fn check(rt: &impl Abort, is_so: bool, case: u32) {
    assert!(rt; is_so, "case {case}");
}
