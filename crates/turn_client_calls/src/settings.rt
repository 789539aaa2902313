//! What a new client is to request, and of whom.

ghost use Rattle.std.specs.Prelude.{◌≡◌, Some, IsSome};
ghost use Rattle.turn_client_calls.specs.Settings.{algorithms_with, config_with, families_with, relayed_for};

use std::alloc::Global;
use std::net::SocketAddr;
use std::time::Duration;
use turn_auth::credentials::TurnCredentials;
use turn_auth::feature::Feature;
use turn_auth::integrity::IntegrityAlgorithm;
use turn_client_api::TurnConfig;
use turn_types::{AddressFamily, TransportType};

/// The addresses of the client and its server.
#[derive(Clone, Copy, Debug, PartialEq, Eq)]
pub struct Ends {
    /// The transport between them.
    pub transport: TransportType,
    /// The client's address.
    pub local: SocketAddr,
    /// The server's address.
    pub remote: SocketAddr,
}

/// The allocation that a client requests, and how.
#[derive(Clone, Copy, Debug, PartialEq, Eq)]
pub struct Request {
    /// The transport between the server and peers. It is UDP if the client reaches its server over UDP.
    pub allocation: TransportType,
    /// The address family that is requested first, and the second if it is requested too.
    pub families: (AddressFamily, Option<AddressFamily>),
    /// The algorithms that are supported, one or two: their order has no effect.
    pub algorithms: (IntegrityAlgorithm, Option<IntegrityAlgorithm>),
    /// Whether the user name is hidden from observers (USERHASH; RFC 8489, section 14.4).
    pub anonymous: Feature,
}

/// When requests are retransmitted and time out (RFC 8489, section 6.2.1). All times are in nanoseconds.
#[derive(Clone, Copy, Debug, PartialEq, Eq)]
pub struct Waits {
    /// The time after the first transmission.
    pub initial: u64,
    /// The longest time between two transmissions.
    pub max: u64,
    /// The number of transmissions, with the first.
    pub count: u32,
    /// The time after the last transmission.
    pub last: u64,
}

/// `Some` if a client over this transport may request this allocation: an allocation over TCP needs a client
/// over TCP (RFC 6062, section 4.1).
pub fn relayed_for(transport: TransportType, allocation: TransportType) -> Option<()>
    ensures value { result ≡ relayed_for transport allocation }
    ensures relays { IsSome result → transport ≡ TransportType.Udp → allocation ≡ TransportType.Udp }
{
    match (transport, allocation) {
        (TransportType::Udp, TransportType::Tcp) => None,
        _ => Some(()),
    }
}

/// The configuration of a client that makes this request with these credentials, and retransmits it by
/// these times, or by the default ones.
pub fn configuration(
    alloc: Global,
    request: Request,
    credentials: TurnCredentials,
    waits: Option<Waits>,
) -> TurnConfig
    ensures { result ≡ config_with request credentials waits }
{
    let mut config = TurnConfig::new(alloc, credentials);
    set_families(&mut config, request.families);
    set_algorithms(&mut config, request.algorithms);
    config.set_allocation_transport(request.allocation);
    config.set_anonymous_username(request.anonymous);
    if let Some(waits) = waits {
        config.set_request_retransmits(
            Duration::from_nanos(waits.initial),
            Duration::from_nanos(waits.max),
            waits.count,
            Duration::from_nanos(waits.last),
        );
    }
    config
}

/// Requests a relayed address of the first family, and one of the second if there is a second.
fn set_families(config: &mut TurnConfig, families: (AddressFamily, Option<AddressFamily>))
    ensures { config.new ≡ record config.old { address_families = families_with families } }
{
    config.set_address_family(families.0);
    match families.1 {
        None => {}
        Some(family) => config.add_address_family(family),
    }
}

/// Sets the algorithms that are supported: the first, and the second if there is a second.
fn set_algorithms(
    config: &mut TurnConfig,
    algorithms: (IntegrityAlgorithm, Option<IntegrityAlgorithm>),
)
    ensures { config.new ≡ record config.old { supported_integrity = algorithms_with algorithms } }
{
    config.set_supported_integrity(algorithms.0);
    match algorithms.1 {
        None => {}
        Some(algorithm) => config.add_supported_integrity(algorithm),
    }
}
