//! The settings of a new client.

ghost use Rattle.std.specs.Prelude.{◌≡◌, IfSome};
ghost use Rattle.turn_stun.specs.declared.transport.TransportType.TheVariants.{Udp};
ghost use Rattle.turn_c_calls.specs.Settings.{c_algorithm, c_algorithms, c_cadence, c_families, c_family, c_feature, has_reserved_zero, unless_zero};
ghost use Rattle.turn_c_calls.specs.Settings.{c_ends, c_switch, other_algorithm, other_family, plan_of, c_requested, c_waits};

use crate::address::{Address, c_transport, socket_at};
use crate::code::{AUTO, DISABLED, NO_PAUSE, NONE, REQUIRED, SHA1, SHA256, VERSION_4, VERSION_6};
use turn_auth::feature::Feature;
use turn_auth::integrity::IntegrityAlgorithm;
use turn_client_calls::settings::{Ends, Request, Waits, relayed_for};
use turn_types::AddressFamily;

/// The settings of a new client: all but its user and its seed. [`code`](crate::code) has the numbers.
#[derive(Clone, Copy, Debug, PartialEq, Eq)]
#[repr(C)]
pub struct Settings {
    /// How long after a request is made it is sent again, in nanoseconds, if `has_waits` says so.
    pub wait_initial: u64,
    /// The longest wait before a request is sent again, in nanoseconds.
    pub wait_max: u64,
    /// The wait after a request is last sent, in nanoseconds.
    pub wait_last: u64,
    /// How many times a request is sent in all.
    pub wait_count: u32,
    /// 0 for the default retransmission times, and any other number for these.
    pub has_waits: u32,
    /// The transport between the client and its server.
    pub transport: u32,
    /// The transport between the server and peers. It is UDP if the client reaches its server over UDP.
    pub relays: u32,
    /// The address family that is requested first.
    pub family: u32,
    /// The other family if it is requested too, or 0.
    pub other_family: u32,
    /// An integrity algorithm that is supported.
    pub algorithm: u32,
    /// The other one if it is supported too, or 0.
    pub other_algorithm: u32,
    /// Whether the user name is hidden from observers.
    pub anonymous: u32,
    /// How many challenges in a row are answered, or 0 for the default number.
    pub max_stale_nonces: u16,
    /// 1 if a queued request waits for its response from when its first copy is sent, and 0 if it does from when it is made.
    pub timed_from_send: u16,
    /// The client's address.
    pub local: Address,
    /// The server's address.
    pub remote: Address,
    /// The pause between two requests, in nanoseconds: 0 for the default, and [`NO_PAUSE`](crate::code::NO_PAUSE) for none.
    pub request_cadence: u64,
    /// After how long without a packet the path to the server is kept alive, in nanoseconds: 0 for never.
    pub keepalive: u64,
    /// How long before its expiry a grant is refreshed, in nanoseconds: 0 for the default.
    pub refresh_ahead: u64,
    /// 0.
    pub reserved_places: [u64; 2],
}

/// What the settings say.
#[derive(Clone, Copy, Debug, PartialEq, Eq)]
pub struct Plan {
    /// The addresses of the client and its server.
    pub ends: Ends,
    /// The allocation that the client requests, and how.
    pub request: Request,
    /// The retransmission times, or `None` for the default ones.
    pub waits: Option<Waits>,
    /// How many challenges in a row are answered, or 0 for the default number.
    pub max_stale_nonces: u16,
    /// The pause between two requests, in nanoseconds, or `None` for the default one.
    pub request_cadence: Option<u64>,
    /// After how long without a packet the path to the server is kept alive, in nanoseconds, or `None` for never.
    pub keepalive: Option<u64>,
    /// How long before its expiry a grant is refreshed, in nanoseconds, or `None` for the default.
    pub refresh_ahead: Option<u64>,
    /// Whether a queued request waits for its response from when its first copy is sent.
    pub timed_from_send: bool,
}

/// What the settings say, or none if a number or an address is invalid, a reserved place is not 0, or a client over UDP
/// requests an allocation over TCP (RFC 6062, section 4.1).
pub fn plan_of(settings: &Settings) -> Option<Plan>
    ensures value { result ≡ plan_of settings.now }
    ensures relays { IfSome result (λ plan. plan.ends.transport ≡ Udp → plan.request.allocation ≡ Udp) }
{
    if !has_reserved_zero(settings) {
        return None;
    }
    let ends = c_ends(settings)?;
    let request = c_requested(settings)?;
    relayed_for(ends.transport, request.allocation)?;
    let timed_from_send = c_switch(settings.timed_from_send)?;
    Some(Plan {
        ends,
        request,
        waits: c_waits(settings),
        max_stale_nonces: settings.max_stale_nonces,
        request_cadence: c_cadence(settings.request_cadence),
        keepalive: unless_zero(settings.keepalive),
        refresh_ahead: unless_zero(settings.refresh_ahead),
        timed_from_send,
    })
}

/// Whether the reserved places are 0, but for those of the addresses.
fn has_reserved_zero(settings: &Settings) -> bool
    ensures { result ≡ has_reserved_zero settings.now }
{
    let places = settings.reserved_places;
    places[0] == 0 && places[1] == 0
}

/// Whether a setting is on: 0 is off, and 1 is on.
fn c_switch(number: u16) -> Option<bool>
    ensures { result ≡ c_switch number }
{
    match number {
        0 => Some(false),
        1 => Some(true),
        _ => None,
    }
}

/// The pause between two requests, or `None` for the default one.
fn c_cadence(nanos: u64) -> Option<u64>
    ensures { result ≡ c_cadence nanos }
{
    if nanos == NO_PAUSE {
        Some(0)
    } else {
        unless_zero(nanos)
    }
}

/// A time, or `None` if it is 0.
fn unless_zero(nanos: u64) -> Option<u64>
    ensures { result ≡ unless_zero nanos }
{
    if nanos == 0 { None } else { Some(nanos) }
}

fn c_ends(settings: &Settings) -> Option<Ends>
    ensures { result ≡ c_ends settings.now }
{
    let transport = c_transport(settings.transport)?;
    let local = socket_at(&settings.local)?;
    let remote = socket_at(&settings.remote)?;
    Some(Ends {
        transport,
        local,
        remote,
    })
}

fn c_requested(settings: &Settings) -> Option<Request>
    ensures { result ≡ c_requested settings.now }
{
    let allocation = c_transport(settings.relays)?;
    let families = c_families(settings.family, settings.other_family)?;
    let algorithms = c_algorithms(settings.algorithm, settings.other_algorithm)?;
    let anonymous = c_feature(settings.anonymous)?;
    Some(Request {
        allocation,
        families,
        algorithms,
        anonymous,
    })
}

fn c_families(first: u32, other: u32) -> Option<(AddressFamily, Option<AddressFamily>)>
    ensures { result ≡ c_families first other }
{
    let first = c_family(first)?;
    let other = other_family(other)?;
    Some((first, other))
}

fn other_family(code: u32) -> Option<Option<AddressFamily>>
    ensures { result ≡ other_family code }
{
    if code == NONE {
        return Some(None);
    }
    Some(Some(c_family(code)?))
}

fn c_family(code: u32) -> Option<AddressFamily>
    ensures { result ≡ c_family code }
{
    match code {
        VERSION_4 => Some(AddressFamily::IPV4),
        VERSION_6 => Some(AddressFamily::IPV6),
        _ => None,
    }
}

fn c_algorithms(first: u32, other: u32) -> Option<(IntegrityAlgorithm, Option<IntegrityAlgorithm>)>
    ensures { result ≡ c_algorithms first other }
{
    let first = c_algorithm(first)?;
    let other = other_algorithm(other)?;
    Some((first, other))
}

fn other_algorithm(code: u32) -> Option<Option<IntegrityAlgorithm>>
    ensures { result ≡ other_algorithm code }
{
    if code == NONE {
        return Some(None);
    }
    Some(Some(c_algorithm(code)?))
}

fn c_algorithm(code: u32) -> Option<IntegrityAlgorithm>
    ensures { result ≡ c_algorithm code }
{
    match code {
        SHA1 => Some(IntegrityAlgorithm::Sha1),
        SHA256 => Some(IntegrityAlgorithm::Sha256),
        _ => None,
    }
}

fn c_feature(code: u32) -> Option<Feature>
    ensures { result ≡ c_feature code }
{
    match code {
        AUTO => Some(Feature::Auto),
        REQUIRED => Some(Feature::Required),
        DISABLED => Some(Feature::Disabled),
        _ => None,
    }
}

fn c_waits(settings: &Settings) -> Option<Waits>
    ensures { result ≡ c_waits settings.now }
{
    if settings.has_waits == NONE {
        return None;
    }
    Some(Waits {
        initial: settings.wait_initial,
        max: settings.wait_max,
        count: settings.wait_count,
        last: settings.wait_last,
    })
}
