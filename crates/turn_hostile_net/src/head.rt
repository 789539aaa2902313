//! The client of a run, as the head of a trace describes it (`docs/rattle/LINES.md`).

ghost use Rattle.std.specs.Prelude.{◌≡◌};

use crate::words::{Address, Bytes, transport_word};
use crate::world::{Kind, local, server};
use std::alloc::{AllocError, Global};
use turn_types::{AddressFamily, TransportType};

/// The user name of a client, and its password.
pub const CREDENTIALS: (&[u8], &[u8]) = (b"user", b"pass");

/// The seed of the client's transaction IDs.
pub fn seed_bytes(seed: u64) -> [u8; 32] {
    let [a, b, c, d, e, f, g, h] = seed.to_le_bytes();
    [
        a, b, c, d, e, f, g, h, 0, 0, 0, 0, 0, 0, 0, 0, 0, 0, 0, 0, 0, 0, 0, 0, 0, 0, 0, 0, 0, 0,
        0, 0,
    ]
}

/// The transport over which the server relays for a client of this kind.
pub fn allocation_of(kind: Kind) -> TransportType
    ensures { kind.transport ≡ TransportType.Udp → result ≡ TransportType.Udp }
{
    match kind.transport {
        TransportType::Udp => TransportType::Udp,
        TransportType::Tcp => kind.relays,
    }
}

/// The head of a trace of a client of this kind and this seed, with these words at its end.
///
/// # Errors
///
/// If memory allocation fails.
pub fn head_words(
    alloc: Global,
    kind: Kind,
    seed: u64,
    timing: &str,
) -> Result<String, AllocError> {
    let transport = transport_word(kind.transport);
    let allocation = transport_word(allocation_of(kind));
    let (from, to) = (Address(local()), Address(server()));
    let families = families_word(kind);
    let (user, password) = (Bytes(CREDENTIALS.0), Bytes(CREDENTIALS.1));
    let seed = seed_bytes(seed);
    let seed = Bytes(&seed);
    format!(in alloc;
        "{transport} {from} {to} {allocation} {families} sha1 auto {user} {password} {seed}{timing}"
    )
}

fn families_word(kind: Kind) -> &'static str {
    match (kind.first, kind.second) {
        (AddressFamily::IPV4, None) => "4",
        (AddressFamily::IPV6, None) => "6",
        (AddressFamily::IPV4, Some(_)) => "4,6",
        (AddressFamily::IPV6, Some(_)) => "6,4",
    }
}
