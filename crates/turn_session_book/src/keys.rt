//! What a session requests of the server.

ghost use Rattle.std.specs.Prelude.{◌≡◌};
ghost use Rattle.turn_session_book.specs.Addresses.{family_of_ip, same_family};
ghost use Rattle.turn_session_book.specs.Keys.{family_of_key, is_in, permission_for};

use std::net::{IpAddr, SocketAddr};
use turn_types::AddressFamily;

/// What a request is for. There is one request of each key at a time.
#[derive(Clone, Copy, Debug, PartialEq, Eq)]
pub enum Key {
    /// A permission for the IP address of a peer (RFC 8656, section 9).
    Permission(IpAddr),
    /// A channel to a peer (RFC 8656, section 12).
    Channel(SocketAddr),
    /// A data connection to a peer (RFC 6062, section 4.3).
    Connect(SocketAddr),
}

impl Key {
    /// The family of the peer's address, and of the allocation that the key is in (RFC 8656, section 3).
    pub fn family(self) -> AddressFamily
        ensures { result ≡ family_of_key self }
    {
        match self {
            Key::Permission(ip) => family_of(ip),
            Key::Channel(peer) => family_of(peer.ip()),
            Key::Connect(peer) => family_of(peer.ip()),
        }
    }
}

/// The permission for the IP address of the peer, which a channel needs too (RFC 8656, section 12), and a data connection (RFC
/// 6062, section 4.3).
pub fn permission_for(key: Key) -> Key
    ensures { result ≡ permission_for key }
{
    match key {
        Key::Permission(ip) => Key::Permission(ip),
        Key::Channel(peer) | Key::Connect(peer) => Key::Permission(peer.ip()),
    }
}

/// The family of an address.
pub fn family_of(ip: IpAddr) -> AddressFamily
    ensures { result ≡ family_of_ip ip }
{
    match ip {
        IpAddr::V4(_) => AddressFamily::IPV4,
        IpAddr::V6(_) => AddressFamily::IPV6,
    }
}

/// Whether the key is in an allocation of this family.
pub(crate) fn is_in(family: AddressFamily, key: Key) -> bool
    ensures { result ≡ is_in family key }
{
    key.family() == family
}
