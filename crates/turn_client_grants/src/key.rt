//! The keys by which a grant is found.

ghost use Rattle.std.specs.Prelude.{◌≡◌};
ghost use Rattle.turn_agent.specs.Agent.{same_address};
ghost use Rattle.turn_client_grants.specs.Keys.{is_found_by, is_open_to, name_of, peer_of};

use crate::kind::{is_channel_of, is_permission_of};
use crate::same::is_same_address;
use std::hash::{Hash, Hasher};
use std::net::{IpAddr, SocketAddr};
use turn_client_api::{Grant, Progress};

/// A key by which a grant is found.
#[derive(Clone, Copy, Debug, PartialEq, Eq)]
pub enum Key {
    /// The number of a channel.
    Number(u16),
    /// The peer of a channel that is pending or active.
    Peer(SocketAddr),
    /// The IP address of a permission.
    Ip(IpAddr),
}

// An IPv4 address is written at once with its port and what kind of key it is, since each write costs a
// multiplication, and a derived `hash` makes one for each octet.
//
// The client chooses the numbers of channels, but peers choose their addresses, and the hasher has no secret
// seed: strangers can find addresses that collide. That is safe, since no packet adds a key. The chains have only
// peers that the caller permitted or bound, whose number the caller bounds (docs/SECURITY.md, "The caller"),
// and a look-up compares each of them at most once.
impl Hash for Key {
    ghost use Rattle.std.proofs.Common.{rules};
    ghost use Rattle.std.specs.Cmp.Rules.{hashing};
    ghost use Rattle.turn_client_grants.specs.KeyHash.{key_writes};

    ghost hash_input = { key_writes };

    ghost respects_eq = { Prim.search (hashing, rules) };

    #[inline(always)]
    fn hash<H: Hasher>(&self, state: &mut H) {
        match self {
            Key::Number(number) => state.write_u64(u64::from(*number)),
            Key::Peer(SocketAddr::V4(peer)) => {
                let ip = u64::from(peer.ip().to_bits());
                state.write_u64(1 << 48 | ip << 16 | u64::from(peer.port()));
            }
            Key::Peer(SocketAddr::V6(peer)) => {
                state.write_u128(peer.ip().to_bits());
                state.write_u64(1 << 16 | u64::from(peer.port()));
            }
            Key::Ip(IpAddr::V4(ip)) => state.write_u64(2 << 48 | u64::from(ip.to_bits())),
            Key::Ip(IpAddr::V6(ip)) => state.write_u128(ip.to_bits()),
        }
    }
}

impl Key {
    /// Whether the grant is found by this key.
    // Inlined, as what it calls and the hash, since each caller knows which kind of key it has.
    #[inline(always)]
    pub(crate) fn finds(&self, grant: &Grant) -> bool
        ensures { result ≡ is_found_by self.now grant.now }
    {
        match self {
            Key::Number(number) => is_channel_of(*number, grant),
            Key::Peer(peer) => is_open_to(*peer, grant),
            Key::Ip(ip) => is_permission_of(*ip, grant),
        }
    }
}

/// Whether the grant is a channel to the peer that is pending or active.
#[inline(always)]
pub(crate) fn is_open_to(peer: SocketAddr, grant: &Grant) -> bool
    ensures { result ≡ is_open_to peer grant.now }
{
    match grant {
        Grant::Channel(_, other, Progress::Pending(_) | Progress::Active(_)) => {
            is_same_address(other, &peer)
        }
        _ => false,
    }
}

/// The key of a grant that is no address with a port, if it has one.
pub(crate) fn name_of(grant: &Grant) -> Option<Key>
    ensures { result ≡ name_of grant.now }
{
    match grant {
        Grant::Permission(ip, _) => Some(Key::Ip(*ip)),
        Grant::Channel(number, _, _) => Some(Key::Number(*number)),
        Grant::Allocation(_) => None,
        Grant::Connect(_) => None,
        Grant::Offer(_) => None,
        Grant::Connection(_) => None,
    }
}

/// The other key, of a channel that is pending or active.
pub(crate) fn peer_of(grant: &Grant) -> Option<Key>
    ensures { result ≡ peer_of grant.now }
{
    match grant {
        Grant::Channel(_, peer, Progress::Pending(_) | Progress::Active(_)) => {
            Some(Key::Peer(*peer))
        }
        _ => None,
    }
}
