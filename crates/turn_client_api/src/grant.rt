//! What the server granted a client, what is pending, and what each request was made for.

use std::net::{IpAddr, SocketAddr};
use turn_stun::instant::Instant;
use turn_stun::transaction::TransactionId;
use turn_types::AddressFamily;

/// The progress of a permission or a channel.
#[derive(Clone, Copy, Debug, PartialEq, Eq)]
pub enum Progress {
    /// It is requested, and the server has not answered. It is kept once it is granted, or not.
    Pending(bool),
    /// The server granted it.
    Active(Lease),
    /// A channel that expired, or whose refresh was refused: neither its number nor its peer is
    /// bound again until this time (RFC 8656, section 12).
    Reserved(Instant),
}

/// Until when a permission or a channel is granted, and whether it is kept.
#[derive(Clone, Copy, Debug, PartialEq, Eq)]
pub struct Lease {
    /// When it expires. Each success of a later request for it extends it: a permission lasts 300
    /// seconds, a channel 600 (RFC 8656, sections 9 and 12).
    pub expiry: Instant,
    /// Whether it is refreshed before it expires. It is, until the caller says otherwise.
    pub is_kept: bool,
}

/// An allocation: a relayed address, at which the server receives packets for the client (RFC 8656,
/// section 7).
#[derive(Clone, Copy, Debug, PartialEq, Eq)]
pub struct Relay {
    /// The relayed address, which peers see.
    pub relayed: SocketAddr,
    /// The lifetime that the server gave first, in nanoseconds. It never changes, and decides how
    /// long before its expiry the allocation is refreshed.
    pub first_lifetime: u64,
    /// When it expires. A refresh that gives at least 600 s extends it, and `delete` sets it to the
    /// time of that call.
    pub expiry: Instant,
    /// Set when a call finds that the expiry of the allocation has passed, or deletes it, and never
    /// cleared: no data is sent over it, and it is not refreshed any more.
    pub is_expired: bool,
}

/// Why the client offers its caller a data connection (RFC 6062, sections 4.3 and 4.4).
#[derive(Clone, Copy, Debug, PartialEq, Eq)]
pub enum Origin {
    /// The server made the connection to the peer that the client requested with a CONNECT.
    OwnConnect,
    /// The server reported a peer's connection in a request with this ID. It is answered once the
    /// caller has opened the data connection, or could not.
    ServerRequest(TransactionId),
    /// The server reported a peer's connection in an indication, which has no answer.
    ServerIndication,
}

/// An offer: a data connection that the caller is to open (RFC 6062, section 4.3).
#[derive(Clone, Copy, Debug, PartialEq, Eq)]
pub struct DataOffer {
    /// The connection ID that the server assigned, from its CONNECTION-ID attribute.
    pub connection_id: u32,
    /// The peer at the far end.
    pub peer: SocketAddr,
    /// Set when `poll` reports the offer to the caller, which it does once.
    pub is_reported: bool,
    /// Why it is to be opened.
    pub origin: Origin,
}

/// A data connection that the caller opened.
#[derive(Clone, Copy, Debug, PartialEq, Eq)]
pub struct DataConnection {
    /// Its local address.
    pub local: SocketAddr,
    /// The peer whose data it carries.
    pub peer: SocketAddr,
    /// The deadline by which the server is to bind it, or `None` once it is bound (RFC 6062,
    /// section 4.3).
    pub deadline: Option<Instant>,
}

/// Something that the server granted, or that is pending.
///
/// A client has at most one allocation of each address family, so every other grant belongs to the
/// allocation whose relayed address has the family of its peer.
#[derive(Clone, Copy, Debug, PartialEq, Eq)]
pub enum Grant {
    /// A relayed address of the client.
    Allocation(Relay),
    /// Peers of this IP address are permitted, whatever their port (RFC 8656, section 9).
    Permission(IpAddr, Progress),
    /// Data of this peer is carried in ChannelData messages with this number, 4000 to 4FFF in
    /// hexadecimal (RFC 8656, section 12).
    Channel(u16, SocketAddr, Progress),
    /// A CONNECT to this peer is pending: the server has not answered (RFC 6062, section 4.3).
    Connect(SocketAddr),
    /// The caller is to open a data connection.
    Offer(DataOffer),
    /// The caller opened a data connection. It waits to be bound, or is bound.
    Connection(DataConnection),
}

/// What a request is for.
#[derive(Clone, Copy, Debug, PartialEq, Eq)]
pub enum Purpose {
    /// ALLOCATE, for addresses of the families that the client still requests (RFC 8656, section
    /// 7).
    ForAllocation,
    /// REFRESH of the allocation of this family, with this lifetime in seconds. 0 deletes it (RFC
    /// 8656, section 8).
    ForRefresh(AddressFamily, u32),
    /// CREATE_PERMISSION for this IP address (RFC 8656, section 10).
    ForPermission(IpAddr),
    /// CHANNEL_BIND of this number to this peer (RFC 8656, section 12).
    ForChannel(u16, SocketAddr),
    /// CONNECT to this peer (RFC 6062, section 4.3).
    ForConnect(SocketAddr),
    /// CONNECTION_BIND, which is sent from this local address: for the connection to this peer,
    /// with the connection ID that the server assigned (RFC 6062, section 4.3).
    ForBind(SocketAddr, SocketAddr, u32),
}

/// A purpose for which a request with this ID was made. A request with several purposes is listed
/// once for each, and one that is made again after a challenge is listed under both IDs, but a
/// CONNECTION_BIND under the new one alone.
#[derive(Clone, Copy, Debug, PartialEq, Eq)]
pub struct Listing {
    /// The transaction ID of the request.
    pub id: TransactionId,
    /// What it was made for.
    pub purpose: Purpose,
}
