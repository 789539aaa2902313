//! The methods of TURN (RFC 8656, section 17, and RFC 6062, section 6.1).

use turn_stun::message::method::Method;

/// Requests a relayed address.
pub const ALLOCATE: Method = Method { value: 0x003 };
/// Extends the lifetime of an allocation, or deletes it.
pub const REFRESH: Method = Method { value: 0x004 };
/// Carries data to a peer.
pub const SEND: Method = Method { value: 0x006 };
/// Carries data, or an ICMP error, from a peer.
pub const DATA: Method = Method { value: 0x007 };
/// Requests a permission for a peer.
pub const CREATE_PERMISSION: Method = Method { value: 0x008 };
/// Requests a channel to a peer.
pub const CHANNEL_BIND: Method = Method { value: 0x009 };
/// Requests that the server connect to a peer.
pub const CONNECT: Method = Method { value: 0x00a };
/// Binds a connection to the server to the connection with a peer, whose data it then carries.
pub const CONNECTION_BIND: Method = Method { value: 0x00b };
/// Reports that a peer has connected to the server.
pub const CONNECTION_ATTEMPT: Method = Method { value: 0x00c };
