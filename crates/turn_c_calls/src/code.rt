//! The numbers that stand for names in a [`Request`](crate::request::Request), an [`Answer`](crate::answer::Answer) and
//! [`Settings`](crate::settings::Settings). The methods, events and errors are those of `TurnClientApi`.

/// A transport: UDP.
pub const UDP: u32 = 0;

/// A transport: TCP.
pub const TCP: u32 = 1;

/// An address family: there is no address.
pub const NO_FAMILY: u8 = 0;

/// An address family: IPv4.
pub const IPV4: u8 = 4;

/// An address family: IPv6.
pub const IPV6: u8 = 6;

// ---- the kinds of requests

/// `delete`.
pub const DELETE: u32 = 1;

/// `create_permission` for the IP address of `peer`, over `transport`.
pub const CREATE_PERMISSION: u32 = 2;

/// `bind_channel` to `peer`, over `transport`.
pub const BIND_CHANNEL: u32 = 3;

/// `tcp_connect` to `peer`.
pub const TCP_CONNECT: u32 = 4;

/// `allocated_tcp_socket` for the offer `id` of a data connection to `peer`, whose [`ALLOCATE_TCP_SOCKET`] had
/// `transport`, `from` and `to`. Its local address is `local`, or no address if it could not be opened.
pub const ALLOCATED_TCP_SOCKET: u32 = 5;

/// `tcp_closed` for the data connection from `from` to `to`.
pub const TCP_CLOSED: u32 = 6;

/// `send_to` of the data to `peer`, over `transport`. The packet is written to the buffer, which holds at least 64
/// bytes more than the data.
pub const SEND_TO: u32 = 7;

/// `recv` of the data, which came from `from` to `to` over `transport`.
pub const RECV: u32 = 8;

/// `poll_recv`.
pub const POLL_RECV: u32 = 9;

/// `poll`.
pub const POLL: u32 = 10;

/// `poll_transmit`. The packet is written to the buffer, and what does not fit is left to be read.
pub const POLL_TRANSMIT: u32 = 11;

/// `poll_event`.
pub const POLL_EVENT: u32 = 12;

/// `protocol_error`.
pub const PROTOCOL_ERROR: u32 = 13;

/// `relayed_addresses`: the one at the index `id`, counted from 0.
pub const RELAYED_ADDRESSES: u32 = 14;

/// `permissions` in the allocation over `transport` with the relayed address `from`: the one at the index `id`, counted
/// from 0.
pub const PERMISSIONS: u32 = 15;

/// `have_permission` for the IP address of `peer`, over `transport`.
pub const HAVE_PERMISSION: u32 = 16;

/// No call: the next of the bytes that an earlier answer left.
pub const READ: u32 = 17;

/// `set_permission_kept` for the IP address of `peer`, over `transport`: kept if `id` is 1, and let go if it is 0.
pub const SET_PERMISSION_KEPT: u32 = 18;

/// `set_channel_kept` for the channel to `peer`, over `transport`: kept if `id` is 1, and let go if it is 0.
pub const SET_CHANNEL_KEPT: u32 = 19;

/// `send_to` of data of a length to `peer`, over `transport`, for a caller that sends the data from where it lies: what precedes
/// the data in the packet is written to the buffer, which holds at least 64 bytes.
pub const SEND_HEAD: u32 = 20;

/// `abandon`. The packet, if there is one, is written to the buffer, and what does not fit is left to be read.
pub const ABANDON: u32 = 21;

/// `next_permission` in the allocation over `transport` with the relayed address `from`, from the position `id` on. It only looks.
pub const NEXT_PERMISSION: u32 = 22;

// ---- the kinds of answers: the call was not made, or failed

/// A memory allocation failed. The client may have ended: the state is the one that the call leaves then.
pub const OUT_OF_MEMORY: u32 = 1;

/// The time is over 2^62 nanoseconds. Nothing has changed.
pub const BAD_TIME: u32 = 2;

/// There is no such kind of request, it lacks a transport or an address, or a reserved place is not 0. Nothing has changed.
pub const BAD_CALL: u32 = 3;

/// The data for a peer has over 65,504 bytes, and the allocation is over UDP. Nothing has changed.
pub const BAD_PAYLOAD: u32 = 4;

/// Bytes of an earlier answer are left, and are to be read first. Nothing has changed.
pub const UNREAD_BYTES: u32 = 5;

/// The buffer is too small for the packet of a `send_to`, or for its head. Nothing has changed.
pub const SMALL_BUFFER: u32 = 6;

/// The method returned the error `error`. For [`ERROR_EXPIRED`] the channel is reserved until `time`.
pub const REFUSED: u32 = 7;

// ---- the kinds of answers: what the method returned

/// The method succeeded.
pub const DONE: u32 = 8;

/// There is none.
pub const NOTHING: u32 = 9;

/// Nothing is to be done before `time`.
pub const WAIT_UNTIL: u32 = 10;

/// A data connection to `to` over `transport` is to be opened for `peer`: the offer `id`. `from` and `to` are the ends of
/// the control connection.
pub const ALLOCATE_TCP_SOCKET: u32 = 11;

/// The data connection from `from` to `to` is to be closed.
pub const TCP_CLOSE: u32 = 12;

/// The client has ended. Events may be left, and its data connections are to be closed.
pub const CLOSED: u32 = 13;

/// The bytes are a packet to send over `transport`, from `from` to `to`. For [`SEND_HEAD`] they are what precedes the data in it,
/// and `start` zeros follow the data.
pub const PACKET: u32 = 14;

/// The input was for the client.
pub const HANDLED: u32 = 15;

/// The input, over TCP its first frame, was not for the client.
pub const IGNORED: u32 = 16;

/// The bytes are data that `peer` sent over `transport`.
pub const PEER_DATA: u32 = 17;

/// An ICMP packet was received for data sent to `peer` over `transport`: `icmp_type`, `icmp_code` and `icmp_data`.
pub const PEER_ICMP: u32 = 18;

/// The bytes are the next of those that an earlier answer left.
pub const BYTES: u32 = 19;

/// `peer` is the address at the index, over `transport` if it is a relayed address.
pub const ADDRESS: u32 = 20;

/// The peer has a permission.
pub const YES: u32 = 21;

/// The peer has no permission.
pub const NO: u32 = 22;

/// An event: the server relays the address `peer` for the client, over `transport`.
pub const ALLOCATION_CREATED: u32 = 23;

/// An event: the server relays no address of `family`.
pub const ALLOCATION_CREATE_FAILED: u32 = 24;

/// An event: the IP address of `peer` has a permission, over `transport`.
pub const PERMISSION_CREATED: u32 = 25;

/// An event: the IP address of `peer` has no permission, or no longer, over `transport`.
pub const PERMISSION_CREATE_FAILED: u32 = 26;

/// An event: `peer` has a channel, over `transport`.
pub const CHANNEL_CREATED: u32 = 27;

/// An event: `peer` has no channel, or no longer, over `transport`.
pub const CHANNEL_CREATE_FAILED: u32 = 28;

/// An event: a data connection to `peer` is bound.
pub const TCP_CONNECTED: u32 = 29;

/// An event: a data connection to `peer` was refused, or not made in time.
pub const TCP_CONNECT_FAILED: u32 = 30;

/// The `len` bytes from `start` of the data that the request passed in were sent by `peer` over `transport`. They are
/// not copied.
pub const PEER_DATA_RANGE: u32 = 34;

// ---- what a packet is

/// A STUN message.
pub const MESSAGE: u32 = 35;

/// A ChannelData message.
pub const CHANNEL_DATA: u32 = 36;

/// Neither, or a malformed message. Over UDP also less than a whole one, or more.
pub const NO_FRAME: u32 = 37;

/// The class of a message: a request.
pub const REQUEST: u16 = 0;

/// The class of a message: an indication.
pub const INDICATION: u16 = 1;

/// The class of a message: a success response.
pub const SUCCESS: u16 = 2;

/// The class of a message: an error response.
pub const ERROR: u16 = 3;

// ---- the errors of methods

/// What the call requests is active, offered, or requested already; no channel number is free; or the local address is
/// in use.
pub const ERROR_ALREADY_EXISTS: u32 = 1;

/// There is no allocation for it.
pub const ERROR_NO_ALLOCATION: u32 = 2;

/// The peer has no permission.
pub const ERROR_NO_PERMISSION: u32 = 3;

/// No data connection to the peer is bound.
pub const ERROR_NO_SOCKET: u32 = 4;

/// The peer had a channel, and no other may be bound to it until `time` has passed.
pub const ERROR_EXPIRED: u32 = 5;

/// There is no such permission or channel, pending or active, over this transport.
pub const ERROR_NOT_GRANTED: u32 = 6;

/// A memory allocation failed. No answer has it, and no C program knows it: the answer is [`OUT_OF_MEMORY`] then.
pub const ERROR_OUT_OF_MEMORY: u32 = 255;

// ---- a new client

/// There is no second family or algorithm, or there are no retransmission times.
pub const NONE: u32 = 0;

/// A pause between two requests: there is none.
pub const NO_PAUSE: u64 = 0xffff_ffff_ffff_ffff;

/// An address family that is requested: IPv4.
pub const VERSION_4: u32 = 4;

/// An address family that is requested: IPv6.
pub const VERSION_6: u32 = 6;

/// An integrity algorithm: HMAC-SHA1.
pub const SHA1: u32 = 1;

/// An integrity algorithm: HMAC-SHA256.
pub const SHA256: u32 = 2;

/// The user name is not hidden: no offer of the server is read, so this is as [`DISABLED`] (RFC 8489, section 14.4).
pub const AUTO: u32 = 0;

/// The user name is always hidden.
pub const REQUIRED: u32 = 1;

/// The user name is never hidden.
pub const DISABLED: u32 = 2;

// ---- why there is no new client; `OUT_OF_MEMORY` is one too

/// The settings have a number or an address that is invalid, or a reserved place that is not 0, or a client over UDP
/// requests an allocation over TCP.
pub const BAD_SETTINGS: u32 = 31;

/// The user name does not have 1 to 508 bytes, or the password has over 65,535.
pub const BAD_CREDENTIALS: u32 = 32;

/// The seed does not have 32 bytes.
pub const BAD_SEED: u32 = 33;
