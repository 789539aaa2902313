//! The interface of every TURN client.

ghost use Rattle.std.specs.Prelude.{◌≡◌, ◌≤◌, ◌^◌, ℕ, true, All, IsNone, None, length, option_map, IfErr, IfOk, OnOk, OnErr, IsOk, IsSome};
ghost use Rattle.turn_stun.specs.declared.transport.TransportType.{TransportType};
ghost use Rattle.turn_stun.specs.declared.transport.TransportType.TheVariants.{Udp};
ghost use Rattle.turn_client_api.specs.State.{State, Allocated, Requesting};
ghost use Rattle.turn_client_api.specs.Abandon.{abandon_step};
ghost use Rattle.turn_client_api.specs.Addresses.{relayed_left, permitted_left};
ghost use Rattle.turn_client_api.specs.Effect.{closed};
ghost use Rattle.turn_client_api.specs.Calls.{allocated_tcp_socket_step, bind_channel_step, create_permission_step, delete_step, can_send_to, permissions_of};
ghost use Rattle.turn_client_api.specs.Calls.{FailsFamilies, channel_kept_step, permission_kept_step};
ghost use Rattle.turn_client_api.specs.Calls.{protocol_error_step, relayed_addresses_of, send_to_step, tcp_connect_step};
ghost use Rattle.turn_client_api.specs.Receive.{recv_step, tcp_closed_step};
ghost use Rattle.turn_client_api.specs.Streams.{HoldsLittle, poll_recv_step};
ghost use Rattle.turn_client_api.specs.Poll.{poll_step};
ghost use Rattle.turn_client_api.specs.Transmit.{next_transmit, transmit_step};
ghost use Rattle.turn_client_api.specs.Alarm.{IsTimely};
ghost use Rattle.turn_client_api.specs.RequestViews.{queued_request_count, viewed_request};
ghost use Rattle.turn_client_api.specs.Answers.{BindsChannel, Connects, CreatesPermission, Deletes, EndsAfterSteps, HandsBack, IsNoWay, IsSent, RecvEnds};
ghost use Rattle.turn_client_api.specs.Answers.{TakesSocket, event_step, given_payload, outcome_of, takes_no_memory};

use crate::addresses::{PermissionAddressesIter, RelayedAddressesIter};
use crate::error::{
    BindChannelError, CreatePermissionError, DeleteError, KeepError, SendError, TcpAllocateError,
    TcpConnectError,
};
use crate::event::TurnEvent;
use crate::poll::{Socket5Tuple, TurnPollRet};
use crate::receive::{TurnPeerData, TurnRecvRet};
use crate::request::RequestView;
use crate::send::DelayedMessageOrChannelSend;
use std::alloc::AllocError;
use std::convert::AsSlice;
use std::fmt::Debug;
use std::net::{IpAddr, SocketAddr};
use turn_stun::data::Data;
use turn_stun::instant::Instant;
use turn_stun::transaction::TransactionId;
use turn_stun::transport::{Transmit, TransportType};
use turn_types::transmit::TransmitBuild;

/// A TURN client that does no IO (RFC 8656; data connections by RFC 6062, IPv6 by RFC 6156).
///
/// The caller passes in the bytes that it receives, sends the packets that the client returns,
/// opens and closes data connections as `poll` reports, and calls `poll` again at the time that it
/// returned. Times are the caller's, in nanoseconds from an origin of its choice, and at most 2^62.
/// They may go back from call to call.
///
/// Contracts describe a client by its `State`, and each call as one step of the machine in
/// `docs/rattle/MACHINE.md`. A call whose memory allocation fails returns an error; its doc comment says
/// which state remains.
///
/// A caller's loop over any client, which is proved too, is `turn_driver::drive_client`:
///
/// ```rust
/// loop {
///     let rest = drive_client(&mut client, received.take(), clock.now(), 64, &mut tasks)?;
///     let is_idle = tasks.is_empty(); // carrying a task out may call the client
///     for task in tasks.drain(..) {
///         app.carry_out(task, &mut client);
///     }
///     match rest {
///         Rest::Until(time) if is_idle => received = sockets.wait(time),
///         Rest::Until(_) | Rest::Now => {}
///         Rest::Ended => break,
///     }
/// }
/// ```
pub trait TurnClientApi: Debug + Drop {
    /// The state of the machine.
    ghost state: { Self → State };

    /// The transport between the client and its server.
    fn transport(&self) -> TransportType
        ensures { result ≡ (state self.now).transport };

    /// The client's address on the control connection.
    fn local_addr(&self) -> SocketAddr
        ensures { result ≡ (state self.now).local };

    /// The server's address.
    fn remote_addr(&self) -> SocketAddr
        ensures { result ≡ (state self.now).remote };

    /// The relayed addresses of the client with their transports, in the order in which the server
    /// granted them (RFC 8656, section 7.3). Allocations that are marked as expired are skipped;
    /// expiries are not checked.
    fn relayed_addresses(&self) -> RelayedAddressesIter<'_>
        ensures { relayed_left result ≡ relayed_addresses_of (state self.now) };

    /// The peer IP addresses that have a permission in the allocation with this relayed address, in the
    /// order in which the server granted them (RFC 8656, section 9). None if no allocation over this
    /// transport has this relayed address, or if it is marked as expired.
    fn permissions(
        &self,
        transport: TransportType,
        relayed: SocketAddr,
    ) -> PermissionAddressesIter<'_>
        ensures { permitted_left result ≡ permissions_of transport relayed (state self.now) };

    /// What the client knows of its request with this transaction ID, so that a caller can tell which of
    /// its requests a response answers before it passes the response to `recv` (RFC 8489, section 6.3).
    /// A request that was made again after a challenge is known by both IDs. Allocates no memory.
    fn request_of(&self, id: TransactionId) -> RequestView
        ensures { result ≡ viewed_request id (state self.now) };

    /// How many requests wait in the queue to be sent for the first time: `poll_transmit` returns one
    /// of them each time the pause between two requests has passed. Allocates no memory.
    fn queued_requests(&self) -> usize
        ensures { result ≡ queued_request_count (state self.now) };

    /// Deletes all allocations: queues a REFRESH with lifetime 0 (RFC 8656, section 8.1).
    /// Permissions and channels are removed at once. Pending grants may still be granted.
    ///
    /// # Errors
    ///
    /// `NoAllocation` if the server has not granted an allocation yet, or if the client has ended other
    /// than by the expiry of its allocations. `OutOfMemory`. Nothing changes then.
    fn delete(&mut self, now: Instant) -> Result<(), DeleteError>
        requires now_in_range { now ≤ 2 ^ 62 }
        ensures step { Deletes result (state self.old) (state self.new) (delete_step now (state self.old)) };

    /// Gives the client up, for a caller that closes its socket at once: returns the REFRESH with lifetime
    /// 0 that deletes all allocations (RFC 8656, section 8.1), or none if the server has granted no
    /// allocation or the client has ended. Unlike that of `delete` it waits neither for the pause nor for
    /// what is queued, and nobody awaits its response, so it is sent once. The client has ended then: it
    /// holds no grant and has nothing left to send. Events that are queued can still be polled.
    ///
    /// # Errors
    ///
    /// If memory allocation fails, which only a client with allocations can meet. Nothing changes then.
    fn abandon(&mut self, now: Instant) -> Result<Option<Transmit<Data>>, AllocError>
        requires now_in_range { now ≤ 2 ^ 62 }
        ensures answer { IfOk result (λ packet. packet ≡ (abandon_step now (state self.old)).0) }
        ensures after { OnOk result (state self.new ≡ (abandon_step now (state self.old)).1) }
        ensures no_memory { OnErr result (state self.new ≡ state self.old) }
        ensures free { OnErr result ((state self.old).phase ≡ Allocated) };

    /// Requests a permission for the IP address of this peer, whatever the port: queues a
    /// CREATE_PERMISSION (RFC 8656, section 10.1). `poll_event` reports the result.
    ///
    /// # Errors
    ///
    /// In this order: `NoAllocation` if no allocation relays over this transport to addresses of
    /// this IP version, or if its expiry has passed (it is marked as expired then); `AlreadyExists`
    /// if the permission is active or pending, kept or not; `NoAllocation` if the client has ended;
    /// `OutOfMemory`. Nothing else changes then.
    fn create_permission(
        &mut self,
        transport: TransportType,
        peer_addr: IpAddr,
        now: Instant,
    ) -> Result<(), CreatePermissionError>
        requires now_in_range { now ≤ 2 ^ 62 }
        ensures step { CreatesPermission result (state self.old) (state self.new) (create_permission_step transport peer_addr now (state self.old)) };

    /// Whether this peer IP address has an active permission. Allocations that are marked as expired
    /// are skipped; expiries are not checked.
    fn have_permission(&self, transport: TransportType, to: IpAddr) -> bool
        ensures { result ≡ can_send_to transport to (state self.now) };

    /// Requests a channel to this peer: queues a CHANNEL_BIND (RFC 8656, section 12.1). If no
    /// permission for the peer is active or pending, one is requested with it.
    ///
    /// # Errors
    ///
    /// In this order: `NoAllocation` as for `create_permission`; `AlreadyExists` if the peer has an
    /// active or a pending channel, kept or not; `ExpiredChannelExists` if it had one that is still reserved,
    /// with the time until which the first of these is reserved; `NoAllocation` if the client has
    /// ended; `AlreadyExists` if all channel numbers are taken; `OutOfMemory`. Nothing else changes
    /// then.
    fn bind_channel(
        &mut self,
        transport: TransportType,
        peer_addr: SocketAddr,
        now: Instant,
    ) -> Result<(), BindChannelError>
        requires now_in_range { now ≤ 2 ^ 62 }
        ensures step { BindsChannel result (state self.old) (state self.new) (bind_channel_step transport peer_addr now (state self.old)) };

    /// Says whether the permission for this IP address is kept, which means refreshed. It is until a
    /// call says otherwise. One that is not kept is used until it expires, and no refresh of it begins
    /// any more: it ends with `PermissionCreateFailed`, which is then the expected end. A request for
    /// it that awaits its answer runs on, and its success prolongs the permission once more. One that
    /// is pending is still granted. Once it is kept again, it is refreshed when its time comes, by the
    /// next `poll_transmit` where that has passed. A later permission for the same address is a new
    /// one, and kept. Sends nothing, queues no event and allocates no memory.
    ///
    /// A channel to a peer and the permission for it are two grants: where the permission ends first,
    /// nothing is sent over the channel. Let both go, or the channel alone if other ports use the
    /// permission.
    ///
    /// # Errors
    ///
    /// `NotGranted` if the allocations do not relay over this transport, or if no permission for this
    /// address is active or pending. One that has expired is there until `poll` removes it. Nothing
    /// changes then.
    fn set_permission_kept(
        &mut self,
        transport: TransportType,
        peer_addr: IpAddr,
        is_kept: bool,
    ) -> Result<(), KeepError>
        ensures step { (result, state self.new) ≡ permission_kept_step transport peer_addr is_kept (state self.old) };

    /// Says whether the channel to this peer is kept, as `set_permission_kept` does for a permission.
    /// One that is not kept ends with `ChannelCreateFailed`, and its number and its peer are reserved
    /// for a while, as always.
    ///
    /// # Errors
    ///
    /// `NotGranted` if the allocations do not relay over this transport, or if no channel to this peer
    /// is active or pending. Nothing changes then.
    fn set_channel_kept(
        &mut self,
        transport: TransportType,
        peer_addr: SocketAddr,
        is_kept: bool,
    ) -> Result<(), KeepError>
        ensures step { (result, state self.new) ≡ channel_kept_step transport peer_addr is_kept (state self.old) };

    /// Requests a data connection to this peer: queues a CONNECT (RFC 6062, section 4.3).
    ///
    /// # Errors
    ///
    /// In this order: `NoAllocation` if no allocation relays over TCP to addresses of this IP
    /// version, or if its expiry has passed (it is marked as expired then); `NoAllocation` if the
    /// client has ended; `NoPermission` if the peer has none; `AlreadyExists` if a data connection
    /// to the peer exists, is pending, or is offered to the caller; `OutOfMemory`. Nothing else
    /// changes then.
    fn tcp_connect(&mut self, peer_addr: SocketAddr, now: Instant) -> Result<(), TcpConnectError>
        requires now_in_range { now ≤ 2 ^ 62 }
        ensures step { Connects result (state self.old) (state self.new) (tcp_connect_step peer_addr now (state self.old)) };

    /// Reports what became of a data connection that `poll` offered, named by the three values of
    /// the offer: its local address, or `None` if the caller could not open it. If it was opened, a
    /// CONNECTION_BIND is queued, to be sent over the new connection (RFC 6062, section 4.3). If
    /// the server requested the connection, its request is answered.
    ///
    /// # Errors
    ///
    /// In this order: `NoAllocation` if the allocation is not over TCP, the 5-tuple is not that of
    /// the control connection, the client has no such offer, or it has ended; `AlreadyExists` if
    /// the local address is that of the control connection or of another data connection;
    /// `OutOfMemory`. Nothing changes then.
    fn allocated_tcp_socket(
        &mut self,
        id: u32,
        five_tuple: Socket5Tuple,
        peer_addr: SocketAddr,
        local_addr: Option<SocketAddr>,
        now: Instant,
    ) -> Result<(), TcpAllocateError>
        requires now_in_range { now ≤ 2 ^ 62 }
        ensures step { TakesSocket result (state self.old) (state self.new)
            (allocated_tcp_socket_step id five_tuple peer_addr local_addr now (state self.old)) };

    /// Reports that this data connection was closed. Unless the client has ended, `poll` then reports
    /// that the caller is to close its end. Data received over it can still be polled. Without such a
    /// connection nothing changes. Allocates no memory.
    fn tcp_closed(&mut self, local_addr: SocketAddr, remote_addr: SocketAddr, now: Instant)
        requires now_in_range { now ≤ 2 ^ 62 }
        ensures { state self.new ≡ tcp_closed_step local_addr remote_addr (state self.old) };

    /// Makes the packet that carries the data to this peer: over UDP a ChannelData message if the first
    /// active channel to the peer is not past its expiry, and else a Send indication (RFC 8656,
    /// sections 11.1 and 12.5); over TCP the data unchanged, on a data connection that is bound to the
    /// peer (RFC 6062, section 4.3). The result is always a packet, which is built when it is sent. If
    /// the allocation relays over UDP, the data may have at most 65,504 bytes. Allocates no memory.
    ///
    /// # Errors
    ///
    /// In this order: `NoPermission` if the peer has none over this transport, or the allocation is
    /// marked as expired; `NoTcpSocket` if no data connection is bound to the peer. Nothing changes
    /// then.
    fn send_to<T: AsSlice<u8> + Debug + Drop>(
        &mut self,
        transport: TransportType,
        to: SocketAddr,
        data: T,
        now: Instant,
    ) -> Result<Option<TransmitBuild<DelayedMessageOrChannelSend<T>>>, SendError>
        requires now_in_range { now ≤ 2 ^ 62 }
        requires short { (state self.old).config.allocation_transport ≡ Udp → length (T.items «data») ≤ 65504 }
        ensures answer { IsSent result (send_to_step transport to (T.items «data») now (state self.old)).0 }
        ensures named { IfErr result IsNoWay }
        ensures after { state self.new ≡ (send_to_step transport to (T.items «data») now (state self.old)).1 };

    /// Processes a datagram, or bytes read from a stream. An empty slice reports the end of the
    /// stream.
    ///
    /// Data of a peer is returned as a range of the bytes passed in, or as owned bytes: over TCP it may
    /// be joined from several pieces, or lie behind another frame. Input that is not for the client is
    /// returned unchanged. Over a stream of the client that says only that its first frame was not, and
    /// that no data was found behind it; the client keeps what follows. More payloads may be buffered:
    /// call `poll_recv` until it returns none.
    ///
    /// # Errors
    ///
    /// If memory allocation fails. The client has ended then, and the stream that was being read
    /// delivers nothing more; whole frames that were processed before keep their effect.
    ///
    /// Over UDP only a message allocates memory, and only one that is answered or that changes the
    /// client: a signed reply to an outstanding request, a challenge to one, to one that was made again
    /// or to a REFRESH without effect, a message that ends the client, and a ConnectionAttempt that is
    /// accepted or signed. A late reply allocates none, nor does an indication that is not accepted, or
    /// any other request. The same holds for one whole frame over TCP if no stream holds bytes to
    /// process; bytes of a bound connection whose stream is empty allocate none either. An empty slice
    /// may allocate memory for the close that `poll` is to report, and no frame is processed before.
    fn recv<T: AsSlice<u8> + Debug + Drop>(
        &mut self,
        transmit: Transmit<T>,
        now: Instant,
    ) -> Result<TurnRecvRet<T>, AllocError>
        requires now_in_range { now ≤ 2 ^ 62 }
        ensures answer { IfOk result (λ answer. outcome_of answer
            ≡ (recv_step transmit.transport transmit.from transmit.to (T.items transmit.payload) now (state self.old)).0) }
        ensures hands_back { IfOk result (HandsBack transmit) }
        ensures after { OnOk result (state self.new
            ≡ (recv_step transmit.transport transmit.from transmit.to (T.items transmit.payload) now (state self.old)).1) }
        ensures no_memory { OnErr result (RecvEnds transmit.to (T.items transmit.payload) now (state self.old) (state self.new)) }
        ensures free { takes_no_memory transmit.transport transmit.from transmit.to (T.items transmit.payload) (state self.old) ≡ true → IsOk result };

    /// The next payload of a peer that the streams hold, in the order in which they were opened, or
    /// none. All other frames before it are processed; ICMP reports among them are dropped.
    ///
    /// # Errors
    ///
    /// If memory allocation fails. The client has ended then, and the stream that was read delivers
    /// nothing more; whole frames that were processed before keep their effect. If no stream holds a
    /// whole frame, data of its peer, or bytes that begin no frame, the call allocates no memory.
    fn poll_recv(&mut self, now: Instant) -> Result<Option<TurnPeerData<Vec<u8>>>, AllocError>
        requires now_in_range { now ≤ 2 ^ 62 }
        ensures answer { IfOk result (λ given. option_map given_payload given ≡ (poll_recv_step now (state self.old)).0) }
        // With no payload left, each stream waits for the rest of a frame.
        ensures little { IfOk result (λ given. IsNone given → All HoldsLittle (state self.new).streams) }
        ensures after { OnOk result (state self.new ≡ (poll_recv_step now (state self.old)).1) }
        ensures no_memory { OnErr result (EndsAfterSteps now (state self.old) (state self.new)) };

    /// Handles expired timers and returns what to do next: wait until a time, open or close a data
    /// connection, or that the client has ended.
    ///
    /// If the returned time is later than now, nothing is due before it: no packet is due, no
    /// event, offer or close is pending, no request times out and no grant expires. If that time is
    /// not in the future, an event is pending, a packet is due, or a request has just timed out:
    /// poll events and packets, and then call `poll` again.
    ///
    /// # Errors
    ///
    /// If memory allocation fails. The client has ended then, and nothing else has changed.
    fn poll(&mut self, now: Instant) -> Result<TurnPollRet, AllocError>
        requires now_in_range { now ≤ 2 ^ 62 }
        ensures answer { IfOk result (λ answer. answer ≡ (poll_step now (state self.old)).0) }
        ensures after { OnOk result (state self.new ≡ (poll_step now (state self.old)).1) }
        ensures alarm { IfOk result (λ answer. IsTimely answer now (state self.old) (state self.new)) }
        ensures no_memory { OnErr result (state self.new ≡ closed (state self.old)) }
        // Memory is needed only while the first ALLOCATE awaits its response.
        ensures free { OnErr result ((state self.old).phase ≡ Requesting) };

    /// The next packet to send, or none. Call it until it returns none.
    ///
    /// # Errors
    ///
    /// If memory allocation fails. The client has ended then, and nothing else has changed.
    fn poll_transmit(&mut self, now: Instant) -> Result<Option<Transmit<Data>>, AllocError>
        requires now_in_range { now ≤ 2 ^ 62 }
        ensures answer { IfOk result (λ packet. packet ≡ (transmit_step now (state self.old)).0) }
        ensures after { OnOk result (state self.new ≡ (transmit_step now (state self.old)).1) }
        ensures no_memory { OnErr result (state self.new ≡ closed (state self.old)) }
        // Memory is needed only for a packet that is due.
        ensures free { OnErr result (IsSome (next_transmit now (state self.old))) };

    /// The next event, or none. Allocates no memory.
    fn poll_event(&mut self) -> Option<TurnEvent>
        ensures answer { result ≡ (event_step (state self.old)).0 }
        ensures after { state self.new ≡ (event_step (state self.old)).1 };

    /// Reports that the control connection failed: each address family that is still requested fails,
    /// and the client has ended.
    ///
    /// # Errors
    ///
    /// If memory allocation for the events fails. The client has ended all the same. If no family is
    /// requested, or the client had ended, there is no event, and no memory is allocated.
    fn protocol_error(&mut self) -> Result<(), AllocError>
        ensures ok { OnOk result (state self.new ≡ protocol_error_step (state self.old)) }
        ensures err { OnErr result (state self.new ≡ closed (state self.old)) }
        ensures free { OnErr result (FailsFamilies (state self.old)) };
}
