//! The answer to a request.

use crate::address::{Address, transport_code};
use crate::code::{
    ADDRESS, ALLOCATE_TCP_SOCKET, ALLOCATION_CREATE_FAILED, ALLOCATION_CREATED,
    CHANNEL_CREATE_FAILED, CHANNEL_CREATED, CLOSED, DONE, ERROR_ALREADY_EXISTS, ERROR_EXPIRED,
    ERROR_NO_ALLOCATION, ERROR_NO_PERMISSION, ERROR_NO_SOCKET, ERROR_NOT_GRANTED,
    ERROR_OUT_OF_MEMORY, IPV4, IPV6, NOTHING, PACKET, PEER_DATA, PEER_DATA_RANGE, PEER_ICMP,
    PERMISSION_CREATE_FAILED, PERMISSION_CREATED, REFUSED, TCP_CLOSE, TCP_CONNECT_FAILED,
    TCP_CONNECTED, WAIT_UNTIL,
};
use std::net::{IpAddr, SocketAddr};
use turn_client_api::{TurnEvent, TurnPollRet};
use turn_client_calls::{Refusal, Reply};
use turn_stun::transport::TransportType;
use turn_types::AddressFamily;

/// The answer to a request. [`code`](crate::code) says which fields each kind uses; the others stay as they were.
#[derive(Clone, Copy, Debug, PartialEq, Eq)]
#[repr(C)]
pub struct Answer {
    /// The kind of the answer.
    pub kind: u32,
    /// The error of a method.
    pub error: u32,
    /// A time, in nanoseconds.
    pub time: u64,
    /// How many bytes were written to the buffer, from its start, or how many bytes of the data there are.
    pub len: usize,
    /// Where bytes start in the data that was passed in.
    pub start: usize,
    /// How many bytes did not fit into the buffer, and are to be read.
    pub left: usize,
    /// The number of an offer.
    pub id: u32,
    /// A transport.
    pub transport: u32,
    /// An address family.
    pub family: u32,
    /// The rest of an ICMP packet (RFC 8656, section 18.13).
    pub icmp_data: u32,
    /// The type of an ICMP packet.
    pub icmp_type: u8,
    /// The code of an ICMP packet.
    pub icmp_code: u8,
    /// 0, or as it was.
    pub reserved: u16,
    /// The source of a packet, or the local address of a connection.
    pub from: Address,
    /// The destination of a packet, or the server's address of a connection.
    pub to: Address,
    /// A peer, or an address of a list.
    pub peer: Address,
    /// 0, or as they were.
    pub reserved_places: [u64; 2],
}

impl Answer {
    ghost use Rattle.std.specs.Prelude.{◌≡◌};
    ghost use Rattle.turn_c_calls.specs.Address.{c_address, address_of_ip};
    ghost use Rattle.turn_c_calls.specs.Answer.{IsPlain, answer_to, data_answer, event_answer, icmp_answer, packet_answer};
    ghost use Rattle.turn_c_calls.specs.Answer.{next_permission_answer, peer_answer, permission_answer, poll_answer, refusal_answer, relayed_answer};

    /// A reply that has neither bytes nor a list.
    // Inlined, so that the reply, which is large, is never made as one value.
    #[inline(always)]
    pub(crate) fn set_reply(&mut self, reply: &Reply)
        requires { IsPlain reply.now }
        ensures { self.new ≡ answer_to 0 reply.now self.old }
    {
        match reply {
            Reply::CreatePermission(Err(error)) => self.set_refusal(Refusal::from(*error)),
            Reply::BindChannel(Err(error)) => self.set_refusal(Refusal::from(*error)),
            Reply::TcpConnect(Err(error)) => self.set_refusal(Refusal::from(*error)),
            Reply::AllocatedTcpSocket(Err(error)) => self.set_refusal(Refusal::from(*error)),
            Reply::Delete(Err(error)) => self.set_refusal(Refusal::from(*error)),
            Reply::SetPermissionKept(Err(error)) => self.set_refusal(Refusal::from(*error)),
            Reply::SetChannelKept(Err(error)) => self.set_refusal(Refusal::from(*error)),
            Reply::CreatePermission(Ok(()))
            | Reply::BindChannel(Ok(()))
            | Reply::TcpConnect(Ok(()))
            | Reply::AllocatedTcpSocket(Ok(()))
            | Reply::Delete(Ok(()))
            | Reply::SetPermissionKept(Ok(()))
            | Reply::SetChannelKept(Ok(()))
            | Reply::Done => self.kind = DONE,
            _ => unreachable!(),
        }
    }

    /// The result of `poll`.
    // Inlined, so that the result, which is large, is not copied in order to be passed.
    #[inline(always)]
    pub(crate) fn set_poll(&mut self, returned: &TurnPollRet)
        ensures { self.new ≡ poll_answer returned.now self.old }
    {
        match returned {
            TurnPollRet::WaitUntil(time) => {
                self.kind = WAIT_UNTIL;
                self.time = time.as_nanos();
            }
            TurnPollRet::AllocateTcpSocket {
                id,
                socket,
                peer_addr,
            } => {
                self.kind = ALLOCATE_TCP_SOCKET;
                self.id = *id;
                self.transport = transport_code(socket.transport);
                self.from.set(&socket.from);
                self.to.set(&socket.to);
                self.peer.set(peer_addr);
            }
            TurnPollRet::TcpClose {
                local_addr,
                remote_addr,
            } => {
                self.kind = TCP_CLOSE;
                self.from.set(local_addr);
                self.to.set(remote_addr);
            }
            TurnPollRet::Closed => self.kind = CLOSED,
        }
    }

    /// A packet to send, but for its bytes.
    // As `Address::set`, of which it makes two.
    #[inline(always)]
    pub(crate) fn set_packet(
        &mut self,
        transport: TransportType,
        from: &SocketAddr,
        to: &SocketAddr,
    )
        ensures { self.new ≡ packet_answer transport from.now to.now self.old }
    {
        self.kind = PACKET;
        self.transport = transport_code(transport);
        self.from.set(from);
        self.to.set(to);
    }

    /// Data of a peer, but for its bytes.
    pub(crate) fn set_peer_data(&mut self, transport: TransportType, peer: &SocketAddr)
        ensures { self.new ≡ data_answer transport peer.now self.old }
    {
        self.set_peer(PEER_DATA, transport, peer);
    }

    /// Data of a peer that lies in the data that was passed in.
    pub(crate) fn set_peer_data_range(
        &mut self,
        transport: TransportType,
        peer: &SocketAddr,
        start: usize,
        len: usize,
    )
        ensures { self.new ≡ record (data_answer transport peer.now self.old) { kind = PEER_DATA_RANGE; start = start; len = len } }
    {
        self.set_peer(PEER_DATA_RANGE, transport, peer);
        self.start = start;
        self.len = len;
    }

    /// As [`Answer::set_peer_data_range`], for data that came over a channel.
    // Where it is inlined the peer is not copied before it is set.
    #[inline(always)]
    pub(crate) fn set_channel_data(
        &mut self,
        transport: TransportType,
        peer: &SocketAddr,
        start: usize,
        len: usize,
    )
        ensures { self.new ≡ record (data_answer transport peer.now self.old) { kind = PEER_DATA_RANGE; start = start; len = len } }
    {
        self.kind = PEER_DATA_RANGE;
        self.transport = transport_code(transport);
        self.start = start;
        self.len = len;
        self.peer.set(peer);
    }

    /// An ICMP packet that was received for data sent to a peer.
    pub(crate) fn set_peer_icmp(
        &mut self,
        transport: TransportType,
        peer: &SocketAddr,
        icmp_type: u8,
        icmp_code: u8,
        icmp_data: u32,
    )
        ensures { self.new ≡ icmp_answer transport peer.now icmp_type icmp_code icmp_data self.old }
    {
        self.set_peer(PEER_ICMP, transport, peer);
        self.icmp_type = icmp_type;
        self.icmp_code = icmp_code;
        self.icmp_data = icmp_data;
    }

    /// An event.
    pub(crate) fn set_event(&mut self, event: &TurnEvent)
        ensures { self.new ≡ event_answer event.now self.old }
    {
        match event {
            TurnEvent::AllocationCreated(transport, relayed) => {
                self.set_peer(ALLOCATION_CREATED, *transport, relayed);
            }
            TurnEvent::AllocationCreateFailed(family) => {
                self.kind = ALLOCATION_CREATE_FAILED;
                self.family = match family {
                    AddressFamily::IPV4 => u32::from(IPV4),
                    AddressFamily::IPV6 => u32::from(IPV6),
                };
            }
            TurnEvent::PermissionCreated(transport, peer) => {
                self.set_peer_ip(PERMISSION_CREATED, *transport, *peer);
            }
            TurnEvent::PermissionCreateFailed(transport, peer) => {
                self.set_peer_ip(PERMISSION_CREATE_FAILED, *transport, *peer);
            }
            TurnEvent::ChannelCreated(transport, peer) => {
                self.set_peer(CHANNEL_CREATED, *transport, peer);
            }
            TurnEvent::ChannelCreateFailed(transport, peer) => {
                self.set_peer(CHANNEL_CREATE_FAILED, *transport, peer);
            }
            TurnEvent::TcpConnected(peer) => {
                self.kind = TCP_CONNECTED;
                self.peer.set(peer);
            }
            TurnEvent::TcpConnectFailed(peer) => {
                self.kind = TCP_CONNECT_FAILED;
                self.peer.set(peer);
            }
        }
    }

    /// The error of a call.
    pub(crate) fn set_refusal(&mut self, refusal: Refusal)
        ensures { self.new ≡ refusal_answer refusal self.old }
    {
        self.kind = REFUSED;
        match refusal {
            Refusal::AlreadyExists => self.error = ERROR_ALREADY_EXISTS,
            Refusal::NoAllocation => self.error = ERROR_NO_ALLOCATION,
            Refusal::NoPermission => self.error = ERROR_NO_PERMISSION,
            Refusal::NoSocket => self.error = ERROR_NO_SOCKET,
            Refusal::Expired(until) => {
                self.error = ERROR_EXPIRED;
                self.time = until.as_nanos();
            }
            Refusal::NotGranted => self.error = ERROR_NOT_GRANTED,
            Refusal::OutOfMemory => self.error = ERROR_OUT_OF_MEMORY,
        }
    }

    /// A relayed address, or that there is none at the index.
    // Where it is inlined the address is not copied before it is set.
    #[inline(always)]
    pub(crate) fn set_relayed(&mut self, relayed: Option<(TransportType, SocketAddr)>)
        ensures { self.new ≡ relayed_answer relayed self.old }
    {
        match relayed {
            Some((transport, addr)) => {
                self.kind = ADDRESS;
                self.transport = transport_code(transport);
                self.peer.set(&addr);
            }
            None => self.kind = NOTHING,
        }
    }

    /// The IP address of a permission, or that there is none at the index.
    pub(crate) fn set_permission(&mut self, ip: Option<IpAddr>)
        ensures { self.new ≡ permission_answer ip self.old }
    {
        match ip {
            Some(ip) => {
                self.kind = ADDRESS;
                self.peer.set_ip(ip);
            }
            None => self.kind = NOTHING,
        }
    }

    /// The IP address of a permission with the position behind it, or that there is none. A position that has not 32 bits is
    /// that of none.
    pub(crate) fn set_next_permission(&mut self, next: Option<(IpAddr, usize)>)
        ensures { self.new ≡ next_permission_answer next self.old }
    {
        let Some((ip, position)) = next else {
            self.kind = NOTHING;
            return;
        };
        match u32::try_from(position) {
            Ok(position) => {
                self.kind = ADDRESS;
                self.id = position;
                self.peer.set_ip(ip);
            }
            Err(_) => self.kind = NOTHING,
        }
    }

    /// An answer of this kind about a peer.
    // The address is read from where it lies: in the caller it would be taken apart at each step to here.
    #[inline(never)]
    fn set_peer(&mut self, kind: u32, transport: TransportType, peer: &SocketAddr)
        ensures { self.new ≡ peer_answer kind transport (c_address peer.now) self.old }
    {
        self.kind = kind;
        self.transport = transport_code(transport);
        self.peer.set(peer);
    }

    /// An answer of this kind about the IP address of a peer.
    fn set_peer_ip(&mut self, kind: u32, transport: TransportType, peer: IpAddr)
        ensures { self.new ≡ peer_answer kind transport (address_of_ip peer) self.old }
    {
        self.kind = kind;
        self.transport = transport_code(transport);
        self.peer.set_ip(peer);
    }
}
