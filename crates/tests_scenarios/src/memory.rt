//! A client over TCP, with memory allocation that fails at each place: each failure is an answer here, and the client
//! is then in the state that the answer says.
//!
//! The messages were signed by other means than this client, for the IDs of the seed of zeros.

use crate::fixture::{at, check, client_with_connections, data_end, local, server};
use crate::messages::{PEER, RELAYED};
use std::net::SocketAddr;
use turn_auth::credentials::CredentialsError;
use turn_client_api::{
    CreatePermissionError, Socket5Tuple, TcpAllocateError, TcpConnectError, TurnClientApi,
    TurnEvent, TurnPollRet, TurnRecvRet,
};
use turn_stun::transport::{Transmit, TransportType};

/// Error 401 to the first request.
const CHALLENGE: &[u8] = &[
    0x01, 0x13, 0x00, 0x20, 0x21, 0x12, 0xa4, 0x42, 0x76, 0xb8, 0xe0, 0xad, 0xa0, 0xf1, 0x3d, 0x90,
    0x40, 0x5d, 0x6a, 0xe5, 0x00, 0x09, 0x00, 0x04, 0x00, 0x00, 0x04, 0x01, 0x00, 0x14, 0x00, 0x05,
    0x72, 0x65, 0x61, 0x6c, 0x6d, 0x00, 0x00, 0x00, 0x00, 0x15, 0x00, 0x05, 0x6e, 0x6f, 0x6e, 0x63,
    0x65, 0x00, 0x00, 0x00,
];

/// 10.0.0.4:40000 for 1000 s.
const GRANT: &[u8] = &[
    0x01, 0x03, 0x00, 0x2c, 0x21, 0x12, 0xa4, 0x42, 0x53, 0x86, 0xbd, 0x28, 0xbd, 0xd2, 0x19, 0xb8,
    0xa0, 0x8d, 0xed, 0x1a, 0x00, 0x16, 0x00, 0x08, 0x00, 0x01, 0xbd, 0x52, 0x2b, 0x12, 0xa4, 0x46,
    0x00, 0x0d, 0x00, 0x04, 0x00, 0x00, 0x03, 0xe8, 0x00, 0x08, 0x00, 0x14, 0x73, 0xab, 0x3a, 0x7f,
    0x1f, 0x80, 0x78, 0x2b, 0x83, 0xe3, 0xea, 0x33, 0x3b, 0x6d, 0x47, 0xe6, 0x08, 0xf2, 0x96, 0xb7,
];

/// A permission, and the first half of a header.
const PERMISSION: &[u8] = &[
    0x01, 0x08, 0x00, 0x18, 0x21, 0x12, 0xa4, 0x42, 0xa8, 0x36, 0xef, 0xcc, 0x8b, 0x77, 0x0d, 0xc7,
    0xda, 0x41, 0x59, 0x7c, 0x00, 0x08, 0x00, 0x14, 0x24, 0xee, 0x99, 0xd3, 0xec, 0x78, 0x17, 0xac,
    0x76, 0x61, 0x80, 0x0a, 0x07, 0x28, 0xcd, 0xc5, 0xde, 0x95, 0x59, 0x97, 0x00, 0x17, 0x00, 0x00,
    0x00, 0x00, 0x00, 0x00, 0x00, 0x00,
];

/// The other half, of a frame that is no message, and the CONNECT success with the number 7.
const CONNECTION: &[u8] = &[
    0x00, 0x00, 0x00, 0x00, 0x00, 0x00, 0x00, 0x00, 0x00, 0x00, 0x01, 0x0a, 0x00, 0x20, 0x21, 0x12,
    0xa4, 0x42, 0x51, 0x57, 0x48, 0x8d, 0x77, 0x24, 0xe0, 0x3f, 0xb8, 0xd8, 0x4a, 0x37, 0x00, 0x2a,
    0x00, 0x04, 0x00, 0x00, 0x00, 0x07, 0x00, 0x08, 0x00, 0x14, 0x8c, 0x48, 0x4d, 0xc4, 0x07, 0x35,
    0xca, 0xa1, 0xd7, 0xe6, 0x29, 0x93, 0x05, 0xeb, 0xfd, 0xb1, 0x73, 0xac, 0x4c, 0x05,
];

/// The beginning of the response that binds it.
const BINDING_FRONT: &[u8] = &[
    0x01, 0x0b, 0x00, 0x18, 0x21, 0x12, 0xa4, 0x42, 0x6a, 0x43, 0xb8, 0xf4, 0x15, 0x18, 0xa1, 0x1c,
    0xc3, 0x87, 0xb6, 0x69,
];

/// The other bytes of it, and `ff00` of the peer.
const BINDING_BACK: &[u8] = &[
    0x00, 0x08, 0x00, 0x14, 0x08, 0xfd, 0x6f, 0xf3, 0xd1, 0x3d, 0x7a, 0xdd, 0xf2, 0x8a, 0x48, 0x1c,
    0x07, 0x17, 0xec, 0xb2, 0x80, 0x09, 0xd9, 0xfb, 0xff, 0x00,
];

/// An empty ChannelData message, over channel 4000.
const FRAME: &[u8] = &[0x40, 0x00, 0x00, 0x00];

/// The client's end of a stream.
#[derive(Clone, Copy)]
enum End {
    Control,
    Data,
}

impl End {
    fn address(self) -> SocketAddr {
        match self {
            End::Control => local(),
            End::Data => data_end(),
        }
    }
}

/// A step of the run. Times are in milliseconds.
#[derive(Clone, Copy)]
enum Step<'a> {
    /// A request that begins with these bytes is sent.
    Send(u32, [u8; 2]),
    /// This piece is received, and processed.
    Hear(u32, End, &'a [u8]),
    Permit,
    Connect,
    /// The caller is to open the connection.
    Offer,
    Open,
    /// The streams have this payload of the peer.
    Give(&'a [u8]),
    Close,
    /// The caller is to close the connection.
    ToClose,
    ReportOfAllocation,
    ReportOfPermission,
    ReportOfConnection,
}

/// The result of a step.
#[derive(Clone, Copy)]
enum Taken {
    AsWanted,
    Otherwise,
    /// Memory allocation failed, and nothing changed.
    Refused,
    /// The client has ended, and this stream is broken.
    Ended(Option<End>),
}

/// An allocation over TCP, a permission, and a connection to a peer (RFC 6062, section 4.3).
const STEPS: &[Step<'static>] = &[
    Step::Send(0, [0x00, 0x03]),
    Step::Hear(0, End::Control, CHALLENGE),
    Step::Send(50, [0x00, 0x03]),
    Step::Hear(50, End::Control, GRANT),
    Step::ReportOfAllocation,
    Step::Permit,
    Step::Send(100, [0x00, 0x08]),
    Step::Hear(100, End::Control, PERMISSION),
    Step::ReportOfPermission,
    Step::Connect,
    Step::Send(150, [0x00, 0x0a]),
    Step::Hear(150, End::Control, CONNECTION),
    Step::Offer,
    Step::Open,
    Step::Send(200, [0x00, 0x0b]),
    Step::Hear(200, End::Data, BINDING_FRONT),
    Step::Hear(200, End::Data, BINDING_BACK),
    Step::ReportOfConnection,
    Step::Give(&[0xff, 0x00]),
    Step::Close,
    Step::ToClose,
];

fn wanted(is_so: bool) -> Taken {
    if is_so {
        Taken::AsWanted
    } else {
        Taken::Otherwise
    }
}

fn send<C: TurnClientApi>(client: &mut C, now: u32, kind: [u8; 2]) -> Taken {
    match client.poll_transmit(at(now)) {
        Ok(Some(packet)) => wanted(packet.payload.as_bytes().starts_with(&kind)),
        Ok(None) => Taken::Otherwise,
        Err(_) => Taken::Ended(None),
    }
}

fn hear<C: TurnClientApi>(client: &mut C, now: u32, end: End, piece: &[u8]) -> Taken {
    let packet = Transmit::new(piece, TransportType::Tcp, server(), end.address());
    match client.recv(packet, at(now)) {
        Ok(TurnRecvRet::Handled) => Taken::AsWanted,
        Ok(_) => Taken::Otherwise,
        Err(_) => Taken::Ended(Some(end)),
    }
}

fn permit<C: TurnClientApi>(client: &mut C) -> Taken {
    match client.create_permission(TransportType::Tcp, PEER.ip(), at(50)) {
        Ok(()) => Taken::AsWanted,
        Err(CreatePermissionError::OutOfMemory) => Taken::Refused,
        Err(_) => Taken::Otherwise,
    }
}

fn connect<C: TurnClientApi>(client: &mut C) -> Taken {
    match client.tcp_connect(PEER.address(), at(100)) {
        Ok(()) => Taken::AsWanted,
        Err(TcpConnectError::OutOfMemory) => Taken::Refused,
        Err(_) => Taken::Otherwise,
    }
}

fn control() -> Socket5Tuple {
    Socket5Tuple {
        transport: TransportType::Tcp,
        from: local(),
        to: server(),
    }
}

fn open<C: TurnClientApi>(client: &mut C) -> Taken {
    match client.allocated_tcp_socket(7, control(), PEER.address(), Some(data_end()), at(150)) {
        Ok(()) => Taken::AsWanted,
        Err(TcpAllocateError::OutOfMemory) => Taken::Refused,
        Err(_) => Taken::Otherwise,
    }
}

fn poll<C: TurnClientApi>(client: &mut C, want: TurnPollRet) -> Taken {
    match client.poll(at(200)) {
        Ok(found) => wanted(found == want),
        Err(_) => Taken::Ended(None),
    }
}

fn give<C: TurnClientApi>(client: &mut C, bytes: &[u8]) -> Taken {
    match client.poll_recv(at(200)) {
        Ok(Some(given)) => wanted(given.peer == PEER.address() && given.data() == bytes),
        Ok(None) => Taken::Otherwise,
        Err(_) => Taken::Ended(Some(End::Data)),
    }
}

fn close<C: TurnClientApi>(client: &mut C) -> Taken {
    client.tcp_closed(data_end(), server(), at(200));
    Taken::AsWanted
}

fn report<C: TurnClientApi>(client: &mut C, event: TurnEvent) -> Taken {
    wanted(client.poll_event() == Some(event))
}

fn take<C: TurnClientApi>(client: &mut C, step: &Step<'_>) -> Taken {
    let tcp = TransportType::Tcp;
    match step {
        Step::Send(now, kind) => send(client, *now, *kind),
        Step::Hear(now, end, piece) => hear(client, *now, *end, piece),
        Step::Permit => permit(client),
        Step::Connect => connect(client),
        Step::Offer => {
            let offer = TurnPollRet::AllocateTcpSocket {
                id: 7,
                socket: control(),
                peer_addr: PEER.address(),
            };
            poll(client, offer)
        }
        Step::Open => open(client),
        Step::Give(bytes) => give(client, bytes),
        Step::Close => close(client),
        Step::ToClose => {
            let close = TurnPollRet::TcpClose {
                local_addr: data_end(),
                remote_addr: server(),
            };
            poll(client, close)
        }
        Step::ReportOfAllocation => report(
            client,
            TurnEvent::AllocationCreated(tcp, RELAYED.address()),
        ),
        Step::ReportOfPermission => report(client, TurnEvent::PermissionCreated(tcp, PEER.ip())),
        Step::ReportOfConnection => report(client, TurnEvent::TcpConnected(PEER.address())),
    }
}

/// Whether a permission was reported, now or before.
fn reports_permission<C: TurnClientApi>(client: &mut C, was_reported: bool) -> bool {
    let mut is_reported = was_reported;
    for _ in 0..8 {
        match client.poll_event() {
            Some(TurnEvent::PermissionCreated(_, _)) => is_reported = true,
            Some(_) => {}
            None => break,
        }
    }
    is_reported
}

/// Whether a frame for this end is dropped unread.
fn drops_frames<C: TurnClientApi>(client: &mut C, end: End) -> bool {
    let packet = Transmit::new(FRAME, TransportType::Tcp, server(), end.address());
    matches!(client.recv(packet, at(300)), Ok(TurnRecvRet::Handled))
}

/// Whether the client has ended, and has reported what is active, and this stream is broken, if any is.
fn has_ended<C: TurnClientApi>(client: &mut C, broken: Option<End>, was_reported: bool) -> bool {
    let is_reported = reports_permission(client, was_reported);
    let has_active_permission = client.have_permission(TransportType::Tcp, PEER.ip());
    let is_closed = matches!(client.poll(at(300)), Ok(TurnPollRet::Closed));
    let is_refused = matches!(
        client.create_permission(TransportType::Tcp, RELAYED.ip(), at(300)),
        Err(CreatePermissionError::NoAllocation)
    );
    let is_broken = match broken {
        Some(end) => drops_frames(client, end),
        None => !drops_frames(client, End::Control),
    };
    is_reported == has_active_permission && is_closed && is_refused && is_broken
}

/// Whether each step has the expected result, on a second try at the latest, or leaves a client that has ended.
fn goes_on_or_ends<C: TurnClientApi>(client: &mut C) -> bool {
    let mut was_reported = false;
    for step in STEPS {
        let taken = match take(client, step) {
            Taken::Refused => take(client, step),
            taken => taken,
        };
        match taken {
            Taken::AsWanted => {}
            Taken::Ended(broken) => return has_ended(client, broken, was_reported),
            Taken::Otherwise | Taken::Refused => return false,
        }
        was_reported = was_reported || matches!(step, Step::ReportOfPermission);
    }
    true
}

/// The same for a client, if there is one, that is dropped then.
fn runs<C: TurnClientApi>(client: Result<C, CredentialsError>) -> bool {
    match client {
        Ok(mut client) => goes_on_or_ends(&mut client),
        Err(_) => true,
    }
}

#[test]
fn a_client_over_tcp_goes_on_or_ends(rt: HostRuntime) {
    check(&rt, runs(client_with_connections(rt.alloc())), 0);
}
