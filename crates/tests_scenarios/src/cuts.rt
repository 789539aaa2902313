//! Streams in pieces of any length have the same payloads as in one piece (RFC 8656, section 12.5; RFC 6062, section
//! 4.5).

use crate::caller::Caller;
use crate::fixture::{
    at, check, client_with_connections, data_end, either_over_tcp, local, server,
};
use crate::messages::{GENEROUS, PEER};
use crate::server::{CONNECTION_BIND, success};
use std::alloc::{AllocError, Global};
use std::net::SocketAddr;
use std::process::Abort;
use std::test::Fail;
use turn_auth::credentials::CredentialsError;
use turn_client_api::{Socket5Tuple, TurnClientApi, TurnEvent, TurnPollRet, TurnRecvRet};
use turn_client_proto::client::TurnClient;
use turn_stun::transport::{Transmit, TransportType};

/// `hello` over channel 4000, `to` of 10.0.0.3:9001, nothing over channel 4000, a byte over a channel that is not
/// bound, a message of another method, `ff00` of 10.0.0.3:9002, and `you` over channel 4000.
const FRAMES: &[u8] = &[
    0x40, 0x00, 0x00, 0x05, 0x68, 0x65, 0x6c, 0x6c, 0x6f, 0x00, 0x00, 0x00, 0x00, 0x17, 0x00, 0x14,
    0x21, 0x12, 0xa4, 0x42, 0x00, 0x00, 0x00, 0x00, 0x00, 0x00, 0x00, 0x00, 0x00, 0x00, 0x00, 0x01,
    0x00, 0x12, 0x00, 0x08, 0x00, 0x01, 0x02, 0x3b, 0x2b, 0x12, 0xa4, 0x41, 0x00, 0x13, 0x00, 0x02,
    0x74, 0x6f, 0x00, 0x00, 0x40, 0x00, 0x00, 0x00, 0x40, 0x01, 0x00, 0x01, 0xff, 0x00, 0x00, 0x00,
    0x00, 0x11, 0x00, 0x00, 0x21, 0x12, 0xa4, 0x42, 0x00, 0x00, 0x00, 0x00, 0x00, 0x00, 0x00, 0x00,
    0x00, 0x00, 0x00, 0x02, 0x00, 0x17, 0x00, 0x14, 0x21, 0x12, 0xa4, 0x42, 0x00, 0x00, 0x00, 0x00,
    0x00, 0x00, 0x00, 0x00, 0x00, 0x00, 0x00, 0x03, 0x00, 0x12, 0x00, 0x08, 0x00, 0x01, 0x02, 0x38,
    0x2b, 0x12, 0xa4, 0x41, 0x00, 0x13, 0x00, 0x02, 0xff, 0x00, 0x00, 0x00, 0x40, 0x00, 0x00, 0x03,
    0x79, 0x6f, 0x75, 0x00,
];

/// Their payloads: the last byte of each peer's port, the length of its data, and the data.
const OVER_UDP: &[u8] = &[
    0x28, 5, b'h', b'e', b'l', b'l', b'o', 0x29, 2, b't', b'o', 0x28, 0, 0x2a, 2, 0xff, 0x00, 0x28,
    3, b'y', b'o', b'u',
];

/// The same if no channel is bound.
const OVER_TCP: &[u8] = &[0x29, 2, b't', b'o', 0x2a, 2, 0xff, 0x00];

/// Bytes of a peer, some of which could begin a frame, and some not.
const BYTES: &[u8] = b"\x00\x17\x00\x04\x40\x00\x00\x02hello\x80\xff\x00\xc0over a connection\x40";

/// A report that 10.0.0.3:9000 connected, with the number 9 (RFC 6062, section 4.4).
const OFFER: &[u8] = &[
    0x00, 0x1c, 0x00, 0x14, 0x21, 0x12, 0xa4, 0x42, 0x00, 0x00, 0x00, 0x00, 0x00, 0x00, 0x00, 0x00,
    0x00, 0x00, 0x00, 0x04, 0x00, 0x2a, 0x00, 0x04, 0x00, 0x00, 0x00, 0x09, 0x00, 0x12, 0x00, 0x08,
    0x00, 0x01, 0x02, 0x3a, 0x2b, 0x12, 0xa4, 0x41,
];

/// The number of random runs, without the first two.
const SEEDS: u32 = 200;

/// More than the payloads of a stream here.
const MANY: usize = 1_024;

/// The lengths of the pieces.
#[derive(Clone, Copy)]
enum Cut {
    Whole,
    Bytes,
    /// Up to 24 bytes.
    Drawn,
}

impl Cut {
    /// All at once, then byte by byte, and then random lengths.
    fn of(seed: u32) -> Cut {
        match seed {
            0 => Cut::Whole,
            1 => Cut::Bytes,
            _ => Cut::Drawn,
        }
    }

    fn len(self, draw: u64) -> usize {
        match self {
            Cut::Whole => usize::MAX,
            Cut::Bytes => 1,
            Cut::Drawn => usize::try_from(draw % 24).unwrap_or(0).saturating_add(1),
        }
    }
}

/// Pseudo-random numbers, from a linear congruential generator.
#[derive(Drop)]
struct Draws {
    state: u64,
}

impl Draws {
    fn new(seed: u32) -> Draws {
        Draws {
            state: u64::from(seed),
        }
    }

    fn draw(&mut self) -> u64 {
        let product = self.state.wrapping_mul(6_364_136_223_846_793_005);
        self.state = product.wrapping_add(1_442_695_040_888_963_407);
        self.state >> 33
    }
}

/// The bytes not yet received of the control stream and of a data connection.
#[derive(Drop)]
struct Streams<'a> {
    control: &'a [u8],
    data: &'a [u8],
}

impl<'a> Streams<'a> {
    /// The next piece, and the local end that receives it.
    fn next(&mut self, cut: Cut, draws: &mut Draws) -> Option<(SocketAddr, &'a [u8])> {
        let len = cut.len(draws.draw());
        let is_control = draws.draw() % 2 == 0;
        if self.data.is_empty() || (is_control && !self.control.is_empty()) {
            let (piece, rest) = self.control.split_at(len.min(self.control.len()));
            self.control = rest;
            if piece.is_empty() {
                None
            } else {
                Some((local(), piece))
            }
        } else {
            let (piece, rest) = self.data.split_at(len.min(self.data.len()));
            self.data = rest;
            Some((data_end(), piece))
        }
    }
}

/// The payloads of streams.
#[derive(Drop)]
struct Heard {
    /// The payloads in frames: the last byte of each peer's port, the length of its data, and the data.
    frames: Vec<u8>,
    /// The bytes from the data connection.
    bytes: Vec<u8>,
}

impl Heard {
    fn new(alloc: Global) -> Heard {
        Heard {
            frames: Vec::new(alloc),
            bytes: Vec::new(alloc),
        }
    }

    /// Records data of this peer.
    fn note(
        &mut self,
        transport: TransportType,
        peer: SocketAddr,
        data: &[u8],
    ) -> Result<(), AllocError> {
        if transport == TransportType::Tcp && peer == PEER.address() {
            return self.bytes.extend_from_slice(data);
        }
        let [_, port] = peer.port().to_be_bytes();
        let len = u8::try_from(data.len()).unwrap_or(u8::MAX);
        self.frames.extend_from_slice(&[port, len])?;
        self.frames.extend_from_slice(data)
    }

    fn is(&self, frames: &[u8], bytes: &[u8]) -> bool {
        self.frames.as_slice() == frames && self.bytes.as_slice() == bytes
    }
}

/// Passes a piece in.
fn hear<C: TurnClientApi>(
    client: &mut C,
    to: SocketAddr,
    piece: &[u8],
    now: u32,
    heard: &mut Heard,
) -> Result<(), AllocError> {
    let packet = Transmit::new(piece, TransportType::Tcp, server(), to);
    match client.recv(packet, at(now))? {
        TurnRecvRet::PeerData(given) => heard.note(given.transport, given.peer, given.data()),
        _ => Ok(()),
    }
}

/// Reads all payloads that are buffered: some are returned, and the others are lent.
fn drain(
    client: &mut TurnClient,
    now: u32,
    draws: &mut Draws,
    heard: &mut Heard,
) -> Result<(), AllocError> {
    for _ in 0..MANY {
        let is_lent = draws.draw() % 2 == 0;
        let is_noted = if is_lent {
            note_lent(client, now, heard)?
        } else {
            note_returned(client, now, heard)?
        };
        if !is_noted {
            break;
        }
    }
    Ok(())
}

/// Records the next payload, which the client lends, if there is one.
fn note_lent(client: &mut TurnClient, now: u32, heard: &mut Heard) -> Result<bool, AllocError> {
    let noted = client.poll_recv_with(at(now), |transport, peer, data| {
        heard.note(transport, peer, data)
    })?;
    match noted {
        Some(noted) => noted.map(|()| true),
        None => Ok(false),
    }
}

/// Records the next payload, which the client returns, if there is one.
fn note_returned(client: &mut TurnClient, now: u32, heard: &mut Heard) -> Result<bool, AllocError> {
    let Some(given) = client.poll_recv(at(now))? else {
        return Ok(false);
    };
    heard.note(given.transport, given.peer, given.data())?;
    Ok(true)
}

/// Reads these streams, cut and read as the seed says.
fn read(
    client: &mut TurnClient,
    mut streams: Streams<'_>,
    seed: u32,
    now: u32,
    heard: &mut Heard,
) -> Result<(), AllocError> {
    let mut draws = Draws::new(seed);
    for _ in 0..MANY {
        let Some((to, piece)) = streams.next(Cut::of(seed), &mut draws) else {
            break;
        };
        hear(client, to, piece, now, heard)?;
        if draws.draw() % 2 == 0 {
            drain(client, now, &mut draws, heard)?;
        }
    }
    drain(client, now, &mut draws, heard)
}

/// Whether these are the payloads of the streams.
fn are_heard(
    client: &mut TurnClient,
    alloc: Global,
    streams: Streams<'_>,
    seed: u32,
    now: u32,
    want: (&[u8], &[u8]),
) -> Result<bool, AllocError> {
    let mut heard = Heard::new(alloc);
    read(client, streams, seed, now, &mut heard)?;
    Ok(heard.is(want.0, want.1))
}

/// This client with a channel to 10.0.0.3:9000, with the number 4000.
fn with_channel<C: TurnClientApi>(
    alloc: Global,
    client: Result<C, CredentialsError>,
) -> Result<C, Fail> {
    let mut client = client?;
    let mut caller = Caller::new(alloc);
    caller.wait(&mut client, GENEROUS, 200)?;
    client.bind_channel(TransportType::Udp, PEER.address(), at(200))?;
    caller.wait(&mut client, GENEROUS, 300)?;
    Ok(client)
}

/// Whether the frames have the expected payloads.
fn frames_are_heard(client: &mut TurnClient, alloc: Global, seed: u32) -> Result<bool, AllocError> {
    let streams = Streams {
        control: FRAMES,
        data: &[],
    };
    are_heard(client, alloc, streams, seed, 1_000, (OVER_UDP, &[]))
}

/// Asserts that the frames have the expected payloads, however they are cut.
fn all_frames_are_heard(
    rt: &impl Abort,
    alloc: Global,
    client: &mut TurnClient,
) -> Result<(), AllocError> {
    for seed in 0..SEEDS + 2 {
        let is_so = frames_are_heard(client, alloc, seed)?;
        check(rt, is_so, seed);
    }
    Ok(())
}

#[test]
fn frames_come_in_any_pieces(rt: HostRuntime) -> Result<(), Fail> {
    let mut client = with_channel(rt.alloc(), either_over_tcp(rt.alloc()))?;
    let heard = all_frames_are_heard(&rt, rt.alloc(), &mut client);
    // a scope at whose end a client is dropped can take minutes to prove
    drop(client);
    Ok(heard?)
}

/// This client with a permission for 10.0.0.3, for TCP connections with peers.
fn with_permission<C: TurnClientApi>(
    alloc: Global,
    client: Result<C, CredentialsError>,
) -> Result<C, Fail> {
    let mut client = client?;
    let mut caller = Caller::new(alloc);
    caller.wait(&mut client, GENEROUS, 200)?;
    client.create_permission(TransportType::Tcp, PEER.ip(), at(200))?;
    caller.wait(&mut client, GENEROUS, 300)?;
    Ok(client)
}

/// The bytes that a data connection carries after this request: the response that binds it, and the data.
fn bytes_after(alloc: Global, request: &[u8]) -> Result<Vec<u8>, Fail> {
    let (_, rest) = request.split_first_chunk::<8>().ok_or("there is no ID")?;
    let id = rest.first_chunk::<12>().ok_or("there is no ID")?;
    let mut stream = success(alloc, CONNECTION_BIND, *id, &[])?;
    stream.extend_from_slice(BYTES)?;
    Ok(stream)
}

/// Opens the offered data connection, and returns the bytes that it carries.
fn opened<C: TurnClientApi>(client: &mut C, alloc: Global, now: u32) -> Result<Vec<u8>, Fail> {
    let control = Socket5Tuple {
        transport: TransportType::Tcp,
        from: local(),
        to: server(),
    };
    hear(client, local(), OFFER, now, &mut Heard::new(alloc))?;
    client.allocated_tcp_socket(9, control, PEER.address(), Some(data_end()), at(now))?;
    match client.poll_transmit(at(now))? {
        Some(request) => bytes_after(alloc, request.payload.as_bytes()),
        None => Err(Fail::from("nothing is asked for")),
    }
}

/// Whether one data connection was bound, and is to be closed after the server has ended it.
fn ends<C: TurnClientApi>(client: &mut C, now: u32) -> Result<bool, AllocError> {
    let event = client.poll_event();
    let is_bound = event == Some(TurnEvent::TcpConnected(PEER.address()));
    let piece: &[u8] = &[];
    let packet = Transmit::new(piece, TransportType::Tcp, server(), data_end());
    let is_handled = matches!(client.recv(packet, at(now))?, TurnRecvRet::Handled);
    let close = TurnPollRet::TcpClose {
        local_addr: data_end(),
        remote_addr: server(),
    };
    Ok(is_bound && is_handled && client.poll_event().is_none() && client.poll(at(now))? == close)
}

/// Whether frames and data connection have the expected payloads.
fn both_are_heard(client: &mut TurnClient, alloc: Global, seed: u32) -> Result<bool, Fail> {
    let now = seed.saturating_mul(100).saturating_add(1_000);
    let data = opened(client, alloc, now)?;
    let streams = Streams {
        control: FRAMES,
        data: data.as_slice(),
    };
    Ok(are_heard(client, alloc, streams, seed, now, (OVER_TCP, BYTES))? && ends(client, now)?)
}

/// Asserts that frames and data connection have the expected payloads, however they are cut.
fn all_connections_are_heard(
    rt: &impl Abort,
    alloc: Global,
    client: &mut TurnClient,
) -> Result<(), Fail> {
    for seed in 0..SEEDS + 2 {
        let is_so = both_are_heard(client, alloc, seed)?;
        check(rt, is_so, seed);
    }
    Ok(())
}

#[test]
fn connections_come_in_any_pieces(rt: HostRuntime) -> Result<(), Fail> {
    let mut client = TurnClient::from(with_permission(
        rt.alloc(),
        client_with_connections(rt.alloc()),
    )?);
    let heard = all_connections_are_heard(&rt, rt.alloc(), &mut client);
    drop(client);
    heard
}
