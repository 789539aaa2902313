//! Worked streams, and that each call succeeds if no memory allocation fails.

ghost use Rattle.std.specs.Prelude.{◌<◌, length};

mod memory;

use crate::fixture::{check, same, same_bytes};
use std::alloc::AllocError;
use std::net::{Ipv4Addr, SocketAddr, SocketAddrV4};
use std::process::Abort;
use std::test::Fail;
use turn_client_api::{Mode, Transmit};
use turn_client_streams::{BufferedStream, FrameKind, Front, Streams};
use turn_stun::transport::TransportType;
use turn_types::tcp::IncomingTcp;

/// Three bytes over the channel with number 0x4000.
const CHANNEL_FRAME: [u8; 8] = [0x40, 0x00, 0x00, 0x03, 0x61, 0x62, 0x63, 0x00];

/// A BINDING request without attributes.
const MESSAGE: [u8; 20] = [
    0x00, 0x01, 0x00, 0x00, 0x21, 0x12, 0xa4, 0x42, 0x00, 0x00, 0x00, 0x00, 0x00, 0x00, 0x00, 0x00,
    0x00, 0x00, 0x00, 0x01,
];

fn end(port: u16) -> SocketAddr {
    SocketAddr::V4(SocketAddrV4::new(Ipv4Addr::new(192, 168, 0, 1), port))
}

/// The stream that is ready.
fn ready(streams: &mut Streams) -> Result<BufferedStream, Fail> {
    let Some(stream) = streams.take_ready() else {
        return Err(Fail::from("no stream is ready"));
    };
    Ok(stream)
}

/// Feeds a piece to the stream at this local address.
fn feed(streams: &mut Streams, local: SocketAddr, piece: &[u8]) -> Result<(), AllocError> {
    if let Some(mut stream) = streams.take_at(local) {
        stream.feed(piece)?;
        streams.put(stream);
    }
    Ok(())
}

/// The first frame of the stream is this one, and is dropped.
fn drops(
    rt: &impl Abort,
    stream: &mut BufferedStream,
    kind: FrameKind,
    want: &[u8],
) -> Result<(), Fail> {
    let Front::Frame(found, frame) = stream.front() else {
        return Err(Fail::from("no frame in front"));
    };
    same(rt, found, kind);
    same_bytes(rt, frame, want);
    let len = frame.len();
    stream.pass(len);
    Ok(())
}

/// The stream that is ready is this one, its first frame is this one, and it is put back without
/// it.
fn passes(
    rt: &impl Abort,
    streams: &mut Streams,
    local: SocketAddr,
    kind: FrameKind,
    want: &[u8],
) -> Result<(), Fail> {
    let mut stream = ready(streams)?;
    same(rt, stream.local(), local);
    drops(rt, &mut stream, kind, want)?;
    streams.put(stream);
    Ok(())
}

fn gives_frames(rt: &impl Abort, streams: &mut Streams) -> Result<(), Fail> {
    streams.reserve()?;
    streams.open(end(1001));
    feed(streams, end(1001), &MESSAGE)?;
    feed(streams, end(1000), &CHANNEL_FRAME[..3])?;
    passes(rt, streams, end(1001), FrameKind::Message, &MESSAGE)?;
    check(rt, streams.take_ready().is_none());
    feed(streams, end(1000), &CHANNEL_FRAME[3..])?;
    feed(streams, end(1000), &MESSAGE)?;
    passes(rt, streams, end(1000), FrameKind::Channel, &CHANNEL_FRAME)?;
    passes(rt, streams, end(1000), FrameKind::Message, &MESSAGE)?;
    check(rt, streams.take_ready().is_none());
    Ok(())
}

#[test]
fn streams_have_their_turns_in_the_order_of_their_opening(rt: HostRuntime) -> Result<(), Fail> {
    let mut streams = Streams::new(rt.alloc(), TransportType::Tcp, end(1000))?;
    gives_frames(&rt, &mut streams)
}

fn gives_data(rt: &impl Abort, streams: &mut Streams) -> Result<(), Fail> {
    streams.reserve()?;
    streams.open(end(1001));
    feed(streams, end(1001), &MESSAGE)?;
    feed(streams, end(1001), &[0xff, 0x00])?;
    let mut stream = ready(streams)?;
    drops(rt, &mut stream, FrameKind::Message, &MESSAGE)?;
    streams.set_mode(end(1001), Mode::Bound(end(9000)));
    streams.put(stream);
    let stream = ready(streams)?;
    same(rt, stream.mode(), Mode::Bound(end(9000)));
    same_bytes(rt, stream.into_bytes().as_slice(), &[0xff, 0x00]);
    check(rt, streams.take_ready().is_none());
    Ok(())
}

#[test]
fn bytes_behind_a_bind_reply_are_the_peers(rt: HostRuntime) -> Result<(), Fail> {
    let mut streams = Streams::new(rt.alloc(), TransportType::Tcp, end(1000))?;
    gives_data(&rt, &mut streams)
}

fn breaks(rt: &impl Abort, streams: &mut Streams) -> Result<(), Fail> {
    feed(streams, end(1000), &[0x80])?;
    let stream = ready(streams)?;
    check(rt, matches!(stream.front(), Front::Stuck));
    streams.break_at(end(1000));
    check(rt, streams.take_ready().is_none());
    same(
        rt,
        streams.get(end(1000)).map(|stream| stream.mode()),
        Some(Mode::Broken),
    );
    streams.remove(end(1000));
    check(rt, streams.get(end(1000)).is_none());
    Ok(())
}

#[test]
fn a_byte_that_begins_no_frame_breaks_its_stream(rt: HostRuntime) -> Result<(), Fail> {
    let mut streams = Streams::new(rt.alloc(), TransportType::Tcp, end(1000))?;
    breaks(&rt, &mut streams)
}

#[test]
fn a_client_over_udp_has_no_stream(rt: HostRuntime) -> Result<(), Fail> {
    let streams = Streams::new(rt.alloc(), TransportType::Udp, end(1000))?;
    check(&rt, streams.get(end(1000)).is_none());
    Ok(())
}

/// The end of the message in the piece.
fn len_of(stream: &mut BufferedStream, piece: &[u8]) -> Result<usize, Fail>
    requires { 0 < length piece.now }
{
    let came = Transmit::new(piece, TransportType::Tcp, end(3478), end(1000));
    let Some(IncomingTcp::CompleteMessage(_, range)) = stream.incoming_tcp(came)? else {
        return Err(Fail::from("no message in the piece"));
    };
    Ok(range.end)
}

fn takes_whole(rt: &impl Abort, streams: &mut Streams) -> Result<(), Fail> {
    let Some(mut stream) = streams.take_at(end(1000)) else {
        return Err(Fail::from("no control stream"));
    };
    same(rt, len_of(&mut stream, &MESSAGE)?, 20);
    check(rt, stream.is_empty());
    Ok(())
}

#[test]
fn a_message_that_comes_whole_is_a_range(rt: HostRuntime) -> Result<(), Fail> {
    let mut streams = Streams::new(rt.alloc(), TransportType::Tcp, end(1000))?;
    takes_whole(&rt, &mut streams)
}
