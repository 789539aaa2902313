//! What no clause says: streams of worked frames, and that each call succeeds while memory allocation does.

ghost use Rattle.std.specs.Prelude.{◌≤◌};

mod cuts;
mod memory;
mod steps;

use crate::fixture::same;
use crate::types::tcp::steps::{PASSES, STAYS_BROKEN, Step, follow, follow_all, takes};
use std::alloc::Global;
use std::net::{Ipv4Addr, SocketAddr, SocketAddrV4};
use std::process::Abort;
use turn_stun::transport::Transmit;
use turn_types::TransportType;
use turn_types::tcp::{IncomingTcp, StoredTcp, TurnTcpBuffer};

/// Three bytes over the channel with number 0x4000.
const CHANNEL_FRAME: [u8; 8] = [0x40, 0x00, 0x00, 0x03, 0x61, 0x62, 0x63, 0x00];

/// A Data indication of five bytes from 10.0.0.3:9000.
const DATA_INDICATION: [u8; 44] = [
    0x00, 0x17, 0x00, 0x18, 0x21, 0x12, 0xa4, 0x42, 0x00, 0x00, 0x00, 0x00, 0x00, 0x00, 0x00, 0x00,
    0x00, 0x00, 0x00, 0x01, 0x00, 0x12, 0x00, 0x08, 0x00, 0x01, 0x02, 0x3a, 0x2b, 0x12, 0xa4, 0x41,
    0x00, 0x13, 0x00, 0x05, 0x68, 0x65, 0x6c, 0x6c, 0x6f, 0x00, 0x00, 0x00,
];

/// A piece of a stream from the server.
fn piece(bytes: &[u8]) -> Transmit<&[u8]> {
    let server = SocketAddr::V4(SocketAddrV4::new(Ipv4Addr::new(10, 0, 0, 2), 2000));
    let client = SocketAddr::V4(SocketAddrV4::new(Ipv4Addr::new(192, 168, 0, 1), 1000));
    Transmit::new(bytes, TransportType::Tcp, server, client)
}

/// These bytes are buffered.
fn holds(rt: &impl Abort, buffer: TurnTcpBuffer, want: &[u8]) {
    same(rt, buffer.into_inner().as_slice(), want);
}

/// The steps have the expected answers, and then these bytes are buffered.
fn leaves(rt: &impl Abort, alloc: Global, steps: &[Step], want: &[u8]) {
    let mut buffer = TurnTcpBuffer::new(alloc);
    follow_all(rt, &mut buffer, steps);
    holds(rt, buffer, want);
}

/// The ChannelData message that began before the piece, and the length of the piece in bytes.
fn stored_channel<'a>(given: &'a Option<IncomingTcp<&[u8]>>) -> Option<(&'a [u8], usize)> {
    match given {
        Some(IncomingTcp::StoredChannel(frame, transmit)) => {
            Some((frame.as_slice(), transmit.payload.len()))
        }
        _ => None,
    }
}

fn stores_a_frame(rt: &impl Abort, buffer: &mut TurnTcpBuffer) {
    let rest = [0x03, 0x61, 0x62, 0x63, 0x00, 0x40];
    let given = buffer.incoming_tcp(piece(&rest)).expect(rt, "memory");
    same(
        rt,
        stored_channel(&given),
        Some((CHANNEL_FRAME.as_slice(), 6)),
    );
}

#[test]
fn a_channel_frame_in_two_pieces_is_stored(rt: HostRuntime) {
    let mut buffer = TurnTcpBuffer::new(rt.alloc());
    takes(&rt, &mut buffer, &[0x40, 0x00, 0x00], false);
    stores_a_frame(&rt, &mut buffer);
    same(&rt, buffer.is_empty(), false);
    holds(&rt, buffer, &[0x40]);
}

/// A frame in two pieces, and the beginning of another.
static REST_MOVED: [Step; 7] = [
    Step::Counts(0, 0),
    Step::Piece(&[0x40, 0x00, 0x00], false),
    Step::Piece(&[0x03, 0x61, 0x62, 0x63, 0x00, 0x40, 0x00, 0x00], true),
    Step::PollsNothing,
    Step::Counts(8, 3),
    Step::Piece(&[0x03], false),
    Step::Counts(8, 3),
];

#[test]
fn a_rest_is_moved_once(rt: HostRuntime) {
    leaves(&rt, rt.alloc(), &REST_MOVED, &[0x40, 0x00, 0x00, 0x03]);
}

/// After the second part of a ChannelData message, all but the last byte of a message.
static LONG_REST: [Step; 8] = [
    Step::Piece(&[0x40], false),
    Step::Piece(&[0x00, 0x00, 0x03, 0x61, 0x62, 0x63, 0x00], true),
    Step::Piece(&[0x40], false),
    Step::Piece(
        &[
            0x00, 0x00, 0x03, 0x61, 0x62, 0x63, 0x00, 0x00, 0x17, 0x00, 0x18, 0x21, 0x12, 0xa4,
            0x42, 0x00, 0x00, 0x00, 0x00, 0x00, 0x00, 0x00, 0x00, 0x00, 0x00, 0x00, 0x01, 0x00,
            0x12, 0x00, 0x08, 0x00, 0x01, 0x02, 0x3a, 0x2b, 0x12, 0xa4, 0x41, 0x00, 0x13, 0x00,
            0x05, 0x68, 0x65, 0x6c, 0x6c, 0x6f, 0x00, 0x00,
        ],
        true,
    ),
    Step::Counts(16, 0),
    Step::Piece(&[0x00], true),
    Step::IsEmpty(true),
    Step::Counts(60, 0),
];

#[test]
fn a_long_rest_is_not_moved(rt: HostRuntime) {
    leaves(&rt, rt.alloc(), &LONG_REST, &[]);
}

/// The range of the frame in a piece, and whether it is a message.
fn range_of(given: &Option<IncomingTcp<&[u8]>>) -> Option<(usize, usize, bool)> {
    match given {
        Some(IncomingTcp::CompleteMessage(_, range)) => Some((range.start, range.end, true)),
        Some(IncomingTcp::CompleteChannel(_, range)) => Some((range.start, range.end, false)),
        _ => None,
    }
}

/// The piece is a frame, and nothing is buffered after it.
fn gives_range(rt: &impl Abort, buffer: &mut TurnTcpBuffer, bytes: &[u8], is_message: bool) {
    let given = buffer.incoming_tcp(piece(bytes)).expect(rt, "memory");
    same(rt, range_of(&given), Some((0, bytes.len(), is_message)));
    same(rt, buffer.is_empty(), true);
}

#[test]
fn a_frame_at_the_front_of_a_piece_is_a_range_of_it(rt: HostRuntime) {
    let mut buffer = TurnTcpBuffer::new(rt.alloc());
    gives_range(&rt, &mut buffer, &DATA_INDICATION, true);
    gives_range(&rt, &mut buffer, &CHANNEL_FRAME, false);
    follow(&rt, &mut buffer, Step::Counts(52, 0));
}

/// A Data indication, and two bytes with which no frame begins.
static WITH_NO_FRAME_BEHIND: [u8; 46] = [
    0x00, 0x17, 0x00, 0x18, 0x21, 0x12, 0xa4, 0x42, 0x00, 0x00, 0x00, 0x00, 0x00, 0x00, 0x00, 0x00,
    0x00, 0x00, 0x00, 0x01, 0x00, 0x12, 0x00, 0x08, 0x00, 0x01, 0x02, 0x3a, 0x2b, 0x12, 0xa4, 0x41,
    0x00, 0x13, 0x00, 0x05, 0x68, 0x65, 0x6c, 0x6c, 0x6f, 0x00, 0x00, 0x00, 0xff, 0x00,
];

#[test]
fn bytes_behind_a_frame_are_kept_whatever_they_are(rt: HostRuntime) {
    let mut buffer = TurnTcpBuffer::new(rt.alloc());
    takes(&rt, &mut buffer, &WITH_NO_FRAME_BEHIND, true);
    holds(&rt, buffer, &[0xff, 0x00]);
}

/// A ChannelData message and a byte with which no frame begins.
static BREAKING: [[u8; 9]; 2] = [
    [0x40, 0x00, 0x00, 0x03, 0x61, 0x62, 0x63, 0x00, 0x80],
    [0x40, 0x00, 0x00, 0x03, 0x61, 0x62, 0x63, 0x00, 0xff],
];

/// After the ChannelData message, the next frame is invalid.
fn breaks_by(rt: &impl Abort, alloc: Global, bytes: &[u8]) {
    let mut buffer = TurnTcpBuffer::new(alloc);
    takes(rt, &mut buffer, bytes, true);
    follow_all(rt, &mut buffer, &STAYS_BROKEN);
}

#[test]
fn a_stream_breaks_when_the_turn_of_its_rest_comes(rt: HostRuntime) {
    for bytes in &BREAKING {
        breaks_by(&rt, rt.alloc(), bytes);
    }
}

#[test]
fn a_lent_stream_breaks_when_its_rest_is_passed(rt: HostRuntime) {
    leaves(&rt, rt.alloc(), &PASSES, &[]);
}

/// This many bytes of a frame of the maximum length with this first byte.
fn long_frame(rt: &impl Abort, alloc: Global, number: u8, len: usize) -> Vec<u8>
    requires { 4 ≤ len }
{
    let mut bytes = vec![in alloc; 0u8; len].expect(rt, "memory");
    bytes.as_mut_slice()[..4].copy_from_slice(&[number, 0x01, 0xff, 0xff]);
    bytes
}

/// A frame of the maximum length is complete with the byte after these.
fn is_longest(rt: &impl Abort, alloc: Global, number: u8, len: usize)
    requires { 4 ≤ len }
{
    let bytes = long_frame(rt, alloc, number, len);
    let mut buffer = TurnTcpBuffer::new(alloc);
    takes(rt, &mut buffer, bytes.as_slice(), false);
    follow(rt, &mut buffer, Step::PollsNothing);
    takes(rt, &mut buffer, &[0], true);
    same(rt, buffer.is_empty(), true);
}

#[test]
fn the_longest_frames_are_whole_with_their_last_byte(rt: HostRuntime) {
    is_longest(&rt, rt.alloc(), 0x00, 65_554);
    is_longest(&rt, rt.alloc(), 0x40, 65_539);
}

/// The bytes of a buffered frame.
fn stored(frame: &StoredTcp) -> &[u8] {
    match frame {
        StoredTcp::Message(frame) | StoredTcp::Channel(frame) => frame.as_slice(),
    }
}
