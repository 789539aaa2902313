//! Streams that are cut at each place.

use crate::fixture::same;
use crate::types::tcp::{CHANNEL_FRAME, DATA_INDICATION, holds, piece, stored};
use std::alloc::Global;
use std::process::Abort;
use std::slice::Iter;
use turn_types::tcp::{IncomingTcp, TurnTcpBuffer};

/// The frames of the stream. The last one is a ChannelData message without data.
static FRAMES: [&[u8]; 3] = [&CHANNEL_FRAME, &DATA_INDICATION, &[0x40, 0x01, 0x00, 0x00]];

/// Half of the header of a ChannelData message, after the frames.
const HALF_HEADER: [u8; 2] = [0x40, 0x00];

static STREAM: [u8; 58] = [
    0x40, 0x00, 0x00, 0x03, 0x61, 0x62, 0x63, 0x00, 0x00, 0x17, 0x00, 0x18, 0x21, 0x12, 0xa4, 0x42,
    0x00, 0x00, 0x00, 0x00, 0x00, 0x00, 0x00, 0x00, 0x00, 0x00, 0x00, 0x01, 0x00, 0x12, 0x00, 0x08,
    0x00, 0x01, 0x02, 0x3a, 0x2b, 0x12, 0xa4, 0x41, 0x00, 0x13, 0x00, 0x05, 0x68, 0x65, 0x6c, 0x6c,
    0x6f, 0x00, 0x00, 0x00, 0x40, 0x01, 0x00, 0x00, 0x40, 0x00,
];

/// How frames are taken from a buffer.
#[derive(Clone, Copy)]
enum Taking {
    /// By `incoming_tcp` and `poll_recv`.
    Given,
    /// By `feed`, `front` and `pass`.
    Lent,
}

/// This frame is the next expected one.
fn comes(rt: &impl Abort, wanted: &mut Iter<&[u8]>, frame: &[u8]) {
    same(rt, frame, *wanted.next().expect(rt, "no frame"));
}

/// The frame that was returned for a piece.
fn frame_of<'a>(given: &'a IncomingTcp<&[u8]>) -> Option<&'a [u8]> {
    match given {
        IncomingTcp::CompleteMessage(transmit, range)
        | IncomingTcp::CompleteChannel(transmit, range) => {
            transmit.payload.get(range.start..range.end)
        }
        IncomingTcp::StoredMessage(frame, _) | IncomingTcp::StoredChannel(frame, _) => {
            Some(frame.as_slice())
        }
    }
}

/// Takes the next buffered frame, if there is one.
fn take_waiting(rt: &impl Abort, buffer: &mut TurnTcpBuffer, wanted: &mut Iter<&[u8]>) {
    if let Some(frame) = buffer.poll_recv().expect(rt, "memory") {
        comes(rt, wanted, stored(&frame));
    }
}

/// Adds a piece to the buffer, and takes each frame that it returns.
fn take_given(rt: &impl Abort, buffer: &mut TurnTcpBuffer, bytes: &[u8], wanted: &mut Iter<&[u8]>) {
    if let Some(given) = buffer.incoming_tcp(piece(bytes)).expect(rt, "memory") {
        comes(
            rt,
            wanted,
            frame_of(&given).expect(rt, "a range of the piece"),
        );
    }
    for _ in 0..4 {
        take_waiting(rt, buffer, wanted);
    }
}

/// Adds a piece to the buffer, and takes each frame that it lends.
fn take_lent(rt: &impl Abort, buffer: &mut TurnTcpBuffer, bytes: &[u8], wanted: &mut Iter<&[u8]>) {
    buffer.feed(bytes).expect(rt, "memory");
    for _ in 0..4 {
        if let Some(frame) = buffer.front() {
            comes(rt, wanted, frame);
        }
        buffer.pass();
    }
}

/// Takes the frames of these pieces.
fn take_all(
    rt: &impl Abort,
    taking: Taking,
    buffer: &mut TurnTcpBuffer,
    pieces: &[&[u8]],
    wanted: &mut Iter<&[u8]>,
) {
    for bytes in pieces {
        match taking {
            Taking::Given => take_given(rt, buffer, bytes, wanted),
            Taking::Lent => take_lent(rt, buffer, bytes, wanted),
        }
    }
}

/// The stream in these pieces has its three frames, and half a header is buffered.
fn gives_its_frames(rt: &impl Abort, taking: Taking, alloc: Global, pieces: &[&[u8]]) {
    let mut buffer = TurnTcpBuffer::new(alloc);
    let mut wanted = FRAMES.iter();
    take_all(rt, taking, &mut buffer, pieces, &mut wanted);
    same(rt, wanted.len(), 0);
    holds(rt, buffer, &HALF_HEADER);
}

/// Each byte of the stream is a piece.
fn by_bytes(rt: &impl Abort, taking: Taking, alloc: Global) {
    let mut pieces = Vec::new(alloc);
    for byte in STREAM.chunks(1) {
        pieces.push(byte).expect(rt, "memory");
    }
    gives_its_frames(rt, taking, alloc, pieces.as_slice());
}

/// The stream is cut at each two places.
fn in_three(rt: &impl Abort, taking: Taking, alloc: Global) {
    for first in 0..=STREAM.len() {
        let (front, behind) = STREAM.split_at(first);
        for second in 0..=behind.len() {
            let (middle, back) = behind.split_at(second);
            gives_its_frames(rt, taking, alloc, &[front, middle, back]);
        }
    }
}

#[test]
fn a_stream_by_bytes_gives_its_frames(rt: HostRuntime) {
    by_bytes(&rt, Taking::Given, rt.alloc());
}

#[test]
fn a_stream_by_bytes_lends_its_frames(rt: HostRuntime) {
    by_bytes(&rt, Taking::Lent, rt.alloc());
}

#[test]
fn a_stream_cut_at_two_places_gives_its_frames(rt: HostRuntime) {
    in_three(&rt, Taking::Given, rt.alloc());
}

#[test]
fn a_stream_cut_at_two_places_lends_its_frames(rt: HostRuntime) {
    in_three(&rt, Taking::Lent, rt.alloc());
}
