//! Each failed memory allocation is an answer here, and the state after it is asserted. So these pass for any
//! memory allocation that fails.

use crate::fixture::same;
use crate::types::tcp::{CHANNEL_FRAME, DATA_INDICATION, piece};
use std::process::Abort;
use turn_types::tcp::TurnTcpBuffer;

/// Whether the piece completes a frame, if memory allocation succeeds.
fn gives(buffer: &mut TurnTcpBuffer, bytes: &[u8]) -> Option<bool> {
    match buffer.incoming_tcp(piece(bytes)) {
        Ok(given) => Some(given.is_some()),
        Err(_) => None,
    }
}

/// Whether a frame is buffered, if memory allocation for it succeeds.
fn polls(buffer: &mut TurnTcpBuffer) -> Option<bool> {
    match buffer.poll_recv() {
        Ok(given) => Some(given.is_some()),
        Err(_) => None,
    }
}

/// The stream is broken after this many bytes: it has dropped them, and returns nothing.
fn is_broken(rt: &impl Abort, buffer: &mut TurnTcpBuffer, taken: u64) {
    same(rt, gives(buffer, &CHANNEL_FRAME), Some(false));
    same(rt, polls(buffer), Some(false));
    same(
        rt,
        (buffer.is_empty(), buffer.counts().taken),
        (true, taken),
    );
}

/// A frame was returned, or the stream is broken after this many bytes.
fn came(rt: &impl Abort, buffer: &mut TurnTcpBuffer, given: Option<bool>, taken: u64) {
    match given {
        Some(given) => same(rt, given, true),
        None => is_broken(rt, buffer, taken),
    }
}

#[test]
fn a_stream_without_memory_is_broken(rt: HostRuntime) {
    let (front, behind) = DATA_INDICATION.split_at(30);
    let mut buffer = TurnTcpBuffer::new(rt.alloc());
    if gives(&mut buffer, front).is_some() {
        let given = gives(&mut buffer, behind);
        came(&rt, &mut buffer, given, 44);
    } else {
        is_broken(&rt, &mut buffer, 30);
    }
}

fn lends_a_message(rt: &impl Abort, buffer: &mut TurnTcpBuffer) {
    if buffer.feed(&DATA_INDICATION).is_ok() {
        same(rt, buffer.front().is_some(), true);
        buffer.pass();
        same(rt, buffer.is_empty(), true);
    } else {
        is_broken(rt, buffer, 44);
    }
}

#[test]
fn a_piece_without_memory_breaks_the_stream(rt: HostRuntime) {
    let mut buffer = TurnTcpBuffer::new(rt.alloc());
    lends_a_message(&rt, &mut buffer);
}

/// A message, and then a ChannelData message.
static TWO_FRAMES: [u8; 52] = [
    0x00, 0x17, 0x00, 0x18, 0x21, 0x12, 0xa4, 0x42, 0x00, 0x00, 0x00, 0x00, 0x00, 0x00, 0x00, 0x00,
    0x00, 0x00, 0x00, 0x01, 0x00, 0x12, 0x00, 0x08, 0x00, 0x01, 0x02, 0x3a, 0x2b, 0x12, 0xa4, 0x41,
    0x00, 0x13, 0x00, 0x05, 0x68, 0x65, 0x6c, 0x6c, 0x6f, 0x00, 0x00, 0x00, 0x40, 0x00, 0x00, 0x03,
    0x61, 0x62, 0x63, 0x00,
];

#[test]
fn a_frame_without_memory_breaks_the_stream(rt: HostRuntime) {
    let mut buffer = TurnTcpBuffer::new(rt.alloc());
    if gives(&mut buffer, &TWO_FRAMES).is_some() {
        let given = polls(&mut buffer);
        came(&rt, &mut buffer, given, 52);
    } else {
        is_broken(&rt, &mut buffer, 52);
    }
}

#[test]
fn a_whole_frame_in_a_piece_takes_no_memory(rt: HostRuntime) {
    let mut buffer = TurnTcpBuffer::new(rt.alloc());
    for _ in 0..3 {
        same(&rt, gives(&mut buffer, &CHANNEL_FRAME), Some(true));
        same(&rt, polls(&mut buffer), Some(false));
    }
}
