//! What a call leaves if its memory allocation fails.

use crate::fixture::{check, same};
use crate::streams::{MESSAGE, end};
use std::process::Abort;
use turn_client_api::Mode;
use turn_client_streams::{BufferedStream, Streams};
use turn_stun::transport::TransportType;

fn breaks_or_holds(rt: &impl Abort, stream: &mut BufferedStream) {
    match stream.feed(&MESSAGE) {
        Ok(()) => check(rt, stream.is_ready()),
        Err(_) => same(rt, (stream.mode(), stream.is_empty()), (Mode::Broken, true)),
    }
}

#[test]
fn a_piece_that_finds_no_memory_breaks_its_stream(rt: HostRuntime) {
    if let Ok(mut streams) = Streams::new(rt.alloc(), TransportType::Tcp, end(1000)) {
        if let Some(mut stream) = streams.take_at(end(1000)) {
            breaks_or_holds(&rt, &mut stream);
        }
    }
}

fn opens_or_stays(rt: &impl Abort, streams: &mut Streams) {
    let has_room = streams.reserve().is_ok();
    if has_room {
        streams.open(end(1001));
    }
    same(rt, streams.get(end(1001)).is_some(), has_room);
}

#[test]
fn a_stream_that_finds_no_memory_is_not_opened(rt: HostRuntime) {
    if let Ok(mut streams) = Streams::new(rt.alloc(), TransportType::Udp, end(1000)) {
        opens_or_stays(&rt, &mut streams);
    }
}
