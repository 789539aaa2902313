//! Where the data of a peer lies in what the caller passed in, which no line says: it is a part of a datagram, or of a piece
//! of a stream that has the whole frame, and owned if the frame came in two pieces.

use crate::caller::Caller;
use crate::fixture::{
    at, check, client_over_tcp, client_over_udp, either_over_tcp, either_over_udp, local, server,
};
use crate::messages::{DATA, GENEROUS, PEER};
use std::alloc::{AllocError, Global};
use std::process::Abort;
use std::test::Fail;
use turn_auth::credentials::CredentialsError;
use turn_client_api::{TurnClientApi, TurnPeerData, TurnRecvRet};
use turn_stun::transport::{Transmit, TransportType};

/// The time of all inputs, in milliseconds after the start.
const NOW: u32 = 500;

/// `hello` of the peer, over its channel.
const FRAME: &[u8] = b"\x40\x00\x00\x05hello\x00\x00\x00";

/// Where `hello` lies in a Data indication, and where in a ChannelData message.
const IN_INDICATION: Option<(usize, usize)> = Some((36, 41));

const IN_FRAME: Option<(usize, usize)> = Some((4, 9));

/// Brings a new client to an allocation, and to a permission and a channel for the peer.
fn bound<C: TurnClientApi>(alloc: Global, client: &mut C) -> Result<(), AllocError> {
    let mut caller = Caller::new(alloc);
    caller.wait(client, GENEROUS, 200)?;
    let _ = client.bind_channel(TransportType::Udp, PEER.address(), at(200));
    caller.wait(client, GENEROUS, NOW)
}

/// Whether this is `hello` of the peer, at this place, or owned.
fn is_hello(given: &TurnPeerData<&[u8]>, place: Option<(usize, usize)>) -> bool {
    let found = match given.place() {
        Some(range) => Some((range.start, range.end)),
        None => None,
    };
    let sender = (given.transport, given.peer);
    found == place
        && sender == (TransportType::Udp, PEER.address())
        && given.data() == b"hello".as_slice()
}

/// Whether these bytes bring `hello` of the peer, at this place of them, or owned.
fn brings<C: TurnClientApi>(
    client: &mut C,
    bytes: &[u8],
    place: Option<(usize, usize)>,
) -> Result<bool, AllocError> {
    let packet = Transmit::new(bytes, client.transport(), server(), local());
    match client.recv(packet, at(NOW))? {
        TurnRecvRet::PeerData(given) => Ok(is_hello(&given, place)),
        _ => Ok(false),
    }
}

/// Whether these bytes are handled, and bring nothing.
fn is_handled<C: TurnClientApi>(client: &mut C, bytes: &[u8]) -> Result<bool, AllocError> {
    let packet = Transmit::new(bytes, client.transport(), server(), local());
    Ok(matches!(client.recv(packet, at(NOW))?, TurnRecvRet::Handled))
}

/// Asserts it for a message and a frame that lie in the caller's bytes.
fn brings_both<C: TurnClientApi>(
    rt: &impl Abort,
    alloc: Global,
    client: Result<C, CredentialsError>,
) -> Result<(), Fail> {
    let mut client = client?;
    bound(alloc, &mut client)?;
    let message = brings(&mut client, DATA, IN_INDICATION);
    let frame = brings(&mut client, FRAME, IN_FRAME);
    // a scope at whose end a client is dropped can take minutes to prove
    drop(client);
    check(rt, message?, 36);
    check(rt, frame?, 4);
    Ok(())
}

#[test]
fn data_is_a_part_of_a_datagram(rt: HostRuntime) -> Result<(), Fail> {
    brings_both(&rt, rt.alloc(), client_over_udp(rt.alloc()))?;
    brings_both(&rt, rt.alloc(), either_over_udp(rt.alloc()))
}

#[test]
fn data_is_a_part_of_a_piece(rt: HostRuntime) -> Result<(), Fail> {
    brings_both(&rt, rt.alloc(), client_over_tcp(rt.alloc()))?;
    brings_both(&rt, rt.alloc(), either_over_tcp(rt.alloc()))
}

/// Asserts it for a message of which each of two pieces has a part.
fn owns<C: TurnClientApi>(
    rt: &impl Abort,
    alloc: Global,
    client: Result<C, CredentialsError>,
) -> Result<(), Fail> {
    let mut client = client?;
    bound(alloc, &mut client)?;
    let begun = is_handled(&mut client, &DATA[..38]);
    let ended = brings(&mut client, &DATA[38..], None);
    drop(client);
    check(rt, begun?, 38);
    check(rt, ended?, 44);
    Ok(())
}

#[test]
fn data_of_two_pieces_is_owned(rt: HostRuntime) -> Result<(), Fail> {
    owns(&rt, rt.alloc(), client_over_tcp(rt.alloc()))
}
