//! Packets that answer no request.

use crate::draws::Draws;
use crate::facts::{Fact, Facts};
use crate::fault::Fault;
use crate::message::{Part, Signer, Title, message};
use crate::packet::{Packet, Truth};
use crate::world::{Kind, PEERS, drawn_friend, elsewhere, local, number_of, peer, server};
use std::alloc::Global;
use std::net::SocketAddr;
use turn_stun::message::header::MessageClass;
use turn_stun::message::method::Method;
use turn_stun::transport::TransportType;
use turn_types::message::{CONNECTION_ATTEMPT, DATA};

/// The number of a peer that is never permitted. What comes over a channel has it too.
const STRANGER: u8 = 7;

/// The least channel number (RFC 8656, section 12).
const FIRST_CHANNEL: u16 = 0x4000;

/// Data of a peer or of a stranger, an offer, or noise.
///
/// # Errors
///
/// If memory allocation fails.
pub fn stray_of(
    alloc: Global,
    draws: &mut Draws,
    kind: Kind,
    facts: &Facts,
    due: u64,
) -> Result<Packet, Fault> {
    let friend = drawn_friend(draws, kind);
    let anyone = peer(draws.below(PEERS));
    match draws.below(10) {
        0 | 1 => data(alloc, draws, friend, due),
        2 => data(alloc, draws, anyone, due),
        3 | 4 | 5 => granted(alloc, draws, facts, friend, due),
        6 => {
            let number = FIRST_CHANNEL.saturating_add(u16::from(draws.byte() / 8));
            let bytes = frame(alloc, draws, number)?;
            Ok(packet(due, local(), bytes))
        }
        7 => offer(alloc, draws, anyone, due),
        8 => Ok(Packet {
            from: elsewhere(),
            ..data(alloc, draws, friend, due)?
        }),
        _ => noise(alloc, draws, kind, due),
    }
}

/// Bytes of the server to this end, of which the client may believe nothing.
fn packet(due: u64, to: SocketAddr, bytes: Vec<u8>) -> Packet {
    Packet {
        due,
        from: server(),
        to,
        bytes,
        truth: Truth::Nothing,
    }
}

/// A DATA indication with bytes of this peer.
fn data(alloc: Global, draws: &mut Draws, peer: SocketAddr, due: u64) -> Result<Packet, Fault> {
    let bytes = payload(alloc, draws, number_of(peer))?;
    let parts = [Part::Peer(peer), Part::Data(bytes.as_slice())];
    let bytes = indication(alloc, draws.id(), DATA, &parts)?;
    Ok(packet(due, local(), bytes))
}

/// The offer of a data connection (RFC 6062, section 4.4).
fn offer(alloc: Global, draws: &mut Draws, peer: SocketAddr, due: u64) -> Result<Packet, Fault> {
    let id = draws.number();
    let parts = [Part::Connection(id), Part::Peer(peer)];
    let bytes = indication(alloc, draws.id(), CONNECTION_ATTEMPT, &parts)?;
    Ok(Packet {
        due,
        from: server(),
        to: local(),
        bytes,
        truth: Truth::Offers(id, peer),
    })
}

fn indication(
    alloc: Global,
    id: [u8; 12],
    method: Method,
    parts: &[Part<'_>],
) -> Result<Vec<u8>, Fault> {
    let title = Title {
        method,
        class: MessageClass::Indication,
        id,
    };
    message(alloc, title, parts, Signer::Nobody, &[])
}

/// Data over a channel or a data connection that may be active, or else of this peer.
fn granted(
    alloc: Global,
    draws: &mut Draws,
    facts: &Facts,
    friend: SocketAddr,
    due: u64,
) -> Result<Packet, Fault> {
    match facts.fact_at(draws.below(12) as usize) {
        Some(Fact::Channel(number, _)) => {
            let bytes = frame(alloc, draws, number)?;
            Ok(packet(due, local(), bytes))
        }
        Some(Fact::Connection(end, peer)) => {
            let bytes = payload(alloc, draws, number_of(peer))?;
            Ok(packet(due, end, bytes))
        }
        _ => data(alloc, draws, friend, due),
    }
}

/// What is no message. Over TCP it would break the stream, so that it comes from elsewhere.
fn noise(alloc: Global, draws: &mut Draws, kind: Kind, due: u64) -> Result<Packet, Fault> {
    let bytes = payload(alloc, draws, STRANGER)?;
    let from = match kind.transport {
        TransportType::Udp => server(),
        TransportType::Tcp => elsewhere(),
    };
    Ok(Packet {
        due,
        from,
        to: local(),
        bytes,
        truth: Truth::Nothing,
    })
}

/// Bytes of the peer with this number, which each of them names by its last three bits.
///
/// # Errors
///
/// If memory allocation fails.
pub fn payload(alloc: Global, draws: &mut Draws, number: u8) -> Result<Vec<u8>, Fault> {
    let mut bytes = Vec::new(alloc);
    for _ in 0..draws.below(40).saturating_add(1) {
        bytes.push((draws.byte() & 0xf8) | (number & 0x07))?;
    }
    Ok(bytes)
}

/// A frame over the channel with this number (RFC 8656, section 12.4). Nothing authenticates it, so each byte of its data
/// names the channel, if it is one of the first 32, and not a peer: whose it is when it arrives is the client's to know.
fn frame(alloc: Global, draws: &mut Draws, number: u16) -> Result<Vec<u8>, Fault> {
    let [_, low] = number.to_be_bytes();
    let [len, ..] = draws.below(40).to_le_bytes();
    let mut frame = Vec::from_slice(alloc, &number.to_be_bytes())?;
    frame.extend_from_slice(&[0, len])?;
    for _ in 0..len {
        frame.push((low & 0x1f) * 8 + STRANGER)?;
    }
    for _ in 0..3 {
        if frame.len() % 4 != 0 {
            frame.push(0)?;
        }
    }
    Ok(frame)
}

/// Whether all bytes name this peer, or a channel to it that may be active.
pub fn are_of(bytes: &[u8], peer: SocketAddr, facts: &Facts) -> bool {
    for byte in bytes {
        let number = FIRST_CHANNEL.saturating_add(u16::from(*byte / 8));
        let is_named = match *byte % 8 {
            STRANGER => facts.has(Fact::Channel(number, peer)),
            low => low == number_of(peer),
        };
        if !is_named {
            return false;
        }
    }
    true
}
