//! What came of a call, without what has to be dropped.

use crate::acts::Act;
use std::net::SocketAddr;
use turn_client_api::{TurnEvent, TurnPollRet};
use turn_client_calls::Reply;
use turn_hostile_net::facts::{Fact, Facts};
use turn_hostile_net::fault::{Fault, expect};
use turn_hostile_net::model::Model;
use turn_hostile_net::world::{local, server};
use turn_types::channel::ChannelData;

/// What came of a call.
#[derive(Clone, Copy)]
pub enum Outcome {
    /// Nothing is due until this time, in nanoseconds.
    Wait(u64),
    /// A data connection with this number to this peer is to be opened.
    Open(u32, SocketAddr),
    /// The data connection from this end is to be closed.
    Close(SocketAddr),
    /// A packet is to be sent from the first address to the second.
    Packet(SocketAddr, SocketAddr),
    /// This event was reported.
    Event(TurnEvent),
    /// Data of this peer was received.
    Payload(SocketAddr),
    /// Input was processed.
    Handled,
    /// What the caller requests is pending, or the permission is there for which it tests.
    Accepted,
    /// Nothing else that is looked at.
    Other,
}

/// What came of a call with this reply. The bytes of its packet or payload are put in `bytes`.
///
/// # Errors
///
/// If memory allocation fails.
pub fn outcome_of(reply: &Reply, bytes: &mut Vec<u8>) -> Result<Outcome, Fault> {
    bytes.clear();
    match reply {
        Reply::Poll(TurnPollRet::WaitUntil(until)) => Ok(Outcome::Wait(until.as_nanos())),
        Reply::Poll(TurnPollRet::AllocateTcpSocket { id, peer_addr, .. }) => {
            Ok(Outcome::Open(*id, *peer_addr))
        }
        Reply::Poll(TurnPollRet::TcpClose { local_addr, .. }) => Ok(Outcome::Close(*local_addr)),
        Reply::Transmit(Some(packet)) | Reply::SendTo(Ok(packet)) => {
            bytes.extend_from_slice(packet.payload.as_bytes())?;
            Ok(Outcome::Packet(packet.from, packet.to))
        }
        Reply::Event(Some(event)) => Ok(Outcome::Event(*event)),
        Reply::PeerData(given) => {
            bytes.extend_from_slice(given.data.as_bytes())?;
            Ok(Outcome::Payload(given.peer))
        }
        Reply::Handled => Ok(Outcome::Handled),
        Reply::CreatePermission(Ok(()))
        | Reply::BindChannel(Ok(()))
        | Reply::TcpConnect(Ok(()))
        | Reply::Delete(Ok(()))
        | Reply::SetPermissionKept(Ok(()))
        | Reply::SetChannelKept(Ok(()))
        | Reply::HavePermission(true) => Ok(Outcome::Accepted),
        _ => Ok(Outcome::Other),
    }
}

/// Checks what came of a drawn call, and notes in the model what it allows.
///
/// # Errors
///
/// `Wrong` if it may not come, and `OutOfMemory` if memory allocation fails.
pub fn learn(
    model: &mut Model,
    act: Act,
    outcome: Outcome,
    bytes: &[u8],
    now: u64,
) -> Result<(), Fault> {
    if let (Act::Send(_, peer, _), Outcome::Packet(from, to)) = (act, outcome) {
        expect(to == server(), "data is sent elsewhere")?;
        return expect_sent(&model.facts, peer, from, bytes);
    }
    if !matches!(outcome, Outcome::Accepted) {
        return Ok(());
    }
    match act {
        Act::Permit(relays, ip) => model.request_permission(relays, ip),
        Act::Bind(relays, peer) => model.request_channel(relays, peer, now),
        Act::Connect(peer) => model.events.allow(TurnEvent::TcpConnectFailed(peer)),
        Act::Keep(_, what, is_kept) => expect(
            model.marks.say(what, is_kept),
            "what was never requested is kept or let go",
        ),
        Act::Have(_, ip) => expect(
            model.facts.has(Fact::Permitted(ip)),
            "a permission was not granted",
        ),
        Act::Delete => {
            model.delete();
            Ok(())
        }
        _ => Ok(()),
    }
}

/// Checks a packet for a peer, sent from this end: the peer is permitted, and a frame names no other.
fn expect_sent(
    facts: &Facts,
    peer: SocketAddr,
    from: SocketAddr,
    bytes: &[u8],
) -> Result<(), Fault> {
    expect(
        facts.has(Fact::Permitted(peer.ip())),
        "data is sent to a peer that is not permitted",
    )?;
    let is_named = if from != local() {
        facts.has(Fact::ConnectionTo(peer))
    } else {
        match ChannelData::parse(bytes) {
            Ok(frame) => facts.has(Fact::Channel(frame.id(), peer)),
            Err(_) => true,
        }
    };
    expect(is_named, "data is sent to another peer")
}
