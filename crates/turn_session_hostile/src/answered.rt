//! What a call was answered, without what has to be dropped.

use std::net::SocketAddr;
use turn_client_api::TurnPollRet;
use turn_client_calls::Reply;
use turn_hostile_net::fault::Fault;
use turn_session_book::answers::Answer;
use turn_session_book::events::Event;
use turn_session_lines::reply::SessionReply;

/// What a call was answered.
#[derive(Clone, Copy)]
pub enum Answered {
    /// Nothing is due until this time, in nanoseconds.
    Wait(u64),
    /// The session has ended.
    Over,
    /// A data connection with this number to this peer is to be opened.
    Open(u32, SocketAddr),
    /// The data connection from this end is to be closed.
    Close(SocketAddr),
    /// A packet is to be sent from the first address to the second.
    Packet(SocketAddr, SocketAddr),
    /// This event was reported.
    Event(Event),
    /// Data of this peer was received.
    Payload(SocketAddr),
    /// Input was processed.
    Handled,
    /// A request of the caller was answered so.
    Answer(Answer),
    /// What the caller says of a key was accepted, or the permission is there for which it tests.
    Yes,
    /// It was not.
    No,
    /// There is no packet, no event, no data or no answer.
    Nothing,
    /// Nothing else that is looked at.
    Other,
}

/// What a call with this reply was answered. The bytes of its packet or payload are put in `bytes`.
///
/// # Errors
///
/// If memory allocation fails.
pub fn answered_by(reply: &SessionReply, bytes: &mut Vec<u8>) -> Result<Answered, Fault> {
    bytes.clear();
    match reply {
        SessionReply::OfClient(reply) => answered_by_client(reply, bytes),
        SessionReply::Event(Some(event)) => Ok(Answered::Event(*event)),
        SessionReply::Answer(Some(answer)) => Ok(Answered::Answer(*answer)),
        SessionReply::Event(None) | SessionReply::Answer(None) => Ok(Answered::Nothing),
        SessionReply::Kept(kept) => Ok(yes_or_no(kept.is_ok())),
        _ => Ok(Answered::Other),
    }
}

/// The same for a call that the client has too.
fn answered_by_client(reply: &Reply, bytes: &mut Vec<u8>) -> Result<Answered, Fault> {
    match reply {
        Reply::Poll(polled) => Ok(answered_by_poll(polled)),
        Reply::Transmit(Some(packet)) | Reply::SendTo(Ok(packet)) => {
            bytes.extend_from_slice(packet.payload.as_bytes())?;
            Ok(Answered::Packet(packet.from, packet.to))
        }
        Reply::Transmit(None) | Reply::NoData => Ok(Answered::Nothing),
        Reply::PeerData(given) => {
            bytes.extend_from_slice(given.data.as_bytes())?;
            Ok(Answered::Payload(given.peer))
        }
        Reply::Handled => Ok(Answered::Handled),
        Reply::HavePermission(holds) => Ok(yes_or_no(*holds)),
        Reply::AllocatedTcpSocket(taken) => Ok(yes_or_no(taken.is_ok())),
        _ => Ok(Answered::Other),
    }
}

fn answered_by_poll(polled: &TurnPollRet) -> Answered {
    match polled {
        TurnPollRet::WaitUntil(until) => Answered::Wait(until.as_nanos()),
        TurnPollRet::AllocateTcpSocket { id, peer_addr, .. } => Answered::Open(*id, *peer_addr),
        TurnPollRet::TcpClose { local_addr, .. } => Answered::Close(*local_addr),
        TurnPollRet::Closed => Answered::Over,
    }
}

fn yes_or_no(holds: bool) -> Answered {
    if holds { Answered::Yes } else { Answered::No }
}
