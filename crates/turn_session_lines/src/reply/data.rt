//! The answers of calls about data of peers, and about data connections.

ghost use Rattle.std.specs.Prelude.{◌≡◌, ◌≤◌, ◌^◌, IfOk};
ghost use Rattle.turn_session_lines.specs.Reply.{RepliesTo, reply_of};

use crate::call::SessionCall;
use crate::reply::SessionReply;
use std::alloc::{AllocError, Global};
use std::net::SocketAddr;
use turn_client_api::{Socket5Tuple, TurnClientApi};
use turn_client_calls::{Reply, drained, received};
use turn_session::sent::{SendRefusal, Sent};
use turn_session::session::Session;
use turn_session_book::tags::Tag;
use turn_stun::data::Data;
use turn_stun::instant::Instant;
use turn_stun::transport::{Transmit, TransportType};

/// The caller's number of the error by which a data connection could not be opened, of which a line says no more.
const NOT_OPENED: Tag = Tag(0);

/// Passes in a packet, of which a copy of a peer's data is returned.
pub(crate) fn recv<C: TurnClientApi>(
    alloc: Global,
    session: &mut Session<C>,
    transmit: Transmit<Data>,
    now: Instant,
) -> Result<SessionReply, AllocError>
    requires now_in_range { now ≤ 2 ^ 62 }
    ensures { IfOk result (λ reply. RepliesTo (SessionCall.Recv transmit now) session.old reply session.new) }
{
    let returned = session.recv(transmit, now)?;
    Ok(SessionReply::OfClient(received(alloc, returned)?))
}

/// Takes the next data of a peer that the streams hold.
pub(crate) fn poll_recv<C: TurnClientApi>(
    alloc: Global,
    session: &mut Session<C>,
    now: Instant,
) -> Result<SessionReply, AllocError>
    requires now_in_range { now ≤ 2 ^ 62 }
    ensures { IfOk result (λ reply. RepliesTo (SessionCall.PollRecv now) session.old reply session.new) }
{
    let returned = session.poll_recv(now)?;
    Ok(SessionReply::OfClient(drained(alloc, returned)?))
}

/// Makes the packet with this data for a peer, or requests the permission for it.
pub(crate) fn send<C: TurnClientApi>(
    alloc: Global,
    session: &mut Session<C>,
    transport: TransportType,
    to: SocketAddr,
    data: &Data,
    now: Instant,
) -> Result<SessionReply, AllocError>
    requires now_in_range { now ≤ 2 ^ 62 }
    ensures { IfOk result (λ reply. RepliesTo (SessionCall.Send transport to data.now now) session.old reply session.new) }
{
    let given = session.send(transport, to, data.as_bytes(), now);
    reply_of(alloc, given)
}

/// The reply that says what the session returned for data for a peer, with a packet built.
fn reply_of(
    alloc: Global,
    given: Result<Sent<&[u8]>, SendRefusal>,
) -> Result<SessionReply, AllocError>
    ensures { IfOk result (λ reply. reply ≡ reply_of given.entry) }
{
    match given {
        Ok(Sent::Packet(packet)) => {
            let packet = packet.build(alloc)?;
            Ok(SessionReply::OfClient(Reply::SendTo(Ok(packet))))
        }
        Ok(Sent::Requested(answer)) => Ok(SessionReply::Answer(Some(answer))),
        Err(SendRefusal::TooLong) => Ok(SessionReply::TooLong),
        Err(SendRefusal::Refused(refusal)) => {
            Ok(SessionReply::OfClient(Reply::SendTo(Err(refusal))))
        }
    }
}

/// A data connection was opened.
pub(crate) fn data_opened<C: TurnClientApi>(
    session: &mut Session<C>,
    id: u32,
    socket: Socket5Tuple,
    peer: SocketAddr,
    local: SocketAddr,
    now: Instant,
) -> SessionReply
    requires now_in_range { now ≤ 2 ^ 62 }
    ensures { RepliesTo (SessionCall.DataOpened id socket peer local now) session.old result session.new }
{
    SessionReply::OfClient(Reply::AllocatedTcpSocket(session.data_opened(
        id, socket, peer, local, now,
    )))
}

/// A data connection could not be opened.
pub(crate) fn data_failed<C: TurnClientApi>(
    session: &mut Session<C>,
    id: u32,
    socket: Socket5Tuple,
    peer: SocketAddr,
    now: Instant,
) -> SessionReply
    requires now_in_range { now ≤ 2 ^ 62 }
    ensures { RepliesTo (SessionCall.DataFailed id socket peer now) session.old result session.new }
{
    SessionReply::OfClient(Reply::AllocatedTcpSocket(session.data_failed(
        id, socket, peer, NOT_OPENED, now,
    )))
}

/// A data connection was closed.
pub(crate) fn data_closed<C: TurnClientApi>(
    session: &mut Session<C>,
    local: SocketAddr,
    peer: SocketAddr,
    tag: Tag,
    now: Instant,
) -> Result<SessionReply, AllocError>
    requires now_in_range { now ≤ 2 ^ 62 }
    ensures { IfOk result (λ reply. RepliesTo (SessionCall.DataClosed local peer tag now) session.old reply session.new) }
{
    session.data_closed(local, peer, tag, now)?;
    Ok(SessionReply::OfClient(Reply::Done))
}
