//! The answer of a call.

ghost use Rattle.std.specs.Prelude.{◌≡◌, ◌≤◌, ◌^◌, IfOk, Some};
ghost use Rattle.turn_session_lines.specs.Reply.{IsCallable, RepliesTo, after_report, due_reply};

mod data;

use crate::call::{Report, SessionCall};
use crate::reply::data::{data_closed, data_failed, data_opened, poll_recv, recv, send};
use std::alloc::{AllocError, Global};
use turn_client_api::{TurnClientApi, TurnPollRet};
use turn_client_calls::Reply;
use turn_session::due::Due;
use turn_session::session::Session;
use turn_session_book::answers::{Answer, CallError};
use turn_session_book::events::Event;
use turn_session_book::held::HeldGrant;
use turn_session_counts::counters::Counters;
use turn_stun::instant::Instant;

/// The answer of a call.
#[derive(Debug, Drop)]
pub enum SessionReply {
    /// That of a call that the client has too.
    OfClient(Reply),
    /// The next event, or none.
    Event(Option<Event>),
    /// What a request, a check of the path or data for a peer was answered, or how far a key has come, if it has.
    Answer(Option<Answer>),
    /// Whether there is such a grant or request.
    Kept(Result<(), CallError>),
    /// What was granted.
    Grants(Vec<HeldGrant>),
    /// Until when the server may keep the allocation, if it may.
    KeptUntil(Option<Instant>),
    /// The requests that were sent, in numbers.
    Counters(Counters),
    /// The data is too long for a message to the server.
    TooLong,
}

/// Makes this call on the session and returns its answer. A packet for a peer is built at once, and data of a peer is copied.
///
/// # Errors
///
/// If memory allocation for the call fails, or for an answer that is a copy of bytes or of grants. `poll` and `request` say in their
/// answers that memory was wanted.
pub fn reply_to<C: TurnClientApi>(
    alloc: Global,
    session: &mut Session<C>,
    call: SessionCall,
) -> Result<SessionReply, AllocError>
    requires callable { IsCallable call }
    ensures { IfOk result (λ reply. RepliesTo call session.old reply session.new) }
{
    match call {
        SessionCall::Poll { now } => Ok(SessionReply::OfClient(Reply::Poll(session.poll(now)))),
        SessionCall::PollTransmit { now } => poll_transmit(session, now),
        SessionCall::PollEvent => Ok(SessionReply::Event(session.poll_event())),
        SessionCall::Next { now } => next(session, now),
        SessionCall::Recv { transmit, now } => recv(alloc, session, transmit, now),
        SessionCall::PollRecv { now } => poll_recv(alloc, session, now),
        SessionCall::Send {
            transport,
            to,
            data,
            now,
        } => send(alloc, session, transport, to, &data, now),
        SessionCall::HavePermission { transport, to } => Ok(SessionReply::OfClient(
            Reply::HavePermission(session.have_permission(transport, to)),
        )),
        SessionCall::Request {
            key,
            is_for_data,
            now,
        } => Ok(answered(session.request(key, is_for_data, now))),
        SessionCall::SetKept { key, is_kept } => {
            Ok(SessionReply::Kept(session.set_kept(key, is_kept)))
        }
        SessionCall::GrantOf { key, now } => Ok(SessionReply::Answer(session.grant_of(key, now))),
        SessionCall::Grants => grants(alloc, session),
        SessionCall::KeptUntil => Ok(SessionReply::KeptUntil(session.may_be_kept_until())),
        SessionCall::Counters => Ok(SessionReply::Counters(session.counters())),
        SessionCall::Check { now } => Ok(answered(session.check(now))),
        SessionCall::Abandon { now } => abandon(session, now),
        SessionCall::DataOpened {
            id,
            socket,
            peer,
            local,
            now,
        } => Ok(data_opened(session, id, socket, peer, local, now)),
        SessionCall::DataFailed {
            id,
            socket,
            peer,
            now,
        } => Ok(data_failed(session, id, socket, peer, now)),
        SessionCall::DataClosed {
            local,
            peer,
            tag,
            now,
        } => data_closed(session, local, peer, tag, now),
        SessionCall::Report { report, now } => {
            note_report(session, report, now);
            Ok(SessionReply::OfClient(Reply::Done))
        }
    }
}

/// The reply with this answer.
fn answered(answer: Answer) -> SessionReply
    ensures { result ≡ SessionReply.Answer (Some answer) }
{
    SessionReply::Answer(Some(answer))
}

/// Reports this to the session.
fn note_report<C: TurnClientApi>(session: &mut Session<C>, report: Report, now: Instant)
    ensures { session.new ≡ after_report report now session.old }
{
    match report {
        Report::SocketError(tag) => session.socket_error(tag, now),
        Report::SocketEnded(tag) => session.socket_ended(tag),
        Report::NoRoute(tag) => session.no_route(tag),
        Report::HostMoved(tag) => session.host_moved(tag, now),
        Report::Full => session.full(now),
        Report::Room => session.room(),
        Report::DataWritten => session.data_written(now),
        Report::Leave => session.leave(now),
    }
}

/// Takes the next packet.
fn poll_transmit<C: TurnClientApi>(
    session: &mut Session<C>,
    now: Instant,
) -> Result<SessionReply, AllocError>
    requires now_in_range { now ≤ 2 ^ 62 }
    ensures { IfOk result (λ reply. RepliesTo (SessionCall.PollTransmit now) session.old reply session.new) }
{
    Ok(SessionReply::OfClient(Reply::Transmit(session.poll_transmit(now)?)))
}

/// Takes what is due next.
fn next<C: TurnClientApi>(
    session: &mut Session<C>,
    now: Instant,
) -> Result<SessionReply, AllocError>
    requires now_in_range { now ≤ 2 ^ 62 }
    ensures { IfOk result (λ reply. RepliesTo (SessionCall.Next now) session.old reply session.new) }
{
    let due = session.next(now)?;
    Ok(due_reply(due))
}

/// The reply that says what is due, as the call would for it alone.
fn due_reply(due: Due) -> SessionReply
    ensures { result ≡ due_reply due }
{
    match due {
        Due::Connection(polled) => SessionReply::OfClient(Reply::Poll(polled)),
        Due::Packet(packet) => SessionReply::OfClient(Reply::Transmit(Some(packet))),
        Due::Event(event) => SessionReply::Event(Some(event)),
        Due::Wait(time) => SessionReply::OfClient(Reply::Poll(TurnPollRet::WaitUntil(time))),
        Due::Over => SessionReply::OfClient(Reply::Poll(TurnPollRet::Closed)),
    }
}

/// Copies what was granted.
fn grants<C: TurnClientApi>(alloc: Global, session: &Session<C>) -> Result<SessionReply, AllocError>
    ensures { IfOk result (λ reply. RepliesTo SessionCall.Grants session.now reply session.now) }
{
    Ok(SessionReply::Grants(Vec::from_slice(alloc, session.grants())?))
}

/// Ends the session at once.
fn abandon<C: TurnClientApi>(
    session: &mut Session<C>,
    now: Instant,
) -> Result<SessionReply, AllocError>
    requires now_in_range { now ≤ 2 ^ 62 }
    ensures { IfOk result (λ reply. RepliesTo (SessionCall.Abandon now) session.old reply session.new) }
{
    Ok(SessionReply::OfClient(Reply::Transmit(session.abandon(now)?)))
}
