//! What the C library exports, but for the pointers.

ghost use Rattle.std.specs.Prelude.{◌≡◌, Ok, IfErr, IfOk};
ghost use Rattle.turn_c_calls.specs.Head.{Responds};
ghost use Rattle.turn_c_calls.specs.Look.{LooksAt};
ghost use Rattle.turn_c_calls.specs.Open.{Refuses, session_of};

use crate::answer::Answer;
use crate::by_kind::{
    abandon, bare, poll, poll_event, poll_recv, poll_transmit, read, recv, refuse, send_head,
    send_to,
};
use crate::code::{ABANDON, SEND_HEAD};
use crate::opening::{OpenError, new_session};
use crate::request::{Kind, Request, kind_of};
use crate::session::Session;
use crate::settings::Settings;
use std::alloc::Global;

/// A new session in a box, as [`new_session`] makes it.
///
/// # Errors
///
/// As for [`new_session`].
pub fn start(
    alloc: Global,
    settings: &Settings,
    user: &[u8],
    password: &[u8],
    seed: &[u8],
) -> Result<Box<Session>, OpenError>
    ensures ok { IfOk result (λ session. session_of settings.now user.now password.now seed.now ≡ Ok session.value) }
    ensures err { IfErr result (Refuses (session_of settings.now user.now password.now seed.now)) }
{
    let session = new_session(alloc, settings, user, password, seed)?;
    match Box::new(alloc, session) {
        Ok(session) => Ok(session),
        Err(_) => Err(OpenError::OutOfMemory),
    }
}

/// Answers a request with its data, or for a head with the length of the data alone, and returns the kind of the answer.
/// Bytes of the answer are written to the buffer.
#[inline(always)]
pub fn step(
    session: &mut Session,
    alloc: Global,
    request: &Request,
    bytes: &[u8],
    len: usize,
    buffer: &mut [u8],
    answer: &mut Answer,
) -> u32
    ensures step { Responds request.now bytes.now len session.old session.new buffer.old buffer.new answer.old answer.new }
    ensures kind { result ≡ answer.new.kind }
{
    if request.kind == SEND_HEAD {
        return send_head(session, request, len, buffer, answer);
    }
    if request.kind == ABANDON {
        return abandon(session, request, buffer, answer);
    }
    match kind_of(request.kind) {
        None => refuse(session, request, answer),
        Some(Kind::SendTo) => send_to(session, request, bytes, buffer, answer),
        Some(Kind::Recv) => recv(session, alloc, request, bytes, buffer, answer),
        Some(Kind::PollRecv) => poll_recv(session, request, bytes, buffer, answer),
        Some(Kind::PollTransmit) => poll_transmit(session, request, bytes, buffer, answer),
        Some(Kind::Read) => read(session, request, bytes, buffer, answer),
        Some(Kind::Poll) => poll(session, request, answer),
        Some(Kind::PollEvent) => poll_event(session, request, answer),
        Some(kind) => bare(session, kind, request, answer),
    }
}

/// Answers a request that only looks at the client, and returns the kind of the answer.
pub fn look(session: &Session, request: &Request, answer: &mut Answer) -> u32
    ensures looks { LooksAt request.now session.now answer.old answer.new }
    ensures kind { result ≡ answer.new.kind }
{
    session.look(request, answer);
    answer.kind
}

/// Drops a session.
pub fn finish(session: Box<Session>) {
    drop(session);
}
