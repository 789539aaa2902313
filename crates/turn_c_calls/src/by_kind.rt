//! A function for each kind of request whose time counts, and one for the others. Each is compiled apart, so that it saves only
//! the registers and makes only the frame that it needs itself. Each returns the kind of the answer.

ghost use Rattle.std.specs.Prelude.{◌≡◌, Some, None};
ghost use Rattle.turn_c_calls.specs.Abandon.{AbandonSteps};
ghost use Rattle.turn_c_calls.specs.Head.{HeadSteps};
ghost use Rattle.turn_c_calls.specs.Request.{Bare, flow_of, kind_of};
ghost use Rattle.turn_c_calls.specs.Step.{BareSteps, Steps};
ghost use Rattle.turn_c_calls.specs.declared.request.Kind.TheVariants as Kind;

use crate::answer::Answer;
use crate::request::{Kind, Request};
use crate::session::Session;
use std::alloc::Global;

/// Answers a request for a head.
#[inline(never)]
pub fn send_head(
    session: &mut Session,
    request: &Request,
    len: usize,
    buffer: &mut [u8],
    answer: &mut Answer,
) -> u32
    ensures step { HeadSteps request.now len session.old session.new buffer.old buffer.new answer.old answer.new }
    ensures kind { result ≡ answer.new.kind }
{
    session.send_head(request, len, buffer, answer);
    answer.kind
}

/// Answers a request that gives the client up.
#[inline(never)]
pub fn abandon(
    session: &mut Session,
    request: &Request,
    buffer: &mut [u8],
    answer: &mut Answer,
) -> u32
    ensures step { AbandonSteps request.now session.old session.new buffer.old buffer.new answer.old answer.new }
    ensures kind { result ≡ answer.new.kind }
{
    session.abandon(request, buffer, answer);
    answer.kind
}

/// Answers a `send_to`.
#[inline(never)]
pub fn send_to(
    session: &mut Session,
    request: &Request,
    bytes: &[u8],
    buffer: &mut [u8],
    answer: &mut Answer,
) -> u32
    requires { kind_of request.now.kind ≡ Some Kind.SendTo }
    ensures step { Steps request.now bytes.now session.old session.new buffer.old buffer.new answer.old answer.new }
    ensures kind { result ≡ answer.new.kind }
{
    session.answer(Kind::SendTo, request, bytes, buffer, answer);
    answer.kind
}

/// Answers a `recv`.
#[inline(never)]
pub fn recv(
    session: &mut Session,
    alloc: Global,
    request: &Request,
    bytes: &[u8],
    buffer: &mut [u8],
    answer: &mut Answer,
) -> u32
    requires { kind_of request.now.kind ≡ Some Kind.Recv }
    ensures step { Steps request.now bytes.now session.old session.new buffer.old buffer.new answer.old answer.new }
    ensures kind { result ≡ answer.new.kind }
{
    session.recv(alloc, request, bytes, buffer, answer);
    answer.kind
}

/// Answers a `poll_recv`.
#[inline(never)]
pub fn poll_recv(
    session: &mut Session,
    request: &Request,
    bytes: &[u8],
    buffer: &mut [u8],
    answer: &mut Answer,
) -> u32
    requires { kind_of request.now.kind ≡ Some Kind.PollRecv }
    ensures step { Steps request.now bytes.now session.old session.new buffer.old buffer.new answer.old answer.new }
    ensures kind { result ≡ answer.new.kind }
{
    session.answer(Kind::PollRecv, request, bytes, buffer, answer);
    answer.kind
}

/// Answers a `poll_transmit`.
#[inline(never)]
pub fn poll_transmit(
    session: &mut Session,
    request: &Request,
    bytes: &[u8],
    buffer: &mut [u8],
    answer: &mut Answer,
) -> u32
    requires { kind_of request.now.kind ≡ Some Kind.PollTransmit }
    ensures step { Steps request.now bytes.now session.old session.new buffer.old buffer.new answer.old answer.new }
    ensures kind { result ≡ answer.new.kind }
{
    session.answer(Kind::PollTransmit, request, bytes, buffer, answer);
    answer.kind
}

/// Reads the next bytes.
#[inline(never)]
pub fn read(
    session: &mut Session,
    request: &Request,
    bytes: &[u8],
    buffer: &mut [u8],
    answer: &mut Answer,
) -> u32
    requires { kind_of request.now.kind ≡ Some Kind.Read }
    ensures step { Steps request.now bytes.now session.old session.new buffer.old buffer.new answer.old answer.new }
    ensures kind { result ≡ answer.new.kind }
{
    session.answer(Kind::Read, request, bytes, buffer, answer);
    answer.kind
}

/// Answers a `poll`.
#[inline(never)]
pub fn poll(session: &mut Session, request: &Request, answer: &mut Answer) -> u32
    requires { kind_of request.now.kind ≡ Some Kind.Poll }
    ensures step { BareSteps request.now session.old session.new answer.old answer.new }
    ensures kind { result ≡ answer.new.kind }
{
    session.answer_bare(Kind::Poll, request, answer);
    answer.kind
}

/// Answers a `poll_event`, which mostly finds none, so that it is compiled where it is called.
#[inline(always)]
pub fn poll_event(session: &mut Session, request: &Request, answer: &mut Answer) -> u32
    requires { kind_of request.now.kind ≡ Some Kind.PollEvent }
    ensures step { BareSteps request.now session.old session.new answer.old answer.new }
    ensures kind { result ≡ answer.new.kind }
{
    session.answer_bare(Kind::PollEvent, request, answer);
    answer.kind
}

/// Answers another request, which has to do with no bytes, of this kind.
#[inline(never)]
pub fn bare(session: &mut Session, kind: Kind, request: &Request, answer: &mut Answer) -> u32
    requires kind { kind_of request.now.kind ≡ Some kind }
    requires flow { flow_of kind ≡ Bare }
    ensures step { BareSteps request.now session.old session.new answer.old answer.new }
    ensures kind { result ≡ answer.new.kind }
{
    session.answer_bare(kind, request, answer);
    answer.kind
}

/// Answers a request that names no call, which is short enough to be compiled where it is called.
#[inline(always)]
pub fn refuse(session: &mut Session, request: &Request, answer: &mut Answer) -> u32
    requires { kind_of request.now.kind ≡ None }
    ensures step { BareSteps request.now session.old session.new answer.old answer.new }
    ensures kind { result ≡ answer.new.kind }
{
    session.refuse(request, answer);
    answer.kind
}
