//! The next task of a client.

ghost use Rattle.std.specs.Prelude.{◌≡◌, ◌≤◌, ◌^◌, IfOk, OnErr, OnOk};
ghost use Rattle.turn_driver.specs.Next.{AnswersRest, NextEnds, PollEnds, SendEnds, answer_of, next_step, poll_answer, waiting};

use crate::task::{Rest, Task};
use std::alloc::AllocError;
use turn_client_api::{TurnClientApi, TurnPollRet};
use turn_stun::instant::Instant;

/// The next task of a client, or none.
#[derive(Debug, Drop)]
pub enum Next {
    /// Do this, and poll again.
    Do(Task),
    /// There is nothing to do now.
    Rest(Rest),
}

/// The next task of the client: a payload from its streams, a data connection to open or to close, an event, or
/// a packet to send. If there is none, what follows.
///
/// # Errors
///
/// Memory allocation failed in the last call of the client: `poll_recv`, `poll` or `poll_transmit`. The client
/// has then ended, as the docs of that call say.
pub fn next_task<C: TurnClientApi>(client: &mut C, now: Instant) -> Result<Next, AllocError>
    requires now_in_range { now ≤ 2 ^ 62 }
    ensures answer { IfOk result (λ next. answer_of next ≡ (next_step now (C.state client.old)).0) }
    ensures after { OnOk result (C.state client.new ≡ (next_step now (C.state client.old)).1) }
    ensures restful { IfOk result (λ next. AnswersRest (answer_of next) now (C.state client.new)) }
    ensures no_memory { OnErr result (NextEnds now (C.state client.old) (C.state client.new)) }
{
    // The streams first (our choice): `poll` then speaks of the client as they left it.
    match client.poll_recv(now)? {
        Some(payload) => Ok(Next::Do(Task::Payload(payload))),
        None => poll(client, now),
    }
}

/// The next thing that `poll` returns, or else a pending event or packet.
fn poll<C: TurnClientApi>(client: &mut C, now: Instant) -> Result<Next, AllocError>
    requires now_in_range { now ≤ 2 ^ 62 }
    ensures answer { IfOk result (λ next. answer_of next ≡ (poll_answer now (C.state client.old)).0) }
    ensures after { OnOk result (C.state client.new ≡ (poll_answer now (C.state client.old)).1) }
    ensures restful { IfOk result (λ next. AnswersRest (answer_of next) now (C.state client.new)) }
    ensures no_memory { OnErr result (PollEnds now (C.state client.old) (C.state client.new)) }
{
    match client.poll(now)? {
        TurnPollRet::AllocateTcpSocket {
            id,
            socket,
            peer_addr,
        } => Ok(Next::Do(Task::Open {
            id,
            socket,
            peer_addr,
        })),
        TurnPollRet::TcpClose {
            local_addr,
            remote_addr,
        } => Ok(Next::Do(Task::Close {
            local_addr,
            remote_addr,
        })),
        TurnPollRet::WaitUntil(time) => {
            if now < time {
                Ok(Next::Rest(Rest::Until(time)))
            } else {
                what_waits(client, now, Rest::Now)
            }
        }
        TurnPollRet::Closed => what_waits(client, now, Rest::Ended),
    }
}

/// A pending event or packet, or else this rest.
fn what_waits<C: TurnClientApi>(
    client: &mut C,
    now: Instant,
    rest: Rest,
) -> Result<Next, AllocError>
    requires now_in_range { now ≤ 2 ^ 62 }
    ensures answer { IfOk result (λ next. answer_of next ≡ (waiting now rest (C.state client.old)).0) }
    ensures after { OnOk result (C.state client.new ≡ (waiting now rest (C.state client.old)).1) }
    ensures no_memory { OnErr result (SendEnds now (C.state client.old) (C.state client.new)) }
{
    if let Some(event) = client.poll_event() {
        return Ok(Next::Do(Task::Event(event)));
    }
    match client.poll_transmit(now)? {
        Some(packet) => Ok(Next::Do(Task::Send(packet))),
        None => Ok(Next::Rest(rest)),
    }
}
