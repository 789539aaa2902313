//! Responses, before they are written.

use crate::fault::Fault;
use crate::message::{Part, Signer, Title, message};
use crate::packet::{Answer, Effect, Packet, Truth};
use crate::request::{Purpose, Request};
use crate::world::{Kind, relayed, server};
use std::alloc::Global;
use std::net::SocketAddr;
use turn_stun::message::header::MessageClass;
use turn_stun::message::method::Method;
use turn_types::message::{ALLOCATE, REFRESH};

/// A response, and who sends it to whom.
#[derive(Clone, Copy)]
pub struct Response {
    /// Its method.
    pub method: Method,
    /// Its transaction ID.
    pub id: [u8; 12],
    /// What it would do if the server had signed it.
    pub effect: Effect,
    /// Who signs it.
    pub signer: Signer,
    /// Whether attributes follow its integrity that would grant more.
    pub has_tail: bool,
    /// What the client may believe of it.
    pub truth: Truth,
    /// Where it comes from.
    pub from: SocketAddr,
    /// The end of the client to which it goes.
    pub to: SocketAddr,
}

/// The server's signed response to this request, with this effect.
pub fn signed(request: Request, effect: Effect) -> Response {
    let id = request.id;
    Response {
        method: request.method,
        id,
        effect,
        signer: Signer::Server,
        has_tail: false,
        truth: answer_to(request, effect),
        from: server(),
        to: request.end,
    }
}

/// The signed response to this request is known by its ID.
pub fn answer_to(request: Request, effect: Effect) -> Truth {
    let id = request.id;
    Truth::Answers(Answer {
        id,
        effect,
        counts_once: counts_once(request.purpose),
    })
}

/// A client that waits for its allocation processes whatever is signed for an ALLOCATE of its own, and all that comes on
/// a data connection counts.
pub fn counts_once(purpose: Purpose) -> bool {
    !matches!(purpose, Purpose::Allocate | Purpose::BindConnection(_))
}

/// The packet of a response, which arrives then.
///
/// # Errors
///
/// If memory allocation fails.
pub fn packet_of(alloc: Global, kind: Kind, response: Response, due: u64) -> Result<Packet, Fault> {
    let bytes = bytes_of(alloc, kind, response)?;
    Ok(Packet {
        due,
        from: response.from,
        to: response.to,
        bytes,
        truth: response.truth,
    })
}

fn bytes_of(alloc: Global, kind: Kind, response: Response) -> Result<Vec<u8>, Fault> {
    let lifetime = Part::Lifetime(86_400);
    let more = [lifetime, Part::Relayed(relayed(kind.first, 9))];
    let tail: &[Part<'_>] = if response.has_tail { &more } else { &[] };
    let title = title_of(response);
    let signer = response.signer;
    match response.effect {
        Effect::Refused | Effect::ChannelRefused(..) => {
            let code = Part::Error(code_of(response.method));
            message(alloc, title, &[code], signer, tail)
        }
        Effect::Denied(code) => message(alloc, title, &[Part::Error(code)], signer, tail),
        Effect::Challenged(code, nonce) => {
            let parts = [Part::Error(code), Part::Realm, Part::Nonce(nonce)];
            message(alloc, title, &parts, signer, tail)
        }
        Effect::Allocated(seconds) => allocation(alloc, kind, title, seconds, signer, tail),
        Effect::Refreshed(seconds) => {
            message(alloc, title, &[Part::Lifetime(seconds)], signer, tail)
        }
        Effect::Connected(id, _) => message(alloc, title, &[Part::Connection(id)], signer, tail),
        Effect::Permitted(_) | Effect::Bound(..) | Effect::ConnectionBound(_) => {
            message(alloc, title, &[], signer, tail)
        }
    }
}

/// The success of an ALLOCATE.
fn allocation(
    alloc: Global,
    kind: Kind,
    title: Title,
    seconds: u32,
    signer: Signer,
    tail: &[Part<'_>],
) -> Result<Vec<u8>, Fault> {
    let lifetime = Part::Lifetime(seconds);
    let first = Part::Relayed(relayed(kind.first, 1));
    match kind.second {
        None => message(alloc, title, &[lifetime, first], signer, tail),
        Some(family) => {
            let second = Part::Relayed(relayed(family, 1));
            message(alloc, title, &[lifetime, first, second], signer, tail)
        }
    }
}

fn title_of(response: Response) -> Title {
    let class = match response.effect {
        Effect::Refused | Effect::Denied(_) | Effect::ChannelRefused(..) | Effect::Challenged(..) =>
            MessageClass::Error,
        _ => MessageClass::Success,
    };
    let id = response.id;
    Title {
        method: response.method,
        class,
        id,
    }
}

/// The error code with which the server refuses a request of this method.
fn code_of(method: Method) -> u16 {
    if method == ALLOCATE {
        return 440;
    }
    if method == REFRESH {
        return 437;
    }
    403
}
