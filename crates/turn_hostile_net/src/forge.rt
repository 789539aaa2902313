//! What the server answers, and what is made of it by others.

use crate::draws::Draws;
use crate::message::Signer;
use crate::packet::{Effect, Truth};
use crate::request::{Purpose, Request};
use crate::response::{Response, answer_to, counts_once, signed};
use crate::world::elsewhere;
use turn_stun::message::method::Method;
use turn_types::message::{ALLOCATE, SEND};

/// The lifetimes of allocations, in seconds.
const LIFETIMES: [u32; 8] = [600, 60, 100, 130, 900, 3_600, 1_000, 700];

/// What the server grants by a signed success.
pub fn grant_of(draws: &mut Draws, request: Request) -> Effect {
    match request.purpose {
        Purpose::Allocate => {
            let place = draws.below(8) as usize;
            Effect::Allocated(LIFETIMES.get(place).copied().unwrap_or(600))
        }
        Purpose::Refresh => Effect::Refreshed(if draws.percent(10) { 300 } else { 600 }),
        Purpose::Delete => Effect::Refreshed(0),
        Purpose::Permit(peer) => Effect::Permitted(peer.ip()),
        Purpose::Bind(number, peer) => Effect::Bound(number, peer),
        Purpose::Connect(peer) => Effect::Connected(draws.number(), peer),
        Purpose::BindConnection(_) => Effect::ConnectionBound(request.end),
    }
}

/// What the server refuses by a signed error.
pub fn refusal_of(purpose: Purpose) -> Effect {
    match purpose {
        Purpose::Bind(number, peer) => Effect::ChannelRefused(number, peer),
        _ => Effect::Refused,
    }
}

/// The server, or somebody else, wants another nonce.
pub fn challenge_of(draws: &mut Draws, request: Request) -> Response {
    let code = if request.is_signed { 438 } else { 401 };
    let effect = Effect::Challenged(code, draws.number());
    Response {
        signer: Signer::Nobody,
        truth: Truth::Nothing,
        ..signed(request, effect)
    }
}

/// A response that is not the server's to this request, or not all of it.
pub fn forgery_of(draws: &mut Draws, request: Request) -> Response {
    let effect = grant_of(draws, request);
    let forged = Response {
        has_tail: draws.percent(50),
        truth: Truth::Nothing,
        ..signed(request, effect)
    };
    let method = other_than(request.method);
    match draws.below(8) {
        0 => with_signer(forged, Signer::Nobody),
        1 => with_signer(forged, Signer::Stranger),
        2 => with_id(forged, draws.id()),
        3 => with_signer(Response { method, ..forged }, Signer::Nobody),
        4 => with_signer(Response { method, ..forged }, Signer::Stranger),
        5 => challenge_of(draws, request),
        6 => of_method(forged, request, method),
        _ => Response {
            from: elsewhere(),
            ..forged
        },
    }
}

fn with_signer(response: Response, signer: Signer) -> Response {
    Response { signer, ..response }
}

fn with_id(response: Response, id: [u8; 12]) -> Response {
    Response { id, ..response }
}

/// A response that the server signs, of a method that is not the request's: the request has no other response then.
fn of_method(forged: Response, request: Request, method: Method) -> Response {
    if !counts_once(request.purpose) {
        return with_signer(forged, Signer::Nobody);
    }
    Response {
        method,
        truth: answer_to(request, Effect::Refused),
        ..forged
    }
}

/// A method that is not this one.
fn other_than(method: Method) -> Method {
    if method == ALLOCATE { SEND } else { ALLOCATE }
}
