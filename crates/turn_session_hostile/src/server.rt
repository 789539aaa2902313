//! The server: for a while it answers, is silent, has lost all allocations, has another password, or refuses.

use turn_hostile_net::draws::Draws;
use turn_hostile_net::forge::{challenge_of, grant_of, refusal_of};
use turn_hostile_net::message::Signer;
use turn_hostile_net::packet::{Effect, Truth};
use turn_hostile_net::request::{Purpose, Request};
use turn_hostile_net::response::{Response, signed};
use turn_hostile_net::world::{Kind, SECOND};

/// What the server does with requests.
#[derive(Clone, Copy)]
enum Mood {
    /// It grants what is requested, or seldom refuses it.
    Well,
    /// It answers nothing.
    Silent,
    /// It was restarted, and has lost the allocation (RFC 8656, section 7.2).
    Forgetful,
    /// It was restarted with another password, so it challenges whatever is signed.
    OtherPassword,
    /// It refuses all that is signed, by this error code.
    Refusing(u16),
}

/// The error codes of a server that refuses.
const CODES: [u16; 8] = [403, 486, 508, 500, 400, 401, 437, 441];

/// The server of a run.
#[derive(Clone, Copy)]
pub struct Server {
    mood: Mood,
    /// When it is well again, in nanoseconds.
    until: u64,
    /// Whether it answers Binding requests.
    pub answers_binding: bool,
    /// The port of the client, as the server sees it.
    pub mapped: u16,
}

impl Server {
    /// A server that is well, and mostly answers Binding requests.
    pub fn new(draws: &mut Draws) -> Server {
        Server {
            mood: Mood::Well,
            until: 0,
            answers_binding: draws.percent(80),
            mapped: 5_000,
        }
    }

    /// Its mood changes, or the NAT before it gives the client another port.
    pub fn change(&mut self, draws: &mut Draws, now: u64) {
        let seconds = draws.below(40);
        self.until = now.saturating_add(seconds.saturating_mul(SECOND));
        self.mood = match draws.below(16) {
            0..=6 => Mood::Silent,
            7 => Mood::Forgetful,
            8 => Mood::OtherPassword,
            9..=11 => Mood::Refusing(drawn_code(draws)),
            12 | 13 => {
                self.mapped = self.mapped.saturating_add(1);
                self.mood
            }
            _ => Mood::Well,
        };
    }

    /// Whether it answers nothing at this time.
    pub fn is_silent(&self, now: u64) -> bool {
        matches!(self.mood_at(now), Mood::Silent)
    }

    /// Its response to this request, if it is not silent.
    pub fn response_to(
        &self,
        draws: &mut Draws,
        kind: Kind,
        request: Request,
        now: u64,
    ) -> Option<Response> {
        match self.mood_at(now) {
            Mood::Silent => None,
            _ if !request.is_signed || draws.percent(4) => Some(challenge_of(draws, request)),
            Mood::Well => Some(answer_of(draws, kind, request)),
            Mood::Forgetful => Some(forgetful(draws, request)),
            Mood::OtherPassword => Some(challenged(draws, request)),
            Mood::Refusing(code) => Some(signed(request, Effect::Denied(code))),
        }
    }

    fn mood_at(&self, now: u64) -> Mood {
        if now < self.until {
            self.mood
        } else {
            Mood::Well
        }
    }
}

fn drawn_code(draws: &mut Draws) -> u16 {
    let place = draws.below(8) as usize;
    CODES.get(place).copied().unwrap_or(403)
}

/// The server grants what is requested, or seldom refuses it.
fn answer_of(draws: &mut Draws, kind: Kind, request: Request) -> Response {
    let may_refuse = kind.second.is_some() || !matches!(request.purpose, Purpose::Allocate);
    let effect = if may_refuse && draws.percent(6) {
        refusal_of(request.purpose)
    } else {
        grant_of(draws, request)
    };
    signed(request, effect)
}

/// The server does not know the allocation, but would grant another one.
fn forgetful(draws: &mut Draws, request: Request) -> Response {
    let effect = match request.purpose {
        Purpose::Allocate => grant_of(draws, request),
        _ => Effect::Denied(437),
    };
    signed(request, effect)
}

/// The server finds that the signature is wrong.
fn challenged(draws: &mut Draws, request: Request) -> Response {
    Response {
        signer: Signer::Nobody,
        truth: Truth::Nothing,
        ..signed(request, Effect::Challenged(401, draws.number()))
    }
}
