//! The session of a run, as the head of its lines describes it (`turn_session_lines`).

ghost use Rattle.std.specs.Prelude.{◌≡◌, IfOk};

use std::alloc::Global;
use turn_client_proto::client::TurnClient;
use turn_hostile_net::draws::Draws;
use turn_hostile_net::fault::Fault;
use turn_hostile_net::head::head_words;
use turn_hostile_net::world::{Kind, MS, SECOND};
use turn_line_client::client::new_client;
use turn_lines::field::FieldError;
use turn_session::session::Session;
use turn_session_lines::head::{SessionHead, parse_session_head};
use turn_stun::instant::Instant;
use turn_types::TransportType;

/// The drawn settings of a session.
#[derive(Clone, Copy)]
pub struct Setup {
    /// The time between two probes of the path, in nanoseconds, or 0.
    pub probe: u64,
    /// Whether the server is asked if it still knows the allocation.
    pub checks_allocation: bool,
    /// How long leaving takes at most, in nanoseconds.
    pub leave_wait: u64,
}

/// Times between two probes.
const PROBES: [u64; 4] = [0, SECOND, 5 * SECOND, 15 * SECOND];

/// Times that leaving takes.
const LEAVE_WAITS: [u64; 3] = [2 * SECOND, 300 * MS, 10 * SECOND];

impl Setup {
    /// The settings of the run of this seed.
    pub fn new(seed: u64) -> Setup {
        let mut draws = Draws::new(seed.saturating_add(2_000_000));
        let (probe, leave) = (draws.below(4) as usize, draws.below(3) as usize);
        Setup {
            probe: PROBES.get(probe).copied().unwrap_or(0),
            checks_allocation: draws.percent(50),
            leave_wait: LEAVE_WAITS.get(leave).copied().unwrap_or(SECOND),
        }
    }

    /// The line of the head of a session of this kind.
    ///
    /// # Errors
    ///
    /// If memory allocation fails.
    pub fn head_line(&self, alloc: Global, kind: Kind, seed: u64) -> Result<String, Fault> {
        let client = head_words(alloc, kind, seed, "")?;
        let (probe, leave) = (self.probe, self.leave_wait);
        let checks = if self.checks_allocation { 1 } else { 0 };
        Ok(format!(in alloc; "session {probe},{checks},0,{leave} {client}")?)
    }
}

/// A new session, as this line of a head describes it.
///
/// # Errors
///
/// `Wrong` if the line is no head, and `OutOfMemory` if memory allocation fails.
pub fn new_session(alloc: Global, line: &str) -> Result<Session<TurnClient>, Fault> {
    let SessionHead {
        client,
        settings,
        seed,
    } = head_in(alloc, line)?;
    let client = new_client(alloc, client)?;
    Ok(Session::new(alloc, client, settings, seed, Instant::ZERO))
}

/// What this line of a head describes.
///
/// # Errors
///
/// `Wrong` if the line is no head, and `OutOfMemory` if memory allocation fails.
fn head_in(alloc: Global, line: &str) -> Result<SessionHead, Fault>
    ensures { IfOk result (λ head.
        head.client.ends.transport ≡ TransportType.Udp → head.client.request.allocation ≡ TransportType.Udp) }
{
    match parse_session_head(alloc, line.as_bytes()) {
        Ok(head) => {
            let ends = (head.client.ends.transport, head.client.request.allocation);
            match ends {
                (TransportType::Udp, TransportType::Tcp) => {
                    Err(Fault::Wrong("the server cannot relay over TCP"))
                }
                _ => Ok(head),
            }
        }
        Err(FieldError::Malformed) => Err(Fault::Wrong("the line of the head is no head")),
        Err(FieldError::OutOfMemory) => Err(Fault::OutOfMemory),
    }
}
