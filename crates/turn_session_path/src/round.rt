//! The requests of one round of a path check.

ghost use Rattle.std.specs.Prelude.{◌≡◌};
ghost use Rattle.turn_session_path.specs.Rounds.{begun_at, due_time, next_place, next_place_over_stream, request_at, round_step};

use crate::constants::{CHECK, SECOND_SEND, THIRD_SEND};
use std::time::Duration;
use turn_stun::instant::Instant;
use turn_stun::transport::TransportType;

/// What a round asks the server by.
#[derive(Clone, Copy, Debug, PartialEq, Eq)]
pub enum Asks {
    /// A check of the caller: Binding requests.
    Binding,
    /// A probe: Binding requests, and then a bare CREATE_PERMISSION, which a server that answers no Binding request refuses.
    Both,
    /// A probe of a server that has answered nothing but the bare CREATE_PERMISSION.
    Bare,
}

/// A request of a round. It is not signed, and changes nothing.
#[derive(Clone, Copy, Debug, PartialEq, Eq)]
pub enum CheckRequest {
    /// A Binding request (RFC 8489, section 12).
    Binding,
    /// A CREATE_PERMISSION request without attributes.
    BarePermission,
}

/// What a round does next.
#[derive(Clone, Copy, Debug, PartialEq, Eq)]
pub enum RoundStep {
    /// It sends this request now.
    Send(CheckRequest),
    /// Nothing before this time.
    WaitUntil(Instant),
    /// It had no response in time.
    Unanswered,
}

/// One round of a path check, until it is answered or over.
#[derive(Clone, Copy, Debug)]
pub struct Round {
    /// What it asks by.
    pub asks: Asks,
    /// When it began.
    pub began: Instant,
    /// The place of its next request, from 0 to 2, or 3 after the last one.
    pub place: u8,
}

impl Round {
    /// A round that begins now: its first request is due.
    pub fn new(asks: Asks, now: Instant) -> Round
        ensures { result ≡ begun_at asks now }
    {
        Round {
            asks,
            began: now,
            place: 0,
        }
    }

    /// When it sends its next request, or is over: its requests are due at 0, 0.5 and 1.5 s, and it is over at 3.5 s.
    pub fn due(&self) -> Instant
        ensures { result ≡ due_time self.now }
    {
        let after = match self.place {
            0 => 0,
            1 => SECOND_SEND,
            2 => THIRD_SEND,
            _ => CHECK,
        };
        self.began.plus(Duration::from_nanos(after))
    }

    /// Sends the next request if it is due, or ends the round after the last one. Over a stream no request is sent twice.
    pub fn poll(&mut self, transport: TransportType, now: Instant) -> RoundStep
        ensures { (result, self.new) ≡ round_step transport now self.old }
    {
        let due = self.due();
        if now < due {
            return RoundStep::WaitUntil(due);
        }
        if self.place > 2 {
            return RoundStep::Unanswered;
        }
        let request = self.request();
        self.place = self.next_place(transport);
        RoundStep::Send(request)
    }

    /// Its next request.
    fn request(&self) -> CheckRequest
        ensures { result ≡ request_at self.now.asks self.now.place }
    {
        match self.asks {
            Asks::Both => {
                if self.place < 2 {
                    CheckRequest::Binding
                } else {
                    CheckRequest::BarePermission
                }
            }
            Asks::Binding => CheckRequest::Binding,
            Asks::Bare => CheckRequest::BarePermission,
        }
    }

    /// The place of the request after the next one.
    fn next_place(&self, transport: TransportType) -> u8
        ensures { result ≡ next_place transport self.now.asks self.now.place }
    {
        match transport {
            TransportType::Udp => self.place.saturating_add(1).min(3),
            TransportType::Tcp => self.next_place_over_stream(),
        }
    }

    /// The same over a stream.
    fn next_place_over_stream(&self) -> u8
        ensures { result ≡ next_place_over_stream self.now.asks self.now.place }
    {
        match self.asks {
            Asks::Both => { if self.place == 0 { 2 } else { 3 } }
            Asks::Binding => 3,
            Asks::Bare => 3,
        }
    }
}
