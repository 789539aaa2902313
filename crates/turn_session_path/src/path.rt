//! Whether the path to the server still carries packets.

ghost use Rattle.std.specs.Prelude.{◌≡◌};
ghost use Rattle.turn_session_path.specs.Path.{after_check, after_failure, after_full, after_probing, after_room, after_sending};
ghost use Rattle.turn_session_path.specs.Path.{first_path, probed_every, ticket_of};

mod due;
mod poll;
mod responses;

use crate::asked::Asked;
use crate::full_stream::FullStream;
use crate::prober::Prober;
use crate::round::{Asks, CheckRequest};
use crate::socket_errors::SocketErrors;
pub use due::sooner;
use turn_agent::NumberSource;
use turn_session_book::causes::Why;
use turn_session_book::tags::Tag;
use turn_stun::instant::Instant;
use turn_stun::transaction::TransactionId;
use turn_stun::transport::TransportType;

/// A check that the caller asked for. All callers who ask while it is under way have the same ticket.
#[derive(Clone, Copy, Debug)]
pub struct PathCheck {
    /// The number by which its result is reported.
    pub ticket: u32,
    /// Its round.
    pub asked: Asked,
}

/// The Binding request that follows an error of the socket.
#[derive(Clone, Copy, Debug, PartialEq, Eq)]
pub enum ErrorRequest {
    /// There is none.
    Unsent,
    /// It is to be sent now.
    Due,
    /// It was sent with this ID.
    Sent(TransactionId),
}

/// What the path leads to.
#[derive(Clone, Copy, Debug, PartialEq, Eq)]
pub enum PathTask {
    /// This request is to be sent now, with this ID. It is not signed, and has no attributes.
    Send(CheckRequest, TransactionId),
    /// The caller's check with this ticket had no response.
    Unanswered(u32),
    /// A probe had no response, and nothing else was received: the allocation is in doubt.
    Doubt,
    /// The session is to end.
    End(Why),
}

/// What a response is for.
#[derive(Clone, Copy, Debug, PartialEq, Eq)]
pub enum PathResponse {
    /// No request of the path.
    Other,
    /// The caller's check with this ticket.
    Check(u32),
    /// Another request of the path.
    Own,
}

/// The path to the server: the checks of it, and the signs of life that were received.
#[derive(Debug, Drop)]
pub struct Path {
    /// The transport to the server.
    pub transport: TransportType,
    /// The IDs of its requests.
    pub ids: NumberSource,
    /// The caller's check that is under way.
    pub check: Option<PathCheck>,
    /// Its probes, if it is probed.
    pub prober: Option<Prober>,
    /// The errors of the socket, over UDP.
    pub errors: SocketErrors,
    /// The request that follows an error.
    pub error_request: ErrorRequest,
    /// Whether the stream takes bytes.
    pub full: FullStream,
    /// When data was last sent over the stream.
    pub sent: Option<Instant>,
}

impl Path {
    /// A path that is probed with this time between two probes, in nanoseconds, or with `None` only when the caller asks. The IDs
    /// of its requests are those of the source.
    pub fn new(
        transport: TransportType,
        every: Option<u64>,
        ids: NumberSource,
        now: Instant,
    ) -> Path
        ensures { result ≡ first_path transport every ids now }
    {
        Path {
            transport,
            ids,
            check: None,
            prober: first_prober(every, now),
            errors: SocketErrors::new(),
            error_request: ErrorRequest::Unsent,
            full: FullStream::new(),
            sent: None,
        }
    }

    /// From now on the path is probed with this time between two probes, in nanoseconds, or with `None` only when the caller asks.
    pub fn probe(&mut self, every: Option<u64>, now: Instant)
        ensures { self.new ≡ after_probing every now self.old }
    {
        self.prober = first_prober(every, now);
    }

    /// The caller asks whether the path carries packets. Returns the ticket of the check under way, or else begins one with this
    /// ticket: its first request is due.
    pub fn check(&mut self, ticket: u32, now: Instant) -> u32
        ensures ticket { result ≡ ticket_of ticket self.old }
        ensures after { self.new ≡ after_check ticket now self.old }
    {
        match self.check {
            Some(check) => check.ticket,
            None => {
                let asked = Asked::new(Asks::Binding, &mut self.ids, now);
                self.check = Some(PathCheck { ticket, asked });
                ticket
            }
        }
    }

    /// The socket reported an error. Over UDP the first one leads to a Binding request. Over a stream nothing changes: its error
    /// ends it.
    pub fn failed(&mut self, tag: Tag, now: Instant)
        ensures { self.new ≡ after_failure tag now self.old }
    {
        match self.transport {
            TransportType::Udp => {
                if self.errors.failed(tag, now) {
                    self.error_request = ErrorRequest::Due;
                }
            }
            TransportType::Tcp => {}
        }
    }

    /// The stream took no bytes.
    pub fn full(&mut self, now: Instant)
        ensures { self.new ≡ after_full now self.old }
    {
        self.full.full(now);
    }

    /// The stream takes bytes again.
    pub fn room(&mut self)
        ensures { self.new ≡ after_room self.old }
    {
        self.full.moved();
    }

    /// Data was sent over the stream: responses may be late.
    pub fn sent(&mut self, now: Instant)
        ensures { self.new ≡ after_sending now self.old }
    {
        self.sent = Some(now);
    }
}

/// The probes with this time between two, if there is one.
fn first_prober(every: Option<u64>, now: Instant) -> Option<Prober>
    ensures { result ≡ probed_every now every }
{
    match every {
        Some(time) => Some(Prober::new(time, now)),
        None => None,
    }
}
