//! The checks of the path to the server, with the request that is to be sent next and the results that are to be reported.

ghost use Rattle.std.specs.Prelude.{◌≡◌};
ghost use Rattle.turn_session_life.specs.Watch.{after_look, after_opening, after_task, next_wait, shared_ticket, watch_step};
ghost use Rattle.turn_session_life.specs.Watch.{watched_check, watched_response, watching};
ghost use Rattle.turn_session_life.specs.Watch.{given_up, taken_move, taken_request, taken_result};

use std::net::SocketAddr;
use turn_agent::NumberSource;
use turn_session_book::causes::Why;
use turn_session_path::path::{Path, PathResponse, PathTask};
use turn_session_path::round::CheckRequest;
use turn_stun::instant::Instant;
use turn_stun::transaction::TransactionId;
use turn_stun::transport::TransportType;

/// A request of the path, which is not signed and has no attributes.
#[derive(Clone, Copy, Debug, PartialEq, Eq)]
pub struct OwnRequest {
    /// Its kind.
    pub request: CheckRequest,
    /// Its ID.
    pub id: TransactionId,
}

/// The result of a check of the caller.
#[derive(Clone, Copy, Debug)]
pub struct Checked {
    /// The ticket of the check.
    pub ticket: u32,
    /// Whether the server responded.
    pub is_answered: bool,
    /// This client's address, as the server sees it.
    pub mapped: Option<SocketAddr>,
}

/// What the checks lead to.
#[derive(Clone, Copy, Debug)]
pub enum WatchStep {
    /// A request is to be sent, or a result reported. Poll again after that.
    Now,
    /// Nothing before this time.
    WaitUntil(Instant),
    /// Nothing.
    Idle,
    /// The allocation is in doubt. Poll again.
    Doubt,
    /// The server sees another address of this client than before. Poll again.
    Moved,
    /// The session is to end.
    End(Why),
}

/// The checks of the path to the server.
#[derive(Debug, Drop)]
pub struct Watch {
    /// The path.
    pub path: Path,
    /// The request that is to be sent next.
    pub outbox: Option<OwnRequest>,
    /// The result that is to be reported.
    pub result: Option<Checked>,
    /// This client's address, as the server said last.
    pub mapped: Option<SocketAddr>,
    /// The address of a move that is to be reported.
    pub moved: Option<SocketAddr>,
    /// Whether there was a move since the last poll.
    pub is_moved: bool,
}

impl Watch {
    /// A path that is probed with this time between two probes, in nanoseconds, or with `None` only when the caller asks. The IDs
    /// of its requests are those of the source.
    pub fn new(
        transport: TransportType,
        every: Option<u64>,
        ids: NumberSource,
        now: Instant,
    ) -> Watch
        ensures { result ≡ watching transport every ids now }
    {
        Watch {
            path: Path::new(transport, every, ids, now),
            outbox: None,
            result: None,
            mapped: None,
            moved: None,
            is_moved: false,
        }
    }

    /// The session is open from now on, at this address of the client as the server sees it, and its path is probed.
    pub fn open(&mut self, every: Option<u64>, mapped: Option<SocketAddr>, now: Instant)
        ensures { self.new ≡ after_opening every mapped now self.old }
    {
        self.path.probe(every, now);
        self.mapped = mapped;
    }

    /// The caller asks whether the path carries packets. Returns the ticket under which the result is reported: that of a check that
    /// is under way, or whose result was not reported yet, or else this one, and a check begins.
    pub fn check(&mut self, ticket: u32, now: Instant) -> u32
        ensures ticket { result ≡ shared_ticket ticket self.old }
        ensures after { self.new ≡ watched_check ticket now self.old }
    {
        match self.result {
            Some(checked) => checked.ticket,
            None => self.path.check(ticket, now),
        }
    }

    /// What is due now.
    pub fn poll(&mut self, now: Instant) -> WatchStep
        ensures { (result, self.new) ≡ watch_step now self.old }
    {
        if self.is_moved {
            self.is_moved = false;
            return WatchStep::Moved;
        }
        if self.outbox.is_some() {
            return WatchStep::Now;
        }
        match self.path.poll(now) {
            Some(task) => self.take(task),
            None => self.wait(),
        }
    }

    /// What a task of the path leads to.
    fn take(&mut self, task: PathTask) -> WatchStep
        ensures { (result, self.new) ≡ after_task task self.old }
    {
        match task {
            PathTask::Send(request, id) => {
                self.outbox = Some(OwnRequest { request, id });
                WatchStep::Now
            }
            PathTask::Unanswered(ticket) => {
                self.result = Some(Checked {
                    ticket,
                    is_answered: false,
                    mapped: None,
                });
                WatchStep::Now
            }
            PathTask::Doubt => WatchStep::Doubt,
            PathTask::End(why) => WatchStep::End(why),
        }
    }

    /// A response with this ID was received, with this client's address as it says. Returns whether it answers a request of the
    /// path: then it is none for the client. Otherwise nothing changes.
    pub fn respond(&mut self, id: TransactionId, mapped: Option<SocketAddr>, now: Instant) -> bool
        ensures { (result, self.new) ≡ watched_response id mapped now self.old }
    {
        match self.path.respond(id, now) {
            PathResponse::Other => false,
            PathResponse::Check(ticket) => {
                self.result = Some(Checked {
                    ticket,
                    is_answered: true,
                    mapped,
                });
                self.look(mapped);
                true
            }
            PathResponse::Own => {
                self.look(mapped);
                true
            }
        }
    }

    /// The request that is to be sent next. It is sent from now on.
    pub fn take_request(&mut self) -> Option<OwnRequest>
        ensures { (result, self.new) ≡ taken_request self.old }
    {
        let request = self.outbox;
        self.outbox = None;
        request
    }

    /// The result that is to be reported. It is from now on.
    pub fn take_result(&mut self) -> Option<Checked>
        ensures { (result, self.new) ≡ taken_result self.old }
    {
        let checked = self.result;
        self.result = None;
        checked
    }

    /// Gives up the check of the caller that is under way, if there is one. It had no response.
    pub fn give_up_check(&mut self) -> Option<Checked>
        ensures { (result, self.new) ≡ given_up self.old }
    {
        let check = self.path.check?;
        self.path.check = None;
        Some(Checked {
            ticket: check.ticket,
            is_answered: false,
            mapped: None,
        })
    }

    /// This client's new address, if a move is to be reported. It is from now on.
    pub fn take_move(&mut self) -> Option<SocketAddr>
        ensures { (result, self.new) ≡ taken_move self.old }
    {
        let moved = self.moved;
        self.moved = None;
        moved
    }

    /// When something is due next.
    fn wait(&self) -> WatchStep
        ensures { result ≡ next_wait self.now }
    {
        match self.path.due() {
            Some(time) => WatchStep::WaitUntil(time),
            None => WatchStep::Idle,
        }
    }

    /// Compares an address of this client with the one before: a NAT that has given it a new one has moved it.
    fn look(&mut self, mapped: Option<SocketAddr>)
        ensures { self.new ≡ after_look mapped self.old }
    {
        let Some(address) = mapped else {
            return;
        };
        if let Some(before) = self.mapped {
            if before != address {
                self.moved = mapped;
                self.is_moved = true;
            }
        }
        self.mapped = mapped;
    }
}
