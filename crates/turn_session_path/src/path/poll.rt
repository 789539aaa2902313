//! What is due on the path.

ghost use Rattle.std.specs.Prelude.{◌≡◌};
ghost use Rattle.turn_session_path.specs.PathDue.{IsLater, path_due};
ghost use Rattle.turn_session_path.specs.PathPoll.{check_task, error_request_task, errors_task, full_task, path_step, probe_task};
ghost use Rattle.turn_session_path.specs.PathPoll.{begin_step, begun_step, counts, end_step, round_task};

use crate::asked::{Asked, AskedStep};
use crate::constants::{RUN, SENDING};
use crate::full_stream::FullStep;
use crate::path::{ErrorRequest, Path, PathCheck, PathTask};
use crate::prober::Prober;
use crate::probes::Probes;
use crate::round::CheckRequest;
use crate::socket_errors::ErrorStep;
use std::time::Duration;
use turn_session_book::causes::Why;
use turn_stun::instant::Instant;
use turn_stun::transport::TransportType;

impl Path {
    /// The next thing to be done now, or none. Call it until it returns none, and again at the time that `due` returns then, which
    /// is later than now.
    pub fn poll(&mut self, now: Instant) -> Option<PathTask>
        ensures step { (result, self.new) ≡ path_step now self.old }
        ensures later { result ≡ None → IsLater now (path_due self.new) }
    {
        self.poll_parts(now)
    }

    /// What is due in the first part in which something is.
    fn poll_parts(&mut self, now: Instant) -> Option<PathTask>
        ensures { (result, self.new) ≡ path_step now self.old }
    {
        if let Some(task) = self.poll_errors(now) {
            return Some(task);
        }
        if let Some(task) = self.poll_error_request() {
            return Some(task);
        }
        if let Some(task) = self.poll_full(now) {
            return Some(task);
        }
        if let Some(task) = self.poll_check(now) {
            return Some(task);
        }
        self.poll_probe(now)
    }

    /// The errors of the socket: a further Binding request, or the end.
    fn poll_errors(&mut self, now: Instant) -> Option<PathTask>
        ensures { (result, self.new) ≡ errors_task now self.old }
    {
        match self.errors.poll(now) {
            ErrorStep::Ended(tag) => Some(PathTask::End(Why::SocketErrors(tag))),
            ErrorStep::SendBinding => {
                self.error_request = ErrorRequest::Due;
                None
            }
            _ => None,
        }
    }

    /// The Binding request after an error.
    fn poll_error_request(&mut self) -> Option<PathTask>
        ensures { (result, self.new) ≡ error_request_task self.old }
    {
        match self.error_request {
            ErrorRequest::Due => {
                let id = self.ids.draw();
                self.error_request = ErrorRequest::Sent(id);
                Some(PathTask::Send(CheckRequest::Binding, id))
            }
            _ => None,
        }
    }

    /// A stream that has been full for too long.
    fn poll_full(&self, now: Instant) -> Option<PathTask>
        ensures { result ≡ full_task now self.now }
    {
        match self.full.poll(now) {
            FullStep::Ended => Some(PathTask::End(Why::StreamFull)),
            _ => None,
        }
    }

    /// The caller's check.
    fn poll_check(&mut self, now: Instant) -> Option<PathTask>
        ensures { (result, self.new) ≡ check_task now self.old }
    {
        let Some(check) = self.check else {
            return None;
        };
        let mut asked = check.asked;
        match asked.poll(self.transport, now) {
            AskedStep::Send(request, id) => {
                self.check = Some(PathCheck {
                    ticket: check.ticket,
                    asked,
                });
                Some(PathTask::Send(request, id))
            }
            AskedStep::WaitUntil(_time) => None,
            AskedStep::Unanswered => {
                self.check = None;
                Some(PathTask::Unanswered(check.ticket))
            }
        }
    }

    /// The probe that is under way, or that begins.
    fn poll_probe(&mut self, now: Instant) -> Option<PathTask>
        ensures { (result, self.new) ≡ probe_task now self.old }
    {
        let Some(prober) = self.prober else {
            return None;
        };
        let Prober { probes, asked } = prober;
        match asked {
            Some(asked) => self.poll_round(probes, asked, now),
            None => self.begin_probe(probes, now),
        }
    }

    /// A probe that begins if it is due.
    fn begin_probe(&mut self, probes: Probes, now: Instant) -> Option<PathTask>
        ensures { (result, self.new) ≡ begin_step now probes self.old }
    {
        if now < probes.due {
            return None;
        }
        self.first_of_round(probes, now)
    }

    /// The first request of a round that begins now.
    fn first_of_round(&mut self, probes: Probes, now: Instant) -> Option<PathTask>
        ensures { (result, self.new) ≡ begun_step now probes self.old }
    {
        let mut asked = Asked::new(probes.asks, &mut self.ids, now);
        match asked.poll(self.transport, now) {
            AskedStep::Send(request, id) => {
                self.prober = Some(Prober {
                    probes,
                    asked: Some(asked),
                });
                Some(PathTask::Send(request, id))
            }
            _ => None,
        }
    }

    /// The next request of this round of a probe, or its end.
    fn poll_round(&mut self, probes: Probes, asked: Asked, now: Instant) -> Option<PathTask>
        ensures { (result, self.new) ≡ round_task now probes asked self.old }
    {
        let mut after = asked;
        match after.poll(self.transport, now) {
            AskedStep::Send(request, id) => {
                self.prober = Some(Prober {
                    probes,
                    asked: Some(after),
                });
                Some(PathTask::Send(request, id))
            }
            AskedStep::WaitUntil(_time) => None,
            AskedStep::Unanswered => self.end_round(probes, after.round.began, now),
        }
    }

    /// The end of a round that had no response. One that does not count leads to nothing, and the next one begins if it is due.
    fn end_round(&mut self, probes: Probes, began: Instant, now: Instant) -> Option<PathTask>
        ensures { (result, self.new) ≡ end_step now probes began self.old }
    {
        let counts = self.counts(began);
        let mut after = probes;
        let is_over = after.unanswered(counts, now);
        self.prober = Some(Prober {
            probes: after,
            asked: None,
        });
        if !counts {
            return self.begin_probe(after, now);
        }
        if is_over {
            return Some(PathTask::End(Why::Unanswered(RUN)));
        }
        Some(PathTask::Doubt)
    }

    /// Whether silence in a round that began then counts: over a stream data that was sent within 10 s before delays responses.
    fn counts(&self, began: Instant) -> bool
        ensures { result ≡ counts began self.now }
    {
        let Some(sent) = self.sent else {
            return true;
        };
        match self.transport {
            TransportType::Udp => true,
            TransportType::Tcp => sent.plus(Duration::from_nanos(SENDING)) <= began,
        }
    }
}
